//! The bytes of mode data (SPC, SBC).
ghost use Rattle.std.specs.Prelude.{◌≡◌, ◌+◌, ◌≤◌, ◌++◌, Bool, length};
ghost use Rattle.arrayvec.specs.ArrayVec.{array_vec_len};
ghost use Rattle.host_commands.specs.ModeData.{caching_page, control_page, descriptor_bytes, device_parameter, in_effect, mode_bytes, mode_header, mode_pages, write_cache};
ghost use Rattle.host_commands.specs.declared.TheConstants.{MOST_DATA_BYTES};

use crate::fields::{four_bytes_at_most, put};
use crate::{BlockDescriptor, MOST_DATA_BYTES, ModeData, ModeForm, ModePages};
use arrayvec::ArrayVec;

/// The device-specific parameter of a disk that knows DPO and FUA (SBC, DPOFUA).
const DPO_AND_FUA: u8 = 0x10;

/// The same of one that is read only (SBC, WP).
const WRITE_PROTECTED: u8 = 0x80;

/// Writes cached (SBC, WCE).
const WRITES_CACHED: u8 = 0x04;

/// No log parameter is saved by itself (SPC, GLTSD).
const NO_LOG_SAVED: u8 = 0x02;

/// Commands may be reordered (SPC, queue algorithm modifier 1).
const UNRESTRICTED_ORDER: u8 = 0x10;

/// Writes mode data into `into`, which is asked to be empty.
#[tactic(auto, unfolding(crate::specs::ModeData::mode_bytes))]
pub(crate) fn write_mode(mode: &ModeData, into: &mut ArrayVec<u8, MOST_DATA_BYTES>)
    requires { array_vec_len into.old ≡ 0 }
    ensures { into.new.items ≡ mode_bytes mode.now }
{
    let descriptors = descriptors_len(&mode.descriptor);
    let pages = pages_len(mode.pages);
    write_header(
        mode.form,
        mode.read_only,
        descriptors,
        descriptors + pages,
        into,
    );
    write_descriptor(&mode.descriptor, into);
    write_pages(mode.pages, mode.changeable, mode.writes_cached, into);
}

fn descriptors_len(descriptor: &Option<BlockDescriptor>) -> u8
    ensures len { result ≡ length (descriptor_bytes descriptor.now) }
    ensures most { result ≤ 8 }
{
    match descriptor {
        Some(_) => 8,
        None => 0,
    }
}

fn pages_len(pages: ModePages) -> u8
    ensures len { (changeable cached : Bool) → result ≡ length (mode_pages pages changeable cached) }
    ensures most { result ≤ 32 }
{
    match pages {
        ModePages::Caching => 20,
        ModePages::Control => 12,
        ModePages::All => 32,
    }
}

fn write_header(
    form: ModeForm,
    read_only: bool,
    descriptors: u8,
    rest: u8,
    into: &mut ArrayVec<u8, MOST_DATA_BYTES>,
)
    requires empty { array_vec_len into.old ≡ 0 }
    requires short { rest ≤ 40 }
    ensures bytes { into.new.items ≡ mode_header form read_only descriptors rest }
    ensures len { array_vec_len into.new ≤ 8 }
{
    let parameter = device_parameter(read_only);
    match form {
        ModeForm::Six => put(into, &[3 + rest, 0, parameter, descriptors]),
        ModeForm::Ten => put(into, &[0, 6 + rest, 0, parameter, 0, 0, 0, descriptors]),
    }
}

/// The device-specific parameter.
fn device_parameter(read_only: bool) -> u8
    ensures { result ≡ device_parameter read_only }
{
    if read_only {
        DPO_AND_FUA | WRITE_PROTECTED
    } else {
        DPO_AND_FUA
    }
}

fn write_descriptor(descriptor: &Option<BlockDescriptor>, into: &mut ArrayVec<u8, MOST_DATA_BYTES>)
    requires { array_vec_len into.old ≤ 8 }
    ensures bytes { into.new.items ≡ into.old.items ++ descriptor_bytes descriptor.now }
    ensures len { array_vec_len into.new ≤ 16 }
{
    if let Some(descriptor) = descriptor {
        let [high, low] = descriptor.block_length.bytes().to_be_bytes();
        put(into, &four_bytes_at_most(descriptor.blocks));
        put(into, &[0, 0, high, low]);
    }
}

fn write_pages(
    pages: ModePages,
    changeable: bool,
    cached: bool,
    into: &mut ArrayVec<u8, MOST_DATA_BYTES>,
)
    requires { array_vec_len into.old ≤ 16 }
    ensures { into.new.items ≡ into.old.items ++ mode_pages pages changeable cached }
{
    match pages {
        ModePages::Caching => put(into, &caching_page(changeable, cached)),
        ModePages::Control => put(into, &control_page(changeable)),
        ModePages::All => {
            put(into, &caching_page(changeable, cached));
            put(into, &control_page(changeable));
        }
    }
}

fn caching_page(changeable: bool, cached: bool) -> [u8; 20]
    ensures { result ≡ caching_page changeable cached }
{
    let mut page = [0; 20];
    page[0] = 0x08;
    page[1] = 0x12;
    page[2] = in_effect(changeable, write_cache(cached));
    page
}

fn control_page(changeable: bool) -> [u8; 12]
    ensures { result ≡ control_page changeable }
{
    let log = in_effect(changeable, NO_LOG_SAVED);
    let order = in_effect(changeable, UNRESTRICTED_ORDER);
    [0x0a, 0x0a, log, order, 0, 0, 0, 0, 0, 0, 0, 0]
}

/// WCE, where writes are cached.
fn write_cache(cached: bool) -> u8
    ensures { result ≡ write_cache cached }
{
    if cached { WRITES_CACHED } else { 0 }
}

/// Bits that are set in the values in effect and can't be changed.
fn in_effect(changeable: bool, bits: u8) -> u8
    ensures { result ≡ in_effect changeable bits }
{
    if changeable { 0 } else { bits }
}
