//! From data to their bytes.
ghost use Rattle.std.specs.Prelude.{◌≡◌, ◌+◌, ◌≤◌, [], ◌∷◌, ◌++◌, length};
ghost use Rattle.arrayvec.specs.ArrayVec.{array_vec_len};
ghost use Rattle.scsi_cmd.specs.Data.{peripheral_byte};
ghost use Rattle.disk_units.specs.Data.{bit_if, designators, disk_bytes, disk_page_bytes, eui_designator, inquiry_data, limits_bytes, long_capacity_data};
ghost use Rattle.disk_units.specs.Data.{naa_designator, number_designator, page_of_code, unmap_limits, uuid_designator, vendor_designator};
ghost use Rattle.disk_units.specs.declared.TheConstants.{MOST_DISK_BYTES};

use crate::bytes::{eight_bytes, eight_digits, four_bytes, put, two_bytes};
use crate::{
    BlockLimits, DiskData, DiskPage, Eui, Identification, MOST_DISK_BYTES, Naa, UnitNames,
    UnitSerial, UnmapLimits, Uuid,
};
use arrayvec::ArrayVec;

/// Peripheral qualifier and device type where no logical unit is (SPC).
const NO_UNIT: u8 = 0x7f;

/// NAA 3, locally assigned, in the highest four of 64 bits.
const LOCALLY_ASSIGNED: u64 = 3 << 60;

/// SAM-5, UAS, SPC-4 and SBC-3 (SPC, version descriptors).
const VERSIONS: [u8; 8] = [0x00, 0xa0, 0x17, 0x40, 0x04, 0x60, 0x04, 0xc0];

/// The most bytes of designators.
const DESIGNATOR_BYTES: usize = 138;

/// The bytes of limits.
const LIMITS_BYTES: usize = 60;

/// Writes data into `into`, which is asked to be empty.
pub fn write_disk_data(given: &DiskData, into: &mut ArrayVec<u8, MOST_DISK_BYTES>)
    requires { array_vec_len into.old ≡ 0 }
    ensures { into.new.items ≡ disk_bytes given.now }
{
    match given {
        DiskData::Inquiry {
            present,
            removable,
            names,
        } => write_inquiry(*present, *removable, names, into),
        DiskData::Page { page, present } => write_page(page, *present, into),
        DiskData::LongCapacity {
            last_block,
            block_bytes,
            exponent,
            thin,
        } => write_long_capacity(*last_block, *block_bytes, *exponent, *thin, into),
    }
}

fn peripheral_byte(present: bool) -> u8
    ensures { result ≡ peripheral_byte present }
{
    if present { 0 } else { NO_UNIT }
}

fn bit_if(is_set: bool, bit: u8) -> u8
    ensures { result ≡ bit_if is_set bit }
{
    if is_set { bit } else { 0 }
}

#[tactic(auto, unfolding(crate::specs::Data::inquiry_data))]
fn write_inquiry(
    present: bool,
    removable: bool,
    names: &UnitNames,
    into: &mut ArrayVec<u8, MOST_DISK_BYTES>,
)
    requires { array_vec_len into.old ≡ 0 }
    ensures { into.new.items ≡ inquiry_data present removable names.now }
{
    let removable = bit_if(removable, 0x80);
    put(
        into,
        &[peripheral_byte(present), removable, 6, 2, 0x5b, 0, 0, 2],
    );
    put(into, &names.vendor.bytes());
    put(into, &names.product.bytes());
    put(into, &names.revision.bytes());
    put(into, &[0; 22]);
    put(into, &VERSIONS);
    put(into, &[0; 30]);
}

#[tactic(auto, unfolding(crate::specs::Data::long_capacity_data))]
fn write_long_capacity(
    last_block: u64,
    block_bytes: u16,
    exponent: u8,
    thin: bool,
    into: &mut ArrayVec<u8, MOST_DISK_BYTES>,
)
    requires { array_vec_len into.old ≡ 0 }
    ensures { into.new.items ≡ long_capacity_data last_block block_bytes exponent thin }
{
    put(into, &eight_bytes(last_block));
    put(into, &four_bytes(u32::from(block_bytes)));
    put(into, &[0, exponent, bit_if(thin, 0xc0), 0]);
    put(into, &[0; 16]);
}

#[tactic(auto, unfolding(crate::specs::Data::disk_page_bytes))]
fn write_page(page: &DiskPage, present: bool, into: &mut ArrayVec<u8, MOST_DISK_BYTES>)
    requires { array_vec_len into.old ≡ 0 }
    ensures { into.new.items ≡ disk_page_bytes page.now present }
{
    match page {
        DiskPage::SupportedPages => {
            let pages = [0x00, 0x80, 0x83, 0x86, 0xb0, 0xb1, 0xb2];
            put_page(present, 0x00, &pages, into);
        }
        DiskPage::UnitSerialNumber(UnitSerial::Number(number)) => {
            put_page(present, 0x80, &eight_digits(*number), into);
        }
        DiskPage::UnitSerialNumber(UnitSerial::Text(text)) => {
            put_page(present, 0x80, text.as_slice(), into);
        }
        DiskPage::DeviceIdentification(told) => {
            put_page(present, 0x83, &designators(told), into);
        }
        DiskPage::ExtendedInquiry => {
            put(into, &[peripheral_byte(present), 0x86, 0, 0x3c, 0, 1, 1, 0]);
            put(into, &[0; 56]);
        }
        DiskPage::BlockLimits(limits) => {
            put_page(present, 0xb0, &limits_bytes(limits), into);
        }
        DiskPage::Characteristics { rotation, form } => {
            let [high, low] = two_bytes(rotation.rate());
            let peripheral = peripheral_byte(present);
            put(
                into,
                &[peripheral, 0xb1, 0, 0x3c, high, low, 0, form.code()],
            );
            put(into, &[0; 56]);
        }
        DiskPage::Provisioning { thin: true } => {
            put_page(present, 0xb2, &[0, 0xe4, 0x02, 0], into);
        }
        DiskPage::Provisioning { thin: false } => put_page(present, 0xb2, &[0; 4], into),
    }
}

/// The page of a code with what follows, at most 138 bytes.
fn put_page(present: bool, code: u8, follows: &[u8], into: &mut ArrayVec<u8, MOST_DISK_BYTES>)
    requires empty { array_vec_len into.old ≡ 0 }
    requires most { length follows.now ≤ 138 }
    ensures { into.new.items ≡ page_of_code present code follows.now }
{
    put(
        into,
        &[peripheral_byte(present), code, 0, follows.len() as u8],
    );
    put(into, follows);
}

/// The limits behind the first four bytes of their page.
#[tactic(auto, unfolding(crate::specs::Data::limits_bytes))]
fn limits_bytes(limits: &BlockLimits) -> ArrayVec<u8, LIMITS_BYTES>
    ensures bytes { result.items ≡ limits_bytes limits.now }
    ensures len { array_vec_len result ≡ 60 }
{
    let mut into = ArrayVec::new();
    put(&mut into, &[bit_if(limits.no_zero, 1), limits.compared]);
    put(&mut into, &two_bytes(limits.granularity));
    let maximum = four_bytes(u32::from(limits.maximum.blocks()));
    put(&mut into, &maximum);
    put(&mut into, &maximum);
    put(&mut into, &[0; 4]);
    put(&mut into, &unmap_limits(&limits.unmapped));
    put(&mut into, &eight_bytes(limits.same));
    put(&mut into, &[0; 20]);
    into
}

fn unmap_limits(unmapped: &Option<UnmapLimits>) -> [u8; 16]
    ensures { result ≡ unmap_limits unmapped.now }
{
    let Some(limits) = unmapped else {
        return [0; 16];
    };
    let [a, b, c, d] = four_bytes(limits.blocks);
    let [e, f, g, h] = four_bytes(limits.descriptors);
    let [i, j, k, l] = four_bytes(limits.granularity);
    [a, b, c, d, e, f, g, h, i, j, k, l, 0x80, 0, 0, 0]
}

/// All designators of a device identification.
#[tactic(auto, unfolding(crate::specs::Data::designators))]
fn designators(told: &Identification) -> ArrayVec<u8, DESIGNATOR_BYTES>
    ensures { result.items ≡ designators told.now }
{
    let mut into = ArrayVec::new();
    put_vendor(&told.names, &told.serial, &mut into);
    put_number(told, &mut into);
    put_naa(&told.naa, &mut into);
    put_eui(&told.eui, &mut into);
    put_uuid(&told.uuid, &mut into);
    into
}

fn put_vendor(names: &UnitNames, serial: &UnitSerial, into: &mut ArrayVec<u8, DESIGNATOR_BYTES>)
    requires { array_vec_len into.old ≡ 0 }
    ensures bytes { into.new.items ≡ into.old.items ++ vendor_designator names.now serial.now }
    ensures most { array_vec_len into.new ≤ 64 }
{
    match serial {
        UnitSerial::Number(number) => put_named(names, &eight_digits(*number), into),
        UnitSerial::Text(text) => put_named(names, text.as_slice(), into),
    }
}

fn put_named(names: &UnitNames, serial: &[u8], into: &mut ArrayVec<u8, DESIGNATOR_BYTES>)
    requires empty { array_vec_len into.old ≡ 0 }
    requires most { length serial.now ≤ 36 }
    ensures bytes { into.new.items ≡ into.old.items ++ (0x02 ∷ 0x01 ∷ 0 ∷ (24 + length serial.now) ∷ []) ++ names.now.vendor ++ names.now.product ++ serial.now }
    ensures len { array_vec_len into.new ≡ 28 + length serial.now }
{
    put(into, &[0x02, 0x01, 0, 24 + serial.len() as u8]);
    put(into, &names.vendor.bytes());
    put(into, &names.product.bytes());
    put(into, serial);
}

fn put_number(told: &Identification, into: &mut ArrayVec<u8, DESIGNATOR_BYTES>)
    requires { array_vec_len into.old ≤ 64 }
    ensures bytes { into.new.items ≡ into.old.items ++ number_designator told.now.naa told.now.eui told.now.uuid told.now.serial }
    ensures most { array_vec_len into.new ≤ 76 }
{
    if let Identification {
        serial: UnitSerial::Number(number),
        naa: None,
        eui: None,
        uuid: None,
        ..
    } = told
    {
        let name = eight_bytes(LOCALLY_ASSIGNED + u64::from(*number));
        let [a, b, c, d, e, f, g, h] = name;
        put(into, &[0x01, 0x03, 0, 0x08, a, b, c, d, e, f, g, h]);
    }
}

fn put_naa(naa: &Option<Naa>, into: &mut ArrayVec<u8, DESIGNATOR_BYTES>)
    requires { array_vec_len into.old ≤ 76 }
    ensures bytes { into.new.items ≡ into.old.items ++ naa_designator naa.now }
    ensures most { array_vec_len into.new ≤ 96 }
{
    if let Some(naa) = naa {
        let name = naa.as_slice();
        put(into, &[0x01, 0x03, 0, name.len() as u8]);
        put(into, name);
    }
}

fn put_eui(eui: &Option<Eui>, into: &mut ArrayVec<u8, DESIGNATOR_BYTES>)
    requires { array_vec_len into.old ≤ 96 }
    ensures bytes { into.new.items ≡ into.old.items ++ eui_designator eui.now }
    ensures most { array_vec_len into.new ≤ 116 }
{
    if let Some(eui) = eui {
        let name = eui.as_slice();
        put(into, &[0x01, 0x02, 0, name.len() as u8]);
        put(into, name);
    }
}

fn put_uuid(uuid: &Option<Uuid>, into: &mut ArrayVec<u8, DESIGNATOR_BYTES>)
    requires { array_vec_len into.old ≤ 116 }
    ensures { into.new.items ≡ into.old.items ++ uuid_designator uuid.now }
{
    if let Some(uuid) = uuid {
        put(into, &[0x01, 0x0a, 0, 0x12, 0x10, 0]);
        put(into, &uuid.bytes);
    }
}
