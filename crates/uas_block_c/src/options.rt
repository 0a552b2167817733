//! What a driver's user asks for, as C has it.
ghost use Rattle.std.specs.Prelude.{◌≡◌, ◌≤◌};
ghost use Rattle.bring_up.specs.Options.{quirks_of};
ghost use Rattle.uas_block_c.specs.Made.{bit, options_of, quirks_in, quirks_number};

use bring_up::{Options, Quirks, is_set, quirks_of};
use host_layout::Pieces;

/// What a driver's user asks for.
#[repr(C)]
#[derive(Clone, Copy)]
pub struct UasBlockOptions {
    /// Bytes of the controller's registers.
    pub bar_bytes: u32,
    /// The most commands at a time and one: 2 to 254.
    pub tags: u8,
    /// The most TRBs of a command's data: 7, 15, 31, 63 or 127.
    pub trbs: u8,
    /// The bits of an address that devices reach, 32 to 64.
    pub address_bits: u8,
    /// What the controller does otherwise: 1 broken streams, 2 addresses of 32 bits, 4 of 36, 8 ERSTBA's low half last, 16 stale streams.
    pub quirks: u8,
}

/// What is asked for; None for another number of TRBs, or an unknown quirk.
pub(crate) fn options_of(asked: &UasBlockOptions) -> Option<Options>
    ensures { result ≡ options_of asked.now }
{
    let pieces = Pieces::of(asked.trbs)?;
    if asked.quirks > 31 {
        return None;
    }
    Some(Options {
        tags: asked.tags,
        pieces,
        bar_bytes: asked.bar_bytes,
        address_bits: asked.address_bits,
        quirks: quirks_in(u32::from(asked.quirks)),
    })
}

fn quirks_in(bits: u32) -> Quirks
    ensures { result ≡ quirks_in bits }
{
    Quirks {
        has_broken_streams: is_set(bits, 0),
        is_narrow: is_set(bits, 1),
        has_36_bits: is_set(bits, 2),
        takes_low_last: is_set(bits, 3),
        has_stale_streams: is_set(bits, 4),
    }
}

/// What Linux knows of a PCI vendor's device, as options have it.
#[unsafe(no_mangle)]
pub extern "C" fn uas_block_quirks(vendor: u16, device: u16) -> u8
    ensures { result ≡ quirks_number (quirks_of vendor device) }
{
    quirks_number(&quirks_of(vendor, device))
}

fn quirks_number(quirks: &Quirks) -> u8
    ensures { result ≡ quirks_number quirks.now }
{
    bit(quirks.has_broken_streams, 1)
        + bit(quirks.is_narrow, 2)
        + bit(quirks.has_36_bits, 4)
        + bit(quirks.takes_low_last, 8)
        + bit(quirks.has_stale_streams, 16)
}

fn bit(is_on: bool, worth: u8) -> u8
    ensures is { result ≡ bit is_on worth }
    ensures most { result ≤ worth }
{
    if is_on { worth } else { 0 }
}
