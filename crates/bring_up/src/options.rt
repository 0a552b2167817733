//! What a caller asks for, and what is known of some controllers.
ghost use Rattle.std.specs.Prelude.{◌≡◌};
ghost use Rattle.bring_up.specs.Options.{can_ask, has_36_bits, has_broken_streams, has_stale_streams, is_narrow, quirks_of};

use host_layout::Pieces;

/// What a caller asks for.
#[derive(Clone, Copy)]
pub struct Options {
    /// The most commands at a time and one: 2 to 254.
    pub tags: u8,
    /// The most TRBs of a command's data.
    pub pieces: Pieces,
    /// Bytes of the controller's registers.
    pub bar_bytes: u32,
    /// The bits of an address that devices reach, 32 to 64.
    pub address_bits: u8,
    pub quirks: Quirks,
}

/// What a controller does otherwise than it tells or the standard asks.
#[derive(Clone, Copy)]
pub struct Quirks {
    /// Its streams don't work.
    pub has_broken_streams: bool,
    /// AC64 is set, but addresses have 32 bits.
    pub is_narrow: bool,
    /// Addresses have 36 bits.
    pub has_36_bits: bool,
    /// ERSTBA is taken at its low half's write, and so written last.
    pub takes_low_last: bool,
    /// Bytes 8 to 15 of a stream's context stay as they are at Set TR Dequeue Pointer: they are zeroed behind it.
    pub has_stale_streams: bool,
}

impl Options {
    /// Whether `tags` is 2 to 254 and `address_bits` 32 to 64.
    pub fn can_ask(&self) -> bool
        ensures { result ≡ can_ask self.now }
    {
        2 <= self.tags && self.tags <= 254 && 32 <= self.address_bits && self.address_bits <= 64
    }
}

/// What Linux knows of a PCI vendor's device.
pub fn quirks_of(vendor: u16, device: u16) -> Quirks
    ensures { result ≡ quirks_of vendor device }
{
    Quirks {
        has_broken_streams: has_broken_streams(vendor, device),
        is_narrow: is_narrow(vendor, device),
        has_36_bits: has_36_bits(vendor, device),
        takes_low_last: false,
        has_stale_streams: has_stale_streams(vendor, device),
    }
}

fn has_broken_streams(vendor: u16, device: u16) -> bool
    ensures { result ≡ has_broken_streams vendor device }
{
    matches!(
        (vendor, device),
        (0x1b73, 0x1000 | 0x1009) | (0x1b6f, 0x7023 | 0x7052) | (0x1106, 0x3432) | (0x1b21, 0x1042)
    )
}

fn is_narrow(vendor: u16, device: u16) -> bool
    ensures { result ≡ is_narrow vendor device }
{
    matches!(
        (vendor, device),
        (0x1b21, 0x1142 | 0x1242 | 0x2142 | 0x3242)
    )
}

fn has_stale_streams(vendor: u16, device: u16) -> bool
    ensures { result ≡ has_stale_streams vendor device }
{
    matches!((vendor, device), (0x17cd, 0x0200))
}

fn has_36_bits(vendor: u16, device: u16) -> bool
    ensures { result ≡ has_36_bits vendor device }
{
    matches!((vendor, device), (0x1106, 0x3483))
}
