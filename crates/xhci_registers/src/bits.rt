//! Bits of a register.
ghost use Rattle.std.specs.Prelude.{◌≡◌, ◌+◌, ◌<◌, ◌≤◌, ◌^◌, ◌/◌, ◌%◌};
ghost use Rattle.xhci_registers.specs.Bits.{field, is_set, multiple, with_high, with_low};

/// Whether a bit is set; bit 0 is the lowest.
pub(crate) fn is_set(value: u32, place: u32) -> bool
    requires { place < 32 }
    ensures { result ≡ is_set value place }
{
    value >> place & 1 == 1
}

/// The bits from a place on, of a field with so many values.
pub(crate) fn field(value: u32, place: u32, values: u32) -> u32
    requires place { place < 32 }
    requires values { 0 < values }
    ensures field { result ≡ field value place values }
    ensures fits { result < values }
{
    (value >> place) % values
}

/// A value rounded down to a multiple.
pub(crate) fn multiple(value: u32, step: u32) -> u32
    requires { 0 < step }
    ensures multiple { result ≡ multiple value step }
    ensures most { result ≤ value }
{
    value - value % step
}

/// The halves of a register of 64 bits.
pub(crate) fn low(register: u64) -> u32
    ensures { result ≡ register % 2 ^ 32 }
{
    (register & 0xffff_ffff) as u32
}

pub(crate) fn high(register: u64) -> u32
    ensures { result ≡ register / 2 ^ 32 }
{
    (register >> 32) as u32
}

/// A register with another low half.
pub(crate) fn with_low(register: u64, value: u32) -> u64
    ensures { result ≡ with_low register value }
{
    (register >> 32 << 32) + u64::from(value)
}

/// A register with another high half.
pub(crate) fn with_high(register: u64, value: u32) -> u64
    ensures { result ≡ with_high register value }
{
    (u64::from(value) << 32) + (register & 0xffff_ffff)
}
