//! One access: what the caller of a driver does for it.
ghost use Rattle.std.specs.Prelude.{◌≡◌, ◌<◌, ◌≤◌, ◌+◌, ◌-◌, ◌^◌, IsTrue, min};
ghost use Rattle.host_layout.specs.Shapes.{bytes_of};
ghost use Rattle.bring_up.specs.Accesses.{IsInside, IsWithin, is_inside, is_lent, is_read, is_register, is_written, kept, later, load_in, near, read_at, store_in, stored_length, write_at};

use host_layout::Layout;

/// What the caller does before the next call.
#[derive(Clone, Copy, PartialEq, Eq)]
pub enum Access {
    /// Reads a register, and answers its four bytes.
    Read32(u32),
    /// Reads `length` bytes of the lent memory, at most 4,096, and answers them.
    Load { at: u64, length: u32 },
    /// Writes a register.
    Write32 { offset: u32, value: u32 },
    /// Writes the lent memory; four bytes by one store.
    Store { at: u64, bytes: Stored },
    /// Waits for an interrupt, a call, or this time in ms.
    Rest(u64),
}

/// Bytes to store.
#[derive(Clone, Copy, PartialEq, Eq)]
pub enum Stored {
    /// So many bytes 0, at most 4,096.
    Zeros(u16),
    Four([u8; 4]),
    Eight([u8; 8]),
    Sixteen([u8; 16]),
    ThirtyTwo([u8; 32]),
}

impl Stored {
    /// How many bytes.
    pub fn length(&self) -> u32
        ensures is { result ≡ stored_length self.now }
        ensures few { result < 2 ^ 16 }
    {
        match self {
            Stored::Zeros(count) => u32::from(*count),
            Stored::Four(_) => 4,
            Stored::Eight(_) => 8,
            Stored::Sixteen(_) => 16,
            Stored::ThirtyTwo(_) => 32,
        }
    }
}

impl Access {
    /// Whether it is answered.
    pub fn is_read(&self) -> bool
        ensures { result ≡ is_read self.now }
    {
        matches!(self, Access::Read32(_) | Access::Load { .. })
    }

    /// Whether it is done once, without an answer.
    pub fn is_written(&self) -> bool
        ensures { result ≡ is_written self.now }
    {
        matches!(self, Access::Write32 { .. } | Access::Store { .. })
    }
}

/// A time so many ms later.
pub fn later(now: u64, ms: u64) -> u64
    ensures { result ≡ later now ms }
{
    now.saturating_add(ms)
}

/// A register's place. One that is farther than any has none below the end of the registers.
fn near(offset: u64) -> u32
    ensures { result ≡ near offset }
{
    offset.min(u64::from(u32::MAX)) as u32
}

/// A register is read.
pub fn read_at(offset: u64) -> Access
    ensures { result ≡ read_at offset }
{
    Access::Read32(near(offset))
}

/// A register is written.
pub fn write_at(offset: u64, value: u32) -> Access
    ensures { result ≡ write_at offset value }
{
    Access::Write32 {
        offset: near(offset),
        value,
    }
}

/// Bytes are stored at an address; where there is none, nothing is told but a rest that is over.
pub fn store_in(at: Option<u64>, bytes: Stored) -> Access
    ensures { result ≡ store_in at bytes }
{
    match at {
        Some(at) => Access::Store { at, bytes },
        None => Access::Rest(0),
    }
}

/// Bytes are loaded, likewise; of no bytes nothing is told but such a rest.
pub fn load_in(at: Option<u64>, length: u32) -> Access
    ensures { result ≡ load_in at length }
{
    match at {
        Some(at) if length != 0 => Access::Load { at, length },
        _ => Access::Rest(0),
    }
}

impl Access {
    /// The access where it is of the registers, or of the memory that was lent; else nothing is told but a rest that is over.
    pub fn kept(self, bar_bytes: u32, layout: Option<Layout>) -> Access
        ensures is { result ≡ kept self bar_bytes layout }
        ensures inside { IsInside bar_bytes layout result }
    {
        if self.is_inside(bar_bytes, layout) {
            self
        } else {
            Access::Rest(0)
        }
    }

    fn is_inside(&self, bar_bytes: u32, layout: Option<Layout>) -> bool
        ensures is { result ≡ is_inside self.now bar_bytes layout }
        ensures so { IsTrue result → IsInside bar_bytes layout self.now }
    {
        match self {
            Access::Read32(offset) => is_register(bar_bytes, *offset),
            Access::Write32 { offset, .. } => is_register(bar_bytes, *offset),
            Access::Load { at, length } => is_lent(layout, *at, *length),
            Access::Store { at, bytes } => is_lent(layout, *at, bytes.length()),
            Access::Rest(_) => true,
        }
    }
}

/// Whether the four bytes of a register are there.
fn is_register(bar_bytes: u32, offset: u32) -> bool
    ensures { result ≡ is_register bar_bytes offset }
{
    u64::from(offset) + 4 <= u64::from(bar_bytes)
}

/// Whether so many bytes from an address on are of the memory that was lent.
fn is_lent(layout: Option<Layout>, at: u64, length: u32) -> bool
    ensures is { result ≡ is_lent layout at length }
    ensures so { IsTrue result → IsWithin layout at length }
{
    let Some(layout) = layout else {
        return false;
    };
    let bytes = layout.shape.bytes();
    layout.base <= at && length <= bytes && at - layout.base <= u64::from(bytes - length)
}
