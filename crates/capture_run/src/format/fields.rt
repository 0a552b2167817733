//! Numbers of a capture, little endian, and the zeros behind a field.

ghost use Rattle.std.specs.Prelude.{◌≡◌, ◌+◌, ◌++◌, ◌≤◌, length, OnOk};
ghost use Rattle.byteorder.specs.Endian.{little_bytes};
ghost use Rattle.capture_run.specs.format.Pcapng.{padded};

use byteorder::{ByteOrder, LittleEndian};
use std::alloc::AllocError;

/// Adds a number of two bytes.
pub(crate) fn push_short(bytes: &mut Vec<u8>, number: u16) -> Result<(), AllocError>
    ensures bytes { OnOk result (bytes.new.items ≡ bytes.old.items ++ little_bytes 2 number) }
    ensures longer { OnOk result (length bytes.new.items ≤ length bytes.old.items + 2) }
{
    let mut field = [0; 2];
    LittleEndian::write_u16(&mut field, number);
    bytes.extend_from_slice(&field)
}

/// Adds a number of four bytes.
pub(crate) fn push_word(bytes: &mut Vec<u8>, number: u32) -> Result<(), AllocError>
    ensures bytes { OnOk result (bytes.new.items ≡ bytes.old.items ++ little_bytes 4 number) }
    ensures longer { OnOk result (length bytes.new.items ≤ length bytes.old.items + 4) }
{
    let mut field = [0; 4];
    LittleEndian::write_u32(&mut field, number);
    bytes.extend_from_slice(&field)
}

/// Adds a number of eight bytes.
pub(crate) fn push_long(bytes: &mut Vec<u8>, number: u64) -> Result<(), AllocError>
    ensures bytes { OnOk result (bytes.new.items ≡ bytes.old.items ++ little_bytes 8 number) }
    ensures longer { OnOk result (length bytes.new.items ≤ length bytes.old.items + 8) }
{
    let mut field = [0; 8];
    LittleEndian::write_u64(&mut field, number);
    bytes.extend_from_slice(&field)
}

/// Adds a field and the zeros that fill it up to a multiple of four bytes.
#[tactic(auto, unfolding(crate::specs::format::Pcapng::padded))]
pub(crate) fn push_padded(bytes: &mut Vec<u8>, field: &[u8]) -> Result<(), AllocError>
    ensures bytes { OnOk result (bytes.new.items ≡ bytes.old.items ++ padded field.now) }
    ensures longer { OnOk result (length bytes.new.items ≤ length bytes.old.items + length field.now + 3) }
{
    bytes.extend_from_slice(field)?;
    let zeros = [0; 4];
    bytes.extend_from_slice(&zeros[..(4 - field.len() % 4) % 4])
}
