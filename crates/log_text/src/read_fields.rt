//! The fields that a log's text is made of, read from its front: each call gives a field's value and the bytes behind it.
ghost use Rattle.std.specs.Prelude.{◌≡◌, ◌≤◌, length, IfOk};
ghost use Rattle.log_text.specs.Reading.{Gives, buffer_at, bytes_at, number_at, field_at};

use crate::{LogFault, Stop};
use byteorder::{BigEndian, ByteOrder};
use scsi_cmd::Buffer;
use std::alloc::Global;

/// The most bytes of a buffer.
const MOST_BUFFER_BYTES: u64 = 65_536;

/// A number of `len` bytes from `least` to `most`. Else the fault; `Truncated` where the bytes end before.
#[tactic(auto, unfolding(crate::specs::Reading::number_at))]
#[inline(always)]
pub fn number(
    bytes: &[u8],
    fault: LogFault,
    len: usize,
    least: u64,
    most: u64,
) -> Result<(u64, &[u8]), Stop>
    requires some { 1 ≤ len }
    requires few { len ≤ 8 }
    ensures gives { Gives (λ read. (read.0, read.1.now)) result (number_at fault len least most bytes.now) }
    ensures least { IfOk result (λ read. least ≤ read.0) }
    ensures most { IfOk result (λ read. read.0 ≤ most) }
{
    if bytes.len() < len {
        return Err(Stop::Fault(LogFault::Truncated));
    }
    let number = BigEndian::read_uint(bytes, len);
    if number < least || number > most {
        return Err(Stop::Fault(fault));
    }
    Ok((number, &bytes[len..]))
}

/// A number of `len` bytes from `least` to `most`, else `BadField`; `Truncated` where the bytes end before.
#[inline(always)]
pub fn field(bytes: &[u8], len: usize, least: u64, most: u64) -> Result<(u64, &[u8]), Stop>
    requires some { 1 ≤ len }
    requires few { len ≤ 8 }
    ensures gives { Gives (λ read. (read.0, read.1.now)) result (field_at len least most bytes.now) }
    ensures least { IfOk result (λ read. least ≤ read.0) }
    ensures most { IfOk result (λ read. read.0 ≤ most) }
{
    number(bytes, LogFault::BadField, len, least, most)
}

/// So many bytes; `Truncated` where there are fewer.
#[tactic(auto, unfolding(crate::specs::Reading::bytes_at))]
pub(crate) fn front(bytes: &[u8], len: usize) -> Result<(&[u8], &[u8]), Stop>
    ensures gives { Gives (λ read. (read.0.now, read.1.now)) result (bytes_at len bytes.now) }
    ensures len { IfOk result (λ read. length read.0.now ≡ len) }
{
    if bytes.len() < len {
        return Err(Stop::Fault(LogFault::Truncated));
    }
    Ok(bytes.split_at(len))
}

/// A buffer behind its length, which is 65,536 at most.
#[tactic(auto, unfolding(crate::specs::Reading::buffer_at))]
pub(crate) fn buffer(alloc: Global, bytes: &[u8]) -> Result<(Buffer, &[u8]), Stop>
    ensures { Gives (λ read. (read.0, read.1.now)) result (buffer_at bytes.now) }
{
    let (len, rest) = field(bytes, 4, 0, MOST_BUFFER_BYTES)?;
    let (bytes, rest) = front(rest, len as usize)?;
    Ok((Buffer::from_vec(Vec::from_slice(alloc, bytes)?), rest))
}
