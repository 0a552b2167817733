//! Messages from a reader: so many bytes, or the end before them.

ghost use Rattle.std.specs.Prelude.{◌≡◌, ◌-◌, ◌≤◌, ◌<◌, length, take, IsTrue, IfOk, OnErr};
ghost use Rattle.std.specs.Io.KnownBytes.{Consumes, IsAtEnd};
ghost use Rattle.byte_io.specs.Streams.{Gave, GaveFewer};

use crate::{ReadFailed, Source};

/// How many bytes are dropped at once.
const DROPPED_BYTES: usize = 4096;

/// Reads into the whole of `buffer`, and tells how many bytes came: fewer only at the end.
pub fn read_whole<S: Source>(source: &mut S, buffer: &mut [u8]) -> Result<usize, ReadFailed>
    ensures bound { IfOk result (λ count. count ≤ length buffer.new) }
    ensures bytes { IfOk result (λ count. Consumes (S.left source.old) (S.left source.new) (take count buffer.new)) }
    ensures end { IfOk result (λ count. count < length buffer.new → IsAtEnd (S.left source.new)) }
    ensures few { OnErr result (GaveFewer (S.left source.old) (S.left source.new) (length buffer.old)) }
    ensures fault { OnErr result (IsTrue (S.can_fail source.old)) }
    ensures same { S.can_fail source.new ≡ S.can_fail source.old }
{
    let mut done = 0;
    while done < buffer.len() {
        let count = source.read(&mut buffer[done..])?;
        if count == 0 {
            break;
        }
        done += count;
    }
    Ok(done)
}

/// Reads so many bytes and drops them. It tells how many of them didn't come: none but at the end.
pub fn drop_bytes<S: Source>(source: &mut S, count: u32) -> Result<u32, ReadFailed>
    ensures bound { IfOk result (λ missing. missing ≤ count) }
    ensures bytes { IfOk result (λ missing. Gave (S.left source.old) (S.left source.new) (count - missing)) }
    ensures end { IfOk result (λ missing. 0 < missing → IsAtEnd (S.left source.new)) }
    ensures few { OnErr result (GaveFewer (S.left source.old) (S.left source.new) count) }
    ensures fault { OnErr result (IsTrue (S.can_fail source.old)) }
    ensures same { S.can_fail source.new ≡ S.can_fail source.old }
{
    let mut chunk = [0; DROPPED_BYTES];
    let mut left = count;
    while left > 0 {
        let part = DROPPED_BYTES.min(left as usize);
        let read = read_whole(source, &mut chunk[..part])?;
        left -= read as u32;
        if read < part {
            break;
        }
    }
    Ok(left)
}
