//! Where a server's bytes go: all of them, or at a fault a beginning.

ghost use Rattle.std.specs.Option.{option_map_or};
ghost use Rattle.std.specs.Prelude.{◌≡◌, ℕ, ◌<◌, ◌≤◌, List, Bool, Option, option_and_then, length, true, IsTrue, IfOk, OnOk, OnErr};
ghost use Rattle.std.specs.Io.KnownBytes.{Appends, WriteAppends};
ghost use Rattle.byte_io.specs.Streams.{Began};

use crate::Writer;
use std::io::{ErrorKind, Write};

/// A write failed.
#[derive(Clone, Copy, Debug, PartialEq, Eq)]
pub struct WriteFailed;

/// Takes bytes, and says which of them it took where it failed.
pub trait Output {
    /// The bytes that it has taken, where they are known.
    ghost written: { Self → Option (List ℕ) };

    /// Whether it can fail.
    ghost can_fail: { Self → Bool };

    /// Writes all of the bytes, and flushes. At a fault it has taken a beginning of them.
    fn write(&mut self, bytes: &[u8]) -> Result<(), WriteFailed>
        ensures bytes { OnOk result (Appends (written self.old) (written self.new) bytes.now) }
        ensures front { OnErr result (Began (written self.old) (written self.new) bytes.now) }
        ensures fault { OnErr result (IsTrue (can_fail self.old)) }
        ensures same { can_fail self.new ≡ can_fail self.old };
}

/// A writer of std. An interrupted write is done again.
impl<W: Write> Output for Writer<W> {
    ghost written = { λ writer. W.contents writer.0 };

    ghost can_fail = { λ _. true };

    fn write(&mut self, bytes: &[u8]) -> Result<(), WriteFailed> {
        write_all(&mut self.0, bytes)?;
        match self.0.flush() {
            Ok(()) => Ok(()),
            Err(_) => Err(WriteFailed),
        }
    }
}

/// An output that couldn't be had: each write fails.
impl<O: Output> Output for Option<O> {
    ghost written = { λ output. option_and_then O.written output };

    ghost can_fail = { λ output. option_map_or O.can_fail output true };

    fn write(&mut self, bytes: &[u8]) -> Result<(), WriteFailed> {
        match self {
            Some(output) => output.write(bytes),
            None => Err(WriteFailed),
        }
    }
}

/// Writes all of the bytes, part after part.
fn write_all<W: Write>(writer: &mut W, bytes: &[u8]) -> Result<(), WriteFailed>
    ensures all { OnOk result (Appends (W.contents writer.old) (W.contents writer.new) bytes.now) }
    ensures front { OnErr result (Began (W.contents writer.old) (W.contents writer.new) bytes.now) }
{
    let mut done = 0;
    while done < bytes.len() {
        done += write_some(writer, &bytes[done..])?;
    }
    Ok(())
}

/// Writes some of the bytes, from their beginning on, and tells how many.
fn write_some<W: Write>(writer: &mut W, bytes: &[u8]) -> Result<usize, WriteFailed>
    ensures some { IfOk result (λ count. 0 < count) }
    ensures bound { IfOk result (λ count. count ≤ length bytes.now) }
    ensures bytes { WriteAppends (W.contents writer.old) (W.contents writer.new) result bytes.now }
{
    for turn in 0..u64::MAX {
        match writer.write(bytes) {
            Ok(0) => return Err(WriteFailed),
            Ok(count) => return Ok(count),
            Err(error) if error.kind() == ErrorKind::Interrupted => {}
            Err(_) => return Err(WriteFailed),
        }
    }
    Err(WriteFailed)
}
