//! Where bytes come from and go to: readers and writers that tell their bytes, and whether they can fail.
//!
//! What any reader of std gives may end in a fault; what stands in memory can't. With that said, a call which
//! answers a fault of its reader or writer can be asked to do so only where there can be one.
//!
//! A file that couldn't be opened is a reader or a writer too, one that isn't there: it gives no byte, not even its end,
//! and takes none. So the call that works on it learns of it as of any other fault.

ghost use Rattle.std.specs.Option.{option_map_or};
ghost use Rattle.std.specs.Prelude.{◌≡◌, ℕ, ◌≤◌, ◌<◌, ◌++◌, List, Bool, Option, Some, option_and_then, length, take, drop, true, false};
ghost use Rattle.std.specs.Prelude.{IsTrue, IfOk, OnOk, OnErr, IfErr, MatchResult};
ghost use Rattle.std.specs.Io.KnownBytes.{Consumes, Appends, Keeps, IsAtEnd, ReadConsumes};
ghost use Rattle.std.specs.Io.{ReadsAtMost};

use std::alloc::{AllocError, Global};
use std::io::{Read, Write};

/// How many bytes are asked for at once.
const CHUNK_BYTES: usize = 4096;

/// A read failed.
#[derive(Clone, Copy, Debug, PartialEq, Eq)]
pub struct ReadFailed;

/// Why bytes couldn't be read or written.
#[derive(Clone, Copy, Debug, PartialEq, Eq)]
pub enum StreamFault {
    /// Want of memory.
    NoMemory,
    /// The reader or the writer failed.
    File,
}

/// Gives bytes.
pub trait Source {
    /// The bytes that it has left, where they are known.
    ghost left: { Self → Option (List ℕ) };

    /// Whether it can fail.
    ghost can_fail: { Self → Bool };

    /// Whether it is there: a file that couldn't be opened isn't.
    ghost is_there: { Self → Bool };

    /// Reads bytes into the front of `buffer` and tells how many: none at the end, or where there is no room.
    fn read(&mut self, buffer: &mut [u8]) -> Result<usize, ReadFailed>
        ensures bound { IfOk result (λ count. count ≤ length buffer.new) }
        ensures bytes { ReadConsumes (left self.old) (left self.new) result buffer.new }
        ensures there { OnOk result (IsTrue (is_there self.old)) }
        ensures fault { OnErr result (IsTrue (can_fail self.old)) }
        ensures same { can_fail self.new ≡ can_fail self.old }
        ensures stays { is_there self.new ≡ is_there self.old };
}

/// Takes bytes.
pub trait Sink {
    /// The bytes that it has taken, where they are known.
    ghost written: { Self → Option (List ℕ) };

    /// Whether it can fail other than for want of memory.
    ghost can_fail: { Self → Bool };

    /// Whether it is there: a file that couldn't be opened isn't.
    ghost is_there: { Self → Bool };

    /// Whether it is of the file of a name, as far as that is known.
    ghost is_of: { Self → List ℕ → Bool };

    /// Writes all of the bytes, and flushes. Want of memory writes nothing.
    fn write(&mut self, bytes: &[u8]) -> Result<(), StreamFault>
        ensures bytes { OnOk result (Appends (written self.old) (written self.new) bytes.now) }
        ensures there { OnOk result (IsTrue (is_there self.old)) }
        ensures memory { result ≡ Err StreamFault.NoMemory → Keeps (written self.old) (written self.new) }
        ensures fault { result ≡ Err StreamFault.File → IsTrue (can_fail self.old) }
        ensures same { can_fail self.new ≡ can_fail self.old }
        ensures stays { is_there self.new ≡ is_there self.old }
        ensures file { is_of self.new ≡ is_of self.old };
}

/// A reader of std. Any fault of it is one, an interrupted read too.
#[derive(Drop)]
pub struct Reader<R: Read>(pub R);

impl<R: Read> Source for Reader<R> {
    ghost left = { λ reader. R.remaining reader.0 };

    ghost can_fail = { λ _. true };

    ghost is_there = { λ _. true };

    fn read(&mut self, buffer: &mut [u8]) -> Result<usize, ReadFailed> {
        match self.0.read(buffer) {
            Ok(count) => Ok(count),
            Err(_) => Err(ReadFailed),
        }
    }
}

/// A reader that couldn't be had: each read fails.
impl<S: Source> Source for Option<S> {
    ghost left = { λ reader. option_and_then S.left reader };

    ghost can_fail = { λ reader. option_map_or S.can_fail reader true };

    ghost is_there = { λ reader. option_map_or S.is_there reader false };

    fn read(&mut self, buffer: &mut [u8]) -> Result<usize, ReadFailed> {
        match self {
            Some(reader) => reader.read(buffer),
            None => Err(ReadFailed),
        }
    }
}

/// A writer of std.
#[derive(Drop)]
pub struct Writer<W: Write>(pub W);

impl<W: Write> Sink for Writer<W> {
    ghost written = { λ writer. W.contents writer.0 };

    ghost can_fail = { λ _. true };

    ghost is_there = { λ _. true };

    ghost is_of = { λ _ _. true };

    fn write(&mut self, bytes: &[u8]) -> Result<(), StreamFault> {
        if self.0.write_all(bytes).is_err() || self.0.flush().is_err() {
            return Err(StreamFault::File);
        }
        Ok(())
    }
}

/// A writer that couldn't be had: each write fails.
impl<S: Sink> Sink for Option<S> {
    ghost written = { λ writer. option_and_then S.written writer };

    ghost can_fail = { λ writer. option_map_or S.can_fail writer true };

    ghost is_there = { λ writer. option_map_or S.is_there writer false };

    ghost is_of = { λ writer. option_map_or S.is_of writer (λ _. true) };

    fn write(&mut self, bytes: &[u8]) -> Result<(), StreamFault> {
        match self {
            Some(writer) => writer.write(bytes),
            None => Err(StreamFault::File),
        }
    }
}

/// Bytes in memory, to be read.
#[derive(Drop)]
pub struct BytesLeft<'a>(pub &'a [u8]);

impl<'a> Source for BytesLeft<'a> {
    ghost left = { λ bytes. Some bytes.0.now };

    ghost can_fail = { λ _. false };

    ghost is_there = { λ _. true };

    fn read(&mut self, buffer: &mut [u8]) -> Result<usize, ReadFailed> {
        let count = buffer.len().min(self.0.len());
        let (front, back) = self.0.split_at(count);
        buffer[..count].copy_from_slice(front);
        self.0 = back;
        Ok(count)
    }
}

/// Bytes in memory, as they were written.
#[derive(Drop)]
pub struct BytesTaken(pub Vec<u8>);

impl Sink for BytesTaken {
    ghost written = { λ bytes. Some bytes.0.items };

    ghost can_fail = { λ _. false };

    ghost is_there = { λ _. true };

    ghost is_of = { λ _ _. true };

    fn write(&mut self, bytes: &[u8]) -> Result<(), StreamFault> {
        match self.0.extend_from_slice(bytes) {
            Ok(()) => Ok(()),
            Err(AllocError) => Err(StreamFault::NoMemory),
        }
    }
}

/// Reads at most `limit` bytes: fewer only where the source ended.
pub fn read_at_most<S: Source>(
    alloc: Global,
    source: &mut S,
    limit: usize,
) -> Result<Vec<u8>, StreamFault>
    ensures bytes { IfOk result (λ bytes. Consumes (S.left source.old) (S.left source.new) bytes.items) }
    ensures bound { IfOk result (λ bytes. length bytes.items ≤ limit) }
    ensures end { IfOk result (λ bytes. length bytes.items < limit → IsAtEnd (S.left source.new)) }
    ensures there { 0 < limit → OnOk result (IsTrue (S.is_there source.old)) }
    ensures fault { result ≡ Err StreamFault.File → IsTrue (S.can_fail source.old) }
{
    let mut bytes = Vec::new(alloc);
    let mut chunk = [0; CHUNK_BYTES];
    while bytes.len() < limit {
        let room = CHUNK_BYTES.min(limit - bytes.len());
        let count = source
            .read(&mut chunk[..room])
            .map_err(|_| StreamFault::File)?;
        if count == 0 {
            break;
        }
        bytes
            .extend_from_slice(&chunk[..count])
            .map_err(|_| StreamFault::NoMemory)?;
    }
    Ok(bytes)
}
