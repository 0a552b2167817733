//! The bytes of a source that were read and aren't taken yet.
ghost use Rattle.std.specs.Prelude.{◌≡◌, ◌<◌, ◌≤◌, ◌^◌, Err, IfOk, IsTrue, Ok, OnOk, drop, false, length, take};
ghost use Rattle.log_records.specs.checksum.Bytes.{AreBytes};
ghost use Rattle.kept_log.specs.Parts.{Reads};

use byte_io::{Source, StreamFault};
use std::marker::Model;

/// How many bytes are read at least where more are wanted.
const PART_BYTES: usize = 1_048_576;

/// How many bytes are asked for at once.
const CHUNK_BYTES: usize = 65_536;

/// The front of what is left of a text.
#[derive(Debug, Drop)]
pub(crate) struct Window {
    bytes: Vec<u8>,
    /// How many bytes of the front of `bytes` are taken.
    taken: usize,
    /// Whether nothing of the text comes behind `bytes`.
    has_ended: bool,
}

impl Model for Window {
    ghost use Rattle.std.specs.Prelude.{◌≤◌, drop, length};
    ghost use Rattle.kept_log.specs.Shown.{Shown};

    ghost Value = { Shown };

    ghost view = { λ window. record { bytes = drop window.taken window.bytes.items; has_ended = window.has_ended } };

    ghost invariant = { λ window. window.taken ≤ length window.bytes.items };
}

impl Window {
    /// The front of a text of which only these bytes were read; takes no memory.
    pub(crate) fn from_vec(bytes: Vec<u8>) -> Window
        ensures { result ≡ record { bytes = bytes.items; has_ended = false } }
    {
        Window {
            bytes,
            taken: 0,
            has_ended: false,
        }
    }

    /// The bytes that aren't taken.
    pub(crate) fn bytes(&self) -> &[u8]
        ensures { result.now ≡ self.now.bytes }
    {
        &self.bytes[self.taken..]
    }

    /// Whether they are all that is left of the text.
    pub(crate) fn has_ended(&self) -> bool
        ensures { result ≡ self.now.has_ended }
    {
        self.has_ended
    }

    /// Takes bytes from the front.
    pub(crate) fn take(&mut self, count: usize)
        requires { count ≤ length self.old.bytes }
        ensures { self.new ≡ record { bytes = drop count self.old.bytes; has_ended = self.old.has_ended } }
    {
        self.taken += count;
    }

    /// Reads more of the source: as many bytes again as there are, and `PART_BYTES` at least; fewer only where the source ended.
    pub(crate) fn read_more<S: Source>(&mut self, source: &mut S) -> Result<(), StreamFault>
        ensures read { OnOk result (Reads (S.left source.old) (S.left source.new) self.old.bytes self.new) }
        ensures grows { OnOk result (self.new.has_ended ≡ false → length self.old.bytes < length self.new.bytes) }
        ensures few { OnOk result (length self.new.bytes < 2 ^ 64) }
        ensures there { OnOk result (IsTrue (S.is_there source.old)) }
        ensures fault { result ≡ Err StreamFault.File → IsTrue (S.can_fail source.old) }
        ensures same { S.can_fail source.new ≡ S.can_fail source.old }
        ensures stays { S.is_there source.new ≡ S.is_there source.old }
    {
        drop_front(&mut self.bytes, self.taken);
        self.taken = 0;
        let len = self.bytes.len();
        let least = len + len.max(PART_BYTES);
        self.has_ended = read_at_least(source, &mut self.bytes, least)?;
        Ok(())
    }
}

/// Drops the first bytes of a vector.
fn drop_front(bytes: &mut Vec<u8>, count: usize)
    requires { count ≤ length bytes.old.items }
    ensures { bytes.new.items ≡ drop count bytes.old.items }
{
    let len = bytes.len();
    bytes.as_mut_slice().copy_within(count..len, 0);
    bytes.truncate(len - count);
}

/// Adds bytes that a source gives, until there are `least` of them or it ended, and tells whether it ended.
pub fn read_at_least<S: Source>(
    source: &mut S,
    bytes: &mut Vec<u8>,
    least: usize,
) -> Result<bool, StreamFault>
    ensures read { IfOk result (λ has_ended. Reads (S.left source.old) (S.left source.new) bytes.old.items (record { bytes = bytes.new.items; has_ended = has_ended })) }
    ensures enough { result ≡ Ok false → least ≤ length bytes.new.items }
    ensures there { length bytes.old.items < least → OnOk result (IsTrue (S.is_there source.old)) }
    ensures fault { result ≡ Err StreamFault.File → IsTrue (S.can_fail source.old) }
    ensures same { S.can_fail source.new ≡ S.can_fail source.old }
    ensures stays { S.is_there source.new ≡ S.is_there source.old }
{
    let mut chunk = [0; CHUNK_BYTES];
    while bytes.len() < least {
        let count = match source.read(&mut chunk) {
            Ok(0) => return Ok(true),
            Ok(count) => count,
            Err(_) => return Err(StreamFault::File),
        };
        let more = front(&chunk, count);
        if bytes.extend_from_slice(more).is_err() {
            return Err(StreamFault::NoMemory);
        }
    }
    Ok(false)
}

/// The first bytes of some.
fn front(bytes: &[u8], count: usize) -> &[u8]
    requires { count ≤ length bytes.now }
    ensures front { result.now ≡ take count bytes.now }
    ensures are { AreBytes result.now }
{
    &bytes[..count]
}
