//! The run: lines from a reader, and their answers to a writer as they come.

ghost use Rattle.std.specs.Prelude.{◌≡◌, ◌⊎◌, ℕ, List, [], ◌∷◌, ◌≤◌, ◌++◌, ◌||◌, IsTrue, IfOk, OnOk, IfSome};
ghost use Rattle.std.specs.Io.KnownBytes.{Appends, IsAtEnd, Keeps};
ghost use Rattle.uas_decode.specs.Runs.{Begins, Decodes, decoded, decoded_from, refused_from, status_of};

use crate::printed::push_answered;
use byte_io::{Sink, Source, StreamFault};
use std::alloc::{AllocError, Global};
use std::io::Write;

/// Every line was answered.
pub const DONE: u8 = 0;

/// Every line was answered, and one at least was refused.
pub const REFUSED: u8 = 1;

/// A fault of reading or writing.
pub const FAULT: u8 = 3;

/// Want of memory.
pub const NO_MEMORY: u8 = 4;

const _: () = prove!(DONE == 0 && REFUSED == 1 && FAULT == 3 && NO_MEMORY == 4);

/// How many bytes are asked for at once.
const CHUNK_BYTES: usize = 4096;

/// Answers every line of `input` to `output`. It answers the exit status: 1 where a line was refused, 3 at a fault of the reader or the
/// writer, 4 for want of memory, else 0. A fault of `faults` changes nothing.
pub fn run_decode<S: Source, O: Sink, W: Write>(
    alloc: Global,
    input: &mut S,
    output: &mut O,
    faults: &mut W,
) -> u8
    ensures statuses { (result ≤ 1) ⊎ ((result ≡ 3) ⊎ (result ≡ 4)) }
    ensures decoded { result ≤ 1 → IfSome (S.left input.old) (λ bytes. Decodes bytes (O.written output.old) (O.written output.new) result) }
    ensures read { result ≤ 1 → IsAtEnd (S.left input.new) }
    ensures there { result ≤ 1 → IsTrue (S.is_there input.old) }
    ensures fault { result ≡ 3 → IsTrue (S.can_fail input.old) ⊎ IsTrue (O.can_fail output.old) }
    ensures memory { result ≡ 4 → IfSome (S.left input.old) (λ bytes. Begins bytes (O.written output.old) (O.written output.new)) }
    ensures quiet { result ≤ 1 → faults.new ≡ faults.old }
{
    match decode(alloc, input, output) {
        Ok(true) => REFUSED,
        Ok(false) => DONE,
        Err(StreamFault::File) => {
            let _ = writeln!(faults, "decode: file");
            FAULT
        }
        Err(StreamFault::NoMemory) => {
            let _ = writeln!(faults, "no memory");
            NO_MEMORY
        }
    }
}

/// What was read of a line that has no end yet, and the answers that were not written yet.
#[derive(Drop)]
struct Lines {
    line: Vec<u8>,
    text: Vec<u8>,
    refused: bool,
}

impl Lines {
    ghost use Rattle.std.specs.Prelude.{false};
    ghost use Rattle.uas_decode.specs.Printed.{answered, is_refused};

    /// Nothing that was read.
    fn new(alloc: Global) -> Lines
        ensures line { result.line.items ≡ [] }
        ensures text { result.text.items ≡ [] }
        ensures refused { result.refused ≡ false }
    {
        Lines {
            line: Vec::new(alloc),
            text: Vec::new(alloc),
            refused: false,
        }
    }

    /// Takes the next bytes in.
    fn take(&mut self, bytes: &[u8]) -> Result<(), AllocError>
        ensures text { OnOk result ((rest : List ℕ) → self.old.text.items ++ decoded_from self.old.line.items (bytes.now ++ rest)
            ≡ self.new.text.items ++ decoded_from self.new.line.items rest) }
        ensures refused { OnOk result ((rest : List ℕ) → (self.old.refused || refused_from self.old.line.items (bytes.now ++ rest))
            ≡ (self.new.refused || refused_from self.new.line.items rest)) }
    {
        for byte in bytes {
            self.push(*byte)?;
        }
        Ok(())
    }

    /// Takes the next byte in.
    fn push(&mut self, byte: u8) -> Result<(), AllocError>
        ensures text { OnOk result ((rest : List ℕ) → self.old.text.items ++ decoded_from self.old.line.items (byte ∷ rest)
            ≡ self.new.text.items ++ decoded_from self.new.line.items rest) }
        ensures refused { OnOk result ((rest : List ℕ) → (self.old.refused || refused_from self.old.line.items (byte ∷ rest))
            ≡ (self.new.refused || refused_from self.new.line.items rest)) }
    {
        if byte == b'\n' {
            self.end()?;
            self.text.push(byte)?;
        } else {
            self.line.push(byte)?;
        }
        Ok(())
    }

    /// Answers the line, and begins the next one.
    fn end(&mut self) -> Result<(), AllocError>
        ensures text { OnOk result (self.new.text.items ≡ self.old.text.items ++ answered self.old.line.items) }
        ensures line { OnOk result (self.new.line.items ≡ []) }
        ensures refused { OnOk result (self.new.refused ≡ (self.old.refused || is_refused self.old.line.items)) }
    {
        let refused = push_answered(&mut self.text, &self.line)?;
        self.refused = self.refused || refused;
        self.line.clear();
        Ok(())
    }

    /// Writes the answers.
    fn write<O: Sink>(&mut self, output: &mut O) -> Result<(), StreamFault>
        ensures bytes { OnOk result (Appends (O.written output.old) (O.written output.new) self.old.text.items) }
        ensures text { OnOk result (self.new.text.items ≡ []) }
        ensures line { self.new.line.items ≡ self.old.line.items }
        ensures refused { self.new.refused ≡ self.old.refused }
        ensures memory { result ≡ Err StreamFault.NoMemory → Keeps (O.written output.old) (O.written output.new) }
        ensures fault { result ≡ Err StreamFault.File → IsTrue (O.can_fail output.old) }
        ensures same { O.can_fail output.new ≡ O.can_fail output.old }
    {
        output.write(&self.text)?;
        self.text.clear();
        Ok(())
    }
}

/// Each line of a text with what its bytes say behind it: what [`run_decode`] prints of that text.
pub fn decoded(alloc: Global, bytes: &[u8]) -> Result<Vec<u8>, AllocError>
    ensures { IfOk result (λ text. text.items ≡ decoded bytes.now) }
{
    let mut lines = Lines::new(alloc);
    lines.take(bytes)?;
    lines.end()?;
    Ok(lines.text)
}

/// Decodes all of `input`, and answers whether a line was refused.
fn decode<S: Source, O: Sink>(
    alloc: Global,
    input: &mut S,
    output: &mut O,
) -> Result<bool, StreamFault>
    ensures decoded { IfOk result (λ refused. IfSome (S.left input.old) (λ bytes.
        Decodes bytes (O.written output.old) (O.written output.new) (status_of refused))) }
    ensures read { OnOk result (IsAtEnd (S.left input.new)) }
    ensures there { OnOk result (IsTrue (S.is_there input.old)) }
    ensures fault { result ≡ Err StreamFault.File → IsTrue (S.can_fail input.old) ⊎ IsTrue (O.can_fail output.old) }
    ensures memory { result ≡ Err StreamFault.NoMemory
        → IfSome (S.left input.old) (λ bytes. Begins bytes (O.written output.old) (O.written output.new)) }
{
    let mut lines = Lines::new(alloc);
    let mut chunk = [0; CHUNK_BYTES];
    for _ in 0..u64::MAX {
        let count = input.read(&mut chunk).map_err(|_| StreamFault::File)?;
        if count == 0 {
            lines.end().map_err(|_| StreamFault::NoMemory)?;
            lines.write(output)?;
            return Ok(lines.refused);
        }
        lines
            .take(&chunk[..count])
            .map_err(|_| StreamFault::NoMemory)?;
        lines.write(output)?;
    }
    Err(StreamFault::NoMemory)
}
