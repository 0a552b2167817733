//! The run `replay`: a script from a reader, and what it tells to a writer.

ghost use Rattle.std.specs.Prelude.{◌≡◌, ℕ, ◌+◌, ◌*◌, ◌≤◌, ◌<◌, ◌⊎◌, length, true, Ok, Err, IsTrue, IsErr, IfOk, IfErr, OnOk, IfSome};
ghost use Rattle.std.specs.Io.KnownBytes.{Consumes, Appends, Keeps, IsAtEnd};
ghost use Rattle.byte_io.specs.Disks.{AreDisks};
ghost use Rattle.uas_script.specs.Script.{script};
ghost use Rattle.uas_replay.specs.Told.{told, zeroed_units};
ghost use Rattle.uas_replay.specs.Runs.{Tells, ScriptGivesUp, ReplayGivesUp};

use crate::replay::told;
use crate::status::{RunFault, output_fault};
use byte_io::{Disks, Sink, Source, read_at_most};
use std::alloc::Global;
use std::io::Write;
use uas_script::{Line, MAX_SCRIPT_BYTES, ScriptFault, parse_script};

/// The run `replay`: reads a script of 1 to 31 clients with 2 to 16 tags each, and runs it on units of 1 to 65,536 zeroed blocks, of
/// which one may be bad. The whole script is read before anything is run. It answers the exit status: 1 where a command ended other
/// than GOOD or was refused, 3 at a fault of the script, the reader or the writer, 4 for want of memory, else 0.
pub fn run_script<S: Source, O: Sink, W: Write>(
    alloc: Global,
    disks: Disks,
    reader: &mut S,
    writer: &mut O,
    faults: &mut W,
) -> u8
    requires { AreDisks disks }
    ensures statuses { (result ≤ 1) ⊎ ((result ≡ 3) ⊎ (result ≡ 4)) }
    ensures told { result ≤ 1 → IfSome (S.left reader.old) (λ bytes.
        Tells disks.tags (zeroed_units disks.clients disks.blocks disks.bad) (script disks.clients disks.tags bytes)
        (O.written writer.old) (O.written writer.new) result) }
    ensures read { result ≤ 1 → IsAtEnd (S.left reader.new) }
    ensures there { result ≤ 1 → IsTrue (S.is_there reader.old) }
    ensures fault { result ≡ 3 →
        ((IfSome (S.left reader.old) (λ bytes. IsErr (script disks.clients disks.tags bytes)) ⊎ IsTrue (S.can_fail reader.old))
        × Keeps (O.written writer.old) (O.written writer.new)) ⊎ IsTrue (O.can_fail writer.old) }
    ensures memory { result ≡ 4 → Keeps (O.written writer.old) (O.written writer.new) }
    ensures quiet { result ≤ 1 → faults.new ≡ faults.old }
{
    match tell_script(alloc, disks, reader, writer) {
        Ok(status) => status,
        Err(fault) => fault.tell(faults),
    }
}

fn tell_script<S: Source, O: Sink>(
    alloc: Global,
    disks: Disks,
    reader: &mut S,
    writer: &mut O,
) -> Result<u8, RunFault>
    requires { AreDisks disks }
    ensures status { IfOk result (λ status. status ≤ 1) }
    ensures told { IfOk result (λ status. IfSome (S.left reader.old) (λ bytes.
        Tells disks.tags (zeroed_units disks.clients disks.blocks disks.bad) (script disks.clients disks.tags bytes)
        (O.written writer.old) (O.written writer.new) status)) }
    ensures read { OnOk result (IsAtEnd (S.left reader.new)) }
    ensures there { OnOk result (IsTrue (S.is_there reader.old)) }
    ensures fault { IfErr result (ReplayGivesUp disks.clients disks.tags (S.left reader.old) (S.can_fail reader.old) (O.can_fail writer.old)
        (O.written writer.old) (O.written writer.new)) }
{
    let lines = read_script(alloc, disks, reader)?;
    let (text, status) = told(alloc, disks, &lines).map_err(|_| RunFault::NoMemory)?;
    writer.write(&text).map_err(output_fault)?;
    Ok(status)
}

/// Reads a script for the clients of these disks, with so many tags each.
pub fn read_script<S: Source>(
    alloc: Global,
    disks: Disks,
    reader: &mut S,
) -> Result<Vec<Line>, RunFault>
    requires { AreDisks disks }
    ensures lines { IfOk result (λ lines. IfSome (S.left reader.old) (λ bytes. script disks.clients disks.tags bytes ≡ Ok lines.items)) }
    ensures read { OnOk result (IsAtEnd (S.left reader.new)) }
    ensures there { OnOk result (IsTrue (S.is_there reader.old)) }
    ensures fault { IfErr result (ScriptGivesUp disks.clients disks.tags (S.left reader.old) (S.can_fail reader.old)) }
{
    let text = read_text(alloc, reader)?;
    match parse_script(alloc, disks.clients, disks.tags, &text) {
        Ok(Ok(lines)) => Ok(lines),
        Ok(Err(fault)) => Err(RunFault::Script(fault)),
        Err(_) => Err(RunFault::NoMemory),
    }
}

/// Reads the text of a script: too long once the reader gave more bytes than a script has.
#[tactic(auto, unfolding(uas_script::specs::Script::script))]
fn read_text<S: Source>(alloc: Global, reader: &mut S) -> Result<Vec<u8>, RunFault>
    ensures bytes { IfOk result (λ text. IfSome (S.left reader.old) (λ bytes. text.items ≡ bytes)) }
    ensures read { OnOk result (IsAtEnd (S.left reader.new)) }
    ensures there { OnOk result (IsTrue (S.is_there reader.old)) }
    ensures fault { (clients tags : ℕ) → IfErr result (ScriptGivesUp clients tags (S.left reader.old) (S.can_fail reader.old)) }
{
    let text = read_at_most(alloc, reader, MAX_SCRIPT_BYTES + 1).map_err(output_fault)?;
    if text.len() > MAX_SCRIPT_BYTES {
        return Err(RunFault::Script(ScriptFault::TooLong));
    }
    Ok(text)
}
