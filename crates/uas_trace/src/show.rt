//! The run `trace`: a script from a reader, run as `replay` runs it, and its steps to a writer as they are taken.

ghost use Rattle.std.specs.Prelude.{◌≡◌, ◌≤◌, ◌⊎◌, IsTrue, IsErr, IfOk, IfErr, OnOk, IfSome};
ghost use Rattle.std.specs.Io.KnownBytes.{Keeps, IsAtEnd};
ghost use Rattle.byte_io.specs.Disks.{AreDisks};
ghost use Rattle.uas_script.specs.Script.{script};
ghost use Rattle.uas_replay.specs.Told.{zeroed_units};
ghost use Rattle.uas_trace.specs.Traced.{TraceGivesUp, Traces};
ghost use Rattle.uas_trace.specs.Texts.{TracesScript};

use crate::trace::trace;
use byte_io::{Disks, Sink, Source};
use std::alloc::Global;
use std::io::Write;
use uas_replay::{RunFault, read_script};

/// The run `trace`: reads a script of 1 to 31 clients with 2 to 16 tags each, runs it on units of 1 to 65,536 zeroed blocks, of which one may be
/// bad, and prints each step with what it wrote. The whole script is read before anything is
/// run. It answers the exit status that `replay` answers: 1 where a command ended other than GOOD or was refused, 3 at a fault of
/// the script, the reader or the writer, 4 for want of memory, else 0.
pub fn run_trace<S: Source, O: Sink, W: Write>(
    alloc: Global,
    disks: Disks,
    reader: &mut S,
    writer: &mut O,
    faults: &mut W,
) -> u8
    requires { AreDisks disks }
    ensures statuses { (result ≤ 1) ⊎ ((result ≡ 3) ⊎ (result ≡ 4)) }
    ensures traced { result ≤ 1 → IfSome (S.left reader.old) (λ bytes.
        Traces disks.tags (zeroed_units disks.clients disks.blocks disks.bad) (script disks.clients disks.tags bytes) result) }
    // All that it printed: each step by its text, and behind it what the run told by it.
    ensures text { result ≤ 1 → IfSome (S.left reader.old) (λ bytes.
        TracesScript disks.tags (zeroed_units disks.clients disks.blocks disks.bad) (script disks.clients disks.tags bytes)
        (O.written writer.old) (O.written writer.new)) }
    ensures read { result ≤ 1 → IsAtEnd (S.left reader.new) }
    ensures there { result ≤ 1 → IsTrue (S.is_there reader.old) }
    ensures fault { result ≡ 3 →
        ((IfSome (S.left reader.old) (λ bytes. IsErr (script disks.clients disks.tags bytes)) ⊎ IsTrue (S.can_fail reader.old))
        × Keeps (O.written writer.old) (O.written writer.new)) ⊎ IsTrue (O.can_fail writer.old) }
    ensures quiet { result ≤ 1 → faults.new ≡ faults.old }
{
    match trace_script(alloc, disks, reader, writer) {
        Ok(status) => status,
        Err(fault) => fault.tell(faults),
    }
}

fn trace_script<S: Source, O: Sink>(
    alloc: Global,
    disks: Disks,
    reader: &mut S,
    writer: &mut O,
) -> Result<u8, RunFault>
    requires { AreDisks disks }
    ensures status { IfOk result (λ status. status ≤ 1) }
    ensures traced { IfOk result (λ status. IfSome (S.left reader.old) (λ bytes.
        Traces disks.tags (zeroed_units disks.clients disks.blocks disks.bad) (script disks.clients disks.tags bytes) status)) }
    ensures text { OnOk result (IfSome (S.left reader.old) (λ bytes.
        TracesScript disks.tags (zeroed_units disks.clients disks.blocks disks.bad) (script disks.clients disks.tags bytes)
        (O.written writer.old) (O.written writer.new))) }
    ensures read { OnOk result (IsAtEnd (S.left reader.new)) }
    ensures there { OnOk result (IsTrue (S.is_there reader.old)) }
    ensures fault { IfErr result (TraceGivesUp disks.clients disks.tags (S.left reader.old) (S.can_fail reader.old) (O.can_fail writer.old)
        (O.written writer.old) (O.written writer.new)) }
{
    let lines = read_script(alloc, disks, reader)?;
    trace(alloc, disks, writer, &lines)
}
