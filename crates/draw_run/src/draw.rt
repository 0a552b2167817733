//! The run `draw`.

ghost use Rattle.std.specs.Prelude.{◌≡◌, ◌≤◌, ◌⊎◌, false, IsTrue, IsErr, IfErr, IfOk, OnOk, IfSome};
ghost use Rattle.std.specs.Io.KnownBytes.{Appends, Keeps, IsAtEnd};
ghost use Rattle.byte_io.specs.Disks.{AreDisks};
ghost use Rattle.uas_script.specs.Script.{script};
ghost use Rattle.uas_replay.specs.Told.{zeroed_units};
ghost use Rattle.uas_trace.specs.Traced.{Traces};
ghost use Rattle.draw_run.specs.Draws.{AppendsDrawn, DrawsScript, StopsDrawing, drawn_of};

use crate::Form;
use crate::page::page;
use crate::picture::picture;
use byte_io::{BytesTaken, Disks, Sink, Source};
use std::alloc::{AllocError, Global};
use std::io::Write;
use uas_replay::{COMMAND_FAILED, RunFault, output_fault};
use uas_trace::run_trace;

/// The trace of a run of some thousand commands has so many bytes.
const LONG_TRACE: usize = 4_194_304;

/// The run `draw`: reads a script of 1 to 31 clients with 2 to 16 tags each, runs it on units of 1 to 65,536 zeroed blocks, of which one
/// may be bad, and writes the run in this form once it is done. A long run says so on `faults` once it is traced, where that is asked
/// for. It answers the exit status that `trace` answers.
pub fn run_draw<S: Source, O: Sink, W: Write>(
    alloc: Global,
    disks: Disks,
    form: Form,
    reader: &mut S,
    writer: &mut O,
    faults: &mut W,
    may_show_progress: bool,
) -> u8
    requires { AreDisks disks }
    ensures statuses { (result ≤ 1) ⊎ ((result ≡ 3) ⊎ (result ≡ 4)) }
    ensures traced { result ≤ 1 → IfSome (S.left reader.old) (λ bytes.
        Traces disks.tags (zeroed_units disks.clients disks.blocks disks.bad) (script disks.clients disks.tags bytes) result) }
    ensures drawn { result ≤ 1 → AppendsDrawn form disks.clients disks.tags (O.written writer.old) (O.written writer.new) }
    // The trace that is drawn is the one of the script.
    ensures of { result ≤ 1 → IfSome (S.left reader.old) (λ bytes.
        DrawsScript form disks.clients disks.tags (zeroed_units disks.clients disks.blocks disks.bad) (script disks.clients disks.tags bytes)
        (O.written writer.old) (O.written writer.new)) }
    ensures read { result ≤ 1 → IsAtEnd (S.left reader.new) }
    ensures there { result ≤ 1 → IsTrue (S.is_there reader.old) }
    ensures fault { result ≡ 3 →
        ((IfSome (S.left reader.old) (λ bytes. IsErr (script disks.clients disks.tags bytes)) ⊎ IsTrue (S.can_fail reader.old))
        × Keeps (O.written writer.old) (O.written writer.new)) ⊎ IsTrue (O.can_fail writer.old) }
    ensures memory { result ≡ 4 → Keeps (O.written writer.old) (O.written writer.new) }
    ensures quiet { may_show_progress ≡ false → result ≤ 1 → faults.new ≡ faults.old }
{
    let mut trace = BytesTaken(Vec::new(alloc));
    let status = run_trace(alloc, disks, reader, &mut trace, faults);
    if status > COMMAND_FAILED {
        return status;
    }
    let BytesTaken(text) = trace;
    note(text.len(), faults, may_show_progress);
    match write_drawn(alloc, form, disks, &text, writer) {
        Ok(()) => status,
        Err(fault) => fault.tell(faults),
    }
}

/// Tells how long a trace is that will be drawn, where it is long and that is asked for. A fault of `notes` changes nothing.
fn note<W: Write>(bytes: usize, notes: &mut W, may_show_progress: bool)
    ensures { may_show_progress ≡ false → notes.new ≡ notes.old }
{
    if may_show_progress && bytes >= LONG_TRACE {
        let _ = writeln!(
            notes,
            "the script has run: drawing a trace of {bytes} bytes"
        );
    }
}

/// Writes what is drawn of a trace.
fn write_drawn<O: Sink>(
    alloc: Global,
    form: Form,
    disks: Disks,
    trace: &[u8],
    writer: &mut O,
) -> Result<(), RunFault>
    requires { AreDisks disks }
    ensures drawn { OnOk result (Appends (O.written writer.old) (O.written writer.new) (drawn_of form disks.clients disks.tags trace.now)) }
    ensures fault { IfErr result (StopsDrawing (O.can_fail writer.old) (O.written writer.old) (O.written writer.new)) }
{
    let Ok(drawn) = drawn(alloc, form, disks, trace) else {
        return Err(RunFault::NoMemory);
    };
    writer.write(&drawn).map_err(|fault| output_fault(fault))
}

/// What is drawn of a trace in this form.
fn drawn(alloc: Global, form: Form, disks: Disks, trace: &[u8]) -> Result<Vec<u8>, AllocError>
    requires { AreDisks disks }
    ensures { IfOk result (λ drawn. drawn.items ≡ drawn_of form disks.clients disks.tags trace.now) }
{
    let clients = disks.clients as u8;
    match form {
        Form::Picture => picture(alloc, clients, disks.tags, trace),
        Form::Page => page(alloc, clients, disks.tags, trace),
    }
}
