//! The run `capture`.

ghost use Rattle.std.specs.Prelude.{◌≡◌, ℕ, ◌≤◌, ◌⊎◌, [], false, Ok, Some, IsTrue, IsErr, IfOk, IfErr, OnOk, IfSome};
ghost use Rattle.std.specs.Io.KnownBytes.{Appends, Keeps, IsAtEnd};
ghost use Rattle.byte_io.specs.Disks.{AreDisks};
ghost use Rattle.uas_script.specs.Script.{script};
ghost use Rattle.uas_replay.specs.Told.{told, zeroed_units};
ghost use Rattle.uas_replay.specs.Runs.{ScriptGivesUp, StopsBy, Tells};
ghost use Rattle.capture_run.specs.Ends.{AppendsCapture, CaptureGivesUp, CapturesScript, FileGivesUp, IsCapture, IsCaptureOf};
ghost use Rattle.uas_trace.specs.Texts.{TracesScript};

use crate::fault::{CaptureFault, capture_fault};
use crate::kept::{Kept, run_kept};
use crate::urbs::capture_of;
use byte_io::{BytesLeft, BytesTaken, Disks, Files, Sink, Source, read_at_most};
use std::alloc::Global;
use std::io::Write;
use uas_replay::{COMMAND_FAILED, RunFault, output_fault, read_script};
use uas_script::{Line, MAX_SCRIPT_BYTES, ScriptFault};
use uas_trace::run_trace;

/// A script of so many lines takes seconds to run.
const LONG_SCRIPT: usize = 20_000;

/// The run `capture`: reads a script of 1 to 31 clients with 2 to 16 tags each, runs it on units of 1 to 65,536 zeroed blocks, of which
/// one may be bad, writes the capture to the file of a name and prints what `replay` prints. The file is created once the script was
/// read without a fault; the lines are printed once it was closed. A long run says on `faults` how far it is, where that is asked
/// for. It answers the exit status that `replay` answers, and 3 at a fault of the file too.
pub fn run_capture<F: Files, S: Source, O: Sink, W: Write>(
    alloc: Global,
    disks: Disks,
    files: &mut F,
    file: &str,
    input: &mut S,
    output: &mut O,
    faults: &mut W,
    may_show_progress: bool,
) -> u8
    requires { AreDisks disks }
    ensures statuses { (result ≤ 1) ⊎ ((result ≡ 3) ⊎ (result ≡ 4)) }
    ensures told { result ≤ 1 → IfSome (S.left input.old) (λ bytes.
        Tells disks.tags (zeroed_units disks.clients disks.blocks disks.bad) (script disks.clients disks.tags bytes)
        (O.written output.old) (O.written output.new) result) }
    ensures captured { result ≤ 1 → IsTrue (F.tells files.old) → IsCapture (F.holds files.new file.now) }
    // The trace that is captured is the one of the script.
    ensures of { result ≤ 1 → IfSome (S.left input.old) (λ bytes. IsTrue (F.tells files.old) →
        CapturesScript disks.tags (zeroed_units disks.clients disks.blocks disks.bad) (script disks.clients disks.tags bytes) (F.holds files.new file.now)) }
    ensures created { result ≤ 1 → IsTrue (F.can_create files.old file.now) }
    ensures fault { result ≡ 3 →
        ((IfSome (S.left input.old) (λ bytes. IsErr (script disks.clients disks.tags bytes)) ⊎ (IsTrue (S.can_fail input.old)
        ⊎ IsTrue (F.can_fail files.old file.now))) × Keeps (O.written output.old) (O.written output.new)) ⊎ IsTrue (O.can_fail output.old) }
    ensures memory { result ≡ 4 → Keeps (O.written output.old) (O.written output.new) }
    ensures quiet { may_show_progress ≡ false → result ≤ 1 → faults.new ≡ faults.old }
{
    match capture(
        alloc,
        disks,
        files,
        file,
        input,
        output,
        faults,
        may_show_progress,
    ) {
        Ok(status) => status,
        Err(fault) => fault.tell(faults),
    }
}

fn capture<F: Files, S: Source, O: Sink, W: Write>(
    alloc: Global,
    disks: Disks,
    files: &mut F,
    file: &str,
    input: &mut S,
    output: &mut O,
    notes: &mut W,
    may_show_progress: bool,
) -> Result<u8, CaptureFault>
    requires { AreDisks disks }
    ensures status { IfOk result (λ status. status ≤ 1) }
    ensures told { IfOk result (λ status. IfSome (S.left input.old) (λ bytes.
        Tells disks.tags (zeroed_units disks.clients disks.blocks disks.bad) (script disks.clients disks.tags bytes)
        (O.written output.old) (O.written output.new) status)) }
    ensures captured { OnOk result (IsTrue (F.tells files.old) → IsCapture (F.holds files.new file.now)) }
    ensures of { OnOk result (IfSome (S.left input.old) (λ bytes. IsTrue (F.tells files.old) →
        CapturesScript disks.tags (zeroed_units disks.clients disks.blocks disks.bad) (script disks.clients disks.tags bytes) (F.holds files.new file.now))) }
    ensures created { OnOk result (IsTrue (F.can_create files.old file.now)) }
    ensures fault { IfErr result (CaptureGivesUp disks.clients disks.tags (S.left input.old) (S.can_fail input.old) (O.can_fail output.old)
        (F.can_fail files.old file.now) (O.written output.old) (O.written output.new)) }
    ensures quiet { may_show_progress ≡ false → notes.new ≡ notes.old }
{
    let script = read_text(alloc, input).map_err(CaptureFault::Run)?;
    let lines = read_script(alloc, disks, &mut BytesLeft(&script)).map_err(CaptureFault::Run)?;
    let shows_progress = may_show_progress && lines.len() >= LONG_SCRIPT;
    let kept = save(
        alloc,
        disks,
        files,
        file,
        &script,
        &lines,
        notes,
        shows_progress,
    )?;
    output
        .write(&kept.text)
        .map_err(|fault| CaptureFault::Run(output_fault(fault)))?;
    Ok(kept.status)
}

/// Reads the text of a script: too long once the reader gave more bytes than a script has.
#[tactic(auto, unfolding(uas_script::specs::Script::script))]
fn read_text<S: Source>(alloc: Global, reader: &mut S) -> Result<Vec<u8>, RunFault>
    ensures bytes { IfOk result (λ text. IfSome (S.left reader.old) (λ bytes. text.items ≡ bytes)) }
    ensures fault { (clients tags : ℕ) → IfErr result (ScriptGivesUp clients tags (S.left reader.old) (S.can_fail reader.old)) }
{
    let text = read_at_most(alloc, reader, MAX_SCRIPT_BYTES + 1).map_err(|fault| output_fault(
        fault,
    ))?;
    if text.len() > MAX_SCRIPT_BYTES {
        return Err(RunFault::Script(ScriptFault::TooLong));
    }
    Ok(text)
}

/// Creates the file, runs the lines and writes the capture. At a fault every file holds what it held.
fn save<F: Files, W: Write>(
    alloc: Global,
    disks: Disks,
    files: &mut F,
    file: &str,
    source: &[u8],
    lines: &[Line],
    notes: &mut W,
    shows_progress: bool,
) -> Result<Kept, CaptureFault>
    requires disks { AreDisks disks }
    requires lines { script disks.clients disks.tags source.now ≡ Ok lines.now }
    ensures text { IfOk result (λ kept. kept.text.items ≡ (told disks.tags (zeroed_units disks.clients disks.blocks disks.bad) lines.now).0) }
    ensures status { IfOk result (λ kept. kept.status ≡ (told disks.tags (zeroed_units disks.clients disks.blocks disks.bad) lines.now).1) }
    ensures captured { OnOk result (IsTrue (F.tells files.old) → IsCaptureOf disks.tags (zeroed_units disks.clients disks.blocks disks.bad) lines.now (F.holds files.new file.now)) }
    ensures created { OnOk result (IsTrue (F.can_create files.old file.now)) }
    ensures fault { IfErr result (FileGivesUp (F.can_fail files.old file.now)) }
    ensures quiet { shows_progress ≡ false → notes.new ≡ notes.old }
{
    let mut capture = files.create(file);
    match write_capture(
        alloc,
        disks,
        source,
        lines,
        &mut capture,
        notes,
        shows_progress,
    ) {
        Ok(kept) => {
            files.close(capture).map_err(|fault| capture_fault(fault))?;
            Ok(kept)
        }
        Err(fault) => {
            files.give_up(capture);
            Err(fault)
        }
    }
}

/// Runs the lines, and writes the capture.
fn write_capture<O: Sink, W: Write>(
    alloc: Global,
    disks: Disks,
    source: &[u8],
    lines: &[Line],
    file: &mut O,
    notes: &mut W,
    shows_progress: bool,
) -> Result<Kept, CaptureFault>
    requires disks { AreDisks disks }
    requires lines { script disks.clients disks.tags source.now ≡ Ok lines.now }
    ensures text { IfOk result (λ kept. kept.text.items ≡ (told disks.tags (zeroed_units disks.clients disks.blocks disks.bad) lines.now).0) }
    ensures status { IfOk result (λ kept. kept.status ≡ (told disks.tags (zeroed_units disks.clients disks.blocks disks.bad) lines.now).1) }
    ensures captured { OnOk result (AppendsCapture disks.tags (zeroed_units disks.clients disks.blocks disks.bad) lines.now (O.written file.old) (O.written file.new)) }
    ensures there { OnOk result (IsTrue (O.is_there file.old)) }
    ensures same { O.can_fail file.new ≡ O.can_fail file.old }
    ensures stays { O.is_there file.new ≡ O.is_there file.old }
    ensures of { O.is_of file.new ≡ O.is_of file.old }
    ensures fault { IfErr result (FileGivesUp (O.can_fail file.old)) }
    ensures quiet { shows_progress ≡ false → notes.new ≡ notes.old }
{
    let kept = run_kept(alloc, disks, lines).map_err(|_| CaptureFault::Run(RunFault::NoMemory))?;
    note("the script has run: tracing it", notes, shows_progress);
    let trace = trace_text(alloc, disks, source).map_err(|_| CaptureFault::Run(
        RunFault::NoMemory,
    ))?;
    note("traced: writing its packets", notes, shows_progress);
    let capture = capture_of(alloc, &kept.transfers, &trace).map_err(|_| CaptureFault::Run(
        RunFault::NoMemory,
    ))?;
    file.write(&capture).map_err(|fault| capture_fault(fault))?;
    Ok(kept)
}

/// Tells how far a run is, where that is asked for. A fault of `notes` changes nothing.
fn note<W: Write>(what: &str, notes: &mut W, shows_progress: bool)
    ensures { shows_progress ≡ false → notes.new ≡ notes.old }
{
    if shows_progress {
        let _ = writeln!(notes, "{what}");
    }
}

/// What `trace` prints of the script.
fn trace_text(alloc: Global, disks: Disks, source: &[u8]) -> Result<Vec<u8>, RunFault>
    requires { AreDisks disks }
    ensures { IfOk result (λ text. TracesScript disks.tags (zeroed_units disks.clients disks.blocks disks.bad) (script disks.clients disks.tags source.now) (Some []) (Some text.items)) }
{
    let mut taken = BytesTaken(Vec::new(alloc));
    let mut faults = Vec::new(alloc);
    let status = run_trace(
        alloc,
        disks,
        &mut BytesLeft(source),
        &mut taken,
        &mut faults,
    );
    if status > COMMAND_FAILED {
        return Err(RunFault::NoMemory);
    }
    let BytesTaken(text) = taken;
    Ok(text)
}
