//! The run itself: what is told to a writer of a reader's bytes.
ghost use Rattle.std.specs.Prelude.{◌≡◌, ◌⊎◌, IsTrue, IfOk, IfErr, OnOk, IfSome, false};
ghost use Rattle.std.specs.Io.KnownBytes.{Keeps};
ghost use Rattle.audit_run.specs.Ends.{GivesUp, IsRefused, Tells};

use crate::answer::answered;
use crate::{AuditFault, DONE};
use byte_io::{Sink, Source, StreamFault};
use std::alloc::Global;
use std::io::Write;

/// Audits the log that `source` has. Where the log is the replay of its own steps, `output` gets a line for each client, by number:
/// `client C replies R true`, R being how many replies it took, and where `head` is a checksum, behind them `head HEX at step N`, N being
/// how many steps stand before the first record with this checksum; where there is none, that is the log's fault. It answers the exit status: 3 at a fault of the file, its text or the
/// log, or of the writer, 4 for want of memory, else 0. `faults` gets the fault in one line, and where a
/// person watches, what it means, and a line once a long log is read; a fault of `faults` changes nothing.
pub fn run_audit<S: Source, O: Sink, W: Write>(
    alloc: Global,
    source: &mut S,
    head: Option<u32>,
    output: &mut O,
    faults: &mut W,
    is_watched: bool,
) -> u8
    ensures statuses { (result ≡ 0) ⊎ ((result ≡ 3) ⊎ (result ≡ 4)) }
    ensures told { result ≡ 0 → IfSome (S.left source.old) (λ bytes. Tells head bytes (O.written output.old) (O.written output.new)) }
    ensures there { result ≡ 0 → IsTrue (S.is_there source.old) }
    ensures fault { result ≡ 3
        → (((IfSome (S.left source.old) (IsRefused head) × IsTrue (S.is_there source.old)) ⊎ IsTrue (S.can_fail source.old))
        × Keeps (O.written output.old) (O.written output.new)) ⊎ IsTrue (O.can_fail output.old) }
    ensures memory { result ≡ 4 → Keeps (O.written output.old) (O.written output.new) }
    ensures quiet { is_watched ≡ false → result ≡ 0 → faults.new ≡ faults.old }
{
    match audited(alloc, source, head, output, faults, is_watched) {
        Ok(()) => DONE,
        Err(fault) => fault.tell(faults, is_watched),
    }
}

/// Audits the log: each client's audit is true. `output` gets what is told.
fn audited<S: Source, O: Sink, W: Write>(
    alloc: Global,
    source: &mut S,
    head: Option<u32>,
    output: &mut O,
    notes: &mut W,
    shows_progress: bool,
) -> Result<(), AuditFault>
    ensures told { OnOk result (IfSome (S.left source.old) (λ bytes. Tells head bytes (O.written output.old) (O.written output.new))) }
    ensures there { OnOk result (IsTrue (S.is_there source.old)) }
    ensures fault { IfErr result (GivesUp head (S.left source.old) (S.is_there source.old) (S.can_fail source.old) (O.can_fail output.old)
        (O.written output.old) (O.written output.new)) }
    ensures quiet { shows_progress ≡ false → notes.new ≡ notes.old }
{
    let answer = answered(alloc, source, head, notes, shows_progress)?;
    match output.write(&answer) {
        Ok(()) => Ok(()),
        Err(StreamFault::NoMemory) => Err(AuditFault::NoMemory),
        Err(StreamFault::File) => Err(AuditFault::Output),
    }
}
