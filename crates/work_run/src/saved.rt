//! The run `work` with the file of a log: each client is audited once the threads have ended, and the log is saved.

ghost use Rattle.std.specs.Prelude.{◌≡◌, ◌≤◌, ◌⊎◌, ⊤, Some, [], false, map, IsTrue, IfOk, IfErr, OnOk, OnErr};
ghost use Rattle.std.specs.Io.KnownBytes.{Keeps};
ghost use Rattle.byte_io.specs.Disks.{AreClients};
ghost use Rattle.uas_profile.specs.declared.TheConstants.{TAGS};
ghost use Rattle.log_text.specs.Kept.{IsSavable};
ghost use Rattle.log_file.specs.FileText.{file_text};
ghost use Rattle.work_run.specs.SavedEnds.{NotSaved, Saved, SavedGivesUp, SavingGivesUp, Unsaved, file_fault, saving_fault};
ghost use Rattle.uas_work.specs.Booked.{first_unit};
ghost use Rattle.uas_work.specs.Rounds.{IsDepth};
ghost use Rattle.work_run.specs.WorkEnds.{work_units};

use crate::Load;
use crate::faults::WorkFault;
use crate::run::{Worked, millis_since, ran, release};
use crate::telling::tell;
use booked_limits::booked_logs_fit;
use byte_io::{Files, Sink, StreamFault};
use log_file::{begin_file, save_begun};
use log_keeper::KeepStop;
use std::alloc::Global;
use std::io::Write;
use std::rt::Clock;
use std::sync::Wait;
use std::thread::Threads;
use std::time::Instant;
use uas_log::Log;
use uas_replay::RunFault;
use uas_work::Finished;

/// The run `work` that saves its log: as `run_work`, but behind the lines of the clients it prints for each of them whether its audit
/// is true, and then saves the log in the file of a name. A file that can't be begun is told of before a client works. It answers the
/// exit status: 1 where an audit is false too, 3 at a fault of the file too.
pub fn run_saved_work<R: Threads + Wait + Clock + Sync, F: Files, O: Sink, W: Write>(
    rt: &R,
    alloc: Global,
    load: Load,
    files: &mut F,
    file: &str,
    output: &mut O,
    faults: &mut W,
    may_show_progress: bool,
) -> u8
    requires clients { AreClients load.tags load.clients }
    requires depth { IsDepth load.tags load.depth }
    ensures statuses { (result ≤ 1) ⊎ ((result ≡ 3) ⊎ (result ≡ 4)) }
    ensures saved { result ≤ 1 → Saved load.clients load.tags load.depth load.rounds (F.tells files.old) (F.holds files.new file.now)
        (O.written output.old) (O.written output.new) result }
    ensures created { result ≤ 1 → IsTrue (F.can_create files.old file.now) }
    ensures fault { result ≡ 3 → IsTrue (O.can_fail output.old)
        ⊎ NotSaved load.clients load.tags load.depth load.rounds (F.can_fail files.old file.now) (O.written output.old) (O.written output.new) }
    ensures memory { result ≡ 4 → Keeps (O.written output.old) (O.written output.new)
        ⊎ Unsaved load.clients load.tags load.depth load.rounds (λ log. ⊤) (O.written output.old) (O.written output.new) }
    ensures held { 3 ≤ result → IsTrue (F.tells files.old) → F.holds files.new ≡ F.holds files.old }
    ensures quiet { may_show_progress ≡ false → result ≤ 1 → faults.new ≡ faults.old }
{
    match work(rt, alloc, load, files, file, output) {
        Ok(worked) => {
            if may_show_progress {
                worked.show(faults);
            }
            worked.status
        }
        Err(fault) => fault.tell(faults),
    }
}

fn work<R: Threads + Wait + Clock + Sync, F: Files, O: Sink>(
    rt: &R,
    alloc: Global,
    load: Load,
    files: &mut F,
    file: &str,
    output: &mut O,
) -> Result<Worked, WorkFault>
    requires clients { AreClients load.tags load.clients }
    requires depth { IsDepth load.tags load.depth }
    ensures status { IfOk result (λ worked. worked.status ≤ 1) }
    ensures saved { IfOk result (λ worked. Saved load.clients load.tags load.depth load.rounds (F.tells files.old) (F.holds files.new file.now)
        (O.written output.old) (O.written output.new) worked.status) }
    ensures created { OnOk result (IsTrue (F.can_create files.old file.now)) }
    ensures fault { IfErr result (SavedGivesUp load.clients load.tags load.depth load.rounds (F.can_fail files.old file.now) (O.can_fail output.old)
        (O.written output.old) (O.written output.new)) }
    ensures held { OnErr result (IsTrue (F.tells files.old) → F.holds files.new ≡ F.holds files.old) }
{
    let begun = match begin_file(files, file) {
        Ok(begun) => begun,
        Err(fault) => return Err(file_fault(fault)),
    };
    let start = Instant::now(rt).ok();
    let finished = match ran(rt, alloc, load) {
        Ok(finished) => finished,
        Err(fault) => {
            files.give_up(begun);
            return Err(fault);
        }
    };
    let millis = start.and_then(|start| millis_since(rt, &start));
    let saved = told_and_saved(alloc, load, &finished, millis, files, file, begun, output);
    release(finished);
    saved
}

/// Prints what came of a run, and saves its log in a file that was begun.
fn told_and_saved<F: Files, O: Sink>(
    alloc: Global,
    load: Load,
    finished: &Finished,
    millis: Option<u64>,
    files: &mut F,
    file: &str,
    begun: F::Writer,
    output: &mut O,
) -> Result<Worked, WorkFault>
    requires clients { AreClients load.tags load.clients }
    requires depth { IsDepth load.tags load.depth }
    requires tags { finished.now.booked.log.tags ≡ load.tags }
    requires units { finished.now.booked.log.units ≡ map first_unit (work_units load.clients) }
    requires bytes { IsTrue (F.tells files.old) → F.Writer.written begun ≡ Some [] }
    requires there { IsTrue (F.Writer.is_there begun) }
    requires file { IsTrue (F.Writer.is_of begun file.now) }
    requires fails { IsTrue (F.Writer.can_fail begun) → IsTrue (F.can_fail files.old file.now) }
    ensures status { IfOk result (λ worked. worked.status ≤ 1) }
    ensures saved { IfOk result (λ worked. Saved load.clients load.tags load.depth load.rounds (F.tells files.old) (F.holds files.new file.now)
        (O.written output.old) (O.written output.new) worked.status) }
    ensures fault { IfErr result (SavedGivesUp load.clients load.tags load.depth load.rounds (F.can_fail files.old file.now) (O.can_fail output.old)
        (O.written output.old) (O.written output.new)) }
    ensures held { OnErr result (IsTrue (F.tells files.old) → F.holds files.new ≡ F.holds files.old) }
{
    let commands = finished.booked.log().replies.len();
    let status = match tell(alloc, load, finished, true, output) {
        Ok(status) => status,
        Err(fault) => {
            files.give_up(begun);
            return Err(fault);
        }
    };
    booked_logs_fit(&finished.booked);
    match save(alloc, finished.booked.log(), files, file, begun) {
        Ok(()) => Ok(Worked {
            status,
            commands,
            millis,
        }),
        Err(fault) => Err(fault),
    }
}

/// Saves a log in a file that was begun. At a fault every file holds what it held.
fn save<F: Files>(
    alloc: Global,
    log: &Log,
    files: &mut F,
    file: &str,
    begun: F::Writer,
) -> Result<(), WorkFault>
    requires savable { log.now.tags ≡ TAGS → IsSavable log.now }
    requires bytes { IsTrue (F.tells files.old) → F.Writer.written begun ≡ Some [] }
    requires there { IsTrue (F.Writer.is_there begun) }
    requires file { IsTrue (F.Writer.is_of begun file.now) }
    requires fails { IsTrue (F.Writer.can_fail begun) → IsTrue (F.can_fail files.old file.now) }
    ensures text { OnOk result (IsTrue (F.tells files.old) → F.holds files.new file.now ≡ Some (file_text log.now)) }
    ensures fault { IfErr result (SavingGivesUp log.now (F.can_fail files.old file.now)) }
    ensures held { OnErr result (IsTrue (F.tells files.old) → F.holds files.new ≡ F.holds files.old) }
{
    match save_begun(alloc, log, files, file, begun) {
        Ok(()) => Ok(()),
        Err(stop) => Err(saving_fault(stop)),
    }
}

/// The fault of a log that isn't saved.
fn saving_fault(stop: KeepStop) -> WorkFault
    ensures { result ≡ saving_fault stop }
{
    match stop {
        KeepStop::Limits => WorkFault::LogFull,
        KeepStop::NoMemory => WorkFault::Run(RunFault::NoMemory),
        KeepStop::File => WorkFault::LogFile,
    }
}

/// A fault of the log's file.
fn file_fault(fault: StreamFault) -> WorkFault
    ensures { result ≡ file_fault fault }
{
    match fault {
        StreamFault::NoMemory => WorkFault::Run(RunFault::NoMemory),
        StreamFault::File => WorkFault::LogFile,
    }
}
