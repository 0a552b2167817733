//! The run `work` whose log is kept in a file while it grows. The file has the log's head before a client works, so whatever ends the program
//! later, the file has a beginning of the log; and where the log is full, or memory lacks, why it ended.

ghost use Rattle.std.specs.Prelude.{◌≡◌, ℕ, ◌≤◌, ◌⊎◌, Bool, List, Option, None, Some, Err, IsTrue, false, length, map, IfErr, IfOk, IfSome, OnErr, OnOk};
ghost use Rattle.std.specs.Io.KnownBytes.{Keeps};
ghost use Rattle.byte_io.specs.Disks.{AreClients};
ghost use Rattle.uas_log.specs.declared.FirstUnit.{FirstUnit};
ghost use Rattle.uas_work.specs.Booked.{first_unit};
ghost use Rattle.uas_work.specs.Rounds.{IsDepth};
ghost use Rattle.work_run.specs.WorkEnds.{fault_of, step_limit, why_of, work_units};
ghost use Rattle.kept_log.specs.declared.Why.TheVariants as why;
ghost use Rattle.work_run.specs.KeptTexts.{HasBeginning, HasText, HasWhole};
ghost use Rattle.work_run.specs.KeptEnds.{HasLeft, KeptGivesUp, KeptLeaves, KeptTold, stop_fault};

use crate::Load;
use crate::faults::WorkFault;
use crate::keeping::Keeping;
use crate::locked_keeper::{KeptLog, LockedKeeper};
use crate::run::{Worked, booked, fault_of, millis_since, ran_by, release, tell_work};
use booked_limits::booked_logs_fit;
use byte_io::Sink;
use kept_log::Why;
use log_keeper::{Head, KeepStop, Keeper, KeptFile, KeptFiles, KeptWriter};
use std::alloc::Global;
use std::io::Write;
use std::marker::Brand;
use std::rt::Clock;
use std::sync::Wait;
use std::thread::Threads;
use std::time::Instant;
use uas_replay::RunFault;
use uas_work::{Booked, Ended, Finished};

/// Where a log is kept.
#[derive(Clone, Copy, Debug, PartialEq, Eq)]
pub struct Kept<'a> {
    /// The file's name.
    pub file: &'a str,
    /// After how many steps the file is synced; 0: at the end alone. With 1 a client has a reply only once its record was synced.
    pub every: usize,
}

/// The run `work` that keeps its log: as `run_work`, but the log's records go to the file of a name while the threads work, and then come
/// the lines of the clients and of their audits. The file ends with why the log ended, also where that is full or memory lacks. It answers
/// the exit status: 1 where an audit is false too, 3 at a fault of the file too, where what was synced is a beginning of the log.
pub fn run_kept_work<R: Threads + Wait + Clock + Sync, K: KeptFiles, O: Sink, W: Write>(
    rt: &R,
    alloc: Global,
    load: Load,
    files: &mut K,
    kept: Kept<'_>,
    output: &mut O,
    faults: &mut W,
    may_show_progress: bool,
) -> u8
    requires clients { AreClients load.tags load.clients }
    requires depth { IsDepth load.tags load.depth }
    ensures statuses { (result ≤ 1) ⊎ ((result ≡ 3) ⊎ (result ≡ 4)) }
    ensures told { result ≤ 1 → KeptTold load.clients load.tags load.depth load.rounds (K.tells files.old) (K.holds files.new kept.entry.file.now)
        (O.written output.old) (O.written output.new) result }
    ensures fault { result ≡ 3 → IsTrue (O.can_fail output.old)
        ⊎ (IsTrue (K.can_fail files.old kept.entry.file.now) × Keeps (O.written output.old) (O.written output.new)) }
    ensures memory { result ≡ 4 → Keeps (O.written output.old) (O.written output.new) }
    ensures left { 3 ≤ result → IsTrue (K.tells files.old) → ∥ HasLeft load.tags (map first_unit (work_units load.clients))
        (K.holds files.old kept.entry.file.now) (K.holds files.new kept.entry.file.now) ∥₁ }
    ensures quiet { may_show_progress ≡ false → result ≤ 1 → faults.new ≡ faults.old }
{
    match work(rt, alloc, load, files, kept, output) {
        Ok(worked) => {
            if may_show_progress {
                worked.show(faults);
            }
            worked.status
        }
        Err(fault) => fault.tell(faults),
    }
}

fn work<R: Threads + Wait + Clock + Sync, K: KeptFiles, O: Sink>(
    rt: &R,
    alloc: Global,
    load: Load,
    files: &mut K,
    kept: Kept<'_>,
    output: &mut O,
) -> Result<Worked, WorkFault>
    requires clients { AreClients load.tags load.clients }
    requires depth { IsDepth load.tags load.depth }
    ensures status { IfOk result (λ worked. worked.status ≤ 1) }
    ensures told { IfOk result (λ worked. KeptTold load.clients load.tags load.depth load.rounds (K.tells files.old) (K.holds files.new kept.entry.file.now)
        (O.written output.old) (O.written output.new) worked.status) }
    ensures left { OnErr result (IsTrue (K.tells files.old) → ∥ HasLeft load.tags (map first_unit (work_units load.clients))
        (K.holds files.old kept.entry.file.now) (K.holds files.new kept.entry.file.now) ∥₁) }
    ensures fault { IfErr result (KeptGivesUp (K.can_fail files.old kept.entry.file.now) (O.can_fail output.old)
        (O.written output.old) (O.written output.new)) }
{
    let start = Instant::now(rt).ok();
    let finished = match ran_kept(rt, alloc, load, files, kept) {
        Ok(finished) => finished,
        Err(fault) => return Err(fault),
    };
    let millis = start.and_then(|start| millis_since(rt, &start));
    let told = tell_work(alloc, load, &finished, millis, true, output);
    release(finished);
    match told {
        Ok(worked) => Ok(worked),
        Err(fault) => Err(fault),
    }
}

/// Lets the clients take their rounds while their log is kept, and ends it.
fn ran_kept<R: Threads + Wait + Clock + Sync, K: KeptFiles>(
    rt: &R,
    alloc: Global,
    load: Load,
    files: &mut K,
    kept: Kept<'_>,
) -> Result<Finished, WorkFault>
    requires clients { AreClients load.tags load.clients }
    requires depth { IsDepth load.tags load.depth }
    ensures ended { IfOk result (λ finished. fault_of finished.ended ≡ None) }
    ensures tags { IfOk result (λ finished. finished.booked.log.tags ≡ load.tags) }
    ensures units { IfOk result (λ finished. finished.booked.log.units ≡ map first_unit (work_units load.clients)) }
    ensures whole { IfOk result (λ finished. IsTrue (K.tells files.old)
        → ∥ HasWhole finished.booked.log (why_of finished.ended) (K.holds files.new kept.entry.file.now) ∥₁) }
    ensures left { IfErr result (λ fault. IsTrue (K.tells files.old) → ∥ KeptLeaves load.tags (map first_unit (work_units load.clients))
        (K.holds files.old kept.entry.file.now) (K.holds files.new kept.entry.file.now) fault ∥₁) }
    ensures fault { IfErr result (λ fault. (can_fail : Bool) → (text : Option (List ℕ))
        → KeptGivesUp (K.can_fail files.old kept.entry.file.now) can_fail text text fault) }
{
    let Ok(booked) = booked(alloc, load) else {
        return Err(WorkFault::Run(RunFault::NoMemory));
    };
    ran_with::<Brand, R, K>(rt, alloc, load, booked, files, kept)
}

/// Lets the clients of a bus take their rounds while its log is kept, and ends it. Whatever comes, the file is closed.
fn ran_with<J: KeptLog + Send + Sync, R: Threads + Wait + Clock + Sync, K: KeptFiles>(
    rt: &R,
    alloc: Global,
    load: Load,
    booked: Booked,
    files: &mut K,
    kept: Kept<'_>,
) -> Result<Finished, WorkFault>
    requires tags { booked.log.tags ≡ J.tags }
    requires units { booked.log.units ≡ J.units }
    requires clients { AreClients J.tags (length J.units) }
    requires room { booked.limit ≡ step_limit load.clients load.rounds }
    requires depth { IsDepth booked.log.tags load.depth }
    requires name { kept.file.now ≡ J.name }
    requires tells { K.tells files.old ≡ J.tells }
    requires fails { K.can_fail files.old kept.file.now ≡ J.can_fail }
    ensures ended { IfOk result (λ finished. fault_of finished.ended ≡ None) }
    ensures tags { IfOk result (λ finished. finished.booked.log.tags ≡ J.tags) }
    ensures units { IfOk result (λ finished. finished.booked.log.units ≡ J.units) }
    ensures whole { IfOk result (λ finished. IsTrue (K.tells files.old)
        → ∥ HasWhole finished.booked.log (why_of finished.ended) (K.holds files.new kept.entry.file.now) ∥₁) }
    ensures left { IfErr result (λ fault. IsTrue (K.tells files.old)
        → ∥ KeptLeaves J.tags J.units (K.holds files.old kept.entry.file.now) (K.holds files.new kept.entry.file.now) fault ∥₁) }
    ensures fault { IfErr result (λ fault. (can_fail : Bool) → (text : Option (List ℕ))
        → KeptGivesUp (K.can_fail files.old kept.entry.file.now) can_fail text text fault) }
{
    let keeper = match keeper_of::<J, K>(alloc, &booked, files, kept) {
        Ok(keeper) => keeper,
        Err(stop) => return Err(stop_fault(stop)),
    };
    let keeping = Keeping::new(rt, keeper);
    let Ok(finished) = ran_by(rt, alloc, load, booked, &keeping) else {
        let (file, _) = keeping.into_keeper().end(alloc, Why::NoMemory);
        files.close(file);
        return Err(WorkFault::Run(RunFault::NoMemory));
    };
    let (file, ended) = end_log(alloc, keeping.into_keeper(), &finished);
    files.close(file);
    match fault_at(ended, finished.ended) {
        None => Ok(finished),
        Some(fault) => {
            release(finished);
            Err(fault)
        }
    }
}

/// The keeper of a bus's log, whose file has the log's head, synced.
fn keeper_of<J: KeptLog, K: KeptFiles>(
    alloc: Global,
    booked: &Booked,
    files: &mut K,
    kept: Kept<'_>,
) -> Result<LockedKeeper<J, K::File>, KeepStop>
    requires tags { booked.now.log.tags ≡ J.tags }
    requires units { booked.now.log.units ≡ J.units }
    requires clients { AreClients J.tags (length J.units) }
    requires name { kept.file.now ≡ J.name }
    requires tells { K.tells files.old ≡ J.tells }
    requires fails { K.can_fail files.old kept.file.now ≡ J.can_fail }
    ensures every { IfOk result (λ keeper. keeper.keeper.writer.every ≡ kept.entry.every) }
    ensures same { OnOk result (K.tells files.new ≡ K.tells files.old) }
    ensures fault { result ≡ Err KeepStop.File → IsTrue J.can_fail }
    ensures limits { result ≡ Err KeepStop.Limits → ⊥ }
    ensures left { OnErr result (IsTrue J.tells → HasLeft J.tags J.units (K.holds files.old J.name) (K.holds files.new J.name)) }
{
    booked_logs_fit(booked);
    let head = Head::of(alloc, booked.log())?;
    let file = files.create(kept.file)?;
    let mut keeper = Keeper::new(head, kept.every, file);
    if let Err(fault) = keeper.sync() {
        let Keeper { writer, .. } = keeper;
        let KeptWriter { file, .. } = writer;
        files.close(file);
        return Err(KeepStop::from(fault));
    }
    Ok(LockedKeeper::new(keeper))
}

/// Writes what the file of a log doesn't have yet, and why the log ended: the file, and why the log isn't whole there.
fn end_log<J: KeptLog, F: KeptFile + Drop>(
    alloc: Global,
    keeper: LockedKeeper<J, F>,
    finished: &Finished,
) -> (F, Result<(), KeepStop>)
    requires positive { 1 ≤ finished.now.booked.log.tags }
    requires tags { finished.now.booked.log.tags ≡ J.tags }
    requires units { finished.now.booked.log.units ≡ J.units }
    ensures whole { OnOk result.1 (IsTrue J.tells → ∥ HasWhole finished.now.booked.log (why_of finished.now.ended) (F.synced result.0) ∥₁) }
    ensures full { result.1 ≡ Err KeepStop.Limits → IsTrue J.tells → ∥ HasText J.tags J.units (Some why.LogFull) (F.synced result.0) ∥₁ }
    ensures left { IsTrue J.tells → ∥ HasBeginning J.tags J.units (F.synced result.0) ∥₁ }
    ensures file { IsTrue (F.is_of result.0 J.name) }
    ensures fault { result.1 ≡ Err KeepStop.File → IsTrue J.can_fail }
{
    keeper.finish(alloc, finished.booked.log(), why_of(finished.ended))
}

/// The fault of a run whose threads ended so, and whose log is whole in its file or stopped.
fn fault_at(kept: Result<(), KeepStop>, ended: Ended) -> Option<WorkFault>
    ensures none { result ≡ None → OnOk kept (fault_of ended ≡ None) }
    ensures whole { result ≡ None → OnErr kept ⊥ }
    ensures leaves { (tags : ℕ) → (units : List FirstUnit) → (old new : Option (List ℕ)) → OnOk kept ∥ HasText tags units (Some (why_of ended)) new ∥₁
        → (kept ≡ Err KeepStop.Limits → ∥ HasText tags units (Some why.LogFull) new ∥₁) → ∥ HasBeginning tags units new ∥₁
        → IfSome result (λ fault. ∥ KeptLeaves tags units old new fault ∥₁) }
    ensures gives_up { (can_file_fail can_fail : Bool) → (text : Option (List ℕ)) → (kept ≡ Err KeepStop.File → IsTrue can_file_fail)
        → IfSome result (λ fault. KeptGivesUp can_file_fail can_fail text text fault) }
{
    match kept {
        Ok(()) => fault_of(ended),
        Err(stop) => Some(stop_fault(stop)),
    }
}

/// Why the log ended.
fn why_of(ended: Ended) -> Why
    ensures { result ≡ why_of ended }
{
    match ended {
        Ended::Done => Why::Complete,
        Ended::LogFull => Why::LogFull,
        Ended::NoMemory | Ended::NoThread => Why::NoMemory,
        Ended::Stopped => Why::LogFile,
    }
}

/// The fault of a log that isn't kept to its end.
fn stop_fault(stop: KeepStop) -> WorkFault
    ensures fault { result ≡ stop_fault stop }
    ensures gives_up { (can_file_fail can_fail : Bool) → (text : Option (List ℕ)) → (stop ≡ KeepStop.File → IsTrue can_file_fail)
        → KeptGivesUp can_file_fail can_fail text text result }
{
    match stop {
        KeepStop::Limits => WorkFault::LogFull,
        KeepStop::NoMemory => WorkFault::Run(RunFault::NoMemory),
        KeepStop::File => WorkFault::LogFile,
    }
}
