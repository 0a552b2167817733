//! The keeper of a log under its lock: what its file has is the beginning of a log, until it stops.
ghost use Rattle.std.specs.Prelude.{◌≡◌, ◌≢◌, ℕ, ◌+◌, ◌-◌, ◌≤◌, ◌==◌, Bool, true, List, Option, None, Some, Err, [], if◌then◌else◌, IfErr, IfSome, IsTrue, OnOk, length};
ghost use Rattle.uas_profile.specs.declared.TheConstants.{MAX_CLIENTS};
ghost use Rattle.uas_log.specs.declared.FirstUnit.{FirstUnit};
ghost use Rattle.kept_log.specs.Form.{head_sum, head_text};
ghost use Rattle.kept_log.specs.declared.Why.TheVariants as reasons;
ghost use Rattle.log_keeper.specs.declared.stops.KeepStop.TheVariants.{File, Limits};
ghost use Rattle.log_keeper.specs.Entries.{Added, entries_behind};
ghost use Rattle.log_keeper.specs.Syncing.{is_due};
ghost use Rattle.work_run.specs.KeptTexts.{HasBeginning, HasEnded, HasKept, HasText, HasWhole, reason_of};

use kept_log::Why;
use log_keeper::{KeepStop, Keeper, KeptFile, KeptWriter};
use std::alloc::Global;
use std::marker::{Brand, PhantomData};
use std::sync::atomic::AtomicU64;
use std::sync::atomic::Ordering::SeqCst;
use uas_log::Log;

/// Which log is kept, and where. Each run says so.
pub(crate) trait KeptLog {
    /// How many tags each client has.
    ghost tags: { ℕ };

    /// The logical units with which it begins.
    ghost units: { List FirstUnit };

    /// The name of its file.
    ghost name: { List ℕ };

    /// Whether the host tells what the file holds.
    ghost tells: { Bool };

    /// Whether the file can fail.
    ghost can_fail: { Bool };
}

impl KeptLog for Brand {
    ghost use Rattle.std.specs.Prelude.{[], false};

    ghost tags = { 2 };

    ghost units = { [] };

    ghost name = { [] };

    ghost tells = { false };

    ghost can_fail = { false };
}

/// That what waited for a file was written. A keeper alone says so, behind its writes.
#[derive(Drop)]
pub(crate) struct Settled {
    has_synced: bool,
}

impl Settled {
    /// Whether it was synced too.
    pub(crate) fn has_synced(&self) -> bool
        ensures { result ≡ self.now.has_synced }
    {
        self.has_synced
    }
}

/// How many times what waited was written. It grows only by what a keeper said, so never before a write.
#[derive(Drop)]
pub(crate) struct SettledCount(AtomicU64);

impl SettledCount {
    pub(crate) fn new() -> SettledCount {
        SettledCount(AtomicU64::new(0))
    }

    /// One more.
    pub(crate) fn add(&self, _settled: &Settled) {
        self.0.fetch_add(1, SeqCst);
    }

    pub(crate) fn get(&self) -> u64 {
        self.0.load(SeqCst)
    }
}

/// The keeper of a log, and why it stopped, if it did. What was synced is a beginning of a log; so is what its file has and what waits for
/// it, unless a write or a sync failed.
#[derive(Drop)]
pub(crate) struct LockedKeeper<J: KeptLog, F: KeptFile> {
    pub(crate) keeper: Keeper<F>,
    stop: Option<KeepStop>,
    /// Whether each write and each sync was done.
    is_intact: bool,
    of: PhantomData<J>,
    ghost file: { IsTrue (F.is_of keeper.writer.file J.name) },
    ghost fails: { IsTrue (F.can_fail keeper.writer.file) → IsTrue J.can_fail },
    ghost stopped: { stop ≡ Some File → IsTrue J.can_fail },
    ghost goes: { stop ≡ None → is_intact ≡ true },
    ghost limits: { stop ≡ Some Limits → is_intact ≡ true },
    ghost text: { is_intact ≡ true → ∥ HasKept J.tells J.tags J.units keeper.place (F.written keeper.writer.file) keeper.waiting.items ∥₁ },
    ghost synced: { IsTrue J.tells → ∥ HasBeginning J.tags J.units (F.synced keeper.writer.file) ∥₁ },
}

impl<J: KeptLog, F: KeptFile + Drop> LockedKeeper<J, F> {
    /// A keeper of a log whose file has its head.
    pub(crate) fn new(keeper: Keeper<F>) -> LockedKeeper<J, F>
        requires file { IsTrue (F.is_of keeper.writer.file J.name) }
        requires fails { IsTrue (F.can_fail keeper.writer.file) → IsTrue J.can_fail }
        requires head { IsTrue J.tells → F.written keeper.writer.file ≡ Some (head_text J.tags J.units) }
        requires synced { F.synced keeper.writer.file ≡ F.written keeper.writer.file }
        requires none { keeper.waiting.items ≡ [] }
        requires place { keeper.place ≡ record { steps = 0; replies = 0; sum = head_sum J.tags J.units } }
        ensures every { result.keeper.writer.every ≡ keeper.writer.every }
    {
        LockedKeeper {
            keeper,
            stop: None,
            is_intact: true,
            of: PhantomData,
        }
    }

    /// Takes the records of all steps that a log has behind those that were taken, unless it has stopped; it stops at a fault, behind the
    /// records of the steps before.
    pub(crate) fn gather(&mut self, alloc: Global, log: &Log)
        requires few { length log.now.units ≤ MAX_CLIENTS }
        requires tags { 1 ≤ log.now.tags }
        ensures added { self.old.stop ≡ None → Added log.now self.old.keeper.place self.old.keeper.waiting.items
            self.new.keeper.place self.new.keeper.waiting.items }
        ensures all { self.new.stop ≡ None → entries_behind log.now self.new.keeper.place ≡ [] }
        ensures writer { self.new.keeper.writer ≡ self.old.keeper.writer }
    {
        if self.stop.is_some() {
            return;
        }
        if let Err(fault) = self.keeper.gather(alloc, log) {
            self.stop = Some(KeepStop::from(fault));
        }
    }

    /// Writes what waits, and syncs where that is due; none where it has stopped. It stops at a fault.
    pub(crate) fn settle(&mut self) -> Option<Settled>
        ensures goes_on { IfSome result (λ settled. self.new.stop ≡ None) }
        ensures stopped { result ≡ None → self.new.stop ≢ None }
        ensures none { IfSome result (λ settled. self.new.keeper.waiting.items ≡ []) }
        ensures due { IfSome result (λ settled. settled.has_synced ≡ is_due self.old.keeper.writer.every
            (self.old.keeper.writer.unsynced + (self.old.keeper.place.steps - self.old.keeper.written))) }
        ensures synced { IfSome result (λ settled. F.synced self.new.keeper.writer.file
            ≡ (if settled.has_synced then F.written self.new.keeper.writer.file else F.synced self.old.keeper.writer.file)) }
    {
        if self.stop.is_some() {
            return None;
        }
        match self.keeper.settle() {
            Ok(has_synced) => Some(Settled { has_synced }),
            Err(fault) => {
                self.stop = Some(KeepStop::from(fault));
                self.is_intact = false;
                None
            }
        }
    }

    /// Writes what its file doesn't have yet of a log, and why that ended: the file, which is synced, and why the log isn't whole there.
    pub(crate) fn finish(self, alloc: Global, log: &Log, why: Why) -> (F, Result<(), KeepStop>)
        requires units { log.now.units ≡ J.units }
        requires few { length log.now.units ≤ MAX_CLIENTS }
        requires positive { 1 ≤ log.now.tags }
        requires tags { log.now.tags ≡ J.tags }
        ensures whole { OnOk result.1 (IsTrue J.tells → ∥ HasWhole log.now why (F.synced result.0) ∥₁) }
        ensures full { result.1 ≡ Err Limits → IsTrue J.tells → ∥ HasText J.tags J.units (Some reasons.LogFull) (F.synced result.0) ∥₁ }
        ensures left { IsTrue J.tells → ∥ HasBeginning J.tags J.units (F.synced result.0) ∥₁ }
        ensures file { IsTrue (F.is_of result.0 J.name) }
        ensures fault { result.1 ≡ Err File → IsTrue J.can_fail }
    {
        let mut keeper = self;
        keeper.gather(alloc, log);
        keeper.end(alloc, why)
    }

    /// Writes what waits, and why its log ended: the file, which is synced. Where the keeper has stopped, that is why the log ended there.
    pub(crate) fn end(self, alloc: Global, why: Why) -> (F, Result<(), KeepStop>)
        ensures whole { OnOk result.1 (IsTrue J.tells → ∥ HasEnded J.tags J.units self.keeper.place why (F.synced result.0) ∥₁) }
        ensures none { OnOk result.1 (self.stop ≡ None) }
        ensures full { result.1 ≡ Err Limits → IsTrue J.tells → ∥ HasText J.tags J.units (Some reasons.LogFull) (F.synced result.0) ∥₁ }
        ensures left { IsTrue J.tells → ∥ HasBeginning J.tags J.units (F.synced result.0) ∥₁ }
        ensures file { IsTrue (F.is_of result.0 J.name) }
        ensures fault { result.1 ≡ Err File → IsTrue J.can_fail }
    {
        let LockedKeeper {
            mut keeper,
            stop,
            is_intact,
            ..
        } = self;
        if !is_intact {
            return (file_of(keeper), whole_unless(stop));
        }
        if let Err(fault) = keeper.end(alloc, reason_of(stop, why)) {
            return (file_of(keeper), Err(fault));
        }
        (file_of(keeper), whole_unless(stop))
    }
}

/// The file of a keeper.
fn file_of<F: KeptFile + Drop>(keeper: Keeper<F>) -> F
    ensures { result ≡ keeper.writer.file }
{
    let Keeper { writer, .. } = keeper;
    let KeptWriter { file, .. } = writer;
    file
}

/// A log is whole unless its keeper has stopped.
fn whole_unless(stop: Option<KeepStop>) -> Result<(), KeepStop>
    ensures whole { OnOk result (stop ≡ None) }
    ensures stopped { IfErr result (λ fault. stop ≡ Some fault) }
{
    match stop {
        None => Ok(()),
        Some(stop) => Err(stop),
    }
}

/// Why a log ended: why its keeper has stopped, if it did.
fn reason_of(stop: Option<KeepStop>, why: Why) -> Why
    ensures { result ≡ reason_of stop why }
{
    match stop {
        None => why,
        Some(KeepStop::Limits) => Why::LogFull,
        Some(KeepStop::NoMemory) => Why::NoMemory,
        Some(KeepStop::File) => Why::LogFile,
    }
}
