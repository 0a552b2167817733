//! The gate of a run that keeps its log: it gathers records under the lock of the bus, and writes and syncs them outside of it.
ghost use Rattle.std.specs.Prelude.{◌≡◌, ◌==◌, false, true, nat_lt, if◌then◌else◌};

use crate::locked_keeper::{KeptLog, LockedKeeper, SettledCount};
use log_keeper::KeptFile;
use shared_machine::Step;
use std::alloc::Global;
use std::rt::Clock;
use std::sync::atomic::AtomicU64;
use std::sync::atomic::Ordering::SeqCst;
use std::sync::{Mutex, Wait};
use std::thread;
use std::time::Duration;
use uas_log::Log;
use uas_work::Gate;

/// How many microseconds the keeper leaves the bus alone behind a look at its log.
const PAUSE: u64 = 1000;

/// The same where replies wait for it and a look found nothing.
const SHORT_PAUSE: u64 = 50;

/// A log that is kept, and how far that is.
#[derive(Drop)]
pub(crate) struct Keeping<'a, J: KeptLog, R, F: KeptFile> {
    rt: &'a R,
    keeper: Mutex<LockedKeeper<J, F>>,
    /// How many times records were gathered.
    gathered: AtomicU64,
    /// How many times what was gathered was written.
    settled: SettledCount,
    /// Whether a reply waits until its record was synced.
    holds_replies: bool,
}

impl<'a, J: KeptLog, R, F: KeptFile + Drop> Keeping<'a, J, R, F> {
    /// Keeps a log; replies wait for their records where each step is synced.
    pub(crate) fn new(rt: &'a R, keeper: LockedKeeper<J, F>) -> Keeping<'a, J, R, F>
        ensures { result.holds_replies ≡ (keeper.keeper.writer.every == 1) }
    {
        let holds_replies = keeper.keeper.writer.every == 1;
        Keeping {
            rt,
            keeper: Mutex::new(keeper),
            gathered: AtomicU64::new(0),
            settled: SettledCount::new(),
            holds_replies,
        }
    }

    /// The keeper, once nobody looks any more.
    pub(crate) fn into_keeper(self) -> LockedKeeper<J, F> {
        let Keeping { keeper, .. } = self;
        keeper.into_inner()
    }
}

impl<J: KeptLog, R: Wait + Clock, F: KeptFile + Drop> Gate for Keeping<'_, J, R, F> {
    ghost use Rattle.std.specs.Prelude.{◌≡◌, true};

    ghost says = { λ gate step answer. answer ≡ true };

    fn turn(&self, _worker: u32) -> bool {
        true
    }

    fn may(&self, _step: &Step) -> bool {
        true
    }

    fn is_looking(&self) -> bool {
        true
    }

    fn look(&self, alloc: Global, log: &Log) {
        self.gathered.fetch_add(1, SeqCst);
        self.keeper.lock(self.rt).gather(alloc, log);
    }

    fn settle(&self) -> bool {
        let settled = self.keeper.lock(self.rt).settle();
        let Some(settled) = settled else {
            return false;
        };
        self.settled.add(&settled);
        if !(self.holds_replies && settled.has_synced()) {
            pause(self.rt, self.holds_replies);
        }
        true
    }

    fn next_look(&self) -> u64 {
        self.gathered.load(SeqCst)
    }

    fn may_tell(&self, look: u64) -> bool
        ensures { self.now.holds_replies ≡ false → result ≡ true }
    {
        is_told(self.holds_replies, look, self.settled.get())
    }
}

/// Whether a client may have replies that were booked before the look of this number began, once so many looks were settled.
fn is_told(holds_replies: bool, look: u64, settled: u64) -> bool
    ensures { result ≡ (if holds_replies then nat_lt look settled else true) }
{
    !holds_replies || look < settled
}

/// Leaves the bus alone for a while, a short one where replies wait.
fn pause<R: Clock>(rt: &R, is_short: bool) {
    let micros = if is_short { SHORT_PAUSE } else { PAUSE };
    thread::sleep(rt, Duration::from_micros(micros));
}
