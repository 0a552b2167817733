//! What the workers are allowed, and who looks at their log while it grows.
ghost use Rattle.std.specs.Prelude.{Bool};
ghost use Rattle.shared_machine.specs.declared.Step.{Step};
ghost use Rattle.uas_log.specs.Booking.{IsReplay};

use bus_core::Step;
use std::alloc::Global;
use uas_log::Log;

/// Who may take a step, asked under the lock each time anew. A gate may also look at the log while it grows, and hold replies back until
/// what they stand on is settled: then [`spawn_all`](crate::spawn_all) has one worker more, which looks and settles turn by turn.
pub trait Gate {
    /// What it tells that the gate answers so of a step.
    ghost says: { Self → Step → Bool → Type 0 };

    /// Whether a client's worker may submit once more.
    fn turn(&self, worker: u32) -> bool;

    /// Whether this step may be taken now.
    fn may(&self, step: &Step) -> bool
        ensures { says self.now step.now result };

    /// Whether it looks at the log.
    fn is_looking(&self) -> bool {
        false
    }

    /// Looks at the log, under the lock. Asks for a log that is its own replay.
    fn look(&self, alloc: Global, log: &Log)
        requires { IsReplay log.now }
    {
        let _ = alloc;
        let _ = log;
    }

    /// Does what a look asks for, without the lock. Where it answers false the workers end.
    fn settle(&self) -> bool {
        true
    }

    /// The number of the next look: so many have begun.
    fn next_look(&self) -> u64 {
        0
    }

    /// Whether a client may have replies that were booked before the look of this number began.
    fn may_tell(&self, look: u64) -> bool {
        let _ = look;
        true
    }
}

/// The gate that is open.
#[derive(Clone, Copy, Debug, PartialEq, Eq)]
pub struct Unhindered;

impl Gate for Unhindered {
    ghost use Rattle.std.specs.Prelude.{◌≡◌, true};

    ghost says = { λ gate step answer. answer ≡ true };

    fn turn(&self, _worker: u32) -> bool {
        true
    }

    fn may(&self, _step: &Step) -> bool {
        true
    }
}
