//! Want of memory as a fault of a replay.
ghost use Rattle.std.specs.Prelude.{◌≡◌};
ghost use Rattle.audit_run.specs.declared.replay.ReplayFault.TheVariants.{NoMemory};

use crate::replay::ReplayFault;
use std::alloc::AllocError;

impl From<AllocError> for ReplayFault {
    ghost from_gives = { λ _ fault. fault ≡ NoMemory };

    fn from(_error: AllocError) -> ReplayFault {
        ReplayFault::NoMemory
    }
}
