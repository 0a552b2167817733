//! Want of memory and faults of a text.
ghost use Rattle.std.specs.Prelude.{◌≡◌};
ghost use Rattle.log_text.specs.declared.Stop.TheVariants.{Memory};
ghost use Rattle.log_text.specs.Stops.{fault_of};

use crate::{LogFault, Stop};
use std::alloc::{AllocError, AllocFailed};

impl From<AllocError> for Stop {
    ghost from_gives = { λ _ stop. stop ≡ Memory };

    fn from(_error: AllocError) -> Stop {
        Stop::Memory
    }
}

impl<T: Drop> From<AllocFailed<T>> for Stop {
    ghost from_gives = { λ _ stop. stop ≡ Memory };

    fn from(_error: AllocFailed<T>) -> Stop {
        Stop::Memory
    }
}

impl Stop {
    /// What a caller is told.
    pub fn fault(self) -> LogFault
        ensures { result ≡ fault_of self }
    {
        match self {
            Stop::Memory => LogFault::NoMemory,
            Stop::Fault(fault) => fault,
        }
    }
}
