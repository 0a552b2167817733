//! Why a log isn't kept to its end.
ghost use Rattle.std.specs.Prelude.{◌≡◌};
ghost use Rattle.log_keeper.specs.Stops.{file_stop, record_stop};

use crate::KeepFault;
use byte_io::StreamFault;
use thiserror::Error;

/// Why a log isn't kept to its end.
#[derive(Clone, Copy, Debug, PartialEq, Eq, Error)]
pub enum KeepStop {
    #[error("a step or a reply is past the limits of a log's text")]
    Limits = 1,
    #[error("no memory for a record")]
    NoMemory,
    #[error("the file couldn't be written")]
    File,
}

impl From<KeepFault> for KeepStop {
    ghost from_gives = { λ fault stop. stop ≡ record_stop fault };

    fn from(fault: KeepFault) -> KeepStop {
        match fault {
            KeepFault::Limits => KeepStop::Limits,
            KeepFault::NoMemory => KeepStop::NoMemory,
        }
    }
}

impl From<StreamFault> for KeepStop {
    ghost from_gives = { λ fault stop. stop ≡ file_stop fault };

    fn from(fault: StreamFault) -> KeepStop {
        match fault {
            StreamFault::NoMemory => KeepStop::NoMemory,
            StreamFault::File => KeepStop::File,
        }
    }
}
