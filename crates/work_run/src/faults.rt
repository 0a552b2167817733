//! Why the run gives up.

ghost use Rattle.std.specs.Prelude.{◌≡◌};
ghost use Rattle.work_run.specs.WorkEnds.{status_of};

use std::io::Write;
use thiserror::Error;
use uas_replay::{FAULT, NO_MEMORY, RunFault};

/// Why the run gave up.
#[derive(Clone, Copy, Debug, PartialEq, Eq, Error)]
pub(crate) enum WorkFault {
    /// The log holds as many steps as it may, or the next step is past the limits of its text.
    #[error("log full")]
    LogFull,
    /// The file of the log couldn't be created, written or closed.
    #[error("log: file")]
    LogFile,
    /// A fault that other runs have too: want of memory, or of standard output.
    #[error("{0}")]
    Run(RunFault),
}

impl WorkFault {
    /// Tells it in one line, and gives its exit status. A fault of `faults` changes nothing.
    pub(crate) fn tell<W: Write>(self, faults: &mut W) -> u8
        ensures { result ≡ status_of self }
    {
        let _ = writeln!(faults, "{self}");
        match self {
            WorkFault::LogFull => NO_MEMORY,
            WorkFault::LogFile => FAULT,
            WorkFault::Run(fault) => fault.status(),
        }
    }
}
