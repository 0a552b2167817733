//! Why a capture gave up.

ghost use Rattle.std.specs.Prelude.{◌≡◌};
ghost use Rattle.capture_run.specs.Ends.{capture_fault, status_of};

use byte_io::StreamFault;
use std::io::Write;
use thiserror::Error;
use uas_replay::{FAULT, RunFault};

/// Why a capture gave up.
#[derive(Clone, Copy, Debug, PartialEq, Eq, Error)]
pub enum CaptureFault {
    /// As a run of the script gives up.
    #[error("{0}")]
    Run(RunFault),
    /// The capture's file failed.
    #[error("capture: file")]
    File,
}

impl CaptureFault {
    /// Its exit status.
    pub fn status(self) -> u8
        ensures { result ≡ status_of self }
    {
        match self {
            CaptureFault::Run(fault) => fault.status(),
            CaptureFault::File => FAULT,
        }
    }

    /// Tells it in one line, and gives its exit status. A fault of `faults` changes nothing.
    pub fn tell<W: Write>(self, faults: &mut W) -> u8
        ensures { result ≡ status_of self }
    {
        let _ = writeln!(faults, "{self}");
        self.status()
    }
}

/// A fault of the capture's file.
pub(crate) fn capture_fault(fault: StreamFault) -> CaptureFault
    ensures { result ≡ capture_fault fault }
{
    match fault {
        StreamFault::NoMemory => CaptureFault::Run(RunFault::NoMemory),
        StreamFault::File => CaptureFault::File,
    }
}
