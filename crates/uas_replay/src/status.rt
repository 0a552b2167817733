//! How a run ends: its faults, and the exit status of each.

ghost use Rattle.std.specs.Prelude.{◌≡◌, ℕ, Ok, Err};
ghost use Rattle.uas_replay.specs.Runs.{status_of, file_fault, output_fault};

use block_unit::ImageFault;
use byte_io::StreamFault;
use std::io::Write;
use thiserror::Error;
use uas_script::ScriptFault;

/// The run is done.
pub const DONE: u8 = 0;

/// A command ended other than GOOD, or was refused.
pub const COMMAND_FAILED: u8 = 1;

/// The words of the command line are refused.
pub const WORDS_REFUSED: u8 = 2;

/// A fault of an image or of a script, or of a file.
pub const FAULT: u8 = 3;

/// Want of memory.
pub const NO_MEMORY: u8 = 4;

const _: () = prove!(
    DONE == 0 && COMMAND_FAILED == 1 && WORDS_REFUSED == 2 && FAULT == 3 && NO_MEMORY == 4
);

/// Why a run gave up.
#[derive(Clone, Copy, Debug, PartialEq, Eq, Error)]
pub enum RunFault {
    /// The file is no image.
    #[error("image: {0:?}")]
    Image(ImageFault),
    /// The image's file failed.
    #[error("image: file")]
    ImageFile,
    /// The script is faulty.
    #[error("{0}")]
    Script(ScriptFault),
    /// Reading the script or writing to standard output failed.
    #[error("script: file")]
    ScriptFile,
    /// Want of memory.
    #[error("no memory")]
    NoMemory,
}

impl RunFault {
    /// Its exit status.
    pub fn status(self) -> u8
        ensures { result ≡ status_of self }
    {
        match self {
            RunFault::Image(_) | RunFault::ImageFile | RunFault::Script(_) | RunFault::ScriptFile =>
                FAULT,
            RunFault::NoMemory => NO_MEMORY,
        }
    }

    /// Tells it in one line, and gives its exit status. A fault of `faults` changes nothing.
    pub fn tell<W: Write>(self, faults: &mut W) -> u8
        ensures { result ≡ status_of self }
    {
        let _ = writeln!(faults, "{self}");
        self.status()
    }
}

/// A fault of an image's file.
pub fn file_fault(fault: StreamFault) -> RunFault
    ensures { result ≡ file_fault fault }
{
    match fault {
        StreamFault::NoMemory => RunFault::NoMemory,
        StreamFault::File => RunFault::ImageFile,
    }
}

/// A fault of standard output, or of a script's reader.
pub fn output_fault(fault: StreamFault) -> RunFault
    ensures { result ≡ output_fault fault }
{
    match fault {
        StreamFault::NoMemory => RunFault::NoMemory,
        StreamFault::File => RunFault::ScriptFile,
    }
}
