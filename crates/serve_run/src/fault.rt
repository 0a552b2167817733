//! Why a serving run gave up, and how it is told.

ghost use Rattle.std.specs.Prelude.{◌≡◌};
ghost use Rattle.serve_run.specs.Broken.{IsReported};
ghost use Rattle.serve_run.specs.Faults.{image_line, line_of, status_of};

use block_unit::ImageFault;
use byte_io::Output;
use uas_replay::{FAULT, NO_MEMORY};

/// Why a serving run gave up.
#[derive(Clone, Copy, Debug, PartialEq, Eq)]
pub enum ServeFault {
    /// The file has a length that isn't served.
    Image(ImageFault),
    /// The file isn't there, or couldn't be flushed in the end.
    File,
    /// Want of memory.
    NoMemory,
    /// A message of the handshake that isn't of the protocol, or a flag that wasn't offered.
    Handshake,
    /// A request that isn't of the protocol.
    Request,
    /// The input ended in the middle of a message.
    Ended,
    /// Reading the client's messages or writing to it failed.
    Stream,
    /// 2^64 - 1 options or requests were answered.
    TooMany,
}

impl ServeFault {
    /// Its exit status.
    pub fn status(self) -> u8
        ensures { result ≡ status_of self }
    {
        match self {
            ServeFault::NoMemory => NO_MEMORY,
            ServeFault::Image(_)
            | ServeFault::File
            | ServeFault::Handshake
            | ServeFault::Request
            | ServeFault::Ended
            | ServeFault::Stream
            | ServeFault::TooMany => FAULT,
        }
    }

    /// Its line.
    pub fn line(self) -> &'static str
        ensures { result.now ≡ line_of self }
    {
        match self {
            ServeFault::Image(fault) => image_line(fault),
            ServeFault::File => "image: file\n",
            ServeFault::NoMemory => "no memory\n",
            ServeFault::Handshake => "nbd: bad handshake\n",
            ServeFault::Request => "nbd: bad request\n",
            ServeFault::Ended => "nbd: end of input\n",
            ServeFault::Stream => "nbd: file\n",
            ServeFault::TooMany => "nbd: too many messages\n",
        }
    }

    /// Tells it in one line, and gives its exit status. A fault of `faults` changes nothing.
    pub fn tell<F: Output>(self, faults: &mut F) -> u8
        ensures { IsReported self result (F.can_fail faults.old) (F.written faults.old) (F.written faults.new) }
    {
        let _ = faults.write(self.line().as_bytes());
        self.status()
    }
}

/// The line of a length that isn't served.
fn image_line(fault: ImageFault) -> &'static str
    ensures { result.now ≡ image_line fault }
{
    match fault {
        ImageFault::NotWhole => "image: NotWhole\n",
        ImageFault::TooLarge => "image: TooLarge\n",
        ImageFault::NoMemory => "image: NoMemory\n",
    }
}
