//! Why a session gave up, and how it is told.

ghost use Rattle.std.specs.Prelude.{◌≡◌};
ghost use Rattle.usb_serve.specs.Faults.{IsReported, file_line, line_of, packet_line, status_of};

use byte_io::Output;
use usbredir::PacketFault;

/// The status of a session that gave up.
const FAULT: u8 = 3;

/// Its status for want of memory.
const NO_MEMORY: u8 = 4;

/// Why a session gave up.
#[derive(Clone, Copy, Debug, PartialEq, Eq)]
pub enum UsbFault {
    /// What the guest sent isn't of the protocol, or can't be served.
    Packet(PacketFault),
    /// Want of memory.
    NoMemory,
    /// The input ended in the middle of a packet.
    Ended,
    /// Reading the guest's packets or writing to it failed.
    Stream,
    /// 2^64 - 1 packets were served, or one had 2^32 - 1 steps.
    TooMany,
    /// An answer said other than how many data it has.
    Answer,
    /// The file of the logical unit of a number couldn't be made safe at the end.
    File(usize),
}

impl UsbFault {
    /// Its exit status.
    pub fn status(self) -> u8
        ensures { result ≡ status_of self }
    {
        match self {
            UsbFault::NoMemory => NO_MEMORY,
            UsbFault::Packet(_)
            | UsbFault::Ended
            | UsbFault::Stream
            | UsbFault::TooMany
            | UsbFault::Answer
            | UsbFault::File(_) => FAULT,
        }
    }

    /// Its line.
    pub fn line(self) -> &'static str
        ensures { result.now ≡ line_of self }
    {
        match self {
            UsbFault::Packet(fault) => packet_line(fault),
            UsbFault::NoMemory => "no memory\n",
            UsbFault::Ended => "usb: end of input\n",
            UsbFault::Stream => "usb: file\n",
            UsbFault::TooMany => "usb: too many packets\n",
            UsbFault::Answer => "usb: bad answer\n",
            UsbFault::File(unit) => file_line(unit),
        }
    }

    /// Tells it in one line, and gives its exit status. A fault of `faults` changes nothing.
    pub fn tell<F: Output>(self, faults: &mut F) -> u8
        ensures { IsReported self result (F.can_fail faults.old) (F.written faults.old) (F.written faults.new) }
    {
        let _ = faults.write(self.line().as_bytes());
        self.status()
    }
}

/// The line of a file that couldn't be made safe. There are at most 15 of them.
fn file_line(unit: usize) -> &'static str
    ensures { result.now ≡ file_line unit }
{
    match unit {
        1 => "image 2: file\n",
        2 => "image 3: file\n",
        3 => "image 4: file\n",
        4 => "image 5: file\n",
        5 => "image 6: file\n",
        6 => "image 7: file\n",
        7 => "image 8: file\n",
        8 => "image 9: file\n",
        9 => "image 10: file\n",
        10 => "image 11: file\n",
        11 => "image 12: file\n",
        12 => "image 13: file\n",
        13 => "image 14: file\n",
        14 => "image 15: file\n",
        _ => "image: file\n",
    }
}

/// The line of a packet that is refused.
fn packet_line(fault: PacketFault) -> &'static str
    ensures { result.now ≡ packet_line fault }
{
    match fault {
        PacketFault::BadHello => "usb: bad hello\n",
        PacketFault::MissingCapability => "usb: missing capability\n",
        PacketFault::UnexpectedPacket => "usb: unexpected packet\n",
        PacketFault::BadLength => "usb: bad length\n",
        PacketFault::Rejected => "usb: rejected\n",
    }
}
