//! The device behind the pipes.
ghost use Rattle.std.specs.Prelude.{◌≡◌, length, is_some, unwrap_or};
ghost use Rattle.arrayvec.specs.ArrayVec.{array_vec_len};
ghost use Rattle.guest_tags.specs.DataIn.{is_status};
ghost use Rattle.guest_tags.specs.Devices.{IsChunk, IsEnded, Kind};

use arrayvec::ArrayVec;
use uas_profile::STATUS_BYTES;

/// How a task ended.
#[derive(Clone, Copy, Debug, PartialEq, Eq)]
pub enum End {
    /// With GOOD.
    Good,
    /// With another status.
    Check,
    /// With a response code.
    Response,
}

impl End {
    /// Whether a status ended the task.
    pub fn is_status(self) -> bool
        ensures { result ≡ is_status self }
    {
        match self {
            End::Good | End::Check => true,
            End::Response => false,
        }
    }
}

/// What the device does next on a tag.
#[derive(Clone, Copy, Debug, PartialEq, Eq)]
pub enum Phase {
    /// It has no task of that tag.
    Absent,
    /// It gives a chunk of so many bytes to the host.
    Gives(usize),
    /// It takes a chunk of so many bytes from the host.
    Takes(usize),
    /// Its task has ended, and the answer waits to be sent.
    Ended(End),
}

/// What came of a received information unit.
#[derive(Clone, Copy, Debug, PartialEq, Eq)]
pub enum Received {
    /// A task began on this tag.
    Began(u16),
    /// This tag has a task already, and nothing changed.
    Overlap(u16),
    /// Nothing.
    Dropped,
}

/// A USB Attached SCSI device: tasks by tag, whose data moves in chunks of 1 to 4,096 bytes.
pub trait UasDevice {
    /// What it is to contracts.
    ghost State: { Type 0 };

    /// The state that it is in.
    ghost state: { Self → State };

    /// What each call makes of a state.
    ghost kind: { Kind State };

    /// What it does next on a tag.
    fn phase(&self, tag: u16) -> Phase
        ensures phase { result ≡ kind.phase (state self.now) tag }
        ensures chunk { IsChunk result };

    /// Fills `into` with the next chunk of a tag that gives as many bytes. False at a bad block: then `into` is as it was.
    fn give(&mut self, tag: u16, into: &mut [u8]) -> bool
        requires { kind.phase (state self.old) tag ≡ Phase.Gives (length into.old) }
        ensures state { state self.new ≡ kind.gave (state self.old) tag }
        ensures good { result ≡ is_some (kind.given (state self.old) tag) }
        ensures bytes { into.new ≡ unwrap_or (kind.given (state self.old) tag) into.old };

    /// Takes `bytes` as the next chunk of a tag that takes as many. False at a bad block.
    fn take(&mut self, tag: u16, bytes: &[u8]) -> bool
        requires { kind.phase (state self.old) tag ≡ Phase.Takes (length bytes.now) }
        ensures state { state self.new ≡ kind.took (state self.old) tag bytes.now }
        ensures good { result ≡ kind.fits (state self.old) tag bytes.now };

    /// Writes the information unit that answers a tag's task, which has ended, into `text`, which is asked to be empty.
    fn write_status(&self, tag: u16, text: &mut ArrayVec<u8, STATUS_BYTES>)
        requires empty { array_vec_len text.old ≡ 0 }
        requires ended { IsEnded (kind.phase (state self.now) tag) }
        ensures { text.new.items ≡ kind.status (state self.now) tag };

    /// The answer of a tag's task, which has ended, was taken: the device has no task of it any more.
    fn sent(&mut self, tag: u16)
        requires { IsEnded (kind.phase (state self.old) tag) }
        ensures { state self.new ≡ kind.sent (state self.old) tag };

    /// Receives the bytes of an information unit.
    fn receive(&mut self, bytes: &[u8]) -> Received
        ensures { (state self.new, result) ≡ kind.received (state self.old) bytes.now };
}
