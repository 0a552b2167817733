//! What a refusal and a reply tell of themselves.
ghost use Rattle.std.specs.Prelude.{◌≡◌};
ghost use Rattle.scsi_cmd.specs.Faults.{fault_number};
ghost use Rattle.scsi_cmd.specs.Replies.{reply_tag, reply_ticket};

use crate::{Reply, SubmitFault};

impl SubmitFault {
    /// Its place in the order of the tests, from 1.
    pub fn number(&self) -> u8
        ensures { result ≡ fault_number self.now }
    {
        match self {
            SubmitFault::NotYours => 1,
            SubmitFault::InUse => 2,
            SubmitFault::BadLength => 3,
            SubmitFault::TooLong => 4,
            SubmitFault::OutOfTurn(_) => 5,
            SubmitFault::NoSuchTask => 6,
        }
    }
}

impl Reply {
    /// The tag that it brings back.
    pub fn tag(&self) -> u16
        ensures { result ≡ reply_tag self.now }
    {
        match self {
            Reply::Status { tag, .. } | Reply::Aborted { tag, .. } | Reply::Task { tag, .. } =>
                *tag,
        }
    }

    /// The ticket that it answers.
    pub fn ticket(&self) -> u64
        ensures { result ≡ reply_ticket self.now }
    {
        match self {
            Reply::Status { ticket, .. }
            | Reply::Aborted { ticket, .. }
            | Reply::Task { ticket, .. } => *ticket,
        }
    }
}
