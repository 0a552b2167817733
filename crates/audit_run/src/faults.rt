//! Faults of a run: what is told of each, and its exit status.
ghost use Rattle.std.specs.Prelude.{◌≡◌};
ghost use Rattle.audit_run.specs.Faults.{line_of, status_of};

use crate::replay::ReplayFault;
use crate::{AuditFault, FAULT, NO_MEMORY};
use kept_log::KeptFault;
use log_text::{LogFault, MigrateFault};
use std::io::Write;

impl AuditFault {
    /// Its exit status.
    fn status(self) -> u8
        ensures { result ≡ status_of self }
    {
        match self {
            AuditFault::NoMemory
            | AuditFault::Text(LogFault::NoMemory)
            | AuditFault::Kept(KeptFault::NoMemory | KeptFault::Head(LogFault::NoMemory))
            | AuditFault::Old(MigrateFault::NoMemory)
            | AuditFault::Replay(ReplayFault::NoMemory) => NO_MEMORY,
            AuditFault::File
            | AuditFault::TooLarge
            | AuditFault::Text(_)
            | AuditFault::Kept(_)
            | AuditFault::Old(_)
            | AuditFault::OtherHead
            | AuditFault::Replay(_)
            | AuditFault::Output => FAULT,
        }
    }

    /// Its line: of what is wrong with a log, the fault's name without its number.
    fn line(self) -> &'static str
        ensures { result.now ≡ line_of self }
    {
        match self {
            AuditFault::File => "log: file",
            AuditFault::TooLarge => "log: too large",
            AuditFault::Text(LogFault::BadHeader)
            | AuditFault::Kept(KeptFault::Head(LogFault::BadHeader)) => "log: BadHeader",
            AuditFault::Text(LogFault::Truncated)
            | AuditFault::Kept(KeptFault::Head(LogFault::Truncated)) => "log: Truncated",
            AuditFault::Text(LogFault::BadField)
            | AuditFault::Kept(KeptFault::Head(LogFault::BadField)) => "log: BadField",
            AuditFault::Text(LogFault::TrailingBytes)
            | AuditFault::Kept(KeptFault::Head(LogFault::TrailingBytes)) => "log: TrailingBytes",
            AuditFault::Kept(KeptFault::HeadSum) => "log: HeadSum",
            AuditFault::Kept(KeptFault::WrongRecord(_)) => "log: WrongRecord",
            AuditFault::Kept(KeptFault::BadBody(_)) => "log: BadBody",
            AuditFault::Kept(KeptFault::TooMany(_)) => "log: TooMany",
            AuditFault::Kept(KeptFault::WrongCount(_)) => "log: WrongCount",
            AuditFault::Kept(KeptFault::BehindEnd(_)) => "log: BehindEnd",
            AuditFault::Old(MigrateFault::TooManyClients) => "log: TooManyClients",
            AuditFault::OtherHead => "log: OtherHead",
            AuditFault::Replay(ReplayFault::NotDue(_)) => "log: NotDue",
            AuditFault::Replay(ReplayFault::Refused(_)) => "log: Refused",
            AuditFault::Replay(ReplayFault::OtherReplies(_)) => "log: OtherReplies",
            AuditFault::Output => "script: file",
            AuditFault::NoMemory
            | AuditFault::Text(LogFault::NoMemory)
            | AuditFault::Kept(KeptFault::NoMemory | KeptFault::Head(LogFault::NoMemory))
            | AuditFault::Old(MigrateFault::NoMemory)
            | AuditFault::Replay(ReplayFault::NoMemory) => "no memory",
        }
    }

    /// What it means, for a person.
    fn hint(self) -> &'static str {
        match self {
            AuditFault::File =>
                "the log can't be opened or read: look at its name and at its rights",
            AuditFault::TooLarge => {
                "a log's file of the first or second version has at most 1073741824 bytes"
            },
            AuditFault::Text(LogFault::BadHeader) => {
                "it doesn't begin as a log of 8 or 16 tags does"
            }
            AuditFault::Kept(KeptFault::Head(LogFault::BadHeader)) => {
                "it doesn't begin as a log of 2 to 16 tags does"
            }
            AuditFault::Text(LogFault::Truncated)
            | AuditFault::Kept(KeptFault::Head(LogFault::Truncated)) => "it ends within a field",
            AuditFault::Text(LogFault::BadField)
            | AuditFault::Kept(KeptFault::Head(LogFault::BadField)) => {
                "a field has a value that it can't have"
            }
            AuditFault::Text(LogFault::TrailingBytes)
            | AuditFault::Kept(KeptFault::Head(LogFault::TrailingBytes))
            | AuditFault::Kept(KeptFault::BehindEnd(_)) => "bytes follow its end",
            AuditFault::Kept(KeptFault::HeadSum) => "the checksum of its head is wrong",
            AuditFault::Kept(KeptFault::WrongRecord(_)) => {
                "a record has a wrong checksum, in front of a whole one"
            }
            AuditFault::Kept(KeptFault::BadBody(_)) => "a record is no step's and no end's",
            AuditFault::Kept(KeptFault::TooMany(_)) => "a log has at most 4294967295 steps",
            AuditFault::Kept(KeptFault::WrongCount(_)) => "its end counts the steps otherwise",
            AuditFault::Old(MigrateFault::TooManyClients) => {
                "a log of clients of 8 tags has at most 15 of them, to be brought over"
            }
            AuditFault::OtherHead => "no whole record of it has this checksum, or it has none",
            AuditFault::Replay(ReplayFault::NotDue(_)) => "a step wasn't due in its turn",
            AuditFault::Replay(ReplayFault::Refused(_)) => "a step is a submission that is refused",
            AuditFault::Replay(ReplayFault::OtherReplies(_)) => {
                "the replies aren't those that come of the steps"
            }
            AuditFault::Output =>
                "standard output can't be written: is it open, and is there room?",
            AuditFault::NoMemory
            | AuditFault::Text(LogFault::NoMemory)
            | AuditFault::Kept(KeptFault::NoMemory | KeptFault::Head(LogFault::NoMemory))
            | AuditFault::Old(MigrateFault::NoMemory)
            | AuditFault::Replay(ReplayFault::NoMemory) => "the machine gave no memory for it",
        }
    }

    /// Tells it in one line, and what it means in a second where that is asked for, and gives its exit status. A fault of `faults`
    /// changes nothing.
    pub(crate) fn tell<W: Write>(self, faults: &mut W, shows_hint: bool) -> u8
        ensures { result ≡ status_of self }
    {
        let line = self.line();
        let _ = writeln!(faults, "{line}");
        if shows_hint {
            let hint = self.hint();
            let _ = writeln!(faults, "  {hint}");
        }
        self.status()
    }
}
