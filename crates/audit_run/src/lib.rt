//! The run `audit`: a file of a log, replayed on a new bus, and each client's account in it held against that replay.
//!
//! [`run_audit`] reads a log's text, brings one of the first version over to clients of 16 tags, takes its steps on a new bus, and audits
//! each client with its own submissions and replies of the file. What it prints is a line for each client (`audit_text` in specs/Audits.antt), and it prints
//! them exactly where the text is a log's, its steps are all due and accepted in their turn, and its replies are those that come of
//! them. Each such client's audit is true: so no line says `false`, and the exit status 1 never comes.
//!
//! A log that was kept as it grew (kept_log), of clients of any number of tags, may have no end and a torn tail. Both are told behind the clients' lines. Where a checksum is
//! asked for that somebody kept of a log, the step behind which it stands is told last (`head_text`).
//!
//! Else the first thing that is wrong is told in one line: of the file, of the text, of the checksum, of the steps, then of the replies
//! (`IsRefusedBy`). The replay is [`replay`]'s. It stands on log_audit, log_text, uas_work and kept_log.
#![tactic(auto)]

mod accounts;
mod answer;
mod faults;
pub mod replay;
mod run;
mod texts;

use crate::replay::ReplayFault;
use kept_log::KeptFault;
use log_text::{LogFault, MigrateFault, PlainLog};
pub use run::run_audit;

/// The most bytes of a log's file of the first or second version.
pub const MAX_LOG_BYTES: usize = 1_073_741_824;

const _: () = prove!(MAX_LOG_BYTES == 1_073_741_824);

/// Every client's audit is true.
pub const DONE: u8 = 0;

/// A fault of the file, of its text or of the log, or of standard output.
pub const FAULT: u8 = 3;

/// Want of memory.
pub const NO_MEMORY: u8 = 4;

const _: () = prove!(DONE == 0 && FAULT == 3 && NO_MEMORY == 4);

/// Why a run gave up.
#[derive(Clone, Copy, Debug, PartialEq, Eq)]
pub enum AuditFault {
    /// Reading the file failed.
    File,
    /// The file of a log of the first or second version has too many bytes.
    TooLarge,
    /// The file has no log's text.
    Text(LogFault),
    /// The file of a log that was kept has no such text.
    Kept(KeptFault),
    /// The log can't be brought over.
    Old(MigrateFault),
    /// The checksum that is asked for is none of the log's.
    OtherHead,
    /// The log isn't the replay of its own steps.
    Replay(ReplayFault),
    /// Writing to standard output failed.
    Output,
    /// Want of memory.
    NoMemory,
}

/// A log of a file.
#[derive(Debug, Drop)]
pub(crate) struct FileLog {
    pub(crate) log: PlainLog,
    /// What there is of it, where it was kept as it grew.
    pub(crate) state: Option<KeptState>,
    /// Where the checksum stands that is asked for.
    pub(crate) head: Option<HeadAt>,
}

/// A checksum of a log, and how many of its steps stand before it.
#[derive(Clone, Copy, Debug, PartialEq, Eq)]
pub(crate) struct HeadAt {
    pub(crate) sum: u32,
    pub(crate) step: usize,
}

/// What there is of a log that was kept as it grew.
#[derive(Clone, Copy, Debug, PartialEq, Eq)]
pub(crate) struct KeptState {
    /// How many steps it has, refused ones too.
    pub(crate) steps: usize,
    pub(crate) has_end: bool,
    /// Where the beginning of a record stands that was cut off.
    pub(crate) torn: Option<usize>,
}
