//! The text of a log that is kept as it grows: what is written of it so far is always the text of a log.
//!
//! Its head says what the bus began with, and behind it stands a record for each step, with the reply that a Take gave, and at last one for
//! the end (`kept_text` in specs/Form.antt). A record has a checksum of all that came before its end. So whoever writes a record behind
//! those before has written the text of a longer log, and a text that is cut off somewhere is the text of a beginning.
//!
//! ```text
//!     UASLOG, 3 (2), tags (1), clients (1)   of each client its unit   CRC-32C (4)
//!     length (4)   1, a step, and the reply that it gave         CRC-32C (4)
//!     length (4)   2, a refused step, its refusal's number (1)   CRC-32C (4)
//!     length (4)   3, the number of steps (8), why it ended (1)  CRC-32C (4)
//! ```
//!
//! *tags* is how many tags each client has, 2 to 16, and there are as many clients at most as can have so many (`most_clients` of uas_profile).
//!
//! [`load`] reads one: the longest whole prefix of its records, up to the end or up to a torn record, of which it tells the place; or what is
//! wrong with it (`load_at` in specs/LoadAt.antt). So what is written loads ([`kept_logs_load`]), and what is left of it where a write was
//! cut short loads as a beginning ([`cut_logs_load`]). [`load_from`] says the same of a text that a source gives: it reads a part, takes the
//! whole records from its front and reads on, so that the text is never in memory as a whole; and it finds the step behind which a checksum
//! stands. It stands on byte_io, log_text and log_records, uas_log, shared_machine, scsi_cmd, and on `thiserror`.
#![tactic(auto)]

mod bodies;
mod entries;
mod head;
mod laws;
mod loading;
mod parts;
mod saved;
mod window;
mod writing;

pub use bodies::is_take;
use byte_io::StreamFault;
pub use entries::Entries;
pub use laws::{
    cut_logs_load, kept_logs_load, steps_are_read_again, texts_begin_alike, texts_go_on,
};
pub use loading::load;
use log_text::{LogFault, SavedReply};
pub use parts::load_from;
use shared_machine::Step;
use std::marker::Model;
use thiserror::Error;
use uas_log::FirstUnits;
pub use window::read_at_least;
pub use writing::{write_end, write_head, write_refused, write_step, write_taken};

/// A step of a log.
#[derive(Debug, Drop)]
pub enum Entry {
    /// A step that acted and wasn't refused, and the reply that it gave, where it is a Take that gave one.
    Acted(Step, Option<SavedReply>),
    /// A refused step, and the number of its refusal.
    Refused(Step, u8),
}

/// Why a log ended.
#[derive(Clone, Copy, Debug, PartialEq, Eq)]
pub enum Why {
    /// The run was done.
    Complete,
    /// Memory was wanting.
    NoMemory,
    /// The log was full.
    LogFull,
    /// The log's file couldn't be written.
    LogFile,
}

/// A log as its text tells it: within the limits of the form (`AreKeepable` in specs/Form.antt), so that it has a text.
#[derive(Debug, Drop)]
pub struct KeptLog {
    tags: usize,
    units: FirstUnits,
    entries: Entries,
    ending: Option<Why>,
}

impl Model for KeptLog {
    ghost use Rattle.kept_log.specs.Form.{AreKeepable, Kept};

    ghost Value = { Kept };

    ghost view = { λ log. record { tags = log.tags; units = log.units; entries = log.entries; ending = log.ending } };

    ghost invariant = { λ log. AreKeepable log.tags log.units log.entries };
}

/// What a text has.
#[derive(Debug, Drop)]
pub struct Loaded {
    pub log: KeptLog,
    /// Where the beginning of a record stands that was cut off.
    pub torn: Option<usize>,
}

/// What a text has that comes in parts.
#[derive(Debug, Drop)]
pub struct Found {
    pub loaded: Loaded,
    /// Behind how many steps the checksum stands first that is asked for.
    pub step: Option<usize>,
}

/// What is wrong with a text: the first fault from its front. A place is the number of the byte where a record begins.
#[derive(Clone, Copy, Debug, PartialEq, Eq, Error)]
pub enum KeptFault {
    #[error("the head: {0}")]
    Head(LogFault),
    #[error("the head's checksum is wrong")]
    HeadSum,
    #[error("the record at byte {0} has a wrong checksum")]
    WrongRecord(usize),
    #[error("the record at byte {0} has a body that is none")]
    BadBody(usize),
    #[error("the step at byte {0} is one too many")]
    TooMany(usize),
    #[error("the end at byte {0} counts the steps otherwise")]
    WrongCount(usize),
    #[error("bytes stand behind the end at byte {0}")]
    BehindEnd(usize),
    #[error("no memory for the log")]
    NoMemory,
}

/// Why a text isn't loaded that comes in parts.
#[derive(Clone, Copy, Debug, PartialEq, Eq, Error)]
pub enum PartsFault {
    /// What is wrong with the text.
    #[error("{0}")]
    Kept(KeptFault),
    /// Want of memory, or a read that failed.
    #[error("the log can't be read")]
    Read(StreamFault),
}

/// What a record's body says.
#[derive(Debug, Drop)]
pub(crate) enum Body {
    Step(Entry),
    End(u64, Why),
}

/// What comes at a place of a text.
#[derive(Debug, Drop)]
pub(crate) enum Next {
    /// A step, the length of its record's body and the record's checksum.
    Goes(Entry, usize, u32),
    /// The end, or nothing more, or a torn record at a place.
    Ends(Option<Why>, Option<usize>),
}
