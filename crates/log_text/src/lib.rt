//! The text of a log: a log outside of its process.
//!
//! [`save_log`] writes a log's text, without its refused steps, and [`load_log`] reads one: a [`SavedLog`]. The text (`log_text` in
//! specs/Text.antt) is the fields one behind the other, each number big endian; it has two versions, each with limits of its own
//! (`IsWithin`), and a log has one text. Which fault a text has that is none is said by specs/Reading.antt, field by field.
//! Whoever reads a text in parts has [`read_first_units`], [`read_step`], [`read_reply`] and the fields, each up to a [`Stop`].
//! [`migrate`] brings a log of clients of 8 tags over to clients of 16. A [`PlainLog`] is a log of any number of tags, as it is replayed.
//! Whoever writes a text piece by piece has its parts: [`put_header`], [`put_units`], [`put`] for a count, [`put_step`] and [`put_reply`].
//!
//! ```text
//!     UASLOG, version (2), tags of a client (1), clients (1)
//!     of each client   blocks (4), their bytes, count of bad blocks (4), their numbers (4 each)
//!     count (4)        steps: kind (1) and what it brings
//!     count (4)        replies: client (1), kind (1), tag (2), ticket (8) and what it brings
//! ```
//!
//! It stands on uas_log, shared_machine, scsi_cmd and block_unit, and on `byteorder`, `arrayvec` and `thiserror`.
#![tactic(auto)]

mod lists;
mod migration;
mod plain_log;
mod read_fields;
mod read_log;
mod read_replies;
mod read_steps;
mod read_units;
mod saved;
mod saving;
mod stops;
mod text_laws;
mod write_fields;
mod write_log;
mod write_replies;
mod write_steps;

pub use lists::SavedReplies;
pub use migration::migrate;
pub use read_fields::{field as read_field, number as read_number};
pub use read_log::{all_units as read_first_units, load_log};
pub use read_replies::reply as read_reply;
pub use read_steps::step as read_step;
pub use saving::{kept_count, save_log, version_with};
use scsi_cmd::Reply;
use std::marker::Model;
pub use text_laws::{saved_logs_load, texts_tell_apart};
use thiserror::Error;
use uas_log::{FirstUnits, Steps};
pub use write_fields::put;
pub use write_log::{put_header, put_units};
pub use write_replies::put_reply;
pub use write_steps::put_step;

/// A version of a log's text, which has limits of its own.
#[derive(Clone, Copy, Debug, PartialEq, Eq)]
pub enum Version {
    /// Clients of 8 tags, up to 31 of them.
    First,
    /// Clients of 16 tags, up to 15 of them.
    Second,
}

/// A reply, and the client whose text says that it took it.
#[derive(Debug, Drop)]
pub struct SavedReply {
    pub client: usize,
    pub reply: Reply,
}

/// A log as its text tells it: the steps that weren't refused, and what the clients took. It is within the limits of its version
/// (`IsWithin` in specs/Text.antt), and so it has a text.
#[derive(Debug, Drop)]
pub struct SavedLog {
    version: Version,
    units: FirstUnits,
    steps: Steps,
    replies: SavedReplies,
}

impl Model for SavedLog {
    ghost use Rattle.log_text.specs.Text.{IsWithin, Saved};

    ghost Value = { Saved };

    ghost view = { λ log. record { version = log.version; units = log.units; steps = log.steps; replies = log.replies } };

    ghost invariant = { λ log.
        IsWithin (record { version = log.version; units = log.units; steps = log.steps; replies = log.replies }) };
}

/// A log as it is replayed: its clients have so many tags each, and its steps weren't refused. A bus can be asked for its steps
/// (`IsPlain` in specs/Plain.antt).
#[derive(Debug, Drop)]
pub struct PlainLog {
    tags: usize,
    units: FirstUnits,
    steps: Steps,
    replies: SavedReplies,
}

impl Model for PlainLog {
    ghost use Rattle.log_text.specs.Plain.{IsPlain, Plain};

    ghost Value = { Plain };

    ghost view = { λ log. record { tags = log.tags; units = log.units; steps = log.steps; replies = log.replies } };

    ghost invariant = { λ log.
        IsPlain (record { tags = log.tags; units = log.units; steps = log.steps; replies = log.replies }) };
}

/// Why a text is no log's: the first fault from its front.
#[derive(Clone, Copy, Debug, PartialEq, Eq, Error)]
pub enum LogFault {
    #[error("another name, version or number of tags")]
    BadHeader = 1,
    #[error("it ends within a field")]
    Truncated,
    #[error("a field has a value that it can't have")]
    BadField,
    #[error("bytes behind its end")]
    TrailingBytes,
    #[error("no memory for the log")]
    NoMemory,
}

/// Why a log can't be brought over to clients of 16 tags.
#[derive(Clone, Copy, Debug, PartialEq, Eq, Error)]
pub enum MigrateFault {
    #[error("more than 15 clients")]
    TooManyClients = 1,
    #[error("no memory for the log")]
    NoMemory,
}

/// Why reading stops.
#[derive(Clone, Copy, Debug, PartialEq, Eq)]
pub enum Stop {
    Memory,
    Fault(LogFault),
}

/// What an operation says beside its code.
#[derive(Clone, Copy, Debug, PartialEq, Eq)]
pub(crate) struct OpFields {
    pub(crate) block: u64,
    pub(crate) count: u32,
    pub(crate) fua: u8,
}

/// What a text tells, part by part.
#[derive(Debug, Drop)]
pub(crate) struct Parts {
    pub(crate) version: Version,
    pub(crate) units: FirstUnits,
    pub(crate) steps: Steps,
    pub(crate) replies: SavedReplies,
}
