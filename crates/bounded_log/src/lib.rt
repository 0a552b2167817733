//! A booked bus whose log has a limit in bytes, beside that in steps.
//!
//! `uas_work::Booked` counts steps, and a step may bring 1 byte to its log or 65,536. [`BoundedBooked`] counts bytes too. An entry counts as
//! the longest record that it can have in the text of a log that is kept (`step_bytes` in specs/Bytes.antt):
//!
//! ```text
//!     the step's text, and 10 bytes: the record's length, kind and checksum, and a refusal's number
//!     of a Take 36 more: what a reply's text has at most beside its data
//!     the data of the reply that it gives
//! ```
//!
//! So a log that is kept of such a bus has at most so many bytes between its head and its end ([`records_are_counted`]). Whatever else a
//! bus is asked goes through [`BoundedBooked::booked`].
//!
//! It stands on uas_work, and on kept_log and log_text for what a text is.
#![tactic(auto)]

ghost use Rattle.bounded_log.specs.Bytes.{RecordsAreCounted};

mod bounded;
mod counting;

use std::marker::Model;
use thiserror::Error;
use uas_work::Booked;

/// Why a step was not taken: the first of these that holds.
#[derive(Clone, Copy, Debug, PartialEq, Eq, Error)]
pub enum BoundedBooking {
    #[error("the log holds as many steps as it may")]
    LogFull = 1,
    #[error("the log's entries would take more bytes than they may")]
    BytesFull,
    #[error("no memory for the entry of the log")]
    NoMemory,
}

/// Why a booked bus was not taken.
#[derive(Clone, Copy, Debug, PartialEq, Eq, Error)]
pub enum LimitFault {
    #[error("the log's entries take more bytes than they may")]
    TooLow,
}

/// A bus and its log, whose entries take no more bytes than they may.
#[derive(Debug, Drop)]
pub struct BoundedBooked {
    booked: Booked,
    /// How many bytes the log's entries may take.
    limit: usize,
    /// How many they take.
    bytes: usize,
}

impl Model for BoundedBooked {
    ghost use Rattle.bounded_log.specs.Bytes.{Bounded, IsBounded};

    ghost Value = { Bounded };

    ghost view = { λ it. record { booked = it.booked; limit = it.limit; bytes = it.bytes } };

    ghost invariant = { λ it. IsBounded (record { booked = it.booked; limit = it.limit; bytes = it.bytes }) };
}

/// The record of an entry in the text of a log that is kept has at most the bytes that the entry counts as.
pub fn records_are_counted()
    ensures { RecordsAreCounted }
{}
