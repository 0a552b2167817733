//! Records one behind the other, for a file that is written as it grows.
//!
//! A record is the length of its body, the body, and a checksum of length, body and the checksum before it: so each checksum is of all
//! that came before (`record_text` in specs/Records.antt).
//!
//! ```text
//!     length (4, big endian)   body   CRC-32C (4, big endian) of length, body and the CRC-32C before
//! ```
//!
//! [`append_record`] writes one. [`first_record`] says what stands at the front of bytes (`first_record` in specs/Finding.antt): a whole
//! record, nothing, what a write that was cut short has left, or a wrong record in front of a whole one. Where the length itself was changed
//! nothing whole may be found behind it, so that this too looks like a write that was cut short.
//!
//! What is promised: a record that was written is found, with its body and its checksum ([`records_are_found`]); what is found is a record's
//! text ([`found_records_are_records`]); and each part of a record at the end of bytes is torn ([`cut_records_are_torn`]). The checksum is
//! that of [`checksum`]. It stands on byte_numbers, `byteorder` and `thiserror`.
#![tactic(auto)]

pub mod checksum;
mod finding;
mod laws;
mod writing;

pub use finding::first_record;
pub use laws::{cut_records_are_torn, found_records_are_records, records_are_found, records_go_on};
use thiserror::Error;
pub use writing::append_record;

/// What stands at the front of bytes.
#[derive(Clone, Copy, Debug, PartialEq, Eq)]
pub enum First {
    /// There is no byte.
    Nothing,
    /// A whole record, with a body of so many bytes behind the first four.
    Whole { len: usize, sum: u32 },
    /// A beginning of a record, or one whose checksum is wrong with no whole record behind it.
    Torn,
    /// A record whose checksum is wrong, in front of a whole one.
    Wrong,
}

/// Why a record isn't written.
#[derive(Clone, Copy, Debug, PartialEq, Eq, Error)]
pub enum RecordFault {
    #[error("a record's body has at most 4294967295 bytes")]
    TooLong = 1,
    #[error("no memory for the record")]
    NoMemory,
}
