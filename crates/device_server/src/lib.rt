//! The device server of one logical unit (SAM): what one command does to its blocks, from its beginning to its answer.
//!
//! ```text
//!     begin -----> moving data -----> ended
//!        |          give_chunk          ^
//!        |          take_chunk          |
//!        +------------------------------+
//!         no data, a fault, an attention
//! ```
//!
//! The rules, which hold of any command:
//!
//! 1. A unit attention comes before a fault, ends a command that reports it, and is then gone.
//! 2. SYNCHRONIZE CACHE acts as it begins; what moves no data has ended then.
//! 3. Data moves in chunks of at most eight blocks, in order, each on the blocks of its own moment, so a command holds no
//!    bytes.
//! 4. A bad block in a chunk ends the command, and the chunks before it stand.
//!
//! A command is known here by its `Work` alone, and where it is by its [`Progress`]. The tasks of many commands, their
//! tags and their order are the business of the crates above: a client's and a device's are both made of these steps.
//!
//! It stands on `scsi_cmd` for what a command does and `block_unit` for the blocks, and takes no memory.
#![tactic(auto)]

mod chunks;
mod steps;

pub use chunks::{chunk_len, give_chunk, take_chunk};
use scsi_cmd::Sense;
pub use steps::{begin, progress_asked, status_and_sense};

/// How a command ended.
#[derive(Clone, Copy, Debug, PartialEq, Eq)]
pub enum Answer {
    /// With the status GOOD.
    Good,
    /// With CHECK CONDITION and this sense.
    Check(Sense),
}

/// How far a command has come that has begun.
#[derive(Clone, Copy, Debug, PartialEq, Eq)]
pub enum Progress {
    /// It moves its data, and so many chunks are done.
    Moving(u16),
    /// It has its answer.
    Ended(Answer),
}
