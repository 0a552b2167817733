//! The log of a bus: what it began with, each step that acted, and what came of it.
//!
//! A [`Log`] is a record of public fields, so that whoever wrote or read one may change it: nothing here says that it is true.
//! What makes it true is `IsReplay` (specs/Booking.antt): its refusals and replies are those of the shared machine that begins
//! with its first units and its number of tags and takes its steps, and each of these steps is due in its turn. `uas_work` keeps a
//! log of which that holds at all times.
//!
//! ```text
//!     tags     how many tags each client has: 2 to 16 in a log that is true
//!     units    a unit's blocks, which its medium has too, and the numbers of its bad blocks, for each client
//!     steps    each step that acted, with a copy of what it brought
//!     refusals for each step the number of its refusal, 0 for none (`SubmitFault::number`)
//!     replies  what the clients took, in order
//! ```
//!
//! Idle steps aren't in a log, as they change nothing; a submission that is refused is, as a client was told of it. A list in
//! it is a small type of its own over a vector, which contracts see as a list.
//!
//! A log's text is `log_text`'s. It stands on shared_machine and scsi_cmd.
#![tactic(auto)]

mod growing;
mod lists;
mod outcomes;

pub use lists::{BlockBytes, BlockNumbers, FirstUnits, RefusalNumbers, Replies, Steps};
pub use outcomes::refusal_number;
use scsi_cmd::Reply;
use shared_machine::Step;

/// What a client's unit was as the log began.
#[derive(Debug, Drop)]
pub struct FirstUnit {
    /// The bytes of its blocks, block after block; its medium has the same.
    pub blocks: BlockBytes,
    /// The numbers of its bad blocks, rising.
    pub bad: BlockNumbers,
}

/// What a bus was asked and what came of it.
#[derive(Debug, Drop)]
pub struct Log {
    /// How many tags each client has: 2 to 16 in a log that is true.
    pub tags: usize,
    /// The unit of each client, by number.
    pub units: FirstUnits,
    /// The steps that acted, in order.
    pub steps: Steps,
    /// The number of each step's refusal, 0 where it was not refused.
    pub refusals: RefusalNumbers,
    /// The replies, in the order in which they were taken.
    pub replies: Replies,
}

/// The lists of a log, which are out of it while its next entry is written: a vector's room counts only where it can be seen.
/// With them the copy of the step, and as many bytes as the reply is to bring.
#[derive(Debug, Drop)]
pub struct Growth {
    pub steps: Vec<Step>,
    pub refusals: Vec<u8>,
    pub replies: Vec<Reply>,
    pub copy: Step,
    pub spare: Vec<u8>,
}
