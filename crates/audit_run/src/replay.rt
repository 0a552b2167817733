//! The replay of a saved log: its steps on a new bus, booked anew, and its replies held against those that came of it.
//!
//! A text of a log says nothing but what its writer wrote. [`replay_log`] takes its steps on a bus of its units, one by one: where a step
//! isn't due in its turn, is refused, or where the replies that come of it aren't those of the text, it answers where (`IsReplayed` in
//! specs/replay/Replaying.antt). Else the bus that it gives is booked, so its log is true and every promise of a bus holds of it: with the
//! text's units, steps and replies.
//!
//! ```text
//!     saved log --units--> new bus --steps--> NotDue(k), Refused(k)
//!               --replies------------------> OtherReplies(k), or the booked bus
//! ```
//!
//! Of a log of 16 tags that is true nothing but memory can be wanting ([`true_logs_are_replayed`]): a refused step changes nothing and
//! brings no reply, so that the steps that are kept are due and accepted in their turn ([`true_logs_replay`]).

mod faults;
mod laws;
mod replay;
mod replies;
mod units;

pub use laws::{true_logs_are_replayed, true_logs_replay};
pub use replay::replay_log;
use thiserror::Error;

/// Why a saved log isn't the replay of its own steps.
#[derive(Clone, Copy, Debug, PartialEq, Eq, Error)]
pub enum ReplayFault {
    /// The step of this number, from 0, isn't due in its turn.
    #[error("step {0} isn't due")]
    NotDue(usize),
    /// The step of this number, from 0, is refused; a saved log has no refused steps.
    #[error("step {0} is refused")]
    Refused(usize),
    /// The reply of this number, from 0, is another or is missing on one side.
    #[error("reply {0} is another")]
    OtherReplies(usize),
    #[error("no memory for the replay")]
    NoMemory,
}
