//! Whether a log can be saved: the limits of a log's text, tested on the log itself.
//!
//! `log_text` writes the text of a log that is within the limits of its version, and asks for them (`IsSavable` in log_text
//! specs/Kept.antt). [`is_savable`] is that test, for whoever has a log of which nothing is known. The limits are those that a text's
//! reader has: a client is one of the log's, a ticket is below 2^60, a buffer has at most 65,536 bytes, and so on. It takes no memory.
//! Whoever writes a log piece by piece has the tests of the pieces: [`are_units`], [`step_fits`], [`reply_fits`].
//!
//! ```text
//!     tags           8 or 16, by which the version goes
//!     refusals       one for each step
//!     units          1 to 31, or 15: whole blocks, numbers of bad blocks that rise
//!     steps          of those that weren't refused: below 2^32 of them, each within its fields
//!     replies        below 2^32 of them, each within its fields
//! ```
//!
//! It stands on log_text and on the types of a log.
#![tactic(auto)]

mod limits;
mod replies;
mod steps;
mod units;

pub use limits::{are_units, is_savable};
pub use replies::reply_fits;
pub use steps::step_fits;
