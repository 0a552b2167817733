//! Laws: the log that a bus books always has a text.
//!
//! `log_text` writes the text of a log that is within the limits of its version (`IsSavable` in log_text specs/Kept.antt), `log_keeper` that
//! of a log of any number of tags, and `log_limits` tests them. Of the log of a [`uas_work::Booked`] no test is needed: [`booked_logs_fit`] is that law, and [`true_logs_fit`]
//! says where it comes from. A log is true where its refusals and replies are those of its replay. Then
//!
//! ```text
//!     steps       one that wasn't refused has a client that is there, one of its tags, a ticket below 2^60, and a buffer as long as its
//!                 operation moves; a retirement is of a pipe with streams
//!     replies     each is of a task that a client had: its tag and ticket, a status and 0 or 18 bytes of sense, a buffer as long as before
//!     units       each kept its size and its bad blocks through all steps, and a unit is one at the end
//! ```
//!
//! The numbers of an operation fit their fields by their types alone, which says nothing of a definition's numbers: so the law of a bus
//! reads them ([`have_fields`]). It stands on machine_invariant, log_text and uas_work.
#![tactic(auto)]

ghost use Rattle.booked_limits.specs.Fitting.{FittingLogsSave, TrueLogsFit};

mod booked;
mod fields;

pub use booked::booked_logs_fit;
pub use fields::have_fields;

/// A true log of fewer than 2^32 steps fits the limits of its text, where its units and the numbers of its operations do; and one of 16
/// tags of each client those of the second version.
pub fn true_logs_fit()
    ensures fit { TrueLogsFit }
    ensures save { FittingLogsSave }
{}
