//! Audits of a log: whether a client's own account of what it submitted and what it was told is the log's.
//!
//! A client that kept its submissions and its replies holds them against a log ([`audit`]): the log's submissions of the client are
//! the first of its own, in order, and its replies are those that a disk which it had alone would have given it for these, on the
//! unit with which the log began (`IsAudited` in specs/Audit.antt). So neither can the log have other submissions of the client's,
//! nor can a reply have been bent by whatever other clients did.
//!
//! ```text
//!     log's steps    --those of the client--->  submissions  --the first of-->  sent
//!                    --its own labels------>  solo machine  --same replies-->  replies
//! ```
//!
//! It asks a log that is true (`IsReplay` in uas_log specs/Booking.antt), as a `Booked` of `uas_work` keeps it and `audit_run` gives
//! it of a text. Of such a log the replies needn't be worked out again: by isolation those of the client are the solo machine's.
//!
//! [`planned`] has what a client of `uasdisk work` submits. It stands on uas_log, isolation and machine_invariant.
#![tactic(auto)]

mod audits;
mod plan;

pub use audits::{audit, is_asked_by};
pub use plan::planned;
