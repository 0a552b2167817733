//! A log that is kept while it grows: the records of its steps, added behind those that a text has.
//!
//! Whoever keeps a log writes its head once ([`begin`]), and then again and again the records of the steps that came since
//! ([`add_records`]): it knows at which [`Place`] of the log the text stands. Behind the last step stands the end (`write_end` of kept_log).
//!
//! ```text
//!     log     step 0, 1, .. k - 1     step k, .. n - 1      grows under its lock
//!     text    head, records 0 .. k-1                        is written and synced outside of it
//!                                ^ the place
//! ```
//!
//! What is promised: what is added is the record of each step behind the place, with the reply that a Take gave (`entries_behind` in
//! specs/Entries.antt), and at a fault those of the first of them, whole; the text with the records of what is behind the place is always
//! the same (`Added`). So, at each moment, what was written is the text of a beginning, and behind the last step it is the log's
//! ([`kept_texts_are_the_logs`]). A [`Keeper`] gathers the records of a log, gives them to a file
//! and syncs it after each so many steps (`is_due` in specs/Syncing.antt); the end that it writes says why the log ended. No call takes a lock or starts a thread: the records are gathered
//! where the log is, and written where nobody waits for it. It stands on kept_log, log_limits, byte_io, and the types of a log.
#![tactic(auto)]

mod adding;
mod keeper;
mod laws;
mod stops;
mod writer;

pub use adding::{add_records, add_some, begin};
pub use keeper::{Head, Keeper};
pub use laws::{acted_steps_fit, kept_texts_are_the_logs, steps_go_on};
pub use stops::KeepStop;
use thiserror::Error;
pub use writer::{KeptFile, KeptFiles, KeptWriter};

/// Where the text of a log stands: of how many steps and replies it has the records, and the last checksum.
#[derive(Clone, Copy, Debug, PartialEq, Eq)]
pub struct Place {
    pub steps: usize,
    pub replies: usize,
    pub sum: u32,
}

/// Why a record isn't added.
#[derive(Clone, Copy, Debug, PartialEq, Eq, Error)]
pub enum KeepFault {
    #[error("a step or a reply is past the limits of a log's text")]
    Limits = 1,
    #[error("no memory for a record")]
    NoMemory,
}
