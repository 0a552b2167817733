//! The run `work`: clients that write and read in threads of their own, and what of it came back.
//!
//! ```text
//!     units of zeros ---> a bus that books ---> clients, a controller, a dispatcher ---> replies ---> a tally of each client
//!                                               in threads, the bus under a lock                        a line each, a status
//! ```
//!
//! [`run_work`] gives each client a unit of 64 blocks and lets all of them take so many rounds by `uas_work`'s threads: in round r client c
//! fills 8 blocks with the byte (16 c + r) mod 256 and reads them back. Then it counts, for each client, the WRITEs and the READs that
//! ended GOOD, and the READs that brought what had been written ([`Tally`]).
//!
//! What is promised: each line tells what a client's replies come to (specs/Tallies.antt), and the exit status is 0 exactly where every
//! client wrote, read and found equal each of its rounds, and its audit (`log_audit`) is true: its replies are those of the log of the bus
//! that the threads left, which is its own replay and began with the clients' logical units (specs/WorkEnds.antt). That all rounds come
//! to an end is tested.
//!
//! Each client has the number of tags that is asked for, and the log keeps it; and as many commands out at a time as are asked for.
//!
//! [`run_saved_work`] prints behind those lines for each client whether its audit is true, and then it saves the log in a file, which has
//! the text of that very log or what it had (specs/SavedEnds.antt). The log is its own replay, so whoever reads the file can audit again.
//!
//! [`run_kept_work`] keeps the log in the file while the threads work: a thread of its own gathers the records of the steps that were
//! booked since, under the lock of the bus, and writes and syncs them outside of it. At the end the file has the whole text of a log, with all
//! that the bus's log has behind the last look (specs/KeptEnds.antt); that what was written before is that log's too is tested.
#![tactic(auto)]

mod audits;
mod faults;
mod keeping;
mod kept;
mod locked_keeper;
mod run;
mod saved;
mod tallies;
mod telling;

pub use kept::{Kept, run_kept_work};
pub use run::run_work;
pub use saved::run_saved_work;

/// What is to be done.
#[derive(Clone, Copy, Debug, PartialEq, Eq)]
pub struct Load {
    /// How many clients work: 1 to 31.
    pub clients: usize,
    /// How many tags each of them has: 2 to 16, and 248 of all clients at most.
    pub tags: usize,
    /// How many commands each of them has out at a time: 1 or more, and fewer than tags.
    pub depth: usize,
    /// How many rounds each of them takes.
    pub rounds: u32,
}

/// What the replies of a client come to.
#[derive(Clone, Copy, Debug, PartialEq, Eq)]
pub struct Tally {
    pub client: usize,
    /// WRITEs that ended GOOD.
    pub writes: usize,
    /// READs that ended GOOD.
    pub reads: usize,
    /// Those of these READs that brought what was written in their round.
    pub equal: usize,
}
