//! The run of a script: its lines in turn, over a bus and each client's tags, and what it tells.
//!
//! [`run_script`] reads a script, runs it on zeroed units and writes what it told. Its text is that of specs/Told.antt, a fold of the
//! script's lines over the shared machine of the bus and the tags of each client; the form of a line is specs/Printed.antt. How many
//! clients there are, with how many tags each, stands in `Disks`. How a run ends, and when it may give up, is [`RunFault`] and
//! specs/Runs.antt.
//!
//! The headline (specs/Headline.antt), for each number of tags: what a script tells is the replay of a list of steps, and each client's
//! replies in it are those of a disk that the client has alone. It stands on the bus and its isolation, the tags, the script's
//! grammar, and readers and writers.
#![tactic(auto)]

mod headline;
pub mod printed;
mod replay;
mod status;
mod tell;

pub use headline::{own_labels_decide, scripts_are_replays};
pub use replay::{DRAIN_LIMIT, Handed, ScriptRun, Unwatched, Watcher, command_of, told};
pub use status::{
    COMMAND_FAILED, DONE, FAULT, NO_MEMORY, RunFault, WORDS_REFUSED, file_fault, output_fault,
};
pub use tell::{read_script, run_script};
