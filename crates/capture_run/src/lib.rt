//! The run `capture`: a script from a reader, run as `replay` runs it, and the run as a capture of USB traffic in a file.
//!
//! [`run_capture`] reads a script, creates the file, writes a record for each TD that was submitted, completed or taken off, and prints
//! what `replay` prints. The script is run twice over the same definitions: once as `replay` does, keeping the bytes that its commands
//! moved, and once by `uas_trace`, whose text the records are made of ([`urbs`]); what a capture's bytes are is [`format`]'s.
//!
//! It stands on the runs `replay` and `trace`, on TRBs and the address maps, and on files and writers.
#![tactic(auto)]

mod capture;
mod fault;
pub mod format;
mod kept;
pub mod urbs;

pub use capture::run_capture;
pub use fault::CaptureFault;
