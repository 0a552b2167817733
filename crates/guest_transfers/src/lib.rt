//! The four pipes of a USB Attached SCSI device over a caller's memory, as one machine: a step for the command pipe, for the data of
//! a tag and for its status, the doorbells, and what the controller's commands make of them (xHCI 1.2, 4.6, 4.7 and 4.9 to 4.11).
//!
//! ```text
//!   command pipe --- step_command --> device      one information unit a TD
//!   data-in, -out -- step_data -----> device      one TRB or one chunk, for a tag
//!   status pipe ---- step_status ---- device      one TRB, for a tag
//! ```
//!
//! Stream t of a pipe serves tag t, 1 to 240. A doorbell is used up where no TRB is there yet; Stop Endpoint forgets the doorbells of
//! its endpoint and keeps what is opaque. A status is due once its task has ended, nothing of its chunk is left, no data-in TD is still
//! to be ended and no data-out TD is still to be dropped, also of an endpoint that is stopped; where no TD is there, at once.
//!
//! Where nothing serves the pipes, as of a disk that was pulled, [`Transfers::step_silent`] tells what is in front of each rung ring
//! with a completion code.
//!
//! The caller has the event ring, the contexts' other fields and the command ring. It gives turns to those tags that have something
//! to do ([`Transfers::has_work`]), data before status, and writes an endpoint's state where a step has changed it.
//!
//! What is promised: each call is one equation over memory, event ring, pipes, tags and device (`specs/Steps.antt` and
//! `specs/Orders.antt`); a step that is refused changes nothing. [`Transfers::new`] takes all memory that the pipes ever have.
//!
//! A caller who can't lend all of memory asks before a step what it lacks ([`Transfers::wants_data`], [`Transfers::wants_status`],
//! [`Transfers::wants_command`], [`Transfers::wants_stray`]), and copies that in. Once nothing is asked for, the step over his copies is the step over all of his
//! memory, and writes only to the copies (`src/laws.rt`).
//!
//! It stands on `guest_tags` and `guest_out` for the steps of each pipe, and on `guest_pipes` for the pipes.
#![tactic(auto)]

mod calls;
mod control;
mod laws;
mod saved;
mod silent;
mod slot;
mod steps;
mod waiting;
mod wanting;

pub use calls::{TAG_SLOTS, Transfers, empty_slots};
pub use control::StreamPipe;
pub use laws::{
    copies_stand_for_all_memory, what_is_wanted_is_not_there, what_lacks_nothing_is_taken,
};
pub use saved::TransfersParts;
pub use silent::next_rung;
pub use slot::Slot;
