//! A driver of a UAS disk behind any xHCI controller: from a controller of which nothing is known to many commands at a time, and their replies.
//!
//! ```text
//!     submit --> Outstanding: waits --put--> its TDs are the controller's --events, status unit--> Replied --take_reply--> Free
//! ```
//!
//! [`BlockDriver`] owns a [`DiskReady`], tells its accesses until the disk is ready, and then its own. It tells one [`Access`] at a time, which its
//! caller does before the next call ([`BlockDriver::next`]), and takes what was read ([`BlockDriver::answer`]). It rests until a command is
//! submitted, an interrupt comes ([`BlockDriver::interrupted`]), or the time of a command is over.
//!
//! | Seen | Then |
//! |---|---|
//! | commands wait | each is put, the lowest tag first: data, status, command, each alone in the next third of its ring; then their doorbells |
//! | an interrupt | USBSTS, cleared; the interrupter; each event, its last word first; ERDP behind 64 and at the end |
//! | an event at the third of a TD that is pending | its data ended, or its status unit is loaded |
//! | a status that isn't GOOD, and no data; GOOD too, after 1,000 ms | data are taken off: Stop Endpoint; Set TR Dequeue Pointer; doorbells |
//! | a command's time is over, or it is aborted | its data are taken off; ABORT TASK on the last tag; then its status is taken off too |
//! | a TD fails, another tag's unit, no abort after 5,000 ms, the port disabled | all are lost, and the device is tried again |
//! | the disk is gone from its port; the controller had an error | all are lost; another device is looked for; the controller is taken anew |
//! | it shuts down, and no command is out | SYNCHRONIZE CACHE, up to 30,000 ms; Disable Slot; Run/Stop off; Host Controller Reset |
//!
//! [`BlockDriver::abort`] ends one command: where its status comes first, that is its reply. One abort is out at a time, and no command is put
//! meanwhile. [`BlockDriver::restart`] has the device tried again; [`BlockDriver::shut_down`] ends all. Commands are lost once their TDs aren't the controller's any more: behind Disable
//! Slot, or the controller's reset.
//!
//! What is promised, for any answers, times and calls: what is told is the access of the table's row (`next_access`), and the next state is that of
//! the row too (`next_state`, `answered`, in specs/Calls, Steps, Turns, Events). No access is outside the registers or the memory that was lent
//! (`inside`). A command has no second reply: [`BlockDriver::submit`] gives a free tag to it, [`BlockDriver::take_reply`] frees the tag of a reply,
//! and no other call changes which tags have commands, with which marks (`once`), or a reply (`replies`). A reply waits for the data and the
//! status of its command, or until both were taken off where it was aborted, and one that is GOOD has all bytes ([`replies_are_whole`]). No call but [`BlockDriver::new`] takes memory. That commands
//! end is tried, in front of the controller of `xhci_machine` (tests/crates/driver).
//!
//! It stands on `block_requests`, `disk_ready`, `disk_up`, `bring_up`, `disk_requests`, `usb_descriptors`, `host_layout`, `host_trbs`, `arrayvec`,
//! `byteorder` and `thiserror`.
#![tactic(auto)]

mod aborts;
mod calls;
mod closing;
mod events;
mod freeing;
mod kinds;
mod laws;
mod replies;
mod rings;
mod steps;
mod submits;
mod table;
mod tags;
mod tasks;
mod turns;

use block_requests::SubmitFault;
pub use closing::Closing;
use disk_ready::DiskReady;
pub use freeing::{Freeing, Removal};
pub use kinds::StreamPipe;
pub use laws::replies_are_whole;
pub use replies::{Reply, State};
pub use rings::Thirds;
pub use steps::{Blocks, Work};
pub use submits::Open;
pub use table::{Came, DataState, Ending, Entry, Loss, Outstanding, Told};
pub use tags::Tags;
pub use tasks::{OwnKind, OwnTask};
use thiserror::Error;

/// A controller, the disk behind it, and the commands that are out at it.
#[derive(Drop)]
pub struct BlockDriver {
    pub ready: DiskReady,
    pub blocks: Blocks,
    /// An access of the commands' was told that is to be answered.
    pub is_asked: bool,
}

/// Why there is no driver.
#[derive(Clone, Copy, Debug, PartialEq, Eq, Error)]
pub enum NewFault {
    #[error("the options can't be asked")]
    Options = 1,
    #[error("no memory")]
    NoMemory,
}

/// Why a command isn't taken.
#[derive(Clone, Copy, Debug, PartialEq, Eq, Error)]
pub enum Fault {
    #[error("no disk is used")]
    NotReady,
    #[error("another disk is used")]
    OtherDisk,
    #[error("the disk doesn't take such a request")]
    Request(SubmitFault),
    #[error("as many commands are out as can be")]
    NoTag,
}

/// Why a command isn't aborted.
#[derive(Clone, Copy, Debug, PartialEq, Eq, Error)]
pub enum AbortFault {
    #[error("no command is out on the tag")]
    NoSuchTag = 1,
}
