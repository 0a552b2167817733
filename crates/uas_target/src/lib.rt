//! A simulated USB Attached SCSI device (INCITS 471): logical units, and the tasks that a host began on them, by tag.
//!
//! ```text
//!                receive                  give_chunk, take_chunk            sent
//!     no task ------------> moving data ------------------------> ended ----------> no task
//!        |                                                          ^
//!        +----------------------------------------------------------+
//!          receive: no data, a fault, an attention, task management, bytes that are no unit
//! ```
//!
//! A received Command unit is executed whole on the unit that its LUN addresses, up to the data: a unit attention comes
//! first (SAM; INQUIRY neither reports nor clears one), then the faults of its CDB, and what moves no data has ended. Data
//! moves in chunks of at most eight blocks, each on the blocks of its own moment, so a task holds no bytes. A bad block in
//! a chunk ends the command, and the chunks before it stand. Where the LUN addresses no unit, INQUIRY tells so in its data,
//! and every other command ends with LOGICAL UNIT NOT SUPPORTED. Bytes that are no unit are answered where a free tag can
//! be read from them.
//!
//! A received Task Management unit is done at once and ends with a response code on its own tag (SAM): ABORT TASK takes away
//! the command of the tag that it names, where that was sent to the addressed unit, LOGICAL UNIT RESET all commands to the
//! unit, whose attention it sets; their answers are never sent. What they take away goes from moving data or from ended to no
//! task. QUERY TASK is answered by whether the device has the command, and changes nothing. Any other function isn't supported.
//!
//! A reset of the whole device ([`Target::reset`]) takes away all tasks and sets the attention of each unit; blocks and medium stay.
//!
//! What is promised: a [`Target`] is the record `Device` of `specs/Device.antt`, block maps by unit number and tasks by
//! tag, and each call makes of it exactly what the definition of that name says, and answers so. So after any list of
//! calls it is `device_after` of that list. What a host asks for begins as the operation that its CDB names
//! (`begins_as_asked`), each chunk goes as in `device_server`, and a call leaves the tasks of all tags but its own alone, but
//! for task management, which leaves the commands to other units alone (`other_tags_are_kept`).
//!
//! How many tags a device has is a number of its own, which [`Target::with_tags`] is told and no call changes: a task may have
//! the tags from 1 to that number, at most 248 (`STREAMS`). [`Target::new`] opens one of 240 (`GREATEST_TAG`).
//!
//! [`Target::new`] and [`Target::with_tags`] take all memory that the device ever has; no later call takes any. Finding a tag's task is one index; a
//! reset alone goes over all tags. Beside each task the table keeps what its data is, worked out once as the task begins, so a
//! chunk of a READ or a WRITE looks at no operation, and changes the task in its place.
//!
//! It stands on `uas_iu` for the units, `scsi_cmd` for what a CDB asks, `block_unit` for the blocks, `device_server` for the
//! steps of one command, and `marks` for the places that hold a task.
#![tactic(auto)]

mod calls;
mod chunks;
mod laws;
mod management;
mod moved;
mod receiver;
mod table;

use block_unit::Unit;
use device_server::Answer;
pub use laws::{
    begins_as_asked, calls_are_folded, other_tags_are_kept, received_texts, tags_are_kept,
};
pub use receiver::unit_number;
use scsi_cmd::Op;
use std::marker::Model;
use table::TaskTable;
use thiserror::Error;

/// How a task ended.
#[derive(Clone, Copy, Debug, PartialEq, Eq)]
pub enum DeviceAnswer {
    /// A command, with a status.
    Status(Answer),
    /// With a response code.
    Response(u8),
}

/// A task of the device. `unit` is the number of the logical unit of a command, and `None` where that unit isn't there
/// and where the task is no command's.
#[derive(Clone, Copy, Debug, PartialEq, Eq)]
pub enum DeviceTask {
    /// It moves the data of an operation, of which so many chunks are done.
    Moving {
        unit: Option<usize>,
        op: Op,
        chunk: u16,
    },
    /// Its answer waits to be sent.
    Ended {
        unit: Option<usize>,
        answer: DeviceAnswer,
    },
}

/// What the device does next on a tag.
#[derive(Clone, Copy, Debug, PartialEq, Eq)]
pub enum Phase {
    /// It has no task of that tag.
    Absent,
    /// It gives a chunk of so many bytes to the host.
    Gives(usize),
    /// It takes a chunk of so many bytes from the host.
    Takes(usize),
    /// It sends its answer.
    Ends,
}

/// What came of received bytes.
#[derive(Clone, Copy, Debug, PartialEq, Eq)]
pub enum Took {
    /// A task began on this tag.
    Began(u16),
    /// Nothing.
    Dropped,
}

/// The tag of a received unit has a task (INCITS 471, overlapped tag).
#[derive(Clone, Copy, Debug, PartialEq, Eq, Error)]
#[error("the tag has a task")]
pub struct Overlap;

/// The device: its logical units by number, and its tasks by tag.
#[derive(Debug, Drop)]
pub struct Target {
    units: Vec<Unit>,
    tasks: TaskTable,
}

impl Model for Target {
    ghost use Rattle.uas_target.specs.Device.{Device};

    ghost Value = { Device };

    ghost use Rattle.uas_target.specs.Soundness.{IsSoundDevice};

    ghost view = { λ target. record { units = target.units.items; tasks = target.tasks } };

    ghost invariant = { λ target. IsSoundDevice target.units.items target.tasks };
}
