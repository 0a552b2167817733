//! The solo machine: one client with one logical unit, and nothing else. No queue, event, pipe or ring stands
//! between a command and its reply, so it says what a client may expect of a disk that it has alone.
//!
//! A client has tags for commands and a last one for task management, named here by their index
//! from 1 on; how many, is said where the machine is made, and never changes. A command goes through the steps *submit*, *carry* (the device receives it), *move* (one chunk
//! of at most eight blocks, on the blocks of that moment), *send* (the device hands over its answer) and
//! *settle* (the client gets its reply); a [`Label`] names one step, and [`Solo::apply`] does it or says that
//! it isn't a step here. `Solo::apply` is the definition `solo_step`, exactly, and takes no memory.
//!
//! The steps on one task (`submit_fault`, [`TaggedTask::new`], [`carry`], [`move_chunk`], [`send`], [`reply`])
//! stand by themselves, because a bus of many clients is made of the same functions.
#![tactic(auto)]

mod device;
mod host;
mod machine;

use arrayvec::ArrayVec;
use block_unit::Unit;
pub use device::{carry, move_chunk, send};
use device_server::Answer;
pub use host::reply;
use scsi_cmd::Command;
pub use scsi_cmd::{Buffer, Reply, Request, SubmitFault, Task, submit_fault, task_fault};
use std::marker::Model;
use thiserror::Error;
use uas_profile::{MOST_TAGS, TASK_SLOT};

/// The response to a task management (SAM), by the code of its Response unit (INCITS 471).
#[derive(Clone, Copy, Debug, PartialEq, Eq)]
pub enum ResponseCode {
    /// TASK MANAGEMENT FUNCTION COMPLETE, 00h: it was done.
    Complete,
    /// TASK MANAGEMENT FUNCTION SUCCEEDED, 08h: the device has the task that a query asks after.
    Succeeded,
}

impl ResponseCode {
    ghost use Rattle.std.specs.Prelude.{◌≡◌};
    ghost use Rattle.solo_model.specs.TaggedTask.{response_number};

    /// The response code.
    pub fn number(self) -> u8
        ensures { result ≡ response_number self }
    {
        match self {
            ResponseCode::Complete => 0x00,
            ResponseCode::Succeeded => 0x08,
        }
    }
}

/// What a task ended with.
#[derive(Clone, Copy, Debug, PartialEq, Eq)]
pub enum TaskAnswer {
    /// A command: its status, GOOD, or CHECK CONDITION with sense.
    WithStatus(Answer),
    /// A task management: its response.
    WithResponse(ResponseCode),
}

/// How far a task has come that the device has begun.
#[derive(Clone, Copy, Debug, PartialEq, Eq)]
pub enum TaskProgress {
    /// It is a command that moves its data, and so many chunks are done.
    Moving(u16),
    /// It has its answer.
    Ended(TaskAnswer),
}

/// How far a task has come.
#[derive(Clone, Copy, Debug, PartialEq, Eq)]
pub enum Phase {
    /// Submitted; the device hasn't received it.
    Queued,
    /// The device has begun it.
    Begun(TaskProgress),
    /// The answer was handed over.
    Sent(TaskAnswer),
    /// A task management ended it before its answer was handed over.
    Gone,
}

/// What a client submitted.
#[derive(Debug, Drop)]
pub enum Submitted {
    /// A command; its buffer has the bytes that it brings, or those that came in so far over what was handed in.
    Command(Command),
    /// A task management, with the tickets that it noted.
    Management {
        task: Task,
        noted: ArrayVec<u64, TASK_SLOT>,
    },
}

/// A task under one tag of a client.
#[derive(Debug, Drop)]
pub struct TaggedTask {
    /// The number that the client gave it.
    ticket: u64,
    submitted: Submitted,
    phase: Phase,
}

impl Model for TaggedTask {
    ghost use Rattle.solo_model.specs.TaggedTask.{TaggedTask, buffer_in, request_in};

    ghost Value = { TaggedTask };

    ghost view = { λ task. record {
      ticket = task.ticket;
      request = request_in task.submitted;
      buffer = buffer_in task.submitted;
      phase = task.phase;
    } };
}

/// One step of the solo machine; the number is the index of a tag, from 1 on.
#[derive(Debug, Drop)]
pub enum Label {
    /// The client submits a command with this ticket.
    Submit(u16, u64, Command),
    /// The client submits a task management with this ticket; an abort and a query name a command by its index.
    Task(u64, Task),
    /// The device receives it.
    Carry(u16),
    /// The device moves its next chunk.
    Move(u16),
    /// The device hands over its answer.
    Send(u16),
    /// The client gets its reply.
    Settle(u16),
}

/// The label is no step here.
#[derive(Clone, Copy, Debug, PartialEq, Eq, Error)]
#[error("not a run")]
pub struct NotARun;

/// One client and its logical unit.
#[derive(Debug, Drop)]
pub struct Solo {
    tags: usize,
    unit: Unit,
    tasks: [Option<TaggedTask>; MOST_TAGS],
    least_ticket: u64,
}

impl Model for Solo {
    ghost use Rattle.solo_model.specs.Solo.{SoloState};

    ghost Value = { SoloState };

    ghost use Rattle.solo_model.specs.Soundness.{IsSoundSolo};

    ghost view = { λ solo. record { tags = solo.tags; unit = solo.unit; tasks = solo.tasks; least_ticket = solo.least_ticket } };

    ghost invariant = { λ solo. IsSoundSolo solo.tags solo.unit.count solo.tasks };
}
