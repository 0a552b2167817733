ghost use Rattle.std.specs.Option.{option_map_or};
ghost use Rattle.std.specs.Prelude.{◌≡◌, ℕ, false, is_some};
ghost use Rattle.scsi_cmd.specs.Request.{ended_by};
ghost use Rattle.solo_model.specs.TaggedTask.{aborted_by, after_notes, answered_by, buffer_in, can_be_ended, ended_next, finds, is_begun, is_noted, is_under_way, queued};
ghost use Rattle.solo_model.specs.TaggedTask.{queued_management, reply_of, request_in};

use crate::{Phase, Submitted, TaggedTask, Task, TaskAnswer};
use arrayvec::ArrayVec;
use device_server::status_and_sense;
use scsi_cmd::{Command, Reply};
use uas_profile::TASK_SLOT;

impl TaggedTask {
    /// A task as it is submitted.
    pub fn new(ticket: u64, command: Command) -> TaggedTask
        ensures { result ≡ queued ticket command }
    {
        TaggedTask {
            ticket,
            submitted: Submitted::Command(command),
            phase: Phase::Queued,
        }
    }

    /// A task management as it is submitted, with the tickets that it noted. It brings no bytes.
    pub fn management(ticket: u64, task: Task, noted: ArrayVec<u64, TASK_SLOT>) -> TaggedTask
        ensures { result ≡ queued_management ticket task noted.items }
    {
        TaggedTask {
            ticket,
            submitted: Submitted::Management { task, noted },
            phase: Phase::Queued,
        }
    }

    /// The number that the client gave it.
    pub fn ticket(&self) -> u64
        ensures { result ≡ self.now.ticket }
    {
        self.ticket
    }

    /// Whether it is done with, so that it has a reply.
    pub fn has_reply(&self) -> bool
        ensures { (tag : ℕ) → result ≡ is_some (reply_of tag self.now) }
    {
        match self.phase {
            Phase::Queued | Phase::Begun(_) => false,
            Phase::Sent(TaskAnswer::WithStatus(_)) | Phase::Gone => {
                matches!(self.submitted, Submitted::Command(_))
            }
            Phase::Sent(TaskAnswer::WithResponse(_)) => {
                matches!(self.submitted, Submitted::Management { .. })
            }
        }
    }

    /// The tickets of the commands that it ends, where it is a task management that the device hasn't received.
    pub fn ended_next(&self) -> Option<ArrayVec<u64, TASK_SLOT>>
        ensures { result ≡ ended_next self.now }
    {
        match (&self.phase, &self.submitted) {
            (Phase::Queued, Submitted::Management { task, noted }) => Some(ended_by(task, noted)),
            _ => None,
        }
    }

    /// Whether the device has one of these tasks that it noted, as a task management.
    pub fn finds(&self, tasks: &[Option<TaggedTask>]) -> bool
        ensures { result ≡ finds self.now.request tasks.now }
    {
        match &self.submitted {
            Submitted::Command(_) => false,
            Submitted::Management { noted, .. } => {
                tasks.iter().any(|held| is_under_way(noted, held))
            }
        }
    }

    /// A task management that ends these tickets is carried: a command of one of them is gone, where its answer wasn't handed
    /// over yet.
    pub fn heed(&mut self, noted: &[u64])
        ensures { self.new ≡ after_notes noted.now self.old }
    {
        if self.can_be_ended() && is_noted(noted, self.ticket) {
            self.phase = Phase::Gone;
        }
    }

    /// Whether the device has begun it and not handed over its answer.
    fn is_begun(&self) -> bool
        ensures { result ≡ is_begun self.now.phase }
    {
        matches!(self.phase, Phase::Begun(_))
    }

    /// Whether it is a command whose answer wasn't handed over.
    fn can_be_ended(&self) -> bool
        ensures { result ≡ can_be_ended self.now }
    {
        let Submitted::Command(_) = self.submitted else {
            return false;
        };
        matches!(self.phase, Phase::Queued | Phase::Begun(_))
    }
}

fn is_noted(noted: &[u64], ticket: u64) -> bool
    ensures { result ≡ is_noted noted.now ticket }
{
    noted.iter().any(|other| *other == ticket)
}

/// Whether what is held is a task of one of these tickets that the device has.
fn is_under_way(noted: &[u64], held: &Option<TaggedTask>) -> bool
    ensures { result ≡ option_map_or (is_under_way noted.now) held.now false }
{
    match held {
        Some(task) => task.is_begun() && is_noted(noted, task.ticket),
        None => false,
    }
}

/// Of the tickets that a task management noted those of the commands that it ends.
fn ended_by(task: &Task, noted: &ArrayVec<u64, TASK_SLOT>) -> ArrayVec<u64, TASK_SLOT>
    ensures { result ≡ ended_by task.now noted.now }
{
    let mut ended = ArrayVec::new();
    if task.ends_commands() {
        ended.try_extend_from_slice(noted).unwrap();
    }
    ended
}

/// The reply of a task that is done with, under this tag: its answer was sent, or a task management ended it.
pub fn reply(tag: u16, task: TaggedTask) -> Option<Reply>
    ensures { result ≡ reply_of tag task }
{
    let TaggedTask {
        ticket,
        submitted,
        phase,
    } = task;
    match phase {
        Phase::Queued | Phase::Begun(_) => None,
        Phase::Sent(answer) => answered(tag, ticket, submitted, &answer),
        Phase::Gone => ended(tag, ticket, submitted),
    }
}

/// The reply of a task whose answer was sent: a command's status and sense with its buffer, or the response code of a task
/// management. A response is none to a command, and a status none to a task management.
fn answered(tag: u16, ticket: u64, submitted: Submitted, answer: &TaskAnswer) -> Option<Reply>
    ensures { result ≡ answered_by tag ticket (buffer_in submitted) answer.now (request_in submitted) }
{
    match (submitted, answer) {
        (Submitted::Command(Command { buffer, .. }), TaskAnswer::WithStatus(answer)) => {
            let (status, sense) = status_and_sense(answer);
            Some(Reply::Status {
                tag,
                ticket,
                status,
                sense,
                buffer,
            })
        }
        (Submitted::Management { .. }, TaskAnswer::WithResponse(code)) => Some(Reply::Task {
            tag,
            ticket,
            code: code.number(),
        }),
        _ => None,
    }
}

/// The reply of a command that a task management ended; none ends a task management.
fn ended(tag: u16, ticket: u64, submitted: Submitted) -> Option<Reply>
    ensures { result ≡ aborted_by tag ticket (buffer_in submitted) (request_in submitted) }
{
    match submitted {
        Submitted::Command(Command { buffer, .. }) => Some(Reply::Aborted {
            tag,
            ticket,
            buffer,
        }),
        Submitted::Management { .. } => None,
    }
}
