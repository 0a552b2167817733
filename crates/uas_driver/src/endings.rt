//! Commands that the driver ends itself: which TDs are to be taken off, and what clients are told.
ghost use Rattle.std.specs.Prelude.{◌≡◌, ◌<◌, ◌≤◌, IfSome, is_some, length, true};
ghost use Rattle.uas_profile.specs.Pipes.{HasStreams};
ghost use Rattle.uas_profile.specs.declared.TheConstants.{STREAMS};
ghost use Rattle.uas_driver.specs.Endings.{answer_by, answer_given, answer_told, due_tag, end_of, ended_answer, ended_task, has_td, is_due, is_front_command};
ghost use Rattle.uas_driver.specs.Endings.{names_command, stand_in, stands_on, tag_of_reply, with_end, without_end};

use crate::room::has_stream;
use crate::states::End;
use crate::{Answer, Cause, Driver};
use arrayvec::ArrayVec;
use scsi_cmd::{Buffer, Reply};
use stream_array::{Lines, Pipe};
use uas_host::Host;
use uas_iu::{Iu, write};
use uas_profile::{
    BUFFER_SPAN, COMMAND_BUFFERS, STATUS_BYTES, STREAM_ENTRIES, STREAM_RING_PLACES, STREAMS,
    slot_of, task_slot,
};
use xhci_trb::Trb;

/// The response code FUNCTION FAILED.
const FUNCTION_FAILED: u8 = 5;

/// Whether a TRB names the command buffer of a tag.
fn names_command(tag: u16, trb: &Trb) -> bool
    ensures { result ≡ names_command tag trb.now }
{
    match *trb {
        Trb::Normal { pointer, .. } => pointer == COMMAND_BUFFERS + BUFFER_SPAN * u64::from(tag),
        _ => false,
    }
}

/// Whether the pending TRB at the front of the command pipe is of a tag.
fn is_front_command(lines: &Lines, tag: u16) -> bool
    ensures { result ≡ is_front_command lines.now tag }
{
    match lines.front(Pipe::Command, 0) {
        Some((_, trb)) => names_command(tag, &trb),
        None => false,
    }
}

/// Whether a TD of a tag stands on its ring of a pipe with streams.
fn has_td(host: &Host, lines: &Lines, pipe: Pipe, tag: u16) -> bool
    requires streams { HasStreams pipe }
    requires first_tag { 1 ≤ tag }
    requires last_tag { tag ≤ STREAMS }
    ensures { result ≡ has_td host.now lines.now pipe tag }
{
    lines.front_raw(pipe, tag).is_some()
        || (lines.room(pipe, tag) != STREAM_RING_PLACES - 2 && !host.is_left_over(pipe, tag))
}

/// Whether a TD of a tag is to be taken off a pipe.
fn stands_on(host: &Host, lines: &Lines, pipe: Pipe, tag: u16) -> bool
    requires first_tag { 1 ≤ tag }
    requires last_tag { tag ≤ STREAMS }
    ensures { result ≡ stands_on host.now lines.now pipe tag }
{
    match pipe {
        Pipe::Command => is_front_command(lines, tag),
        Pipe::Status => has_td(host, lines, Pipe::Status, tag),
        Pipe::DataIn => has_td(host, lines, Pipe::DataIn, tag),
        Pipe::DataOut => has_td(host, lines, Pipe::DataOut, tag),
    }
}

/// The answer that stands in for the device's, where clients have so many tags.
pub(crate) fn stand_in(tags: usize, tag: u16) -> ArrayVec<u8, STATUS_BYTES>
    requires tags { 0 < tags }
    requires tag { 1 ≤ tag }
    ensures { result.items ≡ stand_in tags tag }
{
    let mut unit = ArrayVec::new();
    if slot_of(tags, tag) == task_slot(tags) {
        write(
            &Iu::Response {
                tag,
                code: FUNCTION_FAILED,
            },
            &mut unit,
        );
    } else {
        write(
            &Iu::Sense {
                tag,
                status: 0,
                sense: ArrayVec::new(),
            },
            &mut unit,
        );
    }
    unit
}

/// The answer of a command whose status the driver told itself.
fn ended_answer(moved: u32, tag: u16, ticket: u64, buffer: Buffer, cause: Cause) -> Answer
    ensures { result ≡ ended_answer moved tag ticket buffer cause }
{
    match cause {
        Cause::Failed(code) => Answer::Failed {
            tag,
            ticket,
            code,
            buffer: Some(buffer),
            moved,
        },
        Cause::GivenUp => Answer::Aborted {
            tag,
            ticket,
            buffer,
            moved,
        },
    }
}

fn ended_task(tag: u16, ticket: u64, told: u8, cause: Cause) -> Answer
    ensures { result ≡ ended_task tag ticket told cause }
{
    match cause {
        Cause::Failed(code) => Answer::Failed {
            tag,
            ticket,
            code,
            buffer: None,
            moved: 0,
        },
        Cause::GivenUp => Answer::Task {
            tag,
            ticket,
            code: told,
        },
    }
}

fn answer_told(moved: u32, reply: Reply, cause: Cause) -> Answer
    ensures { result ≡ answer_told moved reply cause }
{
    match reply {
        Reply::Status {
            tag,
            ticket,
            buffer,
            ..
        } => ended_answer(moved, tag, ticket, buffer, cause),
        Reply::Aborted {
            tag,
            ticket,
            buffer,
        } => Answer::Aborted {
            tag,
            ticket,
            buffer,
            moved,
        },
        Reply::Task { tag, ticket, code } => ended_task(tag, ticket, code, cause),
    }
}

fn answer_given(moved: u32, reply: Reply) -> Answer
    ensures { result ≡ answer_given moved reply }
{
    match reply {
        Reply::Status {
            tag,
            ticket,
            status,
            sense,
            buffer,
        } => Answer::Status {
            tag,
            ticket,
            status,
            sense,
            buffer,
            moved,
        },
        Reply::Aborted {
            tag,
            ticket,
            buffer,
        } => Answer::Aborted {
            tag,
            ticket,
            buffer,
            moved,
        },
        Reply::Task { tag, ticket, code } => Answer::Task { tag, ticket, code },
    }
}

/// What a client is told, by the host's reply.
pub(crate) fn answer_by(moved: u32, end: Option<End>, reply: Reply) -> Answer
    ensures { result ≡ answer_by moved end reply }
{
    match end {
        Some(end) if end.told => answer_told(moved, reply, end.cause),
        _ => answer_given(moved, reply),
    }
}

pub(crate) fn tag_of_reply(reply: &Reply) -> u16
    ensures { result ≡ tag_of_reply reply.now }
{
    match reply {
        Reply::Status { tag, .. } | Reply::Aborted { tag, .. } | Reply::Task { tag, .. } => *tag,
    }
}

/// Why the command of a tag is ended, where it is.
pub(crate) fn end_of(ends: &[Option<End>; STREAM_ENTRIES], tag: u16) -> Option<End>
    ensures { result ≡ end_of ends.now tag }
{
    if (tag as usize) < STREAM_ENTRIES {
        ends[tag as usize]
    } else {
        None
    }
}

impl Driver {
    /// The command of a tag is to be ended.
    pub(crate) fn end(&mut self, tag: u16, cause: Cause)
        ensures { self.new ≡ with_end self.old tag cause }
    {
        if has_stream(tag) && end_of(&self.ends, tag).is_none() {
            self.ends[tag as usize] = Some(End { cause, told: false });
            self.ending = self.ending.saturating_add(1);
        }
    }

    /// The tag of a reply that was taken is free.
    pub(crate) fn forget_end(&mut self, tag: u16)
        ensures { self.new ≡ without_end self.old tag }
    {
        if end_of(&self.ends, tag).is_some() {
            self.ends[tag as usize] = None;
            self.ending = self.ending.saturating_sub(1);
        }
    }

    /// Whether the command of a tag is ended and its TD is to be taken off a pipe.
    fn is_due(&self, pipe: Pipe, tag: u16) -> bool
        requires first_tag { 1 ≤ tag }
        requires last_tag { tag ≤ STREAMS }
        ensures due { result ≡ is_due self.now pipe tag }
        ensures known { result ≡ true → (1 ≤ tag) × (tag ≤ STREAMS) }
    {
        end_of(&self.ends, tag).is_some() && stands_on(&self.host, &self.lines, pipe, tag)
    }

    /// The least tag whose command is ended and whose TD is to be taken off a pipe.
    pub(crate) fn due_tag(&self, pipe: Pipe) -> Option<u16>
        ensures due { result ≡ due_tag self.now pipe }
        ensures known { IfSome result (λ tag. (1 ≤ tag) × (tag ≤ STREAMS)) }
    {
        if self.ending == 0 {
            return None;
        }
        for tag in 1..STREAMS + 1 {
            if self.is_due(pipe, tag) {
                return Some(tag);
            }
        }
        None
    }
}
