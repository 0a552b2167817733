//! What a step wrote, read where it stands: on the rings, in the buffers and in the contexts.
//!
//! Before a step it is noted where the rings end that it may put TRBs on, and which TRBs are in front of the rings that it may
//! take from. After it, the places between are read, and the TRB that is gone from the front names the chunk that was moved.

ghost use Rattle.std.specs.Prelude.{◌≡◌, ◌≢◌, ◌<◌, ◌≤◌, ◌++◌, IfSome, OnOk, Some};
ghost use Rattle.frame_store.specs.Buffers.{IsWhole};
ghost use Rattle.frame_store.specs.Places.{room_of};
ghost use Rattle.stream_array.specs.Contexts.{has_stream};
ghost use Rattle.uas_profile.specs.Pipes.{HasStreams};
ghost use Rattle.uas_trace.specs.Written.{chunk_lines, ends_of, is_at, moved_line, moved_on, own_lines, posted_at, seen_before};
ghost use Rattle.uas_trace.specs.Written.{seen_writes, taken_line, task_tag, tds_lines, unit_line, with_writes};
ghost use Rattle.stream_array.specs.Rings.{IsLines};
ghost use Rattle.uas_profile.specs.Tags.{AreTags, most_clients};
ghost use Rattle.xhci_ctl.specs.Doorbells.{pipe_at};

use crate::events::{event_at, newest_event, push_event, status_len};
use crate::lines::{push_bells, push_bytes, push_chunk, push_context};
use crate::put_ring::PutRing;
use bus_core::{Outcome, Step};
use frame_store::{Buffer, Frames, Place};
use std::alloc::AllocError;
use stream_array::{Lines, Pipe};
use uas_iu::TASK_BYTES;
use uas_profile::{
    COMMAND_BYTES, DATA_IN_ENDPOINT, DATA_OUT_ENDPOINT, STATUS_ENDPOINT, STREAMS, most_clients,
    tag_of, task_slot,
};
use xhci_trb::Trb;

/// What a step may write, but for its event.
#[derive(Clone, Copy)]
pub enum Writes {
    /// The unit of a command, and its TDs from these ends of the rings on.
    CommandUnit {
        tag: u16,
        ends: Ends,
    },
    /// The unit of a task management, and its TDs from these ends of the rings on.
    TaskUnit {
        tag: u16,
        ends: Ends,
    },
    /// A chunk, by one of the TRBs in front of the tag's rings data-in and data-out.
    Chunk {
        tag: u16,
        data_in: Option<(u64, Trb)>,
        data_out: Option<(u64, Trb)>,
    },
    /// The unit of a status.
    StatusUnit {
        tag: u16,
    },
    /// Commands to the controller, from this place of its command ring on.
    EngineCommand {
        from: usize,
    },
    /// A stream context, by this command to the controller.
    Context {
        command: Option<(u64, Trb)>,
    },
    /// Nothing.
    Nothing,
}

/// The place of the next TRB on each ring of a tag, and on the command pipe's.
#[derive(Clone, Copy)]
pub struct Ends {
    data_in: usize,
    data_out: usize,
    status: usize,
    command: usize,
}

/// What was seen of the rings before a step.
#[derive(Clone, Copy)]
pub struct Before {
    writes: Writes,
    events: usize,
}

impl Before {
    /// What is seen of the rings before a step, where each client has so many tags.
    pub fn of(tags: usize, lines: &Lines, step: &Step) -> Before
        requires { AreTags tags }
        ensures { result ≡ seen_before tags lines.now step.now }
    {
        let events = lines.len();
        Before {
            writes: Writes::seen(tags, lines, step),
            events,
        }
    }

    /// The place of the event that the step posted, if it posted one. It is looked for from a place on.
    pub fn posted(&self, lines: &Lines, from: usize) -> Option<usize>
        ensures posted { result ≡ posted_at self.now lines.now }
        ensures lines { IsLines lines.now }
    {
        if self.events < lines.len() {
            Some(newest_event(lines, from))
        } else {
            None
        }
    }

    /// Adds the lines of what the step wrote. The event that it posted, if any, stands at this place.
    pub fn push_writes(
        &self,
        text: &mut Vec<u8>,
        lines: &Lines,
        frames: &Frames,
        posted: Option<usize>,
        outcome: &Outcome,
    ) -> Result<(), AllocError>
        requires posted { posted ≡ posted_at self.now lines.now }
        requires lines { IsLines lines.now }
        requires frames { IsWhole frames.now }
        ensures { OnOk result (text.new.items ≡ with_writes text.old.items self.now lines.now frames.now outcome.now) }
    {
        let event = match posted {
            Some(place) => event_at(lines, place),
            None => None,
        };
        if outcome.refused.is_none() {
            self.writes.push(text, lines, frames, &event)?;
        }
        push_event(text, posted, &event)?;
        push_bells(text, &outcome.doors.list())
    }
}

impl Writes {
    /// What a step may write on these rings.
    fn seen(tags: usize, lines: &Lines, step: &Step) -> Writes
        requires number { AreTags tags }
        requires lines { IsLines lines.now }
        ensures { result ≡ seen_writes tags lines.now step.now }
    {
        match step {
            Step::Submit { tag, .. } if is_stream(*tag) => Writes::CommandUnit {
                tag: *tag,
                ends: Ends::of(lines, *tag),
            },
            Step::Task { client, .. } if *client < most_clients(tags) => {
                let tag = task_tag(tags, *client);
                Writes::TaskUnit {
                    tag,
                    ends: Ends::of(lines, tag),
                }
            }
            Step::Data(tag) if is_stream(*tag) => Writes::Chunk {
                tag: *tag,
                data_in: lines.front(Pipe::DataIn, *tag),
                data_out: lines.front(Pipe::DataOut, *tag),
            },
            Step::Status(tag) if is_stream(*tag) => Writes::StatusUnit { tag: *tag },
            Step::Event | Step::Retire(..) => Writes::EngineCommand {
                from: PutRing::Engine.end(lines),
            },
            Step::Engine => Writes::Context {
                command: lines.front_engine(),
            },
            _ => Writes::Nothing,
        }
    }

    /// Adds their lines. The length of a status unit is told by its event.
    fn push(
        &self,
        text: &mut Vec<u8>,
        lines: &Lines,
        frames: &Frames,
        event: &Option<[u8; 16]>,
    ) -> Result<(), AllocError>
        requires lines { IsLines lines.now }
        requires frames { IsWhole frames.now }
        ensures { OnOk result (text.new.items ≡ text.old.items ++ own_lines lines.now frames.now self.now event.now) }
    {
        match *self {
            Writes::CommandUnit { tag, ends } if is_stream(tag) => {
                push_unit(text, frames, tag, Buffer::Command, COMMAND_BYTES)?;
                ends.push_tds(text, lines, tag)
            }
            Writes::TaskUnit { tag, ends } if is_stream(tag) => {
                push_unit(text, frames, tag, Buffer::Command, TASK_BYTES)?;
                ends.push_tds(text, lines, tag)
            }
            Writes::Chunk {
                tag,
                data_in,
                data_out,
            } if is_stream(tag) => push_chunks(text, lines, tag, data_in, data_out),
            Writes::StatusUnit { tag } if is_stream(tag) => {
                push_unit(text, frames, tag, Buffer::Status, status_len(event))
            }
            Writes::EngineCommand { from } => PutRing::Engine.push_since(text, lines, from),
            Writes::Context { command } => push_moved(text, lines, command),
            _ => Ok(()),
        }
    }
}

impl Ends {
    /// Where the rings of a tag end.
    fn of(lines: &Lines, tag: u16) -> Ends
        requires some { 0 < tag }
        requires most { tag ≤ STREAMS }
        requires lines { IsLines lines.now }
        ensures { result ≡ ends_of lines.now tag }
    {
        Ends {
            data_in: PutRing::Stream(Pipe::DataIn, tag).end(lines),
            data_out: PutRing::Stream(Pipe::DataOut, tag).end(lines),
            status: PutRing::Stream(Pipe::Status, tag).end(lines),
            command: PutRing::Stream(Pipe::Command, 0).end(lines),
        }
    }

    /// Adds the lines of the TRBs that were put behind these ends: data, status, command.
    #[tactic(auto, unfolding(crate::specs::Written::tds_lines))]
    fn push_tds(&self, text: &mut Vec<u8>, lines: &Lines, tag: u16) -> Result<(), AllocError>
        requires some { 0 < tag }
        requires most { tag ≤ STREAMS }
        requires lines { IsLines lines.now }
        ensures { OnOk result (text.new.items ≡ text.old.items ++ tds_lines lines.now tag self.now) }
    {
        PutRing::Stream(Pipe::DataIn, tag).push_since(text, lines, self.data_in)?;
        PutRing::Stream(Pipe::DataOut, tag).push_since(text, lines, self.data_out)?;
        PutRing::Stream(Pipe::Status, tag).push_since(text, lines, self.status)?;
        PutRing::Stream(Pipe::Command, 0).push_since(text, lines, self.command)
    }
}

/// Whether the pipes with streams have a ring for a tag.
fn is_stream(tag: u16) -> bool
    ensures { result ≡ has_stream tag }
{
    0 < tag && tag <= STREAMS
}

/// A client's tag for task management, the last of its own.
#[tactic(auto, using(crate::proofs::TaskTags::last_within))]
fn task_tag(tags: usize, client: usize) -> u16
    requires number { AreTags tags }
    requires client { client < most_clients tags }
    ensures tag { result ≡ task_tag tags client }
    ensures some { 0 < result }
    ensures most { result ≤ STREAMS }
{
    let slot = task_slot(tags);
    tag_of(tags, uas_profile::Place { client, slot })
}

/// Adds the line of the stream context that a command to the controller moved, if it is one that does.
fn push_moved(
    text: &mut Vec<u8>,
    lines: &Lines,
    command: Option<(u64, Trb)>,
) -> Result<(), AllocError>
    ensures { OnOk result (text.new.items ≡ text.old.items ++ moved_line lines.now command) }
{
    match command {
        Some(
            (
                _,
                Trb::SetDequeue {
                    stream,
                    endpoint,
                    ..
                },
            ),
        ) => match pipe_of(endpoint) {
            Some(pipe) => push_context_of(text, lines, pipe, stream),
            None => Ok(()),
        },
        _ => Ok(()),
    }
}

/// Adds the line of a stream context as it stands, if the pipe's array has it.
fn push_context_of(
    text: &mut Vec<u8>,
    lines: &Lines,
    pipe: Pipe,
    stream: u16,
) -> Result<(), AllocError>
    requires { HasStreams pipe }
    ensures { OnOk result (text.new.items ≡ text.old.items ++ moved_on lines.now stream (Some pipe)) }
{
    match lines.array(pipe).bytes(stream) {
        Ok(bytes) => push_context(text, pipe, stream, &bytes),
        Err(_) => Ok(()),
    }
}

/// The pipe with streams of an endpoint.
fn pipe_of(endpoint: u8) -> Option<Pipe>
    ensures pipe { result ≡ pipe_at endpoint }
    ensures streams { IfSome result HasStreams }
{
    match endpoint {
        STATUS_ENDPOINT => Some(Pipe::Status),
        DATA_OUT_ENDPOINT => Some(Pipe::DataOut),
        DATA_IN_ENDPOINT => Some(Pipe::DataIn),
        _ => None,
    }
}

/// Adds the line of so many bytes of a tag's buffer.
#[tactic(auto, using(crate::proofs::Units::is_front, crate::proofs::Units::unit_named, crate::proofs::Units::unit_names))]
fn push_unit(
    text: &mut Vec<u8>,
    frames: &Frames,
    tag: u16,
    buffer: Buffer,
    len: usize,
) -> Result<(), AllocError>
    requires some { 0 < tag }
    requires most { tag ≤ STREAMS }
    requires small { buffer ≢ Buffer.Window }
    requires len { len ≤ room_of buffer }
    requires frames { IsWhole frames.now }
    ensures { OnOk result (text.new.items ≡ text.old.items ++ unit_line frames.now tag buffer len) }
{
    let place = Place {
        tag,
        buffer,
        offset: 0,
    };
    let address = place.address();
    push_bytes(text, "unit", address, frames.read(address, len))
}

/// Adds the lines of the chunks that were moved on a tag's rings, by the TRBs that were in front of them.
#[tactic(auto, unfolding(crate::specs::Written::chunk_lines))]
fn push_chunks(
    text: &mut Vec<u8>,
    lines: &Lines,
    tag: u16,
    data_in: Option<(u64, Trb)>,
    data_out: Option<(u64, Trb)>,
) -> Result<(), AllocError>
    requires some { 0 < tag }
    requires most { tag ≤ STREAMS }
    ensures { OnOk result (text.new.items ≡ text.old.items ++ chunk_lines lines.now tag data_in data_out) }
{
    let now_in = lines.front(Pipe::DataIn, tag);
    push_taken(text, "in", data_in, now_in)?;
    let now_out = lines.front(Pipe::DataOut, tag);
    push_taken(text, "out", data_out, now_out)
}

/// Adds the line of the chunk of a TRB that was in front of a ring, where it isn't any more.
fn push_taken(
    text: &mut Vec<u8>,
    name: &str,
    before: Option<(u64, Trb)>,
    after: Option<(u64, Trb)>,
) -> Result<(), AllocError>
    ensures { OnOk result (text.new.items ≡ text.old.items ++ taken_line name.now before after) }
{
    match before {
        Some(
            (
                address,
                Trb::Normal {
                    pointer,
                    length,
                    ..
                },
            ),
        ) if !is_at(address, after) => { push_chunk(text, name, pointer, length) }
        _ => Ok(()),
    }
}

/// Whether the TRB in front of a ring has this address.
fn is_at(address: u64, front: Option<(u64, Trb)>) -> bool
    ensures { result ≡ is_at address front }
{
    match front {
        Some((pointer, _)) => pointer == address,
        None => false,
    }
}
