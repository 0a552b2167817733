//! The rings as the controller beyond must have left them where it posts an event.
ghost use Rattle.std.specs.Prelude.{◌≡◌, ◌≤◌, Some, IfSome, is_some, option_and_then, slice_get, length};
ghost use Rattle.std.specs.Option.{option_map_or};
ghost use Rattle.uas_profile.specs.declared.TheConstants.{ENGINE_RING_PLACES, STREAMS};
ghost use Rattle.uas_profile.specs.Pipes.{HasStreams};
ghost use Rattle.stream_array.specs.Map.{HasRing, places_of};
ghost use Rattle.cycle_ring.specs.Items.{known_of};
ghost use Rattle.stream_array.specs.Rings.{ring_of, with_engine, with_ring};
ghost use Rattle.uas_driver.specs.Settled.{all_passed, completed, engine_passed, executed, is_pending_at, last_address, moved_at, moved_on};
ghost use Rattle.uas_driver.specs.Settled.{first_pending, first_td, front_tag, pending_place, pipe_at, stepped, stood, td_tag};
ghost use Rattle.uas_host.specs.Events.{command_tag, tag_at_buffer};

use crate::room::has_stream;
use cycle_ring::laws::addresses_name_items;
use stream_array::{Lines, Pipe};
use uas_profile::{
    BUFFER_SPAN, COMMAND_BUFFERS, DATA_IN_ENDPOINT, DATA_OUT_ENDPOINT, PIPE_SPAN, RINGS,
    STATUS_ENDPOINT, STREAM_RING_PLACES, STREAM_SPAN, STREAMS, SUCCESS,
};
use xhci_trb::Trb;

/// Moves a ring's consumer's end to its pending item at an address; false, and nothing changes, where there is none. An item's Cycle bit
/// is one of two, and each is tried.
pub(crate) fn stand(lines: &mut Lines, pipe: Pipe, stream: u16, pointer: u64) -> bool
    requires { HasRing pipe stream }
    ensures stands { result ≡ is_pending_at lines.old pipe stream pointer }
    ensures lines { lines.new ≡ stood lines.old pipe stream pointer }
{
    addresses_name_items();
    lines.room(pipe, stream);
    if lines.set_dequeue(pipe, stream, pointer, false).is_ok() {
        return true;
    }
    lines.set_dequeue(pipe, stream, pointer, true).is_ok()
}

/// Moves a ring's consumer's end behind its first pending item, if there is one.
pub(crate) fn step_over(lines: &mut Lines, pipe: Pipe, stream: u16)
    requires { HasRing pipe stream }
    ensures { lines.new ≡ stepped lines.old pipe stream }
{
    if lines.front_raw(pipe, stream).is_some() {
        lines.advance(pipe, stream);
    }
}

/// Moves a ring's consumer's end behind all pending items.
pub(crate) fn pass_all(lines: &mut Lines, pipe: Pipe, stream: u16)
    requires { HasRing pipe stream }
    ensures { lines.new ≡ all_passed lines.old pipe stream }
{
    let (pointer, cycle) = lines.place(pipe, stream);
    let _ = lines.move_dequeue(pipe, stream, pointer, cycle);
}

/// The address of the last item of a stream's ring.
pub(crate) fn last_address(lines: &Lines, pipe: Pipe, stream: u16) -> u64
    requires { HasRing pipe stream }
    ensures { result ≡ last_address lines.now pipe stream }
{
    let base = RINGS + PIPE_SPAN * u64::from(pipe.number()) + STREAM_SPAN * u64::from(stream);
    let (pointer, _) = lines.place(pipe, stream);
    if pointer == base {
        base + 16 * (STREAM_RING_PLACES as u64 - 2)
    } else {
        pointer.saturating_sub(16)
    }
}

/// The same as `stand` of the controller's command ring.
fn stand_engine(lines: &mut Lines, pointer: u64) -> bool
    ensures stands { result ≡ is_some (pending_place ENGINE_RING_PLACES lines.old.engine pointer) }
    ensures lines { lines.new ≡ option_map_or (λ k. with_engine lines.old (record lines.old.engine { got = k }))
        (pending_place ENGINE_RING_PLACES lines.old.engine pointer) lines.old }
{
    addresses_name_items();
    lines.room_engine();
    if lines.set_dequeue_engine(pointer, false).is_ok() {
        return true;
    }
    lines.set_dequeue_engine(pointer, true).is_ok()
}

/// The pipe with streams whose endpoint a command names.
fn pipe_at(endpoint: u8) -> Option<Pipe>
    ensures pipe { result ≡ pipe_at endpoint }
    ensures streams { IfSome result HasStreams }
{
    match endpoint {
        STATUS_ENDPOINT => Some(Pipe::Status),
        DATA_OUT_ENDPOINT => Some(Pipe::DataOut),
        DATA_IN_ENDPOINT => Some(Pipe::DataIn),
        _ => None,
    }
}

/// Moves a ring's consumer's end to a pending place or the enqueue place, if that is one.
fn move_to(lines: &mut Lines, pipe: Pipe, stream: u16, pointer: u64, cycle: bool)
    requires { HasRing pipe stream }
    ensures { lines.new ≡ option_map_or (with_ring lines.old pipe stream)
        (moved_at (places_of pipe) (ring_of lines.old pipe stream) pointer cycle) lines.old }
{
    addresses_name_items();
    lines.room(pipe, stream);
    let _ = lines.move_dequeue(pipe, stream, pointer, cycle);
}

/// The same, where the stream has a ring.
fn move_on(lines: &mut Lines, stream: u16, pointer: u64, cycle: bool, pipe: Pipe)
    requires { HasStreams pipe }
    ensures { lines.new ≡ moved_on lines.old stream pointer cycle pipe }
{
    if has_stream(stream) {
        move_to(lines, pipe, stream, pointer, cycle);
    }
}

/// The rings once a command succeeded: Set TR Dequeue Pointer (4.6.10) moved a ring's consumer's end.
fn execute(lines: &mut Lines, command: Option<Trb>)
    ensures { lines.new ≡ executed lines.old command }
{
    if let Some(
        Trb::SetDequeue {
            pointer,
            cycle,
            stream,
            endpoint,
            ..
        },
    ) = command
    {
        if let Some(pipe) = pipe_at(endpoint) {
            move_on(lines, stream, pointer, cycle, pipe);
        }
    }
}

/// The rings once a command completion event of this pointer and this code was posted (4.6); false, and nothing changes, where no command
/// is pending there.
pub(crate) fn complete(lines: &mut Lines, pointer: u64, code: u8) -> bool
    ensures pending { result ≡ is_some (pending_place ENGINE_RING_PLACES lines.old.engine pointer) }
    ensures lines { lines.new ≡ completed lines.old pointer code }
{
    if !stand_engine(lines, pointer) {
        return false;
    }
    lines.advance_engine();
    if code == SUCCESS {
        let command = lines.consumed_engine(pointer);
        execute(lines, command);
    }
    true
}

/// The first stream of a pipe that has a pending TRB.
pub(crate) fn first_pending(lines: &mut Lines, pipe: Pipe) -> Option<u16>
    requires { HasStreams pipe }
    ensures lines { lines.new ≡ lines.old }
    ensures first { result ≡ first_pending lines.old pipe }
    ensures known { IfSome result (λ stream. (1 ≤ stream) × (stream ≤ STREAMS)) }
{
    lines.next_pending(pipe, 1)
}

/// The tag at whose command buffer an address is.
fn tag_at(pointer: u64) -> Option<u16>
    ensures { result ≡ tag_at_buffer pointer }
{
    if pointer < COMMAND_BUFFERS {
        return None;
    }
    let offset = pointer - COMMAND_BUFFERS;
    if offset % BUFFER_SPAN != 0 {
        return None;
    }
    let tag = offset / BUFFER_SPAN;
    if 0 < tag && tag <= u64::from(STREAMS) {
        Some(tag as u16)
    } else {
        None
    }
}

/// The tag whose command buffer a TRB of the command pipe names.
fn command_tag(trb: &Trb) -> Option<u16>
    ensures { result ≡ command_tag trb.now }
{
    match *trb {
        Trb::Normal { pointer, .. } => tag_at(pointer),
        _ => None,
    }
}

/// The tag of the TRB at the front of the command pipe.
fn front_tag(lines: &Lines) -> Option<u16>
    ensures { result ≡ front_tag lines.now }
{
    match lines.front(Pipe::Command, 0) {
        Some((_, trb)) => command_tag(&trb),
        None => None,
    }
}

/// The tag of the first TD that is pending on a pipe.
pub(crate) fn first_td(lines: &mut Lines, pipe: Pipe) -> Option<u16>
    ensures lines { lines.new ≡ lines.old }
    ensures tag { result ≡ first_td lines.old pipe }
{
    match pipe {
        Pipe::Command => front_tag(lines),
        Pipe::Status => first_pending(lines, Pipe::Status),
        Pipe::DataIn => first_pending(lines, Pipe::DataIn),
        Pipe::DataOut => first_pending(lines, Pipe::DataOut),
    }
}

/// The tag of the TD of the TRB at which a ring's consumer stands.
pub(crate) fn td_tag(lines: &Lines, pipe: Pipe, stream: u16) -> Option<u16>
    ensures { result ≡ td_tag lines.now pipe stream }
{
    match pipe {
        Pipe::Command => front_tag(lines),
        Pipe::Status | Pipe::DataIn | Pipe::DataOut => Some(stream),
    }
}
