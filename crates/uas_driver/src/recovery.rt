//! Recovery of an endpoint: stopped or reset, its TDs taken off, and its streams rung again.
ghost use Rattle.std.specs.Prelude.{◌≡◌, ◌+◌, ◌++◌, ◌-◌, ◌≤◌, ◌%◌, IsSome, true};
ghost use Rattle.cycle_ring.specs.Items.{known_consumed_at};
ghost use Rattle.xhci_trb.specs.Text.{HasText};
ghost use Rattle.cycle_ring.specs.Ring.{IsCommand};
ghost use Rattle.uas_profile.specs.Pipes.{HasStreams};
ghost use Rattle.uas_profile.specs.declared.TheConstants.{ENGINE_RING_PLACES, STREAMS, STREAM_ENTRIES};
ghost use Rattle.stream_array.specs.Map.{HasRing, has_ring};
ghost use Rattle.uas_host.specs.Retirement.{engine_freed, resumed_doors, stop_trb};
ghost use Rattle.arrayvec.specs.ArrayVec.{array_vec_len};
ghost use Rattle.uas_driver.specs.Recovery.{freed, idle_below, move_to, reset_text, resting_stream, restart_doors, rung, standing, stream_of, td_end, td_passed, with_command};
ghost use Rattle.uas_driver.specs.Recovery.{with_move, with_reset, with_stage};

use crate::rings::{last_address, pass_all, step_over};
use crate::room::has_stream;
use crate::states::{Recovery, Stage};
use arrayvec::ArrayVec;
use cycle_ring::laws::addresses_name_items;
use stream_array::{Lines, Pipe, doorbell};
use uas_profile::{SLOT, STREAM_ENTRIES, STREAMS};
use xhci_trb::Trb;

/// Adds a doorbell, where there is room.
pub(crate) fn ring(doors: &mut ArrayVec<u32, STREAM_ENTRIES>, value: u32)
    ensures { doors.new.items ≡ rung doors.old.items value }
{
    let _ = doors.try_push(value);
}

/// Reset Endpoint of a pipe's endpoint.
fn reset(pipe: Pipe) -> [u8; 16]
    ensures { result ≡ reset_text pipe }
{
    [
        0,
        0,
        0,
        0,
        0,
        0,
        0,
        0,
        0,
        0,
        0,
        0,
        0,
        56,
        pipe.target(),
        SLOT,
    ]
}

/// Stop Endpoint of a pipe's endpoint.
fn stop(pipe: Pipe) -> Trb
    ensures trb { result ≡ stop_trb pipe }
    ensures command { IsCommand result }
    ensures text { HasText result }
{
    Trb::StopEndpoint {
        endpoint: pipe.target(),
        slot: SLOT,
    }
}

/// Where the consumer of a stream's ring stands, by its context.
fn context_end(lines: &Lines, pipe: Pipe, stream: u16) -> (u64, bool)
    requires streams { HasStreams pipe }
    requires ring { HasRing pipe stream }
    ensures end { result ≡ standing lines.now pipe stream }
    ensures aligned { result.0 % 16 ≡ 0 }
{
    lines.room(pipe, stream);
    match lines.array(pipe).dequeue(stream) {
        Ok(end) => end,
        Err(_) => unreachable!(),
    }
}

/// Where the consumer of the command pipe's ring stands.
fn front_end(lines: &Lines) -> (u64, bool)
    ensures end { result ≡ standing lines.now Pipe.Command 0 }
    ensures aligned { result.0 % 16 ≡ 0 }
{
    lines.room(Pipe::Command, 0);
    match lines.front_raw(Pipe::Command, 0) {
        Some(front) => {
            let bytes = front.1;
            (front.0, bytes[12] % 2 == 1)
        }
        None => lines.place(Pipe::Command, 0),
    }
}

/// Where the consumer of a pipe's ring stands, and the Cycle bit there.
fn standing(lines: &Lines, pipe: Pipe, stream: u16) -> (u64, bool)
    requires { HasRing pipe stream }
    ensures end { result ≡ standing lines.now pipe stream }
    ensures aligned { result.0 % 16 ≡ 0 }
{
    match pipe {
        Pipe::Command => front_end(lines),
        Pipe::Status => context_end(lines, Pipe::Status, stream),
        Pipe::DataIn => context_end(lines, Pipe::DataIn, stream),
        Pipe::DataOut => context_end(lines, Pipe::DataOut, stream),
    }
}

/// Set TR Dequeue Pointer to where the consumer of a pipe's ring stands.
fn move_to(lines: &Lines, pipe: Pipe, stream: u16) -> Trb
    requires { HasRing pipe stream }
    ensures trb { result ≡ move_to lines.now pipe stream }
    ensures command { IsCommand result }
    ensures text { HasText result }
{
    let (pointer, cycle) = standing(lines, pipe, stream);
    Trb::SetDequeue {
        pointer,
        cycle,
        stream,
        endpoint: pipe.target(),
        slot: SLOT,
    }
}

/// Puts a command on the controller's command ring, where that has room.
fn put_command(lines: &mut Lines, command: Trb)
    requires command { IsCommand command }
    requires text { HasText command }
    ensures { lines.new ≡ with_command lines.old command }
{
    let _ = lines.push_td_engine(&[command]);
}

/// Puts Reset Endpoint, where there is room.
fn put_reset(lines: &mut Lines, pipe: Pipe)
    ensures { lines.new ≡ with_reset lines.old pipe }
{
    let _ = lines.put_raw_engine(&reset(pipe));
}

/// Frees the commands up to this one, which is consumed.
fn free_known(lines: &mut Lines, pointer: u64)
    requires { IsSome (known_consumed_at ENGINE_RING_PLACES lines.old.engine pointer) }
    ensures { lines.new ≡ engine_freed lines.old pointer }
{
    addresses_name_items();
    lines.reclaim_engine(pointer);
}

/// Frees the commands up to this one, where it is consumed.
pub(crate) fn free(lines: &mut Lines, pointer: u64)
    ensures { lines.new ≡ freed lines.old pointer }
{
    if lines.consumed_engine(pointer).is_some() {
        free_known(lines, pointer);
    }
}

/// Whether a pipe has a ring of this stream.
fn has_ring(pipe: Pipe, stream: u16) -> bool
    ensures has { result ≡ has_ring pipe stream }
    ensures ring { result ≡ true → HasRing pipe stream }
{
    match pipe {
        Pipe::Command => stream == 0,
        Pipe::Status | Pipe::DataIn | Pipe::DataOut => has_stream(stream),
    }
}

/// Puts Set TR Dequeue Pointer to where the consumer of a ring stands.
fn put_move(lines: &mut Lines, pipe: Pipe, stream: u16)
    ensures { lines.new ≡ with_move lines.old pipe stream }
{
    if has_ring(pipe, stream) {
        let command = move_to(lines, pipe, stream);
        put_command(lines, command);
    }
}

/// Puts the command of a recovery's stage.
pub(crate) fn put_stage(lines: &mut Lines, recovery: &Recovery)
    ensures { lines.new ≡ with_stage lines.old recovery.now }
{
    match recovery.stage {
        Stage::Stopping => put_command(lines, stop(recovery.pipe)),
        Stage::Asking => {}
        Stage::Resetting => put_reset(lines, recovery.pipe),
        Stage::Moving => put_move(lines, recovery.pipe, recovery.stream),
    }
}

/// The address of the last TRB of a tag's TD on a pipe.
pub(crate) fn td_end(lines: &Lines, pipe: Pipe, tag: u16) -> u64
    requires first_tag { 1 ≤ tag }
    requires last_tag { tag ≤ STREAMS }
    ensures { result ≡ td_end lines.now pipe tag }
{
    match pipe {
        Pipe::Command => match lines.front(Pipe::Command, 0) {
            Some((pointer, _)) => pointer,
            None => 0,
        },
        Pipe::Status => last_address(lines, Pipe::Status, tag),
        Pipe::DataIn => last_address(lines, Pipe::DataIn, tag),
        Pipe::DataOut => last_address(lines, Pipe::DataOut, tag),
    }
}

/// The stream of a tag on a pipe.
pub(crate) fn stream_of(pipe: Pipe, tag: u16) -> u16
    ensures { result ≡ stream_of pipe tag }
{
    match pipe {
        Pipe::Command => 0,
        Pipe::Status | Pipe::DataIn | Pipe::DataOut => tag,
    }
}

/// The last of so many streams whose ring has nothing pending, or the last one where each has.
#[tactic(auto, unfolding(crate::specs::Recovery::idle_below))]
fn idle_below(lines: &Lines, pipe: Pipe, most: u16) -> u16
    requires streams { HasStreams pipe }
    requires most { most ≤ STREAMS }
    ensures { result ≡ idle_below lines.now pipe most }
{
    let mut stream = most;
    while stream > 0 {
        if lines.front_raw(pipe, stream).is_none() {
            return stream;
        }
        stream -= 1;
    }
    STREAMS
}

/// That of a pipe; the command pipe has one ring.
pub(crate) fn resting_stream(lines: &Lines, pipe: Pipe) -> u16
    ensures { result ≡ resting_stream lines.now pipe }
{
    match pipe {
        Pipe::Command => 0,
        Pipe::Status => idle_below(lines, Pipe::Status, STREAMS),
        Pipe::DataIn => idle_below(lines, Pipe::DataIn, STREAMS),
        Pipe::DataOut => idle_below(lines, Pipe::DataOut, STREAMS),
    }
}

/// Moves the consumer's end of a ring behind the TD of a tag.
pub(crate) fn pass_td(lines: &mut Lines, pipe: Pipe, tag: u16)
    requires first_tag { 1 ≤ tag }
    requires last_tag { tag ≤ STREAMS }
    ensures { lines.new ≡ td_passed lines.old pipe tag }
{
    match pipe {
        Pipe::Command => step_over(lines, Pipe::Command, 0),
        Pipe::Status => pass_all(lines, Pipe::Status, tag),
        Pipe::DataIn => pass_all(lines, Pipe::DataIn, tag),
        Pipe::DataOut => pass_all(lines, Pipe::DataOut, tag),
    }
}

/// Rings every stream of a pipe that has a pending TRB, by rising stream.
fn resume(lines: &mut Lines, doors: &mut ArrayVec<u32, STREAM_ENTRIES>, pipe: Pipe)
    requires streams { HasStreams pipe }
    requires doors { array_vec_len doors.old + STREAMS ≤ STREAM_ENTRIES }
    ensures lines { lines.new ≡ lines.old }
    ensures doors { doors.new.items ≡ doors.old.items ++ resumed_doors lines.old pipe }
{
    let mut from = 1;
    while let Some(stream) = lines.next_pending(pipe, from) {
        doors.push(doorbell(pipe.target(), stream));
        from = stream + 1;
    }
}

/// Rings every stream of a pipe that has a pending TRB, by rising stream; of the command pipe its own doorbell.
pub(crate) fn restart(lines: &mut Lines, doors: &mut ArrayVec<u32, STREAM_ENTRIES>, pipe: Pipe)
    ensures lines { lines.new ≡ lines.old }
    ensures doors { doors.new.items ≡ restart_doors lines.old pipe }
{
    doors.clear();
    match pipe {
        Pipe::Command => {
            if lines.front_raw(Pipe::Command, 0).is_some() {
                doors.push(doorbell(Pipe::Command.target(), 0));
            }
        }
        Pipe::Status => resume(lines, doors, Pipe::Status),
        Pipe::DataIn => resume(lines, doors, Pipe::DataIn),
        Pipe::DataOut => resume(lines, doors, Pipe::DataOut),
    }
}
