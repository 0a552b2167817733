//! What a step of data-out or of the command pipe lacks, for a caller who copies in what is asked for.
ghost use Rattle.std.specs.Prelude.{◌≡◌, ◌+◌, ◌<◌, ◌≤◌, ◌^◌, length as list_length};
ghost use Rattle.guest_out.specs.Wanted.{command_part, drawn_part, out_part, taken_next, wanted_command, wanted_out};
ghost use Rattle.guest_tags.specs.Wanted.{moving};

use crate::command::MOST_GATHERED;
use crate::immediate::is_immediate;
use guest_memory::rings::{EventRing, Front, Home, Range, look, look_wants, part_wants};
use guest_memory::{GuestMemory, Outside};
use guest_pipes::{Consumer, Pipe, place_range};
use guest_tags::{Buffer, Gather, Phase, UasDevice, moving};

/// So many bytes of a buffer behind those that were moved, where a byte of them isn't there; None where they are in the TRB itself.
fn drawn_part<M: GuestMemory>(memory: &M, buffer: Buffer, moved: u32, count: usize) -> Option<Range>
    requires { count ≤ 65536 }
    ensures { result ≡ drawn_part (M.contents memory.now) buffer moved count }
{
    if is_immediate(buffer) {
        return None;
    }
    part_wants(memory, buffer.pointer, moved, count)
}

/// The part of the buffer in front of which the chunk lacks so many bytes, where a byte of it isn't there.
fn out_part<M: GuestMemory>(
    memory: &M,
    consumer: &Consumer,
    lacking: usize,
    front: &Front,
) -> Option<Range>
    requires { lacking ≤ 65536 }
    ensures { result ≡ out_part (M.contents memory.now) consumer.now lacking (moving consumer.now front.now) }
{
    match moving(consumer, front) {
        None => None,
        Some(buffer) => {
            let moved = consumer.progress.moved;
            let left = buffer.length.saturating_sub(moved);
            drawn_part(memory, buffer, moved, lacking.min(left as usize))
        }
    }
}

/// How many bytes the device takes next.
fn taken_next(phase: Phase) -> usize
    ensures { result ≡ taken_next phase }
{
    match phase {
        Phase::Takes(count) => count,
        Phase::Absent | Phase::Gives(_) | Phase::Ended(_) => 0,
    }
}

/// The first range that [`crate::data_out_step`] reads or writes of which a byte isn't there.
pub fn data_out_wants<M: GuestMemory, D: UasDevice>(
    memory: &M,
    events: &EventRing,
    consumer: &Consumer,
    taken: &Gather,
    device: &D,
    tag: u16,
    pipe: &Pipe,
) -> Option<Range>
    ensures { result ≡ wanted_out D.kind (record { ring = record { memory = M.contents memory.now; events = events.now; consumer = consumer.now }; taken = taken.now; device = D.state device.now }) tag pipe.now }
{
    let lacking = taken_next(device.phase(tag)).saturating_sub(taken.held());
    match consumer.gate(memory, events) {
        Err(Outside) => Some(place_range(events)),
        Ok(Some(_)) => None,
        Ok(None) => match pipe.front(memory, tag) {
            Err(Outside) => pipe.front_wants(memory, tag),
            Ok(front) => out_part(memory, consumer, lacking, &front),
        },
    }
}

/// The part of the buffer in front that is gathered of an information unit, where a byte of it isn't there.
fn command_part<M: GuestMemory>(
    memory: &M,
    consumer: &Consumer,
    held: usize,
    front: &Front,
) -> Option<Range>
    ensures { result ≡ command_part (M.contents memory.now) held (moving consumer.now front.now) }
{
    match moving(consumer, front) {
        None => None,
        Some(buffer) => {
            let count = (buffer.length as usize).min(MOST_GATHERED.saturating_sub(held));
            drawn_part(memory, buffer, 0, count)
        }
    }
}

/// The first range that [`crate::command_step`] reads or writes of which a byte isn't there.
pub fn command_wants<M: GuestMemory>(
    memory: &M,
    events: &EventRing,
    consumer: &Consumer,
    taken: &Gather,
    home: Home,
) -> Option<Range>
    ensures { result ≡ wanted_command (record { memory = M.contents memory.now; events = events.now; consumer = consumer.now }) (list_length taken.now) home }
{
    match consumer.gate(memory, events) {
        Err(Outside) => Some(place_range(events)),
        Ok(Some(_)) => None,
        Ok(None) => match look(memory, home) {
            Err(Outside) => look_wants(memory, home),
            Ok(front) => command_part(memory, consumer, taken.held(), &front),
        },
    }
}
