//! Steps of the data-out pipe for a tag.
ghost use Rattle.std.specs.Prelude.{◌≡◌, ◌+◌, ◌-◌, ◌<◌, ◌≤◌, length as list_length, true, false, Some, None};
ghost use Rattle.std.specs.Result.{result_ok};
ghost use Rattle.guest_pipes.specs.Step.{has_place, has_home};
ghost use Rattle.guest_pipes.specs.Gate.{after};
ghost use Rattle.guest_pipes.specs.Pipe.{home_of};
ghost use Rattle.guest_out.specs.Immediate.{bytes_out};
ghost use Rattle.guest_out.specs.DataOut.{drops_rest, out_acted, out_by, out_drawn, out_dropped, out_dropped_if, out_gathered};
ghost use Rattle.guest_out.specs.DataOut.{out_moved, out_normal, out_ran, out_trb, stepped_out};

use crate::handing::go;
use crate::immediate::{draw, tally};
use guest_memory::rings::{EventRing, Found, Front, PipeTrb};
use guest_memory::{GuestMemory, Outside};
use guest_pipes::{Acted, Consumer, Ending, Pipe};
use guest_tags::{Buffer, End, Gather, Phase, UasDevice};

/// Whether the rest of a TD that was begun or not is dropped after this end.
fn drops_rest(end: End, begun: bool) -> bool
    ensures { result ≡ drops_rest end begun }
{
    match end {
        End::Good => begun,
        End::Check | End::Response => false,
    }
}

/// Gathers so many bytes of the TRB in front, and hands the chunk on where that is full.
#[tactic(auto, unfolding(crate::specs::DataOut::out_gathered))]
fn draw_chunk<M: GuestMemory, D: UasDevice>(
    memory: &mut M,
    events: &mut EventRing,
    consumer: &mut Consumer,
    taken: &mut Gather,
    device: &mut D,
    tag: u16,
    count: usize,
    part: usize,
    front: Front,
    buffer: Buffer,
)
    requires room { has_place (M.contents memory.old) events.old ≡ true }
    requires home { has_home (M.contents memory.old) front.home ≡ true }
    requires takes { D.kind.phase (D.state device.old) tag ≡ Phase.Takes count }
    requires fits { list_length taken.old + part ≤ 4096 }
    requires within { consumer.old.progress.moved + part ≤ buffer.length }
    ensures step { record { ring = record { memory = M.contents memory.new; events = events.new; consumer = consumer.new }; taken = taken.new; device = D.state device.new }
        ≡ out_drawn D.kind (bytes_out (M.contents memory.old) buffer consumer.old.progress.moved part) (record { ring = record { memory = M.contents memory.old; events = events.old; consumer = consumer.old }; taken = taken.old; device = D.state device.old }) tag count front buffer }
    ensures same_loan { M.loan memory.new ≡ M.loan memory.old }
{
    match draw(memory, taken, buffer, consumer.progress.moved, part) {
        Ok(()) => {
            consumer.progress = consumer.progress.count(part as u32);
            go(
                memory, events, consumer, taken, device, tag, count, front, buffer,
            );
        }
        Err(Outside) => consumer.fail(memory, events, front, buffer.length, buffer.flags),
    }
}

/// Moves what the chunk lacks, or what is left of the TRB.
#[tactic(auto, unfolding(crate::specs::DataOut::out_moved))]
fn move_out<M: GuestMemory, D: UasDevice>(
    memory: &mut M,
    events: &mut EventRing,
    consumer: &mut Consumer,
    taken: &mut Gather,
    device: &mut D,
    tag: u16,
    count: usize,
    front: Front,
    buffer: Buffer,
)
    requires room { has_place (M.contents memory.old) events.old ≡ true }
    requires home { has_home (M.contents memory.old) front.home ≡ true }
    requires takes { D.kind.phase (D.state device.old) tag ≡ Phase.Takes count }
    requires chunk { count ≤ 4096 }
    requires left { consumer.old.progress.moved < buffer.length }
    ensures step { record { ring = record { memory = M.contents memory.new; events = events.new; consumer = consumer.new }; taken = taken.new; device = D.state device.new }
        ≡ out_moved D.kind (record { ring = record { memory = M.contents memory.old; events = events.old; consumer = consumer.old }; taken = taken.old; device = D.state device.old }) tag count front buffer }
    ensures same_loan { M.loan memory.new ≡ M.loan memory.old }
{
    let left = (buffer.length - consumer.progress.moved) as usize;
    let part = count.saturating_sub(taken.held()).min(left);
    draw_chunk(
        memory, events, consumer, taken, device, tag, count, part, front, buffer,
    );
}

/// Drops what is left of the TRB in front, as if it had moved.
#[tactic(auto, unfolding(crate::specs::DataOut::out_dropped))]
fn drop_rest<M: GuestMemory, D: UasDevice>(
    memory: &mut M,
    events: &mut EventRing,
    consumer: &mut Consumer,
    taken: &mut Gather,
    device: &mut D,
    front: Front,
    buffer: Buffer,
)
    requires room { has_place (M.contents memory.old) events.old ≡ true }
    requires home { has_home (M.contents memory.old) front.home ≡ true }
    requires left { consumer.old.progress.moved ≤ buffer.length }
    ensures step { record { ring = record { memory = M.contents memory.new; events = events.new; consumer = consumer.new }; taken = taken.new; device = D.state device.new }
        ≡ out_dropped D.kind (record { ring = record { memory = M.contents memory.old; events = events.old; consumer = consumer.old }; taken = taken.old; device = D.state device.old }) front buffer }
    ensures same_loan { M.loan memory.new ≡ M.loan memory.old }
{
    let left = buffer.length - consumer.progress.moved;
    consumer.progress = tally(consumer.progress, left);
    consumer.fill(memory, events, front, buffer.flags);
}

/// Drops it where that is asked for.
fn drop_if<M: GuestMemory, D: UasDevice>(
    memory: &mut M,
    events: &mut EventRing,
    consumer: &mut Consumer,
    taken: &mut Gather,
    device: &mut D,
    drops: bool,
    front: Front,
    buffer: Buffer,
) -> Acted
    requires room { has_place (M.contents memory.old) events.old ≡ true }
    requires home { has_home (M.contents memory.old) front.home ≡ true }
    requires left { consumer.old.progress.moved ≤ buffer.length }
    ensures step { (record { ring = record { memory = M.contents memory.new; events = events.new; consumer = consumer.new }; taken = taken.new; device = D.state device.new }, result)
        ≡ out_dropped_if D.kind drops (record { ring = record { memory = M.contents memory.old; events = events.old; consumer = consumer.old }; taken = taken.old; device = D.state device.old }) front buffer }
    ensures same_loan { M.loan memory.new ≡ M.loan memory.old }
{
    if drops {
        drop_rest(memory, events, consumer, taken, device, front, buffer);
        Acted::Worked
    } else {
        Acted::Waits
    }
}

/// Takes a Normal TRB that isn't full, by what the device does next.
fn move_by<M: GuestMemory, D: UasDevice>(
    memory: &mut M,
    events: &mut EventRing,
    consumer: &mut Consumer,
    taken: &mut Gather,
    device: &mut D,
    tag: u16,
    front: Front,
    buffer: Buffer,
) -> Acted
    requires room { has_place (M.contents memory.old) events.old ≡ true }
    requires home { has_home (M.contents memory.old) front.home ≡ true }
    requires left { consumer.old.progress.moved < buffer.length }
    ensures step { (record { ring = record { memory = M.contents memory.new; events = events.new; consumer = consumer.new }; taken = taken.new; device = D.state device.new }, result)
        ≡ out_by D.kind (D.kind.phase (D.state device.old) tag) (record { ring = record { memory = M.contents memory.old; events = events.old; consumer = consumer.old }; taken = taken.old; device = D.state device.old }) tag front buffer }
    ensures same_loan { M.loan memory.new ≡ M.loan memory.old }
{
    match device.phase(tag) {
        Phase::Absent | Phase::Gives(_) => Acted::Waits,
        Phase::Takes(count) => {
            move_out(
                memory, events, consumer, taken, device, tag, count, front, buffer,
            );
            Acted::Worked
        }
        Phase::Ended(end) => {
            let drops = drops_rest(end, consumer.progress.begun);
            drop_if(
                memory, events, consumer, taken, device, drops, front, buffer,
            )
        }
    }
}

/// Takes a Normal TRB of a TD whose bytes move.
#[tactic(auto, unfolding(crate::specs::DataOut::out_ran))]
fn run<M: GuestMemory, D: UasDevice>(
    memory: &mut M,
    events: &mut EventRing,
    consumer: &mut Consumer,
    taken: &mut Gather,
    device: &mut D,
    tag: u16,
    front: Front,
    buffer: Buffer,
) -> Acted
    requires room { has_place (M.contents memory.old) events.old ≡ true }
    requires home { has_home (M.contents memory.old) front.home ≡ true }
    ensures step { (record { ring = record { memory = M.contents memory.new; events = events.new; consumer = consumer.new }; taken = taken.new; device = D.state device.new }, result)
        ≡ out_ran D.kind (record { ring = record { memory = M.contents memory.old; events = events.old; consumer = consumer.old }; taken = taken.old; device = D.state device.old }) tag front buffer }
    ensures same_loan { M.loan memory.new ≡ M.loan memory.old }
{
    if buffer.length <= consumer.progress.moved {
        consumer.fill(memory, events, front, buffer.flags);
        return Acted::Worked;
    }
    move_by(memory, events, consumer, taken, device, tag, front, buffer)
}

/// Takes a Normal TRB.
fn normal<M: GuestMemory, D: UasDevice>(
    memory: &mut M,
    events: &mut EventRing,
    consumer: &mut Consumer,
    taken: &mut Gather,
    device: &mut D,
    tag: u16,
    front: Front,
    buffer: Buffer,
) -> Acted
    requires room { has_place (M.contents memory.old) events.old ≡ true }
    requires home { has_home (M.contents memory.old) front.home ≡ true }
    ensures step { (record { ring = record { memory = M.contents memory.new; events = events.new; consumer = consumer.new }; taken = taken.new; device = D.state device.new }, result)
        ≡ out_normal D.kind consumer.old.progress.ending (record { ring = record { memory = M.contents memory.old; events = events.old; consumer = consumer.old }; taken = taken.old; device = D.state device.old }) tag front buffer }
    ensures same_loan { M.loan memory.new ≡ M.loan memory.old }
{
    match consumer.progress.ending {
        Ending::Runs => run(memory, events, consumer, taken, device, tag, front, buffer),
        Ending::Told { .. } | Ending::Owed => {
            consumer.skip(memory, events, front, buffer.length, buffer.flags);
            Acted::Worked
        }
    }
}

/// Takes a TRB.
fn take<M: GuestMemory, D: UasDevice>(
    memory: &mut M,
    events: &mut EventRing,
    consumer: &mut Consumer,
    taken: &mut Gather,
    device: &mut D,
    tag: u16,
    front: Front,
    trb: PipeTrb,
) -> Acted
    requires room { has_place (M.contents memory.old) events.old ≡ true }
    requires home { has_home (M.contents memory.old) front.home ≡ true }
    ensures step { (record { ring = record { memory = M.contents memory.new; events = events.new; consumer = consumer.new }; taken = taken.new; device = D.state device.new }, result)
        ≡ out_trb D.kind (record { ring = record { memory = M.contents memory.old; events = events.old; consumer = consumer.old }; taken = taken.old; device = D.state device.old }) tag front trb }
    ensures same_loan { M.loan memory.new ≡ M.loan memory.old }
{
    match trb {
        PipeTrb::Normal {
            pointer,
            length,
            flags,
        } => {
            let buffer = Buffer {
                pointer,
                length,
                flags,
            };
            normal(memory, events, consumer, taken, device, tag, front, buffer)
        }
        PipeTrb::Link { .. }
        | PipeTrb::NoOp { .. }
        | PipeTrb::EventData { .. }
        | PipeTrb::Foreign => {
            consumer.take_other(memory, events, front, trb);
            Acted::Worked
        }
    }
}

/// Does what was found asks for.
fn act<M: GuestMemory, D: UasDevice>(
    memory: &mut M,
    events: &mut EventRing,
    consumer: &mut Consumer,
    taken: &mut Gather,
    device: &mut D,
    tag: u16,
    front: Front,
) -> Acted
    requires room { has_place (M.contents memory.old) events.old ≡ true }
    requires home { has_home (M.contents memory.old) front.home ≡ true }
    ensures step { (record { ring = record { memory = M.contents memory.new; events = events.new; consumer = consumer.new }; taken = taken.new; device = D.state device.new }, result)
        ≡ out_acted D.kind (record { ring = record { memory = M.contents memory.old; events = events.old; consumer = consumer.old }; taken = taken.old; device = D.state device.old }) tag front front.found }
    ensures same_loan { M.loan memory.new ≡ M.loan memory.old }
{
    match front.found {
        Found::WrongKind => {
            consumer.refuse(memory, events, 10);
            Acted::Worked
        }
        Found::NotYet => {
            consumer.rung = false;
            Acted::Emptied
        }
        Found::Item(trb) => take(memory, events, consumer, taken, device, tag, front, trb),
    }
}

/// A step of a consumer of the data-out pipe for a tag: one TRB, or a part of one. Refused where a byte of the event's place, of the
/// stream's context or of the TRB isn't there, and then nothing changes.
pub fn data_out_step<M: GuestMemory, D: UasDevice>(
    memory: &mut M,
    events: &mut EventRing,
    consumer: &mut Consumer,
    taken: &mut Gather,
    device: &mut D,
    tag: u16,
    pipe: &Pipe,
) -> Result<Acted, Outside>
    ensures step { (record { ring = record { memory = M.contents memory.new; events = events.new; consumer = consumer.new }; taken = taken.new; device = D.state device.new }, result_ok result)
        ≡ after (record { ring = record { memory = M.contents memory.old; events = events.old; consumer = consumer.old }; taken = taken.old; device = D.state device.old }) (stepped_out D.kind (record { ring = record { memory = M.contents memory.old; events = events.old; consumer = consumer.old }; taken = taken.old; device = D.state device.old }) tag (home_of pipe.now tag)) }
    ensures same_loan { M.loan memory.new ≡ M.loan memory.old }
{
    match consumer.gate(memory, events)? {
        Some(acted) => Ok(acted),
        None => {
            let front = pipe.front(memory, tag)?;
            Ok(act(memory, events, consumer, taken, device, tag, front))
        }
    }
}
