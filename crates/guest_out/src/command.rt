//! Steps of the command pipe.
ghost use Rattle.std.specs.Prelude.{◌≡◌, ℕ, ◌+◌, ◌-◌, ◌<◌, ◌≤◌, ◌^◌, ◌++◌, length as list_length, true, false, Option, Some, None, IfOk};
ghost use Rattle.std.specs.Result.{result_ok};
ghost use Rattle.guest_pipes.specs.Step.{World, has_place, has_home};
ghost use Rattle.guest_tags.specs.Devices.{Kind};
ghost use Rattle.guest_out.specs.Immediate.{bytes_out, tallied};
ghost use Rattle.guest_out.specs.Worlds.{OutWorld};
ghost use Rattle.guest_out.specs.Command.{command_acted, command_after, command_drawn, command_gathered, command_last, command_lost, command_normal, command_ran, command_trb};
ghost use Rattle.guest_out.specs.Command.{received_if, stepped_command, unit_received};

use crate::immediate::{draw, tally};
use guest_memory::rings::{EventRing, Flags, Found, Front, Home, PipeTrb, look};
use guest_memory::{GuestMemory, Outside};
use guest_pipes::{Acted, Consumer, Ending};
use guest_tags::{Buffer, Gather, Received, UasDevice};

/// How many bytes of a TD are gathered at most.
pub(crate) const MOST_GATHERED: usize = 1024;

const _: () = prove!(MOST_GATHERED == 1024);

/// The device receives what was gathered.
#[tactic(auto, unfolding(crate::specs::Command::unit_received))]
fn receive<D: UasDevice>(taken: &mut Gather, device: &mut D) -> Received
    ensures step { (ring : World) → (record { ring = ring; taken = taken.new; device = D.state device.new }, result)
        ≡ unit_received D.kind (record { ring = ring; taken = taken.old; device = D.state device.old }) }
{
    let received = device.receive(taken.bytes());
    taken.clear();
    received
}

/// The device receives what was gathered, where the TD ends.
fn receive_if<D: UasDevice>(last: bool, taken: &mut Gather, device: &mut D) -> Received
    ensures step { (ring : World) → (record { ring = ring; taken = taken.new; device = D.state device.new }, result)
        ≡ received_if D.kind last (record { ring = ring; taken = taken.old; device = D.state device.old }) }
{
    if last {
        receive(taken, device)
    } else {
        Received::Dropped
    }
}

/// Ends the TD at a TRB whose buffer isn't there.
#[tactic(auto, unfolding(crate::specs::Command::command_lost))]
fn lose<M: GuestMemory, D: UasDevice>(
    memory: &mut M,
    events: &mut EventRing,
    consumer: &mut Consumer,
    taken: &mut Gather,
    device: &mut D,
    front: Front,
    buffer: Buffer,
)
    requires room { has_place (M.contents memory.old) events.old ≡ true }
    requires home { has_home (M.contents memory.old) front.home ≡ true }
    ensures step { record { ring = record { memory = M.contents memory.new; events = events.new; consumer = consumer.new }; taken = taken.new; device = D.state device.new }
        ≡ command_lost D.kind (record { ring = record { memory = M.contents memory.old; events = events.old; consumer = consumer.old }; taken = taken.old; device = D.state device.old }) front buffer }
    ensures same_loan { M.loan memory.new ≡ M.loan memory.old }
{
    consumer.fail(memory, events, front, buffer.length, buffer.flags);
    taken.clear();
}

/// Gathers so many bytes of a Normal TRB, and takes it.
#[tactic(auto, unfolding(crate::specs::Command::command_gathered))]
fn gather<M: GuestMemory, D: UasDevice>(
    memory: &mut M,
    events: &mut EventRing,
    consumer: &mut Consumer,
    taken: &mut Gather,
    device: &mut D,
    count: usize,
    front: Front,
    buffer: Buffer,
) -> Received
    requires room { has_place (M.contents memory.old) events.old ≡ true }
    requires home { has_home (M.contents memory.old) front.home ≡ true }
    requires fits { list_length taken.old + count ≤ 4096 }
    requires within { count ≤ buffer.length }
    ensures step { (record { ring = record { memory = M.contents memory.new; events = events.new; consumer = consumer.new }; taken = taken.new; device = D.state device.new }, result)
        ≡ command_drawn D.kind (bytes_out (M.contents memory.old) buffer 0 count) (record { ring = record { memory = M.contents memory.old; events = events.old; consumer = consumer.old }; taken = taken.old; device = D.state device.old }) front buffer }
    ensures same_loan { M.loan memory.new ≡ M.loan memory.old }
{
    match draw(memory, taken, buffer, 0, count) {
        Ok(()) => {
            consumer.progress = tally(consumer.progress, buffer.length);
            consumer.fill(memory, events, front, buffer.flags);
            receive_if(!buffer.flags.chain, taken, device)
        }
        Err(Outside) => {
            lose(memory, events, consumer, taken, device, front, buffer);
            Received::Dropped
        }
    }
}

/// Takes a Normal TRB of a TD whose bytes move.
#[tactic(auto, unfolding(crate::specs::Command::command_ran))]
fn run<M: GuestMemory, D: UasDevice>(
    memory: &mut M,
    events: &mut EventRing,
    consumer: &mut Consumer,
    taken: &mut Gather,
    device: &mut D,
    front: Front,
    buffer: Buffer,
) -> Received
    requires room { has_place (M.contents memory.old) events.old ≡ true }
    requires home { has_home (M.contents memory.old) front.home ≡ true }
    ensures step { (record { ring = record { memory = M.contents memory.new; events = events.new; consumer = consumer.new }; taken = taken.new; device = D.state device.new }, result)
        ≡ command_ran D.kind (record { ring = record { memory = M.contents memory.old; events = events.old; consumer = consumer.old }; taken = taken.old; device = D.state device.old }) front buffer }
    ensures same_loan { M.loan memory.new ≡ M.loan memory.old }
{
    let count = (buffer.length as usize).min(MOST_GATHERED.saturating_sub(taken.held()));
    gather(
        memory, events, consumer, taken, device, count, front, buffer,
    )
}

/// Takes a Normal TRB.
fn normal<M: GuestMemory, D: UasDevice>(
    memory: &mut M,
    events: &mut EventRing,
    consumer: &mut Consumer,
    taken: &mut Gather,
    device: &mut D,
    front: Front,
    buffer: Buffer,
) -> Received
    requires room { has_place (M.contents memory.old) events.old ≡ true }
    requires home { has_home (M.contents memory.old) front.home ≡ true }
    ensures step { (record { ring = record { memory = M.contents memory.new; events = events.new; consumer = consumer.new }; taken = taken.new; device = D.state device.new }, result)
        ≡ command_normal D.kind consumer.old.progress.ending (record { ring = record { memory = M.contents memory.old; events = events.old; consumer = consumer.old }; taken = taken.old; device = D.state device.old }) front buffer }
    ensures same_loan { M.loan memory.new ≡ M.loan memory.old }
{
    match consumer.progress.ending {
        Ending::Runs => run(memory, events, consumer, taken, device, front, buffer),
        Ending::Told { .. } | Ending::Owed => {
            consumer.skip(memory, events, front, buffer.length, buffer.flags);
            Received::Dropped
        }
    }
}

/// Takes a TRB that isn't a Normal one, and may be its TD's last.
fn take_last<M: GuestMemory, D: UasDevice>(
    memory: &mut M,
    events: &mut EventRing,
    consumer: &mut Consumer,
    taken: &mut Gather,
    device: &mut D,
    front: Front,
    trb: PipeTrb,
    flags: Flags,
) -> Received
    requires room { has_place (M.contents memory.old) events.old ≡ true }
    requires home { has_home (M.contents memory.old) front.home ≡ true }
    ensures step { (record { ring = record { memory = M.contents memory.new; events = events.new; consumer = consumer.new }; taken = taken.new; device = D.state device.new }, result)
        ≡ command_last D.kind (record { ring = record { memory = M.contents memory.old; events = events.old; consumer = consumer.old }; taken = taken.old; device = D.state device.old }) front trb flags }
    ensures same_loan { M.loan memory.new ≡ M.loan memory.old }
{
    let last = consumer.progress.ending.runs() && !flags.chain;
    consumer.take_other(memory, events, front, trb);
    receive_if(last, taken, device)
}

/// Takes a TRB.
fn take<M: GuestMemory, D: UasDevice>(
    memory: &mut M,
    events: &mut EventRing,
    consumer: &mut Consumer,
    taken: &mut Gather,
    device: &mut D,
    front: Front,
    trb: PipeTrb,
) -> Received
    requires room { has_place (M.contents memory.old) events.old ≡ true }
    requires home { has_home (M.contents memory.old) front.home ≡ true }
    ensures step { (record { ring = record { memory = M.contents memory.new; events = events.new; consumer = consumer.new }; taken = taken.new; device = D.state device.new }, result)
        ≡ command_trb D.kind (record { ring = record { memory = M.contents memory.old; events = events.old; consumer = consumer.old }; taken = taken.old; device = D.state device.old }) front trb }
    ensures same_loan { M.loan memory.new ≡ M.loan memory.old }
{
    match trb {
        PipeTrb::Normal {
            pointer,
            length,
            flags,
        } => {
            let buffer = Buffer {
                pointer,
                length,
                flags,
            };
            normal(memory, events, consumer, taken, device, front, buffer)
        }
        PipeTrb::NoOp { flags } | PipeTrb::EventData { flags, .. } => {
            take_last(memory, events, consumer, taken, device, front, trb, flags)
        }
        PipeTrb::Link { .. } | PipeTrb::Foreign => {
            consumer.take_other(memory, events, front, trb);
            Received::Dropped
        }
    }
}

/// Does what was found asks for.
fn act<M: GuestMemory, D: UasDevice>(
    memory: &mut M,
    events: &mut EventRing,
    consumer: &mut Consumer,
    taken: &mut Gather,
    device: &mut D,
    front: Front,
) -> (Acted, Received)
    requires room { has_place (M.contents memory.old) events.old ≡ true }
    requires home { has_home (M.contents memory.old) front.home ≡ true }
    ensures step { (record { ring = record { memory = M.contents memory.new; events = events.new; consumer = consumer.new }; taken = taken.new; device = D.state device.new }, result)
        ≡ command_acted D.kind (record { ring = record { memory = M.contents memory.old; events = events.old; consumer = consumer.old }; taken = taken.old; device = D.state device.old }) front front.found }
    ensures same_loan { M.loan memory.new ≡ M.loan memory.old }
{
    match front.found {
        Found::WrongKind => {
            consumer.refuse(memory, events, 10);
            (Acted::Worked, Received::Dropped)
        }
        Found::NotYet => {
            consumer.rung = false;
            (Acted::Emptied, Received::Dropped)
        }
        Found::Item(trb) => (
            Acted::Worked,
            take(memory, events, consumer, taken, device, front, trb),
        ),
    }
}

/// A step of the command pipe: one TRB, and what came of the information unit where its TD ended with it. Refused where a byte of the
/// event's place, of the dequeue pointer or of the TRB isn't there, and then nothing changes.
pub fn command_step<M: GuestMemory, D: UasDevice>(
    memory: &mut M,
    events: &mut EventRing,
    consumer: &mut Consumer,
    taken: &mut Gather,
    device: &mut D,
    home: Home,
) -> Result<(Acted, Received), Outside>
    ensures step { (record { ring = record { memory = M.contents memory.new; events = events.new; consumer = consumer.new }; taken = taken.new; device = D.state device.new }, result_ok result)
        ≡ command_after D.kind (record { ring = record { memory = M.contents memory.old; events = events.old; consumer = consumer.old }; taken = taken.old; device = D.state device.old }) (stepped_command D.kind (record { ring = record { memory = M.contents memory.old; events = events.old; consumer = consumer.old }; taken = taken.old; device = D.state device.old }) home) }
    ensures same_loan { M.loan memory.new ≡ M.loan memory.old }
{
    match consumer.gate(memory, events)? {
        Some(acted) => Ok((acted, Received::Dropped)),
        None => {
            let front = look(memory, home)?;
            Ok(act(memory, events, consumer, taken, device, front))
        }
    }
}
