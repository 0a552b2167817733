//! The TRB in front that a chunk of data-out fills, and the device that the chunk is handed to.
ghost use Rattle.std.specs.Prelude.{◌≡◌, ◌<◌, length as list_length, true};
ghost use Rattle.guest_pipes.specs.Step.{World, has_place, has_home};
ghost use Rattle.guest_out.specs.DataOut.{out_filled, out_filled_if, out_handed, out_took, out_went};

use guest_memory::GuestMemory;
use guest_memory::rings::{EventRing, Front};
use guest_pipes::Consumer;
use guest_tags::{Buffer, Gather, Phase, UasDevice};

/// Takes the TRB in front where it is full.
pub fn fill<M: GuestMemory, D: UasDevice>(
    memory: &mut M,
    events: &mut EventRing,
    consumer: &mut Consumer,
    taken: &mut Gather,
    device: &mut D,
    front: Front,
    buffer: Buffer,
)
    requires room { has_place (M.contents memory.old) events.old ≡ true }
    requires home { has_home (M.contents memory.old) front.home ≡ true }
    ensures step { record { ring = record { memory = M.contents memory.new; events = events.new; consumer = consumer.new }; taken = taken.new; device = D.state device.new }
        ≡ out_filled D.kind (record { ring = record { memory = M.contents memory.old; events = events.old; consumer = consumer.old }; taken = taken.old; device = D.state device.old }) front buffer }
    ensures same_loan { M.loan memory.new ≡ M.loan memory.old }
{
    let full = buffer.length <= consumer.progress.moved;
    consumer.fill_if(memory, events, full, front, buffer.flags);
}

/// Takes the TRB in front where it is full and the device took its bytes.
pub fn fill_if<M: GuestMemory, D: UasDevice>(
    memory: &mut M,
    events: &mut EventRing,
    consumer: &mut Consumer,
    taken: &mut Gather,
    device: &mut D,
    fits: bool,
    front: Front,
    buffer: Buffer,
)
    requires room { has_place (M.contents memory.old) events.old ≡ true }
    requires home { has_home (M.contents memory.old) front.home ≡ true }
    ensures step { record { ring = record { memory = M.contents memory.new; events = events.new; consumer = consumer.new }; taken = taken.new; device = D.state device.new }
        ≡ out_filled_if D.kind fits (record { ring = record { memory = M.contents memory.old; events = events.old; consumer = consumer.old }; taken = taken.old; device = D.state device.old }) front buffer }
    ensures same_loan { M.loan memory.new ≡ M.loan memory.old }
{
    if fits {
        fill(memory, events, consumer, taken, device, front, buffer);
    }
}

/// Hands the chunk to the device.
#[tactic(auto, unfolding(crate::specs::DataOut::out_handed))]
pub fn hand<D: UasDevice>(taken: &mut Gather, device: &mut D, tag: u16) -> bool
    requires { D.kind.phase (D.state device.old) tag ≡ Phase.Takes (list_length taken.old) }
    ensures step { (ring : World) → record { ring = ring; taken = taken.new; device = D.state device.new }
        ≡ out_handed D.kind (record { ring = ring; taken = taken.old; device = D.state device.old }) tag }
    ensures fits { result ≡ D.kind.fits (D.state device.old) tag taken.old }
{
    let fits = device.take(tag, taken.bytes());
    taken.clear();
    fits
}

/// Hands the chunk to the device, and takes the TRB where that took it.
#[tactic(auto, unfolding(crate::specs::DataOut::out_took))]
pub fn take_chunk<M: GuestMemory, D: UasDevice>(
    memory: &mut M,
    events: &mut EventRing,
    consumer: &mut Consumer,
    taken: &mut Gather,
    device: &mut D,
    tag: u16,
    front: Front,
    buffer: Buffer,
)
    requires room { has_place (M.contents memory.old) events.old ≡ true }
    requires home { has_home (M.contents memory.old) front.home ≡ true }
    requires takes { D.kind.phase (D.state device.old) tag ≡ Phase.Takes (list_length taken.old) }
    ensures step { record { ring = record { memory = M.contents memory.new; events = events.new; consumer = consumer.new }; taken = taken.new; device = D.state device.new }
        ≡ out_took D.kind (record { ring = record { memory = M.contents memory.old; events = events.old; consumer = consumer.old }; taken = taken.old; device = D.state device.old }) tag front buffer }
    ensures same_loan { M.loan memory.new ≡ M.loan memory.old }
{
    let fits = hand(taken, device, tag);
    fill_if(memory, events, consumer, taken, device, fits, front, buffer);
}

/// Hands a chunk that is full to the device.
pub fn go<M: GuestMemory, D: UasDevice>(
    memory: &mut M,
    events: &mut EventRing,
    consumer: &mut Consumer,
    taken: &mut Gather,
    device: &mut D,
    tag: u16,
    count: usize,
    front: Front,
    buffer: Buffer,
)
    requires room { has_place (M.contents memory.old) events.old ≡ true }
    requires home { has_home (M.contents memory.old) front.home ≡ true }
    requires takes { D.kind.phase (D.state device.old) tag ≡ Phase.Takes count }
    ensures step { record { ring = record { memory = M.contents memory.new; events = events.new; consumer = consumer.new }; taken = taken.new; device = D.state device.new }
        ≡ out_went D.kind (record { ring = record { memory = M.contents memory.old; events = events.old; consumer = consumer.old }; taken = taken.old; device = D.state device.old }) tag count front buffer }
    ensures same_loan { M.loan memory.new ≡ M.loan memory.old }
{
    if taken.held() == count {
        take_chunk(memory, events, consumer, taken, device, tag, front, buffer);
    } else {
        fill(memory, events, consumer, taken, device, front, buffer);
    }
}
