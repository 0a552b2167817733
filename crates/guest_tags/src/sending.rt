//! The information unit on its way into the TDs of the status pipe.
ghost use Rattle.std.specs.Prelude.{◌≡◌, ℕ, ◌+◌, ◌-◌, ◌<◌, ◌≤◌, ◌^◌, length as list_length, true, false, Some, None};
ghost use Rattle.guest_memory.specs.Bytes.{is_there};
ghost use Rattle.guest_pipes.specs.Step.{World, has_place, has_home};
ghost use Rattle.guest_tags.specs.Devices.{IsEnded};
ghost use Rattle.guest_tags.specs.Status.{answer_taken, has_begun, has_unit, is_out, left_of, overlap_taken, sent_to};
ghost use Rattle.guest_tags.specs.Status.{unit_babbled, unit_full, unit_lost, unit_moved, unit_on, unit_ran, unit_ready, unit_short, unit_some, unit_taken, unit_went};

use crate::buffer::Buffer;
use crate::device::UasDevice;
use crate::tag::Tag;
use guest_memory::GuestMemory;
use guest_memory::rings::{EventRing, Flags, Front};
use guest_pipes::{Acted, Consumer, there};

impl Tag {
    /// Whether the TD in front has bytes of it.
    pub(crate) fn has_begun(&self) -> bool
        ensures { result ≡ has_begun self.now }
    {
        self.unit.sent() != 0
    }

    /// Whether nothing of it is left.
    pub(crate) fn is_out(&self) -> bool
        ensures { result ≡ is_out self.now }
    {
        self.unit.left() == 0
    }

    /// Takes the answer to an overlap.
    #[tactic(auto, unfolding(crate::specs::Status::overlap_taken))]
    pub(crate) fn take_overlap<D: UasDevice>(&mut self, device: &D, tag: u16)
        ensures step { (ring : World) → record { ring = ring; tag = self.new; device = D.state device.now }
            ≡ overlap_taken D.kind (record { ring = ring; tag = self.old; device = D.state device.now }) tag }
    {
        self.unit.set_overlap(tag);
        self.overlaps = self.overlaps.saturating_sub(1);
    }

    /// Takes the answer of the task from the device.
    #[tactic(auto, unfolding(crate::specs::Status::answer_taken))]
    pub(crate) fn take_answer<D: UasDevice>(&mut self, device: &mut D, tag: u16)
        requires ended { IsEnded (D.kind.phase (D.state device.old) tag) }
        ensures step { (ring : World) → record { ring = ring; tag = self.new; device = D.state device.new }
            ≡ answer_taken D.kind (record { ring = ring; tag = self.old; device = D.state device.old }) tag }
    {
        self.unit.set_answer(device, tag);
        device.sent(tag);
    }

    /// Takes the next information unit, where one is due.
    pub(crate) fn take_unit<D: UasDevice>(&mut self, device: &mut D, tag: u16, due: bool)
        requires ended { due ≡ true → IsEnded (D.kind.phase (D.state device.old) tag) }
        ensures step { (ring : World) → record { ring = ring; tag = self.new; device = D.state device.new }
            ≡ unit_taken D.kind (record { ring = ring; tag = self.old; device = D.state device.old }) tag due }
    {
        if self.overlaps != 0 {
            self.take_overlap(device, tag);
        } else if due {
            self.take_answer(device, tag);
        }
    }

    /// The same where none is on its way.
    pub(crate) fn ready_unit<D: UasDevice>(&mut self, device: &mut D, tag: u16, due: bool)
        requires ended { due ≡ true → IsEnded (D.kind.phase (D.state device.old) tag) }
        ensures step { (ring : World) → record { ring = ring; tag = self.new; device = D.state device.new }
            ≡ unit_ready D.kind (record { ring = ring; tag = self.old; device = D.state device.old }) tag due }
    {
        if !self.has_unit() {
            self.take_unit(device, tag, due);
        }
    }

    /// Moves so many bytes of the information unit to an address.
    #[tactic(auto, unfolding(crate::specs::Status::sent_to))]
    pub(crate) fn send_to<M: GuestMemory, D: UasDevice>(
        &mut self,
        memory: &mut M,
        events: &mut EventRing,
        consumer: &mut Consumer,
        device: &mut D,
        to: u64,
        count: usize,
    )
        requires room { has_place (M.contents memory.old) events.old ≡ true }
        requires there { is_there (M.contents memory.old) to count ≡ true }
        requires has { count ≤ list_length (left_of self.old.unit) }
        requires most { count ≤ 65536 }
        requires fits { consumer.old.progress.moved + count < 2 ^ 32 }
        ensures step { record { ring = record { memory = M.contents memory.new; events = events.new; consumer = consumer.new }; tag = self.new; device = D.state device.new }
            ≡ sent_to D.kind (record { ring = record { memory = M.contents memory.old; events = events.old; consumer = consumer.old }; tag = self.old; device = D.state device.old }) to count }
        ensures same_loan { M.loan memory.new ≡ M.loan memory.old }
        ensures there { (at n : ℕ) → is_there (M.contents memory.old) at n ≡ true → is_there (M.contents memory.new) at n ≡ true }
        ensures room { has_place (M.contents memory.new) events.new ≡ true }
    {
        consumer.pour(memory, events, to, self.unit.front(count));
        self.unit.advance(count);
    }

    /// Ends the TD at a TRB whose buffer isn't there.
    #[tactic(auto, unfolding(crate::specs::Status::unit_lost))]
    pub(crate) fn lose_unit<M: GuestMemory, D: UasDevice>(
        &mut self,
        memory: &mut M,
        events: &mut EventRing,
        consumer: &mut Consumer,
        device: &mut D,
        front: Front,
        buffer: Buffer,
    )
        requires room { has_place (M.contents memory.old) events.old ≡ true }
        requires home { has_home (M.contents memory.old) front.home ≡ true }
        ensures step { record { ring = record { memory = M.contents memory.new; events = events.new; consumer = consumer.new }; tag = self.new; device = D.state device.new }
            ≡ unit_lost D.kind (record { ring = record { memory = M.contents memory.old; events = events.old; consumer = consumer.old }; tag = self.old; device = D.state device.old }) front buffer }
        ensures same_loan { M.loan memory.new ≡ M.loan memory.old }
    {
        consumer.fail(memory, events, front, buffer.length, buffer.flags);
        self.unit.rewind();
    }

    /// Ends the TD with the information unit, as a short packet.
    #[tactic(auto, unfolding(crate::specs::Status::unit_short))]
    pub(crate) fn short_unit<M: GuestMemory, D: UasDevice>(
        &mut self,
        memory: &mut M,
        events: &mut EventRing,
        consumer: &mut Consumer,
        device: &mut D,
        front: Front,
        buffer: Buffer,
    )
        requires room { has_place (M.contents memory.old) events.old ≡ true }
        requires home { has_home (M.contents memory.old) front.home ≡ true }
        requires left { consumer.old.progress.moved ≤ buffer.length }
        ensures step { record { ring = record { memory = M.contents memory.new; events = events.new; consumer = consumer.new }; tag = self.new; device = D.state device.new }
            ≡ unit_short D.kind (record { ring = record { memory = M.contents memory.old; events = events.old; consumer = consumer.old }; tag = self.old; device = D.state device.old }) front buffer }
        ensures same_loan { M.loan memory.new ≡ M.loan memory.old }
    {
        let left = buffer.length - consumer.progress.moved;
        consumer.shorten(memory, events, front, left, buffer.flags);
        self.unit.clear();
    }

    /// Ends the TD, which is full, with the information unit.
    #[tactic(auto, unfolding(crate::specs::Status::unit_full))]
    pub(crate) fn full_unit<M: GuestMemory, D: UasDevice>(
        &mut self,
        memory: &mut M,
        events: &mut EventRing,
        consumer: &mut Consumer,
        device: &mut D,
        front: Front,
        flags: Flags,
    )
        requires room { has_place (M.contents memory.old) events.old ≡ true }
        requires home { has_home (M.contents memory.old) front.home ≡ true }
        ensures step { record { ring = record { memory = M.contents memory.new; events = events.new; consumer = consumer.new }; tag = self.new; device = D.state device.new }
            ≡ unit_full D.kind (record { ring = record { memory = M.contents memory.old; events = events.old; consumer = consumer.old }; tag = self.old; device = D.state device.old }) front flags }
        ensures same_loan { M.loan memory.new ≡ M.loan memory.old }
    {
        consumer.fill(memory, events, front, flags);
        self.unit.clear();
    }

    /// Halts the endpoint: the TD is shorter than the information unit.
    #[tactic(auto, unfolding(crate::specs::Status::unit_babbled))]
    pub(crate) fn babble_unit<M: GuestMemory, D: UasDevice>(
        &mut self,
        memory: &mut M,
        events: &mut EventRing,
        consumer: &mut Consumer,
        device: &mut D,
        front: Front,
        flags: Flags,
    )
        requires room { has_place (M.contents memory.old) events.old ≡ true }
        requires home { has_home (M.contents memory.old) front.home ≡ true }
        ensures step { record { ring = record { memory = M.contents memory.new; events = events.new; consumer = consumer.new }; tag = self.new; device = D.state device.new }
            ≡ unit_babbled D.kind (record { ring = record { memory = M.contents memory.old; events = events.old; consumer = consumer.old }; tag = self.old; device = D.state device.old }) front flags }
        ensures same_loan { M.loan memory.new ≡ M.loan memory.old }
    {
        consumer.babble(memory, events, front, flags);
        self.unit.rewind();
    }

    /// Takes a TRB that is full, where nothing of the information unit is left or something is.
    pub(crate) fn on_unit<M: GuestMemory, D: UasDevice>(
        &mut self,
        memory: &mut M,
        events: &mut EventRing,
        consumer: &mut Consumer,
        device: &mut D,
        chain: bool,
        out: bool,
        front: Front,
        flags: Flags,
    )
        requires room { has_place (M.contents memory.old) events.old ≡ true }
        requires home { has_home (M.contents memory.old) front.home ≡ true }
        ensures step { record { ring = record { memory = M.contents memory.new; events = events.new; consumer = consumer.new }; tag = self.new; device = D.state device.new }
            ≡ unit_on D.kind chain out (record { ring = record { memory = M.contents memory.old; events = events.old; consumer = consumer.old }; tag = self.old; device = D.state device.old }) front flags }
        ensures same_loan { M.loan memory.new ≡ M.loan memory.old }
    {
        match (chain, out) {
            (true, _) => consumer.fill(memory, events, front, flags),
            (false, true) => self.full_unit(memory, events, consumer, device, front, flags),
            (false, false) => self.babble_unit(memory, events, consumer, device, front, flags),
        }
    }

    /// Takes a Normal TRB once its bytes have moved.
    pub(crate) fn moved_unit<M: GuestMemory, D: UasDevice>(
        &mut self,
        memory: &mut M,
        events: &mut EventRing,
        consumer: &mut Consumer,
        device: &mut D,
        front: Front,
        buffer: Buffer,
    )
        requires room { has_place (M.contents memory.old) events.old ≡ true }
        requires home { has_home (M.contents memory.old) front.home ≡ true }
        ensures step { record { ring = record { memory = M.contents memory.new; events = events.new; consumer = consumer.new }; tag = self.new; device = D.state device.new }
            ≡ unit_moved D.kind (record { ring = record { memory = M.contents memory.old; events = events.old; consumer = consumer.old }; tag = self.old; device = D.state device.old }) front buffer }
        ensures same_loan { M.loan memory.new ≡ M.loan memory.old }
    {
        if consumer.progress.moved < buffer.length {
            self.short_unit(memory, events, consumer, device, front, buffer);
            return;
        }
        let (chain, out) = (buffer.flags.chain, self.is_out());
        self.on_unit(
            memory,
            events,
            consumer,
            device,
            chain,
            out,
            front,
            buffer.flags,
        );
    }

    /// Moves so many bytes of the information unit into a Normal TRB.
    #[tactic(auto, unfolding(crate::specs::Status::unit_some))]
    pub(crate) fn some_unit<M: GuestMemory, D: UasDevice>(
        &mut self,
        memory: &mut M,
        events: &mut EventRing,
        consumer: &mut Consumer,
        device: &mut D,
        count: usize,
        front: Front,
        buffer: Buffer,
    )
        requires room { has_place (M.contents memory.old) events.old ≡ true }
        requires home { has_home (M.contents memory.old) front.home ≡ true }
        requires some { 1 ≤ count }
        requires has { count ≤ list_length (left_of self.old.unit) }
        requires most { count ≤ 65536 }
        requires fits { consumer.old.progress.moved + count < 2 ^ 32 }
        ensures step { record { ring = record { memory = M.contents memory.new; events = events.new; consumer = consumer.new }; tag = self.new; device = D.state device.new }
            ≡ unit_some D.kind (record { ring = record { memory = M.contents memory.old; events = events.old; consumer = consumer.old }; tag = self.old; device = D.state device.old }) count front buffer }
        ensures same_loan { M.loan memory.new ≡ M.loan memory.old }
    {
        match there(memory, buffer.pointer, consumer.progress.moved, count) {
            Some(to) => {
                self.send_to(memory, events, consumer, device, to, count);
                self.moved_unit(memory, events, consumer, device, front, buffer);
            }
            None => self.lose_unit(memory, events, consumer, device, front, buffer),
        }
    }

    /// Moves what there is of the information unit into a Normal TRB.
    #[tactic(auto, unfolding(crate::specs::Status::unit_went))]
    pub(crate) fn go_unit<M: GuestMemory, D: UasDevice>(
        &mut self,
        memory: &mut M,
        events: &mut EventRing,
        consumer: &mut Consumer,
        device: &mut D,
        front: Front,
        buffer: Buffer,
    )
        requires room { has_place (M.contents memory.old) events.old ≡ true }
        requires home { has_home (M.contents memory.old) front.home ≡ true }
        ensures step { record { ring = record { memory = M.contents memory.new; events = events.new; consumer = consumer.new }; tag = self.new; device = D.state device.new }
            ≡ unit_went D.kind (record { ring = record { memory = M.contents memory.old; events = events.old; consumer = consumer.old }; tag = self.old; device = D.state device.old }) front buffer }
        ensures same_loan { M.loan memory.new ≡ M.loan memory.old }
    {
        let room = buffer.length.saturating_sub(consumer.progress.moved);
        let count = self.unit.left().min(room as usize);
        if count == 0 {
            self.moved_unit(memory, events, consumer, device, front, buffer);
        } else {
            self.some_unit(memory, events, consumer, device, count, front, buffer);
        }
    }

    /// Takes a Normal TRB once the next information unit is ready, or where none is due.
    #[tactic(auto, unfolding(crate::specs::Status::unit_ran))]
    pub(crate) fn run_unit<M: GuestMemory, D: UasDevice>(
        &mut self,
        memory: &mut M,
        events: &mut EventRing,
        consumer: &mut Consumer,
        device: &mut D,
        front: Front,
        buffer: Buffer,
    ) -> Acted
        requires room { has_place (M.contents memory.old) events.old ≡ true }
        requires home { has_home (M.contents memory.old) front.home ≡ true }
        ensures step { (record { ring = record { memory = M.contents memory.new; events = events.new; consumer = consumer.new }; tag = self.new; device = D.state device.new }, result)
            ≡ unit_ran D.kind (record { ring = record { memory = M.contents memory.old; events = events.old; consumer = consumer.old }; tag = self.old; device = D.state device.old }) front buffer }
        ensures same_loan { M.loan memory.new ≡ M.loan memory.old }
    {
        if self.has_unit() {
            self.go_unit(memory, events, consumer, device, front, buffer);
            return Acted::Worked;
        }
        if buffer.length <= consumer.progress.moved {
            consumer.fill(memory, events, front, buffer.flags);
            return Acted::Worked;
        }
        Acted::Waits
    }
}
