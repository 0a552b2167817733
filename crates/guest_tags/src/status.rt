//! Steps of the status pipe for a tag.
ghost use Rattle.std.specs.Prelude.{◌≡◌, ◌-◌, ◌<◌, true, false, Some, None};
ghost use Rattle.std.specs.Result.{result_ok};
ghost use Rattle.guest_pipes.specs.Step.{has_place, has_home};
ghost use Rattle.guest_pipes.specs.Gate.{after};
ghost use Rattle.guest_pipes.specs.Pipe.{home_of};
ghost use Rattle.guest_tags.specs.Devices.{IsEnded};
ghost use Rattle.guest_tags.specs.Status.{has_begun, has_unit, is_out, status_acted, status_ending, status_normal, status_took};
ghost use Rattle.guest_tags.specs.Status.{stepped_status, unit_over};

use crate::buffer::Buffer;
use crate::device::UasDevice;
use crate::tag::Tag;
use guest_memory::rings::{EventRing, Flags, Found, Front, PipeTrb};
use guest_memory::{GuestMemory, Outside};
use guest_pipes::{Acted, Consumer, Ending, Pipe};

impl Tag {
    /// Whether an information unit is on its way.
    pub fn has_unit(&self) -> bool
        ensures { result ≡ has_unit self.now }
    {
        self.unit.len() != 0
    }

    /// Takes a Normal TRB.
    fn normal_status<M: GuestMemory, D: UasDevice>(
        &mut self,
        memory: &mut M,
        events: &mut EventRing,
        consumer: &mut Consumer,
        device: &mut D,
        tag: u16,
        due: bool,
        front: Front,
        buffer: Buffer,
    ) -> Acted
        requires room { has_place (M.contents memory.old) events.old ≡ true }
        requires home { has_home (M.contents memory.old) front.home ≡ true }
        requires ended { due ≡ true → IsEnded (D.kind.phase (D.state device.old) tag) }
        ensures step { (record { ring = record { memory = M.contents memory.new; events = events.new; consumer = consumer.new }; tag = self.new; device = D.state device.new }, result)
            ≡ status_normal D.kind consumer.old.progress.ending (record { ring = record { memory = M.contents memory.old; events = events.old; consumer = consumer.old }; tag = self.old; device = D.state device.old }) tag due front buffer }
        ensures same_loan { M.loan memory.new ≡ M.loan memory.old }
    {
        match consumer.progress.ending {
            Ending::Runs => {
                self.ready_unit(device, tag, due);
                self.run_unit(memory, events, consumer, device, front, buffer)
            }
            Ending::Told { .. } | Ending::Owed => {
                consumer.skip(memory, events, front, buffer.length, buffer.flags);
                Acted::Worked
            }
        }
    }

    /// Takes the last TRB of a TD that has bytes of the information unit, and isn't a Normal one.
    fn over_unit<M: GuestMemory, D: UasDevice>(
        &mut self,
        memory: &mut M,
        events: &mut EventRing,
        consumer: &mut Consumer,
        device: &mut D,
        out: bool,
        front: Front,
        trb: PipeTrb,
        flags: Flags,
    )
        requires room { has_place (M.contents memory.old) events.old ≡ true }
        requires home { has_home (M.contents memory.old) front.home ≡ true }
        ensures step { record { ring = record { memory = M.contents memory.new; events = events.new; consumer = consumer.new }; tag = self.new; device = D.state device.new }
            ≡ unit_over D.kind out (record { ring = record { memory = M.contents memory.old; events = events.old; consumer = consumer.old }; tag = self.old; device = D.state device.old }) front trb flags }
        ensures same_loan { M.loan memory.new ≡ M.loan memory.old }
    {
        if out {
            consumer.take_other(memory, events, front, trb);
            self.unit.clear();
        } else {
            self.babble_unit(memory, events, consumer, device, front, flags);
        }
    }

    /// Takes a TRB that isn't a Normal one, and may be its TD's last.
    fn end_status<M: GuestMemory, D: UasDevice>(
        &mut self,
        memory: &mut M,
        events: &mut EventRing,
        consumer: &mut Consumer,
        device: &mut D,
        front: Front,
        trb: PipeTrb,
        flags: Flags,
    )
        requires room { has_place (M.contents memory.old) events.old ≡ true }
        requires home { has_home (M.contents memory.old) front.home ≡ true }
        ensures step { record { ring = record { memory = M.contents memory.new; events = events.new; consumer = consumer.new }; tag = self.new; device = D.state device.new }
            ≡ status_ending D.kind (record { ring = record { memory = M.contents memory.old; events = events.old; consumer = consumer.old }; tag = self.old; device = D.state device.old }) front trb flags }
        ensures same_loan { M.loan memory.new ≡ M.loan memory.old }
    {
        if self.has_begun() && !flags.chain {
            let out = self.is_out();
            self.over_unit(memory, events, consumer, device, out, front, trb, flags);
        } else {
            consumer.take_other(memory, events, front, trb);
        }
    }

    /// Takes a TRB.
    fn take_status<M: GuestMemory, D: UasDevice>(
        &mut self,
        memory: &mut M,
        events: &mut EventRing,
        consumer: &mut Consumer,
        device: &mut D,
        tag: u16,
        due: bool,
        front: Front,
        trb: PipeTrb,
    ) -> Acted
        requires room { has_place (M.contents memory.old) events.old ≡ true }
        requires home { has_home (M.contents memory.old) front.home ≡ true }
        requires ended { due ≡ true → IsEnded (D.kind.phase (D.state device.old) tag) }
        ensures step { (record { ring = record { memory = M.contents memory.new; events = events.new; consumer = consumer.new }; tag = self.new; device = D.state device.new }, result)
            ≡ status_took D.kind (record { ring = record { memory = M.contents memory.old; events = events.old; consumer = consumer.old }; tag = self.old; device = D.state device.old }) tag due front trb }
        ensures same_loan { M.loan memory.new ≡ M.loan memory.old }
    {
        match trb {
            PipeTrb::Normal {
                pointer,
                length,
                flags,
            } => {
                let buffer = Buffer {
                    pointer,
                    length,
                    flags,
                };
                self.normal_status(memory, events, consumer, device, tag, due, front, buffer)
            }
            PipeTrb::NoOp { flags } | PipeTrb::EventData { flags, .. } => {
                self.end_status(memory, events, consumer, device, front, trb, flags);
                Acted::Worked
            }
            PipeTrb::Link { .. } | PipeTrb::Foreign => {
                consumer.take_other(memory, events, front, trb);
                Acted::Worked
            }
        }
    }

    /// Does what was found asks for.
    fn act_status<M: GuestMemory, D: UasDevice>(
        &mut self,
        memory: &mut M,
        events: &mut EventRing,
        consumer: &mut Consumer,
        device: &mut D,
        tag: u16,
        due: bool,
        front: Front,
    ) -> Acted
        requires room { has_place (M.contents memory.old) events.old ≡ true }
        requires home { has_home (M.contents memory.old) front.home ≡ true }
        requires ended { due ≡ true → IsEnded (D.kind.phase (D.state device.old) tag) }
        ensures step { (record { ring = record { memory = M.contents memory.new; events = events.new; consumer = consumer.new }; tag = self.new; device = D.state device.new }, result)
            ≡ status_acted D.kind (record { ring = record { memory = M.contents memory.old; events = events.old; consumer = consumer.old }; tag = self.old; device = D.state device.old }) tag due front front.found }
        ensures same_loan { M.loan memory.new ≡ M.loan memory.old }
    {
        match front.found {
            Found::WrongKind => {
                consumer.refuse(memory, events, 10);
                Acted::Worked
            }
            Found::NotYet => {
                consumer.rung = false;
                Acted::Emptied
            }
            Found::Item(trb) => {
                self.take_status(memory, events, consumer, device, tag, due, front, trb)
            }
        }
    }

    /// A step of a consumer of the status pipe for a tag, whose task's answer is due or not.
    pub fn step_status<M: GuestMemory, D: UasDevice>(
        &mut self,
        memory: &mut M,
        events: &mut EventRing,
        consumer: &mut Consumer,
        device: &mut D,
        tag: u16,
        due: bool,
        pipe: &Pipe,
    ) -> Result<Acted, Outside>
        requires ended { due ≡ true → IsEnded (D.kind.phase (D.state device.old) tag) }
        ensures step { (record { ring = record { memory = M.contents memory.new; events = events.new; consumer = consumer.new }; tag = self.new; device = D.state device.new }, result_ok result)
            ≡ after (record { ring = record { memory = M.contents memory.old; events = events.old; consumer = consumer.old }; tag = self.old; device = D.state device.old }) (stepped_status D.kind (record { ring = record { memory = M.contents memory.old; events = events.old; consumer = consumer.old }; tag = self.old; device = D.state device.old }) tag due (home_of pipe.now tag)) }
        ensures same_loan { M.loan memory.new ≡ M.loan memory.old }
    {
        match consumer.gate(memory, events)? {
            Some(acted) => Ok(acted),
            None => {
                let front = pipe.front(memory, tag)?;
                Ok(self.act_status(memory, events, consumer, device, tag, due, front))
            }
        }
    }
}
