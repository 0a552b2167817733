//! A step of Bulk-Out, and one of Bulk-In.
ghost use Rattle.std.specs.Prelude.{◌≡◌, true, Some, None};
ghost use Rattle.std.specs.Result.{result_ok};
ghost use Rattle.guest_pipes.specs.Step.{has_place, has_home};
ghost use Rattle.guest_bulk.specs.Commands.{BulkWorld};
ghost use Rattle.guest_bulk.specs.Steps.{bulk_after, in_acted, in_bytes, in_normal, in_stepped, in_took, out_acted, out_bytes, out_normal, out_stepped, out_took, unserved_step};

use crate::bulk::{Bulk, Stepped};
use crate::dropping::plain;
use guest_memory::rings::{EventRing, Found, Front, Home, PipeTrb, look};
use guest_memory::{GuestMemory, Outside};
use guest_pipes::{Acted, Consumer, Ending};
use guest_tags::{Buffer, UasDevice};

impl Bulk {
    /// Takes a Normal TRB of Bulk-Out.
    fn normal_out<M: GuestMemory, D: UasDevice>(
        &mut self,
        memory: &mut M,
        events: &mut EventRing,
        consumer: &mut Consumer,
        device: &mut D,
        front: Front,
        buffer: Buffer,
    ) -> Stepped
        requires room { has_place (M.contents memory.old) events.old ≡ true }
        requires home { has_home (M.contents memory.old) front.home ≡ true }
        ensures step { (record { ring = record { memory = M.contents memory.new; events = events.new; consumer = consumer.new }; bulk = self.new; device = D.state device.new }, result)
            ≡ out_normal D.kind consumer.old.progress.ending (record { ring = record { memory = M.contents memory.old; events = events.old; consumer = consumer.old }; bulk = self.old; device = D.state device.old }) front buffer }
        ensures same_loan { M.loan memory.new ≡ M.loan memory.old }
    {
        match consumer.progress.ending {
            Ending::Runs => self.take_out(memory, events, consumer, device, front, buffer),
            Ending::Told { .. } | Ending::Owed => {
                consumer.skip(memory, events, front, buffer.length, buffer.flags);
                plain(Acted::Worked)
            }
        }
    }

    /// Takes a Normal TRB where the endpoint isn't served: told with this code where its TD's bytes move, and skipped behind the TD's end.
    fn take_unserved<M: GuestMemory, D: UasDevice>(
        &mut self,
        memory: &mut M,
        events: &mut EventRing,
        consumer: &mut Consumer,
        device: &mut D,
        code: u8,
        front: Front,
        buffer: Buffer,
    ) -> Stepped
        requires room { has_place (M.contents memory.old) events.old ≡ true }
        requires home { has_home (M.contents memory.old) front.home ≡ true }
        ensures step { (record { ring = record { memory = M.contents memory.new; events = events.new; consumer = consumer.new }; bulk = self.new; device = D.state device.new }, result)
            ≡ unserved_step (record { ring = record { memory = M.contents memory.old; events = events.old; consumer = consumer.old }; bulk = self.old; device = D.state device.old }) front buffer code }
        ensures same_loan { M.loan memory.new ≡ M.loan memory.old }
    {
        consumer.take_unserved_bytes(memory, events, front, code, buffer.length, buffer.flags);
        plain(Acted::Worked)
    }

    /// Takes a Normal TRB of Bulk-Out, whose TDs are told with this code where the endpoint isn't served.
    fn take_bytes_out<M: GuestMemory, D: UasDevice>(
        &mut self,
        memory: &mut M,
        events: &mut EventRing,
        consumer: &mut Consumer,
        device: &mut D,
        fault: Option<u8>,
        front: Front,
        buffer: Buffer,
    ) -> Stepped
        requires room { has_place (M.contents memory.old) events.old ≡ true }
        requires home { has_home (M.contents memory.old) front.home ≡ true }
        ensures step { (record { ring = record { memory = M.contents memory.new; events = events.new; consumer = consumer.new }; bulk = self.new; device = D.state device.new }, result)
            ≡ out_bytes D.kind fault (record { ring = record { memory = M.contents memory.old; events = events.old; consumer = consumer.old }; bulk = self.old; device = D.state device.old }) front buffer }
        ensures same_loan { M.loan memory.new ≡ M.loan memory.old }
    {
        match fault {
            None => self.normal_out(memory, events, consumer, device, front, buffer),
            Some(code) => self.take_unserved(memory, events, consumer, device, code, front, buffer),
        }
    }

    /// Takes a TRB of Bulk-Out.
    fn take_trb_out<M: GuestMemory, D: UasDevice>(
        &mut self,
        memory: &mut M,
        events: &mut EventRing,
        consumer: &mut Consumer,
        device: &mut D,
        fault: Option<u8>,
        front: Front,
        trb: PipeTrb,
    ) -> Stepped
        requires room { has_place (M.contents memory.old) events.old ≡ true }
        requires home { has_home (M.contents memory.old) front.home ≡ true }
        ensures step { (record { ring = record { memory = M.contents memory.new; events = events.new; consumer = consumer.new }; bulk = self.new; device = D.state device.new }, result)
            ≡ out_took D.kind fault (record { ring = record { memory = M.contents memory.old; events = events.old; consumer = consumer.old }; bulk = self.old; device = D.state device.old }) front trb }
        ensures same_loan { M.loan memory.new ≡ M.loan memory.old }
    {
        match trb {
            PipeTrb::Normal {
                pointer,
                length,
                flags,
            } => {
                let buffer = Buffer {
                    pointer,
                    length,
                    flags,
                };
                self.take_bytes_out(memory, events, consumer, device, fault, front, buffer)
            }
            PipeTrb::NoOp { flags } | PipeTrb::EventData { flags, .. } => {
                self.take_out_last(memory, events, consumer, device, front, trb, flags)
            }
            PipeTrb::Link { .. } | PipeTrb::Foreign => {
                consumer.take_other(memory, events, front, trb);
                plain(Acted::Worked)
            }
        }
    }

    /// Does what was found on Bulk-Out asks for.
    fn act_out<M: GuestMemory, D: UasDevice>(
        &mut self,
        memory: &mut M,
        events: &mut EventRing,
        consumer: &mut Consumer,
        device: &mut D,
        fault: Option<u8>,
        front: Front,
    ) -> Stepped
        requires room { has_place (M.contents memory.old) events.old ≡ true }
        requires home { has_home (M.contents memory.old) front.home ≡ true }
        ensures step { (record { ring = record { memory = M.contents memory.new; events = events.new; consumer = consumer.new }; bulk = self.new; device = D.state device.new }, result)
            ≡ out_acted D.kind fault (record { ring = record { memory = M.contents memory.old; events = events.old; consumer = consumer.old }; bulk = self.old; device = D.state device.old }) front front.found }
        ensures same_loan { M.loan memory.new ≡ M.loan memory.old }
    {
        match front.found {
            Found::WrongKind => {
                consumer.refuse(memory, events, 10);
                plain(Acted::Worked)
            }
            Found::NotYet => {
                consumer.rung = false;
                plain(Acted::Emptied)
            }
            Found::Item(trb) => self.take_trb_out(
                memory, events, consumer, device, fault, front, trb,
            ),
        }
    }

    /// A step of Bulk-Out, the end of whose ring is kept there: one TRB, or a part of one. Where the endpoint isn't served, a TRB of a TD
    /// whose bytes move is told with the code of the fault. Refused where a byte of the event's place, of the
    /// ring's end or of the TRB isn't there, and then nothing changes.
    pub fn step_out<M: GuestMemory, D: UasDevice>(
        &mut self,
        memory: &mut M,
        events: &mut EventRing,
        consumer: &mut Consumer,
        device: &mut D,
        fault: Option<u8>,
        home: Home,
    ) -> Result<Stepped, Outside>
        ensures step { (record { ring = record { memory = M.contents memory.new; events = events.new; consumer = consumer.new }; bulk = self.new; device = D.state device.new }, result_ok result)
            ≡ bulk_after (record { ring = record { memory = M.contents memory.old; events = events.old; consumer = consumer.old }; bulk = self.old; device = D.state device.old }) (out_stepped D.kind fault (record { ring = record { memory = M.contents memory.old; events = events.old; consumer = consumer.old }; bulk = self.old; device = D.state device.old }) home) }
        ensures same_loan { M.loan memory.new ≡ M.loan memory.old }
    {
        match consumer.gate(memory, events)? {
            Some(acted) => Ok(plain(acted)),
            None => {
                let front = look(memory, home)?;
                Ok(self.act_out(memory, events, consumer, device, fault, front))
            }
        }
    }

    /// Takes a Normal TRB of Bulk-In.
    fn normal_in<M: GuestMemory, D: UasDevice>(
        &mut self,
        memory: &mut M,
        events: &mut EventRing,
        consumer: &mut Consumer,
        device: &mut D,
        front: Front,
        buffer: Buffer,
    ) -> Stepped
        requires room { has_place (M.contents memory.old) events.old ≡ true }
        requires home { has_home (M.contents memory.old) front.home ≡ true }
        ensures step { (record { ring = record { memory = M.contents memory.new; events = events.new; consumer = consumer.new }; bulk = self.new; device = D.state device.new }, result)
            ≡ in_normal D.kind consumer.old.progress.ending (record { ring = record { memory = M.contents memory.old; events = events.old; consumer = consumer.old }; bulk = self.old; device = D.state device.old }) front buffer }
        ensures same_loan { M.loan memory.new ≡ M.loan memory.old }
    {
        match consumer.progress.ending {
            Ending::Runs => self.take_in(memory, events, consumer, device, front, buffer),
            Ending::Told { .. } | Ending::Owed => {
                consumer.skip(memory, events, front, buffer.length, buffer.flags);
                plain(Acted::Worked)
            }
        }
    }

    /// Takes a Normal TRB of Bulk-In, whose TDs are told with this code where the endpoint isn't served.
    fn take_bytes_in<M: GuestMemory, D: UasDevice>(
        &mut self,
        memory: &mut M,
        events: &mut EventRing,
        consumer: &mut Consumer,
        device: &mut D,
        fault: Option<u8>,
        front: Front,
        buffer: Buffer,
    ) -> Stepped
        requires room { has_place (M.contents memory.old) events.old ≡ true }
        requires home { has_home (M.contents memory.old) front.home ≡ true }
        ensures step { (record { ring = record { memory = M.contents memory.new; events = events.new; consumer = consumer.new }; bulk = self.new; device = D.state device.new }, result)
            ≡ in_bytes D.kind fault (record { ring = record { memory = M.contents memory.old; events = events.old; consumer = consumer.old }; bulk = self.old; device = D.state device.old }) front buffer }
        ensures same_loan { M.loan memory.new ≡ M.loan memory.old }
    {
        match fault {
            None => self.normal_in(memory, events, consumer, device, front, buffer),
            Some(code) => self.take_unserved(memory, events, consumer, device, code, front, buffer),
        }
    }

    /// Takes a TRB of Bulk-In.
    fn take_trb_in<M: GuestMemory, D: UasDevice>(
        &mut self,
        memory: &mut M,
        events: &mut EventRing,
        consumer: &mut Consumer,
        device: &mut D,
        fault: Option<u8>,
        front: Front,
        trb: PipeTrb,
    ) -> Stepped
        requires room { has_place (M.contents memory.old) events.old ≡ true }
        requires home { has_home (M.contents memory.old) front.home ≡ true }
        ensures step { (record { ring = record { memory = M.contents memory.new; events = events.new; consumer = consumer.new }; bulk = self.new; device = D.state device.new }, result)
            ≡ in_took D.kind fault (record { ring = record { memory = M.contents memory.old; events = events.old; consumer = consumer.old }; bulk = self.old; device = D.state device.old }) front trb }
        ensures same_loan { M.loan memory.new ≡ M.loan memory.old }
    {
        match trb {
            PipeTrb::Normal {
                pointer,
                length,
                flags,
            } => {
                let buffer = Buffer {
                    pointer,
                    length,
                    flags,
                };
                self.take_bytes_in(memory, events, consumer, device, fault, front, buffer)
            }
            PipeTrb::NoOp { flags } | PipeTrb::EventData { flags, .. } => {
                self.take_in_last(memory, events, consumer, device, front, trb, flags);
                plain(Acted::Worked)
            }
            PipeTrb::Link { .. } | PipeTrb::Foreign => {
                consumer.take_other(memory, events, front, trb);
                plain(Acted::Worked)
            }
        }
    }

    /// Does what was found on Bulk-In asks for.
    fn act_in<M: GuestMemory, D: UasDevice>(
        &mut self,
        memory: &mut M,
        events: &mut EventRing,
        consumer: &mut Consumer,
        device: &mut D,
        fault: Option<u8>,
        front: Front,
    ) -> Stepped
        requires room { has_place (M.contents memory.old) events.old ≡ true }
        requires home { has_home (M.contents memory.old) front.home ≡ true }
        ensures step { (record { ring = record { memory = M.contents memory.new; events = events.new; consumer = consumer.new }; bulk = self.new; device = D.state device.new }, result)
            ≡ in_acted D.kind fault (record { ring = record { memory = M.contents memory.old; events = events.old; consumer = consumer.old }; bulk = self.old; device = D.state device.old }) front front.found }
        ensures same_loan { M.loan memory.new ≡ M.loan memory.old }
    {
        match front.found {
            Found::WrongKind => {
                consumer.refuse(memory, events, 10);
                plain(Acted::Worked)
            }
            Found::NotYet => {
                consumer.rung = false;
                plain(Acted::Emptied)
            }
            Found::Item(trb) => self.take_trb_in(
                memory, events, consumer, device, fault, front, trb,
            ),
        }
    }

    /// A step of Bulk-In, the end of whose ring is kept there: one TRB, or a part of one. Where the endpoint isn't served, a TRB of a TD
    /// whose bytes move is told with the code of the fault. Refused where a byte of the event's place, of the
    /// ring's end or of the TRB isn't there, and then nothing changes.
    pub fn step_in<M: GuestMemory, D: UasDevice>(
        &mut self,
        memory: &mut M,
        events: &mut EventRing,
        consumer: &mut Consumer,
        device: &mut D,
        fault: Option<u8>,
        home: Home,
    ) -> Result<Stepped, Outside>
        ensures step { (record { ring = record { memory = M.contents memory.new; events = events.new; consumer = consumer.new }; bulk = self.new; device = D.state device.new }, result_ok result)
            ≡ bulk_after (record { ring = record { memory = M.contents memory.old; events = events.old; consumer = consumer.old }; bulk = self.old; device = D.state device.old }) (in_stepped D.kind fault (record { ring = record { memory = M.contents memory.old; events = events.old; consumer = consumer.old }; bulk = self.old; device = D.state device.old }) home) }
        ensures same_loan { M.loan memory.new ≡ M.loan memory.old }
    {
        match consumer.gate(memory, events)? {
            Some(acted) => Ok(plain(acted)),
            None => {
                let front = look(memory, home)?;
                Ok(self.act_in(memory, events, consumer, device, fault, front))
            }
        }
    }
}
