//! A CSW on Bulk-In.
ghost use Rattle.std.specs.Prelude.{◌≡◌, ℕ, ◌+◌, ◌-◌, ◌<◌, ◌≤◌, ◌^◌, ◌==◌, length as list_length, true};
ghost use Rattle.guest_memory.specs.Bytes.{is_there};
ghost use Rattle.guest_pipes.specs.Step.{has_place, has_home};
ghost use Rattle.guest_bulk.specs.Commands.{BulkWorld};
ghost use Rattle.guest_bulk.specs.Verdicts.{csw_babbled, csw_ended, csw_full, csw_lost, csw_moved, csw_on, csw_poured, csw_ran, csw_short, csw_some, csw_went, data_closed};

use crate::bulk::{Bulk, BulkStage};
use bulk_only::{CSW_BYTES, Csw};
use guest_memory::GuestMemory;
use guest_memory::rings::{EventRing, Flags, Front, PipeTrb};
use guest_pipes::{Consumer, there};
use guest_tags::{Buffer, UasDevice};

impl Bulk {
    /// Ends a TD that has data of the command as a short packet.
    #[tactic(auto, unfolding(crate::specs::Verdicts::data_closed))]
    pub(crate) fn close_data<M: GuestMemory, D: UasDevice>(
        &mut self,
        memory: &mut M,
        events: &mut EventRing,
        consumer: &mut Consumer,
        device: &mut D,
        front: Front,
        buffer: Buffer,
    )
        requires room { has_place (M.contents memory.old) events.old ≡ true }
        requires home { has_home (M.contents memory.old) front.home ≡ true }
        ensures step { record { ring = record { memory = M.contents memory.new; events = events.new; consumer = consumer.new }; bulk = self.new; device = D.state device.new }
            ≡ data_closed D.kind (record { ring = record { memory = M.contents memory.old; events = events.old; consumer = consumer.old }; bulk = self.old; device = D.state device.old }) front buffer }
        ensures same_loan { M.loan memory.new ≡ M.loan memory.old }
    {
        let left = buffer.length.saturating_sub(consumer.progress.moved);
        if left == 0 {
            consumer.fill(memory, events, front, buffer.flags);
        } else {
            consumer.shorten(memory, events, front, left, buffer.flags);
        }
    }

    /// Moves so many bytes of the CSW to an address.
    #[tactic(auto, unfolding(crate::specs::Verdicts::csw_poured))]
    fn pour_csw<M: GuestMemory, D: UasDevice>(
        &mut self,
        memory: &mut M,
        events: &mut EventRing,
        consumer: &mut Consumer,
        device: &mut D,
        csw: Csw,
        sent: usize,
        to: u64,
        count: usize,
    )
        requires room { has_place (M.contents memory.old) events.old ≡ true }
        requires there { is_there (M.contents memory.old) to count ≡ true }
        requires has { sent + count ≤ 13 }
        requires fits { consumer.old.progress.moved + count < 2 ^ 32 }
        ensures step { record { ring = record { memory = M.contents memory.new; events = events.new; consumer = consumer.new }; bulk = self.new; device = D.state device.new }
            ≡ csw_poured D.kind (record { ring = record { memory = M.contents memory.old; events = events.old; consumer = consumer.old }; bulk = self.old; device = D.state device.old }) csw sent to count }
        ensures same_loan { M.loan memory.new ≡ M.loan memory.old }
        ensures there { (at n : ℕ) → is_there (M.contents memory.old) at n ≡ true → is_there (M.contents memory.new) at n ≡ true }
        ensures room { has_place (M.contents memory.new) events.new ≡ true }
    {
        let bytes = csw.bytes();
        consumer.pour(memory, events, to, &bytes[sent..sent + count]);
        self.stage = BulkStage::Tells {
            csw,
            sent: sent + count,
        };
    }

    /// Ends the TD at a TRB whose buffer isn't there: the CSW goes into the next one.
    #[tactic(auto, unfolding(crate::specs::Verdicts::csw_lost))]
    fn lose_csw<M: GuestMemory, D: UasDevice>(
        &mut self,
        memory: &mut M,
        events: &mut EventRing,
        consumer: &mut Consumer,
        device: &mut D,
        csw: Csw,
        front: Front,
        buffer: Buffer,
    )
        requires room { has_place (M.contents memory.old) events.old ≡ true }
        requires home { has_home (M.contents memory.old) front.home ≡ true }
        ensures step { record { ring = record { memory = M.contents memory.new; events = events.new; consumer = consumer.new }; bulk = self.new; device = D.state device.new }
            ≡ csw_lost D.kind (record { ring = record { memory = M.contents memory.old; events = events.old; consumer = consumer.old }; bulk = self.old; device = D.state device.old }) csw front buffer }
        ensures same_loan { M.loan memory.new ≡ M.loan memory.old }
    {
        consumer.fail(memory, events, front, buffer.length, buffer.flags);
        self.stage = BulkStage::Tells { csw, sent: 0 };
    }

    /// Ends the TD with the CSW, as a short packet.
    #[tactic(auto, unfolding(crate::specs::Verdicts::csw_short))]
    fn short_csw<M: GuestMemory, D: UasDevice>(
        &mut self,
        memory: &mut M,
        events: &mut EventRing,
        consumer: &mut Consumer,
        device: &mut D,
        front: Front,
        buffer: Buffer,
    )
        requires room { has_place (M.contents memory.old) events.old ≡ true }
        requires home { has_home (M.contents memory.old) front.home ≡ true }
        ensures step { record { ring = record { memory = M.contents memory.new; events = events.new; consumer = consumer.new }; bulk = self.new; device = D.state device.new }
            ≡ csw_short D.kind (record { ring = record { memory = M.contents memory.old; events = events.old; consumer = consumer.old }; bulk = self.old; device = D.state device.old }) front buffer }
        ensures same_loan { M.loan memory.new ≡ M.loan memory.old }
    {
        let left = buffer.length.saturating_sub(consumer.progress.moved);
        consumer.shorten(memory, events, front, left, buffer.flags);
        self.stage = BulkStage::Awaits;
    }

    /// Ends the TD, which is full, with the CSW.
    #[tactic(auto, unfolding(crate::specs::Verdicts::csw_full))]
    fn full_csw<M: GuestMemory, D: UasDevice>(
        &mut self,
        memory: &mut M,
        events: &mut EventRing,
        consumer: &mut Consumer,
        device: &mut D,
        front: Front,
        flags: Flags,
    )
        requires room { has_place (M.contents memory.old) events.old ≡ true }
        requires home { has_home (M.contents memory.old) front.home ≡ true }
        ensures step { record { ring = record { memory = M.contents memory.new; events = events.new; consumer = consumer.new }; bulk = self.new; device = D.state device.new }
            ≡ csw_full D.kind (record { ring = record { memory = M.contents memory.old; events = events.old; consumer = consumer.old }; bulk = self.old; device = D.state device.old }) front flags }
        ensures same_loan { M.loan memory.new ≡ M.loan memory.old }
    {
        consumer.fill(memory, events, front, flags);
        self.stage = BulkStage::Awaits;
    }

    /// Halts the endpoint: the TD is shorter than the CSW.
    #[tactic(auto, unfolding(crate::specs::Verdicts::csw_babbled))]
    fn babble_csw<M: GuestMemory, D: UasDevice>(
        &mut self,
        memory: &mut M,
        events: &mut EventRing,
        consumer: &mut Consumer,
        device: &mut D,
        csw: Csw,
        front: Front,
        flags: Flags,
    )
        requires room { has_place (M.contents memory.old) events.old ≡ true }
        requires home { has_home (M.contents memory.old) front.home ≡ true }
        ensures step { record { ring = record { memory = M.contents memory.new; events = events.new; consumer = consumer.new }; bulk = self.new; device = D.state device.new }
            ≡ csw_babbled D.kind (record { ring = record { memory = M.contents memory.old; events = events.old; consumer = consumer.old }; bulk = self.old; device = D.state device.old }) csw front flags }
        ensures same_loan { M.loan memory.new ≡ M.loan memory.old }
    {
        consumer.babble(memory, events, front, flags);
        self.stage = BulkStage::Tells { csw, sent: 0 };
    }

    /// Takes a TRB that is full, with all of the CSW or not.
    fn on_csw<M: GuestMemory, D: UasDevice>(
        &mut self,
        memory: &mut M,
        events: &mut EventRing,
        consumer: &mut Consumer,
        device: &mut D,
        chain: bool,
        out: bool,
        csw: Csw,
        front: Front,
        flags: Flags,
    )
        requires room { has_place (M.contents memory.old) events.old ≡ true }
        requires home { has_home (M.contents memory.old) front.home ≡ true }
        ensures step { record { ring = record { memory = M.contents memory.new; events = events.new; consumer = consumer.new }; bulk = self.new; device = D.state device.new }
            ≡ csw_on D.kind chain out (record { ring = record { memory = M.contents memory.old; events = events.old; consumer = consumer.old }; bulk = self.old; device = D.state device.old }) csw front flags }
        ensures same_loan { M.loan memory.new ≡ M.loan memory.old }
    {
        match (chain, out) {
            (true, _) => consumer.fill(memory, events, front, flags),
            (false, true) => self.full_csw(memory, events, consumer, device, front, flags),
            (false, false) => self.babble_csw(memory, events, consumer, device, csw, front, flags),
        }
    }

    /// Takes a Normal TRB once bytes of the CSW have moved into it.
    fn moved_csw<M: GuestMemory, D: UasDevice>(
        &mut self,
        memory: &mut M,
        events: &mut EventRing,
        consumer: &mut Consumer,
        device: &mut D,
        csw: Csw,
        sent: usize,
        front: Front,
        buffer: Buffer,
    )
        requires room { has_place (M.contents memory.old) events.old ≡ true }
        requires home { has_home (M.contents memory.old) front.home ≡ true }
        ensures step { record { ring = record { memory = M.contents memory.new; events = events.new; consumer = consumer.new }; bulk = self.new; device = D.state device.new }
            ≡ csw_moved D.kind (record { ring = record { memory = M.contents memory.old; events = events.old; consumer = consumer.old }; bulk = self.old; device = D.state device.old }) csw sent front buffer }
        ensures same_loan { M.loan memory.new ≡ M.loan memory.old }
    {
        if consumer.progress.moved < buffer.length {
            self.short_csw(memory, events, consumer, device, front, buffer);
            return;
        }
        let out = sent >= CSW_BYTES;
        self.on_csw(
            memory,
            events,
            consumer,
            device,
            buffer.flags.chain,
            out,
            csw,
            front,
            buffer.flags,
        );
    }

    /// Moves so many bytes of the CSW into a Normal TRB.
    #[tactic(auto, unfolding(crate::specs::Verdicts::csw_some))]
    fn some_csw<M: GuestMemory, D: UasDevice>(
        &mut self,
        memory: &mut M,
        events: &mut EventRing,
        consumer: &mut Consumer,
        device: &mut D,
        csw: Csw,
        sent: usize,
        count: usize,
        front: Front,
        buffer: Buffer,
    )
        requires room { has_place (M.contents memory.old) events.old ≡ true }
        requires home { has_home (M.contents memory.old) front.home ≡ true }
        requires some { 1 ≤ count }
        requires has { sent + count ≤ 13 }
        requires fits { consumer.old.progress.moved + count < 2 ^ 32 }
        ensures step { record { ring = record { memory = M.contents memory.new; events = events.new; consumer = consumer.new }; bulk = self.new; device = D.state device.new }
            ≡ csw_some D.kind (record { ring = record { memory = M.contents memory.old; events = events.old; consumer = consumer.old }; bulk = self.old; device = D.state device.old }) csw sent count front buffer }
        ensures same_loan { M.loan memory.new ≡ M.loan memory.old }
    {
        match there(memory, buffer.pointer, consumer.progress.moved, count) {
            Some(to) => {
                self.pour_csw(memory, events, consumer, device, csw, sent, to, count);
                self.moved_csw(
                    memory,
                    events,
                    consumer,
                    device,
                    csw,
                    sent + count,
                    front,
                    buffer,
                );
            }
            None => self.lose_csw(memory, events, consumer, device, csw, front, buffer),
        }
    }

    /// Moves what there is of the CSW into a Normal TRB.
    #[tactic(auto, unfolding(crate::specs::Verdicts::csw_went))]
    fn go_csw<M: GuestMemory, D: UasDevice>(
        &mut self,
        memory: &mut M,
        events: &mut EventRing,
        consumer: &mut Consumer,
        device: &mut D,
        csw: Csw,
        sent: usize,
        front: Front,
        buffer: Buffer,
    )
        requires room { has_place (M.contents memory.old) events.old ≡ true }
        requires home { has_home (M.contents memory.old) front.home ≡ true }
        ensures step { record { ring = record { memory = M.contents memory.new; events = events.new; consumer = consumer.new }; bulk = self.new; device = D.state device.new }
            ≡ csw_went D.kind (record { ring = record { memory = M.contents memory.old; events = events.old; consumer = consumer.old }; bulk = self.old; device = D.state device.old }) csw sent front buffer }
        ensures same_loan { M.loan memory.new ≡ M.loan memory.old }
    {
        let room = buffer.length.saturating_sub(consumer.progress.moved);
        let count = CSW_BYTES.saturating_sub(sent).min(room as usize);
        if count == 0 {
            self.moved_csw(memory, events, consumer, device, csw, sent, front, buffer);
        } else {
            self.some_csw(
                memory, events, consumer, device, csw, sent, count, front, buffer,
            );
        }
    }

    /// Takes a Normal TRB while a CSW is to go out.
    #[tactic(auto, unfolding(crate::specs::Verdicts::csw_ran))]
    pub(crate) fn run_csw<M: GuestMemory, D: UasDevice>(
        &mut self,
        memory: &mut M,
        events: &mut EventRing,
        consumer: &mut Consumer,
        device: &mut D,
        csw: Csw,
        sent: usize,
        front: Front,
        buffer: Buffer,
    )
        requires room { has_place (M.contents memory.old) events.old ≡ true }
        requires home { has_home (M.contents memory.old) front.home ≡ true }
        ensures step { record { ring = record { memory = M.contents memory.new; events = events.new; consumer = consumer.new }; bulk = self.new; device = D.state device.new }
            ≡ csw_ran D.kind (record { ring = record { memory = M.contents memory.old; events = events.old; consumer = consumer.old }; bulk = self.old; device = D.state device.old }) csw sent front buffer }
        ensures same_loan { M.loan memory.new ≡ M.loan memory.old }
    {
        if sent == 0 && consumer.progress.fed {
            self.close_data(memory, events, consumer, device, front, buffer);
        } else {
            self.go_csw(memory, events, consumer, device, csw, sent, front, buffer);
        }
    }

    /// Takes the last TRB of a TD that has bytes of the CSW, and isn't a Normal one.
    pub(crate) fn end_csw<M: GuestMemory, D: UasDevice>(
        &mut self,
        memory: &mut M,
        events: &mut EventRing,
        consumer: &mut Consumer,
        device: &mut D,
        out: bool,
        csw: Csw,
        front: Front,
        trb: PipeTrb,
        flags: Flags,
    )
        requires room { has_place (M.contents memory.old) events.old ≡ true }
        requires home { has_home (M.contents memory.old) front.home ≡ true }
        ensures step { record { ring = record { memory = M.contents memory.new; events = events.new; consumer = consumer.new }; bulk = self.new; device = D.state device.new }
            ≡ csw_ended D.kind out (record { ring = record { memory = M.contents memory.old; events = events.old; consumer = consumer.old }; bulk = self.old; device = D.state device.old }) csw front trb flags }
        ensures same_loan { M.loan memory.new ≡ M.loan memory.old }
    {
        if out {
            consumer.take_other(memory, events, front, trb);
            self.stage = BulkStage::Awaits;
        } else {
            self.babble_csw(memory, events, consumer, device, csw, front, flags);
        }
    }
}
