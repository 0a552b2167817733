//! Data on Bulk-Out.
ghost use Rattle.std.specs.Prelude.{◌≡◌, ◌+◌, ◌-◌, ◌<◌, ◌≤◌, ◌^◌, ◌==◌, ◌&&◌, not, length as list_length, true, false, Some, None};
ghost use Rattle.guest_pipes.specs.Step.{World, has_place, has_home};
ghost use Rattle.guest_pipes.specs.Progress.{runs};
ghost use Rattle.guest_out.specs.Immediate.{bytes_out};
ghost use Rattle.guest_bulk.specs.Commands.{BulkWorld};
ghost use Rattle.guest_bulk.specs.Outgoing.{ends_cbw, out_beside, out_broken, out_by, out_drawn, is_awaiting, out_filled, out_gathered, handed_if, out_handed};
ghost use Rattle.guest_bulk.specs.Outgoing.{halting, out_last, out_moved, out_ran, out_staged, out_went};

use crate::bulk::{Bulk, BulkCommand, BulkStage, Halting, Stepped};
use crate::command::BULK_TAG;
use crate::dropping::plain;
use crate::verdict::{with_chunk, with_given};
use guest_memory::rings::{EventRing, Flags, Front, PipeTrb};
use guest_memory::{GuestMemory, Outside};
use guest_out::draw;
use guest_pipes::{Acted, Consumer};
use guest_tags::{Buffer, Phase, UasDevice};

impl Bulk {
    /// Takes the TRB in front where it is full.
    fn fill_out<M: GuestMemory, D: UasDevice>(
        &mut self,
        memory: &mut M,
        events: &mut EventRing,
        consumer: &mut Consumer,
        device: &mut D,
        front: Front,
        buffer: Buffer,
    )
        requires room { has_place (M.contents memory.old) events.old ≡ true }
        requires home { has_home (M.contents memory.old) front.home ≡ true }
        ensures step { record { ring = record { memory = M.contents memory.new; events = events.new; consumer = consumer.new }; bulk = self.new; device = D.state device.new }
            ≡ out_filled D.kind (record { ring = record { memory = M.contents memory.old; events = events.old; consumer = consumer.old }; bulk = self.old; device = D.state device.old }) front buffer }
        ensures same_loan { M.loan memory.new ≡ M.loan memory.old }
    {
        let full = buffer.length <= consumer.progress.moved;
        consumer.fill_if(memory, events, full, front, buffer.flags);
    }

    /// Hands the chunk to the device.
    #[tactic(auto, unfolding(crate::specs::Outgoing::out_handed))]
    fn hand<D: UasDevice>(&mut self, device: &mut D, command: BulkCommand)
        requires takes { D.kind.phase (D.state device.old) 1 ≡ Phase.Takes (list_length self.old.taken) }
        ensures step { (ring : World) → record { ring = ring; bulk = self.new; device = D.state device.new }
            ≡ out_handed D.kind (record { ring = ring; bulk = self.old; device = D.state device.old }) command }
    {
        let done = with_chunk(command.done, self.taken.held() as u64);
        let _ = device.take(BULK_TAG, self.taken.bytes());
        self.taken.clear();
        self.stage = BulkStage::Moves {
            command: BulkCommand { done, ..command },
        };
    }

    /// Hands it on where it is full.
    fn hand_if<D: UasDevice>(&mut self, device: &mut D, full: bool, command: BulkCommand)
        requires takes { full ≡ true → D.kind.phase (D.state device.old) 1 ≡ Phase.Takes (list_length self.old.taken) }
        ensures step { (ring : World) → record { ring = ring; bulk = self.new; device = D.state device.new }
            ≡ handed_if D.kind full (record { ring = ring; bulk = self.old; device = D.state device.old }) command }
    {
        if full {
            self.hand(device, command);
        }
    }

    /// Gathers so many bytes of the TRB in front, and hands the chunk on where that is full.
    #[tactic(auto, unfolding(crate::specs::Outgoing::out_gathered))]
    fn draw_out<M: GuestMemory, D: UasDevice>(
        &mut self,
        memory: &mut M,
        events: &mut EventRing,
        consumer: &mut Consumer,
        device: &mut D,
        command: BulkCommand,
        count: usize,
        part: usize,
        front: Front,
        buffer: Buffer,
    )
        requires room { has_place (M.contents memory.old) events.old ≡ true }
        requires home { has_home (M.contents memory.old) front.home ≡ true }
        requires takes { D.kind.phase (D.state device.old) 1 ≡ Phase.Takes count }
        requires fits { list_length self.old.taken + part ≤ 4096 }
        requires within { consumer.old.progress.moved + part ≤ buffer.length }
        ensures step { record { ring = record { memory = M.contents memory.new; events = events.new; consumer = consumer.new }; bulk = self.new; device = D.state device.new }
            ≡ out_drawn D.kind (bytes_out (M.contents memory.old) buffer consumer.old.progress.moved part) (record { ring = record { memory = M.contents memory.old; events = events.old; consumer = consumer.old }; bulk = self.old; device = D.state device.old }) command count front buffer }
        ensures same_loan { M.loan memory.new ≡ M.loan memory.old }
    {
        match draw(
            memory,
            &mut self.taken,
            buffer,
            consumer.progress.moved,
            part,
        ) {
            Ok(()) => {
                consumer.progress = consumer.progress.count(part as u32);
                let command = command.with_moved(part as u32);
                self.stage = BulkStage::Moves { command };
                let full = self.taken.held() == count;
                self.hand_if(device, full, command);
                self.fill_out(memory, events, consumer, device, front, buffer);
            }
            Err(Outside) => consumer.fail(memory, events, front, buffer.length, buffer.flags),
        }
    }

    /// Moves what the chunk lacks, or what is left of the TRB, or of the command's bytes.
    #[tactic(auto, unfolding(crate::specs::Outgoing::out_moved))]
    fn move_out<M: GuestMemory, D: UasDevice>(
        &mut self,
        memory: &mut M,
        events: &mut EventRing,
        consumer: &mut Consumer,
        device: &mut D,
        command: BulkCommand,
        count: usize,
        front: Front,
        buffer: Buffer,
    )
        requires room { has_place (M.contents memory.old) events.old ≡ true }
        requires home { has_home (M.contents memory.old) front.home ≡ true }
        requires takes { D.kind.phase (D.state device.old) 1 ≡ Phase.Takes count }
        requires chunk { count ≤ 4096 }
        requires left { consumer.old.progress.moved < buffer.length }
        ensures step { record { ring = record { memory = M.contents memory.new; events = events.new; consumer = consumer.new }; bulk = self.new; device = D.state device.new }
            ≡ out_moved D.kind (record { ring = record { memory = M.contents memory.old; events = events.old; consumer = consumer.old }; bulk = self.old; device = D.state device.old }) command count front buffer }
        ensures same_loan { M.loan memory.new ≡ M.loan memory.old }
    {
        let left = (buffer.length - consumer.progress.moved) as usize;
        let part = count
            .saturating_sub(self.taken.held())
            .min(left)
            .min(command.left as usize);
        self.draw_out(
            memory, events, consumer, device, command, count, part, front, buffer,
        );
    }

    /// The device gives in place of taking: Bulk-Out is halted.
    pub(crate) fn halt_out<D: UasDevice>(
        &mut self,
        device: &mut D,
        command: BulkCommand,
        count: usize,
    ) -> Stepped
        ensures step { (ring : World) → (record { ring = ring; bulk = self.new; device = D.state device.new }, result)
            ≡ out_broken D.kind (record { ring = ring; bulk = self.old; device = D.state device.old }) command count }
    {
        self.break_off(device, command, with_given(command.done, count as u64));
        Stepped {
            acted: Acted::Worked,
            halts: Halting::BulkOut,
            ends: true,
        }
    }

    /// Takes a Normal TRB that isn't full, by what the device does next.
    fn move_out_by<M: GuestMemory, D: UasDevice>(
        &mut self,
        memory: &mut M,
        events: &mut EventRing,
        consumer: &mut Consumer,
        device: &mut D,
        command: BulkCommand,
        front: Front,
        buffer: Buffer,
    ) -> Stepped
        requires room { has_place (M.contents memory.old) events.old ≡ true }
        requires home { has_home (M.contents memory.old) front.home ≡ true }
        requires left { consumer.old.progress.moved < buffer.length }
        ensures step { (record { ring = record { memory = M.contents memory.new; events = events.new; consumer = consumer.new }; bulk = self.new; device = D.state device.new }, result)
            ≡ out_by D.kind (D.kind.phase (D.state device.old) 1) (record { ring = record { memory = M.contents memory.old; events = events.old; consumer = consumer.old }; bulk = self.old; device = D.state device.old }) command front buffer }
        ensures same_loan { M.loan memory.new ≡ M.loan memory.old }
    {
        match device.phase(BULK_TAG) {
            Phase::Absent => plain(Acted::Waits),
            Phase::Gives(count) => self.halt_out(device, command, count),
            Phase::Takes(count) => {
                self.move_out(
                    memory, events, consumer, device, command, count, front, buffer,
                );
                plain(Acted::Worked)
            }
            Phase::Ended(_) => {
                self.drop_data(memory, events, consumer, device, command, front, buffer);
                plain(Acted::Worked)
            }
        }
    }

    /// Takes a Normal TRB of a command's data.
    #[tactic(auto, unfolding(crate::specs::Outgoing::out_ran))]
    fn run_out<M: GuestMemory, D: UasDevice>(
        &mut self,
        memory: &mut M,
        events: &mut EventRing,
        consumer: &mut Consumer,
        device: &mut D,
        command: BulkCommand,
        front: Front,
        buffer: Buffer,
    ) -> Stepped
        requires room { has_place (M.contents memory.old) events.old ≡ true }
        requires home { has_home (M.contents memory.old) front.home ≡ true }
        ensures step { (record { ring = record { memory = M.contents memory.new; events = events.new; consumer = consumer.new }; bulk = self.new; device = D.state device.new }, result)
            ≡ out_ran D.kind (record { ring = record { memory = M.contents memory.old; events = events.old; consumer = consumer.old }; bulk = self.old; device = D.state device.old }) command front buffer }
        ensures same_loan { M.loan memory.new ≡ M.loan memory.old }
    {
        if buffer.length <= consumer.progress.moved {
            consumer.fill(memory, events, front, buffer.flags);
            return plain(Acted::Worked);
        }
        if self.has_chunk() {
            return self.halt_out(device, command, 0);
        }
        if command.is_kept {
            self.drop_data(memory, events, consumer, device, command, front, buffer);
            return plain(Acted::Worked);
        }
        self.move_out_by(memory, events, consumer, device, command, front, buffer)
    }

    /// Takes a Normal TRB that is no data: drops the rest of a TD that has some.
    fn take_beside<M: GuestMemory, D: UasDevice>(
        &mut self,
        memory: &mut M,
        events: &mut EventRing,
        consumer: &mut Consumer,
        device: &mut D,
        front: Front,
        buffer: Buffer,
    ) -> Stepped
        requires room { has_place (M.contents memory.old) events.old ≡ true }
        requires home { has_home (M.contents memory.old) front.home ≡ true }
        ensures step { (record { ring = record { memory = M.contents memory.new; events = events.new; consumer = consumer.new }; bulk = self.new; device = D.state device.new }, result)
            ≡ out_beside D.kind (record { ring = record { memory = M.contents memory.old; events = events.old; consumer = consumer.old }; bulk = self.old; device = D.state device.old }) front buffer }
        ensures same_loan { M.loan memory.new ≡ M.loan memory.old }
    {
        if consumer.progress.fed {
            self.drop_rest(memory, events, consumer, device, front, buffer);
            plain(Acted::Worked)
        } else {
            plain(Acted::Waits)
        }
    }

    /// Takes a Normal TRB of a CBW, or drops it where its TD has data.
    fn take_awaited<M: GuestMemory, D: UasDevice>(
        &mut self,
        memory: &mut M,
        events: &mut EventRing,
        consumer: &mut Consumer,
        device: &mut D,
        front: Front,
        buffer: Buffer,
    ) -> Stepped
        requires room { has_place (M.contents memory.old) events.old ≡ true }
        requires home { has_home (M.contents memory.old) front.home ≡ true }
        ensures step { (record { ring = record { memory = M.contents memory.new; events = events.new; consumer = consumer.new }; bulk = self.new; device = D.state device.new }, result)
            ≡ out_staged D.kind BulkStage.Awaits (record { ring = record { memory = M.contents memory.old; events = events.old; consumer = consumer.old }; bulk = self.old; device = D.state device.old }) front buffer }
        ensures same_loan { M.loan memory.new ≡ M.loan memory.old }
    {
        if consumer.progress.fed {
            self.drop_rest(memory, events, consumer, device, front, buffer);
            return plain(Acted::Worked);
        }
        Stepped {
            halts: self.run_cbw(memory, events, consumer, device, front, buffer),
            acted: Acted::Worked,
            ends: false,
        }
    }

    /// Takes a Normal TRB of a TD whose bytes move.
    pub(crate) fn take_out<M: GuestMemory, D: UasDevice>(
        &mut self,
        memory: &mut M,
        events: &mut EventRing,
        consumer: &mut Consumer,
        device: &mut D,
        front: Front,
        buffer: Buffer,
    ) -> Stepped
        requires room { has_place (M.contents memory.old) events.old ≡ true }
        requires home { has_home (M.contents memory.old) front.home ≡ true }
        ensures step { (record { ring = record { memory = M.contents memory.new; events = events.new; consumer = consumer.new }; bulk = self.new; device = D.state device.new }, result)
            ≡ out_staged D.kind self.old.stage (record { ring = record { memory = M.contents memory.old; events = events.old; consumer = consumer.old }; bulk = self.old; device = D.state device.old }) front buffer }
        ensures same_loan { M.loan memory.new ≡ M.loan memory.old }
    {
        match self.stage {
            BulkStage::Awaits => {
                self.take_awaited(memory, events, consumer, device, front, buffer)
            }
            BulkStage::Faulty => plain(Acted::Waits),
            BulkStage::Moves { command } => if command.takes_bytes() {
                self.run_out(memory, events, consumer, device, command, front, buffer)
            } else {
                self.take_beside(memory, events, consumer, device, front, buffer)
            },
            BulkStage::Tells { .. } => {
                self.take_beside(memory, events, consumer, device, front, buffer)
            }
        }
    }

    /// Whether a TRB with these flags, which isn't a Normal one, ends the TD of a CBW.
    fn ends_cbw(&self, consumer: &Consumer, flags: Flags) -> bool
        ensures { result ≡ (is_awaiting self.now.stage && self.now.gathers && runs consumer.now.progress.ending && not flags.chain) }
    {
        matches!(self.stage, BulkStage::Awaits)
            && self.gathers
            && consumer.progress.ending.runs()
            && !flags.chain
    }

    /// Takes a TRB that isn't a Normal one, and may be the last of a CBW.
    pub(crate) fn take_out_last<M: GuestMemory, D: UasDevice>(
        &mut self,
        memory: &mut M,
        events: &mut EventRing,
        consumer: &mut Consumer,
        device: &mut D,
        front: Front,
        trb: PipeTrb,
        flags: Flags,
    ) -> Stepped
        requires room { has_place (M.contents memory.old) events.old ≡ true }
        requires home { has_home (M.contents memory.old) front.home ≡ true }
        ensures step { (record { ring = record { memory = M.contents memory.new; events = events.new; consumer = consumer.new }; bulk = self.new; device = D.state device.new }, result)
            ≡ out_last D.kind (record { ring = record { memory = M.contents memory.old; events = events.old; consumer = consumer.old }; bulk = self.old; device = D.state device.old }) front trb flags }
        ensures same_loan { M.loan memory.new ≡ M.loan memory.old }
    {
        let last = self.ends_cbw(consumer, flags);
        consumer.take_other(memory, events, front, trb);
        Stepped {
            halts: self.receive_if(device, last),
            acted: Acted::Worked,
            ends: false,
        }
    }
}
