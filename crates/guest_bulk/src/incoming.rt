//! Data on Bulk-In.
ghost use Rattle.std.specs.Prelude.{◌≡◌, ℕ, ◌+◌, ◌-◌, ◌<◌, ◌≤◌, ◌^◌, length as list_length, true};
ghost use Rattle.guest_pipes.specs.Step.{World, has_place, has_home};
ghost use Rattle.guest_bulk.specs.Commands.{BulkWorld};
ghost use Rattle.guest_bulk.specs.Incoming.{command_given, in_beside, in_broken, in_by, in_last_by, in_ran, in_staged};
ghost use Rattle.guest_bulk.specs.Incoming.{moved_if, refilled, refilled_moved, settled_told, told_staged};

use crate::bulk::{Bulk, BulkCommand, BulkStage, Halting, Stepped};
use crate::command::BULK_TAG;
use crate::dropping::plain;
use crate::verdict::{with_given, with_taking};
use bulk_only::CSW_BYTES;
use guest_memory::GuestMemory;
use guest_memory::rings::{EventRing, Flags, Front, PipeTrb};
use guest_pipes::{Acted, Consumer};
use guest_tags::{Buffer, Phase, UasDevice};

impl BulkCommand {
    /// The command once the device gave so many bytes more.
    fn with_given(self, count: usize) -> BulkCommand
        ensures { result ≡ command_given self count }
    {
        BulkCommand {
            done: with_given(self.done, count as u64),
            ..self
        }
    }
}

impl Bulk {
    /// Holds the device's next chunk.
    #[tactic(auto, unfolding(crate::specs::Incoming::refilled))]
    fn refill<D: UasDevice>(&mut self, device: &mut D, command: BulkCommand, count: usize)
        requires gives { D.kind.phase (D.state device.old) 1 ≡ Phase.Gives count }
        requires most { count ≤ 4096 }
        ensures step { (ring : World) → record { ring = ring; bulk = self.new; device = D.state device.new }
            ≡ refilled D.kind (record { ring = ring; bulk = self.old; device = D.state device.old }) command }
    {
        self.chunk.refill(device, BULK_TAG, count);
        self.stage = BulkStage::Moves {
            command: command.with_given(self.chunk.held()),
        };
    }

    /// Moves what there is of the chunk that the device just gave.
    fn move_given<M: GuestMemory, D: UasDevice>(
        &mut self,
        memory: &mut M,
        events: &mut EventRing,
        consumer: &mut Consumer,
        device: &mut D,
        command: BulkCommand,
        front: Front,
        buffer: Buffer,
    )
        requires room { has_place (M.contents memory.old) events.old ≡ true }
        requires home { has_home (M.contents memory.old) front.home ≡ true }
        requires left { consumer.old.progress.moved < buffer.length }
        requires owed { 1 ≤ command.left }
        ensures step { record { ring = record { memory = M.contents memory.new; events = events.new; consumer = consumer.new }; bulk = self.new; device = D.state device.new }
            ≡ refilled_moved D.kind (record { ring = record { memory = M.contents memory.old; events = events.old; consumer = consumer.old }; bulk = self.old; device = D.state device.old }) command front buffer }
        ensures same_loan { M.loan memory.new ≡ M.loan memory.old }
    {
        if self.has_chunk() {
            let command = command.with_given(self.chunk.held());
            self.move_chunk(memory, events, consumer, device, command, front, buffer);
        }
    }

    /// The device takes in place of giving: Bulk-In is halted.
    pub(crate) fn halt_in<D: UasDevice>(
        &mut self,
        device: &mut D,
        command: BulkCommand,
        count: usize,
    ) -> Stepped
        ensures step { (ring : World) → (record { ring = ring; bulk = self.new; device = D.state device.new }, result)
            ≡ in_broken D.kind (record { ring = ring; bulk = self.old; device = D.state device.old }) command count }
    {
        self.break_off(device, command, with_taking(command.done, count as u64));
        Stepped {
            acted: Acted::Worked,
            halts: Halting::BulkIn,
            ends: true,
        }
    }

    /// Takes a Normal TRB that isn't full, by what the device does next.
    fn move_in_by<M: GuestMemory, D: UasDevice>(
        &mut self,
        memory: &mut M,
        events: &mut EventRing,
        consumer: &mut Consumer,
        device: &mut D,
        command: BulkCommand,
        front: Front,
        buffer: Buffer,
    ) -> Stepped
        requires room { has_place (M.contents memory.old) events.old ≡ true }
        requires home { has_home (M.contents memory.old) front.home ≡ true }
        requires left { consumer.old.progress.moved < buffer.length }
        requires owed { 1 ≤ command.left }
        ensures step { (record { ring = record { memory = M.contents memory.new; events = events.new; consumer = consumer.new }; bulk = self.new; device = D.state device.new }, result)
            ≡ in_by D.kind (D.kind.phase (D.state device.old) 1) (record { ring = record { memory = M.contents memory.old; events = events.old; consumer = consumer.old }; bulk = self.old; device = D.state device.old }) command front buffer }
        ensures same_loan { M.loan memory.new ≡ M.loan memory.old }
    {
        match device.phase(BULK_TAG) {
            Phase::Absent => plain(Acted::Waits),
            Phase::Gives(count) => {
                self.refill(device, command, count);
                self.move_given(memory, events, consumer, device, command, front, buffer);
                plain(Acted::Worked)
            }
            Phase::Takes(count) => self.halt_in(device, command, count),
            Phase::Ended(_) => {
                self.move_zeros(memory, events, consumer, device, command, front, buffer);
                plain(Acted::Worked)
            }
        }
    }

    /// Takes a Normal TRB of a command's data.
    #[tactic(auto, unfolding(crate::specs::Incoming::in_ran))]
    fn run_in<M: GuestMemory, D: UasDevice>(
        &mut self,
        memory: &mut M,
        events: &mut EventRing,
        consumer: &mut Consumer,
        device: &mut D,
        command: BulkCommand,
        front: Front,
        buffer: Buffer,
    ) -> Stepped
        requires room { has_place (M.contents memory.old) events.old ≡ true }
        requires home { has_home (M.contents memory.old) front.home ≡ true }
        requires owed { 1 ≤ command.left }
        ensures step { (record { ring = record { memory = M.contents memory.new; events = events.new; consumer = consumer.new }; bulk = self.new; device = D.state device.new }, result)
            ≡ in_ran D.kind (record { ring = record { memory = M.contents memory.old; events = events.old; consumer = consumer.old }; bulk = self.old; device = D.state device.old }) command front buffer }
        ensures same_loan { M.loan memory.new ≡ M.loan memory.old }
    {
        if buffer.length <= consumer.progress.moved {
            consumer.fill(memory, events, front, buffer.flags);
            return plain(Acted::Worked);
        }
        if self.has_chunk() {
            self.move_chunk(memory, events, consumer, device, command, front, buffer);
            return plain(Acted::Worked);
        }
        if command.is_kept {
            self.move_zeros(memory, events, consumer, device, command, front, buffer);
            return plain(Acted::Worked);
        }
        self.move_in_by(memory, events, consumer, device, command, front, buffer)
    }

    /// Takes a Normal TRB where the command has settled, or waits for that.
    fn tell_settled<M: GuestMemory, D: UasDevice>(
        &mut self,
        memory: &mut M,
        events: &mut EventRing,
        consumer: &mut Consumer,
        device: &mut D,
        ends: bool,
        front: Front,
        buffer: Buffer,
    ) -> Stepped
        requires room { has_place (M.contents memory.old) events.old ≡ true }
        requires home { has_home (M.contents memory.old) front.home ≡ true }
        ensures step { (record { ring = record { memory = M.contents memory.new; events = events.new; consumer = consumer.new }; bulk = self.new; device = D.state device.new }, result)
            ≡ settled_told D.kind (record { ring = record { memory = M.contents memory.old; events = events.old; consumer = consumer.old }; bulk = self.old; device = D.state device.old }, ends) front buffer }
        ensures same_loan { M.loan memory.new ≡ M.loan memory.old }
    {
        match self.stage {
            BulkStage::Tells { csw, sent } => {
                self.run_csw(memory, events, consumer, device, csw, sent, front, buffer);
                Stepped {
                    acted: Acted::Worked,
                    halts: Halting::Nothing,
                    ends,
                }
            }
            BulkStage::Awaits | BulkStage::Faulty | BulkStage::Moves { .. } => plain(Acted::Waits),
        }
    }

    /// Takes a Normal TRB where no data go to the host.
    fn take_in_beside<M: GuestMemory, D: UasDevice>(
        &mut self,
        memory: &mut M,
        events: &mut EventRing,
        consumer: &mut Consumer,
        device: &mut D,
        command: BulkCommand,
        front: Front,
        buffer: Buffer,
    ) -> Stepped
        requires room { has_place (M.contents memory.old) events.old ≡ true }
        requires home { has_home (M.contents memory.old) front.home ≡ true }
        ensures step { (record { ring = record { memory = M.contents memory.new; events = events.new; consumer = consumer.new }; bulk = self.new; device = D.state device.new }, result)
            ≡ in_beside D.kind (record { ring = record { memory = M.contents memory.old; events = events.old; consumer = consumer.old }; bulk = self.old; device = D.state device.old }) command front buffer }
        ensures same_loan { M.loan memory.new ≡ M.loan memory.old }
    {
        if command.takes_bytes() {
            return plain(Acted::Waits);
        }
        if consumer.progress.fed {
            self.close_data(memory, events, consumer, device, front, buffer);
            return plain(Acted::Worked);
        }
        let ends = self.settle(device, command);
        self.tell_settled(memory, events, consumer, device, ends, front, buffer)
    }

    /// Takes a Normal TRB of a TD whose bytes move.
    pub(crate) fn take_in<M: GuestMemory, D: UasDevice>(
        &mut self,
        memory: &mut M,
        events: &mut EventRing,
        consumer: &mut Consumer,
        device: &mut D,
        front: Front,
        buffer: Buffer,
    ) -> Stepped
        requires room { has_place (M.contents memory.old) events.old ≡ true }
        requires home { has_home (M.contents memory.old) front.home ≡ true }
        ensures step { (record { ring = record { memory = M.contents memory.new; events = events.new; consumer = consumer.new }; bulk = self.new; device = D.state device.new }, result)
            ≡ in_staged D.kind self.old.stage (record { ring = record { memory = M.contents memory.old; events = events.old; consumer = consumer.old }; bulk = self.old; device = D.state device.old }) front buffer }
        ensures same_loan { M.loan memory.new ≡ M.loan memory.old }
    {
        match self.stage {
            BulkStage::Awaits | BulkStage::Faulty => plain(Acted::Waits),
            BulkStage::Moves { command } => if command.gives_bytes() {
                self.run_in(memory, events, consumer, device, command, front, buffer)
            } else {
                self.take_in_beside(memory, events, consumer, device, command, front, buffer)
            },
            BulkStage::Tells { csw, sent } => {
                self.run_csw(memory, events, consumer, device, csw, sent, front, buffer);
                plain(Acted::Worked)
            }
        }
    }

    /// Takes a TRB that isn't a Normal one, and may be the last of a TD that has bytes of a CSW.
    pub(crate) fn take_in_last<M: GuestMemory, D: UasDevice>(
        &mut self,
        memory: &mut M,
        events: &mut EventRing,
        consumer: &mut Consumer,
        device: &mut D,
        front: Front,
        trb: PipeTrb,
        flags: Flags,
    )
        requires room { has_place (M.contents memory.old) events.old ≡ true }
        requires home { has_home (M.contents memory.old) front.home ≡ true }
        ensures step { record { ring = record { memory = M.contents memory.new; events = events.new; consumer = consumer.new }; bulk = self.new; device = D.state device.new }
            ≡ in_last_by D.kind self.old.stage (record { ring = record { memory = M.contents memory.old; events = events.old; consumer = consumer.old }; bulk = self.old; device = D.state device.old }) front trb flags }
        ensures same_loan { M.loan memory.new ≡ M.loan memory.old }
    {
        match self.stage {
            BulkStage::Tells { csw, sent } if sent != 0 && !flags.chain => {
                let out = sent >= CSW_BYTES;
                self.end_csw(
                    memory, events, consumer, device, out, csw, front, trb, flags,
                );
            }
            BulkStage::Awaits
            | BulkStage::Faulty
            | BulkStage::Moves { .. }
            | BulkStage::Tells { .. } => consumer.take_other(memory, events, front, trb),
        }
    }
}
