//! Bytes that go to the host: those of a chunk, and zeros.
ghost use Rattle.std.specs.Prelude.{◌≡◌, ℕ, ◌+◌, ◌-◌, ◌<◌, ◌≤◌, ◌^◌, length as list_length, true};
ghost use Rattle.guest_memory.specs.Bytes.{is_there};
ghost use Rattle.guest_pipes.specs.Step.{has_place, has_home};
ghost use Rattle.guest_bulk.specs.Commands.{BulkWorld};
ghost use Rattle.guest_bulk.specs.Incoming.{chunk_moved, chunk_poured, in_filled, zeros_moved, zeros_poured};

use crate::bulk::{Bulk, BulkCommand, BulkStage};
use guest_memory::GuestMemory;
use guest_memory::rings::{EventRing, Front};
use guest_pipes::{Consumer, there};
use guest_tags::{Buffer, UasDevice};

/// How many zeros go into a TRB in a step at most.
pub(crate) const ZERO_BYTES: usize = 4096;

const _: () = prove!(ZERO_BYTES == 4096);

impl Bulk {
    /// Moves so many bytes of the chunk to an address.
    #[tactic(auto, unfolding(crate::specs::Incoming::chunk_poured))]
    fn pour_chunk<M: GuestMemory, D: UasDevice>(
        &mut self,
        memory: &mut M,
        events: &mut EventRing,
        consumer: &mut Consumer,
        device: &mut D,
        command: BulkCommand,
        to: u64,
        count: usize,
    )
        requires room { has_place (M.contents memory.old) events.old ≡ true }
        requires there { is_there (M.contents memory.old) to count ≡ true }
        requires has { count ≤ list_length self.old.chunk }
        requires most { count ≤ 4096 }
        requires fits { consumer.old.progress.moved + count < 2 ^ 32 }
        ensures step { record { ring = record { memory = M.contents memory.new; events = events.new; consumer = consumer.new }; bulk = self.new; device = D.state device.new }
            ≡ chunk_poured D.kind (record { ring = record { memory = M.contents memory.old; events = events.old; consumer = consumer.old }; bulk = self.old; device = D.state device.old }) command to count }
        ensures same_loan { M.loan memory.new ≡ M.loan memory.old }
        ensures there { (at n : ℕ) → is_there (M.contents memory.old) at n ≡ true → is_there (M.contents memory.new) at n ≡ true }
        ensures room { has_place (M.contents memory.new) events.new ≡ true }
    {
        consumer.pour(memory, events, to, self.chunk.front(count));
        self.chunk.advance(count);
        self.stage = BulkStage::Moves {
            command: command.with_moved(count as u32),
        };
    }

    /// Moves so many zeros to an address.
    #[tactic(auto, using(crate::proofs::Zeros::front_of_zeros), unfolding(crate::specs::Incoming::zeros_poured))]
    fn pour_zeros<M: GuestMemory, D: UasDevice>(
        &mut self,
        memory: &mut M,
        events: &mut EventRing,
        consumer: &mut Consumer,
        device: &mut D,
        command: BulkCommand,
        to: u64,
        count: usize,
    )
        requires room { has_place (M.contents memory.old) events.old ≡ true }
        requires there { is_there (M.contents memory.old) to count ≡ true }
        requires most { count ≤ 4096 }
        requires fits { consumer.old.progress.moved + count < 2 ^ 32 }
        ensures step { record { ring = record { memory = M.contents memory.new; events = events.new; consumer = consumer.new }; bulk = self.new; device = D.state device.new }
            ≡ zeros_poured D.kind (record { ring = record { memory = M.contents memory.old; events = events.old; consumer = consumer.old }; bulk = self.old; device = D.state device.old }) command to count }
        ensures same_loan { M.loan memory.new ≡ M.loan memory.old }
        ensures there { (at n : ℕ) → is_there (M.contents memory.old) at n ≡ true → is_there (M.contents memory.new) at n ≡ true }
        ensures room { has_place (M.contents memory.new) events.new ≡ true }
    {
        let zeros = [0; ZERO_BYTES];
        consumer.pour(memory, events, to, &zeros[..count]);
        self.stage = BulkStage::Moves {
            command: command.with_moved(count as u32),
        };
    }

    /// Takes the TRB in front where it is full.
    fn fill_in<M: GuestMemory, D: UasDevice>(
        &mut self,
        memory: &mut M,
        events: &mut EventRing,
        consumer: &mut Consumer,
        device: &mut D,
        full: bool,
        front: Front,
        buffer: Buffer,
    )
        requires room { has_place (M.contents memory.old) events.old ≡ true }
        requires home { has_home (M.contents memory.old) front.home ≡ true }
        ensures step { record { ring = record { memory = M.contents memory.new; events = events.new; consumer = consumer.new }; bulk = self.new; device = D.state device.new }
            ≡ in_filled D.kind full (record { ring = record { memory = M.contents memory.old; events = events.old; consumer = consumer.old }; bulk = self.old; device = D.state device.old }) front buffer }
        ensures same_loan { M.loan memory.new ≡ M.loan memory.old }
    {
        consumer.fill_if(memory, events, full, front, buffer.flags);
    }

    /// Moves what there is of the chunk into a Normal TRB.
    #[tactic(auto, unfolding(crate::specs::Incoming::chunk_moved))]
    pub(crate) fn move_chunk<M: GuestMemory, D: UasDevice>(
        &mut self,
        memory: &mut M,
        events: &mut EventRing,
        consumer: &mut Consumer,
        device: &mut D,
        command: BulkCommand,
        front: Front,
        buffer: Buffer,
    )
        requires room { has_place (M.contents memory.old) events.old ≡ true }
        requires home { has_home (M.contents memory.old) front.home ≡ true }
        requires left { consumer.old.progress.moved < buffer.length }
        requires some { 1 ≤ list_length self.old.chunk }
        requires owed { 1 ≤ command.left }
        ensures step { record { ring = record { memory = M.contents memory.new; events = events.new; consumer = consumer.new }; bulk = self.new; device = D.state device.new }
            ≡ chunk_moved D.kind (record { ring = record { memory = M.contents memory.old; events = events.old; consumer = consumer.old }; bulk = self.old; device = D.state device.old }) command front buffer }
        ensures same_loan { M.loan memory.new ≡ M.loan memory.old }
    {
        let moved = consumer.progress.moved;
        let room = (buffer.length - moved) as usize;
        let count = self.chunk.held().min(room).min(command.left as usize);
        let full = moved + count as u32 == buffer.length;
        match there(memory, buffer.pointer, moved, count) {
            Some(to) => {
                self.pour_chunk(memory, events, consumer, device, command, to, count);
                self.fill_in(memory, events, consumer, device, full, front, buffer);
            }
            None => consumer.fail(memory, events, front, buffer.length, buffer.flags),
        }
    }

    /// Moves zeros into a Normal TRB.
    #[tactic(auto, unfolding(crate::specs::Incoming::zeros_moved))]
    pub(crate) fn move_zeros<M: GuestMemory, D: UasDevice>(
        &mut self,
        memory: &mut M,
        events: &mut EventRing,
        consumer: &mut Consumer,
        device: &mut D,
        command: BulkCommand,
        front: Front,
        buffer: Buffer,
    )
        requires room { has_place (M.contents memory.old) events.old ≡ true }
        requires home { has_home (M.contents memory.old) front.home ≡ true }
        requires left { consumer.old.progress.moved < buffer.length }
        requires owed { 1 ≤ command.left }
        ensures step { record { ring = record { memory = M.contents memory.new; events = events.new; consumer = consumer.new }; bulk = self.new; device = D.state device.new }
            ≡ zeros_moved D.kind (record { ring = record { memory = M.contents memory.old; events = events.old; consumer = consumer.old }; bulk = self.old; device = D.state device.old }) command front buffer }
        ensures same_loan { M.loan memory.new ≡ M.loan memory.old }
    {
        let moved = consumer.progress.moved;
        let room = (buffer.length - moved) as usize;
        let count = ZERO_BYTES.min(room).min(command.left as usize);
        let full = moved + count as u32 == buffer.length;
        match there(memory, buffer.pointer, moved, count) {
            Some(to) => {
                self.pour_zeros(memory, events, consumer, device, command, to, count);
                self.fill_in(memory, events, consumer, device, full, front, buffer);
            }
            None => consumer.fail(memory, events, front, buffer.length, buffer.flags),
        }
    }
}
