//! Steps of the data-in pipe for a tag.
ghost use Rattle.std.specs.Prelude.{◌≡◌, ℕ, ◌+◌, ◌-◌, ◌<◌, ◌≤◌, ◌^◌, length as list_length, take, true, false, Some, None};
ghost use Rattle.std.specs.Result.{result_ok};
ghost use Rattle.guest_memory.specs.Bytes.{is_there};
ghost use Rattle.guest_pipes.specs.Step.{World, has_place, has_home};
ghost use Rattle.guest_pipes.specs.Gate.{after};
ghost use Rattle.guest_tags.specs.DataIn.{acted, closed, closed_if, ends_td, filled_ring, gave_by, given_to, has_chunk, lost, moved_if, moved_in, normal, ran, refilled, stepped_in, took};
ghost use Rattle.guest_pipes.specs.Pipe.{home_of};

use crate::buffer::Buffer;
use crate::device::{Phase, UasDevice};
use crate::tag::Tag;
use guest_memory::rings::{EventRing, Found, Front, PipeTrb};
use guest_memory::{GuestMemory, Outside};
use guest_pipes::{Acted, Consumer, Ending, Pipe, there};

impl Tag {
    /// Whether something of a chunk is left.
    pub fn has_chunk(&self) -> bool
        ensures { result ≡ has_chunk self.now }
    {
        self.chunk.held() != 0
    }

    /// Whether its task, which has ended, ends the TD in front, which has bytes of it or not.
    pub fn ends_td(&self, fed: bool) -> bool
        ensures { result ≡ ends_td self.now fed }
    {
        !self.gave || fed
    }

    /// Moves so many bytes of the chunk to an address.
    #[tactic(auto, unfolding(crate::specs::DataIn::given_to))]
    fn give_to<M: GuestMemory, D: UasDevice>(
        &mut self,
        memory: &mut M,
        events: &mut EventRing,
        consumer: &mut Consumer,
        device: &mut D,
        to: u64,
        count: usize,
    )
        requires room { has_place (M.contents memory.old) events.old ≡ true }
        requires there { is_there (M.contents memory.old) to count ≡ true }
        requires has { count ≤ list_length self.old.chunk }
        requires most { count ≤ 4096 }
        requires fits { consumer.old.progress.moved + count < 2 ^ 32 }
        ensures step { record { ring = record { memory = M.contents memory.new; events = events.new; consumer = consumer.new }; tag = self.new; device = D.state device.new }
            ≡ given_to D.kind (record { ring = record { memory = M.contents memory.old; events = events.old; consumer = consumer.old }; tag = self.old; device = D.state device.old }) to count }
        ensures same_loan { M.loan memory.new ≡ M.loan memory.old }
        ensures there { (at n : ℕ) → is_there (M.contents memory.old) at n ≡ true → is_there (M.contents memory.new) at n ≡ true }
        ensures room { has_place (M.contents memory.new) events.new ≡ true }
    {
        consumer.pour(memory, events, to, self.chunk.front(count));
        self.chunk.advance(count);
        self.gave = true;
    }

    /// Ends the TD at a TRB whose buffer isn't there: what the task still gives is dropped.
    #[tactic(auto, unfolding(crate::specs::DataIn::lost))]
    fn lose<M: GuestMemory, D: UasDevice>(
        &mut self,
        memory: &mut M,
        events: &mut EventRing,
        consumer: &mut Consumer,
        device: &mut D,
        front: Front,
        buffer: Buffer,
    )
        requires room { has_place (M.contents memory.old) events.old ≡ true }
        requires home { has_home (M.contents memory.old) front.home ≡ true }
        ensures step { record { ring = record { memory = M.contents memory.new; events = events.new; consumer = consumer.new }; tag = self.new; device = D.state device.new }
            ≡ lost D.kind (record { ring = record { memory = M.contents memory.old; events = events.old; consumer = consumer.old }; tag = self.old; device = D.state device.old }) front buffer }
        ensures same_loan { M.loan memory.new ≡ M.loan memory.old }
    {
        consumer.fail(memory, events, front, buffer.length, buffer.flags);
        self.chunk.clear();
        self.gave = true;
        self.drops = true;
    }

    /// Ends the TD in front as a short packet.
    #[tactic(auto, unfolding(crate::specs::DataIn::closed))]
    fn close<M: GuestMemory, D: UasDevice>(
        &mut self,
        memory: &mut M,
        events: &mut EventRing,
        consumer: &mut Consumer,
        device: &mut D,
        front: Front,
        buffer: Buffer,
    )
        requires room { has_place (M.contents memory.old) events.old ≡ true }
        requires home { has_home (M.contents memory.old) front.home ≡ true }
        requires left { consumer.old.progress.moved ≤ buffer.length }
        ensures step { record { ring = record { memory = M.contents memory.new; events = events.new; consumer = consumer.new }; tag = self.new; device = D.state device.new }
            ≡ closed D.kind (record { ring = record { memory = M.contents memory.old; events = events.old; consumer = consumer.old }; tag = self.old; device = D.state device.old }) front buffer }
        ensures same_loan { M.loan memory.new ≡ M.loan memory.old }
    {
        let left = buffer.length - consumer.progress.moved;
        consumer.shorten(memory, events, front, left, buffer.flags);
        self.gave = true;
    }

    /// Takes the TRB in front where it is full.
    fn fill_ring<M: GuestMemory, D: UasDevice>(
        &mut self,
        memory: &mut M,
        events: &mut EventRing,
        consumer: &mut Consumer,
        device: &mut D,
        full: bool,
        front: Front,
        buffer: Buffer,
    )
        requires room { has_place (M.contents memory.old) events.old ≡ true }
        requires home { has_home (M.contents memory.old) front.home ≡ true }
        ensures step { record { ring = record { memory = M.contents memory.new; events = events.new; consumer = consumer.new }; tag = self.new; device = D.state device.new }
            ≡ filled_ring D.kind full (record { ring = record { memory = M.contents memory.old; events = events.old; consumer = consumer.old }; tag = self.old; device = D.state device.old }) front buffer }
        ensures same_loan { M.loan memory.new ≡ M.loan memory.old }
    {
        consumer.fill_if(memory, events, full, front, buffer.flags);
    }

    /// Moves what there is of the chunk into a Normal TRB.
    #[tactic(auto, unfolding(crate::specs::DataIn::moved_in))]
    fn move_in<M: GuestMemory, D: UasDevice>(
        &mut self,
        memory: &mut M,
        events: &mut EventRing,
        consumer: &mut Consumer,
        device: &mut D,
        front: Front,
        buffer: Buffer,
    )
        requires room { has_place (M.contents memory.old) events.old ≡ true }
        requires home { has_home (M.contents memory.old) front.home ≡ true }
        requires left { consumer.old.progress.moved < buffer.length }
        requires some { 1 ≤ list_length self.old.chunk }
        ensures step { record { ring = record { memory = M.contents memory.new; events = events.new; consumer = consumer.new }; tag = self.new; device = D.state device.new }
            ≡ moved_in D.kind (record { ring = record { memory = M.contents memory.old; events = events.old; consumer = consumer.old }; tag = self.old; device = D.state device.old }) front buffer }
        ensures same_loan { M.loan memory.new ≡ M.loan memory.old }
    {
        let moved = consumer.progress.moved;
        let count = self.chunk.held().min((buffer.length - moved) as usize);
        let full = moved + count as u32 == buffer.length;
        match there(memory, buffer.pointer, moved, count) {
            Some(to) => {
                self.give_to(memory, events, consumer, device, to, count);
                self.fill_ring(memory, events, consumer, device, full, front, buffer);
            }
            None => self.lose(memory, events, consumer, device, front, buffer),
        }
    }

    /// Moves what there is of the chunk into a Normal TRB, where there is something.
    fn move_if<M: GuestMemory, D: UasDevice>(
        &mut self,
        memory: &mut M,
        events: &mut EventRing,
        consumer: &mut Consumer,
        device: &mut D,
        some: bool,
        front: Front,
        buffer: Buffer,
    )
        requires room { has_place (M.contents memory.old) events.old ≡ true }
        requires home { has_home (M.contents memory.old) front.home ≡ true }
        requires left { consumer.old.progress.moved < buffer.length }
        requires some { some ≡ true → 1 ≤ list_length self.old.chunk }
        ensures step { record { ring = record { memory = M.contents memory.new; events = events.new; consumer = consumer.new }; tag = self.new; device = D.state device.new }
            ≡ moved_if D.kind some (record { ring = record { memory = M.contents memory.old; events = events.old; consumer = consumer.old }; tag = self.old; device = D.state device.old }) front buffer }
        ensures same_loan { M.loan memory.new ≡ M.loan memory.old }
    {
        if some {
            self.move_in(memory, events, consumer, device, front, buffer);
        }
    }

    /// Holds the device's next chunk.
    #[tactic(auto, unfolding(crate::specs::DataIn::refilled))]
    fn refill<D: UasDevice>(&mut self, device: &mut D, tag: u16, count: usize)
        requires gives { D.kind.phase (D.state device.old) tag ≡ Phase.Gives count }
        requires most { count ≤ 4096 }
        ensures step { (ring : World) → record { ring = ring; tag = self.new; device = D.state device.new }
            ≡ refilled D.kind (record { ring = ring; tag = self.old; device = D.state device.old }) tag }
    {
        self.chunk.refill(device, tag, count);
    }

    /// Ends the TD in front where it is the one that the task ends.
    fn close_if<M: GuestMemory, D: UasDevice>(
        &mut self,
        memory: &mut M,
        events: &mut EventRing,
        consumer: &mut Consumer,
        device: &mut D,
        closes: bool,
        front: Front,
        buffer: Buffer,
    ) -> Acted
        requires room { has_place (M.contents memory.old) events.old ≡ true }
        requires home { has_home (M.contents memory.old) front.home ≡ true }
        requires left { consumer.old.progress.moved ≤ buffer.length }
        ensures step { (record { ring = record { memory = M.contents memory.new; events = events.new; consumer = consumer.new }; tag = self.new; device = D.state device.new }, result)
            ≡ closed_if D.kind closes (record { ring = record { memory = M.contents memory.old; events = events.old; consumer = consumer.old }; tag = self.old; device = D.state device.old }) front buffer }
        ensures same_loan { M.loan memory.new ≡ M.loan memory.old }
    {
        if closes {
            self.close(memory, events, consumer, device, front, buffer);
            Acted::Worked
        } else {
            Acted::Waits
        }
    }

    /// Takes a Normal TRB where nothing of a chunk is left, by what the device does next.
    fn give_by<M: GuestMemory, D: UasDevice>(
        &mut self,
        memory: &mut M,
        events: &mut EventRing,
        consumer: &mut Consumer,
        device: &mut D,
        tag: u16,
        front: Front,
        buffer: Buffer,
    ) -> Acted
        requires room { has_place (M.contents memory.old) events.old ≡ true }
        requires home { has_home (M.contents memory.old) front.home ≡ true }
        requires left { consumer.old.progress.moved < buffer.length }
        ensures step { (record { ring = record { memory = M.contents memory.new; events = events.new; consumer = consumer.new }; tag = self.new; device = D.state device.new }, result)
            ≡ gave_by D.kind (D.kind.phase (D.state device.old) tag) (record { ring = record { memory = M.contents memory.old; events = events.old; consumer = consumer.old }; tag = self.old; device = D.state device.old }) tag front buffer }
        ensures same_loan { M.loan memory.new ≡ M.loan memory.old }
    {
        match device.phase(tag) {
            Phase::Absent | Phase::Takes(_) => Acted::Waits,
            Phase::Gives(count) => {
                self.refill(device, tag, count);
                let some = self.has_chunk();
                self.move_if(memory, events, consumer, device, some, front, buffer);
                Acted::Worked
            }
            Phase::Ended(end) => {
                let closes = end.is_status() && self.ends_td(consumer.progress.fed);
                self.close_if(memory, events, consumer, device, closes, front, buffer)
            }
        }
    }

    /// Takes a Normal TRB of a TD whose bytes move.
    #[tactic(auto, unfolding(crate::specs::DataIn::ran))]
    fn run<M: GuestMemory, D: UasDevice>(
        &mut self,
        memory: &mut M,
        events: &mut EventRing,
        consumer: &mut Consumer,
        device: &mut D,
        tag: u16,
        front: Front,
        buffer: Buffer,
    ) -> Acted
        requires room { has_place (M.contents memory.old) events.old ≡ true }
        requires home { has_home (M.contents memory.old) front.home ≡ true }
        ensures step { (record { ring = record { memory = M.contents memory.new; events = events.new; consumer = consumer.new }; tag = self.new; device = D.state device.new }, result)
            ≡ ran D.kind (record { ring = record { memory = M.contents memory.old; events = events.old; consumer = consumer.old }; tag = self.old; device = D.state device.old }) tag front buffer }
        ensures same_loan { M.loan memory.new ≡ M.loan memory.old }
    {
        if buffer.length <= consumer.progress.moved {
            consumer.fill(memory, events, front, buffer.flags);
            return Acted::Worked;
        }
        if self.has_chunk() {
            self.move_in(memory, events, consumer, device, front, buffer);
            return Acted::Worked;
        }
        self.give_by(memory, events, consumer, device, tag, front, buffer)
    }

    /// Takes a Normal TRB.
    fn normal<M: GuestMemory, D: UasDevice>(
        &mut self,
        memory: &mut M,
        events: &mut EventRing,
        consumer: &mut Consumer,
        device: &mut D,
        tag: u16,
        front: Front,
        buffer: Buffer,
    ) -> Acted
        requires room { has_place (M.contents memory.old) events.old ≡ true }
        requires home { has_home (M.contents memory.old) front.home ≡ true }
        ensures step { (record { ring = record { memory = M.contents memory.new; events = events.new; consumer = consumer.new }; tag = self.new; device = D.state device.new }, result)
            ≡ normal D.kind consumer.old.progress.ending (record { ring = record { memory = M.contents memory.old; events = events.old; consumer = consumer.old }; tag = self.old; device = D.state device.old }) tag front buffer }
        ensures same_loan { M.loan memory.new ≡ M.loan memory.old }
    {
        match consumer.progress.ending {
            Ending::Runs => self.run(memory, events, consumer, device, tag, front, buffer),
            Ending::Told { .. } | Ending::Owed => {
                consumer.skip(memory, events, front, buffer.length, buffer.flags);
                Acted::Worked
            }
        }
    }

    /// Takes a TRB.
    fn take<M: GuestMemory, D: UasDevice>(
        &mut self,
        memory: &mut M,
        events: &mut EventRing,
        consumer: &mut Consumer,
        device: &mut D,
        tag: u16,
        front: Front,
        trb: PipeTrb,
    ) -> Acted
        requires room { has_place (M.contents memory.old) events.old ≡ true }
        requires home { has_home (M.contents memory.old) front.home ≡ true }
        ensures step { (record { ring = record { memory = M.contents memory.new; events = events.new; consumer = consumer.new }; tag = self.new; device = D.state device.new }, result)
            ≡ took D.kind (record { ring = record { memory = M.contents memory.old; events = events.old; consumer = consumer.old }; tag = self.old; device = D.state device.old }) tag front trb }
        ensures same_loan { M.loan memory.new ≡ M.loan memory.old }
    {
        match trb {
            PipeTrb::Normal {
                pointer,
                length,
                flags,
            } => {
                let buffer = Buffer {
                    pointer,
                    length,
                    flags,
                };
                self.normal(memory, events, consumer, device, tag, front, buffer)
            }
            PipeTrb::Link { .. }
            | PipeTrb::NoOp { .. }
            | PipeTrb::EventData { .. }
            | PipeTrb::Foreign => {
                consumer.take_other(memory, events, front, trb);
                Acted::Worked
            }
        }
    }

    /// Does what was found asks for.
    fn act<M: GuestMemory, D: UasDevice>(
        &mut self,
        memory: &mut M,
        events: &mut EventRing,
        consumer: &mut Consumer,
        device: &mut D,
        tag: u16,
        front: Front,
    ) -> Acted
        requires room { has_place (M.contents memory.old) events.old ≡ true }
        requires home { has_home (M.contents memory.old) front.home ≡ true }
        ensures step { (record { ring = record { memory = M.contents memory.new; events = events.new; consumer = consumer.new }; tag = self.new; device = D.state device.new }, result)
            ≡ acted D.kind (record { ring = record { memory = M.contents memory.old; events = events.old; consumer = consumer.old }; tag = self.old; device = D.state device.old }) tag front front.found }
        ensures same_loan { M.loan memory.new ≡ M.loan memory.old }
    {
        match front.found {
            Found::WrongKind => {
                consumer.refuse(memory, events, 10);
                Acted::Worked
            }
            Found::NotYet => {
                consumer.rung = false;
                Acted::Emptied
            }
            Found::Item(trb) => self.take(memory, events, consumer, device, tag, front, trb),
        }
    }

    /// A step of a consumer of the data-in pipe for a tag.
    pub fn step_in<M: GuestMemory, D: UasDevice>(
        &mut self,
        memory: &mut M,
        events: &mut EventRing,
        consumer: &mut Consumer,
        device: &mut D,
        tag: u16,
        pipe: &Pipe,
    ) -> Result<Acted, Outside>
        ensures step { (record { ring = record { memory = M.contents memory.new; events = events.new; consumer = consumer.new }; tag = self.new; device = D.state device.new }, result_ok result)
            ≡ after (record { ring = record { memory = M.contents memory.old; events = events.old; consumer = consumer.old }; tag = self.old; device = D.state device.old }) (stepped_in D.kind (record { ring = record { memory = M.contents memory.old; events = events.old; consumer = consumer.old }; tag = self.old; device = D.state device.old }) tag (home_of pipe.now tag)) }
        ensures same_loan { M.loan memory.new ≡ M.loan memory.old }
    {
        match consumer.gate(memory, events)? {
            Some(acted) => Ok(acted),
            None => {
                let front = pipe.front(memory, tag)?;
                Ok(self.act(memory, events, consumer, device, tag, front))
            }
        }
    }
}
