//! A step at the end of a ring whose bytes nothing can serve.
ghost use Rattle.std.specs.Prelude.{◌≡◌, true};
ghost use Rattle.std.specs.Result.{result_ok};
ghost use Rattle.guest_pipes.specs.Gate.{after};
ghost use Rattle.guest_pipes.specs.Step.{World, has_home, has_place};
ghost use Rattle.guest_pipes.specs.Unserved.{stuck, unserved_at, unserved_bytes, unserved_stepped, unserved_trb};

use crate::acted::Acted;
use crate::consumer::{Consumer, EndpointState};
use crate::progress::Ending;
use guest_memory::rings::{EventRing, Flags, Found, Front, Home, PipeTrb, look};
use guest_memory::{GuestMemory, Outside};

impl Consumer {
    /// Halts the endpoint at the TRB in front, and tells what is left of that with this code.
    fn stick<M: GuestMemory>(
        &mut self,
        memory: &mut M,
        events: &mut EventRing,
        front: Front,
        left: u32,
        code: u8,
    )
        requires room { has_place (M.contents memory.old) events.old ≡ true }
        ensures step { record { memory = M.contents memory.new; events = events.new; consumer = self.new }
            ≡ stuck (record { memory = M.contents memory.old; events = events.old; consumer = self.old }) front left code }
        ensures same_loan { M.loan memory.new ≡ M.loan memory.old }
    {
        let event = self.about(front.cursor.place, left, code);
        self.post(memory, events, &event, false);
        self.state = EndpointState::Halted;
    }

    /// Takes a Normal TRB: is stuck where its TD's bytes move, and skips it behind the TD's end.
    pub fn take_unserved_bytes<M: GuestMemory>(
        &mut self,
        memory: &mut M,
        events: &mut EventRing,
        front: Front,
        code: u8,
        length: u32,
        flags: Flags,
    )
        requires room { has_place (M.contents memory.old) events.old ≡ true }
        requires home { has_home (M.contents memory.old) front.home ≡ true }
        ensures step { record { memory = M.contents memory.new; events = events.new; consumer = self.new }
            ≡ unserved_bytes self.old.progress.ending (record { memory = M.contents memory.old; events = events.old; consumer = self.old }) front code length flags }
        ensures same_loan { M.loan memory.new ≡ M.loan memory.old }
    {
        match self.progress.ending {
            Ending::Runs => {
                let left = length.saturating_sub(self.progress.moved);
                self.stick(memory, events, front, left, code);
            }
            Ending::Told { .. } | Ending::Owed => self.skip(memory, events, front, length, flags),
        }
    }

    fn take_unserved<M: GuestMemory>(
        &mut self,
        memory: &mut M,
        events: &mut EventRing,
        front: Front,
        code: u8,
        trb: PipeTrb,
    )
        requires room { has_place (M.contents memory.old) events.old ≡ true }
        requires home { has_home (M.contents memory.old) front.home ≡ true }
        ensures step { record { memory = M.contents memory.new; events = events.new; consumer = self.new }
            ≡ unserved_trb (record { memory = M.contents memory.old; events = events.old; consumer = self.old }) front code trb }
        ensures same_loan { M.loan memory.new ≡ M.loan memory.old }
    {
        match trb {
            PipeTrb::Normal { length, flags, .. } => {
                self.take_unserved_bytes(memory, events, front, code, length, flags);
            }
            PipeTrb::Link { .. }
            | PipeTrb::NoOp { .. }
            | PipeTrb::EventData { .. }
            | PipeTrb::Foreign => self.take_other(memory, events, front, trb),
        }
    }

    fn act_unserved<M: GuestMemory>(
        &mut self,
        memory: &mut M,
        events: &mut EventRing,
        front: Front,
        code: u8,
    ) -> Acted
        requires room { has_place (M.contents memory.old) events.old ≡ true }
        requires home { has_home (M.contents memory.old) front.home ≡ true }
        ensures step { (record { memory = M.contents memory.new; events = events.new; consumer = self.new }, result)
            ≡ unserved_at (record { memory = M.contents memory.old; events = events.old; consumer = self.old }) code front }
        ensures same_loan { M.loan memory.new ≡ M.loan memory.old }
    {
        match front.found {
            Found::WrongKind => {
                self.refuse(memory, events, 10);
                Acted::Worked
            }
            Found::NotYet => {
                self.rung = false;
                Acted::Emptied
            }
            Found::Item(trb) => {
                self.take_unserved(memory, events, front, code, trb);
                Acted::Worked
            }
        }
    }

    /// A step at the end of a ring whose bytes nothing can serve (4.8.3): a Normal TRB of a TD that hasn't ended is told with this completion
    /// code and what is left of it, the consumer stays there, and the endpoint halts. Refused where a byte of the event's place, of the ring's
    /// end or of the TRB there isn't there, and then nothing changes.
    pub fn step_unserved<M: GuestMemory>(
        &mut self,
        memory: &mut M,
        events: &mut EventRing,
        home: Home,
        code: u8,
    ) -> Result<Acted, Outside>
        ensures step { (record { memory = M.contents memory.new; events = events.new; consumer = self.new }, result_ok result)
            ≡ after (record { memory = M.contents memory.old; events = events.old; consumer = self.old })
            (unserved_stepped (record { memory = M.contents memory.old; events = events.old; consumer = self.old }) home code) }
        ensures same_loan { M.loan memory.new ≡ M.loan memory.old }
    {
        match self.gate(memory, events)? {
            Some(acted) => Ok(acted),
            None => {
                let front = look(memory, home)?;
                Ok(self.act_unserved(memory, events, front, code))
            }
        }
    }
}
