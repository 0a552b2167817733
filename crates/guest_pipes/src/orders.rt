//! What commands of the command ring make of a pipe and of memory, and a doorbell of a stream that isn't there, or of a pipe without streams.
ghost use Rattle.std.specs.Prelude.{◌≡◌, ◌+◌, ◌*◌, ◌<◌, ◌≤◌, ◌^◌, ℕ, Some, None, true, false, is_ok, is_some, unwrap_or, IfSome, MatchOption};
ghost use Rattle.std.specs.Result.{result_ok};
ghost use Rattle.guest_memory.specs.Bytes.{is_there};
ghost use Rattle.guest_memory.specs.declared.rings.context.Home.TheVariants.{Stream};
ghost use Rattle.guest_pipes.specs.Step.{has_place, has_home};
ghost use Rattle.guest_pipes.specs.Gate.{after, stop_looked};
ghost use Rattle.guest_pipes.specs.Pipe.{home_of, loaded, ring_home};
ghost use Rattle.guest_pipes.specs.Orders.{PipeWorld, dequeue_set, invalid_stepped, invalid_told, lone_stepped, stray_stepped};

use crate::acted::Acted;
use crate::gate::room_gate;
use crate::pipe::Pipe;
use guest_memory::rings::{Cursor, EventRing, stand};
use guest_memory::{GuestMemory, Outside};

impl Pipe {
    /// Sets the dequeue pointer of a stream, with a type (SCT), and forgets what was moved (4.6.10). Refused where the stream's context
    /// isn't there, and then nothing changes.
    #[tactic(auto, unfolding(crate::specs::Orders::dequeue_set))]
    pub fn set_dequeue<M: GuestMemory>(
        &mut self,
        memory: &mut M,
        stream: u16,
        cursor: Cursor,
        kind: u8,
    ) -> Result<(), Outside>
        requires stream { stream < 256 }
        requires kind { kind < 8 }
        ensures after { (M.contents memory.new, self.new) ≡ unwrap_or (dequeue_set (M.contents memory.old) self.old stream cursor kind) (M.contents memory.old, self.old) }
        ensures done { is_ok result ≡ is_some (dequeue_set (M.contents memory.old) self.old stream cursor kind) }
        ensures same_loan { M.loan memory.new ≡ M.loan memory.old }
    {
        let home = self.home(memory, stream)?;
        stand(memory, home, kind, cursor);
        self.forget(stream);
        Ok(())
    }

    /// Posts what Stop Endpoint posts of a ring whose front TD was begun (4.6.9); the one ring is that of stream 0. Refused where a byte of the ring's end or of
    /// the TRB there isn't there, and then nothing changes.
    pub fn tell_stopped<M: GuestMemory>(
        &self,
        memory: &mut M,
        events: &mut EventRing,
        stream: u16,
    ) -> Result<(), Outside>
        requires stream { stream < 256 }
        requires room { has_place (M.contents memory.old) events.old ≡ true }
        ensures step { record { memory = M.contents memory.new; events = events.new; consumer = loaded self.now stream }
            ≡ unwrap_or (stop_looked (record { memory = M.contents memory.old; events = events.old; consumer = loaded self.now stream }) (ring_home self.now stream))
            (record { memory = M.contents memory.old; events = events.old; consumer = loaded self.now stream }) }
        ensures done { is_ok result ≡ is_some (stop_looked (record { memory = M.contents memory.old; events = events.old; consumer = loaded self.now stream }) (ring_home self.now stream)) }
        ensures same_loan { M.loan memory.new ≡ M.loan memory.old }
    {
        let front = self.ring_front(memory, stream)?;
        self.consumer(stream).post_stopped(memory, events, &front);
        Ok(())
    }

    fn tell_invalid<M: GuestMemory>(&mut self, memory: &mut M, events: &mut EventRing)
        requires room { has_place (M.contents memory.old) events.old ≡ true }
        ensures step { record { memory = M.contents memory.new; events = events.new; pipe = self.new }
            ≡ invalid_told (record { memory = M.contents memory.old; events = events.old; pipe = self.old }) }
        ensures same_loan { M.loan memory.new ≡ M.loan memory.old }
    {
        let mut consumer = self.consumer(0);
        consumer.refuse(memory, events, 34);
        self.halt_invalid(consumer.state);
    }

    /// A step for a doorbell of a stream that isn't there: Invalid Stream ID, and the endpoint halts. Refused where the event's place
    /// isn't there, and then nothing changes.
    #[tactic(auto, unfolding(crate::specs::Orders::invalid_stepped))]
    fn step_invalid<M: GuestMemory>(
        &mut self,
        memory: &mut M,
        events: &mut EventRing,
    ) -> Result<Acted, Outside>
        ensures step { (record { memory = M.contents memory.new; events = events.new; pipe = self.new }, result_ok result)
            ≡ after (record { memory = M.contents memory.old; events = events.old; pipe = self.old })
            (invalid_stepped (record { memory = M.contents memory.old; events = events.old; pipe = self.old })) }
        ensures same_loan { M.loan memory.new ≡ M.loan memory.old }
    {
        if !self.state().runs() {
            return Ok(Acted::Off);
        }
        if !self.is_invalid() {
            return Ok(Acted::Idle);
        }
        match room_gate(memory, events)? {
            Some(acted) => Ok(acted),
            None => {
                self.tell_invalid(memory, events);
                Ok(Acted::Worked)
            }
        }
    }

    /// A step of the one ring of a pipe without streams.
    fn step_lone<M: GuestMemory>(
        &mut self,
        memory: &mut M,
        events: &mut EventRing,
        code: u8,
    ) -> Result<Acted, Outside>
        requires { self.old.streams ≡ 0 }
        ensures step { (record { memory = M.contents memory.new; events = events.new; pipe = self.new }, result_ok result)
            ≡ after (record { memory = M.contents memory.old; events = events.old; pipe = self.old })
            (lone_stepped code (record { memory = M.contents memory.old; events = events.old; pipe = self.old })) }
        ensures same_loan { M.loan memory.new ≡ M.loan memory.old }
    {
        let mut consumer = self.consumer(0);
        let home = self.lone_home();
        let acted = consumer.step_unserved(memory, events, home, code)?;
        self.keep(0, &consumer);
        Ok(acted)
    }

    /// A step for a doorbell that no stream's turn serves: of a stream that isn't there, which posts Invalid Stream ID and halts the
    /// endpoint, or of a pipe without streams, whose one ring nothing can serve and whose TDs are told with this code. Refused where a byte of
    /// the event's place, of the ring's end or of the TRB there isn't there, and then nothing changes.
    pub fn step_stray<M: GuestMemory>(
        &mut self,
        memory: &mut M,
        events: &mut EventRing,
        code: u8,
    ) -> Result<Acted, Outside>
        ensures step { (record { memory = M.contents memory.new; events = events.new; pipe = self.new }, result_ok result)
            ≡ after (record { memory = M.contents memory.old; events = events.old; pipe = self.old })
            (stray_stepped code (record { memory = M.contents memory.old; events = events.old; pipe = self.old })) }
        ensures same_loan { M.loan memory.new ≡ M.loan memory.old }
    {
        if self.is_alone() {
            self.step_lone(memory, events, code)
        } else {
            self.step_invalid(memory, events)
        }
    }
}
