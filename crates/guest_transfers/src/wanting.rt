//! What a step lacks, for a caller who copies in what is asked for.
//!
//! A caller who can't lend all of memory copies in the ranges that a step needs, takes the step over these copies, and writes back what
//! changed. Each call here answers the first range, in the order of its step, of which a byte isn't in the copies: the event's place,
//! where the ring's end is kept, the TRB there, or what the step moves of the TRB's buffer. He copies that in and asks again, until None
//! is answered. A range that isn't in his own memory either can't be copied in: he takes the step without it. `src/laws.rt` has what
//! follows.
ghost use Rattle.std.specs.Prelude.{◌≡◌, ◌<◌, None};
ghost use Rattle.guest_pipes.specs.Pipe.{ring_home};
ghost use Rattle.guest_transfers.specs.Wanted.{command_wanted, data_wanted, either_wanted, in_wanted, is_idle, lone_wanted, out_wanted, status_wanted, stray_wanted};
ghost use Rattle.guest_transfers.specs.Orders.{pipe_of};
ghost use Rattle.guest_transfers.specs.Steps.{in_stepped};
ghost use Rattle.guest_pipes.specs.Gate.{room_gate};
ghost use Rattle.guest_pipes.specs.Wanted.{wanted_through};

use crate::calls::Transfers;
use crate::control::StreamPipe;
use guest_memory::rings::{EventRing, Home, Range};
use guest_memory::{GuestMemory, Outside};
use guest_out::{command_wants, data_out_wants};
use guest_pipes::{Pipe, place_range, room_gate};
use guest_tags::{Phase, UasDevice};

/// What a step lacks that needs the event's place alone.
fn place_wants<M: GuestMemory>(memory: &M, events: &EventRing) -> Option<Range>
    ensures { result ≡ wanted_through (room_gate (M.contents memory.now) events.now) events.now None }
{
    match room_gate(memory, events) {
        Err(Outside) => Some(place_range(events)),
        Ok(_) => None,
    }
}

/// What a step for the one ring of a pipe without streams lacks.
fn lone_wants<M: GuestMemory>(memory: &M, events: &EventRing, pipe: &Pipe) -> Option<Range>
    requires { pipe.now.streams ≡ 0 }
    ensures { result ≡ lone_wanted (M.contents memory.now) events.now pipe.now }
{
    match pipe.consumer(0).gate(memory, events) {
        Err(Outside) => Some(place_range(events)),
        Ok(Some(_)) => None,
        Ok(None) => pipe.ring_wants(memory, 0),
    }
}

impl Transfers {
    /// What a step of data-in for a tag lacks.
    fn wants_data_in<M: GuestMemory, D: UasDevice>(
        &self,
        memory: &M,
        events: &EventRing,
        device: &D,
        tag: u16,
    ) -> Option<Range>
        requires { tag < 241 }
        ensures { result ≡ in_wanted D.kind (record { memory = M.contents memory.now; events = events.now; transfers = self.now; device = D.state device.now }) tag }
    {
        let consumer = self.data_in.consumer(tag);
        let slot = &self.tags[usize::from(tag)];
        slot.tag
            .wants_in(memory, events, &consumer, device, tag, &self.data_in)
    }

    /// What a step of data-out for a tag lacks.
    fn wants_data_out<M: GuestMemory, D: UasDevice>(
        &self,
        memory: &M,
        events: &EventRing,
        device: &D,
        tag: u16,
    ) -> Option<Range>
        requires { tag < 241 }
        ensures { result ≡ out_wanted D.kind (record { memory = M.contents memory.now; events = events.now; transfers = self.now; device = D.state device.now }) tag }
    {
        let consumer = self.data_out.consumer(tag);
        let slot = &self.tags[usize::from(tag)];
        data_out_wants(
            memory,
            events,
            &consumer,
            &slot.taken,
            device,
            tag,
            &self.data_out,
        )
    }

    /// What a step of data-in lacks, and where that would do nothing, a step of data-out.
    fn wants_moved<M: GuestMemory, D: UasDevice>(
        &self,
        memory: &M,
        events: &EventRing,
        device: &D,
        tag: u16,
    ) -> Option<Range>
        requires { tag < 241 }
        ensures { result ≡ either_wanted (in_wanted D.kind (record { memory = M.contents memory.now; events = events.now; transfers = self.now; device = D.state device.now }) tag) (is_idle (in_stepped D.kind (record { memory = M.contents memory.now; events = events.now; transfers = self.now; device = D.state device.now }) tag).1) (out_wanted D.kind (record { memory = M.contents memory.now; events = events.now; transfers = self.now; device = D.state device.now }) tag) }
    {
        let wanted = self.wants_data_in(memory, events, device, tag);
        if wanted.is_some() {
            return wanted;
        }
        if self.idles_in(memory, events, device, tag) {
            self.wants_data_out(memory, events, device, tag)
        } else {
            None
        }
    }

    /// The first range that [`Transfers::step_data`] reads or writes of which a byte isn't there. Where the device is to give its next
    /// chunk, room for the whole chunk is asked for, also where a bad block will keep it.
    pub fn wants_data<M: GuestMemory, D: UasDevice>(
        &self,
        memory: &M,
        events: &EventRing,
        device: &D,
        tag: u16,
    ) -> Option<Range>
        requires { tag < 241 }
        ensures { result ≡ data_wanted D.kind (record { memory = M.contents memory.now; events = events.now; transfers = self.now; device = D.state device.now }) tag }
    {
        match device.phase(tag) {
            Phase::Gives(_) => {
                if self.tags[usize::from(tag)].tag.drops {
                    place_wants(memory, events)
                } else {
                    self.wants_moved(memory, events, device, tag)
                }
            }
            Phase::Absent | Phase::Takes(_) | Phase::Ended(_) => {
                self.wants_moved(memory, events, device, tag)
            }
        }
    }

    /// The first range that [`Transfers::step_status`] reads or writes of which a byte isn't there.
    pub fn wants_status<M: GuestMemory, D: UasDevice>(
        &self,
        memory: &M,
        events: &EventRing,
        device: &D,
        tag: u16,
    ) -> Option<Range>
        requires { tag < 241 }
        ensures { result ≡ status_wanted D.kind (record { memory = M.contents memory.now; events = events.now; transfers = self.now; device = D.state device.now }) tag }
    {
        let due = self.is_due(tag, device.phase(tag));
        let consumer = self.status.consumer(tag);
        let slot = &self.tags[usize::from(tag)];
        slot.tag
            .wants_status(memory, events, &consumer, device, tag, due, &self.status)
    }

    /// The first range that [`Transfers::step_stray`] reads or writes of which a byte isn't there.
    pub fn wants_stray<M: GuestMemory>(
        &self,
        memory: &M,
        events: &EventRing,
        name: StreamPipe,
    ) -> Option<Range>
        ensures { result ≡ stray_wanted (M.contents memory.now) events.now (pipe_of self.now name) }
    {
        let pipe = self.pipe(name);
        if pipe.is_alone() {
            return lone_wants(memory, events, pipe);
        }
        if pipe.state().runs() && pipe.is_invalid() {
            place_wants(memory, events)
        } else {
            None
        }
    }

    /// The first range that [`Transfers::step_command`] reads or writes of which a byte isn't there.
    pub fn wants_command<M: GuestMemory, D: UasDevice>(
        &self,
        memory: &M,
        events: &EventRing,
        device: &D,
    ) -> Option<Range>
        ensures { result ≡ command_wanted D.kind (record { memory = M.contents memory.now; events = events.now; transfers = self.now; device = D.state device.now }) }
    {
        let home = Home::Endpoint { at: self.home };
        command_wants(memory, events, &self.command, &self.gathered, home)
    }
}
