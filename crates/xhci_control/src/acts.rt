//! What a TRB of endpoint 0 does.
ghost use Rattle.std.specs.Prelude.{◌≡◌, ◌+◌, ◌-◌, ◌%◌, ◌<◌, ◌≤◌, ◌^◌, ◌==◌, ◌&&◌, ◌||◌, nat_le, not, ℕ, Bool, true, false, length as list_length, min, take};
ghost use Rattle.guest_memory.specs.Bytes.{is_there};
ghost use Rattle.guest_pipes.specs.Step.{has_home, has_place};
ghost use Rattle.xhci_control.specs.Stages.{left};
ghost use Rattle.xhci_control.specs.Steps.{ControlWorld, asked, data_ended, gave, gone_to, is_in_data, moved_by, moved_data, stalled, taken_count};
ghost use Rattle.xhci_control.specs.Steps.{took_data, took_normal, took_other, took_setup, took_status, trb_ended};

use crate::pipe::{CONTROL_ENDPOINT, ControlPipe, STALL_ERROR, Served, sets_address};
use crate::served::{worked, worked_by};
use crate::stage::Stage;
use guest_memory::GuestMemory;
use guest_memory::rings::{Event, EventRing, Flags, Front, PipeTrb};
use guest_pipes::{EndpointState, there};
use usb_disk::{MOST_ANSWER_BYTES, Setup};

impl ControlPipe {
    /// Posts a Stall Error, and halts.
    #[tactic(auto, unfolding(crate::specs::Steps::stalled))]
    fn stall<M: GuestMemory>(
        &mut self,
        memory: &mut M,
        events: &mut EventRing,
        front: Front,
        rest: u32,
    )
        requires room { has_place (M.contents memory.old) events.old ≡ true }
        ensures step { record { memory = M.contents memory.new; events = events.new; pipe = self.new }
            ≡ stalled (record { memory = M.contents memory.old; events = events.old; pipe = self.old }) front rest }
        ensures same_loan { M.loan memory.new ≡ M.loan memory.old }
    {
        let event = Event::Transfer {
            pointer: front.cursor.place,
            residual: rest,
            code: STALL_ERROR,
            endpoint: CONTROL_ENDPOINT,
            event_data: false,
        };
        self.consumer.post(memory, events, &event, false);
        self.consumer.state = EndpointState::Halted;
        self.stage = Stage::Setup;
    }

    /// The disk does what a Setup Stage asks.
    #[tactic(auto, unfolding(crate::specs::Steps::asked))]
    fn ask<M: GuestMemory>(
        &mut self,
        memory: &mut M,
        events: &mut EventRing,
        front: Front,
        setup: &Setup,
        flags: Flags,
    ) -> Served
        requires room { has_place (M.contents memory.old) events.old ≡ true }
        requires home { has_home (M.contents memory.old) front.home ≡ true }
        ensures step { (record { memory = M.contents memory.new; events = events.new; pipe = self.new }, result)
            ≡ asked (record { memory = M.contents memory.old; events = events.old; pipe = self.old }) front setup.now flags }
        ensures same_loan { M.loan memory.new ≡ M.loan memory.old }
    {
        self.consumer.fill(memory, events, front, flags);
        let answer = self.disk.control(setup);
        let served = worked_by(&answer);
        self.stage = Stage::after_setup(answer, setup.length);
        served
    }

    /// Takes a Setup Stage.
    pub(crate) fn take_setup<M: GuestMemory>(
        &mut self,
        memory: &mut M,
        events: &mut EventRing,
        front: Front,
        setup: &Setup,
        flags: Flags,
    ) -> Served
        requires room { has_place (M.contents memory.old) events.old ≡ true }
        requires home { has_home (M.contents memory.old) front.home ≡ true }
        ensures step { (record { memory = M.contents memory.new; events = events.new; pipe = self.new }, result)
            ≡ took_setup (record { memory = M.contents memory.old; events = events.old; pipe = self.old }) front setup.now flags }
        ensures same_loan { M.loan memory.new ≡ M.loan memory.old }
    {
        if sets_address(setup) {
            self.consumer.err(memory, events, front);
            worked()
        } else {
            self.ask(memory, events, front, setup, flags)
        }
    }

    /// Takes the first TRB of a Data Stage.
    pub(crate) fn take_data<M: GuestMemory>(
        &mut self,
        memory: &mut M,
        events: &mut EventRing,
        front: Front,
        pointer: u64,
        length: u32,
        to_host: bool,
        flags: Flags,
    )
        requires room { has_place (M.contents memory.old) events.old ≡ true }
        requires home { has_home (M.contents memory.old) front.home ≡ true }
        ensures step { record { memory = M.contents memory.new; events = events.new; pipe = self.new }
            ≡ took_data (record { memory = M.contents memory.old; events = events.old; pipe = self.old }) front pointer length to_host flags }
        ensures same_loan { M.loan memory.new ≡ M.loan memory.old }
    {
        if !self.stage.is_data() {
            self.consumer.err(memory, events, front);
        } else if self.stage.stalls() {
            self.stall(memory, events, front, length);
        } else {
            self.stage.direct(to_host);
            self.move_data(memory, events, front, pointer, length, flags);
        }
    }

    /// Takes a TRB of a Data Stage. Behind its last one the Status Stage is to come.
    fn move_data<M: GuestMemory>(
        &mut self,
        memory: &mut M,
        events: &mut EventRing,
        front: Front,
        pointer: u64,
        length: u32,
        flags: Flags,
    )
        requires room { has_place (M.contents memory.old) events.old ≡ true }
        requires home { has_home (M.contents memory.old) front.home ≡ true }
        ensures step { record { memory = M.contents memory.new; events = events.new; pipe = self.new }
            ≡ moved_data (record { memory = M.contents memory.old; events = events.old; pipe = self.old }) front pointer length flags }
        ensures same_loan { M.loan memory.new ≡ M.loan memory.old }
    {
        self.move_by(memory, events, front, pointer, length, flags);
        self.stage.pass_data(flags.chain);
    }

    fn move_by<M: GuestMemory>(
        &mut self,
        memory: &mut M,
        events: &mut EventRing,
        front: Front,
        pointer: u64,
        length: u32,
        flags: Flags,
    )
        requires room { has_place (M.contents memory.old) events.old ≡ true }
        requires home { has_home (M.contents memory.old) front.home ≡ true }
        ensures step { record { memory = M.contents memory.new; events = events.new; pipe = self.new }
            ≡ moved_by (record { memory = M.contents memory.old; events = events.old; pipe = self.old }) front pointer length flags }
        ensures same_loan { M.loan memory.new ≡ M.loan memory.old }
    {
        if !self.consumer.progress.ending.runs() {
            self.consumer.skip(memory, events, front, length, flags);
        } else if length == 0 || self.stage.takes() {
            self.consumer.progress.edtla = counted(self.consumer.progress.edtla, length);
            self.consumer.fill(memory, events, front, flags);
        } else {
            self.give(memory, events, front, pointer, length, flags);
        }
    }

    /// Moves what is left of the answer into a TRB.
    #[tactic(auto, unfolding(crate::specs::Steps::gave))]
    fn give<M: GuestMemory>(
        &mut self,
        memory: &mut M,
        events: &mut EventRing,
        front: Front,
        pointer: u64,
        length: u32,
        flags: Flags,
    )
        requires room { has_place (M.contents memory.old) events.old ≡ true }
        requires home { has_home (M.contents memory.old) front.home ≡ true }
        ensures step { record { memory = M.contents memory.new; events = events.new; pipe = self.new }
            ≡ gave (record { memory = M.contents memory.old; events = events.old; pipe = self.old }) front pointer length flags }
        ensures same_loan { M.loan memory.new ≡ M.loan memory.old }
    {
        let count = self.taken_count(length);
        if count == 0 {
            self.consumer.shorten(memory, events, front, length, flags);
            return;
        }
        match there(memory, pointer, 0, count) {
            Some(to) => {
                self.pour(memory, events, to, count);
                self.end_trb(memory, events, front, length - count as u32, flags);
            }
            None => self.consumer.fail(memory, events, front, length, flags),
        }
    }

    /// How many bytes of the answer a TRB of this length takes.
    pub(crate) fn taken_count(&self, length: u32) -> usize
        ensures count { result ≡ min (min (list_length (left self.now.stage)) 121) length }
        ensures has { result ≤ list_length (left self.now.stage) }
        ensures most { result ≤ 121 }
        ensures room { result ≤ length }
    {
        self.stage
            .left()
            .len()
            .min(MOST_ANSWER_BYTES)
            .min(length as usize)
    }

    /// Moves so many bytes of the answer to an address. A range that was there still is.
    #[tactic(auto, unfolding(crate::specs::Steps::gone_to))]
    fn pour<M: GuestMemory>(
        &mut self,
        memory: &mut M,
        events: &mut EventRing,
        to: u64,
        count: usize,
    )
        requires room { has_place (M.contents memory.old) events.old ≡ true }
        requires there { is_there (M.contents memory.old) to count ≡ true }
        requires has { count ≤ list_length (left self.old.stage) }
        requires most { count ≤ 121 }
        ensures step { record { memory = M.contents memory.new; events = events.new; pipe = self.new }
            ≡ gone_to (record { memory = M.contents memory.old; events = events.old; pipe = self.old }) to count }
        ensures same_loan { M.loan memory.new ≡ M.loan memory.old }
        ensures there { (at n : ℕ) → is_there (M.contents memory.old) at n ≡ true → is_there (M.contents memory.new) at n ≡ true }
        ensures room { has_place (M.contents memory.new) events.new ≡ true }
    {
        self.consumer.progress.moved = 0;
        self.consumer
            .pour(memory, events, to, &self.stage.left()[..count]);
        self.stage.advance(count);
    }

    /// A TRB of which so many bytes are left is full, or ends its TD as a short packet.
    fn end_trb<M: GuestMemory>(
        &mut self,
        memory: &mut M,
        events: &mut EventRing,
        front: Front,
        rest: u32,
        flags: Flags,
    )
        requires room { has_place (M.contents memory.old) events.old ≡ true }
        requires home { has_home (M.contents memory.old) front.home ≡ true }
        ensures step { record { memory = M.contents memory.new; events = events.new; pipe = self.new }
            ≡ trb_ended (record { memory = M.contents memory.old; events = events.old; pipe = self.old }) front rest flags }
        ensures same_loan { M.loan memory.new ≡ M.loan memory.old }
    {
        if rest == 0 {
            self.consumer.fill(memory, events, front, flags);
        } else {
            self.consumer.shorten(memory, events, front, rest, flags);
        }
    }

    /// Ends the control transfer.
    pub(crate) fn take_status<M: GuestMemory>(
        &mut self,
        memory: &mut M,
        events: &mut EventRing,
        front: Front,
        flags: Flags,
    )
        requires room { has_place (M.contents memory.old) events.old ≡ true }
        requires home { has_home (M.contents memory.old) front.home ≡ true }
        ensures step { record { memory = M.contents memory.new; events = events.new; pipe = self.new }
            ≡ took_status (record { memory = M.contents memory.old; events = events.old; pipe = self.old }) front flags }
        ensures same_loan { M.loan memory.new ≡ M.loan memory.old }
    {
        if self.stage.is_setup() {
            self.consumer.err(memory, events, front);
        } else if self.stage.stalls() {
            self.stall(memory, events, front, 0);
        } else {
            self.consumer.fill(memory, events, front, flags);
            self.stage = Stage::Setup;
        }
    }

    /// Whether a Data Stage has begun and isn't over.
    pub(crate) fn is_in_data(&self) -> bool
        ensures { result ≡ is_in_data self.now }
    {
        self.stage.is_data() && self.consumer.progress.begun
    }

    /// Takes a TRB that is of no stage of its own.
    pub(crate) fn take_other<M: GuestMemory>(
        &mut self,
        memory: &mut M,
        events: &mut EventRing,
        front: Front,
        trb: PipeTrb,
    )
        requires room { has_place (M.contents memory.old) events.old ≡ true }
        requires home { has_home (M.contents memory.old) front.home ≡ true }
        ensures step { record { memory = M.contents memory.new; events = events.new; pipe = self.new }
            ≡ took_other (record { memory = M.contents memory.old; events = events.old; pipe = self.old }) front trb }
        ensures same_loan { M.loan memory.new ≡ M.loan memory.old }
    {
        match trb {
            PipeTrb::Normal {
                pointer,
                length,
                flags,
            } => self.take_normal(memory, events, front, pointer, length, flags),
            PipeTrb::EventData { parameter, flags } => {
                let ends = self.is_in_data();
                self.consumer
                    .tell_data(memory, events, front, parameter, flags);
                self.stage.pass_data_if(ends, flags.chain);
            }
            PipeTrb::Link { .. } | PipeTrb::NoOp { .. } | PipeTrb::Foreign => {
                self.consumer.take_other(memory, events, front, trb);
            }
        }
    }

    /// Takes a Normal TRB: one of a Data Stage that has begun.
    fn take_normal<M: GuestMemory>(
        &mut self,
        memory: &mut M,
        events: &mut EventRing,
        front: Front,
        pointer: u64,
        length: u32,
        flags: Flags,
    )
        requires room { has_place (M.contents memory.old) events.old ≡ true }
        requires home { has_home (M.contents memory.old) front.home ≡ true }
        ensures step { record { memory = M.contents memory.new; events = events.new; pipe = self.new }
            ≡ took_normal (record { memory = M.contents memory.old; events = events.old; pipe = self.old }) front pointer length flags }
        ensures same_loan { M.loan memory.new ≡ M.loan memory.old }
    {
        if self.is_in_data() && length <= 65_536 {
            self.move_data(memory, events, front, pointer, length, flags);
        } else {
            self.consumer.err(memory, events, front);
        }
    }
}

/// EDTLA once so many bytes more were moved (4.11.5.2).
fn counted(edtla: u32, count: u32) -> u32
    ensures { result ≡ (edtla + count) % 2 ^ 24 }
{
    ((u64::from(edtla) + u64::from(count)) % 16_777_216) as u32
}
