//! What a TRB of endpoint 0 is told with where nothing answers on the bus.
ghost use Rattle.std.specs.Prelude.{◌≡◌, true};
ghost use Rattle.guest_pipes.specs.Step.{has_home, has_place};
ghost use Rattle.xhci_control.specs.Steps.{stuck_at, unanswered, unanswered_other};

use crate::pipe::ControlPipe;
use crate::trb::ControlTrb;
use guest_memory::GuestMemory;
use guest_memory::rings::{Event, EventRing, Front, PipeTrb};
use guest_pipes::EndpointState;

/// Bytes of a Setup Stage.
const SETUP_BYTES: u32 = 8;

impl ControlPipe {
    /// Halts at the TRB in front, and tells what is left of that with this code.
    fn stick<M: GuestMemory>(
        &mut self,
        memory: &mut M,
        events: &mut EventRing,
        front: Front,
        left: u32,
        code: u8,
    )
        requires room { has_place (M.contents memory.old) events.old ≡ true }
        ensures step { record { memory = M.contents memory.new; events = events.new; pipe = self.new }
            ≡ stuck_at (record { memory = M.contents memory.old; events = events.old; pipe = self.old }) front left code }
        ensures same_loan { M.loan memory.new ≡ M.loan memory.old }
    {
        let event = Event::Transfer {
            pointer: front.cursor.place,
            residual: left,
            code,
            endpoint: self.consumer.endpoint,
            event_data: false,
        };
        self.consumer.post(memory, events, &event, false);
        self.consumer.state = EndpointState::Halted;
    }

    /// Tells a TRB that moves bytes with what is left of it and this code, and halts: nothing answers on the bus (4.8.3).
    pub(crate) fn tell_unanswered<M: GuestMemory>(
        &mut self,
        memory: &mut M,
        events: &mut EventRing,
        front: Front,
        code: u8,
        trb: ControlTrb,
    )
        requires room { has_place (M.contents memory.old) events.old ≡ true }
        requires home { has_home (M.contents memory.old) front.home ≡ true }
        ensures step { record { memory = M.contents memory.new; events = events.new; pipe = self.new }
            ≡ unanswered (record { memory = M.contents memory.old; events = events.old; pipe = self.old }) front code trb }
        ensures same_loan { M.loan memory.new ≡ M.loan memory.old }
    {
        let moved = self.consumer.progress.moved;
        match trb {
            ControlTrb::SetupStage { .. } => {
                self.stick(memory, events, front, SETUP_BYTES, code);
            }
            ControlTrb::DataStage { length, .. } => {
                self.stick(memory, events, front, length.saturating_sub(moved), code);
            }
            ControlTrb::StatusStage { .. } => self.stick(memory, events, front, 0, code),
            ControlTrb::Other(trb) => {
                self.tell_unanswered_other(memory, events, front, code, trb);
            }
        }
    }

    fn tell_unanswered_other<M: GuestMemory>(
        &mut self,
        memory: &mut M,
        events: &mut EventRing,
        front: Front,
        code: u8,
        trb: PipeTrb,
    )
        requires room { has_place (M.contents memory.old) events.old ≡ true }
        requires home { has_home (M.contents memory.old) front.home ≡ true }
        ensures step { record { memory = M.contents memory.new; events = events.new; pipe = self.new }
            ≡ unanswered_other (record { memory = M.contents memory.old; events = events.old; pipe = self.old }) front code trb }
        ensures same_loan { M.loan memory.new ≡ M.loan memory.old }
    {
        match trb {
            PipeTrb::Normal { length, .. } => {
                let left = length.saturating_sub(self.consumer.progress.moved);
                self.stick(memory, events, front, left, code);
            }
            PipeTrb::Link { .. }
            | PipeTrb::NoOp { .. }
            | PipeTrb::EventData { .. }
            | PipeTrb::Foreign => self.take_other(memory, events, front, trb),
        }
    }
}
