//! The states of the endpoints, and how they are told in their contexts.
ghost use Rattle.std.specs.Prelude.{◌≡◌, is_ok};
ghost use Rattle.xhci_machine.specs.Effects.{all_disabled};
ghost use Rattle.xhci_machine.specs.Ring.{states_of};
ghost use Rattle.xhci_machine.specs.Turns.{context_state, state_told, states_told, told_if};

use crate::Machine;
use guest_memory::{GuestMemory, Outside};
use guest_pipes::EndpointState;
use guest_transfers::StreamPipe;
use xhci_slots::contexts::{EndpointState as ContextState, Number};

/// The states of the endpoints.
#[derive(Clone, Copy, Debug, PartialEq, Eq)]
pub(crate) struct States {
    pub control: EndpointState,
    pub command: EndpointState,
    pub status: EndpointState,
    pub data_out: EndpointState,
    pub data_in: EndpointState,
}

impl States {
    pub fn disabled() -> States
        ensures { result ≡ all_disabled }
    {
        States {
            control: EndpointState::Disabled,
            command: EndpointState::Disabled,
            status: EndpointState::Disabled,
            data_out: EndpointState::Disabled,
            data_in: EndpointState::Disabled,
        }
    }
}

/// A state as a context has it (6.2.3).
pub(crate) fn context_state(state: EndpointState) -> ContextState
    ensures { result ≡ context_state state }
{
    match state {
        EndpointState::Disabled => ContextState::Disabled,
        EndpointState::Running => ContextState::Running,
        EndpointState::Halted => ContextState::Halted,
        EndpointState::Stopped => ContextState::Stopped,
        EndpointState::Error => ContextState::Error,
    }
}

impl Machine {
    /// The endpoints' states.
    pub(crate) fn states(&self) -> States
        ensures { result ≡ states_of self.now }
    {
        States {
            control: self.control.state(),
            command: self.transfers.command().state,
            status: self.transfers.pipe(StreamPipe::Status).state(),
            data_out: self.transfers.pipe(StreamPipe::DataOut).state(),
            data_in: self.transfers.pipe(StreamPipe::DataIn).state(),
        }
    }

    /// Tells the states that changed since they were told, each in its endpoint's context. Refused where that isn't there, and then all of
    /// them are told again.
    #[tactic(auto, unfolding(crate::specs::Turns::states_told))]
    pub(crate) fn tell_states<M: GuestMemory>(&mut self, memory: &mut M) -> Result<(), Outside>
        ensures told { (M.contents memory.new, is_ok result)
            ≡ states_told (M.contents memory.old) self.old.slot self.old.told (states_of self.old) }
        ensures machine { self.new ≡ told_if (is_ok result) (states_of self.old) self.old }
        ensures same_loan { M.loan memory.new ≡ M.loan memory.old }
    {
        let (was, now) = (self.told, self.states());
        self.tell_state(memory, Number::ControlPipe, was.control, now.control)?;
        self.tell_state(memory, Number::CommandPipe, was.command, now.command)?;
        self.tell_state(memory, Number::StatusPipe, was.status, now.status)?;
        self.tell_state(memory, Number::DataOutPipe, was.data_out, now.data_out)?;
        self.tell_state(memory, Number::DataInPipe, was.data_in, now.data_in)?;
        self.told = now;
        Ok(())
    }

    /// Tells a state that changed.
    #[tactic(auto, using(crate::proofs::Same::same_refl, crate::proofs::Same::same_not), unfolding(crate::specs::Turns::state_told))]
    fn tell_state<M: GuestMemory>(
        &self,
        memory: &mut M,
        number: Number,
        was: EndpointState,
        now: EndpointState,
    ) -> Result<(), Outside>
        ensures told { (M.contents memory.new, is_ok result) ≡ state_told (M.contents memory.old) self.now.slot number was now }
        ensures same_loan { M.loan memory.new ≡ M.loan memory.old }
    {
        if was == now {
            Ok(())
        } else {
            self.slot.tell(memory, number, context_state(now))
        }
    }
}
