//! The commands on the slot.
ghost use Rattle.std.specs.Prelude.{◌≡◌, true, OnErr, option_map};
ghost use Rattle.std.specs.Result.{result_ok};
ghost use Rattle.guest_memory.specs.Bytes.{Memory};
ghost use Rattle.xhci_slots.specs.contexts.Contexts.{has_device};
ghost use Rattle.xhci_slots.specs.Slots.{address_step, addressed_by, configure_step, configured_by, deconfigure_step, disable_step, entry_at};
ghost use Rattle.xhci_slots.specs.Slots.{context_disabled, evaluate_step, evaluated_by, executed, free_step, reset_step, slot_step, stood, told};

use crate::contexts::{DeviceContext, EndpointState, InputContext, Number, SlotState};
use crate::states::{
    done, has_context, may_address, may_configure, may_evaluate, refused, set_by, state_of,
};
use crate::{Changes, Code, Done, Slot, SlotCommand};
use byteorder::{ByteOrder, LittleEndian};
use guest_memory::{GuestMemory, Outside};

/// The slot's entry of the device context base address array (6.1): a multiple of 64.
#[tactic(auto, unfolding(crate::specs::Slots::entry_at))]
pub(crate) fn entry_at<M: GuestMemory>(memory: &M, array: u64) -> Result<u64, Outside>
    ensures { result_ok result ≡ entry_at (M.contents memory.now) array }
{
    let mut bytes = [0; 8];
    memory.read(array.wrapping_add(8), &mut bytes)?;
    let entry = LittleEndian::read_u64(&bytes);
    Ok(entry - entry % 64)
}

impl Slot {
    /// Executes a command on the slot; `array` is DCBAAP. Refused where memory that the command needs isn't there, and then nothing has
    /// changed.
    pub fn execute<M: GuestMemory>(
        &mut self,
        memory: &mut M,
        array: u64,
        command: SlotCommand,
    ) -> Result<Done, Outside>
        ensures executed { executed (record { memory = M.contents memory.old; slot = self.old }) array command
            ≡ option_map (λ done. (record { memory = M.contents memory.new; slot = self.new }, done)) (result_ok result) }
        ensures outside { OnErr result (M.contents memory.new ≡ M.contents memory.old) }
        ensures as_before { OnErr result (self.new ≡ self.old) }
        ensures same_loan { M.loan memory.new ≡ M.loan memory.old }
    {
        match self.state {
            None => Ok(self.execute_free(command)),
            Some(state) => self.execute_in(memory, array, command, state),
        }
    }

    /// A slot that isn't given out can be enabled, and no more.
    fn execute_free(&mut self, command: SlotCommand) -> Done
        ensures { (memory : Memory) → free_step (record { memory = memory; slot = self.old }) command ≡ (record { memory = memory; slot = self.new }, result) }
    {
        match command {
            SlotCommand::Enable => {
                *self = Slot {
                    state: Some(SlotState::Enabled),
                    ..Slot::free()
                };
                done(Changes::none())
            }
            SlotCommand::Disable
            | SlotCommand::Address { .. }
            | SlotCommand::Configure { .. }
            | SlotCommand::Evaluate { .. }
            | SlotCommand::Reset => refused(Code::SlotNotEnabled),
        }
    }

    /// A command on the slot that is given out and in this state.
    fn execute_in<M: GuestMemory>(
        &mut self,
        memory: &mut M,
        array: u64,
        command: SlotCommand,
        state: SlotState,
    ) -> Result<Done, Outside>
        ensures step { slot_step (record { memory = M.contents memory.old; slot = self.old }) array command state
            ≡ option_map (λ done. (record { memory = M.contents memory.new; slot = self.new }, done)) (result_ok result) }
        ensures outside { OnErr result (M.contents memory.new ≡ M.contents memory.old) }
        ensures as_before { OnErr result (self.new ≡ self.old) }
        ensures same_loan { M.loan memory.new ≡ M.loan memory.old }
    {
        match command {
            SlotCommand::Enable => Ok(refused(Code::NoSlotsAvailable)),
            SlotCommand::Disable => self.disable(memory, state),
            SlotCommand::Address { input, blocked } if may_address(state, blocked) => {
                self.address(memory, array, input, blocked)
            }
            SlotCommand::Configure {
                input,
                deconfigures,
            } if may_configure(state) => {
                if deconfigures {
                    self.deconfigure(memory)
                } else {
                    self.configure(memory, input)
                }
            }
            SlotCommand::Evaluate { input } if may_evaluate(state) => {
                self.evaluate(memory, input, state)
            }
            SlotCommand::Reset if may_configure(state) => self.reset(memory),
            SlotCommand::Address { .. }
            | SlotCommand::Configure { .. }
            | SlotCommand::Evaluate { .. }
            | SlotCommand::Reset => Ok(refused(Code::ContextStateError)),
        }
    }

    /// The device context is this one now, at this address, and the slot in this state.
    fn stand<M: GuestMemory>(
        &mut self,
        memory: &mut M,
        at: u64,
        device: &DeviceContext,
        state: SlotState,
    )
        requires { has_device (M.contents memory.old) at ≡ true }
        ensures stood { record { memory = M.contents memory.new; slot = self.new } ≡ stood (record { memory = M.contents memory.old; slot = self.old }) at device.now state }
        ensures same_loan { M.loan memory.new ≡ M.loan memory.old }
    {
        device.write(memory, at);
        *self = Slot {
            state: Some(state),
            context: at,
        };
    }

    #[tactic(auto, unfolding(crate::specs::Slots::address_step))]
    fn address<M: GuestMemory>(
        &mut self,
        memory: &mut M,
        array: u64,
        input: u64,
        blocked: bool,
    ) -> Result<Done, Outside>
        ensures step { address_step (record { memory = M.contents memory.old; slot = self.old }) array input blocked
            ≡ option_map (λ done. (record { memory = M.contents memory.new; slot = self.new }, done)) (result_ok result) }
        ensures outside { OnErr result (M.contents memory.new ≡ M.contents memory.old) }
        ensures as_before { OnErr result (self.new ≡ self.old) }
        ensures same_loan { M.loan memory.new ≡ M.loan memory.old }
    {
        let input = InputContext::read(memory, input)?;
        if input.is_bad_address() {
            return Ok(refused(Code::ParameterError));
        }
        self.address_by(memory, array, &input, blocked)
    }

    #[tactic(auto, unfolding(crate::specs::Slots::addressed_by))]
    fn address_by<M: GuestMemory>(
        &mut self,
        memory: &mut M,
        array: u64,
        input: &InputContext,
        blocked: bool,
    ) -> Result<Done, Outside>
        ensures step { addressed_by (record { memory = M.contents memory.old; slot = self.old }) array input.now blocked
            ≡ option_map (λ done. (record { memory = M.contents memory.new; slot = self.new }, done)) (result_ok result) }
        ensures outside { OnErr result (M.contents memory.new ≡ M.contents memory.old) }
        ensures as_before { OnErr result (self.new ≡ self.old) }
        ensures same_loan { M.loan memory.new ≡ M.loan memory.old }
    {
        let at = entry_at(memory, array)?;
        let device = DeviceContext::read(memory, at)?.addressed(input, blocked);
        let state = if blocked {
            SlotState::Default
        } else {
            SlotState::Addressed
        };
        self.stand(memory, at, &device, state);
        Ok(done(Changes {
            control: set_by(&input.device.control),
            ..Changes::none()
        }))
    }

    #[tactic(auto, unfolding(crate::specs::Slots::configure_step))]
    fn configure<M: GuestMemory>(&mut self, memory: &mut M, input: u64) -> Result<Done, Outside>
        ensures step { configure_step (record { memory = M.contents memory.old; slot = self.old }) input
            ≡ option_map (λ done. (record { memory = M.contents memory.new; slot = self.new }, done)) (result_ok result) }
        ensures outside { OnErr result (M.contents memory.new ≡ M.contents memory.old) }
        ensures as_before { OnErr result (self.new ≡ self.old) }
        ensures same_loan { M.loan memory.new ≡ M.loan memory.old }
    {
        let input = InputContext::read(memory, input)?;
        if input.is_bad_configuration() {
            return Ok(refused(Code::ParameterError));
        }
        self.configure_by(memory, &input)
    }

    #[tactic(auto, unfolding(crate::specs::Slots::configured_by))]
    fn configure_by<M: GuestMemory>(
        &mut self,
        memory: &mut M,
        input: &InputContext,
    ) -> Result<Done, Outside>
        ensures step { configured_by (record { memory = M.contents memory.old; slot = self.old }) input.now
            ≡ option_map (λ done. (record { memory = M.contents memory.new; slot = self.new }, done)) (result_ok result) }
        ensures outside { OnErr result (M.contents memory.new ≡ M.contents memory.old) }
        ensures as_before { OnErr result (self.new ≡ self.old) }
        ensures same_loan { M.loan memory.new ≡ M.loan memory.old }
    {
        let device = DeviceContext::read(memory, self.context)?.configured(input);
        self.stand(memory, self.context, &device, state_of(&device));
        Ok(done(Changes::of(input)))
    }

    #[tactic(auto, unfolding(crate::specs::Slots::deconfigure_step))]
    fn deconfigure<M: GuestMemory>(&mut self, memory: &mut M) -> Result<Done, Outside>
        ensures step { deconfigure_step (record { memory = M.contents memory.old; slot = self.old })
            ≡ option_map (λ done. (record { memory = M.contents memory.new; slot = self.new }, done)) (result_ok result) }
        ensures outside { OnErr result (M.contents memory.new ≡ M.contents memory.old) }
        ensures as_before { OnErr result (self.new ≡ self.old) }
        ensures same_loan { M.loan memory.new ≡ M.loan memory.old }
    {
        let device = DeviceContext::read(memory, self.context)?.deconfigured();
        self.stand(memory, self.context, &device, SlotState::Addressed);
        Ok(done(Changes::pipes_gone()))
    }

    #[tactic(auto, unfolding(crate::specs::Slots::evaluate_step))]
    fn evaluate<M: GuestMemory>(
        &mut self,
        memory: &mut M,
        input: u64,
        state: SlotState,
    ) -> Result<Done, Outside>
        ensures step { evaluate_step (record { memory = M.contents memory.old; slot = self.old }) input state
            ≡ option_map (λ done. (record { memory = M.contents memory.new; slot = self.new }, done)) (result_ok result) }
        ensures outside { OnErr result (M.contents memory.new ≡ M.contents memory.old) }
        ensures as_before { OnErr result (self.new ≡ self.old) }
        ensures same_loan { M.loan memory.new ≡ M.loan memory.old }
    {
        let input = InputContext::read(memory, input)?;
        if input.is_bad_evaluation() {
            return Ok(refused(Code::ParameterError));
        }
        self.evaluate_by(memory, &input, state)
    }

    #[tactic(auto, unfolding(crate::specs::Slots::evaluated_by))]
    fn evaluate_by<M: GuestMemory>(
        &mut self,
        memory: &mut M,
        input: &InputContext,
        state: SlotState,
    ) -> Result<Done, Outside>
        ensures step { evaluated_by (record { memory = M.contents memory.old; slot = self.old }) input.now state
            ≡ option_map (λ done. (record { memory = M.contents memory.new; slot = self.new }, done)) (result_ok result) }
        ensures outside { OnErr result (M.contents memory.new ≡ M.contents memory.old) }
        ensures as_before { OnErr result (self.new ≡ self.old) }
        ensures same_loan { M.loan memory.new ≡ M.loan memory.old }
    {
        let device = DeviceContext::read(memory, self.context)?.evaluated(input);
        self.stand(memory, self.context, &device, state);
        Ok(done(Changes::none()))
    }

    #[tactic(auto, unfolding(crate::specs::Slots::reset_step))]
    fn reset<M: GuestMemory>(&mut self, memory: &mut M) -> Result<Done, Outside>
        ensures step { reset_step (record { memory = M.contents memory.old; slot = self.old })
            ≡ option_map (λ done. (record { memory = M.contents memory.new; slot = self.new }, done)) (result_ok result) }
        ensures outside { OnErr result (M.contents memory.new ≡ M.contents memory.old) }
        ensures as_before { OnErr result (self.new ≡ self.old) }
        ensures same_loan { M.loan memory.new ≡ M.loan memory.old }
    {
        let device = DeviceContext::read(memory, self.context)?.reset();
        self.stand(memory, self.context, &device, SlotState::Default);
        Ok(done(Changes::pipes_gone()))
    }

    #[tactic(auto, unfolding(crate::specs::Slots::disable_step))]
    fn disable<M: GuestMemory>(&mut self, memory: &mut M, state: SlotState) -> Result<Done, Outside>
        ensures step { disable_step (record { memory = M.contents memory.old; slot = self.old }) state
            ≡ option_map (λ done. (record { memory = M.contents memory.new; slot = self.new }, done)) (result_ok result) }
        ensures outside { OnErr result (M.contents memory.new ≡ M.contents memory.old) }
        ensures as_before { OnErr result (self.new ≡ self.old) }
        ensures same_loan { M.loan memory.new ≡ M.loan memory.old }
    {
        if !has_context(state) {
            *self = Slot::free();
            return Ok(done(Changes::all_gone()));
        }
        self.disable_context(memory)
    }

    #[tactic(auto, unfolding(crate::specs::Slots::context_disabled))]
    fn disable_context<M: GuestMemory>(&mut self, memory: &mut M) -> Result<Done, Outside>
        ensures step { context_disabled (record { memory = M.contents memory.old; slot = self.old })
            ≡ option_map (λ done. (record { memory = M.contents memory.new; slot = self.new }, done)) (result_ok result) }
        ensures outside { OnErr result (M.contents memory.new ≡ M.contents memory.old) }
        ensures as_before { OnErr result (self.new ≡ self.old) }
        ensures same_loan { M.loan memory.new ≡ M.loan memory.old }
    {
        let device = DeviceContext::read(memory, self.context)?.disabled();
        device.write(memory, self.context);
        *self = Slot::free();
        Ok(done(Changes::all_gone()))
    }

    /// Tells an endpoint's state in the device context. Refused where that isn't there, and then nothing has changed.
    #[tactic(auto, unfolding(crate::specs::Slots::told))]
    pub fn tell<M: GuestMemory>(
        &self,
        memory: &mut M,
        number: Number,
        state: EndpointState,
    ) -> Result<(), Outside>
        ensures told { told (record { memory = M.contents memory.old; slot = self.now }) number state
            ≡ option_map (λ told. record { memory = M.contents memory.new; slot = self.now }) (result_ok result) }
        ensures outside { OnErr result (M.contents memory.new ≡ M.contents memory.old) }
        ensures same_loan { M.loan memory.new ≡ M.loan memory.old }
    {
        let device = DeviceContext::read(memory, self.context)?;
        device
            .with_endpoint_state(number, state)
            .write(memory, self.context);
        Ok(())
    }
}
