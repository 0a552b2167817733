//! The steps of endpoint 0, of the command pipe, for a doorbell that no tag's turn serves, and of a tag. While the port is suspended none
//! of them is due, and none of a tag while nothing serves the pipes. Each tests the device context before it does anything, as it may change an endpoint's state there, and is refused where
//! memory that it needs isn't there.
ghost use Rattle.std.specs.Prelude.{◌≡◌, ◌<◌, is_ok, not};
ghost use Rattle.std.specs.Result.{result_ok};
ghost use Rattle.xhci_machine.specs.Contexts.{is_asleep, lacks_context};
ghost use Rattle.xhci_machine.specs.Bus.{fault_in, is_cut, is_silent};
ghost use Rattle.xhci_machine.specs.Ring.{is_addressable, is_unanswered};
ghost use Rattle.xhci_machine.specs.Rounds.{answered, command_pipe_stepped, control_stepped, data_due, data_of, is_stray, status_due, status_of, stray_stepped};

use crate::Machine;
use crate::wanting::is_due;
use guest_memory::rings::EventRing;
use guest_memory::{GuestMemory, Outside};
use guest_pipes::Acted;
use guest_transfers::{StreamPipe, next_rung};
use uas_profile::Pipe;
use xhci_control::Served;
use xhci_registers::Link;
use xhci_slots::SlotCommand;
use xhci_slots::contexts::{InputContext, SlotState};

/// Stall Error (table 6-90): of an endpoint that the disk halted, or a ring that its alternate setting doesn't have.
pub(crate) const STALL_ERROR: u8 = 6;

/// USB Transaction Error (table 6-90): nothing answers on the bus.
pub(crate) const TRANSACTION_ERROR: u8 = 4;

impl Machine {
    /// Whether nothing answers at the port: no device is connected, or the port isn't enabled.
    pub(crate) fn is_cut(&self) -> bool
        ensures { result ≡ is_cut self.now }
    {
        !(self.registers.port.connected && self.registers.port.enabled)
    }

    /// Whether nothing serves the pipes: the disk isn't configured either.
    pub(crate) fn is_silent(&self) -> bool
        ensures { result ≡ is_silent self.now }
    {
        self.is_cut() || !self.control.is_configured()
    }

    /// What endpoint 0's TDs are told with where nothing answers.
    pub(crate) fn fault(&self) -> Option<u8>
        ensures { result ≡ fault_in self.now }
    {
        if self.is_cut() {
            Some(TRANSACTION_ERROR)
        } else {
            None
        }
    }

    /// Whether it is an Address Device without BSR, whose request nothing answers at the port (4.6.5).
    pub(crate) fn is_unanswered<M: GuestMemory>(&self, memory: &M, command: SlotCommand) -> bool
        ensures { result ≡ is_unanswered (M.contents memory.now) self.now command }
    {
        match command {
            SlotCommand::Address {
                input,
                blocked: false,
            } => self.is_cut() && self.is_addressable(memory, input),
            SlotCommand::Enable
            | SlotCommand::Disable
            | SlotCommand::Address { .. }
            | SlotCommand::Configure { .. }
            | SlotCommand::Evaluate { .. }
            | SlotCommand::Reset => false,
        }
    }

    /// Whether the slot may be addressed, by an input context that is there and isn't bad.
    fn is_addressable<M: GuestMemory>(&self, memory: &M, input: u64) -> bool
        ensures { result ≡ is_addressable (M.contents memory.now) input self.now.slot.state }
    {
        match self.slot.state {
            Some(SlotState::Enabled | SlotState::Default) => {
                match InputContext::read(memory, input) {
                    Ok(read) => !read.is_bad_address(),
                    Err(Outside) => false,
                }
            }
            None | Some(SlotState::Addressed | SlotState::Configured) => false,
        }
    }

    /// Whether a doorbell of a pipe is looked at that no tag's turn serves: any of an endpoint that isn't served.
    pub(crate) fn is_stray(&self, name: StreamPipe) -> bool
        ensures { result ≡ is_stray self.now name }
    {
        let pipe = self.transfers.pipe(name);
        let runs = pipe.state().runs();
        match (self.stream_fault(name), self.has_bulk(name)) {
            (Some(_), false) => runs && (pipe.has_stray() || next_rung(pipe).is_some()),
            (Some(_), true) => runs && pipe.consumer(0).rung,
            (None, false) => runs && pipe.has_stray(),
            (None, true) => self.breaks(name) || runs && pipe.consumer(0).rung,
        }
    }

    /// Whether the port is suspended: no endpoint has a step then, and the doorbells stay (4.15.1).
    pub(crate) fn is_asleep(&self) -> bool
        ensures { result ≡ is_asleep self.now }
    {
        matches!(self.registers.port.link, Link::U3)
    }

    /// Tests the device context before a step that may change an endpoint's state in it (4.8.3, 4.10.2.6). One that isn't due, or that a
    /// full event ring holds back, doesn't need it. Refused where a byte of it isn't there.
    fn test_context<M: GuestMemory>(
        &self,
        memory: &M,
        events: &EventRing,
        due: bool,
    ) -> Result<(), Outside>
        ensures { is_ok result
            ≡ not (lacks_context (record { memory = M.contents memory.now; events = events.now; machine = self.now }) due) }
    {
        if due && events.has_room() && self.wants_context(memory).is_some() {
            Err(Outside)
        } else {
            Ok(())
        }
    }

    /// What the disk's answer to a request of endpoint 0 leaves: where it was configured anew, or Bulk-Only's transport reset, every task is gone.
    fn answer(&mut self, served: Served)
        ensures { self.new ≡ answered served self.old }
    {
        self.end_tasks_if(served.restarted || served.bulk_reset);
        if served.restarted {
            self.transfers.clear_tags();
            self.bulk.restart();
        }
        if served.bulk_reset {
            self.bulk.reset();
        }
        self.keep_halted();
    }

    /// A step of endpoint 0.
    #[tactic(auto, unfolding(crate::specs::Rounds::control_stepped))]
    pub(crate) fn step_control<M: GuestMemory>(
        &mut self,
        memory: &mut M,
        events: &mut EventRing,
    ) -> Result<Acted, Outside>
        ensures stepped { (record { memory = M.contents memory.new; events = events.new; machine = self.new }, result_ok result)
            ≡ control_stepped (record { memory = M.contents memory.old; events = events.old; machine = self.old }) }
        ensures same_loan { M.loan memory.new ≡ M.loan memory.old }
    {
        if self.is_asleep() {
            return Ok(Acted::Idle);
        }
        self.test_context(memory, events, self.control.is_due())?;
        let fault = self.fault();
        let served = self.control.step(memory, events, fault)?;
        self.answer(served);
        Ok(served.acted)
    }

    #[tactic(auto, unfolding(crate::specs::Rounds::command_pipe_stepped))]
    pub(crate) fn step_command_pipe<M: GuestMemory>(
        &mut self,
        memory: &mut M,
        events: &mut EventRing,
    ) -> Result<Acted, Outside>
        ensures stepped { (record { memory = M.contents memory.new; events = events.new; machine = self.new }, result_ok result)
            ≡ command_pipe_stepped (record { memory = M.contents memory.old; events = events.old; machine = self.old }) }
        ensures same_loan { M.loan memory.new ≡ M.loan memory.old }
    {
        if self.is_asleep() {
            return Ok(Acted::Idle);
        }
        self.test_context(memory, events, is_due(&self.transfers.command()))?;
        match self.pipe_fault(Pipe::Command) {
            Some(code) => self.transfers.step_silent_command(memory, events, code),
            None => self
                .transfers
                .step_command(memory, events, &mut self.device),
        }
    }

    #[tactic(auto, unfolding(crate::specs::Rounds::stray_stepped))]
    pub(crate) fn step_stray<M: GuestMemory>(
        &mut self,
        memory: &mut M,
        events: &mut EventRing,
        name: StreamPipe,
    ) -> Result<Acted, Outside>
        ensures stepped { (record { memory = M.contents memory.new; events = events.new; machine = self.new }, result_ok result)
            ≡ stray_stepped (record { memory = M.contents memory.old; events = events.old; machine = self.old }) name }
        ensures same_loan { M.loan memory.new ≡ M.loan memory.old }
    {
        if self.is_asleep() {
            return Ok(Acted::Idle);
        }
        self.test_context(memory, events, self.is_stray(name))?;
        match (self.stream_fault(name), self.has_bulk(name)) {
            (Some(code), false) => self.transfers.step_silent(memory, events, name, code),
            (None, false) => self.transfers.step_stray(memory, events, name, STALL_ERROR),
            (fault, true) => self.turn_bulk(memory, events, fault, name),
        }
    }

    #[tactic(auto, unfolding(crate::specs::Rounds::data_of))]
    pub(crate) fn step_data<M: GuestMemory>(
        &mut self,
        memory: &mut M,
        events: &mut EventRing,
        tag: u16,
    ) -> Result<Acted, Outside>
        requires { tag < 241 }
        ensures stepped { (record { memory = M.contents memory.new; events = events.new; machine = self.new }, result_ok result)
            ≡ data_of (record { memory = M.contents memory.old; events = events.old; machine = self.old }) tag }
        ensures same_loan { M.loan memory.new ≡ M.loan memory.old }
    {
        if self.has_no_tags() {
            return Ok(Acted::Idle);
        }
        self.step_data_due(memory, events, tag)
    }

    #[tactic(auto, unfolding(crate::specs::Rounds::data_due))]
    fn step_data_due<M: GuestMemory>(
        &mut self,
        memory: &mut M,
        events: &mut EventRing,
        tag: u16,
    ) -> Result<Acted, Outside>
        requires { tag < 241 }
        ensures stepped { (record { memory = M.contents memory.new; events = events.new; machine = self.new }, result_ok result)
            ≡ data_due (record { memory = M.contents memory.old; events = events.old; machine = self.old }) tag }
        ensures same_loan { M.loan memory.new ≡ M.loan memory.old }
    {
        if self.is_asleep() {
            return Ok(Acted::Idle);
        }
        let due = is_due(&self.transfers.pipe(StreamPipe::DataIn).consumer(tag))
            || is_due(&self.transfers.pipe(StreamPipe::DataOut).consumer(tag));
        self.test_context(memory, events, due)?;
        self.transfers
            .step_data(memory, events, &mut self.device, tag)
    }

    #[tactic(auto, unfolding(crate::specs::Rounds::status_of))]
    pub(crate) fn step_status<M: GuestMemory>(
        &mut self,
        memory: &mut M,
        events: &mut EventRing,
        tag: u16,
    ) -> Result<Acted, Outside>
        requires { tag < 241 }
        ensures stepped { (record { memory = M.contents memory.new; events = events.new; machine = self.new }, result_ok result)
            ≡ status_of (record { memory = M.contents memory.old; events = events.old; machine = self.old }) tag }
        ensures same_loan { M.loan memory.new ≡ M.loan memory.old }
    {
        if self.has_no_tags() {
            return Ok(Acted::Idle);
        }
        self.step_status_due(memory, events, tag)
    }

    #[tactic(auto, unfolding(crate::specs::Rounds::status_due))]
    fn step_status_due<M: GuestMemory>(
        &mut self,
        memory: &mut M,
        events: &mut EventRing,
        tag: u16,
    ) -> Result<Acted, Outside>
        requires { tag < 241 }
        ensures stepped { (record { memory = M.contents memory.new; events = events.new; machine = self.new }, result_ok result)
            ≡ status_due (record { memory = M.contents memory.old; events = events.old; machine = self.old }) tag }
        ensures same_loan { M.loan memory.new ≡ M.loan memory.old }
    {
        if self.is_asleep() {
            return Ok(Acted::Idle);
        }
        let due = is_due(&self.transfers.pipe(StreamPipe::Status).consumer(tag));
        self.test_context(memory, events, due)?;
        self.transfers
            .step_status(memory, events, &mut self.device, tag)
    }
}
