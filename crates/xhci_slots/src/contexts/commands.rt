//! What the commands on contexts make of a device context.
ghost use Rattle.std.specs.Prelude.{◌≡◌, ◌<◌, ◌≤◌, ◌*◌, ◌^◌};
ghost use Rattle.xhci_slots.specs.contexts.Commands.{addressed, configured, configured_of, control_evaluated, deconfigured, device_reset, endpoint_configured};
ghost use Rattle.xhci_slots.specs.contexts.Commands.{evaluated, has_pipe, is_enabled, pipes_disabled, slot_disabled, slot_evaluated, state_number, with_address};
ghost use Rattle.xhci_slots.specs.contexts.Commands.{with_endpoint, with_endpoint_state, with_entries, with_entries_of, with_pipes_told, with_slot_state, with_state};
ghost use Rattle.xhci_slots.specs.contexts.Contexts.{slot_number};

use crate::contexts::{
    DeviceContext, EndpointContext, EndpointState, InputContext, Number, SlotContext, SlotState,
};

/// The weight of the slot's state and of Context Entries in their words.
const TOP: u32 = 1 << 27;

/// USB device address of the disk, once it has one.
const ADDRESS: u32 = 1;

impl SlotState {
    fn number(self) -> u32
        ensures number { result ≡ slot_number self }
        ensures fits { result < 4 }
    {
        match self {
            SlotState::Enabled => 0,
            SlotState::Default => 1,
            SlotState::Addressed => 2,
            SlotState::Configured => 3,
        }
    }
}

impl EndpointState {
    fn number(self) -> u32
        ensures number { result ≡ state_number self }
        ensures fits { result < 5 }
    {
        match self {
            EndpointState::Disabled => 0,
            EndpointState::Running => 1,
            EndpointState::Halted => 2,
            EndpointState::Stopped => 3,
            EndpointState::Error => 4,
        }
    }
}

impl SlotContext {
    fn with_address(self, address: u32, state: SlotState) -> SlotContext
        requires { address < 256 }
        ensures { result ≡ with_address self address state }
    {
        SlotContext {
            state: address + TOP * state.number(),
            ..self
        }
    }

    fn with_state(self, state: SlotState) -> SlotContext
        ensures { result ≡ with_slot_state self state }
    {
        SlotContext {
            state: self.state % TOP + TOP * state.number(),
            ..self
        }
    }

    fn with_entries(self, entries: u32) -> SlotContext
        requires { entries < 32 }
        ensures { result ≡ with_entries self entries }
    {
        SlotContext {
            route: self.route % TOP + TOP * entries,
            ..self
        }
    }

    fn with_entries_of(self, other: SlotContext) -> SlotContext
        ensures { result ≡ with_entries_of self other }
    {
        SlotContext {
            route: self.route % TOP + (other.route - other.route % TOP),
            ..self
        }
    }

    /// Max Exit Latency and Interrupter Target of another.
    fn evaluated(self, new: SlotContext) -> SlotContext
        ensures { result ≡ slot_evaluated self new }
    {
        SlotContext {
            port: (self.port - self.port % 0x1_0000) + new.port % 0x1_0000,
            target: self.target % 0x40_0000 + (new.target - new.target % 0x40_0000),
            ..self
        }
    }
}

impl EndpointContext {
    fn with_state(self, state: EndpointState) -> EndpointContext
        ensures { result ≡ with_state self state }
    {
        EndpointContext {
            state: (self.state - self.state % 8) + state.number(),
            ..self
        }
    }

    fn is_enabled(&self) -> bool
        ensures { result ≡ is_enabled self.now }
    {
        self.state % 8 != 0
    }

    /// Dropped, added or neither.
    fn configured(self, new: EndpointContext, drops: bool, adds: bool) -> EndpointContext
        ensures { result ≡ endpoint_configured self new drops adds }
    {
        if adds {
            new.with_state(EndpointState::Running)
        } else if drops {
            self.with_state(EndpointState::Disabled)
        } else {
            self
        }
    }

    /// Max Packet Size of another.
    fn evaluated(self, new: EndpointContext) -> EndpointContext
        ensures { result ≡ control_evaluated self new }
    {
        EndpointContext {
            kind: self.kind % 0x1_0000 + (new.kind - new.kind % 0x1_0000),
            ..self
        }
    }
}

impl DeviceContext {
    fn with_endpoint(self, number: Number, endpoint: EndpointContext) -> DeviceContext
        ensures { result ≡ with_endpoint self number endpoint }
    {
        match number {
            Number::ControlPipe => DeviceContext {
                control: endpoint,
                ..self
            },
            Number::CommandPipe => DeviceContext {
                command: endpoint,
                ..self
            },
            Number::StatusPipe => DeviceContext {
                status: endpoint,
                ..self
            },
            Number::DataOutPipe => DeviceContext {
                data_out: endpoint,
                ..self
            },
            Number::DataInPipe => DeviceContext {
                data_in: endpoint,
                ..self
            },
        }
    }

    /// With an endpoint in this state.
    pub fn with_endpoint_state(self, number: Number, state: EndpointState) -> DeviceContext
        ensures { result ≡ with_endpoint_state self number state }
    {
        self.with_endpoint(number, self.endpoint(number).with_state(state))
    }

    /// Address Device (4.6.5): slot and endpoint 0 of the input. With BSR, `blocked`, the slot is Default; else it has address 1.
    pub fn addressed(self, input: &InputContext, blocked: bool) -> DeviceContext
        ensures { result ≡ addressed self input.now blocked }
    {
        let (address, state) = if blocked {
            (0, SlotState::Default)
        } else {
            (ADDRESS, SlotState::Addressed)
        };
        DeviceContext {
            slot: input.device.slot.with_address(address, state),
            control: input.device.control.with_state(EndpointState::Running),
            ..self
        }
    }

    fn configured_of(&self, input: &InputContext, number: Number) -> EndpointContext
        ensures { result ≡ configured_of self.now input.now number }
    {
        self.endpoint(number).configured(
            input.device.endpoint(number),
            input.drops(number),
            input.adds(number),
        )
    }

    /// Whether a pipe is enabled.
    pub fn has_pipe(&self) -> bool
        ensures { result ≡ has_pipe self.now }
    {
        self.command.is_enabled()
            || self.status.is_enabled()
            || self.data_out.is_enabled()
            || self.data_in.is_enabled()
    }

    /// The slot is Configured where a pipe is enabled, else Addressed.
    fn with_pipes_told(self) -> DeviceContext
        ensures { result ≡ with_pipes_told self }
    {
        let state = if self.has_pipe() {
            SlotState::Configured
        } else {
            SlotState::Addressed
        };
        DeviceContext {
            slot: self.slot.with_state(state),
            ..self
        }
    }

    /// Configure Endpoint (4.6.6): drops, then adds.
    pub fn configured(self, input: &InputContext) -> DeviceContext
        ensures { result ≡ configured self input.now }
    {
        let device = DeviceContext {
            slot: self.slot.with_entries_of(input.device.slot),
            command: self.configured_of(input, Number::CommandPipe),
            status: self.configured_of(input, Number::StatusPipe),
            data_out: self.configured_of(input, Number::DataOutPipe),
            data_in: self.configured_of(input, Number::DataInPipe),
            ..self
        };
        device.with_pipes_told()
    }

    fn pipes_disabled(self) -> DeviceContext
        ensures { result ≡ pipes_disabled self }
    {
        DeviceContext {
            command: self.command.with_state(EndpointState::Disabled),
            status: self.status.with_state(EndpointState::Disabled),
            data_out: self.data_out.with_state(EndpointState::Disabled),
            data_in: self.data_in.with_state(EndpointState::Disabled),
            ..self
        }
    }

    /// Configure Endpoint with DC (4.6.6): every pipe is disabled, the slot is Addressed.
    pub fn deconfigured(self) -> DeviceContext
        ensures { result ≡ deconfigured self }
    {
        let device = self.pipes_disabled();
        DeviceContext {
            slot: self.slot.with_state(SlotState::Addressed).with_entries(1),
            ..device
        }
    }

    /// Reset Device (4.6.11): every pipe is disabled, the slot is Default and has no address.
    pub fn reset(self) -> DeviceContext
        ensures { result ≡ device_reset self }
    {
        let device = self.pipes_disabled();
        DeviceContext {
            slot: self
                .slot
                .with_address(0, SlotState::Default)
                .with_entries(1),
            ..device
        }
    }

    /// Evaluate Context (4.6.7): with A0 two fields of the slot, with A1 the packet size of endpoint 0.
    pub fn evaluated(self, input: &InputContext) -> DeviceContext
        ensures { result ≡ evaluated self input.now }
    {
        let slot = if input.adds % 2 == 1 {
            self.slot.evaluated(input.device.slot)
        } else {
            self.slot
        };
        let control = if input.adds(Number::ControlPipe) {
            self.control.evaluated(input.device.control)
        } else {
            self.control
        };
        DeviceContext {
            slot,
            control,
            ..self
        }
    }

    /// Disable Slot (4.6.4): nothing of it is in use.
    pub fn disabled(self) -> DeviceContext
        ensures { result ≡ slot_disabled self }
    {
        let device = self.pipes_disabled();
        DeviceContext {
            slot: self.slot.with_address(0, SlotState::Enabled),
            control: self.control.with_state(EndpointState::Disabled),
            ..device
        }
    }
}
