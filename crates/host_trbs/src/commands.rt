//! Commands on the command ring (6.4.3).
ghost use Rattle.std.specs.Prelude.{◌≡◌};
ghost use Rattle.host_trbs.specs.Commands.{command_control, command_parameter, command_status, command_target, command_words};

use crate::words::{Words, aligned, cycle_bit};

/// A command to the controller (4.6). Slots are 1 to 255, endpoints are device context indices, 1 to 31 (control bits 20:16).
/// Addresses are multiples of 16: their low four bits aren't written.
#[derive(Clone, Copy, Debug, PartialEq, Eq)]
pub enum Command {
    /// 4.6.3: gives a slot out. `slot_type` is the port's, 0 to 31 (7.2.2.1.4).
    EnableSlot {
        slot_type: u8,
    },
    /// 4.6.4: takes a slot back.
    DisableSlot {
        slot: u8,
    },
    /// 4.6.5, with Block Set Address Request 0: the device gets its address.
    AddressDevice {
        input: u64,
        slot: u8,
    },
    /// 4.6.6, with Deconfigure 0: the pipes of an input context are set up.
    ConfigureEndpoint {
        input: u64,
        slot: u8,
    },
    /// 4.6.8, with Transfer State Preserve 0: a halted endpoint is stopped.
    ResetEndpoint {
        slot: u8,
        endpoint: u8,
    },
    /// 4.6.9, with Suspend 0: a running endpoint is stopped.
    StopEndpoint {
        slot: u8,
        endpoint: u8,
    },
    /// 4.6.10: a stopped endpoint goes on at another TRB, with Dequeue Cycle State 1. `stream` is 0 for a pipe without streams.
    SetDequeue {
        pointer: u64,
        stream: u16,
        slot: u8,
        endpoint: u8,
    },
}

impl Command {
    /// The TRB of a command with its Cycle bit.
    pub fn words(&self, cycle: bool) -> Words
        ensures { result ≡ command_words self.now cycle }
    {
        Words {
            parameter: self.parameter(),
            status: self.status(),
            control: self.control() + cycle_bit(cycle),
        }
    }

    fn parameter(&self) -> u64
        ensures { result ≡ command_parameter self.now }
    {
        match *self {
            Command::EnableSlot { .. }
            | Command::DisableSlot { .. }
            | Command::ResetEndpoint { .. }
            | Command::StopEndpoint { .. } => 0,
            Command::AddressDevice { input, .. } | Command::ConfigureEndpoint { input, .. } =>
                aligned(input),
            Command::SetDequeue {
                pointer,
                stream: 0,
                ..
            } => aligned(pointer) + CYCLE_STATE,
            Command::SetDequeue { pointer, .. } => aligned(pointer) + PRIMARY_RING + CYCLE_STATE,
        }
    }

    fn status(&self) -> u32
        ensures { result ≡ command_status self.now }
    {
        match *self {
            Command::SetDequeue { stream, .. } => u32::from(stream) << 16,
            _ => 0,
        }
    }

    // The control word without its Cycle bit: even, and so with room for it.
    fn control(&self) -> u32
        ensures { result ≡ command_control self.now }
    {
        match *self {
            Command::EnableSlot { slot_type } => (ENABLE_SLOT << 10) + target(slot_type, 0),
            Command::DisableSlot { slot } => (DISABLE_SLOT << 10) + target(0, slot),
            Command::AddressDevice { slot, .. } => (ADDRESS_DEVICE << 10) + target(0, slot),
            Command::ConfigureEndpoint { slot, .. } => (CONFIGURE_ENDPOINT << 10) + target(0, slot),
            Command::ResetEndpoint { slot, endpoint } => (RESET_ENDPOINT << 10)
                + target(endpoint, slot),
            Command::StopEndpoint { slot, endpoint } => (STOP_ENDPOINT << 10)
                + target(endpoint, slot),
            Command::SetDequeue { slot, endpoint, .. } => (SET_DEQUEUE << 10)
                + target(endpoint, slot),
        }
    }
}

// The TRB types of commands (6.4.6).
const ENABLE_SLOT: u32 = 9;

const DISABLE_SLOT: u32 = 10;

const ADDRESS_DEVICE: u32 = 11;

const CONFIGURE_ENDPOINT: u32 = 12;

const RESET_ENDPOINT: u32 = 14;

const STOP_ENDPOINT: u32 = 15;

const SET_DEQUEUE: u32 = 16;

// Dequeue Cycle State, bit 0 of a dequeue pointer.
pub(crate) const CYCLE_STATE: u64 = 1;

// Stream Context Type 1 in bits 3:1: the primary ring of a stream (6.2.4.1).
pub(crate) const PRIMARY_RING: u64 = 2;

// The endpoint or slot type in control bits 20:16, the slot in 31:24.
fn target(endpoint: u8, slot: u8) -> u32
    ensures { result ≡ command_target endpoint slot }
{
    (u32::from(endpoint % 32) << 16) + (u32::from(slot) << 24)
}
