//! Events (6.4.2), completion codes (6.4.5), and the states in a device context (6.2).
ghost use Rattle.std.specs.Prelude.{◌≡◌, drop};
ghost use Rattle.byteorder.specs.Endian.{little_number};
ghost use Rattle.host_trbs.specs.Events.{completion_in, endpoint_state_in, event_in, is_failure, slot_state_in, transfer_completion};
ghost use Rattle.host_trbs.specs.Words.{cycle_in, words_in};

use crate::words::Words;
use byteorder::{ByteOrder, LittleEndian};

/// An event on the event ring. Bits that no field has aren't looked at.
#[derive(Clone, Copy, Debug, PartialEq, Eq)]
pub enum Event {
    /// 6.4.2.1: what became of a TRB of a transfer ring; `residual` bytes of it were not moved. `trb` may be 0 where the
    /// code says that no TRB is known.
    Transfer {
        trb: u64,
        residual: u32,
        code: u8,
        endpoint: u8,
        slot: u8,
    },
    /// 6.4.2.2: a command ended. `trb` is a multiple of 16.
    Command {
        trb: u64,
        code: u8,
        slot: u8,
    },
    /// 6.4.2.3: something changed at a root hub port.
    Port {
        port: u8,
    },
    /// 6.4.2.6: the controller itself has something to tell, such as that the event ring was full.
    Controller {
        code: u8,
    },
    /// An event of another type (control bits 15:10).
    Other {
        kind: u8,
    },
}

/// The event that 16 bytes of the event ring hold, and its Cycle bit. Every 16 bytes are read.
pub fn read_event(bytes: &[u8; 16]) -> (Event, bool)
    ensures { result ≡ (event_in (words_in bytes.now), cycle_in (words_in bytes.now)) }
{
    let words = Words::from_bytes(bytes);
    (event_of(words), words.control % 2 == 1)
}

fn event_of(words: Words) -> Event
    ensures { result ≡ event_in words }
{
    let code = (words.status >> 24) as u8;
    let slot = (words.control >> 24) as u8;
    match words.control >> 10 & 63 {
        TRANSFER_EVENT => Event::Transfer {
            trb: words.parameter,
            residual: words.status % (1 << 24),
            code,
            endpoint: (words.control >> 16 & 31) as u8,
            slot,
        },
        COMMAND_COMPLETION_EVENT => Event::Command {
            trb: words.parameter - words.parameter % 16,
            code,
            slot,
        },
        PORT_STATUS_CHANGE_EVENT => Event::Port {
            port: (words.parameter >> 24 & 255) as u8,
        },
        HOST_CONTROLLER_EVENT => Event::Controller { code },
        kind => Event::Other { kind: kind as u8 },
    }
}

// The TRB types of events (6.4.6).
const TRANSFER_EVENT: u32 = 32;

const COMMAND_COMPLETION_EVENT: u32 = 33;

const PORT_STATUS_CHANGE_EVENT: u32 = 34;

const HOST_CONTROLLER_EVENT: u32 = 37;

/// What a completion code says (6.4.5), as far as a host acts on it.
#[derive(Clone, Copy, Debug, PartialEq, Eq)]
pub enum Completion {
    /// 1 Success, and 224 to 255, by which a vendor tells more about a success.
    Success,
    /// 13 Short Packet.
    ShortPacket,
    /// 6 Stall Error: the device refused.
    Stall,
    /// 4 USB Transaction Error: the device didn't answer.
    Transaction,
    /// 2 Data Buffer, 3 Babble Detected, 5 TRB, 8 Resource, 10 Invalid Stream Type, 16 Secondary Bandwidth, 34 Invalid Stream
    /// ID, 36 Split Transaction, and a vendor's errors, 192 to 223.
    Failed,
    /// 19 Context State Error: the slot or the endpoint isn't in a state for the command.
    ContextState,
    /// 26 Stopped: the TD was not at its end, the residual counts.
    Stopped,
    /// 27 Stopped - Length Invalid: the residual says nothing.
    StoppedLengthInvalid,
    /// 28 Stopped - Short Packet: the residual is what was moved of the TD (EDTLA).
    StoppedShortPacket,
    /// Any other code.
    Other,
}

impl Completion {
    /// What a completion code says.
    pub fn of(code: u8) -> Completion
        ensures { result ≡ completion_in code }
    {
        match code {
            1 | 224..=255 => Completion::Success,
            13 => Completion::ShortPacket,
            6 => Completion::Stall,
            4 => Completion::Transaction,
            2 | 3 | 5 | 8 | 10 | 16 | 34 | 36 | 192..=223 => Completion::Failed,
            19 => Completion::ContextState,
            26 => Completion::Stopped,
            27 => Completion::StoppedLengthInvalid,
            28 => Completion::StoppedShortPacket,
            _ => Completion::Other,
        }
    }

    /// What the code of a Transfer Event says: Success with a residual is a short packet too (4.10.1.1 lets a controller tell
    /// one so).
    pub fn of_transfer(code: u8, residual: u32) -> Completion
        ensures { result ≡ transfer_completion code residual }
    {
        match Completion::of(code) {
            Completion::Success if residual > 0 => Completion::ShortPacket,
            completion => completion,
        }
    }

    /// Whether a TD with this completion failed.
    pub fn is_failure(self) -> bool
        ensures { result ≡ is_failure self }
    {
        matches!(
            self,
            Completion::Stall | Completion::Transaction | Completion::Failed
        )
    }
}

/// The state of an endpoint (EP State, 6.2.3).
#[derive(Clone, Copy, Debug, PartialEq, Eq)]
pub enum EndpointState {
    Disabled,
    Running,
    Halted,
    Stopped,
    Error,
    Reserved,
}

/// The state that stands in an endpoint context, bits 2:0 of the first word (6.2.3).
pub fn endpoint_state(context: &[u8; 32]) -> EndpointState
    ensures { result ≡ endpoint_state_in (little_number 4 context.now) }
{
    match LittleEndian::read_u32(context) % 8 {
        0 => EndpointState::Disabled,
        1 => EndpointState::Running,
        2 => EndpointState::Halted,
        3 => EndpointState::Stopped,
        4 => EndpointState::Error,
        _ => EndpointState::Reserved,
    }
}

/// The state of a slot (Slot State, 6.2.2).
#[derive(Clone, Copy, Debug, PartialEq, Eq)]
pub enum SlotState {
    DisabledOrEnabled,
    Default,
    Addressed,
    Configured,
    Reserved,
}

/// The state that stands in a slot context, bits 31:27 of the fourth word (6.2.2).
pub fn slot_state(context: &[u8; 32]) -> SlotState
    ensures { result ≡ slot_state_in (little_number 4 (drop 12 context.now)) }
{
    match LittleEndian::read_u32(&context[12..]) >> 27 {
        0 => SlotState::DisabledOrEnabled,
        1 => SlotState::Default,
        2 => SlotState::Addressed,
        3 => SlotState::Configured,
        _ => SlotState::Reserved,
    }
}
