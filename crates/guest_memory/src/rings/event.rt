//! Events (xHCI 1.2, 6.4.2).
ghost use Rattle.std.specs.Prelude.{◌≡◌, ◌<◌, ◌^◌};
ghost use Rattle.guest_memory.specs.rings.Events.{bytes_of, event_bytes, event_words};

use crate::rings::words::{Words, bit};
use byteorder::{ByteOrder, LittleEndian};

/// What an event says.
#[derive(Clone, Copy, Debug, PartialEq, Eq)]
pub enum Event {
    /// Transfer Event of slot 1: a pointer, a length, a completion code, the endpoint ID, and whether the pointer is an Event
    /// Data TRB's parameter (ED).
    Transfer {
        pointer: u64,
        residual: u32,
        code: u8,
        endpoint: u8,
        event_data: bool,
    },
    /// Command Completion Event: the command TRB's address, a completion code and a slot.
    Command {
        pointer: u64,
        code: u8,
        slot: u8,
    },
    /// Port Status Change Event of a root hub port.
    PortChange {
        port: u8,
    },
    /// Host Controller Event: Event Ring Full Error.
    RingFull,
}

/// The words of an event, with Cycle bit 0.
fn event_words(event: &Event) -> Words
    ensures { result ≡ event_words event.now }
{
    match *event {
        Event::Transfer {
            pointer,
            residual,
            code,
            endpoint,
            event_data,
        } => Words {
            parameter: pointer,
            status: residual % 16_777_216 + 16_777_216 * u32::from(code),
            control: 32_768 + 65_536 * u32::from(endpoint) + 16_777_216 + 4 * bit(event_data),
        },
        Event::Command {
            pointer,
            code,
            slot,
        } => Words {
            parameter: pointer,
            status: 16_777_216 * u32::from(code),
            control: 33_792 + 16_777_216 * u32::from(slot),
        },
        Event::PortChange { port } => Words {
            parameter: 16_777_216 * u64::from(port),
            status: 16_777_216,
            control: 34_816,
        },
        Event::RingFull => Words {
            parameter: 0,
            status: 352_321_536,
            control: 37_888,
        },
    }
}

/// The 16 bytes of an event with its Cycle bit.
#[tactic(auto, unfolding(crate::specs::rings::Events::bytes_of))]
pub(crate) fn event_bytes(event: &Event, cycle: bool) -> [u8; 16]
    ensures { result ≡ event_bytes event.now cycle }
{
    let words = event_words(event);
    let mut bytes = [0; 16];
    LittleEndian::write_u64(&mut bytes, words.parameter);
    LittleEndian::write_u32(&mut bytes[8..], words.status);
    LittleEndian::write_u32(&mut bytes[12..], words.control + bit(cycle));
    bytes
}
