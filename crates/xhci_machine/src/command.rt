//! What a TRB in the command ring asks for (xHCI 1.2, 6.4.3).
ghost use Rattle.std.specs.Prelude.{◌≡◌, ◌<◌, ◌/◌, ◌%◌, ◌^◌};
ghost use Rattle.guest_memory.specs.rings.Words.{bit_in};
ghost use Rattle.xhci_machine.specs.Commands.{command_in, dequeue_in, on_endpoint, on_slot};

use guest_memory::rings::{Cursor, Words};
use xhci_slots::SlotCommand;

/// A command on an endpoint.
#[derive(Clone, Copy, Debug, PartialEq, Eq)]
pub(crate) enum Order {
    /// Reset Endpoint; with TSP what is opaque stays.
    Reset {
        keeps: bool,
    },
    /// Stop Endpoint.
    Stop,
    /// Set TR Dequeue Pointer: the pointer with its cycle state, the stream's type (SCT), and the stream.
    SetDequeue {
        cursor: Cursor,
        kind: u8,
        stream: u16,
    },
}

/// A TRB in the command ring.
#[derive(Clone, Copy, Debug, PartialEq, Eq)]
pub(crate) enum Command {
    /// Where the next segment is, and whether the cycle state changes there (TC).
    Link {
        pointer: u64,
        toggle: bool,
        ioc: bool,
    },
    NoOp,
    /// A command on the slot of this number.
    OnSlot {
        slot: u8,
        command: SlotCommand,
    },
    /// A command on an endpoint of the slot of this number.
    OnEndpoint {
        slot: u8,
        endpoint: u8,
        order: Order,
    },
    /// Another type.
    Foreign,
}

/// The bit at a place of a word.
fn has_bit(word: u32, place: u32) -> bool
    requires { place < 31 }
    ensures { result ≡ bit_in word place }
{
    (word >> place) % 2 == 1
}

fn slot_in(words: Words) -> u8
    ensures { result ≡ words.control / 2 ^ 24 }
{
    (words.control >> 24) as u8
}

fn on_slot(words: Words, command: SlotCommand) -> Command
    ensures { result ≡ on_slot words command }
{
    Command::OnSlot {
        slot: slot_in(words),
        command,
    }
}

fn on_endpoint(words: Words, order: Order) -> Command
    ensures { result ≡ on_endpoint words order }
{
    Command::OnEndpoint {
        slot: slot_in(words),
        endpoint: ((words.control >> 16) % 32) as u8,
        order,
    }
}

fn dequeue_in(words: Words) -> Order
    ensures { result ≡ dequeue_in words }
{
    Order::SetDequeue {
        cursor: Cursor::of_number(words.parameter),
        kind: ((words.parameter >> 1) % 8) as u8,
        stream: (words.status >> 16) as u16,
    }
}

/// The command that three words are.
#[tactic(auto, unfolding(crate::specs::Commands::command_in))]
pub(crate) fn read_command(words: Words) -> Command
    ensures { result ≡ command_in words }
{
    let pointer = 16 * (words.parameter / 16);
    let bit9 = has_bit(words.control, 9);
    match words.kind() {
        6 => Command::Link {
            pointer,
            toggle: has_bit(words.control, 1),
            ioc: has_bit(words.control, 5),
        },
        9 => on_slot(words, SlotCommand::Enable),
        10 => on_slot(words, SlotCommand::Disable),
        11 => on_slot(
            words,
            SlotCommand::Address {
                input: pointer,
                blocked: bit9,
            },
        ),
        12 => on_slot(
            words,
            SlotCommand::Configure {
                input: pointer,
                deconfigures: bit9,
            },
        ),
        13 => on_slot(words, SlotCommand::Evaluate { input: pointer }),
        14 => on_endpoint(words, Order::Reset { keeps: bit9 }),
        15 => on_endpoint(words, Order::Stop),
        16 => on_endpoint(words, dequeue_in(words)),
        17 => on_slot(words, SlotCommand::Reset),
        23 => Command::NoOp,
        _ => Command::Foreign,
    }
}
