//! What a TRB in a pipe's ring is (xHCI 1.2, 6.4.1 and 6.4.4). Reserved bits are ignored.
ghost use Rattle.std.specs.Prelude.{◌≡◌};
ghost use Rattle.guest_memory.specs.rings.Trbs.{flags_in, normal_in, trb_in};

use crate::rings::words::{Words, bit_of};

/// Chain, Interrupt On Completion, Interrupt on Short Packet, Block Event Interrupt and Immediate Data: control bits 4, 5, 2, 9
/// and 6.
#[derive(Clone, Copy, Debug, PartialEq, Eq)]
pub struct Flags {
    pub chain: bool,
    pub ioc: bool,
    pub isp: bool,
    pub bei: bool,
    pub idt: bool,
}

/// A TRB in a pipe's ring, without its Cycle bit.
#[derive(Clone, Copy, Debug, PartialEq, Eq)]
pub enum PipeTrb {
    /// Type 1: a buffer of at most 65,536 bytes.
    Normal {
        pointer: u64,
        length: u32,
        flags: Flags,
    },
    /// Type 6: where the next segment is, and whether the cycle state changes there (TC).
    Link {
        pointer: u64,
        toggle: bool,
        flags: Flags,
    },
    /// Type 8.
    NoOp {
        flags: Flags,
    },
    /// Type 7.
    EventData {
        parameter: u64,
        flags: Flags,
    },
    /// Another type, or a Normal TRB of more than 65,536 bytes.
    Foreign,
}

#[tactic(auto, unfolding(crate::specs::rings::Trbs::flags_in))]
fn flags_of(words: Words) -> Flags
    ensures { result ≡ flags_in words }
{
    Flags {
        chain: bit_of(words.control, 4),
        ioc: bit_of(words.control, 5),
        isp: bit_of(words.control, 2),
        bei: bit_of(words.control, 9),
        idt: bit_of(words.control, 6),
    }
}

/// The TRB that three words are in a pipe's ring.
#[tactic(auto, unfolding(crate::specs::rings::Trbs::trb_in))]
pub fn read_trb(words: Words) -> PipeTrb
    ensures { result ≡ trb_in words }
{
    match words.kind() {
        1 => read_normal(words),
        6 => PipeTrb::Link {
            pointer: 16 * (words.parameter / 16),
            toggle: bit_of(words.control, 1),
            flags: flags_of(words),
        },
        7 => PipeTrb::EventData {
            parameter: words.parameter,
            flags: flags_of(words),
        },
        8 => PipeTrb::NoOp {
            flags: flags_of(words),
        },
        _ => PipeTrb::Foreign,
    }
}

#[tactic(auto, unfolding(crate::specs::rings::Trbs::normal_in))]
fn read_normal(words: Words) -> PipeTrb
    ensures { result ≡ normal_in words }
{
    let length = words.status % 131_072;
    if length > 65_536 {
        PipeTrb::Foreign
    } else {
        PipeTrb::Normal {
            pointer: words.parameter,
            length,
            flags: flags_of(words),
        }
    }
}
