//! What a TRB in the ring of endpoint 0 is (xHCI 1.2, 6.4.1.2).
ghost use Rattle.std.specs.Prelude.{◌≡◌, ◌<◌, ◌≤◌};
ghost use Rattle.byteorder.specs.Endian.{little_bytes};
ghost use Rattle.guest_memory.specs.rings.Words.{bit_in};
ghost use Rattle.xhci_control.specs.Trbs.{control_in, data_flags, data_stage, setup_stage, stage_flags};

use byteorder::{ByteOrder, LittleEndian};
use guest_memory::rings::{Flags, PipeTrb, Words, read_trb};
use usb_disk::Setup;

/// A TRB in the ring of endpoint 0, without its Cycle bit.
#[derive(Clone, Copy, Debug, PartialEq, Eq)]
pub(crate) enum ControlTrb {
    /// Type 2, with eight bytes of immediate data.
    SetupStage {
        setup: Setup,
        flags: Flags,
    },
    /// Type 3: a buffer of at most 65,536 bytes, to the host or to the device.
    DataStage {
        pointer: u64,
        length: u32,
        to_host: bool,
        flags: Flags,
    },
    /// Type 4.
    StatusStage {
        flags: Flags,
    },
    /// Any other.
    Other(PipeTrb),
}

/// The bit at a place of a word.
fn has_bit(word: u32, place: u32) -> bool
    requires { place < 31 }
    ensures { result ≡ bit_in word place }
{
    (word >> place) % 2 == 1
}

/// Flags of a TRB that ends its TD.
fn stage_flags(words: Words) -> Flags
    ensures { result ≡ stage_flags words }
{
    Flags {
        chain: false,
        ioc: has_bit(words.control, 5),
        isp: false,
        bei: has_bit(words.control, 9),
        idt: has_bit(words.control, 6),
    }
}

/// Flags of a TRB that may be one of several of its TD.
fn data_flags(words: Words) -> Flags
    ensures { result ≡ data_flags words }
{
    Flags {
        chain: has_bit(words.control, 4),
        isp: has_bit(words.control, 2),
        ..stage_flags(words)
    }
}

/// The bytes of a number, the low one first.
fn bytes_of(number: u64) -> [u8; 8]
    ensures { result ≡ little_bytes 8 number }
{
    let mut bytes = [0; 8];
    LittleEndian::write_u64(&mut bytes, number);
    bytes
}

fn read_setup_stage(words: Words) -> ControlTrb
    ensures { result ≡ setup_stage words }
{
    if words.status % 131_072 != 8 || !has_bit(words.control, 6) {
        return ControlTrb::Other(PipeTrb::Foreign);
    }
    ControlTrb::SetupStage {
        setup: Setup::from_bytes(&bytes_of(words.parameter)),
        flags: stage_flags(words),
    }
}

fn read_data_stage(words: Words) -> ControlTrb
    ensures { result ≡ data_stage words }
{
    let length = words.status % 131_072;
    if length > 65_536 {
        return ControlTrb::Other(PipeTrb::Foreign);
    }
    ControlTrb::DataStage {
        pointer: words.parameter,
        length,
        to_host: has_bit(words.control, 16),
        flags: data_flags(words),
    }
}

/// The TRB that three words are in the ring of endpoint 0.
#[tactic(auto, unfolding(crate::specs::Trbs::control_in))]
pub(crate) fn read_control(words: Words) -> ControlTrb
    ensures { result ≡ control_in words }
{
    match words.kind() {
        2 => read_setup_stage(words),
        3 => read_data_stage(words),
        4 => ControlTrb::StatusStage {
            flags: stage_flags(words),
        },
        _ => ControlTrb::Other(read_trb(words)),
    }
}
