//! TRBs, the 16 bytes by which host and controller speak (xHCI 1.2, 6.4).
//!
//! A TRB is three words, each low byte first: the parameter (bytes 0 to 7), the status (8 to 11)
//! and the control word (12 to 15). Control bit 0 is the Cycle bit and control bits 15:10 the type.
//! Six types are read and written here: Normal, Link, Stop Endpoint, Set TR Dequeue Pointer,
//! Transfer Event and Command Completion Event.
//!
//! What is promised: [`encode`] writes each field at its place and 0 elsewhere, so that the 16
//! bytes are one little endian number of 128 bits, the sum of the fields. [`decode`] takes exactly
//! these texts and gives the TRB and the Cycle bit back; of any other bytes it names the first test
//! that fails. [`laws`] has the two round trips for callers. The crate stands on `byteorder` for the
//! bytes of a word and on `bitflags` for the names of the flags, and takes no memory.
#![tactic(auto)]

ghost use Rattle.std.specs.Prelude.{⊤, ◌≡◌, Bool, [], ◌∷◌, Some, None, Ok, IfOk, OnOk, IfErr, codes};
ghost use Rattle.byteorder.specs.Endian.{little_number};
ghost use Rattle.xhci_trb.specs.declared.Trb.{Trb};
ghost use Rattle.xhci_trb.specs.Words.{number_of, words_in};
ghost use Rattle.xhci_trb.specs.Text.{Fits, HasText, text, words_of, fault_in, has_chain};
ghost use Rattle.xhci_trb.specs.Reader.{trb_in, cycle_in};

use bitflags::{Flag, Flags, bitflag_items};
use read::read_trb;
use thiserror::Error;
use words::{read_words, write_words};
use write::words_of_trb;

mod kinds;
pub mod laws;
mod read;
mod words;
mod write;

/// The most bytes that one Normal TRB moves (6.4.1.1, TRB Transfer Length).
pub const MAX_LENGTH: u32 = 65536;

const _: () = prove!(MAX_LENGTH == 65_536);

/// The flags of a Normal TRB (6.4.1.1), close together: bits 0 to 5 are control bits 1 to 6, and
/// bit 6 is control bit 9.
#[derive(Clone, Copy, PartialEq, Eq, Debug)]
pub struct TrbFlags(pub u8);

bitflag_items! {
    impl TrbFlags: u8 {
        const ENT = 1;
        const ISP = 2;
        const NS = 4;
        const CH = 8;
        const IOC = 16;
        const IDT = 32;
        const BEI = 64;
    }
}

const _: () = prove!(
    TrbFlags::ENT.0 == 1
        && TrbFlags::ISP.0 == 2
        && TrbFlags::NS.0 == 4
        && TrbFlags::CH.0 == 8
        && TrbFlags::IOC.0 == 16
        && TrbFlags::IDT.0 == 32
        && TrbFlags::BEI.0 == 64
);

impl Flags for TrbFlags {
    type Bits = u8;

    ghost exact = { ⊤ };

    ghost table = { (codes "ENT", 1) ∷ (codes "ISP", 2) ∷ (codes "NS", 4) ∷ (codes "CH", 8) ∷ (codes "IOC", 16) ∷ (codes "IDT", 32) ∷ (codes "BEI", 64) ∷ [] };

    ghost set_of = { λ flags. flags.0 };

    fn flags<'a>() -> &'a [Flag<TrbFlags>] {
        TrbFlags::FLAGS
    }

    fn bits(&self) -> u8 {
        self.0
    }

    fn from_bits_retain(bits: u8) -> TrbFlags {
        TrbFlags(bits)
    }
}

/// A TRB without its Cycle bit.
#[derive(Clone, Copy, PartialEq, Eq, Debug)]
pub enum Trb {
    /// Normal, type 1 (6.4.1.1): `length` bytes at `pointer` (status 16:0), TD Size in status
    /// 21:17, the flags in control 6:1 and 9. The interrupter target is 0.
    Normal {
        pointer: u64,
        length: u32,
        td_size: u8,
        flags: TrbFlags,
    },
    /// Link, type 6 (6.4.4.1): the segment pointer, Toggle Cycle (control 1), Chain (4) and
    /// Interrupt On Completion (5). The pointer is a multiple of 16.
    Link {
        pointer: u64,
        toggle: bool,
        chain: bool,
        ioc: bool,
    },
    /// Stop Endpoint Command, type 15 (6.4.3.8): the endpoint ID (control 20:16) and the slot (31:24).
    StopEndpoint {
        endpoint: u8,
        slot: u8,
    },
    /// Set TR Dequeue Pointer Command, type 16 (6.4.3.9): the new dequeue pointer, a multiple of 16,
    /// with its cycle state (DCS, parameter 0) and stream context type 1 (SCT, parameter 3:1); the
    /// stream (status 31:16), endpoint ID and slot.
    SetDequeue {
        pointer: u64,
        cycle: bool,
        stream: u16,
        endpoint: u8,
        slot: u8,
    },
    /// Transfer Event, type 32 (6.4.2.1): the TRB that it is about, the bytes that were not moved
    /// (status 23:0), the completion code (31:24), the endpoint ID and the slot.
    TransferEvent {
        pointer: u64,
        residual: u32,
        code: u8,
        endpoint: u8,
        slot: u8,
    },
    /// Command Completion Event, type 33 (6.4.2.2): the command TRB, a multiple of 16, its completion
    /// code (status 31:24) and the slot.
    CommandEvent {
        pointer: u64,
        code: u8,
        slot: u8,
    },
}

/// Why 16 bytes are no text: the first of these that holds.
#[derive(Clone, Copy, PartialEq, Eq, Debug, Error)]
pub enum TrbFault {
    /// The type is none of the six (control 15:10).
    #[error("TRB type {0} is not known")]
    UnknownType(u8),
    /// A Normal TRB of more than 65,536 bytes.
    #[error("TRB transfer length above 65536")]
    LengthOver,
    /// A bit outside the named fields is set, or SCT isn't 1.
    #[error("reserved TRB bit set")]
    ReservedSet,
}

impl Trb {
    /// Whether the Chain bit is set: the next TRB is of the same TD (4.11).
    pub fn has_chain(&self) -> bool
        ensures { result ≡ has_chain self.now }
    {
        match *self {
            Trb::Normal { flags, .. } => flags.0 / TrbFlags::CH.0 % 2 == 1,
            Trb::Link { chain, .. } => chain,
            _ => false,
        }
    }
}

/// The 16 bytes of a TRB with its Cycle bit (6.4). Asks that each field fits its bits: a Normal
/// length 17, TD Size 5, flags 7, an endpoint 5, a residual 24, and that a pointer which loses its
/// low four bits is a multiple of 16.
#[inline(always)]
pub fn encode(trb: &Trb, cycle: bool) -> [u8; 16]
    requires { Fits trb.now }
    ensures text { result ≡ text trb.now cycle }
    ensures number { little_number 16 result ≡ number_of (words_of trb.now cycle) }
{
    write_words(words_of_trb(trb, cycle))
}

/// The TRB and the Cycle bit that 16 bytes hold (6.4), or the first of three faults: a type that is
/// none of the six, a Normal length above 65,536, a reserved bit that is set.
#[inline(always)]
pub fn decode(bytes: &[u8; 16]) -> Result<(Trb, bool), TrbFault>
    ensures found { IfOk result (λ read. HasText read.0 × (bytes.now ≡ text read.0 read.1)) }
    ensures every_text { (trb : Trb) (cycle : Bool) → HasText trb → bytes.now ≡ text trb cycle → result ≡ Ok (trb, cycle) }
    ensures no_fault { OnOk result (fault_in (words_in bytes.now) ≡ None) }
    ensures first_fault { IfErr result (λ fault. fault_in (words_in bytes.now) ≡ Some fault) }
    ensures reader { IfOk result (λ read. read ≡ (trb_in (words_in bytes.now), cycle_in (words_in bytes.now))) }
{
    let words = read_words(bytes);
    let trb = read_trb(words)?;
    Ok((trb, words.control % 2 == 1))
}
