//! The registers of an xHCI controller with one slot, one interrupter and two ports (xHCI 1.2, 5.3 to 5.6).
//!
//! ```text
//!     000  capabilities; 020 USB 2.0 with port 1, 030 USB 3.0 with port 2
//!     040  USBCMD USBSTS PAGESIZE DNCTRL CRCR DCBAAP CONFIG
//!     440  PORTSC of port 1, on which nothing is; 450 PORTSC and PORTPMSC of port 2, the disk's
//!     600  MFINDEX; 620 IMAN IMOD ERSTSZ ERSTBA ERDP of interrupter 0
//!     800  doorbells
//! ```
//!
//! The rules:
//!
//! 1. Reads of 1, 2, 4 and 8 bytes at their multiples give the bytes; any other reads 0. Words of 4 bytes are written; what is reserved or
//!    read-only stays.
//! 2. A register of 64 bits may be written in halves, the low one first. CRCR's pointer and cycle state are set only while the command ring
//!    stands, and read as 0; a high half behind a low one that wasn't taken isn't taken.
//! 3. HCRST resets all registers at once. HCH is R/S inverted, and R/S stays 0 while HSE is 1. Where MaxSlotsEn is 0 slot 1's doorbells do
//!    nothing.
//! 4. PED and the change bits of a port are cleared by writing 1. A change bit that is set while none was owes a Port Status Change event
//!    and sets PCD.
//! 5. IP and EHB are cleared by writing 1. An event that isn't blocked sets IP and EHB, and EINT.
//!
//! [`Registers::raise`], [`Registers::fail`], [`Registers::detect`], [`Registers::plug`] and [`Registers::told_port`] are what the controller
//! itself sets in them, [`Registers::is_asserted`] and [`Registers::take_message`] its interrupt.
//!
//! A write that asks for more than a register tells so by an [`Effect`], for whoever has rings, contexts and device. No call here reads or
//! writes memory of the guest, and none takes memory.
//!
//! What is promised: [`Registers::read`] is `read_of` and [`Registers::write_word`] is `word_written` of the definitions in specs/, for any
//! offset and value. It stands on nothing but std.
#![tactic(auto)]

mod bits;
mod ports;
mod reads;
mod signals;
mod writes;

pub use ports::{Changes, Link, Port, Wake};

/// How many bytes an access has.
#[derive(Clone, Copy, Debug, PartialEq, Eq)]
pub enum Width {
    One,
    Two,
    Four,
    Eight,
}

/// What a register write asks for beyond the registers.
#[derive(Clone, Copy, Debug, PartialEq, Eq)]
pub enum Effect {
    Nothing,
    /// The controller was reset, and the device with it.
    Reset,
    /// The port was reset, and the device with it.
    PortReset,
    /// R/S went from 1 to 0: what is owed of the command ring is dropped.
    Halted,
    /// The command ring was stopped; an event with code 24 tells so.
    CommandRingStopped,
    /// The command ring runs.
    CommandDoorbell,
    /// The doorbell of slot 1: its target and its stream.
    Doorbell(u8, u16),
    /// The event ring begins anew, by its segment table.
    EventRing,
    /// ERDP was written; true where that cleared EHB.
    Dequeued(bool),
}

/// The command ring as CRCR has it; the pointer is where the next command is fetched.
#[derive(Clone, Copy, Debug, PartialEq, Eq)]
pub struct CommandRing {
    pub pointer: u64,
    pub cycle: bool,
    /// CRR.
    pub runs: bool,
    /// Whether CRCR's low half was last written while the ring ran, so that the high half behind it isn't taken.
    pub low_refused: bool,
}

/// The registers of interrupter 0.
#[derive(Clone, Copy, Debug, PartialEq, Eq)]
pub struct Interrupter {
    /// IP.
    pub pending: bool,
    /// IE.
    pub enabled: bool,
    /// IMODI, the least time between two interrupts, in 250 ns; it is kept, and interrupts aren't moderated (own). IMODC is 0.
    pub moderation: u16,
    /// ERSTSZ.
    pub table_size: u16,
    /// ERSTBA.
    pub table: u64,
    /// ERDP without its four lowest bits.
    pub dequeue: u64,
    /// DESI.
    pub segment: u8,
    /// EHB.
    pub busy: bool,
}

/// All registers.
#[derive(Clone, Copy, Debug, PartialEq, Eq)]
pub struct Registers {
    /// R/S.
    pub runs: bool,
    /// INTE.
    pub interrupts: bool,
    /// HSEE.
    pub host_error_interrupts: bool,
    /// EWE, which is kept: no wrap event is posted.
    pub wrap_events: bool,
    /// HSE.
    pub host_error: bool,
    /// EINT.
    pub event_interrupt: bool,
    /// PCD.
    pub port_change: bool,
    /// SRE.
    pub restore_error: bool,
    /// DNCTRL.
    pub notifications: u16,
    pub command_ring: CommandRing,
    /// DCBAAP.
    pub contexts: u64,
    /// CONFIG's MaxSlotsEn; U3E and CIE stay 0, as HCCPARAMS2 has neither.
    pub config: u16,
    /// The wake bits of the port on which nothing is.
    pub empty_port_wake: Wake,
    /// The port of the disk.
    pub port: Port,
    /// MFINDEX, which the caller sets.
    pub frame_index: u16,
    pub interrupter: Interrupter,
}
