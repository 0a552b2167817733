//! The device slot of an xHCI controller: its states, and the commands on it (xHCI 1.2, 4.5.3 and 4.6).
//!
//! ```text
//!     free --Enable Slot--> Enabled --Address Device--> Addressed <--Configure Endpoint--> Configured
//!                              |  (BSR)                    ^ |                                |
//!                              +--------> Default ---------+ +----------Reset Device----------+--> Default
//! ```
//!
//! The controller has one slot. The rules:
//!
//! 1. Enable Slot gives it out; a second one ends with No Slots Available. A command on a slot that isn't given out ends with Slot Not
//!    Enabled, one that the slot's state doesn't allow with Context State Error, and a bad input context with Parameter Error. Such a
//!    command changes nothing.
//! 2. Address Device finds the device context by the device context base address array. Each later command goes by that address.
//! 3. Contexts are read whole, and written back whole once all is known. Memory that isn't there ends the command before it changes
//!    anything ([`Outside`]); the controller then has a host system error.
//!
//! A command also tells what became of the endpoints ([`Changes`]), for whoever has their rings.
//!
//! What is promised: [`Slot::execute`] is `executed` of specs/Slots.antt over the driver's memory and the slot, for any command and any bytes
//! there, and [`Slot::tell`] is `told`. [`Slot::wants`] and [`Slot::wants_to_tell`] say what of that memory either lacks (src/wanting.rt). It
//! stands on `guest_memory`; the contexts and the commands on them are [`contexts`]'s.
#![tactic(auto)]

mod commands;
pub mod contexts;
mod states;
mod wanting;

use crate::contexts::SlotState;
pub use guest_memory::Outside;
pub use wanting::{what_is_wanted_is_not_there, what_lacks_nothing_is_executed};

/// The slot: its state where it is given out, and where its device context is.
#[derive(Clone, Copy, Debug, PartialEq, Eq)]
pub struct Slot {
    pub state: Option<SlotState>,
    pub context: u64,
}

/// A command on the slot (6.4.3), with the address of its input context.
#[derive(Clone, Copy, Debug, PartialEq, Eq)]
pub enum SlotCommand {
    /// Enable Slot.
    Enable,
    /// Disable Slot.
    Disable,
    /// Address Device; with BSR no address is set.
    Address { input: u64, blocked: bool },
    /// Configure Endpoint; with DC every pipe is disabled, and no input is read.
    Configure { input: u64, deconfigures: bool },
    /// Evaluate Context.
    Evaluate { input: u64 },
    /// Reset Device.
    Reset,
}

/// How a command ended (table 6-90).
#[derive(Clone, Copy, Debug, PartialEq, Eq)]
pub enum Code {
    Success,
    NoSlotsAvailable,
    SlotNotEnabled,
    ParameterError,
    ContextStateError,
}

/// What became of an endpoint.
#[derive(Clone, Copy, Debug, PartialEq, Eq)]
pub enum Change {
    /// It is as it was.
    Kept,
    /// It is disabled.
    Disabled,
    /// It runs: from this pointer on, or with a stream array of so many entries there.
    Set { pointer: u64, entries: u32 },
}

/// What became of the endpoints.
#[derive(Clone, Copy, Debug, PartialEq, Eq)]
pub struct Changes {
    pub control: Change,
    pub command: Change,
    pub status: Change,
    pub data_out: Change,
    pub data_in: Change,
}

/// What came of a command.
#[derive(Clone, Copy, Debug, PartialEq, Eq)]
pub struct Done {
    pub code: Code,
    pub changes: Changes,
}
