//! The table's steps: each tells one access.
use crate::commands::{Asked, Completed, Putting};
use crate::ports::{PortReset, Ports};
use crate::program::Program;
use crate::service::Service;
use crate::slots::Addressing;
use crate::takeover::{Halt, Handoff, Reset, Run};
use crate::why::Why;

/// A step of the table.
#[derive(Clone, Copy)]
pub enum Step {
    Handoff(Handoff),
    Halt(Halt),
    Reset(Reset),
    Program(Program),
    Run(Run),
    Ports(Ports),
    PortReset(PortReset),
    Addressing(Addressing),
    /// A command is put on the command ring.
    Command {
        asked: Asked,
        at: Putting,
    },
    /// Its event is awaited.
    Serve {
        asked: Asked,
        came: Option<Completed>,
        service: Service,
    },
    /// No device is left to be tried: a change at a port is awaited.
    Watch(Service),
    Ended(Ended),
}

/// How the table ends.
#[derive(Clone, Copy)]
pub enum Ended {
    /// The device has its address.
    Addressed,
    Refused(Why),
    /// The controller can't be used until it is reset from outside.
    Dead,
}

/// A row of the table.
#[derive(Clone, Copy, Debug, PartialEq, Eq)]
pub enum Row {
    Handoff = 3,
    Halt,
    Reset,
    Program,
    Run,
    Ports,
    PortReset,
    EnableSlot,
    AddressDevice,
    /// A device is given up, or tried again.
    DisableSlot,
}
