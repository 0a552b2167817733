//! A USB 3 controller taken as firmware left it (xHCI 1.2), up to a device at one of its ports that has an address.
//!
//! The driver touches neither registers nor memory. [`BringUp::next`] tells one [`Access`], which its caller does before the next call, and
//! [`BringUp::answer`] takes what was read. The rows of the table, each a [`State`]:
//!
//! | Row | Does | Limit in ms, else |
//! |---|---|---|
//! | survey | reads the capabilities (5.3) and the list of extended ones (7) | [`Why`] a controller is refused |
//! | lend | takes memory ([`BringUp::lend`]) | [`LendFault`] |
//! | handoff | takes the controller from firmware (7.1) | 1,000: all the same |
//! | halt | Controller Not Ready is 0; Run/Stop off (5.4.1) | 5,000: all the same; 100: `StillRuns` |
//! | reset | Host Controller Reset; 1 ms without an access | 10,000: `Dead` |
//! | program | zeros; scratchpads, segment table; registers (4.2) | |
//! | run | Run/Stop on | 100: `Dead` |
//! | ports | power; change bits cleared; a device that was there for 100 ms (4.19) | 2,000: links that hang are reset, once; `NoDevice` |
//! | port reset | the port is enabled; SuperSpeed at least | 800, five times: `NoReset`, `NotSuperSpeed` |
//! | Enable Slot | zeroed contexts; a slot (4.6.3) | 5,000: the controller is taken anew |
//! | Address Device | contexts; the address (4.6.5); 10 ms | 5,000: likewise; code 4, twice more; `NoAddress` |
//!
//! A device that is refused loses its slot, and the next port is tried, until another device is at its port. The controller is taken anew, from the
//! handoff on, where a command has no event in time, where USBSTS tells an error, and at a Host Controller Event; twice, then it is `Dead`. A register of
//! ones alone is one of a controller that is `Gone`.
//!
//! Registers are read each ms until something is so, ports each 10 ms; events are looked for each ms, and at an interrupt.
//!
//! What is promised, for any answers, times and calls: what is told is the access of the table's row (`stage_access`), and the next state is that of
//! the row too (`told`, `answered`, in specs/Calls, Table and the files of the rows). No access is outside the registers or the memory that was lent
//! (`inside`). Where a limit is over, no wait goes on ([`waits_end`]). No call takes memory. That a disk gets its address is tried, in front of the
//! controller of `xhci_machine` (tests/crates/driver).
//!
//! It stands on `host_trbs`, `host_layout`, `byteorder` and `thiserror`.
#![tactic(auto)]

mod access;
mod addressed;
mod bring_up;
mod capabilities;
mod checks;
mod commands;
mod controller;
mod laws;
mod lend;
mod options;
mod ports;
mod program;
mod service;
mod slots;
mod state;
mod step;
mod survey;
mod taken;
mod takeover;
mod waits;
mod why;

pub use access::{Access, Stored, later, load_in, read_at, store_in, write_at};
pub use bring_up::{AnswerFault, BringUp, LendFault, Stage, fits, is_gone};
pub use checks::{Checked, PortCheck};
pub use commands::{Asked, CommandRing, Completed, Putting};
pub use controller::{Controller, MOST_CAPABILITIES, Port, PortPlace, Protocol, is_set};
pub use laws::waits_end;
pub use options::{Options, Quirks, quirks_of};
pub use ports::{PortReset, PortState, Ports};
pub use program::{EVENT_TRBS, Program, Setting};
pub use service::{EventRing, Served, Service, Serving, taken_event};
pub use slots::{Addressing, Device};
pub use state::State;
pub use step::{Ended, Row, Step};
pub use survey::{Capability, Reading, Survey, Surveyed};
pub use taken::{Taken, Tries, word_in};
pub use takeover::{Halt, Handoff, Reset, Run};
pub use waits::{Wait, Waited};
pub use why::Why;
