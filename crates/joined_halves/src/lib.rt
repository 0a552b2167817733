//! A driver and a controller over equal bytes: what of them is the bus.
//!
//! `uas_driver` and `uas_controller` are the halves of a bus, each with rings and buffers of its own, which their caller keeps equal. These
//! laws say which of their calls are the bus's own steps ([`bus_core`]'s `world_after`), byte for byte:
//!
//! ```text
//!     controller   its beginning; command pipe, data, status, command ring, doorbells, the oldest event given out
//!     driver       a submission with its doorbells
//! ```
//!
//! Left to a test, in which both halves run beside a bus (tests/c): that the driver makes of an event what the bus's host makes of it, as
//! `uas_driver` reads every conforming controller's events; a task management, a retirement, a reply with how many bytes were moved.
//!
//! It has laws alone, over the definitions of both halves and of the bus.
#![tactic(auto)]

ghost use Rattle.joined_halves.specs.Halves.{ControllersBeginAsTheBus, ControllersStepAsTheBus, DriversSubmitAsTheBus};

/// Law: a new bus's half is a new controller of the same units.
pub fn controllers_begin_as_the_bus()
    ensures { ControllersBeginAsTheBus }
{}

/// Law: each step of a controller's half is the bus's own.
pub fn controllers_step_as_the_bus()
    ensures { ControllersStepAsTheBus }
{}

/// Law: a submission of a driver's half, and its doorbells, are the bus's own.
pub fn drivers_submit_as_the_bus()
    ensures { DriversSubmitAsTheBus }
{}
