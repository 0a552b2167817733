//! The laws of the world of rings on where a step is due and what its outcome is.
ghost use Rattle.bus_core.specs.WorldDue.{CommandsAreDue, CommandsAreMarked, DataAreDue, DataAreMarked, EnginesAreDue, EnginesAreMarked};
ghost use Rattle.bus_core.specs.WorldDue.{EventsAreDue, EventsAreQuiet, RetirementsAreDue, RetirementsAreMarked, StatusesAreDue};
ghost use Rattle.bus_core.specs.WorldDue.{StatusesAreMarked, TakesAreDue};

/// A step of the command pipe is due where its ring has a pending TRB, and that TRB is the host's own.
pub fn commands_are_due()
    ensures { CommandsAreDue }
{}

/// A step of a data stream is due where the stream is armed and the device moves data on it.
pub fn data_are_due()
    ensures { DataAreDue }
{}

/// A step of a status stream is due where the stream is armed and the device has its answer.
pub fn statuses_are_due()
    ensures { StatusesAreDue }
{}

/// The host takes an event where one is pending.
pub fn events_are_due()
    ensures { EventsAreDue }
{}

/// A reply is due where the host has one ready.
pub fn takes_are_due()
    ensures { TakesAreDue }
{}

/// A step of the controller's own command ring is due where that ring has a pending TRB.
pub fn engines_are_due()
    ensures { EnginesAreDue }
{}

/// A retirement is due where the host may begin it.
pub fn retirements_are_due()
    ensures { RetirementsAreDue }
{}

/// The outcome of each step that acts, by the place that it acts on.
pub fn steps_are_marked()
    ensures command { CommandsAreMarked }
    ensures data { DataAreMarked }
    ensures status { StatusesAreMarked }
    ensures event { EventsAreQuiet }
    ensures engine { EnginesAreMarked }
    ensures retire { RetirementsAreMarked }
{}
