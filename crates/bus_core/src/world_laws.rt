//! The laws of the world of rings: where rings, buffers, host and device fit a state of the shared machine, each step of
//! host and controller is the shared machine's step.
ghost use Rattle.bus_core.specs.WorldSteps.{CommandsFit, DataFit, DataIsIdle, EngineIsIdle, EnginesFit, EventsFit, FaultsAgree};
ghost use Rattle.bus_core.specs.WorldSteps.{NoCommandIsIdle, OpeningFits, RetireIsIdle, RetirementsFit, StatusIsIdle, StatusesFit};
ghost use Rattle.bus_core.specs.WorldSteps.{SubmissionsFit, TakeIsIdle, TakesFit, TaskFaultsAgree, TasksFit, WorldReadsBack};

/// A world that fits a state tells that state.
pub fn worlds_read_back()
    ensures { WorldReadsBack }
{}

/// A new world fits the opening shared machine.
pub fn openings_fit()
    ensures { OpeningFits }
{}

/// A step of the command pipe is the shared machine's.
pub fn commands_fit()
    ensures step { CommandsFit }
    ensures idle { NoCommandIsIdle }
{}

/// A step of a data stream is the shared machine's.
pub fn data_fits()
    ensures step { DataFit }
    ensures idle { DataIsIdle }
{}

/// A step of a status stream is the shared machine's.
pub fn statuses_fit()
    ensures step { StatusesFit }
    ensures idle { StatusIsIdle }
{}

/// The controller executes a retirement's command, with code 1, and that is the shared machine's step.
pub fn engines_fit()
    ensures step { EnginesFit }
    ensures idle { EngineIsIdle }
{}

/// The host begins a retirement where the shared machine does.
pub fn retirements_fit()
    ensures step { RetirementsFit }
    ensures idle { RetireIsIdle }
{}

/// The host matches each event to the TD that it is of, and what it makes of it is the shared machine's step.
pub fn events_fit()
    ensures { EventsFit }
{}

/// A submission finds the shared machine's fault, or room, and is the shared machine's step.
pub fn submissions_fit()
    ensures faults { FaultsAgree }
    ensures step { SubmissionsFit }
{}

/// A task management, likewise.
pub fn tasks_fit()
    ensures faults { TaskFaultsAgree }
    ensures step { TasksFit }
{}

/// A reply is the shared machine's.
pub fn takes_fit()
    ensures step { TakesFit }
    ensures idle { TakeIsIdle }
{}
