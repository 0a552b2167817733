//! The headline's laws over whole replays from new units, and its parts.
ghost use Rattle.isolation.specs.FirstBlocks.{OpensAsSolo, OpensAsNobody, ReplayIsSoloRun, FirstBlocksDecide};
ghost use Rattle.isolation.specs.Once.{SoloSettlesOnce, ReplaySettlesOnce};
ghost use Rattle.isolation.specs.Refusals.{RefusalsAreOwn, SubmissionsAreOwned, RefusedChangesNothing, OnlySubmissionsAreRefused};
ghost use Rattle.isolation.specs.Refusals.{RefusedTaskChangesNothing, ReplayRefusesAsOwn, TaskRefusalsAreOwn, TasksAreOwned};
ghost use Rattle.isolation.specs.StepIsolation.{EachStepIsIsolated};

/// On a new bus each client's part is a new solo machine on its unit; a client that isn't there has nothing.
pub fn opens_as_solo()
    ensures solo { OpensAsSolo }
    ensures nobody { OpensAsNobody }
{}

/// A replay from new units is to each client a run of a new solo machine on its unit, and two clients with the same
/// first blocks that do alike, each in its world, are answered alike and end alike.
pub fn replays_as_solo()
    ensures run { ReplayIsSoloRun }
    ensures worlds { FirstBlocksDecide }
{}

/// A submission is refused for what its client's own state has, and for nothing else; refused, it changes nothing. Nothing
/// but a submission is refused.
pub fn refuses_as_own()
    ensures refused { RefusalsAreOwn }
    ensures owned { SubmissionsAreOwned }
    ensures unchanged { RefusedChangesNothing }
    ensures submissions { OnlySubmissionsAreRefused }
    ensures replay { ReplayRefusesAsOwn }
    ensures tasks { TaskRefusalsAreOwn }
    ensures tasks_owned { TasksAreOwned }
    ensures tasks_unchanged { RefusedTaskChangesNothing }
{}

/// Each step is to each client its own machine's step, or nothing at all.
pub fn steps_isolated()
    ensures { EachStepIsIsolated }
{}

/// Each ticket that a client is answered for was accepted once before, and is answered once: of the solo machine alone,
/// and of each client's part of a replay.
pub fn settles_once()
    ensures solo { SoloSettlesOnce }
    ensures replay { ReplaySettlesOnce }
{}
