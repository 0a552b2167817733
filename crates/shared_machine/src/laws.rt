//! The laws of the shared machine, which hold of its definitions.
ghost use Rattle.shared_machine.specs.Laws.{ActsWhereDue, IdleChangesNothing, StepKeepsClients, StepKeepsTags};
ghost use Rattle.shared_machine.specs.Laws.{QuietLeavesNothingDue, UnquietSpendsLimit, QuietSparesLimit, DrainIsRun, DrainKeepsClients, DrainKeepsTags};
ghost use Rattle.shared_machine.specs.Laws.{TakeBringsNextLen};

/// A step acts exactly where it is due.
pub fn acts_where_due()
    ensures { ActsWhereDue }
{}

/// A step that isn't due changes nothing.
pub fn idle_changes_nothing()
    ensures { IdleChangesNothing }
{}

/// A drain ends quiet only where nothing is due, and not quiet only where it took all the steps that it may.
pub fn drains_to_quiet()
    ensures quiet { QuietLeavesNothingDue }
    ensures unquiet { UnquietSpendsLimit }
    ensures spare { QuietSparesLimit }
    ensures run { DrainIsRun }
{}

/// No step and no drain adds or loses a client.
pub fn keeps_clients()
    ensures step { StepKeepsClients }
    ensures drain { DrainKeepsClients }
{}

/// No step and no drain changes how many tags a client has.
pub fn keeps_tags()
    ensures step { StepKeepsTags }
    ensures drain { DrainKeepsTags }
{}

/// A Take's reply brings as many bytes as was told of it.
pub fn brings_next_len()
    ensures { TakeBringsNextLen }
{}
