//! The laws of what waits in the shared machine, which hold of its definitions.
//!
//! Each message and each event is of one TD, and each TD of at most one of each kind; so no queue outgrows the places.
ghost use Rattle.machine_invariant.specs.Matched.{OpeningIsMatched, StepKeepsMatches, OrderIsKept, FromMatches, HasRoom, RingsHaveRoom};
ghost use Rattle.machine_invariant.specs.Matched.{AreNamedOnce, HasNoStray, CarryActs, EventActs, NoDataEventWaits, NoStatusEventWaits};
ghost use Rattle.machine_invariant.specs.Matched.{HaveDataTrbs, ArePendingCommands, HaveCommandTrbs, EventFreesFirst, AcceptedFits, OverReplays};
ghost use Rattle.machine_invariant.specs.Matched.{ReplaysHaveRoom, IsMatched};

/// At the start nothing stands anywhere, and nothing waits.
pub fn matches_at_start()
    ensures { OpeningIsMatched }
{}

/// Each step keeps what waits matched.
pub fn steps_keep_matches()
    ensures { StepKeepsMatches }
{}

/// Each step keeps the order of a client's requests: the device receives them by rising ticket, and what a task management
/// noted is done with before its response is seen.
pub fn order_is_kept()
    ensures { OrderIsKept }
{}

/// No place is named twice, so that no queue outgrows the places: the command pipe's ring has a TRB for each tag at most, and three
/// events wait for each tag and one more. Of as many tags as there are streams both rings have room.
pub fn no_queue_outgrows()
    ensures once { FromMatches AreNamedOnce }
    ensures clients { FromMatches HasRoom }
    ensures rings { RingsHaveRoom }
{}

/// Each message is of a queued command whose TRB is in the ring, and each event of a TD that is pending and spent: the
/// device always receives the first message, the host always sees the first event, and no step posts an event twice.
pub fn none_is_stray()
    ensures stray { FromMatches HasNoStray }
    ensures carried { FromMatches CarryActs }
    ensures seen { FromMatches EventActs }
    ensures data_once { FromMatches NoDataEventWaits }
    ensures status_once { FromMatches NoStatusEventWaits }
{}

/// The command pipe's ring has the TRBs of the command TDs that are pending, and an event of one frees the oldest.
pub fn command_pipe_in_order()
    ensures pending { FromMatches ArePendingCommands }
    ensures taken { FromMatches HaveCommandTrbs }
    ensures freed { FromMatches EventFreesFirst }
{}

/// A data TD has 1 to `MOST_DATA_TRBS` TRBs, and a command that moves nothing has none.
pub fn data_tds_fit()
    ensures accepted { AcceptedFits }
    ensures held { FromMatches HaveDataTrbs }
{}

/// All of this holds after every list of steps from new units.
pub fn replays_match()
    ensures matched { OverReplays IsMatched }
    ensures once { OverReplays AreNamedOnce }
    ensures clients { OverReplays HasRoom }
    ensures rings { ReplaysHaveRoom }
    ensures stray { OverReplays HasNoStray }
    ensures pending { OverReplays ArePendingCommands }
    ensures taken { OverReplays HaveCommandTrbs }
    ensures data_tds { OverReplays HaveDataTrbs }
{}
