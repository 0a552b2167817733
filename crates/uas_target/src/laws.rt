//! Laws of the device's definitions.
ghost use Rattle.uas_target.specs.Laws.{BeginsAsAsked, CallsAreFolded, CommandsAreExecuted, OtherTagsAreKept, OtherUnitsAreKept, ResponsesAreDropped};
ghost use Rattle.uas_target.specs.Laws.{SensesAreDropped, TagsAreKept, TasksAreManaged};

/// Law: what comes of the text of each kind of unit.
#[tactic(auto, using(crate::proofs::Received::of_texts))]
pub fn received_texts()
    ensures commands { CommandsAreExecuted }
    ensures tasks { TasksAreManaged }
    ensures senses { SensesAreDropped }
    ensures responses { ResponsesAreDropped }
{}

/// Law: an operation that a host asks for begins as that operation.
#[tactic(auto, using(crate::proofs::Received::of_texts))]
pub fn begins_as_asked()
    ensures { BeginsAsAsked }
{}

/// Law: the device after a list of calls is what each call in turn makes of it.
#[tactic(auto, using(crate::proofs::Received::of_texts))]
pub fn calls_are_folded()
    ensures { CallsAreFolded }
{}

/// Law: a call leaves the tasks of all tags but its own alone, where it is no Task Management unit; an abort can end that of
/// the tag that it names too, and a reset those of all commands to its unit. Nothing that is received ends a command to
/// another unit, nor a task that has ended with a response code.
#[tactic(auto, using(crate::proofs::Kept::kept))]
pub fn other_tags_are_kept()
    ensures tags { OtherTagsAreKept }
    ensures units { OtherUnitsAreKept }
{}

/// Law: no call changes how many tags the device has.
#[tactic(auto, using(crate::proofs::Kept::kept))]
pub fn tags_are_kept()
    ensures { TagsAreKept }
{}
