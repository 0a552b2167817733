//! What follows for a text that grows, as functions with empty bodies.
ghost use Rattle.std.specs.Prelude.{◌≡◌, ℕ, List, [], ◌++◌, length};
ghost use Rattle.scsi_cmd.specs.declared.Reply.{Reply};
ghost use Rattle.shared_machine.specs.declared.Step.{Step};
ghost use Rattle.uas_log.specs.declared.Log.{Log};
ghost use Rattle.log_text.specs.Kept.{FitsText};
ghost use Rattle.kept_log.specs.Form.{front_text};
ghost use Rattle.log_keeper.specs.declared.Place.{Place};
ghost use Rattle.log_keeper.specs.Entries.{Added, AllActedFit, StandsAt, entries_before, entries_behind, entries_of, given_count, log_entries};

/// A text that stood at a place and got the records of all that was behind it is the head and the records of the whole log. Where a log was
/// taken apart rightly is [`steps_go_on`].
pub fn kept_texts_are_the_logs()
    ensures { (log : Log) (place new : Place) (text after : List ℕ) → StandsAt log place text
        → log_entries log ≡ entries_before log place ++ entries_behind log place → Added log place text new after → entries_behind log new ≡ []
        → after ≡ front_text log.tags log.units (log_entries log) }
{}

/// The entries of steps behind others: where those have as many replies as they gave.
pub fn steps_go_on()
    ensures { (tags : ℕ) (steps more : List Step) (numbers others : List ℕ) (replies next : List Reply) → length numbers ≡ length steps
        → length replies ≡ given_count steps numbers
        → entries_of tags (steps ++ more) (numbers ++ others) (replies ++ next) ≡ entries_of tags steps numbers replies ++ entries_of tags more others next }
{}

/// In a log that fits a text, of any number of tags, only a step that was refused can be past the limits of a kept log's text.
pub fn acted_steps_fit()
    ensures { (log : Log) → FitsText log → AllActedFit (length log.units) (log_entries log) }
{}
