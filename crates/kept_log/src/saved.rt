//! What a log tells that was kept.
ghost use Rattle.std.specs.Prelude.{◌≡◌, ◌∷◌, ◌++◌, [], IfOk, OnOk, option_to_list};
ghost use Rattle.uas_profile.specs.Tags.{AreTags};
ghost use Rattle.kept_log.specs.Saved.{acted_steps, given_replies, plain_of};

use crate::{Entry, KeptLog, Why};
use log_text::{PlainLog, SavedReplies, SavedReply};
use shared_machine::Step;
use std::alloc::{AllocError, Global};
use uas_log::{FirstUnit, Steps};

impl KeptLog {
    /// How many tags each client has, as the head says: 2 to 16.
    pub fn tags(&self) -> usize
        ensures tags { result ≡ self.now.tags }
        ensures are { AreTags result }
    {
        self.tags
    }

    /// The unit of each client as the log began, by number.
    pub fn units(&self) -> &[FirstUnit]
        ensures { result.now ≡ self.now.units }
    {
        self.units.as_slice()
    }

    /// The steps, refused ones too, in order.
    pub fn entries(&self) -> &[Entry]
        ensures { result.now ≡ self.now.entries }
    {
        self.entries.as_slice()
    }

    /// Why it ended; `None` where its text is a beginning.
    pub fn ending(&self) -> Option<Why>
        ensures { result ≡ self.now.ending }
    {
        self.ending
    }

    /// The log without its refused steps, whose clients keep their number of tags. Nothing is copied.
    pub fn into_plain(self, alloc: Global) -> Result<PlainLog, AllocError>
        ensures { IfOk result (λ plain. plain ≡ plain_of self) }
    {
        let KeptLog {
            tags,
            units,
            entries,
            ..
        } = self;
        let mut steps = Vec::new(alloc);
        let mut replies = Vec::new(alloc);
        for entry in entries.into_vec() {
            put_entry(&mut steps, &mut replies, entry)?;
        }
        Ok(PlainLog::from_parts(
            tags,
            units,
            Steps::from_vec(steps),
            SavedReplies::from_vec(replies),
        ))
    }
}

/// Adds a step that wasn't refused, and the reply that it gave.
fn put_entry(
    steps: &mut Vec<Step>,
    replies: &mut Vec<SavedReply>,
    entry: Entry,
) -> Result<(), AllocError>
    ensures steps { OnOk result (steps.new.items ≡ steps.old.items ++ acted_steps (entry ∷ [])) }
    ensures replies { OnOk result (replies.new.items ≡ replies.old.items ++ given_replies (entry ∷ [])) }
{
    match entry {
        Entry::Acted(step, given) => {
            steps.push(step)?;
            put_given(replies, given)
        }
        Entry::Refused(_step, _number) => Ok(()),
    }
}

/// Adds the reply that a step gave.
fn put_given(replies: &mut Vec<SavedReply>, given: Option<SavedReply>) -> Result<(), AllocError>
    ensures { OnOk result (replies.new.items ≡ replies.old.items ++ option_to_list given) }
{
    if let Some(reply) = given {
        replies.push(reply)?;
    }
    Ok(())
}
