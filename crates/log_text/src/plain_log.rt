//! A log as it is replayed, of clients of any number of tags.
ghost use Rattle.std.specs.Prelude.{◌≡◌};
ghost use Rattle.log_text.specs.Plain.{IsPlain, plain_of};

use crate::{PlainLog, SavedLog, SavedReplies, SavedReply};
use shared_machine::Step;
use uas_log::{FirstUnit, FirstUnits, Steps};

impl PlainLog {
    /// The log of these parts, which a bus can be asked for; takes no memory.
    pub fn from_parts(
        tags: usize,
        units: FirstUnits,
        steps: Steps,
        replies: SavedReplies,
    ) -> PlainLog
        requires { IsPlain (record { tags = tags; units = units; steps = steps; replies = replies }) }
        ensures { result ≡ record { tags = tags; units = units; steps = steps; replies = replies } }
    {
        PlainLog {
            tags,
            units,
            steps,
            replies,
        }
    }

    /// How many tags each client has: 2 to 16.
    pub fn tags(&self) -> usize
        ensures { result ≡ self.now.tags }
    {
        self.tags
    }

    /// The unit of each client as the log began, by number.
    pub fn units(&self) -> &[FirstUnit]
        ensures units { result.now ≡ self.now.units }
        ensures plain { IsPlain self.now }
    {
        self.units.as_slice()
    }

    /// The steps that acted and weren't refused, in order.
    pub fn steps(&self) -> &[Step]
        ensures { result.now ≡ self.now.steps }
    {
        self.steps.as_slice()
    }

    /// The replies with their clients, in the order in which they were taken.
    pub fn replies(&self) -> &[SavedReply]
        ensures { result.now ≡ self.now.replies }
    {
        self.replies.as_slice()
    }
}

impl SavedLog {
    /// The log with its number of tags; nothing is copied.
    pub fn into_plain(self) -> PlainLog
        ensures { result ≡ plain_of self }
    {
        let SavedLog {
            version,
            units,
            steps,
            replies,
        } = self;
        PlainLog::from_parts(version.tags(), units, steps, replies)
    }
}
