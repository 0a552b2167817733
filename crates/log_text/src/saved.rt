//! What a saved log tells.
ghost use Rattle.std.specs.Prelude.{◌≡◌, ◌≤◌};
ghost use Rattle.log_text.specs.Text.{IsWithin, has_queries, version_clients, version_number, version_tags};

use crate::{SavedLog, SavedReplies, SavedReply, Version};
use shared_machine::Step;
use uas_log::{FirstUnit, FirstUnits, Steps};

impl Version {
    /// Its number in a text.
    pub fn number(self) -> u16
        ensures { result ≡ version_number self }
    {
        match self {
            Version::First => 1,
            Version::Second => 2,
        }
    }

    /// How many tags each client has.
    pub fn tags(self) -> usize
        ensures { result ≡ version_tags self }
    {
        match self {
            Version::First => 8,
            Version::Second => 16,
        }
    }

    /// Whether it has a number for a query of a task.
    pub(crate) fn has_queries(self) -> bool
        ensures { result ≡ has_queries self }
    {
        match self {
            Version::First => false,
            Version::Second => true,
        }
    }

    /// How many clients there can be.
    pub fn most_clients(self) -> usize
        ensures { result ≡ version_clients self }
    {
        match self {
            Version::First => 31,
            Version::Second => 15,
        }
    }
}

impl SavedLog {
    /// The log of these parts, which are within the limits of their version; takes no memory.
    pub fn from_parts(
        version: Version,
        units: FirstUnits,
        steps: Steps,
        replies: SavedReplies,
    ) -> SavedLog
        requires { IsWithin (record { version = version; units = units; steps = steps; replies = replies }) }
        ensures { result ≡ record { version = version; units = units; steps = steps; replies = replies } }
    {
        SavedLog {
            version,
            units,
            steps,
            replies,
        }
    }

    /// How many tags each client has: 8 or 16.
    pub fn tags(&self) -> usize
        ensures { result ≡ version_tags self.now.version }
    {
        self.version.tags()
    }

    /// The unit of each client as the log began, by number.
    pub fn units(&self) -> &[FirstUnit]
        ensures units { result.now ≡ self.now.units }
        ensures within { IsWithin self.now }
    {
        self.units.as_slice()
    }

    /// The steps that acted and weren't refused, in order.
    pub fn steps(&self) -> &[Step]
        ensures { result.now ≡ self.now.steps }
    {
        self.steps.as_slice()
    }

    /// The replies with their clients, in the order in which they were taken.
    pub fn replies(&self) -> &[SavedReply]
        ensures { result.now ≡ self.now.replies }
    {
        self.replies.as_slice()
    }
}
