//! The list of the steps of a log: a small type over a vector, which contracts see as a list.
ghost use Rattle.std.specs.Prelude.{◌≡◌, length};

use crate::Entry;
use std::marker::Model;

/// A list of steps with what came of them, in order.
#[derive(Debug, Drop)]
pub struct Entries {
    entries: Vec<Entry>,
}

impl Model for Entries {
    ghost use Rattle.std.specs.Prelude.{List};
    ghost use Rattle.kept_log.specs.declared.Entry.{Entry};

    ghost Value = { List Entry };

    ghost view = { λ list. list.entries.items };
}

impl Entries {
    /// The list of these; takes no memory.
    pub fn from_vec(entries: Vec<Entry>) -> Entries
        ensures { result ≡ entries.items }
    {
        Entries { entries }
    }

    /// Them, in order.
    pub fn as_slice(&self) -> &[Entry]
        ensures { result.now ≡ self.now }
    {
        self.entries.as_slice()
    }

    /// How many there are.
    pub fn len(&self) -> usize
        ensures { result ≡ length self.now }
    {
        self.entries.len()
    }

    /// Them again; takes no memory.
    pub fn into_vec(self) -> Vec<Entry>
        ensures { result.items ≡ self }
    {
        let Entries { entries } = self;
        entries
    }
}
