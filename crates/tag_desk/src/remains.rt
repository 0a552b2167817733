//! What a desk had on it when it was closed.

ghost use Rattle.std.specs.Prelude.{◌≡◌, ℕ, ◌+◌, ◌<◌, IfOk};
ghost use Rattle.tag_desk.specs.Left.{none_left, so_far, adding, HasRoom};

use crate::{NoMemory, Slip};
use std::alloc::Global;
use std::marker::Model;

/// A tag and the slip that stood there.
#[derive(Debug, Drop)]
pub struct TagSlip {
    pub tag: u16,
    pub slip: Slip,
}

/// A tag and the ticket with which it was claimed.
#[derive(Debug, Drop)]
pub struct TagTicket {
    pub tag: u16,
    pub ticket: u64,
}

/// Entries of tags, which contracts see as a list.
#[derive(Debug, Drop)]
pub struct TagList<T> {
    entries: Vec<T>,
}

/// Tags with their slips.
pub type TagSlips = TagList<TagSlip>;

/// Tags with their tickets.
pub type TagTickets = TagList<TagTicket>;

impl<T> Model for TagList<T> {
    ghost use Rattle.std.specs.Prelude.{List};

    ghost Value = { List T };

    ghost view = { λ list. list.entries.items };
}

impl<T> TagList<T> {
    /// The list of these; takes no memory.
    pub fn from_vec(entries: Vec<T>) -> TagList<T>
        ensures { result ≡ entries.items }
    {
        TagList { entries }
    }

    /// Its entries, in order.
    pub fn as_slice(&self) -> &[T]
        ensures { result.now ≡ self.now }
    {
        self.entries.as_slice()
    }

    /// The entries themselves; takes no memory.
    pub fn into_vec(self) -> Vec<T>
        ensures { result.items ≡ self }
    {
        let TagList { entries } = self;
        entries
    }
}

/// What a closed desk had on it, by rising tag: the slips that clients posted and nobody claimed, those with which pumps
/// finished and that nobody looked up, and the tickets of claims that weren't finished.
#[derive(Debug, Drop)]
pub struct Left {
    pub posted: TagSlips,
    pub done: TagSlips,
    pub held: TagTickets,
}

/// What stands at one tag: nothing, the client's slip, the pump's, or the ticket of a claim that wasn't finished.
#[derive(Drop)]
pub enum Standing {
    Nothing,
    Posted(Slip),
    Done(Slip),
    Held(u64),
}

/// The lists of a `Left` while they grow, in memory that they have already.
#[derive(Drop)]
pub struct Lists {
    posted: Vec<TagSlip>,
    done: Vec<TagSlip>,
    held: Vec<TagTicket>,
}

impl Lists {
    /// Empty lists, each with room for so many tags.
    pub(crate) fn with_room(alloc: Global, tags: usize) -> Result<Lists, NoMemory>
        ensures none { IfOk result (λ lists. so_far lists ≡ none_left) }
        ensures room { IfOk result (HasRoom tags) }
    {
        let posted = Vec::with_capacity(alloc, tags)?;
        let done = Vec::with_capacity(alloc, tags)?;
        let held = Vec::with_capacity(alloc, tags)?;
        Ok(Lists { posted, done, held })
    }

    /// Puts what stands at a tag at the end of its list.
    pub(crate) fn add(&mut self, tag: u16, standing: Standing)
        requires { HasRoom 1 self.old }
        ensures lists { so_far self.new ≡ adding (so_far self.old) tag standing }
        ensures room { (n : ℕ) → HasRoom (n + 1) self.old → HasRoom n self.new }
    {
        match standing {
            Standing::Nothing => {}
            Standing::Posted(slip) => self.posted.push_reserved(TagSlip { tag, slip }),
            Standing::Done(slip) => self.done.push_reserved(TagSlip { tag, slip }),
            Standing::Held(ticket) => self.held.push_reserved(TagTicket { tag, ticket }),
        }
    }

    pub(crate) fn into_left(self) -> Left
        ensures { result ≡ so_far self }
    {
        let Lists { posted, done, held } = self;
        Left {
            posted: TagSlips::from_vec(posted),
            done: TagSlips::from_vec(done),
            held: TagTickets::from_vec(held),
        }
    }
}
