//! The table of words and slots under the desk, what its seats know, and what each step tells.
ghost use Rattle.tag_desk.specs.declared.rule.View.TheVariants.{Spent};
ghost use Rattle.tag_desk.specs.Rule.{Lifts, Posts, Takes, TakesTask, Finishes, Looks, Settles, dealt_less, dealt, clients_part, pumps_part, united};

use crate::Slip;
use atomic_table::{Join, Play, Split, Table, TableRule};
use std::alloc::Global;
use std::collections::LinkedList;

/// What a client's seat knows of its tag: the slot is not dealt to it yet; the tag is free, and all tickets posted on
/// it were below this number; or this slip is posted with this ticket, and so many looks found no end of it yet. No value of it is made, nor of
/// the next two.
pub enum ClientView {
    Waiting,
    Free(u64),
    Open(u64, Slip, u64),
}

/// What a pump's seat knows of a tag: it claimed nothing on it yet, it has the claim of this ticket, or it finished the
/// claim of this ticket with this slip; and with which tickets it found the tag not posted since.
pub enum WorkView {
    Idle(LinkedList<u64>),
    Claimed(u64),
    Finished(u64, Slip, LinkedList<u64>),
}

/// What a seat at the table knows. The dealer has yet to deal the tags from a number on.
pub enum View {
    Dealer(u64),
    Client(u64, ClientView),
    Work(u64, WorkView),
    Both(u64, ClientView, WorkView),
    Spent,
}

/// The numbers that a table is made for: the tags of each client, and the tags of all clients.
#[derive(Drop)]
pub struct TagCounts {
    pub each: usize,
    pub all: usize,
}

/// What holds of all words, slots and seats, at all times.
pub struct Desked;

impl TableRule<Option<Slip>, View, TagCounts> for Desked {
    ghost use Rattle.tag_desk.specs.Rule.{IsDesk, dealing};

    ghost holds = { IsDesk };

    ghost first = { dealing };
}

pub(crate) struct Lift;

pub(crate) struct Post;

/// A command is taken.
pub(crate) struct Take;

/// A task management is taken.
pub(crate) struct TakeTask;

pub(crate) struct Finish;

pub(crate) struct Look;

pub(crate) struct Settle;

impl Play<Option<Slip>, View> for Lift {
    ghost then = { Lifts };
}

impl Play<Option<Slip>, View> for Post {
    ghost then = { Posts };
}

impl Play<Option<Slip>, View> for Take {
    ghost then = { Takes };
}

impl Play<Option<Slip>, View> for TakeTask {
    ghost then = { TakesTask };
}

impl Play<Option<Slip>, View> for Finish {
    ghost then = { Finishes };
}

/// The dealer deals its next tag, whole.
pub(crate) struct Deal;

impl Split<View> for Deal {
    ghost left = { dealt_less };

    ghost right = { dealt };
}

/// A tag's seat is cut into the client's and the pump's.
pub(crate) struct Part;

impl Split<View> for Part {
    ghost left = { clients_part };

    ghost right = { pumps_part };
}

pub(crate) struct Unite;

impl Join<View> for Unite {
    ghost both = { united };

    ghost spent = { Spent };
}

impl Play<Option<Slip>, View> for Look {
    ghost then = { Looks };
}

impl Play<Option<Slip>, View> for Settle {
    ghost then = { Settles };
}

pub(crate) type Words = Table<Option<Slip>, View, TagCounts, Desked, Global>;

pub(crate) type TableSeat = atomic_table::Seat<Option<Slip>, View>;
