//! What a tag has: a command from its submission on, until its reply is taken.
ghost use Rattle.std.specs.Prelude.{◌≡◌, IfSome, None, Some};
ghost use Rattle.block_driver.specs.Table.{came_in, command_access, command_limit, command_next, data_moved_in, ended_with, entry_access, entry_limit, entry_lost, entry_freed, entry_moved, entry_next, entry_put, entry_stopped, entry_taken, entry_told, is_pending, mark_of, moved_count, settled, settled_command, wanted_at, way_of};

use arrayvec::ArrayVec;
use block_requests::Outcome;
use bring_up::{Access, Controller};
use disk_ready::{Put, Sent, Spots, Target, Way};
use host_layout::{Layout, MOST_PIECES, Piece};
use std::mem;

/// Why it isn't known what a command came to: it may have been done.
#[derive(Clone, Copy, Debug, PartialEq, Eq)]
pub enum Loss {
    /// A command was to be aborted, as its time was over or its user aborted it, and the disk didn't.
    Late,
    /// A TD failed.
    Failed,
    /// A status unit was of another tag, of no command, or too short.
    BadUnit,
    /// The port was disabled, or its link hung.
    Disabled,
    /// The disk was taken from its port.
    Pulled,
    /// The controller had an error, or halted.
    Broken,
    /// The controller is gone.
    Gone,
    /// The driver's user had the device tried again.
    Restarted,
}

/// How a command ended.
#[derive(Debug, PartialEq, Eq, Drop)]
pub enum Ending {
    Told(Outcome),
    Lost(Loss),
    /// The disk aborted it, or it wasn't put yet.
    Aborted,
}

/// What a command came to: so many bytes of its data were moved; of those that were taken off, as many as the controller told.
#[derive(Debug, PartialEq, Eq, Drop)]
pub struct Came {
    pub mark: u64,
    pub moved: u32,
    pub ending: Ending,
}

/// What became of the TD of a command's data.
#[derive(Clone, Copy, Debug, PartialEq, Eq)]
pub enum DataState {
    Nothing,
    Pending,
    Moved(u32),
}

/// What the status unit of a command says where all its bytes came, and until when they may still come.
#[derive(Drop)]
pub struct Told {
    pub outcome: Outcome,
    pub until: u64,
}

/// A command that was submitted. Its TDs have no place until they are put.
#[derive(Drop)]
pub struct Outstanding {
    pub mark: u64,
    pub sent: Sent,
    pub pieces: ArrayVec<Piece, MOST_PIECES>,
    /// Bytes of its data.
    pub wanted: u32,
    /// The time in ms by which it is over.
    pub limit: u64,
    pub spots: Option<Spots>,
    pub data_state: DataState,
    pub status: Option<Told>,
    /// The disk aborted it.
    pub is_aborted: bool,
    /// Bytes of its data that were moved when their TD was stopped.
    pub stopped: u32,
}

/// What a tag has.
#[derive(Drop)]
pub enum Entry {
    Free,
    Outstanding(Outstanding),
    Replied(Came),
}

impl DataState {
    /// The bytes that were moved, once all are that will be.
    pub(crate) fn moved(self) -> Option<u32>
        ensures { result ≡ moved_count self }
    {
        match self {
            DataState::Nothing => Some(0),
            DataState::Pending => None,
            DataState::Moved(count) => Some(count),
        }
    }

    pub(crate) fn is_pending(self) -> bool
        ensures { result ≡ is_pending self }
    {
        matches!(self, DataState::Pending)
    }

    /// A TD that is pending ends.
    fn ended(self, count: u32) -> DataState
        ensures { result ≡ data_moved_in self count }
    {
        match self {
            DataState::Pending => DataState::Moved(count),
            other => other,
        }
    }
}

/// An outcome that is GOOD is short where fewer bytes were moved than were wanted.
fn ended_with(outcome: Outcome, moved: u32, wanted: u32) -> Outcome
    ensures { result ≡ ended_with outcome moved wanted }
{
    match outcome {
        Outcome::Good if moved != wanted => Outcome::Short,
        outcome => outcome,
    }
}

impl Outstanding {
    fn put_access(&self, at: Put, c: &Controller, layout: &Layout, target: &Target) -> Access
        ensures { result ≡ command_access self.now at c.now layout.now target.now }
    {
        match self.spots {
            Some(spots) => at.access(c, layout, target, &self.sent, spots, self.pieces.as_slice()),
            None => Access::Rest(0),
        }
    }

    fn put_next(&self, at: Put) -> Option<Put>
        ensures { result ≡ command_next self.now at }
    {
        match self.spots {
            Some(spots) => at.after(&self.sent, spots, self.pieces.as_slice()),
            None => None,
        }
    }

    /// When its time is over; that of its data is where its status came without them.
    pub(crate) fn limit(&self) -> u64
        ensures { result ≡ command_limit self.now }
    {
        match &self.status {
            Some(told) => self.limit.min(told.until),
            None => self.limit,
        }
    }

    /// A reply, once its data and its status came.
    fn settled(mut self) -> Entry
        ensures { result ≡ settled_command self }
    {
        let Some(moved) = self.data_state.moved() else {
            return Entry::Outstanding(self);
        };
        match mem::replace(&mut self.status, None) {
            Some(told) => Entry::Replied(Came {
                mark: self.mark,
                moved,
                ending: Ending::Told(ended_with(told.outcome, moved, self.wanted)),
            }),
            None => Entry::Outstanding(self),
        }
    }
}

impl Entry {
    /// The access of its put.
    pub(crate) fn put_access(
        &self,
        at: Put,
        c: &Controller,
        layout: &Layout,
        target: &Target,
    ) -> Access
        ensures { result ≡ entry_access self.now at c.now layout.now target.now }
    {
        match self {
            Entry::Outstanding(command) => command.put_access(at, c, layout, target),
            Entry::Free | Entry::Replied(_) => Access::Rest(0),
        }
    }

    /// What of it is put next.
    pub(crate) fn put_next(&self, at: Put) -> Option<Put>
        ensures { result ≡ entry_next self.now at }
    {
        match self {
            Entry::Outstanding(command) => command.put_next(at),
            Entry::Free | Entry::Replied(_) => None,
        }
    }

    /// The way of its data.
    pub(crate) fn way(&self) -> Way
        ensures { result ≡ way_of self.now }
    {
        match self {
            Entry::Outstanding(command) => command.sent.way,
            Entry::Free | Entry::Replied(_) => Way::Nothing,
        }
    }

    /// The bytes of its data.
    pub(crate) fn wanted(&self) -> u32
        ensures { result ≡ wanted_at self.now }
    {
        match self {
            Entry::Outstanding(command) => command.wanted,
            Entry::Free | Entry::Replied(_) => 0,
        }
    }

    /// When its time is over.
    pub(crate) fn limit(&self) -> u64
        ensures { result ≡ entry_limit self.now }
    {
        match self {
            Entry::Outstanding(command) => command.limit(),
            Entry::Free | Entry::Replied(_) => u64::MAX,
        }
    }

    /// Its TDs have these places from now on.
    pub(crate) fn put(&mut self, spots: Spots)
        ensures is { self.new ≡ entry_put spots self.old }
        ensures once { mark_of self.new ≡ mark_of self.old }
    {
        match self {
            Entry::Outstanding(command) => command.spots = Some(spots),
            Entry::Free | Entry::Replied(_) => {}
        }
    }

    /// Its data ended, and so many bytes were moved.
    pub(crate) fn moved(&mut self, count: u32)
        ensures is { self.new ≡ entry_moved count self.old }
        ensures once { mark_of self.new ≡ mark_of self.old }
    {
        match self {
            Entry::Outstanding(command) => command.data_state = command.data_state.ended(count),
            Entry::Free | Entry::Replied(_) => {}
        }
        self.settle();
    }

    /// Its data were stopped, and so many bytes were moved so far.
    pub(crate) fn stop(&mut self, count: u32)
        ensures is { self.new ≡ entry_stopped count self.old }
        ensures once { mark_of self.new ≡ mark_of self.old }
    {
        match self {
            Entry::Outstanding(command) => command.stopped = count,
            Entry::Free | Entry::Replied(_) => {}
        }
    }

    /// Its data were taken off: what was moved before they were stopped counts.
    pub(crate) fn free(&mut self)
        ensures is { self.new ≡ entry_freed self.old }
        ensures once { mark_of self.new ≡ mark_of self.old }
    {
        match self {
            Entry::Outstanding(command) => {
                command.data_state = command.data_state.ended(command.stopped);
            }
            Entry::Free | Entry::Replied(_) => {}
        }
        self.settle();
    }

    /// Its status unit came.
    pub(crate) fn told(&mut self, told: Told)
        ensures is { self.new ≡ entry_told told self.old }
        ensures once { mark_of self.new ≡ mark_of self.old }
    {
        match self {
            Entry::Outstanding(command) => command.status = Some(told),
            Entry::Free | Entry::Replied(_) => {}
        }
        self.settle();
    }

    fn settle(&mut self)
        ensures is { self.new ≡ settled self.old }
        ensures once { mark_of self.new ≡ mark_of self.old }
    {
        let entry = mem::replace(self, Entry::Free);
        *self = match entry {
            Entry::Outstanding(command) => command.settled(),
            other => other,
        };
    }

    /// What it came to isn't known any more.
    pub(crate) fn lose(&mut self, loss: Loss)
        ensures is { self.new ≡ entry_lost loss self.old }
        ensures once { mark_of self.new ≡ mark_of self.old }
    {
        if let Entry::Outstanding(command) = self {
            *self = Entry::Replied(Came {
                mark: command.mark,
                moved: 0,
                ending: Ending::Lost(loss),
            });
        }
    }

    /// Its reply, after which the tag is free.
    pub(crate) fn take(&mut self) -> Option<Came>
        ensures is { self.new ≡ entry_taken self.old }
        ensures came { result ≡ came_in self.old }
        ensures free { IfSome result (λ came. mark_of self.new ≡ None) }
        ensures mark { IfSome result (λ came. mark_of self.old ≡ Some came.mark) }
    {
        let entry = mem::replace(self, Entry::Free);
        match entry {
            Entry::Replied(came) => Some(came),
            other => {
                *self = other;
                None
            }
        }
    }
}
