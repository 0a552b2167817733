//! Commands that are aborted: by a call, or since their time is over.
#![tactic(auto, using(crate::proofs::Kept::kept_same))]

ghost use Rattle.std.specs.Prelude.{◌≡◌, IfErr, OnErr, OnOk, is_err, not};
ghost use Rattle.block_driver.specs.Calls.{aborted_driver};
ghost use Rattle.block_driver.specs.Table.{RepliesStand, aborted_came, entry_aborted, entry_at, entry_doomed, entry_off, entry_unanswered, is_outstanding, is_put, mark_of, marks, unanswered};
ghost use Rattle.block_driver.specs.Turns.{doomed};

use crate::kinds::StreamPipe;
use crate::steps::Blocks;
use crate::table::{Came, Ending, Entry, Outstanding};
use crate::{AbortFault, BlockDriver};
use std::mem;

impl Outstanding {
    /// What it came to where it was aborted, and so many bytes were moved.
    fn aborted_came(&self, moved: u32) -> Came
        ensures { result ≡ aborted_came self.now moved }
    {
        Came {
            mark: self.mark,
            moved,
            ending: Ending::Aborted,
        }
    }

    /// A reply, once the TD of its status was taken off, and its data ended.
    fn unanswered(self) -> Entry
        ensures { result ≡ unanswered self }
    {
        match self.data_state.moved() {
            Some(moved) if self.is_status_stuck() => Entry::Replied(self.aborted_came(moved)),
            _ => Entry::Outstanding(self),
        }
    }
}

impl Entry {
    pub(crate) fn is_outstanding(&self) -> bool
        ensures { result ≡ is_outstanding self.now }
    {
        matches!(self, Entry::Outstanding(_))
    }

    /// Whether its TDs have places.
    pub(crate) fn is_put(&self) -> bool
        ensures { result ≡ is_put self.now }
    {
        match self {
            Entry::Outstanding(command) => command.spots.is_some(),
            Entry::Free | Entry::Replied(_) => false,
        }
    }

    /// Its time is over; where it isn't put yet, it ends at once.
    pub(crate) fn doom(&mut self)
        ensures is { self.new ≡ entry_doomed self.old }
        ensures once { mark_of self.new ≡ mark_of self.old }
    {
        if let Entry::Outstanding(command) = self {
            if command.spots.is_some() {
                command.limit = 0;
            } else {
                *self = Entry::Replied(command.aborted_came(0));
            }
        }
    }

    /// The disk aborted it. A command that isn't put has only its tag.
    pub(crate) fn abort(&mut self)
        ensures is { self.new ≡ entry_aborted self.old }
        ensures once { mark_of self.new ≡ mark_of self.old }
    {
        if let Entry::Outstanding(command) = self {
            command.is_aborted = command.spots.is_some();
        }
    }

    /// Its TD on a pipe was taken off.
    pub(crate) fn off(&mut self, pipe: StreamPipe)
        ensures is { self.new ≡ entry_off pipe self.old }
        ensures once { mark_of self.new ≡ mark_of self.old }
    {
        match pipe {
            StreamPipe::DataIn | StreamPipe::DataOut => self.free(),
            StreamPipe::Status => self.unanswer(),
        }
    }

    fn unanswer(&mut self)
        ensures is { self.new ≡ entry_unanswered self.old }
        ensures once { mark_of self.new ≡ mark_of self.old }
    {
        let entry = mem::replace(self, Entry::Free);
        *self = match entry {
            Entry::Outstanding(command) => command.unanswered(),
            other => other,
        };
    }
}

impl Blocks {
    /// The time of a tag's command is over.
    pub(crate) fn doom(&mut self, tag: u16)
        ensures is { self.new ≡ doomed self.old tag }
        ensures once { marks self.new.tags ≡ marks self.old.tags }
        ensures replies { RepliesStand self.old.tags self.new.tags }
    {
        self.tags.doom(tag);
    }
}

impl BlockDriver {
    /// Aborts the command on a tag: its reply says so, or what its status said that came first. One that the disk doesn't abort has the device tried
    /// again. `NoSuchTag` where no command is out on the tag, which changes nothing.
    pub fn abort(&mut self, tag: u16) -> Result<(), AbortFault>
        ensures refused { is_err result ≡ not (is_outstanding (entry_at self.old.blocks.tags tag)) }
        ensures fault { IfErr result (λ fault. fault ≡ AbortFault.NoSuchTag) }
        ensures kept { OnErr result (self.new ≡ self.old) }
        ensures state { OnOk result (self.new ≡ aborted_driver self.old tag) }
        ensures once { marks self.new.blocks.tags ≡ marks self.old.blocks.tags }
        ensures replies { RepliesStand self.old.blocks.tags self.new.blocks.tags }
    {
        if !self.blocks.tags.is_outstanding(tag) {
            return Err(AbortFault::NoSuchTag);
        }
        self.blocks.doom(tag);
        Ok(())
    }
}
