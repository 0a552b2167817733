//! The tags of a disk: what each has.
ghost use Rattle.std.specs.Prelude.{◌≡◌, ◌<◌, ◌≤◌, ◌^◌, ◌-◌, None, Some, true, IfOk, IfSome, length, map, replicate, slice_set};
ghost use Rattle.std.specs.List.{position};
ghost use Rattle.block_driver.specs.Table.{RepliesStand, all_lost, came_in, changed, entry_at, entry_aborted, entry_access, entry_doomed, entry_lost, entry_moved, entry_next, entry_off, entry_put, entry_stopped, entry_taken, entry_told, first_of, is_kind, is_outstanding, is_put, least_limit, mark_of, marks, next_of, place_in, wanted_at, way_of};
ghost use Rattle.block_driver.specs.Events.{data_said, status_said};
ghost use Rattle.block_driver.specs.declared.table.Entry.{Entry};

use crate::events::Said;
use crate::kinds::{Kind, StreamPipe};
use crate::table::{Came, Entry, Loss, Outstanding, Told};
use bring_up::{Access, Controller};
use disk_ready::{Put, Spots, Target, Way};
use host_layout::{Layout, RingPlace};
use host_trbs::Completion;
use std::alloc::{AllocError, Global};
use std::marker::Model;

/// What each tag has, tag 1 first; contracts see it as a list.
#[derive(Drop)]
pub struct Tags {
    entries: Vec<Entry>,
}

impl Model for Tags {
    ghost use Rattle.std.specs.Prelude.{◌≤◌, List, length};
    ghost use Rattle.block_driver.specs.declared.table.Entry.{Entry};

    ghost Value = { List Entry };

    ghost view = { λ tags. tags.entries.items };

    ghost invariant = { λ tags. length tags.entries.items ≤ 255 };
}

impl Tags {
    /// So many tags that have nothing. The error is want of memory.
    pub(crate) fn new(alloc: Global, count: u8) -> Result<Tags, AllocError>
        ensures { IfOk result (λ tags. tags ≡ replicate count Entry.Free) }
    {
        Ok(Tags {
            entries: fresh_entries(alloc, count)?,
        })
    }

    /// The index of a tag.
    fn place(&self, tag: u16) -> Option<usize>
        ensures is { result ≡ place_in self.now tag }
        ensures there { IfSome result (λ place. place < length self.now) }
    {
        if tag == 0 || usize::from(tag) > self.entries.len() {
            None
        } else {
            Some(usize::from(tag) - 1)
        }
    }

    /// The lowest tag of a kind.
    pub(crate) fn first(&self, kind: Kind) -> Option<u8>
        ensures is { result ≡ first_of kind self.now }
        ensures there { IfSome result (λ tag. place_in self.now tag ≡ Some (tag - 1)) }
        ensures of { IfSome result (λ tag. is_kind kind (entry_at self.now tag) ≡ true) }
    {
        match first_in(&self.entries, kind) {
            Some(place) => Some((place + 1) as u8),
            None => None,
        }
    }

    /// The lowest tag of a kind above a tag.
    pub(crate) fn next(&self, kind: Kind, tag: u8) -> Option<u8>
        ensures { result ≡ next_of kind self.now tag }
    {
        let before = usize::from(tag);
        if before >= self.entries.len() {
            return None;
        }
        match first_in(&self.entries[before..], kind) {
            Some(place) => Some((before + place + 1) as u8),
            None => None,
        }
    }

    /// The time at which the first of all commands is over.
    pub(crate) fn least_limit(&self) -> u64
        ensures { result ≡ least_limit self.now }
    {
        self.entries
            .iter()
            .fold(u64::MAX, |least, entry| least.min(entry.limit()))
    }

    /// The access of a tag's put.
    pub(crate) fn put_access(
        &self,
        tag: u8,
        at: Put,
        c: &Controller,
        layout: &Layout,
        target: &Target,
    ) -> Access
        ensures { result ≡ entry_access (entry_at self.now tag) at c.now layout.now target.now }
    {
        match self.place(u16::from(tag)) {
            Some(place) => self.entries[place].put_access(at, c, layout, target),
            None => Access::Rest(0),
        }
    }

    /// The way of a tag's data.
    pub(crate) fn way(&self, tag: u8) -> Way
        ensures { result ≡ way_of (entry_at self.now tag) }
    {
        match self.place(u16::from(tag)) {
            Some(place) => self.entries[place].way(),
            None => Way::Nothing,
        }
    }

    /// The bytes of a tag's data.
    pub(crate) fn wanted(&self, tag: u8) -> u32
        ensures { result ≡ wanted_at (entry_at self.now tag) }
    {
        match self.place(u16::from(tag)) {
            Some(place) => self.entries[place].wanted(),
            None => 0,
        }
    }

    pub(crate) fn is_outstanding(&self, tag: u16) -> bool
        ensures { result ≡ is_outstanding (entry_at self.now tag) }
    {
        match self.place(tag) {
            Some(place) => self.entries[place].is_outstanding(),
            None => false,
        }
    }

    pub(crate) fn is_put(&self, tag: u8) -> bool
        ensures { result ≡ is_put (entry_at self.now tag) }
    {
        match self.place(u16::from(tag)) {
            Some(place) => self.entries[place].is_put(),
            None => false,
        }
    }

    pub(crate) fn data_said(
        &self,
        tag: u8,
        is_in: bool,
        at: RingPlace,
        residual: u32,
        completion: Completion,
    ) -> Said
        ensures { result ≡ data_said (entry_at self.now tag) tag is_in at residual completion }
    {
        match self.place(u16::from(tag)) {
            Some(place) => self.entries[place].data_said(tag, is_in, at, residual, completion),
            None => Said::Nothing,
        }
    }

    pub(crate) fn status_said(
        &self,
        tag: u8,
        at: RingPlace,
        residual: u32,
        completion: Completion,
    ) -> Said
        ensures { result ≡ status_said (entry_at self.now tag) tag at residual completion }
    {
        match self.place(u16::from(tag)) {
            Some(place) => self.entries[place].status_said(tag, at, residual, completion),
            None => Said::Nothing,
        }
    }

    /// What of a tag is put next.
    pub(crate) fn put_next(&self, tag: u8, at: Put) -> Option<Put>
        ensures { result ≡ entry_next (entry_at self.now tag) at }
    {
        match self.place(u16::from(tag)) {
            Some(place) => self.entries[place].put_next(at),
            None => None,
        }
    }

    /// A command is submitted on a tag.
    pub(crate) fn submit(&mut self, tag: u8, command: Outstanding)
        ensures is { self.new ≡ changed (λ before. Entry.Outstanding command) self.old tag }
        ensures once { IfSome (place_in self.old tag) (λ place. marks self.new ≡ slice_set (marks self.old) place (Some command.mark)) }
    {
        if let Some(place) = self.place(u16::from(tag)) {
            self.entries[place] = Entry::Outstanding(command);
        }
    }

    pub(crate) fn put(&mut self, tag: u8, spots: Spots)
        ensures is { self.new ≡ changed (entry_put spots) self.old tag }
        ensures once { marks self.new ≡ marks self.old }
        ensures replies { RepliesStand self.old self.new }
    {
        if let Some(place) = self.place(u16::from(tag)) {
            let entry = &mut self.entries[place];
            entry.put(spots);
        }
    }

    pub(crate) fn moved(&mut self, tag: u8, count: u32)
        ensures is { self.new ≡ changed (entry_moved count) self.old tag }
        ensures once { marks self.new ≡ marks self.old }
        ensures replies { RepliesStand self.old self.new }
    {
        if let Some(place) = self.place(u16::from(tag)) {
            let entry = &mut self.entries[place];
            entry.moved(count);
        }
    }

    pub(crate) fn stop(&mut self, tag: u8, count: u32)
        ensures is { self.new ≡ changed (entry_stopped count) self.old tag }
        ensures once { marks self.new ≡ marks self.old }
        ensures replies { RepliesStand self.old self.new }
    {
        if let Some(place) = self.place(u16::from(tag)) {
            let entry = &mut self.entries[place];
            entry.stop(count);
        }
    }

    /// The TD of a tag on a pipe was taken off.
    pub(crate) fn off(&mut self, pipe: StreamPipe, tag: u8)
        ensures is { self.new ≡ changed (entry_off pipe) self.old tag }
        ensures once { marks self.new ≡ marks self.old }
        ensures replies { RepliesStand self.old self.new }
    {
        if let Some(place) = self.place(u16::from(tag)) {
            let entry = &mut self.entries[place];
            entry.off(pipe);
        }
    }

    pub(crate) fn doom(&mut self, tag: u16)
        ensures is { self.new ≡ changed entry_doomed self.old tag }
        ensures once { marks self.new ≡ marks self.old }
        ensures replies { RepliesStand self.old self.new }
    {
        if let Some(place) = self.place(tag) {
            let entry = &mut self.entries[place];
            entry.doom();
        }
    }

    pub(crate) fn abort(&mut self, tag: u8)
        ensures is { self.new ≡ changed entry_aborted self.old tag }
        ensures once { marks self.new ≡ marks self.old }
        ensures replies { RepliesStand self.old self.new }
    {
        if let Some(place) = self.place(u16::from(tag)) {
            let entry = &mut self.entries[place];
            entry.abort();
        }
    }

    pub(crate) fn told(&mut self, tag: u8, told: Told)
        ensures is { self.new ≡ changed (entry_told told) self.old tag }
        ensures once { marks self.new ≡ marks self.old }
        ensures replies { RepliesStand self.old self.new }
    {
        if let Some(place) = self.place(u16::from(tag)) {
            let entry = &mut self.entries[place];
            entry.told(told);
        }
    }

    /// The reply of a tag is taken, and the tag is free.
    pub(crate) fn take(&mut self, tag: u8) -> Option<Came>
        ensures is { self.new ≡ changed entry_taken self.old tag }
        ensures came { result ≡ came_in (entry_at self.old tag) }
        ensures once { IfSome result (λ came. marks self.new ≡ slice_set (marks self.old) (tag - 1) None) }
        ensures mark { IfSome result (λ came. mark_of (entry_at self.old tag) ≡ Some came.mark) }
    {
        match self.place(u16::from(tag)) {
            Some(place) => {
                let entry = &mut self.entries[place];
                entry.take()
            }
            None => None,
        }
    }

    /// What all outstanding commands came to isn't known any more.
    pub(crate) fn lose(&mut self, loss: Loss)
        ensures is { self.new ≡ all_lost self.old loss }
        ensures once { marks self.new ≡ marks self.old }
        ensures replies { RepliesStand self.old self.new }
    {
        self.lose_each(loss);
    }

    fn lose_each(&mut self, loss: Loss)
        ensures { self.new ≡ all_lost self.old loss }
    {
        lose_all(&mut self.entries, loss);
    }
}

/// The first entry of a kind.
fn first_in(entries: &[Entry], kind: Kind) -> Option<usize>
    ensures is { result ≡ position (λ entry. is_kind kind entry) entries.now }
    ensures there { IfSome result (λ place. place < length entries.now) }
{
    entries.iter().position(|entry| entry.is(kind))
}

fn lose_all(entries: &mut [Entry], loss: Loss)
    ensures { entries.new ≡ map (entry_lost loss) entries.old }
{
    for entry in entries.iter_mut() {
        entry.lose(loss);
    }
}

fn fresh_entries(alloc: Global, count: u8) -> Result<Vec<Entry>, AllocError>
    ensures { IfOk result (λ entries. entries.items ≡ replicate count Entry.Free) }
{
    let mut entries = Vec::new(alloc);
    for _tag in 0..count {
        entries.push(Entry::Free)?;
    }
    Ok(entries)
}
