//! The calls on what is held.
ghost use Rattle.std.specs.Prelude.{◌≡◌, ◌≤◌, [], IfOk, None, length, replicate, vec_capacity};
ghost use Rattle.uas_profile.specs.Pipes.{HasStreams};
ghost use Rattle.uas_profile.specs.declared.TheConstants.{STATUS_BYTES};
ghost use Rattle.usb_places.specs.Places.{appended, cancelled_one, changed, ended, fresh_places, given_at, held_at, holder, holding, is_full_at, left_at, place_of, room_at, used_at, used_up};
ghost use Rattle.usb_places.specs.States.{emptied_tag, fresh_tag};
ghost use Rattle.usb_places.specs.declared.TheConstants.{GUEST_TAGS, MOST_TRANSFER_BYTES};

use crate::tag::TagPlaces;
use crate::{GUEST_TAGS, Places, Transfer};
use std::alloc::{AllocError, Global};
use uas_profile::Pipe;
use usbredir::Status;

impl Places {
    /// Nothing is held, nothing is kept. The error is want of memory: each tag has 524,288 bytes.
    pub fn new(alloc: Global) -> Result<Places, AllocError>
        ensures { IfOk result (λ places. places ≡ fresh_places) }
    {
        Ok(Places {
            tags: fresh_tags(alloc)?,
        })
    }

    /// The transfer held at a place; None of the command pipe.
    pub fn held(&self, pipe: Pipe, tag: u16) -> Option<Transfer>
        ensures { result ≡ held_at self.now pipe tag }
    {
        match place_of(tag) {
            Some(place) => self.tags[place].held(pipe),
            None => None,
        }
    }

    /// A transfer is held at a place where none is, and what was kept there is forgotten. At data-out `bytes` are those that came with
    /// it: the vectors are swapped, and the caller has another empty one; a data-in that is kept is forgotten. At data-in none are given yet.
    pub fn hold(&mut self, pipe: Pipe, tag: u16, transfer: Transfer, bytes: &mut Vec<u8>)
        requires tag { 1 ≤ tag }
        requires most_tag { tag ≤ GUEST_TAGS }
        requires streams { HasStreams pipe }
        requires free { held_at self.old pipe tag ≡ None }
        requires room { MOST_TRANSFER_BYTES ≤ vec_capacity bytes.old }
        requires most { length bytes.old.items ≤ MOST_TRANSFER_BYTES }
        ensures places { self.new ≡ holding self.old pipe tag transfer bytes.old.items }
        ensures taken { bytes.new.items ≡ [] }
        ensures again { MOST_TRANSFER_BYTES ≤ vec_capacity bytes.new }
    {
        let places = &mut self.tags[usize::from(tag) - 1];
        places.hold(pipe, transfer, bytes);
    }

    /// How many bytes the held data-in of a tag still takes: its length, at most 524,288 less those of a held data-out, less those given.
    pub fn room(&self, tag: u16) -> usize
        ensures room { result ≡ room_at self.now tag }
        ensures most { result ≤ MOST_TRANSFER_BYTES }
    {
        match place_of(tag) {
            Some(place) => self.tags[place].room(),
            None => 0,
        }
    }

    /// Whether the held data-in of a tag has all its bytes.
    pub fn is_full(&self, tag: u16) -> bool
        ensures { result ≡ is_full_at self.now tag }
    {
        match place_of(tag) {
            Some(place) => self.tags[place].is_full(),
            None => false,
        }
    }

    /// Gives these bytes more into the held data-in of a tag.
    pub fn append(&mut self, tag: u16, bytes: &[u8])
        requires { length bytes.now ≤ room_at self.old tag }
        ensures { self.new ≡ appended self.old tag bytes.now }
    {
        if let Some(place) = place_of(tag) {
            let places = &mut self.tags[place];
            places.append(bytes);
        }
    }

    /// The bytes given so far into the held data-in of a tag, or those of its kept answer.
    pub fn given(&self, tag: u16) -> &[u8]
        ensures bytes { result.now ≡ given_at self.now tag }
        ensures most { length result.now ≤ MOST_TRANSFER_BYTES }
    {
        match place_of(tag) {
            Some(place) => self.tags[place].given(),
            None => &[],
        }
    }

    /// The bytes of the held data-out of a tag that the device hasn't used.
    pub fn left(&self, tag: u16) -> &[u8]
        ensures bytes { result.now ≡ left_at self.now tag }
        ensures most { length result.now ≤ MOST_TRANSFER_BYTES }
    {
        match place_of(tag) {
            Some(place) => self.tags[place].left(),
            None => &[],
        }
    }

    /// How many of its bytes the device used.
    pub fn used(&self, tag: u16) -> usize
        ensures used { result ≡ used_at self.now tag }
        ensures most { result ≤ MOST_TRANSFER_BYTES }
    {
        match place_of(tag) {
            Some(place) => self.tags[place].used(),
            None => 0,
        }
    }

    /// The device used so many of them more.
    pub fn use_up(&mut self, tag: u16, count: usize)
        requires { count ≤ length (left_at self.old tag) }
        ensures { self.new ≡ used_up self.old tag count }
    {
        if let Some(place) = place_of(tag) {
            let places = &mut self.tags[place];
            places.use_up(count);
        }
    }

    /// The transfer held at a place is answered: the place keeps that answer, at the status pipe with its unit. Nothing changes where
    /// none is held.
    pub fn end(&mut self, pipe: Pipe, tag: u16, status: Status, moved: u32, unit: &[u8])
        requires { length unit.now ≤ STATUS_BYTES }
        ensures { self.new ≡ ended self.old pipe tag status moved unit.now }
    {
        if let Some(place) = place_of(tag) {
            let places = &mut self.tags[place];
            places.end(pipe, status, moved, unit);
        }
    }

    /// The first place that holds a transfer of this id holds none now: by tag, then status, data-in, data-out. None where no place holds
    /// one.
    pub fn cancel_one(&mut self, id: u64) -> Option<(Pipe, u16)>
        ensures { (self.new, result) ≡ cancelled_one self.old id }
    {
        let found = find_holder(&self.tags, id);
        if let Some((pipe, tag)) = found {
            self.empty(pipe, tag);
        }
        found
    }

    fn empty(&mut self, pipe: Pipe, tag: u16)
        ensures { self.new ≡ changed (emptied_tag pipe) self.old tag }
    {
        if let Some(place) = place_of(tag) {
            let places = &mut self.tags[place];
            places.empty(pipe);
        }
    }
}

/// The index of a tag, 1 to 128.
pub(crate) fn place_of(tag: u16) -> Option<usize>
    ensures { result ≡ place_of tag }
{
    if tag == 0 || tag > GUEST_TAGS {
        None
    } else {
        Some(usize::from(tag) - 1)
    }
}

/// The first place that holds a transfer of this id.
fn find_holder(tags: &[TagPlaces], id: u64) -> Option<(Pipe, u16)>
    requires { length tags.now ≤ GUEST_TAGS }
    ensures { result ≡ holder id tags.now }
{
    let mut tag = 0;
    for places in tags {
        tag += 1;
        if let Some(pipe) = places.holder(id) {
            return Some((pipe, tag));
        }
    }
    None
}

/// The places of each tag.
fn fresh_tags(alloc: Global) -> Result<Vec<TagPlaces>, AllocError>
    ensures { IfOk result (λ tags. tags.items ≡ replicate GUEST_TAGS fresh_tag) }
{
    let mut tags = Vec::new(alloc);
    for _tag in 0..GUEST_TAGS {
        tags.push(TagPlaces::new(alloc)?)?;
    }
    Ok(tags)
}
