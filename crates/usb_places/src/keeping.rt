//! The calls on the answers that are kept.
ghost use Rattle.std.specs.Prelude.{◌≡◌, ◌≤◌, length, map};
ghost use Rattle.uas_profile.specs.declared.TheConstants.{STATUS_BYTES};
ghost use Rattle.usb_places.specs.Places.{all_forgotten, all_lost, came, command_kept, lost_at, lost_command_at, tag_forgotten, told_again, unit_at};
ghost use Rattle.usb_places.specs.States.{forgotten_tag, lost_tag};

use crate::calls::place_of;
use crate::tag::TagPlaces;
use crate::{Kept, Places, Transfer};
use uas_profile::Pipe;

impl Places {
    /// The answer kept at a place, if it is lost and answers just this transfer (its id and its length).
    pub fn lost_answer(&self, pipe: Pipe, tag: u16, transfer: Transfer) -> Option<Kept>
        ensures { result ≡ lost_at self.now pipe tag transfer }
    {
        match place_of(tag) {
            Some(place) => self.tags[place].lost_answer(pipe, transfer),
            None => None,
        }
    }

    /// The answer kept of the command pipe, if it is lost and answers just this transfer with these bytes.
    pub fn lost_command(&self, tag: u16, transfer: Transfer, bytes: &[u8]) -> Option<Kept>
        ensures { result ≡ lost_command_at self.now tag transfer bytes.now }
    {
        match place_of(tag) {
            Some(place) => self.tags[place].lost_command(transfer, bytes),
            None => None,
        }
    }

    /// The unit that the kept status of a tag told.
    pub fn unit(&self, tag: u16) -> &[u8]
        ensures bytes { result.now ≡ unit_at self.now tag }
        ensures most { length result.now ≤ STATUS_BYTES }
    {
        match place_of(tag) {
            Some(place) => self.tags[place].unit(),
            None => &[],
        }
    }

    /// The answer kept at a place was told again: it is kept on, and isn't lost.
    pub fn tell_again(&mut self, pipe: Pipe, tag: u16)
        ensures { self.new ≡ told_again self.old pipe tag }
    {
        if let Some(place) = place_of(tag) {
            let places = &mut self.tags[place];
            places.tell_again(pipe);
        }
    }

    /// A transfer came to a place and isn't held (it has no bytes): what was kept there is forgotten.
    pub fn come(&mut self, pipe: Pipe, tag: u16)
        ensures { self.new ≡ came self.old pipe tag }
    {
        if let Some(place) = place_of(tag) {
            let places = &mut self.tags[place];
            places.come(pipe);
        }
    }

    /// The success told to a transfer of the command pipe is kept, if its unit has 64 bytes at most, else nothing.
    pub fn keep_command(&mut self, tag: u16, transfer: Transfer, moved: u32, bytes: &[u8])
        ensures { self.new ≡ command_kept self.old tag transfer moved bytes.now }
    {
        if let Some(place) = place_of(tag) {
            let places = &mut self.tags[place];
            places.keep_command(transfer, moved, bytes);
        }
    }

    /// Each answer kept under this id, of all four pipes and all tags, is lost.
    pub fn lose(&mut self, id: u64)
        ensures { self.new ≡ all_lost self.old id }
    {
        lose_all(&mut self.tags, id);
    }

    /// No answer of a tag is kept any more. What is held stays.
    pub fn forget_tag(&mut self, tag: u16)
        ensures { self.new ≡ tag_forgotten self.old tag }
    {
        if let Some(place) = place_of(tag) {
            let places = &mut self.tags[place];
            places.forget();
        }
    }

    /// No answer of any tag is kept any more. What is held stays.
    pub fn forget_all(&mut self)
        ensures { self.new ≡ all_forgotten self.old }
    {
        forget_each(&mut self.tags);
    }
}

fn lose_all(tags: &mut [TagPlaces], id: u64)
    ensures { tags.new ≡ map (lost_tag id) tags.old }
{
    for places in tags.iter_mut() {
        places.lose(id);
    }
}

fn forget_each(tags: &mut [TagPlaces])
    ensures { tags.new ≡ map forgotten_tag tags.old }
{
    for places in tags.iter_mut() {
        places.forget();
    }
}
