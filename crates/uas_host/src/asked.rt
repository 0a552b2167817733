// What may be asked of a host.
ghost use Rattle.std.specs.Prelude.{◌≡◌, is_some, length, slice_get};
ghost use Rattle.uas_profile.specs.Tags.{AreTags};
ghost use Rattle.uas_host.specs.Retirement.{is_left_over_on};
ghost use Rattle.uas_host.specs.State.{IsHost, client_of};

use crate::{Host, Retirement};
use stream_array::Pipe;

impl Host {
    /// How many clients it has.
    pub fn clients(&self) -> usize
        ensures count { result ≡ length self.now.clients }
        ensures host { IsHost self.now }
    {
        self.clients.len()
    }

    /// How many tags each client has, 2 to 16.
    pub fn tags(&self) -> usize
        ensures tags { result ≡ self.now.tags }
        ensures number { AreTags result }
    {
        self.tags
    }

    /// Whether a reply is ready for a client. None is for a client that isn't there.
    pub fn has_reply(&self, client: usize) -> bool
        ensures { result ≡ is_some (slice_get (client_of self.now client).ready.items 0) }
    {
        client < self.clients.len() && !self.clients[client].ready.is_empty()
    }

    /// Whether the TD of a tag on a pipe is left over. No TD of the command pipe ever is.
    pub fn is_left_over(&self, pipe: Pipe, tag: u16) -> bool
        ensures { result ≡ is_left_over_on self.now pipe tag }
    {
        let Some(place) = self.place_of(tag) else {
            return false;
        };
        match &self.clients[place.client].entries[place.slot] {
            Some(entry) => entry.is_left_over(pipe),
            None => false,
        }
    }

    /// The retirement that is under way.
    pub fn retirement(&self) -> Option<Retirement>
        ensures { result ≡ self.now.retirement }
    {
        self.retirement
    }
}
