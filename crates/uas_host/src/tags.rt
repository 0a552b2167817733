// Tags, and the client and slot that a tag names.
ghost use Rattle.std.specs.Prelude.{◌≡◌, ◌*◌, ◌+◌, ◌<◌, ◌≤◌, IfSome, length};
ghost use Rattle.uas_profile.specs.TagLaws.{IsNamed};
ghost use Rattle.uas_profile.specs.declared.TheConstants.{STREAMS};
ghost use Rattle.uas_profile.specs.Tags.{command_slot, place_of, slot_of, tag_of, task_slot};
ghost use Rattle.uas_host.specs.Tasks.{task_tag};

use crate::{Host, Place};
use uas_profile::{client_of, slot_of, tag_of, task_slot};

/// The place that a tag names for so many clients with so many tags each.
fn place_of_tag(tags: usize, clients: usize, tag: u16) -> Option<Place>
    requires { 0 < tags }
    ensures place { result ≡ place_of tags clients tag }
    ensures slot { IfSome result (λ place. place.slot ≡ slot_of tags tag) }
{
    if tag == 0 {
        return None;
    }
    let client = client_of(tags, tag);
    if client < clients {
        Some(Place {
            client,
            slot: slot_of(tags, tag),
        })
    } else {
        None
    }
}

/// The tag for task managements of a client with so many tags.
pub(crate) fn task_tag_of(tags: usize, client: usize) -> u16
    requires tags { 0 < tags }
    requires last_tag { task_tag tags client ≤ STREAMS }
    ensures tag { result ≡ task_tag tags client }
    ensures first_tag { 1 ≤ result }
    ensures last_tag { result ≤ STREAMS }
{
    tag_of(
        tags,
        Place {
            client,
            slot: task_slot(tags),
        },
    )
}

impl Host {
    /// The place that a tag names.
    pub(crate) fn place_of(&self, tag: u16) -> Option<Place>
        ensures place { result ≡ place_of self.now.tags (length self.now.clients) tag }
        ensures known { IfSome result (IsNamed self.now.tags (length self.now.clients) tag) }
        ensures slot { IfSome result (λ place. place.slot ≡ slot_of self.now.tags tag) }
    {
        place_of_tag(self.tags, self.clients.len(), tag)
    }

    /// The tag of a slot of a client.
    pub(crate) fn tag_of(&self, client: usize, slot: usize) -> u16
        requires client { client < length self.now.clients }
        requires slot { slot < self.now.tags }
        ensures tag { result ≡ tag_of self.now.tags (record { client = client; slot = slot }) }
        ensures first_tag { 1 ≤ result }
        ensures last_tag { result ≤ STREAMS }
        ensures within { result ≤ length self.now.clients * self.now.tags }
    {
        tag_of(self.tags, Place { client, slot })
    }

    /// The slot of a command tag of a client.
    pub(crate) fn command_slot(&self, client: usize, tag: u16) -> Option<usize>
        ensures slot { result ≡ command_slot self.now.tags (length self.now.clients) client tag }
        ensures known { IfSome result (λ slot. (slot < task_slot self.now.tags) × (client < length self.now.clients)
            × (slot ≡ slot_of self.now.tags tag) × (1 ≤ tag) × (tag ≤ STREAMS)) }
    {
        match self.place_of(tag) {
            Some(place) if place.client == client && place.slot < task_slot(self.tags) => {
                Some(place.slot)
            }
            _ => None,
        }
    }
}
