//! The tags of a client. How many a client has, `tags`, is a number of the bus: `LEAST_TAGS` to `MOST_TAGS`. What depends on it are
//! the functions here, and nothing else writes their arithmetic.
//!
//! ```text
//! client c has the tags tags c + 1 to tags c + tags, the last of them for task management; a tag's stream is the tag
//! ```
ghost use Rattle.std.specs.Prelude.{◌≡◌, ◌+◌, ◌*◌, ◌^◌, ◌<◌, ◌≤◌};
ghost use Rattle.uas_profile.specs.declared.TheConstants.{MAX_CLIENTS, STREAMS};
ghost use Rattle.uas_profile.specs.Tags.{client_of, most_clients, slot_of, tag_of, task_slot};
ghost use Rattle.uas_profile.specs.TagLaws.{PlaceOfItsTag, SlotsBelowTags, TagOfItsPlace, TagsWithin, TagsApart};
ghost use Rattle.uas_profile.specs.TagLaws.{NamedIsPlace, PlaceIsNamed, UnnamedIsAbove};

use crate::{MAX_CLIENTS, Place, STREAMS};

/// The client of a tag.
pub fn client_of(tags: usize, tag: u16) -> usize
    requires tags { 0 < tags }
    requires tag { 0 < tag }
    ensures { result ≡ client_of tags tag }
{
    (usize::from(tag) - 1) / tags
}

/// The slot of a tag (index less 1), among those of its client.
pub fn slot_of(tags: usize, tag: u16) -> usize
    requires tags { 0 < tags }
    requires tag { 0 < tag }
    ensures { result ≡ slot_of tags tag }
{
    (usize::from(tag) - 1) % tags
}

/// The tag of a client's slot.
pub fn tag_of(tags: usize, place: Place) -> u16
    requires { place.client * tags + place.slot + 1 < 2 ^ 16 }
    ensures { result ≡ tag_of tags place }
{
    (place.client * tags + place.slot + 1) as u16
}

/// The slot of a client for task management; those below it are for commands.
pub fn task_slot(tags: usize) -> usize
    requires { 0 < tags }
    ensures { result ≡ task_slot tags }
{
    tags - 1
}

/// The most clients of so many tags, so that each tag has its streams.
pub fn most_clients(tags: usize) -> usize
    requires tags { 0 < tags }
    ensures most { result ≡ most_clients tags }
    ensures clients { result ≤ MAX_CLIENTS }
    ensures streams { result * tags ≤ STREAMS }
{
    MAX_CLIENTS.min(usize::from(STREAMS) / tags)
}

/// For each number of tags: a place's tag has that client and slot, and a tag is that of its client's slot; tags of two places are two; and those of so
/// many clients are 1 to tags times clients.
pub fn tag_laws()
    ensures place { TagOfItsPlace }
    ensures tag { PlaceOfItsTag }
    ensures slot { SlotsBelowTags }
    ensures apart { TagsApart }
    ensures within { TagsWithin }
    ensures named { NamedIsPlace }
    ensures names { PlaceIsNamed }
    ensures above { UnnamedIsAbove }
{}
