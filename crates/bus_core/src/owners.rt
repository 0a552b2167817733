//! Whose a tag is.
ghost use Rattle.std.specs.Prelude.{◌≡◌, ◌<◌};
ghost use Rattle.uas_profile.specs.Tags.{AreTags};
ghost use Rattle.bus_core.specs.Owners.{index_of, mark_of, owner_of};

use crate::Mark;
use scsi_cmd::Reply;
use uas_profile::{client_of, slot_of};

/// The client whose tag it is, of so many tags of each; 0 is no tag, and is told as tag 1.
pub(crate) fn owner_of(tags: usize, tag: u16) -> usize
    requires { 0 < tags }
    ensures { result ≡ owner_of tags tag }
{
    client_of(tags, tag.max(1))
}

/// The index of a tag among its client's, from 1 on.
pub(crate) fn index_of(tags: usize, tag: u16) -> u16
    requires { AreTags tags }
    ensures { result ≡ index_of tags tag }
{
    slot_of(tags, tag.max(1)) as u16 + 1
}

/// The mark of a reply that was taken; `Quiet` where none was.
pub(crate) fn mark_of(tags: usize, reply: &Option<Reply>) -> Mark
    requires { AreTags tags }
    ensures { result ≡ mark_of tags reply.now }
{
    match reply {
        Some(Reply::Status { tag, .. } | Reply::Aborted { tag, .. } | Reply::Task { tag, .. }) =>
            Mark::Settle(index_of(tags, *tag)),
        None => Mark::Quiet,
    }
}
