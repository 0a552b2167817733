//! Where the replies of a replay and those of a text differ.
ghost use Rattle.std.specs.Prelude.{◌≡◌, ◌<◌, ◌↔◌, IsTrue, IfNone, IfSome, map};
ghost use Rattle.log_text.specs.Kept.{with_client};
ghost use Rattle.audit_run.specs.replay.Replaying.{DifferFirst};

use log_text::SavedReply;
use scsi_cmd::Reply;

/// The number of the first reply, from 0, that is another in a text, or is missing on one side. Each client has so many tags.
pub(crate) fn first_difference(
    tags: usize,
    replayed: &[Reply],
    saved: &[SavedReply],
) -> Option<usize>
    requires { 0 < tags }
    ensures none { IfNone result (map (with_client tags) replayed.now ≡ saved.now) }
    ensures first { IfSome result (λ at. DifferFirst at (map (with_client tags) replayed.now) saved.now) }
{
    for (at, reply) in replayed.iter().enumerate() {
        if at == saved.len() || !is_saved(tags, reply, &saved[at]) {
            return Some(at);
        }
    }
    if replayed.len() < saved.len() {
        Some(replayed.len())
    } else {
        None
    }
}

/// Whether a reply with the client whose tag it brings back is that of a text.
fn is_saved(tags: usize, reply: &Reply, saved: &SavedReply) -> bool
    requires { 0 < tags }
    ensures { IsTrue result ↔ (with_client tags reply.now ≡ saved.now) }
{
    usize::from(reply.tag()).saturating_sub(1) / tags == saved.client && reply.same(&saved.reply)
}
