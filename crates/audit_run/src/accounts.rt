//! A client's own account of a file: its submissions and its replies.
ghost use Rattle.std.specs.Prelude.{◌≡◌, ◌<◌, ◌==◌, length, filter, map, true, IfOk};
ghost use Rattle.log_audit.specs.Audit.{submissions_of};
ghost use Rattle.audit_run.specs.replay.Replaying.{IsReplayOf};
ghost use Rattle.audit_run.specs.Audits.{replies_to};

use log_audit::{audit, is_asked_by};
use log_text::{PlainLog, SavedReply};
use scsi_cmd::Reply;
use shared_machine::Step;
use std::alloc::{AllocError, Global};
use uas_work::Booked;

/// Whether a client's audit is true with its submissions of the file and these replies, which are its of the file. Asks that the bus is
/// booked by the log; it is true then.
pub(crate) fn is_true_of(
    alloc: Global,
    booked: &Booked,
    log: &PlainLog,
    client: usize,
    replies: &[Reply],
) -> Result<bool, AllocError>
    requires replay { IsReplayOf log.now booked.now }
    requires client { client < length log.now.units }
    requires replies { replies.now ≡ replies_to client log.now.replies }
    ensures { IfOk result (λ told. told ≡ true) }
{
    let sent = submissions(alloc, log.steps(), client)?;
    audit(alloc, booked.log(), client, &sent, replies)
}

/// The submissions of a client among steps, in order.
fn submissions(alloc: Global, steps: &[Step], client: usize) -> Result<Vec<Step>, AllocError>
    ensures { IfOk result (λ sent. sent.items ≡ submissions_of client steps.now) }
{
    let mut sent = Vec::new(alloc);
    for step in steps {
        if is_asked_by(client, step) {
            sent.push(step.try_clone(alloc)?)?;
        }
    }
    Ok(sent)
}

/// The replies that a client took, in order.
pub(crate) fn replies_of(
    alloc: Global,
    taken: &[SavedReply],
    client: usize,
) -> Result<Vec<Reply>, AllocError>
    ensures { IfOk result (λ replies. replies.items ≡ replies_to client taken.now) }
{
    let mut replies = Vec::new(alloc);
    for saved in taken {
        if saved.client == client {
            replies.push(saved.reply.try_clone(alloc)?)?;
        }
    }
    Ok(replies)
}
