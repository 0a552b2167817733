//! The audit of a client's own account.
ghost use Rattle.std.specs.Prelude.{◌≡◌, ◌<◌, ◌↔◌, IsTrue, IsOkAnd, filter, length};
ghost use Rattle.uas_profile.specs.Tags.{AreTags};
ghost use Rattle.uas_log.specs.Booking.{IsReplay};
ghost use Rattle.log_audit.specs.Audit.{IsAudited, IsBeginning, is_asked_by, is_taken_by, submissions_of};

use scsi_cmd::Reply;
use shared_machine::Step;
use std::alloc::{AllocError, Global};
use uas_log::Log;

/// Whether a client's account is the log's: its Submit and Task steps of the log, refused ones too, are the first of `sent`, in
/// order, and `replies` are, but for their tags' numbers, those of the solo machine of as many tags for the client's own labels of the
/// log's steps on its first unit. Asks a log that is true, and a client of it. It takes no memory as yet.
pub fn audit(
    _alloc: Global,
    log: &Log,
    client: usize,
    sent: &[Step],
    replies: &[Reply],
) -> Result<bool, AllocError>
    requires replay { IsReplay log.now }
    requires client { client < length log.now.units }
    ensures { IsOkAnd result (λ told. IsTrue told ↔ IsAudited log.now client sent.now replies.now) }
{
    let began = are_first(client, log.steps.as_slice(), sent);
    let took = are_all(log.tags, client, log.replies.as_slice(), replies);
    Ok(began && took)
}

/// Whether a client's submissions among steps are the first of `sent`, in order.
fn are_first(client: usize, steps: &[Step], sent: &[Step]) -> bool
    ensures { IsTrue result ↔ IsBeginning (submissions_of client steps.now) sent.now }
{
    let mut next = 0;
    for step in steps {
        if is_asked_by(client, step) {
            if next == sent.len() || !step.same(&sent[next]) {
                return false;
            }
            next += 1;
        }
    }
    true
}

/// Whether a client's replies among those of all are these, for so many tags of each client.
fn are_all(tags: usize, client: usize, taken: &[Reply], replies: &[Reply]) -> bool
    requires { AreTags tags }
    ensures { IsTrue result ↔ (filter (is_taken_by tags client) taken.now ≡ replies.now) }
{
    let mut next = 0;
    for reply in taken {
        if is_taken_by(tags, client, reply) {
            if next == replies.len() || !reply.same(&replies[next]) {
                return false;
            }
            next += 1;
        }
    }
    next == replies.len()
}

/// Whether a step is a submission of a client.
pub fn is_asked_by(client: usize, step: &Step) -> bool
    ensures { result ≡ is_asked_by client step.now }
{
    match step {
        Step::Submit { client: owner, .. } | Step::Task { client: owner, .. } => *owner == client,
        Step::CommandPipe
        | Step::Data(_)
        | Step::Status(_)
        | Step::Engine
        | Step::Event
        | Step::Retire(_, _)
        | Step::Take(_) => false,
    }
}

/// Whether a reply brings back a tag of a client.
fn is_taken_by(tags: usize, client: usize, reply: &Reply) -> bool
    requires { AreTags tags }
    ensures { result ≡ is_taken_by tags client reply.now }
{
    usize::from(reply.tag()).saturating_sub(1) / tags == client
}
