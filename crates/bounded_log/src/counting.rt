//! The bytes of entries, counted as far as there is room.
ghost use Rattle.std.specs.Prelude.{◌≡◌, ◌↔◌, ◌+◌, ◌≤◌, IfSome, IsSome, sum_by};
ghost use Rattle.shared_machine.specs.Laws.{reply_len};
ghost use Rattle.bounded_log.specs.Bytes.{data_bytes, fixed_bytes, log_bytes, step_bytes};

use scsi_cmd::Reply;
use shared_machine::Step;
use uas_log::Log;

/// The bytes of a log's entries, where they are no more than `limit`.
pub(crate) fn log_bytes(log: &Log, limit: usize) -> Option<usize>
    ensures some { IfSome result (λ bytes. bytes ≡ log_bytes log.now) }
    ensures fits { IsSome result ↔ (log_bytes log.now ≤ limit) }
{
    let bytes = with_steps(limit, log.steps.as_slice())?;
    with_replies(bytes, limit, log.replies.as_slice())
}

/// The bytes of steps, without the data of their replies.
fn with_steps(limit: usize, steps: &[Step]) -> Option<usize>
    ensures some { IfSome result (λ bytes. bytes ≡ sum_by step_bytes steps.now) }
    ensures fits { IsSome result ↔ (sum_by step_bytes steps.now ≤ limit) }
{
    let mut bytes = 0;
    for step in steps {
        bytes = with_step(bytes, limit, step)?;
    }
    Some(bytes)
}

/// The bytes with the data of replies.
fn with_replies(before: usize, limit: usize, replies: &[Reply]) -> Option<usize>
    requires { before ≤ limit }
    ensures some { IfSome result (λ bytes. bytes ≡ before + sum_by reply_len replies.now) }
    ensures fits { IsSome result ↔ (before + sum_by reply_len replies.now ≤ limit) }
{
    let mut bytes = before;
    for reply in replies {
        bytes = with_bytes(bytes, limit, brought(reply))?;
    }
    Some(bytes)
}

/// How many bytes a reply brings.
fn brought(reply: &Reply) -> usize
    ensures { result ≡ reply_len reply.now }
{
    match reply {
        Reply::Status { buffer, .. } | Reply::Aborted { buffer, .. } => buffer.len(),
        Reply::Task { .. } => 0,
    }
}

/// The bytes with those of a step, without the data of its reply.
#[tactic(auto, using(crate::proofs::Lengths::step_parts))]
pub(crate) fn with_step(bytes: usize, limit: usize, step: &Step) -> Option<usize>
    requires { bytes ≤ limit }
    ensures some { IfSome result (λ more. more ≡ bytes + step_bytes step.now) }
    ensures fits { IsSome result ↔ (bytes + step_bytes step.now ≤ limit) }
{
    let bytes = with_bytes(bytes, limit, fixed_bytes(step))?;
    with_bytes(bytes, limit, data_bytes(step))
}

/// The bytes with so many more, where they are no more than `limit`.
pub(crate) fn with_bytes(bytes: usize, limit: usize, more: usize) -> Option<usize>
    requires { bytes ≤ limit }
    ensures some { IfSome result (λ all. all ≡ bytes + more) }
    ensures fits { IsSome result ↔ (bytes + more ≤ limit) }
{
    if more <= limit - bytes {
        Some(bytes + more)
    } else {
        None
    }
}

/// The bytes of a step without the data that it brings.
fn fixed_bytes(step: &Step) -> usize
    ensures { result ≡ fixed_bytes step.now }
{
    match step {
        Step::Submit { .. } => 40,
        Step::Task { .. } => 23,
        Step::CommandPipe | Step::Engine | Step::Event => 11,
        Step::Data(_) | Step::Status(_) => 13,
        Step::Retire(_, _) => 14,
        Step::Take(_) => 48,
    }
}

/// The data that a step brings.
fn data_bytes(step: &Step) -> usize
    ensures { result ≡ data_bytes step.now }
{
    match step {
        Step::Submit { command, .. } => command.buffer.len(),
        Step::Task { .. }
        | Step::CommandPipe
        | Step::Data(_)
        | Step::Status(_)
        | Step::Engine
        | Step::Event
        | Step::Retire(_, _)
        | Step::Take(_) => 0,
    }
}
