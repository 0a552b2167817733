//! What a client is told of a submission before anything of it reaches a device.
ghost use Rattle.std.specs.Prelude.{◌≡◌, ◌<◌};
ghost use Rattle.scsi_cmd.specs.Submission.{first_submit_fault, first_task_fault, is_too_long};

use crate::{Command, Op, SubmitFault, moves};
use uas_profile::MOST_BLOCKS_MOVED;

/// The first fault of a submission, or `None`: `yours` where its tag is a command tag of the client, `in_use`
/// where the client has something under it; `least_ticket` is the least ticket that is taken.
pub fn submit_fault(
    yours: bool,
    in_use: bool,
    least_ticket: u64,
    ticket: u64,
    command: &Command,
) -> Option<SubmitFault>
    ensures { result ≡ first_submit_fault yours in_use least_ticket ticket command.now }
{
    if !yours {
        Some(SubmitFault::NotYours)
    } else if in_use {
        Some(SubmitFault::InUse)
    } else if command.buffer.len() != moves(&command.op).1 {
        Some(SubmitFault::BadLength)
    } else if has_too_many_blocks(&command.op) {
        Some(SubmitFault::TooLong)
    } else if ticket < least_ticket {
        Some(SubmitFault::OutOfTurn(least_ticket))
    } else {
        None
    }
}

/// The first fault of a task management, or `None`: `yours` where there is such a client, `in_use` where it has
/// something under its task tag; `least_ticket` is the least ticket that is taken; `has_task` where what is to be
/// managed is there.
pub fn task_fault(
    yours: bool,
    in_use: bool,
    least_ticket: u64,
    ticket: u64,
    has_task: bool,
) -> Option<SubmitFault>
    ensures { result ≡ first_task_fault yours in_use least_ticket ticket has_task }
{
    if !yours {
        return Some(SubmitFault::NotYours);
    }
    if in_use {
        return Some(SubmitFault::InUse);
    }
    if ticket < least_ticket {
        return Some(SubmitFault::OutOfTurn(least_ticket));
    }
    if has_task {
        None
    } else {
        Some(SubmitFault::NoSuchTask)
    }
}

fn has_too_many_blocks(op: &Op) -> bool
    ensures { result ≡ is_too_long op.now }
{
    match op {
        Op::Read { count, .. } | Op::Write { count, .. } => *count > MOST_BLOCKS_MOVED,
        Op::Read16 { count, .. } | Op::Write16 { count, .. } => {
            *count > u32::from(MOST_BLOCKS_MOVED)
        }
        _ => false,
    }
}
