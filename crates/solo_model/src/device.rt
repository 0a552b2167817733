//! The device's steps on one task.
ghost use Rattle.std.specs.Option.{option_map_or};
ghost use Rattle.std.specs.Prelude.{◌≡◌, ℕ, ◌*◌, ◌<◌, ◌≤◌, MatchOption, true, false, None, length};
ghost use Rattle.block_unit.specs.BlockMaps.{bytes_from};
ghost use Rattle.scsi_cmd.specs.Buffers.{with_bytes_at};
ghost use Rattle.scsi_cmd.specs.Meaning.{op_fault};
ghost use Rattle.scsi_cmd.specs.Op.{moved_bytes};
ghost use Rattle.scsi_cmd.specs.Work.{IsWorkOn, work_bytes, work_direction};
ghost use Rattle.uas_profile.specs.declared.Direction.{Direction};
ghost use Rattle.device_server.specs.Server.{chunk_bytes, chunk_given, progress_after, unit_taken};
ghost use Rattle.solo_model.specs.Soundness.{IsSound};
ghost use Rattle.solo_model.specs.TaggedTask.{IsStep, buffer_after, carried, moved, of_command, progress_left, request_begun, request_in, response_to, sent, unit_after, unit_managed};

use crate::{Phase, ResponseCode, Submitted, TaggedTask, Task, TaskAnswer, TaskProgress};
use block_unit::Unit;
use device_server::{Progress, begin, chunk_len, give_chunk, take_chunk};
use scsi_cmd::{Buffer, Command, Direction, Op, Work, checked_work, reports_attention, work_of};
use uas_profile::CHUNK_BYTES;

/// The device receives a queued task and begins it; false, and nothing changes, where it isn't queued. `found` says that the
/// device has a command that the task noted, as a task management.
pub fn carry(unit: &mut Unit, found: bool, task: &mut TaggedTask) -> bool
    requires { IsSound unit.old.count task.old }
    ensures carried { IsStep (carried unit.old found task.old) result unit.old task.old unit.new task.new }
    ensures sound { IsSound unit.new.count task.new }
    ensures count { unit.new.count ≡ unit.old.count }
{
    let Phase::Queued = task.phase else {
        return false;
    };
    task.phase = Phase::Begun(begin_submitted(unit, found, &task.submitted));
    true
}

/// A command begins as far as its data. A task management is done with as it is received.
fn begin_submitted(unit: &mut Unit, found: bool, submitted: &Submitted) -> TaskProgress
    ensures unit { unit.new ≡ (request_begun unit.old found (request_in submitted.now)).0 }
    ensures progress { result ≡ (request_begun unit.old found (request_in submitted.now)).1 }
    ensures count { unit.new.count ≡ unit.old.count }
{
    match submitted {
        Submitted::Command(command) => {
            let asked = checked_work(&command.op, unit.blocks());
            of_command(begin(unit, reports_attention(&command.op), asked))
        }
        Submitted::Management { task, .. } => {
            manage_unit(unit, task);
            TaskProgress::Ended(TaskAnswer::WithResponse(response_to(task, found)))
        }
    }
}

/// LOGICAL UNIT RESET leaves an attention on its unit.
fn manage_unit(unit: &mut Unit, task: &Task)
    ensures unit { unit.new ≡ unit_managed unit.old task.now }
    ensures count { unit.new.count ≡ unit.old.count }
{
    if let Task::Reset = task {
        unit.set_attention(true);
    }
}

/// The response to a task management, where the device has a command that it noted, or hasn't.
fn response_to(task: &Task, found: bool) -> ResponseCode
    ensures { result ≡ response_to task.now found }
{
    match task {
        Task::Query { .. } if found => ResponseCode::Succeeded,
        Task::Abort { .. } | Task::Reset | Task::Query { .. } => ResponseCode::Complete,
    }
}

/// How far the task of a command has come, where the device server has brought the command so far.
fn of_command(progress: Progress) -> TaskProgress
    ensures { result ≡ of_command progress }
{
    match progress {
        Progress::Moving(chunk) => TaskProgress::Moving(chunk),
        Progress::Ended(answer) => TaskProgress::Ended(TaskAnswer::WithStatus(answer)),
    }
}

/// Moves the next chunk of a task that moves data, on the blocks as they are now; false, and nothing changes,
/// where it moves none.
pub fn move_chunk(unit: &mut Unit, task: &mut TaggedTask) -> bool
    requires { IsSound unit.old.count task.old }
    ensures moved { IsStep (moved unit.old task.old) result unit.old task.old unit.new task.new }
    ensures sound { IsSound unit.new.count task.new }
    ensures count { unit.new.count ≡ unit.old.count }
{
    let Phase::Begun(TaskProgress::Moving(chunk)) = task.phase else {
        return false;
    };
    let Submitted::Command(Command { op, buffer }) = &mut task.submitted else {
        return false;
    };
    task.phase = Phase::Begun(move_op(unit, buffer, chunk, op));
    true
}

/// One chunk of an operation, between its unit and its buffer.
fn move_op(unit: &mut Unit, buffer: &mut Buffer, chunk: u16, op: &Op) -> TaskProgress
    requires whole { length buffer.old ≡ moved_bytes op.now }
    requires left { CHUNK_BYTES * chunk < moved_bytes op.now }
    requires range { op_fault op.now unit.old.count ≡ None }
    ensures unit { unit.new ≡ unit_after unit.old buffer.old chunk op.now }
    ensures buffer { buffer.new ≡ buffer_after unit.old buffer.old chunk op.now }
    ensures progress { result ≡ progress_left unit.old chunk op.now }
    ensures count { unit.new.count ≡ unit.old.count }
    ensures whole { length buffer.new ≡ length buffer.old }
{
    let work = work_of(op, unit.blocks());
    match work.direction() {
        Direction::ToHost => of_command(give_into(unit, &work, chunk, buffer)),
        Direction::ToDevice => of_command(take_from(unit, &work, chunk, buffer)),
        Direction::Nothing => unreachable!(),
    }
}

/// The next chunk goes to its place in the buffer.
fn give_into(unit: &Unit, work: &Work, chunk: u16, buffer: &mut Buffer) -> Progress
    requires direction { work_direction work.now ≡ Direction.ToHost }
    requires left { CHUNK_BYTES * chunk < work_bytes work.now }
    requires whole { length buffer.old ≡ work_bytes work.now }
    requires on { IsWorkOn unit.now.count work.now }
    ensures buffer { buffer.new ≡ option_map_or (λ bytes. with_bytes_at buffer.old (CHUNK_BYTES * chunk) bytes) (chunk_given unit.now chunk work.now) buffer.old }
    ensures progress { result ≡ progress_after unit.now chunk work.now }
    ensures whole { length buffer.new ≡ length buffer.old }
{
    let start = CHUNK_BYTES * usize::from(chunk);
    let bytes = buffer.range_mut(start, chunk_len(work.bytes(), chunk));
    give_chunk(unit, work, chunk, bytes)
}

/// The next chunk comes from its place in the buffer.
fn take_from(unit: &mut Unit, work: &Work, chunk: u16, buffer: &Buffer) -> Progress
    requires direction { work_direction work.now ≡ Direction.ToDevice }
    requires left { CHUNK_BYTES * chunk < work_bytes work.now }
    requires whole { length buffer.now ≡ work_bytes work.now }
    requires on { IsWorkOn unit.old.count work.now }
    ensures unit { unit.new ≡ unit_taken unit.old (bytes_from buffer.now (CHUNK_BYTES * chunk) (chunk_bytes (work_bytes work.now) chunk)) chunk work.now }
    ensures progress { result ≡ progress_after unit.old chunk work.now }
    ensures count { unit.new.count ≡ unit.old.count }
{
    let start = CHUNK_BYTES * usize::from(chunk);
    let end = start + chunk_len(work.bytes(), chunk);
    take_chunk(unit, work, chunk, &buffer.as_slice()[start..end])
}

/// The device hands over the answer of a task that has ended; false, and nothing changes, where it hasn't.
pub fn send(task: &mut TaggedTask) -> bool
    ensures sound { (count : ℕ) → IsSound count task.old → IsSound count task.new }
    ensures sent { MatchOption (sent task.old)
        ((result ≡ false) × (task.new ≡ task.old))
        (λ after. (result ≡ true) × (task.new ≡ after)) }
{
    let Phase::Begun(TaskProgress::Ended(answer)) = task.phase else {
        return false;
    };
    task.phase = Phase::Sent(answer);
    true
}
