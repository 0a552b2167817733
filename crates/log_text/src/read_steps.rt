//! The steps of a log's text.
ghost use Rattle.std.specs.Prelude.{◌≡◌, ◌≤◌, ◌<◌, ◌^◌, length, IfOk};
ghost use Rattle.log_text.specs.Reading.{Gives, fields_at, items_at, op_at, op_of, pipe_of, retire_at, step_at, step_of, submit_at, task_at, task_of};

use crate::read_fields::{buffer, field};
use crate::{LogFault, OpFields, Stop, Version};
use scsi_cmd::{Command, Op, Task};
use shared_machine::Step;
use std::alloc::Global;
use uas_profile::Pipe;

/// The greatest ticket.
pub(crate) const LAST_TICKET: u64 = (1 << 60) - 1;

/// The greatest values of fields of two, four and eight bytes.
pub(crate) const MOST_16: u64 = 0xffff;

const MOST_32: u64 = 0xffff_ffff;

const MOST_64: u64 = 0xffff_ffff_ffff_ffff;

/// ABORT TASK.
pub(crate) const ABORT_TASK: u8 = 0x01;

/// LOGICAL UNIT RESET.
pub(crate) const LOGICAL_UNIT_RESET: u8 = 0x08;

/// What an operation says beside its code, up to the most that each field may be.
#[tactic(auto, unfolding(crate::specs::Reading::fields_at))]
fn fields(
    bytes: &[u8],
    block_most: u64,
    count_most: u64,
    fua_most: u64,
) -> Result<(OpFields, &[u8]), Stop>
    requires count { count_most < 2 ^ 32 }
    requires fua { fua_most < 2 ^ 8 }
    ensures gives { Gives (λ read. (read.0, read.1.now)) result (fields_at block_most count_most fua_most bytes.now) }
    ensures block { IfOk result (λ read. read.0.block ≤ block_most) }
    ensures count { IfOk result (λ read. read.0.count ≤ count_most) }
{
    let (block, rest) = field(bytes, 8, 0, block_most)?;
    let (count, rest) = field(rest, 4, 0, count_most)?;
    let (fua, rest) = field(rest, 1, 0, fua_most)?;
    let fields = OpFields {
        block,
        count: count as u32,
        fua: fua as u8,
    };
    Ok((fields, rest))
}

/// The operation of a code, by the fields behind it.
#[tactic(auto, unfolding(crate::specs::Reading::op_of))]
fn op_of(code: u64, bytes: &[u8]) -> Result<(Op, &[u8]), Stop>
    requires { code ≤ 8 }
    ensures { Gives (λ read. (read.0, read.1.now)) result (op_of code bytes.now) }
{
    match code {
        0 => {
            let (_, rest) = fields(bytes, 0, 0, 0)?;
            Ok((Op::TestUnitReady, rest))
        }
        1 => {
            let (f, rest) = fields(bytes, 0, MOST_16, 0)?;
            let allocation = f.count as u16;
            Ok((Op::Inquiry { allocation }, rest))
        }
        2 => {
            let (_, rest) = fields(bytes, 0, 0, 0)?;
            Ok((Op::ReadCapacity, rest))
        }
        3 => {
            let (f, rest) = fields(bytes, MOST_32, MOST_16, 1)?;
            let (lba, count, fua) = (f.block as u32, f.count as u16, f.fua == 1);
            Ok((Op::Read { lba, count, fua }, rest))
        }
        4 => {
            let (f, rest) = fields(bytes, MOST_32, MOST_16, 1)?;
            let (lba, count, fua) = (f.block as u32, f.count as u16, f.fua == 1);
            Ok((Op::Write { lba, count, fua }, rest))
        }
        5 => {
            let (f, rest) = fields(bytes, MOST_32, MOST_16, 0)?;
            let (lba, count) = (f.block as u32, f.count as u16);
            Ok((Op::Sync { lba, count }, rest))
        }
        6 => {
            let (f, rest) = fields(bytes, MOST_64, MOST_32, 1)?;
            let (lba, count, fua) = (f.block, f.count, f.fua == 1);
            Ok((Op::Read16 { lba, count, fua }, rest))
        }
        7 => {
            let (f, rest) = fields(bytes, MOST_64, MOST_32, 1)?;
            let (lba, count, fua) = (f.block, f.count, f.fua == 1);
            Ok((Op::Write16 { lba, count, fua }, rest))
        }
        _ => {
            let (f, rest) = fields(bytes, 0, MOST_32, 0)?;
            let allocation = f.count;
            Ok((Op::ReadCapacity16 { allocation }, rest))
        }
    }
}

#[tactic(auto, unfolding(crate::specs::Reading::op_at))]
fn op(bytes: &[u8]) -> Result<(Op, &[u8]), Stop>
    ensures { Gives (λ read. (read.0, read.1.now)) result (op_at bytes.now) }
{
    let (code, rest) = field(bytes, 1, 0, 8)?;
    op_of(code, rest)
}

/// A task management by its function. A query, 80h, is of the second version alone.
#[tactic(auto, unfolding(crate::specs::Reading::task_of))]
fn task_of(version: Version, function: u64, bytes: &[u8]) -> Result<(Task, &[u8]), Stop>
    ensures { Gives (λ read. (read.0, read.1.now)) result (task_of version function bytes.now) }
{
    match function {
        0x01 => {
            let (tag, rest) = field(bytes, 2, 0, MOST_16)?;
            let tag = tag as u16;
            Ok((Task::Abort { tag }, rest))
        }
        0x08 => {
            let (_, rest) = field(bytes, 2, 0, 0)?;
            Ok((Task::Reset, rest))
        }
        0x80 if version.has_queries() => {
            let (tag, rest) = field(bytes, 2, 0, MOST_16)?;
            let tag = tag as u16;
            Ok((Task::Query { tag }, rest))
        }
        _ => Err(Stop::Fault(LogFault::BadField)),
    }
}

#[tactic(auto, unfolding(crate::specs::Reading::submit_at))]
fn submit(alloc: Global, clients: usize, bytes: &[u8]) -> Result<(Step, &[u8]), Stop>
    requires { 1 ≤ clients }
    ensures { Gives (λ read. (read.0, read.1.now)) result (submit_at clients bytes.now) }
{
    let (client, rest) = field(bytes, 1, 0, clients as u64 - 1)?;
    let (tag, rest) = field(rest, 2, 0, MOST_16)?;
    let (ticket, rest) = field(rest, 8, 0, LAST_TICKET)?;
    let (op, rest) = op(rest)?;
    let (buffer, rest) = buffer(alloc, rest)?;
    let step = Step::Submit {
        client: client as usize,
        tag: tag as u16,
        ticket,
        command: Command { op, buffer },
    };
    Ok((step, rest))
}

#[tactic(auto, unfolding(crate::specs::Reading::task_at))]
fn task(version: Version, clients: usize, bytes: &[u8]) -> Result<(Step, &[u8]), Stop>
    requires { 1 ≤ clients }
    ensures { Gives (λ read. (read.0, read.1.now)) result (task_at version clients bytes.now) }
{
    let (client, rest) = field(bytes, 1, 0, clients as u64 - 1)?;
    let (ticket, rest) = field(rest, 8, 0, LAST_TICKET)?;
    let (function, rest) = field(rest, 1, 0, 0xff)?;
    let (task, rest) = task_of(version, function, rest)?;
    let step = Step::Task {
        client: client as usize,
        ticket,
        task,
    };
    Ok((step, rest))
}

fn pipe_of(number: u64) -> Pipe
    ensures { result ≡ pipe_of number }
{
    match number {
        2 => Pipe::Status,
        3 => Pipe::DataIn,
        _ => Pipe::DataOut,
    }
}

#[tactic(auto, unfolding(crate::specs::Reading::retire_at))]
fn retire(bytes: &[u8]) -> Result<(Step, &[u8]), Stop>
    ensures { Gives (λ read. (read.0, read.1.now)) result (retire_at bytes.now) }
{
    let (pipe, rest) = field(bytes, 1, 2, 4)?;
    let (tag, rest) = field(rest, 2, 0, MOST_16)?;
    Ok((Step::Retire(pipe_of(pipe), tag as u16), rest))
}

/// The step of a kind, by the fields behind it.
#[tactic(auto, unfolding(crate::specs::Reading::step_of))]
fn step_of(
    alloc: Global,
    version: Version,
    clients: usize,
    kind: u64,
    bytes: &[u8],
) -> Result<(Step, &[u8]), Stop>
    requires { 1 ≤ clients }
    ensures { Gives (λ read. (read.0, read.1.now)) result (step_of version clients kind bytes.now) }
{
    match kind {
        1 => submit(alloc, clients, bytes),
        2 => task(version, clients, bytes),
        3 => Ok((Step::CommandPipe, bytes)),
        4 => {
            let (tag, rest) = field(bytes, 2, 0, MOST_16)?;
            Ok((Step::Data(tag as u16), rest))
        }
        5 => {
            let (tag, rest) = field(bytes, 2, 0, MOST_16)?;
            Ok((Step::Status(tag as u16), rest))
        }
        6 => Ok((Step::Engine, bytes)),
        7 => Ok((Step::Event, bytes)),
        8 => retire(bytes),
        _ => {
            let (client, rest) = field(bytes, 1, 0, clients as u64 - 1)?;
            Ok((Step::Take(client as usize), rest))
        }
    }
}

/// A step of one of so many clients, and the bytes behind it.
#[tactic(auto, unfolding(crate::specs::Reading::step_at))]
pub fn step(
    alloc: Global,
    version: Version,
    clients: usize,
    bytes: &[u8],
) -> Result<(Step, &[u8]), Stop>
    requires { 1 ≤ clients }
    ensures { Gives (λ read. (read.0, read.1.now)) result (step_at version clients bytes.now) }
{
    let (kind, rest) = field(bytes, 1, 1, 9)?;
    step_of(alloc, version, clients, kind, rest)
}

/// So many steps.
pub(crate) fn steps(
    alloc: Global,
    version: Version,
    clients: usize,
    count: u32,
    bytes: &[u8],
) -> Result<(Vec<Step>, &[u8]), Stop>
    requires { 1 ≤ clients }
    ensures { Gives (λ read. (read.0.items, read.1.now)) result (items_at (step_at version clients) count bytes.now) }
{
    let mut steps = Vec::new(alloc);
    let mut rest = bytes;
    for _ in 0..count {
        let (step, after) = step(alloc, version, clients, rest)?;
        steps.push(step)?;
        rest = after;
    }
    Ok((steps, rest))
}
