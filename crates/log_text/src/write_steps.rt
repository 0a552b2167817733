//! The steps of a log's text, written one by one.
ghost use Rattle.std.specs.Prelude.{◌≡◌, ◌≤◌, ◌<◌, ◌^◌, length, OnOk};
ghost use Rattle.log_text.specs.declared.Version.{Version};
ghost use Rattle.log_text.specs.Text.{OpFits, PipeFits, StepFits, TaskFits, field, fields_text, op_code, op_fields, op_text, pipe_number, step_body, step_kind, step_text, task_function, task_tag, task_text};
ghost use Rattle.log_text.specs.Writing.{Wrote};

use crate::OpFields;
use crate::write_fields::{put, put_buffer};
use scsi_cmd::{Command, Op, Task};
use shared_machine::Step;
use std::io;
use std::io::Write;
use uas_profile::Pipe;

/// The number of an operation in a text.
fn op_code(op: &Op) -> u8
    ensures code { result ≡ op_code op.now }
    ensures few { result ≤ 8 }
{
    match op {
        Op::TestUnitReady => 0,
        Op::Inquiry { .. } => 1,
        Op::ReadCapacity => 2,
        Op::Read { .. } => 3,
        Op::Write { .. } => 4,
        Op::Sync { .. } => 5,
        Op::Read16 { .. } => 6,
        Op::Write16 { .. } => 7,
        Op::ReadCapacity16 { .. } => 8,
    }
}

/// What an operation says beside its code.
fn op_fields(op: &Op) -> OpFields
    ensures { result ≡ op_fields op.now }
{
    let (block, count, fua) = match *op {
        Op::TestUnitReady | Op::ReadCapacity => (0, 0, false),
        Op::Inquiry { allocation } => (0, u32::from(allocation), false),
        Op::Read { lba, count, fua } | Op::Write { lba, count, fua } => {
            (u64::from(lba), u32::from(count), fua)
        }
        Op::Sync { lba, count } => (u64::from(lba), u32::from(count), false),
        Op::Read16 { lba, count, fua } | Op::Write16 { lba, count, fua } => (lba, count, fua),
        Op::ReadCapacity16 { allocation } => (0, allocation, false),
    };
    OpFields {
        block,
        count,
        fua: u8::from(fua),
    }
}

/// An operation.
fn put_op<W: Write>(out: &mut W, op: &Op) -> io::Result<()>
    ensures { OnOk result (Wrote W.contents out.old out.new (op_text op.now)) }
{
    let fields = op_fields(op);
    put(out, 1, u64::from(op_code(op)))?;
    put(out, 8, fields.block)?;
    put(out, 4, u64::from(fields.count))?;
    put(out, 1, u64::from(fields.fua))?;
    Ok(())
}

fn task_function(task: &Task) -> u8
    ensures { result ≡ task_function task.now }
{
    match task {
        Task::Abort { .. } => 0x01,
        Task::Reset => 0x08,
        Task::Query { .. } => 0x80,
    }
}

fn task_tag(task: &Task) -> u16
    ensures { result ≡ task_tag task.now }
{
    match task {
        Task::Abort { tag } | Task::Query { tag } => *tag,
        Task::Reset => 0,
    }
}

/// A task management.
fn put_task<W: Write>(out: &mut W, task: &Task) -> io::Result<()>
    ensures { OnOk result (Wrote W.contents out.old out.new (task_text task.now)) }
{
    put(out, 1, u64::from(task_function(task)))?;
    put(out, 2, u64::from(task_tag(task)))?;
    Ok(())
}

fn pipe_number(pipe: Pipe) -> u8
    ensures { result ≡ pipe_number pipe }
{
    match pipe {
        Pipe::Command => 1,
        Pipe::Status => 2,
        Pipe::DataIn => 3,
        Pipe::DataOut => 4,
    }
}

fn step_kind(step: &Step) -> u8
    ensures { result ≡ step_kind step.now }
{
    match step {
        Step::Submit { .. } => 1,
        Step::Task { .. } => 2,
        Step::CommandPipe => 3,
        Step::Data(_) => 4,
        Step::Status(_) => 5,
        Step::Engine => 6,
        Step::Event => 7,
        Step::Retire(_, _) => 8,
        Step::Take(_) => 9,
    }
}

/// What stands behind a submission's kind.
fn put_submission<W: Write>(
    out: &mut W,
    client: usize,
    tag: u16,
    ticket: u64,
    command: &Command,
) -> io::Result<()>
    requires { StepFits Version.Second 31 (Step.Submit client tag ticket command.now) }
    ensures { OnOk result (Wrote W.contents out.old out.new (step_body (Step.Submit client tag ticket command.now))) }
{
    put(out, 1, client as u64)?;
    put(out, 2, u64::from(tag))?;
    put(out, 8, ticket)?;
    put_op(out, &command.op)?;
    put_buffer(out, &command.buffer)?;
    Ok(())
}

/// What stands behind a task management's kind.
fn put_management<W: Write>(out: &mut W, client: usize, ticket: u64, task: &Task) -> io::Result<()>
    requires { client < 31 }
    ensures { OnOk result (Wrote W.contents out.old out.new (step_body (Step.Task client ticket task.now))) }
{
    put(out, 1, client as u64)?;
    put(out, 8, ticket)?;
    put_task(out, task)?;
    Ok(())
}

/// What stands behind a retirement's kind.
fn put_retirement<W: Write>(out: &mut W, pipe: Pipe, tag: u16) -> io::Result<()>
    ensures { OnOk result (Wrote W.contents out.old out.new (step_body (Step.Retire pipe tag))) }
{
    put(out, 1, u64::from(pipe_number(pipe)))?;
    put(out, 2, u64::from(tag))?;
    Ok(())
}

/// What stands behind a step's kind.
fn put_body<W: Write>(out: &mut W, step: &Step) -> io::Result<()>
    requires { StepFits Version.Second 31 step.now }
    ensures { OnOk result (Wrote W.contents out.old out.new (step_body step.now)) }
{
    match step {
        Step::Submit {
            client,
            tag,
            ticket,
            command,
        } => put_submission(out, *client, *tag, *ticket, command),
        Step::Task {
            client,
            ticket,
            task,
        } => put_management(out, *client, *ticket, task),
        Step::Data(tag) | Step::Status(tag) => put(out, 2, u64::from(*tag)),
        Step::Retire(pipe, tag) => put_retirement(out, *pipe, *tag),
        Step::Take(client) => put(out, 1, *client as u64),
        Step::CommandPipe | Step::Engine | Step::Event => Ok(()),
    }
}

/// A step. Asks one of at most 31 clients, and a buffer that fits.
pub fn put_step<W: Write>(out: &mut W, step: &Step) -> io::Result<()>
    requires { StepFits Version.Second 31 step.now }
    ensures { OnOk result (Wrote W.contents out.old out.new (step_text step.now)) }
{
    put(out, 1, u64::from(step_kind(step)))?;
    put_body(out, step)?;
    Ok(())
}
