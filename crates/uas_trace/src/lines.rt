//! The lines that `trace` prints beside those of `replay`: a step, and what it wrote.
//!
//! A step has some forty of them, so each is put straight behind the text that there is, without a string of its own: numbers by way
//! of a buffer on the stack, bytes as digits in their place.

ghost use Rattle.std.specs.Prelude.{◌≡◌, ◌≤◌, ◌++◌, OnOk, fold, length};
ghost use Rattle.std.specs.Fmt.{decimal};
ghost use Rattle.hex.specs.Hex.{encode_lower};
ghost use Rattle.uas_profile.specs.declared.TheConstants.{STATUS_BYTES};
ghost use Rattle.uas_trace.specs.Traced.{address_start, bell_line, bytes_line, chunk_line, context_line, fua_word, op_words, step_line};
ghost use Rattle.uas_trace.specs.Traced.{submit_line, task_step_line, task_words};
ghost use Rattle.uas_trace.specs.Written.{with_bell};

use bus_core::Step;
use itoa::Buffer;
use scsi_cmd::{Op, Task};
use std::alloc::AllocError;
use stream_array::Pipe;
use uas_profile::STATUS_BYTES;

/// The most digits of a line's bytes, which are a status buffer's at most.
const DIGITS: usize = 2 * STATUS_BYTES;

/// Adds the line of a step.
pub fn push_step(text: &mut Vec<u8>, step: &Step) -> Result<(), AllocError>
    ensures { OnOk result (text.new.items ≡ text.old.items ++ step_line step.now) }
{
    match step {
        Step::CommandPipe => text.extend_from_slice(b"command\n"),
        Step::Data(tag) => {
            push_word(text, "data ", u64::from(*tag))?;
            text.extend_from_slice(b"\n")
        }
        Step::Status(tag) => {
            push_word(text, "status ", u64::from(*tag))?;
            text.extend_from_slice(b"\n")
        }
        Step::Engine => text.extend_from_slice(b"engine\n"),
        Step::Event => text.extend_from_slice(b"event\n"),
        Step::Retire(pipe, tag) => {
            let number = pipe.number();
            push_word(text, "retire ", u64::from(number))?;
            push_word(text, " ", u64::from(*tag))?;
            text.extend_from_slice(b"\n")
        }
        Step::Take(client) => {
            push_word(text, "take ", *client as u64)?;
            text.extend_from_slice(b"\n")
        }
        Step::Submit {
            client,
            tag,
            ticket,
            command,
        } => push_submit(text, *client, *tag, *ticket, &command.op),
        Step::Task {
            client,
            ticket,
            task,
        } => push_task(text, *client, *ticket, task),
    }
}

/// Adds `submit C TAG TICKET WORDS`.
fn push_submit(
    text: &mut Vec<u8>,
    client: usize,
    tag: u16,
    ticket: u64,
    op: &Op,
) -> Result<(), AllocError>
    ensures { OnOk result (text.new.items ≡ text.old.items ++ submit_line client tag ticket op.now) }
{
    push_word(text, "submit ", client as u64)?;
    push_word(text, " ", u64::from(tag))?;
    push_word(text, " ", ticket)?;
    text.extend_from_slice(b" ")?;
    push_words(text, op)?;
    text.extend_from_slice(b"\n")
}

/// Adds `task C TICKET WORDS`.
fn push_task(text: &mut Vec<u8>, client: usize, ticket: u64, task: &Task) -> Result<(), AllocError>
    ensures { OnOk result (text.new.items ≡ text.old.items ++ task_step_line client ticket task.now) }
{
    push_word(text, "task ", client as u64)?;
    push_word(text, " ", ticket)?;
    text.extend_from_slice(b" ")?;
    push_task_words(text, task)?;
    text.extend_from_slice(b"\n")
}

/// Adds the words of a task management.
fn push_task_words(text: &mut Vec<u8>, task: &Task) -> Result<(), AllocError>
    ensures { OnOk result (text.new.items ≡ text.old.items ++ task_words task.now) }
{
    match *task {
        Task::Abort { tag } => push_word(text, "abort ", u64::from(tag)),
        Task::Reset => text.extend_from_slice(b"reset"),
        Task::Query { tag } => push_word(text, "query ", u64::from(tag)),
    }
}

/// Adds the words of a command.
fn push_words(text: &mut Vec<u8>, op: &Op) -> Result<(), AllocError>
    ensures { OnOk result (text.new.items ≡ text.old.items ++ op_words op.now) }
{
    match *op {
        Op::TestUnitReady => text.extend_from_slice(b"tur"),
        Op::Inquiry { allocation } => push_word(text, "inquiry ", u64::from(allocation)),
        Op::ReadCapacity => text.extend_from_slice(b"capacity"),
        Op::Read { lba, count, fua } => {
            push_word(text, "read ", u64::from(lba))?;
            push_word(text, " ", u64::from(count))?;
            push_fua(text, fua)
        }
        Op::Write { lba, count, fua } => {
            push_word(text, "write ", u64::from(lba))?;
            push_word(text, " ", u64::from(count))?;
            push_fua(text, fua)
        }
        Op::Sync { lba, count } => {
            push_word(text, "sync ", u64::from(lba))?;
            push_word(text, " ", u64::from(count))
        }
        Op::Read16 { lba, count, fua } => {
            push_word(text, "read16 ", lba)?;
            push_word(text, " ", u64::from(count))?;
            push_fua(text, fua)
        }
        Op::Write16 { lba, count, fua } => {
            push_word(text, "write16 ", lba)?;
            push_word(text, " ", u64::from(count))?;
            push_fua(text, fua)
        }
        Op::ReadCapacity16 { allocation } => push_word(text, "capacity16 ", u64::from(allocation)),
    }
}

/// Adds ` fua` where it was asked.
fn push_fua(text: &mut Vec<u8>, fua: bool) -> Result<(), AllocError>
    ensures { OnOk result (text.new.items ≡ text.old.items ++ fua_word fua) }
{
    if fua {
        text.extend_from_slice(b" fua")
    } else {
        Ok(())
    }
}

/// Adds `  NAME ADDRESS BYTES`.
pub fn push_bytes(
    text: &mut Vec<u8>,
    name: &str,
    address: u64,
    bytes: &[u8],
) -> Result<(), AllocError>
    requires { length bytes.now ≤ STATUS_BYTES }
    ensures { OnOk result (text.new.items ≡ text.old.items ++ bytes_line name.now address bytes.now) }
{
    push_address(text, name, address)?;
    push_digits(text, bytes)?;
    text.extend_from_slice(b"\n")
}

/// Adds `  NAME ADDRESS LENGTH`.
pub fn push_chunk(text: &mut Vec<u8>, name: &str, address: u64, len: u32) -> Result<(), AllocError>
    ensures { OnOk result (text.new.items ≡ text.old.items ++ chunk_line name.now address len) }
{
    push_address(text, name, address)?;
    push_number(text, u64::from(len))?;
    text.extend_from_slice(b"\n")
}

/// Adds `  context PIPE STREAM BYTES`.
pub fn push_context(
    text: &mut Vec<u8>,
    pipe: Pipe,
    stream: u16,
    bytes: &[u8],
) -> Result<(), AllocError>
    requires { length bytes.now ≤ STATUS_BYTES }
    ensures { OnOk result (text.new.items ≡ text.old.items ++ context_line pipe stream bytes.now) }
{
    let number = pipe.number();
    push_word(text, "  context ", u64::from(number))?;
    push_word(text, " ", u64::from(stream))?;
    text.extend_from_slice(b" ")?;
    push_digits(text, bytes)?;
    text.extend_from_slice(b"\n")
}

/// Adds `  NAME ADDRESS ` with the address in 16 digits.
fn push_address(text: &mut Vec<u8>, name: &str, address: u64) -> Result<(), AllocError>
    ensures { OnOk result (text.new.items ≡ text.old.items ++ address_start name.now address) }
{
    text.extend_from_slice(b"  ")?;
    text.extend_from_slice(name.as_bytes())?;
    text.extend_from_slice(b" ")?;
    push_digits(text, &address.to_be_bytes())?;
    text.extend_from_slice(b" ")
}

/// Adds `  bell VALUE` with the value in 8 digits.
fn push_bell(text: &mut Vec<u8>, value: u32) -> Result<(), AllocError>
    ensures { OnOk result (text.new.items ≡ text.old.items ++ bell_line value) }
{
    text.extend_from_slice(b"  bell ")?;
    push_digits(text, &value.to_be_bytes())?;
    text.extend_from_slice(b"\n")
}

/// Adds the lines of doorbells, in their order.
pub fn push_bells(text: &mut Vec<u8>, values: &[u32]) -> Result<(), AllocError>
    ensures { OnOk result (text.new.items ≡ fold with_bell text.old.items values.now) }
{
    for value in values {
        push_bell(text, *value)?;
    }
    Ok(())
}

/// Adds a word and a number behind it.
fn push_word(text: &mut Vec<u8>, word: &str, number: u64) -> Result<(), AllocError>
    ensures { OnOk result (text.new.items ≡ text.old.items ++ (word.now ++ decimal number)) }
{
    text.extend_from_slice(word.as_bytes())?;
    push_number(text, number)
}

/// Adds a number in decimal digits.
fn push_number(text: &mut Vec<u8>, number: u64) -> Result<(), AllocError>
    ensures { OnOk result (text.new.items ≡ text.old.items ++ decimal number) }
{
    let mut buffer = Buffer::new();
    text.extend_from_slice(buffer.format(number).as_bytes())
}

/// Adds bytes, at most those of a status buffer, in hexadecimal digits.
fn push_digits(text: &mut Vec<u8>, bytes: &[u8]) -> Result<(), AllocError>
    requires { length bytes.now ≤ STATUS_BYTES }
    ensures { OnOk result (text.new.items ≡ text.old.items ++ encode_lower bytes.now) }
{
    let mut digits = [0; DIGITS];
    let digits = &mut digits[..2 * bytes.len()];
    let _ = hex::encode_to_slice(bytes, digits);
    text.extend_from_slice(digits)
}
