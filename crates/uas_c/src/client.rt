//! What clients ask of a bus and of a driver, and what a reply tells, whatever the door.
ghost use Rattle.std.specs.Prelude.{◌≡◌, ◌<◌, ◌≤◌, ◌-◌, ◌^◌, IfErr, OnOk, length, min};
ghost use Rattle.c_common.specs.declared.faults.TheConstants.{NO_MEMORY};
ghost use Rattle.uas_c.specs.ClientCall.{asked_operation, client_fault, overlaid, pipe_numbered, task_numbered, told_of};
ghost use Rattle.uas_c.specs.ClientCall.{told_status, told_without_sense, with_buffer};

use c_common::faults::{
    CLIENT_BAD_LENGTH, CLIENT_IN_USE, CLIENT_NO_SUCH_TASK, CLIENT_NOT_YOURS, CLIENT_OPERATION,
    CLIENT_OUT_OF_TURN, CLIENT_TICKET, CLIENT_TOO_LONG,
};
use c_common::{UasOperation, padded, read_operation};
use scsi_cmd::{Buffer, Op, Reply, SubmitFault, Task};
use stream_array::Pipe;
use uas_iu::MAX_SENSE_BYTES;

/// What is told of a reply beside its data.
#[derive(Clone, Copy)]
pub(crate) struct ToldReply {
    pub(crate) ticket: u64,
    /// Bytes of its buffer.
    pub(crate) length: u32,
    pub(crate) tag: u16,
    /// 1 a status, 2 aborted, 3 a task management's response.
    pub(crate) kind: u8,
    /// The SCSI status of 1, the response code of 3.
    pub(crate) status: u8,
    pub(crate) sense_length: u8,
    pub(crate) sense: [u8; MAX_SENSE_BYTES],
}

/// Bytes of the longest buffer of a reply.
pub(crate) const LONGEST_BUFFER: usize = 65_536;

/// Tickets are below this.
pub(crate) const TICKETS: u64 = 1 << 60;

/// The number of what the host refuses a submission with.
pub(crate) fn client_fault(fault: SubmitFault) -> u8
    ensures number { result ≡ client_fault fault }
    ensures no_want_of_memory { NO_MEMORY < result }
{
    match fault {
        SubmitFault::NotYours => CLIENT_NOT_YOURS,
        SubmitFault::InUse => CLIENT_IN_USE,
        SubmitFault::BadLength => CLIENT_BAD_LENGTH,
        SubmitFault::TooLong => CLIENT_TOO_LONG,
        SubmitFault::OutOfTurn(_) => CLIENT_OUT_OF_TURN,
        SubmitFault::NoSuchTask => CLIENT_NO_SUCH_TASK,
    }
}

/// The operation of a submission; the error is the number of its fault.
pub(crate) fn asked_operation(ticket: u64, operation: &UasOperation) -> Result<Op, u8>
    ensures operation { result ≡ asked_operation ticket operation.now }
    ensures ticket { OnOk result (ticket < 2 ^ 60) }
    ensures fault { IfErr result (λ fault. NO_MEMORY < fault) }
{
    if ticket >= TICKETS {
        return Err(CLIENT_TICKET);
    }
    match read_operation(operation) {
        Ok(op) => Ok(op),
        Err(_) => Err(CLIENT_OPERATION),
    }
}

pub(crate) fn task_numbered(function: u8, tag: u16) -> Option<Task>
    ensures { result ≡ task_numbered function tag }
{
    match function {
        1 => Some(Task::Abort { tag }),
        8 => Some(Task::Reset),
        0x80 => Some(Task::Query { tag }),
        _ => None,
    }
}

pub(crate) fn pipe_numbered(number: u8) -> Option<Pipe>
    ensures { result ≡ pipe_numbered number }
{
    match number {
        1 => Some(Pipe::Status),
        2 => Some(Pipe::DataIn),
        3 => Some(Pipe::DataOut),
        _ => None,
    }
}

/// What a reply tells, its buffer at the front of `bytes`. `before` is the sense data that stays where it has none.
pub(crate) fn tell_reply(
    reply: &Reply,
    before: [u8; MAX_SENSE_BYTES],
    bytes: &mut [u8],
) -> ToldReply
    ensures told { result ≡ told_of before reply.now }
    ensures bytes { bytes.new ≡ with_buffer bytes.old reply.now }
{
    match reply {
        Reply::Status {
            tag,
            ticket,
            status,
            sense,
            buffer,
        } => told_status(*tag, *ticket, *status, sense, show_buffer(buffer, bytes)),
        Reply::Aborted {
            tag,
            ticket,
            buffer,
        } => told_without_sense(2, *tag, *ticket, 0, before, show_buffer(buffer, bytes)),
        Reply::Task { tag, ticket, code } => {
            told_without_sense(3, *tag, *ticket, *code, before, 0)
        }
    }
}

/// What is told of a status and its sense data, with so many bytes of data.
pub(crate) fn told_status(tag: u16, ticket: u64, status: u8, sense: &[u8], count: u32) -> ToldReply
    requires { length sense.now ≤ 96 }
    ensures { result ≡ told_status tag ticket status sense.now count }
{
    ToldReply {
        kind: 1,
        tag,
        ticket,
        status,
        sense_length: sense.len() as u8,
        sense: padded(sense),
        length: count,
    }
}

/// What is told of a reply of another kind, which has no sense data: the room for it stays as it was `before`.
pub(crate) fn told_without_sense(
    kind: u8,
    tag: u16,
    ticket: u64,
    status: u8,
    before: [u8; MAX_SENSE_BYTES],
    count: u32,
) -> ToldReply
    ensures { result ≡ told_without_sense kind tag ticket status before count }
{
    ToldReply {
        kind,
        tag,
        ticket,
        status,
        sense_length: 0,
        sense: before,
        length: count,
    }
}

/// Copies a reply's buffer to the front of `bytes`, as far as they reach, and tells its length.
pub(crate) fn show_buffer(buffer: &Buffer, bytes: &mut [u8]) -> u32
    ensures length { result ≡ min (length buffer.now) (2 ^ 32 - 1) }
    ensures bytes { bytes.new ≡ overlaid buffer.now bytes.old }
{
    let count = buffer.len().min(bytes.len());
    bytes[..count].copy_from_slice(&buffer.as_slice()[..count]);
    buffer.len().min(u32::MAX as usize) as u32
}
