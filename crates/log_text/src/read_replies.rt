//! The replies of a log's text.
ghost use Rattle.std.specs.Prelude.{◌≡◌, ◌≤◌, ◌<◌, ◌^◌, length, IfOk};
ghost use Rattle.log_text.specs.Reading.{Gives, items_at, reply_at, reply_of, sense_at, status_at};

use crate::read_fields::{buffer, field, front};
use crate::read_steps::{LAST_TICKET, MOST_16};
use crate::{LogFault, SavedReply, Stop};
use arrayvec::ArrayVec;
use scsi_cmd::{MAX_SENSE_BYTES, Reply, SENSE_BYTES};
use std::alloc::Global;

/// Sense behind its length: none, or 18 bytes.
#[tactic(auto, unfolding(crate::specs::Reading::sense_at))]
fn sense(bytes: &[u8]) -> Result<(ArrayVec<u8, MAX_SENSE_BYTES>, &[u8]), Stop>
    ensures { Gives (λ read. (read.0.items, read.1.now)) result (sense_at bytes.now) }
{
    let (len, rest) = field(bytes, 1, 0, 0xff)?;
    let len = len as usize;
    if len != 0 && len != SENSE_BYTES {
        return Err(Stop::Fault(LogFault::BadField));
    }
    let (bytes, rest) = front(rest, len)?;
    Ok((sense_of(bytes), rest))
}

fn sense_of(bytes: &[u8]) -> ArrayVec<u8, MAX_SENSE_BYTES>
    requires { length bytes.now ≤ MAX_SENSE_BYTES }
    ensures { result.items ≡ bytes.now }
{
    let mut sense = ArrayVec::new();
    for byte in bytes {
        sense.push(*byte);
    }
    sense
}

#[tactic(auto, unfolding(crate::specs::Reading::status_at))]
fn status(alloc: Global, tag: u16, ticket: u64, bytes: &[u8]) -> Result<(Reply, &[u8]), Stop>
    ensures { Gives (λ read. (read.0, read.1.now)) result (status_at tag ticket bytes.now) }
{
    let (status, rest) = field(bytes, 1, 0, 0xff)?;
    let (sense, rest) = sense(rest)?;
    let (buffer, rest) = buffer(alloc, rest)?;
    let reply = Reply::Status {
        tag,
        ticket,
        status: status as u8,
        sense,
        buffer,
    };
    Ok((reply, rest))
}

/// The reply of a kind, by the fields behind it.
#[tactic(auto, unfolding(crate::specs::Reading::reply_of))]
fn reply_of(
    alloc: Global,
    kind: u64,
    tag: u16,
    ticket: u64,
    bytes: &[u8],
) -> Result<(Reply, &[u8]), Stop>
    ensures { Gives (λ read. (read.0, read.1.now)) result (reply_of kind tag ticket bytes.now) }
{
    match kind {
        1 => status(alloc, tag, ticket, bytes),
        2 => {
            let (buffer, rest) = buffer(alloc, bytes)?;
            let reply = Reply::Aborted {
                tag,
                ticket,
                buffer,
            };
            Ok((reply, rest))
        }
        _ => {
            let (code, rest) = field(bytes, 1, 0, 0xff)?;
            let code = code as u8;
            Ok((Reply::Task { tag, ticket, code }, rest))
        }
    }
}

/// A reply of one of so many clients, and the bytes behind it.
#[tactic(auto, unfolding(crate::specs::Reading::reply_at))]
pub fn reply(alloc: Global, clients: usize, bytes: &[u8]) -> Result<(SavedReply, &[u8]), Stop>
    requires { 1 ≤ clients }
    ensures { Gives (λ read. (read.0, read.1.now)) result (reply_at clients bytes.now) }
{
    let (client, rest) = field(bytes, 1, 0, clients as u64 - 1)?;
    let (kind, rest) = field(rest, 1, 1, 3)?;
    let (tag, rest) = field(rest, 2, 0, MOST_16)?;
    let (ticket, rest) = field(rest, 8, 0, LAST_TICKET)?;
    let (reply, rest) = reply_of(alloc, kind, tag as u16, ticket, rest)?;
    let client = client as usize;
    Ok((SavedReply { client, reply }, rest))
}

/// So many replies.
pub(crate) fn replies(
    alloc: Global,
    clients: usize,
    count: u32,
    bytes: &[u8],
) -> Result<(Vec<SavedReply>, &[u8]), Stop>
    requires { 1 ≤ clients }
    ensures { Gives (λ read. (read.0.items, read.1.now)) result (items_at (reply_at clients) count bytes.now) }
{
    let mut replies = Vec::new(alloc);
    let mut rest = bytes;
    for _ in 0..count {
        let (reply, after) = reply(alloc, clients, rest)?;
        replies.push(reply)?;
        rest = after;
    }
    Ok((replies, rest))
}
