//! The host driver of USB Attached SCSI: commands of clients to TDs on rings, events to replies.
//!
//! Up to `MAX_CLIENTS` clients have `tags` tags each, 2 to 16, a number of the host: client c has the tags tags c + 1 to
//! tags c + tags, of which the last is kept for task management. The stream of a tag on each pipe with streams has the tag's
//! number, so that there are at most `STREAMS` tags.
//!
//! Submission: the host writes the Command unit into the tag's command buffer, lends the client's own vector
//! as the tag's data window, pushes the data TD (where bytes move), the status TD and the command TD, and
//! rings the data, the status and the command doorbell, in this order.
//!
//! TRBs (xHCI 4.11, 6.4.1.1): a data TRB moves 4,096 bytes, the last one what is left. All but the last have
//! CH, and the last alone has IOC. Its TD Size is the number of packets of 1,024 bytes that come after it, at
//! most 31. A status TRB has room for the longest unit, with ISP and IOC; a command TRB names the bytes of the
//! unit, with IOC.
//!
//! Matching: an event tells no tag. The host finds it by the event's pointer alone: the address tells the
//! pipe and the stream, and on the command pipe, which has no streams, the TRB that stands there tells the
//! tag by the buffer that it names. So the host keeps no table of pointers. An event that fits no TD that is
//! consumed and still waits is stray, and changes nothing.
//!
//! Ready: a command is ready once its command and its status event were seen and its data TD was seen or
//! retired. The status CHECK CONDITION leaves an unseen data TD over, as its event can't come any more.
//! Replies are taken in the order in which commands became ready; only then is the tag free again.
//!
//! Task management: an abort or a reset notes the tickets of the commands that it is to end, a query that of the command
//! which it asks after, and goes out under the client's task tag as a status TD and a command TD. Doomed at the response
//! COMPLETE of an abort or a reset is each noted command that is still under its tag by its ticket and whose status wasn't
//! seen: its status TD is left over, and its data TD where unseen. It is ready once both were retired. A later command on
//! that tag is left alone, and a query leaves every command alone.
//!
//! Retirement (xHCI 4.6.9, 4.6.10): a left-over TD is taken off its ring by Stop Endpoint and then Set TR Dequeue
//! Pointer to the ring's enqueue place, one TD at a time. From its begin to the event of the second command the
//! pipe is held: the host pushes TDs on it and rings no doorbell of it. Then it rings every stream of the pipe
//! that has a pending TRB, by rising stream. A client is marked where a TD of it may be left over, so that the next
//! TD that is left over is found without a look at the clients that have none.
//!
//! What is promised: each call is one equation over the new host, rings, buffers, doorbells and answer
//! (`specs/`). A refused submission changes nothing and hands the command back. [`Host::new`] takes all
//! memory, and no other call takes any: a client's vector is moved and never copied. The host knows neither
//! device nor controller. It stands on `stream_array` for the rings, on `frame_store` for the buffers, on
//! `uas_iu` for the units, on `scsi_cmd` for commands and replies and on `marks` for the clients that may have a TD left over.
#![tactic(auto)]

mod asked;
mod doors;
mod ended;
mod engine;
mod events;
mod freed;
mod hosts;
pub mod laws;
mod left;
mod next_reply;
mod replies;
mod retirements;
mod seen;
mod submissions;
mod tags;
mod tasks;
mod tds;
mod units;

use arrayvec::ArrayVec;
use marks::Marks;
use scsi_cmd::{MAX_SENSE_BYTES, Request};
use std::alloc::AllocError;
use std::marker::Model;
use stream_array::Pipe;
pub use uas_profile::{Place, TdState};
use uas_profile::{MAX_CLIENTS, MOST_TAGS};

/// Want of memory, the one refusal of a constructor.
pub type NoMemory = AllocError;

/// Words of 64 marks, enough for a mark of each client.
const CLIENT_WORDS: usize = 1;

const _: () = prove!(CLIENT_WORDS == 1 && MAX_CLIENTS <= 64 * CLIENT_WORDS);

/// What the host was told of a command or of a task management.
#[derive(Debug, Drop)]
pub enum HostAnswer {
    /// Nothing yet.
    Unanswered,
    /// The status and the sense of a Sense unit.
    Status {
        status: u8,
        sense: ArrayVec<u8, MAX_SENSE_BYTES>,
    },
    /// The code of a Response unit.
    Response {
        code: u8,
    },
}

/// What the host made of an event.
#[derive(Clone, Copy, Debug, PartialEq, Eq)]
pub enum Handled {
    /// It was of a TD of this tag.
    Matched(u16),
    /// It was of the command under way on the controller's command ring.
    Engine,
    /// It was of nothing that the host waits for, and nothing changed.
    Stray,
}

/// The TD that an event is of, by its pipe and its tag.
#[derive(Clone, Copy, Debug, PartialEq, Eq)]
pub struct EndedTd {
    pub pipe: Pipe,
    pub tag: u16,
}

/// How far a retirement is: which engine command is under way (xHCI 4.6.9, 4.6.10).
#[derive(Clone, Copy, Debug, PartialEq, Eq)]
pub enum RetirementStage {
    /// Stop Endpoint.
    Stopping,
    /// Set TR Dequeue Pointer.
    Moving,
}

/// The retirement of the left-over TD of a tag on a pipe. The pipe is held while it is under way.
#[derive(Clone, Copy, Debug, PartialEq, Eq)]
pub struct Retirement {
    pub pipe: Pipe,
    pub place: Place,
    pub stage: RetirementStage,
}

/// What the host has under a tag that is in use.
#[derive(Debug, Drop)]
pub struct HostEntry {
    pub ticket: u64,
    /// What the client asked for. A task management noted its tickets when it was submitted: an abort and a query that of
    /// the command on the tag, a reset those of all commands of its client, by rising slot.
    pub request: Request,
    pub told: HostAnswer,
    pub command_td: TdState,
    pub status_td: TdState,
    /// A command that moves no bytes has none, nor has a task management.
    pub data_td: Option<TdState>,
}

/// What the host has of one client: what is under its tags, the least ticket that it may submit, and the
/// slots that are ready, the oldest first.
#[derive(Debug, Drop)]
pub struct HostClient {
    /// By slot. Those from the host's number of tags on hold nothing.
    pub entries: [Option<HostEntry>; MOST_TAGS],
    pub least_ticket: u64,
    pub ready: ArrayVec<usize, MOST_TAGS>,
}

/// The host driver of 1 to `MAX_CLIENTS` clients, with at most one retirement under way.
#[derive(Debug, Drop)]
pub struct Host {
    /// How many tags each client has.
    tags: usize,
    clients: Vec<HostClient>,
    /// The clients that may have a TD that is left over.
    marks: Marks<CLIENT_WORDS>,
    retirement: Option<Retirement>,
}

impl Model for Host {
    ghost use Rattle.uas_host.specs.Left.{AreMarked};
    ghost use Rattle.uas_host.specs.State.{HostState, IsHost};

    ghost Value = { HostState };

    ghost view = { λ host. record { tags = host.tags; clients = host.clients.items; retirement = host.retirement } };

    ghost invariant = { λ host. IsHost (record { tags = host.tags; clients = host.clients.items; retirement = host.retirement })
        × AreMarked host.marks host.clients.items };
}
