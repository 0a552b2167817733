//! The half of a bus before a controller of one's own: a USB Attached SCSI driver, its rings and buffers (xHCI 1.2, 4.6 to 4.12).
//!
//! ```text
//!   clients --submit, task, retire--> driver --doorbells--> controller beyond
//!      ^                              |    ^                    |       |
//!      +--------- take_reply ---------+    +---- take_event ----+       |
//!                                     |                                 |
//!                           rings, contexts, buffers <--item, context, read, write
//! ```
//!
//! A [`Driver`] is the host driver of 1 to 15 clients with rings, stream contexts and buffers, and no controller. It is for authors of
//! controllers and of virtual machines: their own controller is given doorbells, reads by address what they are of, writes data and
//! status units, and hands events in.
//!
//! - *Doorbells* (4.7, 5.6) are what a call leaves in its last argument, in the order in which they are to be written: endpoint ID in
//!   bits 7:0, stream in bits 31:16, and 0 for the controller's own command ring.
//! - *Addresses* are those of `stream_array` and `frame_store`: the ring of stream s of pipe n at 40000000h + 1000000h n + 1000h s, the
//!   command pipe's (n 1) with s 0, the controller's own command ring at 50000000h; of tag t the command buffer at 10000000h +
//!   100h t, the status buffer at 20000000h + 100h t, and the vector of its command at 100000000h + 10000h t.
//! - *Events* (4.11.3) alone tell the driver how far the controller beyond came. What a transfer event means for the TRB at its pointer is
//!   [`meaning_of`], by the completion codes of 6.4.5: Success consumes it and those before it; a short packet ends the whole TD; between
//!   Stop Endpoint and its event the three Stopped codes consume nothing; the errors say that the TD failed, and whether its endpoint is
//!   halted. What ends a TD is handed to the host as it knows it. An event of no TRB of a TD that is pending or begun, of no pending
//!   command, of another endpoint or slot, or of another code is *stray*: nothing changes, and it is counted.
//! - *Recovery* (4.6.8 to 4.6.10, 4.8.3): an endpoint that is halted, or a TD that is to be taken off, begins it. Stop Endpoint, or Reset
//!   Endpoint where the endpoint is halted; Set TR Dequeue Pointer behind each TD that is to be taken off; then the doorbells of all
//!   streams that wait, in rising order. One is under way at a time, the host's own retirement too. A Stop Endpoint that is answered with
//!   Context State Error is read by what events and doorbells said before, and where they said nothing the endpoint's state is asked for
//!   ([`Driver::wanted_state`]). A Set TR Dequeue Pointer that is refused twice gives the pipe up, as does a Stop Endpoint whose endpoint is
//!   told to run twice: every command on it has failed, no doorbell of it is written any more, and no submission is taken. The device is
//!   to be reset then, and a new driver made.
//! - *Ended commands*: a command of which a TD failed, or that its client gave up, is ended once all its TDs are off their rings. Where the
//!   device's status comes before, its answer is the device's; else it is [`Answer::Failed`] or [`Answer::Aborted`].
//!
//! What is promised: safe and total, whatever the controller beyond does. It may post any event, twice or never, and write any byte of
//! a buffer. No call asks anything of it, and each call is one equation: what it makes of the driver, its answer and its doorbells
//! are the function of its name in specs/Calls.antt and specs/Telling.antt. A refused call ([`Refusal`]) leaves the driver as it was and
//! gives no doorbell. [`Driver::new`] takes all memory, and no other call takes any. Not proved: that each command has an
//! answer in the end.
//!
//! Where the host asks for room on a ring, or that nothing is lent for a tag, the driver tests it and refuses: a controller that posts no
//! events gives no places back. The host's own promises, which events it takes for which command and what they leave over, stand in
//! `uas_host` and hold here of what it is handed.
//!
//! It stands on `uas_host` for the host, on `stream_array` for the rings and on `frame_store` for the buffers, by their contracts alone,
//! and says nothing that they don't.
#![tactic(auto)]

ghost use Rattle.std.specs.Prelude.{◌≡◌, ℕ, ◌*◌, ◌<◌, ◌≤◌, true, false, IfOk, IfSome, IfNone, is_some, length, slice_get};
ghost use Rattle.uas_profile.specs.declared.TheConstants.{STREAMS};
ghost use Rattle.uas_profile.specs.Tags.{AreTags};
ghost use Rattle.uas_host.specs.NextReply.{next_len};
ghost use Rattle.uas_host.specs.Retirement.{is_left_over_on};
ghost use Rattle.uas_host.specs.State.{client_of};
ghost use Rattle.uas_driver.specs.Driver.{IsOpening};

mod calls;
mod codes;
mod endings;
mod events;
mod giving_back;
mod memory;
mod recovery;
mod retiring;
mod rings;
mod room;
mod states;
mod steps;
mod taking;
mod telling;

use crate::states::{End, Endpoints, Recovery};
use arrayvec::ArrayVec;
pub use codes::meaning_of;
use frame_store::Frames;
use scsi_cmd::{Buffer, MAX_SENSE_BYTES, SubmitFault};
use std::alloc::{AllocError, Global};
use std::marker::Model;
use stream_array::{Lines, Pipe};
use thiserror::Error;
use uas_host::Host;
use uas_profile::{MAX_CLIENTS, STREAM_ENTRIES, TAGS, USUAL_CLIENTS};

/// Want of memory, the one refusal of a constructor.
pub type NoMemory = AllocError;

/// Why a call was refused.
#[derive(Clone, Copy, Debug, Drop, Error, PartialEq, Eq)]
pub enum Refusal {
    /// Tickets are below 2^60.
    #[error("the ticket is too great")]
    BadTicket,
    /// A ring that is needed has too few places that were given back, or a vector is lent for the tag already.
    #[error("the rings and buffers have no room")]
    NoRoom,
    /// A byte is in no buffer, or two are in different ones.
    #[error("the bytes are not all in one buffer")]
    BadAddress,
    /// Contexts are those of streams 1 to 248 of a pipe with streams; of a submission, a pipe was given up.
    #[error("there is no such ring")]
    NoRing,
    /// The host refused the submission.
    #[error("{0}")]
    Fault(SubmitFault),
}

/// What a transfer event means for the TRB at its pointer (xHCI 4.10.1, 4.6.9 and table 6-90).
#[derive(Clone, Copy, Debug, PartialEq, Eq)]
pub enum Meaning {
    /// The TRB is consumed, and those of its TD before it.
    Consumed,
    /// The TRB isn't consumed: its endpoint is being stopped, and the TD goes on after a doorbell.
    NotConsumed,
    /// The TD has ended, and not all of it was moved.
    EndedShort,
    /// The TD failed. Its endpoint is halted, or runs on.
    Failed { halted: bool },
    /// Nothing.
    Stray,
}

/// What the driver made of an event.
#[derive(Clone, Copy, Debug, PartialEq, Eq)]
pub enum Taken {
    /// It ended a TD of this tag.
    Matched(u16),
    /// It was of the command under way on the controller's command ring.
    Engine,
    /// It was of a TD or of a command that isn't over by it.
    Noted,
    /// It was of nothing that is pending. Nothing changed, but that it is counted.
    Stray,
}

/// What an endpoint does (xHCI 4.8.3).
#[derive(Clone, Copy, Debug, PartialEq, Eq)]
pub enum EndpointState {
    Running,
    /// Halted, or in state Error.
    Halted,
    Stopped,
}

/// Why the driver ended a command itself.
#[derive(Clone, Copy, Debug, PartialEq, Eq)]
pub enum Cause {
    /// One of its TDs failed, with this completion code.
    Failed(u8),
    /// Its client gave it up.
    GivenUp,
}

/// What a submission came to. `moved` is how many bytes of its data TD the controller beyond told to be moved.
#[derive(Debug, Drop)]
pub enum Answer {
    /// A command's status (GOOD without sense, else CHECK CONDITION), and its buffer as filled.
    Status {
        tag: u16,
        ticket: u64,
        status: u8,
        sense: ArrayVec<u8, MAX_SENSE_BYTES>,
        buffer: Buffer,
        moved: u32,
    },
    /// A command that a task management ended or that its client gave up, and its buffer as filled so far.
    Aborted {
        tag: u16,
        ticket: u64,
        buffer: Buffer,
        moved: u32,
    },
    /// A command, or a task management, of which a TD failed with this completion code before the device's answer came; a command's
    /// buffer as filled so far.
    Failed {
        tag: u16,
        ticket: u64,
        code: u8,
        buffer: Option<Buffer>,
        moved: u32,
    },
    /// The response code of a task management.
    Task {
        tag: u16,
        ticket: u64,
        code: u8,
    },
}

/// A host, rings and buffers.
#[derive(Debug, Drop)]
pub struct Driver {
    host: Host,
    lines: Lines,
    frames: Frames,
    /// How many bytes of its data TD were moved, by each tag.
    moved: [u32; STREAM_ENTRIES],
    /// How many events were stray.
    strays: u64,
    /// Why the command of a tag is ended, where it is.
    ends: [Option<End>; STREAM_ENTRIES],
    /// How many are.
    ending: usize,
    endpoints: Endpoints,
    /// The recovery that is under way, the host's own retirement too.
    recovery: Option<Recovery>,
    /// Whether a pipe was given up.
    given_up: bool,
}

impl Model for Driver {
    ghost use Rattle.uas_driver.specs.Driver.{DriverState};

    ghost Value = { DriverState };

    ghost view = { λ driver. record {
      host = driver.host;
      lines = driver.lines;
      frames = driver.frames;
      moved = driver.moved;
      strays = driver.strays;
      ends = driver.ends;
      ending = driver.ending;
      endpoints = driver.endpoints;
      recovery = driver.recovery;
      given_up = driver.given_up;
    } };
}

impl Driver {
    /// A driver of so many clients, 1 to 15 (`USUAL_CLIENTS`), with 16 tags each (`TAGS`), that have submitted nothing. Rings and buffers
    /// are zeros. The error is want of memory.
    pub fn new(alloc: Global, clients: usize) -> Result<Driver, NoMemory>
        requires some { 1 ≤ clients }
        requires most { clients ≤ USUAL_CLIENTS }
        ensures { IfOk result (IsOpening TAGS clients) }
    {
        Driver::with_tags(alloc, clients, TAGS)
    }

    /// The same of 1 to 31 (`MAX_CLIENTS`) clients with another number of tags each, 2 to 16. Each tag has its streams, of which there are
    /// 248.
    pub fn with_tags(alloc: Global, clients: usize, tags: usize) -> Result<Driver, NoMemory>
        requires number { AreTags tags }
        requires some { 1 ≤ clients }
        requires most { clients ≤ MAX_CLIENTS }
        requires streams { clients * tags ≤ STREAMS }
        ensures { IfOk result (IsOpening tags clients) }
    {
        Ok(Driver {
            host: Host::with_tags(alloc, clients, tags)?,
            lines: Lines::new(alloc)?,
            frames: Frames::new(alloc)?,
            moved: [0; STREAM_ENTRIES],
            strays: 0,
            ends: [None; STREAM_ENTRIES],
            ending: 0,
            endpoints: Endpoints {
                command: EndpointState::Running,
                status: EndpointState::Running,
                data_in: EndpointState::Running,
                data_out: EndpointState::Running,
            },
            recovery: None,
            given_up: false,
        })
    }

    /// How many clients it has.
    pub fn clients(&self) -> usize
        ensures { result ≡ length self.now.host.clients }
    {
        self.host.clients()
    }

    /// How many tags each client has, 2 to 16; the last of them is kept for task management.
    pub fn tags(&self) -> usize
        ensures tags { result ≡ self.now.host.tags }
        ensures number { AreTags result }
    {
        self.host.tags()
    }

    /// How many events were stray.
    pub fn strays(&self) -> u64
        ensures { result ≡ self.now.strays }
    {
        self.strays
    }

    /// Whether a reply is ready for a client. None is for a client that isn't there.
    pub fn has_reply(&self, client: usize) -> bool
        ensures { result ≡ is_some (slice_get (client_of self.now.host client).ready.items 0) }
    {
        self.host.has_reply(client)
    }

    /// How many bytes the next reply of a client brings: 0 where none is ready, and where a task management's is next.
    pub fn next_len(&self, client: usize) -> usize
        ensures { result ≡ next_len self.now.host client }
    {
        self.host.next_len(client)
    }

    /// Whether the TD of a tag on a pipe is left over (4.6.9): its event can't come any more, and its TRBs may be on their ring.
    pub fn is_left_over(&self, pipe: Pipe, tag: u16) -> bool
        ensures { result ≡ is_left_over_on self.now.host pipe tag }
    {
        self.host.is_left_over(pipe, tag)
    }

    /// The least tag above this one whose TD on a pipe is left over, and so is to be retired.
    pub fn next_left_over(&self, pipe: Pipe, tag: u16) -> Option<u16>
        ensures next { IfSome result (λ next. (tag < next) × (next ≤ length self.now.host.clients * self.now.host.tags)
            × (is_left_over_on self.now.host pipe next ≡ true)
            × ((other : ℕ) → tag < other → other < next → is_left_over_on self.now.host pipe other ≡ false)) }
        ensures none { IfNone result ((other : ℕ) → tag < other → is_left_over_on self.now.host pipe other ≡ false) }
    {
        self.host.next_left_over(pipe, tag)
    }
}
