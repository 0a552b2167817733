//! The other half of a bus: what stands behind a driver, to be driven by one's own bytes (xHCI 1.2, 4.6 to 4.12; INCITS 471).
//!
//! ```text
//!   driver --put_raw, doorbell--> rings --step--> controller <--units, data--> device
//!      ^                                              |
//!      +-------------------- take_event --------------+
//! ```
//!
//! A [`Machine`] is rings, stream contexts, buffers, an xHCI controller and a USB Attached SCSI device, without a host. It is for
//! authors of drivers: a driver puts any 16 bytes on a ring, writes doorbells, and takes events. The ring sees to the Cycle bit
//! and to its Link TRB (4.9.2, 4.11.5.1); all other bits are the driver's, and none is asked to be right.
//!
//! - *Rings* lie where `stream_array` says: that of stream s of pipe n at 40000000h + 1000000h n + 1000h s, the command pipe's
//!   (n 1) with s 0; the controller's own command ring at 50000000h. A place that the controller has consumed is used again once
//!   the driver gave it back ([`Machine::reclaim`]).
//! - *Buffers* are `frame_store`'s: of tag t the command buffer at 10000000h + 100h t, the status buffer at 20000000h + 100h t,
//!   and what is lent for t at 100000000h + 10000h t. Streams and buffers are those of tags 1 to 248.
//! - *Steps* happen only where one is called for: one TRB each. A TRB that a step can't carry out is *foreign*, and so are bytes
//!   that are no TRB: it is stepped over, with an event of completion code 5, TRB Error.
//!
//! What is promised: safe and total. No call asks anything of the bytes on a ring, of an address or of a doorbell, and each call is
//! one equation: what it makes of the machine, and its answer, are the function of its name in specs/Calls.antt and
//! specs/Steps.antt. A refused call ([`Refusal`]) leaves the machine as it was. [`Machine::with_tags`] takes all memory, and no other
//! call takes any.
//!
//! It stands on `stream_array` for the rings, `frame_store` for the buffers, `xhci_ctl` for the controller and `uas_target` for the
//! device, by their contracts alone, and says nothing that they don't.
#![tactic(auto)]

ghost use Rattle.std.specs.Prelude.{◌≡◌, ◌≤◌, vec_len, IfOk};
ghost use Rattle.uas_controller.specs.Machine.{IsOpening};

mod memory;
mod rings;
mod steps;

use block_unit::Unit;
use frame_store::Frames;
use std::alloc::{AllocError, Global};
use std::marker::Model;
use stream_array::Lines;
use thiserror::Error;
use uas_profile::{GREATEST_TAG, MAX_CLIENTS, STREAMS};
use uas_target::Target;
use xhci_ctl::Controller;

/// Why a call was refused.
#[derive(Clone, Copy, Debug, Drop, Error, PartialEq, Eq)]
pub enum Refusal {
    /// No pipe has this ring: a pipe with streams has one for each stream from 1 to 248, the command pipe one, stream 0.
    #[error("there is no such ring")]
    NoRing = 1,
    /// All of the ring's places hold items that weren't given back.
    #[error("the ring has no room")]
    Full,
    /// A byte is in no buffer, or two are in different ones.
    #[error("the bytes are not all in one buffer")]
    BadAddress,
    /// Tags that have buffers are those from 1 to 248.
    #[error("the tag has no buffers")]
    NoTag,
    /// A loan has at most 65,536 bytes, and ends where there is room for all of it.
    #[error("there are too many bytes")]
    TooLong,
    /// A tag has one loan at a time.
    #[error("something is lent for the tag already")]
    AlreadyLent,
    /// There is no loan to end.
    #[error("nothing is lent for the tag")]
    NotLent,
    /// The controller didn't consume an item at this address, or it was given back since.
    #[error("no consumed item is at the address")]
    NotConsumed,
}

/// Rings, buffers, an xHCI controller and a device.
#[derive(Debug, Drop)]
pub struct Machine {
    lines: Lines,
    frames: Frames,
    controller: Controller,
    target: Target,
}

impl Model for Machine {
    ghost use Rattle.uas_controller.specs.Machine.{MachineState};

    ghost Value = { MachineState };

    ghost view = { λ machine. record { lines = machine.lines; frames = machine.frames; controller = machine.controller; device = machine.target } };
}

impl Machine {
    /// A machine whose device has these logical units, 1 to 31 (`MAX_CLIENTS`), and whose tasks may have the tags from 1 to 240
    /// (`GREATEST_TAG`). Rings and buffers are zeros, every endpoint runs and no doorbell was rung. The error is want of memory.
    pub fn new(alloc: Global, units: Vec<Unit>) -> Result<Machine, AllocError>
        requires some { 1 ≤ vec_len units }
        requires most { vec_len units ≤ MAX_CLIENTS }
        ensures { IfOk result (IsOpening GREATEST_TAG units.items) }
    {
        Machine::with_tags(alloc, units, GREATEST_TAG)
    }

    /// The same with tasks of the tags from 1 to `tags`, at most 248 (`STREAMS`): a bus's controller has as many.
    pub fn with_tags(alloc: Global, units: Vec<Unit>, tags: u16) -> Result<Machine, AllocError>
        requires some { 1 ≤ vec_len units }
        requires most { vec_len units ≤ MAX_CLIENTS }
        requires tags { tags ≤ STREAMS }
        ensures { IfOk result (IsOpening tags units.items) }
    {
        let target = Target::with_tags(alloc, units, tags)?;
        Ok(Machine {
            lines: Lines::new(alloc)?,
            frames: Frames::new(alloc)?,
            controller: Controller::new(),
            target,
        })
    }

    /// The device: its logical units as a READ of this moment would give them, and what it does next on each tag.
    pub fn device(&self) -> &Target
        ensures { result.now ≡ self.now.device }
    {
        &self.target
    }
}
