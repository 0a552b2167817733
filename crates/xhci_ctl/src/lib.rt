//! The controller's side of the rings between a host and a USB Attached SCSI device (xHCI 1.2, 4.6 to 4.12): one TRB a step.
//!
//! ```text
//!   host --doorbell--> armed stream
//!                          |
//!   command pipe -- command_step --> device      one Command unit, event Success
//!   data streams -- data_step ----> <device      one chunk, event Success at the TD's last TRB
//!   status stream - status_step --- <device      one Sense or Response unit, event Short Packet
//!
//!   command ring -- engine_step --> endpoint     Stop Endpoint, Set TR Dequeue Pointer, event with the command's code
//! ```
//!
//! Doorbells (4.7, 5.6): a value has its target in bits 7:0 and its stream in 31:16. A target is the endpoint ID of a pipe: 3
//! is status, 4 data-out, 5 data-in. A doorbell arms its stream and starts the endpoint, and stays rung when the ring empties.
//! The value 0, another target, a bit set in 15:8 and a stream without a ring change nothing.
//!
//! Armed (4.12): a stream was rung since the last stop of its pipe, the pipe's endpoint runs, and the stream's ring has a
//! pending TRB. The command pipe has one ring, always runs and counts as rung.
//!
//! Stop and doorbell (4.6.9, 4.6.10, 4.11): Stop Endpoint takes effect between two TRBs, as each step moves a whole one. It
//! stops the endpoint and disarms all streams of its pipe; what is pending stays pending. A doorbell arms its one stream and
//! starts the endpoint again. Only while the endpoint is stopped may Set TR Dequeue Pointer move the consumer's end of a
//! stream's ring, to a pending TRB or to the enqueue place, and the stream's context with it. Stop Endpoint on an endpoint that
//! is stopped, and Set TR Dequeue Pointer on one that runs, are answered with Context State Error and change nothing.
//!
//! A step: it takes the front TRB of its one ring, if that is armed and the event ring has room, moves that TRB's bytes between
//! the host's memory and the device, consumes the TRB and posts its event. A step that isn't due is Idle and changes nothing.
//! The device decides what it wants next on a tag, so data moves at the device's pace. A chunk that meets a bad block leaves
//! the TRB where it is and posts nothing. The command ring needs no doorbell; its TRB is consumed whatever its code.
//!
//! Events (6.4.2): the TRB's address; slot 1; of a transfer the endpoint ID, residual 0 and code Success, or for a status what
//! its buffer of 112 (`STATUS_BYTES`) bytes has left and code Short Packet; of a command its code.
//!
//! What is promised: each call is one equation. What a step makes of rings, memory and device, and its answer, are `commanded`,
//! `moved` and `sent_by` of `specs/Steps.antt`; [`Controller::engine_step`] is `engine_acted` of `specs/Engine.antt` over
//! controller and rings; [`Controller::doorbell`] is `rung_by` for every value. So it is where the TRB in front is one to carry out
//! (`specs/Own.antt`); any other bytes in front of a ring are stepped over (`stepped_over`). No call takes memory, and none scans
//! a list.
//!
//! It stands on `stream_array` for the rings, `frame_store` for the host's memory, and `uas_target` for the device, and knows
//! neither the host nor the clients.
#![tactic(auto)]

mod engine;
mod own;
mod pipes;
mod steps;

use std::marker::Model;
pub use uas_profile::PipeState;

/// The controller: its three pipes with streams.
#[derive(Debug, Drop)]
pub struct Controller {
    status: PipeState,
    data_in: PipeState,
    data_out: PipeState,
}

impl Model for Controller {
    ghost use Rattle.xhci_ctl.specs.Pipes.{ControllerState};

    ghost Value = { ControllerState };

    ghost view = { λ controller. record { status = controller.status; data_in = controller.data_in; data_out = controller.data_out } };
}

/// What came of a step.
#[derive(Clone, Copy, Debug, PartialEq, Eq)]
pub enum Acted {
    /// It acted on this tag; 0 of a command of the controller's own, and where the command pipe brought what began no task.
    Acted(u16),
    /// It wasn't due, and nothing changed.
    Idle,
}
