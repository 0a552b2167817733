//! Endpoint 0 of a USB Attached SCSI disk over a caller's memory: control transfers as TDs (xHCI 1.2, 3.2.9 and 4.11.2.2).
//!
//! A control transfer is two or three TDs: a Setup Stage, a Data Stage where the request has data, and a Status Stage. One TRB is taken a
//! step. The rules:
//!
//! 1. A Setup Stage TRB has eight bytes of immediate data. The disk does what they ask at once, and keeps its answer. SET_ADDRESS is TRB
//!    Error: the controller addresses the device itself (4.6.5).
//! 2. A Data Stage TD to the host takes the bytes of the answer. Where they don't fill it, it ends as a short packet, and the Status Stage
//!    goes on. Bytes to the device mean nothing.
//! 3. A request that the disk refuses is a Stall Error at the Data Stage, or without data at the Status Stage; the endpoint halts.
//! 4. A Setup Stage in place of another stage begins a new transfer. A Data or Status Stage without a Setup Stage is TRB Error.
//! 5. Where nothing answers on the bus, a TRB that moves bytes is told with what is left of it, and the endpoint halts.
//! 6. Link, No Op and Event Data TRBs are those of any pipe, as `guest_pipes` has them, and so is a buffer that isn't there.
//!
//! What is promised: a step is one equation, `stepped` of specs/Steps.antt, over the memory's bytes, the event ring and the pipe, for any
//! bytes; a step that is refused changes nothing. So are the calls by which the controller's commands change the pipe. It tells whether a
//! request ended every task of the disk ([`Served`]), and before a step what memory that lacks ([`ControlPipe::wants`]). It stands on
//! `guest_pipes` and `usb_disk`.
#![tactic(auto)]

mod acts;
mod pipe;
mod served;
mod stage;
mod trb;
mod unanswered;
mod wanting;

pub use pipe::{ControlPipe, Served};
pub use stage::{AnswerBytes, Given, Stage};
pub use wanting::{what_is_wanted_is_not_there, what_lacks_nothing_is_taken};
