//! The two OUT pipes of a USB Attached SCSI device over a caller's memory: commands and data-out, one TRB a step (xHCI 1.2, 4.9 to
//! 4.11).
//!
//! **Command pipe.** The bytes of one TD are one information unit. They are gathered up to 1,024, which is longer than any kind of
//! information unit, so what is above is dropped; at the TD's last TRB the device receives them. Where a buffer isn't there, nothing
//! comes of the TD.
//!
//! **Data-out.** TRBs fill a tag's chunk, and a chunk that is full goes to the device in the same step. A chunk that the device
//! doesn't take leaves its last TRB where it is, and the TD waits, without an event. After GOOD the rest of a TD that was begun is
//! dropped, its TRBs consumed as if their bytes had moved.
//!
//! With Immediate Data (IDT) and a length up to 8 the bytes are the TRB's pointer field (6.4.1.1).
//!
//! What is promised: [`command_step`] and [`data_out_step`] are one equation each, `stepped_command` and `stepped_out`, over the
//! memory's bytes, the event ring, the consumer, what is gathered and the device. A step that is refused changes nothing.
//!
//! It stands on `guest_pipes` for what all pipes have in common, and on `guest_tags` for the device and the gathered bytes.
#![tactic(auto)]

mod command;
mod data_out;
mod handing;
mod immediate;
mod wanting;

pub use command::command_step;
pub use data_out::data_out_step;
pub use immediate::{draw, is_immediate};
pub use wanting::{command_wants, data_out_wants};
