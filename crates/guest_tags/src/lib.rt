//! The device behind the pipes of a controller over a caller's memory, and the steps of data-in and status for one of its tags: one
//! TRB or one chunk a step (xHCI 1.2, 4.9 to 4.11).
//!
//! **The device** is a trait, [`UasDevice`], whose meaning is its ghost members: a state, and what each call makes of it.
//!
//! **Data-in.** What the device gives for a tag is taken from it one chunk at a time into the tag's buffer, and from there into
//! TRBs: a step moves the lesser of what is left of the chunk and of the TRB. Once the task has ended by a status and nothing of the
//! chunk is left, it ends one TD at most as a short packet: the one that has its last byte, or, where it gave none, the one in front.
//! Where a buffer isn't there, what the task still gives is to be dropped.
//!
//! **Status.** An information unit is taken when a Normal TRB is in front of the ring: the answer to an overlap first (a Response with
//! 0Ah), then the task's answer, where that is due. It goes into the TD: full TRBs, then a short packet. Where the TD is shorter, it
//! ends with Babble Detected, the endpoint halts, and the information unit goes from its start into the next TD. So it does where a
//! buffer isn't there.
//!
//! What is promised: a step is one equation, `stepped_in` or `stepped_status`, over the memory's bytes, the event ring, the consumer,
//! the tag and the device. A step that is refused changes nothing. No step takes memory.
//!
//! It stands on `guest_pipes` for what all pipes have in common, and on `uas_iu` for the bytes of a Response.
#![tactic(auto)]

mod buffer;
mod chunk;
mod data_in;
mod device;
mod gather;
mod sending;
mod status;
mod tag;
mod unit;
mod wanting;

pub use buffer::Buffer;
pub use chunk::Chunk;
pub use device::{End, Phase, Received, UasDevice};
pub use gather::Gather;
pub use tag::Tag;
pub use unit::Unit;
pub use wanting::moving;
