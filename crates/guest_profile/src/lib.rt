//! Laws: over a memory that is laid out as the profile lays it out, the controller over a caller's memory takes the steps of the
//! profile's (xHCI 1.2, 4.9, 4.11 and 4.12).
//!
//! The profile's controller (`xhci_ctl`) has rings as lists of items at fixed addresses, and buffers by tag. The other
//! (`guest_transfers`) has one memory, byte by byte, and keeps each consumer's end in a context there. A memory is laid out
//! (`IsLaid`, specs/Layout.antt) where it holds the bytes of those rings, events and buffers at the map's addresses, and in contexts
//! beside the map the dequeue pointer of each ring, at its first pending item or at the Link before it. Both mirror each other
//! (`Mirrors`, specs/Steps.antt) where it is laid out with the profile's lists and both have the same device, here by [`target`].
//!
//! ```text
//!            profile:  lists ── step ──> lists        the command pipe, a status stream, data-in, data-out
//!                       │                  │
//!                     laid out           laid out
//!                       │                  │
//!            memory:   bytes ── step ──> bytes        beside these: a Link is followed, a doorbell is used up
//! ```
//!
//! From below: [`consumers_agree`] and [`ends_are_found`] read the same TRB in front of a ring, [`producers_agree`] writes the same
//! 16 bytes of an event in the same place. [`commands_agree`], [`answers_agree`], [`chunks_in_agree`] and [`chunks_out_agree`] are the
//! steps. [`opens_laid_out`] and [`host_keeps_layout`] say that there is such a memory, and [`steps_have_states`] that what the
//! steps' laws ask is met.
//!
//! Where both differ, over the same bytes: the profile's event ring takes one event more (`HasRoom`); an information unit whose tag
//! has a task is answered by the one with OVERLAPPED TAG ATTEMPTED on the tag's status stream, and by the profile's not at all
//! (`pipes` of `TakesCommand`); and of a status TRB that isn't 112 bytes long the profile's controller tells what 112 would have left
//! (`status_event`). The profile's host makes none of these.
#![tactic(auto)]

mod data_laws;
mod event_laws;
mod opening_laws;
mod ring_laws;
mod step_laws;
pub mod target;

pub use data_laws::{chunks_in_agree, chunks_out_agree};
pub use event_laws::producers_agree;
pub use opening_laws::{host_keeps_layout, opens_laid_out, steps_have_states};
pub use ring_laws::{consumers_agree, ends_are_found};
pub use step_laws::{answers_agree, commands_agree};
