//! TRBs and contexts that a host writes for an xHCI controller, and events and states that it reads (xHCI 1.2, 6.2 and 6.4).
//!
//! A TRB is three [`Words`]: the parameter (bytes 0 to 7), the status (8 to 11) and the control word (12 to 15), each low byte
//! first. Control bit 0 is the Cycle bit and bits 15:10 are the type.
//!
//! | Written | By |
//! |---|---|
//! | commands (6.4.3) | [`Command::words`] |
//! | a control transfer (6.4.1.2) | [`SetupPacket::words`], [`DataStage::words`], [`SetupPacket::status_words`] |
//! | data (6.4.1.1) | [`DataTrb::words`] |
//! | the next place of a ring (6.4.4.1) | [`LinkTrb::words`] |
//! | contexts (6.2) | [`input_control`], [`SlotContext::bytes`], [`EndpointContext::bytes`], [`stream_context`] |
//!
//! [`read_event`], [`Completion::of`], [`endpoint_state`] and [`slot_state`] read what the controller wrote. A controller may set
//! reserved bits, so each reader takes any bytes, and none looks at a bit that no field has.
//!
//! What is promised: each text is the definition of its name in specs/, with the fields in the standard's bit positions and 0
//! elsewhere; a value that is wider than its field loses its upper bits, so that no field spoils another. [`laws`] has the round
//! trip of words and bytes and the bytes of a whole bring-up; [`encoded`] says that the TRBs which `xhci_trb` has too are the
//! same there. It takes no memory, and stands on `xhci_trb` and `byteorder`.
#![tactic(auto)]

mod commands;
mod contexts;
pub mod encoded;
mod events;
pub mod laws;
mod transfers;
mod words;

pub use commands::Command;
pub use contexts::{
    ContextSize, Dequeue, EndpointContext, EndpointKind, SlotContext, input_control, stream_context,
};
pub use events::{
    Completion, EndpointState, Event, SlotState, endpoint_state, read_event, slot_state,
};
pub use transfers::{DataStage, DataTrb, LinkTrb, SetupPacket};
pub use words::Words;
