//! What a controller does at the end of a pipe's ring in a caller's memory, whichever pipe it is (xHCI 1.2, 4.9 to 4.11).
//!
//! A consumer serves the ring of one stream, or of an endpoint without streams, one TRB a step:
//!
//! - A TRB that is full is consumed; with IOC it posts Success.
//! - A Link is followed: its pointer, and its TC toggles the cycle state; with IOC it posts Success. Its Chain bit isn't looked at.
//! - A No Op is consumed; with IOC it posts Success.
//! - An Event Data TRB posts, with IOC, its parameter, EDTLA and the code that its TD ended with. EDTLA starts again, posted or not.
//! - A TD that ends as a short packet posts Short Packet at the TRB in front where that has ISP or IOC, else at its last TRB where
//!   that has IOC; what is between is skipped, and a No Op there posts nothing.
//! - A TRB whose buffer isn't there posts Data Buffer Error with its length, and the rest of its TD is skipped.
//! - Bytes that are no TRB of a pipe post TRB Error; the consumer stays there and the endpoint is in error.
//! - A stream context of another type than 1 posts Invalid Stream Type, a stream that isn't there Invalid Stream ID; the endpoint
//!   halts.
//! - Where nothing can serve a ring's bytes, as of a pipe without streams, a Normal TRB of a TD that hasn't ended is told with what is left
//!   of it; the consumer stays there, and the endpoint halts.
//!
//! What the standard calls opaque is [`Progress`]: how many bytes of the TRB in front were moved, how its TD goes on, and EDTLA. It
//! stays over a stop, so that a TD goes on where it was, and is forgotten where the dequeue pointer is set.
//!
//! What is promised: each function is the definition of its name in `specs/Step.antt`, over memory, event ring and consumer. What
//! can be missing is asked before the first change, as `requires`, so none of them is refused in the middle.
//!
//! It stands on `guest_memory`, for the bytes and for the TRBs, contexts and events in them.
#![tactic(auto)]

mod acted;
mod consumer;
mod gate;
mod orders;
mod pipe;
mod progress;
mod step;
mod unserved;
mod wanting;

pub use acted::Acted;
pub use consumer::{Consumer, EndpointState};
pub use gate::room_gate;
pub use pipe::{Pipe, PipeHead, STREAM_CONTEXTS};
pub use progress::{Ending, Progress};
pub use step::there;
pub use wanting::place_range;
