//! TRB rings in memory that a caller owns (xHCI 1.2, 4.9 and 6.4).
//!
//! A ring's consumer stands at a dequeue pointer with a cycle state. A TRB there is the consumer's where its Cycle bit is the
//! cycle state; else it isn't there yet. Behind a TRB the consumer stands 16 bytes on; a Link leads to its pointer, and
//! toggles the cycle state where its TC is set (4.9.2). The consumer's end is kept where the standard has it: of a stream in
//! its stream context, beside the type SCT (6.2.4.1), of an endpoint without streams in the dequeue pointer of its output
//! endpoint context (6.2.3); the command ring's is its owner's [`Cursor`].
//!
//! The producer of an event ring's segment (4.9.4) writes each event with its own cycle state, which toggles at the segment's
//! end. One place always stays empty, and an ordinary event asks for two free places, so that Event Ring Full Error finds one.
//!
//! What is promised: [`fetch`] is `fetched`, [`look`] is `looked`, and [`EventRing::post`] is `written` and `enqueued`, over the
//! memory's bytes. Bytes are read once and decided on that copy. Reserved bits are ignored, as hardware does.
//!
//! It reads TRBs by its own definition ([`PipeTrb`]): those that no driver of the repository's own puts are among them, of types 7 and 8
//! and of any length up to 65,536.

mod context;
mod cursor;
mod event;
mod event_ring;
mod trb;
mod wanting;
mod words;

pub use context::{Found, Front, Home, look, stand};
pub use cursor::{Cursor, fetch};
pub use event::Event;
pub use event_ring::{EventRing, EventRingParts};
pub use trb::{Flags, PipeTrb, read_trb};
pub use wanting::{Range, look_wants, part_wants};
pub use words::Words;
