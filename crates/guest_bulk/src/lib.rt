//! Bulk-Only Transport over a caller's memory: Bulk-Out and Bulk-In at the ends of two rings without streams (USB Mass Storage Class, Bulk-Only
//! Transport 1.0, "BOT"; xHCI 1.2, 4.9 to 4.11).
//!
//! ```text
//!     Bulk-Out:  CBW (one TD)   data to the device (H bytes, any TDs)
//!     Bulk-In:                  data to the host (H bytes, any TDs)     CSW (one TD)
//! ```
//!
//! [`Bulk`] is what is kept of it: whether a CBW is awaited, data move, or a CSW goes out. A step of a pipe takes one TRB, or a chunk of one:
//!
//! 1. A CBW is the bytes of one TD on Bulk-Out with a Normal TRB, if only one of 0 bytes. Bytes that aren't a valid one (6.2.1) halt both
//!    endpoints, and they stay halted until the reset ([`Bulk::is_reset_due`], 6.6.1).
//! 2. It becomes Command of tag 1, the only task of the device behind. Bits 7:5 of CDB byte 1 are cleared where they are the
//!    logical unit's number.
//! 3. H bytes move on the pipe that the CBW's flag names, over any TDs. Where the device gives fewer, zeros follow (6.7.2); where it takes fewer,
//!    the rest is dropped (6.7.3). A TD that is longer ends as a short packet, or its rest is dropped.
//! 4. The case is that of the thirteen (6.7) which shows once the device ends, gives or takes. Where it takes in place of giving, or gives in
//!    place of taking, the endpoint of the data is halted at once ([`Bulk::break_in`], [`Bulk::break_out`]), and no byte moves. Where the CSW
//!    tells a phase error, the caller ends the device's task ([`Stepped`]).
//! 5. The CSW goes out in one TD. A longer TD ends as a short packet; a shorter one ends with Babble Detected, the endpoint halts, and the next TD
//!    gets it whole. Then a CBW is awaited.
//! 6. The sense data of a CHECK CONDITION are kept with their logical unit. REQUEST SENSE of that unit gives them; any CBW forgets them.
//! 7. Other TDs wait. A TRB whose buffer isn't there ends its TD with Data Buffer Error; the bytes go on in the next TD.
//! 8. At an endpoint that isn't served, as one that the disk has halted, a TRB of a TD whose bytes move is told with a code, and moves none.
//!    Any other TRB is taken as ever: what is left of a TD that has ended, or the No Op that ends a CBW or a CSW
//!    ([`unserved_endpoints_go_on`]).
//!
//! What is promised: [`Bulk::step_out`] and [`Bulk::step_in`] are one equation each, `out_stepped` and `in_stepped` of `specs/Steps.antt`, over the
//! memory's bytes, the event ring, the consumer, the transport and the device. A step that is refused changes nothing, and [`Bulk::wants_out`] and
//! [`Bulk::wants_in`] name the first range that it lacks. H bytes move between a CBW and its CSW, none where H is 0 or the device does the
//! opposite ([`bytes_are_counted`], [`nothing_else_moves`], [`csws_come_last`]).
//!
//! It stands on `guest_pipes` for what all pipes have in common, on `guest_tags` for the device and its chunks, on `guest_out` for the bytes of
//! TRBs, on `uas_iu` for the information unit, on `bulk_only` for wrappers and cases, and on `uas_tasks` for requests
//! ([`through`]).
#![tactic(auto)]

mod breaks;
mod bulk;
mod command;
mod dropping;
mod incoming;
mod laws;
mod outgoing;
mod pouring;
mod requests;
mod status;
mod steps;
mod verdict;
mod wanting;

pub use bulk::{Bulk, BulkCommand, BulkStage, Halting, KeptSense, Stepped};
pub use laws::{
    bytes_are_counted, csws_come_last, empty_cbws_are_faulty, nothing_else_moves, rows_are_begun,
    unserved_endpoints_go_on, what_is_wanted_is_not_there, what_lacks_nothing_is_taken,
};
pub use requests::through;
