//! What the two libraries for C have in common: records in place of values, units in a handle, and the proof of a handle's exports.
//!
//! | File | What |
//! |---|---|
//! | handle.rt | [`hand_out_made`], what was made handed out as a pointer |
//! | operation.rt | [`UasOperation`], an operation of SCSI, and its conversions both ways |
//! | sense.rt | sense data in a room of fixed size |
//! | shown.rt | [`show`], a look at a unit's blocks |
//! | text.rt | [`put_unit`], an information unit as its bytes |
//! | faults.rt | the number of each fault |
//! | trb.rt | [`trb::UasTrb`], a TRB as a record |
//! | units.rt | [`UasBadBlock`], units of zeros or from an image, and handles of what is made of them |
//!
//! What is promised: [`open_handle`] makes units exactly as `opened_units` of `specs/Units.antt` says, each of its own part of the image and
//! its own bad blocks, answers the first fault of those that `units_fault` lists, and at 0 has put at the handle a value made of these units,
//! which is the caller's (`specs/HandedOut.antt`); [`show`] copies exactly the blocks that are asked for, or none
//! (`specs/Shown.antt`); a record names one operation or has a fault (`specs/OperationRecord.antt`).
//!
//! A handle in C is a pointer. `specs/Handed.antt` says what memory a call of one is handed, and `proofs/Called.antt` and
//! `proofs/Closed.antt` prove, once for every handle, that an export which lends that memory to a function meets its contract, and one
//! that ends a handle. `specs/Door.antt` has the words for what a call through a door makes.
//!
//! It stands on `block_unit`, `scsi_cmd` and `xhci_trb` by their contracts alone.
#![tactic(auto)]

pub mod faults;
mod handle;
mod operation;
mod sense;
mod shown;
mod text;
pub mod trb;
mod units;

pub use handle::{hand_out, hand_out_made};
pub use operation::{UasOperation, read_operation, record_of};
pub use sense::padded;
pub use shown::{ShownFaults, show};
pub use text::put_unit;
pub use units::{OfUnits, UasBadBlock, UnitsFault, new_handle, open_handle, opened_units};
