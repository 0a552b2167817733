//! TRBs as C has them (xHCI 1.2, 6.4): one record of fixed layout in place of the enum, and its conversions both ways.
//!
//! [`UasTrb`] has each field of the six types under one name. What is promised: [`record_of`] writes the fields that a TRB has and 0
//! for all others, and [`read_record`] takes exactly the records of which there are bytes: of a type that it knows, whose own fields fit
//! their bits. It answers that TRB with its Cycle bit, else why there is none ([`RecordFault`]), and doesn't look at the fields
//! that the type hasn't. [`fault_number`] is the number of a fault of reading bytes.
//!
//! [`RecordFault`] says of a record of any kind why it names nothing; each kind has two numbers of its own for it.
//!
//! It goes by the contracts of `xhci_trb` alone, and takes no memory.

mod fault;
mod trb;

pub use fault::RecordFault;
pub use trb::{UasTrb, fault_number, read_record, record_of};
