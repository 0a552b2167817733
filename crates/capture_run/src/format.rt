//! USB traffic as pcapng, in the form in which Linux's usbmon records it.
//!
//! A capture is blocks of bytes, one behind the other, all numbers little endian: a section header, an interface (link type 220, the
//! 64-byte header of usbmon) of the name `uas0`, and a packet for each record, with a comment. A record is the submission of a transfer
//! or its end: it was completed, or it was taken off before.
//!
//! [`push_start`] writes what each capture begins with: the two heads, and three control transfers by which a reader learns that the device
//! has one interface of USB Attached SCSI with four pipes. [`push_record`] writes a record. What they write is specs/format/Pcapng.antt
//! (blocks and options), specs/format/Usbmon.antt (records) and specs/format/Descriptors.antt (the control transfers), byte for byte.
//!
//! It stands on the pipes of the profile and on `byteorder`.

mod blocks;
mod descriptors;
mod fields;
mod records;

pub use descriptors::{Request, push_start};
pub use records::push_record;
use uas_profile::Pipe;

/// The most bytes of a record's data.
pub const MOST_DATA: usize = 65_536;

/// The most bytes of a comment.
pub const MOST_COMMENT: usize = 1024;

const _: () = prove!(MOST_DATA == 65_536 && MOST_COMMENT == 1024);

/// What became of a transfer.
#[derive(Clone, Copy, Debug, PartialEq, Eq)]
pub enum Event {
    /// It was submitted.
    Submitted,
    /// It was completed.
    Completed,
    /// It was taken off before it was completed.
    Unlinked,
}

/// Which way a transfer goes.
#[derive(Clone, Copy, Debug, PartialEq, Eq)]
pub enum Transfer {
    /// A request on the control pipe.
    Control(Request),
    /// Bytes on one of the four pipes of the interface.
    Bulk(Pipe),
}

/// A record: one event of a transfer.
#[derive(Clone, Copy, Debug, PartialEq, Eq)]
pub struct Record {
    pub event: Event,
    pub transfer: Transfer,
    /// The number of the transfer, by which its records belong together.
    pub number: u64,
    /// How many bytes are asked for or, at its end, were moved.
    pub length: u32,
    /// When it was, in microseconds.
    pub time: u64,
}
