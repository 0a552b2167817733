//! usbredir, the protocol that lends a USB device to a guest elsewhere: the packets of both sides, both ways.
//!
//! ```text
//!   device --hello--> guest, guest --hello--> device                             unasked, each once
//!   device --interface_info, endpoint_info, device_connect--> guest              what is lent
//!   guest --control, bulk, with OUT data; what concerns all endpoints--> device  requests
//!   device --control, bulk, with IN data; how the others ended--> guest          answers
//! ```
//!
//! A packet is a head of 16 bytes (kind, length of what follows, id), the fields of its kind, and data; all numbers are little endian.
//! A hello's head has 12 bytes. An IN request and an OUT answer carry no data: `length` in their fields is the room, and what was taken.
//!
//! What bytes are read as, and what is written of a packet, are definitions: specs/Kinds.antt has heads and numbers, specs/Guest.antt and
//! specs/Device.antt the packets of the two sides, specs/Hello.antt the hellos. Other bytes are one [`PacketFault`], by name. What is written is
//! read back, and what is read is written back ([`request_reads_back`] and its like). specs/Rows.antt has packets byte by byte.
//!
//! A reader reads a head, asks [`GuestPacket::fields_bytes`] how many bytes of fields follow, reads those, and has the packet by
//! [`GuestPacket::from_bytes`]; what is left of the head's length are its data, [`GuestPacket::data_bytes`].
//!
//! It stands on `byteorder`, `arrayvec` and `thiserror`, and on lemmas on bytes. Nothing takes memory.
#![tactic(auto)]

mod device;
mod fields;
mod guest;
mod hello;
mod kinds;
mod packets;
mod rows;

pub use device::{MOST_DEVICE_BYTES, MOST_DEVICE_FIELDS, answer_reads_back, answer_writes_back};
pub use fields::{
    BulkAnswer, BulkRequest, ControlAnswer, ControlRequest, DeviceConnect, EndpointInfo,
    InterfaceInfo,
};
pub use guest::{MOST_GUEST_BYTES, request_reads_back, request_writes_back};
pub use hello::{
    Hello, MOST_HELLO_BYTES, MOST_WORDS, OUR_CAPABILITIES, hello_reads_back, hello_writes_back,
};
pub use kinds::{
    HEAD_BYTES, HELLO_HEAD_BYTES, Head, Kind, MOST_BYTES, Status, head_reads_back,
    head_writes_back, names_read_back, names_write_back,
};
pub use packets::{DevicePacket, GuestPacket};
pub use rows::{rows_are_read, rows_are_written};
use thiserror::Error;

/// Why a peer's bytes are refused.
#[derive(Clone, Copy, Debug, PartialEq, Eq, Error)]
pub enum PacketFault {
    #[error("bad hello")]
    BadHello,
    #[error("missing capability")]
    MissingCapability,
    #[error("unexpected packet")]
    UnexpectedPacket,
    #[error("bad length")]
    BadLength,
    #[error("rejected")]
    Rejected,
}
