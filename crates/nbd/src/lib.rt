//! NBD, the protocol of network block devices, in its fixed newstyle: the messages of the handshake and of the transmission, both ways.
//!
//! ```text
//!   server --greeting--> client flags --> option .. reply to it ..        the handshake
//!   client --request, data of a WRITE--> reply, data of a READ            the transmission
//! ```
//!
//! Each message has a fixed head, all numbers big endian: an option 16 bytes, a reply to it 20, a request 28 and a simple reply 16. What a
//! head's bytes are read as, and what is written of one, is specs/Handshake.antt and specs/Transmission.antt; bytes that don't begin
//! with the head's own number are refused as [`NotNbd`]. What is written is read back, and what is read is written back
//! ([`request_reads_back`] and its like).
//!
//! It stands on `byteorder`, `bitflags` and `thiserror`. Nothing takes memory.
#![tactic(auto)]

pub mod flags;
mod handshake;
mod transmission;

pub use handshake::{
    BlockSizes, Export, OPTION_MAGIC, OPTION_REPLY_MAGIC, OptionHead, OptionKind, OptionReply,
    ReplyKind, SERVER_MAGIC, client_flags, export_reads_back, greeting, greeting_reads_back,
    option_reads_back, option_reply_reads_back, read_greeting,
};
use thiserror::Error;
pub use transmission::{
    Command, ErrorNumber, REPLY_BYTES, REPLY_MAGIC, REQUEST_BYTES, REQUEST_MAGIC, Reply, Request,
    reply_reads_back, reply_writes_back, request_reads_back, request_writes_back,
};

/// The bytes don't begin with the number that such a message begins with.
#[derive(Clone, Copy, Debug, PartialEq, Eq, Error)]
#[error("not a message of the protocol")]
pub struct NotNbd;
