//! What the program takes in and gives out: bytes of readers and writers, files by their names, the lines, words and numbers of a
//! text, and the disks and blocks that are asked for.
//!
//! A [`Source`] or a [`Sink`] tells in its ghost members which bytes it has left or has taken, as far as they are known, and whether
//! it can fail. So a call over one can promise which bytes it read or wrote, and answer a fault only where there can be one; what
//! stands in memory has none ([`BytesLeft`], [`BytesTaken`]). [`read_at_most`] reads up to a limit, and fewer bytes only at the end;
//! [`read_whole`] fills a buffer, to the end at most. An [`Output`] takes all bytes, or at a fault a beginning of them. [`Files`] are a
//! host's files by name: [`HostFiles`] are those of the machine, of which nothing is known.
//!
//! The words of a text and its numbers are specs/Words.antt; how many disks a program can have is specs/Disks.antt. It stands on
//! std alone, but for the numbers of the profile.
#![tactic(auto)]

mod disks;
mod files;
mod host_files;
mod outputs;
mod streams;
mod texts;
mod whole;

pub use disks::{Disks, Extent};
pub use files::Files;
pub use host_files::{HostFiles, HostWriter, sync_folder};
pub use outputs::{Output, WriteFailed};
pub use streams::{
    BytesLeft, BytesTaken, ReadFailed, Reader, Sink, Source, StreamFault, Writer, read_at_most,
};
pub use texts::{is_number, number_in, pieces, words};
pub use whole::{drop_bytes, read_whole};
