//! A disk whose blocks are in a file: reads, writes and flushes of bytes, each by SCSI commands to a device without blocks.
//!
//! ```text
//!   read, write, flush --READ(16), WRITE(16), SYNCHRONIZE CACHE(16)--> uas_tasks --requests--> Blocks
//! ```
//!
//! A [`FileDisk`] has one logical unit of blocks of 512 bytes. A command moves at most 128 blocks, which are one chunk of the device; a
//! request for more bytes is several commands, one after the other, and one whose ends are no ends of blocks reads those blocks first.
//! What the device asks for is done on the file at once, by position ([`Blocks`]), so nothing of the file stays in memory.
//!
//! What is promised: a read that is done brings what the file holds there, a write that is done changes the file exactly there, and what
//! the file holds is safe once a flush is done. None of them fails where the file can't fail; once a flush has failed, each later one does.
//!
//! It stands on `uas_tasks` for the device, and on `uas_iu` and `host_commands` for the commands.
#![tactic(auto)]

mod blocks;
mod cdb;
mod device;
mod disk;
mod host;

pub use blocks::{Blocks, BlocksHeld};
pub use disk::FileDisk;
pub use host::{FileAccess, HostBlocks, OpenFault};

/// A command ended other than GOOD: the file failed.
#[derive(Clone, Copy, Debug, PartialEq, Eq)]
pub struct DiskFault;
