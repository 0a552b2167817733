//! A file of the machine that the program runs on.

ghost use Rattle.std.specs.Prelude.{true, false, []};

use crate::Blocks;
use byte_io::StreamFault;
use std::fs::{File, OpenOptions};
use std::os::unix::fs::{FileExt, MetadataExt};

/// The bytes of a block.
const BLOCK_BYTES: u64 = 512;

/// A file of the machine. What it holds isn't known.
#[derive(Drop)]
pub struct HostBlocks {
    file: File,
    size: u64,
    access: FileAccess,
    // The numbers of the file system, and of the file in it.
    device: u64,
    inode: u64,
    // The block that can't be read or written, to see what a disk's users make of it.
    bad: Option<u64>,
    // Whether a sync failed: the machine may have dropped what it couldn't write, so none is done from then on.
    has_failed: bool,
}

/// How a file is opened.
#[derive(Clone, Copy, Debug, PartialEq, Eq)]
pub enum FileAccess {
    /// To be read; others may read it too.
    Read,
    /// To be read and written, by this program alone.
    Write,
}

/// Why a file isn't opened.
#[derive(Clone, Copy, Debug, PartialEq, Eq)]
pub enum OpenFault {
    /// It isn't there, isn't a regular file, or may not be opened so.
    File,
    /// Another program has it, or the machine has no lock to give.
    Locked,
}

impl HostBlocks {
    /// The file of a name, which is there and may be read and written; nothing of it is changed. Block `bad` fails where one is named.
    pub fn open(rt: &HostRuntime, name: &str, bad: Option<u64>) -> Option<HostBlocks> {
        let access = FileAccess::Write;
        HostBlocks::of(opened(rt, name, access)?, access, bad)
    }

    /// The same with the lock on it, which is shared where the file is only read. It is that of an open file, so it is given up where the
    /// program ends, however it does.
    pub fn open_locked(
        rt: &HostRuntime,
        name: &str,
        access: FileAccess,
        bad: Option<u64>,
    ) -> Result<HostBlocks, OpenFault> {
        let Some(file) = opened(rt, name, access) else {
            return Err(OpenFault::File);
        };
        let locked = match access {
            FileAccess::Read => file.try_lock_shared(),
            FileAccess::Write => file.try_lock(),
        };
        if locked.is_err() {
            return Err(OpenFault::Locked);
        }
        HostBlocks::of(file, access, bad).ok_or(OpenFault::File)
    }

    /// None where it isn't a regular file: a directory, too, can be opened to be read.
    fn of(file: File, access: FileAccess, bad: Option<u64>) -> Option<HostBlocks> {
        let metadata = file.metadata().ok()?;
        if !metadata.is_file() {
            return None;
        }
        Some(HostBlocks {
            file,
            size: metadata.len(),
            access,
            device: metadata.dev(),
            inode: metadata.ino(),
            bad,
            has_failed: false,
        })
    }

    /// The number of its file system.
    pub fn device(&self) -> u64 {
        self.device
    }

    /// The number of the file in its file system.
    pub fn inode(&self) -> u64 {
        self.inode
    }

    /// Whether the bad block is among those of so many bytes from this one on.
    fn is_bad(&self, offset: u64, count: usize) -> bool {
        let Some(bad) = self.bad else {
            return false;
        };
        let last = offset.saturating_add((count as u64).saturating_sub(1));
        count > 0 && offset / BLOCK_BYTES <= bad && bad <= last / BLOCK_BYTES
    }
}

/// An open file of a name.
fn opened(rt: &HostRuntime, name: &str, access: FileAccess) -> Option<File> {
    let mut options = OpenOptions::new();
    options.read(true);
    options.write(access == FileAccess::Write);
    options.open(rt, name).ok()
}

impl Blocks for HostBlocks {
    ghost tells = { λ _. false };

    ghost holds = { λ _. [] };

    ghost synced = { λ _. [] };

    ghost can_fail = { λ _. true };

    ghost is_spoiled = { λ file. file.has_failed };

    fn size(&self) -> u64 {
        self.size
    }

    fn read_at(&self, offset: u64, into: &mut [u8]) -> Result<(), StreamFault> {
        if self.is_bad(offset, into.len()) || self.file.read_exact_at(into, offset).is_err() {
            return Err(StreamFault::File);
        }
        Ok(())
    }

    fn write_at(&mut self, offset: u64, bytes: &[u8]) -> Result<(), StreamFault> {
        if self.is_bad(offset, bytes.len()) || self.file.write_all_at(bytes, offset).is_err() {
            return Err(StreamFault::File);
        }
        Ok(())
    }

    fn sync(&mut self) -> Result<(), StreamFault> {
        // in a file that is only read nothing was written, and some file systems refuse to sync it
        let is_written = self.access == FileAccess::Write;
        if self.has_failed || is_written && self.file.sync_data().is_err() {
            self.has_failed = true;
            return Err(StreamFault::File);
        }
        Ok(())
    }
}
