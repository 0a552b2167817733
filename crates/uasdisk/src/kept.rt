//! The files of the machine in which logs are kept.

ghost use Rattle.std.specs.Prelude.{None, false, true};

use byte_io::{StreamFault, sync_folder};
use log_keeper::{KeptFile, KeptFiles};
use std::fs;
use std::fs::File;
use std::io::Write;

/// The files of the machine that the program runs on. What they hold isn't known.
#[derive(Drop)]
pub struct HostKeptFiles<'a> {
    pub rt: &'a HostRuntime,
    /// Whether standard error is told how many bytes were synced.
    pub is_watched: bool,
}

/// A file of the machine that takes bytes behind those that it has.
#[derive(Drop)]
pub struct HostKeptFile<'a> {
    rt: &'a HostRuntime,
    file: File,
    is_watched: bool,
    bytes: u64,
}

impl<'a> KeptFiles for HostKeptFiles<'a> {
    type File = HostKeptFile<'a>;

    ghost tells = { λ _. false };

    ghost holds = { λ _ _. None };

    ghost can_fail = { λ _ _. true };

    fn create(&mut self, name: &str) -> Result<HostKeptFile<'a>, StreamFault> {
        let Ok(file) = fs::create(self.rt, name) else {
            return Err(StreamFault::File);
        };
        sync_folder(self.rt, name);
        Ok(HostKeptFile {
            rt: self.rt,
            file,
            is_watched: self.is_watched,
            bytes: 0,
        })
    }

    fn close(&mut self, file: HostKeptFile<'a>) {
        drop(file);
    }
}

impl KeptFile for HostKeptFile<'_> {
    ghost written = { λ _. None };

    ghost synced = { λ _. None };

    ghost can_fail = { λ _. true };

    ghost is_of = { λ _ _. true };

    fn add(&mut self, bytes: &[u8]) -> Result<(), StreamFault> {
        if self.file.write_all(bytes).is_err() {
            return Err(StreamFault::File);
        }
        self.bytes = self.bytes.saturating_add(bytes.len() as u64);
        Ok(())
    }

    fn sync(&mut self) -> Result<(), StreamFault> {
        if self.file.sync_data().is_err() {
            return Err(StreamFault::File);
        }
        if self.is_watched {
            // a fault of standard error changes nothing
            let _ = write!(self.rt.stderr(), "\r{} bytes synced", self.bytes);
        }
        Ok(())
    }
}
