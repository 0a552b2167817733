//! A log in a file of its own, kept while it grows.
ghost use Rattle.std.specs.Prelude.{◌≡◌, ◌+◌, ◌-◌, ◌≤◌, ◌++◌, ◌↔◌, ◌⊎◌, [], if◌then◌else◌, Err, IfErr, IfOk, IsErrOf, IsTrue, OnErr, OnOk, length};
ghost use Rattle.std.specs.Io.KnownBytes.{Appends};
ghost use Rattle.kept_log.specs.Form.{end_text, head_sum, head_text};
ghost use Rattle.log_records.specs.Records.{record_text};
ghost use Rattle.log_keeper.specs.Entries.{Added, AllFit, AreUnits, FirstFits, entries_behind, records_behind, sum_behind};
ghost use Rattle.log_keeper.specs.Syncing.{is_due, unsynced_after};

use crate::adding::{add_records, begin};
use crate::{KeepFault, KeepStop, KeptFile, KeptWriter, Place};
use byte_io::StreamFault;
use kept_log::{Why, write_end};
use std::alloc::Global;
use uas_log::Log;

/// The head of a log that is to be kept, and the place behind it.
#[derive(Debug, Drop)]
pub struct Head {
    pub text: Vec<u8>,
    pub place: Place,
}

impl Head {
    /// The head of a log. `Limits` exactly where the log's logical units, or how many tags each client has, are past the limits of its text.
    pub fn of(alloc: Global, log: &Log) -> Result<Head, KeepFault>
        ensures text { IfOk result (λ head. head.text.items ≡ head_text log.now.tags log.now.units) }
        ensures place { IfOk result (λ head. head.place ≡ record { steps = 0; replies = 0; sum = head_sum log.now.tags log.now.units }) }
        ensures limits { IsErrOf result KeepFault.Limits ↔ (AreUnits log.now.tags log.now.units → ⊥) }
    {
        let mut text = Vec::new(alloc);
        let place = begin(alloc, log, &mut text)?;
        Ok(Head { text, place })
    }
}

/// A log that is kept: its file, the place of the log at which its text stands, and what of the text the file doesn't have yet.
#[derive(Debug, Drop)]
pub struct Keeper<F: KeptFile> {
    pub writer: KeptWriter<F>,
    pub place: Place,
    /// Whole records that wait for the file.
    pub waiting: Vec<u8>,
    /// Of how many steps the file has the records.
    pub written: usize,
}

impl<F: KeptFile + Drop> Keeper<F> {
    /// Begins to keep a log in an empty file, which is synced after each `every` steps, or at the end alone where that is 0. Its head
    /// waits for the file.
    pub fn new(head: Head, every: usize, file: F) -> Keeper<F>
        ensures waiting { result.waiting.items ≡ head.text.items }
        ensures place { result.place ≡ head.place }
        ensures file { result.writer ≡ record { file = file; every = every; unsynced = 0 } }
        ensures written { result.written ≡ 0 }
    {
        let Head { text, place } = head;
        Keeper {
            writer: KeptWriter {
                file,
                every,
                unsynced: 0,
            },
            place,
            waiting: text,
            written: 0,
        }
    }

    /// Takes the records of all steps behind its place from the log: they wait for the file. At a fault those before it do: `Limits` where
    /// the next one is past the limits of a log's text. Asks a log of at most 31 clients.
    pub fn gather(&mut self, alloc: Global, log: &Log) -> Result<(), KeepFault>
        requires few { length log.now.units ≤ 31 }
        requires tags { 1 ≤ log.now.tags }
        ensures all { OnOk result (self.new.waiting.items ≡ self.old.waiting.items ++ records_behind log.now self.old.place) }
        ensures fit { OnOk result (AllFit (length log.now.units) (entries_behind log.now self.old.place)) }
        ensures none { OnOk result (entries_behind log.now self.new.place ≡ []) }
        ensures sum { OnOk result (self.new.place.sum ≡ sum_behind log.now self.old.place) }
        ensures steps { OnOk result (self.new.place.steps ≡ self.old.place.steps + length (entries_behind log.now self.old.place)) }
        ensures added { Added log.now self.old.place self.old.waiting.items self.new.place self.new.waiting.items }
        ensures limits { IfErr result (λ fault. fault ≡ KeepFault.Limits
            → FirstFits (length log.now.units) (entries_behind log.now self.new.place) → ⊥) }
        ensures writer { self.new.writer ≡ self.old.writer }
        ensures written { self.new.written ≡ self.old.written }
    {
        add_records(alloc, log, &mut self.place, &mut self.waiting)
    }

    /// Writes what waits, and syncs where that is due: the steps count whose records the file didn't have. Whether it synced.
    pub fn settle(&mut self) -> Result<bool, StreamFault>
        ensures bytes { OnOk result (Appends (F.written self.old.writer.file) (F.written self.new.writer.file) self.old.waiting.items) }
        ensures none { OnOk result (self.new.waiting.items ≡ []) }
        ensures due { IfOk result (λ did. did
            ≡ is_due self.old.writer.every (self.old.writer.unsynced + (self.old.place.steps - self.old.written))) }
        ensures count { OnOk result (self.new.writer.unsynced
            ≡ unsynced_after self.old.writer.every (self.old.writer.unsynced + (self.old.place.steps - self.old.written))) }
        ensures written { OnOk result (self.new.written ≡ self.old.place.steps) }
        ensures synced { IfOk result (λ did. F.synced self.new.writer.file
            ≡ (if did then F.written self.new.writer.file else F.synced self.old.writer.file)) }
        ensures lost { OnErr result (F.synced self.new.writer.file ≡ F.synced self.old.writer.file) }
        ensures fault { result ≡ Err StreamFault.File → IsTrue (F.can_fail self.old.writer.file) }
        ensures same { F.can_fail self.new.writer.file ≡ F.can_fail self.old.writer.file }
        ensures file { F.is_of self.new.writer.file ≡ F.is_of self.old.writer.file }
        ensures place { self.new.place ≡ self.old.place }
        ensures every { self.new.writer.every ≡ self.old.writer.every }
    {
        let steps = self.place.steps.saturating_sub(self.written);
        if steps > usize::MAX - self.writer.unsynced {
            return Err(StreamFault::NoMemory);
        }
        let did = self.writer.write(&self.waiting, steps)?;
        self.leave_written();
        Ok(did)
    }

    /// Writes what waits, and syncs.
    pub fn sync(&mut self) -> Result<(), StreamFault>
        ensures bytes { OnOk result (Appends (F.written self.old.writer.file) (F.written self.new.writer.file) self.old.waiting.items) }
        ensures none { OnOk result (self.new.waiting.items ≡ []) }
        ensures count { OnOk result (self.new.writer.unsynced ≡ 0) }
        ensures written { OnOk result (self.new.written ≡ self.old.place.steps) }
        ensures synced { OnOk result (F.synced self.new.writer.file ≡ F.written self.new.writer.file) }
        ensures lost { OnErr result (F.synced self.new.writer.file ≡ F.synced self.old.writer.file) }
        ensures fault { result ≡ Err StreamFault.File → IsTrue (F.can_fail self.old.writer.file) }
        ensures same { F.can_fail self.new.writer.file ≡ F.can_fail self.old.writer.file }
        ensures file { F.is_of self.new.writer.file ≡ F.is_of self.old.writer.file }
        ensures place { self.new.place ≡ self.old.place }
        ensures every { self.new.writer.every ≡ self.old.writer.every }
    {
        self.writer.write_synced(&self.waiting)?;
        self.leave_written();
        Ok(())
    }

    /// The file has what waited.
    fn leave_written(&mut self)
        ensures none { self.new.waiting.items ≡ [] }
        ensures written { self.new.written ≡ self.old.place.steps }
        ensures writer { self.new.writer ≡ self.old.writer }
        ensures place { self.new.place ≡ self.old.place }
    {
        self.waiting.clear();
        self.written = self.place.steps;
    }

    /// Writes what waits and syncs it, and then the end with its reason, and syncs again. So what waits is in the file where the end isn't:
    /// for want of memory, or at a fault of the file.
    pub fn end(&mut self, alloc: Global, why: Why) -> Result<(), KeepStop>
        ensures bytes { OnOk result (Appends (F.written self.old.writer.file) (F.written self.new.writer.file)
            (self.old.waiting.items ++ record_text self.old.place.sum (end_text self.old.place.steps why))) }
        ensures synced { OnOk result (F.synced self.new.writer.file ≡ F.written self.new.writer.file) }
        ensures lost { OnErr result ((F.synced self.new.writer.file ≡ F.synced self.old.writer.file)
            ⊎ Appends (F.written self.old.writer.file) (F.synced self.new.writer.file) self.old.waiting.items) }
        ensures limits { result ≡ Err KeepStop.Limits → ⊥ }
        ensures fault { result ≡ Err KeepStop.File → IsTrue (F.can_fail self.old.writer.file) }
        ensures file { F.is_of self.new.writer.file ≡ F.is_of self.old.writer.file }
    {
        self.sync()?;
        let steps = self.place.steps as u64;
        let sum = self.place.sum;
        write_end(alloc, steps, why, sum, &mut self.waiting).map_err(|_| KeepStop::NoMemory)?;
        self.writer.write_synced(&self.waiting)?;
        Ok(())
    }
}
