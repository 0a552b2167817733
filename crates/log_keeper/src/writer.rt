//! The file of a log that is kept: bytes behind those that it has, and syncs.
ghost use Rattle.std.specs.Prelude.{◌≡◌, ◌+◌, ◌<◌, ◌^◌, ℕ, List, Bool, Option, if◌then◌else◌, [], Err, IfOk, IsTrue, OnErr, OnOk, Some};
ghost use Rattle.std.specs.Io.KnownBytes.{Appends};
ghost use Rattle.log_keeper.specs.Syncing.{is_due, unsynced_after};

use byte_io::StreamFault;

/// A file that takes bytes behind those that it has. What was synced stands whatever ends the program.
pub trait KeptFile {
    /// The bytes that it has taken, where they are known.
    ghost written: { Self → Option (List ℕ) };

    /// Those of them that were synced.
    ghost synced: { Self → Option (List ℕ) };

    /// Whether it can fail other than for want of memory.
    ghost can_fail: { Self → Bool };

    /// Whether it is the file of a name, as far as that is known.
    ghost is_of: { Self → List ℕ → Bool };

    /// Takes all of the bytes.
    fn add(&mut self, bytes: &[u8]) -> Result<(), StreamFault>
        ensures bytes { OnOk result (Appends (written self.old) (written self.new) bytes.now) }
        ensures synced { synced self.new ≡ synced self.old }
        ensures fault { result ≡ Err StreamFault.File → IsTrue (can_fail self.old) }
        ensures same { can_fail self.new ≡ can_fail self.old }
        ensures file { is_of self.new ≡ is_of self.old };

    /// Syncs what it has taken.
    fn sync(&mut self) -> Result<(), StreamFault>
        ensures written { written self.new ≡ written self.old }
        ensures synced { OnOk result (synced self.new ≡ written self.old) }
        ensures lost { OnErr result (synced self.new ≡ synced self.old) }
        ensures fault { result ≡ Err StreamFault.File → IsTrue (can_fail self.old) }
        ensures same { can_fail self.new ≡ can_fail self.old }
        ensures file { is_of self.new ≡ is_of self.old };
}

/// Begins the files of logs.
pub trait KeptFiles {
    /// A file of a log.
    type File: KeptFile + Drop + Send;

    /// Whether it tells what its files hold.
    ghost tells: { Self → Bool };

    /// What was synced of the file of a name.
    ghost holds: { Self → List ℕ → Option (List ℕ) };

    /// Whether the file of a name can fail.
    ghost can_fail: { Self → List ℕ → Bool };

    /// The file of a name, empty; what it had is gone. At a fault it has what it had.
    fn create(&mut self, name: &str) -> Result<Self::File, StreamFault>
        ensures empty { IfOk result (λ file. IsTrue (tells self.old) → Self.File.written file ≡ Some []) }
        ensures synced { IfOk result (λ file. IsTrue (tells self.old) → Self.File.synced file ≡ Some []) }
        ensures kept { OnErr result (IsTrue (tells self.old) → holds self.new ≡ holds self.old) }
        ensures file { IfOk result (λ file. IsTrue (Self.File.is_of file name.now)) }
        ensures fails { IfOk result (λ file. IsTrue (Self.File.can_fail file) → IsTrue (can_fail self.old name.now)) }
        ensures fault { result ≡ Err StreamFault.File → IsTrue (can_fail self.old name.now) }
        ensures same { tells self.new ≡ tells self.old };

    /// Lets a file go: its name holds what was synced.
    fn close(&mut self, file: Self::File)
        ensures { (name : List ℕ) → IsTrue (tells self.old) → IsTrue (Self.File.is_of file name)
            → holds self.new name ≡ Self.File.synced file };
}

/// The file of a log, and when it is synced.
#[derive(Debug, Drop)]
pub struct KeptWriter<F: KeptFile> {
    pub file: F,
    /// After how many steps it is synced; 0: at the end alone.
    pub every: usize,
    /// How many steps have records that aren't synced.
    pub unsynced: usize,
}

impl<F: KeptFile> KeptWriter<F> {
    /// Writes the records of so many steps, and syncs where that is due. Whether it synced.
    pub fn write(&mut self, records: &[u8], steps: usize) -> Result<bool, StreamFault>
        requires { self.old.unsynced + steps < 2 ^ 64 }
        ensures due { IfOk result (λ did. did ≡ is_due self.old.every (self.old.unsynced + steps)) }
        ensures bytes { OnOk result (Appends (F.written self.old.file) (F.written self.new.file) records.now) }
        ensures synced { IfOk result (λ did. F.synced self.new.file ≡ (if did then F.written self.new.file else F.synced self.old.file)) }
        ensures count { OnOk result (self.new.unsynced ≡ unsynced_after self.old.every (self.old.unsynced + steps)) }
        ensures lost { OnErr result (F.synced self.new.file ≡ F.synced self.old.file) }
        ensures fault { result ≡ Err StreamFault.File → IsTrue (F.can_fail self.old.file) }
        ensures same { F.can_fail self.new.file ≡ F.can_fail self.old.file }
        ensures file { F.is_of self.new.file ≡ F.is_of self.old.file }
        ensures every { self.new.every ≡ self.old.every }
    {
        self.file.add(records)?;
        self.unsynced += steps;
        if !is_due(self.every, self.unsynced) {
            return Ok(false);
        }
        self.file.sync()?;
        self.unsynced = 0;
        Ok(true)
    }

    /// Writes records, and syncs: no step is left that isn't synced.
    pub fn write_synced(&mut self, bytes: &[u8]) -> Result<(), StreamFault>
        ensures bytes { OnOk result (Appends (F.written self.old.file) (F.written self.new.file) bytes.now) }
        ensures synced { OnOk result (F.synced self.new.file ≡ F.written self.new.file) }
        ensures count { OnOk result (self.new.unsynced ≡ 0) }
        ensures lost { OnErr result (F.synced self.new.file ≡ F.synced self.old.file) }
        ensures fault { result ≡ Err StreamFault.File → IsTrue (F.can_fail self.old.file) }
        ensures same { F.can_fail self.new.file ≡ F.can_fail self.old.file }
        ensures file { F.is_of self.new.file ≡ F.is_of self.old.file }
        ensures every { self.new.every ≡ self.old.every }
    {
        self.file.add(bytes)?;
        self.file.sync()?;
        self.unsynced = 0;
        Ok(())
    }
}

/// Whether a sync is due, with so many steps that aren't synced.
fn is_due(every: usize, unsynced: usize) -> bool
    ensures { result ≡ is_due every unsynced }
{
    every != 0 && every <= unsynced
}
