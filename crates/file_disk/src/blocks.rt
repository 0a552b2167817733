//! Files that are read and written by position.

ghost use Rattle.std.specs.Prelude.{◌≡◌, ℕ, ◌+◌, ◌≤◌, List, Bool, length, take, drop, true, false, IsTrue, OnOk, OnErr};
ghost use Rattle.file_disk.specs.Written.{IsSameOutside, written_over};

use byte_io::StreamFault;

/// A file whose length stays, and whose bytes are read and written by position.
pub trait Blocks {
    /// Whether it tells what it holds.
    ghost tells: { Self → Bool };

    /// The bytes that it holds.
    ghost holds: { Self → List ℕ };

    /// The bytes that it held when it was last made safe.
    ghost synced: { Self → List ℕ };

    /// Whether it can fail.
    ghost can_fail: { Self → Bool };

    /// Whether a `sync` failed: what it was to make safe may be lost, and none after it succeeds.
    ghost is_spoiled: { Self → Bool };

    /// How many bytes it has.
    fn size(&self) -> u64
        ensures { IsTrue (tells self.now) → result ≡ length (holds self.now) };

    /// Fills `into` with the bytes from byte `offset` on. At a fault `into` says nothing.
    fn read_at(&self, offset: u64, into: &mut [u8]) -> Result<(), StreamFault>
        requires { IsTrue (tells self.now) → offset + length into.old ≤ length (holds self.now) }
        ensures bytes { OnOk result (IsTrue (tells self.now) → into.new ≡ take (length into.new) (drop offset (holds self.now))) }
        ensures fault { OnErr result (IsTrue (can_fail self.now)) };

    /// Writes `bytes` from byte `offset` on. Until `sync` they may not be safe. At a fault it isn't known what stands there, but all else
    /// is as before.
    fn write_at(&mut self, offset: u64, bytes: &[u8]) -> Result<(), StreamFault>
        requires { IsTrue (tells self.old) → offset + length bytes.now ≤ length (holds self.old) }
        ensures bytes { OnOk result (IsTrue (tells self.old) → holds self.new ≡ written_over (holds self.old) offset bytes.now) }
        ensures outside { OnErr result (IsTrue (tells self.old) → IsSameOutside offset (length bytes.now) (holds self.old) (holds self.new)) }
        ensures len { IsTrue (tells self.old) → length (holds self.new) ≡ length (holds self.old) }
        ensures safe { synced self.new ≡ synced self.old }
        ensures fault { OnErr result (IsTrue (can_fail self.old)) }
        ensures told { tells self.new ≡ tells self.old }
        ensures same { can_fail self.new ≡ can_fail self.old }
        ensures spoiled { is_spoiled self.new ≡ is_spoiled self.old };

    /// Makes safe what it holds: it stays, whatever ends the program or the machine. A fault makes nothing safe, and spoils the file:
    /// each later call is a fault too.
    fn sync(&mut self) -> Result<(), StreamFault>
        ensures safe { OnOk result (IsTrue (tells self.old) → synced self.new ≡ holds self.new) }
        ensures kept { OnErr result (IsTrue (tells self.old) → synced self.new ≡ synced self.old) }
        ensures bytes { OnOk result (IsTrue (tells self.old) → holds self.new ≡ holds self.old) }
        ensures len { IsTrue (tells self.old) → length (holds self.new) ≡ length (holds self.old) }
        ensures fault { OnErr result (IsTrue (can_fail self.old)) }
        ensures told { tells self.new ≡ tells self.old }
        ensures same { can_fail self.new ≡ can_fail self.old }
        ensures sound { OnOk result ((is_spoiled self.old ≡ false) × (is_spoiled self.new ≡ false)) }
        ensures spoiled { OnErr result (is_spoiled self.new ≡ true) };
}

/// A file in memory: the bytes that it holds, and those that are safe.
#[derive(Drop)]
pub struct BlocksHeld {
    pub held: Vec<u8>,
    pub safe: Vec<u8>,
    ghost same_length: { length safe.items ≡ length held.items },
}

impl Blocks for BlocksHeld {
    ghost tells = { λ _. true };

    ghost holds = { λ file. file.held.items };

    ghost synced = { λ file. file.safe.items };

    ghost can_fail = { λ _. false };

    ghost is_spoiled = { λ _. false };

    fn size(&self) -> u64 {
        self.held.len() as u64
    }

    fn read_at(&self, offset: u64, into: &mut [u8]) -> Result<(), StreamFault> {
        let start = offset as usize;
        into.copy_from_slice(&self.held[start..start + into.len()]);
        Ok(())
    }

    #[tactic(auto, unfolding(crate::specs::Written::written_over))]
    fn write_at(&mut self, offset: u64, bytes: &[u8]) -> Result<(), StreamFault> {
        let start = offset as usize;
        self.held[start..start + bytes.len()].copy_from_slice(bytes);
        Ok(())
    }

    fn sync(&mut self) -> Result<(), StreamFault> {
        self.safe.copy_from_slice(&self.held);
        Ok(())
    }
}
