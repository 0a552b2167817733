//! A piece of memory.
ghost use Rattle.std.specs.Prelude.{◌≡◌, ℕ, ◌+◌, ◌<◌, length, IsTrue, IsFalse, ◌↔◌, slice_get, is_some, true};
ghost use Rattle.guest_memory.specs.Bytes.{Memory, IsWithinAddresses, written};
ghost use Rattle.guest_memory.specs.Held.{Misses};

/// A piece of memory.
pub trait Piece {
    /// What stands at each address.
    ghost part: { Self → Memory };

    /// It has each byte of a range.
    ghost has: { Self → ℕ → ℕ → Type 0 };

    /// The byte at an address.
    fn byte(&self, at: u64) -> Option<u8>
        ensures { result ≡ part self.now at };

    /// Whether it has a byte of a range.
    fn touches(&self, at: u64, count: usize) -> bool
        ensures misses { IsFalse result → Misses part at count self.now }
        ensures single { count ≡ 1 → IsTrue result → has self.now at 1 };

    /// Whether it has each byte of a range.
    fn has_all(&self, at: u64, count: usize) -> bool
        ensures { IsTrue result ↔ has self.now at count };

    /// Reads a range.
    fn read(&self, at: u64, into: &mut [u8])
        requires { has self.now at (length into.old) }
        ensures len { length into.new ≡ length into.old }
        ensures bytes { (k : ℕ) → k < length into.old → part self.now (at + k) ≡ slice_get into.new k };

    /// Writes a range.
    fn write(&mut self, at: u64, bytes: &[u8])
        requires { has self.old at (length bytes.now) }
        ensures { part self.new ≡ written (part self.old) at bytes.now };

    ghost ends: { (piece : Self) → IsWithinAddresses (part piece) };

    ghost there: { (piece : Self) (at n k : ℕ) → has piece at n → k < n → is_some (part piece (at + k)) ≡ true };
}
