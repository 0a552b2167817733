//! Memory that a caller owns, by address.
//!
//! A controller finds its rings, contexts and buffers at addresses that a driver gives it, in memory that is not its own.
//! [`GuestMemory`] is that memory: up to 2^64 bytes, each by its address, not all of which have to be there.
//! A read or a write names a range. It is done whole where each byte of the range is there, and refused whole otherwise:
//! a refused read leaves the reader's bytes, a refused write leaves the memory. A range that goes past 2^64 isn't there.
//!
//! The definitions are `bytes_from memory at count`, the bytes of a range or None, and `written memory at bytes`,
//! the memory after a write, in which each other byte is as it was. Each method here is one of them.
//!
//! [`Pieces`] is a memory of slices that are lent for a call, each from a base address on ([`Lent`]); where two of them have
//! one address, the first holds its byte. A range inside one slice is copied at once. A [`notes::Noted`] notes what is written.
//! [`rings`] has the rings that lie there.
#![tactic(auto)]

ghost use Rattle.std.specs.Prelude.{◌≡◌, ℕ, Some, None, true, false, length, OnOk, OnErr};
ghost use Rattle.guest_memory.specs.Bytes.{Memory, IsWithinAddresses, bytes_from, is_there, written};

mod lend;
mod lent_piece;
mod memory;
pub mod notes;
mod piece;
pub mod rings;

pub use lend::Lent;
pub use memory::Pieces;
pub use piece::Piece;

/// A byte of the range isn't there.
#[derive(Clone, Copy, Debug, PartialEq, Eq)]
pub struct Outside;

/// Memory by address, up to 2^64 bytes, not all of which have to be there.
pub trait GuestMemory {
    /// What stands at each address.
    ghost contents: { Self → Memory };

    /// The loan that it holds, if it holds one: no call puts another in its place.
    ghost loan: { Self → ℕ };

    /// Whether each byte of a range is there: `count` bytes from the address `at` on.
    fn has(&self, at: u64, count: usize) -> bool
        ensures { result ≡ is_there (contents self.now) at count };

    /// Reads as many bytes as `into` has from an address on. Refused exactly where one of them isn't there, and then `into` is as it was.
    fn read(&self, at: u64, into: &mut [u8]) -> Result<(), Outside>
        ensures bytes { OnOk result (bytes_from (contents self.now) at (length into.old) ≡ Some into.new) }
        ensures outside { OnErr result (bytes_from (contents self.now) at (length into.old) ≡ None) }
        ensures as_before { OnErr result (into.new ≡ into.old) };

    /// Writes bytes from an address on. Refused exactly where one of them isn't there, and then nothing is written.
    fn write(&mut self, at: u64, bytes: &[u8]) -> Result<(), Outside>
        ensures written { OnOk result (contents self.new ≡ written (contents self.old) at bytes.now) }
        ensures there { OnOk result (is_there (contents self.old) at (length bytes.now) ≡ true) }
        ensures outside { OnErr result (is_there (contents self.old) at (length bytes.now) ≡ false) }
        ensures as_before { OnErr result (contents self.new ≡ contents self.old) }
        ensures same_loan { loan self.new ≡ loan self.old };

    /// No address is 2^64 or more, so that a range which wraps isn't there.
    ghost ends: { (memory : Self) → IsWithinAddresses (contents memory) };
}
