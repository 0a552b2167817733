//! A memory that notes what was written to it.
//!
//! Whoever keeps a record of changed pages, as a machine that is moved while it runs or one that has translated its guest's code, must know
//! which bytes a call of the controller wrote. [`Noted`] is a memory around another one: what is read of it is what the other one holds, what
//! is written goes there, and the range of each write is put behind those before it. The room for ranges is the caller's; where there is none
//! left, a flag tells that some aren't noted, and then any byte may have been written.
//!
//! What is promised: a write that is done notes exactly its range, or sets the flag where the room is full (`noted`,
//! specs/notes/Notes.antt); a write that is refused, a read and a test note nothing. Whatever a caller does with it, the memory is what it
//! was at the beginning with some writes behind one another, and what is noted are the ranges of these (`AreNoted`): where the flag isn't
//! set, a byte beside the noted ranges is as it was (`unnoted_bytes_stay`).

ghost use Rattle.std.specs.Prelude.{◌≡◌, ◌+◌, ◌≤◌, nat_lt, Some, None, true, false, length, OnOk, OnErr, [], ◌∷◌, ◌++◌, take};
ghost use Rattle.guest_memory.specs.Bytes.{Memory, bytes_from, is_there, written};
ghost use Rattle.guest_memory.specs.notes.Notes.{AreNoted, both_loans, noted, notes};

mod laws;

use crate::{GuestMemory, Outside};
pub use laws::unnoted_bytes_stay;
use std::marker::{Brand, PhantomData};

/// Bytes from an address on: `struct { uint64_t address; uint64_t length; }` in C.
#[repr(C)]
#[derive(Clone, Copy)]
pub struct WrittenRange {
    pub address: u64,
    pub length: u64,
}

/// What the memory held when the noting began. A caller names it where he lends the memory: by a call at `Brand`.
pub trait Beginning {
    ghost memory: { Memory };
}

impl Beginning for Brand {
    ghost memory = { λ a. None };
}

/// A memory, and the ranges that were written to it.
#[derive(Drop)]
pub struct Noted<'m, 'n, M: GuestMemory, B: Beginning> {
    pub memory: &'m mut M,
    /// Room for ranges, the first `used` of which are noted.
    pub ranges: &'n mut [WrittenRange],
    pub used: usize,
    /// Some write isn't noted.
    pub lost: bool,
    pub of: PhantomData<B>,
    pub ghost noted: { AreNoted B.memory (M.contents memory.now) (length ranges.now) (notes ranges.now used lost) },
    pub ghost within: { used ≤ length ranges.now },
}

impl<'m, 'n, M: GuestMemory, B: Beginning> Noted<'m, 'n, M, B> {
    /// Notes a range that is about to be written.
    fn note(&mut self, address: u64, count: u64)
        requires { is_there (M.contents self.old.memory.now) address count ≡ true }
        ensures memory { self.new.memory ≡ self.old.memory }
        ensures noted { notes self.new.ranges.now self.new.used self.new.lost
            ≡ noted (length self.old.ranges.now) (notes self.old.ranges.now self.old.used self.old.lost) address count }
        ensures same_room { length self.new.ranges.now ≡ length self.old.ranges.now }
        ensures same_ranges { self.new.ranges.ghost_name ≡ self.old.ranges.ghost_name }
    {
        if put(self.ranges, self.used, address, count) {
            self.used += 1;
        } else {
            self.lost = true;
        }
    }
}

impl<'m, 'n, M: GuestMemory, B: Beginning> GuestMemory for Noted<'m, 'n, M, B> {
    ghost contents = { λ noted. M.contents noted.memory.now };

    ghost loan = { λ noted. both_loans (M.loan noted.memory.now) (both_loans noted.memory.ghost_name noted.ranges.ghost_name) };

    ghost ends = { λ noted. M.ends noted.memory.now };

    fn has(&self, at: u64, count: usize) -> bool {
        self.memory.has(at, count)
    }

    fn read(&self, at: u64, into: &mut [u8]) -> Result<(), Outside> {
        self.memory.read(at, into)
    }

    fn write(&mut self, at: u64, bytes: &[u8]) -> Result<(), Outside>
        ensures written { OnOk result (M.contents self.new.memory.now ≡ written (M.contents self.old.memory.now) at bytes.now) }
        ensures there { OnOk result (is_there (M.contents self.old.memory.now) at (length bytes.now) ≡ true) }
        ensures outside { OnErr result (is_there (M.contents self.old.memory.now) at (length bytes.now) ≡ false) }
        ensures as_before { OnErr result (M.contents self.new.memory.now ≡ M.contents self.old.memory.now) }
        ensures same_loan { both_loans (M.loan self.new.memory.now) (both_loans self.new.memory.ghost_name self.new.ranges.ghost_name)
            ≡ both_loans (M.loan self.old.memory.now) (both_loans self.old.memory.ghost_name self.old.ranges.ghost_name) }
        ensures noted { OnOk result (notes self.new.ranges.now self.new.used self.new.lost
            ≡ noted (length self.old.ranges.now) (notes self.old.ranges.now self.old.used self.old.lost) at (length bytes.now)) }
        ensures none_noted { OnErr result (notes self.new.ranges.now self.new.used self.new.lost
            ≡ notes self.old.ranges.now self.old.used self.old.lost) }
        ensures same_room { length self.new.ranges.now ≡ length self.old.ranges.now }
    {
        if !self.memory.has(at, bytes.len()) {
            return Err(Outside);
        }
        self.note(at, bytes.len() as u64);
        self.memory.write(at, bytes)
    }
}

/// Puts a range behind those that are noted, where there is room for it.
fn put(ranges: &mut [WrittenRange], used: usize, address: u64, count: u64) -> bool
    ensures room { result ≡ nat_lt used (length ranges.old) }
    ensures there { result ≡ true → take (used + 1) ranges.new ≡ take used ranges.old ++ (record { address = address; length = count } ∷ []) }
    ensures full { result ≡ false → ranges.new ≡ ranges.old }
    ensures same_room { length ranges.new ≡ length ranges.old }
{
    if used >= ranges.len() {
        return false;
    }
    ranges[used] = WrittenRange {
        address,
        length: count,
    };
    true
}
