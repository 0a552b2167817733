//! Marks of numbered places, and the next place that is marked.
//!
//! A [`Marks`] of `W` words has `64 * W` places. Bit n of word w is place `64 w + n`, 1 where the place is marked:
//!
//! ```text
//! W = 4    word 0          word 1            word 2             word 3
//!          0 1 2 .. 63     64 65 .. 127      128 129 .. 191     192 193 .. 255
//! ```
//!
//! Whoever keeps a table keeps marks of its places beside it, so that the next place that is due is found by its bit: a word
//! without one is passed at once, and a word with one gives its lowest without a search. Where no place is marked, that is found
//! by one look at each word.
//!
//! What is promised: a [`Marks`] is the list of its words, and `is_marked` of `specs/Marks.antt` says which places are
//! marked. A call changes the mark of the place that it names and of no other. The crate stands on std alone, and no call takes
//! memory.
#![tactic(auto)]

ghost use Rattle.std.specs.Prelude.{◌≡◌, ℕ, length, ◌+◌, ◌*◌, ◌<◌, ◌≤◌, true, false, IfSome, IfNone, if◌then◌else◌};
ghost use Rattle.std.specs.Int.{bit_at};
ghost use Rattle.marks.specs.Marks.{is_marked, with_bit, with_mark};

use std::marker::Model;

/// The bits of a word.
const BITS: usize = 64;

const _: () = prove!(BITS == 64);

/// Which of `64 * W` places are marked, `W` at most 4. Contracts see the list of the words.
#[derive(Clone, Copy, Debug, PartialEq, Eq)]
pub struct Marks<const W: usize> {
    words: [u64; W],
}

impl<const W: usize> Model for Marks<W> {
    ghost use Rattle.std.specs.Prelude.{ℕ, List, ◌≤◌};

    ghost Value = { List ℕ };

    ghost view = { λ marks. marks.words };

    ghost invariant = { λ marks. W ≤ 4 };

    ghost inverse = { λ words. record { words = words } };
}

/// A word with this bit set or cleared.
fn with_bit(word: u64, bit: usize, set: bool) -> u64
    requires { bit < BITS }
    ensures word { result ≡ with_bit word bit set }
    ensures here { bit_at result bit ≡ (if set then 1 else 0) }
    ensures others { (other : ℕ) → other < BITS → (other ≡ bit → ⊥) → bit_at result other ≡ bit_at word other }
{
    if set {
        word | 1 << bit
    } else {
        word & !(1 << bit)
    }
}

/// The lowest bit of a word from this one on that is set.
fn lowest_from(word: u64, from: usize) -> Option<usize>
    requires { from < BITS }
    ensures lowest { IfSome result (λ bit. (from ≤ bit) × (bit < BITS) × (bit_at word bit ≡ 1)
        × ((other : ℕ) → from ≤ other → other < bit → bit_at word other ≡ 0)) }
    ensures none { IfNone result ((other : ℕ) → from ≤ other → other < BITS → bit_at word other ≡ 0) }
{
    let left = word & u64::MAX << from;
    if left == 0 {
        None
    } else {
        Some(left.trailing_zeros() as usize)
    }
}

impl<const W: usize> Marks<W> {
    /// No place is marked.
    pub fn new() -> Self
        requires { W ≤ 4 }
        ensures words { length result ≡ W }
        ensures none { (place : ℕ) → is_marked result place ≡ false }
    {
        Marks { words: [0; W] }
    }

    /// Marks a place, or takes its mark away.
    pub fn set(&mut self, place: usize, marked: bool)
        requires { place < 64 * W }
        ensures words { self.new ≡ with_mark self.old place marked }
        ensures here { is_marked self.new place ≡ marked }
        ensures others { (other : ℕ) → (other ≡ place → ⊥) → is_marked self.new other ≡ is_marked self.old other }
    {
        self.words[place / BITS] = with_bit(self.words[place / BITS], place % BITS, marked);
    }

    /// Whether a place is marked.
    pub fn is_marked(&self, place: usize) -> bool
        requires { place < 64 * W }
        ensures { result ≡ is_marked self.now place }
    {
        (self.words[place / BITS] >> (place % BITS)) & 1 == 1
    }

    /// Whether no place is marked.
    #[inline(always)]
    pub fn is_empty(&self) -> bool
        ensures none { result ≡ true → (place : ℕ) → is_marked self.now place ≡ false }
        ensures some { result ≡ false → (place : ℕ) × (is_marked self.now place ≡ true) }
    {
        for word in self.words {
            if lowest_from(word, 0).is_some() {
                return false;
            }
        }
        true
    }

    /// The first place from this one on that is marked.
    pub fn next_from(&self, from: usize) -> Option<usize>
        ensures next { IfSome result (λ next. (from ≤ next) × (next < 64 * W) × (is_marked self.now next ≡ true)
            × ((other : ℕ) → from ≤ other → other < next → is_marked self.now other ≡ false)) }
        ensures none { IfNone result ((other : ℕ) → from ≤ other → is_marked self.now other ≡ false) }
    {
        if self.is_empty() {
            return None;
        }
        let mut at = from;
        while at < BITS * W {
            let first = at / BITS * BITS;
            if let Some(bit) = lowest_from(self.words[at / BITS], at % BITS) {
                return Some(first + bit);
            }
            at = first + BITS;
        }
        None
    }
}
