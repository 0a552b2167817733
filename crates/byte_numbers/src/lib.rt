//! Numbers as bytes, the highest first: lemmas for what reads texts and messages.
//!
//! `AreBytes` of specs/Bytes.antt says that a list is one of bytes. proofs/Bytes.antt has what holds of its parts, proofs/Numbers.antt what
//! holds of numbers in it. Each crate that reads a number of so many bytes, and promises that those were the only ones which say it, stands
//! on them.
//!
//! What is promised: bytes that are read as a number are the bytes of that number. The crate has no code that runs.
#![tactic(auto)]

ghost use Rattle.std.specs.Prelude.{◌≡◌, ℕ, List, ◌≤◌, length, take};
ghost use Rattle.std.specs.Int.{bytes_high_first};
ghost use Rattle.byteorder.specs.Endian.{big_from};
ghost use Rattle.byte_numbers.specs.Bytes.{AreBytes};

/// The bytes of a number that was read are those that were read.
#[tactic(auto, using(crate::proofs::Numbers::number_bytes))]
pub fn numbers_are_read_of_their_bytes()
    ensures { (n : ℕ) (bytes : List ℕ) → n ≤ length bytes → AreBytes bytes → bytes_high_first n (big_from 0 n bytes) ≡ take n bytes }
{}
