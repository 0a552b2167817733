//! The words of a TRB (xHCI 1.2, 6.4).
ghost use Rattle.std.specs.Prelude.{◌≡◌, ◌<◌};
ghost use Rattle.guest_memory.specs.rings.Words.{bit, bit_in, cycle_in, type_in, words_in};

use byteorder::{ByteOrder, LittleEndian};

/// The parameter, status and control words of a TRB.
#[derive(Clone, Copy, Debug, PartialEq, Eq)]
pub struct Words {
    pub parameter: u64,
    pub status: u32,
    pub control: u32,
}

/// The three words in 16 bytes, each low byte first.
#[tactic(auto, unfolding(crate::specs::rings::Words::words_in))]
pub(crate) fn read_words(bytes: &[u8; 16]) -> Words
    ensures { result ≡ words_in bytes.now }
{
    Words {
        parameter: LittleEndian::read_u64(&bytes[..8]),
        status: LittleEndian::read_u32(&bytes[8..]),
        control: LittleEndian::read_u32(&bytes[12..]),
    }
}

impl Words {
    /// The Cycle bit.
    pub fn cycle(&self) -> bool
        ensures { result ≡ cycle_in self.now }
    {
        self.control % 2 == 1
    }

    /// The TRB type (6.4.6).
    pub fn kind(&self) -> u8
        ensures { result ≡ type_in self.now }
    {
        ((self.control >> 10) % 64) as u8
    }
}

/// The bit at a place of a word.
pub(crate) fn bit_of(word: u32, place: u32) -> bool
    requires { place < 31 }
    ensures { result ≡ bit_in word place }
{
    (word >> place) % 2 == 1
}

/// 1 for a bit that is set.
pub(crate) fn bit(flag: bool) -> u32
    ensures { result ≡ bit flag }
{
    if flag { 1 } else { 0 }
}
