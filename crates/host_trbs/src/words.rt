//! The three words of a TRB, and the bytes that they lie in.
ghost use Rattle.std.specs.Prelude.{◌≡◌};
ghost use Rattle.host_trbs.specs.Words.{aligned, bit, bytes_of, words_in};

use byteorder::{ByteOrder, LittleEndian};

/// The parameter, status and control words of a TRB (6.4), with the Cycle bit in control bit 0.
#[derive(Clone, Copy, Debug, PartialEq, Eq)]
pub struct Words {
    pub parameter: u64,
    pub status: u32,
    pub control: u32,
}

impl Words {
    /// The 16 bytes of a TRB, each word low byte first.
    #[tactic(auto, unfolding(crate::specs::Words::bytes_of))]
    pub fn bytes(self) -> [u8; 16]
        ensures { result ≡ bytes_of self }
    {
        let mut bytes = [0; 16];
        LittleEndian::write_u64(&mut bytes, self.parameter);
        LittleEndian::write_u32(&mut bytes[8..], self.status);
        LittleEndian::write_u32(&mut bytes[12..], self.control);
        bytes
    }

    /// The words of a TRB's 16 bytes.
    #[tactic(auto, unfolding(crate::specs::Words::words_in))]
    pub fn from_bytes(bytes: &[u8; 16]) -> Words
        ensures { result ≡ words_in bytes.now }
    {
        Words {
            parameter: LittleEndian::read_u64(&bytes[..8]),
            status: LittleEndian::read_u32(&bytes[8..]),
            control: LittleEndian::read_u32(&bytes[12..]),
        }
    }
}

// An address in bits 63:4 of a word, whose low four bits are left to flags.
pub(crate) fn aligned(address: u64) -> u64
    ensures { result ≡ aligned address }
{
    address - address % 16
}

// The Cycle bit.
pub(crate) fn cycle_bit(cycle: bool) -> u32
    ensures { result ≡ bit cycle }
{
    if cycle { 1 } else { 0 }
}
