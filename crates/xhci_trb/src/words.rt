// The three words of a TRB, and the bytes that they lie in.

ghost use Rattle.std.specs.Prelude.{◌≡◌, ◌+◌, ◌/◌, ◌%◌, ◌^◌, ◌≤◌};
ghost use Rattle.xhci_trb.specs.Words.{words_in, bytes_of, FitsWords};

use byteorder::{ByteOrder, LittleEndian};

/// The parameter, status and control words of a TRB (xHCI 1.2, 6.4).
#[derive(Clone, Copy, Debug, PartialEq, Eq)]
pub struct Words {
    pub parameter: u64,
    pub status: u32,
    pub control: u32,
}

/// The three words in 16 bytes, each low byte first.
#[tactic(auto, unfolding(crate::specs::Words::words_in))]
pub(crate) fn read_words(bytes: &[u8; 16]) -> Words
    ensures { result ≡ words_in bytes.now }
{
    Words {
        parameter: LittleEndian::read_u64(&bytes[..8]),
        status: LittleEndian::read_u32(&bytes[8..]),
        control: LittleEndian::read_u32(&bytes[12..]),
    }
}

/// The 16 bytes of three words.
#[tactic(auto, unfolding(crate::specs::Words::bytes_of))]
pub(crate) fn write_words(words: Words) -> [u8; 16]
    ensures { result ≡ bytes_of words }
{
    let mut bytes = [0; 16];
    LittleEndian::write_u64(&mut bytes, words.parameter);
    LittleEndian::write_u32(&mut bytes[8..], words.status);
    LittleEndian::write_u32(&mut bytes[12..], words.control);
    bytes
}

/// The field of `width` bits whose lowest bit is bit `low`.
pub(crate) fn field(word: u32, low: u32, width: u32) -> u32
    requires { low + width ≤ 31 }
    ensures { result ≡ word / 2 ^ low % 2 ^ width }
{
    (word >> low) % (1 << width)
}
