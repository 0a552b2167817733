//! CRC-32C (RFC 3720 12.1), the checksum of iSCSI, ext4 and others.
//!
//! It is the remainder of the bytes in a division by the polynomial 11EDC6F41h, the lowest bit of each byte first (`crc32c_of` in
//! specs/checksum/Division.antt). [`crc32c`] gives that of bytes, and a [`Checksum`] that of bytes that come piece by piece. Each byte is
//! divided at once, by a table of what its 8 bits leave; the table is proved to have what the division leaves, place by place.
//!
//! Each change of up to 32 bits in a row of a text is met; of any other change one in 4,294,967,296 is not. That is the polynomial's, and
//! isn't proved here. No call takes memory.

ghost use Rattle.std.specs.Prelude.{◌≡◌};
ghost use Rattle.log_records.specs.checksum.Division.{begun, crc32c_of, ended, with_bits, with_byte, with_bytes};

mod laws;
mod table;

pub use laws::{changed_bytes_are_met, checksums_fit, parts_are_taken_in_turn, printed_checksums};
use std::marker::Model;
use table::REMAINDERS;

/// The checksum of bytes that come piece by piece. Contracts see the remainder of the division so far.
#[derive(Clone, Copy, Debug, PartialEq, Eq)]
pub struct Checksum {
    remainder: u32,
}

impl Model for Checksum {
    ghost use Rattle.std.specs.Prelude.{ℕ};

    ghost Value = { ℕ };

    ghost view = { λ checksum. checksum.remainder };

    ghost inverse = { λ remainder. record { remainder = remainder } };
}

impl Checksum {
    /// That of no byte.
    pub fn new() -> Checksum
        ensures { result ≡ begun }
    {
        Checksum {
            remainder: 0xffff_ffff,
        }
    }

    /// Takes more bytes, in order.
    pub fn add(&mut self, bytes: &[u8])
        ensures { self.new ≡ with_bytes self.old bytes.now }
    {
        for byte in bytes {
            self.remainder = divided(self.remainder, *byte);
        }
    }

    /// The checksum of the bytes so far.
    pub fn value(&self) -> u32
        ensures { result ≡ ended self.now }
    {
        self.remainder ^ 0xffff_ffff
    }
}

/// The remainder with a byte more.
fn divided(remainder: u32, byte: u8) -> u32
    ensures { result ≡ with_byte remainder byte }
{
    let mixed = remainder ^ u32::from(byte);
    mixed >> 8 ^ left_by((mixed & 0xff) as u8)
}

/// What the 8 bits of a byte leave.
fn left_by(byte: u8) -> u32
    ensures { result ≡ with_bits 8 byte }
{
    REMAINDERS[usize::from(byte)]
}

/// The checksum of bytes.
pub fn crc32c(bytes: &[u8]) -> u32
    ensures { result ≡ crc32c_of bytes.now }
{
    let mut checksum = Checksum::new();
    checksum.add(bytes);
    checksum.value()
}

#[cfg(test)]
mod tests {
    use super::crc32c;

    // RFC 3720 B.4
    #[test]
    fn thirty_two_zeros(rt: HostRuntime) {
        assert_eq!(rt; crc32c(&[0; 32]), 0x8a91_36aa);
    }

    #[test]
    fn thirty_two_bytes_of_ones(rt: HostRuntime) {
        assert_eq!(rt; crc32c(&[0xff; 32]), 0x62a8_ab43);
    }
}
