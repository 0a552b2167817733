//! Big endian fields of SCSI data.
ghost use Rattle.std.specs.Prelude.{◌≡◌, ◌+◌, ◌≤◌, ◌<◌, length};
ghost use Rattle.scsi_cmd.specs.Fields.{eight_bytes, field_of_eight, field_of_four, field_of_two, four_bytes, is_bit_set};

/// The number of two bytes at a place.
pub(crate) fn two_at(bytes: &[u8], at: usize) -> u16
    requires { at + 2 ≤ length bytes.now }
    ensures { result ≡ field_of_two bytes.now at }
{
    u16::from_be_bytes([bytes[at], bytes[at + 1]])
}

/// Of four bytes.
pub(crate) fn four_at(bytes: &[u8], at: usize) -> u32
    requires { at + 4 ≤ length bytes.now }
    ensures { result ≡ field_of_four bytes.now at }
{
    u32::from_be_bytes([bytes[at], bytes[at + 1], bytes[at + 2], bytes[at + 3]])
}

/// Of eight bytes.
pub(crate) fn eight_at(bytes: &[u8], at: usize) -> u64
    requires { at + 8 ≤ length bytes.now }
    ensures { result ≡ field_of_eight bytes.now at }
{
    u64::from(four_at(bytes, at)) << 32 | u64::from(four_at(bytes, at + 4))
}

pub(crate) fn has_bit(byte: u8, bit: u8) -> bool
    requires { bit < 8 }
    ensures { result ≡ is_bit_set byte bit }
{
    byte >> bit & 1 == 1
}

pub(crate) fn four_bytes(number: u32) -> [u8; 4]
    ensures { result ≡ four_bytes number }
{
    number.to_be_bytes()
}

pub(crate) fn eight_bytes(number: u64) -> [u8; 8]
    ensures { result ≡ eight_bytes number }
{
    let [a, b, c, d] = four_bytes((number >> 32) as u32);
    let [e, f, g, h] = four_bytes((number & 0xffff_ffff) as u32);
    [a, b, c, d, e, f, g, h]
}
