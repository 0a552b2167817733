//! Numbers as bytes of data.
ghost use Rattle.std.specs.Prelude.{◌≡◌, ◌+◌, ◌≤◌, ◌++◌, length};
ghost use Rattle.arrayvec.specs.ArrayVec.{array_vec_len};
ghost use Rattle.scsi_cmd.specs.Fields.{eight_bytes, four_bytes, two_bytes};
ghost use Rattle.disk_units.specs.Digits.{digit, eight_digits};

use arrayvec::ArrayVec;

pub(crate) fn two_bytes(number: u16) -> [u8; 2]
    ensures { result ≡ two_bytes number }
{
    number.to_be_bytes()
}

/// A number in four bytes, the highest one first.
pub fn four_bytes(number: u32) -> [u8; 4]
    ensures { result ≡ four_bytes number }
{
    number.to_be_bytes()
}

/// A number in eight bytes, the highest one first.
pub fn eight_bytes(number: u64) -> [u8; 8]
    ensures { result ≡ eight_bytes number }
{
    let [a, b, c, d] = four_bytes((number >> 32) as u32);
    let [e, f, g, h] = four_bytes((number & 0xffff_ffff) as u32);
    [a, b, c, d, e, f, g, h]
}

/// Eight decimal digits.
pub fn eight_digits(number: u32) -> [u8; 8]
    ensures { result ≡ eight_digits number }
{
    [
        digit(number / 10_000_000),
        digit(number / 1_000_000),
        digit(number / 100_000),
        digit(number / 10_000),
        digit(number / 1_000),
        digit(number / 100),
        digit(number / 10),
        digit(number),
    ]
}

fn digit(number: u32) -> u8
    ensures { result ≡ digit number }
{
    b'0' + (number % 10) as u8
}

/// Appends bytes, for which there is room.
pub(crate) fn put<const N: usize>(into: &mut ArrayVec<u8, N>, bytes: &[u8])
    requires { array_vec_len into.old + length bytes.now ≤ N }
    ensures items { into.new.items ≡ into.old.items ++ bytes.now }
    ensures len { array_vec_len into.new ≡ array_vec_len into.old + length bytes.now }
{
    into.try_extend_from_slice(bytes).unwrap();
}
