//! The record at the front of bytes.
ghost use Rattle.std.specs.Prelude.{◌≡◌, ◌+◌, ◌≤◌, ◌<◌, ◌^◌, length};
ghost use Rattle.log_records.specs.Finding.{LiesIn, behind, body_len, body_of, first_record, is_long_enough, is_whole, sum_of};
ghost use Rattle.log_records.specs.Records.{sum_after};

use crate::First;
use crate::writing::sum_after;
use byteorder::{BigEndian, ByteOrder};

/// How many bytes a length or a checksum has.
const NUMBER_BYTES: usize = 4;

/// What stands at the front of bytes, behind records of which `before` is the last checksum. It looks at the first record alone, and
/// where that has a wrong checksum at the one behind it.
#[tactic(auto, unfolding(crate::specs::Finding::first_record))]
pub fn first_record(before: u32, bytes: &[u8]) -> First
    ensures found { result ≡ first_record before bytes.now }
    ensures within { LiesIn bytes.now result }
{
    if bytes.is_empty() {
        return First::Nothing;
    }
    if !is_long_enough(bytes) {
        return First::Torn;
    }
    let sum = sum_of(bytes);
    let right = sum_after(before, body_of(bytes));
    if sum == right {
        return First::Whole {
            len: body_len(bytes),
            sum,
        };
    }
    let rest = behind(bytes);
    if is_whole(sum, rest) || is_whole(right, rest) {
        First::Wrong
    } else {
        First::Torn
    }
}

/// Whether a whole record stands at the front, behind a checksum.
fn is_whole(before: u32, bytes: &[u8]) -> bool
    ensures { result ≡ is_whole before bytes.now }
{
    is_long_enough(bytes) && sum_of(bytes) == sum_after(before, body_of(bytes))
}

/// Whether there are as many bytes as the length at their front asks for.
fn is_long_enough(bytes: &[u8]) -> bool
    ensures { result ≡ is_long_enough bytes.now }
{
    NUMBER_BYTES <= bytes.len() && 2 * NUMBER_BYTES + body_len(bytes) <= bytes.len()
}

/// The length at the front.
fn body_len(bytes: &[u8]) -> usize
    requires { 4 ≤ length bytes.now }
    ensures value { result ≡ body_len bytes.now }
    ensures few { result < 2 ^ 32 }
{
    BigEndian::read_u32(bytes) as usize
}

/// The body of the record at the front.
fn body_of(bytes: &[u8]) -> &[u8]
    requires some { 4 ≤ length bytes.now }
    requires long { 8 + body_len bytes.now ≤ length bytes.now }
    ensures { result.now ≡ body_of bytes.now }
{
    let len = body_len(bytes);
    &bytes[NUMBER_BYTES..][..len]
}

/// The checksum of the record at the front.
fn sum_of(bytes: &[u8]) -> u32
    requires some { 4 ≤ length bytes.now }
    requires long { 8 + body_len bytes.now ≤ length bytes.now }
    ensures { result ≡ sum_of bytes.now }
{
    let len = body_len(bytes);
    BigEndian::read_u32(&bytes[NUMBER_BYTES + len..])
}

/// What stands behind the record at the front.
fn behind(bytes: &[u8]) -> &[u8]
    requires some { 4 ≤ length bytes.now }
    requires long { 8 + body_len bytes.now ≤ length bytes.now }
    ensures { result.now ≡ behind bytes.now }
{
    let len = body_len(bytes);
    &bytes[2 * NUMBER_BYTES + len..]
}
