//! The lines, words and numbers of a text.

ghost use Rattle.std.specs.Prelude.{◌≡◌, ℕ, ◌+◌, ◌*◌, ◌≤◌, ◌<◌, map, fold, true, IfOk, IfSome, if◌then◌else◌, nat_le, Some, None};
ghost use Rattle.std.specs.List.{list_all};
ghost use Rattle.std.specs.Char.{is_ascii_digit};
ghost use Rattle.byte_io.specs.Words.{pieces, words, is_number, number_in, value_of};

use std::alloc::{AllocError, Global};

/// The pieces of a text between line feeds.
pub fn pieces<'a>(alloc: Global, text: &'a [u8]) -> Result<Vec<&'a [u8]>, AllocError>
    ensures { IfOk result (λ found. map (λ piece. piece.now) found.items ≡ pieces text.entry.now) }
{
    text.split(|byte| *byte == b'\n').collect(alloc)
}

/// The words of a line.
pub fn words<'a>(alloc: Global, line: &'a [u8]) -> Result<Vec<&'a [u8]>, AllocError>
    ensures { IfOk result (λ found. map (λ word. word.now) found.items ≡ words line.entry.now) }
{
    line.split(|byte| *byte == b' ')
        .filter(|word| !word.is_empty())
        .collect(alloc)
}

/// Whether a word is a number.
pub fn is_number(word: &[u8]) -> bool
    ensures { result ≡ is_number word.now }
{
    !word.is_empty() && word.iter().all(|byte| byte.is_ascii_digit())
}

/// The value of a word, where it is a number of this range.
pub fn number_in(least: u64, most: u64, word: &[u8]) -> Option<u64>
    ensures value { result ≡ number_in least most word.now }
    ensures range { IfSome result (λ value. value ≤ most) }
{
    if !is_number(word) {
        return None;
    }
    value_up_to(most, word).filter(|value| least <= *value)
}

/// The value of digits, where it is at most this one.
fn value_up_to(most: u64, digits: &[u8]) -> Option<u64>
    requires { list_all is_ascii_digit digits.now ≡ true }
    ensures { result ≡ (if nat_le (value_of digits.now) most then Some (value_of digits.now) else None) }
{
    let mut value: u128 = 0;
    for digit in digits {
        value = 10 * value + u128::from(*digit - b'0');
        if value > u128::from(most) {
            return None;
        }
    }
    Some(value as u64)
}
