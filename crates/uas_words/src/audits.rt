//! The words of `audit`.
ghost use Rattle.std.specs.Prelude.{◌≡◌, IfSome, option_map};
ghost use Rattle.std.specs.Char.{is_ascii_hexdigit};
ghost use Rattle.std.specs.List.{list_all};
ghost use Rattle.clap.specs.Words.{found_of, rows_of};
ghost use Rattle.uas_words.specs.Options.{IsInRange};
ghost use Rattle.uas_words.specs.CommandLine.{asked_by, audit_of, head_of, hex_number, is_hex};

use crate::{Run, word_in};
use clap::ArgMatches;

/// The most hexadecimal digits of a checksum.
const MOST_HEX_DIGITS: usize = 8;

/// A log that is audited, and the checksum that is to be found in it, where one is named.
pub(crate) fn audit_in<'a>(words: &ArgMatches<'a>) -> Option<Run<'a>>
    ensures range { IfSome result IsInRange }
    ensures asked { option_map asked_by result ≡ audit_of (rows_of (found_of words.now)) }
{
    let log = word_in(words, "LOG")?;
    let head = head_in(words)?;
    Some(Run::Audit { log, head })
}

/// The checksum that `--head` names, where it stands. None where its word is none.
fn head_in(words: &ArgMatches<'_>) -> Option<Option<u32>>
    ensures { result ≡ head_of (rows_of (found_of words.now)) }
{
    match word_in(words, "head") {
        Some(word) => Some(Some(hex_number(word)?)),
        None => Some(None),
    }
}

/// The number of 1 to 8 hexadecimal digits. None where the word has another form.
fn hex_number(word: &str) -> Option<u32>
    ensures { result ≡ hex_number word.now }
{
    if is_hex(word) {
        u32::from_str_radix(word, 16).ok()
    } else {
        None
    }
}

fn is_hex(word: &str) -> bool
    ensures { result ≡ is_hex word.now }
{
    let digits = word.as_bytes();
    1 <= digits.len() && digits.len() <= MOST_HEX_DIGITS && are_hex_digits(digits)
}

fn are_hex_digits(bytes: &[u8]) -> bool
    ensures { result ≡ list_all is_ascii_hexdigit bytes.now }
{
    bytes.iter().all(|byte| byte.is_ascii_hexdigit())
}
