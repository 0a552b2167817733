//! The words of a line: which kind of bytes it has, their digits, and what they tell.

ghost use Rattle.std.specs.Prelude.{◌≡◌, [], ◌++◌, map, fold, length, IfOk, OnOk};
ghost use Rattle.std.specs.Str.{bytes_eq};
ghost use Rattle.uas_decode.specs.Line.{bytes_of, digits_in, has_address, is_cdb_digits, joined, kind_named, listed, names_stream, with_word};
ghost use Rattle.uas_decode.specs.Meaning.{answer_of, answer_of_words, bytes_answer, cdb_answer, context_answer, kind_answer};

use crate::kinds::{answer_of_bytes, cdb_told};
use crate::{Answer, Kind, LineFault, Refusal};
use byte_io::{number_in, words};
use hex::FromHexError;
use std::alloc::{AllocError, Global};

/// The digits of a stream context.
const CONTEXT_DIGITS: usize = 32;

/// The digits of an address.
const ADDRESS_DIGITS: usize = 16;

/// What a line tells: nothing where its first word names no bytes.
#[tactic(auto, unfolding(crate::specs::Meaning::answer_of))]
pub(crate) fn answer_of(
    alloc: Global,
    line: &[u8],
) -> Result<Option<Result<Answer, Refusal>>, AllocError>
    ensures { IfOk result (λ answer. answer ≡ answer_of line.now) }
{
    let words = words(alloc, line)?;
    answer_of_words(alloc, &words)
}

#[tactic(auto, unfolding(crate::specs::Meaning::answer_of_words))]
fn answer_of_words(
    alloc: Global,
    words: &[&[u8]],
) -> Result<Option<Result<Answer, Refusal>>, AllocError>
    ensures { IfOk result (λ answer. answer ≡ answer_of_words (map (λ word. word.now) words.now)) }
{
    let Some(first) = words.get(0) else {
        return Ok(None);
    };
    if words.len() == 1 && is_word(first, "event") {
        return Ok(None);
    }
    match kind_named(first) {
        Some(kind) => Ok(Some(kind_answer(alloc, kind, &words[1..])?)),
        None => Ok(None),
    }
}

fn is_word(word: &[u8], name: &str) -> bool
    ensures { result ≡ bytes_eq word.now name.now }
{
    word == name.as_bytes()
}

/// Which bytes a line of this first word has.
#[tactic(auto, unfolding(crate::specs::Line::kind_named))]
fn kind_named(word: &[u8]) -> Option<Kind>
    ensures { result ≡ kind_named word.now }
{
    if is_word(word, "unit") {
        Some(Kind::Unit)
    } else if is_word(word, "put") {
        Some(Kind::Trb)
    } else if is_word(word, "link") {
        Some(Kind::Trb)
    } else if is_word(word, "event") {
        Some(Kind::Trb)
    } else if is_word(word, "trb") {
        Some(Kind::Trb)
    } else if is_word(word, "context") {
        Some(Kind::Context)
    } else if is_word(word, "bell") {
        Some(Kind::Doorbell)
    } else if is_word(word, "cdb") {
        Some(Kind::Cdb)
    } else if is_word(word, "sense") {
        Some(Kind::Sense)
    } else if is_word(word, "host") {
        Some(Kind::HostCdb)
    } else {
        None
    }
}

/// What the words after the first one tell.
#[tactic(auto, unfolding(crate::specs::Meaning::kind_answer))]
fn kind_answer(
    alloc: Global,
    kind: Kind,
    words: &[&[u8]],
) -> Result<Result<Answer, Refusal>, AllocError>
    ensures { IfOk result (λ answer. answer ≡ kind_answer kind (map (λ word. word.now) words.now)) }
{
    match kind {
        Kind::Context => context_answer(alloc, words),
        Kind::Cdb => cdb_answer(alloc, words),
        Kind::Unit | Kind::Trb | Kind::Doorbell | Kind::HostCdb | Kind::Sense => {
            bytes_answer(alloc, kind, words)
        }
    }
}

/// What words tell that are bytes, behind an address or not.
#[tactic(auto, unfolding(crate::specs::Meaning::bytes_answer))]
fn bytes_answer(
    alloc: Global,
    kind: Kind,
    words: &[&[u8]],
) -> Result<Result<Answer, Refusal>, AllocError>
    ensures { IfOk result (λ answer. answer ≡ bytes_answer kind (map (λ word. word.now) words.now)) }
{
    match bytes_of(alloc, words)? {
        Ok(bytes) => Ok(answer_of_bytes(kind, has_address(words), &bytes)),
        Err(fault) => Ok(Err(Refusal::Line(fault))),
    }
}

/// What `context BYTES` or `context PIPE STREAM BYTES` tells.
#[tactic(auto, unfolding(crate::specs::Meaning::context_answer))]
fn context_answer(alloc: Global, words: &[&[u8]]) -> Result<Result<Answer, Refusal>, AllocError>
    ensures { IfOk result (λ answer. answer ≡ context_answer (map (λ word. word.now) words.now)) }
{
    let digits = joined(alloc, words)?;
    if digits.len() == CONTEXT_DIGITS || words.len() < 3 {
        return bytes_answer(alloc, Kind::Context, words);
    }
    if !names_stream(words) {
        return Ok(Err(Refusal::Line(LineFault::NumberOutOfRange)));
    }
    bytes_answer(alloc, Kind::Context, &words[2..])
}

/// Whether the first two words are the numbers of a pipe and of a stream.
#[tactic(auto, unfolding(crate::specs::Line::names_stream))]
fn names_stream(words: &[&[u8]]) -> bool
    ensures { result ≡ names_stream (map (λ word. word.now) words.now) }
{
    match (words.get(0), words.get(1)) {
        (Some(pipe), Some(stream)) => {
            number_in(1, 4, pipe).is_some() && number_in(0, u64::from(u16::MAX), stream).is_some()
        }
        _ => false,
    }
}

/// What `cdb BYTES` or `cdb BYTES BLOCKS` tells.
#[tactic(auto, unfolding(crate::specs::Meaning::cdb_answer))]
fn cdb_answer(alloc: Global, words: &[&[u8]]) -> Result<Result<Answer, Refusal>, AllocError>
    ensures { IfOk result (λ answer. answer ≡ cdb_answer (map (λ word. word.now) words.now)) }
{
    let Some((last, bytes)) = words.split_last() else {
        return bytes_answer(alloc, Kind::Cdb, words);
    };
    let digits = joined(alloc, words)?;
    let before = joined(alloc, bytes)?;
    if is_cdb_digits(digits.len()) || !is_cdb_digits(before.len()) {
        return bytes_answer(alloc, Kind::Cdb, words);
    }
    let Some(blocks) = number_in(0, u64::from(u32::MAX), last) else {
        return Ok(Err(Refusal::Line(LineFault::NumberOutOfRange)));
    };
    match bytes_of(alloc, bytes)? {
        Ok(bytes) => Ok(cdb_told(blocks as u32, &bytes)),
        Err(fault) => Ok(Err(Refusal::Line(fault))),
    }
}

/// Whether a CDB of 6, 10 or 16 bytes has so many digits.
#[tactic(auto, unfolding(crate::specs::Line::is_cdb_digits))]
fn is_cdb_digits(count: usize) -> bool
    ensures { result ≡ is_cdb_digits count }
{
    count == 12 || count == 20 || count == 32
}

/// Whether the first word may be an address.
#[tactic(auto, unfolding(crate::specs::Line::has_address))]
fn has_address(words: &[&[u8]]) -> bool
    ensures { result ≡ has_address (map (λ word. word.now) words.now) }
{
    match words.get(0) {
        Some(word) => digits_in(word).len() == ADDRESS_DIGITS,
        None => false,
    }
}

/// The bytes of words in hexadecimal digits.
#[tactic(auto, unfolding(crate::specs::Line::bytes_of))]
fn bytes_of(alloc: Global, words: &[&[u8]]) -> Result<Result<Vec<u8>, LineFault>, AllocError>
    ensures { IfOk result (λ bytes. listed bytes ≡ bytes_of (map (λ word. word.now) words.now)) }
{
    let digits = joined(alloc, words)?;
    if digits.is_empty() {
        return Ok(Err(LineFault::NoDigits));
    }
    match hex::decode(alloc, digits.as_slice()) {
        Ok(bytes) => Ok(Ok(bytes)),
        Err(FromHexError::OutOfMemory) => Err(AllocError),
        Err(FromHexError::InvalidHexCharacter { .. }) => Ok(Err(LineFault::NotHex)),
        Err(_) => Ok(Err(LineFault::WrongNumberOfDigits)),
    }
}

/// The digits of words, one after the other.
#[tactic(auto, unfolding(crate::specs::Line::joined))]
fn joined(alloc: Global, words: &[&[u8]]) -> Result<Vec<u8>, AllocError>
    ensures { IfOk result (λ digits. digits.items ≡ joined (map (λ word. word.now) words.now)) }
{
    let mut digits = Vec::new(alloc);
    for word in words {
        digits.extend_from_slice(digits_in(word))?;
    }
    Ok(digits)
}

/// The digits of a word, which may begin with `0x`.
#[tactic(auto, unfolding(crate::specs::Line::digits_in))]
fn digits_in(word: &[u8]) -> &[u8]
    ensures { result.now ≡ digits_in word.now }
{
    if word.len() >= 2 && word[0] == b'0' && (word[1] == b'x' || word[1] == b'X') {
        &word[2..]
    } else {
        word
    }
}
