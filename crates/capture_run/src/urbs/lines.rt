//! What a line of a trace tells.

ghost use Rattle.std.specs.Prelude.{◌≡◌, IfOk, IfSome, ◌≤◌, map};
ghost use Rattle.std.specs.Str.{bytes_eq};
ghost use Rattle.capture_run.specs.urbs.Lines.{address_at, bytes_in, chunk_news, context_news, event_news, is_step, news_in, news_of_words};
ghost use Rattle.capture_run.specs.urbs.Lines.{number_at, owner_at, put_news, step_news, trb_at, trb_of, written_news};
ghost use Rattle.stream_array.specs.Map.{pipe_numbered};

use crate::urbs::{News, Owner};
use byte_io::{number_in, words};
use frame_store::{Buffer, Place};
use std::alloc::{AllocError, Global};
use stream_array::{Pipe, find};
use xhci_trb::{Trb, decode};

/// What a line tells; nothing where a capture doesn't go by it.
#[tactic(auto, unfolding(crate::specs::urbs::Lines::news_in))]
pub fn news_in(alloc: Global, line: &[u8]) -> Result<Option<News>, AllocError>
    ensures { IfOk result (λ news. news ≡ news_in line.now) }
{
    let words = words(alloc, line)?;
    let is_written = line.get(0).copied().unwrap_or(0) == b' ';
    Ok(news_of_words(is_written, &words))
}

/// What words tell, of a line that is indented or not.
#[tactic(auto, unfolding(crate::specs::urbs::Lines::news_of_words))]
fn news_of_words(is_written: bool, words: &[&[u8]]) -> Option<News>
    ensures { result ≡ news_of_words is_written (map (λ word. word.now) words.now) }
{
    match words.get(0) {
        Some(first) if is_written => written_news(first, words),
        Some(first) => step_news(first, words),
        None => None,
    }
}

fn is_word(word: &[u8], name: &str) -> bool
    ensures { result ≡ bytes_eq word.now name.now }
{
    word == name.as_bytes()
}

/// Whether it is the name of a step that isn't handed in by a client.
#[tactic(auto, unfolding(crate::specs::urbs::Lines::is_step))]
fn is_step(word: &[u8]) -> bool
    ensures { result ≡ is_step word.now }
{
    is_word(word, "command")
        || is_word(word, "engine")
        || is_word(word, "event")
        || is_word(word, "data")
        || is_word(word, "status")
        || is_word(word, "retire")
        || is_word(word, "take")
}

/// What the line of a step tells: `submit C TAG TICKET ..`, `task C TICKET ..`, or another step.
#[tactic(auto, unfolding(crate::specs::urbs::Lines::step_news))]
fn step_news(first: &[u8], words: &[&[u8]]) -> Option<News>
    ensures { result ≡ step_news first.now (map (λ word. word.now) words.now) }
{
    if is_word(first, "submit") {
        Some(News::Step(owner_at(words, 1, 3)))
    } else if is_word(first, "task") {
        Some(News::Step(owner_at(words, 1, 2)))
    } else if is_step(first) {
        Some(News::Step(None))
    } else {
        None
    }
}

/// The owner of whom the words at these places tell.
#[tactic(auto, unfolding(crate::specs::urbs::Lines::owner_at))]
fn owner_at(words: &[&[u8]], client: usize, ticket: usize) -> Option<Owner>
    ensures { result ≡ owner_at (map (λ word. word.now) words.now) client ticket }
{
    let client = number_at(words, client, 0, u64::MAX)?;
    let ticket = number_at(words, ticket, 0, u64::MAX)?;
    Some(Owner { client, ticket })
}

/// The word at a place, as a number of this range.
#[tactic(auto, unfolding(crate::specs::urbs::Lines::number_at))]
pub fn number_at(words: &[&[u8]], place: usize, least: u64, most: u64) -> Option<u64>
    ensures value { result ≡ number_at (map (λ word. word.now) words.now) place least most }
    ensures range { IfSome result (λ value. value ≤ most) }
{
    number_in(least, most, words.get(place)?)
}

/// What the line of something written tells.
#[tactic(auto, unfolding(crate::specs::urbs::Lines::written_news))]
fn written_news(first: &[u8], words: &[&[u8]]) -> Option<News>
    ensures { result ≡ written_news first.now (map (λ word. word.now) words.now) }
{
    if is_word(first, "put") {
        put_news(words)
    } else if is_word(first, "in") {
        chunk_news(Pipe::DataIn, words)
    } else if is_word(first, "out") {
        chunk_news(Pipe::DataOut, words)
    } else if is_word(first, "event") {
        event_news(words)
    } else if is_word(first, "context") {
        context_news(words)
    } else {
        None
    }
}

/// `put ADDRESS BYTES`: a Normal TRB on a pipe's ring.
#[tactic(auto, unfolding(crate::specs::urbs::Lines::put_news))]
fn put_news(words: &[&[u8]]) -> Option<News>
    ensures { result ≡ put_news (map (λ word. word.now) words.now) }
{
    let address = address_at(words)?;
    let (pipe, stream, _) = find(address)?;
    let trb = trb_at(words)?;
    match trb {
        Trb::Normal { length, .. } => Some(News::Put {
            pipe,
            stream,
            address,
            length,
            is_last: !trb.has_chain(),
        }),
        _ => None,
    }
}

/// `in ADDRESS LENGTH`, `out ADDRESS LENGTH`: bytes of a tag's data window.
#[tactic(auto, unfolding(crate::specs::urbs::Lines::chunk_news))]
fn chunk_news(pipe: Pipe, words: &[&[u8]]) -> Option<News>
    ensures { result ≡ chunk_news pipe (map (λ word. word.now) words.now) }
{
    let address = address_at(words)?;
    let place = Place::at(address)?;
    let length = number_at(words, 2, 0, u64::from(u32::MAX))? as u32;
    match place.buffer {
        Buffer::Window => Some(News::Moved {
            pipe,
            stream: place.tag,
            length,
        }),
        Buffer::Command | Buffer::Status => None,
    }
}

/// `event ADDRESS BYTES`: a Transfer Event.
#[tactic(auto, unfolding(crate::specs::urbs::Lines::event_news))]
fn event_news(words: &[&[u8]]) -> Option<News>
    ensures { result ≡ event_news (map (λ word. word.now) words.now) }
{
    match trb_at(words)? {
        Trb::TransferEvent {
            pointer,
            residual,
            code,
            ..
        } => Some(News::Posted {
            pointer,
            residual,
            code,
        }),
        _ => None,
    }
}

/// `context PIPE STREAM BYTES`: the front of a ring, as it was moved.
#[tactic(auto, unfolding(crate::specs::urbs::Lines::context_news))]
fn context_news(words: &[&[u8]]) -> Option<News>
    ensures { result ≡ context_news (map (λ word. word.now) words.now) }
{
    let pipe = pipe_numbered(number_at(words, 1, 2, 4)?)?;
    let stream = number_at(words, 2, 0, u64::from(u16::MAX))? as u16;
    Some(News::Passed { pipe, stream })
}

/// The pipe of a number.
fn pipe_numbered(number: u64) -> Option<Pipe>
    ensures { result ≡ pipe_numbered number }
{
    match number {
        1 => Some(Pipe::Command),
        2 => Some(Pipe::Status),
        3 => Some(Pipe::DataIn),
        4 => Some(Pipe::DataOut),
        _ => None,
    }
}

/// The address behind the first word, in 16 digits.
#[tactic(auto, unfolding(crate::specs::urbs::Lines::address_at))]
pub fn address_at(words: &[&[u8]]) -> Option<u64>
    ensures { result ≡ address_at (map (λ word. word.now) words.now) }
{
    let bytes = eight_bytes_in(words.get(1)?)?;
    Some(u64::from_be_bytes(bytes))
}

/// Eight bytes in hexadecimal digits.
#[tactic(auto, unfolding(crate::specs::urbs::Lines::bytes_in))]
fn eight_bytes_in(word: &[u8]) -> Option<[u8; 8]>
    ensures { result ≡ bytes_in 8 word.now }
{
    let mut bytes = [0; 8];
    match hex::decode_to_slice(word, &mut bytes) {
        Ok(()) => Some(bytes),
        Err(_) => None,
    }
}

/// Sixteen bytes in hexadecimal digits.
#[tactic(auto, unfolding(crate::specs::urbs::Lines::bytes_in))]
fn sixteen_bytes_in(word: &[u8]) -> Option<[u8; 16]>
    ensures { result ≡ bytes_in 16 word.now }
{
    let mut bytes = [0; 16];
    match hex::decode_to_slice(word, &mut bytes) {
        Ok(()) => Some(bytes),
        Err(_) => None,
    }
}

/// The TRB behind the address, in 32 digits.
#[tactic(auto, unfolding(crate::specs::urbs::Lines::trb_at))]
fn trb_at(words: &[&[u8]]) -> Option<Trb>
    ensures { result ≡ trb_at (map (λ word. word.now) words.now) }
{
    let bytes = sixteen_bytes_in(words.get(2)?)?;
    trb_of(&bytes)
}

/// The TRB that bytes hold.
#[tactic(auto, unfolding(crate::specs::urbs::Lines::trb_of))]
fn trb_of(bytes: &[u8; 16]) -> Option<Trb>
    ensures { result ≡ trb_of bytes.now }
{
    match decode(bytes) {
        Ok((trb, _)) => Some(trb),
        Err(_) => None,
    }
}
