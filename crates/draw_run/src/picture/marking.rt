//! Of what kind a line of a trace is.

ghost use Rattle.std.specs.Prelude.{◌≡◌, ◌≤◌, IfOk, IfSome, map};
ghost use Rattle.std.specs.Str.{bytes_eq};
ghost use Rattle.uas_profile.specs.Tags.{AreTags};
ghost use Rattle.draw_run.specs.picture.Marks.{client_at, handed_mark, is_hosts_unit, mark_of, mark_of_words, hold_mark, number_at};
ghost use Rattle.draw_run.specs.picture.Marks.{owner_at, step_mark, tag_mark, taken_mark, told_mark, unit_mark, written_mark};

use crate::picture::Mark;
use byte_io::{number_in, words};
use std::alloc::{AllocError, Global};
use uas_profile::{MAX_CLIENTS, STREAMS, client_of};

/// The greatest number of a client.
const LAST_CLIENT: u64 = MAX_CLIENTS as u64 - 1;

/// Of what kind a line is, where each client has so many tags.
#[tactic(auto, unfolding(crate::specs::picture::Marks::mark_of))]
pub fn mark_of(alloc: Global, tags: usize, line: &[u8]) -> Result<Mark, AllocError>
    requires { AreTags tags }
    ensures { IfOk result (λ mark. mark ≡ mark_of tags line.now) }
{
    let words = words(alloc, line)?;
    let is_written = line.get(0).copied().unwrap_or(0) == b' ';
    Ok(mark_of_words(tags, is_written, &words))
}

/// Of what kind a line of these words is, indented or not.
#[tactic(auto, unfolding(crate::specs::picture::Marks::mark_of_words))]
fn mark_of_words(tags: usize, is_written: bool, words: &[&[u8]]) -> Mark
    requires { AreTags tags }
    ensures { result ≡ mark_of_words tags is_written (map (λ word. word.now) words.now) }
{
    match words.get(0) {
        Some(first) if is_written => written_mark(first, words),
        Some(first) => step_mark(tags, first, words),
        None => Mark::Blank,
    }
}

fn is_word(word: &[u8], name: &str) -> bool
    ensures { result ≡ bytes_eq word.now name.now }
{
    word == name.as_bytes()
}

/// Of what kind a line is that tells what was written.
#[tactic(auto, unfolding(crate::specs::picture::Marks::written_mark))]
fn written_mark(first: &[u8], words: &[&[u8]]) -> Mark
    ensures { result ≡ written_mark first.now (map (λ word. word.now) words.now) }
{
    if is_word(first, "put") || is_word(first, "link") {
        Mark::Put
    } else if is_word(first, "bell") {
        Mark::Doorbell
    } else if is_word(first, "unit") {
        unit_mark(words)
    } else if is_word(first, "in") {
        Mark::Chunk { is_in: true }
    } else if is_word(first, "out") {
        Mark::Chunk { is_in: false }
    } else if is_word(first, "event") {
        Mark::Event
    } else if is_word(first, "context") {
        Mark::Release
    } else {
        Mark::Other
    }
}

/// `unit ADDRESS BYTES`: by the first byte, the unit's kind.
#[tactic(auto, unfolding(crate::specs::picture::Marks::unit_mark))]
fn unit_mark(words: &[&[u8]]) -> Mark
    ensures { result ≡ unit_mark (map (λ word. word.now) words.now) }
{
    match words.get(2) {
        Some(bytes) => Mark::Unit {
            is_hosts: is_hosts_unit(bytes),
        },
        None => Mark::Other,
    }
}

/// Whether it is a Command unit (01h) or a Task Management unit (05h).
#[tactic(auto, unfolding(crate::specs::picture::Marks::is_hosts_unit))]
fn is_hosts_unit(bytes: &[u8]) -> bool
    ensures { result ≡ is_hosts_unit bytes.now }
{
    let kind = &bytes[..bytes.len().min(2)];
    is_word(kind, "01") || is_word(kind, "05")
}

/// Of what kind the line of a step is, or of what a client was told.
#[tactic(auto, unfolding(crate::specs::picture::Marks::step_mark))]
fn step_mark(tags: usize, first: &[u8], words: &[&[u8]]) -> Mark
    requires { AreTags tags }
    ensures { result ≡ step_mark tags first.now (map (λ word. word.now) words.now) }
{
    if is_word(first, "submit") || is_word(first, "task") {
        handed_mark(words)
    } else if is_word(first, "take") {
        taken_mark(words)
    } else if is_word(first, "data") || is_word(first, "status") {
        tag_mark(tags, words)
    } else if is_word(first, "retire") {
        hold_mark(tags, words)
    } else if is_word(first, "event") {
        Mark::Heard
    } else if is_word(first, "command") || is_word(first, "engine") {
        Mark::Step
    } else {
        told_mark(words)
    }
}

/// `submit C ..`, `task C ..`
#[tactic(auto, unfolding(crate::specs::picture::Marks::handed_mark))]
fn handed_mark(words: &[&[u8]]) -> Mark
    ensures { result ≡ handed_mark (map (λ word. word.now) words.now) }
{
    match client_at(words, 1) {
        Some(client) => Mark::Handed(client),
        None => Mark::Other,
    }
}

/// `take C`
#[tactic(auto, unfolding(crate::specs::picture::Marks::taken_mark))]
fn taken_mark(words: &[&[u8]]) -> Mark
    ensures { result ≡ taken_mark (map (λ word. word.now) words.now) }
{
    match client_at(words, 1) {
        Some(client) => Mark::Taken(client),
        None => Mark::Other,
    }
}

/// `C ..`
#[tactic(auto, unfolding(crate::specs::picture::Marks::told_mark))]
fn told_mark(words: &[&[u8]]) -> Mark
    ensures { result ≡ told_mark (map (λ word. word.now) words.now) }
{
    match client_at(words, 0) {
        Some(client) => Mark::Told(client),
        None => Mark::Other,
    }
}

/// `data TAG`, `status TAG`
#[tactic(auto, unfolding(crate::specs::picture::Marks::tag_mark))]
fn tag_mark(tags: usize, words: &[&[u8]]) -> Mark
    requires { AreTags tags }
    ensures { result ≡ tag_mark tags (map (λ word. word.now) words.now) }
{
    match owner_at(tags, words, 1) {
        Some(client) => Mark::OfClient(client),
        None => Mark::Other,
    }
}

/// `retire PIPE TAG`
#[tactic(auto, unfolding(crate::specs::picture::Marks::hold_mark))]
fn hold_mark(tags: usize, words: &[&[u8]]) -> Mark
    requires { AreTags tags }
    ensures { result ≡ hold_mark tags (map (λ word. word.now) words.now) }
{
    match (number_at(words, 1, 2, 4), owner_at(tags, words, 2)) {
        (Some(pipe), Some(client)) => Mark::Hold {
            pipe: pipe as u8,
            client,
        },
        _ => Mark::Other,
    }
}

/// The word at a place, as a client's number.
#[tactic(auto, unfolding(crate::specs::picture::Marks::client_at))]
fn client_at(words: &[&[u8]], place: usize) -> Option<u8>
    ensures { result ≡ client_at (map (λ word. word.now) words.now) place }
{
    let client = number_at(words, place, 0, LAST_CLIENT)?;
    Some(client as u8)
}

/// The client of the tag at a place.
#[tactic(auto, unfolding(crate::specs::picture::Marks::owner_at), using(crate::proofs::Owners::owner_small))]
fn owner_at(tags: usize, words: &[&[u8]], place: usize) -> Option<u8>
    requires { AreTags tags }
    ensures { result ≡ owner_at tags (map (λ word. word.now) words.now) place }
{
    let tag = number_at(words, place, 1, u64::from(STREAMS))?;
    Some(client_of(tags, tag as u16) as u8)
}

/// The word at a place, as a number of this range.
#[tactic(auto, unfolding(crate::specs::picture::Marks::number_at), using(crate::proofs::Owners::number_least))]
fn number_at(words: &[&[u8]], place: usize, least: u64, most: u64) -> Option<u64>
    ensures value { result ≡ number_at (map (λ word. word.now) words.now) place least most }
    ensures least { IfSome result (λ value. least ≤ value) }
    ensures most { IfSome result (λ value. value ≤ most) }
{
    number_in(least, most, words.get(place)?)
}
