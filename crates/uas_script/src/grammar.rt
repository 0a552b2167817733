//! What the words of a line ask for.

ghost use Rattle.std.specs.Prelude.{◌≡◌, ℕ, ◌≤◌, ◌<◌, map, IfSome, length};
ghost use Rattle.std.specs.Str.{bytes_eq};
ghost use Rattle.uas_profile.specs.Tags.{AreTags};
ghost use Rattle.uas_profile.specs.declared.TheConstants.{MAX_CLIENTS, STREAMS};
ghost use Rattle.uas_script.specs.Script.{number_at, fua_at, client_at, greatest_tag, tag_at, pipe_at, lba_at, long_lba_at, count_at, byte_at, request_named};
ghost use Rattle.uas_script.specs.Script.{request_has, zeroed, read_of, write_of, long_read_of, long_write_of, request_of, submission_of, submission, step_named, step_has, step_of};
ghost use Rattle.uas_script.specs.Script.{named_step, line_of_words};

use crate::{Line, LineFault, Request, RequestName, StepName};
use byte_io::{is_number, number_in};
use scsi_cmd::{Op, Task};
use stream_array::Pipe;
use uas_profile::most_clients;

fn is_word(word: &[u8], name: &str) -> bool
    ensures { result ≡ bytes_eq word.now name.now }
{
    word == name.as_bytes()
}

/// The word at a place, as a number of this range.
fn number_at(words: &[&[u8]], place: usize, least: u64, most: u64) -> Option<u64>
    ensures value { result ≡ number_at (map (λ word. word.now) words.now) place least most }
    ensures range { IfSome result (λ value. value ≤ most) }
{
    number_in(least, most, words.get(place)?)
}

/// The word at a place, as the number of one of so many clients.
fn client_at(clients: usize, words: &[&[u8]], place: usize) -> Option<usize>
    requires some { 0 < clients }
    requires few { clients ≤ MAX_CLIENTS }
    ensures { result ≡ client_at clients (map (λ word. word.now) words.now) place }
{
    let client = number_at(words, place, 0, clients as u64 - 1)?;
    Some(client as usize)
}

/// The word at a place, as a tag.
fn tag_at(tags: usize, words: &[&[u8]], place: usize) -> Option<u16>
    requires { AreTags tags }
    ensures { result ≡ tag_at tags (map (λ word. word.now) words.now) place }
{
    let tag = number_at(words, place, 1, greatest_tag(tags))?;
    Some(tag as u16)
}

/// The greatest tag that clients of so many tags can have.
fn greatest_tag(tags: usize) -> u64
    requires { AreTags tags }
    ensures tag { result ≡ greatest_tag tags }
    ensures most { result ≤ STREAMS }
{
    (tags * most_clients(tags)) as u64
}

/// The word at a place, as the number of a pipe with streams.
fn pipe_at(words: &[&[u8]], place: usize) -> Option<Pipe>
    ensures { result ≡ pipe_at (map (λ word. word.now) words.now) place }
{
    match number_at(words, place, 2, 4)? {
        2 => Some(Pipe::Status),
        3 => Some(Pipe::DataIn),
        4 => Some(Pipe::DataOut),
        _ => None,
    }
}

/// The word at a place, as a block number.
fn lba_at(words: &[&[u8]], place: usize) -> Option<u32>
    ensures { result ≡ lba_at (map (λ word. word.now) words.now) place }
{
    let lba = number_at(words, place, 0, u64::from(u32::MAX))?;
    Some(lba as u32)
}

/// The word at a place, as a block number of a command of 16 bytes.
fn long_lba_at(words: &[&[u8]], place: usize) -> Option<u64>
    ensures { result ≡ long_lba_at (map (λ word. word.now) words.now) place }
{
    number_at(words, place, 0, u64::MAX)
}

/// The word at a place, as a count of blocks or bytes.
fn count_at(words: &[&[u8]], place: usize) -> Option<u16>
    ensures { result ≡ count_at (map (λ word. word.now) words.now) place }
{
    let count = number_at(words, place, 0, u64::from(u16::MAX))?;
    Some(count as u16)
}

/// The word at a place, as a byte.
fn byte_at(words: &[&[u8]], place: usize) -> Option<u8>
    ensures { result ≡ byte_at (map (λ word. word.now) words.now) place }
{
    let byte = number_at(words, place, 0, u64::from(u8::MAX))?;
    Some(byte as u8)
}

/// Whether the word at a place is `fua`, where there is one; no other word may stand there.
fn fua_at(words: &[&[u8]], place: usize) -> Option<bool>
    ensures { result ≡ fua_at (map (λ word. word.now) words.now) place }
{
    match words.get(place) {
        None => Some(false),
        Some(word) if is_word(word, "fua") => Some(true),
        Some(_) => None,
    }
}

/// The request of this name.
fn request_named(word: &[u8]) -> Option<RequestName>
    ensures { result ≡ request_named word.now }
{
    if is_word(word, "tur") {
        Some(RequestName::Tur)
    } else if is_word(word, "inquiry") {
        Some(RequestName::Inquiry)
    } else if is_word(word, "capacity") {
        Some(RequestName::Capacity)
    } else if is_word(word, "read") {
        Some(RequestName::Read)
    } else if is_word(word, "write") {
        Some(RequestName::Write)
    } else if is_word(word, "sync") {
        Some(RequestName::Sync)
    } else if is_word(word, "read16") {
        Some(RequestName::Read16)
    } else if is_word(word, "write16") {
        Some(RequestName::Write16)
    } else if is_word(word, "capacity16") {
        Some(RequestName::Capacity16)
    } else if is_word(word, "abort") {
        Some(RequestName::Abort)
    } else if is_word(word, "reset") {
        Some(RequestName::Reset)
    } else if is_word(word, "query") {
        Some(RequestName::Query)
    } else {
        None
    }
}

impl RequestName {
    /// Whether its line may have so many words.
    fn request_has(self, count: usize) -> bool
        ensures { result ≡ request_has self count }
    {
        match self {
            RequestName::Tur | RequestName::Capacity | RequestName::Reset => count == 2,
            RequestName::Inquiry
            | RequestName::Capacity16
            | RequestName::Abort
            | RequestName::Query => count == 3,
            RequestName::Read | RequestName::Read16 => count == 4 || count == 5,
            RequestName::Write | RequestName::Write16 => count == 5 || count == 6,
            RequestName::Sync => count == 4,
        }
    }
}

/// What the words ask for of a client, where each number is in its range.
fn request_of(tags: usize, client: usize, name: RequestName, words: &[&[u8]]) -> Option<Line>
    requires { AreTags tags }
    ensures { result ≡ request_of tags client name (map (λ word. word.now) words.now) }
{
    match name {
        RequestName::Tur => Some(zeroed(client, Op::TestUnitReady)),
        RequestName::Inquiry => {
            let allocation = count_at(words, 2)?;
            Some(zeroed(client, Op::Inquiry { allocation }))
        }
        RequestName::Capacity => Some(zeroed(client, Op::ReadCapacity)),
        RequestName::Read => read_request(client, words),
        RequestName::Write => write_request(client, words),
        RequestName::Sync => {
            let lba = lba_at(words, 2)?;
            let count = count_at(words, 3)?;
            Some(zeroed(client, Op::Sync { lba, count }))
        }
        RequestName::Read16 => long_read_request(client, words),
        RequestName::Write16 => long_write_request(client, words),
        RequestName::Capacity16 => {
            let allocation = u32::from(count_at(words, 2)?);
            Some(zeroed(client, Op::ReadCapacity16 { allocation }))
        }
        RequestName::Abort => {
            let tag = tag_at(tags, words, 2)?;
            let task = Task::Abort { tag };
            Some(Line::Task { client, task })
        }
        RequestName::Reset => Some(Line::Task {
            client,
            task: Task::Reset,
        }),
        RequestName::Query => {
            let tag = tag_at(tags, words, 2)?;
            let task = Task::Query { tag };
            Some(Line::Task { client, task })
        }
    }
}

fn read_request(client: usize, words: &[&[u8]]) -> Option<Line>
    ensures { result ≡ read_of client (map (λ word. word.now) words.now) }
{
    let lba = lba_at(words, 2)?;
    let count = count_at(words, 3)?;
    let fua = fua_at(words, 4)?;
    Some(zeroed(client, Op::Read { lba, count, fua }))
}

fn write_request(client: usize, words: &[&[u8]]) -> Option<Line>
    ensures { result ≡ write_of client (map (λ word. word.now) words.now) }
{
    let lba = lba_at(words, 2)?;
    let count = count_at(words, 3)?;
    let fill = byte_at(words, 4)?;
    let fua = fua_at(words, 5)?;
    let op = Op::Write { lba, count, fua };
    Some(Line::Submit {
        client,
        request: Request { op, fill },
    })
}

fn long_read_request(client: usize, words: &[&[u8]]) -> Option<Line>
    ensures { result ≡ long_read_of client (map (λ word. word.now) words.now) }
{
    let lba = long_lba_at(words, 2)?;
    let count = u32::from(count_at(words, 3)?);
    let fua = fua_at(words, 4)?;
    Some(zeroed(client, Op::Read16 { lba, count, fua }))
}

fn long_write_request(client: usize, words: &[&[u8]]) -> Option<Line>
    ensures { result ≡ long_write_of client (map (λ word. word.now) words.now) }
{
    let lba = long_lba_at(words, 2)?;
    let count = u32::from(count_at(words, 3)?);
    let fill = byte_at(words, 4)?;
    let fua = fua_at(words, 5)?;
    let op = Op::Write16 { lba, count, fua };
    Some(Line::Submit {
        client,
        request: Request { op, fill },
    })
}

/// A submission of an operation whose buffer is zeroed.
fn zeroed(client: usize, op: Op) -> Line
    ensures { result ≡ zeroed client op }
{
    Line::Submit {
        client,
        request: Request { op, fill: 0 },
    }
}

/// What a line asks for whose first word is a number.
fn submission(clients: usize, tags: usize, words: &[&[u8]]) -> Result<Line, LineFault>
    requires number { AreTags tags }
    requires some { 0 < clients }
    requires few { clients ≤ MAX_CLIENTS }
    ensures { result ≡ submission clients tags (map (λ word. word.now) words.now) }
{
    let Some(word) = words.get(1) else {
        return Err(LineFault::UnknownWord);
    };
    let name = request_named(word).ok_or(LineFault::UnknownWord)?;
    if !name.request_has(words.len()) {
        return Err(LineFault::WrongNumberOfWords);
    }
    submission_of(clients, tags, name, words).ok_or(LineFault::NumberOutOfRange)
}

fn submission_of(clients: usize, tags: usize, name: RequestName, words: &[&[u8]]) -> Option<Line>
    requires number { AreTags tags }
    requires some { 0 < clients }
    requires few { clients ≤ MAX_CLIENTS }
    ensures { result ≡ submission_of clients tags name (map (λ word. word.now) words.now) }
{
    let client = client_at(clients, words, 0)?;
    request_of(tags, client, name, words)
}

/// The step of this name.
fn step_named(word: &[u8]) -> Option<StepName>
    ensures { result ≡ step_named word.now }
{
    if is_word(word, "command") {
        Some(StepName::Command)
    } else if is_word(word, "engine") {
        Some(StepName::Engine)
    } else if is_word(word, "event") {
        Some(StepName::Event)
    } else if is_word(word, "data") {
        Some(StepName::Data)
    } else if is_word(word, "status") {
        Some(StepName::Status)
    } else if is_word(word, "retire") {
        Some(StepName::Retire)
    } else if is_word(word, "take") {
        Some(StepName::Take)
    } else if is_word(word, "drain") {
        Some(StepName::Drain)
    } else {
        None
    }
}

impl StepName {
    /// How many words its line has.
    fn words(self) -> usize
        ensures { result ≡ step_has self }
    {
        match self {
            StepName::Command | StepName::Engine | StepName::Event | StepName::Drain => 1,
            StepName::Data | StepName::Status | StepName::Take => 2,
            StepName::Retire => 3,
        }
    }
}

/// What a line asks for whose first word is a name.
fn named_step(clients: usize, tags: usize, first: &[u8], words: &[&[u8]]) -> Result<Line, LineFault>
    requires number { AreTags tags }
    requires some { 0 < clients }
    requires few { clients ≤ MAX_CLIENTS }
    ensures { result ≡ named_step clients tags (map (λ word. word.now) words.now) (step_named first.now) }
{
    let name = step_named(first).ok_or(LineFault::UnknownWord)?;
    if words.len() != name.words() {
        return Err(LineFault::WrongNumberOfWords);
    }
    step_of(clients, tags, name, words).ok_or(LineFault::NumberOutOfRange)
}

fn step_of(clients: usize, tags: usize, name: StepName, words: &[&[u8]]) -> Option<Line>
    requires number { AreTags tags }
    requires some { 0 < clients }
    requires few { clients ≤ MAX_CLIENTS }
    ensures { result ≡ step_of clients tags name (map (λ word. word.now) words.now) }
{
    match name {
        StepName::Command => Some(Line::CommandPipe),
        StepName::Engine => Some(Line::Engine),
        StepName::Event => Some(Line::Event),
        StepName::Data => Some(Line::Data(tag_at(tags, words, 1)?)),
        StepName::Status => Some(Line::Status(tag_at(tags, words, 1)?)),
        StepName::Retire => Some(Line::Retire(pipe_at(words, 1)?, tag_at(tags, words, 2)?)),
        StepName::Take => Some(Line::Take(client_at(clients, words, 1)?)),
        StepName::Drain => Some(Line::Drain),
    }
}

/// What the words of a line ask for: nothing where there are none.
pub fn line_of_words(
    clients: usize,
    tags: usize,
    words: &[&[u8]],
) -> Result<Option<Line>, LineFault>
    requires number { AreTags tags }
    requires some { 0 < clients }
    requires few { clients ≤ MAX_CLIENTS }
    ensures { result ≡ line_of_words clients tags (map (λ word. word.now) words.now) }
{
    let Some(first) = words.get(0) else {
        return Ok(None);
    };
    let line = if is_number(first) {
        submission(clients, tags, words)?
    } else {
        named_step(clients, tags, first, words)?
    };
    Ok(Some(line))
}
