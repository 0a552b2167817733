//! Scripts: the lines of a text, or its first fault.
//!
//! A script has at most 1,048,576 bytes of ASCII. Lines end at a line feed, which the last one may lack, and
//! words are separated by spaces. A line without words is skipped, and so is a comment, whose first character
//! is `#`. Numbers are decimal digits, leading zeros too. The first faulty line is told, by its first fault.
//!
//! [`parse_script`] promises the lines that specs/Script.antt finds in a text, or its fault. It stands on the words of a text and the
//! names of operations and pipes, and knows no bus.
#![tactic(auto)]

ghost use Rattle.uas_profile.specs.Tags.{AreTags};
ghost use Rattle.uas_profile.specs.declared.TheConstants.{MAX_CLIENTS};
ghost use Rattle.std.specs.Prelude.{◌≡◌, ℕ, ◌+◌, ◌-◌, ◌<◌, ◌≤◌, [], ◌++◌, map, IfOk, OnOk, option_to_list, length};
ghost use Rattle.uas_script.specs.Script.{script, line_of, lines_after, listed, is_ascii, is_comment};

mod grammar;

use scsi_cmd::{Op, Task};
use std::alloc::{AllocError, Global};
use stream_array::Pipe;
use thiserror::Error;

/// The most bytes of a script.
pub const MAX_SCRIPT_BYTES: usize = 1_048_576;

const _: () = prove!(MAX_SCRIPT_BYTES == 1_048_576);

/// An operation that a client asks for, and the byte that its buffer is filled with.
#[derive(Clone, Copy, Debug, PartialEq, Eq)]
pub struct Request {
    pub op: Op,
    pub fill: u8,
}

/// What a line asks for.
#[derive(Clone, Copy, Debug, PartialEq, Eq)]
pub enum Line {
    /// A submission by a client.
    Submit { client: usize, request: Request },
    /// A task management by a client.
    Task { client: usize, task: Task },
    /// One step of the command pipe.
    CommandPipe,
    /// One step of the controller: it executes a command of its own command ring.
    Engine,
    /// One step of the host: it takes an event.
    Event,
    /// One step on the data stream of a tag.
    Data(u16),
    /// One step on the status stream of a tag.
    Status(u16),
    /// One step of the host: it begins to retire what is left over of a tag's TD on a pipe.
    Retire(Pipe, u16),
    /// One step of a client: it takes a reply.
    Take(usize),
    /// Steps until none acts, then every reply.
    Drain,
}

/// What is wrong with a line: the first of these that holds.
#[derive(Clone, Copy, Debug, PartialEq, Eq, Error)]
pub enum LineFault {
    #[error("not ASCII")]
    NotAscii,
    #[error("unknown word")]
    UnknownWord,
    #[error("wrong number of words")]
    WrongNumberOfWords,
    #[error("number out of range")]
    NumberOutOfRange,
}

/// What is wrong with a script. Lines are counted from 1.
#[derive(Clone, Copy, Debug, PartialEq, Eq, Error)]
pub enum ScriptFault {
    #[error("script too long")]
    TooLong,
    #[error("line {number}: {fault}")]
    Line { number: usize, fault: LineFault },
}

/// The word of a request, after the client.
#[derive(Clone, Copy, PartialEq, Eq)]
pub enum RequestName {
    Tur,
    Inquiry,
    Capacity,
    Read,
    Write,
    Sync,
    Read16,
    Write16,
    Capacity16,
    Abort,
    Reset,
    Query,
}

/// The first word of a line that isn't a client's.
#[derive(Clone, Copy, PartialEq, Eq)]
pub enum StepName {
    Command,
    Engine,
    Event,
    Data,
    Status,
    Retire,
    Take,
    Drain,
}

/// Reads a script for 1 to 31 clients with 2 to 16 tags each: its lines, or its first fault.
#[tactic(auto, unfolding(crate::specs::Script::script))]
pub fn parse_script(
    alloc: Global,
    clients: usize,
    tags: usize,
    text: &[u8],
) -> Result<Result<Vec<Line>, ScriptFault>, AllocError>
    requires number { AreTags tags }
    requires some { 0 < clients }
    requires few { clients ≤ MAX_CLIENTS }
    ensures { IfOk result (λ read. listed read ≡ script clients tags text.now) }
{
    if text.len() > MAX_SCRIPT_BYTES {
        return Ok(Err(ScriptFault::TooLong));
    }
    let pieces = byte_io::pieces(alloc, text)?;
    lines_of(alloc, clients, tags, &pieces)
}

/// Reads the pieces of a script.
fn lines_of(
    alloc: Global,
    clients: usize,
    tags: usize,
    pieces: &[&[u8]],
) -> Result<Result<Vec<Line>, ScriptFault>, AllocError>
    requires number { AreTags tags }
    requires some { 0 < clients }
    requires few { clients ≤ MAX_CLIENTS }
    ensures { IfOk result (λ read. listed read ≡ lines_after clients tags [] 1 (map (λ piece. piece.now) pieces.now)) }
{
    let mut lines = Vec::new(alloc);
    for (index, piece) in pieces.iter().enumerate() {
        match parse_line(alloc, clients, tags, piece)? {
            Ok(line) => push_some(&mut lines, line)?,
            Err(fault) => {
                let number = index + 1;
                return Ok(Err(ScriptFault::Line { number, fault }));
            }
        }
    }
    Ok(Ok(lines))
}

/// Adds a line, where there is one.
fn push_some(lines: &mut Vec<Line>, line: Option<Line>) -> Result<(), AllocError>
    ensures { OnOk result (lines.new.items ≡ lines.old.items ++ option_to_list line) }
{
    if let Some(line) = line {
        lines.push(line)?;
    }
    Ok(())
}

/// Reads one line.
#[tactic(auto, unfolding(crate::specs::Script::line_of))]
fn parse_line(
    alloc: Global,
    clients: usize,
    tags: usize,
    line: &[u8],
) -> Result<Result<Option<Line>, LineFault>, AllocError>
    requires number { AreTags tags }
    requires some { 0 < clients }
    requires few { clients ≤ MAX_CLIENTS }
    ensures { IfOk result (λ read. read ≡ line_of clients tags line.now) }
{
    if !is_ascii(line) {
        return Ok(Err(LineFault::NotAscii));
    }
    if is_comment(line) {
        return Ok(Ok(None));
    }
    let words = byte_io::words(alloc, line)?;
    Ok(grammar::line_of_words(clients, tags, &words))
}

fn is_ascii(line: &[u8]) -> bool
    ensures { result ≡ is_ascii line.now }
{
    line.iter().all(|byte| *byte < 128)
}

fn is_comment(line: &[u8]) -> bool
    ensures { result ≡ is_comment line.now }
{
    line.get(0) == Some(&b'#')
}
