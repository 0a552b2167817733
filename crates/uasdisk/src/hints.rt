//! What a person reads below the line of a fault, where standard error is a terminal: what it means and what to do.

use crate::host::Failure;
use crate::script_hints;
use std::io;
use std::io::{ErrorKind, Write};
use uas_replay::{FAULT, WORDS_REFUSED};

/// How a fault's line ends or what it is, and what to say of it.
const HINTS: [(&[u8], &str); 13] = [
    (
        b": unknown word",
        "a line is a client's number and a word, or a step: 'uasdisk replay --help' has them",
    ),
    (
        b": wrong number of words",
        "the word wants more numbers, or fewer: 'uasdisk replay --help' has each",
    ),
    (
        b": number out of range",
        "a client is below CLIENTS, and each number has its range: 'uasdisk replay --help' has them",
    ),
    (
        b": not ASCII",
        "a script is ASCII text, one line for each command or step",
    ),
    (b"script too long", "a script has at most 1048576 bytes"),
    (
        b"script: file",
        "standard input can't be read, or standard output is closed",
    ),
    (
        b"image: file",
        "the image can't be opened, read or written: look at its name, at its rights and at the room on its disk",
    ),
    (
        b"image: NotWhole",
        "an image is one block of 512 bytes or more, and the file's length is no multiple of that",
    ),
    (
        b"image: TooLarge",
        "an image has at most 65536 blocks of 512 bytes, 33554432 bytes in all",
    ),
    (
        b"decode: file",
        "standard input can't be read, or standard output is closed",
    ),
    (b"no memory", "the machine gave no memory for it"),
    (
        b"log: file",
        "the log can't be created or written: look at its name, at its rights and at the room on its disk",
    ),
    (
        b"log full",
        "the log of the work holds as many steps as it may",
    ),
];

/// What is known of a run that ended: its words, its status, the front of the last line that it told of faults, the script as far as it
/// was read, and why a file or standard output failed.
#[derive(Drop)]
pub struct Ended<'a> {
    pub words: &'a [String],
    pub status: u8,
    pub line: &'a [u8],
    pub script: &'a [u8],
    pub file: Option<Failure>,
    pub output: Option<ErrorKind>,
}

/// Says what a person needs to know of a run that ended with a fault, where there is something to say.
pub fn say_hint<W: Write>(ended: &Ended<'_>, faults: &mut W) {
    // a fault of standard error changes nothing
    let _ = said(ended, faults);
}

fn said<W: Write>(ended: &Ended<'_>, faults: &mut W) -> io::Result<()> {
    let line = ended.line;
    if ended.status == WORDS_REFUSED {
        if is_script_named(ended.words) {
            writeln!(
                faults,
                "  a script comes on standard input, as in: uasdisk replay 1 100 < FILE",
            )?;
        }
        return Ok(());
    }
    if ended.status == FAULT {
        if let Some(Failure { word, kind }) = ended.file {
            let name = ended
                .words
                .get(word)
                .map_or("the file", |name| name.as_str());
            return writeln!(faults, "  {name}: {}", reason(kind));
        }
        if let Some(kind) = ended.output {
            return writeln!(faults, "  standard output: {}", reason(kind));
        }
    }
    if script_hints::say(ended.script, line, faults)? {
        return Ok(());
    }
    for (end, hint) in HINTS {
        if line.ends_with(end) {
            return writeln!(faults, "  {hint}");
        }
    }
    Ok(())
}

/// Why a file can't be opened, read or written, as the system says it.
fn reason(kind: ErrorKind) -> &'static str {
    match kind {
        ErrorKind::NotFound => "No such file or directory",
        ErrorKind::PermissionDenied => "Permission denied",
        ErrorKind::IsADirectory => "Is a directory",
        ErrorKind::NotADirectory => "Not a directory",
        ErrorKind::AlreadyExists => "it is there already; with --force it is written over",
        ErrorKind::StorageFull => "No space left on device",
        ErrorKind::ReadOnlyFilesystem => "Read-only file system",
        ErrorKind::InvalidFilename => "File name too long",
        ErrorKind::BrokenPipe => "nobody reads it any more",
        _ => "it can't be opened, read or written",
    }
}

/// Whether the words of a script's run end with one that is no number: the name of a file, mostly.
fn is_script_named(words: &[String]) -> bool {
    let Some(run) = words.get(1) else {
        return false;
    };
    let Some(last) = words.last() else {
        return false;
    };
    let is_script = run.as_str() == "replay" || run.as_str() == "trace";
    is_script
        && words.len() == 5
        && last.as_str() != "--json"
        && !last.as_bytes().iter().all(|byte| byte.is_ascii_digit())
}
