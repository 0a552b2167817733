//! The program `decode`: lines of bytes from standard input, each with what its bytes say behind it, on standard output.
//!
//! It is `uas_decode`'s run over the standard streams, and no more; `uasdisk decode` is the same. The exit status is 1 where a line was
//! refused, 2 where a word is, 3 at a fault of reading or writing, 4 for want of memory, else 0.
#![tactic(auto)]

ghost use Rattle.std.specs.Prelude.{◌≡◌, ◌≤◌, ◌⊎◌, map, option_map, slice_get};
ghost use Rattle.std.specs.String.{string_bytes};
ghost use Rattle.decode_program.specs.Words.{asked_by, asked_of, is_word, own_word};

use byte_io::{Reader, Writer};
use decode_help::DECODE_HELP;
use line_colours::{Painted, takes_colours};
use std::io::{IsTerminal, Write};
use std::process::ExitCode;
use std::{env, io};
use uas_decode::{DONE, FAULT, NO_MEMORY, run_decode};

/// A word is refused.
const WORDS_REFUSED: u8 = 2;

/// What the words ask for.
#[derive(Clone, Copy, Debug, PartialEq, Eq)]
pub enum Asked {
    /// The run.
    Run,
    /// What a person wants to know of it.
    Help,
    /// Nothing that there is.
    Refused,
}

fn main(rt: HostRuntime) -> ExitCode {
    let words: io::Result<Vec<String>> = env::args(&rt).and_then(|words| Ok(words.collect(
        rt.alloc(),
    )?));
    let status = match words {
        Ok(words) => start(&rt, words.as_slice()),
        Err(error) if error.kind() == io::ErrorKind::OutOfMemory => NO_MEMORY,
        Err(_) => WORDS_REFUSED,
    };
    ExitCode::from(status)
}

/// Does what the words ask for, the program's own name first, and answers the exit status.
fn start(rt: &HostRuntime, words: &[String]) -> u8
    ensures run { asked_by (map string_bytes words.now) ≡ Asked.Run → (result ≤ 1) ⊎ ((result ≡ 3) ⊎ (result ≡ 4)) }
    ensures help { asked_by (map string_bytes words.now) ≡ Asked.Help → (result ≡ 0) ⊎ (result ≡ 3) }
    ensures refused { asked_by (map string_bytes words.now) ≡ Asked.Refused → result ≡ 2 }
{
    match asked_by(words) {
        Asked::Run => run(rt),
        Asked::Help => help(rt),
        Asked::Refused => {
            let _ = writeln!(
                rt.stderr(),
                "error: decode reads standard input and takes no words but --help"
            );
            WORDS_REFUSED
        }
    }
}

/// What the words ask for.
fn asked_by(words: &[String]) -> Asked
    ensures { result ≡ asked_by (map string_bytes words.now) }
{
    match own_word(words) {
        None => Asked::Run,
        Some(word) if word == "-h" || word == "--help" => Asked::Help,
        Some(_) => Asked::Refused,
    }
}

/// The first word behind the program's name, and behind `decode`.
fn own_word(words: &[String]) -> Option<&str>
    ensures { option_map (λ word. word.now) result ≡ own_word (map string_bytes words.now) }
{
    let first = word_at(words, 1)?;
    if first == "decode" {
        word_at(words, 2)
    } else {
        Some(first)
    }
}

fn word_at(words: &[String], place: usize) -> Option<&str>
    ensures { option_map (λ word. word.now) result ≡ slice_get (map string_bytes words.now) place }
{
    match words.get(place) {
        Some(word) => Some(word.as_str()),
        None => None,
    }
}

/// Decodes standard input to standard output, in colours on a terminal, and answers the exit status.
fn run(rt: &HostRuntime) -> u8
    ensures { (result ≤ 1) ⊎ ((result ≡ 3) ⊎ (result ≡ 4)) }
{
    // a standard output that is closed takes nothing
    let is_output_open = rt.stdout().write(b"").is_ok();
    let is_coloured = rt.stdout().is_terminal() && takes_colours(rt);
    let mut output = is_output_open.then(|| Painted::new(
        rt.alloc(),
        Writer(rt.stdout()),
        is_coloured,
    ));
    run_decode(
        rt.alloc(),
        &mut Reader(rt.reader()),
        &mut output,
        &mut rt.stderr(),
    )
}

/// Prints what a person wants to know.
fn help(rt: &HostRuntime) -> u8
    ensures { (result ≡ 0) ⊎ (result ≡ 3) }
{
    let mut output = rt.stdout();
    let written = writeln!(
        output,
        "Reads lines of bytes from standard input and tells what each says\n\nUsage: uasdisk decode [OPTIONS]\n\nOptions:\n      --color <WHEN>  Colours: always, auto (on a terminal alone, as without this option) or never\n      --json          Prints each line as a JSON object\n  -h, --help          Print help\n\n{DECODE_HELP}"
    );
    if written.is_ok() && output.flush().is_ok() {
        DONE
    } else {
        FAULT
    }
}
