//! The words of the command line: the subcommands, their arguments and the ranges of their numbers.
//!
//! [`run_of`] reads the words and answers what the program is to do, or the error to print, help among them. What the words ask for, and
//! by which kinds of error they are refused, is specs/CommandLine.antt, over the subcommands of specs/Subcommands.antt; plain words, in the
//! order of the usage, are read whatever the parser does with others. It stands on clap alone, but for the numbers of a text and those of
//! the profile.
#![tactic(auto)]

ghost use Rattle.std.specs.Prelude.{◌≡◌, ◌≤◌, ℕ, Option, Some, IfOk, IfSome, MatchResult, map, option_and_then, option_map};
ghost use Rattle.std.specs.Prelude.{codes};
ghost use Rattle.std.specs.Str.{bytes_eq};
ghost use Rattle.std.specs.String.{string_bytes};
ghost use Rattle.clap.specs.Words.{FailsBy, app_of, first_of, found_of, kind_of, one_of, rows_of, subcommand_rows_of};
ghost use Rattle.byte_io.specs.Disks.{AreBlocks, AreClients, AreDisks};
ghost use Rattle.uas_words.specs.Options.{IsBlock, IsInRange};
ghost use Rattle.uas_words.specs.CommandLine.{Asked, AsksPlainly, asked_by, asked_for, asked_in, blocks_of, capture_of, clients_of, decode_of};
ghost use Rattle.uas_words.specs.CommandLine.{draw_of, has_when, is_true, is_when, number_of, optional_number, refusals, script_of, tags_of, trace_of};
ghost use Rattle.uas_words.specs.Subcommands.{program_app};
ghost use Rattle.uas_profile.specs.Tags.{AreTags};

mod arguments;
mod audits;
mod commands;
mod helps;
mod images;
mod laws;
mod works;

use audits::audit_in;
use byte_io::{Disks, Extent};
use clap::error::ErrorKind;
use clap::{ArgMatches, Command, Error};
use commands::command;
use images::{dump_in, fill_in, make_in};
pub use laws::plain_lines_ask;
use std::alloc::{AllocError, Global};
use uas_profile::{LEAST_TAGS, MAX_BLOCKS, MAX_CLIENTS, MOST_TAGS, TAGS, most_clients};
use works::{depths_in, work_in};

const _: () = prove!(MAX_BLOCKS == 65_536);

/// The greatest number of a block that a unit can have.
pub(crate) const LAST_BLOCK: u32 = MAX_BLOCKS - 1;

const _: () = prove!(LAST_BLOCK == 65_535);

/// The most rounds of each client that works.
pub(crate) const MAX_ROUNDS: u32 = 1_000;

/// The most commands that a client of any number of tags can have out at a time.
pub(crate) const MOST_DEPTH: u32 = MOST_TAGS as u32 - 1;

const _: () = prove!(MOST_DEPTH == 15);

/// The version of the program and of its libraries for C and Rust, and the logic of the prover that it was proved with.
pub const VERSION: &str = "1.0.0, proved with Rattle's logic dac8208d650f15bf";

/// What the program is to do.
#[derive(Clone, Copy, Debug, PartialEq, Eq)]
pub enum Run<'a> {
    /// Run a script of 1 to 31 clients, with 2 to 16 tags each and 248 in all, on units of 1 to 65,536 zeroed blocks. One block, 0 to
    /// 65,535, may be bad in every unit.
    Replay(Disks),
    /// Run a script as `Replay` does, and show each step.
    Trace(Disks),
    /// Let as many clients, with as many tags, work in threads, 1 to 1,000 rounds each, with so many commands out at a time, fewer than
    /// tags. Where a file is named for the log, audit them and save it there.
    Work {
        clients: usize,
        tags: usize,
        depth: usize,
        rounds: u32,
        log: Option<&'a str>,
    },
    /// Let clients work as `Work` does, and keep the log in the file while it grows, synced after so many steps; 0: at the end alone.
    Keep {
        clients: usize,
        tags: usize,
        depth: usize,
        rounds: u32,
        log: &'a str,
        every: u32,
    },
    /// Tell what lines of bytes on standard input say.
    Decode,
    /// Make an image file of 1 to 65,536 zeroed blocks. Where it replaces, a file that is there is written over.
    Make {
        file: &'a str,
        blocks: u32,
        replaces: bool,
    },
    /// Tell the size of an image file.
    Info {
        file: &'a str,
    },
    /// Print 1 to 128 blocks of an image file.
    Dump {
        file: &'a str,
        extent: Extent,
    },
    /// Fill 1 to 128 blocks of an image file with a byte.
    Fill {
        file: &'a str,
        extent: Extent,
        byte: u8,
    },
    /// Replay a saved log and audit each client. Where a checksum is named, find it in the log.
    Audit {
        log: &'a str,
        head: Option<u32>,
    },
    /// Run a script as `Replay` does, and draw the run.
    Draw(Disks),
    /// Run a script as `Replay` does, and write the run as a page.
    Page(Disks),
    /// Run a script as `Replay` does, and write the run to a file as a capture.
    Capture {
        disks: Disks,
        file: &'a str,
    },
}

/// Reads the words, the program's own name first. An error has the text to print, help among them.
pub fn run_of<'a>(alloc: Global, words: &'a [String]) -> Result<Run<'a>, Error>
    ensures range { IfOk result IsInRange }
    ensures asked { IfOk result (λ run. asked_for (map string_bytes words.entry.now) ≡ Some (asked_by run)) }
    ensures refused { FailsBy (refusals (map string_bytes words.entry.now)) result }
    ensures plain { (asked : Asked) → AsksPlainly asked (map string_bytes words.entry.now)
        → MatchResult result (λ run. asked_by run ≡ asked) (λ e. kind_of e ≡ ErrorKind.OutOfMemory) }
{
    run_by(alloc, command(alloc)?, words)
}

/// Reads the words by the program's command.
fn run_by<'a>(
    alloc: Global,
    mut command: Command<'a>,
    words: &'a [String],
) -> Result<Run<'a>, Error>
    requires { app_of command ≡ program_app }
    ensures range { IfOk result IsInRange }
    ensures asked { IfOk result (λ run. asked_for (map string_bytes words.entry.now) ≡ Some (asked_by run)) }
    ensures refused { FailsBy (refusals (map string_bytes words.entry.now)) result }
{
    let matches = command.try_get_matches_from_mut(words)?;
    match asked(&matches) {
        Some(run) => Ok(run),
        None => {
            let text = complaint(alloc, &matches)?;
            Err(command.error(ErrorKind::ValueValidation, &text)?)
        }
    }
}

/// What was found for the subcommand; the parsers have refused every other word before.
fn asked<'a>(matches: &ArgMatches<'a>) -> Option<Run<'a>>
    ensures range { IfSome result IsInRange }
    ensures asked { option_map asked_by result ≡ asked_in (subcommand_rows_of matches.now) }
{
    let (name, words) = matches.subcommand()?;
    match name {
        "replay" => Some(Run::Replay(disks_in(words)?)),
        "trace" => trace_in(words),
        "work" => work_in(words),
        "decode" => decode_in(words),
        "make" => make_in(words),
        "info" => {
            let file = words.get_str("FILE")?;
            Some(Run::Info { file })
        }
        "dump" => dump_in(words),
        "fill" => fill_in(words),
        "audit" => audit_in(words),
        "draw" => draw_in(words),
        "capture" => capture_in(words),
        _ => None,
    }
}

/// What is wrong with words that the parsers took and that ask for nothing.
fn complaint(alloc: Global, matches: &ArgMatches<'_>) -> Result<String, AllocError> {
    let Some((name, words)) = matches.subcommand() else {
        return format!(in alloc; "a word is missing");
    };
    match crowd_in(words) {
        Some((clients, tags)) => {
            let most = most_clients(tags);
            format!(in alloc;
                "invalid value '{clients}' for '<CLIENTS>': {most} clients at most with {tags} tags"
            )
        }
        None => match depths_in(words) {
            Some((depth, tags)) => {
                let most = tags - 1;
                format!(in alloc;
                    "invalid value '{depth}' for '--depth <D>': {most} at most with {tags} tags"
                )
            }
            None => format!(in alloc; "{}", missing(name, words)),
        },
    }
}

/// How many clients there are and how many tags each is to have, where they are too many for that.
fn crowd_in(words: &ArgMatches<'_>) -> Option<(u32, usize)>
    ensures { IfSome result (λ crowd. AreTags crowd.1) }
{
    let tags = tags_in(words)?;
    let clients = number_in(words, "CLIENTS", 1, MAX_CLIENTS as u32)?;
    if clients_in(words, tags).is_some() {
        return None;
    }
    Some((clients, tags))
}

/// What else is wrong with them.
fn missing(name: &str, words: &ArgMatches<'_>) -> &'static str {
    match name {
        "work" => "--sync keeps the log in LOG, and LOG is missing",
        "audit" => "HEX isn't 1 to 8 hexadecimal digits",
        _ if !has_when(words) => "WHEN is one of always, auto and never",
        _ => "a word is missing",
    }
}

/// The disks that a script runs on.
fn disks_in(words: &ArgMatches<'_>) -> Option<Disks>
    ensures range { IfSome result (λ disks. AreDisks disks × IfSome disks.bad IsBlock) }
    ensures asked { (run : ℕ → ℕ → ℕ → Option ℕ → Asked)
        → option_map (λ disks. run disks.clients disks.tags disks.blocks disks.bad) result ≡ script_of run (rows_of (found_of words.now)) }
{
    let tags = tags_in(words)?;
    let clients = clients_in(words, tags)?;
    let blocks = blocks_in(words)?;
    let bad = option_in(words, "bad", 0, LAST_BLOCK)?;
    Some(Disks {
        clients,
        tags,
        blocks,
        bad,
    })
}

/// A run whose steps are shown.
fn trace_in<'a>(words: &ArgMatches<'a>) -> Option<Run<'a>>
    ensures range { IfSome result IsInRange }
    ensures asked { option_map asked_by result ≡ trace_of (rows_of (found_of words.now)) }
{
    if !has_when(words) {
        return None;
    }
    Some(Run::Trace(disks_in(words)?))
}

/// Lines that are told.
fn decode_in<'a>(words: &ArgMatches<'a>) -> Option<Run<'a>>
    ensures range { IfSome result IsInRange }
    ensures asked { option_map asked_by result ≡ decode_of (rows_of (found_of words.now)) }
{
    if has_when(words) {
        Some(Run::Decode)
    } else {
        None
    }
}

/// Whether the word of `--color` is one that there is, where it stands.
fn has_when(words: &ArgMatches<'_>) -> bool
    ensures { result ≡ has_when (rows_of (found_of words.now)) }
{
    match word_in(words, "color") {
        Some(word) => is_when(word),
        None => true,
    }
}

fn is_when(word: &str) -> bool
    ensures { result ≡ is_when (Some word.now) }
{
    word == "always" || word == "auto" || word == "never"
}

/// A run that is drawn, as a picture or as a page.
fn draw_in<'a>(words: &ArgMatches<'a>) -> Option<Run<'a>>
    ensures range { IfSome result IsInRange }
    ensures asked { option_map asked_by result ≡ draw_of (rows_of (found_of words.now)) }
{
    let disks = disks_in(words)?;
    if has_flag(words, "page") {
        Some(Run::Page(disks))
    } else {
        Some(Run::Draw(disks))
    }
}

/// Whether the flag of this name stands.
fn has_flag(words: &ArgMatches<'_>, name: &str) -> bool
    ensures { result ≡ is_true (first_of name.now (rows_of (found_of words.now))) }
{
    match word_in(words, name) {
        Some(word) => is_true(word),
        None => false,
    }
}

/// Whether the word of a flag is `true`.
fn is_true(word: &str) -> bool
    ensures { result ≡ bytes_eq word.now (codes "true") }
{
    word == "true"
}

/// How many tags each client has.
fn tags_in(words: &ArgMatches<'_>) -> Option<usize>
    ensures number { result ≡ tags_of (rows_of (found_of words.now)) }
    ensures range { IfSome result AreTags }
{
    match option_in(words, "tags", LEAST_TAGS as u32, MOST_TAGS as u32)? {
        Some(tags) => Some(tags as usize),
        None => Some(TAGS),
    }
}

/// How many clients with so many tags each.
fn clients_in(words: &ArgMatches<'_>, tags: usize) -> Option<usize>
    requires number { AreTags tags }
    ensures number { result ≡ clients_of tags (rows_of (found_of words.now)) }
    ensures range { IfSome result (AreClients tags) }
{
    Some(number_in(words, "CLIENTS", 1, most_clients(tags) as u32)? as usize)
}

fn capture_in<'a>(words: &ArgMatches<'a>) -> Option<Run<'a>>
    ensures range { IfSome result IsInRange }
    ensures asked { option_map asked_by result ≡ capture_of (rows_of (found_of words.now)) }
{
    let file = word_in(words, "FILE")?;
    let disks = disks_in(words)?;
    Some(Run::Capture { disks, file })
}

/// The word under this name, where one stands.
fn word_in<'a>(words: &ArgMatches<'a>, name: &str) -> Option<&'a str>
    ensures { option_map (λ word. word.now) result ≡ first_of name.now (rows_of (found_of words.now)) }
{
    words.get_str(name)
}

fn blocks_in(words: &ArgMatches<'_>) -> Option<u32>
    ensures number { result ≡ blocks_of (rows_of (found_of words.now)) }
    ensures range { IfSome result AreBlocks }
{
    number_in(words, "BLOCKS", 1, MAX_BLOCKS)
}

/// The number under this name, where there is one and it is from `least` to `most`.
fn number_in(words: &ArgMatches<'_>, name: &str, least: u32, most: u32) -> Option<u32>
    ensures number { result ≡ option_and_then (number_of least most) (one_of name.now (rows_of (found_of words.now))) }
    ensures range { IfSome result (λ number. (least ≤ number) × (number ≤ most)) }
{
    let number = words.get_one::<u32>(name)?;
    if least <= number && number <= most {
        Some(number)
    } else {
        None
    }
}

/// The number under this name, where one stands. None where its word is no number from `least` to `most`.
fn option_in(words: &ArgMatches<'_>, name: &str, least: u32, most: u32) -> Option<Option<u32>>
    ensures number { result ≡ optional_number least most (one_of name.now (rows_of (found_of words.now))) }
    ensures range { IfSome result (λ number. IfSome number (λ number. (least ≤ number) × (number ≤ most))) }
{
    match words.try_get_one::<u32>(name) {
        Ok(None) => Some(None),
        Ok(Some(number)) if least <= number && number <= most => Some(Some(number)),
        Ok(Some(_)) => None,
        Err(_) => None,
    }
}
