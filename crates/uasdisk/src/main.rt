//! The program: disks of many clients over USB Attached SCSI, from the words of a command line to an exit status.
//!
//! ```text
//! uasdisk replay CLIENTS BLOCKS [--bad LBA] [--tags N] [--json] < script
//!                                                        runs a script on zeroed units, one for each client
//! uasdisk trace CLIENTS BLOCKS [--bad LBA] [--tags N] [--color WHEN] [--json] < script
//!                                                        the same, and prints each step with the bytes that it wrote
//! uasdisk work CLIENTS ROUNDS [LOG [--sync N]] [--tags N] [--depth D]
//!                                                        lets clients write and read in threads, and counts what they read
//! uasdisk decode [--color WHEN] [--json] < lines         tells what lines of bytes say
//! uasdisk make FILE BLOCKS [--force]                     makes an image of zeroed blocks; no file that is there, unless it is forced
//! uasdisk info FILE [--json]                             tells how many blocks an image has
//! uasdisk dump FILE LBA COUNT                            prints blocks of an image, by one READ
//! uasdisk fill FILE LBA COUNT BYTE                       fills blocks of an image with a byte, by one WRITE
//! uasdisk audit LOG [--head HEX] [--json]                replays a saved log and audits each client's account in it
//! uasdisk draw CLIENTS BLOCKS [--page] [--bad LBA] [--tags N] < script
//!                                                        runs a script and draws the run as a picture (SVG), or writes it as a page (HTML)
//! uasdisk capture CLIENTS BLOCKS FILE [--bad LBA] [--tags N] < script
//!                                                        runs a script and writes the run to a file that Wireshark reads
//! ```
//!
//! With `--color always`, and on a terminal that takes colours without `--color never`, the lines of `trace` and `decode` are in colours (`line_colours`).
//! With `--json` each line of standard output is a JSON object in its place, and none is in colours (`line_objects`).
//! With `--bad LBA` the block of this number can neither be read nor written, in every unit that has it. With `--tags N` each client has N tags
//! in place of 16. With `--depth D` each client of `work` has D commands out at a time in place of 1. With LOG each is audited, and the
//! log of their bus is saved in that file, or with `--sync N` kept there while it grows. With `--head HEX` `audit` tells behind which
//! step of a kept log the checksum HEX stands.
//!
//! A line of a script submits a command or a task management for a client, takes one step of the bus, or drains it; what
//! replies and refusals came of it is printed. A command on an image is submitted, drained and answered on a bus of its own. The exit status is 0
//! where all went well, 1 where a command ended other than GOOD or was refused, a READ of `work` brought other bytes than were written,
//! an audit was false or a line of `decode` was refused, 2 where the words are refused, 3 at a fault of a script, an image or a file,
//! and 4 for want of memory.
//!
//! `main` gets the words and `start` the host: its standard streams and its files. All else is decided by `run_words`, over a host
//! that tells its bytes and whether it can fail. What the words ask for, and by which kinds of error they are refused, is `uas_words`;
//! how each run ends, with what on standard output and in which file, is `specs/Ends.antt`. The runs are `uas_replay`'s, `uas_trace`'s,
//! `work_run`'s, `uas_decode`'s, `disk_image`'s, `audit_run`'s, `draw_run`'s and `capture_run`'s. The rest is tested: the texts of faults and of help.
#![tactic(auto)]

mod edges;
mod hints;
mod host;
mod kept;
mod program;
mod script_hints;

ghost use Rattle.std.specs.Prelude.{◌≡◌, ◌≢◌, ◌⊎◌, ◌&&◌, [], IfSome, is_some, map, not};
ghost use Rattle.std.specs.String.{string_bytes};
ghost use Rattle.line_colours.specs.When.{are_coloured};
ghost use Rattle.line_objects.specs.Asked.{form_of};
ghost use Rattle.uas_words.specs.CommandLine.{asked_for, refusals, MayEndRun, EndsRefused};
ghost use Rattle.uasdisk.specs.Ends.{HoldsOfOne};

use byte_io::Reader;
use edges::{Faults, Noted, Output};
use hints::{Ended, say_hint};
use host::MachineFiles;
use kept::HostKeptFiles;
use line_colours::{Painted, are_coloured, takes_colours};
use line_objects::{Objects, form_of};
use program::run_words;
use script_hints::Kept;
use std::cell::Cell;
use std::io::{IsTerminal, Write};
use std::process::ExitCode;
use std::rt::Clock;
use std::sync::Wait;
use std::thread::Threads;
use std::{env, io};
use uas_replay::{RunFault, WORDS_REFUSED};

fn main(rt: HostRuntime) -> ExitCode {
    let words: io::Result<Vec<String>> = env::args(&rt).and_then(|words| Ok(words.collect(
        rt.alloc(),
    )?));
    let status = match words {
        Ok(words) => start(&rt, &rt, words.as_slice()),
        Err(error) if error.kind() == io::ErrorKind::OutOfMemory => {
            RunFault::NoMemory.tell(&mut rt.stderr())
        }
        Err(_) => {
            let _ = writeln!(rt.stderr(), "error: a word isn't UTF-8");
            WORDS_REFUSED
        }
    };
    ExitCode::from(status)
}

/// Does what the words ask for on the machine that the program runs on, with threads by `threads`, and answers the exit status.
fn start<R: Threads + Wait + Clock + Sync>(rt: &HostRuntime, threads: &R, words: &[String]) -> u8
    ensures run { refusals (map string_bytes words.now) ≡ [] → IfSome (asked_for (map string_bytes words.now)) (λ asked. MayEndRun asked result) }
    ensures refused { refusals (map string_bytes words.now) ≢ [] → (result ≡ 4)
        ⊎ HoldsOfOne (λ kind. EndsRefused kind result) (refusals (map string_bytes words.now)) }
{
    let file = Cell::new(None);
    let noted = Noted {
        is_unread: Cell::new(false),
        failure: Cell::new(None),
    };
    let is_watched = rt.stderr().is_terminal();
    let mut faults = Faults::new(rt.stderr(), &noted.is_unread);
    // A file that is opened takes the place of a standard output that is closed, and would get its text.
    let is_output_open = is_output_open(rt, &noted);
    let is_coloured = has_colours(words, rt.stdout().is_terminal() && takes_colours(rt));
    let mut output = is_output_open.then(|| Painted::new(
        rt.alloc(),
        Objects::new(rt.alloc(), Output::new(rt.stdout(), &noted), form_of(words)),
        is_coloured,
    ));
    let mut input = Kept::new(rt.alloc(), Reader(rt.reader()), is_watched);
    let status = run_words(
        threads,
        rt.alloc(),
        words,
        &mut MachineFiles::new(rt, words, &file),
        &mut HostKeptFiles { rt, is_watched },
        &mut input,
        &mut output,
        &mut faults,
        is_watched,
    );
    if is_watched && !noted.is_unread.get() {
        let ended = Ended {
            words,
            status,
            line: faults.last_line(),
            script: input.text(),
            file: file.get(),
            output: noted.failure.get(),
        };
        say_hint(&ended, &mut rt.stderr());
    }
    status
}

/// Whether lines are in colours; those that are objects never are.
fn has_colours(words: &[String], is_terminal: bool) -> bool
    ensures { result ≡ (not (is_some (form_of (map string_bytes words.now))) && are_coloured (map string_bytes words.now) is_terminal) }
{
    form_of(words).is_none() && are_coloured(words, is_terminal)
}

/// Whether standard output can be written; else it is noted why it can't.
fn is_output_open(rt: &HostRuntime, noted: &Noted) -> bool {
    match rt.stdout().write(b"") {
        Ok(_) => true,
        Err(error) => {
            noted.failure.set(Some(error.kind()));
            false
        }
    }
}
