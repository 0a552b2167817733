//! The program of `serve` and `usb`: images as disks for others, over standard input and output.
//!
//! ```text
//! uasdisk serve FILE [--bad LBA]     a disk for any client of NBD
//! uasdisk usb FILE.. [OPTIONS]       a USB disk for QEMU's usb-redir
//! ```
//!
//! It is the runs of `serve_run` and `usb_serve` over the standard streams and files of the machine, and the words of the command line. While
//! a file is served this program has the lock on it. The exit status is 2 where the words are refused, 3 at a fault, 4 for want of memory,
//! else 0.
#![tactic(auto)]

mod usb;
mod usb_words;
mod words;

use byte_io::{Output, Reader, Writer};
use file_disk::{FileAccess, HostBlocks, OpenFault};
use serve_run::run_serve;
use std::io::Write;
use std::process::ExitCode;
use std::{env, io};
use uas_replay::{FAULT, RunFault, WORDS_REFUSED};
use usb::serve_usb;
use words::{Asked, ServeAsked, asked_of};

fn main(rt: HostRuntime) -> ExitCode {
    let words: io::Result<Vec<String>> = env::args(&rt).and_then(|words| Ok(words.collect(
        rt.alloc(),
    )?));
    let status = match words {
        Ok(words) => start(&rt, words.as_slice()),
        Err(error) if error.kind() == io::ErrorKind::OutOfMemory => {
            RunFault::NoMemory.tell(&mut rt.stderr())
        }
        Err(_) => {
            let _ = writeln!(rt.stderr(), "error: a word isn't UTF-8");
            WORDS_REFUSED
        }
    };
    ExitCode::from(status)
}

/// Serves the image that the words ask for, and answers the exit status.
fn start(rt: &HostRuntime, words: &[String]) -> u8 {
    // A file that is opened takes the place of a standard output that is closed, and would get its text.
    let is_output_open = rt.stdout().write(b"").is_ok();
    let mut output = is_output_open.then(|| Writer(rt.stdout()));
    match asked_of(rt.alloc(), words) {
        Ok(Asked::Serve(asked)) => serve_locked(rt, asked, &mut output),
        Ok(Asked::Usb(asked)) => serve_usb(rt, &asked, &mut output),
        Err(error) => words::refuse(rt.alloc(), &error, &mut output, &mut rt.stderr()),
    }
}

/// Serves an image with the lock on it, and answers the exit status.
fn serve_locked<O: Output>(rt: &HostRuntime, asked: ServeAsked, output: &mut O) -> u8 {
    let bad = asked.bad.map(u64::from);
    // the lock is held until the run has ended; of an image that can't be opened the run tells
    let mut file = match HostBlocks::open_locked(rt, asked.file, FileAccess::Write, bad) {
        Ok(file) => Some(file),
        Err(OpenFault::File) => None,
        Err(OpenFault::Locked) => {
            let _ = writeln!(rt.stderr(), "image: locked");
            return FAULT;
        }
    };
    run_serve(
        rt.alloc(),
        &mut file,
        &mut Reader(rt.reader()),
        output,
        &mut Writer(rt.stderr()),
    )
}
