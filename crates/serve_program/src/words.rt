//! The words of the command line.

use crate::usb_words::{UsbAsked, WordFault, usb_asked, usb_command};
use byte_io::Sink;
use clap::error::ErrorKind;
use clap::{Arg, ArgAction, ArgMatches, Command, Error};
use std::alloc::{AllocError, Global};
use std::io::Write;
use uas_replay::{DONE, RunFault, WORDS_REFUSED, output_fault};

/// What each exit status says, and an example.
const SERVE_HELP: &str = "\
Exit status: 2 where a word is refused, 3 at a fault of the image, of a message or of a stream, 4 for want of memory,
else 0.

Example:
  nbdinfo -- [ examples/activated ./uasdisk serve disk.img ]";

/// What is asked for.
#[derive(Debug, Drop)]
pub enum Asked<'a> {
    Serve(ServeAsked<'a>),
    Usb(UsbAsked<'a>),
}

/// What is asked to be served.
#[derive(Clone, Copy, Debug)]
pub struct ServeAsked<'a> {
    pub file: &'a str,
    /// The block that is bad, where the disk has it.
    pub bad: Option<u32>,
}

/// Reads the words, the program's own name first. An error has the text to print, help among them.
pub fn asked_of<'a>(alloc: Global, words: &'a [String]) -> Result<Asked<'a>, Error> {
    let mut command = command(alloc)?;
    let matches = command.try_get_matches_from_mut(words)?;
    match found(&matches) {
        Ok(asked) => Ok(asked),
        Err(fault) => Err(command.error(ErrorKind::ValueValidation, fault.text())?),
    }
}

fn command<'a>(alloc: Global) -> Result<Command<'a>, AllocError> {
    Command::new(alloc, "uasdisk")
        .bin_name("uasdisk")?
        .about("Runs disks of many clients over USB Attached SCSI, simulated and verified")
        .subcommand_required(true)
        .arg_required_else_help(true)
        .subcommand(serve_command(alloc)?)?
        .subcommand(usb_command(alloc)?)
}

fn serve_command<'a>(alloc: Global) -> Result<Command<'a>, AllocError> {
    Command::new(alloc, "serve")
        .about("Serves an image as a disk over standard input and output, to any client of NBD")
        .after_help(SERVE_HELP)
        .arg(
            Arg::new(alloc, "FILE")
                .required(true)
                .action(ArgAction::Set)
                .help("The image, which is there; what is written goes to it"),
        )?
        .arg(
            Arg::new(alloc, "bad")
                .long("bad")
                .value_name("LBA")
                .action(ArgAction::Set)
                .value_parser(clap::value_parser!(u32).range(0..=i64::from(u32::MAX)))
                .help("A block that is bad: 0 to 4294967295"),
        )?
        .arg(
            Arg::new(alloc, "file")
                .long("file")
                .action(ArgAction::SetTrue)
                .help("Changes nothing: blocks always stay in the file"),
        )
}

/// What was found for the subcommand; the parsers have refused every other word before.
fn found<'a>(matches: &ArgMatches<'a>) -> Result<Asked<'a>, WordFault> {
    match matches.subcommand() {
        Some(("usb", words)) => usb_asked(words).map(Asked::Usb),
        Some((_, words)) => serve_asked(words).map(Asked::Serve),
        None => Err(WordFault::Missing),
    }
}

fn serve_asked<'a>(words: &ArgMatches<'a>) -> Result<ServeAsked<'a>, WordFault> {
    let Some(file) = words.get_str("FILE") else {
        return Err(WordFault::Missing);
    };
    Ok(ServeAsked {
        file,
        bad: words.get_one::<u32>("bad"),
    })
}

/// Prints what is wrong with the words, or the help that they ask for.
pub fn refuse<O: Sink, W: Write>(
    alloc: Global,
    error: &Error,
    output: &mut O,
    faults: &mut W,
) -> u8 {
    if error.kind() == ErrorKind::OutOfMemory {
        return RunFault::NoMemory.tell(faults);
    }
    if error.use_stderr() {
        // a fault of standard error changes nothing
        let _ = write!(faults, "{error}");
        return WORDS_REFUSED;
    }
    let Ok(text) = format!(in alloc; "{error}") else {
        return RunFault::NoMemory.tell(faults);
    };
    match output.write(text.as_bytes()) {
        Ok(()) => DONE,
        Err(fault) => output_fault(fault).tell(faults),
    }
}
