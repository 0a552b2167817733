//! The program's command: its subcommands, their arguments and what each says of itself.
ghost use Rattle.std.specs.Prelude.{◌≡◌, IfOk, false, true};
ghost use Rattle.clap.specs.Words.{App, app_of, rule_of, with_subcommand};
ghost use Rattle.uas_words.specs.Subcommands.{audit_app, capture_app, decode_app, depth_rule, draw_app, dump_app, fill_app, info_app, json_rule, make_app};
ghost use Rattle.uas_words.specs.Subcommands.{program_app, replay_app, tags_rule, top_app, trace_app, with_disks, with_extent, with_work, work_app};

use crate::arguments::{flag, log, number, number_option, option, required};
use crate::helps::{
    AUDIT_HELP, BYTE_HELP, CAPTURE_HELP, CLIENTS_HELP, COLOR_HELP, DEPTH_HELP, DRAW_HELP,
    DUMP_HELP, FILL_HELP, HEAD_HELP, INFO_HELP, JSON_HELP, LBA_HELP, LOG_HELP, MAKE_HELP,
    PAGE_HELP, PROGRAM_HELP, ROUNDS_HELP, SCRIPT_HELP, SYNC_HELP, TAGS_HELP, TRACE_HELP, WORK_HELP,
};
use crate::images::{MAX_BYTE, MOST_MOVED};
use crate::{LAST_BLOCK, MAX_ROUNDS, MOST_DEPTH, VERSION};
use clap::{Arg, Command};
use decode_help::DECODE_HELP;
use std::alloc::{AllocError, Global};
use uas_profile::{LEAST_TAGS, MAX_BLOCKS, MAX_CLIENTS, MOST_TAGS};

/// The program's command, with its subcommands.
pub(crate) fn command<'a>(alloc: Global) -> Result<Command<'a>, AllocError>
    ensures { IfOk result (λ command. app_of command ≡ program_app) }
{
    let top = top_command(alloc)?;
    let command = with(top, replay_command(alloc))?;
    let command = with(command, trace_command(alloc))?;
    let command = with(command, work_command(alloc))?;
    let command = with(command, decode_command(alloc))?;
    let command = with(command, make_command(alloc))?;
    let command = with(command, info_command(alloc))?;
    let command = with(command, dump_command(alloc))?;
    let command = with(command, fill_command(alloc))?;
    let command = with(command, audit_command(alloc))?;
    let command = with(command, draw_command(alloc))?;
    with(command, capture_command(alloc))
}

/// The command with this subcommand, if there is one. The one place where a command is let go: a function that holds one at each of its ends
/// is slow to prove.
fn with<'a>(
    command: Command<'a>,
    sub: Result<Command<'a>, AllocError>,
) -> Result<Command<'a>, AllocError>
    ensures { IfOk result (λ made. (mine : App) → IfOk sub.entry (λ one. app_of one ≡ mine) → mine.top.is_plain ≡ true
        → app_of made ≡ with_subcommand (app_of command.entry) mine.top) }
{
    command.subcommand(sub?)
}

/// The command without its subcommands. Its name in usage lines is the launcher's, whatever file it is run from.
fn top_command<'a>(alloc: Global) -> Result<Command<'a>, AllocError>
    ensures { IfOk result (λ command. app_of command ≡ top_app) }
{
    let command = Command::new(alloc, "uasdisk")
        .about("Runs disks of many clients over USB Attached SCSI, simulated and verified")
        .version(VERSION)
        .after_help(PROGRAM_HELP)
        .subcommand_required(true)
        .arg_required_else_help(true);
    command.bin_name("uasdisk")
}

fn replay_command<'a>(alloc: Global) -> Result<Command<'a>, AllocError>
    ensures { IfOk result (λ command. app_of command ≡ replay_app) }
{
    let command = Command::new(alloc, "replay")
        .about("Reads a script from standard input and runs it on zeroed units")
        .after_help(SCRIPT_HELP);
    add_disks(alloc, command)?.arg(json(alloc))
}

fn trace_command<'a>(alloc: Global) -> Result<Command<'a>, AllocError>
    ensures { IfOk result (λ command. app_of command ≡ trace_app) }
{
    let command = Command::new(alloc, "trace")
        .about("Runs a script as replay does, and prints each step with the bytes that it wrote")
        .after_help(TRACE_HELP);
    add_disks(alloc, command)?
        .arg(option(alloc, "color", "WHEN", COLOR_HELP))?
        .arg(json(alloc))
}

/// Whether lines are told as objects.
fn json<'a>(alloc: Global) -> Arg<'a>
    ensures rule { rule_of result ≡ json_rule }
    ensures local { result.global ≡ false }
{
    flag(alloc, "json", JSON_HELP)
}

/// Adds what tells the disks that a script runs on.
fn add_disks<'a>(alloc: Global, command: Command<'a>) -> Result<Command<'a>, AllocError>
    ensures { IfOk result (λ made. app_of made ≡ with_disks (app_of command.entry)) }
{
    command
        .arg(number(alloc, "CLIENTS", 1, MAX_CLIENTS as u32, CLIENTS_HELP))?
        .arg(number(
            alloc,
            "BLOCKS",
            1,
            MAX_BLOCKS,
            "How many blocks of 512 bytes each unit has: 1 to 65536",
        ))?
        .arg(number_option(
            alloc,
            "bad",
            "LBA",
            0,
            LAST_BLOCK,
            "A block that is bad in every unit: 0 to 65535",
        ))?
        .arg(tags(alloc))
}

/// How many tags each client has.
fn tags<'a>(alloc: Global) -> Arg<'a>
    ensures rule { rule_of result ≡ tags_rule }
    ensures local { result.global ≡ false }
{
    number_option(
        alloc,
        "tags",
        "N",
        LEAST_TAGS as u32,
        MOST_TAGS as u32,
        TAGS_HELP,
    )
}

fn work_command<'a>(alloc: Global) -> Result<Command<'a>, AllocError>
    ensures { IfOk result (λ command. app_of command ≡ work_app) }
{
    let command = Command::new(alloc, "work")
        .about("Lets clients write and read in threads, and counts what they read")
        .after_help(WORK_HELP);
    add_work(alloc, command)?
        .arg(depth(alloc))?
        .arg(number_option(alloc, "sync", "N", 0, u32::MAX, SYNC_HELP))
}

/// Adds what tells the clients' work and its log.
fn add_work<'a>(alloc: Global, command: Command<'a>) -> Result<Command<'a>, AllocError>
    ensures { IfOk result (λ made. app_of made ≡ with_work (app_of command.entry)) }
{
    command
        .arg(number(alloc, "CLIENTS", 1, MAX_CLIENTS as u32, CLIENTS_HELP))?
        .arg(number(alloc, "ROUNDS", 1, MAX_ROUNDS, ROUNDS_HELP))?
        .arg(log(alloc, LOG_HELP))?
        .arg(tags(alloc))
}

/// How many commands each client has out at a time.
fn depth<'a>(alloc: Global) -> Arg<'a>
    ensures rule { rule_of result ≡ depth_rule }
    ensures local { result.global ≡ false }
{
    number_option(alloc, "depth", "D", 1, MOST_DEPTH, DEPTH_HELP)
}

fn decode_command<'a>(alloc: Global) -> Result<Command<'a>, AllocError>
    ensures { IfOk result (λ command. app_of command ≡ decode_app) }
{
    Command::new(alloc, "decode")
        .about("Reads lines of bytes from standard input and tells what each says")
        .after_help(DECODE_HELP)
        .arg(option(alloc, "color", "WHEN", COLOR_HELP))?
        .arg(json(alloc))
}

fn make_command<'a>(alloc: Global) -> Result<Command<'a>, AllocError>
    ensures { IfOk result (λ command. app_of command ≡ make_app) }
{
    Command::new(alloc, "make")
        .about("Makes an image file of zeroed blocks")
        .after_help(MAKE_HELP)
        .arg(required(
            alloc,
            "FILE",
            "The image file; one that is there is refused, unless --force stands",
        ))?
        .arg(number(
            alloc,
            "BLOCKS",
            1,
            MAX_BLOCKS,
            "How many blocks of 512 bytes it gets: 1 to 65536",
        ))?
        .arg(flag(alloc, "force", "Write over a file that is there"))
}

fn info_command<'a>(alloc: Global) -> Result<Command<'a>, AllocError>
    ensures { IfOk result (λ command. app_of command ≡ info_app) }
{
    Command::new(alloc, "info")
        .about("Tells how many blocks an image file has, and the number of the last")
        .after_help(INFO_HELP)
        .arg(required(
            alloc,
            "FILE",
            "The image file: 1 to 65536 blocks of 512 bytes",
        ))?
        .arg(json(alloc))
}

fn dump_command<'a>(alloc: Global) -> Result<Command<'a>, AllocError>
    ensures { IfOk result (λ command. app_of command ≡ dump_app) }
{
    let command = Command::new(alloc, "dump")
        .about("Reads blocks of an image file by one READ, and prints their bytes")
        .after_help(DUMP_HELP);
    add_extent(alloc, command)
}

fn fill_command<'a>(alloc: Global) -> Result<Command<'a>, AllocError>
    ensures { IfOk result (λ command. app_of command ≡ fill_app) }
{
    let command = Command::new(alloc, "fill")
        .about("Fills blocks of an image file with a byte by one WRITE, and writes the file")
        .after_help(FILL_HELP);
    add_extent(alloc, command)?.arg(number(alloc, "BYTE", 0, MAX_BYTE, BYTE_HELP))
}

fn audit_command<'a>(alloc: Global) -> Result<Command<'a>, AllocError>
    ensures { IfOk result (λ command. app_of command ≡ audit_app) }
{
    Command::new(alloc, "audit")
        .about("Replays a saved log and audits each client's account in it")
        .after_help(AUDIT_HELP)
        .arg(required(
            alloc,
            "LOG",
            "The file of a log; of version 1 or 2 it has at most 1073741824 bytes",
        ))?
        .arg(option(alloc, "head", "HEX", HEAD_HELP))?
        .arg(json(alloc))
}

fn draw_command<'a>(alloc: Global) -> Result<Command<'a>, AllocError>
    ensures { IfOk result (λ command. app_of command ≡ draw_app) }
{
    let command = Command::new(alloc, "draw")
        .about("Runs a script as replay does, and draws the run as a picture (SVG)")
        .after_help(DRAW_HELP);
    add_disks(alloc, command)?.arg(flag(alloc, "page", PAGE_HELP))
}

fn capture_command<'a>(alloc: Global) -> Result<Command<'a>, AllocError>
    ensures { IfOk result (λ command. app_of command ≡ capture_app) }
{
    let command = Command::new(alloc, "capture")
        .about("Runs a script as replay does, and writes the run to a file that Wireshark reads")
        .after_help(CAPTURE_HELP);
    add_disks(alloc, command)?.arg(required(
        alloc,
        "FILE",
        "The capture (pcapng), in place of one that is there",
    ))
}

/// Adds what tells the blocks of an image.
fn add_extent<'a>(alloc: Global, command: Command<'a>) -> Result<Command<'a>, AllocError>
    ensures { IfOk result (λ made. app_of made ≡ with_extent (app_of command.entry)) }
{
    command
        .arg(required(
            alloc,
            "FILE",
            "The image file: 1 to 65536 blocks of 512 bytes",
        ))?
        .arg(number(alloc, "LBA", 0, u32::MAX, LBA_HELP))?
        .arg(number(alloc, "COUNT", 1, MOST_MOVED, "How many blocks: 1 to 128"))
}
