//! The words of `make`, `dump` and `fill`.
ghost use Rattle.std.specs.Prelude.{◌≡◌, IfSome, option_map};
ghost use Rattle.clap.specs.Words.{found_of, rows_of};
ghost use Rattle.uas_words.specs.CommandLine.{asked_by, dump_of, extent_of, fill_of, make_of};
ghost use Rattle.uas_words.specs.Options.{IsInRange, IsMoved};

use crate::{Run, blocks_in, has_flag, number_in, word_in};
use byte_io::Extent;
use clap::ArgMatches;
use uas_profile::MOST_BLOCKS_MOVED;

/// The most blocks that one command moves, as a word of the command line.
pub(crate) const MOST_MOVED: u32 = MOST_BLOCKS_MOVED as u32;

const _: () = prove!(MOST_MOVED == 128);

/// The greatest byte.
pub(crate) const MAX_BYTE: u32 = u8::MAX as u32;

const _: () = prove!(MAX_BYTE == 255);

/// An image that is made.
pub(crate) fn make_in<'a>(words: &ArgMatches<'a>) -> Option<Run<'a>>
    ensures range { IfSome result IsInRange }
    ensures asked { option_map asked_by result ≡ make_of (rows_of (found_of words.now)) }
{
    let file = word_in(words, "FILE")?;
    let blocks = blocks_in(words)?;
    let replaces = has_flag(words, "force");
    Some(Run::Make {
        file,
        blocks,
        replaces,
    })
}

pub(crate) fn dump_in<'a>(words: &ArgMatches<'a>) -> Option<Run<'a>>
    ensures range { IfSome result IsInRange }
    ensures asked { option_map asked_by result ≡ dump_of (rows_of (found_of words.now)) }
{
    let file = word_in(words, "FILE")?;
    let extent = extent_in(words)?;
    Some(Run::Dump { file, extent })
}

pub(crate) fn fill_in<'a>(words: &ArgMatches<'a>) -> Option<Run<'a>>
    ensures range { IfSome result IsInRange }
    ensures asked { option_map asked_by result ≡ fill_of (rows_of (found_of words.now)) }
{
    let file = word_in(words, "FILE")?;
    let extent = extent_in(words)?;
    let byte = number_in(words, "BYTE", 0, MAX_BYTE)? as u8;
    Some(Run::Fill { file, extent, byte })
}

/// The blocks that a `dump` or a `fill` is of.
fn extent_in(words: &ArgMatches<'_>) -> Option<Extent>
    ensures range { IfSome result (λ extent. IsMoved extent.count) }
    ensures extent { result ≡ extent_of (rows_of (found_of words.now)) }
{
    let lba = number_in(words, "LBA", 0, u32::MAX)?;
    let count = number_in(words, "COUNT", 1, MOST_MOVED)? as u16;
    Some(Extent { lba, count })
}
