//! The words that let clients work.
ghost use Rattle.std.specs.Prelude.{◌≡◌, ℕ, Option, IfSome, option_map};
ghost use Rattle.byte_io.specs.Disks.{AreClients};
ghost use Rattle.clap.specs.Words.{found_of, rows_of};
ghost use Rattle.uas_profile.specs.Tags.{AreTags};
ghost use Rattle.uas_words.specs.CommandLine.{asked_by, depth_of, work_of, worked};
ghost use Rattle.uas_words.specs.Options.{AreRounds, IsDepth, IsInRange};

use crate::{MAX_ROUNDS, MOST_DEPTH, Run, clients_in, number_in, option_in, tags_in, word_in};
use clap::ArgMatches;

/// How many commands a client that works has out at a time, where no other number is asked for.
const USUAL_DEPTH: usize = 1;

const _: () = prove!(USUAL_DEPTH == 1);

/// Clients that work.
pub(crate) fn work_in<'a>(words: &ArgMatches<'a>) -> Option<Run<'a>>
    ensures range { IfSome result IsInRange }
    ensures asked { option_map asked_by result ≡ work_of (rows_of (found_of words.now)) }
{
    let tags = tags_in(words)?;
    let clients = clients_in(words, tags)?;
    let depth = depth_in(words, tags)?;
    let rounds = number_in(words, "ROUNDS", 1, MAX_ROUNDS)?;
    let every = option_in(words, "sync", 0, u32::MAX)?;
    worked(clients, tags, depth, rounds, word_in(words, "LOG"), every)
}

/// Clients that work, with a log that is saved or kept, where it is one.
fn worked<'a>(
    clients: usize,
    tags: usize,
    depth: usize,
    rounds: u32,
    log: Option<&'a str>,
    sync: Option<u32>,
) -> Option<Run<'a>>
    requires clients { AreClients tags clients }
    requires depth { IsDepth tags depth }
    requires rounds { AreRounds rounds }
    ensures range { IfSome result IsInRange }
    ensures asked { option_map asked_by result ≡ worked clients tags depth rounds (option_map (λ name. name.now) log.entry) sync }
{
    match (sync, log) {
        (None, log) => Some(Run::Work {
            clients,
            tags,
            depth,
            rounds,
            log,
        }),
        (Some(every), Some(log)) => Some(Run::Keep {
            clients,
            tags,
            depth,
            rounds,
            log,
            every,
        }),
        (Some(_), None) => None,
    }
}

/// How many commands a client of so many tags has out at a time.
fn depth_in(words: &ArgMatches<'_>, tags: usize) -> Option<usize>
    requires number { AreTags tags }
    ensures number { result ≡ depth_of tags (rows_of (found_of words.now)) }
    ensures range { IfSome result (IsDepth tags) }
{
    match option_in(words, "depth", 1, tags as u32 - 1)? {
        Some(depth) => Some(depth as usize),
        None => Some(USUAL_DEPTH),
    }
}

/// How many commands a client is to have out at a time and how many tags it has, where these are too few.
pub(crate) fn depths_in(words: &ArgMatches<'_>) -> Option<(u32, usize)>
    ensures { IfSome result (λ depths. AreTags depths.1) }
{
    let tags = tags_in(words)?;
    let depth = option_in(words, "depth", 1, MOST_DEPTH)??;
    if depth_in(words, tags).is_some() {
        return None;
    }
    Some((depth, tags))
}
