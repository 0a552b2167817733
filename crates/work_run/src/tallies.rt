//! What the replies of a client come to, and how it is told.

ghost use Rattle.std.specs.Prelude.{◌≡◌, ◌^◌, ◌<◌, ◌==◌, ◌++◌, IfOk, OnOk, count_by};
ghost use Rattle.std.specs.List.{list_all};
ghost use Rattle.work_run.specs.Tallies.{all_whole, brings, is_equal_read, is_good_read, is_good_write, is_whole, round_byte, tallies_of, tally_of, work_line, work_text};

use crate::Tally;
use scsi_cmd::{GOOD, Reply};
use std::alloc::{AllocError, Global};
use uas_log::Replies;
use uas_profile::BLOCK_BYTES;

/// Bytes of the blocks of a round.
const ROUND_BYTES: usize = 8 * BLOCK_BYTES;

const _: () = prove!(ROUND_BYTES == 4096);

/// The tally of each client, of their replies by number.
pub(crate) fn tallies_of(alloc: Global, replies: &[Replies]) -> Result<Vec<Tally>, AllocError>
    ensures { IfOk result (λ tallies. tallies.items ≡ tallies_of replies.now) }
{
    let mut tallies = Vec::new(alloc);
    for client in 0..replies.len() {
        tallies.push(tally_of(client, replies[client].as_slice()))?;
    }
    Ok(tallies)
}

/// What a client's replies come to.
#[tactic(auto, unfolding(crate::specs::Tallies::tally_of))]
fn tally_of(client: usize, replies: &[Reply]) -> Tally
    ensures { result ≡ tally_of client replies.now }
{
    Tally {
        client,
        writes: good_writes(replies),
        reads: good_reads(replies),
        equal: equal_reads(client, replies),
    }
}

fn good_writes(replies: &[Reply]) -> usize
    ensures { result ≡ count_by is_good_write replies.now }
{
    replies.iter().filter(|reply| is_good_write(reply)).count()
}

fn good_reads(replies: &[Reply]) -> usize
    ensures { result ≡ count_by is_good_read replies.now }
{
    replies.iter().filter(|reply| is_good_read(reply)).count()
}

fn equal_reads(client: usize, replies: &[Reply]) -> usize
    ensures { result ≡ count_by (is_equal_read client) replies.now }
{
    replies
        .iter()
        .filter(|reply| is_equal_read(client, reply))
        .count()
}

/// Whether it is a WRITE that ended GOOD: a WRITE has an even ticket.
#[tactic(auto, unfolding(crate::specs::Tallies::is_good_write))]
fn is_good_write(reply: &Reply) -> bool
    ensures { result ≡ is_good_write reply.now }
{
    match reply {
        Reply::Status { ticket, status, .. } => *status == GOOD && *ticket % 2 == 0,
        Reply::Aborted { .. } | Reply::Task { .. } => false,
    }
}

/// Whether it is a READ that ended GOOD: a READ has an odd ticket.
#[tactic(auto, unfolding(crate::specs::Tallies::is_good_read))]
fn is_good_read(reply: &Reply) -> bool
    ensures { result ≡ is_good_read reply.now }
{
    match reply {
        Reply::Status { ticket, status, .. } => *status == GOOD && *ticket % 2 == 1,
        Reply::Aborted { .. } | Reply::Task { .. } => false,
    }
}

/// Whether it is a READ that ended GOOD and brought what this client wrote in its round.
#[tactic(auto, unfolding(crate::specs::Tallies::is_equal_read))]
fn is_equal_read(client: usize, reply: &Reply) -> bool
    ensures { result ≡ is_equal_read client reply.now }
{
    match reply {
        Reply::Status {
            ticket,
            status,
            buffer,
            ..
        } => {
            *status == GOOD
                && *ticket % 2 == 1
                && brings(buffer.as_slice(), round_byte(client, *ticket / 2))
        }
        Reply::Aborted { .. } | Reply::Task { .. } => false,
    }
}

/// Whether these are the bytes of a round's blocks, all of them this one.
fn brings(bytes: &[u8], wanted: u8) -> bool
    ensures { result ≡ brings bytes.now wanted }
{
    bytes.len() == ROUND_BYTES && are_all(bytes, wanted)
}

fn are_all(bytes: &[u8], wanted: u8) -> bool
    ensures { result ≡ list_all (λ byte. byte == wanted) bytes.now }
{
    bytes.iter().all(|byte| *byte == wanted)
}

/// The byte that a client writes in a round.
fn round_byte(client: usize, round: u64) -> u8
    requires { round < 2 ^ 63 }
    ensures { result ≡ round_byte client round }
{
    ((16 * (client as u64 % 16) + round) % 256) as u8
}

/// Whether each client wrote, read and found equal each of so many rounds.
pub(crate) fn all_whole(rounds: u32, tallies: &[Tally]) -> bool
    ensures { result ≡ all_whole rounds tallies.now }
{
    tallies.iter().all(|tally| is_whole(rounds, tally))
}

fn is_whole(rounds: u32, tally: &Tally) -> bool
    ensures { result ≡ is_whole rounds tally.now }
{
    let rounds = rounds as usize;
    tally.writes == rounds && tally.reads == rounds && tally.equal == rounds
}

/// The lines of all clients.
pub(crate) fn work_text(alloc: Global, tallies: &[Tally]) -> Result<Vec<u8>, AllocError>
    ensures { IfOk result (λ text. text.items ≡ work_text tallies.now) }
{
    let mut text = Vec::new(alloc);
    for tally in tallies {
        push_line(alloc, &mut text, *tally)?;
    }
    Ok(text)
}

/// Adds `client C writes W reads R equal E`.
#[tactic(auto, unfolding(crate::specs::Tallies::work_line))]
fn push_line(alloc: Global, text: &mut Vec<u8>, tally: Tally) -> Result<(), AllocError>
    ensures { OnOk result (text.new.items ≡ text.old.items ++ work_line tally) }
{
    let Tally {
        client,
        writes,
        reads,
        equal,
    } = tally;
    let wrote = format!(in alloc; "client {client} writes {writes}")?;
    text.extend_from_slice(wrote.as_bytes())?;
    let read = format!(in alloc; " reads {reads} equal {equal}\n")?;
    text.extend_from_slice(read.as_bytes())
}
