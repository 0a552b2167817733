//! What a client does in a round: a WRITE of eight blocks, and a READ of the same.
ghost use Rattle.std.specs.Prelude.{◌≡◌, ◌<◌, ◌^◌, IfOk};
ghost use Rattle.uas_work.specs.Rounds.{half_at, round_command, round_fill, round_op, ticket_command};

use scsi_cmd::{Buffer, Command, Op};
use std::alloc::{AllocError, Global};
use tag_desk::Prepared;
use uas_profile::BLOCK_BYTES;

/// Blocks of each command of a client's round.
const ROUND_BLOCKS: u16 = 8;

/// Rounds until a client is back at its first blocks.
const ROUNDS_AROUND: u32 = 8;

/// What a client submits in a round.
#[derive(Clone, Copy)]
enum Half {
    Write,
    Read,
}

/// What a client asks for with a ticket, with what the log is to keep of it.
pub(crate) fn prepared_command(
    alloc: Global,
    client: u8,
    ticket: u64,
) -> Result<Prepared, AllocError>
    requires { ticket < 2 ^ 33 }
    ensures { IfOk result (λ command. command ≡ ticket_command client ticket) }
{
    Prepared::new(alloc, ticket_command(alloc, client, ticket)?)
}

/// What a client asks for with a ticket.
fn ticket_command(alloc: Global, client: u8, ticket: u64) -> Result<Command, AllocError>
    requires { ticket < 2 ^ 33 }
    ensures { IfOk result (λ command. command ≡ ticket_command client ticket) }
{
    command(alloc, client, (ticket / 2) as u32, half_at(ticket))
}

fn half_at(ticket: u64) -> Half
    ensures { result ≡ half_at ticket }
{
    if ticket % 2 == 0 {
        Half::Write
    } else {
        Half::Read
    }
}

/// What a client asks for in a half of a round.
fn command(alloc: Global, client: u8, round: u32, half: Half) -> Result<Command, AllocError>
    ensures { IfOk result (λ command. command ≡ round_command client round half) }
{
    let bytes = BLOCK_BYTES * usize::from(ROUND_BLOCKS);
    let filled = vec![in alloc; fill(client, round, half); bytes]?;
    Ok(Command {
        op: op(round, half),
        buffer: Buffer::from_vec(filled),
    })
}

fn op(round: u32, half: Half) -> Op
    ensures { result ≡ round_op round half }
{
    let lba = u32::from(ROUND_BLOCKS) * (round % ROUNDS_AROUND);
    let count = ROUND_BLOCKS;
    let fua = false;
    match half {
        Half::Write => Op::Write { lba, count, fua },
        Half::Read => Op::Read { lba, count, fua },
    }
}

/// What the buffer is filled with at first: the bytes that are written, or zeros for those that are read.
fn fill(client: u8, round: u32, half: Half) -> u8
    ensures { result ≡ round_fill client round half }
{
    match half {
        Half::Write => ((16 * u64::from(client) + u64::from(round)) % 256) as u8,
        Half::Read => 0,
    }
}
