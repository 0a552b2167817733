//! What a client of `uasdisk work` submits.
ghost use Rattle.std.specs.Prelude.{◌≡◌, ◌*◌, ◌≤◌, ◌<◌, IfOk};
ghost use Rattle.uas_profile.specs.declared.TheConstants.{MAX_CLIENTS};
ghost use Rattle.uas_profile.specs.Tags.{AreTags};
ghost use Rattle.log_audit.specs.Plan.{filled, planned_read, planned_steps, planned_tag, planned_write};

use scsi_cmd::{Buffer, Command, Op};
use shared_machine::Step;
use std::alloc::{AllocError, Global};
use uas_profile::BLOCK_BYTES;

/// Blocks of each command of a round.
const ROUND_BLOCKS: u16 = 8;

/// Rounds until a client is back at its first blocks.
const ROUNDS_AROUND: u32 = 8;

/// The submissions of a client of so many rounds, in order: in round r, from 0 on, a WRITE without FUA of 8 blocks at block
/// 8 (r mod 8) with bytes (16 client + r) mod 256, and a READ of the same blocks into zeros, with tickets from 0 on. With so many out at a
/// time, a ticket is on the tag that is its remainder behind the client's first. Asks for 2 to 16 tags of each client.
pub fn planned(
    alloc: Global,
    tags: usize,
    depth: usize,
    client: usize,
    rounds: u32,
) -> Result<Vec<Step>, AllocError>
    requires tags { AreTags tags }
    requires depth { (1 ≤ depth) × (depth < tags) }
    requires client { client < MAX_CLIENTS }
    ensures { IfOk result (λ steps. steps.items ≡ planned_steps tags depth client rounds) }
{
    let mut steps = Vec::new(alloc);
    for round in 0..rounds {
        steps.push(planned_write(alloc, tags, depth, client, round)?)?;
        steps.push(planned_read(alloc, tags, depth, client, round)?)?;
    }
    Ok(steps)
}

fn planned_write(
    alloc: Global,
    tags: usize,
    depth: usize,
    client: usize,
    round: u32,
) -> Result<Step, AllocError>
    requires tags { AreTags tags }
    requires depth { (1 ≤ depth) × (depth < tags) }
    requires client { client < MAX_CLIENTS }
    ensures { IfOk result (λ step. step ≡ planned_write tags depth client round) }
{
    let byte = ((16 * client as u64 + u64::from(round)) % 256) as u8;
    let ticket = 2 * u64::from(round);
    Ok(Step::Submit {
        client,
        tag: planned_tag(tags, depth, client, ticket),
        ticket,
        command: Command {
            op: Op::Write {
                lba: u32::from(ROUND_BLOCKS) * (round % ROUNDS_AROUND),
                count: ROUND_BLOCKS,
                fua: false,
            },
            buffer: filled(alloc, BLOCK_BYTES * usize::from(ROUND_BLOCKS), byte)?,
        },
    })
}

fn planned_read(
    alloc: Global,
    tags: usize,
    depth: usize,
    client: usize,
    round: u32,
) -> Result<Step, AllocError>
    requires tags { AreTags tags }
    requires depth { (1 ≤ depth) × (depth < tags) }
    requires client { client < MAX_CLIENTS }
    ensures { IfOk result (λ step. step ≡ planned_read tags depth client round) }
{
    let ticket = 2 * u64::from(round) + 1;
    Ok(Step::Submit {
        client,
        tag: planned_tag(tags, depth, client, ticket),
        ticket,
        command: Command {
            op: Op::Read {
                lba: u32::from(ROUND_BLOCKS) * (round % ROUNDS_AROUND),
                count: ROUND_BLOCKS,
                fua: false,
            },
            buffer: filled(alloc, BLOCK_BYTES * usize::from(ROUND_BLOCKS), 0)?,
        },
    })
}

/// The tag of a client's ticket.
fn planned_tag(tags: usize, depth: usize, client: usize, ticket: u64) -> u16
    requires tags { AreTags tags }
    requires depth { (1 ≤ depth) × (depth < tags) }
    requires client { client < MAX_CLIENTS }
    ensures { result ≡ planned_tag tags depth client ticket }
{
    (tags * client) as u16 + (ticket % depth as u64) as u16 + 1
}

/// A buffer of so many of a byte.
#[tactic(auto, unfolding(crate::specs::Plan::filled))]
fn filled(alloc: Global, count: usize, byte: u8) -> Result<Buffer, AllocError>
    ensures { IfOk result (λ buffer. buffer ≡ filled count byte) }
{
    Ok(Buffer::from_vec(vec![in alloc; byte; count]?))
}
