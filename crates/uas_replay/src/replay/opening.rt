//! What a script's run begins with: zeroed units, and clients without a tag that is out.

ghost use Rattle.std.specs.Prelude.{◌≡◌, ◌≤◌, [], option_to_list, replicate, IfOk};
ghost use Rattle.uas_profile.specs.Tags.{AreTags};
ghost use Rattle.uas_profile.specs.declared.TheConstants.{MAX_BLOCKS, MAX_CLIENTS};
ghost use Rattle.uas_replay.specs.Told.{opening_ranges, zeroed_units};

use super::notes::TicketNotes;
use block_unit::Unit;
use std::alloc::{AllocError, Global};
use tag_range::ClientRange;

/// So many units of zeroed blocks, in each of which this block is bad where the unit has it.
pub fn zeroed_units(
    alloc: Global,
    clients: usize,
    blocks: u32,
    bad: Option<u32>,
) -> Result<Vec<Unit>, AllocError>
    requires some { 1 ≤ blocks }
    requires most { blocks ≤ MAX_BLOCKS }
    ensures { IfOk result (λ units. units.items ≡ zeroed_units clients blocks bad) }
{
    let mut units = Vec::new(alloc);
    for _ in 0..clients {
        units.push(Unit::new(alloc, blocks, bad_blocks(alloc, bad)?)?)?;
    }
    Ok(units)
}

/// The numbers of a unit's bad blocks.
fn bad_blocks(alloc: Global, bad: Option<u32>) -> Result<Vec<u32>, AllocError>
    ensures { IfOk result (λ blocks. blocks.items ≡ option_to_list bad) }
{
    let mut blocks = Vec::new(alloc);
    if let Some(block) = bad {
        blocks.push(block)?;
    }
    Ok(blocks)
}

/// The tags of so many clients, 2 to 16 of each, none of them out.
pub fn opening_ranges(
    alloc: Global,
    clients: usize,
    tags: usize,
) -> Result<Vec<ClientRange>, AllocError>
    requires number { AreTags tags }
    requires most { clients ≤ MAX_CLIENTS }
    ensures { IfOk result (λ ranges. ranges.items ≡ opening_ranges tags clients) }
{
    let mut ranges = Vec::new(alloc);
    for client in 0..clients {
        ranges.push(ClientRange::new(tags, client as u8))?;
    }
    Ok(ranges)
}

/// Nothing noted, for so many clients.
pub fn opening_notes(alloc: Global, clients: usize) -> Result<Vec<TicketNotes>, AllocError>
    ensures { IfOk result (λ notes. notes.items ≡ replicate clients []) }
{
    let mut notes = Vec::new(alloc);
    for _ in 0..clients {
        notes.push(TicketNotes::new(alloc))?;
    }
    Ok(notes)
}
