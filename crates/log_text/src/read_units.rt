//! The first units of a log's text.
ghost use Rattle.std.specs.Prelude.{◌≡◌, ◌+◌, ◌≤◌, ◌<◌, ◌^◌, length, IfOk};
ghost use Rattle.log_text.specs.Reading.{Gives, items_at, rising_at, unit_at};

use crate::Stop;
use crate::read_fields::{field, front};
use std::alloc::Global;
use uas_log::{BlockBytes, BlockNumbers, FirstUnit};
use uas_profile::BLOCK_BYTES;

/// The most blocks of a unit.
const MOST_BLOCKS: u64 = 65_536;

/// The most items of a list.
pub(crate) const MOST_ITEMS: u64 = 0xffff_ffff;

/// So many numbers of bad blocks, rising and up to a most.
fn rising(alloc: Global, most: u64, count: u32, bytes: &[u8]) -> Result<(Vec<u32>, &[u8]), Stop>
    requires { most < 2 ^ 32 }
    ensures { Gives (λ read. (read.0.items, read.1.now)) result (rising_at most count 0 bytes.now) }
{
    let mut numbers = Vec::new(alloc);
    let mut least = 0;
    let mut rest = bytes;
    for _ in 0..count {
        let (number, after) = field(rest, 4, least, most)?;
        numbers.push(number as u32)?;
        least = number + 1;
        rest = after;
    }
    Ok((numbers, rest))
}

/// A unit.
#[tactic(auto, unfolding(crate::specs::Reading::unit_at))]
pub(crate) fn unit(alloc: Global, bytes: &[u8]) -> Result<(FirstUnit, &[u8]), Stop>
    ensures { Gives (λ read. (read.0, read.1.now)) result (unit_at bytes.now) }
{
    let (count, rest) = field(bytes, 4, 1, MOST_BLOCKS)?;
    let (blocks, rest) = front(rest, count as usize * BLOCK_BYTES)?;
    let (bad_count, rest) = field(rest, 4, 0, MOST_ITEMS)?;
    let (bad, rest) = rising(alloc, count - 1, bad_count as u32, rest)?;
    let unit = FirstUnit {
        blocks: BlockBytes::from_vec(Vec::from_slice(alloc, blocks)?),
        bad: BlockNumbers::from_vec(bad),
    };
    Ok((unit, rest))
}

/// So many units.
pub(crate) fn units(
    alloc: Global,
    count: u32,
    bytes: &[u8],
) -> Result<(Vec<FirstUnit>, &[u8]), Stop>
    ensures { Gives (λ read. (read.0.items, read.1.now)) result (items_at unit_at count bytes.now) }
{
    let mut units = Vec::new(alloc);
    let mut rest = bytes;
    for _ in 0..count {
        let (unit, after) = unit(alloc, rest)?;
        units.push(unit)?;
        rest = after;
    }
    Ok((units, rest))
}
