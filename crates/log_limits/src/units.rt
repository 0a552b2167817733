//! The limits of a unit.
ghost use Rattle.std.specs.Prelude.{◌≡◌, ◌≤◌, ◌↔◌, IsTrue};
ghost use Rattle.log_text.specs.Text.{AreRising, UnitFits};

use uas_log::FirstUnit;
use uas_profile::BLOCK_BYTES;

/// The most blocks of a unit.
const MOST_BLOCKS: usize = 65_536;

/// Whether a unit has 1 to 65,536 whole blocks, and the numbers of its bad blocks rise and are of its blocks.
pub(crate) fn unit_fits(unit: &FirstUnit) -> bool
    ensures { IsTrue result ↔ UnitFits unit.now }
{
    let blocks = unit.blocks.len() / BLOCK_BYTES;
    1 <= blocks
        && blocks <= MOST_BLOCKS
        && unit.blocks.len() == blocks * BLOCK_BYTES
        && are_rising(blocks, unit.bad.as_slice())
}

/// Whether the numbers rise and are below a limit.
fn are_rising(limit: usize, numbers: &[u32]) -> bool
    ensures { IsTrue result ↔ AreRising 0 limit numbers.now }
{
    let mut least = 0;
    for number in numbers {
        let number = *number as usize;
        if number < least || number >= limit {
            return false;
        }
        least = number + 1;
    }
    true
}
