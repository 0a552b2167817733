//! A look at a unit's blocks.
ghost use Rattle.std.specs.Prelude.{◌≡◌, option_map};
ghost use Rattle.c_common.specs.Shown.{data_shown};

use uas_profile::BLOCK_BYTES;

/// The numbers by which a handle refuses a look at blocks.
#[derive(Clone, Copy)]
pub struct ShownFaults {
    /// There is no such unit.
    pub no_unit: u8,
    /// The bytes are no whole blocks.
    pub not_whole: u8,
    /// They reach behind the last block.
    pub beyond: u8,
}

/// Copies whole blocks from block `lba` on to `bytes`, as many as fill it. The number of the refusal, where `bytes` are as they were, or 0.
pub fn show(faults: ShownFaults, blocks: Option<&[u8]>, lba: u64, bytes: &mut [u8]) -> u8
    ensures { (result, bytes.new) ≡ data_shown faults (option_map (λ all. all.now) blocks.entry) lba bytes.old }
{
    let Some(blocks) = blocks else {
        return faults.no_unit;
    };
    if bytes.len() % BLOCK_BYTES != 0 {
        return faults.not_whole;
    }
    if lba > (blocks.len() / BLOCK_BYTES) as u64 {
        return faults.beyond;
    }
    let start = BLOCK_BYTES * lba as usize;
    if bytes.len() > blocks.len() - start {
        return faults.beyond;
    }
    bytes.copy_from_slice(&blocks[start..start + bytes.len()]);
    0
}
