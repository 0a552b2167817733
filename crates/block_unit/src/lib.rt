//! The blocks of one logical unit, and the medium behind them.
//!
//! In SBC a logical unit is a row of logical blocks, addressed from 0 on, which may be kept in a volatile cache before they
//! reach the medium. A READ sees the blocks. A WRITE changes the blocks; with FUA it is not done before it has reached the
//! medium too. SYNCHRONIZE CACHE brings blocks to the medium, and a number of blocks of 0 stands for all from its first block
//! to the last. Here that is two maps from block numbers to 512 bytes, which start equal:
//!
//! ```text
//!             new     from_image     read_into     write     write, through     sync
//!     blocks  zeros   the image      gives         takes     takes              gives
//!     medium  zeros   the image                              takes              takes
//! ```
//!
//! A unit has beside them a flag, its unit attention (SAM), and the numbers of its bad blocks, which are fixed when it is made.
//! A read or a write that meets a bad block is refused whole; a synchronization takes no notice of bad blocks.
//!
//! What is promised: each call gives the two maps after it in full, as the definition of that name in `specs/BlockMaps.antt`
//! says, and `specs/Laws.antt` says the same block by block. A read or a write is refused exactly where it meets a bad block,
//! and a refusal changes nothing. The constructors take all memory that a unit ever has; no other call takes any.
//!
//! The crate stands on std and `thiserror` alone.
#![tactic(auto)]

ghost use Rattle.std.specs.Prelude.{◌≡◌, ◌+◌, ◌*◌, ◌^◌, ◌<◌, ◌≤◌, ◌↔◌, true, false, length, All, IsOk, IfOk, OnOk, OnErr, IsErrOf};
ghost use Rattle.std.specs.List.Sorted.{IsStrictlyIncreasing};
ghost use Rattle.block_unit.specs.BlockMaps.{block_count, IsWhole, bad_below, blocks_read, fresh, imaged, is_whole_image, meets_bad};
ghost use Rattle.block_unit.specs.BlockMaps.{synced, with_attention, written};
ghost use Rattle.uas_profile.specs.declared.TheConstants.{BLOCK_BYTES, MAX_BLOCKS};
ghost use Rattle.block_unit.specs.Laws.{ReadsBlocks, WritesBlocks, WritesMedium, SyncsMedium};

use std::alloc::{AllocError, Global};
use std::marker::Model;
use thiserror::Error;
use uas_profile::{BLOCK_BYTES, MAX_BLOCKS};

/// One of the blocks is bad.
#[derive(Clone, Copy, Debug, PartialEq, Eq, Error)]
#[error("one of the blocks is bad")]
pub struct Bad;

/// Why an image makes no unit. The first that holds is answered, in this order.
#[derive(Clone, Copy, Debug, PartialEq, Eq, Error)]
pub enum ImageFault {
    #[error("the image is empty, or its last block is not whole")]
    NotWhole = 1,
    #[error("the image has more than {MAX_BLOCKS} blocks")]
    TooLarge,
    #[error("no memory")]
    NoMemory,
}

/// The blocks, the medium, the attention and the bad blocks of one logical unit.
#[derive(Debug, Drop)]
pub struct Unit {
    count: u32,
    // Both have `BLOCK_BYTES` bytes for each block, in the order of the blocks.
    blocks: Vec<u8>,
    medium: Vec<u8>,
    attention: bool,
    // Rising, each number once.
    bad: Vec<u32>,
}

impl Model for Unit {
    ghost use Rattle.std.specs.Prelude.{◌≡◌, ◌≤◌, ◌<◌, ◌*◌, vec_len, All};
    ghost use Rattle.std.specs.List.Sorted.{IsStrictlyIncreasing};
    ghost use Rattle.block_unit.specs.BlockMaps.{BlockMaps};
    ghost use Rattle.uas_profile.specs.declared.TheConstants.{BLOCK_BYTES, MAX_BLOCKS};

    ghost Value = { BlockMaps };

    ghost view = { λ unit. record {
      count = unit.count;
      blocks = unit.blocks.items;
      medium = unit.medium.items;
      attention = unit.attention;
      bad = unit.bad.items;
    } };

    ghost invariant = { λ unit.
        (1 ≤ unit.count)
        × (unit.count ≤ MAX_BLOCKS)
        × (vec_len unit.blocks ≡ BLOCK_BYTES * unit.count)
        × (vec_len unit.medium ≡ BLOCK_BYTES * unit.count)
        × IsStrictlyIncreasing unit.bad.items
        × All (λ block. block < unit.count) unit.bad.items };
}

#[tactic(auto, unfolding(crate::specs::BlockMaps::fresh, crate::specs::BlockMaps::imaged, crate::specs::BlockMaps::is_whole_image))]
impl Unit {
    /// A unit of `blocks` blocks, 1 to `MAX_BLOCKS`, all zeros, with these bad blocks: in any order, and a number that
    /// isn't below `blocks` has no effect.
    pub fn new(alloc: Global, blocks: u32, bad: Vec<u32>) -> Result<Unit, AllocError>
        requires some { 1 ≤ blocks }
        requires most { blocks ≤ MAX_BLOCKS }
        ensures { IfOk result (λ unit. unit ≡ fresh blocks bad.items) }
    {
        let bytes = BLOCK_BYTES * blocks as usize;
        Ok(Unit {
            count: blocks,
            blocks: vec![in alloc; 0; bytes]?,
            medium: vec![in alloc; 0; bytes]?,
            attention: false,
            bad: sorted_below(blocks, bad),
        })
    }

    /// A unit whose blocks and medium are the bytes of `image`, with these bad blocks, as for `new`. `NotWhole` where
    /// `image` is empty or no multiple of `BLOCK_BYTES` bytes, else `TooLarge` where it has more than `MAX_BLOCKS` blocks,
    /// else `NoMemory` where memory runs out.
    pub fn from_image(alloc: Global, image: &[u8], bad: Vec<u32>) -> Result<Unit, ImageFault>
        ensures not_whole { IsErrOf result ImageFault.NotWhole ↔ (is_whole_image image.now ≡ false) }
        ensures too_large { IsErrOf result ImageFault.TooLarge
            ↔ ((is_whole_image image.now ≡ true) × (MAX_BLOCKS < block_count image.now)) }
        ensures image { IfOk result (λ unit. unit ≡ imaged image.now bad.items) }
    {
        if image.is_empty() || image.len() % BLOCK_BYTES != 0 {
            return Err(ImageFault::NotWhole);
        }
        if image.len() / BLOCK_BYTES > MAX_BLOCKS as usize {
            return Err(ImageFault::TooLarge);
        }
        let count = (image.len() / BLOCK_BYTES) as u32;
        Ok(Unit {
            count,
            blocks: Vec::from_slice(alloc, image).map_err(|_| ImageFault::NoMemory)?,
            medium: Vec::from_slice(alloc, image).map_err(|_| ImageFault::NoMemory)?,
            attention: false,
            bad: sorted_below(count, bad),
        })
    }
}

#[tactic(auto, unfolding(crate::specs::BlockMaps::covers, crate::specs::BlockMaps::meets_bad, crate::specs::BlockMaps::blocks_read, crate::specs::BlockMaps::written, crate::specs::BlockMaps::synced, crate::specs::BlockMaps::blocks_covered, crate::specs::BlockMaps::with_attention, crate::specs::BlockMaps::bytes_from, crate::specs::BlockMaps::with_bytes))]
impl Unit {
    /// How many blocks the unit has.
    pub fn blocks(&self) -> u32
        ensures count { result ≡ self.now.count }

        // The sizes of every unit.
        ensures some { 1 ≤ self.now.count }
        ensures most { self.now.count ≤ MAX_BLOCKS }
        ensures counted { length self.now.blocks ≡ BLOCK_BYTES * self.now.count }
        ensures medium_whole { length self.now.medium ≡ BLOCK_BYTES * self.now.count }
    {
        self.count
    }

    /// The numbers of the bad blocks, rising, each once.
    pub fn bad(&self) -> &[u32]
        ensures numbers { result.now ≡ self.now.bad }
        ensures rising { IsStrictlyIncreasing self.now.bad }
        ensures below { All (λ block. block < self.now.count) self.now.bad }
    {
        &self.bad
    }

    /// READ (SBC): copies whole blocks from block `lba` on to `bytes`, as many as fill it. `Bad` where one of them is bad;
    /// none is where `bytes` is empty.
    pub fn read_into(&self, lba: u32, bytes: &mut [u8]) -> Result<(), Bad>
        requires whole { IsWhole bytes.old }
        requires fits { lba + block_count bytes.old ≤ self.now.count }
        ensures ok { IsOk result ↔ (meets_bad self.now lba (block_count bytes.old) ≡ false) }
        ensures read { OnOk result (bytes.new ≡ blocks_read self.now lba (block_count bytes.old)) }
        ensures err { OnErr result (bytes.new ≡ bytes.old) }
    {
        let count = bytes.len() / BLOCK_BYTES;
        if self.meets_bad(lba, count) {
            return Err(Bad);
        }
        let start = BLOCK_BYTES * lba as usize;
        bytes.copy_from_slice(&self.blocks[start..start + bytes.len()]);
        Ok(())
    }

    /// WRITE (SBC): copies `bytes`, whole blocks, to the blocks from `lba` on, and to the medium where the write goes
    /// `through` (FUA). `Bad` where one of them is bad; none is where `bytes` is empty.
    pub fn write(&mut self, lba: u32, bytes: &[u8], through: bool) -> Result<(), Bad>
        requires whole { IsWhole bytes.now }
        requires fits { lba + block_count bytes.now ≤ self.old.count }
        ensures ok { IsOk result ↔ (meets_bad self.old lba (block_count bytes.now) ≡ false) }
        ensures written { OnOk result (self.new ≡ written self.old lba bytes.now through) }
        ensures err { OnErr result (self.new ≡ self.old) }
    {
        let many = bytes.len() / BLOCK_BYTES;
        if self.meets_bad(lba, many) {
            return Err(Bad);
        }
        let start = BLOCK_BYTES * lba as usize;
        let end = start + bytes.len();
        self.blocks[start..end].copy_from_slice(bytes);
        if through {
            self.medium[start..end].copy_from_slice(bytes);
        }
        Ok(())
    }

    /// SYNCHRONIZE CACHE (SBC): copies `count` blocks from block `lba` on to the medium, bad ones too; 0 stands for all
    /// from `lba` to the last.
    pub fn sync(&mut self, lba: u32, count: u32)
        requires { lba + count ≤ self.old.count }
        ensures { self.new ≡ synced self.old lba count }
    {
        let start = BLOCK_BYTES * lba as usize;
        let end = if count == 0 {
            self.blocks.len()
        } else {
            start + BLOCK_BYTES * count as usize
        };
        self.medium[start..end].copy_from_slice(&self.blocks[start..end]);
    }

    /// Whether a unit attention is established (SAM).
    pub fn attention(&self) -> bool
        ensures { result ≡ self.now.attention }
    {
        self.attention
    }

    /// Establishes the unit attention, or clears it.
    pub fn set_attention(&mut self, flag: bool)
        ensures { self.new ≡ with_attention self.old flag }
    {
        self.attention = flag;
    }

    /// The bytes of the medium, block after block.
    pub fn medium(&self) -> &[u8]
        ensures bytes { result.now ≡ self.now.medium }
        ensures whole { length result.now ≡ BLOCK_BYTES * self.now.count }
    {
        &self.medium
    }

    /// The bytes of the blocks, block after block.
    pub fn contents(&self) -> &[u8]
        ensures bytes { result.now ≡ self.now.blocks }
        ensures whole { length result.now ≡ BLOCK_BYTES * self.now.count }
    {
        &self.blocks
    }

    // Whether one of `count` blocks from block `lba` on is bad.
    fn meets_bad(&self, lba: u32, count: usize) -> bool
        requires { lba + count < 2 ^ 64 }
        ensures { result ≡ meets_bad self.now lba count }
    {
        let start = lba as usize;
        let end = start + count;
        let next = self.bad.partition_point(|block| (*block as usize) < start);
        next < self.bad.len() && (self.bad[next] as usize) < end
    }
}

// The numbers below `count` that `listed` has, rising, each once. In place: the list that a caller hands in is kept.
fn sorted_below(count: u32, mut listed: Vec<u32>) -> Vec<u32>
    ensures numbers { result.items ≡ bad_below count listed.items }
    ensures rising { IsStrictlyIncreasing result.items }
    ensures below { All (λ block. block < count) result.items }
{
    listed.sort_unstable();
    listed.dedup();
    listed.retain(|block| *block < count);
    listed
}

/// Law: what a read, a write and a synchronization do, block by block.
pub fn block_by_block()
    ensures read { ReadsBlocks }
    ensures written { WritesBlocks }
    ensures written_through { WritesMedium }
    ensures synced { SyncsMedium }
{}
