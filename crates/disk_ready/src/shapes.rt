//! What a disk that is ready can be asked.
ghost use Rattle.std.specs.Prelude.{◌≡◌, ◌<◌};
ghost use Rattle.disk_ready.specs.Shapes.{bridge_limit, can_unmap, disk_of, has_240_sectors, has_fua, limits_or_none, lower_limit, shape_of};

use crate::questions::Learned;
use disk_requests::{BlockLimits, Capacity, DiskShape};
use disk_up::Known;
use usb_descriptors::UasFunction;

/// A disk that is ready.
#[derive(Clone, Copy)]
pub struct ReadyDisk {
    pub shape: DiskShape,
    /// The tags that have streams, the last for task management.
    pub tags: u8,
}

/// The most bytes of a command through ASMedia's ASM1053: 240 sectors.
const ASM1053_BYTES: u32 = 240 * 512;

/// The disk of which this is known; None where its pipes or its size aren't.
pub(crate) fn disk_of(known: &Known, learned: &Learned) -> Option<ReadyDisk>
    ensures { result ≡ disk_of known.now learned.now }
{
    match (known.disk, learned.capacity) {
        (Some((function, streams)), Some(capacity)) => Some(ReadyDisk {
            shape: shape_of(known, &function, capacity, limits_or_none(learned.limits)),
            tags: streams.tags,
        }),
        _ => None,
    }
}

fn shape_of(
    known: &Known,
    function: &UasFunction,
    capacity: Capacity,
    limits: BlockLimits,
) -> DiskShape
    ensures { result ≡ shape_of known.now function.now capacity limits }
{
    DiskShape {
        blocks: capacity.blocks,
        block_bytes: capacity.block_bytes,
        most_blocks: lower_limit(
            limits.most_blocks,
            bridge_limit(known, function, capacity.block_bytes),
        ),
        most_unmap: limits.most_unmap,
        can_unmap: can_unmap(capacity, limits),
        has_fua: has_fua(known),
    }
}

fn limits_or_none(limits: Option<BlockLimits>) -> BlockLimits
    ensures { result ≡ limits_or_none limits }
{
    match limits {
        Some(limits) => limits,
        None => BlockLimits {
            most_blocks: 0,
            optimal_blocks: 0,
            most_unmap: 0,
            unmap_descriptors: 0,
        },
    }
}

/// Of two limits the lower; 0 is none.
fn lower_limit(a: u32, b: u32) -> u32
    ensures { result ≡ lower_limit a b }
{
    if a == 0 {
        b
    } else if b == 0 {
        a
    } else {
        a.min(b)
    }
}

/// The most blocks of a command through a bridge; 0 for no limit.
fn bridge_limit(known: &Known, function: &UasFunction, block_bytes: u32) -> u32
    ensures { result ≡ bridge_limit known.now function.now block_bytes }
{
    if has_240_sectors(known, function) && block_bytes != 0 {
        ASM1053_BYTES / block_bytes
    } else {
        0
    }
}

fn has_240_sectors(known: &Known, function: &UasFunction) -> bool
    ensures { result ≡ has_240_sectors known.now function.now }
{
    known.is_asm105x(function) && function.pipes.status.max_streams != 5
}

/// Whether blocks can be unmapped (SBC-3, 5.16 and 6.5.3).
fn can_unmap(capacity: Capacity, limits: BlockLimits) -> bool
    ensures { result ≡ can_unmap capacity limits }
{
    capacity.is_provisioned && limits.most_unmap != 0 && limits.unmap_descriptors != 0
}

/// Whether a bridge takes FUA.
fn has_fua(known: &Known) -> bool
    ensures { result ≡ has_fua known.now }
{
    !(known.vendor == 0x152d && (known.product == 0x0567 || known.product == 0x0578))
}
