//! The commands on blocks: READ, WRITE, VERIFY and SYNCHRONIZE CACHE.
ghost use Rattle.std.specs.Prelude.{◌≡◌, ℕ, ◌+◌, ◌≤◌, IfOk};
ghost use Rattle.scsi_cmd.specs.Meaning.{asks_for_protection};
ghost use Rattle.host_commands.specs.Meaning.{IsWorkOn, goes_through, in_range, reads, synchronizes, transferred, verifies, writes, writes_and_verifies};

use crate::fields::{Extent, has_bit};
use crate::{LogicalUnitShape, TransferLength, Work};
use scsi_cmd::Sense;

/// FUA in byte 1 of READ and WRITE is this bit.
const FUA_BIT: u8 = 3;

/// A read-only logical unit is to be changed (SPC, WRITE PROTECTED).
pub(crate) const WRITE_PROTECTED: Sense = Sense {
    key: 0x7,
    asc: 0x27,
    ascq: 0x00,
};

/// READ: `invalid` where its protect field isn't 0.
pub(crate) fn reads(
    invalid: bool,
    extent: Extent,
    maximum: TransferLength,
    blocks: u64,
) -> Result<Work, Sense>
    ensures work { result ≡ reads invalid extent maximum blocks }
    ensures on { IfOk result (IsWorkOn blocks maximum) }
{
    let Extent { lba, count } = extent;
    transferred(invalid, maximum, blocks, extent, Work::Reads { lba, count })
}

/// WRITE, `through` to the medium or not; a read-only logical unit refuses it.
pub(crate) fn writes(
    invalid: bool,
    extent: Extent,
    through: bool,
    maximum: TransferLength,
    shape: &LogicalUnitShape,
) -> Result<Work, Sense>
    ensures work { result ≡ writes invalid extent through maximum shape.now }
    ensures on { IfOk result (IsWorkOn shape.now.blocks maximum) }
{
    let Extent { lba, count } = extent;
    if invalid || count > u32::from(maximum.blocks()) {
        return Err(Sense::INVALID_FIELD_IN_CDB);
    }
    if shape.is_read_only() {
        return Err(WRITE_PROTECTED);
    }
    in_range(
        shape.blocks(),
        extent,
        Work::Writes {
            lba,
            count,
            through,
        },
    )
}

/// VERIFY: with BYTCHK 0 it takes no data, with 1 as many blocks as it names.
pub(crate) fn verifies(
    cdb: &[u8; 16],
    extent: Extent,
    maximum: TransferLength,
    blocks: u64,
) -> Result<Work, Sense>
    ensures work { result ≡ verifies cdb.now extent maximum blocks }
    ensures on { IfOk result (IsWorkOn blocks maximum) }
{
    let Extent { lba, count } = extent;
    let check = cdb[1] >> 1 & 3;
    if protects(cdb) || check > 1 {
        Err(Sense::INVALID_FIELD_IN_CDB)
    } else if check == 0 {
        in_range(blocks, extent, Work::Verifies { lba, count })
    } else {
        transferred(
            false,
            maximum,
            blocks,
            extent,
            Work::Compares { lba, count },
        )
    }
}

/// WRITE AND VERIFY: what is written through is read, or with BYTCHK 1 compared; a read-only logical unit refuses it.
pub(crate) fn writes_and_verifies(
    cdb: &[u8; 16],
    extent: Extent,
    shape: &LogicalUnitShape,
) -> Result<Work, Sense>
    ensures work { result ≡ writes_and_verifies cdb.now extent shape.now }
    ensures on { IfOk result (IsWorkOn shape.now.blocks shape.now.disk.most) }
{
    let Extent { lba, count } = extent;
    let check = cdb[1] >> 1 & 3;
    if protects(cdb) || check > 1 || count > u32::from(shape.disk().most.blocks()) {
        return Err(Sense::INVALID_FIELD_IN_CDB);
    }
    if shape.is_read_only() {
        return Err(WRITE_PROTECTED);
    }
    in_range(
        shape.blocks(),
        extent,
        Work::WritesAndVerifies {
            lba,
            count,
            compares: check == 1,
        },
    )
}

/// SYNCHRONIZE CACHE.
pub(crate) fn synchronizes(extent: Extent, blocks: u64) -> Result<Work, Sense>
    ensures work { result ≡ synchronizes extent blocks }
    ensures on { (most : ℕ) → IfOk result (IsWorkOn blocks most) }
{
    let Extent { lba, count } = extent;
    in_range(blocks, extent, Work::Synchronizes { lba, count })
}

/// Whether a protect field isn't 0.
pub(crate) fn protects(cdb: &[u8; 16]) -> bool
    ensures { result ≡ asks_for_protection cdb.now }
{
    cdb[1] >> 5 != 0
}

/// Whether FUA is set.
pub(crate) fn goes_through(cdb: &[u8; 16]) -> bool
    ensures { result ≡ goes_through cdb.now }
{
    has_bit(cdb[1], FUA_BIT)
}

/// This work, where no field is invalid, and the blocks are at most so many and on the logical unit.
fn transferred(
    invalid: bool,
    maximum: TransferLength,
    blocks: u64,
    extent: Extent,
    work: Work,
) -> Result<Work, Sense>
    ensures work { result ≡ transferred invalid maximum blocks extent.lba extent.count work }
    ensures range { IfOk result (λ _. (extent.lba + extent.count ≤ blocks) × (extent.count ≤ maximum)) }
{
    if invalid || extent.count > u32::from(maximum.blocks()) {
        return Err(Sense::INVALID_FIELD_IN_CDB);
    }
    in_range(blocks, extent, work)
}

/// This work, where its blocks are on the logical unit.
pub(crate) fn in_range(blocks: u64, extent: Extent, work: Work) -> Result<Work, Sense>
    ensures work { result ≡ in_range blocks extent.lba extent.count work }
    ensures range { IfOk result (λ _. extent.lba + extent.count ≤ blocks) }
{
    if extent.lba >= blocks || u64::from(extent.count) > blocks - extent.lba {
        Err(Sense::OUT_OF_RANGE)
    } else {
        Ok(work)
    }
}
