//! What an operation does to a logical unit. The layers above go by the five cases of `Work`, and by no operation.
ghost use Rattle.std.specs.Prelude.{◌≡◌, ◌<◌, ◌≤◌, None, IfOk, length, min, take};
ghost use Rattle.scsi_cmd.specs.Data.{inquiry_bytes, long_capacity_bytes};
ghost use Rattle.scsi_cmd.specs.Meaning.{op_fault};
ghost use Rattle.scsi_cmd.specs.Op.{moved_bytes, way_of};
ghost use Rattle.scsi_cmd.specs.Work.{IsWorkOn, asked_without_unit, cdb_reports_attention, checked_work, inquiry_front, is_inquiry, long_capacity_front};
ghost use Rattle.scsi_cmd.specs.Work.{reports_attention, work_bytes, work_direction, work_of, work_without_unit};

use crate::cdbs::{INQUIRY, fault, parse};
use crate::{
    INQUIRY_BYTES, LONG_CAPACITY_BYTES, Op, Sense, Work, capacity_data, inquiry_data,
    long_capacity_data,
};
use arrayvec::ArrayVec;

/// The work of an operation on a unit of so many blocks, at least 1.
#[inline(always)]
pub fn work_of(op: &Op, blocks: u32) -> Work
    requires { 0 < blocks }
    ensures work { result ≡ work_of op.now blocks }
    ensures bytes { work_bytes result ≡ moved_bytes op.now }
    ensures direction { work_direction result ≡ way_of op.now }
    ensures on { op_fault op.now blocks ≡ None → IsWorkOn blocks result }
{
    match *op {
        Op::TestUnitReady => Work::Nothing,
        Op::Inquiry { allocation } => Work::Gives(inquiry_front(true, allocation)),
        Op::ReadCapacity => Work::Gives(array_of(&capacity_data(blocks))),
        Op::Read { lba, count, .. } => Work::Reads {
            lba: u64::from(lba),
            count: u32::from(count),
        },
        Op::Write { lba, count, fua } => Work::Writes {
            lba: u64::from(lba),
            count: u32::from(count),
            through: fua,
        },
        Op::Sync { lba, count } => Work::Synchronizes { lba, count },
        Op::Read16 { lba, count, .. } => Work::Reads { lba, count },
        Op::Write16 {
            lba,
            count,
            fua: through,
        } => Work::Writes {
            lba,
            count,
            through,
        },
        Op::ReadCapacity16 { allocation } => {
            Work::Gives(long_capacity_front(blocks, allocation))
        }
    }
}

/// The work of an operation on a unit of so many blocks, at least 1, or the sense of its fault there.
pub fn checked_work(op: &Op, blocks: u32) -> Result<Work, Sense>
    requires { 0 < blocks }
    ensures work { result ≡ checked_work op.now blocks }
    ensures on { IfOk result (IsWorkOn blocks) }
{
    match fault(op, blocks) {
        Some(sense) => Err(sense),
        None => Ok(work_of(op, blocks)),
    }
}

/// The work of an operation where no unit is: INQUIRY tells so in its data (SPC), and all else is refused with
/// LOGICAL UNIT NOT SUPPORTED.
pub fn work_without_unit(op: &Op) -> Result<Work, Sense>
    ensures work { result ≡ work_without_unit op.now }
    ensures bytes { IfOk result (λ work. work_bytes work ≡ moved_bytes op.now) }
{
    match *op {
        Op::Inquiry { allocation } => Ok(Work::Gives(inquiry_front(false, allocation))),
        Op::TestUnitReady
        | Op::ReadCapacity
        | Op::Read { .. }
        | Op::Write { .. }
        | Op::Sync { .. }
        | Op::Read16 { .. }
        | Op::Write16 { .. }
        | Op::ReadCapacity16 { .. } => Err(Sense::UNIT_NOT_SUPPORTED),
    }
}

/// What 16 bytes ask where no unit is: INQUIRY is parsed as ever, and all else is refused with LOGICAL UNIT NOT
/// SUPPORTED (SPC).
pub fn parse_without_unit(bytes: &[u8; 16]) -> Result<Op, Sense>
    ensures { result ≡ asked_without_unit bytes.now }
{
    if is_inquiry(bytes) {
        parse(bytes, 0)
    } else {
        Err(Sense::UNIT_NOT_SUPPORTED)
    }
}

/// Whether an operation reports a unit attention and clears it; INQUIRY does neither (SPC).
pub fn reports_attention(op: &Op) -> bool
    ensures { result ≡ reports_attention op.now }
{
    match op {
        Op::Inquiry { .. } => false,
        Op::TestUnitReady
        | Op::ReadCapacity
        | Op::Read { .. }
        | Op::Write { .. }
        | Op::Sync { .. }
        | Op::Read16 { .. }
        | Op::Write16 { .. }
        | Op::ReadCapacity16 { .. } => true,
    }
}

/// Whether 16 bytes, of any operation code, report a unit attention and clear it; those of INQUIRY do neither, also
/// where they have a fault (SPC).
pub fn cdb_reports_attention(bytes: &[u8; 16]) -> bool
    ensures { result ≡ cdb_reports_attention bytes.now }
{
    !is_inquiry(bytes)
}

fn is_inquiry(bytes: &[u8; 16]) -> bool
    ensures { result ≡ is_inquiry bytes.now }
{
    bytes[0] == INQUIRY
}

/// The front of the INQUIRY data, as many bytes as are asked for.
fn inquiry_front(present: bool, allocation: u16) -> ArrayVec<u8, INQUIRY_BYTES>
    ensures bytes { result.items ≡ inquiry_front present allocation }
    ensures len { length result.items ≡ min allocation 36 }
{
    let count = usize::from(allocation).min(INQUIRY_BYTES);
    array_of(&inquiry_data(present)[..count])
}

/// The front of the READ CAPACITY(16) data, as many bytes as are asked for.
fn long_capacity_front(blocks: u32, allocation: u32) -> ArrayVec<u8, INQUIRY_BYTES>
    requires { 0 < blocks }
    ensures bytes { result.items ≡ long_capacity_front blocks allocation }
    ensures len { length result.items ≡ min allocation 32 }
{
    let count = (allocation as usize).min(LONG_CAPACITY_BYTES);
    array_of(&long_capacity_data(blocks)[..count])
}

fn array_of(bytes: &[u8]) -> ArrayVec<u8, INQUIRY_BYTES>
    requires { length bytes.now ≤ 36 }
    ensures { result.items ≡ bytes.now }
{
    let mut array = ArrayVec::new();
    array.try_extend_from_slice(bytes).unwrap();
    array
}
