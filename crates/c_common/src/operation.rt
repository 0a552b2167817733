//! An operation as C has it: a record of fixed layout in place of the enum.
ghost use Rattle.std.specs.Prelude.{◌≡◌, ◌<◌, ◌≤◌, ◌==◌, IfOk, IfErr, OnOk, OnErr, Some};
ghost use Rattle.c_common.specs.declared.faults.TheConstants.{CDB_UNFIT, CDB_UNKNOWN_OPCODE};
ghost use Rattle.c_common.specs.declared.trb.fault.RecordFault.{RecordFault};
ghost use Rattle.c_common.specs.trb.RecordFault.{record_fault};
ghost use Rattle.c_common.specs.OperationRecord.{named_operation, operation_fault, operation_fields, operation_record, way_number};

use crate::trb::RecordFault;
use scsi_cmd::{Direction, Op, moves};

/// An operation as C has it.
#[repr(C)]
#[derive(Clone, Copy)]
pub struct UasOperation {
    /// READ, WRITE and SYNCHRONIZE CACHE: the first block.
    pub lba: u64,
    /// What the command moves; isn't looked at.
    pub bytes: u64,
    /// The same as of `lba`: blocks. INQUIRY and READ CAPACITY(16): the allocation length.
    pub count: u32,
    /// Byte 0 of the CDB.
    pub opcode: u8,
    /// READ and WRITE: 0 or 1.
    pub fua: u8,
    /// 0 no data, 1 to the host, 2 to the device; isn't looked at.
    pub direction: u8,
    pub reserved: u8,
}

const TEST_UNIT_READY: u8 = 0x00;

const INQUIRY: u8 = 0x12;

const READ_CAPACITY_10: u8 = 0x25;

const READ_10: u8 = 0x28;

const WRITE_10: u8 = 0x2a;

const SYNCHRONIZE_CACHE_10: u8 = 0x35;

const READ_16: u8 = 0x88;

const WRITE_16: u8 = 0x8a;

const READ_CAPACITY_16: u8 = 0x9e;

fn way_number(direction: &Direction) -> u8
    ensures { result ≡ way_number direction.now }
{
    match direction {
        Direction::Nothing => 0,
        Direction::ToHost => 1,
        Direction::ToDevice => 2,
    }
}

/// An operation's code and fields.
fn fields_of(op: &Op) -> UasOperation
    ensures { result ≡ operation_fields op.now }
{
    let (opcode, lba, count, fua) = match *op {
        Op::TestUnitReady => (TEST_UNIT_READY, 0, 0, false),
        Op::Inquiry { allocation } => (INQUIRY, 0, u32::from(allocation), false),
        Op::ReadCapacity => (READ_CAPACITY_10, 0, 0, false),
        Op::Read { lba, count, fua } => (READ_10, u64::from(lba), u32::from(count), fua),
        Op::Write { lba, count, fua } => (WRITE_10, u64::from(lba), u32::from(count), fua),
        Op::Sync { lba, count } => (
            SYNCHRONIZE_CACHE_10,
            u64::from(lba),
            u32::from(count),
            false,
        ),
        Op::Read16 { lba, count, fua } => (READ_16, lba, count, fua),
        Op::Write16 { lba, count, fua } => (WRITE_16, lba, count, fua),
        Op::ReadCapacity16 { allocation } => (READ_CAPACITY_16, 0, allocation, false),
    };
    UasOperation {
        lba,
        bytes: 0,
        count,
        opcode,
        fua: u8::from(fua),
        direction: 0,
        reserved: 0,
    }
}

/// The record of an operation.
pub fn record_of(op: Op) -> UasOperation
    ensures { result ≡ operation_record op }
{
    let (direction, bytes) = moves(&op);
    UasOperation {
        bytes: bytes as u64,
        direction: way_number(&direction),
        ..fields_of(&op)
    }
}

/// The operation that a record names.
pub fn read_operation(fields: &UasOperation) -> Result<Op, RecordFault>
    ensures op { IfOk result (λ op. named_operation fields.now ≡ Some op) }
    ensures fits { OnOk result (operation_fault fields.now ≡ 0) }
    ensures fault { IfErr result (λ fault. record_fault CDB_UNKNOWN_OPCODE CDB_UNFIT fault ≡ operation_fault fields.now) }
{
    match fields.opcode {
        TEST_UNIT_READY => Ok(Op::TestUnitReady),
        INQUIRY => Ok(Op::Inquiry {
            allocation: count_of(fields.count)?,
        }),
        READ_CAPACITY_10 => Ok(Op::ReadCapacity),
        READ_10 => Ok(Op::Read {
            lba: block_of(fields.lba)?,
            count: count_of(fields.count)?,
            fua: fua_of(fields.fua)?,
        }),
        WRITE_10 => Ok(Op::Write {
            lba: block_of(fields.lba)?,
            count: count_of(fields.count)?,
            fua: fua_of(fields.fua)?,
        }),
        SYNCHRONIZE_CACHE_10 => Ok(Op::Sync {
            lba: block_of(fields.lba)?,
            count: count_of(fields.count)?,
        }),
        READ_16 => Ok(Op::Read16 {
            lba: fields.lba,
            count: fields.count,
            fua: fua_of(fields.fua)?,
        }),
        WRITE_16 => Ok(Op::Write16 {
            lba: fields.lba,
            count: fields.count,
            fua: fua_of(fields.fua)?,
        }),
        READ_CAPACITY_16 => Ok(Op::ReadCapacity16 {
            allocation: fields.count,
        }),
        _ => Err(RecordFault::Unknown),
    }
}

/// A block's number has four bytes in the commands of 10.
fn block_of(lba: u64) -> Result<u32, RecordFault>
    ensures same { IfOk result (λ same. same ≡ lba) }
    ensures fits { OnOk result (lba ≤ 4294967295) }
    ensures over { OnErr result (4294967295 < lba) }
    ensures fault { IfErr result (λ fault. fault ≡ RecordFault.Unfit) }
{
    if lba > 0xffff_ffff {
        return Err(RecordFault::Unfit);
    }
    Ok(lba as u32)
}

/// A count has two bytes in the commands of 10 and in INQUIRY.
fn count_of(count: u32) -> Result<u16, RecordFault>
    ensures same { IfOk result (λ same. same ≡ count) }
    ensures fits { OnOk result (count ≤ 65535) }
    ensures over { OnErr result (65535 < count) }
    ensures fault { IfErr result (λ fault. fault ≡ RecordFault.Unfit) }
{
    if count > 65_535 {
        return Err(RecordFault::Unfit);
    }
    Ok(count as u16)
}

/// FUA is 0 or 1.
fn fua_of(byte: u8) -> Result<bool, RecordFault>
    ensures same { IfOk result (λ fua. fua ≡ (byte == 1)) }
    ensures fits { OnOk result (byte < 2) }
    ensures over { OnErr result (2 ≤ byte) }
    ensures fault { IfErr result (λ fault. fault ≡ RecordFault.Unfit) }
{
    match byte {
        0 => Ok(false),
        1 => Ok(true),
        _ => Err(RecordFault::Unfit),
    }
}
