//! Commands, sense and data of SCSI for C (SPC and SBC).
ghost use Rattle.std.specs.Prelude.{◌≡◌, ℕ, ◌<◌, IfSome};
ghost use Rattle.scsi_cmd.specs.Op.{cdb_bytes};
ghost use Rattle.scsi_cmd.specs.Meaning.{asked, checked};
ghost use Rattle.scsi_cmd.specs.Sense.{sense_bytes};
ghost use Rattle.scsi_cmd.specs.Data.{inquiry_bytes, capacity_bytes, long_capacity_bytes};
ghost use Rattle.c_common.specs.OperationRecord.{named_operation, operation_fault};
ghost use Rattle.uas_device_c.specs.Scsi.{Parsed, capacity_fault, sense_in};

use c_common::faults::{CAPACITY_NO_BLOCKS, CDB_CHECK, CDB_UNFIT, CDB_UNKNOWN_OPCODE};
use c_common::{UasOperation, read_operation, record_of};
use scsi_cmd::{INQUIRY_BYTES, LONG_CAPACITY_BYTES, SENSE_BYTES, Sense};

/// Sense data as C has it.
#[repr(C)]
#[derive(Clone, Copy)]
pub struct UasSense {
    pub key: u8,
    pub asc: u8,
    pub ascq: u8,
    pub reserved: u8,
}

/// What a CDB asks of a unit of so many blocks. `CDB_CHECK` where it is to end with CHECK CONDITION: then `sense` is written, and else
/// `operation`.
#[unsafe(no_mangle)]
pub extern "C" fn uas_cdb_parse(
    cdb: &[u8; 16],
    blocks: u32,
    operation: &mut UasOperation,
    sense: &mut UasSense,
) -> u8
    ensures { Parsed (asked cdb.now blocks) result (operation.old, operation.new) (sense.old, sense.new) }
{
    match scsi_cmd::parse(cdb, blocks) {
        Ok(op) => {
            *operation = record_of(op);
            0
        }
        Err(fault) => {
            *sense = UasSense {
                key: fault.key,
                asc: fault.asc,
                ascq: fault.ascq,
                reserved: 0,
            };
            CDB_CHECK
        }
    }
}

/// The CDB that asks for an operation. `CDB_UNKNOWN_OPCODE` another code, `CDB_UNFIT` a block or a count that its field doesn't hold, or FUA
/// neither 0 nor 1: then `cdb` is as it was.
#[unsafe(no_mangle)]
pub extern "C" fn uas_cdb_write(operation: &UasOperation, cdb: &mut [u8; 16]) -> u8
    ensures fault { result ≡ operation_fault operation.now }
    ensures text { result ≡ 0 → IfSome (named_operation operation.now) (λ op. cdb.new ≡ cdb_bytes op) }
    ensures means { result ≡ 0 → IfSome (named_operation operation.now) (λ op. (blocks : ℕ) → asked cdb.new blocks ≡ checked op blocks) }
    ensures refused { 0 < result → cdb.new ≡ cdb.old }
{
    match read_operation(operation) {
        Ok(op) => {
            *cdb = scsi_cmd::cdb(&op);
            0
        }
        Err(fault) => fault.number(CDB_UNKNOWN_OPCODE, CDB_UNFIT),
    }
}

/// Sense data in the fixed format.
#[unsafe(no_mangle)]
pub extern "C" fn uas_sense_data(sense: &UasSense, bytes: &mut [u8; SENSE_BYTES])
    ensures { bytes.new ≡ sense_bytes (sense_in sense.now) }
{
    let sense = Sense {
        key: sense.key,
        asc: sense.asc,
        ascq: sense.ascq,
    };
    *bytes = sense.bytes();
}

/// Standard INQUIRY data of a unit, or of a number that no unit has.
#[unsafe(no_mangle)]
pub extern "C" fn uas_inquiry_data(present: bool, bytes: &mut [u8; INQUIRY_BYTES])
    ensures { bytes.new ≡ inquiry_bytes present }
{
    *bytes = scsi_cmd::inquiry_data(present);
}

/// READ CAPACITY(10) data of a unit of so many blocks. `CAPACITY_NO_BLOCKS` for none: then `bytes` are as they were.
#[unsafe(no_mangle)]
pub extern "C" fn uas_capacity_data(blocks: u32, bytes: &mut [u8; 8]) -> u8
    ensures fault { result ≡ capacity_fault blocks }
    ensures data { result ≡ 0 → bytes.new ≡ capacity_bytes blocks }
    ensures refused { 0 < result → bytes.new ≡ bytes.old }
{
    if blocks == 0 {
        return CAPACITY_NO_BLOCKS;
    }
    *bytes = scsi_cmd::capacity_data(blocks);
    0
}

/// READ CAPACITY(16) data of a unit of so many blocks. `CAPACITY_NO_BLOCKS` for none: then `bytes` are as they were.
#[unsafe(no_mangle)]
pub extern "C" fn uas_long_capacity_data(blocks: u32, bytes: &mut [u8; LONG_CAPACITY_BYTES]) -> u8
    ensures fault { result ≡ capacity_fault blocks }
    ensures data { result ≡ 0 → bytes.new ≡ long_capacity_bytes blocks }
    ensures refused { 0 < result → bytes.new ≡ bytes.old }
{
    if blocks == 0 {
        return CAPACITY_NO_BLOCKS;
    }
    *bytes = scsi_cmd::long_capacity_data(blocks);
    0
}
