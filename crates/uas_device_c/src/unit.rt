//! Information units for C (INCITS 471): a record in place of the enum.
ghost use Rattle.std.specs.Prelude.{◌≡◌, ◌≤◌, ◌<◌, ◌++◌, ℕ, drop, false, length, IfNone, IfSome, IfOk, IfErr, OnOk, Some};
ghost use Rattle.arrayvec.specs.ArrayVec.{array_vec_len};
ghost use Rattle.uas_iu.specs.Faults.{first_fault};
ghost use Rattle.uas_iu.specs.Units.{Fits, IsTextOf, unit_size, unit_text};
ghost use Rattle.uas_iu.specs.declared.Iu.{Iu};
ghost use Rattle.c_common.specs.declared.faults.TheConstants.{UNIT_UNFIT, UNIT_UNKNOWN_ID};
ghost use Rattle.c_common.specs.trb.RecordFault.{record_fault};
ghost use Rattle.uas_device_c.specs.UnitRecord.{has_too_much_sense, named_unit, record_size, unit_read_fault, unit_record, unit_write_fault};

use arrayvec::ArrayVec;
use c_common::faults::{
    UNIT_LENGTH_FIELD, UNIT_LONG, UNIT_NO_ROOM, UNIT_RESERVED_SET, UNIT_SHORT, UNIT_UNFIT,
    UNIT_UNKNOWN_ID,
};
use c_common::trb::RecordFault;
use c_common::{padded, put_unit};
use uas_iu::{
    CDB_BYTES, COMMAND_ID, Iu, IuFault, LUN_BYTES, MAX_SENSE_BYTES, RESPONSE_ID, SENSE_ID, TASK_ID,
};

/// An information unit as C has it. A part that the unit hasn't is 0 where it is written, and isn't looked at where it is
/// read.
#[repr(C)]
#[derive(Clone, Copy)]
pub struct UasUnit {
    /// Byte 0 of the unit.
    pub id: u8,
    /// Sense: the SCSI status.
    pub status: u8,
    /// Response: the response code.
    pub code: u8,
    /// Task Management: the function.
    pub function: u8,
    pub tag: u16,
    /// Task Management: the tag of the task.
    pub task_tag: u16,
    /// Command and Task Management.
    pub lun: [u8; LUN_BYTES],
    /// Command.
    pub cdb: [u8; CDB_BYTES],
    /// Sense: the bytes of sense data, at most 96.
    pub sense_length: u8,
    /// Sense: the sense data.
    pub sense: [u8; MAX_SENSE_BYTES],
    pub reserved: [u8; 3],
}

fn fault_number(fault: &IuFault) -> u8
    ensures { result ≡ unit_read_fault (Some fault.now) }
{
    match fault {
        IuFault::UnknownId => UNIT_UNKNOWN_ID,
        IuFault::Short => UNIT_SHORT,
        IuFault::Long => UNIT_LONG,
        IuFault::ReservedSet => UNIT_RESERVED_SET,
        IuFault::LengthField => UNIT_LENGTH_FIELD,
    }
}

/// The record of a unit.
fn record_of(unit: &Iu) -> UasUnit
    ensures { result ≡ unit_record unit.now }
{
    let empty = UasUnit {
        id: 0,
        status: 0,
        code: 0,
        function: 0,
        tag: 0,
        task_tag: 0,
        lun: [0; LUN_BYTES],
        cdb: [0; CDB_BYTES],
        sense_length: 0,
        sense: [0; MAX_SENSE_BYTES],
        reserved: [0; 3],
    };
    match unit {
        Iu::Command { tag, lun, cdb } => UasUnit {
            id: COMMAND_ID,
            tag: *tag,
            lun: *lun,
            cdb: *cdb,
            ..empty
        },
        Iu::Sense { tag, status, sense } => UasUnit {
            id: SENSE_ID,
            tag: *tag,
            status: *status,
            sense_length: sense.len() as u8,
            sense: padded(sense),
            ..empty
        },
        Iu::Response { tag, code } => UasUnit {
            id: RESPONSE_ID,
            tag: *tag,
            code: *code,
            ..empty
        },
        Iu::Task {
            tag,
            function,
            task_tag,
            lun,
        } => UasUnit {
            id: TASK_ID,
            tag: *tag,
            function: *function,
            task_tag: *task_tag,
            lun: *lun,
            ..empty
        },
    }
}

/// Reads a unit. A fault of `IuFault`, the first that holds: then `unit` is as it was.
#[unsafe(no_mangle)]
pub extern "C" fn uas_unit_read(bytes: &[u8], unit: &mut UasUnit) -> u8
    ensures fault { result ≡ unit_read_fault (first_fault bytes.now) }
    ensures unit { (read : Iu) → IsTextOf bytes.now read → (result ≡ 0) × (unit.new ≡ unit_record read) }
    ensures text { result ≡ 0 → IfSome (named_unit unit.new) (λ read. IsTextOf bytes.now read) }
    ensures refused { 0 < result → unit.new ≡ unit.old }
{
    match uas_iu::read(bytes) {
        Ok(read) => {
            *unit = record_of(&read);
            0
        }
        Err(fault) => fault_number(&fault),
    }
}

/// The unit that a record names. The error is the fault.
fn read_record(fields: &UasUnit) -> Result<Iu, RecordFault>
    ensures unit { IfOk result (λ unit. named_unit fields.now ≡ Some unit) }
    ensures fits { OnOk result (has_too_much_sense fields.now ≡ false) }
    ensures size { IfOk result (λ unit. unit_size unit ≡ record_size fields.now) }
    ensures unknown { IfErr result (λ fault. (room : ℕ) → record_fault UNIT_UNKNOWN_ID UNIT_UNFIT fault ≡ unit_write_fault fields.now room) }
{
    let tag = fields.tag;
    match fields.id {
        COMMAND_ID => Ok(Iu::Command {
            tag,
            lun: fields.lun,
            cdb: fields.cdb,
        }),
        SENSE_ID => {
            let length = usize::from(fields.sense_length);
            if length > MAX_SENSE_BYTES {
                return Err(RecordFault::Unfit);
            }
            Ok(Iu::Sense {
                tag,
                status: fields.status,
                sense: listed(&fields.sense[..length]),
            })
        }
        RESPONSE_ID => Ok(Iu::Response {
            tag,
            code: fields.code,
        }),
        TASK_ID => Ok(Iu::Task {
            tag,
            function: fields.function,
            task_tag: fields.task_tag,
            lun: fields.lun,
        }),
        _ => Err(RecordFault::Unknown),
    }
}

/// The bytes of sense data, at most 96.
fn listed(bytes: &[u8]) -> ArrayVec<u8, MAX_SENSE_BYTES>
    requires { length bytes.now ≤ 96 }
    ensures { result.items ≡ bytes.now }
{
    let mut sense = ArrayVec::new();
    let _ = sense.try_extend_from_slice(bytes);
    sense
}

/// Writes a unit to the front of `bytes` and tells how many it has. `UNIT_UNKNOWN_ID` another identifier, `UNIT_UNFIT` more than 96 bytes of
/// sense, `UNIT_NO_ROOM` too little room: then `bytes` and `written` are as they were.
#[unsafe(no_mangle)]
pub extern "C" fn uas_unit_write(unit: &UasUnit, bytes: &mut [u8], written: &mut usize) -> u8
    ensures fault { result ≡ unit_write_fault unit.now (length bytes.old) }
    ensures length { result ≡ 0 → written.new ≡ record_size unit.now }
    ensures text { result ≡ 0 → IfSome (named_unit unit.now) (λ named. bytes.new ≡ unit_text named ++ drop (record_size unit.now) bytes.old) }
    ensures refused { 0 < result → (bytes.new ≡ bytes.old) × (written.new ≡ written.old) }
{
    let named = match read_record(unit) {
        Ok(named) => named,
        Err(fault) => return fault.number(UNIT_UNKNOWN_ID, UNIT_UNFIT),
    };
    match put_unit(&named, bytes) {
        Some(size) => {
            *written = size;
            0
        }
        None => UNIT_NO_ROOM,
    }
}
