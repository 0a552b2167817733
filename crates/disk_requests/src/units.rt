//! The information units of both sides (INCITS 471).
ghost use Rattle.std.specs.Prelude.{◌≡◌, ◌≤◌, IfSome, length};
ghost use Rattle.arrayvec.specs.ArrayVec.{array_vec_len};
ghost use Rattle.disk_requests.specs.Statuses.{kind_in, sense_in, status_in};
ghost use Rattle.disk_requests.specs.Units.{command_text, task_text};

use crate::fields::two_at;
use crate::{StatusKind, StatusUnit};
use arrayvec::ArrayVec;
use uas_iu::{
    Iu, MAX_SENSE_BYTES, RESPONSE_BYTES, RESPONSE_ID, SENSE_HEADER_BYTES, SENSE_ID, lun_bytes,
    write,
};

/// Byte 0 of a Read Ready unit, and of a Write Ready unit.
const READ_READY_ID: u8 = 0x06;

const WRITE_READY_ID: u8 = 0x07;

/// Bytes of these units, and the least of any.
const READY_BYTES: usize = 4;

/// The Command unit of a CDB on a tag, to the logical unit of a number.
#[tactic(auto, unfolding(uas_iu::specs::Units::unit_text))]
pub fn command_unit(tag: u16, lun: u8, cdb: &[u8; 16]) -> [u8; 32]
    ensures { result ≡ command_text tag lun cdb.now }
{
    let mut unit = ArrayVec::new();
    write(
        &Iu::Command {
            tag,
            lun: lun_bytes(lun),
            cdb: *cdb,
        },
        &mut unit,
    );
    let mut bytes = [0; 32];
    bytes.copy_from_slice(unit.as_slice());
    bytes
}

/// The Task Management unit of a function on a tag, of the task on the tag `managed` of the logical unit of a number. ABORT TASK is 01h.
#[tactic(auto, unfolding(uas_iu::specs::Units::unit_text))]
pub fn task_unit(tag: u16, function: u8, managed: u16, lun: u8) -> [u8; 16]
    ensures { result ≡ task_text tag function managed lun }
{
    let mut unit = ArrayVec::new();
    write(
        &Iu::Task {
            tag,
            function,
            task_tag: managed,
            lun: lun_bytes(lun),
        },
        &mut unit,
    );
    let mut bytes = [0; 16];
    bytes.copy_from_slice(unit.as_slice());
    bytes
}

/// What came on the status pipe; None for another unit than the four of the device, and for one with fewer bytes than its head has. Of the
/// sense it is as much as the unit's length tells, as came, and 96 bytes at most.
pub fn read_status(bytes: &[u8]) -> Option<StatusUnit>
    ensures { result ≡ status_in bytes.now }
{
    let kind = kind_in(bytes)?;
    Some(StatusUnit {
        tag: two_at(bytes, 2),
        kind,
    })
}

fn kind_in(bytes: &[u8]) -> Option<StatusKind>
    ensures value { result ≡ kind_in bytes.now }
    ensures long { IfSome result (λ _. 4 ≤ length bytes.now) }
{
    if bytes.len() < READY_BYTES {
        return None;
    }
    match bytes[0] {
        SENSE_ID if bytes.len() >= SENSE_HEADER_BYTES => Some(StatusKind::Sense {
            status: bytes[6],
            sense: sense_in(bytes),
        }),
        RESPONSE_ID if bytes.len() >= RESPONSE_BYTES => {
            Some(StatusKind::Response { code: bytes[7] })
        }
        READ_READY_ID => Some(StatusKind::ReadReady),
        WRITE_READY_ID => Some(StatusKind::WriteReady),
        _ => None,
    }
}

fn sense_in(bytes: &[u8]) -> ArrayVec<u8, MAX_SENSE_BYTES>
    requires { 16 ≤ length bytes.now }
    ensures { result ≡ sense_in bytes.now }
{
    let came = &bytes[SENSE_HEADER_BYTES..];
    let count = usize::from(two_at(bytes, 14))
        .min(MAX_SENSE_BYTES)
        .min(came.len());
    let mut sense = ArrayVec::new();
    sense.try_extend_from_slice(&came[..count]).unwrap();
    sense
}
