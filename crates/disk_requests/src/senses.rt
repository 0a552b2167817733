//! Sense data, and whether a disk is ready (SPC-4, 4.5).
ghost use Rattle.std.specs.Prelude.{◌≡◌, slice_index};
ghost use Rattle.disk_requests.specs.Senses.{readiness_in, readiness_of, response_code, sense_in};

use scsi_cmd::Sense;

/// The statuses GOOD, CHECK CONDITION, BUSY and TASK SET FULL.
const GOOD: u8 = 0x00;

const CHECK_CONDITION: u8 = 0x02;

const BUSY: u8 = 0x08;

const TASK_SET_FULL: u8 = 0x28;

/// What a TEST UNIT READY's answer says.
#[derive(Clone, Copy, Debug, PartialEq, Eq)]
pub enum Readiness {
    Ready,
    /// Something happened to the disk (UNIT ATTENTION), and it is to be asked again.
    Again,
    /// It is to be started.
    Start,
    /// It becomes ready by itself.
    Wait,
    /// There is no medium.
    NoMedium,
    /// It has no room for a command now.
    Busy,
    /// Anything else.
    Failed,
}

/// The key and codes of sense data of either format; None where they are of none.
pub fn read_sense(bytes: &[u8]) -> Option<Sense>
    ensures { result ≡ sense_in bytes.now }
{
    match byte_at(bytes, 0) % 128 {
        0x70 | 0x71 if bytes.len() >= 3 => Some(Sense {
            key: bytes[2] % 16,
            asc: byte_at(bytes, 12),
            ascq: byte_at(bytes, 13),
        }),
        0x72 | 0x73 if bytes.len() >= 2 => Some(Sense {
            key: bytes[1] % 16,
            asc: byte_at(bytes, 2),
            ascq: byte_at(bytes, 3),
        }),
        _ => None,
    }
}

/// The byte at a place, or 0 behind the end.
fn byte_at(bytes: &[u8], at: usize) -> u8
    ensures { result ≡ slice_index bytes.now at }
{
    bytes.get(at).copied().unwrap_or(0)
}

/// What the status and the sense of a TEST UNIT READY say of the disk.
pub fn readiness_of(status: u8, sense: &[u8]) -> Readiness
    ensures { result ≡ readiness_in status sense.now }
{
    match status {
        GOOD => Readiness::Ready,
        CHECK_CONDITION => told_by(read_sense(sense)),
        BUSY | TASK_SET_FULL => Readiness::Busy,
        _ => Readiness::Failed,
    }
}

fn told_by(sense: Option<Sense>) -> Readiness
    ensures { result ≡ readiness_of sense }
{
    let Some(sense) = sense else {
        return Readiness::Failed;
    };
    match (sense.key, sense.asc, sense.ascq) {
        (0x6, _, _) => Readiness::Again,
        (0x2, 0x04, 0x02) => Readiness::Start,
        (0x2, 0x04, _) => Readiness::Wait,
        (0x2, 0x3a, _) => Readiness::NoMedium,
        _ => Readiness::Failed,
    }
}
