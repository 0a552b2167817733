//! From bytes to the unit whose text they are, or to their first fault.
ghost use Rattle.std.specs.Prelude.{◌≡◌, ◌+◌, ◌*◌, ◌≤◌, ◌++◌, not, ◌==◌, false, length, drop, slice_index, IfNone, Ok, IfOk};
ghost use Rattle.std.specs.List.{list_any};
ghost use Rattle.std.specs.Result.{result_err};
ghost use Rattle.uas_iu.specs.Faults.{first_fault, identifier, reserved_places};
ghost use Rattle.uas_iu.specs.Heads.{answer_head};
ghost use Rattle.uas_iu.specs.Units.{Fits, IsTextOf, unit_text};
ghost use Rattle.uas_iu.specs.declared.Iu.{Iu};

use crate::{
    AnswerHead, COMMAND_ID, Iu, IuFault, RESPONSE_BYTES, RESPONSE_ID, SENSE_HEADER_BYTES, SENSE_ID,
    TASK_BYTES, TASK_ID,
};
use arrayvec::ArrayVec;
use byteorder::{BigEndian, ByteOrder};
use uas_profile::{COMMAND_BYTES, STATUS_BYTES};

// The places of the fields.
const TAG_PLACE: usize = 2;

const ADDITIONAL_CDB_PLACE: usize = 6;

const STATUS_PLACE: usize = 6;

const SENSE_LENGTH_PLACE: usize = 14;

const CODE_PLACE: usize = 7;

const FUNCTION_PLACE: usize = 4;

const TASK_TAG_PLACE: usize = 6;

const LUN_PLACE: usize = 8;

const CDB_PLACE: usize = 16;

// The places that hold 0. The additional CDB length of a Command isn't one: it is a length field.
const COMMAND_ZEROS: [usize; 4] = [1, 4, 5, 7];

const SENSE_ZEROS: [usize; 10] = [1, 4, 5, 7, 8, 9, 10, 11, 12, 13];

const RESPONSE_ZEROS: [usize; 4] = [1, 4, 5, 6];

const TASK_ZEROS: [usize; 2] = [1, 5];

/// The unit whose text `bytes` is, and else the first fault in the order of [`IuFault`] (INCITS 471,
/// information units). No bytes at all are `Short`, as they have no identifier.
#[tactic(auto, using(crate::proofs::Laws::every_text_found), unfolding(crate::specs::Faults::first_fault))]
#[inline(always)]
pub fn read(bytes: &[u8]) -> Result<Iu, IuFault>
    ensures fault { result_err result ≡ first_fault bytes.now }
    ensures found { IfOk result (λ unit. IsTextOf bytes.now unit) }
    // What `write` wrote is among these texts.
    ensures only { (unit : Iu) → Fits unit → bytes.now ≡ unit_text unit → result ≡ Ok unit }
{
    let [id, ..] = bytes else {
        return Err(IuFault::Short);
    };
    match *id {
        COMMAND_ID => read_command(bytes),
        id => read_other(id, bytes),
    }
}

/// The unit of bytes that aren't a Command unit's: those are read in place, and others by a call.
#[tactic(auto, unfolding(crate::specs::Faults::first_fault))]
#[inline(never)]
fn read_other(id: u8, bytes: &[u8]) -> Result<Iu, IuFault>
    requires some { 1 ≤ length bytes.now }
    requires id { identifier bytes.now ≡ id }
    requires other { id == 1 ≡ false }
    ensures fault { result_err result ≡ first_fault bytes.now }
    ensures found { IfOk result (λ unit. IsTextOf bytes.now unit) }
{
    match id {
        SENSE_ID => read_sense(bytes),
        RESPONSE_ID => read_response(bytes),
        TASK_ID => read_task(bytes),
        _ => Err(IuFault::UnknownId),
    }
}

#[tactic(auto, unfolding(crate::specs::Faults::first_fault, crate::specs::Units::unit_text))]
#[inline(always)]
fn read_command(bytes: &[u8]) -> Result<Iu, IuFault>
    requires { identifier bytes.now ≡ 1 }
    ensures fault { result_err result ≡ first_fault bytes.now }
    ensures found { IfOk result (λ unit. IsTextOf bytes.now unit) }
{
    if bytes.len() < COMMAND_BYTES {
        return Err(IuFault::Short);
    }
    if bytes.len() > COMMAND_BYTES {
        return Err(IuFault::Long);
    }
    if is_any_set(bytes, &COMMAND_ZEROS) {
        return Err(IuFault::ReservedSet);
    }
    if bytes[ADDITIONAL_CDB_PLACE] != 0 {
        return Err(IuFault::LengthField);
    }
    Ok(Iu::Command {
        tag: number_at(bytes, TAG_PLACE),
        lun: array_at(bytes, LUN_PLACE),
        cdb: array_at(bytes, CDB_PLACE),
    })
}

/// The first fault of bytes with the identifier of a Sense unit.
#[tactic(auto, unfolding(crate::specs::Faults::first_fault))]
#[inline(always)]
fn sense_fault(bytes: &[u8]) -> Option<IuFault>
    requires { identifier bytes.now ≡ 3 }
    ensures fault { result ≡ first_fault bytes.now }
    ensures size { IfNone result ((16 ≤ length bytes.now) × (length bytes.now ≤ STATUS_BYTES)
        × (16 + (slice_index bytes.now 14 * 256 + slice_index bytes.now 15) ≡ length bytes.now)) }
    ensures zeros { IfNone result (list_any (λ place. not (slice_index bytes.now place == 0)) (reserved_places 3) ≡ false) }
{
    if bytes.len() < SENSE_HEADER_BYTES {
        return Some(IuFault::Short);
    }
    if bytes.len() > STATUS_BYTES {
        return Some(IuFault::Long);
    }
    if is_any_set(bytes, &SENSE_ZEROS) {
        return Some(IuFault::ReservedSet);
    }
    if SENSE_HEADER_BYTES + usize::from(number_at(bytes, SENSE_LENGTH_PLACE)) != bytes.len() {
        return Some(IuFault::LengthField);
    }
    None
}

#[tactic(auto, unfolding(crate::specs::Faults::first_fault, crate::specs::Units::unit_text))]
fn read_sense(bytes: &[u8]) -> Result<Iu, IuFault>
    requires { identifier bytes.now ≡ 3 }
    ensures fault { result_err result ≡ first_fault bytes.now }
    ensures found { IfOk result (λ unit. IsTextOf bytes.now unit) }
{
    if let Some(fault) = sense_fault(bytes) {
        return Err(fault);
    }
    let mut sense = ArrayVec::new();
    for byte in &bytes[SENSE_HEADER_BYTES..] {
        sense.push(*byte);
    }
    Ok(Iu::Sense {
        tag: number_at(bytes, TAG_PLACE),
        status: bytes[STATUS_PLACE],
        sense,
    })
}

/// The first fault of bytes with the identifier of a Response unit.
#[tactic(auto, unfolding(crate::specs::Faults::first_fault))]
fn response_fault(bytes: &[u8]) -> Option<IuFault>
    requires { identifier bytes.now ≡ 4 }
    ensures fault { result ≡ first_fault bytes.now }
    ensures size { IfNone result (length bytes.now ≡ 8) }
    ensures zeros { IfNone result (list_any (λ place. not (slice_index bytes.now place == 0)) (reserved_places 4) ≡ false) }
{
    if bytes.len() < RESPONSE_BYTES {
        return Some(IuFault::Short);
    }
    if bytes.len() > RESPONSE_BYTES {
        return Some(IuFault::Long);
    }
    if is_any_set(bytes, &RESPONSE_ZEROS) {
        return Some(IuFault::ReservedSet);
    }
    None
}

#[tactic(auto, unfolding(crate::specs::Faults::first_fault, crate::specs::Units::unit_text))]
fn read_response(bytes: &[u8]) -> Result<Iu, IuFault>
    requires { identifier bytes.now ≡ 4 }
    ensures fault { result_err result ≡ first_fault bytes.now }
    ensures found { IfOk result (λ unit. IsTextOf bytes.now unit) }
{
    if let Some(fault) = response_fault(bytes) {
        return Err(fault);
    }
    Ok(Iu::Response {
        tag: number_at(bytes, TAG_PLACE),
        code: bytes[CODE_PLACE],
    })
}

#[tactic(auto, unfolding(crate::specs::Faults::first_fault, crate::specs::Units::unit_text))]
fn read_task(bytes: &[u8]) -> Result<Iu, IuFault>
    requires { identifier bytes.now ≡ 5 }
    ensures fault { result_err result ≡ first_fault bytes.now }
    ensures found { IfOk result (λ unit. IsTextOf bytes.now unit) }
{
    if bytes.len() < TASK_BYTES {
        return Err(IuFault::Short);
    }
    if bytes.len() > TASK_BYTES {
        return Err(IuFault::Long);
    }
    if is_any_set(bytes, &TASK_ZEROS) {
        return Err(IuFault::ReservedSet);
    }
    Ok(Iu::Task {
        tag: number_at(bytes, TAG_PLACE),
        function: bytes[FUNCTION_PLACE],
        task_tag: number_at(bytes, TASK_TAG_PLACE),
        lun: array_at(bytes, LUN_PLACE),
    })
}

/// The tag of a Sense or a Response unit with its status or its code, where the bytes are one. The sense of a Sense unit
/// is all that comes after its first 16 bytes, and is left there.
#[tactic(auto, unfolding(crate::specs::Faults::first_fault))]
#[inline(always)]
pub fn answer_head(bytes: &[u8]) -> Option<AnswerHead>
    ensures { result ≡ answer_head bytes.now }
{
    match bytes {
        [SENSE_ID, ..] if sense_fault(bytes).is_none() => Some(AnswerHead::Sense {
            tag: number_at(bytes, TAG_PLACE),
            status: bytes[STATUS_PLACE],
        }),
        [RESPONSE_ID, ..] if response_fault(bytes).is_none() => Some(AnswerHead::Response {
            tag: number_at(bytes, TAG_PLACE),
            code: bytes[CODE_PLACE],
        }),
        _ => None,
    }
}

/// Whether a byte at one of `places` is not 0.
#[inline(always)]
fn is_any_set(bytes: &[u8], places: &[usize]) -> bool
    ensures { result ≡ list_any (λ place. not (slice_index bytes.now place == 0)) places.now }
{
    places
        .iter()
        .any(|place| bytes.get(*place).is_some_and(|byte| *byte != 0))
}

/// The big endian number of two bytes at `place`.
fn number_at(bytes: &[u8], place: usize) -> u16
    requires { place + 2 ≤ length bytes.now }
    ensures { result ≡ slice_index bytes.now place * 256 + slice_index bytes.now (place + 1) }
{
    BigEndian::read_u16(&bytes[place..])
}

/// The `N` bytes from `place` on.
fn array_at<const N: usize>(bytes: &[u8], place: usize) -> [u8; N]
    requires { place + N ≤ length bytes.now }
    ensures { drop place bytes.now ≡ result ++ drop (place + N) bytes.now }
{
    let mut array = [0; N];
    array.copy_from_slice(&bytes[place..place + N]);
    array
}
