//! From a unit to its bytes.
ghost use Rattle.std.specs.Prelude.{◌≡◌, ◌+◌, ◌≤◌, ◌++◌, length};
ghost use Rattle.std.specs.Int.{to_be_bytes, w16};
ghost use Rattle.arrayvec.specs.ArrayVec.{array_vec_len};
ghost use Rattle.uas_iu.specs.Units.{Fits, unit_text};
ghost use Rattle.uas_iu.specs.declared.Iu.TheVariants.{Sense};

use crate::{COMMAND_ID, Iu, MAX_SENSE_BYTES, RESPONSE_ID, SENSE_ID, TASK_ID};
use arrayvec::ArrayVec;
use byteorder::{BigEndian, ByteOrder};
use uas_profile::STATUS_BYTES;

/// Writes the bytes of `unit` into `out`, which is asked to be empty and has room for every unit
/// (INCITS 471, information units).
#[tactic(auto, unfolding(crate::specs::Units::unit_text))]
#[inline(always)]
pub fn write(unit: &Iu, out: &mut ArrayVec<u8, STATUS_BYTES>)
    requires { array_vec_len out.old ≡ 0 }
    ensures text { out.new.items ≡ unit_text unit.now }
    ensures fits { Fits unit.now }
{
    match unit {
        Iu::Command { tag, lun, cdb } => {
            put(out, &[COMMAND_ID, 0]);
            put_number(out, *tag);
            put(out, &[0; 4]);
            put(out, lun);
            put(out, cdb);
        }
        Iu::Sense { tag, status, sense } => write_sense(*tag, *status, sense, out),
        Iu::Response { tag, code } => {
            put(out, &[RESPONSE_ID, 0]);
            put_number(out, *tag);
            put(out, &[0, 0, 0, *code]);
        }
        Iu::Task {
            tag,
            function,
            task_tag,
            lun,
        } => {
            put(out, &[TASK_ID, 0]);
            put_number(out, *tag);
            put(out, &[*function, 0]);
            put_number(out, *task_tag);
            put(out, lun);
        }
    }
}

/// Writes the bytes of the Sense unit of this tag, status and sense into `out`, which is asked to be empty, as [`write`]
/// does.
#[tactic(auto, unfolding(crate::specs::Units::unit_text))]
#[inline(always)]
pub fn write_sense(tag: u16, status: u8, sense: &[u8], out: &mut ArrayVec<u8, STATUS_BYTES>)
    requires empty { array_vec_len out.old ≡ 0 }
    requires room { length sense.now ≤ MAX_SENSE_BYTES }
    ensures text { out.new.items ≡ unit_text (Sense tag status (record { items = sense.now })) }
    ensures fits { Fits (Sense tag status (record { items = sense.now })) }
{
    put(out, &[SENSE_ID, 0]);
    put_number(out, tag);
    put(out, &[0, 0, status]);
    put(out, &[0; 7]);
    put_number(out, sense.len() as u16);
    put(out, sense);
}

/// Appends the two bytes of `number`, the high byte first. There is room for them.
#[inline(always)]
fn put_number(out: &mut ArrayVec<u8, STATUS_BYTES>, number: u16)
    requires { array_vec_len out.old + 2 ≤ STATUS_BYTES }
    ensures { out.new.items ≡ out.old.items ++ to_be_bytes w16 number }
{
    let mut bytes = [0; 2];
    BigEndian::write_u16(&mut bytes, number);
    put(out, &bytes);
}

/// Appends `bytes`, for which there is room.
#[inline(always)]
fn put(out: &mut ArrayVec<u8, STATUS_BYTES>, bytes: &[u8])
    requires { array_vec_len out.old + length bytes.now ≤ STATUS_BYTES }
    ensures { out.new.items ≡ out.old.items ++ bytes.now }
{
    for byte in bytes {
        out.push(*byte);
    }
}
