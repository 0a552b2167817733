//! The text of an information unit, and of the CDB or the sense in it.

ghost use Rattle.std.specs.Prelude.{◌≡◌, ◌++◌, OnOk};
ghost use Rattle.uas_decode.specs.Printed.{allocation_words, cdb_words, fua_word, lun_words, op_fields, op_name, op_words, range_words};
ghost use Rattle.uas_decode.specs.Printed.{response_words, sense_words, sensed_words, status_words, tag_words, task_words, unit_fields, unit_name, unit_words};

use super::names::{function_name, response_name, sense_name, status_name};
use super::numbers::push_number;
use crate::kinds::sense_read;
use scsi_cmd::{CHECK_CONDITION, Op, Sense, parse};
use std::alloc::AllocError;
use uas_iu::{Iu, lun_number};

/// Adds the text of a unit.
#[tactic(auto, unfolding(crate::specs::Printed::unit_words))]
pub(crate) fn push_unit(text: &mut Vec<u8>, unit: &Iu) -> Result<(), AllocError>
    ensures { OnOk result (text.new.items ≡ text.old.items ++ unit_words unit.now) }
{
    push_unit_name(text, unit)?;
    push_unit_fields(text, unit)
}

/// Adds the name of a unit and its tag.
#[tactic(auto, unfolding(crate::specs::Printed::unit_name))]
fn push_unit_name(text: &mut Vec<u8>, unit: &Iu) -> Result<(), AllocError>
    ensures { OnOk result (text.new.items ≡ text.old.items ++ unit_name unit.now) }
{
    match unit {
        Iu::Command { tag, .. } => push_tag(text, "Command", *tag),
        Iu::Sense { tag, .. } => push_tag(text, "Sense", *tag),
        Iu::Response { tag, .. } => push_tag(text, "Response", *tag),
        Iu::Task { tag, .. } => push_tag(text, "Task Management", *tag),
    }
}

/// Adds the name of a kind of units, and a tag.
#[tactic(auto, unfolding(crate::specs::Printed::tag_words))]
fn push_tag(text: &mut Vec<u8>, name: &str, tag: u16) -> Result<(), AllocError>
    ensures { OnOk result (text.new.items ≡ text.old.items ++ tag_words name.now tag) }
{
    text.extend_from_slice(name.as_bytes())?;
    push_number(text, " unit: tag ", u64::from(tag))
}

/// Adds what a unit has beside its tag.
#[tactic(auto, unfolding(crate::specs::Printed::unit_fields))]
fn push_unit_fields(text: &mut Vec<u8>, unit: &Iu) -> Result<(), AllocError>
    ensures { OnOk result (text.new.items ≡ text.old.items ++ unit_fields unit.now) }
{
    match unit {
        Iu::Command { lun, cdb, .. } => {
            push_lun(text, lun)?;
            push_cdb(text, cdb)
        }
        Iu::Sense { status, sense, .. } => {
            push_status(text, *status)?;
            push_sensed(text, sense.as_slice())
        }
        Iu::Response { code, .. } => push_response(text, *code),
        Iu::Task {
            function,
            task_tag,
            lun,
            ..
        } => {
            push_lun(text, lun)?;
            push_task(text, *function, *task_tag)
        }
    }
}

/// Adds a response code and its name.
#[tactic(auto, unfolding(crate::specs::Printed::response_words))]
fn push_response(text: &mut Vec<u8>, code: u8) -> Result<(), AllocError>
    ensures { OnOk result (text.new.items ≡ text.old.items ++ response_words code) }
{
    let digits = hex::encode(*text.allocator(), [code])?;
    let words = format!(in *text.allocator(); " code {digits}")?;
    text.extend_from_slice(words.as_bytes())?;
    text.extend_from_slice(response_name(code).as_bytes())
}

/// Adds ` lun N`, or the eight bytes where they are of another form.
#[tactic(auto, unfolding(crate::specs::Printed::lun_words))]
fn push_lun(text: &mut Vec<u8>, lun: &[u8; 8]) -> Result<(), AllocError>
    ensures { OnOk result (text.new.items ≡ text.old.items ++ lun_words lun.now) }
{
    let words = match lun_number(lun) {
        Some(number) => format!(in *text.allocator(); " lun {number}")?,
        None => {
            let digits = hex::encode(*text.allocator(), *lun)?;
            format!(in *text.allocator(); " lun {digits}")?
        }
    };
    text.extend_from_slice(words.as_bytes())
}

/// Adds what the CDB of a unit asks for, behind a space, or the sense that answers it. How many blocks the logical unit has isn't known.
#[tactic(auto, unfolding(crate::specs::Printed::cdb_words))]
fn push_cdb(text: &mut Vec<u8>, cdb: &[u8; 16]) -> Result<(), AllocError>
    ensures { OnOk result (text.new.items ≡ text.old.items ++ cdb_words cdb.now) }
{
    match parse(cdb, u32::MAX) {
        Ok(op) => {
            text.extend_from_slice(b" ")?;
            push_op(text, &op)
        }
        Err(sense) => {
            push_status(text, CHECK_CONDITION)?;
            text.extend_from_slice(b" ")?;
            push_sense(text, &sense)
        }
    }
}

/// Adds a status by its name.
#[tactic(auto, unfolding(crate::specs::Printed::status_words))]
fn push_status(text: &mut Vec<u8>, status: u8) -> Result<(), AllocError>
    ensures { OnOk result (text.new.items ≡ text.old.items ++ status_words status) }
{
    let words = match status_name(status) {
        Some(name) => format!(in *text.allocator(); " {name}")?,
        None => {
            let digits = hex::encode(*text.allocator(), [status])?;
            format!(in *text.allocator(); " status {digits}")?
        }
    };
    text.extend_from_slice(words.as_bytes())
}

/// Adds the sense data of a unit, behind a space: its bytes where they are of another form than the fixed one.
#[tactic(auto, unfolding(crate::specs::Printed::sensed_words))]
fn push_sensed(text: &mut Vec<u8>, bytes: &[u8]) -> Result<(), AllocError>
    ensures { OnOk result (text.new.items ≡ text.old.items ++ sensed_words bytes.now) }
{
    if bytes.is_empty() {
        return Ok(());
    }
    match sense_read(bytes) {
        Some(sense) => {
            text.extend_from_slice(b" ")?;
            push_sense(text, &sense)
        }
        None => {
            let digits = hex::encode(*text.allocator(), bytes)?;
            let words = format!(in *text.allocator(); " sense {digits}")?;
            text.extend_from_slice(words.as_bytes())
        }
    }
}

/// Adds `KK/AA/QQ` and what it means.
#[tactic(auto, unfolding(crate::specs::Printed::sense_words))]
pub(crate) fn push_sense(text: &mut Vec<u8>, sense: &Sense) -> Result<(), AllocError>
    ensures { OnOk result (text.new.items ≡ text.old.items ++ sense_words sense.now) }
{
    let name = sense_name(sense);
    let key = hex::encode(*text.allocator(), [sense.key])?;
    let asc = hex::encode(*text.allocator(), [sense.asc])?;
    let ascq = hex::encode(*text.allocator(), [sense.ascq])?;
    let words = format!(in *text.allocator(); "{key}/{asc}/{ascq}")?;
    text.extend_from_slice(words.as_bytes())?;
    text.extend_from_slice(name.as_bytes())
}

/// Adds a task management function and the tag that it names.
#[tactic(auto, unfolding(crate::specs::Printed::task_words))]
fn push_task(text: &mut Vec<u8>, function: u8, task_tag: u16) -> Result<(), AllocError>
    ensures { OnOk result (text.new.items ≡ text.old.items ++ task_words function task_tag) }
{
    let words = match function_name(function) {
        Some(name) => format!(in *text.allocator(); " {name} task-tag {task_tag}")?,
        None => {
            let digits = hex::encode(*text.allocator(), [function])?;
            format!(in *text.allocator(); " function {digits} task-tag {task_tag}")?
        }
    };
    text.extend_from_slice(words.as_bytes())
}

/// Adds an operation in the words of its standard.
#[tactic(auto, unfolding(crate::specs::Printed::op_words))]
pub(crate) fn push_op(text: &mut Vec<u8>, op: &Op) -> Result<(), AllocError>
    ensures { OnOk result (text.new.items ≡ text.old.items ++ op_words op.now) }
{
    text.extend_from_slice(op_name(op).as_bytes())?;
    push_op_fields(text, op)
}

/// The name of an operation's command (SPC, SBC).
#[tactic(auto, unfolding(crate::specs::Printed::op_name))]
fn op_name(op: &Op) -> &'static str
    ensures { result.now ≡ op_name op.now }
{
    match op {
        Op::TestUnitReady => "TEST UNIT READY",
        Op::Inquiry { .. } => "INQUIRY",
        Op::ReadCapacity => "READ CAPACITY(10)",
        Op::Read { .. } => "READ(10)",
        Op::Write { .. } => "WRITE(10)",
        Op::Sync { .. } => "SYNCHRONIZE CACHE(10)",
        Op::Read16 { .. } => "READ(16)",
        Op::Write16 { .. } => "WRITE(16)",
        Op::ReadCapacity16 { .. } => "READ CAPACITY(16)",
    }
}

/// Adds the fields of an operation.
#[tactic(auto, unfolding(crate::specs::Printed::op_fields))]
fn push_op_fields(text: &mut Vec<u8>, op: &Op) -> Result<(), AllocError>
    ensures { OnOk result (text.new.items ≡ text.old.items ++ op_fields op.now) }
{
    match *op {
        Op::TestUnitReady | Op::ReadCapacity => Ok(()),
        Op::Inquiry { allocation } => push_allocation(text, u32::from(allocation)),
        Op::ReadCapacity16 { allocation } => push_allocation(text, allocation),
        Op::Read { lba, count, fua } | Op::Write { lba, count, fua } => {
            push_range(text, u64::from(lba), u32::from(count))?;
            push_fua(text, fua)
        }
        Op::Sync { lba, count } => push_range(text, u64::from(lba), u32::from(count)),
        Op::Read16 { lba, count, fua } | Op::Write16 { lba, count, fua } => {
            push_range(text, lba, count)?;
            push_fua(text, fua)
        }
    }
}

/// Adds ` allocation N`.
#[tactic(auto, unfolding(crate::specs::Printed::allocation_words))]
pub(super) fn push_allocation(text: &mut Vec<u8>, allocation: u32) -> Result<(), AllocError>
    ensures { OnOk result (text.new.items ≡ text.old.items ++ allocation_words allocation) }
{
    let words = format!(in *text.allocator(); " allocation {allocation}")?;
    text.extend_from_slice(words.as_bytes())
}

/// Adds ` lba L count C`.
#[tactic(auto, unfolding(crate::specs::Printed::range_words))]
pub(super) fn push_range(text: &mut Vec<u8>, lba: u64, count: u32) -> Result<(), AllocError>
    ensures { OnOk result (text.new.items ≡ text.old.items ++ range_words lba count) }
{
    push_number(text, " lba ", lba)?;
    push_number(text, " count ", u64::from(count))
}

/// Adds ` FUA` where it is set.
#[tactic(auto, unfolding(crate::specs::Printed::fua_word))]
pub(super) fn push_fua(text: &mut Vec<u8>, fua: bool) -> Result<(), AllocError>
    ensures { OnOk result (text.new.items ≡ text.old.items ++ fua_word fua) }
{
    if fua {
        text.extend_from_slice(b" FUA")
    } else {
        Ok(())
    }
}
