//! A device of logical units that say what there is to tell of them.
ghost use Rattle.std.specs.Prelude.{◌≡◌, ◌<◌, ◌≤◌, IfOk, IfSome, None, Result, length, true};
ghost use Rattle.std.specs.Result.{result_err};
ghost use Rattle.uas_profile.specs.declared.TheConstants.{MAX_UNITS};
ghost use Rattle.c_tasks.specs.Disks.{disk_set_of, disk_shapes, disks_fault, is_disk_set, made_of_disks, record_fault};
ghost use Rattle.c_tasks.specs.Making.{is_chunk};

use crate::{command_set, is_chunk, is_set};
use c_common::faults::{
    BLOCKS, TASKS_BLOCK_BYTES, TASKS_CHUNK, TASKS_DISK, TASKS_SET, TASKS_SIZE, UNITS,
};
use c_disks::{RecordFault, disk_asked, first_size};
use host_commands::{CommandSet, LogicalUnitShape};
use std::alloc::{AllocError, Global};
use uas_profile::MAX_UNITS;
use uas_tasks::Tasks;

/// The number of the disk set.
const DISK_SET: u8 = 2;

/// The number of a fault of a record.
fn record_fault(fault: RecordFault) -> u8
    ensures number { result ≡ record_fault fault }
    ensures not_0 { 0 < result }
{
    match fault {
        RecordFault::Size => TASKS_SIZE,
        RecordFault::Blocks => BLOCKS,
        RecordFault::BlockBytes => TASKS_BLOCK_BYTES,
        RecordFault::Field => TASKS_DISK,
    }
}

/// The first fault of the logical units whose records these are, one behind another.
fn shapes_fault(records: &[u8]) -> Option<u8>
    ensures fault { result ≡ result_err (disk_shapes MAX_UNITS 0 records.now) }
    ensures not_0 { IfSome result (λ fault. 0 < fault) }
{
    let mut rest = records;
    for number in 0..MAX_UNITS as u8 {
        if rest.is_empty() {
            return None;
        }
        let (first, behind) = rest.split_at(first_size(rest));
        if let Err(fault) = disk_asked(number, first) {
            return Some(record_fault(fault));
        }
        rest = behind;
    }
    if rest.is_empty() { None } else { Some(UNITS) }
}

/// The logical units whose records these are, one behind another. The error is want of memory.
fn shapes(alloc: Global, records: &[u8]) -> Result<Vec<LogicalUnitShape>, AllocError>
    ensures shapes { IfOk result (λ shapes. disk_shapes MAX_UNITS 0 records.now ≡ Result.Ok shapes.items) }
    ensures most { IfOk result (λ shapes. length shapes.items ≤ MAX_UNITS) }
{
    let mut shapes = Vec::new(alloc);
    let mut rest = records;
    for number in 0..MAX_UNITS as u8 {
        if rest.is_empty() {
            return Ok(shapes);
        }
        let (first, behind) = rest.split_at(first_size(rest));
        // (each is whole: their faults were told before)
        let Ok(shape) = disk_asked(number, first) else {
            return Err(AllocError);
        };
        shapes.push(shape)?;
        rest = behind;
    }
    if rest.is_empty() {
        Ok(shapes)
    } else {
        Err(AllocError)
    }
}

fn is_disk_set(number: u8, most: u16) -> bool
    ensures { result ≡ is_disk_set number most }
{
    number == DISK_SET || is_set(number, most)
}

fn disk_set(number: u8, most: u16) -> Option<CommandSet>
    ensures { IfSome result (λ set. set ≡ disk_set_of number most) }
{
    if number == DISK_SET {
        return Some(CommandSet::Disk);
    }
    command_set(number, most)
}

/// The first fault of what is asked for.
pub fn disks_fault(records: &[u8], set: u8, most: u16, chunk: u16) -> Option<u8>
    ensures fault { result ≡ disks_fault records.now set most chunk }
    ensures chunk { result ≡ None → is_chunk chunk ≡ true }
    ensures not_0 { IfSome result (λ fault. 0 < fault) }
{
    if records.is_empty() {
        return Some(UNITS);
    }
    if let Some(fault) = shapes_fault(records) {
        return Some(fault);
    }
    if !is_disk_set(set, most) {
        Some(TASKS_SET)
    } else if !is_chunk(chunk) {
        Some(TASKS_CHUNK)
    } else {
        None
    }
}

/// The device of what is asked for, where that has no fault. The error is want of memory.
pub fn make_of_disks(
    alloc: Global,
    records: &[u8],
    set: u8,
    most: u16,
    chunk: u16,
) -> Result<Tasks, AllocError>
    requires { is_chunk chunk ≡ true }
    ensures { IfOk result (λ tasks. tasks ≡ made_of_disks records.now set most chunk) }
{
    let shapes = shapes(alloc, records)?;
    let Some(set) = disk_set(set, most) else {
        return Err(AllocError);
    };
    Ok(Tasks::new(alloc, shapes.as_slice(), set, chunk)?)
}
