//! A device without blocks as C asks for it: records of logical units, and numbers for the command set and the greatest chunk.
//!
//! What is promised: [`making_fault`] is the first fault of what is asked for, in the order of specs/Making.antt; where there is none,
//! [`make_tasks`] makes that very device, without a task (`made_tasks`), or finds too little memory.
//!
//! `proofs/MadeExport.antt` proves, once for every handle of such units, that an export which makes a box and hands it out meets its
//! contract.
//!
//! Logical units of which C says what there is to tell ([`disks_fault`], [`make_of_disks`], specs/Disks.antt) are c_disks' records, one behind
//! another.
//!
//! What came of a request is told by a number, with a place where there is one ([`outcome_told`], specs/Outcomes.antt).
//!
//! It stands on `host_commands`, `c_disks` and `uas_tasks`, and for that proof on `c_common`.
#![tactic(auto)]

mod making;
mod outcomes;

ghost use Rattle.std.specs.Prelude.{◌≡◌, ◌<◌, ◌≤◌, IfOk, IfSome, None, length, map, true};
ghost use Rattle.std.specs.List.{list_all};
ghost use Rattle.uas_profile.specs.declared.TheConstants.{MAX_UNITS};
ghost use Rattle.c_tasks.specs.Making.{block_length_of, has_block_bytes, has_blocks, has_serial, is_chunk, is_set, made_tasks, making_fault};
ghost use Rattle.c_tasks.specs.Making.{set_of, shape_of};

use c_common::faults::{BLOCKS, TASKS_BLOCK_BYTES, TASKS_CHUNK, TASKS_SERIAL, TASKS_SET, UNITS};
use host_commands::{
    BlockLength, CommandSet, LogicalUnitShape, MOST_BLOCKS, SERIAL_NUMBERS, SerialNumber,
};
pub use making::{disks_fault, make_of_disks};
pub use outcomes::outcome_told;
use std::alloc::{AllocError, Global};
use uas_profile::MAX_UNITS;
use uas_tasks::{MOST_CHUNK_BLOCKS, Tasks};

/// A logical unit as C has it.
#[repr(C)]
#[derive(Clone, Copy)]
pub struct UasTasksUnit {
    /// 1 to 2^48.
    pub blocks: u64,
    /// The serial number: eight decimal digits.
    pub serial: u32,
    /// 512 or 4,096.
    pub block_bytes: u32,
}

fn has_blocks(unit: &UasTasksUnit) -> bool
    ensures { result ≡ has_blocks unit.now }
{
    unit.blocks != 0 && unit.blocks <= MOST_BLOCKS
}

fn has_block_bytes(unit: &UasTasksUnit) -> bool
    ensures { result ≡ has_block_bytes unit.now }
{
    unit.block_bytes == 512 || unit.block_bytes == 4096
}

fn has_serial(unit: &UasTasksUnit) -> bool
    ensures { result ≡ has_serial unit.now }
{
    unit.serial < SERIAL_NUMBERS
}

fn all_have_blocks(units: &[UasTasksUnit]) -> bool
    ensures { result ≡ list_all has_blocks units.now }
{
    units.iter().all(|unit| has_blocks(unit))
}

fn all_have_block_bytes(units: &[UasTasksUnit]) -> bool
    ensures { result ≡ list_all has_block_bytes units.now }
{
    units.iter().all(|unit| has_block_bytes(unit))
}

fn all_have_serials(units: &[UasTasksUnit]) -> bool
    ensures { result ≡ list_all has_serial units.now }
{
    units.iter().all(|unit| has_serial(unit))
}

fn is_set(number: u8, most: u16) -> bool
    ensures { result ≡ is_set number most }
{
    number == 0 || number == 1 && most >= 8 && most <= 65_528 && most % 8 == 0
}

fn is_chunk(blocks: u16) -> bool
    ensures { result ≡ is_chunk blocks }
{
    blocks != 0 && blocks <= MOST_CHUNK_BLOCKS
}

/// The first fault of what is asked for.
pub fn making_fault(units: &[UasTasksUnit], set: u8, most: u16, chunk: u16) -> Option<u8>
    ensures fault { result ≡ making_fault units.now set most chunk }
    ensures units { result ≡ None → length units.now ≤ MAX_UNITS }
    ensures chunk { result ≡ None → is_chunk chunk ≡ true }
    ensures not_0 { IfSome result (λ fault. 0 < fault) }
{
    if units.is_empty() || units.len() > MAX_UNITS {
        Some(UNITS)
    } else if !all_have_blocks(units) {
        Some(BLOCKS)
    } else if !all_have_block_bytes(units) {
        Some(TASKS_BLOCK_BYTES)
    } else if !all_have_serials(units) {
        Some(TASKS_SERIAL)
    } else if !is_set(set, most) {
        Some(TASKS_SET)
    } else if !is_chunk(chunk) {
        Some(TASKS_CHUNK)
    } else {
        None
    }
}

fn block_length(bytes: u32) -> BlockLength
    ensures { result ≡ block_length_of bytes }
{
    if bytes == 4096 {
        BlockLength::Bytes4096
    } else {
        BlockLength::Bytes512
    }
}

/// The logical unit, where it has no fault.
fn shape(unit: &UasTasksUnit) -> Option<LogicalUnitShape>
    ensures { IfSome result (λ shape. shape ≡ shape_of unit.now) }
{
    let serial = SerialNumber::new(unit.serial).ok()?;
    LogicalUnitShape::new(unit.blocks, block_length(unit.block_bytes), serial).ok()
}

fn shapes(alloc: Global, units: &[UasTasksUnit]) -> Result<Vec<LogicalUnitShape>, AllocError>
    ensures { IfOk result (λ shapes. shapes.items ≡ map shape_of units.now) }
{
    let mut shapes = Vec::new(alloc);
    for unit in units {
        // (each is whole: their faults were told before)
        let Some(shape) = shape(unit) else {
            return Err(AllocError);
        };
        shapes.push(shape)?;
    }
    Ok(shapes)
}

/// The command set, where it has no fault.
fn command_set(number: u8, most: u16) -> Option<CommandSet>
    ensures { IfSome result (λ set. set ≡ set_of number most) }
{
    if number == 0 {
        return Some(CommandSet::Profile);
    }
    CommandSet::host(most).ok()
}

/// The device of what is asked for, where that has no fault. The error is want of memory.
pub fn make_tasks(
    alloc: Global,
    units: &[UasTasksUnit],
    set: u8,
    most: u16,
    chunk: u16,
) -> Result<Tasks, AllocError>
    requires units { length units.now ≤ MAX_UNITS }
    requires chunk { is_chunk chunk ≡ true }
    ensures { IfOk result (λ tasks. tasks ≡ made_tasks units.now set most chunk) }
{
    let shapes = shapes(alloc, units)?;
    let Some(set) = command_set(set, most) else {
        return Err(AllocError);
    };
    Ok(Tasks::new(alloc, shapes.as_slice(), set, chunk)?)
}
