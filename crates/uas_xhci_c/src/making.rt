//! A controller over a caller's memory, made for C.
ghost use Rattle.std.specs.Prelude.{◌≡◌, ◌<◌, IfErr, IfOk, true};
ghost use types.Logic.{sem};
ghost use Rattle.c_common.specs.HandedOut.{handed_out, made_number};
ghost use Rattle.c_tasks.specs.Disks.{disks_fault};
ghost use Rattle.c_tasks.specs.Making.{making_fault, tells};
ghost use Rattle.uas_xhci_c.specs.Made.{IsMade, IsMadeOfDisks};
ghost use Rattle.uas_xhci_c.specs.contracts.door.KeptXhci.{the_row as xhci_row};

use crate::door::KeptXhci;
use c_common::faults::NO_MEMORY;
use c_common::hand_out_made;
use c_tasks::{UasTasksUnit, disks_fault, make_of_disks, make_tasks, making_fault};
use std::alloc::Global;
use xhci_machine::Machine;

/// The controller's name in C, which knows no more of it.
#[repr(C)]
pub struct UasXhci {
    hidden: u8,
}

/// Makes a controller after a reset, with a disk of logical units plugged in. `set` is 0 for the profile's commands and 1 for those of hosts,
/// which move at most `most` blocks; a request is of at most `chunk` blocks. The number of the fault, where `xhci` is as it was, or 0: `UNITS` no
/// logical unit or more than 15, `BLOCKS` one of no blocks or of more than 2^48, `TASKS_BLOCK_BYTES`, `TASKS_SERIAL`, `TASKS_SET`,
/// `TASKS_CHUNK`, `NO_MEMORY`. At 0 such a controller (`IsMade`) lies at `xhci` and is the caller's.
#[unsafe(no_mangle)]
pub extern "C" fn uas_xhci_new(
    alloc: Global,
    units: &[UasTasksUnit],
    set: u8,
    most: u16,
    chunk: u16,
    xhci: &mut *mut UasXhci,
) -> u8
    ensures fault { tells result (making_fault units.now set most chunk) ≡ true }
    ensures refused { 0 < result → xhci.new ≡ xhci.old }
    ensures* handed_out { sem 𝓛 (handed_out xhci_row (IsMade units.now set most chunk) result xhci.new) }
{
    hand_out_made(made(alloc, units, set, most, chunk), xhci)
}

/// The error is the number of the fault.
fn made(
    alloc: Global,
    units: &[UasTasksUnit],
    set: u8,
    most: u16,
    chunk: u16,
) -> Result<Box<KeptXhci, Global>, u8>
    ensures made { IfOk result (λ made. IsMade units.now set most chunk made.value) }
    ensures fault { tells (made_number result) (making_fault units.now set most chunk) ≡ true }
    ensures number { IfErr result (λ number. 0 < number) }
{
    if let Some(fault) = making_fault(units, set, most, chunk) {
        return Err(fault);
    }
    let Ok(tasks) = make_tasks(alloc, units, set, most, chunk) else {
        return Err(NO_MEMORY);
    };
    let Ok(machine) = Machine::new(alloc, tasks) else {
        return Err(NO_MEMORY);
    };
    match Box::new(alloc, KeptXhci { machine, alloc }) {
        Ok(made) => Ok(made),
        Err(_) => Err(NO_MEMORY),
    }
}

/// Makes a controller after a reset, with a disk plugged in whose logical units say what there is to tell of them, as `uas_xhci_new` does with
/// others. Their records lie one behind another in `disks`. `set` may be 2 too, for the commands of virtual disks, of which each logical unit has its
/// own maximum. The number of the fault, where `xhci` is as it was, or 0: `UNITS` without a byte; of the first logical unit with one `UNITS`, which the
/// sixteenth has, `TASKS_SIZE`, `BLOCKS`, `TASKS_BLOCK_BYTES` or `TASKS_DISK`; then `TASKS_SET`, `TASKS_CHUNK`, `NO_MEMORY`. At 0 such a controller
/// (`IsMadeOfDisks`) lies at `xhci` and is the caller's.
#[unsafe(no_mangle)]
pub extern "C" fn uas_xhci_new_disks(
    alloc: Global,
    disks: &[u8],
    set: u8,
    most: u16,
    chunk: u16,
    xhci: &mut *mut UasXhci,
) -> u8
    ensures fault { tells result (disks_fault disks.now set most chunk) ≡ true }
    ensures refused { 0 < result → xhci.new ≡ xhci.old }
    ensures* handed_out { sem 𝓛 (handed_out xhci_row (IsMadeOfDisks disks.now set most chunk) result xhci.new) }
{
    hand_out_made(made_of_disks(alloc, disks, set, most, chunk), xhci)
}

/// The error is the number of the fault.
fn made_of_disks(
    alloc: Global,
    disks: &[u8],
    set: u8,
    most: u16,
    chunk: u16,
) -> Result<Box<KeptXhci, Global>, u8>
    ensures made { IfOk result (λ made. IsMadeOfDisks disks.now set most chunk made.value) }
    ensures fault { tells (made_number result) (disks_fault disks.now set most chunk) ≡ true }
    ensures number { IfErr result (λ number. 0 < number) }
{
    if let Some(fault) = disks_fault(disks, set, most, chunk) {
        return Err(fault);
    }
    let Ok(tasks) = make_of_disks(alloc, disks, set, most, chunk) else {
        return Err(NO_MEMORY);
    };
    let Ok(machine) = Machine::new(alloc, tasks) else {
        return Err(NO_MEMORY);
    };
    match Box::new(alloc, KeptXhci { machine, alloc }) {
        Ok(made) => Ok(made),
        Err(_) => Err(NO_MEMORY),
    }
}
