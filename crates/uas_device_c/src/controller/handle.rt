//! The controller's handle in C: made, called and freed.
ghost use Rattle.std.specs.Prelude.{◌≡◌, ℕ, List, [], ◌<◌, ◌^◌, true};
ghost use types.Logic.{sem};
ghost use base.Fraction.{full_share};
ghost use denote.RawPtr.{lies_at, room_at};
ghost use Rattle.uas_controller.specs.Machine.{IsOpening, MachineState};
ghost use Rattle.uas_device_c.specs.ControllerCall.{controller_answer};
ghost use Rattle.c_common.specs.Handed.{handed};
ghost use Rattle.c_common.specs.HandedOut.{handed_out};
ghost use Rattle.c_common.specs.Units.{opened_units, units_told};
ghost use Rattle.uas_profile.specs.declared.TheConstants.{GREATEST_TAG, MAX_CLIENTS};
ghost use Rattle.uas_device_c.specs.contracts.controller.KeptMachine.{the_row as machine_row};
ghost use Rattle.uas_device_c.specs.contracts.controller.door.UasControllerDoor.{the_row as door_row};
ghost use Rattle.uas_device_c.specs.declared.controller.door.UasControllerDoor.{UasControllerDoor};

use crate::controller::door::UasControllerDoor;
use crate::controller::{KeptMachine, serve};
use c_common::{UasBadBlock, new_handle, open_handle};
use std::alloc::Global;

/// The controller's name in C, which knows no more of it.
#[repr(C)]
pub struct UasController {
    hidden: u8,
}

/// Makes a controller with a device of zeroed units of so many blocks each, without a task and with empty rings. The number of the fault, where `controller` is as it was,
/// or 0: `UNITS` no unit or more than 31, `BLOCKS` a unit of no blocks or of more than 65,536, `NO_MEMORY`.
#[unsafe(no_mangle)]
pub extern "C" fn uas_controller_new(
    alloc: Global,
    blocks: &[u32],
    controller: &mut *mut UasController,
) -> u8
    ensures fault { units_told result MAX_CLIENTS blocks.now [] [] ≡ true }
    ensures refused { 0 < result → controller.new ≡ controller.old }
    ensures* handed_out { sem 𝓛 (handed_out machine_row (IsOpening GREATEST_TAG (opened_units blocks.now [] [])) result controller.new) }
{
    new_handle::<KeptMachine, UasController>(alloc, blocks, controller)
}

/// The same of units whose blocks and media are their parts of `image`, one behind the other, or zeros where that is empty, and with these
/// bad blocks. Behind `BLOCKS`, `IMAGE` where the image has another length than all blocks, `BAD_BLOCK` where a bad block is none of theirs.
#[unsafe(no_mangle)]
pub extern "C" fn uas_controller_open(
    alloc: Global,
    blocks: &[u32],
    image: &[u8],
    bad: &[UasBadBlock],
    controller: &mut *mut UasController,
) -> u8
    ensures fault { units_told result MAX_CLIENTS blocks.now image.now bad.now ≡ true }
    ensures refused { 0 < result → controller.new ≡ controller.old }
    ensures* handed_out { sem 𝓛 (handed_out machine_row (IsOpening GREATEST_TAG (opened_units blocks.now image.now bad.now)) result controller.new) }
{
    open_handle::<KeptMachine, UasController>(alloc, blocks, image, bad, controller)
}

/// One call of a controller: `bytes` are `length` bytes, and the controller and its door are the caller's alone. What it does and
/// answers is `controller_answer`.
#[unsafe(no_mangle)]
pub unsafe extern "C" fn uas_controller_call(
    controller: *mut UasController,
    door: *mut UasControllerDoor,
    bytes: *mut u8,
    length: usize,
) -> u8
    ghost had: { MachineState × (UasControllerDoor × List ℕ) }
    requires* { sem 𝓛 (handed machine_row door_row controller door bytes length had) ∗ ⌜ length < 2 ^ 63 ⌝ }
    ensures* { sem 𝓛 (handed machine_row door_row controller door bytes length (controller_answer result had.0 had.1.0 had.1.1).1)
        ∗ ⌜ result ≡ (controller_answer result had.0 had.1.0 had.1.1).0 ⌝ }
{
    serve(
        unsafe { &mut *(controller as *mut KeptMachine) },
        unsafe { &mut *door },
        unsafe { std::slice::from_raw_parts_mut(bytes, length) },
    )
}

/// Ends a controller: it gives back all memory that it holds but its own block, which is left as room and which the caller frees.
#[unsafe(no_mangle)]
pub unsafe extern "C" fn uas_controller_close(controller: *mut UasController)
    ghost value: { MachineState }
    requires* { sem 𝓛 (lies_at machine_row full_share controller value) }
    ensures* { sem 𝓛 (room_at machine_row controller) }
{
    release(unsafe { std::ptr::read(controller as *mut KeptMachine) });
}

/// Gives back what a controller holds.
fn release(machine: KeptMachine) {
    drop(machine);
}
