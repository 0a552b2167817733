//! The device's handle in C: made, called and freed.
ghost use Rattle.std.specs.Prelude.{◌≡◌, ℕ, List, [], ◌<◌, ◌^◌, true};
ghost use types.Logic.{sem};
ghost use base.Fraction.{full_share};
ghost use denote.RawPtr.{lies_at, room_at};
ghost use Rattle.uas_profile.specs.declared.TheConstants.{GREATEST_TAG};
ghost use Rattle.uas_target.specs.Device.{Device, opening};
ghost use Rattle.uas_device_c.specs.contracts.device.KeptDevice.{the_row as device_row};
ghost use Rattle.uas_device_c.specs.DeviceCall.{after_call};
ghost use Rattle.c_common.specs.Handed.{handed};
ghost use Rattle.c_common.specs.HandedOut.{handed_out};
ghost use Rattle.c_common.specs.Units.{opened_units, units_told};
ghost use Rattle.uas_profile.specs.declared.TheConstants.{MAX_CLIENTS};
ghost use Rattle.uas_device_c.specs.declared.device.UasDeviceDoor.{UasDeviceDoor};
ghost use Rattle.uas_device_c.specs.contracts.device.UasDeviceDoor.{the_row as door_row};

use crate::device::{KeptDevice, UasDeviceDoor, serve};
use c_common::{UasBadBlock, new_handle, open_handle};
use std::alloc::Global;

/// The device's name in C, which knows no more of it.
#[repr(C)]
pub struct UasDevice {
    hidden: u8,
}

/// Makes a device of zeroed units of so many blocks each, without a task. The number of the fault, where `device` is as it was,
/// or 0: `UNITS` no unit or more than 31, `BLOCKS` a unit of no blocks or of more than 65,536, `NO_MEMORY`.
#[unsafe(no_mangle)]
pub extern "C" fn uas_device_new(alloc: Global, blocks: &[u32], device: &mut *mut UasDevice) -> u8
    ensures fault { units_told result MAX_CLIENTS blocks.now [] [] ≡ true }
    ensures refused { 0 < result → device.new ≡ device.old }
    ensures* handed_out { sem 𝓛 (handed_out device_row (λ made. made ≡ opening GREATEST_TAG (opened_units blocks.now [] [])) result device.new) }
{
    new_handle::<KeptDevice, UasDevice>(alloc, blocks, device)
}

/// The same of units whose blocks and media are their parts of `image`, one behind the other, or zeros where that is empty, and with these
/// bad blocks. Behind `BLOCKS`, `IMAGE` where the image has another length than all blocks, `BAD_BLOCK` where a bad block is none of theirs.
#[unsafe(no_mangle)]
pub extern "C" fn uas_device_open(
    alloc: Global,
    blocks: &[u32],
    image: &[u8],
    bad: &[UasBadBlock],
    device: &mut *mut UasDevice,
) -> u8
    ensures fault { units_told result MAX_CLIENTS blocks.now image.now bad.now ≡ true }
    ensures refused { 0 < result → device.new ≡ device.old }
    ensures* handed_out { sem 𝓛 (handed_out device_row (λ made. made ≡ opening GREATEST_TAG (opened_units blocks.now image.now bad.now)) result device.new) }
{
    open_handle::<KeptDevice, UasDevice>(alloc, blocks, image, bad, device)
}

/// One call of a device: `bytes` are `length` bytes, and the device and its door are the caller's alone. What it does and answers is
/// `after_call`.
#[unsafe(no_mangle)]
pub unsafe extern "C" fn uas_device_call(
    device: *mut UasDevice,
    door: *mut UasDeviceDoor,
    bytes: *mut u8,
    length: usize,
) -> u8
    ghost had: { Device × (UasDeviceDoor × List ℕ) }
    requires* { sem 𝓛 (handed device_row door_row device door bytes length had) ∗ ⌜ length < 2 ^ 63 ⌝ }
    ensures* { sem 𝓛 (handed device_row door_row device door bytes length (after_call had.0 had.1.0 had.1.1).1)
        ∗ ⌜ result ≡ (after_call had.0 had.1.0 had.1.1).0 ⌝ }
{
    serve(
        unsafe { &mut *(device as *mut KeptDevice) },
        unsafe { &mut *door },
        unsafe { std::slice::from_raw_parts_mut(bytes, length) },
    )
}

/// Ends a device: it gives back all memory that it holds but its own block, which is left as room and which the caller frees.
#[unsafe(no_mangle)]
pub unsafe extern "C" fn uas_device_close(device: *mut UasDevice)
    ghost value: { Device }
    requires* { sem 𝓛 (lies_at device_row full_share device value) }
    ensures* { sem 𝓛 (room_at device_row device) }
{
    release(unsafe { std::ptr::read(device as *mut KeptDevice) });
}

/// Gives back what a device holds.
fn release(device: KeptDevice) {
    drop(device);
}
