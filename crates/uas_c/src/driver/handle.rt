//! The driver's handle in C: made, called and freed.
ghost use Rattle.std.specs.Prelude.{◌≡◌, ℕ, List, ◌<◌, ◌^◌, true};
ghost use types.Logic.{sem};
ghost use base.Fraction.{full_share};
ghost use denote.RawPtr.{lies_at, room_at};
ghost use Rattle.uas_driver.specs.Driver.{DriverState, IsOpening};
ghost use Rattle.uas_c.specs.DriverCall.{clients_told, driver_answer};
ghost use Rattle.c_common.specs.Handed.{handed};
ghost use Rattle.c_common.specs.HandedOut.{handed_out};
ghost use Rattle.uas_c.specs.contracts.driver.KeptDriver.{the_row as driver_row};
ghost use Rattle.uas_c.specs.contracts.driver.door.UasDriverDoor.{the_row as door_row};
ghost use Rattle.uas_c.specs.declared.driver.door.UasDriverDoor.{UasDriverDoor};

use crate::driver::door::UasDriverDoor;
use crate::driver::{KeptDriver, made, serve};
use c_common::hand_out_made;
use std::alloc::Global;

/// The driver's name in C, which knows no more of it.
#[repr(C)]
pub struct UasDriver {
    hidden: u8,
}

/// Makes a driver of so many clients, with so many tags each, that have submitted nothing. The number of the fault, where `driver` is as it
/// was, or 0: `TAGS` another number of tags than 2 to 16, `DRIVER_CLIENTS` no client or more than there are with so many tags, `NO_MEMORY`.
#[unsafe(no_mangle)]
pub extern "C" fn uas_driver_open_tags(
    alloc: Global,
    clients: usize,
    tags: usize,
    driver: &mut *mut UasDriver,
) -> u8
    ensures fault { clients_told result clients tags ≡ true }
    ensures refused { 0 < result → driver.new ≡ driver.old }
    ensures* handed_out { sem 𝓛 (handed_out driver_row (IsOpening tags clients) result driver.new) }
{
    hand_out_made(made(alloc, clients, tags), driver)
}

/// One call of a driver: `bytes` are `length` bytes, and the driver and its door are the caller's alone. What it does and answers is
/// `driver_answer`.
#[unsafe(no_mangle)]
pub unsafe extern "C" fn uas_driver_call(
    driver: *mut UasDriver,
    door: *mut UasDriverDoor,
    bytes: *mut u8,
    length: usize,
) -> u8
    ghost had: { DriverState × (UasDriverDoor × List ℕ) }
    requires* { sem 𝓛 (handed driver_row door_row driver door bytes length had) ∗ ⌜ length < 2 ^ 63 ⌝ }
    ensures* { sem 𝓛 (handed driver_row door_row driver door bytes length (driver_answer result had.0 had.1.0 had.1.1).1)
        ∗ ⌜ result ≡ (driver_answer result had.0 had.1.0 had.1.1).0 ⌝ }
{
    serve(
        unsafe { &mut *(driver as *mut KeptDriver) },
        unsafe { &mut *door },
        unsafe { std::slice::from_raw_parts_mut(bytes, length) },
    )
}

/// Ends a driver: it gives back all memory that it holds but its own block, which is left as room and which the caller frees.
#[unsafe(no_mangle)]
pub unsafe extern "C" fn uas_driver_close(driver: *mut UasDriver)
    ghost value: { DriverState }
    requires* { sem 𝓛 (lies_at driver_row full_share driver value) }
    ensures* { sem 𝓛 (room_at driver_row driver) }
{
    release(unsafe { std::ptr::read(driver as *mut KeptDriver) });
}

/// Gives back what a driver holds.
fn release(driver: KeptDriver) {
    drop(driver);
}
