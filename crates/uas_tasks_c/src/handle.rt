//! The handle of a device without blocks in C: called and ended.
ghost use Rattle.std.specs.Prelude.{◌≡◌, ℕ, List, ◌<◌, ◌^◌};
ghost use types.Logic.{sem};
ghost use base.Fraction.{full_share};
ghost use denote.RawPtr.{lies_at, room_at};
ghost use Rattle.uas_tasks.specs.Machine.{Machine};
ghost use Rattle.uas_tasks_c.specs.contracts.door.KeptTasks.{the_row as tasks_row};
ghost use Rattle.uas_tasks_c.specs.TasksCall.{after_call};
ghost use Rattle.c_common.specs.Handed.{handed};
ghost use Rattle.uas_tasks_c.specs.declared.door.UasTasksDoor.{UasTasksDoor};
ghost use Rattle.uas_tasks_c.specs.contracts.door.UasTasksDoor.{the_row as door_row};

use crate::door::{KeptTasks, UasTasksDoor, serve};
use crate::making::UasTasks;

/// One call of a device: `bytes` are `length` bytes, and the device and its door are the caller's alone. What it does and answers is
/// `after_call`.
#[unsafe(no_mangle)]
pub unsafe extern "C" fn uas_tasks_call(
    tasks: *mut UasTasks,
    door: *mut UasTasksDoor,
    bytes: *mut u8,
    length: usize,
) -> u8
    ghost had: { Machine × (UasTasksDoor × List ℕ) }
    requires* { sem 𝓛 (handed tasks_row door_row tasks door bytes length had) ∗ ⌜ length < 2 ^ 63 ⌝ }
    ensures* { sem 𝓛 (handed tasks_row door_row tasks door bytes length (after_call had.0 had.1.0 had.1.1).1)
        ∗ ⌜ result ≡ (after_call had.0 had.1.0 had.1.1).0 ⌝ }
{
    serve(
        unsafe { &mut *(tasks as *mut KeptTasks) },
        unsafe { &mut *door },
        unsafe { std::slice::from_raw_parts_mut(bytes, length) },
    )
}

/// Ends a device: it gives back all memory that it holds but its own block, which is left as room and which the caller frees.
#[unsafe(no_mangle)]
pub unsafe extern "C" fn uas_tasks_close(tasks: *mut UasTasks)
    ghost value: { Machine }
    requires* { sem 𝓛 (lies_at tasks_row full_share tasks value) }
    ensures* { sem 𝓛 (room_at tasks_row tasks) }
{
    release(unsafe { std::ptr::read(tasks as *mut KeptTasks) });
}

/// Gives back what a device holds.
fn release(tasks: KeptTasks) {
    drop(tasks);
}
