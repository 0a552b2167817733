//! The bus's handle in C: made, called and freed.
ghost use Rattle.std.specs.Prelude.{◌≡◌, ℕ, List, ◌<◌, ◌^◌, true};
ghost use types.Logic.{sem};
ghost use base.Fraction.{full_share};
ghost use denote.RawPtr.{lies_at, room_at};
ghost use Rattle.shared_machine.specs.Shared.{Shared, opening};
ghost use Rattle.uas_c.specs.BusCall.{bus_answer, bus_told};
ghost use Rattle.c_common.specs.Handed.{handed};
ghost use Rattle.c_common.specs.HandedOut.{handed_out};
ghost use Rattle.c_common.specs.Units.{opened_units};
ghost use Rattle.uas_c.specs.contracts.bus.KeptBus.{the_row as bus_row};
ghost use Rattle.uas_c.specs.contracts.bus.UasBusDoor.{the_row as door_row};
ghost use Rattle.uas_c.specs.declared.bus.UasBusDoor.{UasBusDoor};

use crate::bus::{KeptBus, UasBusDoor, made, serve};
use c_common::{UasBadBlock, hand_out_made};
use std::alloc::Global;

/// The bus's name in C, which knows no more of it.
#[repr(C)]
pub struct UasBus {
    hidden: u8,
}

/// Makes a bus of so many tags of each client and of a unit of so many blocks for each client. Their blocks and media are their parts of
/// `image`, one behind the other, or zeros where that is empty, and these blocks are bad. The number of the fault, where `bus` is as it was,
/// or 0: `TAGS` another number of tags than 2 to 16, `UNITS` no client or more than there are with so many tags, `BLOCKS` a unit of no
/// blocks or of more than 65,536, `IMAGE` an image of another length than all blocks, `BAD_BLOCK` a bad block that is none of theirs,
/// `NO_MEMORY`.
#[unsafe(no_mangle)]
pub extern "C" fn uas_bus_open_tags(
    alloc: Global,
    tags: usize,
    blocks: &[u32],
    image: &[u8],
    bad: &[UasBadBlock],
    bus: &mut *mut UasBus,
) -> u8
    ensures fault { bus_told result tags blocks.now image.now bad.now ≡ true }
    ensures refused { 0 < result → bus.new ≡ bus.old }
    ensures* handed_out { sem 𝓛 (handed_out bus_row (λ made. made ≡ opening tags (opened_units blocks.now image.now bad.now)) result bus.new) }
{
    hand_out_made(made(alloc, tags, blocks, image, bad), bus)
}

/// One call of a bus: `bytes` are `length` bytes, and the bus and its door are the caller's alone. What it does and answers is
/// `bus_answer`.
#[unsafe(no_mangle)]
pub unsafe extern "C" fn uas_bus_call(
    bus: *mut UasBus,
    door: *mut UasBusDoor,
    bytes: *mut u8,
    length: usize,
) -> u8
    ghost had: { Shared × (UasBusDoor × List ℕ) }
    requires* { sem 𝓛 (handed bus_row door_row bus door bytes length had) ∗ ⌜ length < 2 ^ 63 ⌝ }
    ensures* { sem 𝓛 (handed bus_row door_row bus door bytes length (bus_answer result had.0 had.1.0 had.1.1).1)
        ∗ ⌜ result ≡ (bus_answer result had.0 had.1.0 had.1.1).0 ⌝ }
{
    serve(
        unsafe { &mut *(bus as *mut KeptBus) },
        unsafe { &mut *door },
        unsafe { std::slice::from_raw_parts_mut(bytes, length) },
    )
}

/// Ends a bus: it gives back all memory that it holds but its own block, which is left as room and which the caller frees.
#[unsafe(no_mangle)]
pub unsafe extern "C" fn uas_bus_close(bus: *mut UasBus)
    ghost value: { Shared }
    requires* { sem 𝓛 (lies_at bus_row full_share bus value) }
    ensures* { sem 𝓛 (room_at bus_row bus) }
{
    release(unsafe { std::ptr::read(bus as *mut KeptBus) });
}

/// Gives back what a bus holds.
fn release(bus: KeptBus) {
    drop(bus);
}
