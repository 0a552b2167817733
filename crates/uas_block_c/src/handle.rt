//! The handle of a driver in C: called, given commands and ended.
ghost use Rattle.std.specs.Prelude.{◌≡◌};
ghost use types.Logic.{sem};
ghost use base.Fraction.{full_share};
ghost use denote.RawPtr.{lies_at, room_at};
ghost use Rattle.block_driver.specs.declared.BlockDriver.{BlockDriver};
ghost use Rattle.uas_block_c.specs.BlockCall.{Called};
ghost use Rattle.uas_block_c.specs.Puts.{Put};
ghost use Rattle.uas_block_c.specs.contracts.door.KeptBlock.{the_row as block_row};

use crate::door::{KeptBlock, UasBlockDoor, serve};
use crate::making::UasBlock;
use crate::puts::{UasBlockCommand, UasSegment, put};

/// One call of a driver, which is the caller's alone, and his again when it returns. What it does and answers is `Called`.
#[unsafe(no_mangle)]
pub unsafe extern "C" fn uas_block_call(
    block: *mut UasBlock,
    door: &mut UasBlockDoor,
    bytes: &mut [u8],
) -> u8
    ghost had: { BlockDriver }
    requires* { sem 𝓛 (lies_at block_row full_share block had) }
    ensures* { ∃ₛ (λ (now : BlockDriver). sem 𝓛 (lies_at block_row full_share block now)
        ∗ ⌜ Called had now door.old door.new bytes.old bytes.new result ⌝) }
{
    serve(door, bytes, unsafe { &mut *(block as *mut KeptBlock) })
}

/// Submits a command to a driver, which is the caller's alone, and his again when it returns. What it does and answers is `Put`.
#[unsafe(no_mangle)]
pub unsafe extern "C" fn uas_block_put(
    block: *mut UasBlock,
    command: &mut UasBlockCommand,
    segments: &mut [UasSegment],
) -> u8
    ghost had: { BlockDriver }
    requires* { sem 𝓛 (lies_at block_row full_share block had) }
    ensures* { ∃ₛ (λ (now : BlockDriver). sem 𝓛 (lies_at block_row full_share block now)
        ∗ ⌜ Put had now command.old command.new segments.old segments.new result ⌝) }
{
    put(
        command,
        segments,
        unsafe { &mut *(block as *mut KeptBlock) },
    )
}

/// Ends a driver: it gives back all memory that it holds but its own block, which is left as room and which the caller frees.
#[unsafe(no_mangle)]
pub unsafe extern "C" fn uas_block_close(block: *mut UasBlock)
    ghost value: { BlockDriver }
    requires* { sem 𝓛 (lies_at block_row full_share block value) }
    ensures* { sem 𝓛 (room_at block_row block) }
{
    release(unsafe { std::ptr::read(block as *mut KeptBlock) });
}

/// Gives back what a driver holds.
fn release(block: KeptBlock) {
    drop(block);
}
