//! A driver, made for C.
ghost use Rattle.std.specs.Prelude.{◌≡◌, ◌<◌, IfErr, IfOk, true};
ghost use types.Logic.{sem};
ghost use Rattle.c_common.specs.HandedOut.{handed_out, made_number};
ghost use Rattle.uas_block_c.specs.Made.{IsMade, making_fault, tells};
ghost use Rattle.uas_block_c.specs.contracts.door.KeptBlock.{the_row as block_row};

use crate::door::KeptBlock;
use crate::faults::BLOCK_OPTIONS;
use crate::options::{UasBlockOptions, options_of};
use block_driver::{BlockDriver, NewFault};
use c_common::faults::NO_MEMORY;
use c_common::hand_out_made;
use std::alloc::Global;

/// The driver's name in C, which knows no more of it.
#[repr(C)]
pub struct UasBlock {
    hidden: u8,
}

/// Makes a driver for a controller of which nothing is known. The number of the fault, where `block` is as it was, or 0: `BLOCK_OPTIONS` where the
/// options can't be asked, `NO_MEMORY`. At 0 such a driver (`IsMade`) lies at `block` and is the caller's.
#[unsafe(no_mangle)]
pub extern "C" fn uas_block_new(
    alloc: Global,
    options: &UasBlockOptions,
    block: &mut *mut UasBlock,
) -> u8
    ensures fault { tells result (making_fault options.now) ≡ true }
    ensures refused { 0 < result → block.new ≡ block.old }
    ensures* handed_out { sem 𝓛 (handed_out block_row (IsMade options.now) result block.new) }
{
    hand_out_made(made(alloc, options), block)
}

/// The error is the number of the fault.
fn made(alloc: Global, options: &UasBlockOptions) -> Result<Box<KeptBlock, Global>, u8>
    ensures made { IfOk result (λ made. IsMade options.now made.value) }
    ensures fault { tells (made_number result) (making_fault options.now) ≡ true }
    ensures number { IfErr result (λ number. 0 < number) }
{
    let Some(options) = options_of(options) else {
        return Err(BLOCK_OPTIONS);
    };
    let driver = match BlockDriver::new(alloc, options) {
        Ok(driver) => driver,
        Err(NewFault::Options) => return Err(BLOCK_OPTIONS),
        Err(NewFault::NoMemory) => return Err(NO_MEMORY),
    };
    match Box::new(alloc, KeptBlock { driver }) {
        Ok(made) => Ok(made),
        Err(_) => Err(NO_MEMORY),
    }
}
