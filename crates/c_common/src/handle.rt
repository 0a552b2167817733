//! Handles in C: what was made is handed out as a pointer.
ghost use Rattle.std.specs.Prelude.{◌≡◌, IfErr};
ghost use types.Logic.{sem};
ghost use base.Fraction.{full_share};
ghost use denote.RawPtr.{lies_at};
ghost use Rattle.c_common.specs.HandedOut.{handed_if_made, made_number};

use std::alloc::Global;

/// Hands out what was made, at the pointer that `handle` has now, and answers 0. Where nothing was made, the answer is its fault's number,
/// and `handle` is as it was.
pub fn hand_out_made<T: Drop, Name>(made: Result<Box<T, Global>, u8>, handle: &mut *mut Name) -> u8
    ensures answer { result ≡ made_number made }
    ensures refused { IfErr made (λ _. handle.new ≡ handle.old) }
    ensures* handed_out { sem 𝓛 (handed_if_made T.row made handle.new) }
{
    match made {
        Ok(made) => {
            *handle = hand_out(made);
            0
        }
        Err(number) => number,
    }
}

/// The pointer by which C has it: what was made lies there, and is C's.
pub fn hand_out<T: Drop, Name>(made: Box<T, Global>) -> *mut Name
    ensures* { sem 𝓛 (lies_at T.row full_share result made.value) }
{
    Box::into_raw(made) as *mut Name
}
