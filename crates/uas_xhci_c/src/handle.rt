//! The handle of a controller in C: called and ended.
ghost use Rattle.std.specs.Prelude.{◌≡◌, ℕ, List, ◌<◌, ◌^◌};
ghost use types.Logic.{sem};
ghost use base.Fraction.{full_share};
ghost use denote.RawPtr.{lies_at, room_at};
ghost use Rattle.uas_xhci_c.specs.contracts.door.KeptXhci.{the_row as xhci_row};
ghost use Rattle.c_common.specs.Handed.{handed};
ghost use Rattle.uas_xhci_c.specs.XhciCall.{after_call};
ghost use Rattle.xhci_machine.specs.declared.Machine.{Machine};
ghost use Rattle.uas_xhci_c.specs.declared.door.UasXhciDoor.{UasXhciDoor};
ghost use Rattle.uas_xhci_c.specs.contracts.door.UasXhciDoor.{the_row as door_row};

use crate::door::{KeptXhci, UasXhciDoor, serve};
use crate::making::UasXhci;

/// One call of a controller: `bytes` are `length` bytes, and the controller and its door are the caller's alone. All three are the caller's
/// again when it returns. What it does and answers is `after_call`.
#[unsafe(no_mangle)]
pub unsafe extern "C" fn uas_xhci_call(
    xhci: *mut UasXhci,
    door: *mut UasXhciDoor,
    bytes: *mut u8,
    length: usize,
) -> u8
    ghost had: { Machine × (UasXhciDoor × List ℕ) }
    requires* { sem 𝓛 (handed xhci_row door_row xhci door bytes length had) ∗ ⌜ length < 2 ^ 63 ⌝ }
    ensures* { sem 𝓛 (handed xhci_row door_row xhci door bytes length (after_call had.0 had.1.0 had.1.1).1)
        ∗ ⌜ result ≡ (after_call had.0 had.1.0 had.1.1).0 ⌝ }
{
    serve(
        unsafe { &mut *(xhci as *mut KeptXhci) },
        unsafe { &mut *door },
        unsafe { std::slice::from_raw_parts_mut(bytes, length) },
    )
}

/// Ends a controller: it gives back all memory that it holds but its own block, which is left as room and which the caller frees.
#[unsafe(no_mangle)]
pub unsafe extern "C" fn uas_xhci_close(xhci: *mut UasXhci)
    ghost value: { Machine }
    requires* { sem 𝓛 (lies_at xhci_row full_share xhci value) }
    ensures* { sem 𝓛 (room_at xhci_row xhci) }
{
    release(unsafe { std::ptr::read(xhci as *mut KeptXhci) });
}

/// Gives back what a controller holds.
fn release(xhci: KeptXhci) {
    drop(xhci);
}
