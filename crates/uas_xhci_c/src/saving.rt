//! A controller that becomes one that was saved.
ghost use Rattle.std.specs.Prelude.{◌≡◌};
ghost use types.Logic.{sem};
ghost use base.Fraction.{full_share};
ghost use denote.RawPtr.{lies_at};
ghost use Rattle.xhci_machine.specs.declared.Machine.{Machine};
ghost use Rattle.uas_xhci_c.specs.contracts.door.KeptXhci.{the_row as xhci_row};
ghost use Rattle.uas_xhci_c.specs.Saving.{IsRestored, load_number, text_in, told_of};

use crate::door::KeptXhci;
use crate::making::UasXhci;
use c_common::faults::NO_MEMORY;
use guest_memory::Lent;
use xhci_machine::LoadFault;

/// A request is out.
pub const XHCI_OUT: u8 = 164;

/// There is less room than a saved controller takes, which C tells.
pub const XHCI_ROOM: u8 = 165;

/// Fewer bytes than any saved controller has.
pub const XHCI_SHORT: u8 = 166;

/// Bytes that are no saved controller.
pub const XHCI_MAGIC: u8 = 167;

/// A saved controller of a later version.
pub const XHCI_VERSION: u8 = 168;

/// Another length than a saved controller says.
pub const XHCI_LENGTH: u8 = 169;

/// A saved controller whose checksum is another's.
pub const XHCI_SUM: u8 = 170;

/// A saved controller of other logical units, or of another set, maximum or chunk.
pub const XHCI_SHAPE: u8 = 171;

/// A saved controller with a value that none has.
pub const XHCI_VALUE: u8 = 172;

/// What a saved text was answered.
#[repr(C)]
#[derive(Clone, Copy)]
pub struct UasXhciLoaded {
    /// Out where the fault is `XHCI_VALUE`: the first byte that has no meaning.
    pub at: u64,
}

/// The controller becomes the one that was saved as the bytes of the first region. The number of the fault, where nothing has changed, or 0:
/// `XHCI_SHORT`, `XHCI_MAGIC`, `XHCI_VERSION`, `XHCI_LENGTH`, `XHCI_SUM`, `XHCI_SHAPE`, `XHCI_VALUE`, `NO_MEMORY`. The controller is the caller's
/// alone, and his again when it returns; the bytes don't change.
#[unsafe(no_mangle)]
pub unsafe extern "C" fn uas_xhci_take_state(
    xhci: *mut UasXhci,
    told: &mut UasXhciLoaded,
    text: &mut [Lent],
) -> u8
    ghost had: { Machine }
    requires* { sem 𝓛 (lies_at xhci_row full_share xhci had) }
    ensures* { ∃ₛ (λ (now : Machine). sem 𝓛 (lies_at xhci_row full_share xhci now)
        ∗ ⌜ IsRestored had now told.old told.new text.old text.new result ⌝) }
{
    take_state(told, text, unsafe { &mut *(xhci as *mut KeptXhci) })
}

fn take_state(told: &mut UasXhciLoaded, text: &mut [Lent], kept: &mut KeptXhci) -> u8
    ensures { IsRestored kept.old kept.new told.old told.new text.old text.new result }
{
    let bytes = text_in(text);
    match kept.machine.restore(kept.alloc, bytes) {
        Ok(()) => 0,
        Err(fault) => {
            *told = told_of(*told, fault);
            load_number(fault)
        }
    }
}

/// The bytes of a text: those of its first region.
fn text_in<'a>(text: &'a [Lent]) -> &'a [u8]
    ensures { result.now ≡ text_in text.now }
{
    match text.first() {
        Some(region) => &*region.bytes,
        None => &[],
    }
}

/// What is told of a fault beside its number.
fn told_of(told: UasXhciLoaded, fault: LoadFault) -> UasXhciLoaded
    ensures { result ≡ told_of told fault }
{
    match fault {
        LoadFault::Value { at } => UasXhciLoaded { at: at as u64 },
        _ => told,
    }
}

/// The number of a fault.
fn load_number(fault: LoadFault) -> u8
    ensures { result ≡ load_number fault }
{
    match fault {
        LoadFault::Short => XHCI_SHORT,
        LoadFault::Magic => XHCI_MAGIC,
        LoadFault::Version => XHCI_VERSION,
        LoadFault::Length => XHCI_LENGTH,
        LoadFault::Sum => XHCI_SUM,
        LoadFault::Shape => XHCI_SHAPE,
        LoadFault::Value { .. } => XHCI_VALUE,
        LoadFault::NoMemory => NO_MEMORY,
    }
}
