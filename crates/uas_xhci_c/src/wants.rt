//! What the controller's next step lacks of the regions that are lent.
ghost use Rattle.std.specs.Prelude.{◌≡◌, ◌<◌, false, IfSome, None};
ghost use types.Logic.{sem};
ghost use base.Fraction.{full_share};
ghost use denote.RawPtr.{lies_at};
ghost use Rattle.guest_memory.specs.Bytes.{is_there};
ghost use Rattle.guest_memory.specs.Held.{held};
ghost use Rattle.guest_memory.specs.Lend.{lent_in};
ghost use Rattle.xhci_machine.specs.declared.Machine.{Machine};
ghost use Rattle.uas_xhci_c.specs.contracts.door.KeptXhci.{the_row as xhci_row};
ghost use Rattle.xhci_machine.specs.Wanted.{wanted};
ghost use Rattle.uas_xhci_c.specs.Looked.{Looked, range_told};

use crate::door::KeptXhci;
use crate::making::UasXhci;
use crate::regions::regions_fault;
use guest_memory::rings::Range;
use guest_memory::{Lent, Pieces};
use xhci_machine::Machine;

/// `length` bytes from an address on.
#[repr(C)]
#[derive(Clone, Copy)]
pub struct UasXhciRange {
    pub address: u64,
    pub length: u64,
}

/// What the next step lacks of some regions, each of `length` bytes from its address on: the first range of which a byte isn't there, or one
/// of no bytes. The number of the fault, where `wanted` is as it was, or 0: `XHCI_MANY`, `XHCI_WRAPS`, `XHCI_OVERLAP`. Neither the controller
/// nor the regions change.
#[unsafe(no_mangle)]
pub unsafe extern "C" fn uas_xhci_look(
    xhci: *mut UasXhci,
    wanted: &mut UasXhciRange,
    regions: &mut [Lent],
) -> u8
    ghost had: { Machine }
    requires* { sem 𝓛 (lies_at xhci_row full_share xhci had) }
    ensures* { ∃ₛ (λ (now : Machine). sem 𝓛 (lies_at xhci_row full_share xhci now)
        ∗ ⌜ Looked had now wanted.old wanted.new regions.old regions.new result ⌝) }
{
    look(wanted, regions, unsafe { &mut *(xhci as *mut KeptXhci) })
}

fn look(wanted: &mut UasXhciRange, regions: &mut [Lent], kept: &mut KeptXhci) -> u8
    ensures { Looked kept.old kept.new wanted.old wanted.new regions.old regions.new result }
{
    let fault = regions_fault(regions);
    if fault == 0 {
        *wanted = range_of(wants_over(&kept.machine, regions));
    }
    fault
}

/// A range as C has it: one of no bytes where there is none.
pub(crate) fn range_of(range: Option<Range>) -> UasXhciRange
    ensures { result ≡ range_told range }
{
    match range {
        Some(range) => UasXhciRange {
            address: range.at,
            length: range.count as u64,
        },
        None => UasXhciRange {
            address: 0,
            length: 0,
        },
    }
}

/// The same of regions as one memory.
fn wants_over(machine: &Machine, regions: &mut [Lent]) -> Option<Range>
    ensures wanted { result ≡ wanted (held lent_in regions.old) machine.now }
    ensures lacks { IfSome result (λ range. is_there (held lent_in regions.old) range.at range.count ≡ false) }
    ensures stands { machine.now.registers.runs ≡ false → result ≡ None }
    ensures same { regions.new ≡ regions.old }
{
    let memory = Pieces { pieces: regions };
    machine.wants(&memory)
}
