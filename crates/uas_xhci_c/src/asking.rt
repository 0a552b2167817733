//! A turn of the controller's steps over regions of memory that are lent for it, up to the first that lacks memory.
ghost use Rattle.std.specs.Prelude.{◌≡◌, ◌≤◌, false, length, IfSome, None};
ghost use Rattle.guest_memory.specs.notes.Notes.{AreNoted, notes};
ghost use types.Logic.{sem};
ghost use base.Fraction.{full_share};
ghost use denote.RawPtr.{lies_at};
ghost use Rattle.guest_memory.specs.Bytes.{is_there};
ghost use Rattle.guest_memory.specs.Held.{held};
ghost use Rattle.guest_memory.specs.Lend.{lent_in};
ghost use Rattle.xhci_machine.specs.declared.Machine.{Machine};
ghost use Rattle.xhci_machine.specs.Asking.{IsAsked};
ghost use Rattle.uas_xhci_c.specs.contracts.door.KeptXhci.{the_row as xhci_row};
ghost use Rattle.uas_xhci_c.specs.Asked.{Asked};
ghost use Rattle.uas_xhci_c.specs.Turned.{AreTold};

use crate::door::KeptXhci;
use crate::making::UasXhci;
use crate::regions::regions_fault;
use crate::turn::UasXhciTurn;
use crate::wants::{UasXhciRange, range_of};
use guest_memory::notes::{Beginning, Noted, WrittenRange};
use guest_memory::rings::Range;
use guest_memory::{GuestMemory, Lent, Pieces};
use std::marker::{Brand, PhantomData};
use xhci_machine::{Machine, Worked};

/// What a turn that asks for memory asks and answers.
#[repr(C)]
#[derive(Clone, Copy)]
pub struct UasXhciAsking {
    pub turn: UasXhciTurn,
    /// Out: what the next step lacks, or a range of no bytes.
    pub wanted: UasXhciRange,
}

/// Steps over the memory of some regions, each of `length` bytes from its address on, up to the first that lacks memory, whose range is told;
/// the number of the fault, where nothing has changed, or 0: `XHCI_MANY`, `XHCI_WRAPS`, `XHCI_OVERLAP`. `written` is room for the ranges that
/// are written. The controller is the caller's alone, and his again when it returns.
#[unsafe(no_mangle)]
pub unsafe extern "C" fn uas_xhci_take_asking(
    xhci: *mut UasXhci,
    asking: &mut UasXhciAsking,
    regions: &mut [Lent],
    written: &mut [WrittenRange],
) -> u8
    ghost had: { Machine }
    requires* { sem 𝓛 (lies_at xhci_row full_share xhci had) }
    ensures* { ∃ₛ (λ (now : Machine). sem 𝓛 (lies_at xhci_row full_share xhci now)
        ∗ ⌜ Asked had now asking.old asking.new regions.old regions.new written.old written.new result ⌝) }
{
    take_asking(
        asking,
        regions,
        written,
        unsafe { &mut *(xhci as *mut KeptXhci) },
    )
}

fn take_asking(
    asking: &mut UasXhciAsking,
    regions: &mut [Lent],
    written: &mut [WrittenRange],
    kept: &mut KeptXhci,
) -> u8
    ensures { Asked kept.old kept.new asking.old asking.new regions.old regions.new written.old written.new result }
{
    let fault = regions_fault(regions);
    if fault == 0 {
        let done = ask_over(&mut kept.machine, regions, written, asking.turn.budget);
        asking.turn.steps = done.worked.steps;
        asking.turn.more = u32::from(done.worked.more);
        asking.turn.lost = u32::from(done.lost);
        asking.turn.noted = done.noted;
        asking.wanted = range_of(done.named);
    }
    fault
}

/// What steps over regions came to.
#[derive(Clone, Copy)]
struct Done {
    worked: Worked,
    named: Option<Range>,
    noted: usize,
    lost: bool,
}

/// Steps over regions as one memory, whose writes are noted where there is any room for it.
fn ask_over(
    machine: &mut Machine,
    regions: &mut [Lent],
    written: &mut [WrittenRange],
    budget: u32,
) -> Done
    ensures asked { IsAsked budget (held lent_in regions.old, machine.old) (held lent_in regions.new, machine.new) result.worked result.named }
    ensures lacks { IfSome result.named (λ range. is_there (held lent_in regions.new) range.at range.count ≡ false) }
    ensures noted { AreTold (held lent_in regions.old) (held lent_in regions.new) (length written.old) written.new result.noted result.lost }
    ensures budget { result.worked.steps ≤ budget }
    ensures within { result.noted ≤ length written.old }
    ensures stands { machine.old.registers.runs ≡ false
        → (machine.new ≡ machine.old) × (held lent_in regions.new ≡ held lent_in regions.old) × (result.named ≡ None) }
{
    if written.is_empty() {
        let (worked, named) = ask_plainly(machine, regions, budget);
        return Done {
            worked,
            named,
            noted: 0,
            lost: true,
        };
    }
    let mut memory = Pieces { pieces: regions };
    ask_noting::<Brand, _>(machine, &mut memory, written, budget)
}

fn ask_plainly(machine: &mut Machine, regions: &mut [Lent], budget: u32) -> (Worked, Option<Range>)
    ensures asked { IsAsked budget (held lent_in regions.old, machine.old) (held lent_in regions.new, machine.new) result.0 result.1 }
    ensures lacks { IfSome result.1 (λ range. is_there (held lent_in regions.new) range.at range.count ≡ false) }
    ensures budget { result.0.steps ≤ budget }
    ensures stands { machine.old.registers.runs ≡ false
        → (machine.new ≡ machine.old) × (held lent_in regions.new ≡ held lent_in regions.old) × (result.1 ≡ None) }
{
    let mut memory = Pieces { pieces: regions };
    machine.work_asking(&mut memory, budget)
}

/// Steps over a memory whose writes are noted.
#[tactic(auto, using(guest_memory::specs::notes::Laws::same_first, guest_memory::specs::notes::Laws::same_second))]
fn ask_noting<B: Beginning, M: GuestMemory>(
    machine: &mut Machine,
    memory: &mut M,
    written: &mut [WrittenRange],
    budget: u32,
) -> Done
    requires { M.contents memory.old ≡ B.memory }
    ensures asked { IsAsked budget (M.contents memory.old, machine.old) (M.contents memory.new, machine.new) result.worked result.named }
    ensures lacks { IfSome result.named (λ range. is_there (M.contents memory.new) range.at range.count ≡ false) }
    ensures noted { AreNoted (M.contents memory.old) (M.contents memory.new) (length written.old) (notes written.new result.noted result.lost) }
    ensures same_loan { M.loan memory.new ≡ M.loan memory.old }
    ensures budget { result.worked.steps ≤ budget }
    ensures within { result.noted ≤ length written.old }
    ensures stands { machine.old.registers.runs ≡ false
        → (machine.new ≡ machine.old) × (M.contents memory.new ≡ M.contents memory.old) × (result.named ≡ None) }
{
    let mut noting: Noted<'_, '_, M, B> = Noted {
        memory,
        ranges: written,
        used: 0,
        lost: false,
        of: PhantomData,
    };
    let (worked, named) = machine.work_asking(&mut noting, budget);
    Done {
        worked,
        named,
        noted: noting.used,
        lost: noting.lost,
    }
}
