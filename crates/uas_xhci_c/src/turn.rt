//! A turn of the controller's steps over regions of memory that are lent for it.
ghost use Rattle.std.specs.Prelude.{◌≡◌, ◌≤◌, false, length};
ghost use Rattle.guest_memory.specs.notes.Notes.{AreNoted, notes};
ghost use types.Logic.{sem};
ghost use base.Fraction.{full_share};
ghost use denote.RawPtr.{lies_at};
ghost use Rattle.guest_memory.specs.Held.{held};
ghost use Rattle.guest_memory.specs.Lend.{lent_in};
ghost use Rattle.xhci_machine.specs.declared.Machine.{Machine};
ghost use Rattle.xhci_machine.specs.Worked.{IsWorked};
ghost use Rattle.uas_xhci_c.specs.contracts.door.KeptXhci.{the_row as xhci_row};
ghost use Rattle.uas_xhci_c.specs.Turned.{AreTold, Turned};

use crate::door::KeptXhci;
use crate::making::UasXhci;
use crate::regions::regions_fault;
use guest_memory::notes::{Beginning, Noted, WrittenRange};
use guest_memory::{GuestMemory, Lent, Pieces};
use std::marker::{Brand, PhantomData};
use xhci_machine::{Machine, Worked};

/// What a turn asks and answers.
#[repr(C)]
#[derive(Clone, Copy)]
pub struct UasXhciTurn {
    /// In: the most steps.
    pub budget: u32,
    /// Out: how many steps were taken.
    pub steps: u32,
    /// Out: 1 where there may be more to do at once, else 0.
    pub more: u32,
    /// Out: 1 where not every range that was written is noted, else 0.
    pub lost: u32,
    /// Out: how many ranges are noted.
    pub noted: usize,
}

/// Steps over the memory of some regions, each of `length` bytes from its address on; the number of the fault, where nothing has changed, or
/// 0: `XHCI_MANY`, `XHCI_WRAPS`, `XHCI_OVERLAP`. `written` is room for the ranges that are written. The controller is the caller's alone, and
/// his again when it returns.
#[unsafe(no_mangle)]
pub unsafe extern "C" fn uas_xhci_take_turn(
    xhci: *mut UasXhci,
    turn: &mut UasXhciTurn,
    regions: &mut [Lent],
    written: &mut [WrittenRange],
) -> u8
    ghost had: { Machine }
    requires* { sem 𝓛 (lies_at xhci_row full_share xhci had) }
    ensures* { ∃ₛ (λ (now : Machine). sem 𝓛 (lies_at xhci_row full_share xhci now)
        ∗ ⌜ Turned had now turn.old turn.new regions.old regions.new written.old written.new result ⌝) }
{
    take_turn(
        turn,
        regions,
        written,
        unsafe { &mut *(xhci as *mut KeptXhci) },
    )
}

fn take_turn(
    turn: &mut UasXhciTurn,
    regions: &mut [Lent],
    written: &mut [WrittenRange],
    kept: &mut KeptXhci,
) -> u8
    ensures { Turned kept.old kept.new turn.old turn.new regions.old regions.new written.old written.new result }
{
    let fault = regions_fault(regions);
    if fault == 0 {
        let done = work_over(&mut kept.machine, regions, written, turn.budget);
        turn.steps = done.worked.steps;
        turn.more = u32::from(done.worked.more);
        turn.lost = u32::from(done.lost);
        turn.noted = done.noted;
    }
    fault
}

/// What steps over regions came to.
#[derive(Clone, Copy)]
struct Done {
    worked: Worked,
    noted: usize,
    lost: bool,
}

/// Steps over regions as one memory, whose writes are noted where there is any room for it.
fn work_over(
    machine: &mut Machine,
    regions: &mut [Lent],
    written: &mut [WrittenRange],
    budget: u32,
) -> Done
    ensures worked { IsWorked budget (held lent_in regions.old) machine.old (held lent_in regions.new) machine.new result.worked }
    ensures noted { AreTold (held lent_in regions.old) (held lent_in regions.new) (length written.old) written.new result.noted result.lost }
    ensures budget { result.worked.steps ≤ budget }
    ensures within { result.noted ≤ length written.old }
    ensures stands { machine.old.registers.runs ≡ false
        → (machine.new ≡ machine.old) × (held lent_in regions.new ≡ held lent_in regions.old) }
{
    if written.is_empty() {
        let worked = work_plainly(machine, regions, budget);
        return Done {
            worked,
            noted: 0,
            lost: true,
        };
    }
    let mut memory = Pieces { pieces: regions };
    work_noting::<Brand, _>(machine, &mut memory, written, budget)
}

fn work_plainly(machine: &mut Machine, regions: &mut [Lent], budget: u32) -> Worked
    ensures worked { IsWorked budget (held lent_in regions.old) machine.old (held lent_in regions.new) machine.new result }
    ensures budget { result.steps ≤ budget }
    ensures stands { machine.old.registers.runs ≡ false
        → (machine.new ≡ machine.old) × (held lent_in regions.new ≡ held lent_in regions.old) }
{
    let mut memory = Pieces { pieces: regions };
    machine.work(&mut memory, budget)
}

/// Steps over a memory whose writes are noted.
#[tactic(auto, using(guest_memory::specs::notes::Laws::same_first, guest_memory::specs::notes::Laws::same_second))]
fn work_noting<B: Beginning, M: GuestMemory>(
    machine: &mut Machine,
    memory: &mut M,
    written: &mut [WrittenRange],
    budget: u32,
) -> Done
    requires { M.contents memory.old ≡ B.memory }
    ensures worked { IsWorked budget (M.contents memory.old) machine.old (M.contents memory.new) machine.new result.worked }
    ensures noted { AreNoted (M.contents memory.old) (M.contents memory.new) (length written.old) (notes written.new result.noted result.lost) }
    ensures same_loan { M.loan memory.new ≡ M.loan memory.old }
    ensures budget { result.worked.steps ≤ budget }
    ensures within { result.noted ≤ length written.old }
    ensures stands { machine.old.registers.runs ≡ false → (machine.new ≡ machine.old) × (M.contents memory.new ≡ M.contents memory.old) }
{
    let mut noting: Noted<'_, '_, M, B> = Noted {
        memory,
        ranges: written,
        used: 0,
        lost: false,
        of: PhantomData,
    };
    let worked = machine.work(&mut noting, budget);
    Done {
        worked,
        noted: noting.used,
        lost: noting.lost,
    }
}
