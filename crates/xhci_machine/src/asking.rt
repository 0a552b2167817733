//! Steps up to the first that lacks memory, for a caller who lends what is asked for.
ghost use Rattle.std.specs.Prelude.{◌≡◌, ◌≤◌, ℕ, None, IfSome, false};
ghost use Rattle.guest_memory.specs.Bytes.{Memory, is_there};
ghost use Rattle.xhci_machine.specs.declared.Machine.{Machine};
ghost use Rattle.xhci_machine.specs.declared.work.Worked.{Worked};
ghost use Rattle.xhci_machine.specs.Asking.{IsAsked, TookOne};
ghost use Rattle.xhci_machine.specs.Worked.{IsWorked};

use crate::Machine;
use crate::work::Worked;
use guest_memory::GuestMemory;
use guest_memory::rings::Range;

impl Machine {
    /// Takes at most `budget` steps as [`Machine::work`] does with a budget of 1 each, and ends in front of the first that may lack memory: then it
    /// names the range that [`Machine::wants`] does, and there is more to do once that is lent. What the guest has no memory for either goes by
    /// [`Machine::work`] with a budget of 1.
    pub fn work_asking<M: GuestMemory>(
        &mut self,
        memory: &mut M,
        budget: u32,
    ) -> (Worked, Option<Range>)
        ensures asked { IsAsked budget (M.contents memory.old, self.old) (M.contents memory.new, self.new) result.0 result.1 }
        ensures lacks { IfSome result.1 (λ range. is_there (M.contents memory.new) range.at range.count ≡ false) }
        ensures same_loan { M.loan memory.new ≡ M.loan memory.old }
        ensures budget { result.0.steps ≤ budget }
        ensures stands { self.old.registers.runs ≡ false → (self.new ≡ self.old) × (M.contents memory.new ≡ M.contents memory.old) × (result.1 ≡ None) }
    {
        let mut taken = 0;
        while taken < budget {
            if let Some(range) = self.wants(memory) {
                return (taken_of(taken, true), Some(range));
            }
            if !self.work(memory, 1).more {
                return (taken_of(taken, false), None);
            }
            taken += 1;
        }
        (taken_of(taken, true), None)
    }
}

/// Law: a call of [`Machine::work`] with a budget of 1 takes a step exactly where it says that there may be more to do.
pub fn one_step_at_most()
    ensures { (memory after : Memory) (m now : Machine) (worked : Worked) → IsWorked 1 memory m after now worked → TookOne worked }
{}

fn taken_of(steps: u32, more: bool) -> Worked
    ensures { result ≡ record { steps = steps; more = more } }
{
    Worked { steps, more }
}
