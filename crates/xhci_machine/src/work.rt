//! The steps, in turns.
ghost use Rattle.std.specs.Prelude.{◌≡◌, ◌≤◌, ◌-◌, is_ok, false};
ghost use Rattle.xhci_machine.specs.Worked.{IsWorked, RoundsWorked, nothing_worked, round_turned, with_failure};

use crate::Machine;
use crate::interrupts::RingFault;
use crate::ring::CommandRing;
use crate::turns::Turn;
use guest_memory::rings::EventRing;
use guest_memory::{GuestMemory, Outside};

/// How many steps a call took, and whether there may be more to do at once.
#[derive(Clone, Copy, Debug, PartialEq, Eq)]
pub struct Worked {
    pub steps: u32,
    pub more: bool,
}

impl Machine {
    /// Takes at most `budget` steps, each of one TRB or one chunk, in turns: port, command ring, endpoint 0, command pipe, then each active
    /// tag, data before status. None while R/S is 0, or while there is no event ring.
    pub fn work<M: GuestMemory>(&mut self, memory: &mut M, budget: u32) -> Worked
        // What it takes are rounds of turns, each of which is an equation.
        ensures worked { IsWorked budget (M.contents memory.old) self.old (M.contents memory.new) self.new result }
        ensures same_loan { M.loan memory.new ≡ M.loan memory.old }
        ensures budget { result.steps ≤ budget }
        ensures stands { self.old.registers.runs ≡ false → (self.new ≡ self.old) × (M.contents memory.new ≡ M.contents memory.old) }
    {
        if !self.registers.runs {
            return none();
        }
        match self.interrupts.take(memory, &mut self.registers) {
            Err(RingFault::Outside | RingFault::NoSegment) => {
                self.fail();
                none()
            }
            Ok(None) => none(),
            Ok(Some(mut events)) => {
                let worked = self.rounds(memory, &mut events, budget);
                self.interrupts.keep(events);
                worked
            }
        }
    }

    /// Rounds until the budget is used up, one takes no step, or memory isn't there.
    fn rounds<M: GuestMemory>(
        &mut self,
        memory: &mut M,
        events: &mut EventRing,
        budget: u32,
    ) -> Worked
        ensures worked { RoundsWorked budget (record { memory = M.contents memory.old; events = events.old; machine = self.old })
            (record { memory = M.contents memory.new; events = events.new; machine = self.new }) result }
        ensures same_loan { M.loan memory.new ≡ M.loan memory.old }
        ensures budget { result.steps ≤ budget }
    {
        let mut turn = Turn { left: budget };
        while turn.left > 0 {
            let before = turn.left;
            match self.round(memory, events, &mut turn) {
                Err(Outside) => {
                    self.fail();
                    return taken_of(budget, before, false);
                }
                Ok(()) => {
                    if turn.left >= before {
                        return taken_of(budget, before, false);
                    }
                }
            }
        }
        taken_of(budget, 0, true)
    }

    /// A host system error: the controller halts, and drops what is owed of the command ring (4.24).
    fn fail(&mut self)
        ensures { self.new ≡ with_failure self.old }
    {
        self.registers.fail();
        self.commands = CommandRing::idle();
    }

    /// A round of steps.
    fn round<M: GuestMemory>(
        &mut self,
        memory: &mut M,
        events: &mut EventRing,
        turn: &mut Turn,
    ) -> Result<(), Outside>
        ensures turned { ((record { memory = M.contents memory.new; events = events.new; machine = self.new }, turn.new.left), is_ok result)
            ≡ round_turned (record { memory = M.contents memory.old; events = events.old; machine = self.old }, turn.old.left) }
        ensures same_loan { M.loan memory.new ≡ M.loan memory.old }
    {
        self.turn_front(memory, events, turn)?;
        self.turn_tags(memory, events, turn)
    }
}

fn none() -> Worked
    ensures { result ≡ nothing_worked }
{
    Worked {
        steps: 0,
        more: false,
    }
}

fn taken_of(budget: u32, left: u32, more: bool) -> Worked
    ensures { result ≡ record { steps = budget - left; more = more } }
{
    Worked {
        steps: budget.saturating_sub(left),
        more,
    }
}
