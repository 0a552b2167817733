ghost use Rattle.std.specs.Prelude.{◌≡◌, ℕ, ◌+◌, ◌≤◌, IfOk, length, map, vec_len, vec_capacity, OnErr};
ghost use Rattle.shared_machine.specs.Bus.{AllTicketed, HasTicket};
ghost use Rattle.shared_machine.specs.Drain.{all_tags, drained, retirements, round, tried, tried_one};
ghost use Rattle.shared_machine.specs.declared.Step.TheVariants as Step;
ghost use Rattle.isolation.specs.Isolation.{IsIsolated};
ghost use Rattle.shared_machine.specs.Replay.{replayed};
ghost use Rattle.shared_machine.specs.Shared.{greatest_tag, shared_step};
ghost use Rattle.bus_core.specs.Decoded.{decoded};

use crate::{Bus, Doorbells, Outcome, RingBus, Step, Trace};
use std::alloc::{AllocError, Global};
use stream_array::Pipe;
use xhci_ctl::Acted;

impl Bus {
    /// Takes every step, in order: the outcome of each. The room for the outcomes is made first: at `AllocError` no step
    /// was taken. Two runs in which a client does alike answer it alike: see [`worlds_agree`](crate::worlds_agree).
    #[tactic(auto, using(isolation::proofs::WholeRuns::run_isolated))]
    pub fn run(&mut self, alloc: Global, steps: Vec<Step>) -> Result<Trace, AllocError>
        requires { AllTicketed steps.items }
        // The bus and the outcomes are the shared machine's.
        ensures replay { IfOk result (λ trace. (self.new, trace) ≡ replayed self.old steps.items) }
        // The headline: each client's replies and unit are those of a disk that it had alone.
        ensures isolated { IfOk result (λ trace. (client : ℕ) → IsIsolated self.old steps.items trace self.new client) }
        ensures err { OnErr result (self.new ≡ self.old) }
    {
        let mut outcomes = Vec::with_capacity(alloc, steps.len())?;
        self.take_steps(steps, &mut outcomes);
        Ok(Trace { outcomes })
    }

    fn take_steps(&mut self, steps: Vec<Step>, outcomes: &mut Vec<Outcome>)
        requires ticketed { AllTicketed steps.items }
        requires empty { vec_len outcomes.old ≡ 0 }
        requires room { vec_len steps ≤ vec_capacity outcomes.old }
        ensures { (self.new, outcomes.new.items) ≡ replayed self.old steps.items }
    {
        let mut rest = steps.into_iter();
        while let Some(step) = rest.next() {
            let outcome = self.step(step);
            outcomes.push_reserved(outcome);
        }
    }
}

impl RingBus {
    /// Takes rounds of the steps that need no client, in a fixed order, until none acts or `limit` acted: how many
    /// acted, and whether it ended because none is due. It takes no replies.
    #[tactic(auto, unfolding(shared_machine::specs::Drain::rounds))]
    pub fn drain(&mut self, limit: usize) -> (usize, bool)
        ensures state { decoded self.new ≡ (drained (decoded self.old) limit).state }
        ensures acted { result.0 + (drained (decoded self.old) limit).left ≡ limit }
        ensures quiet { result.1 ≡ (drained (decoded self.old) limit).quiet }
    {
        let mut left = limit;
        let mut more = limit;
        loop {
            let after = self.round(left);
            if after == 0 {
                return (limit, false);
            }
            if after == left {
                return (limit - left, true);
            }
            if more == 0 {
                return (limit - after, false);
            }
            more -= 1;
            left = after;
        }
    }

    /// One round of tries, of which so many may act: how many more may act after it. Of the streams it tries those of tags
    /// with a task alone, as no other is due.
    fn round(&mut self, left: usize) -> usize
        ensures round { (decoded self.new, result) ≡ round (decoded self.old, left) }
        ensures less { result ≤ left }
    {
        let left = self.try_command(left);
        let left = self.try_engine(left);
        let left = self.try_event(left);
        let left = self.try_data(left);
        let left = self.try_statuses(left);
        let left = self.try_retirements(Pipe::Status, left);
        let left = self.try_retirements(Pipe::DataIn, left);
        self.try_retirements(Pipe::DataOut, left)
    }

    fn try_command(&mut self, left: usize) -> usize
        ensures { (decoded self.new, result) ≡ tried_one (decoded self.old, left) Step.CommandPipe }
    {
        if left == 0 || !self.command_is_due() {
            return left;
        }
        match self.carry() {
            Acted::Acted(_) => left - 1,
            Acted::Idle => left,
        }
    }

    fn try_engine(&mut self, left: usize) -> usize
        ensures { (decoded self.new, result) ≡ tried_one (decoded self.old, left) Step.Engine }
    {
        if left == 0 || !self.engine_is_due() {
            return left;
        }
        self.take_engine_step();
        left - 1
    }

    /// A step of the controller's own command ring, whose outcome nobody asks for: it has no room where none is due.
    #[inline(never)]
    fn take_engine_step(&mut self)
        ensures { decoded self.new ≡ (shared_step (decoded self.old) Step.Engine).0 }
    {
        let _ = self.execute();
    }

    fn try_event(&mut self, left: usize) -> usize
        ensures { (decoded self.new, result) ≡ tried_one (decoded self.old, left) Step.Event }
    {
        if left == 0 || !self.event_is_due() {
            return left;
        }
        let _ = self.see(&mut Doorbells::none());
        left - 1
    }

    /// The data streams of all tags, rising.
    fn try_data(&mut self, left: usize) -> usize
        ensures { (decoded self.new, result) ≡ tried (decoded self.old, left) (map Step.Data (all_tags (greatest_tag (decoded self.old)))) }
    {
        let mut left = left;
        let mut tag = 0;
        while let Some(next) = self.next_busy(tag) {
            left = self.try_data_of(next, left);
            tag = next;
        }
        left
    }

    fn try_data_of(&mut self, tag: u16, left: usize) -> usize
        ensures { (decoded self.new, result) ≡ tried_one (decoded self.old, left) (Step.Data tag) }
    {
        if left == 0 {
            return 0;
        }
        match self.move_chunk(tag) {
            Acted::Acted(_) => left - 1,
            Acted::Idle => left,
        }
    }

    /// The status streams of all tags, rising.
    fn try_statuses(&mut self, left: usize) -> usize
        ensures { (decoded self.new, result) ≡ tried (decoded self.old, left) (map Step.Status (all_tags (greatest_tag (decoded self.old)))) }
    {
        let mut left = left;
        let mut tag = 0;
        while let Some(next) = self.next_busy(tag) {
            left = self.try_status_of(next, left);
            tag = next;
        }
        left
    }

    fn try_status_of(&mut self, tag: u16, left: usize) -> usize
        ensures { (decoded self.new, result) ≡ tried_one (decoded self.old, left) (Step.Status tag) }
    {
        if left == 0 {
            return 0;
        }
        match self.send(tag) {
            Acted::Acted(_) => left - 1,
            Acted::Idle => left,
        }
    }

    /// The retirements on a pipe, by rising tag.
    #[inline(always)]
    fn try_retirements(&mut self, pipe: Pipe, left: usize) -> usize
        ensures { (decoded self.new, result) ≡ tried (decoded self.old, left) (retirements (greatest_tag (decoded self.old)) pipe) }
    {
        let Some(_) = self.next_left_over(pipe, 0) else {
            return left;
        };
        self.try_left_over(pipe, left)
    }

    /// The same, of the tags whose TD is left over.
    #[inline(never)]
    fn try_left_over(&mut self, pipe: Pipe, left: usize) -> usize
        ensures { (decoded self.new, result) ≡ tried (decoded self.old, left) (retirements (greatest_tag (decoded self.old)) pipe) }
    {
        let mut left = left;
        let mut tag = 0;
        while let Some(next) = self.next_left_over(pipe, tag) {
            left = self.try_retirement_of(pipe, next, left);
            tag = next;
        }
        left
    }

    fn try_retirement_of(&mut self, pipe: Pipe, tag: u16, left: usize) -> usize
        ensures { (decoded self.new, result) ≡ tried_one (decoded self.old, left) (Step.Retire pipe tag) }
    {
        if left == 0 || !self.retire_is_due(pipe, tag) {
            return left;
        }
        let _ = self.retire(pipe, tag);
        left - 1
    }
}

impl Trace {
    /// The outcomes themselves, in order, so that each reply's buffer can be taken out.
    pub fn into_vec(self) -> Vec<Outcome>
        ensures { result.items ≡ self }
    {
        let Trace { outcomes } = self;
        outcomes
    }

    /// The outcomes, in order.
    pub fn outcomes(&self) -> &[Outcome]
        ensures { result.now ≡ self.now }
    {
        self.outcomes.as_slice()
    }

    /// The trace of these outcomes.
    pub fn from_vec(outcomes: Vec<Outcome>) -> Trace
        ensures { result ≡ outcomes.items }
    {
        Trace { outcomes }
    }
}
