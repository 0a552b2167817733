//! The bus as the shared machine: each call is the one of the bus with its rings in sight.
ghost use Rattle.std.specs.Prelude.{◌≡◌, ℕ, suc, ◌+◌, ◌*◌, ◌<◌, ◌≤◌, IfSome, IfNone, length, IfOk, slice_get, vec_len};
ghost use Rattle.uas_profile.specs.declared.TheConstants.{TAGS, MAX_CLIENTS, STREAMS, USUAL_CLIENTS};
ghost use Rattle.uas_profile.specs.Tags.{AreTags};
ghost use Rattle.frame_store.specs.Buffers.{IsWhole};
ghost use Rattle.shared_machine.specs.Bus.{HasTicket};
ghost use Rattle.shared_machine.specs.Drain.{AreNotLeftOver, AreQuiet, drained};
ghost use Rattle.shared_machine.specs.Laws.{next_len};
ghost use Rattle.shared_machine.specs.Shared.{due, greatest_tag, opening, shared_step};
ghost use Rattle.isolation.specs.Refusals.{IsRefusedAsOwn};
ghost use Rattle.isolation.specs.StepIsolation.{IsIsolatedStep};
ghost use Rattle.machine_invariant.specs.Reach.{EndsAsNoted, KeepsOthers};
ghost use Rattle.bus_core.specs.Busy.{IsNextBusy};
ghost use Rattle.bus_core.specs.OwnEvents.{TakesOfOneTag};
ghost use Rattle.bus_core.specs.Shows.{AreNeverFull, PointAhead, ShowsFrames, ShowsShared};

use crate::{Bus, Outcome, RingBus, Step};
use block_unit::Unit;
use frame_store::Frames;
use std::alloc::{AllocError, Global};
use stream_array::{Lines, Pipe};
use uas_profile::TAGS;

impl Bus {
    /// The bus of these units, the unit of client c at place c: 1 to 15 (`USUAL_CLIENTS`) of them, with `TAGS` tags of each client.
    /// `AllocError` where there is no memory for its tables; no step takes any.
    pub fn new(alloc: Global, units: Vec<Unit>) -> Result<Bus, AllocError>
        requires some { 1 ≤ vec_len units }
        requires most { vec_len units ≤ USUAL_CLIENTS }
        ensures { IfOk result (λ bus. bus ≡ opening TAGS units.items) }
    {
        Bus::with_tags(alloc, units, TAGS)
    }

    /// The same of 1 to 31 (`MAX_CLIENTS`) units with another number of tags of each client, 2 to 16, the last of them for task
    /// management; of all clients there are 248 (`STREAMS`) at most.
    pub fn with_tags(alloc: Global, units: Vec<Unit>, tags: usize) -> Result<Bus, AllocError>
        requires number { AreTags tags }
        requires some { 1 ≤ vec_len units }
        requires most { vec_len units ≤ MAX_CLIENTS }
        requires streams { vec_len units * tags ≤ STREAMS }
        ensures { IfOk result (λ bus. bus ≡ opening tags units.items) }
    {
        let rings = RingBus::with_tags(alloc, units, tags)?;
        Ok(Bus { rings })
    }

    /// How many clients it has.
    #[inline(always)]
    pub fn clients(&self) -> usize
        ensures count { result ≡ length self.now.parts }
        ensures some { 1 ≤ length self.now.parts }
        ensures most { length self.now.parts ≤ MAX_CLIENTS }
        ensures streams { length self.now.parts * self.now.tags ≤ STREAMS }
    {
        self.rings.clients()
    }

    /// How many tags each client has, which never changes.
    #[inline(always)]
    pub fn tags(&self) -> usize
        ensures tags { result ≡ self.now.tags }
        ensures number { AreTags result }
    {
        self.rings.tags()
    }

    /// The unit of a client of the bus.
    #[inline(always)]
    pub fn unit(&self, client: usize) -> &Unit
        requires { client < length self.now.parts }
        ensures { IfSome (slice_get self.now.parts client) (λ part. result.now ≡ part.unit) }
    {
        self.rings.unit(client)
    }

    /// The rings between host and controller.
    #[inline(always)]
    pub fn lines(&self) -> &Lines
        // They show what waits: the command pipe's ring each message, the event ring each event, each stream's ring what
        // is left of its TD.
        ensures shows { ShowsShared self.now result.now }
        // The context of each stream points at the TRB that the controller takes next.
        ensures contexts { PointAhead result.now }
        // No ring is ever full.
        ensures room { AreNeverFull result.now }
    {
        self.rings.lines()
    }

    /// The buffers that the host writes and lends: each tag's command and status buffer, and the clients' vectors while they are out.
    #[inline(always)]
    pub fn frames(&self) -> &Frames
        ensures whole { IsWhole result.now }
        // They show what stands at each place: its unit, its answer once it was sent, and its vector.
        ensures shows { ShowsFrames self.now result.now }
    {
        self.rings.frames()
    }

    /// Whether a step would act.
    #[inline(always)]
    pub fn due(&self, step: &Step) -> bool
        ensures { result ≡ due self.now step.now }
    {
        self.rings.due(step)
    }

    /// The least busy tag above this one: the device has a task of it. `None` where no tag above is busy. No other tag's streams
    /// are due.
    #[inline(always)]
    pub fn next_busy(&self, tag: u16) -> Option<u16>
        ensures busy { IsNextBusy self.now tag result }
        ensures next { IfSome result (λ next. (tag < next) × (next ≤ greatest_tag self.now) × AreQuiet self.now tag next) }
        ensures none { IfNone result (AreQuiet self.now tag (suc (greatest_tag self.now))) }
    {
        self.rings.next_busy(tag)
    }

    /// The least tag above this one whose TD on a pipe is left over. None is due while a retirement is under way.
    #[inline(always)]
    pub fn next_left_over(&self, pipe: Pipe, tag: u16) -> Option<u16>
        ensures next { IfSome result (λ next. (tag < next) × (next ≤ greatest_tag self.now) × AreNotLeftOver self.now pipe tag next) }
        ensures none { IfNone result (AreNotLeftOver self.now pipe tag (suc (greatest_tag self.now))) }
    {
        self.rings.next_left_over(pipe, tag)
    }

    /// How many bytes the reply brings that Take of a client would give now: 0 where no reply is ready, and where a task
    /// management's is next.
    #[inline(always)]
    pub fn next_len(&self, client: usize) -> usize
        ensures { result ≡ next_len self.now client }
    {
        self.rings.next_len(client)
    }

    /// One step: what came of it. It acts exactly where it is due; it takes no memory.
    ///
    /// Which TRB each event that waits names, [`Bus::lines`] shows. Two lists of steps in which a client does alike answer it alike,
    /// whatever the other clients do: see [`worlds_agree`](crate::worlds_agree), and from new units the second half of
    /// [`replays_as_solo`](crate::replays_as_solo).
    #[tactic(auto, using(isolation::proofs::StepIsolation::step_isolated))]
    #[inline(always)]
    pub fn step(&mut self, step: Step) -> Outcome
        requires { HasTicket step }
        // The bus and the outcome are the shared machine's.
        ensures shared { (self.new, result) ≡ shared_step self.old step }
        // To each client the step is its own machine's, or nothing at all.
        ensures isolated { (client : ℕ) → IsIsolatedStep self.old step result self.new client }
        // The event that a step takes is of one tag, whose client the step is, and no other that waits is of that tag's TD.
        ensures events { TakesOfOneTag self.old step result }
        // Every client but its owner keeps its whole part: unit, entries with all TDs, least ticket and ready replies.
        ensures others { KeepsOthers self.old result self.new }
        // A command is gone after it only where a task management of its own client that noted its ticket was received.
        ensures noted { EndsAsNoted self.old step self.new }
        // A submission is refused as its client's own state has it, and nothing but a submission is refused.
        ensures refusals { IsRefusedAsOwn self.old step result }
    {
        self.rings.step(step)
    }

    /// Takes rounds of the steps that need no client, in a fixed order, until none acts or `limit` acted: how many
    /// acted, and whether it ended because none is due. It takes no replies.
    #[inline(always)]
    pub fn drain(&mut self, limit: usize) -> (usize, bool)
        ensures state { self.new ≡ (drained self.old limit).state }
        ensures acted { result.0 + (drained self.old limit).left ≡ limit }
        ensures quiet { result.1 ≡ (drained self.old limit).quiet }
    {
        self.rings.drain(limit)
    }
}
