//! The bus with its rings in sight: what stands in it, where a step is due, and a step by its kind.
ghost use Rattle.std.specs.Prelude.{◌≡◌, suc, true, false, ◌*◌, ◌<◌, ◌≤◌, IfSome, IfNone, length, IfOk, slice_get, vec_len};
ghost use Rattle.uas_profile.specs.declared.TheConstants.{TAGS, MAX_CLIENTS, STREAMS, USUAL_CLIENTS};
ghost use Rattle.uas_profile.specs.Tags.{AreTags};
ghost use Rattle.stream_array.specs.Rings.{IsOpeningLines};
ghost use Rattle.frame_store.specs.Buffers.{IsWhole};
ghost use Rattle.shared_machine.specs.Bus.{HasTicket};
ghost use Rattle.shared_machine.specs.Drain.{AreNotLeftOver, AreQuiet};
ghost use Rattle.shared_machine.specs.Shared.{due, greatest_tag, opening, shared_step};
ghost use Rattle.bus_core.specs.Busy.{IsNextBusy};
ghost use Rattle.bus_core.specs.Decoded.{decoded};
ghost use Rattle.bus_core.specs.OwnEvents.{TakesOfOneTag};
ghost use Rattle.bus_core.specs.Shows.{AreNeverFull, PointAhead, ShowsFrames, ShowsShared};
ghost use Rattle.bus_core.specs.WholeStep.{world_after};
ghost use Rattle.bus_core.specs.WorldSteps.{opening_world};

use crate::steps::stand;
use crate::{Doorbells, Outcome, RingBus, Step, outcomes};
use arrayvec::ArrayVec;
use block_unit::Unit;
use frame_store::Frames;
use std::alloc::{AllocError, Global};
use stream_array::{Lines, Pipe};
use uas_host::Host;
use uas_iu::lun_bytes;
use uas_profile::{EVENT_RING_PLACES, STREAMS, TAGS};
use uas_target::{Phase, Target};
use xhci_ctl::Controller;

impl RingBus {
    /// The bus of these units, the unit of client c at place c: 1 to 15 (`USUAL_CLIENTS`) of them, with `TAGS` tags of each client.
    /// `AllocError` where there is no memory for its tables; no step takes any.
    pub fn new(alloc: Global, units: Vec<Unit>) -> Result<RingBus, AllocError>
        requires some { 1 ≤ vec_len units }
        requires most { vec_len units ≤ USUAL_CLIENTS }
        ensures opening { IfOk result (λ bus. decoded bus ≡ opening TAGS units.items) }
        ensures lines { IfOk result (λ bus. IsOpeningLines bus.lines) }
        ensures world { IfOk result (λ bus. bus ≡ opening_world TAGS units.items (length units.items) bus.lines) }
    {
        RingBus::with_tags(alloc, units, TAGS)
    }

    /// The same of 1 to 31 (`MAX_CLIENTS`) units with another number of tags of each client, 2 to 16, the last of them for task
    /// management; of all clients there are 248 (`STREAMS`) at most.
    pub fn with_tags(alloc: Global, units: Vec<Unit>, tags: usize) -> Result<RingBus, AllocError>
        requires number { AreTags tags }
        requires some { 1 ≤ vec_len units }
        requires most { vec_len units ≤ MAX_CLIENTS }
        requires streams { vec_len units * tags ≤ STREAMS }
        ensures opening { IfOk result (λ bus. decoded bus ≡ opening tags units.items) }
        // The rings are empty, and nothing else was made.
        ensures lines { IfOk result (λ bus. IsOpeningLines bus.lines) }
        ensures world { IfOk result (λ bus. bus ≡ opening_world tags units.items (length units.items) bus.lines) }
    {
        let host = Host::with_tags(alloc, units.len(), tags)?;
        let target = Target::with_tags(alloc, units, STREAMS)?;
        let lines = Lines::new(alloc)?;
        let frames = Frames::new(alloc)?;
        stand(&host, &lines, &frames);
        Ok(RingBus {
            host,
            controller: Controller::new(),
            target,
            lines,
            frames,
            doors: ArrayVec::new(),
        })
    }

    /// How many clients it has.
    pub fn clients(&self) -> usize
        ensures count { result ≡ length (decoded self.now).parts }
        ensures some { 1 ≤ length (decoded self.now).parts }
        ensures most { length (decoded self.now).parts ≤ MAX_CLIENTS }
        ensures streams { length (decoded self.now).parts * (decoded self.now).tags ≤ STREAMS }
    {
        self.host.clients()
    }

    /// How many tags each client has, which never changes.
    pub fn tags(&self) -> usize
        ensures tags { result ≡ (decoded self.now).tags }
        ensures number { AreTags result }
    {
        self.host.tags()
    }

    /// The unit of a client of the bus.
    pub fn unit(&self, client: usize) -> &Unit
        requires { client < length (decoded self.now).parts }
        ensures { IfSome (slice_get (decoded self.now).parts client) (λ part. result.now ≡ part.unit) }
    {
        self.target.unit(&lun_bytes(client as u8)).unwrap()
    }

    /// The rings between host and controller.
    pub fn lines(&self) -> &Lines
        ensures lines { result.now ≡ self.now.lines }
        // They show what waits: the command pipe's ring each message, the event ring each event, each stream's ring what
        // is left of its TD.
        ensures shows { ShowsShared (decoded self.now) result.now }
        // The context of each stream points at the TRB that the controller takes next.
        ensures contexts { PointAhead result.now }
        // No ring is ever full.
        ensures room { AreNeverFull result.now }
    {
        &self.lines
    }

    /// The buffers that the host writes and lends: each tag's command and status buffer, and the clients' vectors while they are out.
    pub fn frames(&self) -> &Frames
        ensures frames { result.now ≡ self.now.frames }
        ensures whole { IsWhole result.now }
        // They show what stands at each place: its unit, its answer once it was sent, and its vector.
        ensures shows { ShowsFrames (decoded self.now) result.now }
    {
        stand(&self.host, &self.lines, &self.frames);
        &self.frames
    }

    /// Whether a step would act.
    pub fn due(&self, step: &Step) -> bool
        ensures { result ≡ due (decoded self.now) step.now }
    {
        match step {
            Step::Submit { .. } | Step::Task { .. } => true,
            Step::CommandPipe => self.command_is_due(),
            Step::Data(tag) => self.data_is_due(*tag),
            Step::Status(tag) => self.status_is_due(*tag),
            Step::Engine => self.engine_is_due(),
            Step::Event => self.event_is_due(),
            Step::Retire(pipe, tag) => self.retire_is_due(*pipe, *tag),
            Step::Take(client) => self.take_is_due(*client),
        }
    }

    /// Something is pending on the command pipe's ring.
    pub(crate) fn command_is_due(&self) -> bool
        ensures { result ≡ due (decoded self.now) Step.CommandPipe }
    {
        self.lines.front_raw(Pipe::Command, 0).is_some()
    }

    /// The data stream of the tag is armed, and the device gives or takes on it.
    fn data_is_due(&self, tag: u16) -> bool
        ensures { result ≡ due (decoded self.now) (Step.Data tag) }
    {
        match self.target.wants(tag) {
            Phase::Absent | Phase::Ends => false,
            Phase::Gives(_) => self.controller.armed(&self.lines, Pipe::DataIn, tag),
            Phase::Takes(_) => self.controller.armed(&self.lines, Pipe::DataOut, tag),
        }
    }

    /// The status stream of the tag is armed, and the device has its answer.
    fn status_is_due(&self, tag: u16) -> bool
        ensures { result ≡ due (decoded self.now) (Step.Status tag) }
    {
        match self.target.wants(tag) {
            Phase::Ends => self.controller.armed(&self.lines, Pipe::Status, tag),
            Phase::Absent | Phase::Gives(_) | Phase::Takes(_) => false,
        }
    }

    /// The least busy tag above this one: the device has a task of it. `None` where no tag above is busy. No other tag's streams
    /// are due.
    #[inline(always)]
    pub fn next_busy(&self, tag: u16) -> Option<u16>
        ensures busy { IsNextBusy (decoded self.now) tag result }
        ensures next { IfSome result (λ next. (tag < next) × (next ≤ greatest_tag (decoded self.now)) × AreQuiet (decoded self.now) tag next) }
        ensures none { IfNone result (AreQuiet (decoded self.now) tag (suc (greatest_tag (decoded self.now)))) }
    {
        self.target.next_task(tag)
    }

    /// The controller's command ring has a TRB.
    pub(crate) fn engine_is_due(&self) -> bool
        ensures { result ≡ due (decoded self.now) Step.Engine }
    {
        self.lines.front_engine().is_some()
    }

    /// No retirement is under way, and the tag's TD on the pipe is left over.
    pub(crate) fn retire_is_due(&self, pipe: Pipe, tag: u16) -> bool
        ensures { result ≡ due (decoded self.now) (Step.Retire pipe tag) }
    {
        self.host.retirement().is_none() && self.host.is_left_over(pipe, tag)
    }

    /// The event ring has an event.
    pub(crate) fn event_is_due(&self) -> bool
        ensures { result ≡ due (decoded self.now) Step.Event }
    {
        self.lines.len() > 0
    }

    /// The host has a reply for the client.
    fn take_is_due(&self, client: usize) -> bool
        ensures { result ≡ due (decoded self.now) (Step.Take client) }
    {
        self.host.has_reply(client)
    }

    /// The least tag above this one whose TD on a pipe is left over. None is due while a retirement is under way.
    pub fn next_left_over(&self, pipe: Pipe, tag: u16) -> Option<u16>
        ensures next { IfSome result (λ next. (tag < next) × (next ≤ greatest_tag (decoded self.now)) × AreNotLeftOver (decoded self.now) pipe tag next) }
        ensures none { IfNone result (AreNotLeftOver (decoded self.now) pipe tag (suc (greatest_tag (decoded self.now)))) }
    {
        if self.host.retirement().is_some() {
            return None;
        }
        self.host.next_left_over(pipe, tag)
    }

    /// One step: what came of it. It acts exactly where it is due; it takes no memory.
    #[inline(always)]
    pub fn step(&mut self, step: Step) -> Outcome
        requires { HasTicket step }
        // What stands on the rings then, read back, and the outcome are the shared machine's.
        ensures shared { (decoded self.new, result) ≡ shared_step (decoded self.old) step }
        // The event that a step takes is of one tag, whose client the step is, and no other that waits is of that tag's TD.
        ensures events { TakesOfOneTag (decoded self.old) step result }
        // Host, controller, device, rings and buffers are those after that step, to the last TRB.
        ensures world { self.new ≡ world_after self.old step }
    {
        prove!(self.lines.len() < EVENT_RING_PLACES);
        self.act(step)
    }

    /// A step, each by one call, which finds out for itself whether it is due.
    #[inline(always)]
    fn act(&mut self, step: Step) -> Outcome
        requires { HasTicket step }
        ensures shared { shared_step (decoded self.old) step ≡ (decoded self.new, result) }
        ensures world { self.new ≡ world_after self.old step }
    {
        let tags = self.host.tags();
        match step {
            Step::Task {
                client,
                ticket,
                task,
            } => self.manage(client, ticket, task),
            Step::Submit {
                client,
                tag,
                ticket,
                command,
            } => {
                let mut doors = Doorbells::none();
                let answer = self.submit(client, tag, ticket, command, &mut doors);
                outcomes::submitted(tags, client, tag, answer, doors)
            }
            Step::CommandPipe => outcomes::on_pipe(tags, Pipe::Command, self.carry()),
            Step::Data(tag) => outcomes::on_pipe(tags, Pipe::DataIn, self.move_chunk(tag)),
            Step::Status(tag) => outcomes::on_pipe(tags, Pipe::Status, self.send(tag)),
            Step::Engine => self.execute(),
            Step::Event => {
                let mut doors = Doorbells::none();
                let client = self.see(&mut doors);
                outcomes::seen(client, doors)
            }
            Step::Retire(pipe, tag) => self.retire(pipe, tag),
            Step::Take(client) => outcomes::taken(tags, client, self.take(client)),
        }
    }
}
