//! Steps of a bus that are booked.
ghost use Rattle.std.specs.Prelude.{◌≡◌, ℕ, ◌*◌, ◌<◌, ◌≤◌, ◌^◌, true, IfOk, IfErr, IfSome, OnOk, OnErr, IsErrAnd, length, vec_len};
ghost use Rattle.uas_log.specs.Booking.{without_lists};
ghost use Rattle.uas_log.specs.Growing.{HasLists, HasRoom};
ghost use Rattle.shared_machine.specs.Bus.{HasTicket};
ghost use Rattle.uas_profile.specs.Tags.{AreTags};
ghost use Rattle.uas_profile.specs.declared.TheConstants.{MAX_CLIENTS, STREAMS};
ghost use Rattle.shared_machine.specs.Shared.{due};
ghost use Rattle.shared_machine.specs.Rooms.{step_len};
ghost use Rattle.uas_work.specs.Booked.{IsBooked, booked_step, turns_in};

use crate::spares::Spares;
use crate::turns::count_turn;
use crate::{Booked, Booking, PreparedStep};
use bus_core::{Bus, Outcome, Step};
use std::alloc::{AllocError, Global};
use uas_log::{Growth, Log};
use uas_profile::MAX_CLIENTS;

impl Booked {
    /// The bus.
    pub fn bus(&self) -> &Bus
        ensures { result.now ≡ self.now.bus }
    {
        &self.bus
    }

    /// How many clients the bus has: 1 to 31.
    pub(crate) fn clients(&self) -> usize
        ensures count { result ≡ length self.now.bus.parts }
        ensures some { 1 ≤ result }
        ensures most { result ≤ MAX_CLIENTS }
        ensures streams { result * self.now.bus.tags ≤ STREAMS }
    {
        self.bus.clients()
    }

    /// How many tags each client has, which never changes.
    pub fn tags(&self) -> usize
        ensures tags { result ≡ self.now.bus.tags }
        ensures log { result ≡ self.now.log.tags }
        ensures number { AreTags result }
    {
        self.bus.tags()
    }

    /// The log: the bus is what its replay comes to, and its refusals and replies are that replay's.
    pub fn log(&self) -> &Log
        ensures log { result.now ≡ self.now.log }
        ensures booked { IsBooked self.now }
    {
        &self.log
    }

    /// How many steps the log may hold.
    pub fn limit(&self) -> usize
        ensures { result ≡ self.now.limit }
    {
        self.limit
    }

    /// Whether a step would act.
    pub fn due(&self, step: &Step) -> bool
        ensures { result ≡ due self.now.bus step.now }
    {
        self.bus.due(step)
    }

    /// How many submissions of a client the log has, refused ones too.
    pub fn turn(&self, client: usize) -> u64
        requires { client < MAX_CLIENTS }
        ensures turns { result ≡ turns_in client self.now.log.steps }
        ensures small { result < 2 ^ 32 }
    {
        self.turns[client]
    }

    /// Takes one step and books it: what came of it. Where the step is idle the log stays, else it is longer by the step, by the
    /// number of its refusal and by a copy of its reply. Where the log holds as many steps as it may the answer is `LogFull`,
    /// for an idle step too, and `NoMemory` where the step is due and there is no memory for the entry; the step comes back
    /// then, and nothing changed. All memory is taken before the bus takes the step.
    pub fn step(&mut self, alloc: Global, step: Step) -> Result<Outcome, (Booking, Step)>
        requires { HasTicket step }
        // The bus and the outcome are the shared machine's, and the log is longer by what acted.
        ensures booked { IfOk result (λ outcome. booked_step self.old step ≡ (self.new, outcome)) }
        ensures full { length self.old.log.steps ≡ self.old.limit → IsErrAnd result (λ back. back.0 ≡ Booking.LogFull) }
        ensures only_full { IfErr result (λ back. back.0 ≡ Booking.LogFull → length self.old.log.steps ≡ self.old.limit) }
        ensures wanting { IfErr result (λ back. back.0 ≡ Booking.NoMemory → due self.old.bus step ≡ true) }
        ensures err { OnErr result (self.new ≡ self.old) }
        ensures back { IfErr result (λ back. back.1 ≡ step) }
    {
        self.take_step(alloc, step, None)
    }

    /// The same of a submission that was prepared, which the log takes with the copy that was made then. The bytes that were prepared for
    /// its reply are kept for the copy of a reply that brings as many.
    pub fn step_prepared(
        &mut self,
        alloc: Global,
        prepared: PreparedStep,
    ) -> Result<Outcome, (Booking, Step)>
        requires { HasTicket prepared }
        ensures booked { IfOk result (λ outcome. booked_step self.old prepared ≡ (self.new, outcome)) }
        ensures full { length self.old.log.steps ≡ self.old.limit → IsErrAnd result (λ back. back.0 ≡ Booking.LogFull) }
        ensures only_full { IfErr result (λ back. back.0 ≡ Booking.LogFull → length self.old.log.steps ≡ self.old.limit) }
        ensures wanting { IfErr result (λ back. back.0 ≡ Booking.NoMemory → due self.old.bus prepared ≡ true) }
        ensures err { OnErr result (self.new ≡ self.old) }
        ensures back { IfErr result (λ back. back.1 ≡ prepared) }
    {
        let (step, copy, spare) = prepared.into_parts();
        self.spares.put(spare);
        self.take_step(alloc, step, Some(copy))
    }

    /// Takes one step and books it with its copy, which is made here where there is none.
    fn take_step(
        &mut self,
        alloc: Global,
        step: Step,
        copy: Option<Step>,
    ) -> Result<Outcome, (Booking, Step)>
        requires ticket { HasTicket step }
        requires copy { IfSome copy (λ copy. copy ≡ step) }
        ensures booked { IfOk result (λ outcome. booked_step self.old step ≡ (self.new, outcome)) }
        ensures full { length self.old.log.steps ≡ self.old.limit → IsErrAnd result (λ back. back.0 ≡ Booking.LogFull) }
        ensures only_full { IfErr result (λ back. back.0 ≡ Booking.LogFull → length self.old.log.steps ≡ self.old.limit) }
        ensures wanting { IfErr result (λ back. back.0 ≡ Booking.NoMemory → due self.old.bus step ≡ true) }
        ensures err { OnErr result (self.new ≡ self.old) }
        ensures back { IfErr result (λ back. back.1 ≡ step) }
    {
        if self.log.steps.len() == self.limit {
            return Err((Booking::LogFull, step));
        }
        if !self.bus.due(&step) {
            return Ok(self.bus.step(step));
        }
        let len = reply_len(&self.bus, &step);
        let Ok(growth) = begin(alloc, &mut self.log, &mut self.spares, &step, copy, len) else {
            return Err((Booking::NoMemory, step));
        };
        count_turn(&mut self.turns, &step);
        let outcome = self.bus.step(step);
        growth.enter(&mut self.log, &outcome);
        Ok(outcome)
    }
}

/// Takes the lists out of a log and makes room for a step whose reply brings `len` bytes: with the copy of it that is handed in or made here,
/// and with bytes that are spared or new.
fn begin(
    alloc: Global,
    log: &mut Log,
    spares: &mut Spares,
    step: &Step,
    copy: Option<Step>,
    len: usize,
) -> Result<Growth, AllocError>
    requires copy { IfSome copy (λ copy. copy ≡ step.now) }
    ensures lists { IfOk result (λ growth. HasLists growth log.old) }
    ensures room { IfOk result (λ growth. HasRoom growth) }
    ensures copy { IfOk result (λ growth. growth.copy ≡ step.now) }
    ensures spare { IfOk result (λ growth. vec_len growth.spare ≡ len) }
    ensures out { OnOk result (log.new ≡ without_lists log.old) }
    ensures err { OnErr result (log.new ≡ log.old) }
{
    let spare = spares.take(alloc, len)?;
    let mut growth = match copy {
        None => Growth::begin(alloc, log, step, 0)?,
        Some(copy) => {
            // A step without a buffer holds its place.
            let mut growth = Growth::begin(alloc, log, &Step::Engine, 0)?;
            growth.copy = copy;
            growth
        }
    };
    growth.spare = spare;
    Ok(growth)
}

/// How many bytes the reply of a step would bring.
fn reply_len(bus: &Bus, step: &Step) -> usize
    ensures { result ≡ step_len bus.now step.now }
{
    match step {
        Step::Take(client) => bus.next_len(*client),
        Step::Submit { .. }
        | Step::Task { .. }
        | Step::CommandPipe
        | Step::Data(_)
        | Step::Status(_)
        | Step::Engine
        | Step::Event
        | Step::Retire(_, _) => 0,
    }
}
