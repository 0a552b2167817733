//! Steps that are booked while there is room for their bytes.
ghost use Rattle.std.specs.Prelude.{◌≡◌, ◌≢◌, ◌↔◌, ◌<◌, ◌≤◌, true, IfOk, IfErr, IfSome, IsOk, IsSome, OnErr, IsErrAnd, length};
ghost use Rattle.shared_machine.specs.Bus.{HasTicket};
ghost use Rattle.shared_machine.specs.Rooms.{step_len};
ghost use Rattle.shared_machine.specs.Shared.{due};
ghost use Rattle.uas_work.specs.Booked.{booked_step};
ghost use Rattle.bounded_log.specs.Bytes.{bytes_after, log_bytes};
ghost use Rattle.bounded_log.specs.declared.LimitFault.TheVariants.{TooLow};

use crate::counting::{log_bytes, with_bytes, with_step};
use crate::{BoundedBooked, BoundedBooking, LimitFault};
use bus_core::Bus;
use shared_machine::{Outcome, Step};
use std::alloc::Global;
use uas_work::{Booked, Booking};

impl BoundedBooked {
    /// The booked bus, whose log's entries may take `limit` bytes; those that it has are counted. It comes back with `TooLow` exactly where
    /// they take more. Takes no memory.
    pub fn new(booked: Booked, limit: usize) -> Result<BoundedBooked, (LimitFault, Booked)>
        ensures made { IfOk result (λ it. it ≡ record { booked = booked; limit = limit; bytes = log_bytes booked.log }) }
        ensures fits { IsOk result ↔ (log_bytes booked.log ≤ limit) }
        ensures back { IfErr result (λ back. back ≡ (TooLow, booked)) }
    {
        match log_bytes(booked.log(), limit) {
            Some(bytes) => Ok(BoundedBooked {
                booked,
                limit,
                bytes,
            }),
            None => Err((LimitFault::TooLow, booked)),
        }
    }

    /// The booked bus.
    pub fn booked(&self) -> &Booked
        ensures { result.now ≡ self.now.booked }
    {
        &self.booked
    }

    /// How many bytes the log's entries take.
    pub fn bytes(&self) -> usize
        ensures bytes { result ≡ self.now.bytes }
        ensures counted { result ≡ log_bytes self.now.booked.log }
        ensures within { result ≤ self.now.limit }
    {
        self.bytes
    }

    /// The booked bus, whose log has no limit in bytes any more.
    pub fn into_booked(self) -> Booked
        ensures { result ≡ self.booked }
    {
        let BoundedBooked { booked, .. } = self;
        booked
    }

    /// Takes one step and books it, as [`Booked::step`] does. Where the log has room for the step, but its entries with it would take more
    /// bytes than they may, the answer is `BytesFull`; an idle step takes none. At each fault the step comes back, and nothing changed.
    pub fn step(&mut self, alloc: Global, step: Step) -> Result<Outcome, (BoundedBooking, Step)>
        requires { HasTicket step }
        ensures booked { IfOk result (λ outcome. booked_step self.old.booked step ≡ (self.new.booked, outcome)) }
        ensures limit { self.new.limit ≡ self.old.limit }
        ensures full { length self.old.booked.log.steps ≡ self.old.booked.limit → IsErrAnd result (λ back. back.0 ≡ BoundedBooking.LogFull) }
        ensures only_full { IfErr result (λ back. back.0 ≡ BoundedBooking.LogFull → length self.old.booked.log.steps ≡ self.old.booked.limit) }
        ensures bytes_full { length self.old.booked.log.steps ≢ self.old.booked.limit → self.old.limit < bytes_after self.old step
            → IsErrAnd result (λ back. back.0 ≡ BoundedBooking.BytesFull) }
        ensures only_bytes_full { IfErr result (λ back. back.0 ≡ BoundedBooking.BytesFull
            → (length self.old.booked.log.steps ≢ self.old.booked.limit) × (self.old.limit < bytes_after self.old step)) }
        ensures wanting { IfErr result (λ back. back.0 ≡ BoundedBooking.NoMemory → due self.old.booked.bus step ≡ true) }
        ensures err { OnErr result (self.new ≡ self.old) }
        ensures back { IfErr result (λ back. back.1 ≡ step) }
    {
        if self.booked.log().steps.len() == self.booked.limit() {
            return Err((BoundedBooking::LogFull, step));
        }
        let Some(bytes) = self.bytes_with(&step) else {
            return Err((BoundedBooking::BytesFull, step));
        };
        match self.booked.step(alloc, step) {
            Ok(outcome) => {
                self.bytes = bytes;
                Ok(outcome)
            }
            Err((Booking::LogFull, step)) => Err((BoundedBooking::LogFull, step)),
            Err((Booking::NoMemory, step)) => Err((BoundedBooking::NoMemory, step)),
        }
    }

    /// The bytes with a step, where they are no more than they may be.
    fn bytes_with(&self, step: &Step) -> Option<usize>
        ensures some { IfSome result (λ bytes. bytes ≡ bytes_after self.now step.now) }
        ensures fits { IsSome result ↔ (bytes_after self.now step.now ≤ self.now.limit) }
    {
        if !self.booked.due(step) {
            return Some(self.bytes);
        }
        let bytes = with_step(self.bytes, self.limit, step)?;
        with_bytes(bytes, self.limit, reply_len(self.booked.bus(), step))
    }
}

/// How many bytes the reply of a step would bring.
fn reply_len(bus: &Bus, step: &Step) -> usize
    ensures { result ≡ step_len bus.now step.now }
{
    match step {
        Step::Take(client) => bus.next_len(*client),
        Step::Submit { .. }
        | Step::Task { .. }
        | Step::CommandPipe
        | Step::Data(_)
        | Step::Status(_)
        | Step::Engine
        | Step::Event
        | Step::Retire(_, _) => 0,
    }
}
