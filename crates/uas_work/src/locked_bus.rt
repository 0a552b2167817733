//! What the workers share: the bus under its lock, and why they end.
ghost use Rattle.std.specs.Prelude.{◌≡◌};
ghost use Rattle.uas_work.specs.Booked.{IsBooked, IsLater};

use crate::handed::{Handed, Origin};
use crate::parking::{Parkers, Worker};
use crate::{Booked, Booking, Ended, Gate};
use std::alloc::Global;
use std::sync::atomic::AtomicU64;
use std::sync::atomic::Ordering::SeqCst;
use std::sync::{Mutex, MutexGuard, Wait};
use std::thread;

/// The most steps that a controller or the dispatcher takes in one hold of the lock.
const MOST_HELD: u32 = 64;

/// What the workers share.
#[derive(Drop)]
pub(crate) struct LockedBus<J: Origin> {
    pub(crate) alloc: Global,
    booked: Mutex<Handed<J>>,
    /// Why they ended, as a number; 0 while they work.
    ended: AtomicU64,
    /// The clients that have rounds left.
    clients_left: AtomicU64,
    /// The pumps that may still finish a claim.
    pumps_left: AtomicU64,
    parkers: Parkers,
}

impl<J: Origin> LockedBus<J> {
    pub(crate) fn new(alloc: Global, booked: Booked, clients: usize, pumps: usize) -> LockedBus<J>
        requires { booked ≡ J.first }
    {
        LockedBus {
            alloc,
            booked: Mutex::new(Handed::new(booked)),
            ended: AtomicU64::new(Ended::Done.code()),
            clients_left: AtomicU64::new(clients as u64),
            pumps_left: AtomicU64::new(pumps as u64),
            parkers: Parkers::new(clients),
        }
    }

    /// The bus with its log and why the workers ended, once all are joined.
    pub(crate) fn into_parts(self) -> (Booked, Ended)
        ensures later { IsLater J.first result.0 }
        ensures booked { IsBooked result.0 }
    {
        let LockedBus { booked, ended, .. } = self;
        (
            booked.into_inner().into_booked(),
            Ended::from_code(ended.load(SeqCst)),
        )
    }

    /// The workers are to end. The first that says so gives the reason.
    pub(crate) fn end(&self, why: Ended) {
        let _ = self
            .ended
            .compare_exchange(Ended::Done.code(), why.code(), SeqCst, SeqCst);
        self.parkers.unpark_all();
    }

    /// A client took all its rounds.
    pub(crate) fn client_done(&self) {
        if self.clients_left.fetch_sub(1, SeqCst) == 1 {
            self.parkers.unpark_all();
        }
    }

    /// A pump finishes no claim any more.
    pub(crate) fn pump_done(&self) {
        self.pumps_left.fetch_sub(1, SeqCst);
        self.parkers.unpark_clients();
    }

    /// Whether no pump finishes a claim any more.
    pub(crate) fn are_pumps_done(&self) -> bool {
        self.pumps_left.load(SeqCst) == 0
    }

    /// Whether the workers were told to end.
    pub(crate) fn is_ended(&self) -> bool {
        self.ended.load(SeqCst) != Ended::Done.code()
    }

    /// Whether a worker has nothing more to do: it is told so, or the gate gives it no turn, which ends the others too.
    pub(crate) fn is_over<G: Gate>(&self, gate: &G, worker: u32) -> bool {
        if self.is_ended() || self.clients_left.load(SeqCst) == 0 {
            return true;
        }
        if gate.turn(worker) {
            return false;
        }
        self.end(Ended::Stopped);
        true
    }

    /// The bus, locked.
    pub(crate) fn lock<R: Wait>(&self, rt: &R) -> MutexGuard<'_, Handed<J>> {
        self.booked.lock(rt)
    }

    /// The part of a controller, of its number among these.
    pub(crate) fn control<R: Wait, G: Gate>(&self, rt: &R, gate: &G, worker: u32, number: usize) {
        for _ in rt.forever() {
            if self.is_over(gate, worker) {
                return;
            }
            match self.controlled(rt, gate) {
                Ok(taken) => {
                    if taken > 0 {
                        self.parkers.unpark_dispatcher();
                    }
                    if taken < MOST_HELD {
                        self.park(rt, Worker::Controller(number));
                    }
                }
                Err(booking) => self.end(Ended::from_booking(booking)),
            }
        }
    }

    /// Takes a controller's steps in one hold of the lock: how many.
    fn controlled<R: Wait, G: Gate>(&self, rt: &R, gate: &G) -> Result<u32, Booking> {
        let mut handed = self.booked.lock(rt);
        for taken in 0..MOST_HELD {
            if !handed.control(self.alloc, gate)? {
                return Ok(taken);
            }
        }
        Ok(MOST_HELD)
    }

    /// The part of the dispatcher.
    pub(crate) fn dispatch<R: Wait, G: Gate>(&self, rt: &R, gate: &G, worker: u32) {
        for _ in rt.forever() {
            if self.is_over(gate, worker) {
                return;
            }
            match self.dispatched(rt, gate) {
                Ok(taken) => {
                    if taken > 0 {
                        self.parkers.unpark_pumps();
                        self.parkers.unpark_controllers();
                    }
                    if taken < MOST_HELD {
                        self.park(rt, Worker::Dispatcher);
                    }
                }
                Err(booking) => self.end(Ended::from_booking(booking)),
            }
        }
    }

    /// Takes the dispatcher's steps in one hold of the lock: how many.
    fn dispatched<R: Wait, G: Gate>(&self, rt: &R, gate: &G) -> Result<u32, Booking> {
        let mut handed = self.booked.lock(rt);
        for taken in 0..MOST_HELD {
            if !handed.dispatch(self.alloc, gate)? {
                return Ok(taken);
            }
        }
        Ok(MOST_HELD)
    }

    /// The part of the one who looks at the log: until the others end, and once more then.
    pub(crate) fn look<R: Wait, G: Gate>(&self, rt: &R, gate: &G) {
        for _ in rt.forever() {
            let is_last = self.is_ended() || self.clients_left.load(SeqCst) == 0;
            self.booked.lock(rt).look(self.alloc, gate);
            if !gate.settle() {
                self.end(Ended::Stopped);
                return;
            }
            self.parkers.unpark_clients();
            if is_last {
                return;
            }
            thread::yield_now();
        }
    }

    /// Waits until a client may have the reply that it found. False where the workers end before.
    pub(crate) fn may_tell<R: Wait, G: Gate>(&self, rt: &R, gate: &G, client: u8) -> bool {
        let look = gate.next_look();
        for _ in rt.forever() {
            if gate.may_tell(look) {
                return true;
            }
            if self.is_ended() {
                return false;
            }
            self.park(rt, Worker::Client(usize::from(client)));
        }
        false
    }

    /// Parks a worker until another has something for it, or for a moment.
    pub(crate) fn park<R: Wait>(&self, rt: &R, worker: Worker) {
        self.parkers.park(rt, worker);
    }

    pub(crate) fn parkers(&self) -> &Parkers {
        &self.parkers
    }
}
