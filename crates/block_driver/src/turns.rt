//! A disk with many commands out: its events, and what they lead to.
#![tactic(auto, using(crate::proofs::Kept::kept_same))]

ghost use Rattle.std.specs.Prelude.{◌≡◌, is_some};
ghost use Rattle.block_driver.specs.Steps.{World};
ghost use Rattle.block_driver.specs.Turns.{closed, closed_by, event_came, failed, is_inactive, is_looked_on, moved_on, port_told, pulled, restarted_all, said_taken, served, served_on, stopped_on, stuck_or_late, stuck_pipe, told_taken, told_until, tries_after, unit_of_tag, unit_taken, went};
ghost use Rattle.block_driver.specs.Table.{RepliesStand, first_of, marks};
ghost use Rattle.block_driver.specs.declared.kinds.Kind.{Kind};

use crate::events::{STATUS_BYTES, Said};
use crate::freeing::Freeing;
use crate::kinds::{Kind, StreamPipe};
use crate::steps::{Blocks, Work};
use crate::table::{Loss, Told};
use block_requests::Outcome;
use bring_up::{
    Completed, Served, Service, Serving, Taken, Tries, Why, is_set, later, taken_event,
};
use host_trbs::Event;

/// The bits of PORTSC: a device is there, and the port is enabled (5.4.8).
const CONNECTED: u32 = 0;

const ENABLED: u32 = 1;

/// ms that data may come behind a status GOOD.
const GRACE: u64 = 1_000;

/// The most events of a look.
const MOST_SEEN: u8 = 64;

impl Blocks {
    /// A step of the look for events.
    pub(crate) fn serve(
        &mut self,
        taken: &mut Taken,
        service: Service,
        now: u64,
        value: u32,
        bytes: &[u8],
    )
        ensures is { record { blocks = self.new; taken = taken.new } ≡ served (record { blocks = self.old; taken = taken.old }) service now value bytes.now }
        ensures once { marks self.new.tags ≡ marks self.old.tags }
        ensures replies { RepliesStand self.old.tags self.new.tags }
    {
        match service.at {
            Serving::Event => self.event_came(taken, service, now, taken_event(bytes)),
            _ => {
                let how = service.after(taken.events.cycle, value);
                self.went(taken, service, now, how);
            }
        }
    }

    fn event_came(&mut self, taken: &mut Taken, service: Service, now: u64, event: Event)
        ensures is { record { blocks = self.new; taken = taken.new } ≡ event_came (record { blocks = self.old; taken = taken.old }) service now event }
        ensures once { marks self.new.tags ≡ marks self.old.tags }
        ensures replies { RepliesStand self.old.tags self.new.tags }
    {
        taken.events = taken.events.next();
        match event {
            Event::Controller { .. } => self.restart(taken, now),
            Event::Command { trb, code, slot } if trb == taken.commands.address(&taken.layout) => {
                self.command_came(Completed { code, slot });
                self.work = Work::Serve(service.passed());
            }
            _ => {
                let said = self.tags.event_said(&self.own, &taken.layout, event);
                self.said_taken(taken, service.passed(), said);
            }
        }
    }

    /// What an event said: a status unit is loaded, and a port read, before the next event.
    fn said_taken(&mut self, taken: &mut Taken, service: Service, said: Said)
        ensures is { record { blocks = self.new; taken = taken.new } ≡ said_taken said (record { blocks = self.old; taken = taken.old }) service }
        ensures once { marks self.new.tags ≡ marks self.old.tags }
        ensures replies { RepliesStand self.old.tags self.new.tags }
    {
        match said {
            Said::Nothing => self.work = Work::Serve(service),
            Said::Failed => self.fail(taken, Loss::Failed),
            Said::Moved { tag, count } => self.move_on(tag, count, service),
            Said::Stopped { tag, count } => self.stop_on(tag, count, service),
            Said::Unit { tag, count } => {
                self.work = Work::Unit {
                    tag,
                    count: count.min(STATUS_BYTES),
                    service,
                };
            }
            Said::Port(port) if port == taken.device.port.number => {
                self.work = Work::Port(service);
            }
            Said::Port(_) => self.work = Work::Serve(service),
        }
    }

    fn move_on(&mut self, tag: u8, count: u32, service: Service)
        ensures is { self.new ≡ moved_on self.old tag count service }
        ensures once { marks self.new.tags ≡ marks self.old.tags }
        ensures replies { RepliesStand self.old.tags self.new.tags }
    {
        self.tags.moved(tag, count);
        self.work = Work::Serve(service);
    }

    fn stop_on(&mut self, tag: u8, count: u32, service: Service)
        ensures is { self.new ≡ stopped_on self.old tag count service }
        ensures once { marks self.new.tags ≡ marks self.old.tags }
        ensures replies { RepliesStand self.old.tags self.new.tags }
    {
        self.tags.stop(tag, count);
        self.work = Work::Serve(service);
    }

    fn went(&mut self, taken: &mut Taken, service: Service, now: u64, how: Served)
        ensures is { record { blocks = self.new; taken = taken.new } ≡ went how (record { blocks = self.old; taken = taken.old }) service now }
        ensures once { marks self.new.tags ≡ marks self.old.tags }
        ensures replies { RepliesStand self.old.tags self.new.tags }
    {
        match how {
            Served::On(service) => self.work = Work::Serve(service),
            Served::Closed => self.closed(taken, service, now),
            Served::Broken => self.restart(taken, now),
        }
    }

    /// A look ended: the controller is told so where no event was seen too, and behind 64 of them there may be more.
    fn closed(&mut self, taken: &mut Taken, service: Service, now: u64)
        ensures is { record { blocks = self.new; taken = taken.new } ≡ closed (record { blocks = self.old; taken = taken.old }) service now }
        ensures once { marks self.new.tags ≡ marks self.old.tags }
        ensures replies { RepliesStand self.old.tags self.new.tags }
    {
        if is_looked_on(service) {
            self.work = Work::Serve(served_on(service));
        } else {
            self.closed_by(taken, now);
        }
    }

    /// A command that takes TDs off goes on; those that don't end are taken off.
    fn closed_by(&mut self, taken: &mut Taken, now: u64)
        ensures is { record { blocks = self.new; taken = taken.new } ≡ closed_by self.old.removal (record { blocks = self.old; taken = taken.old }) now }
        ensures once { marks self.new.tags ≡ marks self.old.tags }
        ensures replies { RepliesStand self.old.tags self.new.tags }
    {
        match self.removal {
            Some(removal) => self.free_closed(taken, removal, now),
            None => self.stuck_or_late(taken, now),
        }
    }

    fn stuck_or_late(&mut self, taken: &mut Taken, now: u64)
        ensures is { record { blocks = self.new; taken = taken.new } ≡ stuck_or_late (stuck_pipe self.old.tags now) (record { blocks = self.old; taken = taken.old }) now }
        ensures once { marks self.new.tags ≡ marks self.old.tags }
        ensures replies { RepliesStand self.old.tags self.new.tags }
    {
        match self.stuck_pipe(now) {
            Some(pipe) => self.free(taken, pipe, Freeing::Stop(now)),
            None => self.idle_or_late(taken, now),
        }
    }

    /// The first pipe on which a TD is to be taken off.
    fn stuck_pipe(&self, now: u64) -> Option<StreamPipe>
        ensures { result ≡ stuck_pipe self.now.tags now }
    {
        if self.is_stuck(StreamPipe::DataIn, now) {
            Some(StreamPipe::DataIn)
        } else if self.is_stuck(StreamPipe::DataOut, now) {
            Some(StreamPipe::DataOut)
        } else if self.is_stuck(StreamPipe::Status, now) {
            Some(StreamPipe::Status)
        } else {
            None
        }
    }

    fn is_stuck(&self, pipe: StreamPipe, now: u64) -> bool
        ensures { result ≡ is_some (first_of (Kind.Stuck pipe now) self.now.tags) }
    {
        self.tags.first(Kind::Stuck { pipe, now }).is_some()
    }

    /// A status unit came.
    pub(crate) fn unit_taken(
        &mut self,
        taken: &mut Taken,
        tag: u8,
        service: Service,
        now: u64,
        bytes: &[u8],
    )
        ensures is { record { blocks = self.new; taken = taken.new } ≡ unit_taken (record { blocks = self.old; taken = taken.old }) tag service now bytes.now }
        ensures once { marks self.new.tags ≡ marks self.old.tags }
        ensures replies { RepliesStand self.old.tags self.new.tags }
    {
        match self.own {
            Some(own) if own.tag == tag => self.own_told(taken, own, service, bytes),
            _ => self.unit_of_tag(taken, tag, service, now, bytes),
        }
    }

    fn unit_of_tag(&mut self, taken: &mut Taken, tag: u8, service: Service, now: u64, bytes: &[u8])
        ensures is { record { blocks = self.new; taken = taken.new } ≡ unit_of_tag (record { blocks = self.old; taken = taken.old }) tag service now bytes.now }
        ensures once { marks self.new.tags ≡ marks self.old.tags }
        ensures replies { RepliesStand self.old.tags self.new.tags }
    {
        match self.tags.unit_outcome(tag, bytes) {
            Some(outcome) => self.told_taken(taken, tag, service, now, outcome),
            None => self.fail(taken, Loss::BadUnit),
        }
    }

    fn told_taken(
        &mut self,
        taken: &mut Taken,
        tag: u8,
        service: Service,
        now: u64,
        outcome: Outcome,
    )
        ensures is { record { blocks = self.new; taken = taken.new } ≡ told_taken outcome (record { blocks = self.old; taken = taken.old }) tag service now }
        ensures once { marks self.new.tags ≡ marks self.old.tags }
        ensures replies { RepliesStand self.old.tags self.new.tags }
    {
        taken.tries = tries_after(&outcome, taken.tries);
        let until = told_until(&outcome, now);
        self.tags.told(tag, Told { outcome, until });
        self.work = Work::Serve(service);
    }

    /// The disk's port was read.
    pub(crate) fn port_told(&mut self, taken: &mut Taken, service: Service, value: u32)
        ensures is { record { blocks = self.new; taken = taken.new } ≡ port_told (record { blocks = self.old; taken = taken.old }) service value }
        ensures once { marks self.new.tags ≡ marks self.old.tags }
        ensures replies { RepliesStand self.old.tags self.new.tags }
    {
        if !is_set(value, CONNECTED) {
            self.pull(taken);
        } else if !is_set(value, ENABLED) || is_inactive(value) {
            self.fail(taken, Loss::Disabled);
        } else {
            self.work = Work::Serve(service);
        }
    }

    /// The disk was taken from its port: its slot is given back, and ports are looked at.
    fn pull(&mut self, taken: &mut Taken)
        ensures is { record { blocks = self.new; taken = taken.new } ≡ pulled (record { blocks = self.old; taken = taken.old }) }
        ensures once { marks self.new.tags ≡ marks self.old.tags }
        ensures replies { RepliesStand self.old.tags self.new.tags }
    {
        self.close(Loss::Pulled);
        taken.give_up(Why::Silent);
    }

    /// The device is tried again, from its port's reset on.
    pub(crate) fn fail(&mut self, taken: &mut Taken, loss: Loss)
        ensures is { record { blocks = self.new; taken = taken.new } ≡ failed (record { blocks = self.old; taken = taken.old }) loss }
        ensures once { marks self.new.tags ≡ marks self.old.tags }
        ensures replies { RepliesStand self.old.tags self.new.tags }
    {
        self.close(loss);
        taken.try_again();
    }

    /// The controller is taken anew.
    pub(crate) fn restart(&mut self, taken: &mut Taken, now: u64)
        ensures is { record { blocks = self.new; taken = taken.new } ≡ restarted_all (record { blocks = self.old; taken = taken.old }) now }
        ensures once { marks self.new.tags ≡ marks self.old.tags }
        ensures replies { RepliesStand self.old.tags self.new.tags }
    {
        self.close(Loss::Broken);
        taken.restart(now);
    }
}

/// Until when data may still come.
fn told_until(outcome: &Outcome, now: u64) -> u64
    ensures { result ≡ told_until outcome.now now }
{
    match outcome {
        Outcome::Good => later(now, GRACE),
        _ => now,
    }
}

/// After a GOOD the device and the controller can be tried again anew.
fn tries_after(outcome: &Outcome, tries: Tries) -> Tries
    ensures { result ≡ tries_after outcome.now tries }
{
    match outcome {
        Outcome::Good => Tries {
            of_device: 0,
            of_all: 0,
            ..tries
        },
        _ => tries,
    }
}

/// Whether a link hangs: PLS is Inactive.
fn is_inactive(value: u32) -> bool
    ensures { result ≡ is_inactive value }
{
    value >> 5 & 15 == 6
}

/// Whether a look goes on: where it ended without telling the controller, or behind 64 events.
fn is_looked_on(service: Service) -> bool
    ensures { result ≡ is_looked_on service }
{
    matches!(service.at, Serving::Word) || service.seen >= MOST_SEEN
}

fn served_on(service: Service) -> Service
    ensures { result ≡ served_on service }
{
    match service.at {
        Serving::Word => service.closing(),
        _ => Service {
            limit: service.limit,
            seen: 0,
            at: Serving::Word,
        },
    }
}
