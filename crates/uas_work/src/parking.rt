//! Workers that have nothing to do: each is parked until another has something for it.
use std::array;
use std::sync::Wait;
use std::thread::Parker;
use std::time::Duration;
use uas_profile::MAX_CLIENTS;

const MOST_PUMPS: usize = 4;

/// A controller above these is never unparked.
const MOST_CONTROLLERS: usize = 4;

/// A parked worker looks again after so many milliseconds, though nobody unparked it.
const MOST_PARKED: u64 = 1;

/// A worker, by its number among those of its kind.
#[derive(Clone, Copy)]
pub(crate) enum Worker {
    Client(usize),
    Pump(usize),
    Controller(usize),
    Dispatcher,
}

/// A parker for each worker.
#[derive(Drop)]
pub(crate) struct Parkers {
    clients: [Parker; MAX_CLIENTS],
    /// How many clients there are: the parkers behind theirs are nobody's.
    count: usize,
    pumps: [Parker; MOST_PUMPS],
    controllers: [Parker; MOST_CONTROLLERS],
    dispatcher: Parker,
}

impl Parkers {
    /// Parkers for so many clients and the others.
    pub(crate) fn new(clients: usize) -> Parkers {
        Parkers {
            clients: array::from_fn(|_| Parker::new()),
            count: clients,
            pumps: array::from_fn(|_| Parker::new()),
            controllers: array::from_fn(|_| Parker::new()),
            dispatcher: Parker::new(),
        }
    }

    fn of(&self, worker: Worker) -> Option<&Parker> {
        match worker {
            Worker::Client(client) => self.clients.get(client),
            Worker::Pump(pump) => self.pumps.get(pump),
            Worker::Controller(controller) => self.controllers.get(controller),
            Worker::Dispatcher => Some(&self.dispatcher),
        }
    }

    /// Parks the caller until the worker is unparked, or for a moment.
    pub(crate) fn park<R: Wait>(&self, rt: &R, worker: Worker) {
        let own = Parker::new();
        let parker = self.of(worker).unwrap_or(&own);
        parker.park_timeout(rt, Duration::from_millis(MOST_PARKED));
    }

    pub(crate) fn unpark_client(&self, client: usize) {
        if let Some(parker) = self.clients.get(client) {
            parker.unpark();
        }
    }

    pub(crate) fn unpark_pump(&self, pump: usize) {
        if let Some(parker) = self.pumps.get(pump) {
            parker.unpark();
        }
    }

    pub(crate) fn unpark_clients(&self) {
        for parker in self.clients.iter().take(self.count) {
            parker.unpark();
        }
    }

    /// Unparks the clients that have a reply.
    pub(crate) fn unpark_replied(&self, replied: &[bool; MAX_CLIENTS]) {
        for (parker, has_reply) in self.clients.iter().zip(replied).take(self.count) {
            if *has_reply {
                parker.unpark();
            }
        }
    }

    pub(crate) fn unpark_pumps(&self) {
        for parker in &self.pumps {
            parker.unpark();
        }
    }

    pub(crate) fn unpark_controllers(&self) {
        for parker in &self.controllers {
            parker.unpark();
        }
    }

    pub(crate) fn unpark_dispatcher(&self) {
        self.dispatcher.unpark();
    }

    pub(crate) fn unpark_all(&self) {
        self.unpark_clients();
        self.unpark_pumps();
        self.unpark_controllers();
        self.unpark_dispatcher();
    }
}
