//! Rows 12 and 13: a device is asked what it is, and configured (xHCI 1.2, 4.11.2.2; USB 3.2, 9.4 and 9.6).
ghost use Rattle.std.specs.Prelude.{◌≡◌, not};
ghost use Rattle.disk_up.specs.Findings.{World, begun_finding, clearing_access, clearing_command, clearing_put, find_access, find_interrupted, in_next_third, piped, requested, sent, set_done, set_for, taken_answer};
ghost use Rattle.disk_up.specs.Endings.{advanced};

use crate::control::{Sending, next_third, send_access, send_after, trb_in};
use crate::pipes::Piping;
use crate::requests::{Found, Known, Request, read_answer};
use bring_up::{Access, Completed, Putting, Service, Taken, load_in};
use host_layout::Fixed;
use host_trbs::Command;
use usb_descriptors::{Streams, UasFunction};

/// How a transfer ended.
#[derive(Clone, Copy)]
pub enum Ending {
    Done,
    Stalled,
    Failed,
}

/// A command for the device.
#[derive(Clone, Copy)]
pub enum Clearing {
    /// Behind a request that the device refused: Reset Endpoint, then Set TR Dequeue Pointer to the next third.
    Reset,
    Move,
    /// Configure Endpoint: the pipes are there.
    Configure,
}

/// What of rows 12 and 13 comes next.
#[derive(Clone, Copy)]
pub enum FindStep {
    /// A transfer is put.
    Send {
        request: Request,
        at: Sending,
    },
    /// Its events are awaited; so many bytes came.
    Serve {
        request: Request,
        moved: u16,
        ended: Option<Ending>,
        service: Service,
    },
    /// Its bytes are loaded.
    Take {
        request: Request,
        moved: u16,
    },
    /// A command is put, and its event awaited.
    Clear {
        clearing: Clearing,
        at: Putting,
    },
    ServeClear {
        clearing: Clearing,
        came: Option<Completed>,
        service: Service,
    },
    /// The pipes' rings, arrays and contexts are stored.
    Pipes {
        function: UasFunction,
        streams: Streams,
        at: Piping,
    },
    /// The device is configured, and so are its pipes.
    Configured,
}

/// A device that is asked what it is.
#[derive(Clone, Copy)]
pub struct Finding {
    /// The third of the next transfer.
    pub third: u8,
    pub known: Known,
    pub step: FindStep,
}

/// ms that a transfer, and a command, has.
pub(crate) const LIMIT: u64 = 5000;

/// The device context index of endpoint 0.
const CONTROL_ENDPOINT: u8 = 1;

impl Finding {
    pub(crate) fn begun() -> Finding
        ensures { result ≡ begun_finding }
    {
        Finding {
            third: 0,
            known: Known {
                vendor: 0,
                product: 0,
                release: 0,
                disk: None,
            },
            step: FindStep::Send {
                request: Request::Device,
                at: Sending::Zeros,
            },
        }
    }

    /// The access that its step tells.
    pub(crate) fn access(&self, taken: &Taken) -> Access
        ensures { result ≡ find_access (record { finding = self.now; taken = taken.now }) }
    {
        match self.step {
            FindStep::Send { request, at } => send_access(
                &taken.controller,
                &taken.layout,
                taken.device.slot,
                self.third,
                request,
                at,
            ),
            FindStep::Serve { service, .. } | FindStep::ServeClear { service, .. } =>
                taken.look_access(service),
            FindStep::Take { moved, .. } => load_in(
                Some(taken.layout.fixed(Fixed::Buffer)),
                u32::from(moved),
            ),
            FindStep::Clear { clearing, at } => self.clearing_access(taken, clearing, at),
            FindStep::Pipes {
                function,
                streams,
                at,
            } => at.access(&taken.layout, taken.device, &function.pipes, streams),
            FindStep::Configured => Access::Rest(u64::MAX),
        }
    }

    fn clearing_access(&self, taken: &Taken, clearing: Clearing, at: Putting) -> Access
        ensures { result ≡ clearing_access (record { finding = self.now; taken = taken.now }) clearing at }
    {
        let command = self.clearing_command(taken, clearing);
        taken.commands.put(
            &taken.controller,
            &taken.layout,
            at,
            command.words(taken.commands.cycle),
            command.words(!taken.commands.cycle),
        )
    }

    fn clearing_command(&self, taken: &Taken, clearing: Clearing) -> Command
        ensures { result ≡ clearing_command (record { finding = self.now; taken = taken.now }) clearing }
    {
        match clearing {
            Clearing::Reset => Command::ResetEndpoint {
                slot: taken.device.slot,
                endpoint: CONTROL_ENDPOINT,
            },
            Clearing::Move => Command::SetDequeue {
                pointer: match trb_in(&taken.layout, self.third, 0) {
                    Some(at) => at,
                    None => 0,
                },
                stream: 0,
                slot: taken.device.slot,
                endpoint: CONTROL_ENDPOINT,
            },
            Clearing::Configure => Command::ConfigureEndpoint {
                input: taken.layout.fixed(Fixed::InputContext),
                slot: taken.device.slot,
            },
        }
    }

    /// Goes on behind its step's access, with what was read.
    pub(crate) fn advance(
        &mut self,
        taken: &mut Taken,
        tags: u8,
        now: u64,
        value: u32,
        bytes: &[u8],
    )
        ensures { record { finding = self.new; taken = taken.new } ≡ advanced (record { finding = self.old; taken = taken.old }) tags now value bytes.now }
    {
        match self.step {
            FindStep::Send { request, at } => self.sent(request, send_after(request, at), now),
            FindStep::Serve {
                request,
                moved,
                ended,
                service,
            } => self.serve(taken, request, moved, ended, service, now, value, bytes),
            FindStep::Take { request, .. } => self.answer(taken, request, tags, bytes),
            FindStep::Clear { clearing, at } => self.put(clearing, at, now),
            FindStep::ServeClear {
                clearing,
                came,
                service,
            } => self.serve_clear(taken, clearing, came, service, now, value, bytes),
            FindStep::Pipes {
                function,
                streams,
                at,
            } => self.piped(taken, function, streams, at.after(&taken.layout, streams)),
            FindStep::Configured => {}
        }
    }

    /// A request begins to be put.
    pub(crate) fn request(&mut self, request: Request)
        ensures { self.new ≡ requested self.old request }
    {
        self.step = FindStep::Send {
            request,
            at: Sending::Zeros,
        };
    }

    /// The next access of a transfer that is put, or its events.
    fn sent(&mut self, request: Request, next: Option<Sending>, now: u64)
        ensures { self.new ≡ sent self.old request next now }
    {
        self.step = match next {
            Some(at) => FindStep::Send { request, at },
            None => FindStep::Serve {
                request,
                moved: request.packet().length,
                ended: None,
                service: Service::begun(now, LIMIT),
            },
        };
    }

    /// The bytes of an answer came.
    fn answer(&mut self, taken: &mut Taken, request: Request, tags: u8, bytes: &[u8])
        ensures { record { finding = self.new; taken = taken.new } ≡ taken_answer (record { finding = self.old; taken = taken.old }) request tags bytes.now }
    {
        match read_answer(
            self.known,
            request,
            bytes,
            tags,
            taken.controller.max_psa_size,
        ) {
            Found::Refused(why) => taken.give_up(why),
            Found::Next(known, next) => {
                self.known = known;
                self.request(next);
            }
        }
    }

    /// The next access of a command that is put, or its event.
    fn put(&mut self, clearing: Clearing, at: Putting, now: u64)
        ensures { self.new ≡ clearing_put self.old clearing at now }
    {
        self.step = match at {
            Putting::Link => FindStep::Clear {
                clearing,
                at: Putting::Body,
            },
            Putting::Body => FindStep::Clear {
                clearing,
                at: Putting::Last,
            },
            Putting::Last => FindStep::Clear {
                clearing,
                at: Putting::Bell,
            },
            Putting::Bell => FindStep::ServeClear {
                clearing,
                came: None,
                service: Service::begun(now, LIMIT),
            },
        };
    }

    /// The next store of row 14, or its command.
    fn piped(
        &mut self,
        taken: &Taken,
        function: UasFunction,
        streams: Streams,
        next: Option<Piping>,
    )
        ensures { self.new ≡ piped self.old taken.now.commands function streams next }
    {
        self.step = match next {
            Some(at) => FindStep::Pipes {
                function,
                streams,
                at,
            },
            None => FindStep::Clear {
                clearing: Clearing::Configure,
                at: taken.commands.begun_command(),
            },
        };
    }

    /// Behind a request that has no answer's bytes: the setting, where it isn't 0, and then the pipes.
    pub(crate) fn set_done(&mut self, request: Request)
        ensures { self.new ≡ set_done self.old request }
    {
        match self.known.disk {
            Some((function, streams)) => self.set_for(request, function, streams),
            None => self.request(Request::Device),
        }
    }

    fn set_for(&mut self, request: Request, function: UasFunction, streams: Streams)
        ensures { self.new ≡ set_for self.old request function streams }
    {
        match request {
            Request::SetConfiguration(_) if function.alternate != 0 => {
                self.request(Request::SetInterface {
                    interface: function.interface,
                    alternate: function.alternate,
                });
            }
            _ => {
                self.step = FindStep::Pipes {
                    function,
                    streams,
                    at: Piping::Zero(1),
                };
            }
        }
    }

    /// An interrupt ends a rest between looks for events.
    pub(crate) fn interrupt(&mut self)
        ensures { self.new ≡ find_interrupted self.old }
    {
        match self.step {
            FindStep::Serve {
                request,
                moved,
                ended,
                service,
            } => {
                self.step = FindStep::Serve {
                    request,
                    moved,
                    ended,
                    service: service.woken(),
                };
            }
            FindStep::ServeClear {
                clearing,
                came,
                service,
            } => {
                self.step = FindStep::ServeClear {
                    clearing,
                    came,
                    service: service.woken(),
                };
            }
            _ => {}
        }
    }

    /// The next transfer has the next third.
    pub(crate) fn pass_third(&mut self)
        ensures { self.new ≡ in_next_third self.old }
    {
        self.third = next_third(self.third);
    }
}
