//! What a transfer's, and a command's, events came to.
ghost use Rattle.std.specs.Prelude.{◌≡◌};
ghost use Rattle.disk_up.specs.Findings.{World};
ghost use Rattle.disk_up.specs.Endings.{clear_closed, clear_event, clear_served, clear_went, cleared, closed, done, ended_as, event_came, seen_in, served, stalled, went};

use crate::control::{Seen, event_seen};
use crate::finding::{Clearing, Ending, FindStep, Finding};
use crate::requests::Request;
use bring_up::{Completed, Served, Service, Serving, Taken, Why, taken_event};
use host_trbs::{Completion, Event};

impl Finding {
    /// A step of the look for a transfer's events.
    pub(crate) fn serve(
        &mut self,
        taken: &mut Taken,
        request: Request,
        moved: u16,
        ended: Option<Ending>,
        service: Service,
        now: u64,
        value: u32,
        bytes: &[u8],
    )
        ensures { record { finding = self.new; taken = taken.new } ≡ served taken.old.check (record { finding = self.old; taken = taken.old }) request moved ended service now value bytes.now }
    {
        if let Some(check) = taken.check {
            taken.check_port(check, value);
            return;
        }
        match service.at {
            Serving::Event => self.event_came(
                taken,
                request,
                moved,
                ended,
                service,
                now,
                taken_event(bytes),
            ),
            _ => self.went(
                taken,
                request,
                moved,
                ended,
                service,
                now,
                service.after(taken.events.cycle, value),
            ),
        }
    }

    fn event_came(
        &mut self,
        taken: &mut Taken,
        request: Request,
        moved: u16,
        ended: Option<Ending>,
        service: Service,
        now: u64,
        event: Event,
    )
        ensures { record { finding = self.new; taken = taken.new } ≡ event_came (record { finding = self.old; taken = taken.old }) request moved ended service now event }
    {
        taken.pass_event(event);
        match event {
            Event::Controller { .. } => taken.restart(now),
            _ => {
                let seen = event_seen(&taken.layout, self.third, request, event);
                self.seen(request, moved, ended, service, seen);
            }
        }
    }

    /// What an event says of the transfer.
    fn seen(
        &mut self,
        request: Request,
        moved: u16,
        ended: Option<Ending>,
        service: Service,
        seen: Seen,
    )
        ensures { self.new ≡ seen_in self.old request moved ended service seen }
    {
        let (moved, ended, service) = match seen {
            Seen::Other => (moved, ended, service.passed()),
            Seen::Moved(count) => (count, ended, service.passed()),
            Seen::Done => (moved, Some(Ending::Done), service.closing()),
            Seen::Stalled => (moved, Some(Ending::Stalled), service.closing()),
            Seen::Failed => (moved, Some(Ending::Failed), service.closing()),
        };
        self.step = FindStep::Serve {
            request,
            moved,
            ended,
            service,
        };
    }

    fn went(
        &mut self,
        taken: &mut Taken,
        request: Request,
        moved: u16,
        ended: Option<Ending>,
        service: Service,
        now: u64,
        how: Served,
    )
        ensures { record { finding = self.new; taken = taken.new } ≡ went (record { finding = self.old; taken = taken.old }) request moved ended service now how }
    {
        match how {
            Served::On(service) => {
                self.step = FindStep::Serve {
                    request,
                    moved,
                    ended,
                    service,
                };
            }
            Served::Closed => self.closed(taken, request, moved, ended, service, now),
            Served::Broken => taken.restart(now),
        }
    }

    /// All events were read: the transfer ended, or they are looked for again, up to its limit.
    fn closed(
        &mut self,
        taken: &mut Taken,
        request: Request,
        moved: u16,
        ended: Option<Ending>,
        service: Service,
        now: u64,
    )
        ensures { record { finding = self.new; taken = taken.new } ≡ closed (record { finding = self.old; taken = taken.old }) request moved ended service now }
    {
        match ended {
            Some(ending) => self.ended(taken, request, moved, ending),
            None if service.limit <= now => taken.try_again(),
            None => {
                self.step = FindStep::Serve {
                    request,
                    moved,
                    ended: None,
                    service: service.rested(now),
                };
            }
        }
    }

    fn ended(&mut self, taken: &mut Taken, request: Request, moved: u16, ending: Ending)
        ensures { record { finding = self.new; taken = taken.new } ≡ ended_as (record { finding = self.old; taken = taken.old }) request moved ending }
    {
        match ending {
            Ending::Done => {
                self.pass_third();
                self.done(request, moved);
            }
            Ending::Stalled => self.stalled(taken, request),
            Ending::Failed => taken.try_again(),
        }
    }

    /// A transfer was done: its bytes are loaded, where it has any.
    fn done(&mut self, request: Request, moved: u16)
        ensures { self.new ≡ done self.old request moved }
    {
        if request.packet().length == 0 {
            self.set_done(request);
        } else {
            self.step = FindStep::Take { request, moved };
        }
    }

    /// A device may refuse its BOS; another request that it refuses is tried again with the whole device.
    fn stalled(&mut self, taken: &mut Taken, request: Request)
        ensures { record { finding = self.new; taken = taken.new } ≡ stalled (record { finding = self.old; taken = taken.old }) request }
    {
        if request.may_stall() {
            self.pass_third();
            self.step = FindStep::Clear {
                clearing: Clearing::Reset,
                at: taken.commands.begun_command(),
            };
        } else {
            taken.try_again();
        }
    }

    /// A step of the look for a command's event.
    pub(crate) fn serve_clear(
        &mut self,
        taken: &mut Taken,
        clearing: Clearing,
        came: Option<Completed>,
        service: Service,
        now: u64,
        value: u32,
        bytes: &[u8],
    )
        ensures { record { finding = self.new; taken = taken.new } ≡ clear_served taken.old.check (record { finding = self.old; taken = taken.old }) clearing came service now value bytes.now }
    {
        if let Some(check) = taken.check {
            taken.check_port(check, value);
            return;
        }
        match service.at {
            Serving::Event => self.clear_event(
                taken,
                clearing,
                came,
                service,
                now,
                taken_event(bytes),
            ),
            _ => self.clear_went(
                taken,
                clearing,
                came,
                service,
                now,
                service.after(taken.events.cycle, value),
            ),
        }
    }

    fn clear_event(
        &mut self,
        taken: &mut Taken,
        clearing: Clearing,
        came: Option<Completed>,
        service: Service,
        now: u64,
        event: Event,
    )
        ensures { record { finding = self.new; taken = taken.new } ≡ clear_event (record { finding = self.old; taken = taken.old }) clearing came service now event }
    {
        taken.pass_event(event);
        match event {
            Event::Controller { .. } => taken.restart(now),
            Event::Command { trb, code, slot } if trb == taken.commands.address(&taken.layout) => {
                self.step = FindStep::ServeClear {
                    clearing,
                    came: Some(Completed { code, slot }),
                    service: service.closing(),
                };
            }
            _ => {
                self.step = FindStep::ServeClear {
                    clearing,
                    came,
                    service: service.passed(),
                };
            }
        }
    }

    fn clear_went(
        &mut self,
        taken: &mut Taken,
        clearing: Clearing,
        came: Option<Completed>,
        service: Service,
        now: u64,
        how: Served,
    )
        ensures { record { finding = self.new; taken = taken.new } ≡ clear_went (record { finding = self.old; taken = taken.old }) clearing came service now how }
    {
        match how {
            Served::On(service) => {
                self.step = FindStep::ServeClear {
                    clearing,
                    came,
                    service,
                };
            }
            Served::Closed => self.clear_closed(taken, clearing, came, service, now),
            Served::Broken => taken.restart(now),
        }
    }

    fn clear_closed(
        &mut self,
        taken: &mut Taken,
        clearing: Clearing,
        came: Option<Completed>,
        service: Service,
        now: u64,
    )
        ensures { record { finding = self.new; taken = taken.new } ≡ clear_closed (record { finding = self.old; taken = taken.old }) clearing came service now }
    {
        match came {
            Some(ended) => {
                taken.commands = taken.commands.next();
                self.cleared(taken, clearing, Completion::of(ended.code), now);
            }
            None if service.limit <= now => taken.restart(now),
            None => {
                self.step = FindStep::ServeClear {
                    clearing,
                    came: None,
                    service: service.rested(now),
                };
            }
        }
    }

    /// A command ended: the other one, or the configuration.
    fn cleared(&mut self, taken: &mut Taken, clearing: Clearing, completion: Completion, now: u64)
        ensures { record { finding = self.new; taken = taken.new } ≡ cleared (record { finding = self.old; taken = taken.old }) clearing completion now }
    {
        match (completion, clearing) {
            (Completion::Success | Completion::ContextState, Clearing::Reset) => {
                self.step = FindStep::Clear {
                    clearing: Clearing::Move,
                    at: taken.commands.begun_command(),
                };
            }
            (Completion::Success, Clearing::Move) => self.request(Request::ConfigurationHead),
            (Completion::Success, Clearing::Configure) => self.step = FindStep::Configured,
            (_, Clearing::Configure) => taken.give_up(Why::NotConfigured),
            (_, Clearing::Reset | Clearing::Move) => taken.restart(now),
        }
    }
}
