//! Rows 9 to 11: what a device's reset and its commands came to.
ghost use Rattle.std.specs.Prelude.{◌≡◌, ◌<◌, ◌^◌, slice_set};
ghost use Rattle.bring_up.specs.Completions.{addressed, closed, completed, disabled, enabled, event_seen, event_watched, forgotten, given_up, is_enabled, reset_advanced, reset_late, reset_waited, restarted, served, service_went, speed_read, tried_again, watch_went, watched};

use crate::access::later;
use crate::commands::{Asked, CommandRing, Completed};
use crate::controller::is_set;
use crate::ports::{
    CONNECTED, ENABLED, PORT_PERIOD, PortReset, PortState, RESETTING, changes_in, look_begun,
};
use crate::service::{EventRing, Served, Service, Serving, taken_event};
use crate::slots::{Addressing, command_begun};
use crate::step::{Ended, Step};
use crate::taken::{
    ADDRESS_RECOVERY, MOST_ADDRESSINGS, MOST_RESETS, MOST_RESTARTS, PORT_RESET_LIMIT, RECOVERY,
    SUPER_SPEED, Taken,
};
use crate::takeover::first_step;
use crate::waits::{Wait, Waited};
use crate::why::Why;
use host_trbs::{Completion, Event};

impl Taken {
    pub(crate) fn reset_advance(&mut self, at: PortReset, now: u64, value: u32)
        ensures { self.new ≡ reset_advanced self.old at now value }
    {
        match at {
            PortReset::Read => self.step = Step::PortReset(PortReset::Start(value)),
            PortReset::Start(_) => {
                self.step = Step::PortReset(PortReset::Done(Wait::begun(now, PORT_RESET_LIMIT)));
            }
            PortReset::Done(wait) => {
                let waited = wait.waited(now, PORT_PERIOD, is_enabled(value));
                self.reset_waited(waited, now, value);
            }
            PortReset::Clear(_) => {
                self.step = Step::PortReset(PortReset::Recover(later(now, RECOVERY)));
            }
            PortReset::Late(_) => self.reset_late(now),
            PortReset::Recover(_) => self.step = Step::PortReset(PortReset::Speed),
            PortReset::Speed => self.speed_read((value >> 10 & 15) as u8, now),
        }
    }

    fn reset_waited(&mut self, waited: Waited, now: u64, value: u32)
        ensures { self.new ≡ reset_waited self.old waited now value }
    {
        match waited {
            Waited::So => self.step = Step::PortReset(PortReset::Clear(value)),
            Waited::Late if changes_in(value) != 0 => {
                self.step = Step::PortReset(PortReset::Late(value));
            }
            Waited::Late => self.reset_late(now),
            Waited::On(wait) => self.step = Step::PortReset(PortReset::Done(wait)),
        }
    }

    /// The reset is tried again, or given up.
    fn reset_late(&mut self, now: u64)
        ensures { self.new ≡ reset_late self.old now }
    {
        self.tries.resets = self.tries.resets.saturating_add(1);
        if self.tries.resets < MOST_RESETS {
            self.step = Step::PortReset(PortReset::Read);
        } else {
            self.refuse(Why::NoReset, now);
        }
    }

    fn speed_read(&mut self, speed: u8, now: u64)
        ensures { self.new ≡ speed_read self.old speed now }
    {
        if speed < SUPER_SPEED {
            self.refuse(Why::NotSuperSpeed, now);
        } else {
            self.device.speed = speed;
            self.step = Step::Addressing(Addressing::ControlRing);
        }
    }

    /// A step of the look for a command's event.
    pub(crate) fn serve(
        &mut self,
        asked: Asked,
        came: Option<Completed>,
        service: Service,
        now: u64,
        value: u32,
        bytes: &[u8],
    )
        ensures { self.new ≡ served self.old asked came service now value bytes.now }
    {
        match service.at {
            Serving::Event => self.event_seen(asked, came, service, now, taken_event(bytes)),
            _ => self.service_went(
                asked,
                came,
                service,
                now,
                service.after(self.events.cycle, value),
            ),
        }
    }

    fn service_went(
        &mut self,
        asked: Asked,
        came: Option<Completed>,
        service: Service,
        now: u64,
        went: Served,
    )
        ensures { self.new ≡ service_went self.old asked came service now went }
    {
        match went {
            Served::On(service) => {
                self.step = Step::Serve {
                    asked,
                    came,
                    service,
                };
            }
            Served::Closed => self.closed(asked, came, service, now),
            Served::Broken => self.restart(now),
        }
    }

    /// An event was read.
    fn event_seen(
        &mut self,
        asked: Asked,
        came: Option<Completed>,
        service: Service,
        now: u64,
        event: Event,
    )
        ensures { self.new ≡ event_seen self.old asked came service now event }
    {
        self.events = self.events.next();
        match event {
            Event::Controller { .. } => self.restart(now),
            Event::Command { trb, code, slot } if trb == self.commands.address(&self.layout) => {
                self.step = Step::Serve {
                    asked,
                    came: Some(Completed { code, slot }),
                    service: service.closing(),
                };
            }
            _ => {
                self.step = Step::Serve {
                    asked,
                    came,
                    service: service.passed(),
                };
            }
        }
    }

    /// All events were read: the command ended, or it is looked for again, up to its limit.
    fn closed(&mut self, asked: Asked, came: Option<Completed>, service: Service, now: u64)
        ensures { self.new ≡ closed self.old asked came service now }
    {
        match came {
            Some(ended) => {
                self.commands = self.commands.next();
                self.completed(asked, ended, now);
            }
            None if service.limit <= now => self.restart(now),
            None => {
                self.step = Step::Serve {
                    asked,
                    came: None,
                    service: service.rested(now),
                };
            }
        }
    }

    /// A command ended.
    fn completed(&mut self, asked: Asked, ended: Completed, now: u64)
        ensures { self.new ≡ completed self.old asked ended now }
    {
        let completion = Completion::of(ended.code);
        match asked {
            Asked::EnableSlot => self.enabled(completion, ended.slot, now),
            Asked::AddressDevice => self.addressed(completion, now),
            Asked::ResetPort => self.disabled(completion, None, now),
            Asked::Forget => self.forgotten(completion, now),
            Asked::Refuse(why) => self.disabled(completion, Some(why), now),
        }
    }

    fn enabled(&mut self, completion: Completion, slot: u8, now: u64)
        ensures { self.new ≡ enabled self.old completion slot now }
    {
        match completion {
            Completion::Success if 1 <= slot && slot <= self.controller.slots => {
                self.device.slot = slot;
                self.step = Step::Addressing(Addressing::Entry);
            }
            _ => self.restart(now),
        }
    }

    fn addressed(&mut self, completion: Completion, now: u64)
        ensures { self.new ≡ addressed self.old completion now }
    {
        match completion {
            Completion::Success => {
                self.step = Step::Addressing(Addressing::Settle(later(now, ADDRESS_RECOVERY)));
            }
            Completion::Transaction if self.tries.addressings < MOST_ADDRESSINGS => {
                self.tries.addressings = self.tries.addressings.saturating_add(1);
                self.step = command_begun(self.commands, Asked::ResetPort);
            }
            _ => self.step = command_begun(self.commands, Asked::Refuse(Why::NoAddress)),
        }
    }

    fn disabled(&mut self, completion: Completion, why: Option<Why>, now: u64)
        ensures { self.new ≡ disabled self.old completion why now }
    {
        match (completion, why) {
            (Completion::Success, None) => self.step = Step::PortReset(PortReset::Read),
            (Completion::Success, Some(why)) => self.refuse(why, now),
            _ => self.restart(now),
        }
    }

    /// The slot of a device that was pulled is taken back: nothing is known of its port.
    fn forgotten(&mut self, completion: Completion, now: u64)
        ensures { self.new ≡ forgotten self.old completion now }
    {
        match completion {
            Completion::Success => {
                self.ports[usize::from(self.device.port.number)] = PortState {
                    since: None,
                    refused: None,
                };
                self.step = look_begun(now, false);
            }
            _ => self.restart(now),
        }
    }

    /// The controller is taken anew, twice at most.
    pub fn restart(&mut self, now: u64)
        ensures { self.new ≡ restarted self.old now }
    {
        self.events = EventRing::begun();
        self.commands = CommandRing::begun();
        if self.tries.of_all < MOST_RESTARTS {
            self.tries.of_all = self.tries.of_all + 1;
            self.step = first_step(&self.controller, now);
        } else {
            self.step = Step::Ended(Ended::Dead);
        }
    }

    /// The device that has its address isn't used: its slot is taken back, and the next port is tried.
    pub fn give_up(&mut self, why: Why)
        ensures { self.new ≡ given_up self.old why }
    {
        self.step = command_begun(self.commands, Asked::Refuse(why));
    }

    /// The device that has its address is tried again, from its port's reset on; a third time it is given up.
    pub fn try_again(&mut self)
        ensures { self.new ≡ tried_again self.old }
    {
        if self.tries.of_device < MOST_RESTARTS {
            self.tries.of_device = self.tries.of_device.saturating_add(1);
            self.step = command_begun(self.commands, Asked::ResetPort);
        } else {
            self.give_up(Why::Silent);
        }
    }

    /// A step of the look for a port's change.
    pub(crate) fn watch(&mut self, service: Service, now: u64, value: u32, bytes: &[u8])
        ensures { self.new ≡ watched self.old service now value bytes.now }
    {
        match service.at {
            Serving::Event => self.event_watched(service, now, taken_event(bytes)),
            _ => self.watch_went(now, service.after(self.events.cycle, value)),
        }
    }

    fn watch_went(&mut self, now: u64, went: Served)
        ensures { self.new ≡ watch_went self.old now went }
    {
        match went {
            Served::On(service) => self.step = Step::Watch(service),
            Served::Closed if self.has_change => {
                self.has_change = false;
                self.step = look_begun(now, false);
            }
            Served::Closed => self.step = Step::Watch(Service::idle()),
            Served::Broken => self.restart(now),
        }
    }

    /// A port changed: what was known of it is forgotten.
    fn event_watched(&mut self, service: Service, now: u64, event: Event)
        ensures { self.new ≡ event_watched self.old service now event }
    {
        self.events = self.events.next();
        match event {
            Event::Controller { .. } => self.restart(now),
            Event::Port { port } => {
                self.ports[usize::from(port)] = PortState {
                    since: None,
                    refused: None,
                };
                self.has_change = true;
                self.step = Step::Watch(service.passed());
            }
            _ => self.step = Step::Watch(service.passed()),
        }
    }
}

/// Whether a port's reset is over and the port enabled.
fn is_enabled(value: u32) -> bool
    ensures { result ≡ is_enabled value }
{
    !is_set(value, RESETTING) && is_set(value, CONNECTED) && is_set(value, ENABLED)
}
