//! A controller that memory was lent for, and the table's steps on it.
ghost use Rattle.std.specs.Prelude.{◌≡◌, ◌<◌, ◌^◌, replicate, slice_set};
ghost use Rattle.bring_up.specs.Table.{asked_command, look_on, look_read, port_state, ports_advanced, refused, step_addressed, taken_access, taken_begun, taken_interrupted, word_in};
ghost use Rattle.bring_up.specs.Completions.{advanced};

use crate::access::Access;
use crate::checks::PortCheck;
use crate::commands::{Asked, CommandRing, put_after};
use crate::controller::{Controller, Port, PortPlace, is_set};
use crate::options::Quirks;
use crate::ports::{CONNECTED, PortReset, PortState, Ports, changes_in, look_begun, looked_on};
use crate::service::EventRing;
use crate::slots::Device;
use crate::step::{Ended, Step};
use crate::takeover::first_step;
use crate::why::Why;
use byteorder::{ByteOrder, LittleEndian};
use host_layout::{Fixed, Layout};
use host_trbs::Command;

/// How often something was tried again.
#[derive(Clone, Copy)]
pub struct Tries {
    /// Resets of the port, and Address Device, of this device.
    pub resets: u8,
    pub addressings: u8,
    /// Restarts of this device, and of the controller, since a command of a client was good.
    pub of_device: u8,
    pub of_all: u8,
}

/// A controller that memory was lent for.
#[derive(Clone, Copy)]
pub struct Taken {
    pub controller: Controller,
    pub layout: Layout,
    pub quirks: Quirks,
    pub step: Step,
    pub ports: [PortState; 256],
    pub events: EventRing,
    pub commands: CommandRing,
    pub device: Device,
    pub tries: Tries,
    /// A port changed while none had a device.
    pub has_change: bool,
    /// The port of a device that has its address changed, and is checked.
    pub check: Option<PortCheck>,
}

/// The most resets of a port, and Address Device of a device; the most restarts.
pub(crate) const MOST_RESETS: u8 = 5;

pub(crate) const MOST_ADDRESSINGS: u8 = 2;

pub(crate) const MOST_RESTARTS: u8 = 2;

/// ms: of a port's reset; of a device to recover from it, and to take its address.
pub(crate) const PORT_RESET_LIMIT: u64 = 800;

pub(crate) const RECOVERY: u64 = 50;

pub(crate) const ADDRESS_RECOVERY: u64 = 10;

/// SuperSpeed (Port Speed, 7.2.1).
pub(crate) const SUPER_SPEED: u8 = 4;

/// The word of four bytes; 0 of others.
pub fn word_in(bytes: &[u8]) -> u32
    ensures { result ≡ word_in bytes.now }
{
    if bytes.len() == 4 {
        LittleEndian::read_u32(bytes)
    } else {
        0
    }
}

impl Taken {
    pub(crate) fn begun(controller: Controller, layout: Layout, quirks: Quirks, now: u64) -> Taken
        ensures { result ≡ taken_begun controller layout quirks now }
    {
        Taken {
            controller,
            layout,
            quirks,
            step: first_step(&controller, now),
            ports: [PortState {
                since: None,
                refused: None,
            }; 256],
            events: EventRing::begun(),
            commands: CommandRing::begun(),
            device: Device {
                port: Port {
                    number: 0,
                    slot_type: 0,
                },
                speed: 0,
                slot: 0,
            },
            tries: Tries {
                resets: 0,
                addressings: 0,
                of_device: 0,
                of_all: 0,
            },
            has_change: false,
            check: None,
        }
    }

    /// The access that its step tells.
    pub(crate) fn access(&self) -> Access
        ensures { result ≡ taken_access self.now }
    {
        let c = &self.controller;
        match self.step {
            Step::Handoff(at) => at.access(c),
            Step::Halt(at) => at.access(c),
            Step::Reset(at) => at.access(c),
            Step::Program(at) => at.access(c, &self.layout),
            Step::Run(at) => at.access(c),
            Step::Ports(at) => at.access(c),
            Step::PortReset(at) => at.access(c, self.device.port.number),
            Step::Addressing(at) => at.access(&self.layout, self.device),
            Step::Command { asked, at } => {
                let command = self.command(asked);
                self.commands.put(
                    c,
                    &self.layout,
                    at,
                    command.words(self.commands.cycle),
                    command.words(!self.commands.cycle),
                )
            }
            Step::Serve { service, .. } => service.access(c, &self.layout, self.events),
            Step::Watch(service) => service.access(c, &self.layout, self.events),
            Step::Ended(_) => Access::Rest(u64::MAX),
        }
    }

    /// The command that is asked.
    fn command(&self, asked: Asked) -> Command
        ensures { result ≡ asked_command self.now asked }
    {
        match asked {
            Asked::EnableSlot => Command::EnableSlot {
                slot_type: self.device.port.slot_type,
            },
            Asked::AddressDevice => Command::AddressDevice {
                input: self.layout.fixed(Fixed::InputContext),
                slot: self.device.slot,
            },
            Asked::ResetPort | Asked::Forget | Asked::Refuse(_) => Command::DisableSlot {
                slot: self.device.slot,
            },
        }
    }

    /// Goes on behind its step's access, with what was read.
    pub(crate) fn advance(&mut self, now: u64, bytes: &[u8])
        ensures { self.new ≡ advanced self.old now bytes.now }
    {
        let value = word_in(bytes);
        match self.step {
            Step::Handoff(at) => self.step = at.after(now, value),
            Step::Halt(at) => self.step = at.after(now, value),
            Step::Reset(at) => self.step = at.after(now, value),
            Step::Program(at) => {
                self.step = at.after(&self.controller, &self.layout, self.quirks.takes_low_last);
            }
            Step::Run(at) => self.step = at.after(now, value),
            Step::Ports(at) => self.ports_advance(at, now, value),
            Step::PortReset(at) => self.reset_advance(at, now, value),
            Step::Addressing(at) => self.step = at.after(self.commands),
            Step::Command { asked, at } => self.step = put_after(asked, at, now),
            Step::Serve {
                asked,
                came,
                service,
            } => self.serve(asked, came, service, now, value, bytes),
            Step::Watch(service) => self.watch(service, now, value, bytes),
            Step::Ended(_) => {}
        }
    }

    fn ports_advance(&mut self, at: Ports, now: u64, value: u32)
        ensures { self.new ≡ ports_advanced self.old at now value }
    {
        match at {
            Ports::Look {
                place,
                limit,
                is_warmed,
            } => self.look_read(place, limit, is_warmed, now, value),
            Ports::ClearChanges {
                place,
                limit,
                is_warmed,
                value,
            } => self.look(place, limit, is_warmed, now, is_set(value, CONNECTED)),
            _ => self.step = at.after(&self.controller, now, value),
        }
    }

    /// A port was read: its change bits are cleared, and then it is looked at.
    fn look_read(&mut self, place: PortPlace, limit: u64, is_warmed: bool, now: u64, value: u32)
        ensures { self.new ≡ look_read self.old place limit is_warmed now value }
    {
        if changes_in(value) == 0 {
            self.look(place, limit, is_warmed, now, is_set(value, CONNECTED));
        } else {
            self.step = Step::Ports(Ports::ClearChanges {
                place,
                limit,
                is_warmed,
                value,
            });
        }
    }

    /// A port's device is brought up where it was there long enough.
    fn look(&mut self, place: PortPlace, limit: u64, is_warmed: bool, now: u64, is_connected: bool)
        ensures { self.new ≡ look_on self.old place limit is_warmed now is_connected }
    {
        let Some(port) = self.controller.port_at(place) else {
            self.step = looked_on(&self.controller, now, place, limit, is_warmed);
            return;
        };
        let state = self.port_state(port.number).looked_at(now, is_connected);
        self.ports[usize::from(port.number)] = state;
        if state.is_ready(now) {
            self.device = Device {
                port,
                speed: 0,
                slot: 0,
            };
            self.tries = Tries {
                resets: 0,
                addressings: 0,
                of_device: 0,
                of_all: self.tries.of_all,
            };
            self.step = Step::PortReset(PortReset::Read);
        } else {
            self.step = looked_on(&self.controller, now, place, limit, is_warmed);
        }
    }

    /// What is known of a port.
    pub(crate) fn port_state(&self, number: u8) -> PortState
        ensures { result ≡ port_state self.now.ports number }
    {
        match self.ports.get(usize::from(number)) {
            Some(state) => *state,
            None => PortState {
                since: None,
                refused: None,
            },
        }
    }

    /// The device isn't used, until another is at its port; the next port is tried.
    pub(crate) fn refuse(&mut self, why: Why, now: u64)
        ensures { self.new ≡ refused self.old why now }
    {
        let number = self.device.port.number;
        let since = self.port_state(number).since;
        self.ports[usize::from(number)] = PortState {
            since,
            refused: Some(why),
        };
        self.step = look_begun(now, false);
    }

    /// Whether its device has its address.
    pub fn is_addressed(&self) -> bool
        ensures { result ≡ step_addressed self.now.step }
    {
        matches!(self.step, Step::Ended(Ended::Addressed))
    }

    /// An interrupt ends a rest between looks for events.
    pub(crate) fn interrupt(&mut self)
        ensures { self.new ≡ taken_interrupted self.old }
    {
        match self.step {
            Step::Serve {
                asked,
                came,
                service,
            } => {
                self.step = Step::Serve {
                    asked,
                    came,
                    service: service.woken(),
                };
            }
            Step::Watch(service) => self.step = Step::Watch(service.woken()),
            _ => {}
        }
    }
}
