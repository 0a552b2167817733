//! A Port Status Change Event of the port whose device has its address (xHCI 1.2, 4.19 and 5.4.8).
ghost use Rattle.std.specs.Prelude.{◌≡◌};
ghost use Rattle.bring_up.specs.PortChecks.{check_access, check_advanced, check_after, check_begun, check_read, checked_as, event_passed, look_access};

use crate::access::Access;
use crate::commands::Asked;
use crate::controller::{Controller, is_set};
use crate::ports::{
    CONNECTED, ENABLED, changes_cleared, changes_in, is_inactive, port_read, port_written,
};
use crate::service::Service;
use crate::slots::command_begun;
use crate::taken::Taken;
use host_trbs::Event;

/// A check of the port: PORTSC is read, and its change bits are cleared, in this value.
#[derive(Clone, Copy)]
pub enum PortCheck {
    Read,
    Clear(u32),
}

/// What a check says.
#[derive(Clone, Copy)]
pub enum Checked {
    On(PortCheck),
    /// No device is there.
    Unplugged,
    /// The port isn't enabled, or its link is inactive.
    Lost,
    /// The device is there as before.
    Same,
}

impl PortCheck {
    fn access(self, c: &Controller, number: u8) -> Access
        ensures { result ≡ check_access self c.now number }
    {
        match self {
            PortCheck::Read => port_read(c, number),
            PortCheck::Clear(value) => port_written(c, number, changes_cleared(value)),
        }
    }

    fn after(self, value: u32) -> Checked
        ensures { result ≡ check_after self value }
    {
        match self {
            PortCheck::Read if changes_in(value) != 0 => Checked::On(PortCheck::Clear(value)),
            PortCheck::Read => check_read(value),
            PortCheck::Clear(old) => check_read(old),
        }
    }
}

fn check_read(value: u32) -> Checked
    ensures { result ≡ check_read value }
{
    if !is_set(value, CONNECTED) {
        Checked::Unplugged
    } else if !is_set(value, ENABLED) || is_inactive(value) {
        Checked::Lost
    } else {
        Checked::Same
    }
}

/// A check begins with an event of the port.
fn check_begun(event: Event, number: u8) -> Option<PortCheck>
    ensures { result ≡ check_begun event number }
{
    match event {
        Event::Port { port } if port == number => Some(PortCheck::Read),
        _ => None,
    }
}

impl Taken {
    /// An event was read, of a device that has its address.
    pub fn pass_event(&mut self, event: Event)
        ensures { self.new ≡ event_passed self.old event }
    {
        self.events = self.events.next();
        self.check = check_begun(event, self.device.port.number);
    }

    /// The access of a look for its events: a check of its port comes first.
    pub fn look_access(&self, service: Service) -> Access
        ensures { result ≡ look_access self.now.check self.now service }
    {
        match self.check {
            Some(check) => check.access(&self.controller, self.device.port.number),
            None => service.access(&self.controller, &self.layout, self.events),
        }
    }

    /// Goes on behind a check's access, with what was read.
    pub fn check_port(&mut self, check: PortCheck, value: u32)
        ensures { self.new ≡ check_advanced self.old check value }
    {
        self.checked_as(check.after(value));
    }

    fn checked_as(&mut self, checked: Checked)
        ensures { self.new ≡ checked_as checked self.old }
    {
        self.check = None;
        match checked {
            Checked::On(check) => self.check = Some(check),
            Checked::Unplugged => self.step = command_begun(self.commands, Asked::Forget),
            Checked::Lost => self.try_again(),
            Checked::Same => {}
        }
    }
}
