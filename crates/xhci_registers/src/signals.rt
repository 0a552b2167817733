//! What the controller itself sets in its registers.
ghost use Rattle.std.specs.Prelude.{◌≡◌};
ghost use Rattle.xhci_registers.specs.Signals.{detecting, failed, is_asserted, is_detecting, messaged, plugged, raised, tells_host_error, told, with_port};

use crate::{Port, Registers};

impl Registers {
    /// An event that isn't blocked was posted: IP, EINT and EHB are set, unless EHB was (4.17.2).
    pub fn raise(&mut self)
        ensures { self.new ≡ raised self.old }
    {
        if !self.interrupter.busy {
            self.event_interrupt = true;
            self.interrupter.pending = true;
            self.interrupter.busy = true;
        }
    }

    /// Whether the interrupt's pin is asserted: IP and IE and INTE.
    pub fn is_asserted(&self) -> bool
        ensures { result ≡ is_asserted self.now }
    {
        self.interrupter.pending && self.interrupter.enabled && self.interrupts
    }

    /// Whether a message is to be sent (MSI, MSI-X), which clears IP: true once for each interrupt.
    pub fn take_message(&mut self) -> bool
        ensures message { result ≡ is_asserted self.old }
        ensures registers { self.new ≡ messaged self.old }
    {
        let asserted = self.is_asserted();
        if asserted {
            self.interrupter.pending = false;
        }
        asserted
    }

    /// Whether the system is to be told of an error of its own, out of band (PCI's SERR#): HSE and HSEE.
    pub fn tells_host_error(&self) -> bool
        ensures { result ≡ tells_host_error self.now }
    {
        self.host_error && self.host_error_interrupts
    }

    /// Memory of the controller's own data structures isn't there: HSE is set, and the controller stops (4.24).
    pub fn fail(&mut self)
        ensures { self.new ≡ failed self.old }
    {
        self.host_error = true;
        self.runs = false;
        self.command_ring.runs = false;
    }

    pub(crate) fn set_port(&mut self, port: Port)
        ensures { self.new ≡ with_port self.old port }
    {
        self.port_change = self.port_change || port.owes_event && !self.port.owes_event;
        self.port = port;
    }

    /// A controller that runs detects a disk that is plugged in (4.19.1.2): whether it did so now.
    pub fn detect(&mut self) -> bool
        ensures detects { result ≡ is_detecting self.old }
        ensures registers { self.new ≡ detecting self.old }
    {
        let detects = self.runs && self.port.attached && self.port.is_idle();
        if detects {
            let mut port = self.port;
            port.detect();
            self.set_port(port);
        }
        detects
    }

    /// Plugs the disk in, or pulls it.
    pub fn plug(&mut self, attached: bool)
        ensures { self.new ≡ plugged self.old attached }
    {
        let mut port = self.port;
        port.attached = attached;
        if !attached && port.connected {
            port.lose();
            self.set_port(port);
        } else {
            self.port = port;
        }
    }

    /// The Port Status Change event that the port owed was posted.
    pub fn told_port(&mut self)
        ensures { self.new ≡ told self.old }
    {
        self.port.owes_event = false;
    }
}
