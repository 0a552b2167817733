//! The port of the disk: PORTSC and what changes it (xHCI 1.2, 4.19 and 5.4.8).
ghost use Rattle.std.specs.Prelude.{◌≡◌, ◌<◌, ◌≤◌, ◌^◌, true};
ghost use Rattle.xhci_registers.specs.Ports.{acknowledged, changed, cleared, detected, disabled_by, has_change, idle_port, is_disabled, is_idle, is_reset_by, is_suspended};
ghost use Rattle.xhci_registers.specs.Ports.{link_after_reset, link_number, linked_by, looked_for, lost, no_changes, no_wake, port_word, port_written, reset_by, resets, wake_in, wake_word};

use crate::bits::{field, is_set};

/// The state of a port's link, as far as it is told apart here.
#[derive(Clone, Copy, Debug, PartialEq, Eq)]
pub enum Link {
    U0,
    U3,
    Disabled,
    RxDetect,
}

/// The change bits of PORTSC that are ever set: CSC, WRC, PRC and PLC.
#[derive(Clone, Copy, Debug, PartialEq, Eq)]
pub struct Changes {
    pub connect: bool,
    pub warm_reset: bool,
    pub reset: bool,
    pub link: bool,
}

/// Which changes wake the system: WCE, WDE and WOE. They are kept and have no effect here.
#[derive(Clone, Copy, Debug, PartialEq, Eq)]
pub struct Wake {
    pub connect: bool,
    pub disconnect: bool,
    pub over_current: bool,
}

/// The port of the disk.
#[derive(Clone, Copy, Debug, PartialEq, Eq)]
pub struct Port {
    /// Whether the disk is plugged in.
    pub attached: bool,
    /// CCS, which the controller sets once it runs.
    pub connected: bool,
    /// PED.
    pub enabled: bool,
    /// PLS.
    pub link: Link,
    pub changes: Changes,
    /// Whether a Port Status Change event is still to be posted.
    pub owes_event: bool,
    pub wake: Wake,
    /// PORTPMSC: both timeouts, and FLA.
    pub power: u32,
}

impl Link {
    fn number(self) -> u32
        ensures { result ≡ link_number self }
    {
        match self {
            Link::U0 => 0,
            Link::U3 => 3,
            Link::Disabled => 4,
            Link::RxDetect => 5,
        }
    }

    fn is_suspended(self) -> bool
        ensures { result ≡ is_suspended self }
    {
        matches!(self, Link::U3)
    }

    fn is_disabled(self) -> bool
        ensures { result ≡ is_disabled self }
    {
        matches!(self, Link::Disabled)
    }
}

impl Changes {
    fn none() -> Changes
        ensures { result ≡ no_changes }
    {
        Changes {
            connect: false,
            warm_reset: false,
            reset: false,
            link: false,
        }
    }

    fn has_any(&self) -> bool
        ensures { result ≡ has_change self.now }
    {
        self.connect || self.warm_reset || self.reset || self.link
    }

    /// Those that a write of PORTSC leaves.
    fn cleared(&self, value: u32) -> Changes
        ensures { result ≡ cleared self.now value }
    {
        Changes {
            connect: self.connect && !is_set(value, 17),
            warm_reset: self.warm_reset && !is_set(value, 19),
            reset: self.reset && !is_set(value, 21),
            link: self.link && !is_set(value, 22),
        }
    }
}

impl Wake {
    pub(crate) fn none() -> Wake
        ensures { result ≡ no_wake }
    {
        Wake {
            connect: false,
            disconnect: false,
            over_current: false,
        }
    }

    /// Those that a write of PORTSC sets.
    pub(crate) fn of(value: u32) -> Wake
        ensures { result ≡ wake_in value }
    {
        Wake {
            connect: is_set(value, 25),
            disconnect: is_set(value, 26),
            over_current: is_set(value, 27),
        }
    }

    /// Their bits in PORTSC.
    pub(crate) fn word(&self) -> u32
        ensures word { result ≡ wake_word self.now }
        ensures fits { result ≤ 0xe000000 }
    {
        0x200_0000 * u32::from(self.connect)
            + 0x400_0000 * u32::from(self.disconnect)
            + 0x800_0000 * u32::from(self.over_current)
    }
}

impl Port {
    /// A port that told nothing yet; the disk may be plugged in.
    pub(crate) fn idle(attached: bool) -> Port
        ensures { result ≡ idle_port attached }
    {
        Port {
            attached,
            connected: false,
            enabled: false,
            link: Link::RxDetect,
            changes: Changes::none(),
            owes_event: false,
            wake: Wake::none(),
            power: 0,
        }
    }

    /// Whether it detected nothing yet and isn't disabled.
    pub(crate) fn is_idle(&self) -> bool
        ensures { result ≡ is_idle self.now }
    {
        !self.connected && matches!(self.link, Link::RxDetect)
    }

    /// Sets change bits; a Port Status Change event is owed where none was set.
    fn change(&mut self, more: &Changes)
        ensures { self.new ≡ changed self.old more.now }
    {
        let was = self.changes;
        self.owes_event = self.owes_event || !was.has_any() && more.has_any();
        self.changes = Changes {
            connect: was.connect || more.connect,
            warm_reset: was.warm_reset || more.warm_reset,
            reset: was.reset || more.reset,
            link: was.link || more.link,
        };
    }

    /// Detects the disk: it is connected and enabled, and the link is in U0 (4.19.1.2).
    pub(crate) fn detect(&mut self)
        ensures { self.new ≡ detected self.old }
    {
        self.connected = true;
        self.enabled = true;
        self.link = Link::U0;
        self.change(&Changes {
            connect: true,
            ..Changes::none()
        });
    }

    /// Loses the disk.
    pub(crate) fn lose(&mut self)
        ensures { self.new ≡ lost self.old }
    {
        self.connected = false;
        self.enabled = false;
        self.link = Link::RxDetect;
        self.change(&Changes {
            connect: true,
            ..Changes::none()
        });
    }

    /// PORTSC.
    pub(crate) fn word(&self) -> u32
        ensures { result ≡ port_word self.now }
    {
        u32::from(self.connected)
            + 2 * u32::from(self.enabled)
            + 32 * self.link.number()
            + 512
            + 4096 * u32::from(self.connected)
            + 0x2_0000 * u32::from(self.changes.connect)
            + 0x8_0000 * u32::from(self.changes.warm_reset)
            + 0x20_0000 * u32::from(self.changes.reset)
            + 0x40_0000 * u32::from(self.changes.link)
            + self.wake.word()
    }

    /// A write of PORTSC: whether it resets the device. Change bits that are written 1 are cleared; PED written 1 disables the port; PR
    /// and WPR reset the device that is there; PLS is written with LWS alone.
    pub(crate) fn write(&mut self, value: u32) -> bool
        ensures port { self.new ≡ port_written self.old value }
        ensures reset { result ≡ is_reset_by self.old value }
    {
        self.acknowledge(value);
        self.disable_by(value);
        let resets = self.is_reset_by(value);
        self.reset_by(value);
        self.link_by(value);
        resets
    }

    fn acknowledge(&mut self, value: u32)
        ensures { self.new ≡ acknowledged self.old value }
    {
        self.changes = self.changes.cleared(value);
        self.wake = Wake::of(value);
    }

    fn disable_by(&mut self, value: u32)
        ensures { self.new ≡ disabled_by self.old value }
    {
        if is_set(value, 1) && self.enabled {
            self.connected = false;
            self.enabled = false;
            self.link = Link::Disabled;
            self.change(&Changes {
                connect: true,
                ..Changes::none()
            });
        }
    }

    fn is_reset_by(&self, value: u32) -> bool
        ensures { result ≡ resets self.now value }
    {
        self.connected && (is_set(value, 4) || is_set(value, 31))
    }

    fn reset_by(&mut self, value: u32)
        ensures { self.new ≡ reset_by self.old value }
    {
        if self.is_reset_by(value) {
            if self.enabled {
                self.link = Link::U0;
            }
            self.change(&Changes {
                reset: true,
                warm_reset: is_set(value, 31),
                ..Changes::none()
            });
        }
    }

    /// A disabled port looks for the device anew.
    fn look_for_device(&mut self)
        ensures { self.new ≡ looked_for self.old }
    {
        if self.attached {
            self.detect();
        } else {
            self.link = Link::RxDetect;
        }
    }

    fn link_by(&mut self, value: u32)
        ensures { self.new ≡ linked_by self.old value }
    {
        if !is_set(value, 16) {
            return;
        }
        match field(value, 5, 16) {
            3 if self.enabled => self.link = Link::U3,
            0 if self.link.is_suspended() => {
                self.link = Link::U0;
                self.change(&Changes {
                    link: true,
                    ..Changes::none()
                });
            }
            5 if self.link.is_disabled() => self.look_for_device(),
            _ => {}
        }
    }
}
