//! A controller as its capability registers tell it, and where its registers are (xHCI 1.2, 5.3 to 5.6).
ghost use Rattle.std.specs.Prelude.{◌≡◌, ◌<◌, ◌≤◌, ◌^◌, slice_get};
ghost use Rattle.bring_up.specs.Registers.{command_register, doorbell, first_place, interrupter, is_set, legacy_register, next_place, port_at, port_of, port_register, status_register};

use host_layout::PageSize;
use host_trbs::ContextSize;

/// The most capabilities that are looked at.
pub const MOST_CAPABILITIES: u8 = 64;

/// A Supported Protocol capability of USB 3 (7.2): its ports, and their slot type.
#[derive(Clone, Copy)]
pub struct Protocol {
    pub first: u8,
    pub count: u8,
    pub slot_type: u8,
}

/// What was found of a controller.
#[derive(Clone, Copy)]
pub struct Controller {
    /// Bytes of its registers.
    pub bar_bytes: u32,
    /// Where its operational registers begin, its doorbells, and its runtime registers.
    pub operational: u8,
    pub doorbells: u32,
    pub runtime: u32,
    /// MaxSlots and MaxPorts.
    pub slots: u8,
    pub ports: u8,
    pub scratchpads: u16,
    pub page: PageSize,
    pub contexts: ContextSize,
    /// It reaches addresses of 64 bits (AC64).
    pub is_wide: bool,
    /// Its stream arrays have 2 to this power plus 1 contexts at most (MaxPSASize).
    pub max_psa_size: u8,
    /// Where USBLEGSUP is (7.1).
    pub legacy: Option<u32>,
    /// The protocols of USB 3, of which there are so many; the others have no ports.
    pub protocols: [Protocol; 64],
    pub protocol_count: u8,
}

/// A port's place in the list of protocols.
#[derive(Clone, Copy)]
pub struct PortPlace {
    pub protocol: u8,
    pub index: u8,
}

/// A port of USB 3, 1 to MaxPorts.
#[derive(Clone, Copy)]
pub struct Port {
    pub number: u8,
    pub slot_type: u8,
}

/// Whether a bit of a register is set.
pub fn is_set(value: u32, place: u32) -> bool
    requires { place < 32 }
    ensures { result ≡ is_set value place }
{
    value >> place & 1 == 1
}

impl PortPlace {
    pub(crate) fn first() -> PortPlace
        ensures { result ≡ first_place }
    {
        PortPlace {
            protocol: 0,
            index: 0,
        }
    }
}

impl Controller {
    /// USBCMD (5.4.1).
    pub(crate) fn command_register(&self) -> u64
        ensures is { result ≡ command_register self.now }
        ensures near { result < 2 ^ 8 }
    {
        u64::from(self.operational)
    }

    /// USBSTS (5.4.2).
    pub fn status_register(&self) -> u64
        ensures is { result ≡ status_register self.now }
        ensures near { result < 2 ^ 9 }
    {
        u64::from(self.operational) + 4
    }

    /// The registers of interrupter 0 (5.5.2).
    pub fn interrupter(&self) -> u64
        ensures is { result ≡ interrupter self.now }
        ensures near { result < 2 ^ 33 }
    {
        u64::from(self.runtime) + 0x20
    }

    /// The doorbell of a slot; of the command ring for 0 (5.6).
    pub fn doorbell(&self, slot: u8) -> u64
        ensures is { result ≡ doorbell self.now slot }
        ensures near { result < 2 ^ 33 }
    {
        u64::from(self.doorbells) + 4 * u64::from(slot)
    }

    /// PORTSC of a port (5.4.8).
    pub fn port_register(&self, port: u8) -> u64
        ensures is { result ≡ port_register self.now port }
        ensures near { result < 2 ^ 16 }
    {
        u64::from(self.operational) + 0x3f0 + 16 * u64::from(port)
    }

    /// USBLEGSUP, or the first register where there is none.
    pub(crate) fn legacy_register(&self) -> u64
        ensures is { result ≡ legacy_register self.now }
        ensures near { result < 2 ^ 32 }
    {
        match self.legacy {
            Some(at) => u64::from(at),
            None => 0,
        }
    }

    /// The port of a place; None behind the last one.
    pub(crate) fn port_at(&self, place: PortPlace) -> Option<Port>
        ensures { result ≡ port_at self.now place }
    {
        match self.protocols.get(usize::from(place.protocol)) {
            Some(protocol) => port_of(*protocol, place.index),
            None => None,
        }
    }

    /// The place behind a place.
    pub(crate) fn next_place(&self, place: PortPlace) -> PortPlace
        ensures { result ≡ next_place self.now place }
    {
        let index = place.index.saturating_add(1);
        let next = PortPlace {
            protocol: place.protocol,
            index,
        };
        if self.port_at(next).is_some() {
            next
        } else {
            PortPlace {
                protocol: place.protocol.saturating_add(1),
                index: 0,
            }
        }
    }
}

/// The port of a protocol.
fn port_of(protocol: Protocol, index: u8) -> Option<Port>
    ensures { result ≡ port_of protocol index }
{
    if index < protocol.count {
        Some(Port {
            number: protocol.first.saturating_add(index),
            slot_type: protocol.slot_type,
        })
    } else {
        None
    }
}
