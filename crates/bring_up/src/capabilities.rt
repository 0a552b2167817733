//! Row 1: the list of extended capabilities (xHCI 1.2, 7).
ghost use Rattle.std.specs.Prelude.{◌≡◌, ◌<◌, ◌≤◌, ◌+◌, ◌*◌, ◌^◌, slice_set};
ghost use Rattle.bring_up.specs.Surveys.{at_capability, behind_capability, capability_read, contexts_in, has_ports, has_room, list_ended, ports_read, protocol_put, scratchpads_in, slot_type_read, unknown_controller};

use crate::controller::{Controller, Protocol, is_set};
use crate::survey::{Capability, Reading, Survey, Surveyed};
use crate::why::Why;
use host_layout::PageSize;
use host_trbs::ContextSize;

/// The capabilities that count: USB Legacy Support and Supported Protocol.
const LEGACY: u32 = 1;

const PROTOCOL: u32 = 2;

/// Major Revision of USB 3.
const USB_3: u32 = 3;

/// A controller of which only the bytes of its registers are known.
pub(crate) fn unknown(bar_bytes: u32) -> Controller
    ensures { result ≡ unknown_controller bar_bytes }
{
    Controller {
        bar_bytes,
        operational: 0,
        doorbells: 0,
        runtime: 0,
        slots: 0,
        ports: 0,
        scratchpads: 0,
        page: PageSize::Kib4,
        contexts: ContextSize::Short,
        is_wide: false,
        max_psa_size: 0,
        legacy: None,
        protocols: [Protocol {
            first: 0,
            count: 0,
            slot_type: 0,
        }; 64],
        protocol_count: 0,
    }
}

/// Max Scratchpad Buffers, in two fields of HCSPARAMS2.
pub(crate) fn scratchpads_in(value: u32) -> u16
    ensures { result ≡ scratchpads_in value }
{
    (32 * (value >> 21 & 31) + (value >> 27)) as u16
}

/// Context Size.
pub(crate) fn contexts_in(value: u32) -> ContextSize
    ensures { result ≡ contexts_in value }
{
    if is_set(value, 2) {
        ContextSize::Long
    } else {
        ContextSize::Short
    }
}

/// Whether all ports, slots and interrupter 0 have their registers.
pub(crate) fn has_room(controller: &Controller) -> bool
    ensures { result ≡ has_room controller.now }
{
    let bytes = u64::from(controller.bar_bytes);
    controller.port_register(controller.ports) + 16 <= bytes
        && controller.doorbell(controller.slots) + 4 <= bytes
        && controller.interrupter() + 32 <= bytes
}

/// The end of the list: a port of USB 3 must have been found.
pub(crate) fn list_ended(controller: Controller) -> Surveyed
    ensures { result ≡ list_ended controller }
{
    if controller.protocol_count == 0 {
        Surveyed::Refused(Why::NoPorts)
    } else {
        Surveyed::Found(controller)
    }
}

impl Survey {
    /// Goes on with the capability at an offset, of which so many are looked at.
    pub(crate) fn at_capability(&self, controller: Controller, at: u64, left: u8) -> Surveyed
        requires { at < 2 ^ 40 }
        ensures { result ≡ at_capability self.now controller at left }
    {
        if left == 0 || at + 4 > u64::from(controller.bar_bytes) {
            return Surveyed::Refused(Why::BadList);
        }
        self.looked(
            controller,
            Reading::Capability(Capability {
                at: at as u32,
                left,
            }),
        )
    }

    /// Goes on behind a capability, of which the next stands so many words of four bytes behind it.
    fn behind_capability(
        &self,
        controller: Controller,
        capability: Capability,
        behind: u8,
    ) -> Surveyed
        ensures { result ≡ behind_capability self.now controller capability behind }
    {
        if behind == 0 {
            return list_ended(controller);
        }
        self.at_capability(
            controller,
            u64::from(capability.at) + 4 * u64::from(behind),
            capability.left.saturating_sub(1),
        )
    }

    /// The first word of a capability.
    pub(crate) fn capability_read(&self, value: u32, capability: Capability) -> Surveyed
        ensures { result ≡ capability_read self.now value capability }
    {
        let behind = (value >> 8 & 255) as u8;
        let bytes = u64::from(self.controller.bar_bytes);
        let at = u64::from(capability.at);
        if value % 256 == LEGACY {
            if at + 8 > bytes {
                return Surveyed::Refused(Why::BadList);
            }
            let controller = Controller {
                legacy: Some(capability.at),
                ..self.controller
            };
            self.behind_capability(controller, capability, behind)
        } else if value % 256 == PROTOCOL && value >> 24 == USB_3 {
            if at + 16 > bytes {
                return Surveyed::Refused(Why::BadList);
            }
            self.looked(self.controller, Reading::Ports { capability, behind })
        } else {
            self.behind_capability(self.controller, capability, behind)
        }
    }

    /// The third word of a Supported Protocol capability: its first port, and how many there are.
    pub(crate) fn ports_read(&self, value: u32, capability: Capability, behind: u8) -> Surveyed
        ensures { result ≡ ports_read self.now value capability behind }
    {
        let first = (value % 256) as u8;
        let count = (value >> 8 & 255) as u8;
        if count == 0 {
            return self.behind_capability(self.controller, capability, behind);
        }
        if !has_ports(&self.controller, first, count) {
            return Surveyed::Refused(Why::BadList);
        }
        self.looked(
            self.controller,
            Reading::SlotType {
                capability,
                behind,
                first,
                count,
            },
        )
    }

    /// The fourth word: the type of slot that its ports ask for.
    pub(crate) fn slot_type_read(
        &self,
        value: u32,
        capability: Capability,
        behind: u8,
        first: u8,
        count: u8,
    ) -> Surveyed
        ensures { result ≡ slot_type_read self.now value capability behind first count }
    {
        let protocol = Protocol {
            first,
            count,
            slot_type: (value % 32) as u8,
        };
        self.behind_capability(protocol_put(self.controller, protocol), capability, behind)
    }
}

/// Whether these ports are of 1 to MaxPorts.
fn has_ports(controller: &Controller, first: u8, count: u8) -> bool
    ensures { result ≡ has_ports controller.now first count }
{
    1 <= first && u16::from(first) - 1 + u16::from(count) <= u16::from(controller.ports)
}

/// One more protocol, where there is place.
fn protocol_put(controller: Controller, protocol: Protocol) -> Controller
    ensures { result ≡ protocol_put controller protocol }
{
    let mut controller = controller;
    let number = controller.protocol_count;
    if number < 64 {
        controller.protocols[usize::from(number)] = protocol;
        controller.protocol_count = number + 1;
    }
    controller
}
