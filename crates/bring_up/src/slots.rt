//! Rows 10 and 11: the contexts of a device (xHCI 1.2, 4.3.3, 4.6.3 and 4.6.5).
ghost use Rattle.std.specs.Prelude.{◌≡◌, ◌<◌, ◌^◌};
ghost use Rattle.bring_up.specs.Slots.{area_zeroed, addressing_access, addressing_after, command_begun, context_stored, control_endpoint, slot_of};

use crate::access::{Access, Stored, store_in};
use crate::commands::{Asked, CommandRing};
use crate::controller::Port;
use crate::program::entry_stored;
use crate::step::{Ended, Step};
use host_layout::{Fixed, Layout};
use host_trbs::{Dequeue, EndpointContext, EndpointKind, SlotContext, input_control};

/// The device that is brought up: its port, speed and slot.
#[derive(Clone, Copy)]
pub struct Device {
    pub port: Port,
    pub speed: u8,
    pub slot: u8,
}

/// What of rows 10 and 11 is stored next, or awaited.
#[derive(Clone, Copy)]
pub enum Addressing {
    /// Endpoint 0's ring, the input context and the device context are zeroed.
    ControlRing,
    InputContext,
    DeviceContext,
    /// The slot's entry of the device context base address array.
    Entry,
    /// The input control context, the slot context and endpoint 0's.
    Flags,
    Slot,
    Endpoint,
    /// The device's time to take its address.
    Settle(u64),
}

/// Bytes of endpoint 0's ring, and of a context's page.
const CONTROL_RING_BYTES: u16 = 192;

const CONTEXT_PAGE_BYTES: u16 = 4096;

/// A0 and A1: the slot context and endpoint 0's are added.
const SLOT_AND_CONTROL: u32 = 3;

/// A command begins to be put.
pub(crate) fn command_begun(ring: CommandRing, asked: Asked) -> Step
    ensures { result ≡ command_begun ring asked }
{
    Step::Command {
        asked,
        at: ring.begun_command(),
    }
}

impl Addressing {
    pub(crate) fn access(self, layout: &Layout, device: Device) -> Access
        ensures { result ≡ addressing_access self layout.now device }
    {
        match self {
            Addressing::ControlRing => zeroed(layout, Fixed::ControlRing, CONTROL_RING_BYTES),
            Addressing::InputContext => zeroed(layout, Fixed::InputContext, CONTEXT_PAGE_BYTES),
            Addressing::DeviceContext => zeroed(layout, Fixed::DeviceContext, CONTEXT_PAGE_BYTES),
            Addressing::Entry => entry_stored(
                Some(layout.fixed(Fixed::DeviceContexts)),
                u16::from(device.slot),
                Some(layout.fixed(Fixed::DeviceContext)),
            ),
            Addressing::Flags => context_stored(layout, 0, input_control(0, SLOT_AND_CONTROL)),
            Addressing::Slot => context_stored(layout, 1, slot_of(device).bytes()),
            Addressing::Endpoint => context_stored(layout, 2, control_endpoint(layout).bytes()),
            Addressing::Settle(until) => Access::Rest(until),
        }
    }

    pub(crate) fn after(self, ring: CommandRing) -> Step
        ensures { result ≡ addressing_after self ring }
    {
        match self {
            Addressing::ControlRing => Step::Addressing(Addressing::InputContext),
            Addressing::InputContext => Step::Addressing(Addressing::DeviceContext),
            Addressing::DeviceContext => command_begun(ring, Asked::EnableSlot),
            Addressing::Entry => Step::Addressing(Addressing::Flags),
            Addressing::Flags => Step::Addressing(Addressing::Slot),
            Addressing::Slot => Step::Addressing(Addressing::Endpoint),
            Addressing::Endpoint => command_begun(ring, Asked::AddressDevice),
            Addressing::Settle(_) => Step::Ended(Ended::Addressed),
        }
    }
}

fn zeroed(layout: &Layout, area: Fixed, bytes: u16) -> Access
    ensures { result ≡ area_zeroed layout.now area bytes }
{
    store_in(Some(layout.fixed(area)), Stored::Zeros(bytes))
}

/// A context of the input context.
fn context_stored(layout: &Layout, index: u8, context: [u8; 32]) -> Access
    ensures { result ≡ context_stored layout.now index context }
{
    store_in(layout.input_context(index), Stored::ThirtyTwo(context))
}

fn slot_of(device: Device) -> SlotContext
    ensures { result ≡ slot_of device }
{
    SlotContext {
        speed: device.speed,
        entries: 1,
        port: device.port.number,
    }
}

fn control_endpoint(layout: &Layout) -> EndpointContext
    ensures { result ≡ control_endpoint layout.now }
{
    EndpointContext {
        kind: EndpointKind::Control,
        max_packet: 512,
        burst: 0,
        dequeue: Dequeue::Ring(layout.fixed(Fixed::ControlRing)),
        average: 8,
    }
}
