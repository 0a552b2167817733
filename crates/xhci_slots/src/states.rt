//! What a state allows, and what a command tells of the endpoints.
ghost use Rattle.std.specs.Prelude.{◌≡◌, ◌<◌};
ghost use Rattle.xhci_slots.specs.contexts.Commands.{has_pipe};
ghost use Rattle.xhci_slots.specs.Slots.{all_gone, array_entries, change_of, changes_of, free_slot, has_context, may_address, may_configure, may_evaluate};
ghost use Rattle.xhci_slots.specs.Slots.{no_changes, pipes_gone, set_by, state_of};

use crate::contexts::{DeviceContext, EndpointContext, InputContext, Number, SlotState};
use crate::{Change, Changes, Code, Done, Slot};

impl Slot {
    /// Not given out.
    pub fn free() -> Slot
        ensures { result ≡ free_slot }
    {
        Slot {
            state: None,
            context: 0,
        }
    }
}

/// Whether Address Device may run; with BSR only of an Enabled slot.
pub(crate) fn may_address(state: SlotState, blocked: bool) -> bool
    ensures { result ≡ may_address state blocked }
{
    match state {
        SlotState::Enabled => true,
        SlotState::Default => !blocked,
        SlotState::Addressed | SlotState::Configured => false,
    }
}

/// Whether the slot has an address.
pub(crate) fn may_configure(state: SlotState) -> bool
    ensures { result ≡ may_configure state }
{
    match state {
        SlotState::Enabled | SlotState::Default => false,
        SlotState::Addressed | SlotState::Configured => true,
    }
}

pub(crate) fn may_evaluate(state: SlotState) -> bool
    ensures { result ≡ may_evaluate state }
{
    match state {
        SlotState::Enabled => false,
        SlotState::Default | SlotState::Addressed | SlotState::Configured => true,
    }
}

/// Whether the slot has a device context.
pub(crate) fn has_context(state: SlotState) -> bool
    ensures { result ≡ has_context state }
{
    match state {
        SlotState::Enabled => false,
        SlotState::Default | SlotState::Addressed | SlotState::Configured => true,
    }
}

/// Configured where a pipe is enabled.
pub(crate) fn state_of(device: &DeviceContext) -> SlotState
    ensures { result ≡ state_of device.now }
{
    if device.has_pipe() {
        SlotState::Configured
    } else {
        SlotState::Addressed
    }
}

/// How many entries a stream array of this MaxPStreams, at most 7, has.
fn array_entries(streams: u32) -> u32
    ensures { result ≡ array_entries streams }
{
    if streams == 0 || streams > 7 {
        0
    } else {
        2 << streams
    }
}

/// An endpoint that is added runs.
pub(crate) fn set_by(endpoint: &EndpointContext) -> Change
    ensures { result ≡ set_by endpoint.now }
{
    Change::Set {
        pointer: endpoint.dequeue - endpoint.dequeue % 16,
        entries: array_entries(endpoint.streams()),
    }
}

fn change_of(input: &InputContext, number: Number) -> Change
    ensures { result ≡ change_of input.now number }
{
    if input.adds(number) {
        set_by(&input.device.endpoint(number))
    } else if input.drops(number) {
        Change::Disabled
    } else {
        Change::Kept
    }
}

impl Changes {
    /// Every endpoint stays.
    pub(crate) fn none() -> Changes
        ensures { result ≡ no_changes }
    {
        Changes {
            control: Change::Kept,
            command: Change::Kept,
            status: Change::Kept,
            data_out: Change::Kept,
            data_in: Change::Kept,
        }
    }

    /// The pipes are disabled, endpoint 0 stays.
    pub(crate) fn pipes_gone() -> Changes
        ensures { result ≡ pipes_gone }
    {
        Changes {
            control: Change::Kept,
            command: Change::Disabled,
            status: Change::Disabled,
            data_out: Change::Disabled,
            data_in: Change::Disabled,
        }
    }

    pub(crate) fn all_gone() -> Changes
        ensures { result ≡ all_gone }
    {
        Changes {
            control: Change::Disabled,
            ..Changes::pipes_gone()
        }
    }

    /// What Configure Endpoint makes of the pipes.
    pub(crate) fn of(input: &InputContext) -> Changes
        ensures { result ≡ changes_of input.now }
    {
        Changes {
            control: Change::Kept,
            command: change_of(input, Number::CommandPipe),
            status: change_of(input, Number::StatusPipe),
            data_out: change_of(input, Number::DataOutPipe),
            data_in: change_of(input, Number::DataInPipe),
        }
    }
}

/// A command that ends with this code and changed nothing.
pub(crate) fn refused(code: Code) -> Done
    ensures { result ≡ record { code = code; changes = no_changes } }
{
    Done {
        code,
        changes: Changes::none(),
    }
}

pub(crate) fn done(changes: Changes) -> Done
    ensures { result ≡ record { code = Code.Success; changes = changes } }
{
    Done {
        code: Code::Success,
        changes,
    }
}
