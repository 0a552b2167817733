//! What a command on the slot lacks, for a caller who copies in what is asked for.
ghost use Rattle.std.specs.Prelude.{◌≡◌, None, is_some, true, ℕ};
ghost use Rattle.guest_memory.specs.Bytes.{IsWithinAddresses};
ghost use Rattle.guest_memory.specs.rings.Wanted.{LacksIt};
ghost use Rattle.xhci_slots.specs.declared.contexts.EndpointState.{EndpointState};
ghost use Rattle.xhci_slots.specs.declared.contexts.Number.{Number};
ghost use Rattle.xhci_slots.specs.Slots.{World, entry_at, executed, told};
ghost use Rattle.xhci_slots.specs.Wanted.{address_wanted, command_wanted, configure_wanted, device_wanted, entry_wanted, evaluate_wanted};
ghost use Rattle.xhci_slots.specs.Wanted.{input_wanted, slot_wanted, tell_wanted};

use crate::commands::entry_at;
use crate::contexts::{DeviceContext, InputContext, SlotState};
use crate::states::{has_context, may_address, may_configure, may_evaluate};
use crate::{Slot, SlotCommand};
use guest_memory::rings::Range;
use guest_memory::{GuestMemory, Outside};

/// Bytes of a device context.
const DEVICE_BYTES: usize = 192;

/// Bytes of an input context's flags.
const FLAG_BYTES: usize = 8;

/// Bytes of an input context in front of its slot context.
const CONTROL_BYTES: u64 = 32;

/// The device context at an address, where a byte of it isn't there.
fn device_wants<M: GuestMemory>(memory: &M, base: u64) -> Option<Range>
    ensures { result ≡ device_wanted (M.contents memory.now) base }
{
    if DeviceContext::is_there(memory, base) {
        None
    } else {
        Some(Range {
            at: base,
            count: DEVICE_BYTES,
        })
    }
}

/// The part of an input context of which a byte isn't there.
fn input_wants<M: GuestMemory>(memory: &M, input: u64) -> Option<Range>
    ensures { result ≡ input_wanted (M.contents memory.now) input }
{
    if memory.has(input, FLAG_BYTES) {
        device_wants(memory, input.wrapping_add(CONTROL_BYTES))
    } else {
        Some(Range {
            at: input,
            count: FLAG_BYTES,
        })
    }
}

/// The slot's entry of the device context base address array, or the device context that it names.
fn entry_wants<M: GuestMemory>(memory: &M, array: u64) -> Option<Range>
    ensures { result ≡ entry_wanted array (M.contents memory.now) (entry_at (M.contents memory.now) array) }
{
    match entry_at(memory, array) {
        Err(Outside) => Some(Range {
            at: array.wrapping_add(8),
            count: 8,
        }),
        Ok(at) => device_wants(memory, at),
    }
}

impl Slot {
    /// The first range that [`Slot::execute`] reads of which a byte isn't there; `array` is DCBAAP. A device context is asked for whole.
    pub fn wants<M: GuestMemory>(
        &self,
        memory: &M,
        array: u64,
        command: SlotCommand,
    ) -> Option<Range>
        ensures { result ≡ slot_wanted (record { memory = M.contents memory.now; slot = self.now }) array command }
    {
        match self.state {
            None => None,
            Some(state) => self.wants_in(memory, array, command, state),
        }
    }

    /// What a command lacks of the slot that is given out and in this state.
    fn wants_in<M: GuestMemory>(
        &self,
        memory: &M,
        array: u64,
        command: SlotCommand,
        state: SlotState,
    ) -> Option<Range>
        ensures { result ≡ command_wanted (record { memory = M.contents memory.now; slot = self.now }) array command state }
    {
        match command {
            SlotCommand::Disable if has_context(state) => self.wants_to_tell(memory),
            SlotCommand::Address { input, blocked } if may_address(state, blocked) => {
                self.wants_to_address(memory, array, input)
            }
            SlotCommand::Configure {
                input,
                deconfigures,
            } if may_configure(state) => {
                if deconfigures {
                    self.wants_to_tell(memory)
                } else {
                    self.wants_to_configure(memory, input)
                }
            }
            SlotCommand::Evaluate { input } if may_evaluate(state) => {
                self.wants_to_evaluate(memory, input)
            }
            SlotCommand::Reset if may_configure(state) => self.wants_to_tell(memory),
            SlotCommand::Enable
            | SlotCommand::Disable
            | SlotCommand::Address { .. }
            | SlotCommand::Configure { .. }
            | SlotCommand::Evaluate { .. }
            | SlotCommand::Reset => None,
        }
    }

    fn wants_to_address<M: GuestMemory>(&self, memory: &M, array: u64, input: u64) -> Option<Range>
        ensures { result ≡ address_wanted (record { memory = M.contents memory.now; slot = self.now }) array input }
    {
        match InputContext::read(memory, input) {
            Err(Outside) => input_wants(memory, input),
            Ok(read) => {
                if read.is_bad_address() {
                    None
                } else {
                    entry_wants(memory, array)
                }
            }
        }
    }

    fn wants_to_configure<M: GuestMemory>(&self, memory: &M, input: u64) -> Option<Range>
        ensures { result ≡ configure_wanted (record { memory = M.contents memory.now; slot = self.now }) input }
    {
        match InputContext::read(memory, input) {
            Err(Outside) => input_wants(memory, input),
            Ok(read) => {
                if read.is_bad_configuration() {
                    None
                } else {
                    self.wants_to_tell(memory)
                }
            }
        }
    }

    fn wants_to_evaluate<M: GuestMemory>(&self, memory: &M, input: u64) -> Option<Range>
        ensures { result ≡ evaluate_wanted (record { memory = M.contents memory.now; slot = self.now }) input }
    {
        match InputContext::read(memory, input) {
            Err(Outside) => input_wants(memory, input),
            Ok(read) => {
                if read.is_bad_evaluation() {
                    None
                } else {
                    self.wants_to_tell(memory)
                }
            }
        }
    }

    /// The device context, which [`Slot::tell`] reads, where a byte of it isn't there.
    pub fn wants_to_tell<M: GuestMemory>(&self, memory: &M) -> Option<Range>
        ensures { result ≡ tell_wanted (record { memory = M.contents memory.now; slot = self.now }) }
    {
        device_wants(memory, self.context)
    }
}

/// Law: a command that lacks nothing isn't refused for want of memory, and neither is the telling of a state.
pub fn what_lacks_nothing_is_executed()
    ensures of_command { (w : World) (array : ℕ) (command : SlotCommand) → slot_wanted w array command ≡ None → is_some (executed w array command) ≡ true }
    ensures of_tell { (w : World) (number : Number) (state : EndpointState) → tell_wanted w ≡ None → is_some (told w number state) ≡ true }
{}

/// Law: what is wanted isn't empty, and not all of it is there.
pub fn what_is_wanted_is_not_there()
    ensures of_command { (w : World) (array : ℕ) (command : SlotCommand) → IsWithinAddresses w.memory → LacksIt w.memory (slot_wanted w array command) }
    ensures of_tell { (w : World) → IsWithinAddresses w.memory → LacksIt w.memory (tell_wanted w) }
{}
