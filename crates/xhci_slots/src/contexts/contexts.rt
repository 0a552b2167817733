//! Contexts in memory, read and written.
ghost use Rattle.std.specs.Prelude.{◌≡◌, ◌<◌, ℕ, true, IfOk};
ghost use Rattle.std.specs.Result.{result_ok};
ghost use Rattle.guest_memory.specs.Bytes.{is_there};
ghost use Rattle.xhci_slots.specs.contexts.Contexts.{context_at, device_at, device_written, endpoint_at, endpoint_bytes, endpoint_in, endpoint_written, has_device};
ghost use Rattle.xhci_slots.specs.contexts.Contexts.{slot_at, slot_bytes, slot_in, slot_written};

use crate::contexts::{DeviceContext, EndpointContext, SlotContext};
use byteorder::{ByteOrder, LittleEndian};
use guest_memory::{GuestMemory, Outside};

/// Bytes of a context.
const CONTEXT_BYTES: usize = 32;

/// Where the context of a number stands; addresses wrap at 2^64.
pub(crate) fn context_at(base: u64, number: u64) -> u64
    requires { number < 8 }
    ensures { result ≡ context_at base number }
{
    base.wrapping_add(32 * number)
}

impl SlotContext {
    #[tactic(auto, unfolding(crate::specs::contexts::Contexts::slot_in))]
    fn from_bytes(bytes: &[u8; 32]) -> SlotContext
        ensures { result ≡ slot_in bytes.now }
    {
        SlotContext {
            route: LittleEndian::read_u32(bytes),
            port: LittleEndian::read_u32(&bytes[4..]),
            target: LittleEndian::read_u32(&bytes[8..]),
            state: LittleEndian::read_u32(&bytes[12..]),
        }
    }

    #[tactic(auto, unfolding(crate::specs::contexts::Contexts::slot_bytes))]
    fn to_bytes(&self) -> [u8; 32]
        ensures { result ≡ slot_bytes self.now }
    {
        let mut bytes = [0; CONTEXT_BYTES];
        LittleEndian::write_u32(&mut bytes, self.route);
        LittleEndian::write_u32(&mut bytes[4..], self.port);
        LittleEndian::write_u32(&mut bytes[8..], self.target);
        LittleEndian::write_u32(&mut bytes[12..], self.state);
        bytes
    }
}

impl EndpointContext {
    #[tactic(auto, unfolding(crate::specs::contexts::Contexts::endpoint_in))]
    fn from_bytes(bytes: &[u8; 32]) -> EndpointContext
        ensures { result ≡ endpoint_in bytes.now }
    {
        EndpointContext {
            state: LittleEndian::read_u32(bytes),
            kind: LittleEndian::read_u32(&bytes[4..]),
            dequeue: LittleEndian::read_u64(&bytes[8..]),
            average: LittleEndian::read_u32(&bytes[16..]),
        }
    }

    #[tactic(auto, unfolding(crate::specs::contexts::Contexts::endpoint_bytes))]
    fn to_bytes(&self) -> [u8; 32]
        ensures { result ≡ endpoint_bytes self.now }
    {
        let mut bytes = [0; CONTEXT_BYTES];
        LittleEndian::write_u32(&mut bytes, self.state);
        LittleEndian::write_u32(&mut bytes[4..], self.kind);
        LittleEndian::write_u64(&mut bytes[8..], self.dequeue);
        LittleEndian::write_u32(&mut bytes[16..], self.average);
        bytes
    }
}

#[tactic(auto, unfolding(crate::specs::contexts::Contexts::slot_at))]
fn read_slot<M: GuestMemory>(memory: &M, at: u64) -> Result<SlotContext, Outside>
    ensures slot { result_ok result ≡ slot_at (M.contents memory.now) at }
    ensures there { IfOk result (λ read. is_there (M.contents memory.now) at 32 ≡ true) }
{
    let mut bytes = [0; CONTEXT_BYTES];
    memory.read(at, &mut bytes)?;
    Ok(SlotContext::from_bytes(&bytes))
}

#[tactic(auto, unfolding(crate::specs::contexts::Contexts::endpoint_at))]
fn read_endpoint<M: GuestMemory>(memory: &M, at: u64) -> Result<EndpointContext, Outside>
    ensures endpoint { result_ok result ≡ endpoint_at (M.contents memory.now) at }
    ensures there { IfOk result (λ read. is_there (M.contents memory.now) at 32 ≡ true) }
{
    let mut bytes = [0; CONTEXT_BYTES];
    memory.read(at, &mut bytes)?;
    Ok(EndpointContext::from_bytes(&bytes))
}

#[tactic(auto, using(guest_memory::specs::Ranges::there_written))]
fn write_slot<M: GuestMemory>(memory: &mut M, at: u64, slot: &SlotContext)
    requires there { is_there (M.contents memory.old) at 32 ≡ true }
    ensures written { M.contents memory.new ≡ slot_written (M.contents memory.old) at slot.now }
    ensures same_loan { M.loan memory.new ≡ M.loan memory.old }
    ensures there { (at n : ℕ) → is_there (M.contents memory.old) at n ≡ true → is_there (M.contents memory.new) at n ≡ true }
{
    let _ = memory.write(at, &slot.to_bytes());
}

#[tactic(auto, using(guest_memory::specs::Ranges::there_written))]
fn write_endpoint<M: GuestMemory>(memory: &mut M, at: u64, endpoint: &EndpointContext)
    requires there { is_there (M.contents memory.old) at 32 ≡ true }
    ensures written { M.contents memory.new ≡ endpoint_written (M.contents memory.old) at endpoint.now }
    ensures same_loan { M.loan memory.new ≡ M.loan memory.old }
    ensures there { (at n : ℕ) → is_there (M.contents memory.old) at n ≡ true → is_there (M.contents memory.new) at n ≡ true }
{
    let _ = memory.write(at, &endpoint.to_bytes());
}

impl DeviceContext {
    /// The device context at an address. Refused where a byte of one of its contexts isn't there.
    #[tactic(auto, unfolding(crate::specs::contexts::Contexts::device_at))]
    pub fn read<M: GuestMemory>(memory: &M, base: u64) -> Result<DeviceContext, Outside>
        ensures device { result_ok result ≡ device_at (M.contents memory.now) base }
        ensures there { IfOk result (λ device. has_device (M.contents memory.now) base ≡ true) }
    {
        let slot = read_slot(memory, base)?;
        let control = read_endpoint(memory, context_at(base, 1))?;
        let command = read_endpoint(memory, context_at(base, 2))?;
        let status = read_endpoint(memory, context_at(base, 3))?;
        let data_out = read_endpoint(memory, context_at(base, 4))?;
        let data_in = read_endpoint(memory, context_at(base, 5))?;
        Ok(DeviceContext {
            slot,
            control,
            command,
            status,
            data_out,
            data_in,
        })
    }

    /// Whether each byte of a device context at an address is there.
    pub fn is_there<M: GuestMemory>(memory: &M, base: u64) -> bool
        ensures { result ≡ has_device (M.contents memory.now) base }
    {
        memory.has(base, CONTEXT_BYTES)
            && memory.has(context_at(base, 1), CONTEXT_BYTES)
            && memory.has(context_at(base, 2), CONTEXT_BYTES)
            && memory.has(context_at(base, 3), CONTEXT_BYTES)
            && memory.has(context_at(base, 4), CONTEXT_BYTES)
            && memory.has(context_at(base, 5), CONTEXT_BYTES)
    }

    /// Writes it at an address.
    pub fn write<M: GuestMemory>(&self, memory: &mut M, base: u64)
        requires { has_device (M.contents memory.old) base ≡ true }
        ensures written { M.contents memory.new ≡ device_written (M.contents memory.old) base self.now }
        ensures same_loan { M.loan memory.new ≡ M.loan memory.old }
        ensures there { (at n : ℕ) → is_there (M.contents memory.old) at n ≡ true → is_there (M.contents memory.new) at n ≡ true }
    {
        write_slot(memory, base, &self.slot);
        write_endpoint(memory, context_at(base, 1), &self.control);
        write_endpoint(memory, context_at(base, 2), &self.command);
        write_endpoint(memory, context_at(base, 3), &self.status);
        write_endpoint(memory, context_at(base, 4), &self.data_out);
        write_endpoint(memory, context_at(base, 5), &self.data_in);
    }
}
