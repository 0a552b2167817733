//! The input context of a command, and when its values aren't this disk's.
ghost use Rattle.std.specs.Prelude.{◌≡◌, ◌<◌, ◌≤◌};
ghost use Rattle.std.specs.Result.{result_ok};
ghost use Rattle.xhci_slots.specs.contexts.Inputs.{endpoint_of, has_bad_flags, has_flag, index_of, input_at, is_bad_added, is_bad_address};
ghost use Rattle.xhci_slots.specs.contexts.Inputs.{is_bad_configuration, is_bad_endpoint, is_bad_evaluation, is_linear, kind_of, most_streams, packet_bytes, packet_of, port_of};
ghost use Rattle.xhci_slots.specs.contexts.Inputs.{streams_of, type_number, type_of};

use crate::contexts::contexts::context_at;
use crate::contexts::{
    DeviceContext, EndpointContext, EndpointKind, InputContext, Number, SlotContext,
};
use byteorder::{ByteOrder, LittleEndian};
use guest_memory::{GuestMemory, Outside};

/// Root hub port of the disk.
const PORT: u32 = 2;

/// The most primary streams, as MaxPStreams has them.
const MOST_STREAMS: u32 = 7;

/// The add flags that the disk has contexts for.
const MOST_ADDS: u32 = 63;

/// Whether a flag word has the flag of a context.
fn has_flag(flags: u32, number: u32) -> bool
    requires { number < 32 }
    ensures { result ≡ has_flag flags number }
{
    (flags >> number) % 2 == 1
}

impl Number {
    /// Its device context index (4.8.1).
    pub fn index(self) -> u32
        ensures index { result ≡ index_of self }
        ensures fits { result < 6 }
    {
        match self {
            Number::ControlPipe => 1,
            Number::CommandPipe => 2,
            Number::StatusPipe => 3,
            Number::DataOutPipe => 4,
            Number::DataInPipe => 5,
        }
    }

    fn kind(self) -> EndpointKind
        ensures { result ≡ kind_of self }
    {
        match self {
            Number::ControlPipe => EndpointKind::Control,
            Number::CommandPipe | Number::DataOutPipe => EndpointKind::BulkOut,
            Number::StatusPipe | Number::DataInPipe => EndpointKind::BulkIn,
        }
    }

    /// The greatest MaxPStreams: endpoint 0 and the command pipe have no streams.
    fn most_streams(self) -> u32
        ensures { result ≡ most_streams self }
    {
        match self {
            Number::ControlPipe | Number::CommandPipe => 0,
            Number::StatusPipe | Number::DataOutPipe | Number::DataInPipe => MOST_STREAMS,
        }
    }
}

impl EndpointKind {
    /// EP Type (table 6-9).
    fn number(self) -> u32
        ensures { result ≡ type_number self }
    {
        match self {
            EndpointKind::Control => 4,
            EndpointKind::BulkOut => 2,
            EndpointKind::BulkIn => 6,
        }
    }

    /// The most bytes of a packet.
    fn packet_bytes(self) -> u32
        ensures { result ≡ packet_bytes self }
    {
        match self {
            EndpointKind::Control => 512,
            EndpointKind::BulkOut | EndpointKind::BulkIn => 1024,
        }
    }
}

impl SlotContext {
    /// Root Hub Port Number.
    fn port_number(&self) -> u32
        ensures { result ≡ port_of self.now }
    {
        (self.port >> 16) % 256
    }
}

impl EndpointContext {
    fn type_number(&self) -> u32
        ensures { result ≡ type_of self.now }
    {
        (self.kind >> 3) % 8
    }

    fn packet(&self) -> u32
        ensures { result ≡ packet_of self.now }
    {
        self.kind >> 16
    }

    /// MaxPStreams: 0 without streams, else 2 to the power of one more are there.
    pub fn streams(&self) -> u32
        ensures streams { result ≡ streams_of self.now }
        ensures fits { result < 32 }
    {
        (self.state >> 10) % 32
    }

    /// LSA: its stream array has no secondary arrays.
    fn is_linear(&self) -> bool
        ensures { result ≡ is_linear self.now }
    {
        (self.state >> 15) % 2 == 1
    }

    /// Whether it isn't of this endpoint of the disk, or has more streams than that, or secondary stream arrays.
    fn is_bad(&self, number: Number) -> bool
        ensures { result ≡ is_bad_endpoint number self.now }
    {
        self.type_number() != number.kind().number()
            || self.packet() != number.kind().packet_bytes()
            || self.streams() > number.most_streams()
            || self.streams() > 0 && !self.is_linear()
    }
}

impl DeviceContext {
    /// The context of an endpoint.
    pub fn endpoint(&self, number: Number) -> EndpointContext
        ensures { result ≡ endpoint_of self.now number }
    {
        match number {
            Number::ControlPipe => self.control,
            Number::CommandPipe => self.command,
            Number::StatusPipe => self.status,
            Number::DataOutPipe => self.data_out,
            Number::DataInPipe => self.data_in,
        }
    }
}

impl InputContext {
    /// The input context at an address. Refused where a byte of it isn't there.
    #[tactic(auto, unfolding(crate::specs::contexts::Inputs::input_at))]
    pub fn read<M: GuestMemory>(memory: &M, base: u64) -> Result<InputContext, Outside>
        ensures { result_ok result ≡ input_at (M.contents memory.now) base }
    {
        let mut flags = [0; 8];
        memory.read(base, &mut flags)?;
        let device = DeviceContext::read(memory, context_at(base, 1))?;
        Ok(InputContext {
            drops: LittleEndian::read_u32(&flags),
            adds: LittleEndian::read_u32(&flags[4..]),
            device,
        })
    }

    /// Whether the command adds the context of an endpoint.
    pub fn adds(&self, number: Number) -> bool
        ensures { result ≡ has_flag self.now.adds (index_of number) }
    {
        has_flag(self.adds, number.index())
    }

    /// Whether the command drops the context of an endpoint.
    pub fn drops(&self, number: Number) -> bool
        ensures { result ≡ has_flag self.now.drops (index_of number) }
    {
        has_flag(self.drops, number.index())
    }

    /// D0 or D1 is set, or A0 isn't.
    fn has_bad_flags(&self) -> bool
        ensures { result ≡ has_bad_flags self.now }
    {
        has_flag(self.drops, 0) || has_flag(self.drops, 1) || !has_flag(self.adds, 0)
    }

    fn is_bad_added(&self, number: Number) -> bool
        ensures { result ≡ is_bad_added self.now number }
    {
        self.adds(number) && self.device.endpoint(number).is_bad(number)
    }

    /// Whether Address Device ends with Parameter Error (4.6.5).
    pub fn is_bad_address(&self) -> bool
        ensures { result ≡ is_bad_address self.now }
    {
        self.has_bad_flags()
            || !self.adds(Number::ControlPipe)
            || self.device.slot.port_number() != PORT
            || self.device.control.is_bad(Number::ControlPipe)
    }

    /// Whether Configure Endpoint ends with Parameter Error (4.6.6).
    pub fn is_bad_configuration(&self) -> bool
        ensures { result ≡ is_bad_configuration self.now }
    {
        self.has_bad_flags()
            || self.adds > MOST_ADDS
            || self.is_bad_added(Number::CommandPipe)
            || self.is_bad_added(Number::StatusPipe)
            || self.is_bad_added(Number::DataOutPipe)
            || self.is_bad_added(Number::DataInPipe)
    }

    /// Whether Evaluate Context ends with Parameter Error (4.6.7).
    pub fn is_bad_evaluation(&self) -> bool
        ensures { result ≡ is_bad_evaluation self.now }
    {
        has_flag(self.drops, 0)
            || has_flag(self.drops, 1)
            || self.adds(Number::ControlPipe)
                && self.device.control.packet() != EndpointKind::Control.packet_bytes()
    }
}
