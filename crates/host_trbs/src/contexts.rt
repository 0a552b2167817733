//! Contexts that a host writes (6.2).
ghost use Rattle.std.specs.Prelude.{◌≡◌};
ghost use Rattle.host_trbs.specs.Contexts.{context_bytes, context_size, dequeue_pointer, endpoint_context, endpoint_first, endpoint_second, endpoint_type};
ghost use Rattle.host_trbs.specs.Contexts.{input_control, slot_context, stream_context};

use crate::commands::{CYCLE_STATE, PRIMARY_RING};
use crate::words::{Words, aligned};
use byteorder::{ByteOrder, LittleEndian};

/// How far contexts stand apart (HCCPARAMS1, Context Size, 5.3.6). Of a long one the last 32 bytes are 0.
#[derive(Clone, Copy, Debug, PartialEq, Eq)]
pub enum ContextSize {
    Short,
    Long,
}

impl ContextSize {
    /// Bytes of a context.
    pub fn bytes(self) -> u32
        ensures { result ≡ context_size self }
    {
        match self {
            ContextSize::Short => 32,
            ContextSize::Long => 64,
        }
    }
}

/// The bytes of an input control context (6.2.5.1): bit n of a flag word is of the context with index n.
pub fn input_control(drop: u32, add: u32) -> [u8; 32]
    ensures { result ≡ input_control drop add }
{
    context_bytes(drop, add, 0, 0)
}

/// A slot context (6.2.2) of a device on a root hub port.
#[derive(Clone, Copy, Debug, PartialEq, Eq)]
pub struct SlotContext {
    /// The port's speed (PORTSC 13:10), 0 to 15.
    pub speed: u8,
    /// The index of the last endpoint context in use, 1 to 31.
    pub entries: u8,
    /// Root Hub Port Number.
    pub port: u8,
}

impl SlotContext {
    /// The bytes of a slot context; of a long one the first 32.
    pub fn bytes(&self) -> [u8; 32]
        ensures { result ≡ slot_context self.now }
    {
        let first = (u32::from(self.speed % 16) << 20) + (u32::from(self.entries % 32) << 27);
        context_bytes(first, u32::from(self.port) << 16, 0, 0)
    }
}

/// What an endpoint is (6.2.3).
#[derive(Clone, Copy, Debug, PartialEq, Eq)]
pub enum EndpointKind {
    Control,
    BulkOut,
    BulkIn,
}

impl EndpointKind {
    fn number(self) -> u32
        ensures { result ≡ endpoint_type self }
    {
        match self {
            EndpointKind::BulkOut => 2,
            EndpointKind::Control => 4,
            EndpointKind::BulkIn => 6,
        }
    }
}

/// What the dequeue pointer of an endpoint context names, at a multiple of 16 whose low four bits aren't written.
#[derive(Clone, Copy, Debug, PartialEq, Eq)]
pub enum Dequeue {
    /// The next TRB of the one ring, with cycle state 1.
    Ring(u64),
    /// A linear array of stream contexts, 2 to the power of MaxPStreams + 1 of them; MaxPStreams is 1 to 15.
    Streams { array: u64, max_primary: u8 },
}

/// An endpoint context (6.2.3). A transfer is tried three times before it fails.
#[derive(Clone, Copy, Debug, PartialEq, Eq)]
pub struct EndpointContext {
    pub kind: EndpointKind,
    /// Bytes of a packet.
    pub max_packet: u16,
    /// Packets of a burst less one.
    pub burst: u8,
    pub dequeue: Dequeue,
    /// Average TRB Length, in bytes.
    pub average: u16,
}

impl EndpointContext {
    /// The bytes of an endpoint context; of a long one the first 32.
    pub fn bytes(&self) -> [u8; 32]
        ensures { result ≡ endpoint_context self.now }
    {
        context_bytes(
            self.first(),
            self.second(),
            self.pointer(),
            u32::from(self.average),
        )
    }

    // MaxPStreams and LSA.
    fn first(&self) -> u32
        ensures { result ≡ endpoint_first self.now.dequeue }
    {
        match self.dequeue {
            Dequeue::Ring(_) => 0,
            Dequeue::Streams { max_primary, .. } => (u32::from(max_primary % 32) << 10)
                + LINEAR_STREAM_ARRAY,
        }
    }

    // CErr, the type, the burst and the packet.
    fn second(&self) -> u32
        ensures { result ≡ endpoint_second self.now }
    {
        (ERROR_COUNT << 1)
            + (self.kind.number() << 3)
            + (u32::from(self.burst) << 8)
            + (u32::from(self.max_packet) << 16)
    }

    fn pointer(&self) -> u64
        ensures { result ≡ dequeue_pointer self.now.dequeue }
    {
        match self.dequeue {
            Dequeue::Ring(at) => aligned(at) + CYCLE_STATE,
            Dequeue::Streams { array, .. } => aligned(array),
        }
    }
}

/// The bytes of a stream context (6.2.4.1): a primary ring at a multiple of 16, with cycle state 1.
pub fn stream_context(ring: u64) -> [u8; 16]
    ensures { result ≡ stream_context ring }
{
    let words = Words {
        parameter: aligned(ring) + PRIMARY_RING + CYCLE_STATE,
        status: 0,
        control: 0,
    };
    words.bytes()
}

// Three tries (CErr, 6.2.3).
const ERROR_COUNT: u32 = 3;

// LSA, bit 15 of an endpoint context's first word.
const LINEAR_STREAM_ARRAY: u32 = 1 << 15;

// The words of a context that a host writes, and 0 in the last 12 bytes.
#[tactic(auto, unfolding(crate::specs::Contexts::context_bytes))]
fn context_bytes(first: u32, second: u32, pointer: u64, fifth: u32) -> [u8; 32]
    ensures { result ≡ context_bytes first second pointer fifth }
{
    let mut bytes = [0; 32];
    LittleEndian::write_u32(&mut bytes, first);
    LittleEndian::write_u32(&mut bytes[4..], second);
    LittleEndian::write_u64(&mut bytes[8..], pointer);
    LittleEndian::write_u32(&mut bytes[16..], fifth);
    bytes
}
