//! Row 14: the four pipes are configured at once (xHCI 1.2, 4.6.6 and 6.2.3).
ghost use Rattle.std.specs.Prelude.{◌≡◌, ◌<◌, bit_or};
ghost use Rattle.disk_up.specs.PipeRows.{added_contexts, array_of, context_count, context_put, dequeue_of, endpoint_of, flag, kind_of, next_page, pipe_after, pipe_endpoint, pipes_access, pipes_after, pipes_slot, ring_of, stream_after, stream_mended, stream_put, zero_after};

use bring_up::{Access, Device, Stored, later, store_in};
use host_layout::{Fixed, Layout, TagArea};
use host_trbs::{
    Dequeue, EndpointContext, EndpointKind, SlotContext, input_control, stream_context,
};
use uas_profile::Pipe;
use usb_descriptors::{Endpoint, Pipes, Streams};

/// What of row 14 is stored next.
#[derive(Clone, Copy)]
pub enum Piping {
    /// The 4,096 bytes of this number are zeroed: the input context, the command pipe's ring, stream arrays, and what tags have.
    Zero(u32),
    /// The stream context of a tag.
    Stream { pipe: Pipe, tag: u8 },
    /// The input control context, the slot context, and each pipe's.
    Flags,
    Slot,
    OfPipe(Pipe),
}

/// The bytes that are zeroed at a time.
const PAGE_BYTES: u16 = 4096;

/// Average TRB Length of the pipes.
const AVERAGE: u16 = 3072;

fn endpoint_of(pipes: &Pipes, pipe: Pipe) -> Endpoint
    ensures { result ≡ endpoint_of pipes.now pipe }
{
    match pipe {
        Pipe::Command => pipes.command,
        Pipe::Status => pipes.status,
        Pipe::DataIn => pipes.data_in,
        Pipe::DataOut => pipes.data_out,
    }
}

/// The flags of the contexts that are added: the slot's, and each pipe's.
fn added_contexts(pipes: &Pipes) -> u32
    ensures { result ≡ added_contexts pipes.now }
{
    1 | flag(pipes.command) | flag(pipes.status) | flag(pipes.data_in) | flag(pipes.data_out)
}

fn flag(endpoint: Endpoint) -> u32
    ensures { result ≡ flag endpoint }
{
    1 << endpoint.context_index()
}

/// The index of the last context in use.
fn context_count(pipes: &Pipes) -> u8
    ensures { result ≡ context_count pipes.now }
{
    pipes
        .command
        .context_index()
        .max(pipes.status.context_index())
        .max(pipes.data_in.context_index())
        .max(pipes.data_out.context_index())
}

/// The stream array of a pipe, or the ring of the command pipe.
fn array_of(layout: &Layout, pipe: Pipe) -> u64
    ensures { result ≡ array_of layout.now pipe }
{
    match pipe {
        Pipe::Command => layout.fixed(Fixed::CommandPipe),
        Pipe::Status => layout.fixed(Fixed::StatusStreams),
        Pipe::DataIn => layout.fixed(Fixed::DataInStreams),
        Pipe::DataOut => layout.fixed(Fixed::DataOutStreams),
    }
}

/// The ring of a tag's stream in a pipe.
fn ring_of(layout: &Layout, pipe: Pipe, tag: u8) -> Option<u64>
    ensures { result ≡ ring_of layout.now pipe tag }
{
    match pipe {
        Pipe::Command => None,
        Pipe::Status => layout.of_tag(tag, TagArea::StatusRing),
        Pipe::DataIn => layout.of_tag(tag, TagArea::DataInRing),
        Pipe::DataOut => layout.of_tag(tag, TagArea::DataOutRing),
    }
}

/// A tag's stream context.
fn stream_put(layout: &Layout, pipe: Pipe, tag: u8) -> Access
    ensures { result ≡ stream_put layout.now pipe tag }
{
    match ring_of(layout, pipe, tag) {
        Some(ring) => store_in(
            Some(later(array_of(layout, pipe), 16 * u64::from(tag))),
            Stored::Sixteen(stream_context(ring)),
        ),
        None => Access::Rest(0),
    }
}

/// A pipe's endpoint context.
fn pipe_endpoint(layout: &Layout, pipes: &Pipes, streams: Streams, pipe: Pipe) -> EndpointContext
    ensures { result ≡ pipe_endpoint layout.now pipes.now streams pipe }
{
    let endpoint = endpoint_of(pipes, pipe);
    EndpointContext {
        kind: kind_of(pipe),
        max_packet: endpoint.max_packet,
        burst: endpoint.burst,
        dequeue: dequeue_of(array_of(layout, pipe), streams, pipe),
        average: AVERAGE,
    }
}

fn kind_of(pipe: Pipe) -> EndpointKind
    ensures { result ≡ kind_of pipe }
{
    match pipe {
        Pipe::Command | Pipe::DataOut => EndpointKind::BulkOut,
        Pipe::Status | Pipe::DataIn => EndpointKind::BulkIn,
    }
}

fn dequeue_of(at: u64, streams: Streams, pipe: Pipe) -> Dequeue
    ensures { result ≡ dequeue_of at streams pipe }
{
    match pipe {
        Pipe::Command => Dequeue::Ring(at),
        Pipe::Status | Pipe::DataIn | Pipe::DataOut => Dequeue::Streams {
            array: at,
            max_primary: streams.max_primary_streams,
        },
    }
}

/// Zeroes what a controller with stale streams leaves in the context of a tag's stream behind Set TR Dequeue Pointer.
pub fn stream_mended(layout: &Layout, pipe: Pipe, tag: u8) -> Access
    ensures { result ≡ stream_mended layout.now pipe tag }
{
    store_in(
        Some(later(array_of(layout, pipe), 16 * u64::from(tag) + 8)),
        Stored::Zeros(8),
    )
}

/// A context of the input context.
fn context_put(layout: &Layout, index: u8, context: [u8; 32]) -> Access
    ensures { result ≡ context_put layout.now index context }
{
    store_in(layout.input_context(index), Stored::ThirtyTwo(context))
}

fn pipes_slot(device: Device, pipes: &Pipes) -> SlotContext
    ensures { result ≡ pipes_slot device pipes.now }
{
    SlotContext {
        speed: device.speed,
        entries: context_count(pipes),
        port: device.port.number,
    }
}

impl Piping {
    pub(crate) fn access(
        self,
        layout: &Layout,
        device: Device,
        pipes: &Pipes,
        streams: Streams,
    ) -> Access
        ensures { result ≡ pipes_access self layout.now device pipes.now streams }
    {
        match self {
            Piping::Zero(page) => store_in(
                Some(later(layout.base, u64::from(PAGE_BYTES) * u64::from(page))),
                Stored::Zeros(PAGE_BYTES),
            ),
            Piping::Stream { pipe, tag } => stream_put(layout, pipe, tag),
            Piping::Flags => context_put(layout, 0, input_control(0, added_contexts(pipes))),
            Piping::Slot => context_put(layout, 1, pipes_slot(device, pipes).bytes()),
            Piping::OfPipe(pipe) => context_put(
                layout,
                endpoint_of(pipes, pipe).context_index() + 1,
                pipe_endpoint(layout, pipes, streams, pipe).bytes(),
            ),
        }
    }

    /// What is stored next; None where the command is put.
    pub(crate) fn after(self, layout: &Layout, streams: Streams) -> Option<Piping>
        ensures { result ≡ pipes_after self layout.now streams }
    {
        match self {
            Piping::Zero(page) => Some(zero_after(layout, next_page(page))),
            Piping::Stream { pipe, tag } => Some(stream_after(pipe, tag, streams.tags)),
            Piping::Flags => Some(Piping::Slot),
            Piping::Slot => Some(Piping::OfPipe(Pipe::Command)),
            Piping::OfPipe(pipe) => pipe_after(pipe),
        }
    }
}

/// The next page of those that row 14 has: the buffer may be zeroed too, but not the event ring.
fn next_page(page: u32) -> u32
    ensures { result ≡ next_page page }
{
    match page {
        1 => 3,
        7 => 16,
        _ => page.saturating_add(1),
    }
}

fn zero_after(layout: &Layout, next: u32) -> Piping
    ensures { result ≡ zero_after layout.now next }
{
    if later(layout.base, u64::from(PAGE_BYTES) * u64::from(next)) < layout.empty_page() {
        Piping::Zero(next)
    } else {
        Piping::Stream {
            pipe: Pipe::Status,
            tag: 1,
        }
    }
}

/// The next tag's, or the next pipe's first.
fn stream_after(pipe: Pipe, tag: u8, tags: u8) -> Piping
    ensures { result ≡ stream_after pipe tag tags }
{
    if tag < tags {
        return Piping::Stream {
            pipe,
            tag: tag.saturating_add(1),
        };
    }
    match pipe {
        Pipe::Status => Piping::Stream {
            pipe: Pipe::DataIn,
            tag: 1,
        },
        Pipe::DataIn => Piping::Stream {
            pipe: Pipe::DataOut,
            tag: 1,
        },
        Pipe::Command | Pipe::DataOut => Piping::Flags,
    }
}

fn pipe_after(pipe: Pipe) -> Option<Piping>
    ensures { result ≡ pipe_after pipe }
{
    match pipe {
        Pipe::Command => Some(Piping::OfPipe(Pipe::Status)),
        Pipe::Status => Some(Piping::OfPipe(Pipe::DataIn)),
        Pipe::DataIn => Some(Piping::OfPipe(Pipe::DataOut)),
        Pipe::DataOut => None,
    }
}
