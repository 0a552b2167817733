//! The names of the profile's addresses: a place of a ring, or a byte of a tag's buffer.

ghost use Rattle.std.specs.Prelude.{◌≡◌, ℕ, ◌++◌, OnOk};
ghost use Rattle.uas_decode.specs.Named.{buffer_name, byte_words, named_at, named_words, pipe_name, place_in, ring_words};

use frame_store::{Buffer, Place};
use std::alloc::AllocError;
use stream_array::{Pipe, find};
use uas_profile::{ENGINE_RING, ENGINE_RING_PLACES, EVENT_RING, EVENT_RING_PLACES};

/// What stands at an address.
#[derive(Clone, Copy, Debug, Drop)]
pub(crate) enum Named {
    /// A place of a pipe's ring.
    Ring {
        pipe: Pipe,
        stream: u16,
        place: usize,
    },
    /// A place of the controller's command ring.
    Engine(u64),
    /// A place of the event ring.
    Event(u64),
    /// A byte of a tag's buffer.
    Buffer(Place),
}

/// What stands at this address, if it is one of the profile's.
#[tactic(auto, unfolding(crate::specs::Named::named_at))]
pub(crate) fn named_at(address: u64) -> Option<Named>
    ensures { result ≡ named_at address }
{
    if let Some((pipe, stream, place)) = find(address) {
        return Some(Named::Ring {
            pipe,
            stream,
            place,
        });
    }
    if let Some(place) = place_in(ENGINE_RING, ENGINE_RING_PLACES as u64, address) {
        return Some(Named::Engine(place));
    }
    if let Some(place) = place_in(EVENT_RING, EVENT_RING_PLACES as u64, address) {
        return Some(Named::Event(place));
    }
    Place::at(address).map(Named::Buffer)
}

/// The place of a ring of so many places at whose first byte an address is.
fn place_in(base: u64, places: u64, address: u64) -> Option<u64>
    ensures { result ≡ place_in base places address }
{
    if address < base {
        return None;
    }
    let beyond = address - base;
    if beyond % 16 == 0 && beyond / 16 < places {
        Some(beyond / 16)
    } else {
        None
    }
}

/// Adds the name of what stands at an address.
#[tactic(auto, unfolding(crate::specs::Named::named_words))]
pub(crate) fn push_named(text: &mut Vec<u8>, named: &Named) -> Result<(), AllocError>
    ensures { OnOk result (text.new.items ≡ text.old.items ++ named_words named.now) }
{
    match *named {
        Named::Ring {
            pipe,
            stream,
            place,
        } => push_ring(text, pipe, stream, place),
        Named::Engine(place) => {
            let words = format!(in *text.allocator(); "command ring, place {place}")?;
            text.extend_from_slice(words.as_bytes())
        }
        Named::Event(place) => {
            let words = format!(in *text.allocator(); "event ring, place {place}")?;
            text.extend_from_slice(words.as_bytes())
        }
        Named::Buffer(place) => push_buffer(text, &place),
    }
}

/// Adds the name of a place of a pipe's ring. The command pipe has one ring, without streams.
#[tactic(auto, unfolding(crate::specs::Named::ring_words))]
fn push_ring(text: &mut Vec<u8>, pipe: Pipe, stream: u16, place: usize) -> Result<(), AllocError>
    ensures { OnOk result (text.new.items ≡ text.old.items ++ ring_words pipe stream place) }
{
    let name = pipe_name(pipe);
    let words = match pipe {
        Pipe::Command => format!(in *text.allocator(); "{name} pipe ring, place {place}")?,
        Pipe::Status | Pipe::DataIn | Pipe::DataOut => {
            format!(in *text.allocator(); "{name} ring of stream {stream}, place {place}")?
        }
    };
    text.extend_from_slice(words.as_bytes())
}

/// Adds the name of a tag's buffer, and of its byte where it isn't the first.
#[tactic(auto, unfolding(crate::specs::Named::buffer_name))]
fn push_buffer(text: &mut Vec<u8>, place: &Place) -> Result<(), AllocError>
    ensures { OnOk result (text.new.items ≡ text.old.items ++ buffer_name place.now.buffer place.now.tag ++ byte_words place.now.offset) }
{
    let tag = place.tag;
    let name = match place.buffer {
        Buffer::Command => "command buffer",
        Buffer::Status => "status buffer",
        Buffer::Window => "data window",
    };
    let words = format!(in *text.allocator(); "{name} of tag {tag}")?;
    text.extend_from_slice(words.as_bytes())?;
    push_byte(text, place.offset)
}

/// Adds `, byte N`, where it isn't the first.
#[tactic(auto, unfolding(crate::specs::Named::byte_words))]
fn push_byte(text: &mut Vec<u8>, offset: usize) -> Result<(), AllocError>
    ensures { OnOk result (text.new.items ≡ text.old.items ++ byte_words offset) }
{
    if offset == 0 {
        return Ok(());
    }
    let words = format!(in *text.allocator(); ", byte {offset}")?;
    text.extend_from_slice(words.as_bytes())
}

/// The name of a pipe.
pub(crate) fn pipe_name(pipe: Pipe) -> &'static str
    ensures { result.now ≡ pipe_name pipe }
{
    match pipe {
        Pipe::Command => "command",
        Pipe::Status => "status",
        Pipe::DataIn => "data-in",
        Pipe::DataOut => "data-out",
    }
}
