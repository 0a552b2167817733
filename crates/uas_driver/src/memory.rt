//! What the controller beyond reads and writes by address: buffers, items of rings, and contexts.
ghost use Rattle.std.specs.Prelude.{◌≡◌, ◌+◌, ◌*◌, ◌<◌, true};
ghost use Rattle.std.specs.Result.{result_map_both};
ghost use Rattle.uas_profile.specs.declared.TheConstants.{ENGINE_RING_PLACES};
ghost use Rattle.uas_profile.specs.Pipes.{HasStreams};
ghost use Rattle.stream_array.specs.Map.{IsPlace, place_address, places_of};
ghost use Rattle.stream_array.specs.Rings.{ring_of};
ghost use Rattle.uas_driver.specs.Calls.{context_by, has_context, item_by, read_by, write_by};
ghost use Rattle.uas_driver.specs.Places.{place_read};

use crate::room::has_stream;
use crate::{Driver, Refusal};
use cycle_ring::laws::addresses_name_items;
use stream_array::{Lines, Pipe, find};
use uas_profile::{ENGINE_RING, ENGINE_RING_PLACES};

fn has_context(pipe: Pipe, stream: u16) -> bool
    ensures has { result ≡ has_context pipe stream }
    ensures streams { result ≡ true → HasStreams pipe }
{
    match pipe {
        Pipe::Command => false,
        Pipe::Status | Pipe::DataIn | Pipe::DataOut => has_stream(stream),
    }
}

/// The bytes at a place of a pipe's ring.
fn read_place(lines: &Lines, pipe: Pipe, stream: u16, place: usize) -> Option<[u8; 16]>
    requires { IsPlace pipe stream place }
    ensures { result ≡ place_read (places_of pipe) (ring_of lines.now pipe stream) (place_address pipe stream place) }
{
    addresses_name_items();
    lines.room(pipe, stream);
    lines.image(pipe, stream, place)
}

/// The bytes at a place of the controller's command ring.
fn read_engine_place(lines: &Lines, place: usize) -> Option<[u8; 16]>
    requires { place < ENGINE_RING_PLACES }
    ensures { result ≡ place_read ENGINE_RING_PLACES lines.now.engine (ENGINE_RING + 16 * place) }
{
    addresses_name_items();
    lines.room_engine();
    lines.image_engine(place)
}

/// The bytes at an address of the controller's command ring.
fn read_engine(lines: &Lines, address: u64) -> Option<[u8; 16]>
    ensures { result ≡ place_read ENGINE_RING_PLACES lines.now.engine address }
{
    lines.room_engine();
    if address < ENGINE_RING || address % 16 != 0 {
        return None;
    }
    let place = (address - ENGINE_RING) / 16;
    if place >= ENGINE_RING_PLACES as u64 {
        return None;
    }
    read_engine_place(lines, place as usize)
}

impl Driver {
    /// The `len` bytes from an address on, all of them bytes of one buffer. Refused: `BadAddress`.
    pub fn read(&self, address: u64, len: usize) -> Result<&[u8], Refusal>
        ensures { result_map_both (λ bytes. bytes.now) (λ refusal. refusal) result ≡ read_by self.now address len }
    {
        if self.frames.check(address, len).is_err() {
            return Err(Refusal::BadAddress);
        }
        Ok(self.frames.read(address, len))
    }

    /// Writes bytes from an address on, all of them bytes of one buffer. Refused: `BadAddress`.
    pub fn write(&mut self, address: u64, bytes: &[u8]) -> Result<(), Refusal>
        ensures { write_by self.old address bytes.now ≡ (self.new, result) }
    {
        if self.frames.check(address, bytes.len()).is_err() {
            return Err(Refusal::BadAddress);
        }
        self.frames.write(address, bytes);
        Ok(())
    }

    /// The 16 bytes at the first byte of a place of a ring (4.9.2), of a pipe's or of the controller's command ring: those of the item
    /// that stands there, or of the Link behind the item before it (4.11.5.1), with their Cycle bits. None where no item stands.
    pub fn item(&self, address: u64) -> Option<[u8; 16]>
        ensures { result ≡ item_by self.now address }
    {
        match find(address) {
            Some((pipe, stream, place)) => read_place(&self.lines, pipe, stream, place),
            None => read_engine(&self.lines, address),
        }
    }

    /// The context of a stream (6.2.4.1), which shows where the ring's consumer stands. Refused: `NoRing`, where the pipe has no
    /// streams or the stream isn't one from 1 to 248.
    pub fn context(&self, pipe: Pipe, stream: u16) -> Result<[u8; 16], Refusal>
        ensures { result ≡ context_by self.now pipe stream }
    {
        if !has_context(pipe, stream) {
            return Err(Refusal::NoRing);
        }
        match self.lines.array(pipe).bytes(stream) {
            Ok(bytes) => Ok(bytes),
            Err(_) => Err(Refusal::NoRing),
        }
    }
}
