//! Items put on rings, places given back, doorbells, and what the contexts show.
ghost use Rattle.std.specs.Prelude.{◌≡◌, false, true};
ghost use Rattle.stream_array.specs.Contexts.{has_stream};
ghost use Rattle.stream_array.specs.Map.{HasRing, has_ring};
ghost use Rattle.uas_profile.specs.Pipes.{HasStreams};
ghost use Rattle.uas_controller.specs.Calls.{context_by, has_context, put_by, put_commands_by, reclaim_by, reclaim_commands_by};
ghost use Rattle.uas_controller.specs.Steps.{rung};

use crate::{Machine, Refusal};
use cycle_ring::laws::addresses_name_items;
use stream_array::Pipe;
use uas_profile::STREAMS;

/// Whether a tag has buffers, and each pipe with streams a ring for it.
pub(crate) fn has_stream(stream: u16) -> bool
    ensures { result ≡ has_stream stream }
{
    0 < stream && stream <= STREAMS
}

fn has_ring(pipe: Pipe, stream: u16) -> bool
    ensures has { result ≡ has_ring pipe stream }
    ensures ring { result ≡ true → HasRing pipe stream }
{
    match pipe {
        Pipe::Command => stream == 0,
        Pipe::Status | Pipe::DataIn | Pipe::DataOut => has_stream(stream),
    }
}

fn has_context(pipe: Pipe, stream: u16) -> bool
    ensures has { result ≡ has_context pipe stream }
    ensures streams { result ≡ true → HasStreams pipe }
{
    match pipe {
        Pipe::Command => false,
        Pipe::Status | Pipe::DataIn | Pipe::DataOut => has_stream(stream),
    }
}

impl Machine {
    /// Puts 16 bytes behind a ring's last item, with the producer's cycle state as their Cycle bit (4.9.2.2): the address at which
    /// they stand. The command pipe's ring has room for 254 items, a stream's for 18. Refused: `NoRing`, `Full`.
    pub fn put_raw(&mut self, pipe: Pipe, stream: u16, bytes: &[u8; 16]) -> Result<u64, Refusal>
        ensures { put_by self.old pipe stream bytes.now ≡ (self.new, result) }
    {
        if !has_ring(pipe, stream) {
            return Err(Refusal::NoRing);
        }
        match self.lines.put_raw(pipe, stream, bytes) {
            Ok(address) => Ok(address),
            Err(_) => Err(Refusal::Full),
        }
    }

    /// The same on the controller's own command ring (4.6.1), which has room for 14 items. Refused: `Full`.
    pub fn put_raw_commands(&mut self, bytes: &[u8; 16]) -> Result<u64, Refusal>
        ensures { put_commands_by self.old bytes.now ≡ (self.new, result) }
    {
        match self.lines.put_raw_engine(bytes) {
            Ok(address) => Ok(address),
            Err(_) => Err(Refusal::Full),
        }
    }

    /// Gives a ring's consumed items back to it, from the oldest up to the one at an address, so that their places can be used again
    /// (4.9.2.2: a place is the controller's until then). Refused: `NoRing`, `NotConsumed`.
    pub fn reclaim(&mut self, pipe: Pipe, stream: u16, address: u64) -> Result<(), Refusal>
        ensures { reclaim_by self.old pipe stream address ≡ (self.new, result) }
    {
        if !has_ring(pipe, stream) {
            return Err(Refusal::NoRing);
        }
        addresses_name_items();
        self.lines.room(pipe, stream);
        if self.lines.consumed_chain(pipe, stream, address).is_none() {
            return Err(Refusal::NotConsumed);
        }
        self.lines.reclaim(pipe, stream, address);
        Ok(())
    }

    /// The same of the controller's own command ring, where the item at the address has to be a TRB. Refused: `NotConsumed`.
    pub fn reclaim_commands(&mut self, address: u64) -> Result<(), Refusal>
        ensures { reclaim_commands_by self.old address ≡ (self.new, result) }
    {
        addresses_name_items();
        self.lines.room_engine();
        if self.lines.consumed_engine(address).is_none() {
            return Err(Refusal::NotConsumed);
        }
        self.lines.reclaim_engine(address);
        Ok(())
    }

    /// Writes a doorbell (4.7, 5.6): the endpoint ID in bits 7:0 (3 status, 4 data-out, 5 data-in), the stream in bits 31:16. It arms
    /// that stream and starts its endpoint; any other value changes nothing.
    pub fn doorbell(&mut self, value: u32)
        ensures { self.new ≡ rung self.old value }
    {
        self.controller.doorbell(value);
    }

    /// The context of a stream (6.2.4.1), which shows where the ring's consumer stands. Refused: `NoRing`, where the pipe has no
    /// streams or the stream isn't one from 1 to 248.
    pub fn context(&self, pipe: Pipe, stream: u16) -> Result<[u8; 16], Refusal>
        ensures { result ≡ context_by self.now pipe stream }
    {
        if !has_context(pipe, stream) {
            return Err(Refusal::NoRing);
        }
        match self.lines.array(pipe).bytes(stream) {
            Ok(bytes) => Ok(bytes),
            Err(_) => Err(Refusal::NoRing),
        }
    }
}
