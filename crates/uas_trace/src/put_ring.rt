//! The rings that the host puts TRBs on, and the lines of what was put.
//!
//! A ring is read by places, each a TRB of 16 bytes; the last has the Link. What was put since the ring ended at a place is read
//! from that place up to where the ring ends now; behind the last place before the Link's, the Link was passed and written too.

ghost use Rattle.std.specs.Prelude.{◌≡◌, ◌+◌, ◌-◌, ◌*◌, ◌<◌, ◌≤◌, ◌++◌, ◌^◌, OnOk};
ghost use Rattle.ring_ends.specs.Counted.{distance};
ghost use Rattle.stream_array.specs.Rings.{IsLines};
ghost use Rattle.uas_trace.specs.Written.{IsPutRing, base_in, end_of, image_line, link_at, place_lines, places_in, put_since};
ghost use Rattle.uas_trace.specs.Written.{ring_in, trb_at};

use crate::lines::push_bytes;
use std::alloc::AllocError;
use stream_array::{Lines, Pipe};
use uas_profile::{
    COMMAND_RING_PLACES, ENGINE_RING, ENGINE_RING_PLACES, PIPE_SPAN, RINGS, STREAM_RING_PLACES,
    STREAM_SPAN,
};

/// A ring that the host puts TRBs on.
#[derive(Clone, Copy)]
pub enum PutRing {
    /// A pipe's of a stream; the command pipe has one, called stream 0.
    Stream(Pipe, u16),
    /// The controller's command ring.
    Engine,
}

impl PutRing {
    /// How many places it has, the Link's too.
    fn places(self) -> usize
        ensures places { result ≡ places_in self }
        ensures least { 4 ≤ result }
        ensures most { result ≤ 256 }
    {
        match self {
            PutRing::Stream(Pipe::Command, _) => COMMAND_RING_PLACES,
            PutRing::Stream(Pipe::Status | Pipe::DataIn | Pipe::DataOut, _) => STREAM_RING_PLACES,
            PutRing::Engine => ENGINE_RING_PLACES,
        }
    }

    /// The address of its first place.
    fn base(self) -> u64
        requires { IsPutRing self }
        ensures base { result ≡ base_in self }
        ensures most { result < 2 ^ 32 }
    {
        match self {
            PutRing::Stream(pipe, stream) => {
                RINGS + PIPE_SPAN * u64::from(pipe.number()) + STREAM_SPAN * u64::from(stream)
            }
            PutRing::Engine => ENGINE_RING,
        }
    }

    /// The place of its next TRB.
    pub fn end(self, lines: &Lines) -> usize
        requires ring { IsPutRing self }
        requires lines { IsLines lines.now }
        ensures end { result ≡ end_of (places_in self) (ring_in lines.now self) }
        ensures before { result < places_in self - 1 }
    {
        let (pointer, _) = match self {
            PutRing::Stream(pipe, stream) => lines.place(pipe, stream),
            PutRing::Engine => lines.place_engine(),
        };
        ((pointer - self.base()) / 16) as usize
    }

    /// The bytes at one of its places, where something stands there.
    #[tactic(auto, using(crate::proofs::Stands::item_below, crate::proofs::Stands::item_stands))]
    fn image(self, lines: &Lines, place: usize) -> Option<[u8; 16]>
        requires { IsPutRing self }
        ensures trb { place < places_in self - 1 → result ≡ trb_at (places_in self) (ring_in lines.now self) place }
        ensures link { place + 1 ≡ places_in self → result ≡ link_at (places_in self) (ring_in lines.now self) }
    {
        match self {
            PutRing::Stream(pipe, stream) => lines.image(pipe, stream, place),
            PutRing::Engine => lines.image_engine(place),
        }
    }

    /// Adds the lines of the TRBs that were put on it since it ended at a place.
    #[tactic(auto, unfolding(crate::specs::Written::put_since))]
    pub fn push_since(
        self,
        text: &mut Vec<u8>,
        lines: &Lines,
        from: usize,
    ) -> Result<(), AllocError>
        requires ring { IsPutRing self }
        requires lines { IsLines lines.now }
        ensures { OnOk result (text.new.items ≡ text.old.items ++ put_since lines.now self from) }
    {
        let turn = self.places() - 1;
        for passed in 0..distance(turn, from, self.end(lines)) {
            self.push_place((from + passed) % turn, text, lines)?;
        }
        Ok(())
    }

    /// Adds the line of the TRB at a place, and that of the Link behind the last.
    fn push_place(self, place: usize, text: &mut Vec<u8>, lines: &Lines) -> Result<(), AllocError>
        requires ring { IsPutRing self }
        requires place { place < places_in self - 1 }
        ensures { OnOk result (text.new.items ≡ text.old.items ++ place_lines lines.now self place) }
    {
        self.push_image(text, lines, "put", place)?;
        let link = self.places() - 1;
        if place + 1 == link {
            self.push_image(text, lines, "link", link)?;
        }
        Ok(())
    }

    /// Adds the line of what stands at a place.
    fn push_image(
        self,
        text: &mut Vec<u8>,
        lines: &Lines,
        name: &str,
        place: usize,
    ) -> Result<(), AllocError>
        requires ring { IsPutRing self }
        requires place { place < places_in self }
        ensures trb { place < places_in self - 1 → OnOk result (text.new.items ≡ text.old.items
            ++ image_line name.now (base_in self + 16 * place) (trb_at (places_in self) (ring_in lines.now self) place)) }
        ensures link { place + 1 ≡ places_in self → OnOk result (text.new.items ≡ text.old.items
            ++ image_line name.now (base_in self + 16 * place) (link_at (places_in self) (ring_in lines.now self))) }
    {
        let address = self.base() + 16 * place as u64;
        push_image(text, name, address, &self.image(lines, place))
    }
}

/// How many places lead from one to another, on a ring of so many to a turn.
fn distance(turn: usize, from: usize, to: usize) -> usize
    requires turn { turn ≤ 256 }
    requires to { to < turn }
    ensures steps { result ≡ distance turn from to }
    ensures reach { 0 < result → from + result ≤ to + turn }
{
    if from <= to {
        to - from
    } else {
        (to + turn).saturating_sub(from)
    }
}

/// Adds the line of 16 bytes, where they stand.
pub fn push_image(
    text: &mut Vec<u8>,
    name: &str,
    address: u64,
    image: &Option<[u8; 16]>,
) -> Result<(), AllocError>
    ensures { OnOk result (text.new.items ≡ text.old.items ++ image_line name.now address image.now) }
{
    match image {
        Some(bytes) => push_bytes(text, name, address, bytes),
        None => Ok(()),
    }
}
