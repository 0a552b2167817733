//! The rings, stream arrays and doorbells between a host and its xHCI controller.
//!
//! A UAS interface has four pipes. The command pipe has one ring; the status, data-in and data-out
//! pipes have a ring for each stream, and a linear primary stream array whose contexts point at them
//! (xHCI 1.2, 4.12 and 6.2.4). Beside these stand the controller's command ring and the event ring.
//! A context is 16 bytes: the cycle state (DCS) in bit 0, stream context type 1 in bits 3:1, the
//! dequeue pointer in 63:4, else 0; entry 0 is reserved.
//!
//! Each ring lies at an address of its own: pipe p's ring of stream s (0 for the command pipe) begins at
//! `RINGS + PIPE_SPAN p + STREAM_SPAN s` = `0x40000000 + 0x1000000 p + 0x1000 s`, the command ring at `0x50000000`, the event ring at
//! `0x60000000`, and each place has 16 bytes.
//!
//! What is promised: [`find`] is the inverse of this map, Some exactly for the first byte of a place of
//! a pipe's ring; all places are disjoint ([`laws`]). A [`StreamArray`] is a list of entries. A call of
//! [`Lines`] is the named ring's and changes that ring alone. Where the consumer of a stream's ring stands
//! is in the stream's context and nowhere else: place and cycle state are decoded from its bytes at each
//! step, and written there. [`Lines::next_pending`] visits only streams with bytes put since it last found
//! them empty: each pipe keeps a mark of these beside its rings. `new` takes all memory, and no other call
//! takes any. The crate stands on `cycle_ring` and `event_ring` for the rings, on `xhci_trb` for the
//! texts of TRBs, on `marks` and on `byteorder`.
#![tactic(auto)]

ghost use Rattle.std.specs.Prelude.{◌≡◌, ℕ, ◌+◌, ◌*◌, ◌^◌, ◌<◌, ◌≤◌, Some, None, IfSome, IsTrue};
ghost use Rattle.uas_profile.specs.declared.Pipe.{Pipe};
ghost use Rattle.uas_profile.specs.Pipes.{number_of};
ghost use Rattle.stream_array.specs.Map.{IsPlace, place_address, places_of, pipe_numbered, has_ring, spot_in, spot_at};
ghost use Rattle.uas_profile.specs.Pipes.{target_of};

pub use contexts::StreamArray;
pub use lines::Lines;
use std::alloc::AllocError;
use thiserror::Error;
pub use uas_profile::{Pipe, doorbell};
use uas_profile::{
    COMMAND_RING_PLACES, PIPE_SPAN, RINGS, STREAM_RING_PLACES, STREAM_SPAN, STREAMS,
};

mod contexts;
pub mod laws;
mod lines;
mod streams;

/// Want of memory, the one refusal of a constructor.
pub type NoMemory = AllocError;

/// A stream's dequeue pointer and cycle state.
#[derive(Clone, Copy, PartialEq, Eq, Debug)]
pub struct Dequeue {
    pub pointer: u64,
    pub cycle: bool,
}

/// Stream 0, a stream past the array's end, or for a write one without a ring.
#[derive(Clone, Copy, PartialEq, Eq, Debug, Error)]
#[error("no such stream")]
pub struct InvalidStream;

#[inline(always)]
fn numbered(number: u64) -> Option<Pipe>
    ensures { result ≡ pipe_numbered number }
{
    match number {
        1 => Some(Pipe::Command),
        2 => Some(Pipe::Status),
        3 => Some(Pipe::DataIn),
        4 => Some(Pipe::DataOut),
        _ => None,
    }
}

#[inline(always)]
fn has_ring(pipe: Pipe, stream: u64) -> bool
    ensures has { result ≡ has_ring pipe stream }
    ensures below { IsTrue result → stream ≤ STREAMS }
{
    match pipe {
        Pipe::Command => stream == 0,
        Pipe::Status | Pipe::DataIn | Pipe::DataOut => 0 < stream && stream <= STREAMS as u64,
    }
}

#[inline(always)]
fn places(pipe: Pipe) -> usize
    ensures places { result ≡ places_of pipe }
{
    match pipe {
        Pipe::Command => COMMAND_RING_PLACES,
        Pipe::Status | Pipe::DataIn | Pipe::DataOut => STREAM_RING_PLACES,
    }
}

// The place at whose first byte an offset in the pipe's span is.
#[inline(always)]
fn spot(pipe: Pipe, inside: u64) -> Option<(Pipe, u16, usize)>
    ensures { result ≡ spot_in pipe inside }
{
    let stream = inside / STREAM_SPAN;
    let place = (inside % STREAM_SPAN / 16) as usize;
    if has_ring(pipe, stream) && place < places(pipe) && inside % 16 == 0 {
        Some((pipe, stream as u16, place))
    } else {
        None
    }
}

/// The pipe, the stream (0 for the command pipe) and the place of the ring at whose place this address
/// is the first byte, if there is one.
#[tactic(auto, using(crate::proofs::Spots::spots))]
#[inline(always)]
pub fn find(pointer: u64) -> Option<(Pipe, u16, usize)>
    ensures spot { result ≡ spot_at pointer }
    ensures found { IfSome result (λ at. IsPlace at.0 at.1 at.2 × (pointer ≡ place_address at.0 at.1 at.2)) }
    ensures every { (pipe : Pipe) (stream place : ℕ) → IsPlace pipe stream place → pointer ≡ place_address pipe stream place
        → result ≡ Some (pipe, stream, place) }
{
    if pointer < RINGS {
        return None;
    }
    let offset = pointer - RINGS;
    let pipe = numbered(offset / PIPE_SPAN)?;
    spot(pipe, offset % PIPE_SPAN)
}
