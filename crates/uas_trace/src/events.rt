//! The event ring as `trace` reads it: where the newest event stands, and its line.

ghost use Rattle.std.specs.Prelude.{◌≡◌, ◌==◌, ◌<◌, ◌≤◌, ◌++◌, IfSome, OnOk, length};
ghost use Rattle.event_ring.specs.Events.{IsRing};
ghost use Rattle.uas_profile.specs.declared.TheConstants.{EVENT_RING_PLACES};
ghost use Rattle.uas_trace.specs.Written.{event_at, event_line, newest_place, residual_in, status_len};

use crate::put_ring::push_image;
use std::alloc::AllocError;
use stream_array::Lines;
use uas_profile::{EVENT_RING, EVENT_RING_PLACES, STATUS_BYTES};

/// The place of the newest event. It is looked for from a place on, and that of the event before it leads there at once.
pub fn newest_event(lines: &Lines, from: usize) -> usize
    requires standing { IsRing EVENT_RING_PLACES lines.now.events }
    requires some { 0 < length lines.now.events.pending }
    ensures { result ≡ newest_place lines.now.events }
{
    let first = from % EVENT_RING_PLACES;
    for passed in 0..EVENT_RING_PLACES {
        let place = (first + passed) % EVENT_RING_PLACES;
        if is_newest(lines, place) {
            return place;
        }
    }
    unreachable!()
}

/// Whether the newest event stands at a place: an event does, and none behind it.
fn is_newest(lines: &Lines, place: usize) -> bool
    requires standing { IsRing EVENT_RING_PLACES lines.now.events }
    requires some { 0 < length lines.now.events.pending }
    requires place { place < EVENT_RING_PLACES }
    ensures { result ≡ (place == newest_place lines.now.events) }
{
    let behind = (place + 1) % EVENT_RING_PLACES;
    event_at(lines, place).is_some() && event_at(lines, behind).is_none()
}

/// The bytes of the event that is pending at a place.
#[tactic(auto, using(crate::proofs::Stands::event_below, crate::proofs::Stands::event_stands))]
pub fn event_at(lines: &Lines, place: usize) -> Option<[u8; 16]>
    requires { place < EVENT_RING_PLACES }
    ensures { result ≡ event_at lines.now.events place }
{
    lines.image_event(place)
}

/// Adds the line of the event that was posted at a place, if one was.
pub fn push_event(
    text: &mut Vec<u8>,
    posted: Option<usize>,
    event: &Option<[u8; 16]>,
) -> Result<(), AllocError>
    requires { IfSome posted (λ place. place < EVENT_RING_PLACES) }
    ensures { OnOk result (text.new.items ≡ text.old.items ++ event_line posted event.now) }
{
    match posted {
        Some(place) => push_image(text, "event", EVENT_RING + 16 * place as u64, event),
        None => Ok(()),
    }
}

/// How many bytes of the status buffer were written, as the event tells; none without it.
pub fn status_len(event: &Option<[u8; 16]>) -> usize
    ensures len { result ≡ status_len event.now }
    ensures most { result ≤ STATUS_BYTES }
{
    match event {
        Some(bytes) => STATUS_BYTES.saturating_sub(residual(bytes)),
        None => 0,
    }
}

/// How many bytes an event's TRB had left: bits 23:0 of its status word (xHCI 6.4.2.1).
fn residual(event: &[u8; 16]) -> usize
    ensures { result ≡ residual_in event.now }
{
    u32::from_le_bytes([event[8], event[9], event[10], 0]) as usize
}
