// All rings of a controller with one interface, as host and controller are lent them.

ghost use Rattle.std.specs.Prelude.{◌≡◌, ◌≢◌, ℕ, ◌+◌, ◌-◌, ◌<◌, ◌≤◌, ◌++◌, [], ◌∷◌, ◌↔◌, ◌⊎◌, Some, IfSome, All, length, map, slice_get};
ghost use Rattle.std.specs.Prelude.{IsOk, IsSome, IfOk, OnOk, OnErr, IfNone};
ghost use Rattle.xhci_trb.specs.Text.{HasText};
ghost use Rattle.cycle_ring.specs.Ring.{IsTd, place_of, pointer_of, cycle_of, reclaimed};
ghost use Rattle.cycle_ring.specs.Items.{IsItemRing, known, known_front_of, raw_front_of, raw_image, raw_link_image, item_read};
ghost use Rattle.cycle_ring.specs.Ring.{IsConsumed, IsEnqueuePlace, IsPending, IsInUse};
ghost use Rattle.cycle_ring.specs.Items.{chain_consumed_at, known_consumed_at, known_oldest_of};
ghost use Rattle.uas_profile.specs.Pipes.{HasStreams};
ghost use Rattle.uas_profile.specs.declared.TheConstants.{STREAMS};
ghost use Rattle.stream_array.specs.Map.{HasRing, place_address, places_of, ring_base};
ghost use Rattle.stream_array.specs.Rings.{ring_of, with_ring, ShowsRings, HasPending, NonePendingOn, IsLines, IsOpeningLines};

mod engine;

use crate::streams::Streams;
use crate::{NoMemory, Pipe, StreamArray};
use cycle_ring::{CycleRing, NotAPlace, RingFull, Td};
use event_ring::EventRing;
use std::alloc::Global;
use std::marker::Model;
use uas_profile::{
    COMMAND_RING_PLACES, ENGINE_RING, ENGINE_RING_PLACES, EVENT_RING_PLACES, PIPE_SPAN, RINGS,
    STREAM_ENTRIES,
};
use xhci_trb::Trb;

/// Every ring between host and controller: the command pipe's, one for each stream of the three pipes
/// with streams, the controller's command ring and the event ring; and the three stream arrays. A stream's
/// consumer stands where its context says, and its calls read and write the context.
#[derive(Debug, Drop)]
pub struct Lines {
    command: CycleRing<COMMAND_RING_PLACES>,
    status: Streams,
    data_in: Streams,
    data_out: Streams,
    engine: CycleRing<ENGINE_RING_PLACES>,
    events: EventRing<EVENT_RING_PLACES>,
}

impl Model for Lines {
    ghost use Rattle.stream_array.specs.Rings.{LinesState, IsLines};

    ghost Value = { LinesState };

    ghost view = { λ l. record { command = l.command; status = l.status; data_in = l.data_in; data_out = l.data_out; engine = l.engine; events = l.events } };

    ghost invariant = { λ l. IsLines
        (record { command = l.command; status = l.status; data_in = l.data_in; data_out = l.data_out; engine = l.engine; events = l.events }) };
}

impl Lines {
    /// All rings, empty, at their addresses. Refused for want of memory alone.
    pub fn new(alloc: Global) -> Result<Self, NoMemory>
        ensures { IfOk result IsOpeningLines }
    {
        Ok(Lines {
            command: CycleRing::new(alloc, RINGS + PIPE_SPAN)?,
            status: Streams::new(alloc, Pipe::Status)?,
            data_in: Streams::new(alloc, Pipe::DataIn)?,
            data_out: Streams::new(alloc, Pipe::DataOut)?,
            engine: CycleRing::new(alloc, ENGINE_RING)?,
            events: EventRing::new(alloc)?,
        })
    }

    /// The room of a ring.
    #[inline(always)]
    pub fn room(&self, pipe: Pipe, stream: u16) -> usize
        requires { HasRing pipe stream }
        ensures room { result + length (ring_of self.now pipe stream).put ≡ places_of pipe - 2 }
        ensures standing { IsItemRing (places_of pipe) (ring_of self.now pipe stream) }
        ensures base { (ring_of self.now pipe stream).base ≡ ring_base pipe stream }
        ensures lines { IsLines self.now }
    {
        match pipe {
            Pipe::Command => self.command.room(),
            Pipe::Status => self.status.room(stream),
            Pipe::DataIn => self.data_in.room(stream),
            Pipe::DataOut => self.data_out.room(stream),
        }
    }

    /// Puts a TD on a ring, as the ring's call does. Refused where its room is too small.
    #[inline(always)]
    pub fn push_td(&mut self, pipe: Pipe, stream: u16, trbs: &[Trb]) -> Result<Td, RingFull>
        requires ring { HasRing pipe stream }
        requires td { IsTd trbs.now }
        requires texts { All HasText trbs.now }
        requires at_most { length trbs.now ≤ places_of pipe - 2 }
        ensures room { IsOk result ↔ (length (ring_of self.old pipe stream).put + length trbs.now ≤ places_of pipe - 2) }
        ensures put { OnOk result (let ring = ring_of self.old pipe stream in self.new ≡ with_ring self.old pipe stream
            (record ring { put = ring.put ++ map known trbs.now })) }
        ensures td { IfOk result (λ td. let ring = ring_of self.old pipe stream in td ≡ record {
          first = pointer_of (places_of pipe) ring
              (length ring.put);
          last = pointer_of (places_of pipe) ring (length ring.put + length trbs.now - 1);
        }) }
        ensures full { OnErr result (self.new ≡ self.old) }
    {
        match pipe {
            Pipe::Command => self.command.push_td(trbs),
            Pipe::Status => self.status.push_td(stream, trbs),
            Pipe::DataIn => self.data_in.push_td(stream, trbs),
            Pipe::DataOut => self.data_out.push_td(stream, trbs),
        }
    }

    /// Puts any 16 bytes on a ring, as the ring's call does, with the producer's cycle state as their Cycle bit: their address.
    /// Refused where the ring has no room.
    pub fn put_raw(&mut self, pipe: Pipe, stream: u16, bytes: &[u8; 16]) -> Result<u64, RingFull>
        requires { HasRing pipe stream }
        ensures room { IsOk result ↔ (length (ring_of self.old pipe stream).put < places_of pipe - 2) }
        ensures put { OnOk result (let ring = ring_of self.old pipe stream in self.new ≡ with_ring self.old pipe stream
            (record ring { put = ring.put ++ item_read bytes.now ∷ [] })) }
        ensures address { IfOk result (λ address. let ring = ring_of self.old pipe stream in
            address ≡ pointer_of (places_of pipe) ring (length ring.put)) }
        ensures full { OnErr result (self.new ≡ self.old) }
    {
        match pipe {
            Pipe::Command => self.command.put_raw(bytes),
            Pipe::Status => self.status.put_raw(stream, bytes),
            Pipe::DataIn => self.data_in.put_raw(stream, bytes),
            Pipe::DataOut => self.data_out.put_raw(stream, bytes),
        }
    }

    /// The enqueue pointer and the producer's cycle state of a ring.
    pub fn place(&self, pipe: Pipe, stream: u16) -> (u64, bool)
        requires { HasRing pipe stream }
        ensures place { let ring = ring_of self.now pipe stream in result ≡
            (pointer_of (places_of pipe) ring (length ring.put), cycle_of (places_of pipe) ring (length ring.put)) }
        ensures unused { (k : ℕ) → k < length (ring_of self.now pipe stream).put → pointer_of (places_of pipe) (ring_of self.now pipe stream) k ≢ result.0 }
        ensures lines { IsLines self.now }
    {
        match pipe {
            Pipe::Command => self.command.place(),
            Pipe::Status => self.status.place(stream),
            Pipe::DataIn => self.data_in.place(stream),
            Pipe::DataOut => self.data_out.place(stream),
        }
    }

    /// The first pending TRB of a ring and its address, if there is one.
    #[inline(always)]
    pub fn front(&self, pipe: Pipe, stream: u16) -> Option<(u64, Trb)>
        requires { HasRing pipe stream }
        ensures front { result ≡ known_front_of (places_of pipe) (ring_of self.now pipe stream) }
        ensures pending { IsSome result → (ring_of self.now pipe stream).got < length (ring_of self.now pipe stream).put }
    {
        match pipe {
            Pipe::Command => self.command.front(),
            Pipe::Status => self.status.front(stream),
            Pipe::DataIn => self.data_in.front(stream),
            Pipe::DataOut => self.data_out.front(stream),
        }
    }

    /// The first 16 pending bytes of a ring, whatever they are, and their address, if there are some.
    #[inline(always)]
    pub fn front_raw(&self, pipe: Pipe, stream: u16) -> Option<(u64, [u8; 16])>
        requires { HasRing pipe stream }
        ensures front { result ≡ raw_front_of (places_of pipe) (ring_of self.now pipe stream) }
        ensures pending { IsSome result ↔ ((ring_of self.now pipe stream).got < length (ring_of self.now pipe stream).put) }
    {
        match pipe {
            Pipe::Command => self.command.front_raw(),
            Pipe::Status => self.status.front_raw(stream),
            Pipe::DataIn => self.data_in.front_raw(stream),
            Pipe::DataOut => self.data_out.front_raw(stream),
        }
    }

    /// The first stream of a pipe, from this one on, that has something pending. Looked at are only streams on which something
    /// was put since they were found empty here.
    pub fn next_pending(&mut self, pipe: Pipe, from: u16) -> Option<u16>
        requires { HasStreams pipe }
        ensures kept { self.new ≡ self.old }
        ensures next { IfSome result (λ next. (from ≤ next) × HasRing pipe next × HasPending (ring_of self.old pipe next)
            × NonePendingOn self.old pipe from next) }
        ensures none { IfNone result (NonePendingOn self.old pipe from (STREAMS + 1)) }
    {
        match pipe {
            Pipe::Command => unreachable!(),
            Pipe::Status => self.status.next_pending(from),
            Pipe::DataIn => self.data_in.next_pending(from),
            Pipe::DataOut => self.data_out.next_pending(from),
        }
    }

    /// Consumes the first pending item of a ring, a TRB or foreign bytes. Asks that there is one.
    #[inline(always)]
    pub fn advance(&mut self, pipe: Pipe, stream: u16)
        requires ring { HasRing pipe stream }
        requires pending { (ring_of self.old pipe stream).got < length (ring_of self.old pipe stream).put }
        ensures { let ring = ring_of self.old pipe stream in self.new ≡ with_ring self.old pipe stream (record ring { got = ring.got + 1 }) }
    {
        match pipe {
            Pipe::Command => self.command.advance(),
            Pipe::Status => self.status.advance(stream),
            Pipe::DataIn => self.data_in.advance(stream),
            Pipe::DataOut => self.data_out.advance(stream),
        }
    }

    /// Moves a ring's consumer's end to a pending place. Refused where the address or the cycle state is not
    /// that of a pending TRB.
    pub fn set_dequeue(
        &mut self,
        pipe: Pipe,
        stream: u16,
        pointer: u64,
        cycle: bool,
    ) -> Result<(), NotAPlace>
        requires { HasRing pipe stream }
        ensures accepted { IsOk result ↔ ((k : ℕ) × IsPending (places_of pipe) (ring_of self.old pipe stream) k pointer cycle) }
        ensures set { (k : ℕ) → IsPending (places_of pipe) (ring_of self.old pipe stream) k pointer cycle
            → let ring = ring_of self.old pipe stream in self.new ≡ with_ring self.old pipe stream (record ring { got = k }) }
        ensures refused { OnErr result (self.new ≡ self.old) }
    {
        match pipe {
            Pipe::Command => self.command.set_dequeue(pointer, cycle),
            Pipe::Status => self.status.set_dequeue(stream, pointer, cycle),
            Pipe::DataIn => self.data_in.set_dequeue(stream, pointer, cycle),
            Pipe::DataOut => self.data_out.set_dequeue(stream, pointer, cycle),
        }
    }

    /// The consumed TRB of a ring at an address, while it isn't reclaimed.
    #[inline(always)]
    pub fn consumed(&self, pipe: Pipe, stream: u16, pointer: u64) -> Option<Trb>
        requires { HasRing pipe stream }
        ensures consumed { result ≡ known_consumed_at (places_of pipe) (ring_of self.now pipe stream) pointer }
        ensures known { IfSome result (λ trb. (k : ℕ) × IsConsumed (places_of pipe) (ring_of self.now pipe stream) k pointer
            × (slice_get (ring_of self.now pipe stream).put k ≡ Some (known trb))) }
    {
        match pipe {
            Pipe::Command => self.command.consumed(pointer),
            Pipe::Status => self.status.consumed(stream, pointer),
            Pipe::DataIn => self.data_in.consumed(stream, pointer),
            Pipe::DataOut => self.data_out.consumed(stream, pointer),
        }
    }

    /// The consumed TRB at a place of a stream's ring, while it isn't reclaimed, as [`Lines::consumed`] gives it by the place's address.
    /// The Link's place has none.
    #[inline(always)]
    pub fn consumed_in(&self, pipe: Pipe, stream: u16, place: usize) -> Option<Trb>
        requires streams { HasStreams pipe }
        requires ring { HasRing pipe stream }
        ensures consumed { result ≡ known_consumed_at (places_of pipe) (ring_of self.now pipe stream) (place_address pipe stream place) }
        ensures known { IfSome result (λ trb. (k : ℕ) × IsConsumed (places_of pipe) (ring_of self.now pipe stream) k (place_address pipe stream place)
            × (slice_get (ring_of self.now pipe stream).put k ≡ Some (known trb))) }
    {
        match pipe {
            Pipe::Command => unreachable!(),
            Pipe::Status => self.status.consumed_in(stream, place),
            Pipe::DataIn => self.data_in.consumed_in(stream, place),
            Pipe::DataOut => self.data_out.consumed_in(stream, place),
        }
    }

    /// Whether the consumed TRB of a ring at an address has its Chain bit set, while it isn't reclaimed.
    #[inline(always)]
    pub fn consumed_chain(&self, pipe: Pipe, stream: u16, pointer: u64) -> Option<bool>
        requires { HasRing pipe stream }
        ensures { result ≡ chain_consumed_at (places_of pipe) (ring_of self.now pipe stream) pointer }
    {
        match pipe {
            Pipe::Command => self.command.consumed_chain(pointer),
            Pipe::Status => self.status.consumed_chain(stream, pointer),
            Pipe::DataIn => self.data_in.consumed_chain(stream, pointer),
            Pipe::DataOut => self.data_out.consumed_chain(stream, pointer),
        }
    }

    /// The first TRB of a ring that isn't reclaimed and its address, once it is consumed.
    #[inline(always)]
    pub fn oldest(&self, pipe: Pipe, stream: u16) -> Option<(u64, Trb)>
        requires { HasRing pipe stream }
        ensures oldest { result ≡ known_oldest_of (places_of pipe) (ring_of self.now pipe stream) }
        ensures known { IfSome result (λ at. IsConsumed (places_of pipe) (ring_of self.now pipe stream) 0 at.0) }
        ensures lines { IsLines self.now }
    {
        match pipe {
            Pipe::Command => self.command.oldest(),
            Pipe::Status => self.status.oldest(stream),
            Pipe::DataIn => self.data_in.oldest(stream),
            Pipe::DataOut => self.data_out.oldest(stream),
        }
    }

    /// Moves a ring's consumer's end to a pending place, or to the enqueue place, where all that is pending
    /// is dropped (4.6.10). Refused where the address is neither's, or the cycle state isn't the place's.
    pub fn move_dequeue(
        &mut self,
        pipe: Pipe,
        stream: u16,
        pointer: u64,
        cycle: bool,
    ) -> Result<(), NotAPlace>
        requires { HasRing pipe stream }
        ensures accepted { let ring = ring_of self.old pipe stream in IsOk result ↔ (IsEnqueuePlace (places_of pipe) ring pointer cycle
            ⊎ ((k : ℕ) × IsPending (places_of pipe) ring k pointer cycle)) }
        ensures enqueue { let ring = ring_of self.old pipe stream in IsEnqueuePlace (places_of pipe) ring pointer cycle → IsOk result
            × (self.new ≡ with_ring self.old pipe stream (record ring { got = length ring.put })) }
        ensures set { (k : ℕ) → IsPending (places_of pipe) (ring_of self.old pipe stream) k pointer cycle
            → let ring = ring_of self.old pipe stream in self.new ≡ with_ring self.old pipe stream (record ring { got = k }) }
        ensures refused { OnErr result (self.new ≡ self.old) }
    {
        match pipe {
            Pipe::Command => self.command.move_dequeue(pointer, cycle),
            Pipe::Status => self.status.move_dequeue(stream, pointer, cycle),
            Pipe::DataIn => self.data_in.move_dequeue(stream, pointer, cycle),
            Pipe::DataOut => self.data_out.move_dequeue(stream, pointer, cycle),
        }
    }

    /// Frees the TRBs of a ring up to and with the one at this address. Asks a consumed TRB that isn't
    /// reclaimed.
    #[inline(always)]
    pub fn reclaim(&mut self, pipe: Pipe, stream: u16, pointer: u64)
        requires ring { HasRing pipe stream }
        requires consumed { (k : ℕ) × IsConsumed (places_of pipe) (ring_of self.old pipe stream) k pointer }
        ensures { (k : ℕ) → IsConsumed (places_of pipe) (ring_of self.old pipe stream) k pointer
            → self.new ≡ with_ring self.old pipe stream (reclaimed (places_of pipe) (k + 1) (ring_of self.old pipe stream)) }
    {
        match pipe {
            Pipe::Command => self.command.reclaim(pointer),
            Pipe::Status => self.status.reclaim(stream, pointer),
            Pipe::DataIn => self.data_in.reclaim(stream, pointer),
            Pipe::DataOut => self.data_out.reclaim(stream, pointer),
        }
    }

    /// Frees the TRBs of a stream's ring up to and with the one at this place, as [`Lines::reclaim`] does by the place's address.
    #[inline(always)]
    pub fn reclaim_in(&mut self, pipe: Pipe, stream: u16, place: usize)
        requires streams { HasStreams pipe }
        requires ring { HasRing pipe stream }
        requires consumed { (k : ℕ) × IsConsumed (places_of pipe) (ring_of self.old pipe stream) k (place_address pipe stream place) }
        ensures { (k : ℕ) → IsConsumed (places_of pipe) (ring_of self.old pipe stream) k (place_address pipe stream place)
            → self.new ≡ with_ring self.old pipe stream (reclaimed (places_of pipe) (k + 1) (ring_of self.old pipe stream)) }
    {
        match pipe {
            Pipe::Command => unreachable!(),
            Pipe::Status => self.status.reclaim_in(stream, place),
            Pipe::DataIn => self.data_in.reclaim_in(stream, place),
            Pipe::DataOut => self.data_out.reclaim_in(stream, place),
        }
    }

    /// The bytes at a place of a ring, as the ring's call gives them.
    pub fn image(&self, pipe: Pipe, stream: u16, place: usize) -> Option<[u8; 16]>
        requires { HasRing pipe stream }
        ensures item { (k : ℕ) → k < places_of pipe - 1 → place ≡ place_of (places_of pipe) (ring_of self.now pipe stream) k
            → result ≡ raw_image (places_of pipe) (ring_of self.now pipe stream) k }
        ensures link { (k : ℕ) → k < places_of pipe - 1 → place_of (places_of pipe) (ring_of self.now pipe stream) k ≡ places_of pipe - 2
            → place ≡ places_of pipe - 1 → result ≡ raw_link_image (places_of pipe) (ring_of self.now pipe stream) k }
        ensures in_use { IsSome result → (k : ℕ) × IsInUse (places_of pipe) (ring_of self.now pipe stream) k place }
    {
        match pipe {
            Pipe::Command => self.command.image(place),
            Pipe::Status => self.status.image(stream, place),
            Pipe::DataIn => self.data_in.image(stream, place),
            Pipe::DataOut => self.data_out.image(stream, place),
        }
    }

    /// The stream array of a pipe with streams, which shows the consumer's end of each of its rings (4.12).
    pub fn array(&self, pipe: Pipe) -> &StreamArray<STREAM_ENTRIES>
        requires { HasStreams pipe }
        ensures { ShowsRings self.now pipe result.now }
    {
        match pipe {
            Pipe::Command => unreachable!(),
            Pipe::Status => self.status.contexts(),
            Pipe::DataIn => self.data_in.contexts(),
            Pipe::DataOut => self.data_out.contexts(),
        }
    }
}
