// The rings of one pipe with streams. Where a ring's consumer stands is in the stream's context alone.

ghost use Rattle.std.specs.Prelude.{◌≡◌, ◌≢◌, ℕ, ◌+◌, ◌-◌, ◌*◌, ◌<◌, ◌≤◌, ◌++◌, ◌↔◌, ◌⊎◌, All, length, map, slice_get, slice_set, Some, [], ◌∷◌};
ghost use Rattle.std.specs.Prelude.{IsOk, IsSome, IfOk, IfSome, IfNone, OnOk, OnErr};
ghost use Rattle.xhci_trb.specs.Text.{HasText};
ghost use Rattle.cycle_ring.specs.Ring.{IsTd, opening, pointer_of, cycle_of, reclaimed, place_of};
ghost use Rattle.cycle_ring.specs.Items.{IsItemRing, known, known_front_of, raw_front_of, raw_image, raw_link_image, item_read};
ghost use Rattle.cycle_ring.specs.Ring.{IsConsumed, IsEnqueuePlace, IsPending, IsInUse};
ghost use Rattle.cycle_ring.specs.Items.{chain_consumed_at, known_consumed_at, known_oldest_of};
ghost use Rattle.cycle_ring.specs.Segment.{IsConsumer, with_consumer};
ghost use Rattle.uas_profile.specs.Pipes.{HasStreams};
ghost use Rattle.stream_array.specs.Map.{ring_base};
ghost use Rattle.stream_array.specs.Contexts.{entry_of};
ghost use Rattle.stream_array.specs.Rings.{stream_ring, HasPending, IsShown, NonePending};
ghost use Rattle.stream_array.specs.Consumers.{NamesEnd, end_in, dequeue_at};

use crate::{NoMemory, Pipe, StreamArray};
use cycle_ring::{End, NotAPlace, RingFull, Segment, Td};
use marks::Marks;
use std::alloc::Global;
use std::marker::Model;
use uas_profile::{PIPE_SPAN, RINGS, STREAM_ENTRIES, STREAM_RING_PLACES, STREAM_SPAN, STREAMS};
use xhci_trb::Trb;

/// Words of 64 marks, enough for a mark of each stream by its number.
const STREAM_WORDS: usize = 4;

const _: () = prove!(STREAM_WORDS == 4 && (STREAMS as usize) < 64 * STREAM_WORDS);

#[derive(Debug, Drop)]
pub(crate) struct Streams {
    segments: Vec<Segment<STREAM_RING_PLACES>>,
    contexts: StreamArray<STREAM_ENTRIES>,
    // The streams that may have a pending TRB: a mark is made where bytes are put, and taken away where the stream is looked at
    // for its next pending TRB and has none.
    marks: Marks<STREAM_WORDS>,
}

impl Model for Streams {
    ghost use Rattle.std.specs.Prelude.{List};
    ghost use Rattle.cycle_ring.specs.Items.{ItemRing};
    ghost use Rattle.stream_array.specs.Consumers.{rings_of, AreMarked, AreStreams};

    ghost Value = { List ItemRing };

    ghost view = { λ s. rings_of s.segments.items s.contexts };

    ghost invariant = { λ s. AreStreams s.segments.items s.contexts × AreMarked s.marks (rings_of s.segments.items s.contexts) };
}

// The consumer's end that a stream's context names.
#[inline(always)]
fn consumer(
    segment: &Segment<STREAM_RING_PLACES>,
    contexts: &StreamArray<STREAM_ENTRIES>,
    stream: u16,
) -> End
    requires { NamesEnd segment.now (entry_of contexts.now stream) }
    ensures end { result ≡ end_in segment.now.base (entry_of contexts.now stream) }
    ensures consumer { IsConsumer STREAM_RING_PLACES segment.now result }
{
    let dequeue = contexts.named(stream);
    End {
        place: ((dequeue.pointer - segment.base()) / 16) as usize,
        cycle: dequeue.cycle,
    }
}

// Writes a consumer's end into the stream's context.
#[inline(always)]
fn keep(
    segment: &Segment<STREAM_RING_PLACES>,
    contexts: &mut StreamArray<STREAM_ENTRIES>,
    stream: u16,
    end: End,
)
    requires ring { IsSome (entry_of contexts.old stream) }
    requires end { IsConsumer STREAM_RING_PLACES segment.now end }
    ensures { contexts.new ≡ slice_set contexts.old stream (Some (dequeue_at segment.now.base end)) }
{
    contexts.write(stream, segment.address(end), end.cycle);
}

impl Streams {
    pub(crate) fn new(alloc: Global, pipe: Pipe) -> Result<Self, NoMemory>
        requires { HasStreams pipe }
        ensures rings { IfOk result (λ rings. length rings ≡ STREAMS) }
        ensures ring { IfOk result (λ rings. (stream : ℕ) → 0 < stream → stream ≤ STREAMS → stream_ring rings stream ≡ opening (ring_base pipe stream)) }
    {
        let contexts = StreamArray::new(alloc, pipe)?;
        let mut segments = Vec::with_capacity(alloc, STREAMS as usize)?;
        let first = RINGS + PIPE_SPAN * u64::from(pipe.number()) + STREAM_SPAN;
        for count in 0..STREAMS {
            segments.push(Segment::new(alloc, first + STREAM_SPAN * u64::from(count))?)?;
        }
        Ok(Streams {
            segments,
            contexts,
            marks: Marks::new(),
        })
    }

    pub(crate) fn contexts(&self) -> &StreamArray<STREAM_ENTRIES>
        ensures { IsShown self.now result.now }
    {
        &self.contexts
    }

    // A stream's ring but for its consumer's end.
    #[inline(always)]
    fn segment(&self, stream: u16) -> &Segment<STREAM_RING_PLACES>
        requires some { 0 < stream }
        requires last { stream ≤ STREAMS }
        ensures ring { stream_ring self.now stream ≡ record result.now { got = (stream_ring self.now stream).got } }
        ensures standing { IsItemRing STREAM_RING_PLACES (stream_ring self.now stream) }
    {
        let place = stream as usize - 1;
        &self.segments[place]
    }

    // The same, and its consumer's end.
    #[inline(always)]
    fn ring(&self, stream: u16) -> (&Segment<STREAM_RING_PLACES>, End)
        requires some { 0 < stream }
        requires last { stream ≤ STREAMS }
        ensures ring { stream_ring self.now stream ≡ with_consumer STREAM_RING_PLACES result.0.now result.1 }
        ensures consumer { IsConsumer STREAM_RING_PLACES result.0.now result.1 }
    {
        let segment = &self.segments[stream as usize - 1];
        let end = consumer(segment, &self.contexts, stream);
        (segment, end)
    }

    #[inline(always)]
    pub(crate) fn room(&self, stream: u16) -> usize
        requires some { 0 < stream }
        requires last { stream ≤ STREAMS }
        ensures room { result + length (stream_ring self.now stream).put ≡ STREAM_RING_PLACES - 2 }
        ensures standing { IsItemRing STREAM_RING_PLACES (stream_ring self.now stream) }
    {
        self.segment(stream).room()
    }

    #[inline(always)]
    pub(crate) fn push_td(&mut self, stream: u16, trbs: &[Trb]) -> Result<Td, RingFull>
        requires some { 0 < stream }
        requires last { stream ≤ STREAMS }
        requires td { IsTd trbs.now }
        requires texts { All HasText trbs.now }
        requires at_most { length trbs.now ≤ STREAM_RING_PLACES - 2 }
        ensures room { IsOk result ↔ (length (stream_ring self.old stream).put + length trbs.now ≤ STREAM_RING_PLACES - 2) }
        ensures put { OnOk result (let ring = stream_ring self.old stream in self.new ≡ slice_set self.old (stream - 1)
            (record ring { put = ring.put ++ map known trbs.now })) }
        ensures td { IfOk result (λ td. let ring = stream_ring self.old stream in td ≡ record {
          first = pointer_of STREAM_RING_PLACES ring
              (length ring.put);
          last = pointer_of STREAM_RING_PLACES ring (length ring.put + length trbs.now - 1);
        }) }
        ensures full { OnErr result (self.new ≡ self.old) }
    {
        self.marks.set(stream as usize, true);
        let segment = &mut self.segments[stream as usize - 1];
        segment.push_td(trbs)
    }

    pub(crate) fn put_raw(&mut self, stream: u16, bytes: &[u8; 16]) -> Result<u64, RingFull>
        requires some { 0 < stream }
        requires last { stream ≤ STREAMS }
        ensures room { IsOk result ↔ (length (stream_ring self.old stream).put < STREAM_RING_PLACES - 2) }
        ensures put { OnOk result (let ring = stream_ring self.old stream in self.new ≡ slice_set self.old (stream - 1)
            (record ring { put = ring.put ++ item_read bytes.now ∷ [] })) }
        ensures address { IfOk result (λ address. let ring = stream_ring self.old stream in
            address ≡ pointer_of STREAM_RING_PLACES ring (length ring.put)) }
        ensures full { OnErr result (self.new ≡ self.old) }
    {
        self.marks.set(stream as usize, true);
        let segment = &mut self.segments[stream as usize - 1];
        segment.put_raw(bytes)
    }

    pub(crate) fn place(&self, stream: u16) -> (u64, bool)
        requires some { 0 < stream }
        requires last { stream ≤ STREAMS }
        ensures place { let ring = stream_ring self.now stream in result ≡
            (pointer_of STREAM_RING_PLACES ring (length ring.put), cycle_of STREAM_RING_PLACES ring (length ring.put)) }
        ensures unused { let ring = stream_ring self.now stream in (k : ℕ) → k < length ring.put → pointer_of STREAM_RING_PLACES ring k ≢ result.0 }
    {
        self.segment(stream).place()
    }

    #[inline(always)]
    pub(crate) fn front(&self, stream: u16) -> Option<(u64, Trb)>
        requires some { 0 < stream }
        requires last { stream ≤ STREAMS }
        ensures front { result ≡ known_front_of STREAM_RING_PLACES (stream_ring self.now stream) }
        ensures pending { let ring = stream_ring self.now stream in IsSome result → ring.got < length ring.put }
    {
        let (segment, end) = self.ring(stream);
        segment.front(end)
    }

    #[inline(always)]
    pub(crate) fn front_raw(&self, stream: u16) -> Option<(u64, [u8; 16])>
        requires some { 0 < stream }
        requires last { stream ≤ STREAMS }
        ensures front { result ≡ raw_front_of STREAM_RING_PLACES (stream_ring self.now stream) }
        ensures pending { let ring = stream_ring self.now stream in IsSome result ↔ (ring.got < length ring.put) }
    {
        let (segment, end) = self.ring(stream);
        segment.front_raw(end)
    }

    pub(crate) fn next_pending(&mut self, from: u16) -> Option<u16>
        ensures kept { self.new ≡ self.old }
        ensures next { IfSome result (λ next. (from ≤ next) × ((0 < next) × (next ≤ STREAMS)) × HasPending (stream_ring self.old next)
            × NonePending self.old from next) }
        ensures none { IfNone result (NonePending self.old from (STREAMS + 1)) }
    {
        let mut place = from as usize;
        while let Some(stream) = self.marks.next_from(place) {
            if self.front_raw(stream as u16).is_some() {
                return Some(stream as u16);
            }
            self.marks.set(stream, false);
            place = stream + 1;
        }
        None
    }

    #[inline(always)]
    pub(crate) fn advance(&mut self, stream: u16)
        requires some { 0 < stream }
        requires last { stream ≤ STREAMS }
        requires pending { (stream_ring self.old stream).got < length (stream_ring self.old stream).put }
        ensures { let ring = stream_ring self.old stream in self.new ≡ slice_set self.old (stream - 1) (record ring { got = ring.got + 1 }) }
    {
        let segment = &self.segments[stream as usize - 1];
        let end = consumer(segment, &self.contexts, stream);
        let next = segment.advance(end);
        keep(segment, &mut self.contexts, stream, next);
    }

    #[inline(always)]
    pub(crate) fn consumed(&self, stream: u16, pointer: u64) -> Option<Trb>
        requires some { 0 < stream }
        requires last { stream ≤ STREAMS }
        ensures consumed { result ≡ known_consumed_at STREAM_RING_PLACES (stream_ring self.now stream) pointer }
        ensures known { let ring = stream_ring self.now stream in
            IfSome result (λ trb. (k : ℕ) × IsConsumed STREAM_RING_PLACES ring k pointer × (slice_get ring.put k ≡ Some (known trb))) }
    {
        let (segment, end) = self.ring(stream);
        segment.consumed(end, pointer)
    }

    // The same at the address of a place.
    #[inline(always)]
    pub(crate) fn consumed_in(&self, stream: u16, place: usize) -> Option<Trb>
        requires some { 0 < stream }
        requires last { stream ≤ STREAMS }
        ensures consumed { let ring = stream_ring self.now stream in result ≡ known_consumed_at STREAM_RING_PLACES ring (ring.base + 16 * place) }
        ensures known { let ring = stream_ring self.now stream in
            IfSome result (λ trb. (k : ℕ) × IsConsumed STREAM_RING_PLACES ring k (ring.base + 16 * place) × (slice_get ring.put k ≡ Some (known trb))) }
    {
        let (segment, end) = self.ring(stream);
        segment.consumed_in(end, place)
    }

    #[inline(always)]
    pub(crate) fn consumed_chain(&self, stream: u16, pointer: u64) -> Option<bool>
        requires some { 0 < stream }
        requires last { stream ≤ STREAMS }
        ensures { result ≡ chain_consumed_at STREAM_RING_PLACES (stream_ring self.now stream) pointer }
    {
        let (segment, end) = self.ring(stream);
        segment.consumed_chain(end, pointer)
    }

    #[inline(always)]
    pub(crate) fn oldest(&self, stream: u16) -> Option<(u64, Trb)>
        requires some { 0 < stream }
        requires last { stream ≤ STREAMS }
        ensures oldest { result ≡ known_oldest_of STREAM_RING_PLACES (stream_ring self.now stream) }
        ensures known { IfSome result (λ at. IsConsumed STREAM_RING_PLACES (stream_ring self.now stream) 0 at.0) }
    {
        let (segment, end) = self.ring(stream);
        segment.oldest(end)
    }

    pub(crate) fn set_dequeue(
        &mut self,
        stream: u16,
        pointer: u64,
        cycle: bool,
    ) -> Result<(), NotAPlace>
        requires some { 0 < stream }
        requires last { stream ≤ STREAMS }
        ensures accepted { IsOk result ↔ ((k : ℕ) × IsPending STREAM_RING_PLACES (stream_ring self.old stream) k pointer cycle) }
        ensures set { (k : ℕ) → IsPending STREAM_RING_PLACES (stream_ring self.old stream) k pointer cycle
            → let ring = stream_ring self.old stream in self.new ≡ slice_set self.old (stream - 1) (record ring { got = k }) }
        ensures refused { OnErr result (self.new ≡ self.old) }
    {
        let segment = &self.segments[stream as usize - 1];
        let end = consumer(segment, &self.contexts, stream);
        let pending = segment.set_dequeue(end, pointer, cycle)?;
        keep(segment, &mut self.contexts, stream, pending);
        Ok(())
    }

    pub(crate) fn move_dequeue(
        &mut self,
        stream: u16,
        pointer: u64,
        cycle: bool,
    ) -> Result<(), NotAPlace>
        requires some { 0 < stream }
        requires last { stream ≤ STREAMS }
        ensures accepted { let ring = stream_ring self.old stream in IsOk result ↔ (IsEnqueuePlace STREAM_RING_PLACES ring pointer cycle
            ⊎ ((k : ℕ) × IsPending STREAM_RING_PLACES ring k pointer cycle)) }
        ensures enqueue { let ring = stream_ring self.old stream in IsEnqueuePlace STREAM_RING_PLACES ring pointer cycle
            → self.new ≡ slice_set self.old (stream - 1) (record ring { got = length ring.put }) }
        ensures set { (k : ℕ) → IsPending STREAM_RING_PLACES (stream_ring self.old stream) k pointer cycle
            → let ring = stream_ring self.old stream in self.new ≡ slice_set self.old (stream - 1) (record ring { got = k }) }
        ensures refused { OnErr result (self.new ≡ self.old) }
    {
        let segment = &self.segments[stream as usize - 1];
        let end = consumer(segment, &self.contexts, stream);
        let moved = segment.move_dequeue(end, pointer, cycle)?;
        keep(segment, &mut self.contexts, stream, moved);
        Ok(())
    }

    #[inline(always)]
    pub(crate) fn reclaim(&mut self, stream: u16, pointer: u64)
        requires some { 0 < stream }
        requires last { stream ≤ STREAMS }
        requires consumed { (k : ℕ) × IsConsumed STREAM_RING_PLACES (stream_ring self.old stream) k pointer }
        ensures { (k : ℕ) → IsConsumed STREAM_RING_PLACES (stream_ring self.old stream) k pointer
            → self.new ≡ slice_set self.old (stream - 1) (reclaimed STREAM_RING_PLACES (k + 1) (stream_ring self.old stream)) }
    {
        let segment = &mut self.segments[stream as usize - 1];
        segment.reclaim(pointer);
    }

    // The same at the address of a place.
    #[inline(always)]
    pub(crate) fn reclaim_in(&mut self, stream: u16, place: usize)
        requires some { 0 < stream }
        requires last { stream ≤ STREAMS }
        requires consumed { let ring = stream_ring self.old stream in (k : ℕ) × IsConsumed STREAM_RING_PLACES ring k (ring.base + 16 * place) }
        ensures { let ring = stream_ring self.old stream in (k : ℕ) → IsConsumed STREAM_RING_PLACES ring k (ring.base + 16 * place)
            → self.new ≡ slice_set self.old (stream - 1) (reclaimed STREAM_RING_PLACES (k + 1) ring) }
    {
        let segment = &mut self.segments[stream as usize - 1];
        segment.reclaim_in(place);
    }

    pub(crate) fn image(&self, stream: u16, place: usize) -> Option<[u8; 16]>
        requires some { 0 < stream }
        requires last { stream ≤ STREAMS }
        ensures item { let ring = stream_ring self.now stream in (k : ℕ) → k < STREAM_RING_PLACES - 1
            → place ≡ place_of STREAM_RING_PLACES ring k → result ≡ raw_image STREAM_RING_PLACES ring k }
        ensures link { let ring = stream_ring self.now stream in (k : ℕ) → k < STREAM_RING_PLACES - 1 → place_of STREAM_RING_PLACES ring k ≡ STREAM_RING_PLACES - 2
            → place ≡ STREAM_RING_PLACES - 1 → result ≡ raw_link_image STREAM_RING_PLACES ring k }
        ensures in_use { IsSome result → (k : ℕ) × IsInUse STREAM_RING_PLACES (stream_ring self.now stream) k place }
    {
        self.segment(stream).image(place)
    }
}
