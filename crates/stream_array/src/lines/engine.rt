// The calls on the controller's command ring and on the event ring.

ghost use Rattle.std.specs.Prelude.{◌≡◌, ◌≢◌, ℕ, ◌+◌, ◌-◌, ◌<◌, ◌≤◌, ◌++◌, [], ◌∷◌, ◌↔◌, Some, IfSome, All, length, map, slice_get, IsTrue};
ghost use Rattle.std.specs.Prelude.{IsOk, IsSome, IfOk, OnOk, OnErr, OnSome, IfNone};
ghost use Rattle.xhci_trb.specs.Text.{HasText};
ghost use Rattle.cycle_ring.specs.Ring.{IsTd, place_of, pointer_of, cycle_of, reclaimed};
ghost use Rattle.cycle_ring.specs.Items.{IsItemRing, known, known_front_of, raw_front_of, raw_image, raw_link_image, item_read};
ghost use Rattle.cycle_ring.specs.Ring.{IsConsumed, IsPending, IsInUse};
ghost use Rattle.cycle_ring.specs.Items.{known_consumed_at};
ghost use Rattle.event_ring.specs.Events.{IsWritable, taken, event_image, place_of as event_place_of, IsInUse as IsEventInUse, IsRing as IsEventRing};
ghost use Rattle.uas_profile.specs.declared.TheConstants.{ENGINE_RING, ENGINE_RING_PLACES, EVENT_RING_PLACES};
ghost use Rattle.stream_array.specs.Rings.{with_engine, with_events, IsLines};

use super::Lines;
use cycle_ring::{NotAPlace, RingFull, Td};
use event_ring::{Event, EventRingFull};
use xhci_trb::Trb;

impl Lines {
    /// The room of the controller's command ring.
    pub fn room_engine(&self) -> usize
        ensures room { result + length self.now.engine.put ≡ ENGINE_RING_PLACES - 2 }
        ensures standing { IsItemRing ENGINE_RING_PLACES self.now.engine }
        ensures base { self.now.engine.base ≡ ENGINE_RING }
        ensures lines { IsLines self.now }
    {
        self.engine.room()
    }

    /// Puts a command on the controller's command ring. Refused where its room is too small.
    pub fn push_td_engine(&mut self, trbs: &[Trb]) -> Result<Td, RingFull>
        requires td { IsTd trbs.now }
        requires texts { All HasText trbs.now }
        requires at_most { length trbs.now ≤ ENGINE_RING_PLACES - 2 }
        ensures room { IsOk result ↔ (length self.old.engine.put + length trbs.now ≤ ENGINE_RING_PLACES - 2) }
        ensures put { OnOk result (self.new ≡ with_engine self.old (record self.old.engine { put = self.old.engine.put ++ map known trbs.now })) }
        ensures td { IfOk result (λ td. td ≡ record {
          first = pointer_of ENGINE_RING_PLACES self.old.engine
              (length self.old.engine.put);
          last = pointer_of ENGINE_RING_PLACES self.old.engine (length self.old.engine.put + length trbs.now - 1);
        }) }
        ensures full { OnErr result (self.new ≡ self.old) }
    {
        self.engine.push_td(trbs)
    }

    /// Puts any 16 bytes on the controller's command ring. Refused where it has no room.
    pub fn put_raw_engine(&mut self, bytes: &[u8; 16]) -> Result<u64, RingFull>
        ensures room { IsOk result ↔ (length self.old.engine.put < ENGINE_RING_PLACES - 2) }
        ensures put { OnOk result (self.new ≡ with_engine self.old (record self.old.engine { put = self.old.engine.put ++ item_read bytes.now ∷ [] })) }
        ensures address { IfOk result (λ address. address ≡ pointer_of ENGINE_RING_PLACES self.old.engine (length self.old.engine.put)) }
        ensures full { OnErr result (self.new ≡ self.old) }
    {
        self.engine.put_raw(bytes)
    }

    /// The enqueue pointer and the producer's cycle state of the controller's command ring.
    pub fn place_engine(&self) -> (u64, bool)
        ensures place { result ≡ (
          pointer_of ENGINE_RING_PLACES self.now.engine
              (length self.now.engine.put),
          cycle_of ENGINE_RING_PLACES self.now.engine (length self.now.engine.put),
        ) }
        ensures unused { (k : ℕ) → k < length self.now.engine.put → pointer_of ENGINE_RING_PLACES self.now.engine k ≢ result.0 }
    {
        self.engine.place()
    }

    /// The first pending command and its address, if there is one.
    pub fn front_engine(&self) -> Option<(u64, Trb)>
        ensures front { result ≡ known_front_of ENGINE_RING_PLACES self.now.engine }
        ensures pending { IsSome result → self.now.engine.got < length self.now.engine.put }
    {
        self.engine.front()
    }

    /// The first 16 pending bytes of the controller's command ring, whatever they are, and their address, if there are some.
    pub fn front_raw_engine(&self) -> Option<(u64, [u8; 16])>
        ensures front { result ≡ raw_front_of ENGINE_RING_PLACES self.now.engine }
        ensures pending { IsSome result ↔ (self.now.engine.got < length self.now.engine.put) }
    {
        self.engine.front_raw()
    }

    /// Consumes the first pending command, or foreign bytes. Asks that there is one.
    pub fn advance_engine(&mut self)
        requires { self.old.engine.got < length self.old.engine.put }
        ensures { self.new ≡ with_engine self.old (record self.old.engine { got = self.old.engine.got + 1 }) }
    {
        self.engine.advance();
    }

    /// Moves the consumer's end of the controller's command ring to a pending place. Refused as the ring's
    /// call refuses.
    pub fn set_dequeue_engine(&mut self, pointer: u64, cycle: bool) -> Result<(), NotAPlace>
        ensures accepted { IsOk result ↔ ((k : ℕ) × IsPending ENGINE_RING_PLACES self.old.engine k pointer cycle) }
        ensures set { (k : ℕ) → IsPending ENGINE_RING_PLACES self.old.engine k pointer cycle
            → self.new ≡ with_engine self.old (record self.old.engine { got = k }) }
        ensures refused { OnErr result (self.new ≡ self.old) }
    {
        self.engine.set_dequeue(pointer, cycle)
    }

    /// The consumed command at an address, while it isn't reclaimed.
    pub fn consumed_engine(&self, pointer: u64) -> Option<Trb>
        ensures consumed { result ≡ known_consumed_at ENGINE_RING_PLACES self.now.engine pointer }
        ensures known { IfSome result (λ trb. (k : ℕ) × IsConsumed ENGINE_RING_PLACES self.now.engine k pointer
            × (slice_get self.now.engine.put k ≡ Some (known trb))) }
    {
        self.engine.consumed(pointer)
    }

    /// Frees the commands up to and with the one at this address. Asks a consumed one that isn't reclaimed.
    pub fn reclaim_engine(&mut self, pointer: u64)
        requires { (k : ℕ) × IsConsumed ENGINE_RING_PLACES self.old.engine k pointer }
        ensures { (k : ℕ) → IsConsumed ENGINE_RING_PLACES self.old.engine k pointer
            → self.new ≡ with_engine self.old (reclaimed ENGINE_RING_PLACES (k + 1) self.old.engine) }
    {
        self.engine.reclaim(pointer);
    }

    /// The bytes at a place of the controller's command ring.
    pub fn image_engine(&self, place: usize) -> Option<[u8; 16]>
        ensures item { (k : ℕ) → k < ENGINE_RING_PLACES - 1 → place ≡ place_of ENGINE_RING_PLACES self.now.engine k
            → result ≡ raw_image ENGINE_RING_PLACES self.now.engine k }
        ensures link { (k : ℕ) → k < ENGINE_RING_PLACES - 1 → place_of ENGINE_RING_PLACES self.now.engine k ≡ ENGINE_RING_PLACES - 2
            → place ≡ ENGINE_RING_PLACES - 1 → result ≡ raw_link_image ENGINE_RING_PLACES self.now.engine k }
        ensures in_use { IsSome result → (k : ℕ) × IsInUse ENGINE_RING_PLACES self.now.engine k place }
    {
        self.engine.image(place)
    }

    /// Posts an event. Asks that each field fits its bits. Refused where the event ring is full.
    #[inline(always)]
    pub fn post(&mut self, event: Event) -> Result<(), EventRingFull>
        requires { IsWritable event }
        ensures room { IsOk result ↔ (length self.old.events.pending < EVENT_RING_PLACES - 1) }
        ensures posted { OnOk result (self.new ≡ with_events self.old (record self.old.events { pending = self.old.events.pending ++ event ∷ [] })) }
        ensures full { OnErr result (self.new ≡ self.old) }
    {
        self.events.post(event)
    }

    /// Takes the first pending event, if there is one.
    #[inline(always)]
    pub fn take(&mut self) -> Option<Event>
        ensures first { result ≡ slice_get self.old.events.pending 0 }
        ensures taken { OnSome result (self.new ≡ with_events self.old (taken EVENT_RING_PLACES self.old.events)) }
        ensures empty { IfNone result ((self.new ≡ self.old) × (self.old.events.pending ≡ [])) }
    {
        self.events.take()
    }

    /// How many events are pending.
    #[inline(always)]
    pub fn len(&self) -> usize
        ensures len { result ≡ length self.now.events.pending }
        ensures standing { IsEventRing EVENT_RING_PLACES self.now.events }
        ensures lines { IsLines self.now }
    {
        self.events.len()
    }

    /// Whether no event is pending.
    pub fn is_empty(&self) -> bool
        ensures { IsTrue result ↔ (length self.now.events.pending ≡ 0) }
    {
        self.events.is_empty()
    }

    /// The bytes at a place of the event ring.
    pub fn image_event(&self, place: usize) -> Option<[u8; 16]>
        ensures event { (k : ℕ) → k < EVENT_RING_PLACES → place ≡ event_place_of EVENT_RING_PLACES self.now.events k
            → result ≡ event_image EVENT_RING_PLACES self.now.events k }
        ensures in_use { IsSome result → (k : ℕ) × IsEventInUse EVENT_RING_PLACES self.now.events k place }
    {
        self.events.image(place)
    }
}
