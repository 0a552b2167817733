//! The bytes of a ring with its producer's end, and without its consumer's: each call that takes an item is handed the
//! consumer's end and gives back where it stands then.

ghost use Rattle.std.specs.Prelude.{◌≡◌, ◌≢◌, ℕ, ◌+◌, ◌-◌, ◌*◌, ◌%◌, ◌^◌, ◌<◌, ◌≤◌, ◌++◌, [], ◌∷◌, ◌↔◌, Some, None, All, length, map};
ghost use Rattle.std.specs.Prelude.{slice_get, ◌⊎◌, IsOk, IsSome, IfSome, IfOk, OnOk, OnErr, true};
ghost use Rattle.xhci_trb.specs.declared.Trb.{Trb};
ghost use Rattle.xhci_trb.specs.Text.{HasText};
ghost use Rattle.ring_ends.specs.declared.End.{End};

use crate::places::{behind_link, put_back, put_raw_back};
use crate::{NoMemory, NotAPlace, RingFull, Td};
use ring_ends::{End, ahead, chain_bit, zeros};
use std::alloc::Global;
use std::marker::Model;
use xhci_trb::{Trb, decode};

/// A ring of `N` places, 4 to 256, without its consumer's end: the bytes of the places, of which the last is the
/// Link's, the first place that isn't reclaimed, and the producer's end. As a value it is a ring of which nothing is
/// consumed.
#[derive(Debug, Drop)]
pub struct Segment<const N: usize> {
    pub(crate) base: u64,
    pub(crate) places: Vec<[u8; 16]>,
    pub(crate) first: usize,
    pub(crate) enqueue: End,
}

impl<const N: usize> Model for Segment<N> {
    ghost use Rattle.cycle_ring.specs.Items.{ItemRing};
    ghost use Rattle.cycle_ring.specs.Segment.{shown, IsSegment};

    ghost Value = { ItemRing };

    ghost view = { λ s. shown N s.base s.places.items s.first s.enqueue };

    ghost invariant = { λ s. IsSegment N s.places.items s.first s.enqueue (shown N s.base s.places.items s.first s.enqueue) };
}

impl<const N: usize> Segment<N> {
    ghost use Rattle.cycle_ring.specs.Ring.{opening, place_of, cycle_of, pointer_of, reclaimed, IsConsumed};
    ghost use Rattle.cycle_ring.specs.Ring.{IsPending, IsShifted, IsInUse, IsTd, IsEnqueuePlace};
    ghost use Rattle.cycle_ring.specs.Items.{IsItemRing, item_read, known, known_front_of, raw_front_of, known_consumed_at};
    ghost use Rattle.cycle_ring.specs.Items.{chain_consumed_at, known_oldest_of, raw_image, raw_link_image};
    ghost use Rattle.cycle_ring.specs.Segment.{IsConsumer, IsItem, items_before, with_consumer};

    /// An empty segment at this address, a multiple of 16 below `2^63` (4.9.2); its consumer's end is [`End::first`].
    /// Refused for want of memory alone.
    pub fn new(alloc: Global, base: u64) -> Result<Self, NoMemory>
        requires least_places { 4 ≤ N }
        requires most_places { N ≤ 256 }
        requires aligned { base % 16 ≡ 0 }
        requires below { base < 2 ^ 63 }
        ensures opening { IfOk result (λ segment. segment ≡ opening base) }
        ensures consumer { IfOk result (λ segment. IsConsumer N segment (record { place = 0; cycle = true })) }
    {
        let places = zeros(alloc, N)?;
        Ok(Segment {
            base,
            places,
            first: 0,
            enqueue: End::first(),
        })
    }

    /// Where the segment begins.
    #[inline(always)]
    pub fn base(&self) -> u64
        ensures base { result ≡ self.now.base }
        ensures standing { IsItemRing N self.now }
    {
        self.base
    }

    /// The address of a consumer's end.
    #[inline(always)]
    pub fn address(&self, end: End) -> u64
        requires { IsConsumer N self.now end }
        ensures address { result ≡ self.now.base + 16 * end.place }
        ensures aligned { result % 16 ≡ 0 }
    {
        self.pointer(end.place)
    }

    /// How many items can still be put: N - 2 less those put and not reclaimed.
    #[inline(always)]
    pub fn room(&self) -> usize
        ensures room { result + length self.now.put ≡ N - 2 }
        ensures standing { IsItemRing N self.now }
    {
        let count = self.count();
        N - 2 - count
    }

    /// Puts a TD, as [`crate::CycleRing::push_td`] does.
    #[inline(always)]
    pub fn push_td(&mut self, trbs: &[Trb]) -> Result<Td, RingFull>
        requires td { IsTd trbs.now }
        requires texts { All HasText trbs.now }
        requires at_most { length trbs.now ≤ N - 2 }
        ensures room { IsOk result ↔ (length self.old.put + length trbs.now ≤ N - 2) }
        ensures put { OnOk result (self.new ≡ record self.old { put = self.old.put ++ map known trbs.now }) }
        ensures td { IfOk result (λ td. td ≡ record {
          first = pointer_of N self.old (length self.old.put);
          last = pointer_of N self.old
              (length self.old.put + length trbs.now - 1);
        }) }
        ensures full { OnErr result (self.new ≡ self.old) }
        ensures consumer { (end : End) → IsConsumer N self.old end → IsConsumer N self.new end }
    {
        if self.room() < trbs.len() {
            return Err(RingFull);
        }
        let start = self.enqueue;
        let last = ahead(N - 1, start.place, trbs.len() - 1);
        let td = Td {
            first: self.pointer(start.place),
            last: self.pointer(last),
        };
        self.enqueue = put_back::<N>(&mut self.places, self.base, start, trbs);
        Ok(td)
    }

    /// Puts any 16 bytes, as [`crate::CycleRing::put_raw`] does.
    #[inline(always)]
    pub fn put_raw(&mut self, bytes: &[u8; 16]) -> Result<u64, RingFull>
        ensures room { IsOk result ↔ (length self.old.put < N - 2) }
        ensures put { OnOk result (self.new ≡ record self.old { put = self.old.put ++ item_read bytes.now ∷ [] }) }
        ensures address { IfOk result (λ address. address ≡ pointer_of N self.old (length self.old.put)) }
        ensures full { OnErr result (self.new ≡ self.old) }
        ensures consumer { (end : End) → IsConsumer N self.old end → IsConsumer N self.new end }
    {
        if self.room() == 0 {
            return Err(RingFull);
        }
        let start = self.enqueue;
        let address = self.pointer(start.place);
        self.enqueue = put_raw_back::<N>(&mut self.places, self.base, start, bytes);
        Ok(address)
    }

    /// The enqueue pointer and the producer's cycle state. The pointer is never the Link's.
    pub fn place(&self) -> (u64, bool)
        ensures place { result ≡ (pointer_of N self.now (length self.now.put), cycle_of N self.now (length self.now.put)) }
        ensures unused { (k : ℕ) → k < length self.now.put → pointer_of N self.now k ≢ result.0 }
    {
        (self.pointer(self.enqueue.place), self.enqueue.cycle)
    }

    /// The TRB that is pending at a consumer's end, and its address, if there is one. At bytes that are no TRB's text nothing.
    #[inline(always)]
    pub fn front(&self, end: End) -> Option<(u64, Trb)>
        requires { IsConsumer N self.now end }
        ensures front { result ≡ known_front_of N (with_consumer N self.now end) }
        ensures pending { IsSome result → items_before N self.now end < length self.now.put }
    {
        let trb = self.trb_at(end)?;
        Some((self.pointer(end.place), trb))
    }

    /// The 16 bytes that are pending at a consumer's end, whatever they are, and their address, if there are some.
    #[inline(always)]
    pub fn front_raw(&self, end: End) -> Option<(u64, [u8; 16])>
        requires { IsConsumer N self.now end }
        ensures front { result ≡ raw_front_of N (with_consumer N self.now end) }
        ensures pending { IsSome result ↔ (items_before N self.now end < length self.now.put) }
    {
        if !self.is_in_use(end) {
            return None;
        }
        Some((self.pointer(end.place), self.places[end.place]))
    }

    /// A consumer's end behind the item that is pending there, and behind the Link. Asks that one is.
    #[inline(always)]
    pub fn advance(&self, end: End) -> End
        requires consumer { IsConsumer N self.now end }
        requires pending { items_before N self.now end < length self.now.put }
        ensures consumer { IsConsumer N self.now result }
        ensures advanced { with_consumer N self.now result ≡ record self.now { got = items_before N self.now end + 1 } }
    {
        let next = end.place + 1;
        let turn = N - 1;
        if next < turn {
            return End {
                place: next,
                cycle: end.cycle,
            };
        }
        behind_link(&self.places[next], self.base, end)
    }

    /// The TRB at an address that a consumer's end has passed, while it isn't reclaimed.
    #[inline(always)]
    pub fn consumed(&self, end: End, pointer: u64) -> Option<Trb>
        requires { IsConsumer N self.now end }
        ensures consumed { result ≡ known_consumed_at N (with_consumer N self.now end) pointer }
        ensures known { IfSome result (λ trb. (k : ℕ) × IsConsumed N (with_consumer N self.now end) k pointer × (slice_get self.now.put k ≡ Some (known trb))) }
    {
        let place = self.consumed_place(end, pointer)?;
        match decode(&self.places[place]) {
            Ok((trb, _)) => Some(trb),
            Err(_) => None,
        }
    }

    /// The TRB at a place that a consumer's end has passed, while it isn't reclaimed, as [`Segment::consumed`] gives it by the place's
    /// address. The Link's place has no item, nor has one past it.
    #[inline(always)]
    pub fn consumed_in(&self, end: End, place: usize) -> Option<Trb>
        requires { IsConsumer N self.now end }
        ensures consumed { result ≡ known_consumed_at N (with_consumer N self.now end) (self.now.base + 16 * place) }
        ensures known { IfSome result (λ trb. (k : ℕ) × IsConsumed N (with_consumer N self.now end) k (self.now.base + 16 * place)
            × (slice_get self.now.put k ≡ Some (known trb))) }
    {
        let passed = self.passed_place(end, place)?;
        match decode(&self.places[passed]) {
            Ok((trb, _)) => Some(trb),
            Err(_) => None,
        }
    }

    /// Whether the consumed item at an address has its Chain bit set: bit 4 of its control word, whatever it is.
    #[inline(always)]
    pub fn consumed_chain(&self, end: End, pointer: u64) -> Option<bool>
        requires { IsConsumer N self.now end }
        ensures { result ≡ chain_consumed_at N (with_consumer N self.now end) pointer }
    {
        let place = self.consumed_place(end, pointer)?;
        Some(chain_bit(&self.places[place]))
    }

    /// The first item that isn't reclaimed and its address, once a consumer's end has passed it, where it is a TRB.
    #[inline(always)]
    pub fn oldest(&self, end: End) -> Option<(u64, Trb)>
        requires { IsConsumer N self.now end }
        ensures oldest { result ≡ known_oldest_of N (with_consumer N self.now end) }
        ensures known { IfSome result (λ at. IsConsumed N (with_consumer N self.now end) 0 at.0) }
    {
        if self.passed(end) == 0 {
            return None;
        }
        let trb = self.trb_at(self.end_at(0))?;
        Some((self.pointer(self.first), trb))
    }

    /// The consumer's end behind all items (4.6.10): the producer's.
    pub fn drop_pending(&self) -> End
        ensures consumer { IsConsumer N self.now result }
        ensures dropped { with_consumer N self.now result ≡ record self.now { got = length self.now.put } }
    {
        self.enqueue
    }

    /// The consumer's end at a pending place (4.6.10). Refused as [`crate::CycleRing::set_dequeue`] refuses.
    pub fn set_dequeue(&self, end: End, pointer: u64, cycle: bool) -> Result<End, NotAPlace>
        requires { IsConsumer N self.now end }
        ensures accepted { IsOk result ↔ ((k : ℕ) × IsPending N (with_consumer N self.now end) k pointer cycle) }
        ensures set { (k : ℕ) → IsPending N (with_consumer N self.now end) k pointer cycle
            → IfOk result (λ next. with_consumer N self.now next ≡ record self.now { got = k }) }
        ensures consumer { IfOk result (IsConsumer N self.now) }
    {
        let Some(item) = self.item_of(pointer) else {
            return Err(NotAPlace);
        };
        let next = self.end_at(item);
        if item < self.passed(end) || !self.is_in_use(next) || next.cycle != cycle {
            return Err(NotAPlace);
        }
        Ok(next)
    }

    /// The consumer's end at a pending place, or behind all items where the place is the enqueue place (4.6.10).
    /// Refused as [`crate::CycleRing::move_dequeue`] refuses.
    pub fn move_dequeue(&self, end: End, pointer: u64, cycle: bool) -> Result<End, NotAPlace>
        requires { IsConsumer N self.now end }
        ensures accepted { IsOk result ↔ (IsEnqueuePlace N self.now pointer cycle ⊎ ((k : ℕ) × IsPending N (with_consumer N self.now end) k pointer cycle)) }
        ensures enqueue { IsEnqueuePlace N self.now pointer cycle
            → IfOk result (λ next. with_consumer N self.now next ≡ record self.now { got = length self.now.put }) }
        ensures set { (k : ℕ) → IsPending N (with_consumer N self.now end) k pointer cycle
            → IfOk result (λ next. with_consumer N self.now next ≡ record self.now { got = k }) }
        ensures consumer { IfOk result (IsConsumer N self.now) }
    {
        if self.place() == (pointer, cycle) {
            return Ok(self.drop_pending());
        }
        self.set_dequeue(end, pointer, cycle)
    }

    /// Frees the items up to and with the one at this address. Asks an item that is put; a consumer's end that has passed
    /// it stays one.
    #[inline(always)]
    pub fn reclaim(&mut self, pointer: u64)
        requires { (k : ℕ) × IsItem N self.old k pointer }
        ensures freed { (k : ℕ) → IsItem N self.old k pointer → self.new ≡ reclaimed N (k + 1) self.old }
        ensures shifted { (k : ℕ) → IsItem N self.old k pointer → (i : ℕ) → IsShifted N (k + 1) self.old self.new i }
        ensures consumer { (k : ℕ) (end : End) → IsConsumer N self.old end → IsConsumed N (with_consumer N self.old end) k pointer
            → IsConsumer N self.new end × (with_consumer N self.new end ≡ reclaimed N (k + 1) (with_consumer N self.old end)) }
    {
        let place = self.place_at(pointer).unwrap();
        self.reclaim_in(place);
    }

    /// Frees the items up to and with the one at this place, as [`Segment::reclaim`] does by the place's address.
    #[inline(always)]
    pub fn reclaim_in(&mut self, place: usize)
        requires { (k : ℕ) × IsItem N self.old k (self.old.base + 16 * place) }
        ensures freed { (k : ℕ) → IsItem N self.old k (self.old.base + 16 * place) → self.new ≡ reclaimed N (k + 1) self.old }
        ensures shifted { (k : ℕ) → IsItem N self.old k (self.old.base + 16 * place) → (i : ℕ) → IsShifted N (k + 1) self.old self.new i }
        ensures consumer { (k : ℕ) (end : End) → IsConsumer N self.old end → IsConsumed N (with_consumer N self.old end) k (self.old.base + 16 * place)
            → IsConsumer N self.new end × (with_consumer N self.new end ≡ reclaimed N (k + 1) (with_consumer N self.old end)) }
    {
        // Read for what holds of every segment.
        let _first = self.first;
        self.first = ahead(N - 1, place, 1);
    }

    /// The 16 bytes at a place whose item isn't reclaimed, and at the Link's while the item before it
    /// isn't (6.4.4.1). Elsewhere nothing.
    pub fn image(&self, place: usize) -> Option<[u8; 16]>
        ensures item { (k : ℕ) → k < N - 1 → place ≡ place_of N self.now k → result ≡ raw_image N self.now k }
        ensures link { (k : ℕ) → k < N - 1 → place_of N self.now k ≡ N - 2 → place ≡ N - 1 → result ≡ raw_link_image N self.now k }
        ensures in_use { IsSome result → (k : ℕ) × IsInUse N self.now k place }
    {
        if place < N - 1 && self.is_in_use(self.end_at(self.item_at(place))) {
            return Some(self.places[place]);
        }
        if place == N - 1 && self.is_in_use(self.end_at(self.item_at(N - 2))) {
            return Some(self.places[place]);
        }
        None
    }
}
