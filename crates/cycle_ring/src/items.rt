//! Where the items of a segment stand, and which item stands at a place.

ghost use Rattle.std.specs.Prelude.{◌≡◌, ℕ, ◌+◌, ◌-◌, ◌*◌, ◌%◌, ◌<◌, ◌↔◌, None, Some, length, slice_get, option_map, option_and_then};
ghost use Rattle.std.specs.Prelude.{IfNone, IfSome, IsTrue};

use crate::Segment;
use ring_ends::{End, ahead, cycle_bit, distance};
use xhci_trb::{Trb, decode};

impl<const N: usize> Segment<N> {
    ghost use Rattle.cycle_ring.specs.Ring.{place_of, pointer_of, item_at, item_in, consumed_at};
    ghost use Rattle.cycle_ring.specs.Items.{IsItemRing, known_of};
    ghost use Rattle.cycle_ring.specs.Segment.{IsConsumer, items_before, with_consumer};
    ghost use Rattle.ring_ends.specs.Counted.{IsEnd, turn_bit};

    // How many items are put and not reclaimed.
    #[inline(always)]
    pub(crate) fn count(&self) -> usize
        ensures count { result ≡ length self.now.put }
        ensures standing { IsItemRing N self.now }
    {
        let first = self.first;
        distance(N - 1, first, self.enqueue.place)
    }

    // How many of them a consumer's end has passed.
    #[inline(always)]
    pub(crate) fn passed(&self, end: End) -> usize
        requires { IsConsumer N self.now end }
        ensures { result ≡ items_before N self.now end }
    {
        let first = self.first;
        distance(N - 1, first, end.place)
    }

    // The place of an item, and the cycle state with which both ends come to it.
    #[inline(always)]
    pub(crate) fn end_at(&self, item: usize) -> End
        requires { item < N - 1 }
        ensures end { IsEnd (N - 1) (self.now.at + item) result }
        ensures within { result.place < N - 1 }
    {
        let place = ahead(N - 1, self.first, item);
        let start = End {
            place: self.first,
            cycle: self.first_cycle(),
        };
        End {
            place,
            cycle: start.bit_at(place),
        }
    }

    // The cycle state with which both ends come to the first place that isn't reclaimed.
    #[inline(always)]
    pub(crate) fn first_cycle(&self) -> bool
        ensures { result ≡ turn_bit (N - 1) self.now.at }
    {
        let brought = End {
            place: self.first,
            cycle: self.enqueue.cycle,
        };
        brought.bit_at(self.enqueue.place)
    }

    // Whether a place has the Cycle bit that an end brings there.
    #[inline(always)]
    pub(crate) fn is_in_use(&self, end: End) -> bool
        requires { end.place < N - 1 }
        ensures { (k : ℕ) → k < N - 1 → IsEnd (N - 1) (self.now.at + k) end → IsTrue result ↔ (k < length self.now.put) }
    {
        cycle_bit(&self.places[end.place]) == end.cycle
    }

    // The TRB of an item by its place, while it is there and is one.
    #[inline(always)]
    pub(crate) fn trb_at(&self, end: End) -> Option<Trb>
        requires { end.place < N - 1 }
        ensures { (k : ℕ) → k < N - 1 → IsEnd (N - 1) (self.now.at + k) end → result ≡ option_and_then known_of (slice_get self.now.put k) }
    {
        if !self.is_in_use(end) {
            return None;
        }
        match decode(&self.places[end.place]) {
            Ok((trb, _)) => Some(trb),
            Err(_) => None,
        }
    }

    // The item that stands, or would stand, at this place.
    #[inline(always)]
    pub(crate) fn item_at(&self, place: usize) -> usize
        requires { place < N - 1 }
        ensures item { result ≡ item_in (N - 1) (self.now.at % (N - 1)) place }
        ensures bound { result < N - 1 }
        ensures place { place_of N self.now result ≡ place }
        ensures only { (k : ℕ) → k < N - 1 → place_of N self.now k ≡ place → k ≡ result }
    {
        distance(N - 1, self.first, place)
    }

    // The place of the consumed item at this address. It is in use, so that its Cycle bit needs no look.
    #[inline(always)]
    pub(crate) fn consumed_place(&self, end: End, pointer: u64) -> Option<usize>
        requires { IsConsumer N self.now end }
        ensures found { IfSome result (λ place. (k : ℕ) × (k < items_before N self.now end) × (item_at N self.now pointer ≡ Some k) × (place_of N self.now k ≡ place)) }
        ensures within { IfSome result (λ place. place < N - 1) }
        ensures none { IfNone result (consumed_at N (with_consumer N self.now end) pointer ≡ None) }
    {
        let place = self.place_at(pointer)?;
        if self.passed(end) <= self.item_at(place) {
            return None;
        }
        Some(place)
    }

    // The place, where its item is consumed.
    #[inline(always)]
    pub(crate) fn passed_place(&self, end: End, place: usize) -> Option<usize>
        requires { IsConsumer N self.now end }
        ensures found { IfSome result (λ passed. (k : ℕ) × (k < items_before N self.now end)
            × (item_at N self.now (self.now.base + 16 * place) ≡ Some k) × (place_of N self.now k ≡ passed)) }
        ensures within { IfSome result (λ passed. passed < N - 1) }
        ensures none { IfNone result (consumed_at N (with_consumer N self.now end) (self.now.base + 16 * place) ≡ None) }
    {
        if N - 1 <= place {
            return None;
        }
        if self.passed(end) <= self.item_at(place) {
            return None;
        }
        Some(place)
    }

    // The item that stands, or would stand, at this address.
    #[inline(always)]
    pub(crate) fn item_of(&self, pointer: u64) -> Option<usize>
        ensures item { result ≡ item_at N self.now pointer }
        ensures found { IfSome result (λ k. (k < N - 1) × (pointer ≡ pointer_of N self.now k)) }
        ensures every { (k : ℕ) → k < N - 1 → pointer ≡ pointer_of N self.now k → result ≡ Some k }
    {
        match self.place_at(pointer) {
            Some(place) => Some(self.item_at(place)),
            None => None,
        }
    }

    // The place at this address, unless it is the Link's.
    #[inline(always)]
    pub(crate) fn place_at(&self, pointer: u64) -> Option<usize>
        ensures place { option_map (item_in (N - 1) (self.now.at % (N - 1))) result ≡ item_at N self.now pointer }
        ensures within { IfSome result (λ place. place < N - 1) }
        ensures address { IfSome result (λ place. pointer ≡ self.now.base + 16 * place) }
        ensures standing { IsItemRing N self.now }
    {
        if pointer < self.base {
            return None;
        }
        let offset = pointer - self.base;
        if offset % 16 != 0 {
            return None;
        }
        let place = offset / 16;
        if place >= (N - 1) as u64 {
            return None;
        }
        Some(place as usize)
    }

    #[inline(always)]
    pub(crate) fn pointer(&self, place: usize) -> u64
        requires { place < N }
        ensures { result ≡ self.now.base + 16 * place }
    {
        self.base + 16 * place as u64
    }
}
