//! The producer of an event ring's one segment (xHCI 1.2, 4.9.4).
ghost use Rattle.std.specs.Prelude.{◌≡◌, ◌+◌, ◌-◌, ◌*◌, ◌^◌, ◌<◌, ◌≤◌, ℕ, IfSome, true, false};
ghost use Rattle.guest_memory.specs.Bytes.{is_there, written};
ghost use Rattle.guest_memory.specs.rings.Events.{EventEnd, advanced, enqueue_pointer, enqueued, event_bytes, free_by, has_room, place_at};

mod saved;

use crate::GuestMemory;
use crate::rings::event::{Event, event_bytes};
pub use saved::EventRingParts;
use std::marker::Model;

/// An event ring's segment, where its producer stands, how many places are free, and whether an event since the last
/// [`EventRing::take_asks`] asked for an interrupt.
#[derive(Debug, Drop)]
pub struct EventRing {
    base: u64,
    places: u16,
    place: u16,
    cycle: bool,
    free: u16,
    asks: bool,
}

impl Model for EventRing {
    ghost use Rattle.guest_memory.specs.rings.Events.{EventEnd};

    ghost Value = { EventEnd };

    ghost use Rattle.std.specs.Prelude.{◌+◌, ◌*◌, ◌^◌, ◌<◌, ◌≤◌};

    ghost view = { λ ring. record { base = ring.base; places = ring.places; place = ring.place; cycle = ring.cycle; free = ring.free; asks = ring.asks } };

    ghost invariant = { λ ring. (ring.place < ring.places) × (ring.places ≤ 4096) × (ring.base + 16 * ring.places ≤ 2 ^ 64) };
}

impl EventRing {
    /// The producer at the front of a segment of so many places, at most 4,096, all but one of which are free.
    pub fn new(base: u64, places: u16) -> EventRing
        requires some { 1 ≤ places }
        requires most { places ≤ 4096 }
        requires ends { base + 16 * places ≤ 2 ^ 64 }
        ensures { result ≡ record { base = base; places = places; place = 0; cycle = true; free = places - 1; asks = false } }
    {
        EventRing {
            base,
            places,
            place: 0,
            cycle: true,
            free: places - 1,
            asks: false,
        }
    }

    /// The ring as it is, to look ahead with: of two producers of one segment each would write over the other's events.
    pub fn snapshot(&self) -> EventRing
        ensures { result ≡ self.now }
    {
        EventRing {
            base: self.base,
            places: self.places,
            place: self.place,
            cycle: self.cycle,
            free: self.free,
            asks: self.asks,
        }
    }

    /// Where the next event goes.
    pub fn enqueue_pointer(&self) -> u64
        ensures { result ≡ enqueue_pointer self.now }
    {
        self.base + 16 * u64::from(self.place)
    }

    /// How many places are free.
    pub fn free(&self) -> u16
        ensures { result ≡ self.now.free }
    {
        self.free
    }

    /// Whether there are two free places.
    pub fn has_room(&self) -> bool
        ensures { result ≡ has_room self.now }
    {
        self.free >= 2
    }

    /// The place of the segment that an address is of; None where it is of none.
    #[tactic(auto, unfolding(crate::specs::rings::Events::place_at))]
    pub fn place_at(&self, address: u64) -> Option<u16>
        ensures place { result ≡ place_at self.now address }
        ensures within { IfSome result (λ place. place < self.now.places) }
    {
        if address < self.base {
            return None;
        }
        let place = (address - self.base) / 16;
        if place < u64::from(self.places) {
            Some(place as u16)
        } else {
            None
        }
    }

    /// The consumer's dequeue place is this now.
    #[tactic(auto, unfolding(crate::specs::rings::Events::free_by))]
    pub fn dequeue(&mut self, place: u16)
        requires { place < self.old.places }
        ensures { self.new ≡ record self.old { free = free_by self.old place } }
    {
        self.free = (place + self.places - self.place - 1) % self.places;
    }

    /// Whether an event asked for an interrupt since this was called last.
    pub fn take_asks(&mut self) -> bool
        ensures asked { result ≡ self.old.asks }
        ensures ring { self.new ≡ record self.old { asks = false } }
    {
        let asked = self.asks;
        self.asks = false;
        asked
    }

    fn advance(&mut self)
        ensures { self.new ≡ advanced self.old }
    {
        if self.place + 1 == self.places {
            self.place = 0;
            self.cycle = !self.cycle;
        } else {
            self.place += 1;
        }
    }

    /// Posts an event, which asks for no interrupt where it is `quiet` (BEI). A range that was there still is.
    #[tactic(auto, using(crate::specs::Ranges::there_written), unfolding(crate::specs::rings::Events::enqueued))]
    pub fn post<M: GuestMemory>(&mut self, memory: &mut M, event: &Event, quiet: bool)
        requires room { is_there (M.contents memory.old) (enqueue_pointer self.old) 16 ≡ true }
        ensures event { M.contents memory.new ≡ written (M.contents memory.old) (enqueue_pointer self.old) (event_bytes event.now self.old.cycle) }
        ensures ring { self.new ≡ enqueued self.old quiet }
        ensures same_loan { M.loan memory.new ≡ M.loan memory.old }
        ensures there { (at n : ℕ) → is_there (M.contents memory.old) at n ≡ true → is_there (M.contents memory.new) at n ≡ true }
    {
        let bytes = event_bytes(event, self.cycle);
        let _ = memory.write(self.enqueue_pointer(), &bytes);
        self.advance();
        self.free = self.free.saturating_sub(1);
        self.asks = self.asks || !quiet;
    }
}
