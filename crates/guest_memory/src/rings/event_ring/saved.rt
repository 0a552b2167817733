//! The producer as plain values, and one made of such.
ghost use Rattle.std.specs.Prelude.{◌≡◌, ◌+◌, ◌*◌, ◌^◌, ◌<◌, ◌≤◌, true};
ghost use Rattle.guest_memory.specs.rings.Saved.{has_segment, ring_restored};

use crate::rings::event_ring::EventRing;

/// What a producer is, as plain values.
#[derive(Clone, Copy, Debug, PartialEq, Eq)]
pub struct EventRingParts {
    pub base: u64,
    pub places: u16,
    pub place: u16,
    pub cycle: bool,
    pub free: u16,
    pub asks: bool,
}

impl EventRing {
    /// Its values.
    pub fn parts(&self) -> EventRingParts
        ensures parts { result ≡ record {
          base = self.now.base;
          places = self.now.places;
          place = self.now.place;
          cycle = self.now.cycle;
          free = self.now.free;
          asks = self.now.asks;
        } }
        ensures sound { has_segment self.now ≡ true }
    {
        EventRingParts {
            base: self.base,
            places: self.places,
            place: self.place,
            cycle: self.cycle,
            free: self.free,
            asks: self.asks,
        }
    }

    /// A producer of these values; None where they are none of a producer: a place behind the segment's, or a segment of more than 4,096 places or
    /// behind the end of memory.
    pub fn restored(parts: EventRingParts) -> Option<EventRing>
        ensures { result ≡ ring_restored (record {
          base = parts.base;
          places = parts.places;
          place = parts.place;
          cycle = parts.cycle;
          free = parts.free;
          asks = parts.asks;
        }) }
    {
        if parts.place < parts.places
            && parts.places <= 4096
            && 16 * u64::from(parts.places) - 1 <= u64::MAX - parts.base
        {
            Some(EventRing {
                base: parts.base,
                places: parts.places,
                place: parts.place,
                cycle: parts.cycle,
                free: parts.free,
                asks: parts.asks,
            })
        } else {
            None
        }
    }
}
