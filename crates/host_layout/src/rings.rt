//! The TRBs of the rings, by ring, segment and place, and back from an address.
ghost use Rattle.std.specs.Prelude.{◌≡◌, ◌<◌, ◌+◌, ◌*◌, ◌^◌, ◌≤◌, IfSome};
ghost use Rattle.host_layout.specs.Places.{area_bytes, place_of};
ghost use Rattle.host_layout.specs.Rings.{area_of, guess_of, guess_status, next_of, place_at, places_of, segments_of, td_of, trb_of};

use crate::{Fixed, Layout, TagArea};

/// A ring that a driver writes. A segment of it is so many places, of which the last is the Link.
#[derive(Clone, Copy, Debug, PartialEq, Eq)]
pub enum Ring {
    /// One segment of 16 places.
    Command,
    /// One segment of 256 places.
    CommandPipe,
    /// Endpoint 0's: three segments, its thirds, of 4 places.
    Control,
    /// A tag's status stream: three segments of 2 places.
    Status(u8),
    /// A tag's data-in stream: three segments of the shape's pieces and one.
    DataIn(u8),
    /// A tag's data-out stream, likewise.
    DataOut(u8),
}

/// A place in a ring for a TRB, segments and places counted from 0.
#[derive(Clone, Copy, Debug, PartialEq, Eq)]
pub struct RingPlace {
    pub ring: Ring,
    pub segment: u8,
    pub place: u8,
}

impl Ring {
    /// Its segments.
    pub fn segments(self) -> u8
        ensures { result ≡ segments_of self }
    {
        match self {
            Ring::Command | Ring::CommandPipe => 1,
            _ => 3,
        }
    }
}

impl RingPlace {
    /// Where a TD of a ring in thirds begins, TDs counted from 0: TD k stands alone in third k mod 3.
    pub fn of_td(ring: Ring, td: u64) -> RingPlace
        ensures { result ≡ td_of ring td }
    {
        RingPlace {
            ring,
            segment: (td % 3) as u8,
            place: 0,
        }
    }

    /// Where the next TD begins: the next third, where the Link of this one leads.
    pub fn next_td(self) -> RingPlace
        ensures { result ≡ next_of self }
    {
        let segment = match self.segment % 3 {
            0 => 1,
            1 => 2,
            _ => 0,
        };
        RingPlace {
            segment,
            place: 0,
            ..self
        }
    }
}

impl Layout {
    /// The places of each segment of a ring, its Link included.
    pub fn places(&self, ring: Ring) -> u16
        ensures is { result ≡ places_of self.now.shape ring }
        ensures room { result ≤ 256 }
    {
        match ring {
            Ring::Command => 16,
            Ring::CommandPipe => 256,
            Ring::Control => 4,
            Ring::Status(_) => 2,
            Ring::DataIn(_) | Ring::DataOut(_) => u16::from(self.shape.pieces.number()) + 1,
        }
    }

    /// Where a ring begins. None for the ring of a tag that isn't there.
    pub fn ring(&self, ring: Ring) -> Option<u64>
        ensures is { result ≡ place_of self.now (area_of ring) }
        ensures room { IfSome result (λ at. at + area_bytes self.now.shape (area_of ring) < 2 ^ 64) }
    {
        match ring {
            Ring::Command => Some(self.fixed(Fixed::CommandRing)),
            Ring::CommandPipe => Some(self.fixed(Fixed::CommandPipe)),
            Ring::Control => Some(self.fixed(Fixed::ControlRing)),
            Ring::Status(tag) => self.of_tag(tag, TagArea::StatusRing),
            Ring::DataIn(tag) => self.of_tag(tag, TagArea::DataInRing),
            Ring::DataOut(tag) => self.of_tag(tag, TagArea::DataOutRing),
        }
    }

    /// The address of a TRB. None where the layout hasn't that ring, or the ring hasn't that segment or place.
    pub fn trb(&self, at: RingPlace) -> Option<u64>
        ensures { result ≡ trb_of self.now at }
    {
        let places = self.places(at.ring);
        if at.segment >= at.ring.segments() || u16::from(at.place) >= places {
            return None;
        }
        let before = match at.segment {
            0 => 0,
            1 => places,
            _ => 2 * places,
        };
        let start = self.ring(at.ring)?;
        Some(start + 16 * u64::from(before + u16::from(at.place)))
    }

    /// Where the TRB at an address stands, as the pointer of an event names it. None for an address at which no TRB of a ring
    /// begins.
    pub fn found(&self, pointer: u64) -> Option<RingPlace>
        ensures there { IfSome result (λ at. trb_of self.now at ≡ Some pointer) }
        ensures every { (at : RingPlace) → trb_of self.now at ≡ Some pointer → result ≡ Some at }
    {
        let at = self.guess(pointer.saturating_sub(self.base));
        match self.trb(at) {
            Some(address) if address == pointer => Some(at),
            _ => None,
        }
    }

    // The one place whose TRB may begin at an offset.
    fn guess(&self, offset: u64) -> RingPlace
        ensures { result ≡ guess_of self.now.shape offset }
    {
        let rings = u64::from(self.shape.rings_offset());
        if offset >= rings {
            self.guess_data(offset - rings)
        } else if offset >= 0x1_0000 {
            guess_status(offset - 0x1_0000)
        } else if offset >= 0x3000 {
            guess_place(Ring::CommandPipe, 256, offset - 0x3000)
        } else if offset >= 0x980 {
            guess_place(Ring::Control, 4, offset - 0x980)
        } else {
            guess_place(Ring::Command, 16, offset.saturating_sub(0x840))
        }
    }
}

impl Layout {
    ghost use Rattle.host_layout.specs.Rings.{guess_data};

    // The TRB of a data ring, from the first data ring on.
    #[tactic(auto, unfolding(crate::specs::Rings::guess_data))]
    fn guess_data(&self, offset: u64) -> RingPlace
        ensures { result ≡ guess_data self.now.shape offset }
    {
        let bytes = u64::from(self.shape.pieces.ring_bytes());
        let number = offset / bytes;
        let tag = ((number / 2 + 1) % 256) as u8;
        let ring = if number % 2 == 0 {
            Ring::DataIn(tag)
        } else {
            Ring::DataOut(tag)
        };
        guess_place(ring, u64::from(self.places(ring)), offset % bytes)
    }
}

// The TRB of a status ring, from the areas of tag 1 on.
#[tactic(auto, unfolding(crate::specs::Rings::guess_status))]
fn guess_status(offset: u64) -> RingPlace
    ensures { result ≡ guess_status offset }
{
    let tag = ((offset / 512 + 1) % 256) as u8;
    guess_place(Ring::Status(tag), 2, (offset % 512).saturating_sub(0x40))
}

// The TRB at so many bytes of a ring.
fn guess_place(ring: Ring, places: u64, bytes: u64) -> RingPlace
    requires some { 0 < places }
    requires few { places ≤ 256 }
    ensures { result ≡ place_at ring places bytes }
{
    let number = bytes / 16;
    RingPlace {
        ring,
        segment: (number / places % 256) as u8,
        place: (number % places) as u8,
    }
}
