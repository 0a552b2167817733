// The address map: where a byte stands, and which byte an address belongs to.
ghost use Rattle.std.specs.Prelude.{◌≡◌, ◌<◌, ◌≤◌, ◌↔◌, Some};

use crate::{Buffer, Place, Tag};
use uas_profile::{
    BUFFER_SPAN, COMMAND_BUFFERS, COMMAND_BYTES, STATUS_BUFFERS, STATUS_BYTES, STREAMS,
    WINDOW_BYTES, WINDOW_SPAN, WINDOWS,
};

impl Buffer {
    ghost use Rattle.frame_store.specs.Places.{base_of, stride_of, room_of, buffer_at};

    #[inline(always)]
    fn base(self) -> u64
        ensures { result ≡ base_of self }
    {
        match self {
            Buffer::Command => COMMAND_BUFFERS,
            Buffer::Status => STATUS_BUFFERS,
            Buffer::Window => WINDOWS,
        }
    }

    #[inline(always)]
    fn stride(self) -> u64
        ensures value { result ≡ stride_of self }
        ensures positive { 0 < result }
    {
        match self {
            Buffer::Command | Buffer::Status => BUFFER_SPAN,
            Buffer::Window => WINDOW_SPAN,
        }
    }

    #[inline(always)]
    fn room(self) -> usize
        ensures { result ≡ room_of self }
    {
        match self {
            Buffer::Command => COMMAND_BYTES,
            Buffer::Status => STATUS_BYTES,
            Buffer::Window => WINDOW_BYTES,
        }
    }

    #[inline(always)]
    fn at(address: u64) -> Buffer
        ensures { result ≡ buffer_at address }
    {
        if address < STATUS_BUFFERS {
            Buffer::Command
        } else if address < WINDOWS {
            Buffer::Status
        } else {
            Buffer::Window
        }
    }
}

impl Place {
    ghost use Rattle.frame_store.specs.Places.{address_of, checked_place, place_at, IsPlace};
    ghost use Rattle.frame_store.specs.Buffers.{start_of};
    ghost use Rattle.frame_store.specs.declared.Place.{Place};

    pub(crate) const FIRST: Place = Place {
        tag: 1,
        buffer: Buffer::Command,
        offset: 0,
    };

    /// The address of this byte, which no other byte has.
    pub fn address(&self) -> u64
        requires { IsPlace self.now }
        ensures value { result ≡ address_of self.now }
        ensures alone { (other : Place) → IsPlace other → address_of other ≡ result → other ≡ self.now }
    {
        self.buffer.base() + self.buffer.stride() * self.tag as u64 + self.offset as u64
    }

    /// The byte that an address belongs to, or None where no buffer has room there.
    #[inline(always)]
    pub fn at(address: u64) -> Option<Place>
        ensures value { result ≡ place_at address }
        ensures inverse { (place : Place) → (result ≡ Some place) ↔ (IsPlace place × (address_of place ≡ address)) }
    {
        // Each buffer's base, stride and room are constants in its own arm.
        match Buffer::at(address) {
            Buffer::Command => Place::checked(Buffer::Command, address),
            Buffer::Status => Place::checked(Buffer::Status, address),
            Buffer::Window => Place::checked(Buffer::Window, address),
        }
    }

    // The same, of one kind of buffer.
    #[inline(always)]
    fn checked(buffer: Buffer, address: u64) -> Option<Place>
        ensures { result ≡ checked_place buffer address }
    {
        let beyond = address.checked_sub(buffer.base())?;
        let tag = beyond / buffer.stride();
        let offset = (beyond % buffer.stride()) as usize;
        if 0 < tag && tag <= STREAMS as u64 && offset < buffer.room() {
            Some(Place {
                tag: tag as Tag,
                buffer,
                offset,
            })
        } else {
            None
        }
    }

    // Where `len` bytes from an address on begin. No byte at all begins nowhere, so the first byte of all stands for it.
    pub(crate) fn start(address: u64, len: usize) -> Place
        ensures value { result ≡ start_of address len }
        ensures first_tag { 1 ≤ result.tag }
        ensures last_tag { result.tag ≤ STREAMS }
    {
        if len == 0 {
            return Place::FIRST;
        }
        Place::at(address).unwrap_or(Place::FIRST)
    }
}
