//! Ranges of memory that isn't there, for a caller who copies in what is asked for.
ghost use Rattle.std.specs.Prelude.{◌≡◌, ◌+◌, ◌<◌, ◌≤◌, ◌^◌, None};
ghost use Rattle.guest_memory.specs.rings.Wanted.{LacksIt, home_range, look_wanted, missing, part_wanted, range_ahead, trb_wanted};

use crate::rings::context::{Home, number_at};
use crate::rings::cursor::Cursor;
use crate::{GuestMemory, Outside};

/// `count` bytes from the address `at` on.
#[derive(Clone, Copy, Debug, PartialEq, Eq)]
pub struct Range {
    pub at: u64,
    pub count: usize,
}

impl Range {
    /// `count` bytes from so far ahead of `base` on; from `base` on where they begin at 2^64 or above, where no memory is.
    pub fn ahead(base: u64, ahead: u32, count: usize) -> Range
        requires { count ≤ 65536 }
        ensures { result ≡ range_ahead base ahead count }
    {
        match base.checked_add(u64::from(ahead)) {
            Some(at) => Range { at, count },
            None => Range {
                at: base,
                count: ahead as usize + count,
            },
        }
    }

    /// The range itself where a byte of it isn't there.
    pub fn missing<M: GuestMemory>(self, memory: &M) -> Option<Range>
        ensures { result ≡ missing (M.contents memory.now) self None }
    {
        if memory.has(self.at, self.count) {
            None
        } else {
            Some(self)
        }
    }
}

impl Home {
    /// The range where it is kept.
    fn range(self) -> Range
        ensures { result ≡ home_range self }
    {
        match self {
            Home::Stream { at } => Range { at, count: 16 },
            Home::Endpoint { at } => Range { at, count: 8 },
        }
    }
}

/// The TRB where a consumer stands, by the quadword where its end is kept, where a byte of it isn't there.
fn trb_wants<M: GuestMemory>(memory: &M, home: Home, number: u64) -> Option<Range>
    ensures { result ≡ trb_wanted (M.contents memory.now) home number }
{
    if !home.is_ring(number) {
        return None;
    }
    let trb = Range {
        at: Cursor::of_number(number).place,
        count: 16,
    };
    trb.missing(memory)
}

/// The first range that [`crate::rings::look`] reads of which a byte isn't there.
#[tactic(auto, unfolding(crate::specs::rings::Wanted::look_wanted))]
pub fn look_wants<M: GuestMemory>(memory: &M, home: Home) -> Option<Range>
    ensures { result ≡ look_wanted (M.contents memory.now) home }
{
    match number_at(memory, home) {
        Err(Outside) => Some(home.range()),
        Ok(number) => trb_wants(memory, home, number),
    }
}

/// So many bytes of a TRB's buffer behind those that were moved, where a byte of them isn't there.
pub fn part_wants<M: GuestMemory>(
    memory: &M,
    pointer: u64,
    moved: u32,
    count: usize,
) -> Option<Range>
    requires { count ≤ 65536 }
    ensures { result ≡ part_wanted (M.contents memory.now) pointer moved count }
{
    if count == 0 {
        return None;
    }
    Range::ahead(pointer, moved, count).missing(memory)
}
