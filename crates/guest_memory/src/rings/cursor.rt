//! Where a ring's consumer stands, and the TRB there (xHCI 1.2, 4.9.2).
ghost use Rattle.std.specs.Prelude.{◌≡◌};
ghost use Rattle.std.specs.Result.{result_ok};
ghost use Rattle.guest_memory.specs.rings.Ends.{behind, cursor_in, fetched, followed, number_of, owned};
ghost use Rattle.std.specs.Prelude.{◌<◌};

use crate::rings::words::{Words, read_words};
use crate::{GuestMemory, Outside};

/// A dequeue pointer and a cycle state.
#[derive(Clone, Copy, Debug, PartialEq, Eq)]
pub struct Cursor {
    pub place: u64,
    pub cycle: bool,
}

impl Cursor {
    /// Behind the TRB here.
    pub fn behind(self) -> Cursor
        ensures { result ≡ behind self }
    {
        Cursor {
            place: self.place.wrapping_add(16),
            cycle: self.cycle,
        }
    }

    /// Where a Link that stands here leads.
    pub fn follow(self, pointer: u64, toggle: bool) -> Cursor
        ensures { result ≡ followed self pointer toggle }
    {
        Cursor {
            place: pointer,
            cycle: if toggle { !self.cycle } else { self.cycle },
        }
    }

    /// The cursor of a dequeue pointer's quadword: DCS is bit 0, bits 3:1 aren't looked at.
    pub fn of_number(number: u64) -> Cursor
        ensures { result ≡ cursor_in number }
    {
        Cursor {
            place: 16 * (number / 16),
            cycle: number % 2 == 1,
        }
    }

    /// The quadword of this cursor, with these bits 3:1.
    pub fn number(self, low: u8) -> u64
        requires { low < 8 }
        ensures { result ≡ number_of self low }
    {
        let cycle = if self.cycle { 1 } else { 0 };
        16 * (self.place / 16) + 2 * u64::from(low) + cycle
    }
}

/// The words of the TRB where a consumer stands, or None where it isn't there yet.
#[tactic(auto, unfolding(crate::specs::rings::Ends::fetched))]
pub fn fetch<M: GuestMemory>(memory: &M, cursor: Cursor) -> Result<Option<Words>, Outside>
    ensures { result_ok result ≡ fetched (M.contents memory.now) cursor }
{
    let mut bytes = [0; 16];
    memory.read(cursor.place, &mut bytes)?;
    Ok(owned(&bytes, cursor.cycle))
}

/// 16 bytes that are the consumer's.
#[tactic(auto, unfolding(crate::specs::rings::Ends::owned))]
fn owned(bytes: &[u8; 16], cycle: bool) -> Option<Words>
    ensures { result ≡ owned cycle bytes.now }
{
    let words = read_words(bytes);
    if words.cycle() == cycle {
        Some(words)
    } else {
        None
    }
}
