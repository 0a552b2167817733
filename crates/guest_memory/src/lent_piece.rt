//! What is lent, as a piece of memory.
ghost use Rattle.std.specs.Prelude.{◌≡◌, ◌+◌, ◌≤◌, length, slice_get};
ghost use Rattle.guest_memory.specs.Bytes.{written};
ghost use Rattle.guest_memory.specs.Lend.{lent_in, HasAll};
ghost use Rattle.guest_memory.specs.LendLaws.{lent_ends, part_there};

use crate::lend::Lent;
use crate::piece::Piece;

impl<'a> Piece for Lent<'a> {
    ghost part = { lent_in };

    ghost has = { HasAll };

    ghost ends = { lent_ends };

    ghost there = { part_there };

    #[tactic(auto, unfolding(crate::specs::Lend::lent_in))]
    fn byte(&self, at: u64) -> Option<u8> {
        if self.base <= at && at - self.base < self.bytes.len() as u64 {
            return Some(self.bytes[(at - self.base) as usize]);
        }
        None
    }

    #[tactic(auto, using(crate::specs::LendLaws::misses_before, crate::specs::LendLaws::misses_behind))]
    fn touches(&self, at: u64, count: usize) -> bool {
        if at < self.base {
            self.base - at < count as u64
        } else {
            at - self.base < self.bytes.len() as u64
        }
    }

    fn has_all(&self, at: u64, count: usize) -> bool {
        let len = self.bytes.len() as u64;
        let count = count as u64;
        self.base <= at
            && at - self.base <= len
            && count <= len - (at - self.base)
            && (count == 0 || count - 1 <= u64::MAX - at)
    }

    #[tactic(auto, using(crate::specs::LendLaws::read_part, crate::specs::Parts::get_take, crate::specs::Parts::get_drop))]
    fn read(&self, at: u64, into: &mut [u8]) {
        let start = (at - self.base) as usize;
        into.copy_from_slice(&self.bytes[start..start + into.len()]);
    }

    #[tactic(auto, using(crate::specs::LendLaws::write_part))]
    fn write(&mut self, at: u64, bytes: &[u8]) {
        put(self.bytes, (at - self.base) as usize, bytes);
    }
}

/// Puts bytes in the place of as many, from a place on.
#[tactic(auto, using(crate::specs::Pieces::pasted_part))]
fn put(cells: &mut [u8], start: usize, bytes: &[u8])
    requires { start + length bytes.now ≤ length cells.old }
    ensures len { length cells.new ≡ length cells.old }
    ensures bytes { slice_get cells.new ≡ written (slice_get cells.old) start bytes.now }
{
    cells[start..start + bytes.len()].copy_from_slice(bytes);
}
