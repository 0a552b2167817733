//! What follows where every write is noted, as a function with an empty body.
ghost use Rattle.std.specs.Prelude.{◌≡◌, ℕ, false, List, All};
ghost use Rattle.guest_memory.specs.Bytes.{Memory};
ghost use Rattle.guest_memory.specs.declared.notes.WrittenRange.{WrittenRange};
ghost use Rattle.guest_memory.specs.notes.Notes.{AreNoted, IsBeside};

/// Each byte that is in none of the noted ranges is as it was at the beginning.
pub fn unnoted_bytes_stay()
    ensures { (began now : Memory) (room : ℕ) (ranges : List WrittenRange) (a : ℕ) → AreNoted began now room (ranges, false)
        → All (IsBeside a) ranges → now a ≡ began a }
{}
