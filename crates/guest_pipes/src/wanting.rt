//! What a step at a ring's end lacks, for a caller who copies in what is asked for.
ghost use Rattle.std.specs.Prelude.{◌≡◌};
ghost use Rattle.guest_pipes.specs.Wanted.{place_range};

use guest_memory::rings::{EventRing, Range};

/// The next event's place.
pub fn place_range(events: &EventRing) -> Range
    ensures { result ≡ place_range events.now }
{
    Range {
        at: events.enqueue_pointer(),
        count: 16,
    }
}
