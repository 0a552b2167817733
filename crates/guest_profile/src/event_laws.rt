//! The producer's end: over memory that holds the profile's event ring.
ghost use Rattle.guest_profile.specs.Events.{EventsAreAlike, EventIsPosted, RoomIsCounted};

/// An event of a transfer has the same 16 bytes; posted where there is room, it stands where the ring has its next one, and memory
/// then holds the ring with it.
pub fn producers_agree()
    ensures alike { EventsAreAlike }
    ensures posted { EventIsPosted }
    ensures room { RoomIsCounted }
{}
