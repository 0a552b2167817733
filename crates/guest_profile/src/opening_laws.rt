//! Where the laws begin: a memory that is laid out, what the host puts there, and states that meet what the steps' laws ask.
ghost use Rattle.guest_profile.specs.Opening.{AnswerIsDue, CommandIsInFront, ContextsAreAlike, OpeningIsLaid};
ghost use Rattle.guest_profile.specs.Host.{BytesAreWritten, EventIsTaken, ItemsAreFreed, TrbIsPut, TrbIsPutLast};

/// The profile's new rings, events, buffers and contexts as a memory: zeros, and beside them the contexts' bytes.
pub fn opens_laid_out()
    ensures laid { OpeningIsLaid }
    ensures contexts { ContextsAreAlike }
{}

/// Memory stays laid out by what the host does: a TRB that it puts is 16 bytes at the enqueue place, behind which the Link's stand at
/// the last one; bytes that it writes to a buffer stand at their address; what it frees of a ring, and an event that it takes, changes no byte.
pub fn host_keeps_layout()
    ensures put { TrbIsPut }
    ensures last { TrbIsPutLast }
    ensures written { BytesAreWritten }
    ensures freed { ItemsAreFreed }
    ensures taken { EventIsTaken }
{}

/// A command in front, and an answer that is due, over that memory: what the steps' laws ask is met.
pub fn steps_have_states()
    ensures command { CommandIsInFront }
    ensures answer { AnswerIsDue }
{}
