//! Each data packet is answered exactly once: laws over the definitions.
ghost use Rattle.usb_tags.specs.Laws.{EachEndsAtItsPlace, EachIsAnsweredOnce, EachIsOwed};

/// Law: under each id, what a step leaves owed and what it sends are what was owed.
/// And what it sends of a place is the answer of the transfer that it held.
pub fn each_is_answered_once()
    ensures once { EachIsAnsweredOnce }
    ensures place { EachEndsAtItsPlace }
{}

/// Law: under each id, the disk owes what it held and what came.
pub fn each_is_owed()
    ensures { EachIsOwed }
{}
