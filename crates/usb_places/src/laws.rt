//! What a place may have at once, and what cancels leave: laws over the definitions.
ghost use Rattle.usb_places.specs.Laws.{CancelsAll, CancelsOne, FindsEach, FindsHeld, HoldsOrKeeps, ToldOnce};

/// Law: a place never both holds a transfer and keeps an answer.
pub fn holds_or_keeps()
    ensures { HoldsOrKeeps }
{}

/// Law: `cancel_one` finds a place that holds a transfer of the id as long as one does, and called again and again empties all of them.
pub fn cancels_all()
    ensures held { FindsHeld }
    ensures each { FindsEach }
    ensures one { CancelsOne }
    ensures all { CancelsAll }
{}

/// Law: an answer is told again only after a late cancel, and then once.
pub fn told_once()
    ensures { ToldOnce }
{}
