//! What is kept of a tag.
ghost use Rattle.std.specs.Prelude.{◌≡◌, map};
ghost use Rattle.guest_transfers.specs.Orders.{emptied, status_forgotten};

use guest_tags::{Gather, Tag};

/// A tag's data-in and status, and the chunk that data-out gathers for it.
#[derive(Debug, Drop)]
pub struct Slot {
    pub tag: Tag,
    pub taken: Gather,
}

impl Slot {
    /// Nothing is kept of the tag any more.
    fn empty(&mut self)
        ensures { self.new ≡ emptied self.old }
    {
        self.begin();
        self.tag.unit.clear();
        self.tag.overlaps = 0;
    }

    /// The information unit on its way goes from its start.
    pub(crate) fn forget_status(&mut self)
        ensures { self.new ≡ status_forgotten self.old }
    {
        self.tag.unit.rewind();
    }
}

/// Nothing is kept of any tag any more.
pub(crate) fn empty_all(slots: &mut [Slot])
    ensures { slots.new ≡ map emptied slots.old }
{
    for slot in slots.iter_mut() {
        slot.empty();
    }
}

/// The information units of all tags go from their starts.
pub(crate) fn forget_statuses(slots: &mut [Slot])
    ensures { slots.new ≡ map status_forgotten slots.old }
{
    for slot in slots.iter_mut() {
        slot.forget_status();
    }
}
