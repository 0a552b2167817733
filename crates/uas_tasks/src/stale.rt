//! Stale requests: a Write that is out, and that no task waits for any more. Until it is answered it may still change blocks, so the
//! device counts them for each logical unit, and what comes later waits for them.
ghost use Rattle.std.specs.Prelude.{◌≡◌, ℕ, ◌<◌, ◌≤◌, All, IfSome, length, slice_index, slice_index_or};
ghost use Rattle.uas_tasks.specs.Machine.{has_stale, is_held, number_of, stale_after};
ghost use Rattle.uas_tasks.specs.Soundness.{AreCounted, IsWritten, counted_down, counted_up};

use crate::Tasks;
use crate::calls::TAG_PLACES;
use crate::slot::Slot;

impl Tasks {
    /// The number of the first stale request on a tag above that of a number, `after`, and the first of all after 0. A caller may cancel
    /// it, and answers it all the same.
    pub fn stale(&self, after: u64) -> Option<u64>
        ensures { result ≡ stale_after self.now after }
    {
        let above = (after % TAG_PLACES) as usize;
        for place in above..self.slots.len() {
            let slot = &self.slots[place];
            if slot.stale_unit().is_some() {
                return Some(number_of(place as u16 + 1, slot));
            }
        }
        None
    }

    /// Whether the logical unit of a number has a stale request.
    pub(crate) fn has_stale(&self, number: usize) -> bool
        ensures { result ≡ has_stale self.now number }
    {
        match self.stale.get(number) {
            Some(count) => *count > 0,
            None => false,
        }
    }

    /// Whether a tag's task waits for stale requests.
    pub(crate) fn is_held(&self, slot: &Slot) -> bool
        ensures { result ≡ is_held self.now slot.now }
    {
        match slot.held_by() {
            Some(number) => self.has_stale(number),
            None => false,
        }
    }
}

/// The number of the request of a tag.
pub(crate) fn number_of(tag: u16, slot: &Slot) -> u64
    ensures { result ≡ number_of tag slot.now }
{
    TAG_PLACES * u64::from(slot.turn()) + u64::from(tag)
}

/// One stale request more of this logical unit.
pub(crate) fn count_up(stale: &mut [u8], unit: Option<usize>)
    requires { IfSome unit (λ unit. (unit < length stale.old) × (slice_index stale.old unit < 255)) }
    ensures { stale.new ≡ counted_up stale.old unit }
{
    if let Some(unit) = unit {
        stale[unit] += 1;
    }
}

/// One fewer.
pub(crate) fn count_down(stale: &mut [u8], unit: Option<usize>)
    requires { IfSome unit (λ unit. (unit < length stale.old) × (1 ≤ slice_index stale.old unit)) }
    ensures { stale.new ≡ counted_down stale.old unit }
{
    if let Some(unit) = unit {
        stale[unit] -= 1;
    }
}

/// Counts the stale requests of each logical unit anew.
pub(crate) fn count_anew(stale: &mut [u8], slots: &[Slot])
    requires few { length slots.now ≤ 240 }
    requires within { All (IsWritten (length stale.old)) slots.now }
    ensures counts { AreCounted stale.new slots.now }
{
    stale.fill(0);
    for slot in slots {
        count_up(stale, slot.stale_unit());
    }
}
