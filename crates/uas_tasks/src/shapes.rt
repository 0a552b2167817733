//! What a device was made for.
ghost use Rattle.std.specs.Prelude.{◌≡◌, ◌≤◌, length};
ghost use Rattle.uas_profile.specs.declared.TheConstants.{MAX_UNITS};
ghost use Rattle.uas_tasks.specs.Machine.{slot_of};

use crate::{LogicalUnit, Tasks};

impl Tasks {
    /// The logical units, by number.
    pub fn units(&self) -> &[LogicalUnit]
        ensures units { result.now ≡ self.now.units }
        ensures most { length result.now ≤ MAX_UNITS }
    {
        &self.units
    }

    /// The most blocks of a chunk.
    pub fn chunk_blocks(&self) -> u16
        ensures chunk { result ≡ (slot_of self.now 1).chunk }
        ensures some { 1 ≤ result }
        ensures most { result ≤ 128 }
    {
        match self.slot(1) {
            Some(slot) => slot.chunk(),
            None => 1,
        }
    }
}
