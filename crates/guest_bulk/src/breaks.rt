//! Pipes that the disk halts whether a TD is there or not (BOT 6.7, cases 8 and 10).
ghost use Rattle.std.specs.Prelude.{◌≡◌, is_some};
ghost use Rattle.guest_pipes.specs.Step.{World};
ghost use Rattle.guest_bulk.specs.Breaks.{broke, in_break, out_break};

use crate::bulk::{Bulk, BulkStage, Stepped};
use crate::command::BULK_TAG;
use guest_tags::{Phase, UasDevice};

impl Bulk {
    /// Whether [`Bulk::break_in`] does something.
    pub fn breaks_in<D: UasDevice>(&self, device: &D) -> bool
        ensures { (ring : World) → result ≡ is_some (in_break D.kind (record { ring = ring; bulk = self.now; device = D.state device.now })) }
    {
        match self.stage {
            BulkStage::Moves { command } => {
                command.gives_bytes()
                    && (!self.has_chunk() && !command.is_kept)
                    && matches!(device.phase(BULK_TAG), Phase::Takes(_))
            }
            BulkStage::Awaits | BulkStage::Faulty | BulkStage::Tells { .. } => false,
        }
    }

    /// Halts Bulk-In where the device takes in place of giving; none where it doesn't.
    pub fn break_in<D: UasDevice>(&mut self, device: &mut D) -> Option<Stepped>
        ensures step { (ring : World) → (record { ring = ring; bulk = self.new; device = D.state device.new }, result)
            ≡ broke D.kind (record { ring = ring; bulk = self.old; device = D.state device.old }) (in_break D.kind (record { ring = ring; bulk = self.old; device = D.state device.old })) }
    {
        let BulkStage::Moves { command } = self.stage else {
            return None;
        };
        if !command.gives_bytes() || self.has_chunk() || command.is_kept {
            return None;
        }
        match device.phase(BULK_TAG) {
            Phase::Takes(count) => Some(self.halt_in(device, command, count)),
            Phase::Absent | Phase::Gives(_) | Phase::Ended(_) => None,
        }
    }

    /// Whether [`Bulk::break_out`] does something.
    pub fn breaks_out<D: UasDevice>(&self, device: &D) -> bool
        ensures { (ring : World) → result ≡ is_some (out_break D.kind (record { ring = ring; bulk = self.now; device = D.state device.now })) }
    {
        match self.stage {
            BulkStage::Moves { command } => {
                command.takes_bytes()
                    && (self.has_chunk()
                        || !command.is_kept && matches!(device.phase(BULK_TAG), Phase::Gives(_)))
            }
            BulkStage::Awaits | BulkStage::Faulty | BulkStage::Tells { .. } => false,
        }
    }

    /// Halts Bulk-Out where the device gives in place of taking; none where it doesn't.
    pub fn break_out<D: UasDevice>(&mut self, device: &mut D) -> Option<Stepped>
        ensures step { (ring : World) → (record { ring = ring; bulk = self.new; device = D.state device.new }, result)
            ≡ broke D.kind (record { ring = ring; bulk = self.old; device = D.state device.old }) (out_break D.kind (record { ring = ring; bulk = self.old; device = D.state device.old })) }
    {
        let BulkStage::Moves { command } = self.stage else {
            return None;
        };
        if !command.takes_bytes() {
            return None;
        }
        if self.has_chunk() {
            return Some(self.halt_out(device, command, 0));
        }
        if command.is_kept {
            return None;
        }
        match device.phase(BULK_TAG) {
            Phase::Gives(count) => Some(self.halt_out(device, command, count)),
            Phase::Absent | Phase::Takes(_) | Phase::Ended(_) => None,
        }
    }
}
