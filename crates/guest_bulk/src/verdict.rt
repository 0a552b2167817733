//! What the device did, and how a command ends.
ghost use Rattle.std.specs.Prelude.{◌≡◌, ◌+◌, ◌≤◌, is_some, unwrap_or};
ghost use Rattle.guest_pipes.specs.Step.{World};
ghost use Rattle.guest_tags.specs.Devices.{IsEnded};
ghost use Rattle.guest_bulk.specs.Verdicts.{answered, broken_off, csw_of, is_good, kept_by, kept_told, settled, settled_by, together, told, with_chunk, with_given, with_taking};

use crate::bulk::{Bulk, BulkCommand, BulkStage, KeptSense};
use crate::command::{BULK_TAG, SENSE_PLACE};
use arrayvec::ArrayVec;
use bulk_only::{Csw, CswStatus, Done, verdict_of};
use guest_tags::{End, Phase, UasDevice};
use uas_profile::STATUS_BYTES;

/// Two numbers of bytes together.
fn together(a: u64, b: u64) -> u64
    ensures { result ≡ together a b }
{
    a.saturating_add(b)
}

/// The device gives so many bytes more.
pub(crate) fn with_given(done: Done, count: u64) -> Done
    ensures { result ≡ with_given done count }
{
    match done {
        Done::In { given } => Done::In {
            given: together(given, count),
        },
        Done::Nothing | Done::Out { .. } => Done::In { given: count },
    }
}

/// It would take so many bytes more.
pub(crate) fn with_taking(done: Done, count: u64) -> Done
    ensures { result ≡ with_taking done count }
{
    match done {
        Done::Out { taken, whole } => Done::Out {
            taken: together(taken, count),
            whole,
        },
        Done::Nothing | Done::In { .. } => Done::Out {
            taken: count,
            whole: 0,
        },
    }
}

/// It took a chunk of so many bytes.
pub(crate) fn with_chunk(done: Done, count: u64) -> Done
    ensures { result ≡ with_chunk done count }
{
    match done {
        Done::Out { taken, whole } => Done::Out {
            taken: together(taken, count),
            whole: together(whole, count),
        },
        Done::Nothing | Done::In { .. } => Done::Out {
            taken: count,
            whole: count,
        },
    }
}

fn is_good(end: End) -> bool
    ensures { result ≡ is_good end }
{
    match end {
        End::Good => true,
        End::Check | End::Response => false,
    }
}

/// The sense data of a status of a logical unit, in the information unit that tells them. BUSY brings none.
fn kept_by(end: End, lun: u8, text: ArrayVec<u8, STATUS_BYTES>) -> Option<KeptSense>
    ensures { result ≡ kept_by end lun text.items }
{
    match end {
        End::Check if text.len() > SENSE_PLACE => Some(KeptSense { lun, text }),
        End::Check | End::Good | End::Response => None,
    }
}

impl BulkCommand {
    fn csw(self, verdict: (CswStatus, u32)) -> Csw
        ensures { result ≡ csw_of self verdict }
    {
        Csw {
            tag: self.tag,
            residue: verdict.1,
            status: verdict.0,
        }
    }

    /// The CSW that is to go out.
    fn told(self, done: Done, good: bool) -> BulkStage
        ensures { result ≡ told self done good }
    {
        BulkStage::Tells {
            csw: self.csw(verdict_of(self.length, self.is_in, done, good)),
            sent: 0,
        }
    }
}

impl Bulk {
    /// The device did something else than the CBW says: its task is to be ended.
    #[tactic(auto, unfolding(crate::specs::Verdicts::broken_off))]
    pub(crate) fn break_off<D: UasDevice>(
        &mut self,
        device: &mut D,
        command: BulkCommand,
        done: Done,
    )
        ensures step { (ring : World) → record { ring = ring; bulk = self.new; device = D.state device.new }
            ≡ broken_off D.kind (record { ring = ring; bulk = self.old; device = D.state device.old }) command done }
    {
        self.turn(command.told(done, false));
    }

    /// Sense data that were kept have been given.
    #[tactic(auto, unfolding(crate::specs::Verdicts::kept_told))]
    fn tell_kept<D: UasDevice>(&mut self, device: &mut D, command: BulkCommand)
        ensures step { (ring : World) → record { ring = ring; bulk = self.new; device = D.state device.new }
            ≡ kept_told D.kind (record { ring = ring; bulk = self.old; device = D.state device.old }) command }
    {
        self.turn(command.told(command.done, true));
    }

    /// Takes the answer of the task from the device.
    #[tactic(auto, unfolding(crate::specs::Verdicts::answered))]
    fn answer<D: UasDevice>(&mut self, device: &mut D, command: BulkCommand, end: End)
        requires ended { IsEnded (D.kind.phase (D.state device.old) 1) }
        ensures step { (ring : World) → record { ring = ring; bulk = self.new; device = D.state device.new }
            ≡ answered D.kind (record { ring = ring; bulk = self.old; device = D.state device.old }) command end }
    {
        let mut text = ArrayVec::new();
        device.write_status(BULK_TAG, &mut text);
        device.sent(BULK_TAG);
        self.turn(command.told(command.done, is_good(end)));
        self.kept = kept_by(end, command.lun, text);
    }

    /// Ends the command, all of whose bytes have moved, by what the device does next, where that is known. True where the task is to be ended.
    fn settle_by<D: UasDevice>(&mut self, device: &mut D, command: BulkCommand) -> bool
        ensures step { (ring : World) → (record { ring = ring; bulk = self.new; device = D.state device.new }, result)
            ≡ settled_by D.kind (D.kind.phase (D.state device.old) 1) (record { ring = ring; bulk = self.old; device = D.state device.old }) command }
    {
        match device.phase(BULK_TAG) {
            Phase::Absent => false,
            Phase::Gives(count) => {
                self.break_off(device, command, with_given(command.done, count as u64));
                true
            }
            Phase::Takes(count) => {
                self.break_off(device, command, with_taking(command.done, count as u64));
                true
            }
            Phase::Ended(end) => {
                self.answer(device, command, end);
                false
            }
        }
    }

    /// Ends the command, all of whose bytes have moved, where it is known how. True where the task is to be ended.
    #[tactic(auto, unfolding(crate::specs::Verdicts::settled))]
    pub(crate) fn settle<D: UasDevice>(&mut self, device: &mut D, command: BulkCommand) -> bool
        ensures step { (ring : World) → (record { ring = ring; bulk = self.new; device = D.state device.new }, result)
            ≡ settled D.kind (record { ring = ring; bulk = self.old; device = D.state device.old }) command }
    {
        if self.has_chunk() {
            self.break_off(device, command, command.done);
            true
        } else if command.is_kept {
            self.tell_kept(device, command);
            false
        } else {
            self.settle_by(device, command)
        }
    }
}
