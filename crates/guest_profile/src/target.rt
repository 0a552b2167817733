//! A simulated device of logical units behind the pipes of a controller over a caller's memory.
//!
//! [`GuestTarget`] is a `uas_target::Target` as the device of `guest_tags`: what it does next on a tag, its chunks, its answers and
//! what comes of an information unit are that device's, by `target_kind`. A tag whose information unit overlaps is read from bytes 2
//! and 3, where a readable information unit has it.

ghost use Rattle.std.specs.Prelude.{◌≡◌, ◌≤◌, Some, None, option_map, length, slice_index};
ghost use Rattle.uas_iu.specs.Units.{IsTextOf, unit_text};
ghost use Rattle.uas_target.specs.Device.{Device, answered, received, wanted};
ghost use Rattle.uas_target.specs.Fields.{tag_in};
ghost use Rattle.guest_tags.specs.Devices.{Kind};
ghost use Rattle.guest_profile.specs.target.Targets.{end_of, end_of_status, end_of_unit, phase_of, received_as, received_told, target_kind, text_of};

use arrayvec::ArrayVec;
use guest_tags::{End, Phase, Received, UasDevice};
use uas_iu::Iu;
use uas_profile::STATUS_BYTES;
use uas_target::{Overlap, Phase as TargetPhase, Target, Took};

/// A simulated device of logical units.
#[derive(Debug, Drop)]
pub struct GuestTarget {
    pub target: Target,
}

fn end_of_status(good: bool) -> End
    ensures { result ≡ end_of_status good }
{
    if good { End::Good } else { End::Check }
}

/// How a task ended, by the information unit that answers it.
fn end_of(answer: &Option<Iu>) -> End
    ensures { result ≡ end_of answer.now }
{
    match answer {
        Some(Iu::Sense { status, .. }) => end_of_status(*status == 0),
        Some(Iu::Command { .. }) | Some(Iu::Response { .. }) | Some(Iu::Task { .. }) | None => {
            End::Response
        }
    }
}

/// What came of received bytes.
fn received_as(bytes: &[u8], took: Result<Took, Overlap>) -> Received
    ensures { result ≡ received_as bytes.now took }
{
    match took {
        Ok(Took::Began(tag)) => Received::Began(tag),
        Ok(Took::Dropped) => Received::Dropped,
        Err(Overlap) => Received::Overlap(tag_of(bytes)),
    }
}

/// The byte at a place, 0 where there is none.
fn byte_at(bytes: &[u8], place: usize) -> u8
    ensures { result ≡ slice_index bytes.now place }
{
    match bytes.get(place) {
        Some(byte) => *byte,
        None => 0,
    }
}

/// The tag in bytes 2 and 3.
fn tag_of(bytes: &[u8]) -> u16
    ensures { result ≡ tag_in bytes.now }
{
    256 * u16::from(byte_at(bytes, 2)) + u16::from(byte_at(bytes, 3))
}

impl UasDevice for GuestTarget {
    ghost State = { Device };

    ghost state = { λ device. device.target };

    ghost kind = { target_kind };

    fn phase(&self, tag: u16) -> Phase {
        match self.target.wants(tag) {
            TargetPhase::Absent => Phase::Absent,
            TargetPhase::Gives(count) => Phase::Gives(count),
            TargetPhase::Takes(count) => Phase::Takes(count),
            TargetPhase::Ends => Phase::Ended(end_of(&self.target.status_of(tag))),
        }
    }

    #[tactic(auto, using(crate::specs::target::Laws::gives_gives))]
    fn give(&mut self, tag: u16, into: &mut [u8]) -> bool {
        self.target.give_chunk(tag, into)
    }

    #[tactic(auto, using(crate::specs::target::Laws::takes_takes))]
    fn take(&mut self, tag: u16, bytes: &[u8]) -> bool {
        self.target.take_chunk(tag, bytes)
    }

    #[tactic(auto, using(crate::specs::target::Laws::empty_items))]
    fn write_status(&self, tag: u16, text: &mut ArrayVec<u8, STATUS_BYTES>) {
        self.target.write_status(tag, text);
    }

    #[tactic(auto, using(crate::specs::target::Laws::ended_ends))]
    fn sent(&mut self, tag: u16) {
        self.target.sent(tag);
    }

    fn receive(&mut self, bytes: &[u8]) -> Received {
        let took = self.target.receive(bytes);
        received_as(bytes, took)
    }
}
