//! Whether a step of data-in would do nothing, so that one of data-out would follow it.
ghost use Rattle.std.specs.Prelude.{◌≡◌, ◌<◌, Some};
ghost use Rattle.guest_memory.specs.rings.Ends.{looked};
ghost use Rattle.guest_pipes.specs.Gate.{gate};
ghost use Rattle.guest_pipes.specs.Pipe.{home_of, loaded};
ghost use Rattle.guest_tags.specs.Wanted.{moving};
ghost use Rattle.guest_transfers.specs.State.{slot_of};
ghost use Rattle.guest_transfers.specs.Steps.{in_stepped};
ghost use Rattle.guest_transfers.specs.Wanted.{idles_by, is_idle, waits_at, waits_by};

use crate::calls::Transfers;
use guest_memory::rings::{EventRing, Front};
use guest_memory::{GuestMemory, Outside};
use guest_pipes::{Acted, Consumer};
use guest_tags::{Phase, Tag, UasDevice, moving};

/// Whether a step that did this did nothing.
fn is_idle(acted: Acted) -> bool
    ensures { result ≡ is_idle (Some acted) }
{
    match acted {
        Acted::Off | Acted::Idle | Acted::Full | Acted::Waits => true,
        Acted::Emptied | Acted::Worked => false,
    }
}

/// Whether a Normal TRB of data-in waits where nothing of a chunk is left.
fn waits_by(phase: Phase, tag: &Tag, fed: bool) -> bool
    ensures { result ≡ waits_by phase tag.now fed }
{
    match phase {
        Phase::Absent | Phase::Takes(_) => true,
        Phase::Gives(_) => false,
        Phase::Ended(end) => !(end.is_status() && tag.ends_td(fed)),
    }
}

/// Whether data-in waits at what was found.
fn waits_at<D: UasDevice>(
    consumer: &Consumer,
    tag: &Tag,
    device: &D,
    number: u16,
    front: &Front,
) -> bool
    ensures { result ≡ waits_at D.kind consumer.now tag.now (D.state device.now) number (moving consumer.now front.now) }
{
    match moving(consumer, front) {
        None => false,
        Some(buffer) => {
            consumer.progress.moved < buffer.length
                && (!tag.has_chunk() && waits_by(device.phase(number), tag, consumer.progress.fed))
        }
    }
}

impl Transfers {
    fn idles_by_look<M: GuestMemory, D: UasDevice>(
        &self,
        memory: &M,
        events: &EventRing,
        device: &D,
        tag: u16,
    ) -> bool
        requires { tag < 241 }
        ensures { result ≡ idles_by (gate (M.contents memory.now) events.now (loaded self.now.data_in tag)) (looked (M.contents memory.now) (home_of self.now.data_in tag))
            (λ front. waits_at D.kind (loaded self.now.data_in tag) (slot_of self.now tag).tag (D.state device.now) tag (moving (loaded self.now.data_in tag) front)) }
    {
        let consumer = self.data_in.consumer(tag);
        let slot = &self.tags[usize::from(tag)];
        match consumer.gate(memory, events) {
            Err(Outside) => false,
            Ok(Some(acted)) => is_idle(acted),
            Ok(None) => match self.data_in.front(memory, tag) {
                Err(Outside) => false,
                Ok(front) => waits_at(&consumer, &slot.tag, device, tag, &front),
            },
        }
    }

    /// Whether a step of data-in for a tag would do nothing.
    pub(crate) fn idles_in<M: GuestMemory, D: UasDevice>(
        &self,
        memory: &M,
        events: &EventRing,
        device: &D,
        tag: u16,
    ) -> bool
        requires { tag < 241 }
        ensures { result ≡ is_idle (in_stepped D.kind (record { memory = M.contents memory.now; events = events.now; transfers = self.now; device = D.state device.now }) tag).1 }
    {
        self.idles_by_look(memory, events, device, tag)
    }
}
