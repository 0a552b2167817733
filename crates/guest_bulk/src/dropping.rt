//! What is dropped of Bulk-Out.
ghost use Rattle.std.specs.Prelude.{◌≡◌, ◌-◌, true};
ghost use Rattle.guest_pipes.specs.Step.{has_place, has_home};
ghost use Rattle.guest_bulk.specs.Commands.{BulkWorld};
ghost use Rattle.guest_bulk.specs.Outgoing.{data_dropped, passed_over, plain, rest_dropped};

use crate::bulk::{Bulk, BulkCommand, BulkStage, Halting, Stepped};
use guest_memory::GuestMemory;
use guest_memory::rings::{EventRing, Front};
use guest_pipes::{Acted, Consumer, Progress};
use guest_tags::{Buffer, UasDevice};

/// What a step did, without a halt.
pub(crate) fn plain(acted: Acted) -> Stepped
    ensures { result ≡ plain acted }
{
    Stepped {
        acted,
        halts: Halting::Nothing,
        ends: false,
    }
}

/// So many bytes of a TRB were passed over: its TD has data now.
fn passed_over(progress: Progress, count: u32) -> Progress
    ensures { result ≡ passed_over progress count }
{
    Progress {
        moved: progress.moved,
        ending: progress.ending,
        edtla: ((u64::from(progress.edtla) + u64::from(count)) % 16_777_216) as u32,
        begun: true,
        fed: true,
    }
}

impl Bulk {
    /// Drops what is left of a TRB, as if it had moved.
    #[tactic(auto, unfolding(crate::specs::Outgoing::rest_dropped))]
    pub(crate) fn drop_rest<M: GuestMemory, D: UasDevice>(
        &mut self,
        memory: &mut M,
        events: &mut EventRing,
        consumer: &mut Consumer,
        device: &mut D,
        front: Front,
        buffer: Buffer,
    )
        requires room { has_place (M.contents memory.old) events.old ≡ true }
        requires home { has_home (M.contents memory.old) front.home ≡ true }
        ensures step { record { ring = record { memory = M.contents memory.new; events = events.new; consumer = consumer.new }; bulk = self.new; device = D.state device.new }
            ≡ rest_dropped D.kind (record { ring = record { memory = M.contents memory.old; events = events.old; consumer = consumer.old }; bulk = self.old; device = D.state device.old }) front buffer }
        ensures same_loan { M.loan memory.new ≡ M.loan memory.old }
    {
        let left = buffer.length.saturating_sub(consumer.progress.moved);
        consumer.progress = passed_over(consumer.progress, left);
        consumer.fill(memory, events, front, buffer.flags);
    }

    /// The same of bytes that belong to the command's.
    #[tactic(auto, unfolding(crate::specs::Outgoing::data_dropped))]
    pub(crate) fn drop_data<M: GuestMemory, D: UasDevice>(
        &mut self,
        memory: &mut M,
        events: &mut EventRing,
        consumer: &mut Consumer,
        device: &mut D,
        command: BulkCommand,
        front: Front,
        buffer: Buffer,
    )
        requires room { has_place (M.contents memory.old) events.old ≡ true }
        requires home { has_home (M.contents memory.old) front.home ≡ true }
        ensures step { record { ring = record { memory = M.contents memory.new; events = events.new; consumer = consumer.new }; bulk = self.new; device = D.state device.new }
            ≡ data_dropped D.kind (record { ring = record { memory = M.contents memory.old; events = events.old; consumer = consumer.old }; bulk = self.old; device = D.state device.old }) command front buffer }
        ensures same_loan { M.loan memory.new ≡ M.loan memory.old }
    {
        let count = buffer.length.saturating_sub(consumer.progress.moved);
        self.stage = BulkStage::Moves {
            command: command.with_moved(count.min(command.left)),
        };
        self.drop_rest(memory, events, consumer, device, front, buffer);
    }
}
