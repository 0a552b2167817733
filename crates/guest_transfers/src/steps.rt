//! The steps of the four pipes.
ghost use Rattle.std.specs.Prelude.{◌≡◌, ◌+◌, ◌<◌, ◌≤◌, ◌^◌, ℕ, get_or, set, Some, None, true, false};
ghost use Rattle.std.specs.Result.{result_ok};
ghost use Rattle.guest_pipes.specs.Pipe.{progress_on, rung_on};
ghost use Rattle.guest_tags.specs.Devices.{IsEnded, Kind};
ghost use Rattle.guest_transfers.specs.State.{TransfersWorld, begun, overlapped, slot_of};
ghost use Rattle.guest_transfers.specs.Steps.{command_stepped, due_by, in_open, in_stepped, keeps_begun, out_open, out_stepped, received_on, status_stepped};

use crate::calls::{TAG_SLOTS, Transfers};
use crate::slot::Slot;
use guest_memory::rings::{EventRing, Home};
use guest_memory::{GuestMemory, Outside};
use guest_out::{command_step, data_out_step};
use guest_pipes::{Acted, EndpointState, Pipe};
use guest_tags::{End, Phase, Received, UasDevice};

impl Slot {
    /// A task begins: what was kept of the tag's data is gone, and what is to go out stays.
    pub(crate) fn begin(&mut self)
        ensures { self.new ≡ begun self.old }
    {
        self.tag.chunk.clear();
        self.tag.gave = false;
        self.tag.drops = false;
        self.taken.clear();
    }

    /// One more overlap is to be answered.
    fn overlap(&mut self)
        ensures { self.new ≡ overlapped self.old }
    {
        self.tag.overlaps = self.tag.overlaps.saturating_add(1);
    }
}

/// Whether an endpoint in this state goes on with a TD that was begun: at once, or once a doorbell has started it again.
fn keeps_begun(state: EndpointState) -> bool
    ensures { result ≡ keeps_begun state }
{
    match state {
        EndpointState::Running | EndpointState::Stopped => true,
        EndpointState::Disabled | EndpointState::Halted | EndpointState::Error => false,
    }
}

/// Whether the data-in ring of a tag whose task has ended so has still to end a TD, or the rest of one. One that was begun stays open while
/// its endpoint is stopped. A Response ends none.
fn in_open(pipe: &Pipe, slot: &Slot, tag: u16, end: End) -> bool
    requires { tag < 256 }
    ensures { result ≡ in_open pipe.now slot.now tag end }
{
    let consumer = pipe.consumer(tag);
    let progress = consumer.progress;
    let is_there = consumer.state.runs() && consumer.rung
        || keeps_begun(consumer.state) && progress.begun;
    is_there && (end.is_status() && (slot.tag.ends_td(progress.fed) || !progress.ending.runs()))
}

/// Whether the rest of a data-out TD that was begun for a tag whose task has ended so has still to be dropped.
fn out_open(pipe: &Pipe, tag: u16, end: End) -> bool
    requires { tag < 256 }
    ensures { result ≡ out_open pipe.now tag end }
{
    let consumer = pipe.consumer(tag);
    keeps_begun(consumer.state) && (end == End::Good && consumer.progress.begun)
}

impl Transfers {
    /// Whether the answer of a tag's task is due, by what the device does next.
    pub(crate) fn is_due(&self, tag: u16, phase: Phase) -> bool
        requires { tag < 241 }
        ensures due { result ≡ due_by self.now tag phase }
        ensures ended { result ≡ true → IsEnded phase }
    {
        let slot = &self.tags[usize::from(tag)];
        match phase {
            Phase::Absent | Phase::Gives(_) | Phase::Takes(_) => false,
            Phase::Ended(end) => {
                !slot.tag.has_chunk()
                    && (!in_open(&self.data_in, slot, tag, end)
                        && !out_open(&self.data_out, tag, end))
            }
        }
    }

    /// A step of the data-in pipe for a tag. Refused where a byte of the event's place, of the stream's context or of the TRB isn't
    /// there, and then nothing changes.
    pub(crate) fn step_data_in<M: GuestMemory, D: UasDevice>(
        &mut self,
        memory: &mut M,
        events: &mut EventRing,
        device: &mut D,
        tag: u16,
    ) -> Result<Acted, Outside>
        requires { tag < 241 }
        ensures step { (record { memory = M.contents memory.new; events = events.new; transfers = self.new; device = D.state device.new }, result_ok result)
            ≡ in_stepped D.kind (record { memory = M.contents memory.old; events = events.old; transfers = self.old; device = D.state device.old }) tag }
        ensures same_loan { M.loan memory.new ≡ M.loan memory.old }
    {
        let mut consumer = self.data_in.consumer(tag);
        let slot = &mut self.tags[usize::from(tag)];
        let acted = slot
            .tag
            .step_in(memory, events, &mut consumer, device, tag, &self.data_in);
        self.data_in.keep(tag, &consumer);
        acted
    }

    /// A step of the data-out pipe for a tag. Refused as a step of data-in is.
    pub(crate) fn step_data_out<M: GuestMemory, D: UasDevice>(
        &mut self,
        memory: &mut M,
        events: &mut EventRing,
        device: &mut D,
        tag: u16,
    ) -> Result<Acted, Outside>
        requires { tag < 241 }
        ensures step { (record { memory = M.contents memory.new; events = events.new; transfers = self.new; device = D.state device.new }, result_ok result)
            ≡ out_stepped D.kind (record { memory = M.contents memory.old; events = events.old; transfers = self.old; device = D.state device.old }) tag }
        ensures same_loan { M.loan memory.new ≡ M.loan memory.old }
    {
        let mut consumer = self.data_out.consumer(tag);
        let slot = &mut self.tags[usize::from(tag)];
        let acted = data_out_step(
            memory,
            events,
            &mut consumer,
            &mut slot.taken,
            device,
            tag,
            &self.data_out,
        );
        self.data_out.keep(tag, &consumer);
        acted
    }

    /// A step of the status pipe for a tag. Refused as a step of data-in is.
    pub fn step_status<M: GuestMemory, D: UasDevice>(
        &mut self,
        memory: &mut M,
        events: &mut EventRing,
        device: &mut D,
        tag: u16,
    ) -> Result<Acted, Outside>
        requires { tag < 241 }
        ensures step { (record { memory = M.contents memory.new; events = events.new; transfers = self.new; device = D.state device.new }, result_ok result)
            ≡ status_stepped D.kind (record { memory = M.contents memory.old; events = events.old; transfers = self.old; device = D.state device.old }) tag }
        ensures same_loan { M.loan memory.new ≡ M.loan memory.old }
    {
        let due = self.is_due(tag, device.phase(tag));
        let mut consumer = self.status.consumer(tag);
        let slot = &mut self.tags[usize::from(tag)];
        let acted = slot.tag.step_status(
            memory,
            events,
            &mut consumer,
            device,
            tag,
            due,
            &self.status,
        );
        self.status.keep(tag, &consumer);
        acted
    }

    /// What is kept of the tags once something came of an information unit.
    fn note_received(&mut self, received: Received)
        ensures { self.new ≡ received_on self.old received }
    {
        match received {
            Received::Began(tag) => {
                if usize::from(tag) < TAG_SLOTS {
                    self.tags[usize::from(tag)].begin();
                }
            }
            Received::Overlap(tag) => {
                if usize::from(tag) < TAG_SLOTS {
                    self.tags[usize::from(tag)].overlap();
                }
            }
            Received::Dropped => (),
        }
    }

    /// A step of the command pipe. Refused where a byte of the event's place, of the dequeue pointer or of the TRB isn't there, and then
    /// nothing changes.
    pub fn step_command<M: GuestMemory, D: UasDevice>(
        &mut self,
        memory: &mut M,
        events: &mut EventRing,
        device: &mut D,
    ) -> Result<Acted, Outside>
        ensures step { (record { memory = M.contents memory.new; events = events.new; transfers = self.new; device = D.state device.new }, result_ok result)
            ≡ command_stepped D.kind (record { memory = M.contents memory.old; events = events.old; transfers = self.old; device = D.state device.old }) }
        ensures same_loan { M.loan memory.new ≡ M.loan memory.old }
    {
        let home = Home::Endpoint { at: self.home };
        let (acted, received) = command_step(
            memory,
            events,
            &mut self.command,
            &mut self.gathered,
            device,
            home,
        )?;
        self.note_received(received);
        Ok(acted)
    }
}
