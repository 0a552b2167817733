//! What a step lacks, for a caller who copies in what is asked for.
ghost use Rattle.std.specs.Prelude.{◌≡◌, ◌≤◌, ◌-◌, length as list_length};
ghost use Rattle.guest_memory.specs.declared.rings.wanting.Range.{Range};
ghost use Rattle.guest_pipes.specs.Step.{World};
ghost use Rattle.guest_out.specs.Wanted.{drawn_part, taken_next};
ghost use Rattle.guest_tags.specs.Wanted.{moved_part, moving};
ghost use Rattle.guest_bulk.specs.Commands.{BulkWorld};
ghost use Rattle.guest_bulk.specs.Wanted.{coming_beside, coming_by, coming_data, coming_told, given_next, in_part, in_wanted, out_part, out_part_by, out_wanted, taken_data, told_next};

use crate::bulk::{Bulk, BulkCommand, BulkStage};
use crate::command::{BULK_TAG, MOST_GATHERED};
use crate::pouring::ZERO_BYTES;
use bulk_only::CSW_BYTES;
use guest_memory::rings::{EventRing, Front, Home, Range, look, look_wants, part_wants};
use guest_memory::{GuestMemory, Outside};
use guest_out::is_immediate;
use guest_pipes::{Consumer, place_range};
use guest_tags::{Buffer, Phase, UasDevice, moving};

/// How many bytes the device gives next; once it has ended, zeros.
fn given_next(phase: Phase) -> usize
    ensures { result ≡ given_next phase }
{
    match phase {
        Phase::Gives(count) => count,
        Phase::Absent | Phase::Takes(_) => 0,
        Phase::Ended(_) => ZERO_BYTES,
    }
}

/// How many bytes it takes next.
fn taken_next(phase: Phase) -> usize
    ensures { result ≡ taken_next phase }
{
    match phase {
        Phase::Takes(count) => count,
        Phase::Absent | Phase::Gives(_) | Phase::Ended(_) => 0,
    }
}

/// How many bytes of a CSW there are, once what it does is known.
fn told_next(phase: Phase) -> usize
    ensures told { result ≡ told_next phase }
    ensures most { result ≤ 13 }
{
    match phase {
        Phase::Absent => 0,
        Phase::Gives(_) | Phase::Takes(_) | Phase::Ended(_) => CSW_BYTES,
    }
}

/// So many bytes of a buffer behind those that were moved, where a byte of them isn't there; None where they are in the TRB itself.
fn drawn_part<M: GuestMemory>(memory: &M, buffer: Buffer, moved: u32, count: usize) -> Option<Range>
    requires { count ≤ 65536 }
    ensures { result ≡ drawn_part (M.contents memory.now) buffer moved count }
{
    if is_immediate(buffer) {
        return None;
    }
    part_wants(memory, buffer.pointer, moved, count)
}

/// The part of a buffer that takes so many bytes, or as many as there is room for, where a byte of it isn't there.
fn moved_part<M: GuestMemory>(
    memory: &M,
    consumer: &Consumer,
    coming: usize,
    buffer: Option<Buffer>,
) -> Option<Range>
    requires { coming ≤ 65536 }
    ensures { result ≡ moved_part (M.contents memory.now) consumer.now coming buffer }
{
    match buffer {
        None => None,
        Some(buffer) => {
            let moved = consumer.progress.moved;
            let room = buffer.length.saturating_sub(moved);
            part_wants(memory, buffer.pointer, moved, coming.min(room as usize))
        }
    }
}

impl Bulk {
    /// How many bytes of a command's data come next.
    fn coming_data<D: UasDevice>(&self, device: &D, command: BulkCommand) -> usize
        ensures coming { result ≡ coming_data D.kind self.now (D.state device.now) command }
        ensures most { result ≤ 4096 }
    {
        if self.has_chunk() {
            self.chunk.held()
        } else if command.is_kept {
            ZERO_BYTES
        } else {
            given_next(device.phase(BULK_TAG))
        }
    }

    /// How many bytes of the CSW of a command come next.
    fn coming_told<D: UasDevice>(&self, device: &D, command: BulkCommand) -> usize
        ensures coming { result ≡ coming_told D.kind self.now (D.state device.now) command }
        ensures most { result ≤ 13 }
    {
        if self.has_chunk() || command.is_kept {
            CSW_BYTES
        } else {
            told_next(device.phase(BULK_TAG))
        }
    }

    /// The same where no data go to the host, and the TD in front has some or not.
    fn coming_beside<D: UasDevice>(&self, fed: bool, device: &D, command: BulkCommand) -> usize
        ensures coming { result ≡ coming_beside D.kind fed self.now (D.state device.now) command }
        ensures most { result ≤ 13 }
    {
        if command.takes_bytes() || fed {
            0
        } else {
            self.coming_told(device, command)
        }
    }

    /// How many bytes go into the TRB in front of Bulk-In next, whose TD has some or not.
    fn coming_in<D: UasDevice>(&self, fed: bool, device: &D) -> usize
        ensures coming { result ≡ coming_by D.kind self.now.stage fed self.now (D.state device.now) }
        ensures most { result ≤ 4096 }
    {
        match self.stage {
            BulkStage::Awaits | BulkStage::Faulty => 0,
            BulkStage::Moves { command } => if command.gives_bytes() {
                self.coming_data(device, command).min(command.left as usize)
            } else {
                self.coming_beside(fed, device, command)
            },
            BulkStage::Tells { sent, .. } => if sent == 0 && fed {
                0
            } else {
                CSW_BYTES.saturating_sub(sent)
            },
        }
    }

    /// The part of the buffer in front of Bulk-In that the next bytes go to, where a byte of it isn't there; none where the endpoint
    /// isn't served.
    fn in_part<M: GuestMemory, D: UasDevice>(
        &self,
        memory: &M,
        events: &EventRing,
        consumer: &Consumer,
        device: &D,
        fault: Option<u8>,
        front: &Front,
    ) -> Option<Range>
        ensures { result ≡ in_part D.kind fault (record { ring = record { memory = M.contents memory.now; events = events.now; consumer = consumer.now }; bulk = self.now; device = D.state device.now }) front.now }
    {
        match fault {
            Some(_) => None,
            None => {
                let coming = self.coming_in(consumer.progress.fed, device);
                moved_part(memory, consumer, coming, moving(consumer, front))
            }
        }
    }

    /// The first range that [`Bulk::step_in`] reads or writes of which a byte isn't there. Where the device is to give its next chunk, room for
    /// the whole chunk is asked for, also where a bad block will keep it.
    pub fn wants_in<M: GuestMemory, D: UasDevice>(
        &self,
        memory: &M,
        events: &EventRing,
        consumer: &Consumer,
        device: &D,
        fault: Option<u8>,
        home: Home,
    ) -> Option<Range>
        ensures { result ≡ in_wanted D.kind fault (record { ring = record { memory = M.contents memory.now; events = events.now; consumer = consumer.now }; bulk = self.now; device = D.state device.now }) home }
    {
        match consumer.gate(memory, events) {
            Err(Outside) => Some(place_range(events)),
            Ok(Some(_)) => None,
            Ok(None) => match look(memory, home) {
                Err(Outside) => look_wants(memory, home),
                Ok(front) => self.in_part(memory, events, consumer, device, fault, &front),
            },
        }
    }

    /// How many bytes are gathered for a chunk where a TRB has so many.
    fn taken_data<D: UasDevice>(&self, device: &D, command: BulkCommand, room: u32) -> usize
        ensures taken { result ≡ taken_data D.kind self.now (D.state device.now) command room }
        ensures most { result ≤ 4096 }
    {
        if self.has_chunk() || command.is_kept {
            return 0;
        }
        let lacking = taken_next(device.phase(BULK_TAG)).saturating_sub(self.taken.held());
        lacking.min(room as usize).min(command.left as usize)
    }

    /// The part of a buffer of Bulk-Out that is read, where a byte of it isn't there.
    fn out_part_of<M: GuestMemory, D: UasDevice>(
        &self,
        memory: &M,
        events: &EventRing,
        consumer: &Consumer,
        device: &D,
        buffer: Option<Buffer>,
    ) -> Option<Range>
        ensures { result ≡ out_part_by D.kind self.now.stage (record { ring = record { memory = M.contents memory.now; events = events.now; consumer = consumer.now }; bulk = self.now; device = D.state device.now }) buffer }
    {
        let buffer = buffer?;
        match self.stage {
            BulkStage::Awaits => if consumer.progress.fed {
                None
            } else {
                let count = (buffer.length as usize).min(MOST_GATHERED.saturating_sub(
                    self.taken.held(),
                ));
                drawn_part(memory, buffer, 0, count)
            },
            BulkStage::Moves { command } => if command.takes_bytes() {
                let moved = consumer.progress.moved;
                let room = buffer.length.saturating_sub(moved);
                let count = self.taken_data(device, command, room);
                drawn_part(memory, buffer, moved, count)
            } else {
                None
            },
            BulkStage::Faulty | BulkStage::Tells { .. } => None,
        }
    }

    /// The part of the buffer in front of Bulk-Out that is read, where a byte of it isn't there; none where the endpoint isn't served.
    fn out_part<M: GuestMemory, D: UasDevice>(
        &self,
        memory: &M,
        events: &EventRing,
        consumer: &Consumer,
        device: &D,
        fault: Option<u8>,
        front: &Front,
    ) -> Option<Range>
        ensures { result ≡ out_part D.kind fault (record { ring = record { memory = M.contents memory.now; events = events.now; consumer = consumer.now }; bulk = self.now; device = D.state device.now }) front.now }
    {
        match fault {
            Some(_) => None,
            None => { self.out_part_of(memory, events, consumer, device, moving(consumer, front)) }
        }
    }

    /// The first range that [`Bulk::step_out`] reads or writes of which a byte isn't there.
    pub fn wants_out<M: GuestMemory, D: UasDevice>(
        &self,
        memory: &M,
        events: &EventRing,
        consumer: &Consumer,
        device: &D,
        fault: Option<u8>,
        home: Home,
    ) -> Option<Range>
        ensures { result ≡ out_wanted D.kind fault (record { ring = record { memory = M.contents memory.now; events = events.now; consumer = consumer.now }; bulk = self.now; device = D.state device.now }) home }
    {
        match consumer.gate(memory, events) {
            Err(Outside) => Some(place_range(events)),
            Ok(Some(_)) => None,
            Ok(None) => match look(memory, home) {
                Err(Outside) => look_wants(memory, home),
                Ok(front) => self.out_part(memory, events, consumer, device, fault, &front),
            },
        }
    }
}
