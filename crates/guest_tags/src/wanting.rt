//! What a step of data-in or status lacks, for a caller who copies in what is asked for.
ghost use Rattle.std.specs.Prelude.{◌≡◌, ◌≤◌, length as list_length, true};
ghost use Rattle.guest_pipes.specs.Step.{World};
ghost use Rattle.guest_pipes.specs.Wanted.{step_wanted};
ghost use Rattle.guest_tags.specs.Devices.{IsEnded};
ghost use Rattle.guest_tags.specs.Wanted.{buffer_of, coming_in, coming_status, given_next, moved_part, moving, wanted_in, wanted_status};

use crate::buffer::Buffer;
use crate::device::{Phase, UasDevice};
use crate::tag::Tag;
use crate::unit::Unit;
use guest_memory::rings::{EventRing, Found, Front, PipeTrb, Range, part_wants};
use guest_memory::{GuestMemory, Outside};
use guest_pipes::{Consumer, Pipe, place_range};

/// What a Normal TRB names.
fn buffer_of(found: Found) -> Option<Buffer>
    ensures { result ≡ buffer_of found }
{
    match found {
        Found::Item(
            PipeTrb::Normal {
                pointer,
                length,
                flags,
            },
        ) => Some(Buffer {
            pointer,
            length,
            flags,
        }),
        Found::WrongKind | Found::NotYet | Found::Item(_) => None,
    }
}

/// The buffer in front, of a TD whose bytes move.
pub fn moving(consumer: &Consumer, front: &Front) -> Option<Buffer>
    ensures { result ≡ moving consumer.now front.now }
{
    if consumer.progress.ending.runs() {
        buffer_of(front.found)
    } else {
        None
    }
}

/// The part of the buffer in front that takes so many bytes, or as many as there is room for, where a byte of it isn't there.
fn moved_part<M: GuestMemory>(
    memory: &M,
    consumer: &Consumer,
    coming: usize,
    front: &Front,
) -> Option<Range>
    requires { coming ≤ 65536 }
    ensures { result ≡ moved_part (M.contents memory.now) consumer.now coming (moving consumer.now front.now) }
{
    match moving(consumer, front) {
        None => None,
        Some(buffer) => {
            let moved = consumer.progress.moved;
            let room = buffer.length.saturating_sub(moved);
            part_wants(memory, buffer.pointer, moved, coming.min(room as usize))
        }
    }
}

/// What a step lacks for a stream into which so many bytes are to go next.
fn stream_wants<M: GuestMemory>(
    memory: &M,
    events: &EventRing,
    consumer: &Consumer,
    coming: usize,
    stream: u16,
    pipe: &Pipe,
) -> Option<Range>
    requires { coming ≤ 65536 }
    ensures { result ≡ step_wanted (record { memory = M.contents memory.now; events = events.now; consumer = consumer.now }) pipe.now stream
        (λ front. moved_part (M.contents memory.now) consumer.now coming (moving consumer.now front)) }
{
    match consumer.gate(memory, events) {
        Err(Outside) => Some(place_range(events)),
        Ok(Some(_)) => None,
        Ok(None) => match pipe.front(memory, stream) {
            Err(Outside) => pipe.front_wants(memory, stream),
            Ok(front) => moved_part(memory, consumer, coming, &front),
        },
    }
}

/// How many bytes the device gives next, unless a bad block keeps them.
fn given_next(phase: Phase) -> usize
    ensures { result ≡ given_next phase }
{
    match phase {
        Phase::Gives(count) => count,
        Phase::Absent | Phase::Takes(_) | Phase::Ended(_) => 0,
    }
}

impl Tag {
    /// How many bytes of the task's data come next: what is left of the chunk, or the device's next chunk.
    fn coming_in<D: UasDevice>(&self, device: &D, tag: u16) -> usize
        ensures coming { result ≡ coming_in D.kind self.now (D.state device.now) tag }
        ensures most { result ≤ 4096 }
    {
        if self.has_chunk() {
            self.chunk.held()
        } else {
            given_next(device.phase(tag))
        }
    }

    /// How many bytes of an information unit are left to be sent, of the one on its way or of the next.
    #[tactic(auto, unfolding(crate::specs::Status::overlap_taken, crate::specs::Status::answer_taken))]
    fn coming_status<D: UasDevice>(&self, device: &D, tag: u16, due: bool) -> usize
        requires ended { due ≡ true → IsEnded (D.kind.phase (D.state device.now) tag) }
        ensures coming { (ring : World) → result ≡ coming_status D.kind (record { ring = ring; tag = self.now; device = D.state device.now }) tag due }
        ensures most { result ≤ 65536 }
    {
        if self.has_unit() {
            return self.unit.left();
        }
        let mut unit = Unit::new();
        if self.overlaps != 0 {
            unit.set_overlap(tag);
        } else if due {
            unit.set_answer(device, tag);
        } else {
            return self.unit.left();
        }
        unit.left()
    }

    /// The first range that [`Tag::step_in`] reads or writes of which a byte isn't there. Where the device is to give its next chunk,
    /// room for the whole chunk is asked for, also where a bad block will keep it.
    pub fn wants_in<M: GuestMemory, D: UasDevice>(
        &self,
        memory: &M,
        events: &EventRing,
        consumer: &Consumer,
        device: &D,
        tag: u16,
        pipe: &Pipe,
    ) -> Option<Range>
        ensures { result ≡ wanted_in D.kind (record { ring = record { memory = M.contents memory.now; events = events.now; consumer = consumer.now }; tag = self.now; device = D.state device.now }) tag pipe.now }
    {
        let coming = self.coming_in(device, tag);
        stream_wants(memory, events, consumer, coming, tag, pipe)
    }

    /// The first range that [`Tag::step_status`] reads or writes of which a byte isn't there.
    pub fn wants_status<M: GuestMemory, D: UasDevice>(
        &self,
        memory: &M,
        events: &EventRing,
        consumer: &Consumer,
        device: &D,
        tag: u16,
        due: bool,
        pipe: &Pipe,
    ) -> Option<Range>
        requires ended { due ≡ true → IsEnded (D.kind.phase (D.state device.now) tag) }
        ensures { result ≡ wanted_status D.kind (record { ring = record { memory = M.contents memory.now; events = events.now; consumer = consumer.now }; tag = self.now; device = D.state device.now }) tag due pipe.now }
    {
        let coming = self.coming_status(device, tag, due);
        stream_wants(memory, events, consumer, coming, tag, pipe)
    }
}
