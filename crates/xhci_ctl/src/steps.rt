//! The steps: the front TRB of one ring, its bytes, its event.
ghost use Rattle.std.specs.Prelude.{◌≡◌, ℕ, ◌<◌, ◌≤◌, ◌/◌, ◌%◌, ◌==◌, Option, if◌then◌else◌, None, Some, IfSome, is_some, length, option_map};
ghost use Rattle.std.specs.Option.{option_map_or};
ghost use Rattle.stream_array.specs.Map.{HasRing};
ghost use Rattle.stream_array.specs.Rings.{ring_of};
ghost use Rattle.frame_store.specs.Buffers.{Begins, with_bytes};
ghost use Rattle.uas_target.specs.Device.{answered, gave, given, received, wanted};
ghost use Rattle.uas_target.specs.declared.Phase.{Phase};
ghost use Rattle.uas_iu.specs.Units.{unit_text};
ghost use Rattle.xhci_trb.specs.declared.Trb.{Trb};
ghost use Rattle.xhci_ctl.specs.declared.Acted.TheVariants.{Idle};
ghost use Rattle.xhci_ctl.specs.Own.{IsOwn, IsOwnAnswer, IsOwnCommand, IsOwnCommandFront, IsOwnData, IsOwnDataFront, IsOwnIn, IsOwnOut};
ghost use Rattle.xhci_ctl.specs.Own.{IsOwnStatusFront, IsTakeable, StartsAt, front_of};
ghost use Rattle.xhci_ctl.specs.Steps.{armed_front, began_tag, commanded, completed, consumed, endpoint_of, gave_at, moved, on_front};
ghost use Rattle.xhci_ctl.specs.Steps.{room_front, sent_at, sent_by, sides_of, stepped_over, took_at};

use crate::own::{own, own_command, own_in, own_out};
use crate::{Acted, Controller};
use arrayvec::ArrayVec;
use event_ring::Event;
use frame_store::{Frames, Place};
use stream_array::{Lines, Pipe};
use uas_profile::{
    COMMAND_ENDPOINT, DATA_IN_ENDPOINT, DATA_OUT_ENDPOINT, MOST_EVENTS, SHORT_PACKET, SLOT,
    STATUS_BYTES, STATUS_ENDPOINT, SUCCESS, TRB_ERROR,
};
use uas_target::{Overlap, Phase, Target, Took};
use xhci_trb::{Trb, TrbFlags};

// A TRB in front of a ring that is carried out: its address, and where its bytes begin.
#[derive(Clone, Copy)]
pub(crate) struct OwnFront {
    address: u64,
    trb: Option<Trb>,
    start: Place,
}

impl Controller {
    /// A step of the command pipe. It is due where the pipe's ring has a pending TRB and the event ring has room: the device
    /// receives the bytes that the TRB names, the TRB is consumed, and its event has code Success, also where the device drops
    /// the unit or has a task of its tag. A foreign TRB (specs/Own) is stepped over, and the device receives nothing. Acted on
    /// the tag of the task that began, else on 0.
    pub fn command_step(&self, lines: &mut Lines, frames: &Frames, target: &mut Target) -> Acted
        ensures own { IsOwnCommandFront lines.old frames.now
            → commanded (sides_of lines.old frames.now target.old) ≡ (sides_of lines.new frames.now target.new, result) }
        ensures foreign { (front : ℕ × Option Trb) → room_front lines.old Pipe.Command 0 ≡ Some front → (IsOwnCommand frames.now front.1 → ⊥)
            → stepped_over (sides_of lines.old frames.now target.old) Pipe.Command 0 front.0 0 ≡ (sides_of lines.new frames.now target.new, result) }
        ensures idle { room_front lines.old Pipe.Command 0 ≡ None
            → commanded (sides_of lines.old frames.now target.old) ≡ (sides_of lines.new frames.now target.new, result) }
    {
        let Some((address, trb)) = room_front(lines, Pipe::Command, 0) else {
            return Acted::Idle;
        };
        let Some(start) = own_command(frames, &trb) else {
            complete(lines, Pipe::Command, 0, address, 0, TRB_ERROR);
            return Acted::Acted(0);
        };
        let Some(Trb::Normal { length, .. }) = trb else {
            return Acted::Idle;
        };
        let tag = receive(target, frames.read_at(start, length as usize));
        complete(lines, Pipe::Command, 0, address, 0, SUCCESS);
        Acted::Acted(tag)
    }

    /// A step of a data stream, on the tag that is the stream's number. It is due where the device gives or takes a chunk on the
    /// tag, the data-in or data-out stream is armed, and the event ring has room: the chunk moves between the device and the
    /// bytes that the TRB names, the TRB is consumed, and where it is its TD's last its event has code Success. A chunk that
    /// meets a bad block ends the command; the TRB stays, and there is no event.
    ///
    /// A foreign TRB in front of an armed stream (specs/Own) is stepped over, whatever the device does on the tag: first one of
    /// data-in, then one of data-out, then the chunk.
    pub fn data_step(
        &self,
        lines: &mut Lines,
        frames: &mut Frames,
        target: &mut Target,
        tag: u16,
    ) -> Acted
        ensures own { IsOwnDataFront self.now lines.old frames.old tag (wanted target.old tag)
            → moved self.now (sides_of lines.old frames.old target.old) tag ≡ (sides_of lines.new frames.new target.new, result) }
        ensures foreign_in { (front : ℕ × Option Trb) → armed_front self.now lines.old Pipe.DataIn tag ≡ Some front
            → (IsOwnIn frames.old (wanted target.old tag) front.1 → ⊥)
            → stepped_over (sides_of lines.old frames.old target.old) Pipe.DataIn tag front.0 tag ≡ (sides_of lines.new frames.new target.new, result) }
        ensures foreign_out { (front : ℕ × Option Trb) → armed_front self.now lines.old Pipe.DataOut tag ≡ Some front
            → (IsOwnOut frames.old (wanted target.old tag) front.1 → ⊥)
            → IfSome (armed_front self.now lines.old Pipe.DataIn tag) (λ before. IsOwnIn frames.old (wanted target.old tag) before.1)
            → stepped_over (sides_of lines.old frames.old target.old) Pipe.DataOut tag front.0 tag ≡ (sides_of lines.new frames.new target.new, result) }
    {
        let phase = target.wants(tag);
        let data_in = match self.armed_front(lines, Pipe::DataIn, tag) {
            None => None,
            Some((address, trb)) => {
                let Some(start) = own_in(frames, phase, &trb) else {
                    complete(lines, Pipe::DataIn, tag, address, 0, TRB_ERROR);
                    return Acted::Acted(tag);
                };
                Some(OwnFront {
                    address,
                    trb,
                    start,
                })
            }
        };
        let data_out = match self.armed_front(lines, Pipe::DataOut, tag) {
            None => None,
            Some((address, trb)) => {
                let Some(start) = own_out(frames, phase, &trb) else {
                    complete(lines, Pipe::DataOut, tag, address, 0, TRB_ERROR);
                    return Acted::Acted(tag);
                };
                Some(OwnFront {
                    address,
                    trb,
                    start,
                })
            }
        };
        match phase {
            Phase::Absent | Phase::Ends => Acted::Idle,
            Phase::Gives(size) => give_step(lines, frames, target, tag, size, data_in),
            Phase::Takes(size) => take_step(lines, frames, target, tag, size, data_out),
        }
    }

    /// A step of a status stream, on the tag that is the stream's number. It is due where the device has ended the tag's task,
    /// the stream is armed, and the event ring has room: the unit that answers is written where the TRB points, the TRB is
    /// consumed, and the device is done with the task. The event has code Short Packet, and as residual what a buffer of 112
    /// bytes has left. A foreign TRB in front of the armed stream (specs/Own) is stepped over, whatever the device does on the
    /// tag.
    pub fn status_step(
        &self,
        lines: &mut Lines,
        frames: &mut Frames,
        target: &mut Target,
        tag: u16,
    ) -> Acted
        ensures own { IsOwnStatusFront self.now lines.old frames.old tag (wanted target.old tag) (answered target.old tag)
            → sent_by self.now (sides_of lines.old frames.old target.old) tag ≡ (sides_of lines.new frames.new target.new, result) }
        ensures foreign { (front : ℕ × Option Trb) → armed_front self.now lines.old Pipe.Status tag ≡ Some front
            → (IsOwnAnswer frames.old (wanted target.old tag) (answered target.old tag) front.1 → ⊥)
            → stepped_over (sides_of lines.old frames.old target.old) Pipe.Status tag front.0 tag ≡ (sides_of lines.new frames.new target.new, result) }
    {
        let Some((address, trb)) = self.armed_front(lines, Pipe::Status, tag) else {
            return Acted::Idle;
        };
        let Some(start) = own(frames, &trb) else {
            complete(lines, Pipe::Status, tag, address, 0, TRB_ERROR);
            return Acted::Acted(tag);
        };
        let front = OwnFront {
            address,
            trb,
            start,
        };
        match target.wants(tag) {
            Phase::Ends => send_step(lines, frames, target, tag, front),
            Phase::Absent | Phase::Gives(_) | Phase::Takes(_) => Acted::Idle,
        }
    }

    // What is in front of an armed stream's ring, while the event ring has room.
    #[inline(always)]
    fn armed_front(&self, lines: &Lines, pipe: Pipe, stream: u16) -> Option<(u64, Option<Trb>)>
        ensures front { result ≡ armed_front self.now lines.now pipe stream }
        ensures pending { IfSome result (λ front. IsTakeable lines.now pipe stream front) }
    {
        // A ring with nothing pending has nothing in front, so that needs no test of its own.
        if self.is_open_on(pipe, stream) {
            room_front(lines, pipe, stream)
        } else {
            None
        }
    }
}

// The device gives a chunk of this size to the host, on the TRB in front of the data-in stream.
fn give_step(
    lines: &mut Lines,
    frames: &mut Frames,
    target: &mut Target,
    tag: u16,
    size: usize,
    front: Option<OwnFront>,
) -> Acted
    requires wanted { wanted target.old tag ≡ Phase.Gives size }
    requires pending { IfSome front (λ own. IsTakeable lines.old Pipe.DataIn tag (front_of own)) }
    requires own { IfSome front (λ own. IsOwnData frames.old size own.trb × StartsAt frames.old own.trb own.start) }
    ensures { let sides = sides_of lines.old frames.old target.old in
        on_front sides (gave_at sides tag size) (option_map front_of front) ≡ (sides_of lines.new frames.new target.new, result) }
{
    let Some(
        OwnFront {
            address,
            trb,
            start,
        },
    ) = front
    else {
        return Acted::Idle;
    };
    let Some(Trb::Normal { flags, .. }) = trb else {
        return Acted::Idle;
    };
    if give(frames, target, tag, start, size) {
        complete_chunk(lines, Pipe::DataIn, tag, address, is_chained(flags));
    }
    Acted::Acted(tag)
}

// The device takes a chunk of this size from the host, on the TRB in front of the data-out stream.
fn take_step(
    lines: &mut Lines,
    frames: &Frames,
    target: &mut Target,
    tag: u16,
    size: usize,
    front: Option<OwnFront>,
) -> Acted
    requires wanted { wanted target.old tag ≡ Phase.Takes size }
    requires pending { IfSome front (λ own. IsTakeable lines.old Pipe.DataOut tag (front_of own)) }
    requires own { IfSome front (λ own. IsOwnData frames.now size own.trb × StartsAt frames.now own.trb own.start) }
    ensures { let sides = sides_of lines.old frames.now target.old in
        on_front sides (took_at sides tag size) (option_map front_of front) ≡ (sides_of lines.new frames.now target.new, result) }
{
    let Some(
        OwnFront {
            address,
            trb,
            start,
        },
    ) = front
    else {
        return Acted::Idle;
    };
    let Some(Trb::Normal { flags, .. }) = trb else {
        return Acted::Idle;
    };
    if target.take_chunk(tag, frames.read_at(start, size)) {
        complete_chunk(lines, Pipe::DataOut, tag, address, is_chained(flags));
    }
    Acted::Acted(tag)
}

// The device sends its unit on the TRB in front of the status stream, or steps over one that is too short for it.
fn send_step(
    lines: &mut Lines,
    frames: &mut Frames,
    target: &mut Target,
    tag: u16,
    front: OwnFront,
) -> Acted
    requires wanted { wanted target.old tag ≡ Phase.Ends }
    requires pending { IsTakeable lines.old Pipe.Status tag (front_of front) }
    requires own { IsOwn frames.old front.trb }
    requires start { StartsAt frames.old front.trb front.start }
    ensures own { IsOwnAnswer frames.old Phase.Ends (answered target.old tag) front.trb
        → let sides = sides_of lines.old frames.old target.old in
        option_map_or (λ unit. on_front sides (sent_at sides tag (unit_text unit)) (Some (front_of front))) (answered target.old tag) (sides, Idle)
        ≡ (sides_of lines.new frames.new target.new, result) }
    ensures foreign { (IsOwnAnswer frames.old Phase.Ends (answered target.old tag) front.trb → ⊥)
        → stepped_over (sides_of lines.old frames.old target.old) Pipe.Status tag front.address tag ≡ (sides_of lines.new frames.new target.new, result) }
{
    let OwnFront {
        address,
        trb,
        start,
    } = front;
    let mut text = ArrayVec::new();
    if !target.write_status(tag, &mut text) {
        return Acted::Idle;
    }
    let Some(Trb::Normal { length, .. }) = trb else {
        return Acted::Idle;
    };
    if (length as usize) < text.len() {
        complete(lines, Pipe::Status, tag, address, 0, TRB_ERROR);
        return Acted::Acted(tag);
    }
    frames.write_at(start, &text);
    target.sent(tag);
    let residual = STATUS_BYTES as u32 - text.len() as u32;
    complete(lines, Pipe::Status, tag, address, residual, SHORT_PACKET);
    Acted::Acted(tag)
}

// What is in front of a ring, its address and its TRB, none of foreign bytes, while the event ring has room.
#[tactic(auto, using(crate::proofs::Fronts::front_known, crate::proofs::Fronts::front_raw, crate::proofs::Fronts::front_none))]
#[inline(always)]
fn room_front(lines: &Lines, pipe: Pipe, stream: u16) -> Option<(u64, Option<Trb>)>
    requires { HasRing pipe stream }
    ensures front { result ≡ room_front lines.now pipe stream }
    ensures pending { IfSome result (λ at. IsTakeable lines.now pipe stream at) }
{
    if lines.len() >= MOST_EVENTS {
        return None;
    }
    if let Some((address, trb)) = lines.front(pipe, stream) {
        return Some((address, Some(trb)));
    }
    match lines.front_raw(pipe, stream) {
        Some((address, _)) => Some((address, None)),
        None => None,
    }
}

// Whether CH is set, bit 3 of the flags.
fn is_chained(flags: TrbFlags) -> bool
    ensures { result ≡ (flags.0 / 8 % 2 == 1) }
{
    flags.0 / TrbFlags::CH.0 % 2 == 1
}

const _: () = prove!(TrbFlags::CH.0 == 8);

// Consumes the TRB in front of a ring and posts its event.
#[inline(always)]
fn complete(lines: &mut Lines, pipe: Pipe, stream: u16, address: u64, residual: u32, code: u8)
    requires ring { HasRing pipe stream }
    requires pending { (ring_of lines.old pipe stream).got < length (ring_of lines.old pipe stream).put }
    requires room { length lines.old.events.pending < MOST_EVENTS }
    requires residual { residual ≤ STATUS_BYTES }
    ensures { lines.new ≡ completed lines.old pipe stream address residual code }
{
    lines.advance(pipe, stream);
    let event = Event::Transfer {
        pointer: address,
        residual,
        code,
        endpoint: endpoint_of(pipe),
        slot: SLOT,
    };
    lines.post(event).unwrap();
}

// The device gives a chunk of these bytes. False at a bad block, which leaves them as they were.
#[tactic(auto, using(crate::proofs::Windows::written_back))]
fn give(frames: &mut Frames, target: &mut Target, tag: u16, start: Place, size: usize) -> bool
    requires wanted { wanted target.old tag ≡ Phase.Gives size }
    requires start { Begins frames.old start size }
    ensures good { result ≡ is_some (given target.old tag) }
    ensures frames { frames.new ≡ option_map_or (λ bytes. with_bytes frames.old start bytes) (given target.old tag) frames.old }
    ensures device { target.new ≡ gave target.old tag }
{
    target.give_chunk(tag, frames.window_at(start, size))
}

// Consumes the TRB in front of a data stream, and posts its event where its TD ends with it.
#[inline(always)]
fn complete_chunk(lines: &mut Lines, pipe: Pipe, stream: u16, address: u64, chain: bool)
    requires ring { HasRing pipe stream }
    requires pending { (ring_of lines.old pipe stream).got < length (ring_of lines.old pipe stream).put }
    requires room { length lines.old.events.pending < MOST_EVENTS }
    ensures { lines.new ≡ (if chain then consumed lines.old pipe stream else completed lines.old pipe stream address 0 SUCCESS) }
{
    if chain {
        lines.advance(pipe, stream);
    } else {
        complete(lines, pipe, stream, address, 0, SUCCESS);
    }
}

// The device receives these bytes: the tag of the task that began, else 0.
fn receive(target: &mut Target, bytes: &[u8]) -> u16
    ensures device { target.new ≡ (received target.old bytes.now).0 }
    ensures tag { result ≡ began_tag (received target.old bytes.now).1 }
{
    match target.receive(bytes) {
        Ok(Took::Began(tag)) => tag,
        Ok(Took::Dropped) => 0,
        Err(Overlap) => 0,
    }
}

fn endpoint_of(pipe: Pipe) -> u8
    ensures endpoint { result ≡ endpoint_of pipe }
    ensures fits { result < 32 }
{
    match pipe {
        Pipe::Command => COMMAND_ENDPOINT,
        Pipe::Status => STATUS_ENDPOINT,
        Pipe::DataIn => DATA_IN_ENDPOINT,
        Pipe::DataOut => DATA_OUT_ENDPOINT,
    }
}
