//! A packet of a bulk endpoint: a command, or a transfer of one of the three pipes with streams.
ghost use Rattle.std.specs.Prelude.{◌≡◌, ◌≤◌, true, length, slice_index, take, vec_capacity};
ghost use Rattle.uas_profile.specs.declared.TheConstants.{STATUS_BYTES};
ghost use Rattle.uas_profile.specs.Pipes.{HasStreams};
ghost use Rattle.uas_target.specs.Fields.{tag_in};
ghost use Rattle.usb_disk.specs.Descriptors.{address_of};
ghost use Rattle.usb_disk.specs.Requests.{pipe_at};
ghost use Rattle.usb_places.specs.declared.TheConstants.{MOST_TRANSFER_BYTES};
ghost use Rattle.usb_tags.specs.Bulk.{bulk_answered, bulk_received, bulk_told, command_begun, command_received, data_kept, forgot_by_unit, is_begun};
ghost use Rattle.usb_tags.specs.Bulk.{is_management, is_place, is_too_long, new_transfer, on_pipe, rest_of, told_again, transfer_of, transfer_received};

use crate::device::MOST_STREAMS;
use crate::{Answer, AnswerData, Rest, Sending, UsbTags};
use arrayvec::ArrayVec;
use uas_iu::{ABORT_TASK, LOGICAL_UNIT_RESET, TASK_ID, read};
use uas_profile::{Pipe, STATUS_BYTES};
use uas_target::{Overlap, Took};
use usb_places::{Kept, MOST_TRANSFER_BYTES, Places, Transfer};
use usbredir::{BulkAnswer, BulkRequest, DevicePacket, Status};

/// So many bytes of a command are read.
const MOST_UNIT_BYTES: usize = 1024;

impl UsbTags {
    /// The first rule that holds: the endpoint isn't there, or the device isn't configured; the endpoint is halted; what the pipe says.
    #[tactic(auto, unfolding(crate::specs::Bulk::bulk_received))]
    pub(crate) fn receive_bulk(&mut self, id: u64, request: &BulkRequest, bytes: &mut Vec<u8>)
        requires room { MOST_TRANSFER_BYTES ≤ vec_capacity bytes.old }
        requires most { length bytes.old.items ≤ MOST_TRANSFER_BYTES }
        ensures device { self.new ≡ bulk_received self.old id request.now bytes.old.items }
        ensures again { MOST_TRANSFER_BYTES ≤ vec_capacity bytes.new }
    {
        match pipe_at(request.endpoint) {
            Some(pipe) if self.disk.configured => self.receive_at(id, request, bytes, pipe),
            _ => self.answer_bulk(id, request, Status::Invalid, 0, AnswerData::Nothing),
        }
    }

    #[tactic(auto, unfolding(crate::specs::Bulk::on_pipe))]
    fn receive_at(&mut self, id: u64, request: &BulkRequest, bytes: &mut Vec<u8>, pipe: Pipe)
        requires room { MOST_TRANSFER_BYTES ≤ vec_capacity bytes.old }
        requires most { length bytes.old.items ≤ MOST_TRANSFER_BYTES }
        ensures device { self.new ≡ on_pipe self.old id request.now bytes.old.items pipe }
        ensures again { MOST_TRANSFER_BYTES ≤ vec_capacity bytes.new }
    {
        if self.disk.halts.has(pipe) {
            self.answer_bulk(id, request, Status::Stall, 0, AnswerData::Nothing);
            return;
        }
        match pipe {
            Pipe::Command => self.receive_command(id, request, front(bytes)),
            Pipe::Status | Pipe::DataIn | Pipe::DataOut => {
                self.receive_transfer(id, request, bytes, pipe)
            }
        }
    }

    /// This answer is to be sent.
    pub(crate) fn answer_bulk(
        &mut self,
        id: u64,
        request: &BulkRequest,
        status: Status,
        moved: u32,
        body: AnswerData,
    )
        ensures { self.new ≡ bulk_answered self.old id request.now status moved body }
    {
        let answer = bulk_told(id, request.endpoint, request.stream, status, moved, body);
        self.sending = Sending::Last(answer);
    }

    /// A command that is told again isn't received.
    #[tactic(auto, unfolding(crate::specs::Bulk::command_received))]
    fn receive_command(&mut self, id: u64, request: &BulkRequest, unit: &[u8])
        ensures { self.new ≡ command_received self.old id request.now unit.now }
    {
        let tag = tag_of(unit);
        match self
            .places
            .lost_command(tag, transfer_of(id, request), unit)
        {
            Some(kept) => self.tell_again(id, request, Pipe::Command, tag, kept),
            None => {
                self.answer_bulk(
                    id,
                    request,
                    Status::Success,
                    request.length,
                    AnswerData::Nothing,
                );
                if unit.len() >= 4 && is_place(u32::from(tag)) {
                    self.begin_command(transfer_of(id, request), unit, tag);
                }
            }
        }
    }

    /// Its answer is kept, and the device has it.
    fn begin_command(&mut self, transfer: Transfer, unit: &[u8], tag: u16)
        ensures { self.new ≡ command_begun self.old transfer unit.now tag }
    {
        forget_by_unit(&mut self.places, unit);
        self.places
            .keep_command(tag, transfer, transfer.length, unit);
        let took = self.tasks.receive(unit);
        self.rest = rest_of(tag, took);
    }

    /// An answer that was lost is sent again.
    fn tell_again(&mut self, id: u64, request: &BulkRequest, pipe: Pipe, tag: u16, kept: Kept)
        ensures { self.new ≡ told_again self.old id request.now pipe tag kept }
    {
        self.places.tell_again(pipe, tag);
        let body = self.data_kept(pipe, tag);
        self.answer_bulk(id, request, kept.status, kept.moved, body);
    }

    /// The data of a kept answer.
    fn data_kept(&self, pipe: Pipe, tag: u16) -> AnswerData
        ensures { result ≡ data_kept self.now pipe tag }
    {
        match pipe {
            Pipe::Command | Pipe::DataOut => AnswerData::Nothing,
            Pipe::Status => AnswerData::Unit(text_of(self.places.unit(tag))),
            Pipe::DataIn => AnswerData::Given(tag),
        }
    }

    #[tactic(auto, unfolding(crate::specs::Bulk::transfer_received))]
    fn receive_transfer(&mut self, id: u64, request: &BulkRequest, bytes: &mut Vec<u8>, pipe: Pipe)
        requires streams { HasStreams pipe }
        requires room { MOST_TRANSFER_BYTES ≤ vec_capacity bytes.old }
        requires most { length bytes.old.items ≤ MOST_TRANSFER_BYTES }
        ensures device { self.new ≡ transfer_received self.old id request.now bytes.old.items pipe }
        ensures again { MOST_TRANSFER_BYTES ≤ vec_capacity bytes.new }
    {
        if !is_place(request.stream) {
            self.answer_bulk(id, request, Status::Stall, 0, AnswerData::Nothing);
            return;
        }
        let tag = request.stream as u16;
        match self.places.lost_answer(pipe, tag, transfer_of(id, request)) {
            Some(kept) => self.tell_again(id, request, pipe, tag, kept),
            None => self.receive_new(id, request, bytes, pipe, tag),
        }
    }

    /// A transfer that isn't told again: it is held where it has bytes.
    fn receive_new(
        &mut self,
        id: u64,
        request: &BulkRequest,
        bytes: &mut Vec<u8>,
        pipe: Pipe,
        tag: u16,
    )
        requires streams { HasStreams pipe }
        requires tag { is_place tag ≡ true }
        requires room { MOST_TRANSFER_BYTES ≤ vec_capacity bytes.old }
        requires most { length bytes.old.items ≤ MOST_TRANSFER_BYTES }
        ensures device { self.new ≡ new_transfer self.old id request.now bytes.old.items pipe tag }
        ensures again { MOST_TRANSFER_BYTES ≤ vec_capacity bytes.new }
    {
        if is_too_long(pipe, request.length)
            || self.places.held(pipe, tag).is_some()
            || is_begun(&self.places, pipe, tag)
        {
            self.answer_bulk(id, request, Status::Stall, 0, AnswerData::Nothing);
        } else if request.length == 0 {
            self.places.come(pipe, tag);
            self.answer_bulk(id, request, Status::Success, 0, AnswerData::Nothing);
        } else {
            self.places.hold(pipe, tag, transfer_of(id, request), bytes);
            self.rest = Rest::Serves(tag);
        }
    }
}

/// The pipe whose endpoint has this address.
fn pipe_at(address: u8) -> Option<Pipe>
    ensures { result ≡ pipe_at address }
{
    match address {
        0x01 => Some(Pipe::Command),
        0x02 => Some(Pipe::DataOut),
        0x81 => Some(Pipe::Status),
        0x82 => Some(Pipe::DataIn),
        _ => None,
    }
}

/// The address of a pipe's endpoint.
pub(crate) fn address_of(pipe: Pipe) -> u8
    ensures { result ≡ address_of pipe }
{
    match pipe {
        Pipe::Command => 0x01,
        Pipe::DataOut => 0x02,
        Pipe::Status => 0x81,
        Pipe::DataIn => 0x82,
    }
}

/// Whether there is a place of this stream.
fn is_place(stream: u32) -> bool
    ensures { result ≡ is_place stream }
{
    stream != 0 && stream <= MOST_STREAMS
}

fn is_too_long(pipe: Pipe, length: u32) -> bool
    ensures { result ≡ is_too_long pipe length }
{
    match pipe {
        Pipe::DataOut => length as usize > MOST_TRANSFER_BYTES,
        Pipe::Command | Pipe::Status | Pipe::DataIn => false,
    }
}

/// Whether a data-in of the tag has begun to use the room that a data-out needs.
fn is_begun(places: &Places, pipe: Pipe, tag: u16) -> bool
    ensures { result ≡ is_begun places.now pipe tag }
{
    match pipe {
        Pipe::DataOut => {
            places.held(Pipe::DataIn, tag).is_some() && !places.given(tag).is_empty()
        }
        Pipe::Command | Pipe::Status | Pipe::DataIn => false,
    }
}

fn transfer_of(id: u64, request: &BulkRequest) -> Transfer
    ensures { result ≡ transfer_of id request.now }
{
    Transfer {
        id,
        length: request.length,
    }
}

/// An answer of a bulk endpoint.
pub(crate) fn bulk_told(
    id: u64,
    endpoint: u8,
    stream: u32,
    status: Status,
    moved: u32,
    body: AnswerData,
) -> Answer
    ensures { result ≡ bulk_told id endpoint stream status moved body }
{
    let packet = DevicePacket::Bulk(BulkAnswer {
        endpoint,
        status,
        length: moved,
        stream,
    });
    Answer { id, packet, body }
}

/// The bytes of a command that are read.
#[tactic(auto, using(std::proofs::lemmas::List::take_min))]
fn front(bytes: &[u8]) -> &[u8]
    ensures { result.now ≡ take 1024 bytes.now }
{
    &bytes[..MOST_UNIT_BYTES.min(bytes.len())]
}

/// The byte at a place, 0 where there is none.
fn byte_at(bytes: &[u8], place: usize) -> u8
    ensures { result ≡ slice_index bytes.now place }
{
    match bytes.get(place) {
        Some(byte) => *byte,
        None => 0,
    }
}

/// The tag in bytes 2 and 3.
fn tag_of(unit: &[u8]) -> u16
    ensures { result ≡ tag_in unit.now }
{
    256 * u16::from(byte_at(unit, 2)) + u16::from(byte_at(unit, 3))
}

/// Whether a unit is a Task Management unit.
fn is_management(unit: &[u8]) -> bool
    ensures { result ≡ is_management unit.now }
{
    byte_at(unit, 0) == TASK_ID && read(unit).is_ok()
}

/// An ABORT TASK forgets the answers of the tag that it names, a LOGICAL UNIT RESET all.
fn forget_by_unit(places: &mut Places, unit: &[u8])
    ensures { places.new ≡ forgot_by_unit places.old unit.now }
{
    if !is_management(unit) {
        return;
    }
    match byte_at(unit, 4) {
        ABORT_TASK => {
            places.forget_tag(256 * u16::from(byte_at(unit, 6)) + u16::from(byte_at(unit, 7)))
        }
        LOGICAL_UNIT_RESET => places.forget_all(),
        _ => (),
    }
}

fn rest_of(tag: u16, took: Result<Took, Overlap>) -> Rest
    ensures { result ≡ rest_of tag took }
{
    match took {
        Ok(_) => Rest::Serves(tag),
        Err(Overlap) => Rest::Overlaps(tag),
    }
}

/// A unit that is kept.
fn text_of(unit: &[u8]) -> ArrayVec<u8, STATUS_BYTES>
    requires { length unit.now ≤ STATUS_BYTES }
    ensures { result ≡ record { items = unit.now } }
{
    let mut text = ArrayVec::new();
    text.try_extend_from_slice(unit).unwrap();
    text
}
