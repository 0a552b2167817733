//! The calls of a session.
ghost use Rattle.std.specs.Prelude.{◌≡◌, ◌≤◌, ◌%◌, IfOk, IsSome, length, true, vec_capacity};
ghost use Rattle.std.specs.Option.{option_copied};
ghost use Rattle.uas_profile.specs.declared.TheConstants.{MAX_UNITS};
ghost use Rattle.uas_tasks.specs.Machine.{bytes_out, passing};
ghost use Rattle.usb_places.specs.declared.TheConstants.{MOST_TRANSFER_BYTES};
ghost use Rattle.usb_places.specs.Places.{given_at, room_at};
ghost use Rattle.usb_tags.specs.Calls.{answered, cancel_told, cancelled, cancelled_next, next_of, opening, passes, received, rested};

use crate::bulk::{address_of, bulk_told};
use crate::device::told;
use crate::fixed::{endpoint_info, interface_info};
use crate::{Answer, AnswerData, Next, Rest, Sending, UsbTags};
use host_commands::{CommandSet, LogicalUnitShape};
use std::alloc::{AllocError, Global};
use std::mem::replace;
use uas_profile::Pipe;
use uas_tasks::{AnswerFault, Outcome, Tasks};
use usb_disk::{UsbDisk, UsbStrings};
use usb_places::Places;
use usbredir::{DevicePacket, GuestPacket, Status};

/// The numbers of requests have this many places for tags.
const NUMBER_TAGS: u64 = 256;

impl UsbTags {
    /// A disk of these logical units, at most 15, and with these strings, as one that was powered on: not configured, with nothing held.
    /// The error is want of memory; no later call takes any.
    pub fn new(
        alloc: Global,
        shapes: &[LogicalUnitShape],
        set: CommandSet,
        strings: UsbStrings,
        chunk: u16,
    ) -> Result<UsbTags, AllocError>
        requires units { length shapes.now ≤ MAX_UNITS }
        requires some { 1 ≤ chunk }
        requires most { chunk ≤ 128 }
        ensures { IfOk result (λ device. device ≡ opening shapes.now set strings chunk) }
    {
        let mut tasks = Tasks::new(alloc, shapes, set, chunk)?;
        tasks.power_on();
        Ok(UsbTags {
            disk: UsbDisk::named(strings),
            tasks,
            places: Places::new(alloc)?,
            sending: Sending::Nothing,
            rest: Rest::Nothing,
        })
    }

    /// A packet came, with this id: what it changes is done, and [`UsbTags::next`] says what is left. `data` are the bytes of a bulk
    /// packet, of a command at least its first 1,024; those of a data-out that is held are taken.
    pub fn receive(&mut self, id: u64, packet: &GuestPacket, bytes: &mut Vec<u8>)
        requires room { MOST_TRANSFER_BYTES ≤ vec_capacity bytes.old }
        requires most { length bytes.old.items ≤ MOST_TRANSFER_BYTES }
        ensures device { self.new ≡ received self.old id packet.now bytes.old.items }
        ensures again { MOST_TRANSFER_BYTES ≤ vec_capacity bytes.new }
    {
        self.sending = Sending::Nothing;
        self.rest = Rest::Nothing;
        match packet {
            GuestPacket::Reset => self.reset(),
            GuestPacket::SetConfiguration { value } => self.set_configuration(id, *value),
            GuestPacket::GetConfiguration => self.get_configuration(id),
            GuestPacket::SetAltSetting { interface, setting } => {
                self.set_alt_setting(id, *interface, *setting)
            }
            GuestPacket::GetAltSetting { interface } => self.get_alt_setting(id, *interface),
            GuestPacket::AllocBulkStreams { endpoints, streams } => {
                self.alloc_streams(id, *endpoints, *streams)
            }
            GuestPacket::FreeBulkStreams { endpoints } => self.free_streams(id, *endpoints),
            GuestPacket::CancelDataPacket => self.cancel(id),
            GuestPacket::FilterReject | GuestPacket::FilterFilter => (),
            GuestPacket::Control(request) => self.control(id, request),
            GuestPacket::Bulk(request) => self.receive_bulk(id, request, bytes),
        }
    }

    /// The transfers that are held under this id go, one after the other; where none is, the answers that are kept under it are lost.
    fn cancel(&mut self, id: u64)
        ensures { self.new ≡ cancelled self.old id }
    {
        match self.places.cancel_one(id) {
            Some((pipe, tag)) => {
                self.sending = Sending::Last(cancel_told(id, pipe, tag));
                self.rest = Rest::Cancels(id);
            }
            None => self.places.lose(id),
        }
    }

    /// What is to be done next for the last packet. `Quiet` changes nothing.
    #[tactic(auto, unfolding(crate::specs::Calls::next_of))]
    pub fn next(&mut self) -> Next
        ensures { (self.new, result) ≡ next_of self.old }
    {
        match replace(&mut self.sending, Sending::Nothing) {
            Sending::Nothing => self.go_on(),
            Sending::Last(answer) => Next::Sends(answer),
            Sending::Endpoints(answer) => {
                self.sending = Sending::Last(answer);
                Next::Sends(told(0, DevicePacket::EndpointInfo(endpoint_info())))
            }
            Sending::Interfaces(answer) => {
                self.sending = Sending::Endpoints(answer);
                Next::Sends(told(0, DevicePacket::InterfaceInfo(interface_info())))
            }
        }
    }

    /// What is to be done once all is sent.
    fn go_on(&mut self) -> Next
        ensures { (self.new, result) ≡ rested self.old }
    {
        match self.rest {
            Rest::Nothing => Next::Quiet,
            Rest::Cancels(id) => self.cancel_next(id),
            Rest::Overlaps(tag) => self.overlap(tag),
            Rest::Serves(tag) => self.serve(tag),
        }
    }

    fn cancel_next(&mut self, id: u64) -> Next
        ensures { (self.new, result) ≡ cancelled_next self.old id }
    {
        match self.places.cancel_one(id) {
            Some((pipe, tag)) => Next::Sends(cancel_told(id, pipe, tag)),
            None => Next::Quiet,
        }
    }

    /// The bytes of the blocks of a Write or a Compare, while it is out; of another request there is nothing in them to read.
    pub fn request_bytes(&self, number: u64) -> Option<&[u8]>
        ensures { option_copied result ≡ bytes_out self.now.tasks number }
    {
        self.tasks.request_bytes(number)
    }

    /// The request of a number is answered; `bytes` are those of its blocks where a Read is done, and nothing otherwise. Refused, and
    /// nothing changes, as [`Tasks::answered`] says. Where a held data-in has room for all of them they go straight into it.
    pub fn answered(
        &mut self,
        number: u64,
        outcome: Outcome,
        bytes: &[u8],
    ) -> Result<(), AnswerFault>
        ensures { (self.new, result) ≡ answered self.old number outcome bytes.now }
    {
        if self.passes(number, outcome, bytes.len()) {
            self.tasks.pass(number);
            self.places.append((number % NUMBER_TAGS) as u16, bytes);
            return Ok(());
        }
        self.tasks.answered(number, outcome, bytes)
    }

    fn passes(&self, number: u64, outcome: Outcome, size: usize) -> bool
        ensures passes { result ≡ passes self.now number outcome size }
        ensures some { result ≡ true → IsSome (passing self.now.tasks number) }
        ensures room { result ≡ true → size ≤ room_at self.now.places (number % 256) }
    {
        match self.tasks.passing(number) {
            Some(brought) => {
                matches!(outcome, Outcome::Done)
                    && brought == size
                    && size <= self.places.room((number % NUMBER_TAGS) as u16)
            }
            None => false,
        }
    }

    /// The bytes that a tag was given ([`AnswerData::Given`]), until the next packet.
    pub fn given(&self, tag: u16) -> &[u8]
        ensures bytes { result.now ≡ given_at self.now.places tag }
        ensures most { length result.now ≤ MOST_TRANSFER_BYTES }
    {
        self.places.given(tag)
    }
}

/// A transfer that was held is cancelled.
fn cancel_told(id: u64, pipe: Pipe, tag: u16) -> Answer
    ensures { result ≡ cancel_told id pipe tag }
{
    bulk_told(
        id,
        address_of(pipe),
        u32::from(tag),
        Status::Cancelled,
        0,
        AnswerData::Nothing,
    )
}
