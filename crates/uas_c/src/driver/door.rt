//! The driver's door, what its numbers name, and what is told by it.
ghost use Rattle.std.specs.Prelude.{◌≡◌, ◌==◌, false};
ghost use Rattle.c_common.specs.declared.faults.TheConstants.{NO_MEMORY};
ghost use Rattle.uas_c.specs.DriverCall.{driver_call, driver_refusal, endpoint_numbered, event_named, state_numbered, with_answer, with_doorbells, with_next};
ghost use Rattle.uas_c.specs.DriverCall.{with_taken, with_wanted};

use crate::client::client_fault;
use crate::driver::answer::ToldAnswer;
use arrayvec::ArrayVec;
use c_common::UasOperation;
use c_common::faults::{CLIENT_TICKET, DRIVER_ADDRESS, DRIVER_RING, DRIVER_ROOM};
use event_ring::Event;
use stream_array::Pipe;
use uas_driver::{EndpointState, Refusal, Taken};
use uas_iu::MAX_SENSE_BYTES;
use uas_profile::STREAM_ENTRIES;

/// What a call of the driver asks and answers. C writes `call` and what that call reads; the call writes what it answers.
#[repr(C)]
#[derive(Clone, Copy)]
pub struct UasDriverDoor {
    /// Of SUBMIT and TASK, below 2^60. Out of REPLY.
    pub ticket: u64,
    /// Of READ, WRITE and ITEM. Of EVENT: the TRB that the event is about. Out of STRAYS: how many.
    pub address: u64,
    /// Of SUBMIT.
    pub operation: UasOperation,
    /// Of SUBMIT, TASK, REPLY and GIVE_UP.
    pub client: u32,
    /// Of EVENT: bytes that weren't moved. Out of REPLY: bytes of its buffer.
    pub length: u32,
    /// Of SUBMIT, ABORT TASK, QUERY TASK, RETIRE, LEFT_OVER and GIVE_UP. Out of LEFT_OVER and EVENT, where there is one, and of REPLY.
    pub tag: u16,
    /// Of CONTEXT.
    pub stream: u16,
    /// Out of SUBMIT, TASK, RETIRE, EVENT, GIVE_UP and STATE: how many doorbells are to be written.
    pub doorbells: u16,
    /// The call, 1 to 14.
    pub call: u8,
    /// Of RETIRE, LEFT_OVER, CONTEXT and STATE: 1 status, 2 data in, 3 data out; of STATE and out of WANTED, where there is one, 4 the
    /// command pipe too.
    pub pipe: u8,
    /// Of TASK: 1 ABORT TASK of `tag`, 8 LOGICAL UNIT RESET, 80h QUERY TASK of `tag`.
    pub function: u8,
    /// Out of RETIRE, LEFT_OVER, REPLY and WANTED: 0 or 1. Out of EVENT: 0 stray, 1 matched, 2 of the command under
    /// way, 3 noted.
    pub acted: u8,
    /// Of EVENT: the type of its TRB, 32 or 33. It is `type` in C.
    pub kind: u8,
    /// Of EVENT: the completion code.
    pub code: u8,
    /// Of EVENT: the endpoint ID.
    pub endpoint: u8,
    /// Of EVENT.
    pub slot: u8,
    /// Out of REPLY: 1 a status, 2 aborted, 3 a task management's response, 4 failed.
    pub reply: u8,
    /// Out of REPLY: the SCSI status of 1, the response code of 3, the completion code of 4.
    pub status: u8,
    /// Out of REPLY: bytes of sense data.
    pub sense_length: u8,
    /// Of STATE: 1 running, 2 halted, 3 stopped, 4 error.
    pub state: u8,
    pub reserved: [u8; 2],
    /// Out of REPLY: how many bytes of the command's data the events told to be moved.
    pub moved: u32,
    /// Out of REPLY 1.
    pub sense: [u8; MAX_SENSE_BYTES],
    /// Out of SUBMIT, TASK, RETIRE, EVENT, GIVE_UP and STATE: its first `doorbells` values, in the order in which to write them.
    pub doorbell: [u32; STREAM_ENTRIES],
}

/// A call, by its number.
#[derive(Clone, Copy)]
pub(crate) enum DriverCall {
    Submit,
    Task,
    Retire,
    LeftOver,
    Event,
    Reply,
    Read,
    Write,
    Item,
    Context,
    GiveUp,
    State,
    Wanted,
    Strays,
}

pub(crate) fn call_numbered(number: u8) -> Option<DriverCall>
    ensures { result ≡ driver_call number }
{
    match number {
        1 => Some(DriverCall::Submit),
        2 => Some(DriverCall::Task),
        3 => Some(DriverCall::Retire),
        4 => Some(DriverCall::LeftOver),
        5 => Some(DriverCall::Event),
        6 => Some(DriverCall::Reply),
        7 => Some(DriverCall::Read),
        8 => Some(DriverCall::Write),
        9 => Some(DriverCall::Item),
        10 => Some(DriverCall::Context),
        11 => Some(DriverCall::GiveUp),
        12 => Some(DriverCall::State),
        13 => Some(DriverCall::Wanted),
        14 => Some(DriverCall::Strays),
        _ => None,
    }
}

/// The event that a door names.
pub(crate) fn event_named(door: &UasDriverDoor) -> Option<Event>
    ensures { result ≡ event_named door.now }
{
    match door.kind {
        32 => Some(Event::Transfer {
            pointer: door.address,
            residual: door.length,
            code: door.code,
            endpoint: door.endpoint,
            slot: door.slot,
        }),
        33 => Some(Event::Command {
            pointer: door.address,
            code: door.code,
            slot: door.slot,
        }),
        _ => None,
    }
}

pub(crate) fn refusal_number(refusal: Refusal) -> u8
    ensures number { result ≡ driver_refusal refusal }
    ensures no_want_of_memory { (result == NO_MEMORY) ≡ false }
{
    match refusal {
        Refusal::BadTicket => CLIENT_TICKET,
        Refusal::NoRoom => DRIVER_ROOM,
        Refusal::BadAddress => DRIVER_ADDRESS,
        Refusal::NoRing => DRIVER_RING,
        Refusal::Fault(fault) => client_fault(fault),
    }
}

/// Tells the doorbells that are to be written.
pub(crate) fn show_doorbells(door: &mut UasDriverDoor, doors: &ArrayVec<u32, STREAM_ENTRIES>)
    ensures { door.new ≡ with_doorbells door.old doors.now.items }
{
    door.doorbells = doors.len() as u16;
    door.doorbell[..doors.len()].copy_from_slice(doors);
}

/// Tells the tag whose TD is left over.
pub(crate) fn show_next(door: &mut UasDriverDoor, next: Option<u16>)
    ensures { door.new ≡ with_next door.old next }
{
    match next {
        Some(next) => {
            door.acted = 1;
            door.tag = next;
        }
        None => door.acted = 0,
    }
}

/// Tells what the driver made of an event.
pub(crate) fn show_taken(door: &mut UasDriverDoor, taken: Taken)
    ensures { door.new ≡ with_taken door.old taken }
{
    match taken {
        Taken::Matched(tag) => {
            door.acted = 1;
            door.tag = tag;
        }
        Taken::Engine => door.acted = 2,
        Taken::Noted => door.acted = 3,
        Taken::Stray => door.acted = 0,
    }
}

pub(crate) fn show_answer(door: &mut UasDriverDoor, told: &ToldAnswer)
    ensures { door.new ≡ with_answer door.old told.now }
{
    door.acted = 1;
    door.reply = told.reply.kind;
    door.tag = told.reply.tag;
    door.ticket = told.reply.ticket;
    door.status = told.reply.status;
    door.sense_length = told.reply.sense_length;
    door.sense = told.reply.sense;
    door.length = told.reply.length;
    door.moved = told.moved;
}

/// The pipe of a number, the command pipe too.
pub(crate) fn endpoint_numbered(number: u8) -> Option<Pipe>
    ensures { result ≡ endpoint_numbered number }
{
    match number {
        1 => Some(Pipe::Status),
        2 => Some(Pipe::DataIn),
        3 => Some(Pipe::DataOut),
        4 => Some(Pipe::Command),
        _ => None,
    }
}

/// The state of an endpoint (xHCI 6.2.3, EP State) by its number.
pub(crate) fn state_numbered(number: u8) -> Option<EndpointState>
    ensures { result ≡ state_numbered number }
{
    match number {
        1 => Some(EndpointState::Running),
        2 | 4 => Some(EndpointState::Halted),
        3 => Some(EndpointState::Stopped),
        _ => None,
    }
}

/// Tells the pipe whose endpoint's state is asked for.
pub(crate) fn show_wanted(door: &mut UasDriverDoor, wanted: Option<Pipe>)
    ensures { door.new ≡ with_wanted door.old wanted }
{
    match wanted {
        Some(pipe) => {
            door.acted = 1;
            door.pipe = match pipe {
                Pipe::Status => 1,
                Pipe::DataIn => 2,
                Pipe::DataOut => 3,
                Pipe::Command => 4,
            };
        }
        None => door.acted = 0,
    }
}
