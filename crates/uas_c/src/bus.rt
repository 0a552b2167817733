//! The bus for C: host, controller and device as one machine of steps, over one call with a door.
ghost use Rattle.std.specs.Prelude.{◌≡◌, ◌==◌, ◌<◌, false, true, IfErr, IfOk, IfSome, option_map};
ghost use Rattle.shared_machine.specs.Bus.{HasTicket};
ghost use Rattle.shared_machine.specs.Drain.{drained};
ghost use Rattle.shared_machine.specs.Shared.{opening};
ghost use Rattle.uas_profile.specs.Tags.{AreTags, most_clients};
ghost use Rattle.c_common.specs.declared.faults.TheConstants.{NO_MEMORY};
ghost use Rattle.c_common.specs.HandedOut.{made_number};
ghost use Rattle.c_common.specs.Units.{opened_units, units_number, units_told};
ghost use Rattle.uas_c.specs.BusCall.{after_due, after_reply, after_step, after_submit, after_task, bus_answer, bus_call_numbered, bus_told};
ghost use Rattle.uas_c.specs.BusCall.{refusal_told, step_numbered, unit_of, with_drain, with_owner, with_reply};

mod handle;

use crate::client::{
    LONGEST_BUFFER, TICKETS, ToldReply, asked_operation, client_fault, pipe_numbered,
    task_numbered, tell_reply,
};
use block_unit::Unit;
use bus_core::{Bus, Refusal, Step};
use c_common::faults::{
    BUS_CLIENT, BUS_RANGE, BUS_STEP, CLIENT_CALL, CLIENT_FUNCTION, CLIENT_LENGTH, CLIENT_TICKET,
    NO_MEMORY, TAGS,
};
use c_common::{ShownFaults, UasBadBlock, UasOperation, UnitsFault, opened_units, show};
use scsi_cmd::{Buffer, Command};
use std::alloc::Global;
use std::marker::Model;
use uas_iu::MAX_SENSE_BYTES;
use uas_profile::{LEAST_TAGS, MOST_TAGS, most_clients};

/// What a call of the bus asks and answers. C writes `call` and what that call reads; the call writes what it answers.
#[repr(C)]
#[derive(Clone, Copy)]
pub struct UasBusDoor {
    /// Of SUBMIT and TASK, below 2^60. Out of REPLY.
    pub ticket: u64,
    /// Of DRAIN: the most steps. Out: how many were taken.
    pub steps: u64,
    /// Of SUBMIT. Of BLOCKS and MEDIUM the first block alone.
    pub operation: UasOperation,
    /// Of SUBMIT, TASK, REPLY, BLOCKS and MEDIUM. Out of STEP: its owner, where it has one.
    pub client: u32,
    /// Out of REPLY: bytes of its buffer.
    pub length: u32,
    /// Of SUBMIT, ABORT TASK, QUERY TASK, STEP and DUE. Out of REPLY.
    pub tag: u16,
    /// The call, 1 to 5 and 7 to 9.
    pub call: u8,
    /// Of STEP and DUE: 1 command pipe, 2 data, 3 status, 4 engine, 5 event, 6 retire.
    pub step: u8,
    /// Of step 6: 1 status, 2 data in, 3 data out.
    pub pipe: u8,
    /// Of TASK: 1 ABORT TASK of `tag`, 8 LOGICAL UNIT RESET, 80h QUERY TASK of `tag`.
    pub function: u8,
    /// Out of STEP, DUE and REPLY: 0 or 1. Out of DRAIN: 1 where none is due any more.
    pub acted: u8,
    /// Out of STEP: 0 or 1.
    pub has_owner: u8,
    /// Out of REPLY: 1 a status, 2 aborted, 3 a task management's response.
    pub reply: u8,
    /// Out of REPLY: the SCSI status of 1, the response code of 3.
    pub status: u8,
    /// Out of REPLY: bytes of sense data.
    pub sense_length: u8,
    pub reserved: [u8; 5],
    /// Out of REPLY 1.
    pub sense: [u8; MAX_SENSE_BYTES],
}

/// A bus, and the memory that its submissions' buffers come from.
#[derive(Drop)]
pub(crate) struct KeptBus {
    bus: Bus,
    alloc: Global,
}

impl Model for KeptBus {
    ghost use Rattle.shared_machine.specs.Shared.{Shared};

    ghost Value = { Shared };

    ghost view = { λ kept. kept.bus };
}

/// A bus of so many tags of each client and of these units, as `opened_units` makes them; the error is the number of the fault.
pub(crate) fn made(
    alloc: Global,
    tags: usize,
    blocks: &[u32],
    image: &[u8],
    bad: &[UasBadBlock],
) -> Result<Box<KeptBus, Global>, u8>
    ensures made { IfOk result (λ made. made.value ≡ opening tags (opened_units blocks.now image.now bad.now)) }
    ensures fault { bus_told (made_number result) tags blocks.now image.now bad.now ≡ true }
    ensures number { IfErr result (λ number. 0 < number) }
{
    if tags < LEAST_TAGS || tags > MOST_TAGS {
        return Err(TAGS);
    }
    match boxed(alloc, tags, blocks, image, bad) {
        Ok(made) => Ok(made),
        Err(fault) => Err(fault.number()),
    }
}

/// The same of a number of tags that there is.
fn boxed(
    alloc: Global,
    tags: usize,
    blocks: &[u32],
    image: &[u8],
    bad: &[UasBadBlock],
) -> Result<Box<KeptBus, Global>, UnitsFault>
    requires { AreTags tags }
    ensures made { IfOk result (λ made. made.value ≡ opening tags (opened_units blocks.now image.now bad.now)) }
    ensures fault { units_told (units_number result) (most_clients tags) blocks.now image.now bad.now ≡ true }
{
    let units = opened_units(alloc, most_clients(tags), blocks, image, bad)?;
    let Ok(bus) = Bus::with_tags(alloc, units, tags) else {
        return Err(UnitsFault::NoMemory);
    };
    match Box::new(alloc, KeptBus { bus, alloc }) {
        Ok(made) => Ok(made),
        Err(_) => Err(UnitsFault::NoMemory),
    }
}

/// A call, by its number.
#[derive(Clone, Copy)]
enum BusCall {
    Submit,
    Task,
    Step,
    Due,
    Drain,
    Reply,
    Blocks,
    Medium,
}

/// By which a look at blocks is refused.
const SHOWN: ShownFaults = ShownFaults {
    no_unit: BUS_CLIENT,
    not_whole: CLIENT_LENGTH,
    beyond: BUS_RANGE,
};

fn call_numbered(number: u8) -> Option<BusCall>
    ensures { result ≡ bus_call_numbered number }
{
    match number {
        1 => Some(BusCall::Submit),
        2 => Some(BusCall::Task),
        3 => Some(BusCall::Step),
        4 => Some(BusCall::Due),
        5 => Some(BusCall::Drain),
        7 => Some(BusCall::Reply),
        8 => Some(BusCall::Blocks),
        9 => Some(BusCall::Medium),
        _ => None,
    }
}

/// The call that a door names: the number of its refusal, or 0.
pub(crate) fn serve(kept: &mut KeptBus, door: &mut UasBusDoor, bytes: &mut [u8]) -> u8
    ensures { (result, (kept.new, (door.new, bytes.new))) ≡ bus_answer result kept.old door.old bytes.old }
{
    let Some(call) = call_numbered(door.call) else {
        return CLIENT_CALL;
    };
    match call {
        BusCall::Submit => submit(&mut kept.bus, kept.alloc, door, bytes),
        BusCall::Task => manage(&mut kept.bus, door),
        BusCall::Step => take_step(&mut kept.bus, door),
        BusCall::Due => show_due(&kept.bus, door),
        BusCall::Drain => drain(&mut kept.bus, door),
        BusCall::Reply => take_reply(&mut kept.bus, door, bytes),
        BusCall::Blocks => show(
            SHOWN,
            contents_of(&kept.bus, door.client),
            door.operation.lba,
            bytes,
        ),
        BusCall::Medium => show(
            SHOWN,
            medium_of(&kept.bus, door.client),
            door.operation.lba,
            bytes,
        ),
    }
}

/// A submission: ticket and operation are judged here, all else by the bus.
fn submit(bus: &mut Bus, alloc: Global, door: &UasBusDoor, bytes: &[u8]) -> u8
    ensures { (result, (bus.new, door.now)) ≡ after_submit result bus.old door.now bytes.now }
{
    let op = match asked_operation(door.ticket, &door.operation) {
        Ok(op) => op,
        Err(fault) => return fault,
    };
    let Ok(buffer) = Vec::from_slice(alloc, bytes) else {
        return NO_MEMORY;
    };
    let outcome = bus.step(Step::Submit {
        client: door.client as usize,
        tag: door.tag,
        ticket: door.ticket,
        command: Command {
            op,
            buffer: Buffer::from_vec(buffer),
        },
    });
    refusal_number(&outcome.refused)
}

fn refusal_number(refused: &Option<Refusal>) -> u8
    ensures told { result ≡ refusal_told refused.now }
    ensures no_want_of_memory { (result == NO_MEMORY) ≡ false }
{
    match refused {
        Some(refusal) => client_fault(refusal.fault),
        None => 0,
    }
}

fn manage(bus: &mut Bus, door: &UasBusDoor) -> u8
    ensures { (result, (bus.new, door.now)) ≡ after_task bus.old door.now }
{
    if door.ticket >= TICKETS {
        return CLIENT_TICKET;
    }
    let Some(task) = task_numbered(door.function, door.tag) else {
        return CLIENT_FUNCTION;
    };
    let outcome = bus.step(Step::Task {
        client: door.client as usize,
        ticket: door.ticket,
        task,
    });
    refusal_number(&outcome.refused)
}

/// The step that a door names.
fn step_numbered(door: &UasBusDoor) -> Option<Step>
    ensures step { result ≡ step_numbered door.now }
    ensures ticket { IfSome result HasTicket }
{
    match door.step {
        1 => Some(Step::CommandPipe),
        2 => Some(Step::Data(door.tag)),
        3 => Some(Step::Status(door.tag)),
        4 => Some(Step::Engine),
        5 => Some(Step::Event),
        6 => match pipe_numbered(door.pipe) {
            Some(pipe) => Some(Step::Retire(pipe, door.tag)),
            None => None,
        },
        _ => None,
    }
}

fn take_step(bus: &mut Bus, door: &mut UasBusDoor) -> u8
    ensures { (result, (bus.new, door.new)) ≡ after_step bus.old door.old }
{
    let Some(step) = step_numbered(door) else {
        return BUS_STEP;
    };
    let outcome = bus.step(step);
    show_owner(door, outcome.owner);
    door.acted = u8::from(outcome.acted);
    0
}

/// Tells a step's owner.
fn show_owner(door: &mut UasBusDoor, owner: Option<usize>)
    ensures { door.new ≡ with_owner door.old owner }
{
    match owner {
        Some(owner) if owner <= u32::MAX as usize => {
            door.has_owner = 1;
            door.client = owner as u32;
        }
        _ => door.has_owner = 0,
    }
}

fn show_due(bus: &Bus, door: &mut UasBusDoor) -> u8
    ensures { (result, (bus.now, door.new)) ≡ after_due bus.now door.old }
{
    let Some(step) = step_numbered(door) else {
        return BUS_STEP;
    };
    door.acted = u8::from(bus.due(&step));
    0
}

fn drain(bus: &mut Bus, door: &mut UasBusDoor) -> u8
    ensures fault { result ≡ 0 }
    ensures bus { bus.new ≡ (drained bus.old door.old.steps).state }
    ensures door { door.new ≡ with_drain door.old (drained bus.old door.old.steps) }
{
    let (taken, quiet) = bus.drain(door.steps as usize);
    door.steps = taken as u64;
    door.acted = u8::from(quiet);
    0
}

/// Takes the oldest reply of a client.
fn take_reply(bus: &mut Bus, door: &mut UasBusDoor, bytes: &mut [u8]) -> u8
    ensures { (result, (bus.new, (door.new, bytes.new))) ≡ after_reply bus.old door.old bytes.old }
{
    if bytes.len() < LONGEST_BUFFER {
        return CLIENT_LENGTH;
    }
    let outcome = bus.step(Step::Take(door.client as usize));
    match &outcome.reply {
        Some(reply) => show_reply(door, &tell_reply(reply, door.sense, bytes)),
        None => door.acted = 0,
    }
    0
}

fn show_reply(door: &mut UasBusDoor, told: &ToldReply)
    ensures { door.new ≡ with_reply door.old told.now }
{
    door.acted = 1;
    door.reply = told.kind;
    door.tag = told.tag;
    door.ticket = told.ticket;
    door.status = told.status;
    door.sense_length = told.sense_length;
    door.sense = told.sense;
    door.length = told.length;
}

/// The unit of a client of the bus.
fn unit_of(bus: &Bus, client: u32) -> Option<&Unit>
    ensures { option_map (λ unit. unit.now) result ≡ unit_of bus.now client }
{
    let client = client as usize;
    if client < bus.clients() {
        Some(bus.unit(client))
    } else {
        None
    }
}

fn contents_of(bus: &Bus, client: u32) -> Option<&[u8]>
    ensures { option_map (λ all. all.now) result ≡ option_map (λ unit. unit.blocks) (unit_of bus.now client) }
{
    match unit_of(bus, client) {
        Some(unit) => Some(unit.contents()),
        None => None,
    }
}

fn medium_of(bus: &Bus, client: u32) -> Option<&[u8]>
    ensures { option_map (λ all. all.now) result ≡ option_map (λ unit. unit.medium) (unit_of bus.now client) }
{
    match unit_of(bus, client) {
        Some(unit) => Some(unit.medium()),
        None => None,
    }
}
