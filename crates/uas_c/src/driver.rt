//! The driver for C: host, rings and buffers without a controller, over one call with a door.
ghost use Rattle.std.specs.Prelude.{◌≡◌, ◌<◌, true, IfErr, IfOk};
ghost use Rattle.uas_driver.specs.Driver.{IsOpening};
ghost use Rattle.uas_c.specs.DriverCall.{after_context, after_event, after_give_up, after_item, after_left_over, after_read, after_reply, after_retire};
ghost use Rattle.c_common.specs.HandedOut.{made_number};
ghost use Rattle.uas_c.specs.DriverCall.{after_state, after_submit, after_task, after_write, clients_told, driver_answer, next_left_over};

mod answer;
mod door;
mod handle;

use crate::client::{LONGEST_BUFFER, TICKETS, asked_operation, pipe_numbered, task_numbered};
use crate::driver::answer::tell_answer;
use crate::driver::door::{
    DriverCall, UasDriverDoor, call_numbered, endpoint_numbered, event_named, refusal_number,
    show_answer, show_doorbells, show_next, show_taken, show_wanted, state_numbered,
};
use arrayvec::ArrayVec;
use c_common::faults::{
    CLIENT_CALL, CLIENT_FUNCTION, CLIENT_LENGTH, CLIENT_TICKET, DRIVER_ADDRESS, DRIVER_CLIENTS,
    DRIVER_EVENT, DRIVER_RING, DRIVER_STATE, NO_MEMORY, TAGS,
};
use scsi_cmd::{Buffer, Command};
use std::alloc::Global;
use std::marker::Model;
use stream_array::Pipe;
use uas_driver::Driver;
use uas_profile::{LEAST_TAGS, MOST_TAGS, most_clients};

/// A driver, and the memory that its submissions' buffers come from.
#[derive(Drop)]
pub(crate) struct KeptDriver {
    driver: Driver,
    alloc: Global,
}

impl Model for KeptDriver {
    ghost use Rattle.uas_driver.specs.Driver.{DriverState};

    ghost Value = { DriverState };

    ghost view = { λ kept. kept.driver };
}

/// Bytes of an item of a ring, and of a context.
const ITEM_BYTES: usize = 16;

/// A driver of so many clients with so many tags each; the error is the number of the fault.
pub(crate) fn made(
    alloc: Global,
    clients: usize,
    tags: usize,
) -> Result<Box<KeptDriver, Global>, u8>
    ensures made { IfOk result (λ made. IsOpening tags clients made.value) }
    ensures fault { clients_told (made_number result) clients tags ≡ true }
    ensures number { IfErr result (λ number. 0 < number) }
{
    if tags < LEAST_TAGS || tags > MOST_TAGS {
        return Err(TAGS);
    }
    if clients == 0 || clients > most_clients(tags) {
        return Err(DRIVER_CLIENTS);
    }
    let Ok(driver) = Driver::with_tags(alloc, clients, tags) else {
        return Err(NO_MEMORY);
    };
    match Box::new(alloc, KeptDriver { driver, alloc }) {
        Ok(made) => Ok(made),
        Err(_) => Err(NO_MEMORY),
    }
}

/// The call that a door names: the number of its refusal, or 0.
pub(crate) fn serve(kept: &mut KeptDriver, door: &mut UasDriverDoor, bytes: &mut [u8]) -> u8
    ensures { (result, (kept.new, (door.new, bytes.new))) ≡ driver_answer result kept.old door.old bytes.old }
{
    let Some(call) = call_numbered(door.call) else {
        return CLIENT_CALL;
    };
    match call {
        DriverCall::Submit => submit(&mut kept.driver, kept.alloc, door, bytes),
        DriverCall::Task => manage(&mut kept.driver, door),
        DriverCall::Retire => retire(&mut kept.driver, door),
        DriverCall::LeftOver => show_left_over(&kept.driver, door),
        DriverCall::Event => take_event(&mut kept.driver, door),
        DriverCall::Reply => take_reply(&mut kept.driver, door, bytes),
        DriverCall::Read => read(&kept.driver, door, bytes),
        DriverCall::Write => write(&mut kept.driver, door, bytes),
        DriverCall::Item => show_item(&kept.driver, door, bytes),
        DriverCall::Context => show_context(&kept.driver, door, bytes),
        DriverCall::GiveUp => give_up(&mut kept.driver, door),
        DriverCall::State => take_state(&mut kept.driver, door),
        DriverCall::Wanted => {
            show_wanted(door, kept.driver.wanted_state());
            0
        }
        DriverCall::Strays => {
            door.address = kept.driver.strays();
            0
        }
    }
}

/// A submission: ticket and operation are judged here, all else by the driver.
fn submit(driver: &mut Driver, alloc: Global, door: &mut UasDriverDoor, bytes: &[u8]) -> u8
    ensures { (result, (driver.new, door.new)) ≡ after_submit result driver.old door.old bytes.now }
{
    let op = match asked_operation(door.ticket, &door.operation) {
        Ok(op) => op,
        Err(fault) => return fault,
    };
    let Ok(buffer) = Vec::from_slice(alloc, bytes) else {
        return NO_MEMORY;
    };
    let command = Command {
        op,
        buffer: Buffer::from_vec(buffer),
    };
    let mut doors = ArrayVec::new();
    match driver.submit(
        door.client as usize,
        door.tag,
        door.ticket,
        command,
        &mut doors,
    ) {
        Ok(()) => {
            show_doorbells(door, &doors);
            0
        }
        Err((refusal, _)) => refusal_number(refusal),
    }
}

fn manage(driver: &mut Driver, door: &mut UasDriverDoor) -> u8
    ensures { (result, (driver.new, door.new)) ≡ after_task driver.old door.old }
{
    if door.ticket >= TICKETS {
        return CLIENT_TICKET;
    }
    let Some(task) = task_numbered(door.function, door.tag) else {
        return CLIENT_FUNCTION;
    };
    let mut doors = ArrayVec::new();
    match driver.task(door.client as usize, door.ticket, task, &mut doors) {
        Ok(()) => {
            show_doorbells(door, &doors);
            0
        }
        Err(refusal) => refusal_number(refusal),
    }
}

fn retire(driver: &mut Driver, door: &mut UasDriverDoor) -> u8
    ensures { (result, (driver.new, door.new)) ≡ after_retire driver.old door.old }
{
    let Some(pipe) = pipe_numbered(door.pipe) else {
        return DRIVER_RING;
    };
    let mut doors = ArrayVec::new();
    match driver.retire(pipe, door.tag, &mut doors) {
        Ok(begun) => {
            show_doorbells(door, &doors);
            door.acted = u8::from(begun);
            0
        }
        Err(refusal) => refusal_number(refusal),
    }
}

fn show_left_over(driver: &Driver, door: &mut UasDriverDoor) -> u8
    ensures { (result, (driver.now, door.new)) ≡ after_left_over driver.now door.old }
{
    let Some(pipe) = pipe_numbered(door.pipe) else {
        return DRIVER_RING;
    };
    let next = next_left_over(driver, pipe, door.tag);
    show_next(door, next);
    0
}

/// The least tag above this one whose TD on a pipe is left over.
fn next_left_over(driver: &Driver, pipe: Pipe, tag: u16) -> Option<u16>
    ensures { result ≡ next_left_over driver.now.host pipe tag }
{
    driver.next_left_over(pipe, tag)
}

fn take_event(driver: &mut Driver, door: &mut UasDriverDoor) -> u8
    ensures { (result, (driver.new, door.new)) ≡ after_event driver.old door.old }
{
    let Some(event) = event_named(door) else {
        return DRIVER_EVENT;
    };
    let mut doors = ArrayVec::new();
    let taken = driver.take_event(event, &mut doors);
    show_doorbells(door, &doors);
    show_taken(door, taken);
    0
}

/// Takes the oldest reply of a client.
fn take_reply(driver: &mut Driver, door: &mut UasDriverDoor, bytes: &mut [u8]) -> u8
    ensures { (result, (driver.new, (door.new, bytes.new))) ≡ after_reply driver.old door.old bytes.old }
{
    if bytes.len() < LONGEST_BUFFER {
        return CLIENT_LENGTH;
    }
    let given = driver.take_reply(door.client as usize);
    match &given {
        Some(answer) => show_answer(door, &tell_answer(answer, door.sense, bytes)),
        None => door.acted = 0,
    }
    0
}

/// A client gives up a command.
fn give_up(driver: &mut Driver, door: &mut UasDriverDoor) -> u8
    ensures { (result, (driver.new, door.new)) ≡ after_give_up driver.old door.old }
{
    let mut doors = ArrayVec::new();
    match driver.give_up(door.client as usize, door.tag, &mut doors) {
        Ok(()) => {
            show_doorbells(door, &doors);
            0
        }
        Err(refusal) => refusal_number(refusal),
    }
}

/// The state of an endpoint is handed in.
fn take_state(driver: &mut Driver, door: &mut UasDriverDoor) -> u8
    ensures { (result, (driver.new, door.new)) ≡ after_state driver.old door.old }
{
    let Some(pipe) = endpoint_numbered(door.pipe) else {
        return DRIVER_RING;
    };
    let Some(state) = state_numbered(door.state) else {
        return DRIVER_STATE;
    };
    let mut doors = ArrayVec::new();
    driver.endpoint_state(pipe, state, &mut doors);
    show_doorbells(door, &doors);
    0
}

fn read(driver: &Driver, door: &UasDriverDoor, bytes: &mut [u8]) -> u8
    ensures { (result, (driver.now, (door.now, bytes.new))) ≡ after_read driver.now door.now bytes.old }
{
    match driver.read(door.address, bytes.len()) {
        Ok(found) => {
            bytes.copy_from_slice(found);
            0
        }
        Err(refusal) => refusal_number(refusal),
    }
}

fn write(driver: &mut Driver, door: &UasDriverDoor, bytes: &[u8]) -> u8
    ensures { (result, (driver.new, door.now)) ≡ after_write driver.old door.now bytes.now }
{
    match driver.write(door.address, bytes) {
        Ok(()) => 0,
        Err(refusal) => refusal_number(refusal),
    }
}

fn show_item(driver: &Driver, door: &UasDriverDoor, bytes: &mut [u8]) -> u8
    ensures { (result, (driver.now, (door.now, bytes.new))) ≡ after_item driver.now door.now bytes.old }
{
    if bytes.len() != ITEM_BYTES {
        return CLIENT_LENGTH;
    }
    let Some(item) = driver.item(door.address) else {
        return DRIVER_ADDRESS;
    };
    bytes.copy_from_slice(&item);
    0
}

fn show_context(driver: &Driver, door: &UasDriverDoor, bytes: &mut [u8]) -> u8
    ensures { (result, (driver.now, (door.now, bytes.new))) ≡ after_context driver.now door.now bytes.old }
{
    if bytes.len() != ITEM_BYTES {
        return CLIENT_LENGTH;
    }
    let Some(pipe) = pipe_numbered(door.pipe) else {
        return DRIVER_RING;
    };
    match driver.context(pipe, door.stream) {
        Ok(context) => {
            bytes.copy_from_slice(&context);
            0
        }
        Err(refusal) => refusal_number(refusal),
    }
}
