//! The controller for C: rings, buffers, an xHCI controller and a device without a host, over one call with a door.
ghost use Rattle.std.specs.Prelude.{◌≡◌, length};
ghost use Rattle.uas_controller.specs.Machine.{IsOpening};
ghost use Rattle.uas_profile.specs.declared.TheConstants.{GREATEST_TAG};
ghost use Rattle.uas_device_c.specs.ControllerCall.{after_context, after_event, after_lend, after_put, after_read, after_reclaim, after_step_call};
ghost use Rattle.uas_device_c.specs.ControllerCall.{after_take_back, after_write, controller_answer, ring_context, ring_put, ring_reclaimed};
ghost use Rattle.uas_device_c.specs.ControllerCall.{step_by, with_acted, with_event};

mod door;
mod handle;

use crate::controller::door::{
    ControllerCall, ControllerStep, ITEM_BYTES, Ring, SHOWN, UasControllerDoor, call_numbered,
    refusal_number, ring_numbered, step_numbered,
};
use crate::device::{contents_of, medium_of};
use block_unit::Unit;
use c_common::faults::{
    CONTROLLER_CALL, CONTROLLER_LENGTH, CONTROLLER_RING, CONTROLLER_STEP, CONTROLLER_TAG, NO_MEMORY,
};
use c_common::{OfUnits, show};
use event_ring::Event;
use std::alloc::{AllocError, Global};
use std::marker::Model;
use uas_controller::{Machine, Refusal};
use uas_profile::{STREAMS, WINDOW_BYTES};
use xhci_ctl::Acted;

/// A machine, and the memory that what is lent to it is copied to.
#[derive(Drop)]
pub(crate) struct KeptMachine {
    machine: Machine,
    alloc: Global,
}

impl Model for KeptMachine {
    ghost use Rattle.uas_controller.specs.Machine.{MachineState};

    ghost Value = { MachineState };

    ghost view = { λ kept. kept.machine };
}

impl OfUnits for KeptMachine {
    ghost is_of = { IsOpening GREATEST_TAG };

    fn of_units(alloc: Global, units: Vec<Unit>) -> Result<KeptMachine, AllocError> {
        let machine = Machine::new(alloc, units)?;
        Ok(KeptMachine { machine, alloc })
    }
}

/// The call that a door names: the number of its refusal, or 0.
pub(crate) fn serve(kept: &mut KeptMachine, door: &mut UasControllerDoor, bytes: &mut [u8]) -> u8
    ensures { (result, (kept.new, (door.new, bytes.new))) ≡ controller_answer result kept.old door.old bytes.old }
{
    let Some(call) = call_numbered(door.call) else {
        return CONTROLLER_CALL;
    };
    match call {
        ControllerCall::Put => put(&mut kept.machine, door, bytes),
        ControllerCall::Doorbell => {
            kept.machine.doorbell(door.value);
            0
        }
        ControllerCall::Step => take_step(&mut kept.machine, door),
        ControllerCall::Event => take_event(&mut kept.machine, door),
        ControllerCall::Write => write(&mut kept.machine, door, bytes),
        ControllerCall::Read => read(&kept.machine, door, bytes),
        ControllerCall::Lend => lend(&mut kept.machine, kept.alloc, door, bytes),
        ControllerCall::TakeBack => take_back(&mut kept.machine, door, bytes),
        ControllerCall::Reclaim => reclaim(&mut kept.machine, door),
        ControllerCall::Context => show_context(&kept.machine, door, bytes),
        ControllerCall::Blocks => show(
            SHOWN,
            contents_of(kept.machine.device(), door.unit),
            u64::from(door.lba),
            bytes,
        ),
        ControllerCall::Medium => show(
            SHOWN,
            medium_of(kept.machine.device(), door.unit),
            u64::from(door.lba),
            bytes,
        ),
    }
}

fn put(machine: &mut Machine, door: &mut UasControllerDoor, bytes: &[u8]) -> u8
    ensures { (result, (machine.new, door.new)) ≡ after_put machine.old door.old bytes.now }
{
    if bytes.len() != ITEM_BYTES {
        return CONTROLLER_LENGTH;
    }
    let Some(ring) = ring_numbered(door) else {
        return CONTROLLER_RING;
    };
    match put_on(machine, ring, door.stream, bytes) {
        Ok(address) => {
            door.address = address;
            0
        }
        Err(refusal) => refusal_number(refusal),
    }
}

/// Puts an item on a ring.
fn put_on(machine: &mut Machine, ring: Ring, stream: u16, bytes: &[u8]) -> Result<u64, Refusal>
    requires { length bytes.now ≡ ITEM_BYTES }
    ensures { ring_put machine.old stream bytes.now ring ≡ (machine.new, result) }
{
    let mut item = [0; ITEM_BYTES];
    item.copy_from_slice(bytes);
    match ring {
        Ring::Of(pipe) => machine.put_raw(pipe, stream, &item),
        Ring::Commands => machine.put_raw_commands(&item),
    }
}

fn reclaim(machine: &mut Machine, door: &UasControllerDoor) -> u8
    ensures { (result, (machine.new, door.now)) ≡ after_reclaim machine.old door.now }
{
    let Some(ring) = ring_numbered(door) else {
        return CONTROLLER_RING;
    };
    match reclaim_on(machine, ring, door.stream, door.address) {
        Ok(()) => 0,
        Err(refusal) => refusal_number(refusal),
    }
}

fn reclaim_on(machine: &mut Machine, ring: Ring, stream: u16, address: u64) -> Result<(), Refusal>
    ensures { ring_reclaimed machine.old stream address ring ≡ (machine.new, result) }
{
    match ring {
        Ring::Of(pipe) => machine.reclaim(pipe, stream, address),
        Ring::Commands => machine.reclaim_commands(address),
    }
}

fn show_context(machine: &Machine, door: &UasControllerDoor, bytes: &mut [u8]) -> u8
    ensures { (result, (machine.now, (door.now, bytes.new))) ≡ after_context machine.now door.now bytes.old }
{
    if bytes.len() != ITEM_BYTES {
        return CONTROLLER_LENGTH;
    }
    let Some(ring) = ring_numbered(door) else {
        return CONTROLLER_RING;
    };
    match context_on(machine, ring, door.stream) {
        Ok(context) => {
            bytes.copy_from_slice(&context);
            0
        }
        Err(refusal) => refusal_number(refusal),
    }
}

fn context_on(machine: &Machine, ring: Ring, stream: u16) -> Result<[u8; ITEM_BYTES], Refusal>
    ensures { result ≡ ring_context machine.now stream ring }
{
    match ring {
        Ring::Of(pipe) => machine.context(pipe, stream),
        Ring::Commands => Err(Refusal::NoRing),
    }
}

fn take_step(machine: &mut Machine, door: &mut UasControllerDoor) -> u8
    ensures { (result, (machine.new, door.new)) ≡ after_step_call machine.old door.old }
{
    let Some(step) = step_numbered(door.step) else {
        return CONTROLLER_STEP;
    };
    let acted = step_by(machine, step, door.tag);
    show_acted(door, acted);
    0
}

fn step_by(machine: &mut Machine, step: ControllerStep, tag: u16) -> Acted
    ensures { step_by machine.old tag step ≡ (machine.new, result) }
{
    match step {
        ControllerStep::CommandPipe => machine.command_step(),
        ControllerStep::Data => machine.data_step(tag),
        ControllerStep::Status => machine.status_step(tag),
        ControllerStep::Engine => machine.engine_step(),
    }
}

fn show_acted(door: &mut UasControllerDoor, acted: Acted)
    ensures { door.new ≡ with_acted door.old acted }
{
    match acted {
        Acted::Acted(tag) => {
            door.acted = 1;
            door.tag = tag;
        }
        Acted::Idle => door.acted = 0,
    }
}

fn take_event(machine: &mut Machine, door: &mut UasControllerDoor) -> u8
    ensures { (result, (machine.new, door.new)) ≡ after_event machine.old door.old }
{
    let event = machine.take_event();
    show_event(door, &event);
    0
}

fn show_event(door: &mut UasControllerDoor, event: &Option<Event>)
    ensures { door.new ≡ with_event door.old event.now }
{
    match event {
        None => door.acted = 0,
        Some(
            Event::Transfer {
                pointer,
                residual,
                code,
                endpoint,
                slot,
            },
        ) => {
            door.kind = 32;
            door.value = *residual;
            door.endpoint = *endpoint;
            tell(door, *pointer, *code, *slot);
        }
        Some(
            Event::Command {
                pointer,
                code,
                slot,
            },
        ) => {
            door.kind = 33;
            door.value = 0;
            door.endpoint = 0;
            tell(door, *pointer, *code, *slot);
        }
    }
}

/// Tells what every event has.
fn tell(door: &mut UasControllerDoor, pointer: u64, code: u8, slot: u8)
    ensures { door.new ≡ record door.old { acted = 1; address = pointer; code = code; slot = slot } }
{
    door.acted = 1;
    door.address = pointer;
    door.code = code;
    door.slot = slot;
}

fn write(machine: &mut Machine, door: &UasControllerDoor, bytes: &[u8]) -> u8
    ensures { (result, (machine.new, door.now)) ≡ after_write machine.old door.now bytes.now }
{
    match machine.write(door.address, bytes) {
        Ok(()) => 0,
        Err(refusal) => refusal_number(refusal),
    }
}

fn read(machine: &Machine, door: &UasControllerDoor, bytes: &mut [u8]) -> u8
    ensures { (result, (machine.now, (door.now, bytes.new))) ≡ after_read machine.now door.now bytes.old }
{
    match machine.read(door.address, bytes.len()) {
        Ok(found) => {
            bytes.copy_from_slice(found);
            0
        }
        Err(refusal) => refusal_number(refusal),
    }
}

fn lend(machine: &mut Machine, alloc: Global, door: &UasControllerDoor, bytes: &[u8]) -> u8
    ensures { (result, (machine.new, door.now)) ≡ after_lend result machine.old door.now bytes.now }
{
    if door.tag == 0 || door.tag > STREAMS {
        return CONTROLLER_TAG;
    }
    if bytes.len() > WINDOW_BYTES {
        return CONTROLLER_LENGTH;
    }
    let Ok(copy) = Vec::from_slice(alloc, bytes) else {
        return NO_MEMORY;
    };
    match machine.lend(door.tag, copy) {
        Ok(()) => 0,
        Err((refusal, _)) => refusal_number(refusal),
    }
}

fn take_back(machine: &mut Machine, door: &mut UasControllerDoor, bytes: &mut [u8]) -> u8
    ensures { (result, (machine.new, (door.new, bytes.new))) ≡ after_take_back machine.old door.old bytes.old }
{
    match machine.take_back(door.tag, bytes.len()) {
        Ok(lent) => {
            bytes[..lent.len()].copy_from_slice(&lent);
            door.value = lent.len() as u32;
            0
        }
        Err(refusal) => refusal_number(refusal),
    }
}
