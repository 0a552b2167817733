//! The device for C: units in, units and data out, over one call with a door.
ghost use Rattle.std.specs.Prelude.{◌≡◌, option_map};
ghost use Rattle.block_unit.specs.BlockMaps.{BlockMaps};
ghost use Rattle.uas_profile.specs.declared.TheConstants.{GREATEST_TAG};
ghost use Rattle.uas_target.specs.Device.{Device, opening, wanted};
ghost use Rattle.uas_device_c.specs.DeviceCall.{after_call, after_give, after_next, after_receive, after_sent, after_size, after_status, after_take};
ghost use Rattle.uas_device_c.specs.DeviceCall.{call_numbered, unit_numbered, with_phase, with_took};

mod ended;
mod handle;

use crate::device::ended::{ENDED_BYTES, next_task, receive_bytes};
use block_unit::Unit;
use c_common::faults::{
    DEVICE_CALL, DEVICE_LENGTH, DEVICE_OVERLAP, DEVICE_PHASE, DEVICE_RANGE, DEVICE_UNIT,
};
use c_common::{OfUnits, ShownFaults, put_unit, show};
use std::alloc::{AllocError, Global};
use std::marker::Model;
use uas_iu::lun_bytes;
use uas_target::{Phase, Target, Took};

/// What a call of the device asks and answers. C writes `call` and what that call reads; the call writes what it answers.
#[repr(C)]
#[derive(Clone, Copy)]
pub struct UasDeviceDoor {
    /// The call, 1 to 11.
    pub call: u8,
    /// Out of WANTS: 0 absent, 1 gives, 2 takes, 3 ends.
    pub phase: u8,
    /// Out of GIVE and TAKE: 0 at a bad block, else 1. Out of RECEIVE: 1 where a task began, else 0. Out of NEXT: 1 where there is one, else 0.
    pub good: u8,
    pub reserved: u8,
    /// Of WANTS to SENT, and of NEXT. Out of RECEIVE: the tag on which a task began. Out of NEXT: the tag that was found.
    pub tag: u16,
    /// Of SIZE, BLOCKS and MEDIUM: the unit's number.
    pub unit: u16,
    /// Of BLOCKS and MEDIUM: the first block.
    pub lba: u32,
    /// Out of WANTS: bytes of the chunk. Out of STATUS: bytes of the unit. Out of SIZE: blocks.
    pub length: u32,
    /// Out of RECEIVE: bit t mod 8 of byte t div 8 is 1 where that ended the task of tag t.
    pub ended: [u8; ENDED_BYTES],
}

/// A device, as its handle has it.
#[derive(Drop)]
pub(crate) struct KeptDevice {
    target: Target,
}

impl Model for KeptDevice {
    ghost use Rattle.uas_target.specs.Device.{Device};

    ghost Value = { Device };

    ghost view = { λ kept. kept.target };
}

impl OfUnits for KeptDevice {
    ghost is_of = { λ units device. device ≡ opening GREATEST_TAG units };

    fn of_units(alloc: Global, units: Vec<Unit>) -> Result<KeptDevice, AllocError> {
        let target = Target::new(alloc, units)?;
        Ok(KeptDevice { target })
    }
}

/// A call, by its number.
#[derive(Clone, Copy)]
enum Call {
    Receive,
    Wants,
    Give,
    Take,
    Status,
    Sent,
    Size,
    Blocks,
    Medium,
    Next,
    Reset,
}

/// By which a look at blocks is refused.
const SHOWN: ShownFaults = ShownFaults {
    no_unit: DEVICE_UNIT,
    not_whole: DEVICE_LENGTH,
    beyond: DEVICE_RANGE,
};

fn call_numbered(number: u8) -> Option<Call>
    ensures { result ≡ call_numbered number }
{
    match number {
        1 => Some(Call::Receive),
        2 => Some(Call::Wants),
        3 => Some(Call::Give),
        4 => Some(Call::Take),
        5 => Some(Call::Status),
        6 => Some(Call::Sent),
        7 => Some(Call::Size),
        8 => Some(Call::Blocks),
        9 => Some(Call::Medium),
        10 => Some(Call::Next),
        11 => Some(Call::Reset),
        _ => None,
    }
}

/// The call that a door names; the number of its refusal, or 0.
pub(crate) fn serve(kept: &mut KeptDevice, door: &mut UasDeviceDoor, bytes: &mut [u8]) -> u8
    ensures { (result, (kept.new, (door.new, bytes.new))) ≡ after_call kept.old door.old bytes.old }
{
    let Some(call) = call_numbered(door.call) else {
        return DEVICE_CALL;
    };
    let target = &mut kept.target;
    match call {
        Call::Receive => receive(target, door, bytes),
        Call::Wants => show_phase(target, door),
        Call::Give => give(target, door, bytes),
        Call::Take => take_chunk(target, door, bytes),
        Call::Status => status(target, door, bytes),
        Call::Sent => sent(target, door),
        Call::Size => size(target, door),
        Call::Blocks => show(
            SHOWN,
            contents_of(target, door.unit),
            u64::from(door.lba),
            bytes,
        ),
        Call::Medium => show(
            SHOWN,
            medium_of(target, door.unit),
            u64::from(door.lba),
            bytes,
        ),
        Call::Next => show_next(target, door),
        Call::Reset => {
            target.reset();
            0
        }
    }
}

fn receive(target: &mut Target, door: &mut UasDeviceDoor, bytes: &[u8]) -> u8
    ensures { (result, (target.new, door.new)) ≡ after_receive target.old door.old bytes.now }
{
    let (received, ended) = receive_bytes(target, bytes);
    let Ok(took) = received else {
        return DEVICE_OVERLAP;
    };
    show_took(door, took, ended);
    0
}

/// Tells what came of received bytes, and whose tasks that ended.
fn show_took(door: &mut UasDeviceDoor, took: Took, ended: [u8; ENDED_BYTES])
    ensures { door.new ≡ with_took door.old ended took }
{
    door.ended = ended;
    match took {
        Took::Began(tag) => {
            door.good = 1;
            door.tag = tag;
        }
        Took::Dropped => door.good = 0,
    }
}

/// What the device does next on the door's tag.
fn show_phase(target: &Target, door: &mut UasDeviceDoor) -> u8
    ensures fault { result ≡ 0 }
    ensures door { door.new ≡ with_phase door.old (wanted target.now door.old.tag) }
{
    let (phase, length) = match target.wants(door.tag) {
        Phase::Absent => (0, 0),
        Phase::Gives(size) => (1, size),
        Phase::Takes(size) => (2, size),
        Phase::Ends => (3, 0),
    };
    door.phase = phase;
    door.length = length as u32;
    0
}

fn give(target: &mut Target, door: &mut UasDeviceDoor, bytes: &mut [u8]) -> u8
    ensures { (result, (target.new, (door.new, bytes.new))) ≡ after_give target.old door.old bytes.old }
{
    let Phase::Gives(size) = target.wants(door.tag) else {
        return DEVICE_PHASE;
    };
    if bytes.len() != size {
        return DEVICE_LENGTH;
    }
    door.good = u8::from(target.give_chunk(door.tag, bytes));
    0
}

fn take_chunk(target: &mut Target, door: &mut UasDeviceDoor, bytes: &[u8]) -> u8
    ensures { (result, (target.new, door.new)) ≡ after_take target.old door.old bytes.now }
{
    let Phase::Takes(size) = target.wants(door.tag) else {
        return DEVICE_PHASE;
    };
    if bytes.len() != size {
        return DEVICE_LENGTH;
    }
    door.good = u8::from(target.take_chunk(door.tag, bytes));
    0
}

fn status(target: &Target, door: &mut UasDeviceDoor, bytes: &mut [u8]) -> u8
    ensures { (result, (target.now, (door.new, bytes.new))) ≡ after_status target.now door.old bytes.old }
{
    let Some(unit) = target.status_of(door.tag) else {
        return DEVICE_PHASE;
    };
    let Some(size) = put_unit(&unit, bytes) else {
        return DEVICE_LENGTH;
    };
    door.length = size as u32;
    0
}

fn sent(target: &mut Target, door: &UasDeviceDoor) -> u8
    ensures { (result, (target.new, door.now)) ≡ after_sent target.old door.now }
{
    if !matches!(target.wants(door.tag), Phase::Ends) {
        return DEVICE_PHASE;
    }
    target.sent(door.tag);
    0
}

/// The next tag that has a task.
fn show_next(target: &Target, door: &mut UasDeviceDoor) -> u8
    ensures { (result, (target.now, door.new)) ≡ after_next target.now door.old }
{
    match next_task(target, door.tag) {
        Some(next) => {
            door.good = 1;
            door.tag = next;
        }
        None => door.good = 0,
    }
    0
}

/// The unit of a number.
fn unit_numbered(target: &Target, number: u16) -> Option<&Unit>
    ensures { option_map (λ unit. unit.now) result ≡ unit_numbered target.now.units number }
{
    if number > 255 {
        return None;
    }
    target.unit(&lun_bytes(number as u8))
}

fn size(target: &Target, door: &mut UasDeviceDoor) -> u8
    ensures { (result, (target.now, door.new)) ≡ after_size target.now door.old }
{
    let Some(unit) = unit_numbered(target, door.unit) else {
        return DEVICE_UNIT;
    };
    door.length = unit.blocks();
    0
}

pub(crate) fn contents_of(target: &Target, number: u16) -> Option<&[u8]>
    ensures { option_map (λ all. all.now) result ≡ option_map (λ unit. unit.blocks) (unit_numbered target.now.units number) }
{
    match unit_numbered(target, number) {
        Some(unit) => Some(unit.contents()),
        None => None,
    }
}

pub(crate) fn medium_of(target: &Target, number: u16) -> Option<&[u8]>
    ensures { option_map (λ all. all.now) result ≡ option_map (λ unit. unit.medium) (unit_numbered target.now.units number) }
{
    match unit_numbered(target, number) {
        Some(unit) => Some(unit.medium()),
        None => None,
    }
}
