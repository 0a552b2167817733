//! What a driver tells, as the door has it.
ghost use Rattle.std.specs.Prelude.{◌≡◌, ◌≤◌, ◌++◌, drop, length};
ghost use Rattle.uas_block_c.specs.Told.{after_ending, store_kind, stored_front, with_access, with_disk, with_ending, with_outcome, with_reply, with_state, with_stored};

use crate::door::UasBlockDoor;
use crate::numbers::{loss_number, row_number, why_number};
use block_driver::{Ending, Reply, State};
use block_requests::Outcome;
use bring_up::{Access, Stored};
use disk_ready::ReadyDisk;

/// An access: 1 reads a register, 2 loads, 3 writes a register, 4 stores, 5 stores zeros, 6 rests.
pub(crate) fn show_access(door: &mut UasBlockDoor, access: &Access)
    ensures { door.new ≡ with_access door.old access.now }
{
    let (kind, at, length, value) = match access {
        Access::Read32(offset) => (1, u64::from(*offset), 4, 0),
        Access::Load { at, length } => (2, *at, *length, 0),
        Access::Write32 { offset, value } => (3, u64::from(*offset), 4, *value),
        Access::Store { at, bytes } => (store_kind(bytes), *at, bytes.length(), 0),
        Access::Rest(until) => (6, *until, 0, 0),
    };
    door.kind = kind;
    door.at = at;
    door.length = length;
    door.value = value;
}

fn store_kind(bytes: &Stored) -> u8
    ensures { result ≡ store_kind bytes.now }
{
    match bytes {
        Stored::Zeros(_) => 5,
        _ => 4,
    }
}

/// The bytes that an access stores, at the front of `bytes`; zeros aren't written.
pub(crate) fn put_stored(bytes: &mut [u8], access: &Access)
    requires { 32 ≤ length bytes.old }
    ensures { bytes.new ≡ with_stored bytes.old access.now }
{
    match access {
        Access::Store { bytes: stored, .. } => put_front_of(bytes, stored),
        _ => {}
    }
}

fn put_front_of(bytes: &mut [u8], stored: &Stored)
    requires { 32 ≤ length bytes.old }
    ensures { bytes.new ≡ stored_front bytes.old stored.now }
{
    match stored {
        Stored::Zeros(_) => {}
        Stored::Four(word) => put_front(bytes, word),
        Stored::Eight(pair) => put_front(bytes, pair),
        Stored::Sixteen(trb) => put_front(bytes, trb),
        Stored::ThirtyTwo(unit) => put_front(bytes, unit),
    }
}

/// Puts bytes at the front of others.
fn put_front(bytes: &mut [u8], front: &[u8])
    requires { length front.now ≤ length bytes.old }
    ensures { bytes.new ≡ front.now ++ drop (length front.now) bytes.old }
{
    bytes[..front.len()].copy_from_slice(front);
}

/// A state: 1 surveying, 2 wants memory, 3 bringing up, 4 no device, 5 refused, 6 asking, 7 ready, 8 restarting, 9 shutting down, 10 stopped, 11 gone,
/// 12 dead.
pub(crate) fn show_state(door: &mut UasBlockDoor, state: &State)
    ensures { door.new ≡ with_state door.old state.now }
{
    let (kind, code, length) = match state {
        State::Surveying => (1, 0, 0),
        State::WantsMemory { bytes } => (2, 0, *bytes),
        State::BringingUp(row) => (3, row_number(*row), 0),
        State::NoDevice => (4, 0, 0),
        State::Refused(why) => (5, why_number(*why), 0),
        State::Asking => (6, 0, 0),
        State::Ready { number, disk } => {
            show_disk(door, *number, disk);
            (7, 0, 0)
        }
        State::Restarting => (8, 0, 0),
        State::ShuttingDown => (9, 0, 0),
        State::Stopped => (10, 0, 0),
        State::Gone => (11, 0, 0),
        State::Dead => (12, 0, 0),
    };
    door.kind = kind;
    door.code = code;
    door.length = length;
}

/// The disk that is used, and its number.
fn show_disk(door: &mut UasBlockDoor, number: u64, disk: &ReadyDisk)
    ensures { door.new ≡ with_disk door.old number disk.now }
{
    let shape = disk.shape;
    door.number = number;
    door.tag = u16::from(disk.tags);
    door.blocks = shape.blocks;
    door.block_bytes = shape.block_bytes;
    door.most_blocks = shape.most_blocks;
    door.most_unmap = shape.most_unmap;
    door.can_unmap = u8::from(shape.can_unmap);
    door.has_fua = u8::from(shape.has_fua);
}

/// A reply: 1 GOOD, 2 GOOD but short, 3 another status, 4 a response, 5 aborted, 6 lost.
pub(crate) fn show_reply(door: &mut UasBlockDoor, bytes: &mut [u8], reply: &Reply)
    requires { 96 ≤ length bytes.old }
    ensures { (door.new, bytes.new) ≡ with_reply door.old bytes.old reply.now }
{
    door.good = 1;
    door.tag = reply.tag;
    door.number = reply.mark;
    door.length = reply.moved;
    show_ending(door, bytes, &reply.ending);
}

fn show_ending(door: &mut UasBlockDoor, bytes: &mut [u8], ending: &Ending)
    requires { 96 ≤ length bytes.old }
    ensures { (door.new, bytes.new) ≡ after_ending door.old bytes.old ending.now }
{
    match ending {
        Ending::Told(outcome) => show_outcome(door, bytes, outcome),
        Ending::Lost(loss) => end(door, 6, loss_number(*loss), 0),
        Ending::Aborted => end(door, 5, 0, 0),
    }
}

fn show_outcome(door: &mut UasBlockDoor, bytes: &mut [u8], outcome: &Outcome)
    requires { 96 ≤ length bytes.old }
    ensures { (door.new, bytes.new) ≡ with_outcome door.old bytes.old outcome.now }
{
    match outcome {
        Outcome::Good => end(door, 1, 0, 0),
        Outcome::Short => end(door, 2, 0, 0),
        Outcome::Status(status, sense) => {
            put_front(bytes, sense);
            end(door, 3, *status, sense.len() as u32);
        }
        Outcome::Response(code) => end(door, 4, *code, 0),
    }
}

fn end(door: &mut UasBlockDoor, kind: u8, code: u8, sense: u32)
    ensures { door.new ≡ with_ending door.old kind code sense }
{
    door.kind = kind;
    door.code = code;
    door.value = sense;
}
