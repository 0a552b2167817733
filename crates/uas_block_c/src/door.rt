//! A driver for C: accesses, interrupts, memory, states and replies, over one call with a door.
ghost use Rattle.std.specs.Prelude.{◌≡◌, IfErr, is_none};
ghost use Rattle.uas_block_c.specs.BlockCall.{Called, IsLent, IsShown, IsWithin, Named, after_abort, after_answer, after_next, after_refusal, after_reply, after_restart, after_shut_down, call_numbered};

use crate::faults::{
    BLOCK_CALL, BLOCK_LENGTH, BLOCK_NO_SUCH_TAG, BLOCK_NOT_ASKED, BLOCK_NOT_READY,
};
use crate::numbers::{lend_number, why_number};
use crate::told::{put_stored, show_access, show_reply, show_state};
use block_driver::BlockDriver;
use bring_up::AnswerFault;
use std::marker::Model;

/// What a call of a driver asks and answers. C writes `call` and what that call reads; the call writes what it answers.
#[repr(C)]
#[derive(Clone, Copy)]
pub struct UasBlockDoor {
    /// The call, 1 to 10.
    pub call: u8,
    /// Out of NEXT: the access; of STATE: the state; of REPLY: how the command ended.
    pub kind: u8,
    /// Of REFUSAL: a port. Out of REFUSAL: why its device isn't used, or 0; of STATE: the table's row, or why; of REPLY: a status, a response's code, or
    /// why it is lost.
    pub code: u8,
    /// Out of REPLY: 1 where there is one.
    pub good: u8,
    /// Of ABORT: a command's. Out of STATE: how many tags the disk has; of REPLY: that of the command.
    pub tag: u16,
    /// Out of STATE: 1 where blocks can be unmapped.
    pub can_unmap: u8,
    /// Out of STATE: 1 where the disk has forced unit access.
    pub has_fua: u8,
    /// Out of NEXT: how many bytes; of STATE: bytes that are to be lent; of REPLY: bytes that were moved.
    pub length: u32,
    /// Out of NEXT: what is written to a register; of REPLY: bytes of sense.
    pub value: u32,
    /// Of NEXT: the time in ms; of LEND: an address. Out of NEXT: a register's offset, an address, or until when.
    pub at: u64,
    /// Out of STATE: the disk's number; of REPLY: the command's mark.
    pub number: u64,
    /// Out of STATE: the disk's blocks.
    pub blocks: u64,
    /// Out of STATE: the bytes of a block.
    pub block_bytes: u32,
    /// Out of STATE: the most blocks of one READ or WRITE; 0 for no limit.
    pub most_blocks: u32,
    /// Out of STATE: the most blocks of one UNMAP; 0 for no limit.
    pub most_unmap: u32,
    pub reserved: u32,
}

/// A driver, as its handle has it.
#[derive(Drop)]
pub(crate) struct KeptBlock {
    pub(crate) driver: BlockDriver,
}

impl Model for KeptBlock {
    ghost use Rattle.block_driver.specs.declared.BlockDriver.{BlockDriver};

    ghost Value = { BlockDriver };

    ghost view = { λ kept. kept.driver };
}

/// Room for what an access stores, and for the sense of a reply.
const STORED_BYTES: usize = 32;

const SENSE_BYTES: usize = 96;

/// A call, by its number.
#[derive(Clone, Copy)]
enum Call {
    Next,
    Answer,
    Interrupted,
    State,
    Lend,
    Reply,
    Restart,
    Refusal,
    Abort,
    ShutDown,
}

fn call_numbered(number: u8) -> Option<Call>
    ensures { result ≡ call_numbered number }
{
    match number {
        1 => Some(Call::Next),
        2 => Some(Call::Answer),
        3 => Some(Call::Interrupted),
        4 => Some(Call::State),
        5 => Some(Call::Lend),
        6 => Some(Call::Reply),
        7 => Some(Call::Restart),
        8 => Some(Call::Refusal),
        9 => Some(Call::Abort),
        10 => Some(Call::ShutDown),
        _ => None,
    }
}

/// The call that a door names; the number of its refusal, or 0.
pub(crate) fn serve(door: &mut UasBlockDoor, bytes: &mut [u8], kept: &mut KeptBlock) -> u8
    ensures { Called kept.old kept.new door.old door.new bytes.old bytes.new result }
{
    match call_numbered(door.call) {
        Some(call) => serve_named(call, &mut kept.driver, door, bytes),
        None => BLOCK_CALL,
    }
}

fn serve_named(
    call: Call,
    driver: &mut BlockDriver,
    door: &mut UasBlockDoor,
    bytes: &mut [u8],
) -> u8
    ensures { Named call driver.old driver.new door.old door.new bytes.old bytes.new result }
{
    match call {
        Call::Next => show_next(driver, door, bytes),
        Call::Answer => answer(driver, bytes),
        Call::Interrupted => {
            driver.interrupted();
            0
        }
        Call::State => tell_state(driver, door),
        Call::Lend => lend(driver, door.at),
        Call::Reply => take_reply(driver, door, bytes),
        Call::Restart => restart(driver),
        Call::Refusal => show_refusal(driver, door),
        Call::Abort => abort(driver, door.tag),
        Call::ShutDown => shut_down(driver),
    }
}

/// What the caller does next.
fn show_next(driver: &mut BlockDriver, door: &mut UasBlockDoor, bytes: &mut [u8]) -> u8
    ensures told { (result, (driver.new, (door.new, bytes.new))) ≡ after_next driver.old door.old bytes.old }
    ensures inside { result ≡ 0 → IsWithin driver.old door.old.at }
{
    if bytes.len() < STORED_BYTES {
        return BLOCK_CALL;
    }
    let access = driver.next(door.at);
    show_access(door, &access);
    put_stored(bytes, &access);
    0
}

fn answer(driver: &mut BlockDriver, bytes: &[u8]) -> u8
    ensures { (result, driver.new) ≡ after_answer driver.old bytes.now }
{
    match driver.answer(bytes) {
        Ok(()) => 0,
        Err(AnswerFault::NotAsked) => BLOCK_NOT_ASKED,
        Err(AnswerFault::Length) => BLOCK_LENGTH,
    }
}

fn tell_state(driver: &BlockDriver, door: &mut UasBlockDoor) -> u8
    ensures shown { IsShown driver.now door.old door.new }
    ensures none { result ≡ 0 }
{
    show_state(door, &driver.state());
    0
}

fn lend(driver: &mut BlockDriver, base: u64) -> u8
    ensures { IsLent driver.old driver.new base result }
{
    match driver.lend(base) {
        Ok(()) => 0,
        Err(fault) => lend_number(fault),
    }
}

fn take_reply(driver: &mut BlockDriver, door: &mut UasBlockDoor, bytes: &mut [u8]) -> u8
    ensures { (result, (driver.new, (door.new, bytes.new))) ≡ after_reply driver.old door.old bytes.old }
{
    if bytes.len() < SENSE_BYTES {
        return BLOCK_CALL;
    }
    match driver.take_reply() {
        Some(reply) => show_reply(door, bytes, &reply),
        None => door.good = 0,
    }
    0
}

fn restart(driver: &mut BlockDriver) -> u8
    ensures { (result, driver.new) ≡ after_restart driver.old }
{
    match driver.restart() {
        Ok(()) => 0,
        Err(_) => BLOCK_NOT_READY,
    }
}

fn abort(driver: &mut BlockDriver, tag: u16) -> u8
    ensures { (result, driver.new) ≡ after_abort driver.old tag }
{
    match driver.abort(tag) {
        Ok(()) => 0,
        Err(_) => BLOCK_NO_SUCH_TAG,
    }
}

fn shut_down(driver: &mut BlockDriver) -> u8
    ensures { (result, driver.new) ≡ after_shut_down driver.old }
{
    match driver.shut_down() {
        Ok(()) => 0,
        Err(_) => BLOCK_NOT_READY,
    }
}

/// Why the device at a port isn't used.
fn show_refusal(driver: &BlockDriver, door: &mut UasBlockDoor) -> u8
    ensures { (result, (driver.now, door.new)) ≡ after_refusal driver.now door.old }
{
    door.code = match driver.refusal(door.code) {
        Some(why) => why_number(why),
        None => 0,
    };
    0
}
