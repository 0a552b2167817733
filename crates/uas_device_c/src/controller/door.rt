//! The controller's door, and what its numbers name.
ghost use Rattle.std.specs.Prelude.{◌≡◌};
ghost use Rattle.uas_device_c.specs.ControllerCall.{controller_call, controller_refusal, controller_step, ring_numbered};

use c_common::ShownFaults;
use c_common::faults::{
    CONTROLLER_ADDRESS, CONTROLLER_FULL, CONTROLLER_LENGTH, CONTROLLER_LENT,
    CONTROLLER_NOT_CONSUMED, CONTROLLER_NOT_LENT, CONTROLLER_RANGE, CONTROLLER_RING,
    CONTROLLER_TAG, CONTROLLER_UNIT,
};
use stream_array::Pipe;
use uas_controller::Refusal;

/// What a call of the controller asks and answers. C writes `call` and what that call reads; the call writes what it answers.
#[repr(C)]
#[derive(Clone, Copy)]
pub struct UasControllerDoor {
    /// Of WRITE, READ and RECLAIM. Out of PUT: where the bytes stand. Out of EVENT: the TRB that the event is about.
    pub address: u64,
    /// Of DOORBELL. Out of EVENT: bytes that weren't moved. Out of TAKE_BACK: how many bytes were lent.
    pub value: u32,
    /// Of BLOCKS and MEDIUM: the first block.
    pub lba: u32,
    /// Of PUT, RECLAIM and CONTEXT.
    pub stream: u16,
    /// Of STEP, LEND and TAKE_BACK. Out of STEP, where it acted.
    pub tag: u16,
    /// Of BLOCKS and MEDIUM: the unit's number.
    pub unit: u16,
    /// The call, 1 to 12.
    pub call: u8,
    /// Of PUT, RECLAIM and CONTEXT: 1 status, 2 data in, 3 data out, 4 the command pipe's, 5 the controller's own command ring.
    pub ring: u8,
    /// Of STEP: 1 command pipe, 2 data, 3 status, 4 engine.
    pub step: u8,
    /// Out of STEP and EVENT: 0 or 1.
    pub acted: u8,
    /// Out of EVENT: the type of its TRB, 32 or 33. It is `type` in C.
    pub kind: u8,
    /// Out of EVENT: the completion code.
    pub code: u8,
    /// Out of EVENT: the endpoint ID, 0 of a command's event.
    pub endpoint: u8,
    /// Out of EVENT.
    pub slot: u8,
    pub reserved: [u8; 2],
}

/// A call, by its number.
#[derive(Clone, Copy)]
pub(crate) enum ControllerCall {
    Put,
    Doorbell,
    Step,
    Event,
    Write,
    Read,
    Lend,
    TakeBack,
    Reclaim,
    Context,
    Blocks,
    Medium,
}

/// A step, by its number.
#[derive(Clone, Copy)]
pub(crate) enum ControllerStep {
    CommandPipe,
    Data,
    Status,
    Engine,
}

/// A ring, by its number.
#[derive(Clone, Copy)]
pub(crate) enum Ring {
    Of(Pipe),
    Commands,
}

/// Bytes of an item of a ring, and of a context.
pub(crate) const ITEM_BYTES: usize = 16;

/// By which a look at blocks is refused.
pub(crate) const SHOWN: ShownFaults = ShownFaults {
    no_unit: CONTROLLER_UNIT,
    not_whole: CONTROLLER_LENGTH,
    beyond: CONTROLLER_RANGE,
};

pub(crate) fn call_numbered(number: u8) -> Option<ControllerCall>
    ensures { result ≡ controller_call number }
{
    match number {
        1 => Some(ControllerCall::Put),
        2 => Some(ControllerCall::Doorbell),
        3 => Some(ControllerCall::Step),
        4 => Some(ControllerCall::Event),
        5 => Some(ControllerCall::Write),
        6 => Some(ControllerCall::Read),
        7 => Some(ControllerCall::Lend),
        8 => Some(ControllerCall::TakeBack),
        9 => Some(ControllerCall::Reclaim),
        10 => Some(ControllerCall::Context),
        11 => Some(ControllerCall::Blocks),
        12 => Some(ControllerCall::Medium),
        _ => None,
    }
}

pub(crate) fn step_numbered(number: u8) -> Option<ControllerStep>
    ensures { result ≡ controller_step number }
{
    match number {
        1 => Some(ControllerStep::CommandPipe),
        2 => Some(ControllerStep::Data),
        3 => Some(ControllerStep::Status),
        4 => Some(ControllerStep::Engine),
        _ => None,
    }
}

/// The ring that a door names.
pub(crate) fn ring_numbered(door: &UasControllerDoor) -> Option<Ring>
    ensures { result ≡ ring_numbered door.now }
{
    match door.ring {
        1 => Some(Ring::Of(Pipe::Status)),
        2 => Some(Ring::Of(Pipe::DataIn)),
        3 => Some(Ring::Of(Pipe::DataOut)),
        4 => Some(Ring::Of(Pipe::Command)),
        5 if door.stream == 0 => Some(Ring::Commands),
        _ => None,
    }
}

pub(crate) fn refusal_number(refusal: Refusal) -> u8
    ensures { result ≡ controller_refusal refusal }
{
    match refusal {
        Refusal::NoRing => CONTROLLER_RING,
        Refusal::Full => CONTROLLER_FULL,
        Refusal::BadAddress => CONTROLLER_ADDRESS,
        Refusal::NoTag => CONTROLLER_TAG,
        Refusal::TooLong => CONTROLLER_LENGTH,
        Refusal::AlreadyLent => CONTROLLER_LENT,
        Refusal::NotLent => CONTROLLER_NOT_LENT,
        Refusal::NotConsumed => CONTROLLER_NOT_CONSUMED,
    }
}
