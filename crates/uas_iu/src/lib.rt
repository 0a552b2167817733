//! Information units of USB Attached SCSI (INCITS 471, information units): the messages that go
//! through the command pipe and the status pipe, as values and as bytes.
//!
//! | Unit | Bytes |
//! |---|---|
//! | Command, 32 | 01h, 0, tag, 0, 0, 0, 0, LUN (8), CDB (16) |
//! | Sense, 16 + n | 03h, 0, tag, 0, 0, status, seven zeros, n (2), sense (n), n at most 96 |
//! | Response, 8 | 04h, 0, tag, 0, 0, 0, response code |
//! | Task Management, 16 | 05h, 0, tag, function, 0, tag of the task, LUN (8) |
//!
//! Tags and n have two bytes, big endian. Priority, task attribute (SIMPLE) and additional CDB bytes
//! are not used, so their places hold 0; Read Ready and Write Ready, which only USB 2 needs, are not
//! read.
//!
//! What it promises: [`write`] gives the text of a unit (`specs/Units.antt`); [`read`] gives a unit
//! exactly for the texts of units, and that unit, and else the first of the five faults
//! (`specs/Faults.antt`) that holds. So reading what was written gives the unit back, and two units
//! have different texts (`proofs/Laws.antt`). Neither takes memory.
//!
//! It stands on `arrayvec`, whose vectors hold a unit's bytes and its sense, and on `byteorder`.
#![tactic(auto)]

mod lun;
mod reader;
mod writer;

use arrayvec::ArrayVec;
pub use lun::{lun_bytes, lun_number};
pub use reader::{answer_head, read};
use thiserror::Error;
use uas_profile::STATUS_BYTES;
pub use writer::{write, write_sense};

/// Byte 0 of a Command unit.
pub const COMMAND_ID: u8 = 0x01;

/// Byte 0 of a Sense unit.
pub const SENSE_ID: u8 = 0x03;

/// Byte 0 of a Response unit.
pub const RESPONSE_ID: u8 = 0x04;

/// Byte 0 of a Task Management unit.
pub const TASK_ID: u8 = 0x05;

const _: () = prove!(COMMAND_ID == 0x01 && SENSE_ID == 0x03);

const _: () = prove!(RESPONSE_ID == 0x04 && TASK_ID == 0x05);

/// The bytes of a Sense unit before its sense.
pub const SENSE_HEADER_BYTES: usize = 16;

/// The greatest number of sense bytes: the longest unit (`STATUS_BYTES`) is a Sense unit with so many.
pub const MAX_SENSE_BYTES: usize = STATUS_BYTES - SENSE_HEADER_BYTES;

/// The bytes of a Response unit.
pub const RESPONSE_BYTES: usize = 8;

/// The bytes of a Task Management unit.
pub const TASK_BYTES: usize = 16;

/// The bytes of a logical unit number.
pub const LUN_BYTES: usize = 8;

/// The bytes of a CDB's place, which a shorter CDB fills from the front.
pub const CDB_BYTES: usize = 16;

const _: () = prove!(
    SENSE_HEADER_BYTES == 16 && SENSE_HEADER_BYTES + MAX_SENSE_BYTES == STATUS_BYTES
);

const _: () = prove!(RESPONSE_BYTES == 8 && TASK_BYTES == 16);

const _: () = prove!(LUN_BYTES == 8 && CDB_BYTES == 16);

/// Response code: the task management function was carried out.
pub const TASK_COMPLETE: u8 = 0x00;

/// Response code: the unit that came could not be read.
pub const INVALID_INFORMATION_UNIT: u8 = 0x02;

/// Response code: the task management function is not supported.
pub const NOT_SUPPORTED: u8 = 0x04;

/// Response code: what a task management function asks for is so.
pub const TASK_SUCCEEDED: u8 = 0x08;

/// Response code: there is no such logical unit.
pub const INCORRECT_LUN: u8 = 0x09;

const _: () = prove!(
    TASK_COMPLETE == 0x00
        && INVALID_INFORMATION_UNIT == 0x02
        && NOT_SUPPORTED == 0x04
        && TASK_SUCCEEDED == 0x08
        && INCORRECT_LUN == 0x09
);

/// Task management function: end the task with a given tag.
pub const ABORT_TASK: u8 = 0x01;

/// Task management function: end all tasks of a logical unit and reset it.
pub const LOGICAL_UNIT_RESET: u8 = 0x08;

/// Task management function: tell whether the device has the task with a given tag.
pub const QUERY_TASK: u8 = 0x80;

const _: () = prove!(ABORT_TASK == 0x01 && LOGICAL_UNIT_RESET == 0x08 && QUERY_TASK == 0x80);

/// An information unit. A `tag` names the task that it belongs to, and a `lun` is the eight bytes of
/// a logical unit number, as [`lun_bytes`] gives them.
#[derive(Debug, PartialEq, Eq, Drop)]
pub enum Iu {
    /// From the host: begin the task `tag` with this CDB.
    Command {
        tag: u16,
        lun: [u8; LUN_BYTES],
        cdb: [u8; CDB_BYTES],
    },
    /// From the device: the task `tag` ended with this SCSI status, and with sense where there is any.
    Sense {
        tag: u16,
        status: u8,
        sense: ArrayVec<u8, MAX_SENSE_BYTES>,
    },
    /// From the device: the answer to a Task Management unit, or to bytes that are no unit.
    Response {
        tag: u16,
        code: u8,
    },
    /// From the host: a task management function, for the task `task_tag` where it names one.
    Task {
        tag: u16,
        function: u8,
        task_tag: u16,
        lun: [u8; LUN_BYTES],
    },
}

/// What a unit from the device tells, but for the sense.
#[derive(Clone, Copy, Debug, PartialEq, Eq)]
pub enum AnswerHead {
    /// A Sense unit's.
    Sense { tag: u16, status: u8 },
    /// A Response unit's.
    Response { tag: u16, code: u8 },
}

/// Why bytes are no information unit. They are tested in this order, and the first that holds is
/// answered.
#[derive(Clone, Copy, Debug, PartialEq, Eq, Error)]
pub enum IuFault {
    /// Byte 0 is no unit's.
    #[error("unknown identifier")]
    UnknownId,
    /// There is no byte, or there are fewer than the unit's fixed ones.
    #[error("too few bytes")]
    Short,
    /// There are more bytes than the unit can have.
    #[error("too many bytes")]
    Long,
    /// A byte that has to be 0 is not.
    #[error("reserved byte set")]
    ReservedSet,
    /// The additional CDB length is not 0, or the sense length is not the number of bytes left.
    #[error("wrong length field")]
    LengthField,
}
