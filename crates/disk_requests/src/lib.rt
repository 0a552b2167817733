//! What a host asks of a SCSI disk behind USB Attached SCSI (SPC-4, SBC-3, INCITS 471), and what the disk's answers say.
//!
//! ```text
//!     Request, Asking --request_cdb, asking_cdb--> CDB --command_unit--> Command unit --> disk
//!     StatusUnit <--read_status-- status unit <-- disk     InquiryData, Capacity, BlockLimits <--read_..-- data <-- disk
//! ```
//!
//! A [`Request`] is what the disk's users ask; an [`Asking`] is what a host asks to bring a disk up. A disk that can do 10-byte CDBs has them; one
//! of more than 2^32 blocks those of 16 bytes. [`refusal_of`] says which requests aren't sent at all.
//!
//! Answers come from a disk that isn't trusted: each byte string has an answer. Reserved bits aren't looked at, for real disks set them; what is
//! shorter than its fields ask for is refused, or its missing fields are 0 where this is said.
//!
//! What is promised: each call's answer is the definition of its name (`specs/`). No call takes memory. It stands on the CDBs of `scsi_cmd`, the
//! units of `uas_iu`, and on `arrayvec` and `thiserror`.
#![tactic(auto)]

mod answers;
mod commands;
mod fields;
mod laws;
mod refusals;
mod senses;
mod units;

pub use answers::{
    BlockLimits, Capacity, InquiryData, ShortCapacity, lists_page, read_capacity10,
    read_capacity16, read_inquiry, read_limits,
};
use arrayvec::ArrayVec;
pub use commands::{asking_cdb, request_cdb, unmap_list};
pub use laws::{rows_are_read, rows_are_written, units_are_read};
pub use refusals::{DiskShape, Refusal, refusal_of};
pub use senses::{Readiness, read_sense, readiness_of};
use thiserror::Error;
use uas_iu::MAX_SENSE_BYTES;
pub use units::{command_unit, read_status, task_unit};

/// The bytes that READ CAPACITY(16) is asked for.
pub const LONG_CAPACITY_BYTES: u32 = 32;

const _: () = prove!(LONG_CAPACITY_BYTES == 32);

/// What a disk is asked by its users. Blocks are the disk's logical blocks.
#[derive(Clone, Copy, Debug, PartialEq, Eq)]
pub enum Request {
    /// Read `count` blocks from `block` on.
    Read { block: u64, count: u32 },
    /// Write them; with `fua` to the medium too.
    Write { block: u64, count: u32, fua: bool },
    /// Bring all blocks written to the medium.
    Sync,
    /// Unmap `count` blocks from `block` on.
    Unmap { block: u64, count: u32 },
    /// Tell whether the disk is ready.
    Ready,
}

/// What a host asks to bring a disk up.
#[derive(Clone, Copy, Debug, PartialEq, Eq)]
pub enum Asking {
    /// INQUIRY: at most `length` bytes of the standard data, or of a vital product data page.
    Inquiry { page: Option<u8>, length: u16 },
    TestUnitReady,
    /// START STOP UNIT with START set: the answer comes once the disk runs.
    StartUnit,
    ReadCapacity10,
    ReadCapacity16,
}

/// What a disk sends on its status pipe.
#[derive(Clone, Debug, PartialEq, Eq, Drop)]
pub struct StatusUnit {
    /// The tag of the command or task management function.
    pub tag: u16,
    pub kind: StatusKind,
}

/// The kinds of these units.
#[derive(Clone, Debug, PartialEq, Eq, Drop)]
pub enum StatusKind {
    /// A command ended with this SCSI status, and with sense where there is any.
    Sense {
        status: u8,
        sense: ArrayVec<u8, MAX_SENSE_BYTES>,
    },
    /// The response code of a task management function, or of a unit that wasn't taken.
    Response {
        code: u8,
    },
    /// Data may be read, or written; only USB 2 needs these.
    ReadReady,
    WriteReady,
}

/// Why a disk isn't used.
#[derive(Clone, Copy, Debug, PartialEq, Eq, Error)]
pub enum DiskFault {
    /// INQUIRY data of fewer than 36 bytes, of another device type, or of no unit.
    #[error("not a direct access block device")]
    NotADisk = 1,
    /// READ CAPACITY data that are too short, or tell 2^64 blocks.
    #[error("capacity data are too short or tell too many blocks")]
    BadCapacity,
    /// Blocks of fewer than 512 bytes or more than 4,096.
    #[error("blocks of fewer than 512 or more than 4096 bytes")]
    BlockLength,
}
