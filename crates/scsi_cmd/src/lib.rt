//! SCSI commands as a host and a device speak of them: what a CDB asks of a disk, the sense that answers a
//! faulty one, and the requests and replies that the layers above share.
//!
//! The nine commands are TEST UNIT READY and INQUIRY (SPC), and READ CAPACITY, READ and WRITE of 10 and of 16 bytes and
//! SYNCHRONIZE CACHE(10) (SBC). All fields of CDBs, of sense and of data are big endian.
//!
//! It promises what any 16 bytes ask of a unit of so many blocks, an operation or the sense that tells the
//! first fault, and that the CDB of an operation asks for that operation. The faults are tested in this order:
//!
//! 1. an operation code that is none of theirs;
//! 2. EVPD or a page on INQUIRY, a protect field that isn't 0 on READ or WRITE, more than 128 (`MOST_BLOCKS_MOVED`) blocks for
//!    either, another service action than that of READ CAPACITY(16);
//! 3. a first block that isn't on the unit, for a count of 0 too, or blocks behind the last one.
//!
//! DPO, the immediate bit of SYNCHRONIZE CACHE and every bit without a field are ignored. READ and WRITE ask for the same
//! work by 16 bytes as by 10.
//!
//! It stands on `arrayvec` for a reply's sense, on `byteorder` and on `thiserror`. Only `Buffer::try_clone`
//! takes memory.
#![tactic(auto)]

ghost use Rattle.std.specs.Prelude.{◌≡◌, ℕ, ◌+◌, ◌≤◌, ◌↔◌, [], length, take, drop, IsTrue, IfSome, IfOk};
ghost use Rattle.std.specs.Borrow.{Lends, sem, Array, u8 as byte};
ghost use Rattle.scsi_cmd.specs.contracts.Buffer.{the_row};
ghost use Rattle.scsi_cmd.specs.Sense.{sense_bytes};
ghost use Rattle.scsi_cmd.specs.Buffers.{with_bytes_at, written_at};

mod cdbs;
mod copies;
mod data;
mod laws;
mod parts;
mod submission;
mod works;

use arrayvec::ArrayVec;
pub use cdbs::{cdb, moves, parse};
pub use data::{capacity_data, inquiry_data, long_capacity_data};
pub use laws::{long_reads_are_reads, long_writes_are_writes};
use std::alloc::{AllocError, Global};
use std::marker::Model;
pub use submission::{submit_fault, task_fault};
use thiserror::Error;
pub use uas_profile::Direction;
use uas_profile::{BLOCK_BYTES, MOST_BLOCKS_MOVED, TASK_SLOT};
pub use works::{
    cdb_reports_attention, checked_work, parse_without_unit, reports_attention, work_of,
    work_without_unit,
};

/// The status GOOD (SAM).
pub const GOOD: u8 = 0x00;

/// The status CHECK CONDITION (SAM).
pub const CHECK_CONDITION: u8 = 0x02;

const _: () = prove!(GOOD == 0x00 && CHECK_CONDITION == 0x02);

/// An operation on one logical unit, as its CDB asks for it.
#[derive(Clone, Copy, Debug, PartialEq, Eq)]
pub enum Op {
    /// TEST UNIT READY (SPC).
    TestUnitReady,
    /// INQUIRY (SPC): the standard data, at most `allocation` bytes of it.
    Inquiry { allocation: u16 },
    /// READ CAPACITY(10) (SBC).
    ReadCapacity,
    /// READ(10) (SBC): `count` blocks from `lba` on.
    Read { lba: u32, count: u16, fua: bool },
    /// WRITE(10) (SBC): `count` blocks from `lba` on; with `fua` to the medium too.
    Write { lba: u32, count: u16, fua: bool },
    /// SYNCHRONIZE CACHE(10) (SBC): `count` blocks from `lba` on, or all from there for 0.
    Sync { lba: u32, count: u16 },
    /// READ(16) (SBC): `count` blocks from `lba` on.
    Read16 { lba: u64, count: u32, fua: bool },
    /// WRITE(16) (SBC): `count` blocks from `lba` on; with `fua` to the medium too.
    Write16 { lba: u64, count: u32, fua: bool },
    /// READ CAPACITY(16) (SBC): its data, at most `allocation` bytes of it.
    ReadCapacity16 { allocation: u32 },
}

/// What an operation does to a logical unit, whichever command asks for it.
#[derive(Debug, Drop)]
pub enum Work {
    /// Nothing.
    Nothing,
    /// It gives these bytes, all at once.
    Gives(ArrayVec<u8, INQUIRY_BYTES>),
    /// It gives `count` blocks from `lba` on.
    Reads { lba: u64, count: u32 },
    /// It takes `count` blocks from `lba` on, and where it goes `through` the medium takes them too.
    Writes { lba: u64, count: u32, through: bool },
    /// It brings `count` blocks from `lba` on to the medium, or all from there for 0.
    Synchronizes { lba: u32, count: u16 },
}

impl Work {
    ghost use Rattle.scsi_cmd.specs.Work.{work_bytes, work_direction};

    /// How many bytes it moves.
    pub fn bytes(&self) -> usize
        ensures { result ≡ work_bytes self.now }
    {
        match self {
            Work::Nothing | Work::Synchronizes { .. } => 0,
            Work::Gives(bytes) => bytes.len(),
            Work::Reads { count, .. } | Work::Writes { count, .. } => {
                BLOCK_BYTES * *count as usize
            }
        }
    }

    /// Which way it moves them.
    pub fn direction(&self) -> Direction
        ensures { result ≡ work_direction self.now }
    {
        match self {
            Work::Nothing | Work::Synchronizes { .. } => Direction::Nothing,
            Work::Gives(_) | Work::Reads { .. } => Direction::ToHost,
            Work::Writes { .. } => Direction::ToDevice,
        }
    }
}

/// Sense data: a sense key, an additional sense code and its qualifier (SPC).
#[derive(Clone, Copy, Debug, PartialEq, Eq)]
pub struct Sense {
    pub key: u8,
    pub asc: u8,
    pub ascq: u8,
}

/// Bytes of the standard INQUIRY data (SPC).
pub const INQUIRY_BYTES: usize = 36;

/// Bytes of the READ CAPACITY(16) data (SBC).
pub const LONG_CAPACITY_BYTES: usize = 32;

/// Bytes of sense data in the fixed format (SPC).
pub const SENSE_BYTES: usize = 18;

/// The most bytes of sense data in a reply.
pub const MAX_SENSE_BYTES: usize = 96;

const _: () = prove!(INQUIRY_BYTES == 36 && SENSE_BYTES == 18 && MAX_SENSE_BYTES == 96);

/// A sense of a key, a code and a qualifier.
macro_rules! sense {
    ($key:literal, $asc:literal, $ascq:literal) => {
        Sense {
            key: $key,
            asc: $asc,
            ascq: $ascq,
        }
    };
}

impl Sense {
    /// The operation code is none of the nine.
    pub const INVALID_OPERATION_CODE: Sense = sense!(0x5, 0x20, 0x00);

    /// A field of the CDB has a value that isn't supported.
    pub const INVALID_FIELD_IN_CDB: Sense = sense!(0x5, 0x24, 0x00);

    /// A block isn't on the unit.
    pub const OUT_OF_RANGE: Sense = sense!(0x5, 0x21, 0x00);

    /// No unit has this number.
    pub const UNIT_NOT_SUPPORTED: Sense = sense!(0x5, 0x25, 0x00);

    /// The unit was reset.
    pub const RESET_OCCURRED: Sense = sense!(0x6, 0x29, 0x03);

    /// A block could not be read.
    pub const UNRECOVERED_READ_ERROR: Sense = sense!(0x3, 0x11, 0x00);

    /// A block could not be written.
    pub const WRITE_ERROR: Sense = sense!(0x3, 0x0c, 0x00);

    /// The 18 bytes in the fixed format (SPC, fixed format sense data).
    pub fn bytes(&self) -> [u8; 18]
        ensures { result ≡ sense_bytes self.now }
    {
        [
            0x70, 0, self.key, 0, 0, 0, 0, 0x0a, 0, 0, 0, 0, self.asc, self.ascq, 0, 0, 0, 0,
        ]
    }

    /// Reads the 18 bytes of a sense; `None` for any other bytes.
    pub fn from_bytes(bytes: &[u8]) -> Option<Sense>
        ensures found { IfSome result (λ sense. bytes.now ≡ sense_bytes sense) }
        ensures every { (sense : Sense) → bytes.now ≡ sense_bytes sense → result ≡ Some sense }
    {
        if bytes.len() != SENSE_BYTES {
            return None;
        }
        let sense = Sense {
            key: bytes[2],
            asc: bytes[12],
            ascq: bytes[13],
        };
        if bytes == sense.bytes().as_slice() {
            Some(sense)
        } else {
            None
        }
    }
}

/// The bytes that a command brings or takes; contracts see the list of them.
#[derive(Debug, Drop)]
pub struct Buffer {
    bytes: Vec<u8>,
}

impl Buffer {
    /// The buffer of these bytes; takes no memory.
    pub fn from_vec(bytes: Vec<u8>) -> Buffer
        ensures { result ≡ bytes.items }
    {
        Self { bytes }
    }

    /// A buffer of no bytes; takes no memory.
    pub fn empty(alloc: Global) -> Buffer
        ensures { result ≡ [] }
    {
        Self {
            bytes: Vec::new(alloc),
        }
    }

    /// The bytes.
    pub fn as_slice(&self) -> &[u8]
        ensures { result.now ≡ self.now }
    {
        self.bytes.as_slice()
    }

    /// How many bytes it has.
    pub fn len(&self) -> usize
        ensures { result ≡ length self.now }
    {
        self.bytes.len()
    }

    /// Whether it has no bytes.
    pub fn is_empty(&self) -> bool
        ensures { IsTrue result ↔ (self.now ≡ []) }
    {
        self.bytes.is_empty()
    }

    /// The `len` bytes from byte `at` on, to be written; takes no memory.
    pub fn range_mut(&mut self, at: usize, len: usize) -> &mut [u8]
        requires { at + len ≤ length self.old }
        ensures* writes_back { sem 𝓛 (Lends the_row (Array byte 0) self.entry result (written_at self.entry.now at)) }
        ensures value { result.now ≡ take len (drop at self.old) }
        ensures len { length result.now ≡ len }
    {
        self.bytes.slice_mut(at..at + len)
    }

    /// Writes `bytes` over its own from byte `at` on; takes no memory.
    pub fn write_at(&mut self, at: usize, bytes: &[u8])
        requires { at + length bytes.now ≤ length self.old }
        ensures bytes { self.new ≡ with_bytes_at self.old at bytes.now }
        ensures len { length self.new ≡ length self.old }
    {
        self.range_mut(at, bytes.len()).copy_from_slice(bytes);
    }

    /// A copy of it.
    pub fn try_clone(&self, alloc: Global) -> Result<Buffer, AllocError>
        ensures { IfOk result (λ copy. copy ≡ self.now) }
    {
        let bytes = Vec::from_slice(alloc, self.as_slice())?;
        Ok(Buffer { bytes })
    }

    /// Whether both have the same bytes.
    pub fn same(&self, other: &Buffer) -> bool
        ensures { IsTrue result ↔ (self.now ≡ other.now) }
    {
        self.as_slice() == other.as_slice()
    }

    /// The bytes again; takes no memory.
    pub fn into_vec(self) -> Vec<u8>
        ensures { result.items ≡ self }
    {
        let Buffer { bytes } = self;
        bytes
    }
}

impl Model for Buffer {
    ghost use Rattle.std.specs.Prelude.{ℕ, List};

    ghost Value = { List ℕ };

    ghost view = { λ buffer. buffer.bytes.items };
}

/// What a task is asked to do.
#[derive(Clone, Debug, PartialEq, Eq, Drop)]
pub enum Request {
    /// Execute a command.
    Execute(Op),
    /// Manage other tasks of the client: those whose tickets were noted as this was submitted.
    Manage {
        task: Task,
        noted: ArrayVec<u64, TASK_SLOT>,
    },
}

/// A command: an operation, and the bytes that it brings or is to fill.
#[derive(Debug, Drop)]
pub struct Command {
    pub op: Op,
    pub buffer: Buffer,
}

/// A task management (SAM).
#[derive(Clone, Copy, Debug, PartialEq, Eq)]
pub enum Task {
    /// ABORT TASK of the command on this tag.
    Abort { tag: u16 },
    /// LOGICAL UNIT RESET.
    Reset,
    /// QUERY TASK of the command on this tag: whether the device has it.
    Query { tag: u16 },
}

impl Task {
    ghost use Rattle.std.specs.Prelude.{◌≡◌};
    ghost use Rattle.scsi_cmd.specs.Request.{ends_commands};

    /// Whether it ends commands: a query asks after one and changes none.
    pub fn ends_commands(&self) -> bool
        ensures { result ≡ ends_commands self.now }
    {
        match self {
            Task::Abort { .. } | Task::Reset => true,
            Task::Query { .. } => false,
        }
    }
}

/// What a submission came to.
#[derive(Debug, Drop)]
pub enum Reply {
    /// A command's status (GOOD without sense, else CHECK CONDITION), and its buffer as filled.
    Status {
        tag: u16,
        ticket: u64,
        status: u8,
        sense: ArrayVec<u8, 96>,
        buffer: Buffer,
    },
    /// A command that a task management ended, and its buffer as filled so far.
    Aborted {
        tag: u16,
        ticket: u64,
        buffer: Buffer,
    },
    /// The response code of a task management.
    Task {
        tag: u16,
        ticket: u64,
        code: u8,
    },
}

/// Why a submission is refused: the first of these that holds.
#[derive(Clone, Copy, Debug, PartialEq, Eq, Error)]
pub enum SubmitFault {
    #[error("no command tag of this client")]
    NotYours,
    #[error("tag in use")]
    InUse,
    #[error("buffer of another length than the operation moves")]
    BadLength,
    #[error("more than {MOST_BLOCKS_MOVED} blocks")]
    TooLong,
    #[error("ticket below {0}")]
    OutOfTurn(u64),
    #[error("no such task")]
    NoSuchTask,
}
