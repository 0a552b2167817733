//! The transfers of a trace: which TDs were submitted, completed or taken off, step by step, as a capture's records.
//!
//! A trace is the text that `uas_trace` writes: a line for each step, and below it what the step wrote. [`news_in`] reads a line as far
//! as a capture goes by it ([`News`]): a step, a TRB on a pipe's ring, bytes that were moved, a Transfer Event, a ring whose front was
//! moved. [`Desk`] keeps the TDs that are under way and answers what became of one ([`Change`]): it is submitted when its last TRB was
//! put, completed when its event was posted, and taken off when its ring's front was moved past it. [`capture_of`] takes a trace line by line
//! and answers the capture: a record of each change, with the bytes that went with it, which are [`Transfers`].
//!
//! What a line says is specs/urbs/Lines.antt, what becomes of TDs specs/urbs/Tds.antt, and which record a change has
//! specs/urbs/Records.antt; so the bytes of a capture are a function of the trace's text and the bytes that its commands moved.
//!
//! It stands on the codec of captures, on TRBs and the address maps, and on the words of a text; it knows no bus.

mod desk;
mod lines;
mod scribe;
mod transfers;

use desk::Desk;
pub use lines::{address_at, news_in, number_at};
pub use scribe::capture_of;
use stream_array::Pipe;
pub use transfers::Transfers;

/// Whose a TD is: the client and its ticket.
#[derive(Clone, Copy, Debug, PartialEq, Eq)]
pub struct Owner {
    pub client: u64,
    pub ticket: u64,
}

/// A TD on a pipe's ring.
#[derive(Clone, Copy, Debug, PartialEq, Eq)]
pub struct Td {
    /// The number of its transfer.
    pub number: u64,
    pub pipe: Pipe,
    pub stream: u16,
    pub owner: Owner,
    /// The address of its first TRB.
    pub first: u64,
    /// The address of its last TRB.
    pub last: u64,
    /// How many bytes it has room for.
    pub length: u32,
    /// How many bytes were moved in chunks.
    pub moved: u32,
}

/// A TD of which not every TRB was put.
#[derive(Clone, Copy, Debug, PartialEq, Eq)]
pub struct Begun {
    pub first: u64,
    pub length: u32,
}

/// What a line of a trace tells.
#[derive(Clone, Copy, Debug, PartialEq, Eq)]
pub enum News {
    /// A step acts; a submission and a task management have an owner.
    Step(Option<Owner>),
    /// A TRB was put on a pipe's ring, the last of its TD or not.
    Put {
        pipe: Pipe,
        stream: u16,
        address: u64,
        length: u32,
        is_last: bool,
    },
    /// Bytes were moved on a pipe's stream.
    Moved {
        pipe: Pipe,
        stream: u16,
        length: u32,
    },
    /// An event tells of the TRB at an address.
    Posted {
        pointer: u64,
        residual: u32,
        code: u8,
    },
    /// The front of a ring was moved.
    Passed {
        pipe: Pipe,
        stream: u16,
    },
}

/// What became of a TD.
#[derive(Clone, Copy, Debug, PartialEq, Eq)]
pub enum Change {
    /// Its last TRB was put.
    Submitted(Td),
    /// Its event was posted.
    Completed { td: Td, residual: u32, code: u8 },
    /// It was taken off its ring.
    Unlinked(Td),
}
