//! The requests of a disk's users: which are taken, what is put for one, and what it came to.
//!
//! ```text
//!     Request, segments --submitted--> Submission: way, CDB, UNMAP list, pieces     status unit, bytes that moved --outcome_of--> Outcome
//!     Submission, tag --pieces_of--> the pieces of its TD     Submission --wanted--> the bytes that it moves
//! ```
//!
//! [`submitted`] refuses, in this order: `Range` where a block isn't there; `TooLong`; `NoUnmap`; `NoFua`; `Length` where other bytes are lent than
//! are moved, or a segment has none; `Alignment` for a segment that isn't of whole 512 bytes at a multiple of 512; `Reach` for one that ends behind the
//! last address that the controller reaches; `Pieces` for more TRBs than a TD has. Nothing is changed by any of them.
//!
//! UNMAP's data are its list, which is stored at its tag's place: so `Put` and `data_end` take the pieces of [`pieces_of`], not a submission's own, and
//! `outcome_of` the bytes of [`wanted`]. Of a TD that was stopped [`stopped_at`] tells what was moved.
//!
//! What is promised: each call's answer is the definition of its name (`specs/`). No call takes memory. It stands on `disk_ready`, `disk_requests`,
//! `host_layout`, `host_trbs`, `uas_iu`, `arrayvec` and `thiserror`.
#![tactic(auto)]

mod outcomes;
mod submissions;
mod tds;

use arrayvec::ArrayVec;
use disk_ready::Way;
use host_layout::{MOST_PIECES, Piece};
pub use outcomes::{DataEnd, Outcome, data_end, moved_in, outcome_of, stopped_at};
pub use submissions::submitted;
pub use tds::{pieces_of, wanted};
use thiserror::Error;

/// Why a request isn't taken.
#[derive(Clone, Copy, Debug, PartialEq, Eq, Error)]
pub enum SubmitFault {
    #[error("a block isn't on the disk")]
    Range = 1,
    #[error("more blocks than one request can have")]
    TooLong,
    #[error("the disk can't unmap blocks")]
    NoUnmap,
    #[error("the disk has no forced unit access")]
    NoFua,
    #[error("other bytes are lent than are moved")]
    Length,
    #[error("a segment isn't of whole 512 bytes at a multiple of 512")]
    Alignment,
    #[error("the controller doesn't reach a segment")]
    Reach,
    #[error("more pieces than a transfer can have")]
    Pieces,
}

/// What is put for a request: the way of its data, its CDB, and the pieces of its segments. UNMAP lends none: its data are its list, which
/// stands at its tag's place ([`pieces_of`]).
#[derive(Clone, Drop)]
pub struct Submission {
    pub way: Way,
    pub cdb: [u8; 16],
    pub list: Option<[u8; 32]>,
    pub pieces: ArrayVec<Piece, MOST_PIECES>,
}
