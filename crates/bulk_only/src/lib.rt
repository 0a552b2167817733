//! Bulk-Only Transport (USB Mass Storage Class, Bulk-Only Transport 1.0, "BOT"): command and status wrappers, and what a transfer comes to.
//!
//! ```text
//!     host --CBW (31 bytes)--> disk     data: H bytes, to the host or to the disk     host <--CSW (13 bytes)-- disk
//! ```
//!
//! | Wrapper | Bytes, numbers little endian |
//! |---|---|
//! | CBW (5.1) | 43425355h (4), tag (4), H, the data length (4), flags (1; bit 7: to the host), LUN (1; bits 3:0), CDB length (1; bits 4:0), CDB (16) |
//! | CSW (5.2) | 53425355h (4), tag (4), residue (4), status (1): 0 passed, 1 failed, 2 phase error |
//!
//! [`read_cbw`] takes each CBW that is valid (6.2.1), and names the first fault of other bytes. Reserved bits aren't looked at, nor the bytes of
//! the CDB's place behind its length. The host expects H bytes in one direction, and the device gives, takes or does nothing: [`case_of`] is which
//! of the thirteen cases (6.7) that is, and [`verdict_of`] the status and the residue that the CSW tells.
//!
//! What is promised: each call's answer is the definition of its name (`specs/`). A wrapper is read from the bytes that it is written as, and
//! written as the bytes that it was read from ([`cbws_are_read_back`], [`cbws_are_written_back`], [`csws_are_read_back`],
//! [`csws_are_written_back`]). No residue is greater than H; the phase error is told in the cases 2, 3, 7, 8, 10 and 13 alone; else the residue is
//! H less what moved ([`phase_errors_are_six_cases`], [`residues_are_what_is_left`]). No call takes memory. It stands on `byteorder` and `thiserror`.
#![tactic(auto)]

mod cases;
mod command;
mod laws;
mod status;

pub use cases::{Asked, Case, Done, asked_of, case_of, verdict_of};
pub use command::{CBW_BYTES, CBW_SIGNATURE, CDB_BYTES, Cbw, CbwFault, cleared_lun, read_cbw};
pub use laws::{
    cbws_are_read_back, cbws_are_written_back, csws_are_read_back, csws_are_written_back,
    phase_errors_are_six_cases, residues_are_what_is_left, rows_are_read, rows_are_told,
};
pub use status::{CSW_BYTES, CSW_SIGNATURE, Csw, CswStatus, read_csw};
