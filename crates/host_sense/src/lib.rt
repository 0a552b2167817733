//! Sense data that say where (SPC, sense data): the block that is bad, the byte that differs, the field that is wrong, in the fixed and in the
//! descriptor format.
//!
//! | Detail | Fixed format | Descriptor format |
//! |---|---|---|
//! | none | 18 bytes | 8 bytes |
//! | [`Detail::Information`] | bytes 3 to 6, and VALID, where it is below 2^32 | an information descriptor of 12 bytes |
//! | [`Detail::Field`] | bytes 15 to 17 | a sense key specific descriptor of 8 bytes |
//!
//! What is promised: [`SenseData::bytes`] are `sense_data_bytes` of `specs/Formats.antt`. In the fixed format without a detail they are
//! `scsi_cmd`'s, and in both formats byte 7 says how many bytes follow it (`sense_tells_its_length`).
//!
//! It stands on `scsi_cmd` for the key and the codes, and on `arrayvec` for the bytes. It takes no memory.
#![tactic(auto)]

mod formats;
mod laws;

pub use laws::sense_tells_its_length;
use scsi_cmd::Sense;

/// Where a field at fault is.
#[derive(Clone, Copy, Debug, PartialEq, Eq)]
pub enum FieldPlace {
    /// In the CDB.
    Cdb,
    /// In the list of parameters that came with it.
    Parameters,
}

/// The first field at fault, with ILLEGAL REQUEST.
#[derive(Clone, Copy, Debug, PartialEq, Eq)]
pub struct FieldPointer {
    pub place: FieldPlace,
    /// The byte in which it begins.
    pub byte: u16,
    /// The number of its highest bit, 0 to 7, where it is less than a byte.
    pub bit: Option<u8>,
}

/// What is told beside the key and the codes.
#[derive(Clone, Copy, Debug, PartialEq, Eq)]
pub enum Detail {
    Nothing,
    /// The first bad block, or the first differing byte's place in what came.
    Information(u64),
    Field(FieldPointer),
}

/// Sense data, before they are written in one of their formats.
#[derive(Clone, Copy, Debug, PartialEq, Eq)]
pub struct SenseData {
    pub sense: Sense,
    pub detail: Detail,
}

/// How sense data are written (D_SENSE of the control mode page, DESC of REQUEST SENSE).
#[derive(Clone, Copy, Debug, PartialEq, Eq)]
pub enum SenseFormat {
    Fixed,
    Descriptor,
}

/// The most bytes of sense data.
pub const MOST_SENSE_BYTES: usize = 20;

const _: () = prove!(MOST_SENSE_BYTES == 20);
