//! A logical unit of which C says what there is to tell, in a record of bytes that may grow.
//!
//! The record begins with its size, which says how many bytes its user has: of 152 those behind them are 0, and those behind 152 have to be. A
//! field of zeros is as usual. The faults are tested in this order: the size, the blocks, their length, and then any other field.
//!
//! What is promised: [`disk_asked`] is the function `disk_asked` of `specs/Records.antt`, for all bytes. [`first_size`] cuts off the first of
//! records that lie one behind another, each as long as it says, so that an array of them may grow too.
//!
//! It stands on `host_commands` for the logical unit and what is said of it (`disk_units`). It takes no memory.
#![tactic(auto)]

mod fields;
mod record;

pub use fields::{RECORD_BYTES, first_size};
pub use record::disk_asked;

/// Why a record is no logical unit: the first of these that holds.
#[derive(Clone, Copy, Debug, PartialEq, Eq)]
pub enum RecordFault {
    /// Fewer than 16 bytes, others than it says, or more than 152 of which some behind those aren't 0.
    Size,
    /// No block, or more than 2^48.
    Blocks,
    /// Neither 512 nor 4,096 bytes of a block.
    BlockBytes,
    /// Another field that can't be told, or isn't served.
    Field,
}
