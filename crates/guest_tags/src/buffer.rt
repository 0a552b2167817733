//! What a Normal TRB names.
use guest_memory::rings::Flags;

/// A Normal TRB's buffer: its address, its length in bytes, and the TRB's flags.
#[derive(Clone, Copy, Debug, PartialEq, Eq)]
pub struct Buffer {
    pub pointer: u64,
    pub length: u32,
    pub flags: Flags,
}
