//! What is kept of a tag beside the device.
use crate::chunk::Chunk;
use crate::unit::Unit;

/// A tag: the chunk that moves, whether its task gave bytes or ended its TD, whether what it still gives is dropped, the information
/// unit that goes out, and how many overlaps are to be answered.
#[derive(Debug, Drop)]
pub struct Tag {
    pub chunk: Chunk,
    pub gave: bool,
    pub drops: bool,
    pub unit: Unit,
    pub overlaps: u32,
}
