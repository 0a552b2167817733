//! What is asked for of disks: how many of them, of how many blocks, and which of their blocks.

/// A disk for each client: a unit of its own, of zeroed blocks of 512 bytes.
#[derive(Clone, Copy, Debug, PartialEq, Eq)]
pub struct Disks {
    /// How many clients there are: 1 to 31, and no more than fit into 248 tags.
    pub clients: usize,
    /// How many tags each client has: 2 to 16.
    pub tags: usize,
    /// How many blocks each unit has: 1 to 65,536.
    pub blocks: u32,
    /// The block that is bad in every unit that has it.
    pub bad: Option<u32>,
}

/// Blocks that follow one another.
#[derive(Clone, Copy, Debug, PartialEq, Eq)]
pub struct Extent {
    /// The number of the first.
    pub lba: u32,
    /// How many there are.
    pub count: u16,
}
