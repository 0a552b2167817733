//! A tag's chunk buffer.
ghost use Rattle.std.specs.Prelude.{◌≡◌, ◌+◌, ◌-◌, ◌<◌, ◌≤◌, List, [], ◌++◌, length, take, drop, IfOk, unwrap_or, is_some, true, replicate};
ghost use Rattle.guest_tags.specs.Devices.{Kind};

use crate::device::{Phase, UasDevice};
use crate::gather::put_at;
use std::alloc::{AllocError, Global};
use std::marker::Model;

/// How many bytes a chunk has at most.
const CHUNK_BYTES: usize = 4096;

const _: () = prove!(CHUNK_BYTES == 4096);

/// Up to 4,096 bytes between a device and TRBs; contracts see those that are held.
#[derive(Debug, Drop)]
pub struct Chunk {
    bytes: Vec<u8>,
    from: usize,
    to: usize,
}

impl Model for Chunk {
    ghost use Rattle.std.specs.Prelude.{ℕ, List, take, drop, ◌≡◌, ◌≤◌, vec_len};

    ghost Value = { List ℕ };

    ghost view = { λ chunk. drop chunk.from (take chunk.to chunk.bytes.items) };

    ghost invariant = { λ chunk. (chunk.from ≤ chunk.to) × (chunk.to ≤ 4096) × (vec_len chunk.bytes ≡ 4096) };
}

impl Chunk {
    /// An empty buffer. The error is want of memory.
    pub fn new(alloc: Global) -> Result<Chunk, AllocError>
        ensures { IfOk result (λ chunk. chunk ≡ []) }
    {
        Ok(Chunk {
            bytes: vec![in alloc; 0; CHUNK_BYTES]?,
            from: 0,
            to: 0,
        })
    }

    /// How many bytes are held.
    pub fn held(&self) -> usize
        ensures held { result ≡ length self.now }
        ensures most { result ≤ 4096 }
    {
        self.to - self.from
    }

    /// Holds nothing any more.
    pub fn clear(&mut self)
        ensures { self.new ≡ [] }
    {
        self.from = 0;
        self.to = 0;
    }

    /// The next bytes, as many as asked for.
    pub fn front(&self, count: usize) -> &[u8]
        requires { count ≤ length self.now }
        ensures { result.now ≡ take count self.now }
    {
        &self.bytes[self.from..self.from + count]
    }

    /// Lets the next bytes go, as many as asked for.
    pub fn advance(&mut self, count: usize)
        requires { count ≤ length self.old }
        ensures { self.new ≡ drop count self.old }
    {
        self.from += count;
    }

    /// Holds these bytes. What was held is dropped.
    pub fn hold(&mut self, bytes: &[u8])
        requires { length bytes.now ≤ 4096 }
        ensures { self.new ≡ bytes.now }
    {
        put_at(&mut self.bytes, 0, bytes);
        self.from = 0;
        self.to = bytes.len();
    }

    /// Holds the next chunk of a tag that gives so many bytes, or nothing at a bad block. What was held is dropped.
    pub fn refill<D: UasDevice>(&mut self, device: &mut D, tag: u16, count: usize)
        requires gives { D.kind.phase (D.state device.old) tag ≡ Phase.Gives count }
        requires most { count ≤ 4096 }
        ensures chunk { self.new ≡ unwrap_or (D.kind.given (D.state device.old) tag) [] }
        ensures device { D.state device.new ≡ D.kind.gave (D.state device.old) tag }
    {
        self.to = give_into(&mut self.bytes, device, tag, count);
        self.from = 0;
    }
}

/// Puts the next chunk of a tag that gives so many bytes into the front of `cells`, and answers how many there are: none at a bad
/// block.
#[tactic(auto, using(crate::proofs::Chunks::front_of_given))]
fn give_into<D: UasDevice>(cells: &mut [u8], device: &mut D, tag: u16, count: usize) -> usize
    requires gives { D.kind.phase (D.state device.old) tag ≡ Phase.Gives count }
    requires most { count ≤ length cells.old }
    ensures chunk { take result cells.new ≡ unwrap_or (D.kind.given (D.state device.old) tag) [] }
    ensures most { result ≤ length cells.old }
    ensures len { length cells.new ≡ length cells.old }
    ensures device { D.state device.new ≡ D.kind.gave (D.state device.old) tag }
{
    if device.give(tag, &mut cells[..count]) {
        count
    } else {
        0
    }
}
