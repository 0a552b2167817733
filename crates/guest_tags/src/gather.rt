//! Bytes that are gathered from TRBs.
ghost use Rattle.std.specs.Prelude.{◌≡◌, ◌+◌, ◌≤◌, [], ◌++◌, length, take, IfOk, OnOk, OnErr, Some, None, option_map};
ghost use Rattle.guest_memory.specs.Bytes.{bytes_from};

use guest_memory::{GuestMemory, Outside};
use std::alloc::{AllocError, Global};
use std::marker::Model;

/// How many bytes are gathered at most.
const GATHERED_BYTES: usize = 4096;

const _: () = prove!(GATHERED_BYTES == 4096);

/// Up to 4,096 bytes that came from TRBs; contracts see those that are there.
#[derive(Debug, Drop)]
pub struct Gather {
    bytes: Vec<u8>,
    len: usize,
}

impl Model for Gather {
    ghost use Rattle.std.specs.Prelude.{ℕ, List, take, ◌≡◌, ◌≤◌, vec_len};

    ghost Value = { List ℕ };

    ghost view = { λ gather. take gather.len gather.bytes.items };

    ghost invariant = { λ gather. (gather.len ≤ 4096) × (vec_len gather.bytes ≡ 4096) };
}

impl Gather {
    /// Nothing is gathered. The error is want of memory.
    pub fn new(alloc: Global) -> Result<Gather, AllocError>
        ensures { IfOk result (λ gather. gather ≡ []) }
    {
        Ok(Gather {
            bytes: vec![in alloc; 0; GATHERED_BYTES]?,
            len: 0,
        })
    }

    /// How many bytes are gathered.
    pub fn held(&self) -> usize
        ensures held { result ≡ length self.now }
        ensures most { result ≤ 4096 }
    {
        self.len
    }

    /// The bytes.
    pub fn bytes(&self) -> &[u8]
        ensures { result.now ≡ self.now }
    {
        &self.bytes[..self.len]
    }

    /// Nothing is gathered any more.
    pub fn clear(&mut self)
        ensures { self.new ≡ [] }
    {
        self.len = 0;
    }

    /// Gathers bytes.
    pub fn put(&mut self, bytes: &[u8])
        requires { length self.old + length bytes.now ≤ 4096 }
        ensures { self.new ≡ self.old ++ bytes.now }
    {
        put_at(&mut self.bytes, self.len, bytes);
        self.len += bytes.len();
    }

    /// Gathers so many bytes from an address on. Refused where one of them isn't there, and then nothing changes.
    pub fn draw<M: GuestMemory>(&mut self, memory: &M, at: u64, count: usize) -> Result<(), Outside>
        requires { length self.old + count ≤ 4096 }
        ensures drawn { OnOk result (Some self.new ≡ option_map (λ bytes. self.old ++ bytes) (bytes_from (M.contents memory.now) at count)) }
        ensures outside { OnErr result (bytes_from (M.contents memory.now) at count ≡ None) }
        ensures as_before { OnErr result (self.new ≡ self.old) }
    {
        read_at(&mut self.bytes, self.len, memory, at, count)?;
        self.len += count;
        Ok(())
    }
}

/// Puts bytes in the place of as many, from a place on.
#[tactic(auto, using(crate::proofs::Gathered::gathered))]
pub(crate) fn put_at(cells: &mut [u8], start: usize, bytes: &[u8])
    requires { start + length bytes.now ≤ length cells.old }
    ensures len { length cells.new ≡ length cells.old }
    ensures bytes { take (start + length bytes.now) cells.new ≡ take start cells.old ++ bytes.now }
{
    cells[start..start + bytes.len()].copy_from_slice(bytes);
}

/// Puts so many bytes from an address on in the place of as many, from a place on.
#[tactic(auto, using(crate::proofs::Gathered::drawn, crate::proofs::Gathered::kept))]
fn read_at<M: GuestMemory>(
    cells: &mut [u8],
    start: usize,
    memory: &M,
    at: u64,
    count: usize,
) -> Result<(), Outside>
    requires { start + count ≤ length cells.old }
    ensures len { length cells.new ≡ length cells.old }
    ensures drawn { OnOk result (Some (take (start + count) cells.new)
        ≡ option_map (λ bytes. take start cells.old ++ bytes) (bytes_from (M.contents memory.now) at count)) }
    ensures outside { OnErr result (bytes_from (M.contents memory.now) at count ≡ None) }
    ensures as_before { OnErr result (take start cells.new ≡ take start cells.old) }
{
    memory.read(at, &mut cells[start..start + count])
}
