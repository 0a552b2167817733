// The bytes of one buffer, and the buffers of one tag.
ghost use Rattle.std.specs.Prelude.{◌≡◌, ◌≢◌, ◌+◌, ◌≤◌, length, take, drop, replicate, None, IfOk};
ghost use Rattle.std.specs.Borrow.{sem};

use crate::{Buffer, Bytes, NoMemory, TagBuffers};
use std::alloc::Global;
use uas_profile::{COMMAND_BYTES, STATUS_BYTES};

impl Bytes {
    ghost use Rattle.frame_store.specs.BytesLending.{LendsPart};

    pub(crate) fn zeros(alloc: Global, len: usize) -> Result<Bytes, NoMemory>
        ensures { IfOk result (λ bytes. bytes ≡ replicate len 0) }
    {
        Ok(Bytes {
            bytes: vec![in alloc; 0; len]?,
        })
    }

    pub(crate) fn len(&self) -> usize
        ensures { result ≡ length self.now }
    {
        self.bytes.len()
    }

    pub(crate) fn as_slice(&self) -> &[u8]
        ensures { result.now ≡ self.now }
    {
        &self.bytes
    }

    pub(crate) fn part(&self, from: usize, len: usize) -> &[u8]
        requires within { from + len ≤ length self.now }
        ensures value { result.now ≡ take len (drop from self.now) }
        ensures len { length result.now ≡ len }
    {
        &self.bytes[from..from + len]
    }

    pub(crate) fn part_mut(&mut self, from: usize, len: usize) -> &mut [u8]
        requires within { from + len ≤ length self.old }
        ensures* writes_back { sem 𝓛 (LendsPart self.entry from result) }
        ensures value { result.now ≡ take len (drop from self.old) }
        ensures len { length result.now ≡ len }
    {
        self.bytes.slice_mut(from..from + len)
    }
}

impl TagBuffers {
    ghost use Rattle.frame_store.specs.BuffersLending.{LendsBufferPart};
    ghost use Rattle.frame_store.specs.Buffers.{bytes_in, opening_buffers};

    #[tactic(auto, unfolding(crate::specs::Buffers::opening_buffers))]
    pub(crate) fn new(alloc: Global) -> Result<TagBuffers, NoMemory>
        ensures { IfOk result (λ held. held ≡ opening_buffers) }
    {
        Ok(TagBuffers {
            command: Bytes::zeros(alloc, COMMAND_BYTES)?,
            status: Bytes::zeros(alloc, STATUS_BYTES)?,
            lent: None,
        })
    }

    pub(crate) fn len(&self, buffer: Buffer) -> usize
        ensures { result ≡ length (bytes_in self.now buffer) }
    {
        match buffer {
            Buffer::Command => self.command.len(),
            Buffer::Status => self.status.len(),
            Buffer::Window => match &self.lent {
                Some(bytes) => bytes.len(),
                None => 0,
            },
        }
    }

    pub(crate) fn part(&self, buffer: Buffer, from: usize, len: usize) -> &[u8]
        requires there { buffer ≡ Buffer.Window → self.now.lent ≢ None }
        requires within { from + len ≤ length (bytes_in self.now buffer) }
        ensures value { result.now ≡ take len (drop from (bytes_in self.now buffer)) }
        ensures len { length result.now ≡ len }
    {
        match buffer {
            Buffer::Command => self.command.part(from, len),
            Buffer::Status => self.status.part(from, len),
            Buffer::Window => match &self.lent {
                Some(bytes) => bytes.part(from, len),
                None => unreachable!(),
            },
        }
    }

    fn window_mut(&mut self, from: usize, len: usize) -> &mut [u8]
        requires there { self.old.lent ≢ None }
        requires within { from + len ≤ length (bytes_in self.old Buffer.Window) }
        ensures* writes_back { sem 𝓛 (LendsBufferPart self.entry Buffer.Window from result) }
        ensures value { result.now ≡ take len (drop from (bytes_in self.old Buffer.Window)) }
        ensures len { length result.now ≡ len }
    {
        match &mut self.lent {
            Some(bytes) => bytes.part_mut(from, len),
            None => unreachable!(),
        }
    }

    pub(crate) fn part_mut(&mut self, buffer: Buffer, from: usize, len: usize) -> &mut [u8]
        requires there { buffer ≡ Buffer.Window → self.old.lent ≢ None }
        requires within { from + len ≤ length (bytes_in self.old buffer) }
        ensures* writes_back { sem 𝓛 (LendsBufferPart self.entry buffer from result) }
        ensures value { result.now ≡ take len (drop from (bytes_in self.old buffer)) }
        ensures len { length result.now ≡ len }
    {
        match buffer {
            Buffer::Command => self.command.part_mut(from, len),
            Buffer::Status => self.status.part_mut(from, len),
            Buffer::Window => self.window_mut(from, len),
        }
    }
}
