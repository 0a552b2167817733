//! Bytes that clients prepared for the copies of replies that a log keeps.
ghost use Rattle.std.specs.Prelude.{◌≡◌, ℕ, ◌<◌, List, IfOk, IfSome, length, slice_index_or, vec_len};

use scsi_cmd::Buffer;
use std::alloc::{AllocError, Global};
use uas_profile::STREAMS;

/// Bytes for replies that are to come, of no more commands than there are tags.
#[derive(Debug, Drop)]
pub(crate) struct Spares {
    buffers: Vec<Buffer>,
}

impl Spares {
    /// None yet; all room is taken here.
    pub(crate) fn new(alloc: Global) -> Result<Spares, AllocError> {
        let buffers = Vec::with_capacity(alloc, usize::from(STREAMS))?;
        Ok(Spares { buffers })
    }

    /// Keeps bytes, where there are some and there is room.
    pub(crate) fn put(&mut self, bytes: Vec<u8>) {
        if !bytes.is_empty() && self.buffers.len() < self.buffers.capacity() {
            self.buffers.push_reserved(Buffer::from_vec(bytes));
        }
    }

    /// So many bytes: some that were kept, else new ones.
    pub(crate) fn take(&mut self, alloc: Global, len: usize) -> Result<Vec<u8>, AllocError>
        ensures { IfOk result (λ bytes. vec_len bytes ≡ len) }
    {
        if len == 0 {
            return Ok(Vec::new(alloc));
        }
        match self.place_of(len) {
            Some(place) => Ok(self.buffers.swap_remove(place).into_vec()),
            None => vec![in alloc; 0; len],
        }
    }

    /// Where so many bytes are kept.
    fn place_of(&self, len: usize) -> Option<usize>
        ensures within { IfSome result (λ place. place < vec_len self.now.buffers) }
        ensures found { IfSome result (λ place. (d : List ℕ) → length (slice_index_or self.now.buffers.items place d) ≡ len) }
    {
        for place in 0..self.buffers.len() {
            if self.buffers[place].len() == len {
                return Some(place);
            }
        }
        None
    }
}
