//! The buffers: bytes written and read, and what a driver lends for a tag.
ghost use Rattle.std.specs.Prelude.{◌≡◌, ◌≤◌, length, vec_len, IfErr, IfOk};
ghost use Rattle.std.specs.Result.{result_map_both};
ghost use Rattle.frame_store.specs.Buffers.{IsWhole};
ghost use Rattle.uas_controller.specs.Calls.{lend_by, read_by, take_back_by, write_by};

use crate::rings::has_stream;
use crate::{Machine, Refusal};
use frame_store::Frames;
use uas_profile::WINDOW_BYTES;

impl Machine {
    /// Writes bytes from an address on, all of them bytes of one buffer. Refused: `BadAddress`.
    pub fn write(&mut self, address: u64, bytes: &[u8]) -> Result<(), Refusal>
        ensures { write_by self.old address bytes.now ≡ (self.new, result) }
    {
        if self.frames.check(address, bytes.len()).is_err() {
            return Err(Refusal::BadAddress);
        }
        self.frames.write(address, bytes);
        Ok(())
    }

    /// The `len` bytes from an address on, all of them bytes of one buffer. Refused: `BadAddress`.
    pub fn read(&self, address: u64, len: usize) -> Result<&[u8], Refusal>
        ensures bytes { result_map_both (λ bytes. bytes.now) (λ refusal. refusal) result ≡ read_by self.now address len }
        ensures len { IfOk result (λ bytes. length bytes.now ≡ len) }
    {
        if self.frames.check(address, len).is_err() {
            return Err(Refusal::BadAddress);
        }
        Ok(self.frames.read(address, len))
    }

    /// Lends a vector of at most 65,536 bytes as the data buffer of a tag. A refusal gives it back: `NoTag`, `TooLong`, `AlreadyLent`.
    pub fn lend(&mut self, tag: u16, bytes: Vec<u8>) -> Result<(), (Refusal, Vec<u8>)>
        ensures lent { lend_by self.old tag bytes.items ≡ (self.new, result_map_both (λ done. done) (λ back. back.0) result) }
        ensures back { IfErr result (λ back. back.1 ≡ bytes) }
    {
        if !has_stream(tag) {
            return Err((Refusal::NoTag, bytes));
        }
        if bytes.len() > WINDOW_BYTES {
            return Err((Refusal::TooLong, bytes));
        }
        match self.frames.lend(tag, bytes) {
            Ok(()) => Ok(()),
            Err((_, bytes)) => Err((Refusal::AlreadyLent, bytes)),
        }
    }

    /// Ends the loan of a tag: the vector as it is now. It stays lent where it has more than `most` bytes. Refused: `NoTag`, `NotLent`,
    /// `TooLong`.
    pub fn take_back(&mut self, tag: u16, most: usize) -> Result<Vec<u8>, Refusal>
        ensures back { take_back_by self.old tag most
            ≡ (self.new, result_map_both (λ bytes. bytes.items) (λ refusal. refusal) result) }
        ensures most { IfOk result (λ bytes. vec_len bytes ≤ most) }
        ensures longest { IfOk result (λ bytes. vec_len bytes ≤ WINDOW_BYTES) }
    {
        if !has_stream(tag) {
            return Err(Refusal::NoTag);
        }
        whole(&self.frames);
        let Ok(bytes) = self.frames.take_back(tag) else {
            return Err(Refusal::NotLent);
        };
        if bytes.len() <= most {
            return Ok(bytes);
        }
        // the tag has nothing lent at this moment, so this is never refused
        let _ = self.frames.lend(tag, bytes);
        Err(Refusal::TooLong)
    }
}

/// What holds of all buffers: each has its size.
#[inline(always)]
pub(crate) fn whole(frames: &Frames)
    ensures { IsWhole frames.now }
{
    prove!(frames.check(0, 0).is_ok());
}
