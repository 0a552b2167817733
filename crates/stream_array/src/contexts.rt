// The stream arrays, kept as the bytes of their contexts (xHCI 1.2, 6.2.4.1).
//
// A context is written whole, as DCS, SCT 1 and the dequeue pointer, and read back from its bytes. Nothing
// else says which streams have a ring: a context whose SCT isn't 1 has none.

ghost use Rattle.std.specs.Prelude.{◌≡◌, ℕ, ◌+◌, ◌%◌, ◌<◌, ◌≤◌, ◌↔◌, Some, IsOk, IfOk, OnOk, OnErr, slice_set, IsSome};
ghost use Rattle.stream_array.specs.Contexts.{IsOpening, IsStream, entry_of, opening_entry, dequeue_in, context_text};
ghost use Rattle.stream_array.specs.Stored.{entry_in, word_in, dequeue_of_word};
ghost use Rattle.uas_profile.specs.declared.TheConstants.{STREAM_ENTRIES};

use crate::{Dequeue, InvalidStream, NoMemory, Pipe};
use byteorder::{ByteOrder, LittleEndian};
use std::alloc::Global;
use std::marker::Model;
use uas_profile::{PIPE_SPAN, RINGS, STREAM_SPAN, STREAMS};

/// A linear primary stream array of `S` entries, 2 to 256 (4.12.2). Entry 0 is reserved.
#[derive(Debug, Drop)]
pub struct StreamArray<const S: usize> {
    // as the controller reads them
    contexts: Vec<[u8; 16]>,
}

impl<const S: usize> Model for StreamArray<S> {
    ghost use Rattle.std.specs.Prelude.{List, Option};
    ghost use Rattle.stream_array.specs.declared.Dequeue.{Dequeue};
    ghost use Rattle.stream_array.specs.Stored.{shown, IsStored};

    ghost Value = { List (Option Dequeue) };

    ghost view = { λ a. shown a.contexts.items };

    ghost invariant = { λ a. IsStored S a.contexts.items (shown a.contexts.items) };
}

impl<const S: usize> StreamArray<S> {
    /// The array of a pipe whose rings are all new. Refused for want of memory alone.
    pub fn new(alloc: Global, pipe: Pipe) -> Result<Self, NoMemory>
        requires least_entries { 2 ≤ S }
        requires most_entries { S ≤ STREAM_ENTRIES }
        ensures { IfOk result (λ array. IsOpening pipe S array) }
    {
        let mut contexts = Vec::with_capacity(alloc, S)?;
        for stream in 0..S {
            contexts.push(opening(pipe, stream as u16))?;
        }
        Ok(StreamArray { contexts })
    }

    /// A stream's dequeue pointer and cycle state, `(0, false)` where the stream has no ring. Refused
    /// for stream 0 and streams from `S` on.
    pub fn dequeue(&self, stream: u16) -> Result<(u64, bool), InvalidStream>
        ensures valid { IsOk result ↔ IsStream S stream }
        ensures given { IfOk result (λ dequeue. dequeue ≡ dequeue_in (entry_of self.now stream)) }
    {
        match read(self.context(stream)?) {
            None => Ok((0, false)),
            Some(dequeue) => Ok((dequeue.pointer, dequeue.cycle)),
        }
    }

    /// Sets a stream's dequeue pointer, a multiple of 16, and cycle state. Refused for stream 0, for
    /// streams from `S` on and for those without a ring; nothing changes then.
    #[inline(always)]
    pub fn set(&mut self, stream: u16, pointer: u64, cycle: bool) -> Result<(), InvalidStream>
        requires { pointer % 16 ≡ 0 }
        ensures has_ring { IsOk result ↔ IsSome (entry_of self.old stream) }
        ensures set { OnOk result (self.new ≡ slice_set self.old stream (Some (record { pointer = pointer; cycle = cycle }))) }
        ensures refused { OnErr result (self.new ≡ self.old) }
    {
        if read(self.context(stream)?).is_none() {
            return Err(InvalidStream);
        }
        self.contexts[stream as usize] = text(Dequeue { pointer, cycle });
        Ok(())
    }

    // The dequeue pointer and cycle state of a stream that has a ring.
    #[inline(always)]
    pub(crate) fn named(&self, stream: u16) -> Dequeue
        requires { IsSome (entry_of self.now stream) }
        ensures { entry_of self.now stream ≡ Some result }
    {
        dequeue_of(word(&self.contexts[stream as usize]))
    }

    // Writes them.
    #[inline(always)]
    pub(crate) fn write(&mut self, stream: u16, pointer: u64, cycle: bool)
        requires ring { IsSome (entry_of self.old stream) }
        requires aligned { pointer % 16 ≡ 0 }
        ensures { self.new ≡ slice_set self.old stream (Some (record { pointer = pointer; cycle = cycle })) }
    {
        let dequeue = Dequeue { pointer, cycle };
        self.contexts[stream as usize] = text(dequeue);
    }

    /// The 16 bytes of a stream's context (6.2.4.1). Refused for stream 0 and streams from `S` on.
    pub fn bytes(&self, stream: u16) -> Result<[u8; 16], InvalidStream>
        ensures valid { IsOk result ↔ IsStream S stream }
        ensures given { IfOk result (λ bytes. bytes ≡ context_text (entry_of self.now stream)) }
    {
        Ok(*self.context(stream)?)
    }

    // A stream's context as it stands.
    #[inline(always)]
    fn context(&self, stream: u16) -> Result<&[u8; 16], InvalidStream>
        ensures valid { IsOk result ↔ IsStream S stream }
        ensures text { IfOk result (λ bytes. bytes.now ≡ context_text (entry_of self.now stream)) }
        ensures entry { IfOk result (λ bytes. entry_in bytes.now ≡ entry_of self.now stream) }
    {
        let contexts = self.contexts.as_slice();
        if stream == 0 || contexts.len() <= stream as usize {
            return Err(InvalidStream);
        }
        Ok(&contexts[stream as usize])
    }
}

// The context of a stream whose ring is new.
fn opening(pipe: Pipe, stream: u16) -> [u8; 16]
    ensures { result ≡ context_text (opening_entry pipe stream) }
{
    if pipe == Pipe::Command || stream == 0 || stream > STREAMS {
        return [0; 16];
    }
    let pointer = RINGS + PIPE_SPAN * u64::from(pipe.number()) + STREAM_SPAN * u64::from(stream);
    text(Dequeue {
        pointer,
        cycle: true,
    })
}

// The context that holds a dequeue pointer, a multiple of 16, and its cycle state.
#[inline(always)]
fn text(dequeue: Dequeue) -> [u8; 16]
    requires { dequeue.pointer % 16 ≡ 0 }
    ensures { result ≡ context_text (Some dequeue) }
{
    // SCT 1 in bits 3:1, DCS in bit 0
    let state = if dequeue.cycle { 3 } else { 2 };
    let word = dequeue.pointer + state;
    let mut bytes = [0; 16];
    LittleEndian::write_u64(&mut bytes, word);
    bytes
}

// What a context holds: nothing where SCT isn't 1.
#[inline(always)]
fn read(bytes: &[u8; 16]) -> Option<Dequeue>
    ensures { result ≡ entry_in bytes.now }
{
    let word = word(bytes);
    if word / 2 % 8 != 1 {
        return None;
    }
    Some(dequeue_of(word))
}

// The dequeue pointer and cycle state of a context's word.
#[inline(always)]
fn dequeue_of(word: u64) -> Dequeue
    ensures { result ≡ dequeue_of_word word }
{
    Dequeue {
        pointer: word / 16 * 16,
        cycle: word % 2 == 1,
    }
}

// The word in bytes 0 to 7, low byte first.
#[inline(always)]
fn word(bytes: &[u8; 16]) -> u64
    ensures { result ≡ word_in bytes.now }
{
    LittleEndian::read_u64(bytes)
}
