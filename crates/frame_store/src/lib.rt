//! The memory that host and controller share: small buffers of each tag, and the clients' own vectors while they are lent.
//!
//! In xHCI a TRB names memory by a 64-bit address (sections 4.11 and 6.4.1.1). Here memory is a store of byte buffers, and the
//! address map says which bytes an address names. Each tag from 1 to 248 (`STREAMS`) has a command buffer of 32 bytes, which holds the
//! unit that its command pipe TRB points to, and a status buffer of 112 bytes, for the unit that comes back. While a client's
//! vector is lent for a tag, its bytes are that tag's data window.
//!
//! ```text
//! 0x0_1000_0000 + 0x100 t      command buffer of tag t, 32 bytes
//! 0x0_2000_0000 + 0x100 t      status buffer of tag t, 112 bytes
//! 0x1_0000_0000 + 0x1_0000 t   data window of tag t, as many bytes as its lent vector has, 65,536 at most
//! ```
//!
//! What is promised: no two bytes have one address, and an address is found by arithmetic, without a search (`Place`).
//! `check` answers Ok exactly where there is no byte to name or all of them are bytes of one buffer that is there; `read`,
//! `window` and `write` then give and change exactly those bytes. `start` asks the same and tells the place where they begin, and
//! `read_at`, `window_at` and `write_at` go by that place. A lent vector is moved in and moved out again: its bytes are
//! never copied. `Frames::new` takes the memory of all small buffers at once, and no other call takes any.
//!
//! A caller sees the store as the list of its tags' buffers, tag 1 first (`specs/Buffers.antt`). The address map is
//! `specs/Places.antt`. The crate stands on std and `thiserror` alone.
#![tactic(auto)]

ghost use Rattle.std.specs.Prelude.{◌≡◌, ◌≢◌, ℕ, ◌+◌, ◌-◌, ◌*◌, ◌<◌, ◌≤◌, ◌↔◌, List, length, take, drop, vec_len, Option, None, Some, IsOk};
ghost use Rattle.std.specs.Prelude.{IsErr, IsNone, IsSome, IfOk, IfErr, IfSome, OnOk, OnErr};
ghost use Rattle.std.specs.Borrow.{sem};

mod buffers;
mod places;

use std::alloc::{AllocError, Global};
use std::marker::Model;
use thiserror::Error;
use uas_profile::{COMMAND_BYTES, STATUS_BYTES, STREAMS, WINDOW_BYTES};

/// A tag, from 1 to `STREAMS`.
pub type Tag = u16;

/// Want of memory.
pub type NoMemory = AllocError;

/// Why the store refused a call.
#[derive(Clone, Copy, Debug, Drop, Error, PartialEq, Eq)]
pub enum FrameFault {
    #[error("a byte is in no buffer, or two are in different ones")]
    BadAddress = 1,
    #[error("the tag has no vector lent")]
    NotLent,
    #[error("the tag has a vector lent already")]
    AlreadyLent,
}

/// The three buffers of a tag.
#[derive(Clone, Copy, Debug, Drop, PartialEq, Eq)]
pub enum Buffer {
    Command,
    Status,
    Window,
}

/// A byte that a tag's buffer has room for, by its offset in the buffer.
#[derive(Clone, Copy, Debug, Drop, PartialEq, Eq)]
pub struct Place {
    pub tag: Tag,
    pub buffer: Buffer,
    pub offset: usize,
}

/// The bytes of one buffer, which contracts see as a list.
#[derive(Debug, Drop)]
pub struct Bytes {
    bytes: Vec<u8>,
}

impl Model for Bytes {
    ghost use Rattle.std.specs.Prelude.{List, ℕ};

    ghost Value = { List ℕ };

    ghost view = { λ b. b.bytes.items };
}

/// What contracts see of one tag: its two small buffers, and the client's vector while it is lent.
#[derive(Debug, Drop)]
pub struct TagBuffers {
    pub command: Bytes,
    pub status: Bytes,
    pub lent: Option<Bytes>,
}

/// The store: the buffers of every tag.
#[derive(Debug, Drop)]
pub struct Frames {
    tags: Vec<TagBuffers>,
}

impl Frames {
    ghost use Rattle.frame_store.specs.declared.FrameFault.TheVariants.{BadAddress, NotLent, AlreadyLent};
    ghost use Rattle.frame_store.specs.declared.Place.{Place};
    ghost use Rattle.frame_store.specs.Buffers.{opening, held_for, with_lent, bytes_of, with_bytes, front_of, Begins, Names, IsNamed, IsWhole};
    ghost use Rattle.frame_store.specs.Buffers.{bytes_at, written, start_of};
    ghost use Rattle.frame_store.specs.FramesLending.{LendsFrom, LendsWindow};

    /// A store with zeroed small buffers and nothing lent. It takes all the memory that the store uses.
    #[tactic(auto, using(crate::proofs::FramesLaws::replicate_whole), unfolding(crate::specs::Buffers::opening))]
    pub fn new(alloc: Global) -> Result<Frames, NoMemory>
        ensures { IfOk result (λ frames. frames ≡ opening) }
    {
        let mut tags = Vec::with_capacity(alloc, STREAMS as usize)?;
        for _ in 0..STREAMS {
            tags.push(TagBuffers::new(alloc)?)?;
        }
        Ok(Frames { tags })
    }

    /// Takes in a client's vector, of at most 65,536 bytes, as the tag's window. `AlreadyLent` gives it back.
    pub fn lend(&mut self, tag: Tag, bytes: Vec<u8>) -> Result<(), (FrameFault, Vec<u8>)>
        requires first_tag { 1 ≤ tag }
        requires last_tag { tag ≤ STREAMS }
        requires fits { vec_len bytes ≤ WINDOW_BYTES }
        ensures already { IsErr result ↔ IsSome (held_for self.old tag).lent }
        ensures lent { OnOk result (self.new ≡ with_lent self.old tag (Some bytes.items)) }
        ensures refused { OnErr result (self.new ≡ self.old) }
        ensures back { IfErr result (λ back. back ≡ (AlreadyLent, bytes)) }
    {
        let held = &mut self.tags[tag as usize - 1];
        if held.lent.is_some() {
            return Err((FrameFault::AlreadyLent, bytes));
        }
        held.lent = Some(Bytes { bytes });
        Ok(())
    }

    /// Gives the lent vector back, or answers `NotLent` where the tag has none.
    pub fn take_back(&mut self, tag: Tag) -> Result<Vec<u8>, FrameFault>
        requires first_tag { 1 ≤ tag }
        requires last_tag { tag ≤ STREAMS }
        ensures back { IfOk result (λ bytes. (held_for self.old tag).lent ≡ Some bytes.items) }
        ensures taken { OnOk result (self.new ≡ with_lent self.old tag None) }
        ensures not_lent { IsErr result ↔ IsNone (held_for self.old tag).lent }
        ensures fault { IfErr result (λ fault. fault ≡ NotLent) }
        ensures refused { OnErr result (self.new ≡ self.old) }
    {
        match self.tags[tag as usize - 1].lent.take() {
            Some(lent) => Ok(lent.bytes),
            None => Err(FrameFault::NotLent),
        }
    }

    /// The 32 bytes of the tag's command buffer, to be written.
    pub fn iu(&mut self, tag: Tag) -> &mut [u8]
        requires first_tag { 1 ≤ tag }
        requires last_tag { tag ≤ STREAMS }
        ensures* writes_back { sem 𝓛 (LendsFrom self.entry (front_of Buffer.Command tag) result) }
        ensures value { result.now ≡ (held_for self.old tag).command }
        ensures len { length result.now ≡ COMMAND_BYTES }
    {
        let held = &mut self.tags[tag as usize - 1];
        held.part_mut(Buffer::Command, 0, COMMAND_BYTES)
    }

    /// The 112 bytes of the tag's status buffer.
    pub fn status(&self, tag: Tag) -> &[u8]
        requires first_tag { 1 ≤ tag }
        requires last_tag { tag ≤ STREAMS }
        ensures value { result.now ≡ (held_for self.now tag).status }
        ensures len { length result.now ≡ STATUS_BYTES }
    {
        let held = &self.tags[tag as usize - 1];
        held.status.as_slice()
    }

    /// Where the `len` bytes from an address on begin, by which `read_at`, `window_at` and `write_at` find them. A place exactly where
    /// they are bytes of one buffer, or `len` is 0.
    #[inline(always)]
    pub fn start(&self, address: u64, len: usize) -> Option<Place>
        ensures named { IsSome result ↔ IsNamed self.now address len }
        ensures start { IfSome result (λ place. (place ≡ start_of address len) × Begins self.now place len) }
        ensures whole { IsWhole self.now }
    {
        let tags = &self.tags;
        if len == 0 {
            return Some(Place::FIRST);
        }
        let place = Place::at(address)?;
        let held = &tags[place.tag as usize - 1];
        if len <= held.len(place.buffer).saturating_sub(place.offset) {
            Some(place)
        } else {
            None
        }
    }

    /// Ok where the `len` bytes from an address on are bytes of one buffer, or `len` is 0; else `BadAddress`.
    pub fn check(&self, address: u64, len: usize) -> Result<(), FrameFault>
        ensures named { IsOk result ↔ IsNamed self.now address len }
        ensures bad { IfErr result (λ fault. fault ≡ BadAddress) }
        ensures whole { IsWhole self.now }
    {
        match self.start(address, len) {
            Some(_) => Ok(()),
            None => Err(FrameFault::BadAddress),
        }
    }

    // Where they begin, of bytes for which `check` is Ok.
    fn named(&self, address: u64, len: usize) -> Place
        requires { IsNamed self.now address len }
        ensures start { result ≡ start_of address len }
        ensures begins { Begins self.now result len }
        ensures whole { IsWhole self.now }
    {
        // Read for what holds of every store.
        let _tags = &self.tags;
        Place::start(address, len)
    }

    /// The `len` bytes from an address on, for which `check` is Ok.
    pub fn read(&self, address: u64, len: usize) -> &[u8]
        requires { IsNamed self.now address len }
        ensures value { result.now ≡ bytes_at self.now address len }
        ensures named { (place : Place) → Names self.now address len place →
            result.now ≡ take len (drop place.offset (bytes_of self.now place)) }
        ensures len { length result.now ≡ len }
    {
        self.read_at(self.named(address, len), len)
    }

    /// The `len` bytes from a place on, of which `start` told that they begin there.
    pub fn read_at(&self, place: Place, len: usize) -> &[u8]
        requires { Begins self.now place len }
        ensures value { result.now ≡ take len (drop place.offset (bytes_of self.now place)) }
        ensures len { length result.now ≡ len }
    {
        let held = &self.tags[place.tag as usize - 1];
        held.part(place.buffer, place.offset, len)
    }

    /// The `len` bytes from an address on, for which `check` is Ok, to be written.
    #[tactic(auto, using(crate::proofs::FramesLaws::names))]
    pub fn window(&mut self, address: u64, len: usize) -> &mut [u8]
        requires { IsNamed self.old address len }
        ensures* writes_back { sem 𝓛 (LendsWindow self.entry address len result) }
        ensures value { result.now ≡ bytes_at self.old address len }
        ensures len { length result.now ≡ len }
        ensures named { (place : Place) → Names self.old address len place → (bytes : List ℕ) → length bytes ≡ len →
            written self.old address len bytes ≡ with_bytes self.old place bytes }
        ensures whole { IsWhole self.old }
    {
        let place = self.named(address, len);
        self.window_at(place, len)
    }

    /// The `len` bytes from a place on, of which `start` told that they begin there, to be written.
    pub fn window_at(&mut self, place: Place, len: usize) -> &mut [u8]
        requires { Begins self.old place len }
        ensures* writes_back { sem 𝓛 (LendsFrom self.entry place result) }
        ensures value { result.now ≡ take len (drop place.offset (bytes_of self.old place)) }
        ensures len { length result.now ≡ len }
        ensures whole { IsWhole self.old }
    {
        let held = &mut self.tags[place.tag as usize - 1];
        held.part_mut(place.buffer, place.offset, len)
    }

    /// Writes bytes from an address on, for which `check` is Ok.
    pub fn write(&mut self, address: u64, bytes: &[u8])
        requires { IsNamed self.old address (length bytes.now) }
        ensures value { self.new ≡ written self.old address (length bytes.now) bytes.now }
        ensures named { (place : Place) → Names self.old address (length bytes.now) place →
            self.new ≡ with_bytes self.old place bytes.now }
    {
        self.window(address, bytes.len()).copy_from_slice(bytes);
    }

    /// Writes bytes from a place on, of which `start` told that they, or more, begin there.
    #[tactic(auto, using(crate::proofs::FramesLaws::written_at))]
    pub fn write_at(&mut self, place: Place, bytes: &[u8])
        requires { Begins self.old place (length bytes.now) }
        ensures value { self.new ≡ with_bytes self.old place bytes.now }
        ensures written { (address len : ℕ) → place ≡ start_of address len → length bytes.now ≤ len →
            self.new ≡ written self.old address (length bytes.now) bytes.now }
    {
        self.window_at(place, bytes.len()).copy_from_slice(bytes);
    }
}

impl Model for Frames {
    ghost use Rattle.std.specs.Prelude.{List};
    ghost use Rattle.frame_store.specs.declared.TagBuffers.{TagBuffers};

    ghost Value = { List TagBuffers };

    ghost use Rattle.frame_store.specs.Buffers.{IsWhole};

    ghost view = { λ f. f.tags.items };

    ghost invariant = { λ f. IsWhole f.tags.items };
}
