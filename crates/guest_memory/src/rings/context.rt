//! Where the consumer's end of a pipe's ring is kept, and what stands there (xHCI 1.2, 6.2.3 and 6.2.4.1).
ghost use Rattle.std.specs.Prelude.{IfOk, ◌≡◌, ◌<◌, ℕ, true};
ghost use Rattle.std.specs.Result.{result_ok};
ghost use Rattle.guest_memory.specs.Bytes.{is_there, written};
ghost use Rattle.guest_memory.specs.rings.Ends.{cursor_in, found_at, found_of, home_at, home_bytes, home_size, is_ring, looked, pointer_bytes, stream_bytes};
ghost use Rattle.byteorder.specs.Endian.{little_number};
ghost use Rattle.guest_memory.specs.Bytes.{bytes_from};
ghost use Rattle.std.specs.Prelude.{option_map};

use crate::rings::cursor::{Cursor, fetch};
use crate::rings::trb::{PipeTrb, read_trb};
use crate::rings::words::Words;
use crate::{GuestMemory, Outside};
use byteorder::{ByteOrder, LittleEndian};

/// Where a consumer's end is kept.
#[derive(Clone, Copy, Debug, PartialEq, Eq)]
pub enum Home {
    /// In the 16 bytes of a stream context.
    Stream { at: u64 },
    /// In the quadword of an endpoint context that has the dequeue pointer.
    Endpoint { at: u64 },
}

/// What a consumer finds.
#[derive(Clone, Copy, Debug, PartialEq, Eq)]
pub enum Found {
    /// A stream context of another type than 1.
    WrongKind,
    /// Nothing that is the consumer's: the Cycle bit isn't its cycle state.
    NotYet,
    /// A TRB.
    Item(PipeTrb),
}

/// A ring's end, and what stands there.
#[derive(Clone, Copy, Debug, PartialEq, Eq)]
pub struct Front {
    pub home: Home,
    pub cursor: Cursor,
    pub found: Found,
}

impl Home {
    pub(crate) fn is_ring(self, number: u64) -> bool
        ensures { result ≡ is_ring self number }
    {
        match self {
            Home::Stream { .. } => number / 2 % 8 == 1,
            Home::Endpoint { .. } => true,
        }
    }

    /// Where it begins.
    fn at(self) -> u64
        ensures { result ≡ home_at self }
    {
        match self {
            Home::Stream { at } | Home::Endpoint { at } => at,
        }
    }
}

/// What a pipe's consumer finds, by the quadword where its end is kept.
#[tactic(auto, unfolding(crate::specs::rings::Ends::found_at))]
fn find<M: GuestMemory>(memory: &M, home: Home, number: u64) -> Result<Found, Outside>
    ensures { result_ok result ≡ found_at (M.contents memory.now) home number }
{
    if !home.is_ring(number) {
        return Ok(Found::WrongKind);
    }
    let words = fetch(memory, Cursor::of_number(number))?;
    Ok(found_of(words))
}

fn found_of(words: Option<Words>) -> Found
    ensures { result ≡ found_of words }
{
    match words {
        None => Found::NotYet,
        Some(words) => Found::Item(read_trb(words)),
    }
}

/// The quadword of a consumer's end: the whole of what is kept is asked to be there.
pub(crate) fn number_at<M: GuestMemory>(memory: &M, home: Home) -> Result<u64, Outside>
    ensures number { result_ok result ≡ option_map (little_number 8) (bytes_from (M.contents memory.now) (home_at home) (home_size home)) }
    ensures there { IfOk result (λ number. is_there (M.contents memory.now) (home_at home) (home_size home) ≡ true) }
{
    match home {
        Home::Stream { at } => {
            let mut bytes = [0; 16];
            memory.read(at, &mut bytes)?;
            Ok(LittleEndian::read_u64(&bytes))
        }
        Home::Endpoint { at } => {
            let mut bytes = [0; 8];
            memory.read(at, &mut bytes)?;
            Ok(LittleEndian::read_u64(&bytes))
        }
    }
}

/// A ring's end by where it is kept, and what stands there. Refused where a byte of either isn't there.
#[tactic(auto, unfolding(crate::specs::rings::Ends::looked))]
pub fn look<M: GuestMemory>(memory: &M, home: Home) -> Result<Front, Outside>
    ensures front { result_ok result ≡ looked (M.contents memory.now) home }
    ensures there { IfOk result (λ front. is_there (M.contents memory.now) (home_at front.home) (home_size front.home) ≡ true) }
    ensures home { IfOk result (λ front. front.home ≡ home) }
{
    let number = number_at(memory, home)?;
    let found = find(memory, home, number)?;
    Ok(Front {
        home,
        cursor: Cursor::of_number(number),
        found,
    })
}

/// The 16 bytes of a stream context.
#[tactic(auto, unfolding(crate::specs::rings::Ends::stream_bytes))]
fn stream_bytes(kind: u8, cursor: Cursor) -> [u8; 16]
    requires { kind < 8 }
    ensures { result ≡ stream_bytes kind cursor }
{
    let mut bytes = [0; 16];
    LittleEndian::write_u64(&mut bytes, cursor.number(kind));
    LittleEndian::write_u64(&mut bytes[8..], 0);
    bytes
}

/// The 8 bytes of a dequeue pointer.
#[tactic(auto, unfolding(crate::specs::rings::Ends::pointer_bytes))]
fn pointer_bytes(cursor: Cursor) -> [u8; 8]
    ensures { result ≡ pointer_bytes cursor }
{
    let mut bytes = [0; 8];
    LittleEndian::write_u64(&mut bytes, cursor.number(0));
    bytes
}

/// Writes a consumer's end where it is kept, of a stream with this type (SCT) and zeros in the opaque bytes 8 to 15. A range that
/// was there still is.
#[tactic(auto, using(crate::specs::Ranges::there_written))]
pub fn stand<M: GuestMemory>(memory: &mut M, home: Home, kind: u8, cursor: Cursor)
    requires there { is_there (M.contents memory.old) (home_at home) (home_size home) ≡ true }
    requires kind { kind < 8 }
    ensures context { M.contents memory.new ≡ written (M.contents memory.old) (home_at home) (home_bytes home kind cursor) }
    ensures same_loan { M.loan memory.new ≡ M.loan memory.old }
    ensures there { (at n : ℕ) → is_there (M.contents memory.old) at n ≡ true → is_there (M.contents memory.new) at n ≡ true }
{
    match home {
        Home::Stream { at } => {
            let _ = memory.write(at, &stream_bytes(kind, cursor));
        }
        Home::Endpoint { at } => {
            let _ = memory.write(at, &pointer_bytes(cursor));
        }
    }
}
