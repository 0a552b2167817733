//! Several pieces as one memory: the first that has an address holds its byte.
ghost use Rattle.std.specs.Prelude.{◌≡◌, ◌+◌, ◌<◌, length, IfSome, Some, None, true, [], ◌∷◌, All, take, is_some, slice_get, false, OnOk, OnErr};
ghost use Rattle.guest_memory.specs.Held.{held, Misses};
ghost use Rattle.guest_memory.specs.Several.{held_ends};
ghost use Rattle.guest_memory.specs.Bytes.{is_there, bytes_from, written};

use crate::piece::Piece;
use crate::{GuestMemory, Outside};

/// Several pieces as one memory.
#[derive(Drop)]
pub struct Pieces<'m, P: Piece> {
    pub pieces: &'m mut [P],
}

/// The first piece that has a byte of a range.
fn first<P: Piece>(pieces: &[P], at: u64, count: usize) -> Option<usize>
    ensures found { IfSome result (λ i. (i < length pieces.now) × All (Misses P.part at count) (take i pieces.now)) }
    ensures single { IfSome result (λ i. count ≡ 1 → IfSome (slice_get pieces.now i) (λ piece. P.has piece at 1)) }
    ensures none { result ≡ None → All (Misses P.part at count) pieces.now }
{
    for (i, piece) in pieces.iter().enumerate() {
        if piece.touches(at, count) {
            return Some(i);
        }
    }
    None
}

/// The byte at an address.
#[tactic(auto, unfolding(crate::specs::Held::held))]
fn byte_at<P: Piece>(pieces: &[P], at: u64) -> Option<u8>
    ensures { result ≡ held P.part pieces.now at }
{
    for piece in pieces {
        if let Some(byte) = piece.byte(at) {
            return Some(byte);
        }
    }
    None
}

/// The byte so far ahead of an address.
fn byte_ahead<P: Piece>(pieces: &[P], at: u64, ahead: usize) -> Option<u8>
    ensures { result ≡ held P.part pieces.now (at + ahead) }
{
    match at.checked_add(ahead as u64) {
        Some(place) => byte_at(pieces, place),
        None => None,
    }
}

/// Whether each byte of a range is there, asked byte by byte.
#[tactic(auto, using(crate::specs::Ranges::there_by_each, crate::specs::Ranges::lacks))]
fn has_each<P: Piece>(pieces: &[P], at: u64, count: usize) -> bool
    ensures { result ≡ is_there (held P.part pieces.now) at count }
{
    for i in 0..count {
        if byte_ahead(pieces, at, i).is_none() {
            return false;
        }
    }
    true
}

/// Whether each byte of a range is there, at once where the first piece that has a byte of it has all.
fn has<P: Piece>(pieces: &[P], at: u64, count: usize) -> bool
    ensures { result ≡ is_there (held P.part pieces.now) at count }
{
    if let Some(i) = first(pieces, at, count) {
        if pieces[i].has_all(at, count) {
            return true;
        }
    }
    has_each(pieces, at, count)
}

/// Reads a range that is there, byte by byte.
#[tactic(auto, using(crate::specs::Ranges::from_each))]
fn read_each<P: Piece>(pieces: &[P], at: u64, into: &mut [u8])
    requires { is_there (held P.part pieces.now) at (length into.old) ≡ true }
    ensures { bytes_from (held P.part pieces.now) at (length into.old) ≡ Some into.new }
{
    for i in 0..into.len() {
        into[i] = byte_ahead(pieces, at, i).unwrap_or(0);
    }
}

/// Sets the byte at an address that is there.
fn set<P: Piece>(pieces: &mut [P], at: u64, byte: u8)
    requires { is_some (held P.part pieces.old at) ≡ true }
    ensures { held P.part pieces.new ≡ written (held P.part pieces.old) at (byte ∷ []) }
{
    match first(pieces, at, 1) {
        Some(i) => pieces[i].write(at, &[byte]),
        None => (),
    }
}

/// Writes a range that is there, byte by byte.
fn write_each<P: Piece>(pieces: &mut [P], at: u64, bytes: &[u8])
    requires { is_there (held P.part pieces.old) at (length bytes.now) ≡ true }
    ensures { held P.part pieces.new ≡ written (held P.part pieces.old) at bytes.now }
{
    for i in 0..bytes.len() {
        set(pieces, at + i as u64, bytes[i]);
    }
}

/// Reads a range, at once where the first piece that has a byte of it has all.
fn read<P: Piece>(pieces: &[P], at: u64, into: &mut [u8]) -> Result<(), Outside>
    ensures bytes { OnOk result (bytes_from (held P.part pieces.now) at (length into.old) ≡ Some into.new) }
    ensures outside { OnErr result (bytes_from (held P.part pieces.now) at (length into.old) ≡ None) }
    ensures as_before { OnErr result (into.new ≡ into.old) }
{
    if let Some(i) = first(pieces, at, into.len()) {
        let piece = &pieces[i];
        if piece.has_all(at, into.len()) {
            piece.read(at, into);
            return Ok(());
        }
    }
    if !has(pieces, at, into.len()) {
        return Err(Outside);
    }
    read_each(pieces, at, into);
    Ok(())
}

/// Writes a range, at once where the first piece that has a byte of it has all.
fn write<P: Piece>(pieces: &mut [P], at: u64, bytes: &[u8]) -> Result<(), Outside>
    ensures written { OnOk result (held P.part pieces.new ≡ written (held P.part pieces.old) at bytes.now) }
    ensures there { OnOk result (is_there (held P.part pieces.old) at (length bytes.now) ≡ true) }
    ensures outside { OnErr result (is_there (held P.part pieces.old) at (length bytes.now) ≡ false) }
    ensures as_before { OnErr result (held P.part pieces.new ≡ held P.part pieces.old) }
{
    if let Some(i) = first(pieces, at, bytes.len()) {
        if pieces[i].has_all(at, bytes.len()) {
            pieces[i].write(at, bytes);
            return Ok(());
        }
    }
    if !has(pieces, at, bytes.len()) {
        return Err(Outside);
    }
    write_each(pieces, at, bytes);
    Ok(())
}

impl<'m, P: Piece> GuestMemory for Pieces<'m, P> {
    ghost contents = { λ memory. held P.part memory.pieces.now };

    ghost loan = { λ memory. memory.pieces.ghost_name };

    ghost ends = { λ memory. held_ends P.part P.ends memory.pieces.now };

    fn has(&self, at: u64, count: usize) -> bool {
        let pieces = &*self.pieces;
        has(pieces, at, count)
    }

    fn read(&self, at: u64, into: &mut [u8]) -> Result<(), Outside> {
        let pieces = &*self.pieces;
        read(pieces, at, into)
    }

    fn write(&mut self, at: u64, bytes: &[u8]) -> Result<(), Outside> {
        write(self.pieces, at, bytes)
    }
}
