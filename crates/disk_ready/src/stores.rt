//! The stores that put the TDs of a command.
ghost use Rattle.std.specs.Prelude.{◌≡◌, ◌++◌};
ghost use Rattle.byteorder.specs.Endian.{little_bytes};
ghost use Rattle.host_trbs.specs.Words.{bytes_of};
ghost use Rattle.disk_ready.specs.Puts.{first_stored, last_stored, list_stored, pair_stored, piece_at, piece_stored, place_in, status_first, status_stored, status_trb, third_link, unit_last, unit_stored, unit_trb, zeros_stored};

use crate::puts::{PipeRing, Sent};
use bring_up::{Access, Stored, later, store_in};
use byteorder::{ByteOrder, LittleEndian};
use disk_up::next_third;
use host_layout::{Layout, Piece, Ring, RingPlace, data_trb};
use host_trbs::{DataTrb, LinkTrb, Words};

/// Bytes of a Command unit, and the most of a status unit.
const UNIT_BYTES: u32 = 32;

const STATUS_BYTES: u32 = 112;

/// Where a TRB of a third stands.
pub fn place_in(layout: &Layout, ring: Ring, third: u8, place: u8) -> Option<u64>
    ensures { result ≡ place_in layout.now ring third place }
{
    layout.trb(RingPlace {
        ring,
        segment: third,
        place,
    })
}

/// The TRB of a status unit, and of a Command unit.
fn status_trb(at: u64) -> DataTrb
    ensures { result ≡ status_trb at }
{
    DataTrb {
        at,
        length: STATUS_BYTES,
        packets_left: 0,
        is_last: true,
        is_in: true,
    }
}

fn unit_trb(at: u64) -> DataTrb
    ensures { result ≡ unit_trb at }
{
    DataTrb {
        at,
        length: UNIT_BYTES,
        packets_left: 0,
        is_last: true,
        is_in: false,
    }
}

/// The Link behind a TD, to the next third.
fn third_link(layout: &Layout, ring: Ring, third: u8) -> Words
    ensures { result ≡ third_link layout.now ring third }
{
    let link = LinkTrb {
        to: match place_in(layout, ring, next_third(third), 0) {
            Some(at) => at,
            None => 0,
        },
        toggles: false,
    };
    link.words(true)
}

/// Zeros over the whole next third.
pub(crate) fn zeros_stored(layout: &Layout, ring: Ring, third: u8) -> Access
    ensures { result ≡ zeros_stored layout.now ring third }
{
    store_in(
        place_in(layout, ring, next_third(third), 0),
        Stored::Zeros(16 * layout.places(ring)),
    )
}

/// The four bytes of a word, low byte first.
fn word_bytes(word: u32) -> [u8; 4]
    ensures { result ≡ little_bytes 4 word }
{
    let mut bytes = [0; 4];
    LittleEndian::write_u32(&mut bytes, word);
    bytes
}

/// The last word of a TRB.
fn last_stored(at: Option<u64>, words: Words) -> Access
    ensures { result ≡ last_stored at words }
{
    match at {
        Some(at) => store_in(Some(later(at, 12)), Stored::Four(word_bytes(words.control))),
        None => Access::Rest(0),
    }
}

/// The bytes of two TRBs, one behind the other.
fn pair_bytes(first: Words, second: Words) -> [u8; 32]
    ensures { result ≡ bytes_of first ++ bytes_of second }
{
    let mut bytes = [0; 32];
    bytes[..16].copy_from_slice(&first.bytes());
    bytes[16..].copy_from_slice(&second.bytes());
    bytes
}

fn pair_stored(at: Option<u64>, words: Words, link: Words) -> Access
    ensures { result ≡ pair_stored at words link }
{
    store_in(at, Stored::ThirtyTwo(pair_bytes(words, link)))
}

/// UNMAP's parameter list.
pub(crate) fn list_stored(at: Option<u64>, list: Option<[u8; 32]>) -> Access
    ensures { result ≡ list_stored at list }
{
    match list {
        Some(list) => store_in(at, Stored::ThirtyTwo(list)),
        None => Access::Rest(0),
    }
}

/// A TRB of a command's data.
pub(crate) fn piece_stored(
    layout: &Layout,
    sent: &Sent,
    pieces: &[Piece],
    third: u8,
    number: u8,
) -> Access
    ensures { result ≡ piece_stored layout.now sent.now pieces.now third number }
{
    let is_last = pieces.len() <= usize::from(number) + 1;
    piece_at(
        data_trb(pieces, usize::from(number), sent.way.is_in()),
        layout,
        sent.data_ring(),
        third,
        number,
        is_last,
    )
}

fn piece_at(
    trb: Option<DataTrb>,
    layout: &Layout,
    ring: Ring,
    third: u8,
    number: u8,
    is_last: bool,
) -> Access
    ensures { result ≡ piece_at trb layout.now ring third number is_last }
{
    let Some(trb) = trb else {
        return Access::Rest(0);
    };
    let words = trb.words(number != 0);
    let at = place_in(layout, ring, third, number);
    if is_last {
        pair_stored(at, words, third_link(layout, ring, third))
    } else {
        store_in(at, Stored::Sixteen(words.bytes()))
    }
}

pub(crate) fn first_stored(trb: Option<DataTrb>, at: Option<u64>) -> Access
    ensures { result ≡ first_stored trb at }
{
    match trb {
        Some(trb) => last_stored(at, trb.words(true)),
        None => Access::Rest(0),
    }
}

/// The status unit's TRB and the Link behind it; then its last word.
pub(crate) fn status_stored(unit: Option<u64>, layout: &Layout, sent: &Sent, third: u8) -> Access
    ensures { result ≡ status_stored unit layout.now sent.now third }
{
    let ring = Ring::Status(sent.tag);
    match unit {
        Some(at) => pair_stored(
            place_in(layout, ring, third, 0),
            status_trb(at).words(false),
            third_link(layout, ring, third),
        ),
        None => Access::Rest(0),
    }
}

pub(crate) fn status_first(unit: Option<u64>, layout: &Layout, sent: &Sent, third: u8) -> Access
    ensures { result ≡ status_first unit layout.now sent.now third }
{
    match unit {
        Some(at) => last_stored(
            place_in(layout, Ring::Status(sent.tag), third, 0),
            status_trb(at).words(true),
        ),
        None => Access::Rest(0),
    }
}

/// The Command unit's TRB, not yet the controller's; then its last word.
pub(crate) fn unit_stored(unit: Option<u64>, layout: &Layout, at: PipeRing) -> Access
    ensures { result ≡ unit_stored unit layout.now at }
{
    match unit {
        Some(unit) => store_in(
            Some(at.address(layout)),
            Stored::Sixteen(unit_trb(unit).words(!at.cycle).bytes()),
        ),
        None => Access::Rest(0),
    }
}

pub(crate) fn unit_last(unit: Option<u64>, layout: &Layout, at: PipeRing) -> Access
    ensures { result ≡ unit_last unit layout.now at }
{
    match unit {
        Some(unit) => last_stored(Some(at.address(layout)), unit_trb(unit).words(at.cycle)),
        None => Access::Rest(0),
    }
}
