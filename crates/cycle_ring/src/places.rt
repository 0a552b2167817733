//! The bytes of a ring's segment: items behind the others, and the Link (xHCI 1.2, 4.9.2 and 4.11.5).

ghost use Rattle.std.specs.Prelude.{◌≡◌, ℕ, ◌+◌, ◌-◌, ◌%◌, ◌^◌, ◌<◌, ◌≤◌, ◌++◌, [], ◌∷◌, Bool, true, false, not, List, length, map, All};
ghost use Rattle.std.specs.Vec.{vec_len};
ghost use Rattle.xhci_trb.specs.declared.Trb.{Trb};
ghost use Rattle.xhci_trb.specs.declared.Trb.TheVariants.{Link};
ghost use Rattle.xhci_trb.specs.Text.{HasText, text};
ghost use Rattle.xhci_trb.specs.Words.{words_in};
ghost use Rattle.ring_ends.specs.Counted.{IsEnd};
ghost use Rattle.ring_ends.specs.Held.{IsText, chain_in};
ghost use Rattle.cycle_ring.specs.Items.{Item, HasBytes, item_chain, item_form, item_read, known, stamped};
ghost use Rattle.cycle_ring.specs.Segment.{HoldsItems};

use ring_ends::{End, chain_bit};
use xhci_trb::{Trb, decode, encode};

/// Writes TRBs from the producer's end on, and gives its new end; there is room.
#[inline(always)]
pub(crate) fn put_back<const N: usize>(
    places: &mut Vec<[u8; 16]>,
    base: u64,
    start: End,
    trbs: &[Trb],
) -> End
    requires least_places { 4 ≤ N }
    requires base { base % 16 ≡ 0 }
    requires texts { All HasText trbs.now }
    requires size { vec_len places.old ≡ N }
    requires within { start.place < N - 1 }
    ensures holds { (at : ℕ) (put : List Item) → HoldsItems N base places.old.items at put → length put + length trbs.now ≤ N - 2
        → IsEnd (N - 1) (at + length put) start → HoldsItems N base places.new.items at (put ++ map known trbs.now) }
    ensures end { (at : ℕ) (put : List Item) → HoldsItems N base places.old.items at put → length put + length trbs.now ≤ N - 2
        → IsEnd (N - 1) (at + length put) start → IsEnd (N - 1) (at + length put + length trbs.now) result }
{
    let mut end = start;
    for trb in trbs {
        let text = encode(trb, end.cycle);
        end = put::<N>(places, base, end, text, trb.has_chain());
    }
    end
}

/// Writes 16 bytes with the producer's Cycle bit in place of theirs, and gives its new end; there is room.
#[inline(always)]
pub(crate) fn put_raw_back<const N: usize>(
    places: &mut Vec<[u8; 16]>,
    base: u64,
    end: End,
    bytes: &[u8; 16],
) -> End
    requires least_places { 4 ≤ N }
    requires base { base % 16 ≡ 0 }
    requires size { vec_len places.old ≡ N }
    requires within { end.place < N - 1 }
    ensures has_bytes { HasBytes (item_read bytes.now) }
    ensures holds { (at : ℕ) (put : List Item) → HoldsItems N base places.old.items at put → length put < N - 2
        → IsEnd (N - 1) (at + length put) end → HoldsItems N base places.new.items at (put ++ item_read bytes.now ∷ []) }
    ensures end { (at : ℕ) (put : List Item) → IsEnd (N - 1) (at + length put) end → IsEnd (N - 1) (at + length put + 1) result }
{
    let cycle = end.cycle;
    raw_reads_back(bytes, cycle);
    let text = stamped(bytes, cycle);
    put::<N>(places, base, end, text, chain_bit(bytes))
}

// Writes an item's bytes, and behind the last place before it the Link, which has that item's Cycle bit and Chain bit.
#[inline(always)]
fn put<const N: usize>(
    places: &mut Vec<[u8; 16]>,
    base: u64,
    end: End,
    bytes: [u8; 16],
    chain: bool,
) -> End
    requires least_places { 4 ≤ N }
    requires base { base % 16 ≡ 0 }
    requires size { vec_len places.old ≡ N }
    requires within { end.place < N - 1 }
    ensures size { vec_len places.new ≡ N }
    ensures within { result.place < N - 1 }
    ensures holds { (at : ℕ) (put : List Item) (item : Item) → HoldsItems N base places.old.items at put → length put < N - 2
        → IsEnd (N - 1) (at + length put) end → IsText item_form bytes item end.cycle → chain ≡ item_chain item
        → HoldsItems N base places.new.items at (put ++ item ∷ []) }
    ensures end { (at : ℕ) (put : List Item) → IsEnd (N - 1) (at + length put) end → IsEnd (N - 1) (at + length put + 1) result }
{
    let cycle = end.cycle;
    places[end.place] = bytes;
    if end.place + 1 < N - 1 {
        return End {
            place: end.place + 1,
            cycle,
        };
    }
    let link = Trb::Link {
        pointer: base,
        toggle: true,
        chain,
        ioc: false,
    };
    places[N - 1] = encode(&link, cycle);
    End {
        place: 0,
        cycle: !cycle,
    }
}

// 16 bytes with this Cycle bit (6.4): bit 0 of the control word, the low byte of which is byte 12.
#[inline(always)]
fn stamped(bytes: &[u8; 16], cycle: bool) -> [u8; 16]
    ensures { result ≡ stamped bytes.now cycle }
{
    let mut stamped = *bytes;
    stamped[12] = stamped[12] / 2 * 2 + u8::from(cycle);
    stamped
}

// Law: 16 bytes with any Cycle bit are those of the item that they are read as.
#[inline(always)]
fn raw_reads_back(bytes: &[u8; 16], cycle: bool)
    ensures has_bytes { HasBytes (item_read bytes.now) }
    ensures text { IsText item_form (stamped bytes.now cycle) (item_read bytes.now) cycle }
    ensures chain { item_chain (item_read bytes.now) ≡ chain_in (words_in bytes.now) }
{
    let _cycle = cycle;
    let _read = decode(bytes);
}

/// The consumer's end behind a Link: the place that it names, toggled where it says so. Bytes that are no Link
/// of this ring lead nowhere.
pub(crate) fn behind_link(link: &[u8; 16], base: u64, end: End) -> End
    requires aligned { base % 16 ≡ 0 }
    ensures { (chain cycle : Bool) → link.now ≡ text (Link base true chain false) cycle → result ≡ record { place = 0; cycle = not end.cycle } }
{
    match decode(link) {
        Ok((trb, _)) => behind(trb, base, end),
        Err(_) => end,
    }
}

// The same behind a TRB.
fn behind(trb: Trb, base: u64, end: End) -> End
    ensures { (chain : Bool) → trb ≡ Link base true chain false → result ≡ record { place = 0; cycle = not end.cycle } }
{
    match trb {
        Trb::Link {
            pointer,
            toggle,
            ..
        } if base <= pointer => End {
            place: ((pointer - base) / 16) as usize,
            cycle: if toggle { !end.cycle } else { end.cycle },
        },
        _ => end,
    }
}
