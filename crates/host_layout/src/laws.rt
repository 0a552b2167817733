//! The laws of a layout, and of cut segments.
ghost use Rattle.std.specs.Prelude.{◌≡◌, [], ◌∷◌, ◌+◌, ◌*◌, ◌%◌, ◌≤◌, ℕ, All, true, false};
ghost use Rattle.std.specs.List.{list_any};
ghost use Rattle.host_layout.specs.Cutting.{IsTrbData, addresses_in, addresses_of, cut_of, is_empty, packets_left, pieces_from};
ghost use Rattle.host_layout.specs.Places.{HasByte, address_of, alignment_of, area_bytes, has_area, offset_of};
ghost use Rattle.host_layout.specs.Rings.{has_place, next_of, places_of, segment_of, td_of};
ghost use Rattle.host_layout.specs.Shapes.{bytes_of};

use crate::{Area, Layout, Pieces, Ring, RingPlace, Segment, Shape, TagArea};

/// No byte is of two areas.
pub fn areas_apart(layout: &Layout, first: Area, second: Area)
    ensures { (offset : ℕ) → HasByte layout.now.shape first offset → HasByte layout.now.shape second offset → first ≡ second }
{
    let _layout = *layout;
    let _areas = (first, second);
}

/// Each area ends within the layout.
pub fn areas_within(layout: &Layout, area: Area)
    ensures { has_area layout.now.shape area ≡ true → offset_of layout.now.shape area + area_bytes layout.now.shape area ≤ bytes_of layout.now.shape }
{
    let _layout = *layout;
    let _area = area;
}

/// Each area is aligned: contexts and tables to 64 bytes, rings to 16, scratchpads to the controller's page.
pub fn areas_aligned(layout: &Layout, area: Area)
    ensures { address_of layout.now area % alignment_of layout.now.shape area ≡ 0 }
{
    let _layout = *layout;
    let _area = area;
}

/// No segment of a ring crosses a 64 KiB boundary (table 6-1), since the layout's base is a multiple of 65,536.
pub fn segments_in_blocks(layout: &Layout, at: RingPlace)
    ensures { has_place layout.now.shape at ≡ true → segment_of layout.now at.ring at.segment % 65536 + 16 * places_of layout.now.shape at.ring ≤ 65536 }
{
    let _layout = *layout;
    let _at = at;
}

/// The pieces of segments are their bytes, in order, each once.
pub fn pieces_are_the_bytes(segments: &[Segment])
    ensures { addresses_of (pieces_from 0 segments.now) ≡ addresses_in segments.now }
{
    let _count = segments.len();
}

/// Each piece is the data of a TRB: 1 to 65,536 bytes that cross no 64 KiB boundary.
pub fn pieces_are_trbs(segments: &[Segment])
    ensures { list_any is_empty segments.now ≡ false → All IsTrbData (pieces_from 0 segments.now) }
{
    let _count = segments.len();
}

/// Each TD's third is followed by the next TD's.
pub fn tds_follow(ring: Ring, td: u64)
    ensures { next_of (td_of ring td) ≡ td_of ring (td + 1) }
{
    let _td = RingPlace::of_td(ring, td);
}

/// A layout of 15 tags and 31 pieces without scratchpads has 126,976 bytes; tag 1's data rings stand at 12000h and 12600h.
pub fn small_layout(shape: &Shape)
    ensures bytes { shape.now.tags ≡ 15 → shape.now.pieces ≡ Pieces.ThirtyOne → shape.now.scratchpads ≡ 0 → bytes_of shape.now ≡ 126976 }
    ensures data_in { shape.now.tags ≡ 15 → shape.now.pieces ≡ Pieces.ThirtyOne → offset_of shape.now (Area.OfTag 1 TagArea.DataInRing) ≡ 73728 }
    ensures data_out { shape.now.tags ≡ 15 → shape.now.pieces ≡ Pieces.ThirtyOne → offset_of shape.now (Area.OfTag 1 TagArea.DataOutRing) ≡ 75264 }
{
    let _shape = *shape;
}

/// One of 31 tags and 127 pieces has 466,944 bytes.
pub fn large_layout(shape: &Shape)
    ensures { shape.now.tags ≡ 31 → shape.now.pieces ≡ Pieces.HundredTwentySeven → shape.now.scratchpads ≡ 0 → bytes_of shape.now ≡ 466944 }
{
    let _shape = *shape;
}

/// 4,096 bytes at 2000F800h are two pieces of 2,048 bytes, of which the first has 2 packets behind it and the last none.
pub fn two_pieces()
    ensures pieces { cut_of 31 (record { address = 536934400; length = 4096 } ∷ []) ≡ Ok (record { at = 536934400; length = 2048; end = 2048 } ∷ record { at = 536936448; length = 2048; end = 4096 } ∷ []) }
    ensures left { packets_left 4096 2048 ≡ 2 }
    ensures none_left { packets_left 4096 4096 ≡ 0 }
{}
