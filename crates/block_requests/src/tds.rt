//! The TD of a submission's data.
ghost use Rattle.std.specs.Prelude.{◌≡◌};
ghost use Rattle.block_requests.specs.Tds.{list_piece, pieces_of, wanted};

use crate::Submission;
use crate::outcomes::total_of;
use arrayvec::ArrayVec;
use host_layout::{Layout, MOST_PIECES, Piece, TagArea};

/// The bytes of an UNMAP parameter list with one descriptor.
const LIST_BYTES: u32 = 24;

/// The pieces that are put for a submission on a tag: those of its segments, or for UNMAP its list, at the tag's place of one.
pub fn pieces_of(layout: &Layout, tag: u8, submission: &Submission) -> ArrayVec<Piece, MOST_PIECES>
    ensures { result.items ≡ pieces_of layout.now tag submission.now }
{
    match submission.list {
        Some(_) => list_piece(layout.of_tag(tag, TagArea::UnmapList)),
        None => copied(&submission.pieces),
    }
}

fn copied(pieces: &ArrayVec<Piece, MOST_PIECES>) -> ArrayVec<Piece, MOST_PIECES>
    ensures { result.items ≡ pieces.now.items }
{
    let mut copy = ArrayVec::new();
    copy.try_extend_from_slice(pieces.as_slice()).unwrap();
    copy
}

/// UNMAP's list, in one piece.
fn list_piece(at: Option<u64>) -> ArrayVec<Piece, MOST_PIECES>
    ensures { result.items ≡ list_piece at }
{
    let mut pieces = ArrayVec::new();
    if let Some(at) = at {
        pieces.push(Piece {
            at,
            length: LIST_BYTES,
            end: LIST_BYTES,
        });
    }
    pieces
}

/// The bytes that a submission moves.
pub fn wanted(submission: &Submission) -> u32
    ensures { result ≡ wanted submission.now }
{
    match submission.list {
        Some(_) => LIST_BYTES,
        None => total_of(submission.pieces.as_slice()),
    }
}
