//! The data of a TD, cut into TRBs at 64 KiB boundaries (6.4.1.1: no TRB crosses one).
ghost use Rattle.std.specs.Prelude.{◌≡◌, ◌<◌, ◌≤◌, ◌+◌, ◌*◌, ◌++◌, IfErr, MatchResult, OnOk, false};
ghost use Rattle.std.specs.List.{list_any};
ghost use Rattle.arrayvec.specs.ArrayVec.{array_vec_len};
ghost use Rattle.host_layout.specs.Cutting.{count_of, cut_of, data_trb_of, is_beyond, is_empty, moved_of, packets_left, piece_of, pieces_of, trb_of_piece};
ghost use Rattle.host_layout.specs.Sizes.{pieces_number};

use crate::Pieces;
use arrayvec::ArrayVec;
use host_trbs::DataTrb;

/// Bytes of memory that data lies in.
#[derive(Clone, Copy, Debug, PartialEq, Eq)]
pub struct Segment {
    pub address: u64,
    pub length: u32,
}

/// The bytes of one TRB.
#[derive(Clone, Copy, Debug, Default, PartialEq, Eq)]
pub struct Piece {
    pub at: u64,
    pub length: u32,
    /// The TD's bytes up to this piece's end.
    pub end: u32,
}

impl Piece {
    /// The bytes of its TD that were moved where `residual` bytes of this piece were not, and all before it were. A residual above
    /// the piece's length counts as that.
    pub fn moved(&self, residual: u32) -> u32
        ensures { result ≡ moved_of self.now residual }
    {
        self.end.saturating_sub(residual.min(self.length))
    }

    // The data TRB of a piece of a TD that has so many bytes.
    fn trb(&self, total: u32, is_last: bool, is_in: bool) -> DataTrb
        ensures { result ≡ trb_of_piece total is_last is_in self.now }
    {
        let packets_left = if is_last {
            0
        } else {
            packets_left(total, self.end)
        };
        DataTrb {
            at: self.at,
            length: self.length,
            packets_left,
            is_last,
            is_in,
        }
    }
}

/// The data TRB of a TD's piece, counted from 0: TD Size counts down to 0 on the last, which alone doesn't chain. None behind the last.
pub fn data_trb(pieces: &[Piece], number: usize, is_in: bool) -> Option<DataTrb>
    ensures { result ≡ data_trb_of pieces.now number is_in }
{
    if number >= pieces.len() {
        return None;
    }
    let last = pieces.len() - 1;
    Some(pieces[number].trb(pieces[last].end, number == last, is_in))
}

/// The most pieces of a TD.
pub const MOST_PIECES: usize = 127;

/// Why segments aren't cut.
#[derive(Clone, Copy, Debug, PartialEq, Eq)]
pub enum CutFault {
    /// There is no segment, or one has no bytes.
    Empty,
    /// A segment doesn't end below 2^64.
    Reach,
    /// They make more pieces than a TD may have.
    TooMany,
}

/// Segments cut at 64 KiB boundaries, and nowhere else. The pieces are the data of a TD's TRBs, in order.
pub fn cut(segments: &[Segment], most: Pieces) -> Result<ArrayVec<Piece, MOST_PIECES>, CutFault>
    ensures { MatchResult result (λ pieces. cut_of (pieces_number most) segments.now ≡ Ok pieces.items) (λ fault. cut_of (pieces_number most) segments.now ≡ Err fault) }
{
    if segments.is_empty() || has_empty(segments) {
        return Err(CutFault::Empty);
    }
    if has_beyond(segments) {
        return Err(CutFault::Reach);
    }
    let most = usize::from(most.number());
    let mut pieces = ArrayVec::new();
    let mut done = 0;
    for segment in segments {
        if let Err(fault) = push_pieces(&mut pieces, most, done, segment) {
            return Err(fault);
        }
        done += segment.length;
    }
    Ok(pieces)
}

// TD Size of a TRB that isn't its TD's last (4.11.2.4).
fn packets_left(total: u32, end: u32) -> u8
    ensures { result ≡ packets_left total end }
{
    let packets = (u64::from(total) + 1023) / 1024;
    packets.saturating_sub(u64::from(end / 1024)).min(31) as u8
}

fn has_empty(segments: &[Segment]) -> bool
    ensures { result ≡ list_any is_empty segments.now }
{
    segments.iter().any(|segment| is_empty(segment))
}

fn has_beyond(segments: &[Segment]) -> bool
    ensures { result ≡ list_any is_beyond segments.now }
{
    segments.iter().any(|segment| is_beyond(segment))
}

fn is_empty(segment: &Segment) -> bool
    ensures { result ≡ is_empty segment.now }
{
    segment.length == 0
}

fn is_beyond(segment: &Segment) -> bool
    ensures { result ≡ is_beyond segment.now }
{
    u64::from(segment.length) > u64::MAX - segment.address
}

/// Puts the pieces of a segment behind those of `done` bytes.
fn push_pieces(
    pieces: &mut ArrayVec<Piece, MOST_PIECES>,
    most: usize,
    done: u32,
    segment: &Segment,
) -> Result<(), CutFault>
    requires most { most ≤ 127 }
    requires held { array_vec_len pieces.old ≤ most }
    requires done { done ≤ 65536 * array_vec_len pieces.old }
    requires some { is_empty segment.now ≡ false }
    requires ends { is_beyond segment.now ≡ false }
    ensures pushed { OnOk result (pieces.new.items ≡ pieces.old.items ++ pieces_of done segment.now (count_of segment.now)) }
    ensures held { OnOk result (array_vec_len pieces.new ≤ most) }
    ensures length { OnOk result (array_vec_len pieces.new ≡ array_vec_len pieces.old + count_of segment.now) }
    ensures refused { IfErr result (λ fault. (fault ≡ CutFault.TooMany) × (most < array_vec_len pieces.old + count_of segment.now)) }
{
    let count = (segment.address % 0x1_0000 + u64::from(segment.length) + 0xffff) / 0x1_0000;
    if count > (most - pieces.len()) as u64 {
        return Err(CutFault::TooMany);
    }
    for number in 0..count {
        pieces.push(piece_in_block(done, segment, number));
    }
    Ok(())
}

/// The piece of a segment in the 64 KiB block of a number, counted from 0, behind `done` bytes.
fn piece_in_block(done: u32, segment: &Segment, number: u64) -> Piece
    requires few { number < 127 }
    requires done { done ≤ 65536 * 127 }
    requires there { number < count_of segment.now }
    requires ends { is_beyond segment.now ≡ false }
    ensures { result ≡ piece_of done segment.now number }
{
    let Segment { address, length } = *segment;
    let at = if number == 0 {
        address
    } else {
        0x1_0000 * (address / 0x1_0000 + number)
    };
    let before = (at - address) as u32;
    let room = 0x1_0000 - (at % 0x1_0000) as u32;
    let length = room.min(length - before);
    Piece {
        at,
        length,
        end: done + before + length,
    }
}
