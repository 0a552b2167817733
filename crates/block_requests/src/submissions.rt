//! Which requests are taken, and what is put for one.
ghost use Rattle.std.specs.Prelude.{◌≡◌, ◌++◌, MatchResult, None, Some, replicate};
ghost use Rattle.std.specs.List.{list_any};
ghost use Rattle.host_layout.specs.Cutting.{is_empty, pieces_from};
ghost use Rattle.disk_requests.specs.Commands.{unmap_list};
ghost use Rattle.block_requests.specs.Submissions.{fault_of, is_out, is_uneven, lent_bytes, list_of, segments_fault, submission_of, submit_fault, way_of};

use crate::{Submission, SubmitFault};
use arrayvec::ArrayVec;
use disk_ready::Way;
use disk_requests::{DiskShape, Refusal, Request, refusal_of, request_cdb, unmap_list};
use host_layout::{CutFault, MOST_PIECES, Piece, Pieces, Segment, cut};

/// The most blocks of a disk whose CDBs have 10 bytes.
const MOST_SHORT: u64 = 1 << 32;

/// What is put for a request of a disk, with the segments of its data; `reach` is the first address that isn't reached, and a TD has `most` TRBs.
pub fn submitted(
    request: &Request,
    disk: &DiskShape,
    segments: &[Segment],
    reach: u64,
    most: Pieces,
) -> Result<Submission, SubmitFault>
    ensures { MatchResult result (λ made. (submit_fault request.now disk.now segments.now reach most ≡ None) × (made ≡ submission_of request.now disk.now segments.now)) (λ fault. submit_fault request.now disk.now segments.now reach most ≡ Some fault) }
{
    if let Some(refusal) = refusal_of(request, disk, lent_bytes(segments)) {
        return Err(fault_of(refusal));
    }
    let pieces = pieces_of(segments, reach, most)?;
    Ok(Submission {
        way: way_of(request),
        cdb: request_cdb(request, disk.blocks > MOST_SHORT),
        list: list_of(request),
        pieces,
    })
}

fn fault_of(refusal: Refusal) -> SubmitFault
    ensures { result ≡ fault_of refusal }
{
    match refusal {
        Refusal::Range => SubmitFault::Range,
        Refusal::TooLong => SubmitFault::TooLong,
        Refusal::NoUnmap => SubmitFault::NoUnmap,
        Refusal::NoFua => SubmitFault::NoFua,
        Refusal::Length => SubmitFault::Length,
    }
}

/// The bytes that segments lend.
#[tactic(auto, using(std::proofs::lemmas::List::Sums::sum_by_more))]
fn lent_bytes(segments: &[Segment]) -> u64
    ensures { result ≡ lent_bytes segments.now }
{
    let mut lent: u64 = 0;
    for segment in segments {
        lent = lent.saturating_add(u64::from(segment.length));
    }
    lent
}

/// The pieces of segments, none where there are none.
fn pieces_of(
    segments: &[Segment],
    reach: u64,
    most: Pieces,
) -> Result<ArrayVec<Piece, MOST_PIECES>, SubmitFault>
    ensures { MatchResult result (λ pieces. (segments_fault segments.now reach most ≡ None) × (pieces.items ≡ pieces_from 0 segments.now)) (λ fault. segments_fault segments.now reach most ≡ Some fault) }
{
    if segments.is_empty() {
        return Ok(ArrayVec::new());
    }
    if has_empty(segments) {
        return Err(SubmitFault::Length);
    }
    if has_uneven(segments) {
        return Err(SubmitFault::Alignment);
    }
    if has_out(segments, reach) {
        return Err(SubmitFault::Reach);
    }
    match cut(segments, most) {
        Ok(pieces) => Ok(pieces),
        Err(CutFault::Empty) => Err(SubmitFault::Length),
        Err(CutFault::Reach) => Err(SubmitFault::Reach),
        Err(CutFault::TooMany) => Err(SubmitFault::Pieces),
    }
}

fn has_empty(segments: &[Segment]) -> bool
    ensures { result ≡ list_any is_empty segments.now }
{
    segments.iter().any(|segment| is_empty(segment))
}

fn is_empty(segment: &Segment) -> bool
    ensures { result ≡ is_empty segment.now }
{
    segment.length == 0
}

fn has_uneven(segments: &[Segment]) -> bool
    ensures { result ≡ list_any is_uneven segments.now }
{
    segments.iter().any(|segment| is_uneven(segment))
}

fn has_out(segments: &[Segment], reach: u64) -> bool
    ensures { result ≡ list_any (λ segment. is_out reach segment) segments.now }
{
    segments.iter().any(|segment| is_out(segment, reach))
}

fn is_uneven(segment: &Segment) -> bool
    ensures { result ≡ is_uneven segment.now }
{
    segment.address % 512 != 0 || segment.length % 512 != 0
}

fn is_out(segment: &Segment, reach: u64) -> bool
    ensures { result ≡ is_out reach segment.now }
{
    segment.address > reach || u64::from(segment.length) > reach - segment.address
}

fn way_of(request: &Request) -> Way
    ensures { result ≡ way_of request.now }
{
    match *request {
        Request::Read { count, .. } | Request::Write { count, .. } if count == 0 => Way::Nothing,
        Request::Read { .. } => Way::In,
        Request::Write { .. } | Request::Unmap { .. } => Way::Out,
        Request::Sync | Request::Ready => Way::Nothing,
    }
}

fn list_of(request: &Request) -> Option<[u8; 32]>
    ensures { result ≡ list_of request.now }
{
    match *request {
        Request::Unmap { block, count } => Some(long_list(block, count)),
        _ => None,
    }
}

/// UNMAP's parameter list, with zeros behind it.
fn long_list(block: u64, count: u32) -> [u8; 32]
    ensures { result ≡ unmap_list block count ++ replicate 8 0 }
{
    let mut list = [0; 32];
    list[..24].copy_from_slice(&unmap_list(block, count));
    list
}
