//! A command for C: a request of the disk, with the segments of its data.
ghost use Rattle.std.specs.Prelude.{◌≡◌, ◌≤◌, length, map, take};
ghost use Rattle.uas_block_c.specs.Puts.{Put, request_of, segment_of};

use crate::door::KeptBlock;
use crate::faults::{BLOCK_CALL, BLOCK_PIECES};
use crate::numbers::put_number;
use disk_requests::Request;
use host_layout::{MOST_PIECES, Segment};

/// A command.
#[repr(C)]
#[derive(Clone, Copy)]
pub struct UasBlockCommand {
    /// The disk's number, as STATE tells it.
    pub disk: u64,
    /// READ, WRITE and UNMAP: the first block.
    pub block: u64,
    /// What comes back with its reply.
    pub mark: u64,
    /// The time in ms by which it is over.
    pub limit: u64,
    /// READ, WRITE and UNMAP: how many blocks.
    pub count: u32,
    /// Out: its tag.
    pub tag: u16,
    /// 1 READ, 2 WRITE, 3 SYNCHRONIZE CACHE, 4 UNMAP, 5 TEST UNIT READY.
    pub kind: u8,
    /// WRITE: whether it goes through to the medium.
    pub fua: u8,
}

/// Memory that data lies in.
#[repr(C)]
#[derive(Clone, Copy)]
pub struct UasSegment {
    pub address: u64,
    pub length: u32,
    pub reserved: u32,
}

/// The request that a command asks.
fn request_of(command: &UasBlockCommand) -> Option<Request>
    ensures { result ≡ request_of command.now }
{
    let block = command.block;
    let count = command.count;
    match command.kind {
        1 => Some(Request::Read { block, count }),
        2 => Some(Request::Write {
            block,
            count,
            fua: command.fua != 0,
        }),
        3 => Some(Request::Sync),
        4 => Some(Request::Unmap { block, count }),
        5 => Some(Request::Ready),
        _ => None,
    }
}

/// Segments as the driver has them, at the front of as many as a command has at most.
#[tactic(auto, using(std::proofs::lemmas::List::take_more_set, std::proofs::lemmas::List::map_more))]
fn segments_of(segments: &[UasSegment]) -> [Segment; MOST_PIECES]
    requires { length segments.now ≤ 127 }
    ensures { take (length segments.now) result ≡ map segment_of segments.now }
{
    let mut lent = [Segment {
        address: 0,
        length: 0,
    }; MOST_PIECES];
    for i in 0..segments.len() {
        lent[i] = segment_of(&segments[i]);
    }
    lent
}

fn segment_of(segment: &UasSegment) -> Segment
    ensures { result ≡ segment_of segment.now }
{
    Segment {
        address: segment.address,
        length: segment.length,
    }
}

/// Submits a command: the number of its refusal, or 0.
pub(crate) fn put(
    command: &mut UasBlockCommand,
    segments: &mut [UasSegment],
    kept: &mut KeptBlock,
) -> u8
    ensures { Put kept.old kept.new command.old command.new segments.old segments.new result }
{
    let Some(request) = request_of(command) else {
        return BLOCK_CALL;
    };
    if segments.len() > MOST_PIECES {
        return BLOCK_PIECES;
    }
    let lent = segments_of(segments);
    let (disk, mark, limit) = (command.disk, command.mark, command.limit);
    match kept
        .driver
        .submit(disk, &request, &lent[..segments.len()], mark, limit)
    {
        Ok(tag) => {
            command.tag = tag;
            0
        }
        Err(fault) => put_number(fault),
    }
}
