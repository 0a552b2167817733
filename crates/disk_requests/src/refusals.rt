//! Requests that aren't sent.
ghost use Rattle.std.specs.Prelude.{◌≡◌, ◌↔◌, ◌+◌, None, nat_lt};
ghost use Rattle.disk_requests.specs.Refusals.{IsAsked, first_block, is_fua, is_unmap, most_of, moved_bytes, named_blocks, refusal_of};

use crate::Request;
use thiserror::Error;

/// What is known of a disk.
#[derive(Clone, Copy, Debug, PartialEq, Eq)]
pub struct DiskShape {
    pub blocks: u64,
    pub block_bytes: u32,
    /// The most blocks of one READ or WRITE; 0 for no limit.
    pub most_blocks: u32,
    /// The most blocks of one UNMAP; 0 for no limit.
    pub most_unmap: u32,
    pub can_unmap: bool,
    pub has_fua: bool,
}

/// Why a request isn't sent.
#[derive(Clone, Copy, Debug, PartialEq, Eq, Error)]
pub enum Refusal {
    #[error("a block isn't on the disk")]
    Range = 1,
    #[error("more blocks than one request can have")]
    TooLong,
    #[error("the disk can't unmap blocks")]
    NoUnmap,
    #[error("the disk has no forced unit access")]
    NoFua,
    #[error("other bytes are lent than are moved")]
    Length,
}

/// Why a disk isn't asked a request whose caller lends so many bytes; None where it is. Tested in this order: `Range` where a block isn't there;
/// `TooLong`; `NoUnmap`; `NoFua`; `Length` where READ or WRITE moves another number of bytes, or anything is lent for another request.
pub fn refusal_of(request: &Request, disk: &DiskShape, lent: u64) -> Option<Refusal>
    ensures first { result ≡ refusal_of request.now disk.now lent }
    ensures asked { (result ≡ None) ↔ IsAsked request.now disk.now lent }
{
    let count = named_blocks(request);
    let most = most_of(request, disk);
    if is_beyond(first_block(request), count, disk.blocks) {
        Some(Refusal::Range)
    } else if most != 0 && count > most {
        Some(Refusal::TooLong)
    } else if is_unmap(request) && !disk.can_unmap {
        Some(Refusal::NoUnmap)
    } else if is_fua(request) && !disk.has_fua {
        Some(Refusal::NoFua)
    } else if lent != moved_bytes(request, disk.block_bytes) {
        Some(Refusal::Length)
    } else {
        None
    }
}

/// Whether not all of `count` blocks from `first` on are among so many blocks.
fn is_beyond(first: u64, count: u32, blocks: u64) -> bool
    ensures { result ≡ nat_lt blocks (first + count) }
{
    first > blocks || u64::from(count) > blocks - first
}

fn first_block(request: &Request) -> u64
    ensures { result ≡ first_block request.now }
{
    match *request {
        Request::Read { block, .. } | Request::Write { block, .. } | Request::Unmap { block, .. } =>
            block,
        Request::Sync | Request::Ready => 0,
    }
}

fn named_blocks(request: &Request) -> u32
    ensures { result ≡ named_blocks request.now }
{
    match *request {
        Request::Read { count, .. } | Request::Write { count, .. } | Request::Unmap { count, .. } =>
            count,
        Request::Sync | Request::Ready => 0,
    }
}

fn moved_bytes(request: &Request, block_bytes: u32) -> u64
    ensures { result ≡ moved_bytes request.now block_bytes }
{
    match *request {
        Request::Read { count, .. } | Request::Write { count, .. } => u64::from(count)
            * u64::from(block_bytes),
        Request::Sync | Request::Unmap { .. } | Request::Ready => 0,
    }
}

/// The most blocks of such a request; 0 for no limit.
fn most_of(request: &Request, disk: &DiskShape) -> u32
    ensures { result ≡ most_of request.now disk.now }
{
    match request {
        Request::Read { .. } | Request::Write { .. } => disk.most_blocks,
        Request::Unmap { .. } => disk.most_unmap,
        Request::Sync | Request::Ready => 0,
    }
}

fn is_unmap(request: &Request) -> bool
    ensures { result ≡ is_unmap request.now }
{
    matches!(request, Request::Unmap { .. })
}

fn is_fua(request: &Request) -> bool
    ensures { result ≡ is_fua request.now }
{
    matches!(request, Request::Write { fua: true, .. })
}
