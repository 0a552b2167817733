//! INQUIRY data, capacities and pages.
ghost use Rattle.std.specs.Prelude.{◌≡◌, ◌+◌, ◌-◌, ◌≤◌, ◌<◌, ◌^◌, ◌==◌, IfOk, length, slice_range, take};
ghost use Rattle.std.specs.List.{list_any};
ghost use Rattle.disk_requests.specs.Capacities.{FitsCapacity, FitsKnown, capacity_of, long_capacity_in, short_capacity_in};
ghost use Rattle.disk_requests.specs.Inquiry.{inquiry_in, is_disk};
ghost use Rattle.disk_requests.specs.Pages.{is_page, limits_in, lists_page, page_end, page_field};

use crate::DiskFault;
use crate::fields::{eight_at, four_at, has_bit, two_at};

/// The least bytes of standard INQUIRY data, and of READ CAPACITY data.
const INQUIRY_BYTES: usize = 36;

const SHORT_CAPACITY_BYTES: usize = 8;

const LONG_CAPACITY_FIELDS: usize = 15;

/// Page codes: supported pages, and block limits.
const SUPPORTED_PAGES: u8 = 0x00;

const BLOCK_LIMITS: u8 = 0xb0;

/// Bytes of a page's head.
const PAGE_HEAD_BYTES: usize = 4;

/// What standard INQUIRY data say of a disk; names as they stand there, with spaces behind.
#[derive(Clone, Copy, Debug, PartialEq, Eq)]
pub struct InquiryData {
    pub is_removable: bool,
    /// The release of SPC that it follows: 5 is SPC-3.
    pub version: u8,
    pub vendor: [u8; 8],
    pub product: [u8; 16],
    pub revision: [u8; 4],
}

/// How many blocks a disk has, of how many bytes.
#[derive(Clone, Copy, Debug, PartialEq, Eq)]
pub struct Capacity {
    pub blocks: u64,
    pub block_bytes: u32,
    /// Blocks can be unmapped (LBPME); the short data don't tell.
    pub is_provisioned: bool,
}

/// What READ CAPACITY(10) data say.
#[derive(Clone, Copy, Debug, PartialEq, Eq)]
pub enum ShortCapacity {
    Known(Capacity),
    /// There are more blocks than it can tell: READ CAPACITY(16) is to be asked.
    AskLong,
}

/// The limits of commands, in blocks; 0 says nothing of a limit. UNMAP with a limit of 0 blocks isn't there (SBC-3, 6.5.3).
#[derive(Clone, Copy, Debug, PartialEq, Eq)]
pub struct BlockLimits {
    pub most_blocks: u32,
    pub optimal_blocks: u32,
    pub most_unmap: u32,
    /// Descriptors of one UNMAP.
    pub unmap_descriptors: u32,
}

/// Reads standard INQUIRY data. `NotADisk` for fewer than 36 bytes, for a unit that isn't there and for another device type.
pub fn read_inquiry(bytes: &[u8]) -> Result<InquiryData, DiskFault>
    ensures { result ≡ inquiry_in bytes.now }
{
    if !is_disk(bytes) {
        return Err(DiskFault::NotADisk);
    }
    Ok(InquiryData {
        is_removable: has_bit(bytes[1], 7),
        version: bytes[2],
        vendor: array_at(bytes, 8),
        product: array_at(bytes, 16),
        revision: array_at(bytes, 32),
    })
}

fn is_disk(bytes: &[u8]) -> bool
    ensures { result ≡ is_disk bytes.now }
{
    bytes.len() >= INQUIRY_BYTES && bytes[0] == 0
}

/// The `N` bytes from a place on.
fn array_at<const N: usize>(bytes: &[u8], at: usize) -> [u8; N]
    requires { at + N ≤ length bytes.now }
    ensures { result ≡ slice_range bytes.now at (at + N) }
{
    let mut array = [0; N];
    array.copy_from_slice(&bytes[at..at + N]);
    array
}

/// Reads READ CAPACITY(10) data. `BadCapacity` for fewer than 8 bytes; `BlockLength` for blocks of fewer than 512 bytes or more than 4,096.
pub fn read_capacity10(bytes: &[u8]) -> Result<ShortCapacity, DiskFault>
    ensures read { result ≡ short_capacity_in bytes.now }
    ensures fits { IfOk result FitsKnown }
{
    if bytes.len() < SHORT_CAPACITY_BYTES {
        return Err(DiskFault::BadCapacity);
    }
    let last = four_at(bytes, 0);
    if last == u32::MAX {
        return Ok(ShortCapacity::AskLong);
    }
    let capacity = capacity_of(u64::from(last), four_at(bytes, 4), false)?;
    Ok(ShortCapacity::Known(capacity))
}

/// Reads READ CAPACITY(16) data. `BadCapacity` for fewer than 15 bytes and for 2^64 blocks; `BlockLength` as of the short data.
pub fn read_capacity16(bytes: &[u8]) -> Result<Capacity, DiskFault>
    ensures read { result ≡ long_capacity_in bytes.now }
    ensures fits { IfOk result FitsCapacity }
{
    if bytes.len() < LONG_CAPACITY_FIELDS || eight_at(bytes, 0) == u64::MAX {
        return Err(DiskFault::BadCapacity);
    }
    capacity_of(eight_at(bytes, 0), four_at(bytes, 8), has_bit(bytes[14], 7))
}

fn capacity_of(last: u64, block_bytes: u32, is_provisioned: bool) -> Result<Capacity, DiskFault>
    requires { last + 1 < 2 ^ 64 }
    ensures value { result ≡ capacity_of last block_bytes is_provisioned }
    ensures fits { IfOk result FitsCapacity }
{
    if block_bytes < 512 || block_bytes > 4096 {
        return Err(DiskFault::BlockLength);
    }
    Ok(Capacity {
        blocks: last + 1,
        block_bytes,
        is_provisioned,
    })
}

/// Whether page 00h lists a page.
pub fn lists_page(bytes: &[u8], page: u8) -> bool
    ensures { result ≡ lists_page bytes.now page }
{
    is_page(SUPPORTED_PAGES, bytes) && page_codes(bytes).contains(&page)
}

/// The page codes of page 00h.
fn page_codes(bytes: &[u8]) -> &[u8]
    requires { 4 ≤ length bytes.now }
    ensures { result.now ≡ slice_range bytes.now 4 (page_end bytes.now) }
{
    &bytes[PAGE_HEAD_BYTES..page_end(bytes)]
}

/// Reads page B0h; None for another page. A field that the page is too short for is 0.
pub fn read_limits(bytes: &[u8]) -> Option<BlockLimits>
    ensures { result ≡ limits_in bytes.now }
{
    if !is_page(BLOCK_LIMITS, bytes) {
        return None;
    }
    Some(BlockLimits {
        most_blocks: page_field(bytes, 8),
        optimal_blocks: page_field(bytes, 12),
        most_unmap: page_field(bytes, 20),
        unmap_descriptors: page_field(bytes, 24),
    })
}

fn is_page(page: u8, bytes: &[u8]) -> bool
    ensures { result ≡ is_page page bytes.now }
{
    bytes.len() >= PAGE_HEAD_BYTES && bytes[1] == page
}

/// Where a page ends: as far as its length tells, and as came.
fn page_end(bytes: &[u8]) -> usize
    requires { 4 ≤ length bytes.now }
    ensures value { result ≡ page_end bytes.now }
    ensures least { 4 ≤ result }
{
    (PAGE_HEAD_BYTES + usize::from(two_at(bytes, 2))).min(bytes.len())
}

fn page_field(bytes: &[u8], at: usize) -> u32
    requires long { 4 ≤ length bytes.now }
    requires near { at < 256 }
    ensures { result ≡ page_field bytes.now at }
{
    if at + 4 <= page_end(bytes) {
        four_at(bytes, at)
    } else {
        0
    }
}
