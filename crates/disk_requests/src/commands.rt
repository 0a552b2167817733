//! CDBs, and the UNMAP parameter list (SPC-4, SBC-3).
ghost use Rattle.std.specs.Prelude.{◌≡◌, ◌∷◌};
ghost use Rattle.scsi_cmd.specs.Fields.{zeros};
ghost use Rattle.disk_requests.specs.Commands.{asking_cdb, inquiry_cdb, is_wide, read_op, request_cdb, start_unit_cdb, unmap_list, write_op};

use crate::fields::{eight_bytes, four_bytes};
use crate::{Asking, LONG_CAPACITY_BYTES, Request};
use scsi_cmd::{Op, cdb};

/// Operation codes (SPC-4, SBC-3).
const INQUIRY: u8 = 0x12;

const START_STOP_UNIT: u8 = 0x1b;

const UNMAP: u8 = 0x42;

const SYNCHRONIZE_CACHE_16: u8 = 0x91;

/// EVPD in byte 1 of INQUIRY, and START in byte 4 of START STOP UNIT.
const EVPD: u8 = 1;

const START: u8 = 1;

/// Bytes of an UNMAP parameter list with one descriptor.
const UNMAP_BYTES: u8 = 24;

/// The CDB of a request, with zeros behind one of 10 bytes. A disk that `is_long` has more than 2^32 blocks: its CDBs have 16 bytes. So has that
/// of a block or a count that doesn't fit one of 10.
pub fn request_cdb(request: &Request, is_long: bool) -> [u8; 16]
    ensures { result ≡ request_cdb request.now is_long }
{
    match *request {
        Request::Read { block, count } => cdb(&read_op(block, count, is_long)),
        Request::Write { block, count, fua } => cdb(&write_op(block, count, fua, is_long)),
        Request::Sync if is_long => bare_command(SYNCHRONIZE_CACHE_16),
        Request::Sync => cdb(&Op::Sync { lba: 0, count: 0 }),
        Request::Unmap { .. } => [UNMAP, 0, 0, 0, 0, 0, 0, 0, UNMAP_BYTES, 0, 0, 0, 0, 0, 0, 0],
        Request::Ready => cdb(&Op::TestUnitReady),
    }
}

fn read_op(block: u64, count: u32, is_long: bool) -> Op
    ensures { result ≡ read_op block count is_long }
{
    if is_wide(block, count, is_long) {
        return Op::Read16 {
            lba: block,
            count,
            fua: false,
        };
    }
    Op::Read {
        lba: block as u32,
        count: count as u16,
        fua: false,
    }
}

fn write_op(block: u64, count: u32, fua: bool, is_long: bool) -> Op
    ensures { result ≡ write_op block count fua is_long }
{
    if is_wide(block, count, is_long) {
        return Op::Write16 {
            lba: block,
            count,
            fua,
        };
    }
    Op::Write {
        lba: block as u32,
        count: count as u16,
        fua,
    }
}

/// Whether a CDB of 16 bytes is needed.
fn is_wide(block: u64, count: u32, is_long: bool) -> bool
    ensures { result ≡ is_wide block count is_long }
{
    is_long || block > u64::from(u32::MAX) || count > u32::from(u16::MAX)
}

/// A command without fields.
fn bare_command(code: u8) -> [u8; 16]
    ensures { result ≡ code ∷ zeros 15 }
{
    let mut bytes = [0; 16];
    bytes[0] = code;
    bytes
}

/// The CDB of a command of a bring-up.
pub fn asking_cdb(asking: &Asking) -> [u8; 16]
    ensures { result ≡ asking_cdb asking.now }
{
    match *asking {
        Asking::Inquiry { page, length } => inquiry_cdb(page, length),
        Asking::TestUnitReady => cdb(&Op::TestUnitReady),
        Asking::StartUnit => start_unit(),
        Asking::ReadCapacity10 => cdb(&Op::ReadCapacity),
        Asking::ReadCapacity16 => cdb(&Op::ReadCapacity16 {
            allocation: LONG_CAPACITY_BYTES,
        }),
    }
}

/// START STOP UNIT with START set.
fn start_unit() -> [u8; 16]
    ensures { result ≡ start_unit_cdb }
{
    let mut bytes = bare_command(START_STOP_UNIT);
    bytes[4] = START;
    bytes
}

fn inquiry_cdb(page: Option<u8>, length: u16) -> [u8; 16]
    ensures { result ≡ inquiry_cdb page length }
{
    match page {
        None => cdb(&Op::Inquiry { allocation: length }),
        Some(page) => {
            let [high, low] = length.to_be_bytes();
            [
                INQUIRY, EVPD, page, high, low, 0, 0, 0, 0, 0, 0, 0, 0, 0, 0, 0,
            ]
        }
    }
}

/// The parameter list of an UNMAP of `count` blocks from `block` on (SBC-3, 5.28).
pub fn unmap_list(block: u64, count: u32) -> [u8; 24]
    ensures { result ≡ unmap_list block count }
{
    let [a, b, c, d, e, f, g, h] = eight_bytes(block);
    let [i, j, k, l] = four_bytes(count);
    [
        0, 22, 0, 16, 0, 0, 0, 0, a, b, c, d, e, f, g, h, i, j, k, l, 0, 0, 0, 0,
    ]
}
