ghost use Rattle.std.specs.Prelude.{◌≡◌, ℕ, ◌+◌, ◌<◌, ◌≤◌, ◌∷◌, Bool, Option, slice_index, length};
ghost use Rattle.scsi_cmd.specs.Fields.{eight_bytes, field_of_two, field_of_four, field_of_eight, four_bytes, is_bit_set, zeros};
ghost use Rattle.scsi_cmd.specs.Op.{FitsCdb, cdb_bytes, block_cdb, long_cdb, fua_byte, moved_bytes, direction_of};
ghost use Rattle.scsi_cmd.specs.Meaning.{asked, checked, op_fault, range_fault, transfer_fault, named_op, has_invalid_field};

use crate::{Direction, INQUIRY_BYTES, LONG_CAPACITY_BYTES, Op, Sense};
use uas_profile::{BLOCK_BYTES, MOST_BLOCKS_MOVED};

const TEST_UNIT_READY: u8 = 0x00;

/// Operation code of INQUIRY (SPC).
pub(crate) const INQUIRY: u8 = 0x12;

const READ_CAPACITY_10: u8 = 0x25;

const READ_10: u8 = 0x28;

const WRITE_10: u8 = 0x2a;

const SYNCHRONIZE_CACHE_10: u8 = 0x35;

const READ_16: u8 = 0x88;

const WRITE_16: u8 = 0x8a;

/// The commands that are told apart by a service action, READ CAPACITY(16) among them.
const SERVICE_ACTION_IN_16: u8 = 0x9e;

/// The service action of READ CAPACITY(16), in the bits of `SERVICE_ACTION_BITS` of byte 1.
const READ_CAPACITY_16: u8 = 0x10;

const SERVICE_ACTION_BITS: u8 = 0x1f;

/// FUA in byte 1 of READ and WRITE, the long ones too, is this bit.
const FUA_BIT: u8 = 3;

/// Bytes of the READ CAPACITY(10) data.
const CAPACITY_BYTES: usize = 8;

/// The CDB that asks for an operation, padded with zeros to 16 bytes; every bit without a field is 0.
pub fn cdb(op: &Op) -> [u8; 16]
    ensures text { result ≡ cdb_bytes op.now }
    ensures fits { FitsCdb op.now }
    ensures means { (blocks : ℕ) → asked result blocks ≡ checked op.now blocks }
{
    encoded(op)
}

#[tactic(auto, unfolding(crate::specs::Op::cdb_bytes))]
fn encoded(op: &Op) -> [u8; 16]
    ensures text { result ≡ cdb_bytes op.now }
    ensures fits { FitsCdb op.now }
{
    match *op {
        Op::TestUnitReady => bare_command(TEST_UNIT_READY),
        Op::Inquiry { allocation } => {
            let [high, low] = allocation.to_be_bytes();
            [INQUIRY, 0, 0, high, low, 0, 0, 0, 0, 0, 0, 0, 0, 0, 0, 0]
        }
        Op::ReadCapacity => bare_command(READ_CAPACITY_10),
        Op::Read { lba, count, fua } => block_command(READ_10, fua_byte(fua), lba, count),
        Op::Write { lba, count, fua } => block_command(WRITE_10, fua_byte(fua), lba, count),
        Op::Sync { lba, count } => block_command(SYNCHRONIZE_CACHE_10, 0, lba, count),
        Op::Read16 { lba, count, fua } => long_command(READ_16, fua_byte(fua), lba, count),
        Op::Write16 { lba, count, fua } => long_command(WRITE_16, fua_byte(fua), lba, count),
        Op::ReadCapacity16 { allocation } => {
            long_command(SERVICE_ACTION_IN_16, READ_CAPACITY_16, 0, allocation)
        }
    }
}

fn bare_command(code: u8) -> [u8; 16]
    ensures { result ≡ code ∷ zeros 15 }
{
    let mut bytes = [0; 16];
    bytes[0] = code;
    bytes
}

fn block_command(code: u8, flags: u8, lba: u32, count: u16) -> [u8; 16]
    ensures { result ≡ block_cdb code flags lba count }
{
    let [a, b, c, d] = lba.to_be_bytes();
    let [high, low] = count.to_be_bytes();
    [code, flags, a, b, c, d, 0, high, low, 0, 0, 0, 0, 0, 0, 0]
}

fn long_command(code: u8, flags: u8, lba: u64, count: u32) -> [u8; 16]
    ensures { result ≡ long_cdb code flags lba count }
{
    let [a, b, c, d, e, f, g, h] = eight_bytes(lba);
    let [i, j, k, l] = four_bytes(count);
    [code, flags, a, b, c, d, e, f, g, h, i, j, k, l, 0, 0]
}

fn eight_bytes(number: u64) -> [u8; 8]
    ensures { result ≡ eight_bytes number }
{
    let [a, b, c, d] = four_bytes((number >> 32) as u32);
    let [e, f, g, h] = four_bytes((number & 0xffff_ffff) as u32);
    [a, b, c, d, e, f, g, h]
}

fn four_bytes(number: u32) -> [u8; 4]
    ensures { result ≡ four_bytes number }
{
    number.to_be_bytes()
}

fn fua_byte(fua: bool) -> u8
    ensures { result ≡ fua_byte fua }
{
    u8::from(fua) << FUA_BIT
}

/// What 16 bytes ask of a unit of so many blocks. Refused with the sense of the first fault: another operation
/// code; a page, protection, another service action or more than 128 blocks; a block that isn't there. DPO, the
/// immediate bit and all bits without a field are ignored.
#[tactic(auto, unfolding(crate::specs::Meaning::asked))]
#[inline(always)]
pub fn parse(bytes: &[u8; 16], blocks: u32) -> Result<Op, Sense>
    ensures { result ≡ asked bytes.now blocks }
{
    let Some(op) = named(bytes) else {
        return Err(Sense::INVALID_OPERATION_CODE);
    };
    if has_unsupported_field(&op, bytes) {
        return Err(Sense::INVALID_FIELD_IN_CDB);
    }
    match fault(&op, blocks) {
        Some(sense) => Err(sense),
        None => Ok(op),
    }
}

#[inline(always)]
fn named(bytes: &[u8; 16]) -> Option<Op>
    ensures { result ≡ named_op bytes.now }
{
    let lba = four_at(bytes, 2);
    let count = two_at(bytes, 7);
    let long_lba = eight_at(bytes, 2);
    let long_count = four_at(bytes, 10);
    let fua = has_bit(bytes[1], FUA_BIT);
    match bytes[0] {
        TEST_UNIT_READY => Some(Op::TestUnitReady),
        INQUIRY => Some(Op::Inquiry {
            allocation: two_at(bytes, 3),
        }),
        READ_CAPACITY_10 => Some(Op::ReadCapacity),
        READ_10 => Some(Op::Read { lba, count, fua }),
        WRITE_10 => Some(Op::Write { lba, count, fua }),
        SYNCHRONIZE_CACHE_10 => Some(Op::Sync { lba, count }),
        READ_16 => Some(Op::Read16 {
            lba: long_lba,
            count: long_count,
            fua,
        }),
        WRITE_16 => Some(Op::Write16 {
            lba: long_lba,
            count: long_count,
            fua,
        }),
        SERVICE_ACTION_IN_16 => Some(Op::ReadCapacity16 {
            allocation: long_count,
        }),
        _ => None,
    }
}

/// EVPD and the page of INQUIRY (SPC), the protect field of READ and WRITE, the service action of READ CAPACITY(16)
/// (SBC).
fn has_unsupported_field(op: &Op, bytes: &[u8; 16]) -> bool
    ensures { result ≡ has_invalid_field op.now bytes.now }
{
    match op {
        Op::Inquiry { .. } => has_bit(bytes[1], 0) || bytes[2] != 0,
        Op::Read { .. } | Op::Write { .. } | Op::Read16 { .. } | Op::Write16 { .. } => {
            bytes[1] >> 5 != 0
        }
        Op::ReadCapacity16 { .. } => bytes[1] & SERVICE_ACTION_BITS != READ_CAPACITY_16,
        Op::TestUnitReady | Op::ReadCapacity | Op::Sync { .. } => false,
    }
}

pub(crate) fn fault(op: &Op, blocks: u32) -> Option<Sense>
    ensures { result ≡ op_fault op.now blocks }
{
    match *op {
        Op::Read { lba, count, .. } | Op::Write { lba, count, .. } => {
            transfer_fault(u64::from(lba), u32::from(count), blocks)
        }
        Op::Read16 { lba, count, .. } | Op::Write16 { lba, count, .. } => {
            transfer_fault(lba, count, blocks)
        }
        Op::Sync { lba, count } => out_of_range(u64::from(lba), u32::from(count), blocks),
        Op::TestUnitReady | Op::Inquiry { .. } | Op::ReadCapacity | Op::ReadCapacity16 { .. } =>
            None,
    }
}

/// More than 128 blocks, or blocks that aren't there.
fn transfer_fault(lba: u64, count: u32, blocks: u32) -> Option<Sense>
    ensures { result ≡ transfer_fault lba count blocks }
{
    if count > u32::from(MOST_BLOCKS_MOVED) {
        Some(Sense::INVALID_FIELD_IN_CDB)
    } else {
        out_of_range(lba, count, blocks)
    }
}

fn out_of_range(lba: u64, count: u32, blocks: u32) -> Option<Sense>
    ensures { result ≡ range_fault lba count blocks }
{
    // 64 bits hold the sum, since it is only formed of a block that is there
    if lba >= u64::from(blocks) || lba + u64::from(count) > u64::from(blocks) {
        Some(Sense::OUT_OF_RANGE)
    } else {
        None
    }
}

/// Which way an operation moves data, and how many bytes; no bytes go no way.
pub fn moves(op: &Op) -> (Direction, usize)
    ensures way { result.0 ≡ direction_of op.now }
    ensures bytes { result.1 ≡ moved_bytes op.now }
{
    let (way, bytes) = match *op {
        Op::TestUnitReady | Op::Sync { .. } => (Direction::Nothing, 0),
        Op::Inquiry { allocation } => (
            Direction::ToHost,
            usize::from(allocation).min(INQUIRY_BYTES),
        ),
        Op::ReadCapacity => (Direction::ToHost, CAPACITY_BYTES),
        Op::Read { count, .. } => (Direction::ToHost, BLOCK_BYTES * usize::from(count)),
        Op::Write { count, .. } => (Direction::ToDevice, BLOCK_BYTES * usize::from(count)),
        Op::Read16 { count, .. } => (Direction::ToHost, BLOCK_BYTES * count as usize),
        Op::Write16 { count, .. } => (Direction::ToDevice, BLOCK_BYTES * count as usize),
        Op::ReadCapacity16 { allocation } => (
            Direction::ToHost,
            (allocation as usize).min(LONG_CAPACITY_BYTES),
        ),
    };
    if bytes == 0 {
        return (Direction::Nothing, 0);
    }
    (way, bytes)
}

fn two_at(bytes: &[u8; 16], at: usize) -> u16
    requires { at + 2 ≤ 16 }
    ensures { result ≡ field_of_two bytes.now at }
{
    u16::from_be_bytes([bytes[at], bytes[at + 1]])
}

fn four_at(bytes: &[u8; 16], at: usize) -> u32
    requires { at + 4 ≤ 16 }
    ensures { result ≡ field_of_four bytes.now at }
{
    u32::from_be_bytes([bytes[at], bytes[at + 1], bytes[at + 2], bytes[at + 3]])
}

fn eight_at(bytes: &[u8; 16], at: usize) -> u64
    requires { at + 8 ≤ 16 }
    ensures { result ≡ field_of_eight bytes.now at }
{
    u64::from(four_at(bytes, at)) << 32 | u64::from(four_at(bytes, at + 4))
}

fn has_bit(byte: u8, bit: u8) -> bool
    requires { bit < 8 }
    ensures { result ≡ is_bit_set byte bit }
{
    byte >> bit & 1 == 1
}
