ghost use Rattle.std.specs.Prelude.{◌≡◌, ◌<◌};
ghost use Rattle.scsi_cmd.specs.Data.{inquiry_bytes, capacity_bytes, long_capacity_bytes};

use crate::LONG_CAPACITY_BYTES;
use byteorder::{BigEndian, ByteOrder};
use uas_profile::BLOCK_BYTES;

/// Standard INQUIRY data of a disk: header, vendor, product, revision.
const INQUIRY_DATA: [u8; 36] = *b"\x00\x00\x06\x02\x1f\x00\x00\x02SIMDISK UAS SIM DISK    0001";

/// Peripheral qualifier and device type where no unit is (SPC).
const NO_UNIT: u8 = 0x7f;

/// Standard INQUIRY data (SPC) of a unit, or of a number that no unit has.
#[tactic(auto, unfolding(crate::specs::Data::inquiry_bytes))]
pub fn inquiry_data(present: bool) -> [u8; 36]
    ensures { result ≡ inquiry_bytes present }
{
    let mut data = INQUIRY_DATA;
    if !present {
        data[0] = NO_UNIT;
    }
    data
}

/// READ CAPACITY(10) data (SBC) of a unit of so many blocks, at least 1: the last block's number, the bytes
/// of a block.
pub fn capacity_data(blocks: u32) -> [u8; 8]
    requires { 0 < blocks }
    ensures { result ≡ capacity_bytes blocks }
{
    let mut data = [0; 8];
    BigEndian::write_u32(&mut data, blocks - 1);
    BigEndian::write_u32(&mut data[4..], BLOCK_BYTES as u32);
    data
}

/// READ CAPACITY(16) data (SBC) of a unit of so many blocks, at least 1: the last block's number in 8 bytes, the bytes
/// of a block, zeros.
pub fn long_capacity_data(blocks: u32) -> [u8; LONG_CAPACITY_BYTES]
    requires { 0 < blocks }
    ensures { result ≡ long_capacity_bytes blocks }
{
    let mut data = [0; LONG_CAPACITY_BYTES];
    BigEndian::write_u64(&mut data, u64::from(blocks - 1));
    BigEndian::write_u32(&mut data[8..], BLOCK_BYTES as u32);
    data
}
