//! Fields of CDBs and of data: big endian numbers.
ghost use Rattle.std.specs.Prelude.{◌≡◌, ◌+◌, ◌<◌, ◌≤◌, ◌++◌, length};
ghost use Rattle.arrayvec.specs.ArrayVec.{array_vec_len};
ghost use Rattle.scsi_cmd.specs.Fields.{field_of_eight, field_of_four, field_of_two, is_bit_set};
ghost use Rattle.host_commands.specs.Fields.{action_in, four_bytes_at_most, short_extent, sixteen_extent, ten_extent, twelve_extent};
ghost use Rattle.host_commands.specs.declared.TheConstants.{MOST_DATA_BYTES};

use crate::MOST_DATA_BYTES;
use arrayvec::ArrayVec;
use disk_units::four_bytes;

/// The service action is in these bits of byte 1, and the highest part of a short block number too.
const LOW_FIVE_BITS: u8 = 0x1f;

pub(crate) fn action_in(cdb: &[u8; 16]) -> u8
    ensures { result ≡ action_in cdb.now }
{
    cdb[1] & LOW_FIVE_BITS
}

/// The first block of a command and how many blocks it names.
#[derive(Clone, Copy, Debug)]
pub(crate) struct Extent {
    pub(crate) lba: u64,
    pub(crate) count: u32,
}

/// The extent in a CDB of 6 bytes: a count of 0 is 256.
pub(crate) fn short_extent(cdb: &[u8; 16]) -> Extent
    ensures { result ≡ short_extent cdb.now }
{
    Extent {
        lba: (u64::from(action_in(cdb)) << 16) + u64::from(two_at(cdb, 2)),
        count: if cdb[4] == 0 { 256 } else { u32::from(cdb[4]) },
    }
}

/// The extent in a CDB of 10 bytes.
pub(crate) fn ten_extent(cdb: &[u8; 16]) -> Extent
    ensures { result ≡ ten_extent cdb.now }
{
    Extent {
        lba: u64::from(four_at(cdb, 2)),
        count: u32::from(two_at(cdb, 7)),
    }
}

/// The extent in a CDB of 12 bytes.
pub(crate) fn twelve_extent(cdb: &[u8; 16]) -> Extent
    ensures { result ≡ twelve_extent cdb.now }
{
    Extent {
        lba: u64::from(four_at(cdb, 2)),
        count: four_at(cdb, 6),
    }
}

/// The extent in a CDB of 16 bytes.
pub(crate) fn sixteen_extent(cdb: &[u8; 16]) -> Extent
    ensures { result ≡ sixteen_extent cdb.now }
{
    Extent {
        lba: eight_at(cdb, 2),
        count: four_at(cdb, 10),
    }
}

pub(crate) fn two_at(bytes: &[u8; 16], at: usize) -> u16
    requires { at + 2 ≤ 16 }
    ensures { result ≡ field_of_two bytes.now at }
{
    u16::from_be_bytes([bytes[at], bytes[at + 1]])
}

pub(crate) fn four_at(bytes: &[u8; 16], at: usize) -> u32
    requires { at + 4 ≤ 16 }
    ensures { result ≡ field_of_four bytes.now at }
{
    u32::from_be_bytes([bytes[at], bytes[at + 1], bytes[at + 2], bytes[at + 3]])
}

pub(crate) fn eight_at(bytes: &[u8; 16], at: usize) -> u64
    requires { at + 8 ≤ 16 }
    ensures { result ≡ field_of_eight bytes.now at }
{
    u64::from(four_at(bytes, at)) << 32 | u64::from(four_at(bytes, at + 4))
}

pub(crate) fn has_bit(byte: u8, bit: u8) -> bool
    requires { bit < 8 }
    ensures { result ≡ is_bit_set byte bit }
{
    byte >> bit & 1 == 1
}

/// A number in four bytes, or FFFFFFFFh where it doesn't fit.
pub(crate) fn four_bytes_at_most(number: u64) -> [u8; 4]
    ensures { result ≡ four_bytes_at_most number }
{
    four_bytes(number.min(u64::from(u32::MAX)) as u32)
}

/// Appends bytes, for which there is room.
pub(crate) fn put(into: &mut ArrayVec<u8, MOST_DATA_BYTES>, bytes: &[u8])
    requires { array_vec_len into.old + length bytes.now ≤ MOST_DATA_BYTES }
    ensures items { into.new.items ≡ into.old.items ++ bytes.now }
    ensures len { array_vec_len into.new ≡ array_vec_len into.old + length bytes.now }
{
    into.try_extend_from_slice(bytes).unwrap();
}
