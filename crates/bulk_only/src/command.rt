//! Command Block Wrappers (BOT 5.1).
ghost use Rattle.std.specs.Prelude.{◌≡◌, ◌≤◌, length};
ghost use Rattle.bulk_only.specs.Command.{cbw_in, cbw_text, cdb_in, cleared_lun};

use byteorder::{ByteOrder, LittleEndian};
use thiserror::Error;

/// Bytes of a CBW.
pub const CBW_BYTES: usize = 31;

/// What a CBW begins with: "USBC", its first character in the lowest byte.
pub const CBW_SIGNATURE: u32 = 0x4342_5355;

/// The bytes of a CDB's place, which a shorter CDB fills from the front.
pub const CDB_BYTES: usize = 16;

const _: () = prove!(CBW_BYTES == 31 && CBW_SIGNATURE == 0x4342_5355 && CDB_BYTES == 16);

// The places of the fields.
const TAG_PLACE: usize = 4;

const LENGTH_PLACE: usize = 8;

const FLAGS_PLACE: usize = 12;

const LUN_PLACE: usize = 13;

const CDB_LENGTH_PLACE: usize = 14;

const CDB_PLACE: usize = 15;

/// Bit 7 of the flags: the data go to the host.
const TO_HOST: u8 = 0x80;

/// What a CBW asks.
#[derive(Clone, Copy, Debug, PartialEq, Eq)]
pub struct Cbw {
    /// What the CSW is to repeat.
    pub tag: u32,
    /// The bytes of data that the host expects to move.
    pub length: u32,
    /// They go to the host. This says nothing where `length` is 0.
    pub is_in: bool,
    /// The logical unit number, 0 to 15.
    pub lun: u8,
    /// The CDB, with zeros behind its length.
    pub cdb: [u8; CDB_BYTES],
    /// Bytes of the CDB, 1 to 16.
    pub cdb_length: u8,
}

/// Why bytes are no valid CBW. They are tested in this order, and the first that holds is answered.
#[derive(Clone, Copy, Debug, PartialEq, Eq, Error)]
pub enum CbwFault {
    /// There aren't 31 bytes.
    #[error("not 31 bytes")]
    Length,
    /// The first four bytes aren't the signature.
    #[error("wrong signature")]
    Signature,
    /// The CDB has no byte, or more than 16.
    #[error("CDB length not 1 to 16")]
    CommandLength,
}

/// The CBW that `bytes` are, and else the first fault in the order of [`CbwFault`] (BOT 6.2.1).
pub fn read_cbw(bytes: &[u8]) -> Result<Cbw, CbwFault>
    ensures { result ≡ cbw_in bytes.now }
{
    if bytes.len() != CBW_BYTES {
        return Err(CbwFault::Length);
    }
    if LittleEndian::read_u32(bytes) != CBW_SIGNATURE {
        return Err(CbwFault::Signature);
    }
    let cdb_length = bytes[CDB_LENGTH_PLACE] % 32;
    if cdb_length == 0 || cdb_length > 16 {
        return Err(CbwFault::CommandLength);
    }
    Ok(Cbw {
        tag: LittleEndian::read_u32(&bytes[TAG_PLACE..]),
        length: LittleEndian::read_u32(&bytes[LENGTH_PLACE..]),
        is_in: bytes[FLAGS_PLACE] >= TO_HOST,
        lun: bytes[LUN_PLACE] % 16,
        cdb: cdb_in(bytes, usize::from(cdb_length)),
        cdb_length,
    })
}

/// The CDB of so many bytes, with zeros behind it.
#[tactic(auto, unfolding(crate::specs::Command::cdb_in))]
fn cdb_in(bytes: &[u8], count: usize) -> [u8; CDB_BYTES]
    requires size { length bytes.now ≡ 31 }
    requires few { count ≤ 16 }
    ensures { result ≡ cdb_in bytes.now count }
{
    let mut cdb = [0; CDB_BYTES];
    let behind = &bytes[CDB_PLACE..];
    cdb[..count].copy_from_slice(&behind[..count]);
    cdb
}

impl Cbw {
    /// The bytes by which a host sends it (BOT 5.1), reserved bits 0. Of a LUN above 15 and a CDB length above 31 the upper bits are lost.
    #[tactic(auto, unfolding(crate::specs::Command::cbw_text))]
    pub fn bytes(&self) -> [u8; CBW_BYTES]
        ensures { result ≡ cbw_text self.now }
    {
        let mut bytes = [0; CBW_BYTES];
        LittleEndian::write_u32(&mut bytes, CBW_SIGNATURE);
        LittleEndian::write_u32(&mut bytes[TAG_PLACE..], self.tag);
        LittleEndian::write_u32(&mut bytes[LENGTH_PLACE..], self.length);
        bytes[FLAGS_PLACE] = if self.is_in { TO_HOST } else { 0 };
        bytes[LUN_PLACE] = self.lun % 16;
        bytes[CDB_LENGTH_PLACE] = self.cdb_length % 32;
        bytes[CDB_PLACE..].copy_from_slice(&self.cdb);
        bytes
    }
}

/// The CDB as SPC-3 and later have it: bits 7:5 of byte 1 are cleared where they are the LUN modulo 8, as a host wrote it there (SCSI-2, 7.2.2).
pub fn cleared_lun(cdb: [u8; CDB_BYTES], lun: u8) -> [u8; CDB_BYTES]
    ensures { result ≡ cleared_lun cdb lun }
{
    let mut cleared = cdb;
    if cdb[1] / 32 == lun % 8 {
        cleared[1] = cdb[1] % 32;
    }
    cleared
}
