//! Command Status Wrappers (BOT 5.2).
ghost use Rattle.std.specs.Prelude.{◌≡◌};
ghost use Rattle.bulk_only.specs.Status.{csw_in, csw_text, status_byte, status_in};

use byteorder::{ByteOrder, LittleEndian};

/// Bytes of a CSW.
pub const CSW_BYTES: usize = 13;

/// What a CSW begins with: "USBS", its first character in the lowest byte.
pub const CSW_SIGNATURE: u32 = 0x5342_5355;

const _: () = prove!(CSW_BYTES == 13 && CSW_SIGNATURE == 0x5342_5355);

// The places of the fields.
const TAG_PLACE: usize = 4;

const RESIDUE_PLACE: usize = 8;

const STATUS_PLACE: usize = 12;

/// How a command ended.
#[derive(Clone, Copy, Debug, PartialEq, Eq)]
pub struct Csw {
    /// The tag of the CBW.
    pub tag: u32,
    /// Of the bytes that the CBW expects, those that the device didn't give or take.
    pub residue: u32,
    pub status: CswStatus,
}

/// The statuses (BOT, table 5.3).
#[derive(Clone, Copy, Debug, PartialEq, Eq)]
pub enum CswStatus {
    /// 00h: the command ended GOOD.
    Passed,
    /// 01h: it ended with another status.
    Failed,
    /// 02h: host and device didn't mean the same transfer.
    PhaseError,
}

impl Csw {
    /// The bytes by which a device sends it.
    #[tactic(auto, unfolding(crate::specs::Status::csw_text))]
    pub fn bytes(self) -> [u8; CSW_BYTES]
        ensures { result ≡ csw_text self }
    {
        let mut bytes = [0; CSW_BYTES];
        LittleEndian::write_u32(&mut bytes, CSW_SIGNATURE);
        LittleEndian::write_u32(&mut bytes[TAG_PLACE..], self.tag);
        LittleEndian::write_u32(&mut bytes[RESIDUE_PLACE..], self.residue);
        bytes[STATUS_PLACE] = self.status.byte();
        bytes
    }
}

impl CswStatus {
    fn byte(self) -> u8
        ensures { result ≡ status_byte self }
    {
        match self {
            CswStatus::Passed => 0,
            CswStatus::Failed => 1,
            CswStatus::PhaseError => 2,
        }
    }
}

/// The CSW that `bytes` are; None where they aren't 13 bytes with the signature and one of the three statuses (BOT 6.3.1). Whether the tag is that
/// of the CBW is left to the caller.
pub fn read_csw(bytes: &[u8]) -> Option<Csw>
    ensures { result ≡ csw_in bytes.now }
{
    if bytes.len() != CSW_BYTES || LittleEndian::read_u32(bytes) != CSW_SIGNATURE {
        return None;
    }
    let status = status_in(bytes[STATUS_PLACE])?;
    Some(Csw {
        tag: LittleEndian::read_u32(&bytes[TAG_PLACE..]),
        residue: LittleEndian::read_u32(&bytes[RESIDUE_PLACE..]),
        status,
    })
}

fn status_in(byte: u8) -> Option<CswStatus>
    ensures { result ≡ status_in byte }
{
    match byte {
        0 => Some(CswStatus::Passed),
        1 => Some(CswStatus::Failed),
        2 => Some(CswStatus::PhaseError),
        _ => None,
    }
}
