//! What bytes of each kind tell, by the codec of that kind.

ghost use Rattle.std.specs.Prelude.{◌≡◌, ◌-◌, ◌≤◌, ◌==◌, ◌++◌, None, replicate, length};
ghost use Rattle.std.specs.List.{list_all};
ghost use Rattle.uas_decode.specs.Meaning.{address_in, answer_of_bytes, cdb_told, context_read, context_told, doorbell_told, host_asked, host_told};
ghost use Rattle.uas_decode.specs.Meaning.{is_sized, sense_read, sense_told, trb_split, trb_told, unit_read, unit_split, unit_told};

use crate::{Answer, Kind, LineFault, Meaning, Refusal};
use host_commands::{
    BlockLength, CommandSet, LogicalUnitShape, MOST_BLOCKS, SerialNumber, named_command, read,
};
use scsi_cmd::{Sense, parse};
use stream_array::Dequeue;
use uas_iu::{Iu, IuFault};

/// The bytes of an address.
const ADDRESS_BYTES: usize = 8;

/// The bytes of a TRB, of a stream context and of the place of a CDB.
const TRB_BYTES: usize = 16;

/// The most bytes that are read as a unit.
const MOST_UNIT_BYTES: usize = 4096;

/// How many blocks a unit has where a line doesn't say it.
const BLOCKS: u32 = 65_536;

/// The most blocks that a command of the host set can move.
const MOST_TRANSFER_BLOCKS: u16 = 65_528;

/// The service action of a CDB is in these bits of byte 1.
const SERVICE_ACTION: u8 = 0x1f;

/// What bytes of a kind tell, of which the first 8 may be an address.
#[tactic(auto, unfolding(crate::specs::Meaning::answer_of_bytes))]
pub(crate) fn answer_of_bytes(kind: Kind, leads: bool, bytes: &[u8]) -> Result<Answer, Refusal>
    ensures { result ≡ answer_of_bytes kind leads bytes.now }
{
    match kind {
        Kind::Unit => unit_split(leads, bytes),
        Kind::Trb => trb_split(leads, bytes),
        Kind::Context => context_told(bytes),
        Kind::Doorbell => doorbell_told(bytes),
        Kind::Cdb => cdb_told(BLOCKS, bytes),
        Kind::HostCdb => host_told(bytes),
        Kind::Sense => sense_told(bytes),
    }
}

/// The answer of these bytes' meaning.
fn answer(meaning: Meaning) -> Answer
    ensures { result ≡ record { address = None; meaning = meaning } }
{
    Answer {
        address: None,
        meaning,
    }
}

/// The address in 8 bytes, the highest of them first.
#[tactic(auto, unfolding(crate::specs::Meaning::address_in))]
fn address_in(bytes: &[u8]) -> u64
    requires { 8 ≤ length bytes.now }
    ensures { result ≡ address_in bytes.now }
{
    let mut address = [0; ADDRESS_BYTES];
    address.copy_from_slice(&bytes[..ADDRESS_BYTES]);
    u64::from_be_bytes(address)
}

/// A unit behind an address, or a unit alone: its length decides.
#[tactic(auto, unfolding(crate::specs::Meaning::unit_split))]
fn unit_split(leads: bool, bytes: &[u8]) -> Result<Answer, Refusal>
    ensures { result ≡ unit_split leads bytes.now }
{
    if leads && bytes.len() > ADDRESS_BYTES && !is_sized(bytes) {
        unit_told(Some(address_in(bytes)), &bytes[ADDRESS_BYTES..])
    } else {
        unit_told(None, bytes)
    }
}

/// Whether the bytes are as many as a unit of their identifier has.
#[tactic(auto, unfolding(crate::specs::Meaning::is_sized))]
fn is_sized(bytes: &[u8]) -> bool
    ensures { result ≡ is_sized bytes.now }
{
    match uas_iu::read(bytes) {
        Err(IuFault::UnknownId) => false,
        Err(IuFault::Short) => false,
        Err(IuFault::Long) => false,
        _ => true,
    }
}

/// The unit whose text these bytes are, or their first fault.
fn unit_read(bytes: &[u8]) -> Result<Iu, IuFault>
    ensures { result ≡ unit_read bytes.now }
{
    uas_iu::read(bytes)
}

#[tactic(auto, unfolding(crate::specs::Meaning::unit_told))]
fn unit_told(address: Option<u64>, bytes: &[u8]) -> Result<Answer, Refusal>
    ensures { result ≡ unit_told address bytes.now }
{
    if bytes.len() > MOST_UNIT_BYTES {
        return Err(Refusal::Line(LineFault::WrongNumberOfDigits));
    }
    match unit_read(bytes) {
        Ok(unit) => Ok(Answer {
            address,
            meaning: Meaning::Unit(unit),
        }),
        Err(fault) => Err(Refusal::Unit(fault)),
    }
}

/// A TRB alone, or behind an address: its length decides.
#[tactic(auto, unfolding(crate::specs::Meaning::trb_split))]
fn trb_split(leads: bool, bytes: &[u8]) -> Result<Answer, Refusal>
    ensures { result ≡ trb_split leads bytes.now }
{
    if bytes.len() == TRB_BYTES {
        trb_told(None, &sixteen(bytes))
    } else if leads && bytes.len() == ADDRESS_BYTES + TRB_BYTES {
        trb_told(Some(address_in(bytes)), &sixteen(&bytes[ADDRESS_BYTES..]))
    } else {
        Err(Refusal::Line(LineFault::WrongNumberOfDigits))
    }
}

/// 16 bytes as an array.
fn sixteen(bytes: &[u8]) -> [u8; TRB_BYTES]
    requires { length bytes.now ≡ 16 }
    ensures { result ≡ bytes.now }
{
    let mut array = [0; TRB_BYTES];
    array.copy_from_slice(bytes);
    array
}

#[tactic(auto, unfolding(crate::specs::Meaning::trb_told))]
fn trb_told(address: Option<u64>, bytes: &[u8; TRB_BYTES]) -> Result<Answer, Refusal>
    ensures { result ≡ trb_told address bytes.now }
{
    match xhci_trb::decode(bytes) {
        Ok((trb, cycle)) => Ok(Answer {
            address,
            meaning: Meaning::Trb { trb, cycle },
        }),
        Err(fault) => Err(Refusal::Trb(fault)),
    }
}

/// A stream context (xHCI 1.2, 6.2.4.1).
#[tactic(auto, unfolding(crate::specs::Meaning::context_told))]
fn context_told(bytes: &[u8]) -> Result<Answer, Refusal>
    ensures { result ≡ context_told bytes.now }
{
    if bytes.len() != TRB_BYTES {
        return Err(Refusal::Line(LineFault::WrongNumberOfDigits));
    }
    match context_read(bytes) {
        Ok(entry) => Ok(answer(Meaning::Context(entry))),
        Err(fault) => Err(Refusal::Line(fault)),
    }
}

/// The entry whose context 16 bytes are.
#[tactic(auto, unfolding(crate::specs::Meaning::context_read))]
fn context_read(bytes: &[u8]) -> Result<Option<Dequeue>, LineFault>
    requires { length bytes.now ≡ 16 }
    ensures { result ≡ context_read bytes.now }
{
    let mut low = [0; 8];
    low.copy_from_slice(&bytes[..8]);
    let word = u64::from_le_bytes(low);
    let is_clear = is_clear(&bytes[8..]);
    if word == 0 && is_clear {
        return Ok(None);
    }
    if word / 2 % 8 != 1 || !is_clear {
        return Err(LineFault::ReservedSet);
    }
    Ok(Some(Dequeue {
        pointer: word / 16 * 16,
        cycle: word % 2 == 1,
    }))
}

/// Whether the bytes are all 0.
fn is_clear(bytes: &[u8]) -> bool
    ensures { result ≡ list_all (λ byte. byte == 0) bytes.now }
{
    bytes.iter().all(|byte| *byte == 0)
}

/// A doorbell: the target in bits 7:0, the stream in 31:16 (xHCI 1.2, 5.6). The digits are those of the number.
#[tactic(auto, unfolding(crate::specs::Meaning::doorbell_told))]
fn doorbell_told(bytes: &[u8]) -> Result<Answer, Refusal>
    ensures { result ≡ doorbell_told bytes.now }
{
    if bytes.len() != 4 {
        return Err(Refusal::Line(LineFault::WrongNumberOfDigits));
    }
    if bytes[2] != 0 {
        return Err(Refusal::Line(LineFault::ReservedSet));
    }
    Ok(answer(Meaning::Doorbell {
        target: bytes[3],
        stream: u16::from_be_bytes([bytes[0], bytes[1]]),
    }))
}

/// A CDB, for a unit of so many blocks.
#[tactic(auto, unfolding(crate::specs::Meaning::cdb_told))]
pub(crate) fn cdb_told(blocks: u32, bytes: &[u8]) -> Result<Answer, Refusal>
    ensures { result ≡ cdb_told blocks bytes.now }
{
    if bytes.len() != 6 && bytes.len() != 10 && bytes.len() != 16 {
        return Err(Refusal::Line(LineFault::WrongNumberOfDigits));
    }
    match parse(&padded(bytes), blocks) {
        Ok(op) => Ok(answer(Meaning::Cdb(op))),
        Err(sense) => Err(Refusal::Cdb(sense)),
    }
}

/// A CDB of the host set.
#[tactic(auto, unfolding(crate::specs::Meaning::host_told))]
fn host_told(bytes: &[u8]) -> Result<Answer, Refusal>
    ensures { result ≡ host_told bytes.now }
{
    match bytes.len() {
        6 | 10 | 12 | 16 => host_asked(&padded(bytes)),
        _ => Err(Refusal::Line(LineFault::WrongNumberOfDigits)),
    }
}

/// What a CDB of the host set asks for, of the largest logical unit and with the longest transfer that there can be.
fn host_asked(cdb: &[u8; TRB_BYTES]) -> Result<Answer, Refusal>
    ensures { result ≡ host_asked cdb.now }
{
    let Some(command) = named_command(cdb[0], cdb[1] & SERVICE_ACTION) else {
        return Err(Refusal::Cdb(Sense::INVALID_OPERATION_CODE));
    };
    let (Ok(set), Ok(serial)) = (CommandSet::host(MOST_TRANSFER_BLOCKS), SerialNumber::new(0))
    else {
        unreachable!();
    };
    let Ok(shape) = LogicalUnitShape::new(MOST_BLOCKS, BlockLength::Bytes512, serial) else {
        unreachable!();
    };
    match read(cdb, &set, &shape, 1, None) {
        Ok(work) => Ok(answer(Meaning::HostCdb { command, work })),
        Err(sense) => Err(Refusal::Cdb(sense)),
    }
}

/// A CDB at its place of 16 bytes, filled up with zeros.
fn padded(bytes: &[u8]) -> [u8; TRB_BYTES]
    requires { length bytes.now ≤ 16 }
    ensures { result ≡ bytes.now ++ replicate (16 - length bytes.now) 0 }
{
    let mut array = [0; TRB_BYTES];
    array[..bytes.len()].copy_from_slice(bytes);
    array
}

/// Sense data in the fixed format.
#[tactic(auto, unfolding(crate::specs::Meaning::sense_told))]
fn sense_told(bytes: &[u8]) -> Result<Answer, Refusal>
    ensures { result ≡ sense_told bytes.now }
{
    if bytes.len() != scsi_cmd::SENSE_BYTES {
        return Err(Refusal::Line(LineFault::WrongNumberOfDigits));
    }
    match sense_read(bytes) {
        Some(sense) => Ok(answer(Meaning::Sense(sense))),
        None => Err(Refusal::Line(LineFault::NotFixedFormat)),
    }
}

/// The sense that bytes tell in the fixed format.
pub(crate) fn sense_read(bytes: &[u8]) -> Option<Sense>
    ensures { result ≡ sense_read bytes.now }
{
    Sense::from_bytes(bytes)
}
