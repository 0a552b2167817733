//! The bytes of a record, and its fields at their places. The lowest byte of a number is the first.
ghost use Rattle.std.specs.Prelude.{◌≡◌, ◌+◌, ◌-◌, ◌≤◌, ◌++◌, drop, length, replicate, take};
ghost use Rattle.byteorder.specs.Endian.{little_number};
ghost use Rattle.c_disks.specs.Records.{ends_in_zeros, first_size, has_size, is_zero, limits_in, record_in, record_of, sized, texts_in, unit_in, world_in};

use byteorder::{ByteOrder, LittleEndian};

/// The bytes of a record whose user has all fields.
pub const RECORD_BYTES: usize = 152;

/// The fewest bytes of a record: its size, its flags and its blocks.
const LEAST_BYTES: usize = 16;

/// The bytes of a world-wide name.
pub(crate) const NAME_BYTES: usize = 16;

const _: () = prove!(RECORD_BYTES == 152 && LEAST_BYTES == 16 && NAME_BYTES == 16);

/// What it is.
#[derive(Clone, Copy)]
pub(crate) struct UnitFields {
    /// Read only 1, thin 2, removable 4, write through 8, quiet 16.
    pub(crate) flags: u32,
    /// 1 to 2^48.
    pub(crate) blocks: u64,
    /// 512 or 4,096; usual 512.
    pub(crate) block_bytes: u32,
    /// Of a block of the medium; usual the same.
    pub(crate) physical_bytes: u32,
}

/// How many blocks are moved and given back, and how the medium turns.
#[derive(Clone, Copy)]
pub(crate) struct LimitFields {
    /// The most blocks of a READ or WRITE; usual 128.
    pub(crate) most: u32,
    pub(crate) discard_blocks: u32,
    pub(crate) rotation: u16,
    pub(crate) form: u8,
}

#[derive(Clone, Copy)]
pub(crate) struct TextFields {
    pub(crate) revision: [u8; 4],
    pub(crate) vendor: [u8; 8],
    pub(crate) product: [u8; 16],
    pub(crate) serial: [u8; 36],
}

/// World-wide names.
#[derive(Clone, Copy)]
pub(crate) struct WorldFields {
    pub(crate) reserved: [u8; 4],
    pub(crate) naa: [u8; NAME_BYTES],
    /// How many bytes `eui` has.
    pub(crate) eui_bytes: u8,
    pub(crate) eui: [u8; NAME_BYTES],
    pub(crate) uuid: [u8; NAME_BYTES],
}

/// The fields of a record behind its size.
#[derive(Clone, Copy)]
pub(crate) struct DiskRecord {
    pub(crate) unit: UnitFields,
    pub(crate) limits: LimitFields,
    pub(crate) texts: TextFields,
    pub(crate) world: WorldFields,
}

pub(crate) fn is_zero(bytes: &[u8]) -> bool
    ensures { result ≡ is_zero bytes.now }
{
    bytes.iter().all(|byte| *byte == 0)
}

/// Whether those from a place on are 0.
fn ends_in_zeros(bytes: &[u8], place: usize) -> bool
    ensures { result ≡ ends_in_zeros place bytes.now }
{
    bytes.len() <= place || is_zero(&bytes[place..])
}

/// Whether these are as many bytes as a record says that it has, and those behind the last field are 0.
#[tactic(auto, unfolding(crate::specs::Records::has_size))]
pub(crate) fn has_size(record: &[u8]) -> bool
    ensures { result ≡ has_size record.now }
{
    record.len() >= LEAST_BYTES
        && LittleEndian::read_u32(record) as usize == record.len()
        && ends_in_zeros(record, RECORD_BYTES)
}

/// How many bytes the first of some records has: what it says, as far as there are bytes.
pub fn first_size(records: &[u8]) -> usize
    ensures size { result ≡ first_size records.now }
    ensures most { result ≤ length records.now }
{
    if records.len() < LEAST_BYTES {
        return records.len();
    }
    (LittleEndian::read_u32(records) as usize).min(records.len())
}

/// The bytes of a field at a place.
fn field<const N: usize>(record: &[u8], place: usize) -> [u8; N]
    requires { place + N ≤ length record.now }
    ensures { result ≡ take N (drop place record.now) }
{
    let mut field = [0; N];
    field.copy_from_slice(&record[place..place + N]);
    field
}

/// Bytes that aren't too many, and zeros behind them.
#[tactic(auto, using(crate::proofs::Filled::filling))]
fn filled<const N: usize>(bytes: &[u8]) -> [u8; N]
    requires { length bytes.now ≤ N }
    ensures { result ≡ bytes.now ++ replicate (N - length bytes.now) 0 }
{
    let mut all = [0; N];
    all[..bytes.len()].copy_from_slice(bytes);
    all
}

/// So many bytes: the first of more, or with zeros behind them.
fn sized<const N: usize>(bytes: &[u8]) -> [u8; N]
    ensures { result ≡ sized N bytes.now }
{
    if bytes.len() > N {
        field(bytes, 0)
    } else {
        filled(bytes)
    }
}

fn unit_fields(record: &[u8; RECORD_BYTES]) -> UnitFields
    ensures { result ≡ unit_in record.now }
{
    UnitFields {
        flags: LittleEndian::read_u32(&record[4..]),
        blocks: LittleEndian::read_u64(&record[8..]),
        block_bytes: LittleEndian::read_u32(&record[16..]),
        physical_bytes: LittleEndian::read_u32(&record[20..]),
    }
}

/// The number of two bytes at a place.
fn short_number(record: &[u8], place: usize) -> u16
    requires { place + 2 ≤ length record.now }
    ensures { result ≡ little_number 2 (drop place record.now) }
{
    LittleEndian::read_u16(&record[place..])
}

fn limit_fields(record: &[u8; RECORD_BYTES]) -> LimitFields
    ensures { result ≡ limits_in record.now }
{
    LimitFields {
        most: LittleEndian::read_u32(&record[24..]),
        discard_blocks: LittleEndian::read_u32(&record[28..]),
        rotation: short_number(record, 32),
        form: record[34],
    }
}

fn text_fields(record: &[u8; RECORD_BYTES]) -> TextFields
    ensures { result ≡ texts_in record.now }
{
    TextFields {
        revision: field(record, 36),
        vendor: field(record, 40),
        product: field(record, 48),
        serial: field(record, 64),
    }
}

fn world_fields(record: &[u8; RECORD_BYTES]) -> WorldFields
    ensures { result ≡ world_in record.now }
{
    WorldFields {
        reserved: field(record, 100),
        naa: field(record, 104),
        eui_bytes: record[35],
        eui: field(record, 120),
        uuid: field(record, 136),
    }
}

fn all_fields(record: &[u8; RECORD_BYTES]) -> DiskRecord
    ensures { result ≡ record_in record.now }
{
    DiskRecord {
        unit: unit_fields(record),
        limits: limit_fields(record),
        texts: text_fields(record),
        world: world_fields(record),
    }
}

/// The fields of a record. Those that its user doesn't have are 0.
pub(crate) fn read(record: &[u8]) -> DiskRecord
    ensures { result ≡ record_of record.now }
{
    all_fields(&sized(record))
}
