//! The bytes of sense data.
ghost use Rattle.std.specs.Prelude.{◌≡◌, ◌≤◌, length};
ghost use Rattle.scsi_cmd.specs.Fields.{eight_bytes, four_bytes, two_bytes};
ghost use Rattle.host_sense.specs.Formats.{descriptor, descriptor_bytes, fixed_bytes, information, pointer_bytes, pointer_flags, sense_data_bytes};

use crate::{Detail, FieldPlace, FieldPointer, MOST_SENSE_BYTES, SenseData, SenseFormat};
use arrayvec::ArrayVec;
use scsi_cmd::Sense;

/// Sense key specific data are there (SKSV), and the field is in the CDB (C/D); its bit is told (BPV).
const SPECIFIC: u8 = 0x80;

const IN_CDB: u8 = 0x40;

const BIT_TOLD: u8 = 0x08;

impl SenseData {
    /// Its bytes in a format.
    pub fn bytes(&self, format: SenseFormat) -> ArrayVec<u8, MOST_SENSE_BYTES>
        ensures { result.items ≡ sense_data_bytes self.now format }
    {
        match format {
            SenseFormat::Fixed => array_of(&self.fixed_bytes()),
            SenseFormat::Descriptor => self.descriptor_bytes(),
        }
    }

    fn fixed_bytes(&self) -> [u8; 18]
        ensures { result ≡ fixed_bytes self.now }
    {
        let Sense { key, asc, ascq } = self.sense;
        let (first, [a, b, c, d]) = information(&self.detail);
        let [x, y, z] = match self.detail {
            Detail::Field(field) => pointer_bytes(&field),
            Detail::Nothing | Detail::Information(_) => [0; 3],
        };
        [
            first, 0, key, a, b, c, d, 0x0a, 0, 0, 0, 0, asc, ascq, 0, x, y, z,
        ]
    }

    fn descriptor_bytes(&self) -> ArrayVec<u8, MOST_SENSE_BYTES>
        ensures { result.items ≡ descriptor_bytes self.now }
    {
        let Sense { key, asc, ascq } = self.sense;
        match self.detail {
            Detail::Nothing => array_of(&[0x72, key, asc, ascq, 0, 0, 0, 0]),
            Detail::Information(place) => {
                let [a, b, c, d, e, f, g, h] = eight_bytes(place);
                array_of(&[
                    0x72, key, asc, ascq, 0, 0, 0, 0x0c, 0x00, 0x0a, 0x80, 0, a, b, c, d, e, f, g,
                    h,
                ])
            }
            Detail::Field(field) => {
                let [x, y, z] = pointer_bytes(&field);
                array_of(&[
                    0x72, key, asc, ascq, 0, 0, 0, 0x08, 0x02, 0x06, 0, 0, x, y, z, 0,
                ])
            }
        }
    }
}

/// The first byte of the fixed format, and its information.
fn information(detail: &Detail) -> (u8, [u8; 4])
    ensures { result ≡ information detail.now }
{
    match detail {
        Detail::Information(place) if *place <= u64::from(u32::MAX) => {
            (0xf0, four_bytes(*place as u32))
        }
        Detail::Nothing | Detail::Information(_) | Detail::Field(_) => (0x70, [0; 4]),
    }
}

/// Where the field is, and its byte.
fn pointer_bytes(field: &FieldPointer) -> [u8; 3]
    ensures { result ≡ pointer_bytes field.now }
{
    let [high, low] = field.byte.to_be_bytes();
    [pointer_flags(field), high, low]
}

fn pointer_flags(field: &FieldPointer) -> u8
    ensures { result ≡ pointer_flags field.now }
{
    let place = match field.place {
        FieldPlace::Cdb => IN_CDB,
        FieldPlace::Parameters => 0,
    };
    match field.bit {
        Some(bit) => SPECIFIC + place + BIT_TOLD + bit % 8,
        None => SPECIFIC + place,
    }
}

fn four_bytes(number: u32) -> [u8; 4]
    ensures { result ≡ four_bytes number }
{
    number.to_be_bytes()
}

fn eight_bytes(number: u64) -> [u8; 8]
    ensures { result ≡ eight_bytes number }
{
    let [a, b, c, d] = four_bytes((number >> 32) as u32);
    let [e, f, g, h] = four_bytes((number & 0xffff_ffff) as u32);
    [a, b, c, d, e, f, g, h]
}

fn array_of(bytes: &[u8]) -> ArrayVec<u8, MOST_SENSE_BYTES>
    requires { length bytes.now ≤ 20 }
    ensures { result.items ≡ bytes.now }
{
    let mut array = ArrayVec::new();
    array.try_extend_from_slice(bytes).unwrap();
    array
}
