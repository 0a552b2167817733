//! How a command on blocks failed.
ghost use Rattle.std.specs.Prelude.{◌≡◌};
ghost use Rattle.machine_bytes.specs.Forms.{number, optional};
ghost use Rattle.device_bytes.specs.Failures.{detail_form, failure_form, field_form, sense_data_form, sense_form};

use host_sense::{Detail, FieldPlace, FieldPointer, SenseData};
use machine_bytes::{Place, Reader};
use scsi_cmd::Sense;
use uas_tasks::Failure;

pub(crate) fn write_sense(place: Place, cells: &mut [u8], sense: Sense) -> Place
    ensures cells { (cells.new, result) ≡ sense_form.write (cells.old, place) sense }
    ensures has { sense_form.Has sense }
{
    let place = place.u8(cells, sense.key);
    let place = place.u8(cells, sense.asc);
    place.u8(cells, sense.ascq)
}

pub(crate) fn read_sense(reader: &mut Reader) -> Option<Sense>
    ensures { (result, reader.new) ≡ sense_form.read reader.old }
{
    let key = reader.u8()?;
    let asc = reader.u8()?;
    let ascq = reader.u8()?;
    Some(Sense { key, asc, ascq })
}

fn write_bit(place: Place, cells: &mut [u8], bit: Option<u8>) -> Place
    ensures cells { (cells.new, result) ≡ (optional (number 1)).write (cells.old, place) bit }
    ensures has { (optional (number 1)).Has bit }
{
    match bit {
        None => place.kind(cells, 0),
        Some(bit) => place.kind(cells, 1).u8(cells, bit),
    }
}

fn write_field(place: Place, cells: &mut [u8], field: FieldPointer) -> Place
    ensures cells { (cells.new, result) ≡ field_form.write (cells.old, place) field }
    ensures has { field_form.Has field }
{
    let place = match field.place {
        FieldPlace::Cdb => place.kind(cells, 0),
        FieldPlace::Parameters => place.kind(cells, 1),
    };
    let place = place.u16(cells, field.byte);
    write_bit(place, cells, field.bit)
}

fn read_field(reader: &mut Reader) -> Option<FieldPointer>
    ensures { (result, reader.new) ≡ field_form.read reader.old }
{
    let place = match reader.below(2)? {
        0 => FieldPlace::Cdb,
        _ => FieldPlace::Parameters,
    };
    let byte = reader.u16()?;
    let bit = if reader.flag()? {
        Some(reader.u8()?)
    } else {
        None
    };
    Some(FieldPointer { place, byte, bit })
}

fn write_detail(place: Place, cells: &mut [u8], detail: Detail) -> Place
    ensures cells { (cells.new, result) ≡ detail_form.write (cells.old, place) detail }
    ensures has { detail_form.Has detail }
{
    match detail {
        Detail::Nothing => place.kind(cells, 0),
        Detail::Information(value) => place.kind(cells, 1).u64(cells, value),
        Detail::Field(field) => write_field(place.kind(cells, 2), cells, field),
    }
}

fn read_detail(reader: &mut Reader) -> Option<Detail>
    ensures { (result, reader.new) ≡ detail_form.read reader.old }
{
    match reader.below(3)? {
        0 => Some(Detail::Nothing),
        1 => {
            let value = reader.u64()?;
            Some(Detail::Information(value))
        }
        _ => {
            let field = read_field(reader)?;
            Some(Detail::Field(field))
        }
    }
}

fn write_sense_data(place: Place, cells: &mut [u8], told: SenseData) -> Place
    ensures cells { (cells.new, result) ≡ sense_data_form.write (cells.old, place) told }
    ensures has { sense_data_form.Has told }
{
    let place = write_sense(place, cells, told.sense);
    write_detail(place, cells, told.detail)
}

fn read_sense_data(reader: &mut Reader) -> Option<SenseData>
    ensures { (result, reader.new) ≡ sense_data_form.read reader.old }
{
    let sense = read_sense(reader)?;
    let detail = read_detail(reader)?;
    Some(SenseData { sense, detail })
}

/// Writes a failure.
pub(crate) fn write_failure(place: Place, cells: &mut [u8], failure: Failure) -> Place
    ensures cells { (cells.new, result) ≡ failure_form.write (cells.old, place) failure }
    ensures has { failure_form.Has failure }
{
    match failure {
        Failure::Sensed(told) => write_sense_data(place.kind(cells, 0), cells, told),
        Failure::Busy => place.kind(cells, 1),
    }
}

/// Reads a failure.
pub(crate) fn read_failure(reader: &mut Reader) -> Option<Failure>
    ensures { (result, reader.new) ≡ failure_form.read reader.old }
{
    match reader.below(2)? {
        0 => {
            let told = read_sense_data(reader)?;
            Some(Failure::Sensed(told))
        }
        _ => Some(Failure::Busy),
    }
}
