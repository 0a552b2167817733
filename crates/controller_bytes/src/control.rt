//! Endpoint 0.
ghost use Rattle.std.specs.Prelude.{◌≡◌, ◌<◌};
ghost use Rattle.machine_bytes.specs.Forms.{bytes_of};
ghost use Rattle.controller_bytes.specs.Control.{alternate_form, alternate_number, control_form, disk_form, given_form, given_part, halts_form};
ghost use Rattle.controller_bytes.specs.Control.{settings_form, stage_form, strings_form};

use crate::consumers::{read_consumer, write_consumer};
use arrayvec::ArrayVec;
use machine_bytes::{Place, Reader};
use usb_disk::{Alternate, Halts, MOST_ANSWER_BYTES, Settings, UsbDisk, UsbStrings};
use xhci_control::{ControlPipe, Given, Stage};

/// The number of an alternate setting.
fn alternate_number(alternate: Alternate) -> u8
    ensures { result ≡ alternate_number alternate }
{
    match alternate {
        Alternate::BulkOnly => 0,
        Alternate::Uas => 1,
    }
}

fn read_alternate(reader: &mut Reader) -> Option<Alternate>
    ensures { (result, reader.new) ≡ alternate_form.read reader.old }
{
    match reader.below(2)? {
        0 => Some(Alternate::BulkOnly),
        _ => Some(Alternate::Uas),
    }
}

fn write_settings(place: Place, cells: &mut [u8], settings: Settings) -> Place
    ensures { (cells.new, result) ≡ settings_form.write (cells.old, place) settings }
{
    match settings {
        Settings::UasAlone => place.kind(cells, 0),
        Settings::Both {
            most_lun,
            alternate,
        } => place
            .kind(cells, 1)
            .u8(cells, most_lun)
            .kind(cells, alternate_number(alternate)),
    }
}

fn read_settings(reader: &mut Reader) -> Option<Settings>
    ensures { (result, reader.new) ≡ settings_form.read reader.old }
{
    match reader.below(2)? {
        0 => Some(Settings::UasAlone),
        _ => {
            let most_lun = reader.u8()?;
            let alternate = read_alternate(reader)?;
            Some(Settings::Both {
                most_lun,
                alternate,
            })
        }
    }
}

fn write_halts(place: Place, cells: &mut [u8], halts: Halts) -> Place
    ensures { (cells.new, result) ≡ halts_form.write (cells.old, place) halts }
{
    let place = place.flag(cells, halts.command);
    let place = place.flag(cells, halts.status);
    let place = place.flag(cells, halts.data_in);
    place.flag(cells, halts.data_out)
}

fn read_halts(reader: &mut Reader) -> Option<Halts>
    ensures { (result, reader.new) ≡ halts_form.read reader.old }
{
    let command = reader.flag()?;
    let status = reader.flag()?;
    let data_in = reader.flag()?;
    let data_out = reader.flag()?;
    Some(Halts {
        command,
        status,
        data_in,
        data_out,
    })
}

fn write_strings(place: Place, cells: &mut [u8], strings: &UsbStrings) -> Place
    ensures { (cells.new, result) ≡ strings_form.write (cells.old, place) strings.now }
{
    let place = place.write(cells, &strings.manufacturer);
    let place = place.write(cells, &strings.product);
    place.write(cells, &strings.serial)
}

fn read_eight(reader: &mut Reader) -> Option<[u8; 8]>
    ensures { (result, reader.new) ≡ (bytes_of 8).read reader.old }
{
    let bytes = reader.bytes(8)?;
    let mut array = [0; 8];
    array.copy_from_slice(bytes);
    Some(array)
}

fn read_sixteen(reader: &mut Reader) -> Option<[u8; 16]>
    ensures { (result, reader.new) ≡ (bytes_of 16).read reader.old }
{
    let bytes = reader.bytes(16)?;
    let mut array = [0; 16];
    array.copy_from_slice(bytes);
    Some(array)
}

fn read_strings(reader: &mut Reader) -> Option<UsbStrings>
    ensures { (result, reader.new) ≡ strings_form.read reader.old }
{
    let manufacturer = read_eight(reader)?;
    let product = read_sixteen(reader)?;
    let serial = read_eight(reader)?;
    Some(UsbStrings {
        manufacturer,
        product,
        serial,
    })
}

fn write_disk(place: Place, cells: &mut [u8], disk: &UsbDisk) -> Place
    ensures { (cells.new, result) ≡ disk_form.write (cells.old, place) disk.now }
{
    let place = place.flag(cells, disk.configured);
    let place = write_settings(place, cells, disk.settings);
    let place = place.flag(cells, disk.u1);
    let place = place.flag(cells, disk.u2);
    let place = write_halts(place, cells, disk.halts);
    write_strings(place, cells, &disk.strings)
}

fn read_disk(reader: &mut Reader) -> Option<UsbDisk>
    ensures { (result, reader.new) ≡ disk_form.read reader.old }
{
    let configured = reader.flag()?;
    let settings = read_settings(reader)?;
    let u1 = reader.flag()?;
    let u2 = reader.flag()?;
    let halts = read_halts(reader)?;
    let strings = read_strings(reader)?;
    Some(UsbDisk {
        configured,
        u1,
        u2,
        halts,
        settings,
        strings,
    })
}

fn write_given(place: Place, cells: &mut [u8], given: &Given) -> Place
    ensures { (cells.new, result) ≡ given_form.write (cells.old, place) given.now }
{
    match given {
        Given::Bytes { bytes, gone } => place
            .kind(cells, 0)
            .counted_u8(cells, bytes)
            .u64(cells, *gone as u64),
        Given::Nothing => place.kind(cells, 1),
        Given::Taken => place.kind(cells, 2),
        Given::Stall => place.kind(cells, 3),
    }
}

/// Reads an answer, and how many bytes of it have gone.
fn read_answer(reader: &mut Reader) -> Option<Given>
    ensures { (result, reader.new) ≡ (given_part 0).read reader.old }
{
    let text = reader.counted_u8(MOST_ANSWER_BYTES as u8)?;
    let gone = reader.u64()?;
    let mut bytes = ArrayVec::new();
    let _ = bytes.try_extend_from_slice(text);
    Some(Given::Bytes {
        bytes,
        gone: gone as usize,
    })
}

fn read_given(reader: &mut Reader) -> Option<Given>
    ensures { (result, reader.new) ≡ given_form.read reader.old }
{
    match reader.below(4)? {
        0 => read_answer(reader),
        1 => Some(Given::Nothing),
        2 => Some(Given::Taken),
        _ => Some(Given::Stall),
    }
}

fn write_stage(place: Place, cells: &mut [u8], stage: &Stage) -> Place
    ensures { (cells.new, result) ≡ stage_form.write (cells.old, place) stage.now }
{
    match stage {
        Stage::Setup => place.kind(cells, 0),
        Stage::Data { given } => write_given(place.kind(cells, 1), cells, given),
        Stage::Status { stalls } => place.kind(cells, 2).flag(cells, *stalls),
    }
}

fn read_stage(reader: &mut Reader) -> Option<Stage>
    ensures { (result, reader.new) ≡ stage_form.read reader.old }
{
    match reader.below(3)? {
        0 => Some(Stage::Setup),
        1 => {
            let given = read_given(reader)?;
            Some(Stage::Data { given })
        }
        _ => {
            let stalls = reader.flag()?;
            Some(Stage::Status { stalls })
        }
    }
}

/// Writes endpoint 0.
pub fn write_control(place: Place, cells: &mut [u8], control: &ControlPipe) -> Place
    ensures { (cells.new, result) ≡ control_form.write (cells.old, place) control.now }
{
    let place = write_consumer(place, cells, &control.consumer);
    let place = place.u64(cells, control.home);
    let place = write_disk(place, cells, &control.disk);
    write_stage(place, cells, &control.stage)
}

/// Reads endpoint 0.
pub fn read_control(reader: &mut Reader) -> Option<ControlPipe>
    ensures { (result, reader.new) ≡ control_form.read reader.old }
{
    let consumer = read_consumer(reader)?;
    let home = reader.u64()?;
    let disk = read_disk(reader)?;
    let stage = read_stage(reader)?;
    Some(ControlPipe {
        consumer,
        home,
        disk,
        stage,
    })
}
