//! The run `fill`: blocks of an image become one byte, by one WRITE on a bus of its own, and the medium goes back to the file.

ghost use Rattle.std.specs.Prelude.{◌≡◌, ◌≤◌, ◌⊎◌, [], Some, IsTrue, IsErr, IfOk, IfErr, OnErr, OnOk, IfSome};
ghost use Rattle.std.specs.Io.KnownBytes.{Appends, Keeps};
ghost use Rattle.block_unit.specs.BlockMaps.{imaged};
ghost use Rattle.disk_image.specs.Alone.{filled, filled_image, filled_medium, fill_request, good_text, medium_of, told_of};
ghost use Rattle.disk_image.specs.Images.{blocks_in};
ghost use Rattle.disk_image.specs.Stops.{AnswersOf, FillGivesUp, WriteGivesUp};

use crate::alone::{Ended, answered, medium_of, read_unit};
use crate::image::write_image;
use block_unit::Unit;
use bus_core::Bus;
use byte_io::{Extent, Files, Sink};
use scsi_cmd::{GOOD, Op, Reply};
use std::alloc::{AllocError, Global};
use std::io::Write;
use uas_replay::printed::push_sense;
use uas_replay::{COMMAND_FAILED, DONE, RunFault, file_fault, output_fault};
use uas_script::Request;

/// The run `fill`: reads the image of a file, fills the blocks of `extent` with a byte by one WRITE with FUA, writes the
/// medium to the file and prints `good`; or prints the sense that answers the WRITE. The file is opened to be read, and
/// created anew only once the WRITE ended with GOOD. It answers the exit status: 1 where it didn't, 3 at a fault of the
/// image, the file or standard output, 4 for want of memory, else 0. With 0 the file holds the image with these blocks
/// filled, and all else in it as it was (`blocks`).
pub fn run_fill<F: Files, O: Sink, W: Write>(
    alloc: Global,
    extent: Extent,
    byte: u8,
    files: &mut F,
    file: &str,
    output: &mut O,
    faults: &mut W,
) -> u8
    ensures statuses { (result ≤ 1) ⊎ ((result ≡ 3) ⊎ (result ≡ 4)) }
    ensures told { result ≤ 1 → IsTrue (F.tells files.old) → IfSome (F.holds files.old file.now) (λ bytes.
        AnswersOf (blocks_in bytes) (filled (imaged bytes []) extent.lba extent.count byte) (O.written output.old) (O.written output.new) result) }
    ensures image { result ≡ 0 → IsTrue (F.tells files.old) → IfSome (F.holds files.old file.now) (λ bytes.
        F.holds files.new file.now ≡ Some (filled_medium (imaged bytes []) extent.lba extent.count byte)) }
    ensures blocks { result ≡ 0 → IsTrue (F.tells files.old) → IfSome (F.holds files.old file.now) (λ bytes.
        F.holds files.new file.now ≡ Some (filled_image bytes extent.lba extent.count byte)) }
    ensures kept { result ≡ 1 → files.new ≡ files.old }
    ensures read { result ≤ 1 → IsTrue (F.can_open files.old file.now) }
    ensures created { result ≡ 0 → IsTrue (F.can_create files.old file.now) }
    ensures fault { result ≡ 3 → (((IsTrue (F.tells files.old) → IfSome (F.holds files.old file.now) (λ bytes. IsErr (blocks_in bytes)))
        ⊎ IsTrue (F.can_fail files.old file.now)) × Keeps (O.written output.old) (O.written output.new)) ⊎ IsTrue (O.can_fail output.old) }
    ensures memory { result ≡ 4 → Keeps (O.written output.old) (O.written output.new) }
    ensures quiet { result ≤ 1 → faults.new ≡ faults.old }
{
    match fill(alloc, extent, byte, files, file, output) {
        Ok(status) => status,
        Err(fault) => fault.tell(faults),
    }
}

fn fill<F: Files, O: Sink>(
    alloc: Global,
    extent: Extent,
    byte: u8,
    files: &mut F,
    file: &str,
    output: &mut O,
) -> Result<u8, RunFault>
    ensures status { IfOk result (λ status. status ≤ 1) }
    ensures told { IfOk result (λ status. IsTrue (F.tells files.old) → IfSome (F.holds files.old file.now) (λ bytes.
        AnswersOf (blocks_in bytes) (filled (imaged bytes []) extent.lba extent.count byte) (O.written output.old) (O.written output.new) status)) }
    ensures image { IfOk result (λ status. status ≡ 0 → IsTrue (F.tells files.old) → IfSome (F.holds files.old file.now) (λ bytes.
        F.holds files.new file.now ≡ Some (filled_medium (imaged bytes []) extent.lba extent.count byte))) }
    ensures kept { IfOk result (λ status. status ≡ 1 → files.new ≡ files.old) }
    ensures read { OnOk result (IsTrue (F.can_open files.old file.now)) }
    ensures created { IfOk result (λ status. status ≡ 0 → IsTrue (F.can_create files.old file.now)) }
    ensures fault { IfErr result (FillGivesUp (F.tells files.old) (F.holds files.old file.now) (F.can_fail files.old file.now)
        (O.can_fail output.old) (O.written output.old) (O.written output.new)) }
{
    let unit = read_unit(alloc, &mut files.open(file))?;
    let status = fill_file(alloc, unit, extent, byte, files, file, output)?;
    Ok(status)
}

/// Fills blocks of a unit, writes its medium to the file of a name after a GOOD, and what is told to `output`.
fn fill_file<F: Files, O: Sink>(
    alloc: Global,
    unit: Unit,
    extent: Extent,
    byte: u8,
    files: &mut F,
    file: &str,
    output: &mut O,
) -> Result<u8, RunFault>
    ensures most { IfOk result (λ status. status ≤ 1) }
    ensures number { IfOk result (λ status. status ≡ (filled unit extent.lba extent.count byte).1) }
    ensures told { OnOk result (Appends (O.written output.old) (O.written output.new) (filled unit extent.lba extent.count byte).0) }
    ensures image { IfOk result (λ status. status ≡ 0 → IsTrue (F.tells files.old)
        → F.holds files.new file.now ≡ Some (filled_medium unit extent.lba extent.count byte)) }
    ensures kept { IfOk result (λ status. status ≡ 1 → files.new ≡ files.old) }
    ensures created { IfOk result (λ status. status ≡ 0 → IsTrue (F.can_create files.old file.now)) }
    ensures fault { IfErr result (FillGivesUp (F.tells files.old) (F.holds files.old file.now) (F.can_fail files.old file.now)
        (O.can_fail output.old) (O.written output.old) (O.written output.new)) }
{
    let Ok(filled) = fill_unit(alloc, unit, extent, byte) else {
        return Err(RunFault::NoMemory);
    };
    finish(&filled, files, file, output)
}

/// What came of a WRITE: what is told of it, the exit status, and the bus after it.
#[derive(Drop)]
struct Filled {
    text: Vec<u8>,
    status: u8,
    bus: Bus,
}

/// Fills blocks of a unit with a byte.
#[tactic(auto, unfolding(crate::specs::Alone::filled, crate::specs::Alone::filled_medium))]
fn fill_unit(alloc: Global, unit: Unit, extent: Extent, byte: u8) -> Result<Filled, AllocError>
    ensures text { IfOk result (λ given. given.text.items ≡ (filled unit extent.lba extent.count byte).0) }
    ensures most { IfOk result (λ given. given.status ≤ 1) }
    ensures number { IfOk result (λ given. given.status ≡ (filled unit extent.lba extent.count byte).1) }
    ensures medium { IfOk result (λ given. medium_of given.bus ≡ filled_medium unit extent.lba extent.count byte) }
{
    let Extent { lba, count } = extent;
    let Ended { bus, reply } = answered(alloc, unit, fill_request(lba, count, byte))?;
    let (text, status) = told(alloc, &reply)?;
    Ok(Filled { text, status, bus })
}

/// Writes the medium to the file of a name after a GOOD, and then what is told to `output`.
fn finish<F: Files, O: Sink>(
    filled: &Filled,
    files: &mut F,
    file: &str,
    output: &mut O,
) -> Result<u8, RunFault>
    ensures status { IfOk result (λ status. status ≡ filled.now.status) }
    ensures told { OnOk result (Appends (O.written output.old) (O.written output.new) filled.now.text.items) }
    ensures image { IfOk result (λ status. status ≡ 0 → IsTrue (F.tells files.old) → F.holds files.new file.now ≡ Some (medium_of filled.now.bus)) }
    ensures kept { IfOk result (λ status. status ≡ 1 → files.new ≡ files.old) }
    ensures created { IfOk result (λ status. status ≡ 0 → IsTrue (F.can_create files.old file.now)) }
    ensures fault { IfErr result (FillGivesUp (F.tells files.old) (F.holds files.old file.now) (F.can_fail files.old file.now)
        (O.can_fail output.old) (O.written output.old) (O.written output.new)) }
{
    if filled.status == DONE {
        write_file(files, file, medium_of(&filled.bus))?;
    }
    output
        .write(&filled.text)
        .map_err(|fault| output_fault(fault))?;
    Ok(filled.status)
}

/// A WRITE with FUA of so many blocks of this byte.
fn fill_request(lba: u32, count: u16, byte: u8) -> Request
    ensures { result ≡ fill_request lba count byte }
{
    Request {
        op: Op::Write {
            lba,
            count,
            fua: true,
        },
        fill: byte,
    }
}

/// What is told of a reply to a WRITE, and the exit status.
fn told(alloc: Global, reply: &Option<Reply>) -> Result<(Vec<u8>, u8), AllocError>
    ensures text { IfOk result (λ given. given.0.items ≡ (told_of (λ buffer. good_text) reply.now).0) }
    ensures most { IfOk result (λ given. given.1 ≤ 1) }
    ensures number { IfOk result (λ given. given.1 ≡ (told_of (λ buffer. good_text) reply.now).1) }
{
    let mut text = Vec::new(alloc);
    match reply {
        Some(Reply::Status { status, .. }) if *status == GOOD => {
            text.extend_from_slice(b"good\n")?;
            Ok((text, DONE))
        }
        Some(Reply::Status { sense, .. }) => {
            push_sense(&mut text, sense.as_slice())?;
            Ok((text, COMMAND_FAILED))
        }
        Some(Reply::Aborted { .. } | Reply::Task { .. }) | None => Ok((text, COMMAND_FAILED)),
    }
}

/// Creates the file of a name anew, of these bytes. At a fault every file holds what it held.
fn write_file<F: Files>(files: &mut F, file: &str, bytes: &[u8]) -> Result<(), RunFault>
    ensures bytes { OnOk result (IsTrue (F.tells files.old) → F.holds files.new file.now ≡ Some bytes.now) }
    ensures created { OnOk result (IsTrue (F.can_create files.old file.now)) }
    ensures fault { IfErr result (WriteGivesUp (F.can_fail files.old file.now)) }
    ensures held { OnErr result (IsTrue (F.tells files.old) → F.holds files.new ≡ F.holds files.old) }
{
    let mut image = files.create(file);
    match write_image(&mut image, bytes) {
        Ok(()) => files.close(image).map_err(|fault| file_fault(fault)),
        Err(fault) => {
            files.give_up(image);
            Err(fault)
        }
    }
}
