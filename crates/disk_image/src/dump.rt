//! The run `dump`: blocks of an image, by one READ on a bus of its own, and their bytes to a writer.

ghost use Rattle.std.specs.Prelude.{◌≡◌, ◌*◌, ◌/◌, ◌^◌, ◌<◌, ◌≤◌, ◌++◌, ◌⊎◌, [], length, take, drop, IsTrue, IsErr, IfOk, IfErr, OnOk, IfSome};
ghost use Rattle.std.specs.Io.KnownBytes.{Appends, Keeps};
ghost use Rattle.block_unit.specs.BlockMaps.{imaged};
ghost use Rattle.disk_image.specs.Alone.{blocks_at, dumped, dump_lines, read_request, row_line, row_offset, told_of};
ghost use Rattle.disk_image.specs.Images.{blocks_in};
ghost use Rattle.disk_image.specs.Stops.{AnswersOf, InfoGivesUp};

use crate::alone::{Ended, answered, read_unit};
use block_unit::Unit;
use byte_io::{Extent, Sink, Source};
use scsi_cmd::{GOOD, Op, Reply};
use std::alloc::{AllocError, Global};
use std::io::Write;
use uas_profile::BLOCK_BYTES;
use uas_replay::printed::push_sense;
use uas_replay::{COMMAND_FAILED, DONE, RunFault, output_fault};
use uas_script::Request;

/// How many bytes a line shows.
const ROW_BYTES: usize = 16;

/// How many numbers an offset of 8 hexadecimal digits has.
const OFFSETS: u64 = 4_294_967_296;

/// The run `dump`: reads an image, and prints the blocks of `extent` by one READ, or the sense that answers it. It answers the
/// exit status: 1 where the READ didn't end with GOOD, 3 at a fault of the image, the reader or the writer, 4 for want of
/// memory, else 0. With 0 the lines show the bytes that stand in the image there (`blocks`).
pub fn run_dump<S: Source, O: Sink, W: Write>(
    alloc: Global,
    extent: Extent,
    source: &mut S,
    output: &mut O,
    faults: &mut W,
) -> u8
    ensures statuses { (result ≤ 1) ⊎ ((result ≡ 3) ⊎ (result ≡ 4)) }
    ensures told { result ≤ 1 → IfSome (S.left source.old) (λ bytes.
        AnswersOf (blocks_in bytes) (dumped (imaged bytes []) extent.lba extent.count) (O.written output.old) (O.written output.new) result) }
    ensures blocks { result ≡ 0 → IfSome (S.left source.old) (λ bytes.
        Appends (O.written output.old) (O.written output.new) (dump_lines extent.lba (blocks_at bytes extent.lba extent.count))) }
    ensures there { result ≤ 1 → IsTrue (S.is_there source.old) }
    ensures fault { result ≡ 3
        → (((IfSome (S.left source.old) (λ bytes. IsErr (blocks_in bytes)) × IsTrue (S.is_there source.old)) ⊎ IsTrue (S.can_fail source.old))
        × Keeps (O.written output.old) (O.written output.new)) ⊎ IsTrue (O.can_fail output.old) }
    ensures memory { result ≡ 4 → Keeps (O.written output.old) (O.written output.new) }
    ensures quiet { result ≤ 1 → faults.new ≡ faults.old }
{
    match dump(alloc, extent, source, output) {
        Ok(status) => status,
        Err(fault) => fault.tell(faults),
    }
}

fn dump<S: Source, O: Sink>(
    alloc: Global,
    extent: Extent,
    source: &mut S,
    output: &mut O,
) -> Result<u8, RunFault>
    ensures status { IfOk result (λ status. status ≤ 1) }
    ensures told { IfOk result (λ status. IfSome (S.left source.old) (λ bytes.
        AnswersOf (blocks_in bytes) (dumped (imaged bytes []) extent.lba extent.count) (O.written output.old) (O.written output.new) status)) }
    ensures there { OnOk result (IsTrue (S.is_there source.old)) }
    ensures fault { IfErr result (InfoGivesUp (S.left source.old) (S.is_there source.old) (S.can_fail source.old) (O.can_fail output.old)
        (O.written output.old) (O.written output.new)) }
{
    let unit = read_unit(alloc, source)?;
    let (text, status) = dumped(alloc, unit, extent).map_err(|_| RunFault::NoMemory)?;
    output.write(&text).map_err(|fault| output_fault(fault))?;
    Ok(status)
}

/// What is told of the blocks of a unit, and the exit status.
#[tactic(auto, unfolding(crate::specs::Alone::dumped))]
fn dumped(alloc: Global, unit: Unit, extent: Extent) -> Result<(Vec<u8>, u8), AllocError>
    ensures text { IfOk result (λ given. given.0.items ≡ (dumped unit extent.lba extent.count).0) }
    ensures most { IfOk result (λ given. given.1 ≤ 1) }
    ensures number { IfOk result (λ given. given.1 ≡ (dumped unit extent.lba extent.count).1) }
{
    let Extent { lba, count } = extent;
    let Ended { reply, .. } = answered(alloc, unit, read_request(lba, count))?;
    told(alloc, lba, &reply)
}

/// A READ of so many blocks, with a zeroed buffer.
fn read_request(lba: u32, count: u16) -> Request
    ensures { result ≡ read_request lba count }
{
    Request {
        op: Op::Read {
            lba,
            count,
            fua: false,
        },
        fill: 0,
    }
}

/// What is told of a reply to a READ from this block on, and the exit status.
fn told(alloc: Global, lba: u32, reply: &Option<Reply>) -> Result<(Vec<u8>, u8), AllocError>
    ensures text { IfOk result (λ given. given.0.items ≡ (told_of (dump_lines lba) reply.now).0) }
    ensures most { IfOk result (λ given. given.1 ≤ 1) }
    ensures number { IfOk result (λ given. given.1 ≡ (told_of (dump_lines lba) reply.now).1) }
{
    let mut text = Vec::new(alloc);
    match reply {
        Some(Reply::Status { status, buffer, .. }) if *status == GOOD => {
            push_lines(alloc, &mut text, lba, buffer.as_slice())?;
            Ok((text, DONE))
        }
        Some(Reply::Status { sense, .. }) => {
            push_sense(&mut text, sense.as_slice())?;
            Ok((text, COMMAND_FAILED))
        }
        Some(Reply::Aborted { .. } | Reply::Task { .. }) | None => Ok((text, COMMAND_FAILED)),
    }
}

/// Adds the lines of bytes that stand from this block on.
#[tactic(auto, unfolding(crate::specs::Alone::dump_lines))]
fn push_lines(alloc: Global, text: &mut Vec<u8>, lba: u32, bytes: &[u8]) -> Result<(), AllocError>
    ensures { OnOk result (text.new.items ≡ text.old.items ++ dump_lines lba bytes.now) }
{
    for row in 0..bytes.len() / ROW_BYTES {
        push_row(alloc, text, row_offset(lba, row), row_of(bytes, row))?;
    }
    Ok(())
}

/// The bytes of a row.
fn row_of(bytes: &[u8], row: usize) -> &[u8]
    requires { row < length bytes.now / 16 }
    ensures { result.now ≡ take 16 (drop (16 * row) bytes.now) }
{
    let (_, rest) = bytes.split_at(ROW_BYTES * row);
    &rest[..ROW_BYTES]
}

/// The offset of a row from the disk's start.
fn row_offset(lba: u32, row: usize) -> u32
    requires { row < 2 ^ 59 }
    ensures { result ≡ row_offset lba row }
{
    let offset = BLOCK_BYTES as u64 * u64::from(lba) + ROW_BYTES as u64 * row as u64;
    (offset % OFFSETS) as u32
}

/// Adds an offset in 8 hexadecimal digits, and bytes.
fn push_row(alloc: Global, text: &mut Vec<u8>, offset: u32, bytes: &[u8]) -> Result<(), AllocError>
    ensures { OnOk result (text.new.items ≡ text.old.items ++ row_line offset bytes.now) }
{
    let start = hex::encode(alloc, offset.to_be_bytes())?;
    let digits = hex::encode(alloc, bytes)?;
    let line = format!(in alloc; "{start} {digits}\n")?;
    text.extend_from_slice(line.as_bytes())
}
