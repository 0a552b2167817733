//! Bulk-Only Transport.
ghost use Rattle.std.specs.Prelude.{◌≡◌, ◌≤◌, IfOk, IfSome, length, option_map};
ghost use Rattle.bulk_only.specs.Status.{status_byte};
ghost use Rattle.guest_bulk.specs.declared.bulk.BulkStage.{BulkStage};
ghost use Rattle.machine_bytes.specs.Forms.{named, optional};
ghost use Rattle.controller_bytes.specs.Bulk.{bulk_form, command_form, csw_status_at, done_form, kept_form, stage_form, told_form};
ghost use Rattle.controller_bytes.specs.BulkTexts.{FitsBulk, bulk_of};

use crate::transfers::restore_gather;
use arrayvec::ArrayVec;
use bulk_only::{Csw, CswStatus, Done};
use guest_bulk::{Bulk, BulkCommand, BulkStage, KeptSense};
use guest_tags::Chunk;
use machine_bytes::{Place, Reader};
use std::alloc::{AllocError, Global};

/// The most bytes of a chunk.
const CHUNK_BYTES: u16 = 4096;

/// The most bytes of an information unit.
const UNIT_BYTES: u8 = 112;

/// The transport as it was read.
#[derive(Debug, Drop)]
pub struct BulkText<'a> {
    pub stage: BulkStage,
    pub chunk: &'a [u8],
    pub taken: &'a [u8],
    pub gathers: bool,
    pub kept: Option<KeptSense>,
}

fn write_done(place: Place, cells: &mut [u8], done: Done) -> Place
    ensures { (cells.new, result) ≡ done_form.write (cells.old, place) done }
{
    match done {
        Done::Nothing => place.kind(cells, 0),
        Done::In { given } => place.kind(cells, 1).u64(cells, given),
        Done::Out { taken, whole } => place.kind(cells, 2).u64(cells, taken).u64(cells, whole),
    }
}

fn read_done(reader: &mut Reader) -> Option<Done>
    ensures { (result, reader.new) ≡ done_form.read reader.old }
{
    match reader.below(3)? {
        0 => Some(Done::Nothing),
        1 => {
            let given = reader.u64()?;
            Some(Done::In { given })
        }
        _ => {
            let taken = reader.u64()?;
            let whole = reader.u64()?;
            Some(Done::Out { taken, whole })
        }
    }
}

fn write_command(place: Place, cells: &mut [u8], command: BulkCommand) -> Place
    ensures { (cells.new, result) ≡ command_form.write (cells.old, place) command }
{
    let place = place.u32(cells, command.tag);
    let place = place.u32(cells, command.length);
    let place = place.flag(cells, command.is_in);
    let place = place.u8(cells, command.lun);
    let place = place.u32(cells, command.left);
    let place = write_done(place, cells, command.done);
    place.flag(cells, command.is_kept)
}

fn read_command(reader: &mut Reader) -> Option<BulkCommand>
    ensures { (result, reader.new) ≡ command_form.read reader.old }
{
    let tag = reader.u32()?;
    let length = reader.u32()?;
    let is_in = reader.flag()?;
    let lun = reader.u8()?;
    let left = reader.u32()?;
    let done = read_done(reader)?;
    let is_kept = reader.flag()?;
    Some(BulkCommand {
        tag,
        length,
        is_in,
        lun,
        left,
        done,
        is_kept,
    })
}

/// The byte of a CSW's status.
fn status_byte(status: CswStatus) -> u8
    ensures { result ≡ status_byte status }
{
    match status {
        CswStatus::Passed => 0,
        CswStatus::Failed => 1,
        CswStatus::PhaseError => 2,
    }
}

fn read_csw_status(reader: &mut Reader) -> Option<CswStatus>
    ensures { (result, reader.new) ≡ (named 3 status_byte csw_status_at).read reader.old }
{
    match reader.below(3)? {
        0 => Some(CswStatus::Passed),
        1 => Some(CswStatus::Failed),
        _ => Some(CswStatus::PhaseError),
    }
}

fn write_told(place: Place, cells: &mut [u8], csw: Csw, sent: usize) -> Place
    ensures { (cells.new, result) ≡ told_form.write (cells.old, place) (csw, sent) }
{
    let place = place.u32(cells, csw.tag);
    let place = place.u32(cells, csw.residue);
    let place = place.kind(cells, status_byte(csw.status));
    place.u64(cells, sent as u64)
}

fn read_told(reader: &mut Reader) -> Option<(Csw, usize)>
    ensures { (result, reader.new) ≡ told_form.read reader.old }
{
    let tag = reader.u32()?;
    let residue = reader.u32()?;
    let status = read_csw_status(reader)?;
    let sent = reader.u64()?;
    let csw = Csw {
        tag,
        residue,
        status,
    };
    Some((csw, sent as usize))
}

fn write_stage(place: Place, cells: &mut [u8], stage: BulkStage) -> Place
    ensures { (cells.new, result) ≡ stage_form.write (cells.old, place) stage }
{
    match stage {
        BulkStage::Awaits => place.kind(cells, 0),
        BulkStage::Faulty => place.kind(cells, 1),
        BulkStage::Moves { command } => write_command(place.kind(cells, 2), cells, command),
        BulkStage::Tells { csw, sent } => write_told(place.kind(cells, 3), cells, csw, sent),
    }
}

fn read_stage(reader: &mut Reader) -> Option<BulkStage>
    ensures { (result, reader.new) ≡ stage_form.read reader.old }
{
    match reader.below(4)? {
        0 => Some(BulkStage::Awaits),
        1 => Some(BulkStage::Faulty),
        2 => {
            let command = read_command(reader)?;
            Some(BulkStage::Moves { command })
        }
        _ => {
            let (csw, sent) = read_told(reader)?;
            Some(BulkStage::Tells { csw, sent })
        }
    }
}

fn read_kept(reader: &mut Reader) -> Option<KeptSense>
    ensures { (result, reader.new) ≡ kept_form.read reader.old }
{
    let lun = reader.u8()?;
    let bytes = reader.counted_u8(UNIT_BYTES)?;
    let mut text = ArrayVec::new();
    let _ = text.try_extend_from_slice(bytes);
    Some(KeptSense { lun, text })
}

fn write_kept_option(place: Place, cells: &mut [u8], kept: &Option<KeptSense>) -> Place
    ensures { (cells.new, result) ≡ (optional kept_form).write (cells.old, place) kept.now }
{
    match kept {
        None => place.kind(cells, 0),
        Some(kept) => place
            .kind(cells, 1)
            .u8(cells, kept.lun)
            .counted_u8(cells, &kept.text),
    }
}

fn read_kept_option(reader: &mut Reader) -> Option<Option<KeptSense>>
    ensures { (result, reader.new) ≡ (optional kept_form).read reader.old }
{
    match reader.below(2)? {
        0 => Some(None),
        _ => {
            let kept = read_kept(reader)?;
            Some(Some(kept))
        }
    }
}

/// Writes the transport.
pub fn write_bulk(place: Place, cells: &mut [u8], bulk: &Bulk) -> Place
    ensures { (cells.new, result) ≡ bulk_form.write (cells.old, place) bulk.now }
{
    let (chunk, taken) = (&bulk.chunk, &bulk.taken);
    let _ = taken.held();
    let place = write_stage(place, cells, bulk.stage);
    let place = place.counted_u16(cells, chunk.front(chunk.held()));
    let place = place.counted_u16(cells, taken.bytes());
    let place = place.flag(cells, bulk.gathers);
    write_kept_option(place, cells, &bulk.kept)
}

/// Reads the transport.
pub fn read_bulk<'a>(reader: &mut Reader<'a>) -> Option<BulkText<'a>>
    ensures read { (option_map bulk_of result, reader.new) ≡ bulk_form.read reader.old }
    ensures fits { IfSome result FitsBulk }
{
    let stage = read_stage(reader)?;
    let chunk = reader.counted_u16(CHUNK_BYTES)?;
    let taken = reader.counted_u16(CHUNK_BYTES)?;
    let gathers = reader.flag()?;
    let kept = read_kept_option(reader)?;
    Some(BulkText {
        stage,
        chunk,
        taken,
        gathers,
        kept,
    })
}

/// The transport made of what was read. The error is want of memory.
pub fn restore_bulk(alloc: Global, text: BulkText) -> Result<Bulk, AllocError>
    requires { FitsBulk text }
    ensures { IfOk result (λ bulk. bulk ≡ bulk_of text.entry) }
{
    let mut chunk = Chunk::new(alloc)?;
    chunk.hold(text.chunk);
    let taken = restore_gather(alloc, text.taken)?;
    Ok(Bulk {
        stage: text.stage,
        chunk,
        taken,
        gathers: text.gathers,
        kept: text.kept,
    })
}
