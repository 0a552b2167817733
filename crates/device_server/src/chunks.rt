//! One chunk of a command's data, on the blocks of this moment.
ghost use Rattle.std.specs.Option.{unwrap_or};
ghost use Rattle.std.specs.Prelude.{◌≡◌, ◌+◌, ◌*◌, ◌<◌, ◌≤◌, is_some, length, not};
ghost use Rattle.scsi_cmd.specs.Sense.{unrecovered_read_error, write_error};
ghost use Rattle.scsi_cmd.specs.Work.{IsWorkOn, work_bytes, work_direction};
ghost use Rattle.uas_profile.specs.declared.Direction.{Direction};
ghost use Rattle.scsi_cmd.specs.declared.Work.{Work};
ghost use Rattle.device_server.specs.Server.{chunk_blocks, chunk_bytes, chunk_fits, chunk_given, chunk_moved, meets_bad_chunk};
ghost use Rattle.device_server.specs.Server.{next_progress, progress_after, progress_after_blocks, unit_taken};
ghost use Rattle.uas_profile.specs.declared.TheConstants.{BLOCK_BYTES};

use crate::{Answer, Progress};
use block_unit::{Bad, Unit};
use scsi_cmd::{Sense, Work};
use uas_profile::{CHUNK_BLOCKS, CHUNK_BYTES, MAX_BLOCKS};

/// How many bytes the next chunk has, of `bytes` in all, after so many chunks: 4,096, or what is left.
pub fn chunk_len(bytes: usize, chunk: u16) -> usize
    requires { CHUNK_BYTES * chunk < bytes }
    ensures len { result ≡ chunk_bytes bytes chunk }
    ensures some { 0 < result }
    ensures most { result ≤ CHUNK_BYTES }
    ensures within { CHUNK_BYTES * chunk + result ≤ bytes }
{
    (bytes - CHUNK_BYTES * usize::from(chunk)).min(CHUNK_BYTES)
}

/// Fills `bytes` with the next chunk of a command to the host: what the command is at then. A READ that meets a bad
/// block ends with UNRECOVERED READ ERROR (SBC), and `bytes` are as they were.
#[inline(always)]
pub fn give_chunk(unit: &Unit, work: &Work, chunk: u16, bytes: &mut [u8]) -> Progress
    requires direction { work_direction work.now ≡ Direction.ToHost }
    requires left { CHUNK_BYTES * chunk < work_bytes work.now }
    requires len { length bytes.old ≡ chunk_bytes (work_bytes work.now) chunk }
    requires on { IsWorkOn unit.now.count work.now }
    ensures bytes { bytes.new ≡ unwrap_or (chunk_given unit.now chunk work.now) bytes.old }
    ensures progress { result ≡ progress_after unit.now chunk work.now }
    ensures moved { chunk_moved result ≡ is_some (chunk_given unit.now chunk work.now) }
{
    match work {
        Work::Gives(given) => {
            bytes.copy_from_slice(given.as_slice());
            Progress::Ended(Answer::Good)
        }
        Work::Reads { lba, count } => read_blocks(unit, *lba, *count, chunk, bytes),
        Work::Nothing | Work::Writes { .. } | Work::Synchronizes { .. } => unreachable!(),
    }
}

fn read_blocks(unit: &Unit, lba: u64, count: u32, chunk: u16, bytes: &mut [u8]) -> Progress
    requires len { length bytes.old ≡ chunk_bytes (BLOCK_BYTES * count) chunk }
    requires left { CHUNK_BYTES * chunk < BLOCK_BYTES * count }
    requires on { lba + count ≤ unit.now.count }
    ensures bytes { bytes.new ≡ unwrap_or (chunk_given unit.now chunk (Work.Reads lba count)) bytes.old }
    ensures progress { result ≡ progress_after_blocks unit.now lba count chunk unrecovered_read_error }
{
    // no sum of a block's number and a count overflows
    prove!(unit.blocks() <= MAX_BLOCKS);
    match unit.read_into(lba as u32 + u32::from(CHUNK_BLOCKS * chunk), bytes) {
        Ok(()) => after_blocks(count, chunk),
        Err(Bad) => Progress::Ended(Answer::Check(Sense::UNRECOVERED_READ_ERROR)),
    }
}

/// Takes `bytes` as the next chunk of a command to the device: what the command is at then. A WRITE that meets a bad
/// block ends with WRITE ERROR (SBC), and the blocks are as they were.
pub fn take_chunk(unit: &mut Unit, work: &Work, chunk: u16, bytes: &[u8]) -> Progress
    requires direction { work_direction work.now ≡ Direction.ToDevice }
    requires left { CHUNK_BYTES * chunk < work_bytes work.now }
    requires len { length bytes.now ≡ chunk_bytes (work_bytes work.now) chunk }
    requires on { IsWorkOn unit.old.count work.now }
    ensures unit { unit.new ≡ unit_taken unit.old bytes.now chunk work.now }
    ensures progress { result ≡ progress_after unit.old chunk work.now }
    ensures moved { chunk_moved result ≡ chunk_fits unit.old chunk work.now }
    ensures count { unit.new.count ≡ unit.old.count }
{
    match work {
        Work::Writes {
            lba,
            count,
            through,
        } => write_blocks(unit, *lba, *count, *through, chunk, bytes),
        Work::Nothing | Work::Gives(_) | Work::Reads { .. } | Work::Synchronizes { .. } => {
            unreachable!()
        }
    }
}

#[tactic(auto, using(crate::specs::Laws::counts))]
fn write_blocks(
    unit: &mut Unit,
    lba: u64,
    count: u32,
    through: bool,
    chunk: u16,
    bytes: &[u8],
) -> Progress
    requires len { length bytes.now ≡ chunk_bytes (BLOCK_BYTES * count) chunk }
    requires left { CHUNK_BYTES * chunk < BLOCK_BYTES * count }
    requires on { lba + count ≤ unit.old.count }
    ensures unit { unit.new ≡ unit_taken unit.old bytes.now chunk (Work.Writes lba count through) }
    ensures progress { result ≡ progress_after_blocks unit.old lba count chunk write_error }
    ensures count { unit.new.count ≡ unit.old.count }
{
    // no sum of a block's number and a count overflows
    prove!(unit.blocks() <= MAX_BLOCKS);
    match unit.write(lba as u32 + u32::from(CHUNK_BLOCKS * chunk), bytes, through) {
        Ok(()) => after_blocks(count, chunk),
        Err(Bad) => Progress::Ended(Answer::Check(Sense::WRITE_ERROR)),
    }
}

/// After a chunk of blocks, of so many in all.
fn after_blocks(count: u32, chunk: u16) -> Progress
    requires left { CHUNK_BYTES * chunk < BLOCK_BYTES * count }
    requires most { count ≤ MAX_BLOCKS }
    ensures { result ≡ next_progress (BLOCK_BYTES * count) chunk }
{
    if u32::from(CHUNK_BLOCKS) < count - u32::from(CHUNK_BLOCKS) * u32::from(chunk) {
        Progress::Moving(chunk + 1)
    } else {
        Progress::Ended(Answer::Good)
    }
}
