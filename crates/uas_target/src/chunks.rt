//! One chunk of a command's data, on the blocks of this moment. Which blocks is kept beside the task, which goes on in its place.
ghost use Rattle.std.specs.Option.{option_map_or, unwrap_or};
ghost use Rattle.std.specs.Prelude.{◌≡◌, ◌*◌, ◌<◌, None, Some, IfSome, is_some, length, false, option_and_then};
ghost use Rattle.scsi_cmd.specs.Meaning.{op_fault};
ghost use Rattle.scsi_cmd.specs.Op.{moved_bytes};
ghost use Rattle.scsi_cmd.specs.Work.{work_of, work_without_unit};
ghost use Rattle.device_server.specs.Server.{chunk_fits, chunk_given, chunk_moved, progress_after, unit_taken};
ghost use Rattle.uas_target.specs.declared.Phase.{Phase};
ghost use Rattle.uas_target.specs.Moved.{moved_by};
ghost use Rattle.uas_target.specs.Soundness.{IsSoundTask, counts_of};
ghost use Rattle.uas_target.specs.Tasks.{chunk_wanted, given_without_unit, task_fits, task_given, task_in, task_left, task_taken, task_wants};
ghost use Rattle.uas_profile.specs.declared.TheConstants.{CHUNK_BYTES};

use crate::moved::{Kept, Moved};
use crate::{DeviceAnswer, DeviceTask};
use block_unit::Unit;
use device_server::{Answer, Progress, give_chunk, take_chunk};
use scsi_cmd::{Op, Sense, Work, work_of, work_without_unit};

/// What the device has of a command that is at this.
pub(crate) fn task_in(
    unit: Option<usize>,
    asked: &Result<Op, Sense>,
    progress: Progress,
) -> Option<DeviceTask>
    ensures { result ≡ task_in unit asked.now progress }
{
    match (progress, asked) {
        (Progress::Moving(chunk), Ok(op)) => Some(DeviceTask::Moving {
            unit,
            op: *op,
            chunk,
        }),
        (Progress::Moving(_), Err(_)) => None,
        (Progress::Ended(answer), _) => Some(DeviceTask::Ended {
            unit,
            answer: DeviceAnswer::Status(answer),
        }),
    }
}

/// Whether a chunk that led here met no bad block.
fn is_moved(progress: &Progress) -> bool
    ensures { result ≡ chunk_moved progress.now }
{
    !matches!(progress, Progress::Ended(Answer::Check(_)))
}

/// Gives the next chunk of the task that a place holds, which stays there: whether it met no bad block.
#[inline(always)]
pub(crate) fn give_held(held: &mut Option<Kept>, units: &[Unit], bytes: &mut [u8]) -> bool
    requires sound { IfSome held.old (IsSoundTask (counts_of units.now)) }
    requires wanted { option_map_or task_wants held.old Phase.Absent ≡ Phase.Gives (length bytes.old) }
    ensures good { result ≡ is_some (option_and_then (task_given units.now) held.old) }
    ensures bytes { bytes.new ≡ unwrap_or (option_and_then (task_given units.now) held.old) bytes.old }
    ensures task { held.new ≡ option_and_then (task_left units.now) held.old }
    ensures sound { IfSome held.new (IsSoundTask (counts_of units.now)) }
    ensures held { is_some held.new ≡ is_some held.old }
{
    match held {
        Some(kept) => kept.give(units, bytes),
        None => false,
    }
}

/// Takes the next chunk of the task that a place holds, which stays there: whether it met no bad block.
#[inline(always)]
pub(crate) fn take_held(held: &mut Option<Kept>, units: &mut [Unit], bytes: &[u8]) -> bool
    requires sound { IfSome held.old (IsSoundTask (counts_of units.old)) }
    requires wanted { option_map_or task_wants held.old Phase.Absent ≡ Phase.Takes (length bytes.now) }
    ensures good { result ≡ option_map_or (task_fits units.old) held.old false }
    ensures units { units.new ≡ option_map_or (task_taken units.old bytes.now) held.old units.old }
    ensures counts { counts_of units.new ≡ counts_of units.old }
    ensures task { held.new ≡ option_and_then (task_left units.old) held.old }
    ensures sound { IfSome held.new (IsSoundTask (counts_of units.new)) }
    ensures held { is_some held.new ≡ is_some held.old }
{
    match held {
        Some(kept) => kept.take(units, bytes),
        None => false,
    }
}

impl Kept {
    /// Gives the next chunk of the task, which goes on in its place: whether it met no bad block.
    #[inline(always)]
    pub(crate) fn give(&mut self, units: &[Unit], bytes: &mut [u8]) -> bool
        requires sound { IsSoundTask (counts_of units.now) self.old }
        requires wanted { task_wants self.old ≡ Phase.Gives (length bytes.old) }
        ensures good { result ≡ is_some (task_given units.now self.old) }
        ensures task { Some self.new ≡ task_left units.now self.old }
        ensures bytes { bytes.new ≡ unwrap_or (task_given units.now self.old) bytes.old }
        ensures sound { IsSoundTask (counts_of units.now) self.new }
    {
        match &self.task {
            DeviceTask::Moving {
                unit: Some(number),
                op,
                chunk,
            } => {
                let progress = give_at(&units[*number], &self.moved, op, *chunk, bytes);
                self.go_on(&progress);
                is_moved(&progress)
            }
            DeviceTask::Moving {
                unit: None,
                op,
                chunk,
            } => {
                let good = give_without_unit(op, *chunk, bytes);
                self.go_on(&Progress::Ended(Answer::Good));
                good
            }
            DeviceTask::Ended { .. } => false,
        }
    }

    /// Takes the next chunk of the task, which goes on in its place: whether it met no bad block.
    #[inline(always)]
    pub(crate) fn take(&mut self, units: &mut [Unit], bytes: &[u8]) -> bool
        requires sound { IsSoundTask (counts_of units.old) self.old }
        requires wanted { task_wants self.old ≡ Phase.Takes (length bytes.now) }
        ensures good { result ≡ task_fits units.old self.old }
        ensures task { Some self.new ≡ task_left units.old self.old }
        ensures units { units.new ≡ task_taken units.old bytes.now self.old }
        ensures counts { counts_of units.new ≡ counts_of units.old }
        ensures sound { IsSoundTask (counts_of units.new) self.new }
    {
        match &self.task {
            DeviceTask::Moving {
                unit: Some(number),
                op,
                chunk,
            } => {
                let progress = take_at(&mut units[*number], &self.moved, op, *chunk, bytes);
                self.go_on(&progress);
                is_moved(&progress)
            }
            DeviceTask::Moving { unit: None, .. } | DeviceTask::Ended { .. } => false,
        }
    }
}

/// Gives a chunk of a command to a unit that is there: of blocks by what is kept, else by the operation.
#[inline(always)]
fn give_at(unit: &Unit, moved: &Moved, op: &Op, chunk: u16, bytes: &mut [u8]) -> Progress
    requires moved { moved.now ≡ moved_by op.now }
    requires wanted { chunk_wanted chunk op.now ≡ Phase.Gives (length bytes.old) }
    requires left { CHUNK_BYTES * chunk < moved_bytes op.now }
    requires range { op_fault op.now unit.now.count ≡ None }
    ensures progress { result ≡ progress_after unit.now chunk (work_of op.now unit.now.count) }
    ensures moved { chunk_moved result ≡ is_some (chunk_given unit.now chunk (work_of op.now unit.now.count)) }
    ensures bytes { bytes.new ≡ unwrap_or (chunk_given unit.now chunk (work_of op.now unit.now.count)) bytes.old }
{
    match *moved {
        Moved::Reads { lba, count } => give_chunk(unit, &Work::Reads { lba, count }, chunk, bytes),
        Moved::Gives { .. } => give_by_operation(unit, op, chunk, bytes),
        Moved::Nothing | Moved::Writes { .. } => unreachable!(),
    }
}

/// Gives a chunk of a command to a unit that is there, by the work of its operation on as many blocks.
#[inline(never)]
fn give_by_operation(unit: &Unit, op: &Op, chunk: u16, bytes: &mut [u8]) -> Progress
    requires wanted { chunk_wanted chunk op.now ≡ Phase.Gives (length bytes.old) }
    requires left { CHUNK_BYTES * chunk < moved_bytes op.now }
    requires range { op_fault op.now unit.now.count ≡ None }
    ensures progress { result ≡ progress_after unit.now chunk (work_of op.now unit.now.count) }
    ensures moved { chunk_moved result ≡ is_some (chunk_given unit.now chunk (work_of op.now unit.now.count)) }
    ensures bytes { bytes.new ≡ unwrap_or (chunk_given unit.now chunk (work_of op.now unit.now.count)) bytes.old }
{
    give_chunk(unit, &work_of(op, unit.blocks()), chunk, bytes)
}

/// Gives the data of a command to a unit that isn't there, all at once; false where it has none.
fn give_without_unit(op: &Op, chunk: u16, bytes: &mut [u8]) -> bool
    requires wanted { chunk_wanted chunk op.now ≡ Phase.Gives (length bytes.old) }
    requires left { CHUNK_BYTES * chunk < moved_bytes op.now }
    ensures good { result ≡ is_some (given_without_unit (work_without_unit op.now)) }
    ensures bytes { bytes.new ≡ unwrap_or (given_without_unit (work_without_unit op.now)) bytes.old }
{
    match work_without_unit(op) {
        Ok(Work::Gives(given)) => {
            bytes.copy_from_slice(given.as_slice());
            true
        }
        _ => false,
    }
}

/// Takes a chunk of a command to a unit that is there.
#[inline(always)]
fn take_at(unit: &mut Unit, moved: &Moved, op: &Op, chunk: u16, bytes: &[u8]) -> Progress
    requires moved { moved.now ≡ moved_by op.now }
    requires wanted { chunk_wanted chunk op.now ≡ Phase.Takes (length bytes.now) }
    requires left { CHUNK_BYTES * chunk < moved_bytes op.now }
    requires range { op_fault op.now unit.old.count ≡ None }
    ensures progress { result ≡ progress_after unit.old chunk (work_of op.now unit.old.count) }
    ensures moved { chunk_moved result ≡ chunk_fits unit.old chunk (work_of op.now unit.old.count) }
    ensures unit { unit.new ≡ unit_taken unit.old bytes.now chunk (work_of op.now unit.old.count) }
    ensures count { unit.new.count ≡ unit.old.count }
{
    match *moved {
        Moved::Writes {
            lba,
            count,
            through,
        } => {
            let work = Work::Writes {
                lba,
                count,
                through,
            };
            take_chunk(unit, &work, chunk, bytes)
        }
        Moved::Nothing | Moved::Reads { .. } | Moved::Gives { .. } => unreachable!(),
    }
}
