//! A task as the table keeps it: beside the task stands what its data is, worked out once as the task begins, so that what
//! the device does next, and a chunk of a READ or a WRITE, ask the operation nothing.
ghost use Rattle.std.specs.Prelude.{◌≡◌};
ghost use Rattle.uas_target.specs.Moved.{gone_on, moved_by, moved_of, HasLeft};
ghost use Rattle.uas_target.specs.Soundness.{IsChunk};
ghost use Rattle.uas_target.specs.Tasks.{task_wants};

use crate::{DeviceAnswer, DeviceTask, Phase};
use device_server::{Progress, chunk_len};
use scsi_cmd::{Op, moves};
use std::marker::Model;
use uas_profile::BLOCK_BYTES;

/// What a task's data is.
#[derive(Clone, Copy, Debug)]
pub(crate) enum Moved {
    /// None.
    Nothing,
    /// `count` blocks from `lba` on to the host.
    Reads { lba: u64, count: u32 },
    /// `count` blocks from `lba` on from the host, and where it goes `through` to the medium too.
    Writes { lba: u64, count: u32, through: bool },
    /// So many bytes to the host, all at once; the operation says which.
    Gives { bytes: usize },
}

/// A task and what its data is; contracts see the task.
#[derive(Clone, Copy, Debug)]
pub(crate) struct Kept {
    pub(crate) task: DeviceTask,
    pub(crate) moved: Moved,
}

impl Model for Kept {
    ghost use Rattle.uas_target.specs.declared.DeviceTask.{DeviceTask};

    ghost Value = { DeviceTask };

    ghost use Rattle.std.specs.Prelude.{◌≡◌};
    ghost use Rattle.uas_target.specs.Moved.{moved_of};

    ghost view = { λ kept. kept.task };

    ghost invariant = { λ kept. kept.moved ≡ moved_of kept.task };

    ghost inverse = { λ task. record { task = task; moved = moved_of task } };
}

/// What an operation moves.
#[inline(always)]
fn moved_by(op: &Op) -> Moved
    ensures { result ≡ moved_by op.now }
{
    match *op {
        Op::TestUnitReady | Op::Sync { .. } => Moved::Nothing,
        Op::Read { lba, count, .. } => Moved::Reads {
            lba: u64::from(lba),
            count: u32::from(count),
        },
        Op::Read16 { lba, count, .. } => Moved::Reads { lba, count },
        Op::Write { lba, count, fua } => Moved::Writes {
            lba: u64::from(lba),
            count: u32::from(count),
            through: fua,
        },
        Op::Write16 { lba, count, fua } => Moved::Writes {
            lba,
            count,
            through: fua,
        },
        Op::Inquiry { .. } | Op::ReadCapacity | Op::ReadCapacity16 { .. } => Moved::Gives {
            bytes: moves(op).1,
        },
    }
}

/// What a task moves.
#[inline(always)]
fn moved_of(task: &DeviceTask) -> Moved
    ensures { result ≡ moved_of task.now }
{
    match task {
        DeviceTask::Moving { op, .. } => moved_by(op),
        DeviceTask::Ended { .. } => Moved::Nothing,
    }
}

impl Kept {
    /// A task, to be kept.
    #[inline(always)]
    pub(crate) fn of(task: DeviceTask) -> Kept
        ensures { result ≡ task }
    {
        Kept {
            task,
            moved: moved_of(&task),
        }
    }

    /// What the device does next on it.
    #[inline(always)]
    pub(crate) fn wants(&self) -> Phase
        requires left { HasLeft self.now }
        ensures phase { result ≡ task_wants self.now }
        ensures chunk { IsChunk result }
    {
        let DeviceTask::Moving { chunk, .. } = &self.task else {
            return Phase::Ends;
        };
        match &self.moved {
            Moved::Nothing => Phase::Absent,
            Moved::Reads { count, .. } => {
                Phase::Gives(chunk_len(BLOCK_BYTES * *count as usize, *chunk))
            }
            Moved::Writes { count, .. } => {
                Phase::Takes(chunk_len(BLOCK_BYTES * *count as usize, *chunk))
            }
            Moved::Gives { bytes } => Phase::Gives(chunk_len(*bytes, *chunk)),
        }
    }

    /// It moves data, and its command is at this now: its next chunk, or its answer.
    #[inline(always)]
    pub(crate) fn go_on(&mut self, progress: &Progress)
        ensures { self.new ≡ gone_on self.old progress.now }
    {
        if let DeviceTask::Moving { unit, chunk, .. } = &mut self.task {
            match progress {
                Progress::Moving(next) => *chunk = *next,
                Progress::Ended(answer) => {
                    let unit = *unit;
                    self.task = DeviceTask::Ended {
                        unit,
                        answer: DeviceAnswer::Status(*answer),
                    };
                    self.moved = Moved::Nothing;
                }
            }
        }
    }
}
