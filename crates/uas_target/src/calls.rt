//! The calls on a tag's task.
ghost use Rattle.std.specs.Prelude.{◌≡◌, ◌≤◌, IfOk, MatchOption, false, true, is_some, length, option_map, vec_len};
ghost use Rattle.arrayvec.specs.ArrayVec.{array_vec_len};
ghost use Rattle.std.specs.Option.{unwrap_or};
ghost use Rattle.uas_iu.specs.Units.{IsTextOf};
ghost use Rattle.uas_target.specs.Fields.{addressed};
ghost use Rattle.uas_target.specs.Soundness.{IsChunk};
ghost use Rattle.uas_target.specs.Tasks.{answer_unit};
ghost use Rattle.uas_target.specs.Device.{answered, fits, gave, given, opening, took, wanted, without_task};

use crate::receiver::unit_number;
use crate::table::TaskTable;
use crate::{DeviceAnswer, DeviceTask, Phase, Target};
use arrayvec::ArrayVec;
use block_unit::Unit;
use device_server::{Answer, status_and_sense};
use scsi_cmd::{CHECK_CONDITION, GOOD};
use std::alloc::{AllocError, Global};
use uas_iu::{Iu, LUN_BYTES, write, write_sense};
use uas_profile::{GREATEST_TAG, MAX_CLIENTS, STATUS_BYTES, STREAMS};

impl Target {
    /// A device of these logical units, 1 to 31 (`MAX_CLIENTS`), and of the tags 1 to 240 (`GREATEST_TAG`), without a task. The
    /// error is want of memory.
    pub fn new(alloc: Global, units: Vec<Unit>) -> Result<Target, AllocError>
        requires some { 1 ≤ vec_len units }
        requires most { vec_len units ≤ MAX_CLIENTS }
        ensures { IfOk result (λ target. target ≡ opening GREATEST_TAG units.items) }
    {
        Target::with_tags(alloc, units, GREATEST_TAG)
    }

    /// A device of these logical units, 1 to 31 (`MAX_CLIENTS`), and of the tags from 1 to `tags`, at most 248 (`STREAMS`),
    /// without a task. The error is want of memory.
    pub fn with_tags(alloc: Global, units: Vec<Unit>, tags: u16) -> Result<Target, AllocError>
        requires some { 1 ≤ vec_len units }
        requires most { vec_len units ≤ MAX_CLIENTS }
        requires tags { tags ≤ STREAMS }
        ensures { IfOk result (λ target. target ≡ opening tags units.items) }
    {
        Ok(Target {
            units,
            tasks: TaskTable::new(alloc, tags)?,
        })
    }

    /// What the device does next on a tag; of a tag that no task may have it is `Absent`.
    #[inline(always)]
    pub fn wants(&self, tag: u16) -> Phase
        ensures phase { result ≡ wanted self.now tag }
        ensures chunk { IsChunk result }
    {
        match self.tasks.kept(tag) {
            Some(kept) => kept.wants(),
            None => Phase::Absent,
        }
    }

    /// Fills `bytes` with the next chunk of a tag that gives as many. False at a bad block: then `bytes` are as they were,
    /// and the command has ended with UNRECOVERED READ ERROR (SBC).
    pub fn give_chunk(&mut self, tag: u16, bytes: &mut [u8]) -> bool
        requires { wanted self.old tag ≡ Phase.Gives (length bytes.old) }
        ensures device { self.new ≡ gave self.old tag }
        ensures good { result ≡ is_some (given self.old tag) }
        ensures bytes { bytes.new ≡ unwrap_or (given self.old tag) bytes.old }
    {
        self.tasks.give(&self.units, tag, bytes)
    }

    /// Takes `bytes` as the next chunk of a tag that takes as many; FUA reaches the medium too (SBC). False at a bad
    /// block: then the blocks are as they were, and the command has ended with WRITE ERROR.
    pub fn take_chunk(&mut self, tag: u16, bytes: &[u8]) -> bool
        requires { wanted self.old tag ≡ Phase.Takes (length bytes.now) }
        ensures device { self.new ≡ took self.old tag bytes.now }
        ensures good { result ≡ fits self.old tag }
    {
        self.tasks.take(&mut self.units, tag, bytes)
    }

    /// The unit that answers the task of a tag, once it has ended: Sense with GOOD or CHECK CONDITION, or Response.
    pub fn status_of(&self, tag: u16) -> Option<Iu>
        ensures { result ≡ answered self.now tag }
    {
        let Some(DeviceTask::Ended { answer, .. }) = self.tasks.get(tag) else {
            return None;
        };
        Some(unit_of(tag, &answer))
    }

    /// Writes the unit that answers the task of a tag, once it has ended, into `text`, which is asked to be empty. False,
    /// and nothing is written, where it hasn't.
    #[inline(always)]
    pub fn write_status(&self, tag: u16, text: &mut ArrayVec<u8, STATUS_BYTES>) -> bool
        requires { array_vec_len text.old ≡ 0 }
        ensures { MatchOption (answered self.now tag) ((result ≡ false) × (text.new ≡ text.old))
            (λ unit. (result ≡ true) × IsTextOf text.new.items unit) }
    {
        let Some(DeviceTask::Ended { answer, .. }) = self.tasks.get(tag) else {
            return false;
        };
        write_answer(tag, &answer, text);
        true
    }

    /// The answer of a tag whose task has ended was sent: the device has no task of it any more.
    pub fn sent(&mut self, tag: u16)
        requires { wanted self.old tag ≡ Phase.Ends }
        ensures { self.new ≡ without_task self.old tag }
    {
        self.tasks.remove(tag);
    }

    /// The logical unit that a LUN addresses, where it is there (SAM, single level LUN structure).
    pub fn unit(&self, lun: &[u8; LUN_BYTES]) -> Option<&Unit>
        ensures { option_map (λ unit. unit.now) result ≡ addressed self.now.units lun.now }
    {
        match unit_number(&self.units, lun) {
            Some(number) => Some(&self.units[number]),
            None => None,
        }
    }
}

fn unit_of(tag: u16, answer: &DeviceAnswer) -> Iu
    ensures { result ≡ answer_unit tag answer.now }
{
    match answer {
        DeviceAnswer::Status(answer) => {
            let (status, sense) = status_and_sense(answer);
            Iu::Sense { tag, status, sense }
        }
        DeviceAnswer::Response(code) => Iu::Response { tag, code: *code },
    }
}

/// Writes the unit that tells an answer into `text`, which is asked to be empty.
#[inline(always)]
fn write_answer(tag: u16, answer: &DeviceAnswer, text: &mut ArrayVec<u8, STATUS_BYTES>)
    requires { array_vec_len text.old ≡ 0 }
    ensures { IsTextOf text.new.items (answer_unit tag answer.now) }
{
    match answer {
        DeviceAnswer::Status(Answer::Good) => write_sense(tag, GOOD, &[], text),
        DeviceAnswer::Status(Answer::Check(sense)) => {
            write_sense(tag, CHECK_CONDITION, &sense.bytes(), text);
        }
        DeviceAnswer::Response(code) => write(&Iu::Response { tag, code: *code }, text),
    }
}
