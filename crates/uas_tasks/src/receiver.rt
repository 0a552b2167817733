//! What comes of received bytes.
ghost use Rattle.std.specs.Prelude.{◌≡◌, ℕ, ◌<◌, true, false, None, Ok, IfNone, IfSome, length, slice_get};
ghost use Rattle.uas_target.specs.Fields.{tag_in};
ghost use Rattle.uas_tasks.specs.Machine.{Machine, executed, executed_on, has_task, managed, on_its_tag, received, received_unreadable, with_answer, with_task_on};
ghost use Rattle.uas_tasks.specs.Slots.{is_tag};
ghost use Rattle.uas_tasks.specs.Soundness.{IsAnswer};

use crate::management::responded;
use crate::starts::begin;
use crate::{LogicalUnit, Overlap, Task, Tasks, Took};
use host_commands::read_without_logical_unit;
use uas_iu::{CDB_BYTES, INVALID_INFORMATION_UNIT, Iu, LUN_BYTES, read};
use uas_profile::GREATEST_TAG;
use uas_target::unit_number;

/// Whether a task may have this tag.
pub(crate) fn is_tag(tag: u16) -> bool
    ensures { result ≡ is_tag tag }
{
    tag != 0 && tag <= GREATEST_TAG
}

impl Tasks {
    /// Receives the bytes of an information unit (INCITS 471): `Began` where a task began on its tag, which may have ended at
    /// once, and `Dropped` where nothing came of them. A Command is executed as far as its data and its first request. A Task
    /// Management information unit is done and answered by a Response (SAM): ABORT TASK ends the task that it names, where that is a
    /// command's to the addressed logical unit, LOGICAL UNIT RESET ends all of them and sets the unit attention, and both are 00h;
    /// QUERY TASK ends nothing and is 08h where the tag that it names has such a command, else 00h; each is 09h where no logical
    /// unit is addressed, and any other function is 04h. Bytes that are no information unit are answered by 02h, where at least
    /// four came and the tag in bytes 2 and 3 is free and may have a task. What a device sends, and an information unit whose tag
    /// no task may have, is dropped. `Overlap`, and nothing changes, where the tag of a readable Command or Task Management has a
    /// task.
    pub fn receive(&mut self, bytes: &[u8]) -> Result<Took, Overlap>
        ensures { (self.new, result) ≡ received self.old bytes.now }
    {
        match read(bytes) {
            Ok(Iu::Command { tag, lun, cdb }) => self.receive_command(tag, &lun, &cdb),
            Ok(
                Iu::Task {
                    tag,
                    function,
                    task_tag,
                    lun,
                },
            ) => self.receive_task(tag, function, task_tag, &lun),
            Ok(Iu::Sense { .. }) => Ok(Took::Dropped),
            Ok(Iu::Response { .. }) => Ok(Took::Dropped),
            Err(_) => Ok(self.receive_unreadable(bytes)),
        }
    }

    /// Whether a tag has a task.
    fn has_task(&self, tag: u16) -> bool
        ensures { result ≡ has_task self.now tag }
    {
        match self.slot(tag) {
            Some(slot) => slot.task().is_some(),
            None => false,
        }
    }

    /// What comes of a readable information unit that begins a task on a tag where none can begin: it is dropped where no task may
    /// have the tag, and an overlap where a task has it.
    fn refusal(&self, tag: u16) -> Option<Result<Took, Overlap>>
        ensures free { IfNone result ((is_tag tag ≡ true) × (has_task self.now tag ≡ false)) }
        ensures refused { IfSome result (λ refused. (after : Machine) → on_its_tag self.now tag after ≡ (self.now, refused)) }
    {
        if !is_tag(tag) {
            Some(Ok(Took::Dropped))
        } else if self.has_task(tag) {
            Some(Err(Overlap))
        } else {
            None
        }
    }

    fn receive_command(
        &mut self,
        tag: u16,
        lun: &[u8; LUN_BYTES],
        cdb: &[u8; CDB_BYTES],
    ) -> Result<Took, Overlap>
        ensures { (self.new, result) ≡ on_its_tag self.old tag (executed self.old tag lun.now cdb.now) }
    {
        if let Some(refused) = self.refusal(tag) {
            return refused;
        }
        self.execute(tag, lun, cdb);
        Ok(Took::Began(tag))
    }

    /// The addressed logical unit executes a CDB as far as its data and its first request, on the slot of a tag.
    fn execute(&mut self, tag: u16, lun: &[u8; LUN_BYTES], cdb: &[u8; CDB_BYTES])
        requires tag { is_tag tag ≡ true }
        requires free { has_task self.old tag ≡ false }
        ensures { self.new ≡ executed self.old tag lun.now cdb.now }
    {
        match unit_number(&self.units, lun) {
            Some(number) => self.execute_on(tag, number, cdb),
            None => self.execute_nowhere(tag, cdb),
        }
    }

    fn execute_on(&mut self, tag: u16, number: usize, cdb: &[u8; CDB_BYTES])
        requires tag { is_tag tag ≡ true }
        requires free { has_task self.old tag ≡ false }
        requires there { number < length self.old.units }
        ensures { self.new ≡ executed_on self.old tag number cdb.now (slice_get self.old.units number) }
    {
        let count = self.units.len() as u8;
        let unit = self.units[number];
        let slot = &mut self.slots[usize::from(tag) - 1];
        let attention = begin(slot, &unit, number, &self.set, count, cdb);
        self.units[number] = LogicalUnit { attention, ..unit };
    }

    fn execute_nowhere(&mut self, tag: u16, cdb: &[u8; CDB_BYTES])
        requires tag { is_tag tag ≡ true }
        requires free { has_task self.old tag ≡ false }
        ensures { (number : ℕ) → self.new ≡ executed_on self.old tag number cdb.now None }
    {
        let count = self.units.len() as u8;
        let asked = read_without_logical_unit(cdb, &self.set, count);
        self.slots[usize::from(tag) - 1].start_none(&asked);
    }

    fn receive_task(
        &mut self,
        tag: u16,
        function: u8,
        task_tag: u16,
        lun: &[u8; LUN_BYTES],
    ) -> Result<Took, Overlap>
        ensures { (self.new, result) ≡ on_its_tag self.old tag (with_answer tag (managed self.old function task_tag lun.now)) }
    {
        if let Some(refused) = self.refusal(tag) {
            return refused;
        }
        let answer = self.manage(function, task_tag, lun);
        self.respond(tag, answer);
        Ok(Took::Began(tag))
    }

    fn receive_unreadable(&mut self, bytes: &[u8]) -> Took
        ensures { (self.new, Ok result) ≡ received_unreadable self.old bytes.now (tag_in bytes.now) }
    {
        let [_, _, high, low, ..] = bytes else {
            return Took::Dropped;
        };
        let tag = u16::from_be_bytes([*high, *low]);
        if !is_tag(tag) || self.has_task(tag) {
            return Took::Dropped;
        }
        self.respond(tag, responded(INVALID_INFORMATION_UNIT));
        Took::Began(tag)
    }

    /// The task of a free tag is this answer to an information unit.
    fn respond(&mut self, tag: u16, answer: Task)
        requires tag { is_tag tag ≡ true }
        requires free { has_task self.old tag ≡ false }
        requires answer { IsAnswer (length self.old.units) answer }
        ensures { self.new ≡ with_task_on self.old tag answer }
    {
        self.slots[usize::from(tag) - 1].set(Some(answer));
    }
}
