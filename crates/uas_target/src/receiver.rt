//! What comes of received bytes.
ghost use Rattle.std.specs.Prelude.{◌≡◌, ℕ, ◌<◌, ◌≤◌, List, true, None, Some, Ok, IfNone, IfOk, IfSome, MatchOption, length, slice_get, slice_index, slice_set};
ghost use Rattle.std.specs.Result.{ForOk};
ghost use Rattle.scsi_cmd.specs.Meaning.{asked, op_fault};
ghost use Rattle.scsi_cmd.specs.Work.{IsWorkOn, asked_without_unit, work_asked, work_asked_without_unit};
ghost use Rattle.device_server.specs.Server.{progress_asked};
ghost use Rattle.uas_target.specs.Device.{Device, executed, managed, on_its_tag, received, received_unreadable, task_of, with_code, with_response};
ghost use Rattle.uas_target.specs.Device.{has_place, with_units_and_task};
ghost use Rattle.uas_target.specs.Fields.{addressed, tag_in};
ghost use Rattle.uas_target.specs.Soundness.{IsSoundTask, counts_of};
ghost use Rattle.uas_target.specs.Tasks.{begun_by, task_in};

use crate::chunks::task_in;
use crate::{DeviceAnswer, DeviceTask, Overlap, Target, Took};
use block_unit::Unit;
use device_server::{begin, progress_asked};
use scsi_cmd::{
    Op, Sense, Work, cdb_reports_attention, parse, parse_without_unit, work_of, work_without_unit,
};
use uas_iu::{CDB_BYTES, INVALID_INFORMATION_UNIT, Iu, LUN_BYTES, lun_number, read};

/// The number of the unit that a LUN addresses, where it is there (SAM, single level LUN structure).
pub fn unit_number<T>(units: &[T], lun: &[u8; LUN_BYTES]) -> Option<usize>
    ensures none { IfNone result (addressed units.now lun.now ≡ None) }
    ensures some { IfSome result
        (λ number. (number < length units.now) × (number ≡ slice_index lun.now 1) × (addressed units.now lun.now ≡ slice_get units.now number)) }
{
    let number = usize::from(lun_number(lun)?);
    if number < units.len() {
        Some(number)
    } else {
        None
    }
}

/// The addressed unit executes a CDB as far as its data; what the device has of the command then.
fn execute(units: &mut [Unit], lun: &[u8; LUN_BYTES], cdb: &[u8; CDB_BYTES]) -> Option<DeviceTask>
    ensures executed { (units.new, result) ≡ executed units.old lun.now cdb.now }
    ensures counts { counts_of units.new ≡ counts_of units.old }
    ensures sound { IfSome result (IsSoundTask (counts_of units.new)) }
{
    match unit_number(units, lun) {
        Some(number) => begin_at(units, number, cdb),
        None => missing_task(cdb),
    }
}

/// The unit of this number executes a CDB as far as its data.
fn begin_on(unit: &mut Unit, number: usize, cdb: &[u8; CDB_BYTES]) -> Option<DeviceTask>
    ensures unit { unit.new ≡ (begun_by unit.old cdb.now (asked cdb.now unit.old.count)).0 }
    ensures task { result ≡ task_in (Some number) (asked cdb.now unit.old.count) (begun_by unit.old cdb.now (asked cdb.now unit.old.count)).1 }
    ensures count { unit.new.count ≡ unit.old.count }
    ensures sound { (counts : List ℕ) → slice_get counts number ≡ Some unit.old.count → IfSome result (IsSoundTask counts) }
{
    let asked = parse(cdb, unit.blocks());
    let work = work_asked(&asked, unit.blocks());
    let progress = begin(unit, cdb_reports_attention(cdb), work);
    task_in(Some(number), &asked, progress)
}

/// The work of what is asked of a unit of so many blocks, or its fault.
fn work_asked(asked: &Result<Op, Sense>, blocks: u32) -> Result<Work, Sense>
    requires some { 0 < blocks }
    requires range { ForOk asked.now (λ op. op_fault op blocks ≡ None) }
    ensures work { result ≡ work_asked blocks asked.now }
    ensures on { IfOk result (IsWorkOn blocks) }
{
    match asked {
        Ok(op) => Ok(work_of(op, blocks)),
        Err(sense) => Err(*sense),
    }
}

fn begin_at(units: &mut [Unit], number: usize, cdb: &[u8; CDB_BYTES]) -> Option<DeviceTask>
    requires { number < length units.old }
    ensures begun { MatchOption (slice_get units.old number) ⊥ (λ unit.
        (units.new ≡ slice_set units.old number (begun_by unit cdb.now (asked cdb.now unit.count)).0)
        × (result ≡ task_in (Some number) (asked cdb.now unit.count) (begun_by unit cdb.now (asked cdb.now unit.count)).1)) }
    ensures counts { counts_of units.new ≡ counts_of units.old }
    ensures sound { IfSome result (IsSoundTask (counts_of units.new)) }
{
    begin_on(&mut units[number], number, cdb)
}

/// A command to a unit that isn't there: INQUIRY alone is executed.
fn missing_task(cdb: &[u8; CDB_BYTES]) -> Option<DeviceTask>
    ensures { result ≡ task_in None (asked_without_unit cdb.now) (progress_asked (work_asked_without_unit (asked_without_unit cdb.now))) }
{
    let asked = parse_without_unit(cdb);
    let work = match &asked {
        Ok(op) => work_without_unit(op),
        Err(sense) => Err(*sense),
    };
    task_in(None, &asked, progress_asked(&work))
}

impl Target {
    /// Receives the bytes of a unit (INCITS 471): `Began` where a task began on its tag, which may have ended at once,
    /// and `Dropped` where nothing came of them. A readable Command unit is executed as far as its data. A readable Task
    /// Management unit is done and answered by a Response (SAM): ABORT TASK ends the task that it names, where that is a
    /// command's to the addressed unit, LOGICAL UNIT RESET ends all of them and sets the unit's attention, and both are 00h;
    /// QUERY TASK ends nothing and is 08h where the tag that it names has a command of the addressed unit whose status wasn't sent,
    /// else 00h; each is 09h where no unit is addressed, and any other function is 04h. Bytes that are no unit are answered by 02h, where at
    /// least four came and the tag in bytes 2 and 3 is free and may have a task. What a device sends, and a unit whose tag no
    /// task may have, is dropped. `Overlap`, and nothing changes, where the tag of a readable Command or Task Management unit
    /// has a task.
    pub fn receive(&mut self, bytes: &[u8]) -> Result<Took, Overlap>
        ensures { (self.new, result) ≡ received self.old bytes.now }
    {
        match read(bytes) {
            Ok(Iu::Command { tag, lun, cdb }) => self.receive_command(tag, &lun, &cdb),
            Ok(
                Iu::Task {
                    tag,
                    function,
                    task_tag,
                    lun,
                },
            ) => self.receive_task(tag, function, task_tag, &lun),
            Ok(Iu::Sense { .. }) => Ok(Took::Dropped),
            Ok(Iu::Response { .. }) => Ok(Took::Dropped),
            Err(_) => Ok(self.receive_unreadable(bytes)),
        }
    }

    /// What comes of a readable unit that begins a task on a tag where none can begin: it is dropped where no task may have
    /// the tag, and an overlap where a task has it.
    fn refusal(&self, tag: u16) -> Option<Result<Took, Overlap>>
        ensures free { IfNone result ((has_place self.now tag ≡ true) × (task_of self.now tag ≡ None)) }
        ensures refused { IfSome result (λ refused. (after : Device) → on_its_tag self.now tag after ≡ (self.now, refused)) }
    {
        if !self.tasks.has_place(tag) {
            Some(Ok(Took::Dropped))
        } else if self.tasks.get(tag).is_some() {
            Some(Err(Overlap))
        } else {
            None
        }
    }

    fn receive_command(
        &mut self,
        tag: u16,
        lun: &[u8; LUN_BYTES],
        cdb: &[u8; CDB_BYTES],
    ) -> Result<Took, Overlap>
        ensures { (self.new, result) ≡ on_its_tag self.old tag (with_units_and_task self.old tag (executed self.old.units lun.now cdb.now)) }
    {
        if let Some(refused) = self.refusal(tag) {
            return refused;
        }
        let task = execute(&mut self.units, lun, cdb);
        self.tasks.set(tag, task);
        Ok(Took::Began(tag))
    }

    fn receive_task(
        &mut self,
        tag: u16,
        function: u8,
        task_tag: u16,
        lun: &[u8; LUN_BYTES],
    ) -> Result<Took, Overlap>
        ensures { (self.new, result) ≡ on_its_tag self.old tag (with_code tag (managed self.old function task_tag lun.now)) }
    {
        if let Some(refused) = self.refusal(tag) {
            return refused;
        }
        let code = self.manage(function, task_tag, lun);
        self.respond(tag, code);
        Ok(Took::Began(tag))
    }

    fn receive_unreadable(&mut self, bytes: &[u8]) -> Took
        ensures { (self.new, Ok result) ≡ received_unreadable self.old bytes.now (tag_in bytes.now) }
    {
        let [_, _, high, low, ..] = bytes else {
            return Took::Dropped;
        };
        let tag = u16::from_be_bytes([*high, *low]);
        if !self.tasks.has_place(tag) || self.tasks.get(tag).is_some() {
            return Took::Dropped;
        }
        self.respond(tag, INVALID_INFORMATION_UNIT);
        Took::Began(tag)
    }

    /// The task of a free tag has ended with a response code.
    fn respond(&mut self, tag: u16, code: u8)
        requires { has_place self.old tag ≡ true }
        ensures { self.new ≡ with_response self.old tag code }
    {
        let answer = DeviceAnswer::Response(code);
        self.tasks
            .put(tag, DeviceTask::Ended { unit: None, answer });
    }
}
