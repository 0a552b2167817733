//! Task management (SAM): what ABORT TASK and LOGICAL UNIT RESET end, and what they and QUERY TASK are answered; and a reset of the
//! whole device.
ghost use Rattle.std.specs.Option.{option_map_or};
ghost use Rattle.std.specs.Prelude.{◌≡◌, ◌<◌, MatchOption, false, length, map, slice_get, slice_index, slice_set, true};
ghost use Rattle.block_unit.specs.BlockMaps.{with_attention};
ghost use Rattle.scsi_cmd.specs.Held.{held_under, with_held_under};
ghost use Rattle.uas_target.specs.Device.{aborted_on, managed, queried_on, reset_device, reset_on};
ghost use Rattle.uas_target.specs.Fields.{addressed};
ghost use Rattle.uas_target.specs.Soundness.{counts_of};
ghost use Rattle.uas_target.specs.Tasks.{is_at, is_command_of, spared};

use crate::receiver::unit_number;
use crate::table::TaskTable;
use crate::{DeviceAnswer, DeviceTask, Target};
use block_unit::Unit;
use uas_iu::{
    ABORT_TASK, INCORRECT_LUN, LOGICAL_UNIT_RESET, LUN_BYTES, NOT_SUPPORTED, QUERY_TASK,
    TASK_COMPLETE, TASK_SUCCEEDED,
};

impl Target {
    /// Resets the whole device (SAM): no tag has a task any more, and each logical unit has a unit attention. Blocks, medium and
    /// the number of tags stay.
    pub fn reset(&mut self)
        ensures { self.new ≡ reset_device self.old }
    {
        self.tasks.clear();
        establish_attentions(&mut self.units);
    }

    /// Does a task management function on the unit that a LUN addresses; its response code.
    pub(crate) fn manage(&mut self, function: u8, tag: u16, lun: &[u8; LUN_BYTES]) -> u8
        ensures { (self.new, result) ≡ managed self.old function tag lun.now }
    {
        match function {
            ABORT_TASK => self.abort(tag, lun),
            LOGICAL_UNIT_RESET => self.reset_unit(lun),
            QUERY_TASK => self.query(tag, lun),
            _ => NOT_SUPPORTED,
        }
    }

    fn abort(&mut self, tag: u16, lun: &[u8; LUN_BYTES]) -> u8
        ensures { (self.new, result) ≡ aborted_on self.old (slice_index lun.now 1) tag (addressed self.old.units lun.now) }
    {
        let Some(number) = unit_number(&self.units, lun) else {
            return INCORRECT_LUN;
        };
        self.tasks.end_command(number, tag);
        TASK_COMPLETE
    }

    fn reset_unit(&mut self, lun: &[u8; LUN_BYTES]) -> u8
        ensures { (self.new, result) ≡ reset_on self.old (slice_index lun.now 1) (addressed self.old.units lun.now) }
    {
        let Some(number) = unit_number(&self.units, lun) else {
            return INCORRECT_LUN;
        };
        self.tasks.end_commands(number);
        establish_attention(&mut self.units, number);
        TASK_COMPLETE
    }

    fn query(&self, tag: u16, lun: &[u8; LUN_BYTES]) -> u8
        ensures { (self.now, result) ≡ queried_on self.now (slice_index lun.now 1) tag (addressed self.now.units lun.now) }
    {
        let Some(number) = unit_number(&self.units, lun) else {
            return INCORRECT_LUN;
        };
        if self.tasks.has_command(number, tag) {
            TASK_SUCCEEDED
        } else {
            TASK_COMPLETE
        }
    }
}

/// The unit of this number has a unit attention.
fn establish_attention(units: &mut [Unit], number: usize)
    requires { number < length units.old }
    ensures unit { MatchOption (slice_get units.old number) ⊥ (λ unit. units.new ≡ slice_set units.old number (with_attention unit true)) }
    ensures counts { counts_of units.new ≡ counts_of units.old }
{
    units[number].set_attention(true);
}

/// Every unit has a unit attention.
fn establish_attentions(units: &mut [Unit])
    ensures units { units.new ≡ map (λ unit. with_attention unit true) units.old }
    ensures counts { counts_of units.new ≡ counts_of units.old }
{
    for unit in units.iter_mut() {
        unit.set_attention(true);
    }
}

impl TaskTable {
    /// Whether a tag has a command's task of the unit of this number.
    fn has_command(&self, number: usize, tag: u16) -> bool
        ensures { result ≡ option_map_or (is_command_of number) (held_under self.now tag) false }
    {
        match self.get(tag) {
            Some(task) => is_command_of(number, &task),
            None => false,
        }
    }

    /// The task of a tag is gone where it is a command's to the unit of this number.
    fn end_command(&mut self, number: usize, tag: u16)
        ensures task { self.new ≡ with_held_under self.old tag (spared number (held_under self.old tag)) }
        ensures places { length self.new ≡ length self.old }
    {
        let Some(task) = self.get(tag) else {
            return;
        };
        if is_command_of(number, &task) {
            self.remove(tag);
        }
    }

    /// So is that of every tag.
    fn end_commands(&mut self, number: usize)
        ensures { self.new ≡ map (spared number) self.old }
    {
        for slot in 0..self.tags() {
            self.end_command(number, slot + 1);
        }
    }
}

/// Whether a task is a command's to the unit of this number.
fn is_command_of(number: usize, task: &DeviceTask) -> bool
    ensures { result ≡ is_command_of number task.now }
{
    match task {
        DeviceTask::Moving { unit, .. } => is_at(number, *unit),
        DeviceTask::Ended { unit, answer } => match answer {
            DeviceAnswer::Status(_) => is_at(number, *unit),
            DeviceAnswer::Response(_) => false,
        },
    }
}

/// Whether this is the number of a unit.
fn is_at(number: usize, unit: Option<usize>) -> bool
    ensures { result ≡ is_at number unit }
{
    match unit {
        Some(found) => found == number,
        None => false,
    }
}
