//! Task management (SAM): what ABORT TASK and LOGICAL UNIT RESET end, and what they and QUERY TASK are answered, at once or after what is
//! stale; and a reset of the whole device.
ghost use Rattle.std.specs.Prelude.{◌≡◌, map, slice_index};
ghost use Rattle.std.specs.List.{list_any};
ghost use Rattle.uas_target.specs.Fields.{addressed};
ghost use Rattle.uas_target.specs.Tasks.{is_at};
ghost use Rattle.uas_tasks.specs.Machine.{aborted_on, attentive, completed, managed, powered, powered_machine, queried_on, reset_machine, reset_on, reset_over, responded, slot_under, tasks_ended, without_command, without_its_task};
ghost use Rattle.uas_tasks.specs.Slots.{has_command, is_command_of, spared_slot};

use crate::slot::Slot;
use crate::stale::{count_anew, count_up};
use crate::{DeviceAnswer, LogicalUnit, Task, Tasks};
use host_commands::UnitAttention;
use uas_iu::{
    ABORT_TASK, INCORRECT_LUN, LOGICAL_UNIT_RESET, LUN_BYTES, NOT_SUPPORTED, QUERY_TASK,
    TASK_COMPLETE, TASK_SUCCEEDED,
};
use uas_target::unit_number;

impl Tasks {
    /// Resets the whole device (SAM): no tag has a task any more, and each logical unit has a unit attention. Requests that are
    /// out stay out until they are answered.
    pub fn reset(&mut self)
        ensures { self.new ≡ reset_machine self.old }
    {
        self.end_tasks();
        establish_attentions(&mut self.units);
    }

    /// The same where the device was powered on or reset with its bus, of which the attention tells.
    pub fn power_on(&mut self)
        ensures { self.new ≡ powered_machine self.old }
    {
        self.end_tasks();
        power_units(&mut self.units);
    }

    /// Ends every task without an answer (a device that is configured anew, USB 3.2, 9.4.7). Requests that are out stay out until they
    /// are answered.
    pub fn end_tasks(&mut self)
        ensures { self.new ≡ tasks_ended self.old }
    {
        end_all(&mut self.slots);
        count_anew(&mut self.stale, &self.slots);
    }

    /// Does a task management function on the logical unit that a LUN addresses; the task of its tag, which is to answer it.
    pub(crate) fn manage(&mut self, function: u8, tag: u16, lun: &[u8; LUN_BYTES]) -> Task
        ensures { (self.new, result) ≡ managed self.old function tag lun.now }
    {
        match function {
            ABORT_TASK => self.abort(tag, lun),
            LOGICAL_UNIT_RESET => self.reset_unit(lun),
            QUERY_TASK => self.query(tag, lun),
            _ => responded(NOT_SUPPORTED),
        }
    }

    fn abort(&mut self, tag: u16, lun: &[u8; LUN_BYTES]) -> Task
        ensures { (self.new, result) ≡ aborted_on self.old (slice_index lun.now 1) tag (addressed self.old.units lun.now) }
    {
        let Some(number) = unit_number(&self.units, lun) else {
            return responded(INCORRECT_LUN);
        };
        let ended = self.has_command(number, tag);
        self.end_command(number, tag);
        self.completed(number, ended)
    }

    /// The task of a tag is gone where it is a command's to the logical unit of this number.
    fn end_command(&mut self, number: usize, tag: u16)
        ensures { self.new ≡ without_command self.old number tag }
    {
        let place = usize::from(tag);
        if place != 0 && place <= self.slots.len() {
            let slot = &mut self.slots[place - 1];
            count_up(&mut self.stale, slot.stale_without(number));
            slot.end_command(number);
        }
    }

    /// The task that answers a function which is done, and which ended commands or didn't.
    fn completed(&self, number: usize, ended: bool) -> Task
        ensures { result ≡ completed self.now number ended }
    {
        if ended && self.has_stale(number) {
            Task::Held {
                unit: number,
                code: TASK_COMPLETE,
            }
        } else {
            responded(TASK_COMPLETE)
        }
    }

    fn reset_unit(&mut self, lun: &[u8; LUN_BYTES]) -> Task
        ensures { (self.new, result) ≡ reset_on self.old (slice_index lun.now 1) (addressed self.old.units lun.now) }
    {
        let Some(number) = unit_number(&self.units, lun) else {
            return responded(INCORRECT_LUN);
        };
        let ended = has_command_of(&self.slots, number);
        self.end_commands(number);
        let unit = self.units[number];
        let attention = reset_over(unit.attention);
        self.units[number] = LogicalUnit { attention, ..unit };
        self.completed(number, ended)
    }

    /// No tag has a command's task of the logical unit of this number any more.
    fn end_commands(&mut self, number: usize)
        ensures { self.new ≡ record self.old { slots = map (spared_slot number) self.old.slots } }
    {
        end_commands(&mut self.slots, number);
        count_anew(&mut self.stale, &self.slots);
    }

    fn query(&self, tag: u16, lun: &[u8; LUN_BYTES]) -> Task
        ensures { (self.now, result) ≡ queried_on self.now (slice_index lun.now 1) tag (addressed self.now.units lun.now) }
    {
        let Some(number) = unit_number(&self.units, lun) else {
            return responded(INCORRECT_LUN);
        };
        responded(if self.has_command(number, tag) {
            TASK_SUCCEEDED
        } else {
            TASK_COMPLETE
        })
    }

    fn has_command(&self, number: usize, tag: u16) -> bool
        ensures { result ≡ has_command number (slot_under self.now.slots tag) }
    {
        match self.slot(tag) {
            Some(slot) => slot.has_command(number),
            None => false,
        }
    }
}

/// A task that has ended with a Response of this code.
pub(crate) fn responded(code: u8) -> Task
    ensures { result ≡ responded code }
{
    Task::Ended {
        unit: None,
        answer: DeviceAnswer::Response(code),
    }
}

/// Whether a tag has a command's task of the logical unit of this number.
fn has_command_of(slots: &[Slot], number: usize) -> bool
    ensures { result ≡ list_any (has_command number) slots.now }
{
    slots.iter().any(|slot| slot.has_command(number))
}

/// No tag has a task any more.
fn end_all(slots: &mut [Slot])
    ensures { slots.new ≡ map without_its_task slots.old }
{
    for slot in slots.iter_mut() {
        slot.set(None);
    }
}

/// No tag has a command's task of the logical unit of this number any more.
fn end_commands(slots: &mut [Slot], number: usize)
    ensures { slots.new ≡ map (spared_slot number) slots.old }
{
    for slot in slots.iter_mut() {
        slot.end_command(number);
    }
}

/// Every logical unit has a unit attention.
fn establish_attentions(units: &mut [LogicalUnit])
    ensures { units.new ≡ map attentive units.old }
{
    for unit in units.iter_mut() {
        unit.attention = reset_over(unit.attention);
    }
}

/// Every logical unit has the unit attention of one that was powered on.
fn power_units(units: &mut [LogicalUnit])
    ensures { units.new ≡ map powered units.old }
{
    for unit in units.iter_mut() {
        unit.attention = Some(UnitAttention::PowerOn);
    }
}

/// The attention of a logical unit that was reset, which had this one; one that tells of more stays.
fn reset_over(attention: Option<UnitAttention>) -> Option<UnitAttention>
    ensures { result ≡ reset_over attention }
{
    match attention {
        Some(UnitAttention::PowerOn) => Some(UnitAttention::PowerOn),
        Some(UnitAttention::Reset) | None => Some(UnitAttention::Reset),
    }
}

impl Slot {
    /// Whether its task is a command's to the logical unit of this number.
    pub(crate) fn has_command(&self, number: usize) -> bool
        ensures { result ≡ has_command number self.now }
    {
        match self.task() {
            Some(task) => is_command_of(number, task),
            None => false,
        }
    }

    /// Its task is gone where it is a command's to the logical unit of this number.
    fn end_command(&mut self, number: usize)
        ensures { self.new ≡ spared_slot number self.old }
    {
        if self.has_command(number) {
            self.set(None);
        }
    }
}

/// Whether a task is a command's to the logical unit of this number.
fn is_command_of(number: usize, task: &Task) -> bool
    ensures { result ≡ is_command_of number task.now }
{
    match task {
        Task::Giving { unit, .. } => is_at(number, *unit),
        Task::Blocks { unit, .. } => *unit == number,
        Task::Ended { unit, answer } => match answer {
            DeviceAnswer::Status(_) => is_at(number, *unit),
            DeviceAnswer::Response(_) => false,
        },
        Task::Failed { unit, .. } => *unit == number,
        Task::Held { .. } => false,
    }
}

/// Whether this is the number of a logical unit.
fn is_at(number: usize, unit: Option<usize>) -> bool
    ensures { result ≡ is_at number unit }
{
    match unit {
        Some(found) => found == number,
        None => false,
    }
}
