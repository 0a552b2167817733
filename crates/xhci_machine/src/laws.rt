//! What follows of what a call of [`crate::Machine::work`] makes, as functions with empty bodies. Where it is of tags it is of UAS: in Bulk-Only's
//! alternate setting no tag has a step.
ghost use Rattle.std.specs.Prelude.{◌≡◌, ℕ, ◌<◌, ◌≤◌, true, false, ◌⊎◌, is_some};
ghost use Rattle.guest_transfers.specs.declared.control.StreamPipe.{StreamPipe};
ghost use Rattle.xhci_machine.specs.Rounds.{command_pipe_stepped, control_stepped, data_of, stray_stepped, status_of};
ghost use Rattle.xhci_machine.specs.Steps.{commands_stepped};
ghost use Rattle.xhci_machine.specs.Wanted.{acts_on_data, command_pipe_looked, commands_looked, control_looked, stray_looked, lacks_nothing, tag_looked};
ghost use Rattle.xhci_machine.specs.declared.work.Worked.{Worked};
ghost use Rattle.xhci_machine.specs.Laws.{AllAreLeftIdle, AllTasksAreIdle, HasItsTurn, IsFailed, IsLeftIdle};
ghost use Rattle.guest_tasks.specs.Active.{TasksAreActive};
ghost use Rattle.xhci_machine.specs.Turns.{World};
ghost use Rattle.xhci_machine.specs.Worked.{RoundsWorked, round_turned};

use guest_tasks::GuestTasks;

/// A round of 489 steps or more that isn't cut off by a host system error comes to each tag, in their order, and each that is active then has
/// its turn, with steps left for its data and its status.
pub fn each_tag_has_its_turn()
    ensures { (at after : World × ℕ) (tag : ℕ) → 489 ≤ at.1 → tag < 241 → round_turned at ≡ (after, true) → HasItsTurn at tag }
{}

/// In a round that took no step nothing could be done for any tag that is active.
pub fn no_step_leaves_nothing()
    ensures { (at after : World × ℕ) (tag : ℕ) → 0 < at.1 → at.1 ≤ after.1 → tag < 241 → round_turned at ≡ (after, true) → IsLeftIdle at tag }
{}

/// Where there is no more to do at once, a host system error was told, or nothing could be done for any active tag in the round in which
/// this very call ended.
pub fn no_more_leaves_nothing()
    ensures { (budget : ℕ) (w after : World) (worked : Worked) (it : RoundsWorked budget w after worked) → worked.more ≡ false
        → IsFailed after ⊎ AllAreLeftIdle it.at }
{}

/// Each tag with a task is active, and stays so over a call.
pub fn tasks_stay_active()
    ensures { (budget : ℕ) (w after : World) (worked : Worked) → RoundsWorked budget w after worked → TasksAreActive w.machine.device
        → TasksAreActive after.machine.device }
{
    guest_tasks::tasks_stay_active();
}

/// Where each tag with a task is active and there is no more to do at once, a host system error was told, or nothing could be done for any task
/// in the round in which this very call ended.
pub fn no_task_is_left_out()
    ensures { (budget : ℕ) (w after : World) (worked : Worked) (it : RoundsWorked budget w after worked) → worked.more ≡ false
        → TasksAreActive w.machine.device → IsFailed after ⊎ AllTasksAreIdle it.at }
{
    guest_tasks::tasks_stay_active();
}

/// A command that lacks nothing isn't refused for want of memory.
pub fn commands_that_lack_nothing_are_taken()
    ensures { (w : World) → lacks_nothing (commands_looked w.memory w.machine w.events) ≡ true → is_some (commands_stepped w).1 ≡ true }
{
    xhci_slots::what_lacks_nothing_is_executed();
}

/// A step of endpoint 0 likewise.
pub fn control_that_lacks_nothing_is_stepped()
    ensures { (w : World) → lacks_nothing (control_looked w.memory w.machine w.events) ≡ true → is_some (control_stepped w).1 ≡ true }
{
    xhci_control::what_lacks_nothing_is_taken();
}

/// And one of the tasks' pipes: of a tag's status where the step is surely not of its data.
pub fn pipes_that_lack_nothing_are_stepped()
    ensures of_command { (w : World) → lacks_nothing (command_pipe_looked w.memory w.machine w.events) ≡ true → is_some (command_pipe_stepped w).1 ≡ true }
    ensures of_stray { (w : World) (name : StreamPipe) → lacks_nothing (stray_looked w.memory w.machine w.events name) ≡ true
        → is_some (stray_stepped w name).1 ≡ true }
    ensures of_data { (w : World) (tag : ℕ) → lacks_nothing (tag_looked w.memory w.machine w.events tag) ≡ true → is_some (data_of w tag).1 ≡ true }
    ensures of_status { (w : World) (tag : ℕ) → lacks_nothing (tag_looked w.memory w.machine w.events tag) ≡ true
        → acts_on_data w.memory w.machine tag ≡ false → is_some (status_of w tag).1 ≡ true }
{
    guest_transfers::what_lacks_nothing_is_taken::<GuestTasks>();
    guest_bulk::what_lacks_nothing_is_taken::<GuestTasks>();
}
