//! The tasks by tag, each as it is kept (`Kept`), with what its data is.
ghost use Rattle.std.specs.Prelude.{◌≡◌, ℕ, ◌<◌, ◌≤◌, nat_lt, nat_le, ◌&&◌, false, None, Some, IfOk, IfSome, IfNone, IsSome, is_some, length, option_and_then, replicate};
ghost use Rattle.std.specs.Option.{option_copied, option_map_or, unwrap_or};
ghost use Rattle.scsi_cmd.specs.Held.{held_under, with_held_under};
ghost use Rattle.uas_target.specs.Device.{task_of};
ghost use Rattle.uas_target.specs.Soundness.{IsSoundTask, counts_of};
ghost use Rattle.uas_target.specs.Tasks.{task_fits, task_given, task_left, task_taken, task_wants};

use crate::chunks::{give_held, take_held};
use crate::moved::Kept;
use crate::{DeviceTask, Phase, Target};
use block_unit::Unit;
use marks::Marks;
use std::alloc::{AllocError, Global};
use std::marker::Model;
use uas_profile::STREAMS;

/// Words of 64 marks, enough for the places of as many tags as there are streams.
const TAG_WORDS: usize = 4;

const _: () = prove!(TAG_WORDS == 4 && (STREAMS as usize) <= 64 * TAG_WORDS);

/// A place for the task of each tag, 1 to as many as there are places, which stands there as it is kept; contracts see the list
/// of the tasks, tag 1 first.
#[derive(Debug, Drop)]
pub(crate) struct TaskTable {
    places: Vec<Option<Kept>>,
    /// The places that hold a task.
    marks: Marks<TAG_WORDS>,
}

impl Model for TaskTable {
    ghost use Rattle.std.specs.Prelude.{◌≤◌, List, Option, length};
    ghost use Rattle.uas_target.specs.declared.DeviceTask.{DeviceTask};
    ghost use Rattle.uas_profile.specs.declared.TheConstants.{STREAMS};
    ghost use Rattle.uas_target.specs.Marks.{MarksHeld};

    ghost Value = { List (Option DeviceTask) };

    ghost view = { λ table. table.places.items };

    ghost invariant = { λ table. (length table.places.items ≤ STREAMS) × MarksHeld table.marks table.places.items };
}

impl TaskTable {
    /// No task of any of so many tags.
    pub(crate) fn new(alloc: Global, tags: u16) -> Result<TaskTable, AllocError>
        requires { tags ≤ STREAMS }
        ensures tasks { IfOk result (λ table. table ≡ replicate tags None) }
        ensures places { IfOk result (λ table. length table ≡ tags) }
    {
        Ok(TaskTable {
            places: vec![in alloc; None; usize::from(tags)]?,
            marks: Marks::new(),
        })
    }

    /// How many tags there are.
    pub(crate) fn tags(&self) -> u16
        ensures { result ≡ length self.now }
    {
        self.places.len() as u16
    }

    /// Whether a task may have this tag: 1 to as many as there are places.
    pub(crate) fn has_place(&self, tag: u16) -> bool
        ensures { result ≡ (nat_lt 0 tag && nat_le tag (length self.now)) }
    {
        tag != 0 && usize::from(tag) <= self.places.len()
    }

    /// The task of a tag.
    pub(crate) fn get(&self, tag: u16) -> Option<DeviceTask>
        ensures task { result ≡ held_under self.now tag }
        ensures tag { IfSome result (λ _. (1 ≤ tag) × (tag ≤ length self.now)) }
    {
        match self.kept(tag) {
            Some(kept) => Some(kept.task),
            None => None,
        }
    }

    /// The task of a tag as it is kept, in its place.
    #[inline(always)]
    pub(crate) fn kept(&self, tag: u16) -> Option<&Kept>
        ensures task { option_copied result ≡ held_under self.now tag }
        ensures tag { IfSome result (λ _. (1 ≤ tag) × (tag ≤ length self.now)) }
    {
        if tag == 0 {
            return None;
        }
        match self.places.get(usize::from(tag) - 1) {
            Some(Some(kept)) => Some(kept),
            Some(None) | None => None,
        }
    }

    /// The least tag above this one that has a task.
    fn next(&self, tag: u16) -> Option<u16>
        ensures next { IfSome result (λ next. (tag < next) × (next ≤ length self.now) × IsSome (held_under self.now next)
            × ((other : ℕ) → tag < other → other < next → held_under self.now other ≡ None)) }
        ensures none { IfNone result ((other : ℕ) → tag < other → held_under self.now other ≡ None) }
    {
        let place = self.marks.next_from(usize::from(tag))?;
        Some(place as u16 + 1)
    }

    /// No tag has a task any more, and there are as many as before.
    pub(crate) fn clear(&mut self)
        ensures { self.new ≡ replicate (length self.old) None }
    {
        self.marks = Marks::new();
        self.places.fill(None);
    }

    /// Gives a tag a task.
    #[inline(always)]
    pub(crate) fn put(&mut self, tag: u16, task: DeviceTask)
        requires least { 1 ≤ tag }
        requires most { tag ≤ length self.old }
        ensures task { self.new ≡ with_held_under self.old tag (Some task) }
        ensures places { length self.new ≡ length self.old }
    {
        let place = usize::from(tag) - 1;
        self.marks.set(place, true);
        self.places[place] = Some(Kept::of(task));
    }

    /// Takes the task of a tag away.
    #[inline(always)]
    pub(crate) fn remove(&mut self, tag: u16)
        requires least { 1 ≤ tag }
        requires most { tag ≤ length self.old }
        ensures task { self.new ≡ with_held_under self.old tag None }
        ensures places { length self.new ≡ length self.old }
    {
        let place = usize::from(tag) - 1;
        self.marks.set(place, false);
        self.places[place] = None;
    }

    /// Gives a tag a task, or takes it away.
    #[inline(always)]
    pub(crate) fn set(&mut self, tag: u16, task: Option<DeviceTask>)
        requires least { 1 ≤ tag }
        requires most { tag ≤ length self.old }
        ensures task { self.new ≡ with_held_under self.old tag task }
        ensures places { length self.new ≡ length self.old }
    {
        match task {
            Some(task) => self.put(tag, task),
            None => self.remove(tag),
        }
    }

    /// Gives the next chunk of a tag's task, which stays in its place: false at a bad block.
    #[inline(always)]
    pub(crate) fn give(&mut self, units: &[Unit], tag: u16, bytes: &mut [u8]) -> bool
        requires sound { IfSome (held_under self.old tag) (IsSoundTask (counts_of units.now)) }
        requires wanted { option_map_or task_wants (held_under self.old tag) Phase.Absent ≡ Phase.Gives (length bytes.old) }
        ensures good { result ≡ is_some (option_and_then (task_given units.now) (held_under self.old tag)) }
        ensures bytes { bytes.new ≡ unwrap_or (option_and_then (task_given units.now) (held_under self.old tag)) bytes.old }
        ensures task { self.new ≡ with_held_under self.old tag (option_and_then (task_left units.now) (held_under self.old tag)) }
        ensures sound { IfSome (option_and_then (task_left units.now) (held_under self.old tag)) (IsSoundTask (counts_of units.now)) }
    {
        give_held(&mut self.places[usize::from(tag) - 1], units, bytes)
    }

    /// Takes `bytes` as the next chunk of a tag's task, which stays in its place: false at a bad block.
    #[inline(always)]
    pub(crate) fn take(&mut self, units: &mut [Unit], tag: u16, bytes: &[u8]) -> bool
        requires sound { IfSome (held_under self.old tag) (IsSoundTask (counts_of units.old)) }
        requires wanted { option_map_or task_wants (held_under self.old tag) Phase.Absent ≡ Phase.Takes (length bytes.now) }
        ensures good { result ≡ option_map_or (task_fits units.old) (held_under self.old tag) false }
        ensures units { units.new ≡ option_map_or (task_taken units.old bytes.now) (held_under self.old tag) units.old }
        ensures counts { counts_of units.new ≡ counts_of units.old }
        ensures task { self.new ≡ with_held_under self.old tag (option_and_then (task_left units.old) (held_under self.old tag)) }
        ensures sound { IfSome (option_and_then (task_left units.old) (held_under self.old tag)) (IsSoundTask (counts_of units.new)) }
    {
        take_held(&mut self.places[usize::from(tag) - 1], units, bytes)
    }
}

impl Target {
    /// The least tag above this one that has a task.
    pub fn next_task(&self, tag: u16) -> Option<u16>
        ensures next { IfSome result (λ next. (tag < next) × (next ≤ length self.now.tasks) × IsSome (task_of self.now next)
            × ((other : ℕ) → tag < other → other < next → task_of self.now other ≡ None)) }
        ensures none { IfNone result ((other : ℕ) → tag < other → task_of self.now other ≡ None) }
    {
        self.tasks.next(tag)
    }
}
