//! A device without blocks behind the pipes of a controller over a caller's memory.
//!
//! [`GuestTasks`] is a `uas_tasks::Tasks` as the device of `guest_tags`: chunks of at most 4,096 bytes of what it gives and takes, its answers,
//! and what comes of an information unit, by `tasks_kind`. A tag whose request to the backend is to be asked or is out does nothing, and so
//! does one that waits for a stale request of its logical unit: its TDs wait. An information unit that overlaps is of the tag in its bytes 2 and 3.
//!
//! It also keeps which tags are active: those on which an information unit came since they were last found without a task. So nobody has to
//! go over tags that have nothing to do. They are a part of the device's state, so the equation of each call has them: [`GuestTasks::receive`]
//! adds a tag (`active_after`), [`GuestTasks::rest`] takes one away (`rested`), and no other call changes them.
#![tactic(auto)]

ghost use Rattle.std.specs.Prelude.{◌≡◌, ℕ, List, ◌≤◌, ◌<◌, IfSome, IfNone, Some, None, get_or, option_map, length, min, slice_index, true, false};
ghost use Rattle.marks.specs.Marks.{is_marked};
ghost use Rattle.uas_iu.specs.Units.{IsTextOf, unit_text};
ghost use Rattle.uas_target.specs.Fields.{tag_in};
ghost use Rattle.uas_tasks.specs.Machine.{Machine, answer_on, answered, has_task, next_of, opening, quiet, powered_machine, received, tasks_ended, wanted};
ghost use Rattle.guest_tags.specs.Devices.{IsChunk, Kind};
ghost use Rattle.guest_tasks.specs.declared.GuestTasks.{GuestTasks};
ghost use Rattle.uas_tasks.specs.declared.Outcome.{Outcome};
ghost use Rattle.guest_tasks.specs.Active.{IsIdle, TasksAreActive, active_after, asks_on, is_active, is_asking, rested, set_active, with_active};
ghost use Rattle.guest_tasks.specs.Tasks.{end_of, end_of_status, gives_of, phase_of, received_as, received_told, takes_of, tasks_kind, text_of};

use arrayvec::ArrayVec;
use guest_tags::{End, Phase, Received, UasDevice};
use marks::Marks;
use uas_iu::Iu;
use uas_profile::STATUS_BYTES;
use uas_target::{Overlap, Took};
use uas_tasks::{Next, Tasks, Wants};

/// The greatest chunk, in bytes.
const CHUNK_BYTES: usize = 4096;

/// There is a mark for each tag below this one.
const TAG_PLACES: u16 = 256;

const _: () = prove!(TAG_PLACES == 256);

/// A device without blocks, and which of its tags are active.
#[derive(Debug, Drop)]
pub struct GuestTasks {
    pub tasks: Tasks,
    active: Marks<4>,
}

fn end_of_status(good: bool) -> End
    ensures { result ≡ end_of_status good }
{
    if good { End::Good } else { End::Check }
}

/// How a task ended, by the information unit that answers it.
fn end_of(answer: &Option<Iu>) -> End
    ensures { result ≡ end_of answer.now }
{
    match answer {
        Some(Iu::Sense { status, .. }) => end_of_status(*status == 0),
        Some(Iu::Command { .. }) | Some(Iu::Response { .. }) | Some(Iu::Task { .. }) | None => {
            End::Response
        }
    }
}

fn gives_of(bytes: usize) -> Phase
    ensures phase { result ≡ gives_of bytes }
    ensures chunk { IsChunk result }
{
    match bytes {
        0 => Phase::Absent,
        _ => Phase::Gives(bytes.min(CHUNK_BYTES)),
    }
}

fn takes_of(bytes: usize) -> Phase
    ensures phase { result ≡ takes_of bytes }
    ensures chunk { IsChunk result }
{
    match bytes {
        0 => Phase::Absent,
        _ => Phase::Takes(bytes.min(CHUNK_BYTES)),
    }
}

/// What came of received bytes.
fn received_as(bytes: &[u8], took: Result<Took, Overlap>) -> Received
    ensures { result ≡ received_as bytes.now took }
{
    match took {
        Ok(Took::Began(tag)) => Received::Began(tag),
        Ok(Took::Dropped) => Received::Dropped,
        Err(Overlap) => Received::Overlap(tag_of(bytes)),
    }
}

/// The byte at a place, 0 where there is none.
fn byte_at(bytes: &[u8], place: usize) -> u8
    ensures { result ≡ slice_index bytes.now place }
{
    match bytes.get(place) {
        Some(byte) => *byte,
        None => 0,
    }
}

/// The tag in bytes 2 and 3.
fn tag_of(bytes: &[u8]) -> u16
    ensures { result ≡ tag_in bytes.now }
{
    256 * u16::from(byte_at(bytes, 2)) + u16::from(byte_at(bytes, 3))
}

/// A tag is active from now on.
fn mark(active: &mut Marks<4>, tag: u16)
    ensures { active.new ≡ with_active active.old tag }
{
    if tag < TAG_PLACES {
        active.set(usize::from(tag), true);
    }
}

/// The tag is active on which an information unit came.
fn mark_received(active: &mut Marks<4>, received: Received)
    ensures { active.new ≡ active_after active.old received }
{
    match received {
        Received::Began(tag) | Received::Overlap(tag) => mark(active, tag),
        Received::Dropped => (),
    }
}

impl GuestTasks {
    /// A device behind the pipes, without an active tag.
    pub fn new(tasks: Tasks) -> GuestTasks
        ensures tasks { result.tasks ≡ tasks }
        ensures active { IsIdle result }
        ensures begins { ((tag : ℕ) → has_task tasks tag ≡ false) → TasksAreActive result }
    {
        GuestTasks {
            tasks,
            active: Marks::new(),
        }
    }

    /// A device behind the pipes whose tasks were restored, with an active tag where a mark is set.
    pub fn restored(tasks: Tasks, marks: &[bool]) -> GuestTasks
        requires { length marks.now ≡ 256 }
        ensures tasks { result.tasks ≡ tasks }
        ensures active { (tag : ℕ) → tag < 256 → is_marked result.active tag ≡ get_or marks.now tag false }
    {
        let mut device = GuestTasks::new(tasks);
        for tag in 0..TAG_PLACES {
            device.set_active(tag, marks[usize::from(tag)]);
        }
        device
    }

    /// Whether a tag is active.
    pub fn is_active(&self, tag: u16) -> bool
        ensures { result ≡ is_active self.now tag }
    {
        tag < TAG_PLACES && self.active.is_marked(usize::from(tag))
    }

    /// A tag is active from now on, or isn't any more, where it may have a mark.
    pub fn set_active(&mut self, tag: u16, active: bool)
        ensures device { self.new ≡ set_active self.old tag active }
        ensures tasks { self.new.tasks ≡ self.old.tasks }
        ensures here { tag < 256 → is_marked self.new.active tag ≡ active }
        ensures others { (other : ℕ) → (other ≡ tag → ⊥) → is_marked self.new.active other ≡ is_marked self.old.active other }
        ensures room { length self.new.active ≡ length self.old.active }
    {
        if tag < TAG_PLACES {
            self.active.set(usize::from(tag), active);
        }
    }

    /// The first active tag from one on.
    pub fn next_active(&self, from: u16) -> Option<u16>
        ensures next { IfSome result (λ tag. (from ≤ tag) × (tag < 256) × (is_marked self.now.active tag ≡ true)
            × ((other : ℕ) → from ≤ other → other < tag → is_marked self.now.active other ≡ false)) }
        ensures none { IfNone result ((other : ℕ) → from ≤ other → is_marked self.now.active other ≡ false) }
    {
        match self.active.next_from(usize::from(from)) {
            Some(tag) => Some(tag as u16),
            None => None,
        }
    }

    /// A tag that has no task isn't active any more, until an information unit comes on it.
    pub fn rest(&mut self, tag: u16)
        ensures rested { self.new ≡ rested self.old tag }
        ensures tasks { self.new.tasks ≡ self.old.tasks }
        ensures here { wanted self.old.tasks tag ≡ Wants.Absent → tag < 256 → is_marked self.new.active tag ≡ false }
        ensures busy { (wanted self.old.tasks tag ≡ Wants.Absent → ⊥) → self.new ≡ self.old }
        ensures others { (other : ℕ) → (other ≡ tag → ⊥) → is_marked self.new.active other ≡ is_marked self.old.active other }
    {
        if tag < TAG_PLACES && matches!(self.tasks.wants(tag), Wants::Absent) {
            self.active.set(usize::from(tag), false);
        }
    }

    /// Whether a tag's request is to be asked.
    fn asks(&self, tag: u16) -> bool
        ensures { result ≡ is_asking (wanted self.now.tasks tag) }
    {
        matches!(self.tasks.wants(tag), Wants::Asks)
    }

    /// The first active tag from one on whose request is to be asked.
    fn next_asking(&self, from: u16) -> Option<u16>
        ensures next { IfSome result (λ tag. (from ≤ tag) × (asks_on self.now tag ≡ true)
            × ((other : ℕ) → from ≤ other → other < tag → asks_on self.now other ≡ false)) }
        ensures none { IfNone result ((other : ℕ) → from ≤ other → asks_on self.now other ≡ false) }
    {
        let mut tag = from;
        while let Some(active) = self.next_active(tag) {
            if self.asks(active) {
                return Some(active);
            }
            tag = active + 1;
        }
        None
    }

    /// The next request that is to be asked, of the active tags from one on: it is out from then on.
    pub fn next_request(&mut self, from: u16) -> Option<Next>
        ensures asks { IfSome result (λ next. (tag : ℕ) × (from ≤ tag) × (asks_on self.old tag ≡ true)
            × ((other : ℕ) → from ≤ other → other < tag → asks_on self.old other ≡ false)
            × ((self.new.tasks, next) ≡ next_of self.old.tasks tag)) }
        ensures none { IfNone result ((self.new ≡ self.old) × ((other : ℕ) → from ≤ other → asks_on self.old other ≡ false)) }
        ensures active { self.new.active ≡ self.old.active }
    {
        match self.next_asking(from) {
            Some(tag) => Some(self.tasks.next(tag)),
            None => None,
        }
    }

    /// A reset of the device by its bus: no tag has a task, and each logical unit owes the unit attention of one that was powered on.
    pub fn power_on(&mut self)
        ensures { self.new ≡ record self.old { tasks = powered_machine self.old.tasks } }
    {
        self.tasks.power_on();
    }

    /// Ends every task without an answer.
    pub fn end_tasks(&mut self)
        ensures { self.new ≡ record self.old { tasks = tasks_ended self.old.tasks } }
    {
        self.tasks.end_tasks();
    }
}

impl UasDevice for GuestTasks {
    ghost State = { Self };

    ghost state = { λ device. device };

    ghost kind = { tasks_kind };

    fn phase(&self, tag: u16) -> Phase {
        match self.tasks.wants(tag) {
            Wants::Absent | Wants::Asks | Wants::Waits => Phase::Absent,
            Wants::Gives(bytes) => gives_of(bytes),
            Wants::Takes(bytes) => takes_of(bytes),
            Wants::Ends => Phase::Ended(end_of(&self.tasks.status_of(tag))),
        }
    }

    #[tactic(auto, using(crate::specs::Laws::may_give, crate::specs::Laws::gives_chunk))]
    fn give(&mut self, tag: u16, into: &mut [u8]) -> bool {
        self.tasks.give(tag, into);
        true
    }

    #[tactic(auto, using(crate::specs::Laws::may_take))]
    fn take(&mut self, tag: u16, bytes: &[u8]) -> bool {
        self.tasks.take(tag, bytes);
        true
    }

    #[tactic(auto, using(crate::specs::Laws::empty_items, crate::specs::Laws::ended_ends))]
    fn write_status(&self, tag: u16, text: &mut ArrayVec<u8, STATUS_BYTES>) {
        self.tasks.write_status(tag, text);
    }

    #[tactic(auto, using(crate::specs::Laws::ended_ends))]
    fn sent(&mut self, tag: u16) {
        self.tasks.sent(tag);
    }

    fn receive(&mut self, bytes: &[u8]) -> Received {
        let took = self.tasks.receive(bytes);
        let received = received_as(bytes, took);
        mark_received(&mut self.active, received);
        received
    }
}

/// Each tag with a task is active, and stays so with each call: law.
pub fn tasks_stay_active()
    ensures received { (device : GuestTasks) (bytes : List ℕ) → TasksAreActive device → TasksAreActive (tasks_kind.received device bytes).0 }
    ensures gave { (device : GuestTasks) (tag : ℕ) → TasksAreActive device → TasksAreActive (tasks_kind.gave device tag) }
    ensures took { (device : GuestTasks) (tag : ℕ) (bytes : List ℕ) → TasksAreActive device → TasksAreActive (tasks_kind.took device tag bytes) }
    ensures sent { (device : GuestTasks) (tag : ℕ) → TasksAreActive device → TasksAreActive (tasks_kind.sent device tag) }
    ensures rested { (device : GuestTasks) (tag : ℕ) → TasksAreActive device → TasksAreActive (rested device tag) }
    ensures asked { (device : GuestTasks) (tag : ℕ) → TasksAreActive device → TasksAreActive (record device { tasks = (next_of device.tasks tag).0 }) }
    ensures answered { (device : GuestTasks) (number : ℕ) (outcome : Outcome) (bytes : List ℕ) → TasksAreActive device
        → TasksAreActive (record device { tasks = (answered device.tasks number outcome bytes).0 }) }
    ensures ended { (device : GuestTasks) → TasksAreActive device → TasksAreActive (record device { tasks = tasks_ended device.tasks }) }
    ensures powered { (device : GuestTasks) → TasksAreActive device → TasksAreActive (record device { tasks = powered_machine device.tasks }) }
{}
