ghost use Rattle.std.specs.Prelude.{◌≡◌, ℕ, suc, ◌+◌, ◌^◌, ◌<◌, ◌≤◌, IfNone, IfSome, MatchOption, true, false, length, map, slice_set};
ghost use Rattle.std.specs.Prelude.{option_and_then, option_map, is_some, option_to_list, ◌++◌, if◌then◌else◌};
ghost use Rattle.std.specs.Option.{option_map_or};
ghost use Rattle.arrayvec.specs.ArrayVec.{array_vec_len};
ghost use Rattle.uas_profile.specs.Tags.{AreTags, task_slot};
ghost use Rattle.scsi_cmd.specs.Held.{AllHeld, held_at};
ghost use Rattle.solo_model.specs.Soundness.{IsSound};
ghost use Rattle.solo_model.specs.TaggedTask.{after_notes, carried, ended_next, finds, moved, sent, reply_of};
ghost use Rattle.solo_model.specs.Solo.{IsCarried, TicketFits, applied, heeded, is_command_index, is_there, noted_tickets, opening};
ghost use Rattle.solo_model.specs.Solo.{slot_under, solo_step, tickets_of};

use crate::{
    Label, NotARun, Solo, TaggedTask, Task, carry, move_chunk, reply, send, submit_fault,
    task_fault,
};
use arrayvec::ArrayVec;
use block_unit::Unit;
use scsi_cmd::{Command, Reply};
use uas_profile::{MOST_TAGS, TAGS, TASK_SLOT, task_slot};

impl Solo {
    /// A client with the usual number of tags that has submitted nothing yet, with this unit.
    pub fn new(unit: Unit) -> Solo
        ensures { result ≡ opening TAGS unit }
    {
        Solo::with_tags(unit, TAGS)
    }

    /// The same with so many tags.
    pub fn with_tags(unit: Unit, tags: usize) -> Solo
        requires { AreTags tags }
        ensures { result ≡ opening tags unit }
    {
        Solo {
            tags,
            unit,
            tasks: std::array::from_fn(|_| None),
            least_ticket: 0,
        }
    }

    /// How many tags the client has.
    pub fn tags(&self) -> usize
        ensures is { result ≡ self.now.tags }
        ensures are { AreTags result }
    {
        self.tags
    }

    /// The unit.
    pub fn unit(&self) -> &Unit
        ensures { result.now ≡ self.now.unit }
    {
        &self.unit
    }

    /// One step: the reply of a settled task, under its index as the tag, and nothing at the other steps. The label
    /// is `NotARun`, and nothing changes, exactly where the machine has no such step. Takes no memory.
    pub fn apply(&mut self, label: Label) -> Result<Option<Reply>, NotARun>
        requires { TicketFits label }
        ensures { applied self.old (solo_step self.old label) ≡ (self.new, result) }
    {
        match label {
            Label::Submit(index, ticket, command) => self.submit(index, ticket, command),
            Label::Task(ticket, task) => self.manage(ticket, task),
            Label::Carry(index) => self.carry(index),
            Label::Move(index) => self.move_chunk(index),
            Label::Send(index) => self.send(index),
            Label::Settle(index) => self.settle(index),
        }
    }
}

impl Solo {
    fn submit(
        &mut self,
        index: u16,
        ticket: u64,
        command: Command,
    ) -> Result<Option<Reply>, NotARun>
        requires { ticket < 2 ^ 60 }
        ensures { applied self.old (solo_step self.old (Label.Submit index ticket command)) ≡ (self.new, result) }
    {
        let Some(slot) = command_slot(self.tags, index) else {
            return Err(NotARun);
        };
        let in_use = self.tasks[slot].is_some();
        if submit_fault(true, in_use, self.least_ticket, ticket, &command).is_some() {
            return Err(NotARun);
        }
        self.tasks[slot] = Some(TaggedTask::new(ticket, command));
        self.least_ticket = ticket + 1;
        Ok(None)
    }

    fn manage(&mut self, ticket: u64, task: Task) -> Result<Option<Reply>, NotARun>
        requires { ticket < 2 ^ 60 }
        ensures { applied self.old (solo_step self.old (Label.Task ticket task)) ≡ (self.new, result) }
    {
        let task_slot = task_slot(self.tags);
        let in_use = self.tasks[task_slot].is_some();
        let there = is_there(self.tags, &self.tasks, &task);
        if task_fault(true, in_use, self.least_ticket, ticket, there).is_some() {
            return Err(NotARun);
        }
        let noted = noted_tickets(self.tags, &self.tasks, &task);
        self.tasks[task_slot] = Some(TaggedTask::management(ticket, task, noted));
        self.least_ticket = ticket + 1;
        Ok(None)
    }

    fn carry(&mut self, index: u16) -> Result<Option<Reply>, NotARun>
        ensures { applied self.old (solo_step self.old (Label.Carry index)) ≡ (self.new, result) }
    {
        match slot_of(index) {
            Some(slot) => run_if(carry_slot(&mut self.unit, &mut self.tasks, slot)),
            None => Err(NotARun),
        }
    }

    fn move_chunk(&mut self, index: u16) -> Result<Option<Reply>, NotARun>
        ensures { applied self.old (solo_step self.old (Label.Move index)) ≡ (self.new, result) }
    {
        match slot_of(index) {
            Some(slot) => run_if(move_at(&mut self.unit, &mut self.tasks, slot)),
            None => Err(NotARun),
        }
    }

    fn send(&mut self, index: u16) -> Result<Option<Reply>, NotARun>
        ensures { applied self.old (solo_step self.old (Label.Send index)) ≡ (self.new, result) }
    {
        match slot_of(index) {
            Some(slot) => run_if(send_at(&mut self.tasks, slot)),
            None => Err(NotARun),
        }
    }

    fn settle(&mut self, index: u16) -> Result<Option<Reply>, NotARun>
        ensures { applied self.old (solo_step self.old (Label.Settle index)) ≡ (self.new, result) }
    {
        let settled = match slot_of(index) {
            Some(slot) => settle_at(&mut self.tasks, slot, index),
            None => None,
        };
        match settled {
            Some(reply) => Ok(Some(reply)),
            None => Err(NotARun),
        }
    }
}

/// A step without a reply, where it is one.
fn run_if(acted: bool) -> Result<Option<Reply>, NotARun>
    ensures { result ≡ (if acted then Ok None else Err (record {})) }
{
    if acted { Ok(None) } else { Err(NotARun) }
}

/// The slot of an index that has a place.
fn slot_of(index: u16) -> Option<usize>
    ensures { result ≡ slot_under index }
{
    if 1 <= index && usize::from(index) <= MOST_TAGS {
        Some(usize::from(index) - 1)
    } else {
        None
    }
}

/// Whether what is to be managed is there: of an abort and a query the command under its index, of a reset always.
fn is_there(tags: usize, tasks: &[Option<TaggedTask>; MOST_TAGS], task: &Task) -> bool
    requires { AreTags tags }
    ensures { result ≡ is_there tags tasks.now task.now }
{
    match task {
        Task::Abort { tag } | Task::Query { tag } => match command_slot(tags, *tag) {
            Some(slot) => tasks[slot].is_some(),
            None => false,
        },
        Task::Reset => true,
    }
}

/// The slot of a command's index.
fn command_slot(tags: usize, index: u16) -> Option<usize>
    requires { AreTags tags }
    ensures none { IfNone result (is_command_index tags index ≡ false) }
    ensures some { IfSome result (λ slot. (slot < task_slot tags) × (suc slot ≡ index) × (is_command_index tags index ≡ true)) }
{
    match slot_of(index) {
        Some(slot) if slot < task_slot(tags) => Some(slot),
        _ => None,
    }
}

/// The tickets that a task management notes: an abort and a query that of the command under its index, a reset those of all
/// commands that were submitted and not settled.
fn noted_tickets(tags: usize, tasks: &[Option<TaggedTask>], task: &Task) -> ArrayVec<u64, TASK_SLOT>
    requires tags { AreTags tags }
    requires tasks { length tasks.now ≡ MOST_TAGS }
    ensures { result.items ≡ noted_tickets tags tasks.now task.now }
{
    match task {
        Task::Abort { tag } | Task::Query { tag } => match command_slot(tags, *tag) {
            Some(slot) => tickets_in(&tasks[slot..slot + 1]),
            None => ArrayVec::new(),
        },
        Task::Reset => tickets_in(&tasks[..task_slot(tags)]),
    }
}

/// The tickets of the tasks of these places, in their order.
fn tickets_in(tasks: &[Option<TaggedTask>]) -> ArrayVec<u64, TASK_SLOT>
    requires { length tasks.now ≤ TASK_SLOT }
    ensures { result.items ≡ tickets_of tasks.now }
{
    let mut tickets = ArrayVec::new();
    for task in tasks {
        note(&mut tickets, ticket_of(task));
    }
    tickets
}

fn note(tickets: &mut ArrayVec<u64, TASK_SLOT>, ticket: Option<u64>)
    requires { array_vec_len tickets.old < TASK_SLOT }
    ensures { tickets.new.items ≡ tickets.old.items ++ option_to_list ticket }
{
    if let Some(ticket) = ticket {
        tickets.push(ticket);
    }
}

fn ticket_of(task: &Option<TaggedTask>) -> Option<u64>
    ensures { result ≡ option_map (λ task. task.ticket) task.now }
{
    match task {
        Some(task) => Some(task.ticket()),
        None => None,
    }
}

/// The tickets of the commands that the task of a slot ends, where it is a task management that is to be carried next.
fn ended_at(tasks: &[Option<TaggedTask>], slot: usize) -> Option<ArrayVec<u64, TASK_SLOT>>
    requires { slot < length tasks.now }
    ensures { result ≡ option_and_then ended_next (held_at tasks.now slot) }
{
    tasks[slot].as_ref()?.ended_next()
}

/// Whether the device has a task that the task of a slot noted, as a task management.
fn finds_at(tasks: &[Option<TaggedTask>], slot: usize) -> bool
    requires { slot < length tasks.now }
    ensures { result ≡ option_map_or (λ task. finds task.request tasks.now) (held_at tasks.now slot) false }
{
    match &tasks[slot] {
        Some(task) => task.finds(tasks),
        None => false,
    }
}

/// The same of these tickets, where there are any.
fn heed_noted(tasks: &mut [Option<TaggedTask>], noted: Option<ArrayVec<u64, TASK_SLOT>>)
    ensures { tasks.new ≡ heeded noted tasks.old }
{
    if let Some(noted) = noted {
        heed_all(tasks, &noted);
    }
}

/// A task management that ends these tickets is carried: each command of one of them is gone, where its answer wasn't handed
/// over.
fn heed_all(tasks: &mut [Option<TaggedTask>], noted: &[u64])
    ensures { tasks.new ≡ map (option_map (after_notes noted.now)) tasks.old }
{
    for task in tasks.iter_mut() {
        heed(task, noted);
    }
}

fn heed(task: &mut Option<TaggedTask>, noted: &[u64])
    ensures { task.new ≡ option_map (after_notes noted.now) task.old }
{
    if let Some(task) = task {
        task.heed(noted);
    }
}

/// The device receives the request of a slot: a task management first ends commands whose tickets it noted.
fn carry_slot(unit: &mut Unit, tasks: &mut [Option<TaggedTask>], slot: usize) -> bool
    requires slot { slot < length tasks.old }
    requires sound { AllHeld (IsSound unit.old.count) tasks.old }
    ensures carried { IsCarried unit.old (heeded (option_and_then ended_next (held_at tasks.old slot)) tasks.old) slot
        (option_map_or (λ task. finds task.request tasks.old) (held_at tasks.old slot) false) result unit.new tasks.new }
    ensures sound { AllHeld (IsSound unit.new.count) tasks.new }
{
    let found = finds_at(tasks, slot);
    let ended = ended_at(tasks, slot);
    heed_noted(tasks, ended);
    carry_at(unit, tasks, slot, found)
}

fn carry_at(unit: &mut Unit, tasks: &mut [Option<TaggedTask>], slot: usize, found: bool) -> bool
    requires slot { slot < length tasks.old }
    requires sound { AllHeld (IsSound unit.old.count) tasks.old }
    ensures carried { IsCarried unit.old tasks.old slot found result unit.new tasks.new }
    ensures sound { AllHeld (IsSound unit.new.count) tasks.new }
{
    match &mut tasks[slot] {
        Some(task) => carry(unit, found, task),
        None => false,
    }
}

fn move_at(unit: &mut Unit, tasks: &mut [Option<TaggedTask>], slot: usize) -> bool
    requires slot { slot < length tasks.old }
    requires sound { AllHeld (IsSound unit.old.count) tasks.old }
    ensures moved { MatchOption (option_and_then (moved unit.old) (held_at tasks.old slot))
        ((result ≡ false) × (unit.new ≡ unit.old) × (tasks.new ≡ tasks.old))
        (λ after. (result ≡ true) × (unit.new ≡ after.0) × (tasks.new ≡ slice_set tasks.old slot (Some after.1))) }
    ensures sound { AllHeld (IsSound unit.new.count) tasks.new }
{
    match &mut tasks[slot] {
        Some(task) => move_chunk(unit, task),
        None => false,
    }
}

fn send_at(tasks: &mut [Option<TaggedTask>], slot: usize) -> bool
    requires slot { slot < length tasks.old }
    ensures sent { MatchOption (option_and_then sent (held_at tasks.old slot))
        ((result ≡ false) × (tasks.new ≡ tasks.old))
        (λ task. (result ≡ true) × (tasks.new ≡ slice_set tasks.old slot (Some task))) }
    ensures sound { (count : ℕ) → AllHeld (IsSound count) tasks.old → AllHeld (IsSound count) tasks.new }
{
    match &mut tasks[slot] {
        Some(task) => send(task),
        None => false,
    }
}

fn settle_at(tasks: &mut [Option<TaggedTask>], slot: usize, tag: u16) -> Option<Reply>
    requires slot { slot < length tasks.old }
    ensures reply { result ≡ option_and_then (reply_of tag) (held_at tasks.old slot) }
    ensures tasks { tasks.new ≡ (if is_some result then slice_set tasks.old slot None else tasks.old) }
    ensures sound { (count : ℕ) → AllHeld (IsSound count) tasks.old → AllHeld (IsSound count) tasks.new }
{
    if !has_reply(&tasks[slot]) {
        return None;
    }
    match tasks[slot].take() {
        Some(task) => reply(tag, task),
        None => None,
    }
}

fn has_reply(task: &Option<TaggedTask>) -> bool
    ensures { (tag : ℕ) → result ≡ is_some (option_and_then (reply_of tag) task.now) }
{
    match task {
        Some(task) => task.has_reply(),
        None => false,
    }
}
