// Task managements of clients.
ghost use Rattle.std.specs.Prelude.{◌≡◌, ◌+◌, ◌++◌, [], ◌∷◌, ◌<◌, ◌≤◌, ◌^◌, MatchOption, IfSome, None, Ok, Err, Some, length, take};
ghost use Rattle.uas_profile.specs.declared.TheConstants.{MAX_CLIENTS, STREAMS};
ghost use Rattle.arrayvec.specs.ArrayVec.{array_vec_len};
ghost use Rattle.uas_profile.specs.Doors.{answer_doors};
ghost use Rattle.uas_host.specs.Retirement.{is_held};
ghost use Rattle.uas_host.specs.State.{client_of};
ghost use Rattle.uas_host.specs.Submit.{IsFree};
ghost use Rattle.uas_profile.specs.Tags.{AreTags, command_slot, slot_of, task_slot};
ghost use Rattle.uas_host.specs.Tasks.{client_task_fault, has_task, is_held_at, managed, managed_client, noted_by, task_entry, task_fault, task_tag};
ghost use Rattle.uas_host.specs.Tasks.{tickets_of, with_task_unit};
ghost use Rattle.uas_host.specs.Tds.{pushed_task, HasTaskRoom};

use crate::tags::task_tag_of;
use crate::tds::push_task;
use crate::units::write_task;
use crate::{Host, HostAnswer, HostClient, HostEntry, TdState};
use arrayvec::ArrayVec;
use frame_store::Frames;
use scsi_cmd::{Request, SubmitFault, Task};
use stream_array::Lines;
use uas_profile::{MOST_TAGS, STREAM_ENTRIES, TASK_SLOT, slot_of, task_slot};

/// Adds the ticket of what is held.
fn push_ticket(tickets: &mut ArrayVec<u64, TASK_SLOT>, held: &Option<HostEntry>)
    requires { array_vec_len tickets.old < TASK_SLOT }
    ensures tickets { tickets.new.items ≡ tickets.old.items ++ tickets_of (held.now ∷ []) }
    ensures most { array_vec_len tickets.new ≤ array_vec_len tickets.old + 1 }
{
    if let Some(entry) = held {
        tickets.push(entry.ticket);
    }
}

/// The tickets of the commands of a client with so many tags, by rising slot.
fn command_tickets(
    tags: usize,
    entries: &[Option<HostEntry>; MOST_TAGS],
) -> ArrayVec<u64, TASK_SLOT>
    requires { AreTags tags }
    ensures { result.items ≡ tickets_of (take (task_slot tags) entries.now) }
{
    let mut tickets = ArrayVec::new();
    for slot in 0..task_slot(tags) {
        push_ticket(&mut tickets, &entries[slot]);
    }
    tickets
}

/// The ticket of what is held.
fn ticket_of(held: &Option<HostEntry>) -> ArrayVec<u64, TASK_SLOT>
    ensures { result.items ≡ tickets_of (held.now ∷ []) }
{
    let mut tickets = ArrayVec::new();
    push_ticket(&mut tickets, held);
    tickets
}

impl HostEntry {
    /// What the host has under a task tag once a task management was submitted.
    fn managing(ticket: u64, task: Task, noted: ArrayVec<u64, TASK_SLOT>) -> HostEntry
        ensures { result ≡ task_entry ticket task noted }
    {
        HostEntry {
            ticket,
            request: Request::Manage { task, noted },
            told: HostAnswer::Unanswered,
            command_td: TdState::Pending,
            status_td: TdState::Pending,
            data_td: None,
        }
    }
}

impl HostClient {
    /// The tickets that a task management notes, of a client with so many tags. Tag 0, which is none, is read as tag 1.
    fn noted_by(&self, tags: usize, task: Task) -> ArrayVec<u64, TASK_SLOT>
        requires { AreTags tags }
        ensures { result.items ≡ noted_by tags self.now task }
    {
        match task {
            Task::Abort { tag } | Task::Query { tag } => {
                ticket_of(&self.entries[slot_of(tags, tag.max(1))])
            }
            Task::Reset => command_tickets(tags, &self.entries),
        }
    }

    fn manage(&mut self, tags: usize, ticket: u64, task: Task)
        requires tags { AreTags tags }
        requires ticket { ticket < 2 ^ 60 }
        ensures { self.new ≡ managed_client tags self.old ticket task }
    {
        let noted = self.noted_by(tags, task);
        self.entries[task_slot(tags)] = Some(HostEntry::managing(ticket, task, noted));
        self.least_ticket = ticket + 1;
    }
}

impl Host {
    /// Whether there is what a task management of a client that is there is to manage.
    fn has_task(&self, client: usize, task: Task) -> bool
        requires { client < length self.now.clients }
        ensures { result ≡ has_task self.now.tags (length self.now.clients) client (client_of self.now client) task }
    {
        match task {
            Task::Reset => true,
            Task::Abort { tag } | Task::Query { tag } => match self.command_slot(client, tag) {
                Some(slot) => self.clients[client].entries[slot].is_some(),
                None => false,
            },
        }
    }

    /// The first fault of a task management, if there is one.
    fn task_fault(&self, client: usize, ticket: u64, task: Task) -> Option<SubmitFault>
        ensures fault { result ≡ task_fault self.now client ticket task }
        ensures known { result ≡ None → (client < length self.now.clients) × (client < MAX_CLIENTS) × (task_tag self.now.tags client ≤ STREAMS)
            × IsFree (client_of self.now client) (task_slot self.now.tags) }
    {
        if self.clients.len() <= client {
            return Some(SubmitFault::NotYours);
        }
        let has_task = self.has_task(client, task);
        let held = &self.clients[client];
        scsi_cmd::task_fault(
            true,
            held.entries[task_slot(self.tags)].is_some(),
            held.least_ticket,
            ticket,
            has_task,
        )
    }

    /// Notes a task management of a client whose task tag is free.
    fn manage(&mut self, client: usize, ticket: u64, task: Task)
        requires client { client < length self.old.clients }
        requires ticket { ticket < 2 ^ 60 }
        requires free { IsFree (client_of self.old client) (task_slot self.old.tags) }
        ensures { self.new ≡ managed self.old client ticket task }
    {
        self.clients[client].manage(self.tags, ticket, task);
    }

    /// Submits a client's task management under its task tag. The first fault is answered, and nothing changes:
    /// `NotYours` where there is no such client, `InUse` where something is under the task tag, `OutOfTurn` where
    /// the ticket is below the least one, `NoSuchTask` where the tag to abort or to query holds no command of the
    /// client that was submitted and isn't yet taken. The tickets that it is to end, or asks after, are noted now. The doorbell of the status
    /// stream is left out while that pipe is held. Asks a ticket below `2^60`, room for two doorbells, and where
    /// there is no fault room on the two rings. Nothing is lent.
    pub fn task(
        &mut self,
        lines: &mut Lines,
        frames: &mut Frames,
        doors: &mut ArrayVec<u32, STREAM_ENTRIES>,
        client: usize,
        ticket: u64,
        task: Task,
    ) -> Result<(), SubmitFault>
        requires ticket { ticket < 2 ^ 60 }
        requires room { task_fault self.old client ticket task ≡ None → HasTaskRoom lines.old (task_tag self.old.tags client) }
        requires doors { array_vec_len doors.old + 2 ≤ STREAM_ENTRIES }
        ensures { MatchOption (task_fault self.old client ticket task)
            ((result ≡ Ok (record {}))
            × (self.new ≡ managed self.old client ticket task)
            × (lines.new ≡ pushed_task lines.old (task_tag self.old.tags client))
            × (frames.new ≡ with_task_unit self.old.tags frames.old client task)
            × (doors.new.items ≡ doors.old.items ++ answer_doors (is_held self.old) (task_tag self.old.tags client)))
            (λ fault. (result ≡ Err fault)
            × (self.new ≡ self.old) × (lines.new ≡ lines.old) × (frames.new ≡ frames.old) × (doors.new ≡ doors.old)) }
    {
        if let Some(fault) = self.task_fault(client, ticket, task) {
            return Err(fault);
        }
        let tag = task_tag_of(self.tags, client);
        write_task(frames, self.tags, client as u8, task);
        push_task(lines, tag);
        self.ring_answer(doors, tag);
        self.manage(client, ticket, task);
        Ok(())
    }
}
