//! A log of clients of 8 tags, brought over to clients of 16.
ghost use Rattle.std.specs.Prelude.{◌≡◌, ◌≤◌, length, map, IfOk};
ghost use Rattle.log_text.specs.declared.MigrateFault.TheVariants.{NoMemory};
ghost use Rattle.log_text.specs.Migration.{Migrates, migrated, moved_log, moved_reply, moved_saved, moved_step, moved_tag, moved_task};
ghost use Rattle.log_text.specs.Text.{IsWithin};

use crate::{MigrateFault, SavedLog, SavedReplies, SavedReply, Version};
use scsi_cmd::{Reply, Task};
use shared_machine::Step;
use std::alloc::{AllocError, AllocFailed, Global};
use uas_log::{BlockBytes, BlockNumbers, FirstUnit, FirstUnits, Steps};

impl From<AllocError> for MigrateFault {
    ghost from_gives = { λ _ fault. fault ≡ NoMemory };

    fn from(_error: AllocError) -> MigrateFault {
        MigrateFault::NoMemory
    }
}

impl<T: Drop> From<AllocFailed<T>> for MigrateFault {
    ghost from_gives = { λ _ fault. fault ≡ NoMemory };

    fn from(_error: AllocFailed<T>) -> MigrateFault {
        MigrateFault::NoMemory
    }
}

#[tactic(auto, unfolding(crate::specs::Migration::moved_tag))]
fn moved_tag(clients: usize, tag: u16) -> u16
    requires { clients ≤ 15 }
    ensures { result ≡ moved_tag clients tag }
{
    if tag == 0 || usize::from(tag) > 8 * clients {
        return 0;
    }
    if tag % 8 == 0 {
        2 * tag
    } else {
        tag + 8 * (tag / 8)
    }
}

fn moved_task(clients: usize, task: Task) -> Task
    requires { clients ≤ 15 }
    ensures { result ≡ moved_task clients task }
{
    match task {
        Task::Abort { tag } => Task::Abort {
            tag: moved_tag(clients, tag),
        },
        Task::Reset => Task::Reset,
        Task::Query { tag } => Task::Query {
            tag: moved_tag(clients, tag),
        },
    }
}

fn moved_step(clients: usize, step: Step) -> Step
    requires { clients ≤ 15 }
    ensures { result ≡ moved_step clients step }
{
    match step {
        Step::Submit {
            client,
            tag,
            ticket,
            command,
        } => Step::Submit {
            client,
            tag: moved_tag(clients, tag),
            ticket,
            command,
        },
        Step::Task {
            client,
            ticket,
            task,
        } => Step::Task {
            client,
            ticket,
            task: moved_task(clients, task),
        },
        Step::CommandPipe => Step::CommandPipe,
        Step::Data(tag) => Step::Data(moved_tag(clients, tag)),
        Step::Status(tag) => Step::Status(moved_tag(clients, tag)),
        Step::Engine => Step::Engine,
        Step::Event => Step::Event,
        Step::Retire(pipe, tag) => Step::Retire(pipe, moved_tag(clients, tag)),
        Step::Take(client) => Step::Take(client),
    }
}

fn moved_reply(clients: usize, reply: Reply) -> Reply
    requires { clients ≤ 15 }
    ensures { result ≡ moved_reply clients reply }
{
    match reply {
        Reply::Status {
            tag,
            ticket,
            status,
            sense,
            buffer,
        } => Reply::Status {
            tag: moved_tag(clients, tag),
            ticket,
            status,
            sense,
            buffer,
        },
        Reply::Aborted {
            tag,
            ticket,
            buffer,
        } => Reply::Aborted {
            tag: moved_tag(clients, tag),
            ticket,
            buffer,
        },
        Reply::Task { tag, ticket, code } => Reply::Task {
            tag: moved_tag(clients, tag),
            ticket,
            code,
        },
    }
}

fn copied_unit(alloc: Global, unit: &FirstUnit) -> Result<FirstUnit, AllocError>
    ensures { IfOk result (λ copy. copy ≡ unit.now) }
{
    Ok(FirstUnit {
        blocks: BlockBytes::from_vec(Vec::from_slice(alloc, unit.blocks.as_slice())?),
        bad: BlockNumbers::from_vec(Vec::from_slice(alloc, unit.bad.as_slice())?),
    })
}

fn copied_units(alloc: Global, units: &[FirstUnit]) -> Result<Vec<FirstUnit>, AllocError>
    ensures { IfOk result (λ copies. copies.items ≡ units.now) }
{
    let mut copies = Vec::with_capacity(alloc, units.len())?;
    for unit in units {
        copies.push(copied_unit(alloc, unit)?)?;
    }
    Ok(copies)
}

fn copied_steps(alloc: Global, steps: &[Step]) -> Result<Vec<Step>, AllocError>
    ensures { IfOk result (λ copies. copies.items ≡ steps.now) }
{
    let mut copies = Vec::with_capacity(alloc, steps.len())?;
    for step in steps {
        copies.push(step.try_clone(alloc)?)?;
    }
    Ok(copies)
}

fn moved_steps(alloc: Global, clients: usize, steps: &[Step]) -> Result<Vec<Step>, AllocError>
    requires { clients ≤ 15 }
    ensures { IfOk result (λ moved. moved.items ≡ map (moved_step clients) steps.now) }
{
    let mut moved = Vec::with_capacity(alloc, steps.len())?;
    for step in steps {
        moved.push(moved_step(clients, step.try_clone(alloc)?))?;
    }
    Ok(moved)
}

fn copied_saved(alloc: Global, saved: &SavedReply) -> Result<SavedReply, AllocError>
    ensures { IfOk result (λ copy. copy ≡ saved.now) }
{
    Ok(SavedReply {
        client: saved.client,
        reply: saved.reply.try_clone(alloc)?,
    })
}

fn moved_saved(alloc: Global, clients: usize, saved: &SavedReply) -> Result<SavedReply, AllocError>
    requires { clients ≤ 15 }
    ensures { IfOk result (λ moved. moved ≡ moved_saved clients saved.now) }
{
    Ok(SavedReply {
        client: saved.client,
        reply: moved_reply(clients, saved.reply.try_clone(alloc)?),
    })
}

fn copied_replies(alloc: Global, replies: &[SavedReply]) -> Result<Vec<SavedReply>, AllocError>
    ensures { IfOk result (λ copies. copies.items ≡ replies.now) }
{
    let mut copies = Vec::with_capacity(alloc, replies.len())?;
    for saved in replies {
        copies.push(copied_saved(alloc, saved)?)?;
    }
    Ok(copies)
}

fn moved_replies(
    alloc: Global,
    clients: usize,
    replies: &[SavedReply],
) -> Result<Vec<SavedReply>, AllocError>
    requires { clients ≤ 15 }
    ensures { IfOk result (λ moved. moved.items ≡ map (moved_saved clients) replies.now) }
{
    let mut moved = Vec::with_capacity(alloc, replies.len())?;
    for saved in replies {
        moved.push(moved_saved(alloc, clients, saved)?)?;
    }
    Ok(moved)
}

/// The log again.
fn copied(alloc: Global, log: &SavedLog) -> Result<SavedLog, AllocError>
    ensures { IfOk result (λ copy. copy ≡ log.now) }
{
    let units = copied_units(alloc, log.units.as_slice())?;
    let steps = copied_steps(alloc, log.steps.as_slice())?;
    let replies = copied_replies(alloc, log.replies.as_slice())?;
    Ok(SavedLog {
        version: log.version,
        units: FirstUnits::from_vec(units),
        steps: Steps::from_vec(steps),
        replies: SavedReplies::from_vec(replies),
    })
}

/// The log with its tags renumbered.
fn moved(alloc: Global, log: &SavedLog) -> Result<SavedLog, AllocError>
    requires { length log.now.units ≤ 15 }
    ensures { IfOk result (λ moved. moved ≡ moved_log log.now) }
{
    let clients = log.units.len();
    let units = copied_units(alloc, log.units.as_slice())?;
    let steps = moved_steps(alloc, clients, log.steps.as_slice())?;
    let replies = moved_replies(alloc, clients, log.replies.as_slice())?;
    Ok(SavedLog {
        version: Version::Second,
        units: FirstUnits::from_vec(units),
        steps: Steps::from_vec(steps),
        replies: SavedReplies::from_vec(replies),
    })
}

/// A log of clients of 16 tags: of client c the tag 8c + i becomes 16c + i and 8c + 8 becomes 16c + 16, a tag of no client
/// becomes 0, and all else stays. A log of 16 tags comes back equal. `TooManyClients` for 8 tags and more than 15 clients.
pub fn migrate(alloc: Global, log: &SavedLog) -> Result<SavedLog, MigrateFault>
    ensures { Migrates result (migrated log.now) }
{
    match log.version {
        Version::Second => Ok(copied(alloc, log)?),
        Version::First => {
            if log.units.len() > Version::Second.most_clients() {
                return Err(MigrateFault::TooManyClients);
            }
            Ok(moved(alloc, log)?)
        }
    }
}
