//! The outcome of a step, by what host or controller answered.
ghost use Rattle.std.specs.Prelude.{◌≡◌, true, Some};
ghost use Rattle.std.specs.Option.{option_map_or};
ghost use Rattle.bus_core.specs.Owners.{acted_as, executed_as, managed_as, mark_on, submitted_as, taken_as};
ghost use Rattle.shared_machine.specs.declared.Mark.{Mark};
ghost use Rattle.shared_machine.specs.Shared.{acceptance, idle, refusal, ringing, task_refusal};
ghost use Rattle.bus_core.specs.WorldDue.{marked};
ghost use Rattle.uas_profile.specs.Tags.{AreTags};

use crate::owners::{index_of, mark_of, owner_of};
use crate::{Doorbells, Mark, Outcome, Refusal};
use scsi_cmd::{Command, Reply, SubmitFault};
use stream_array::Pipe;
use uas_host::Retirement;
use xhci_ctl::Acted;

/// The outcome of a step that wasn't due.
#[inline(always)]
pub(crate) fn idle() -> Outcome
    ensures { result ≡ idle }
{
    Outcome {
        acted: false,
        owner: None,
        mark: Mark::Quiet,
        reply: None,
        refused: None,
        doors: Doorbells::none(),
    }
}

/// The outcome of a step that acted for a client.
#[inline(always)]
fn acting(
    client: usize,
    mark: Mark,
    reply: Option<Reply>,
    refused: Option<Refusal>,
    doors: Doorbells,
) -> Outcome
    ensures { result ≡ record { acted = true; owner = Some client; mark = mark; reply = reply; refused = refused; doors = doors } }
{
    Outcome {
        acted: true,
        owner: Some(client),
        mark,
        reply,
        refused,
        doors,
    }
}

/// The outcome of a step that acted for a client, without a reply.
#[inline(always)]
fn marked(client: usize, mark: Mark) -> Outcome
    ensures { result ≡ marked client mark }
{
    acting(client, mark, None, None, Doorbells::none())
}

/// The outcome of a step on a pipe; those on the two data pipes are alike.
#[inline(always)]
pub(crate) fn on_pipe(tags: usize, pipe: Pipe, acted: Acted) -> Outcome
    requires { AreTags tags }
    ensures { result ≡ acted_as tags (mark_on pipe) acted }
{
    let Acted::Acted(tag) = acted else {
        return idle();
    };
    let index = index_of(tags, tag);
    let mark = match pipe {
        Pipe::Command => Mark::Carry(index),
        Pipe::Status => Mark::Send(index),
        Pipe::DataIn | Pipe::DataOut => Mark::Move(index),
    };
    marked(owner_of(tags, tag), mark)
}

/// The outcome of a step that acted for a client, told nothing and rang these doorbells.
#[inline(always)]
pub(crate) fn ringing(client: usize, doors: Doorbells) -> Outcome
    ensures { result ≡ ringing client doors }
{
    acting(client, Mark::Quiet, None, None, doors)
}

/// The outcome of a step of the controller's own command ring: it is the retirement's.
#[inline(always)]
pub(crate) fn executed(retirement: Option<Retirement>, acted: Acted) -> Outcome
    ensures { result ≡ executed_as retirement acted }
{
    match (acted, retirement) {
        (Acted::Acted(_), Some(retirement)) => { marked(retirement.place.client, Mark::Quiet) }
        // No command waits but a retirement's (`FitsEngine`).
        (Acted::Acted(_), None) | (Acted::Idle, _) => idle(),
    }
}

/// The outcome of an event: by the client that it was of, if there is one, and the doorbells that were rung at it.
#[inline(always)]
pub(crate) fn seen(client: Option<usize>, doors: Doorbells) -> Outcome
    ensures { result ≡ option_map_or (λ client. ringing client doors) client idle }
{
    match client {
        Some(client) => ringing(client, doors),
        None => idle(),
    }
}

/// The outcome of a Take: that of its reply, where there is one.
#[inline(always)]
pub(crate) fn taken(tags: usize, client: usize, reply: Option<Reply>) -> Outcome
    requires { AreTags tags }
    ensures { result ≡ taken_as tags client reply }
{
    if reply.is_none() {
        return idle();
    }
    acting(
        client,
        mark_of(tags, &reply),
        reply,
        None,
        Doorbells::none(),
    )
}

/// The outcome of a submission under a tag, by the host's answer and the doorbells that were rung.
#[inline(always)]
pub(crate) fn submitted(
    tags: usize,
    client: usize,
    tag: u16,
    answer: Result<(), (SubmitFault, Command)>,
    doors: Doorbells,
) -> Outcome
    requires { AreTags tags }
    ensures { result ≡ submitted_as tags client tag doors answer }
{
    match answer {
        Ok(()) => accepted(client, Mark::Submit(index_of(tags, tag)), doors),
        Err((fault, command)) => refused(client, fault, command),
    }
}

/// The outcome of a refused submission.
#[inline(always)]
fn refused(client: usize, fault: SubmitFault, command: Command) -> Outcome
    ensures { result ≡ refusal client fault command }
{
    let command = Some(command);
    let refused = Some(Refusal { fault, command });
    acting(client, Mark::Quiet, None, refused, Doorbells::none())
}

/// The outcome of a task management, by the host's answer and the doorbells that were rung.
#[inline(always)]
pub(crate) fn managed(client: usize, answer: Result<(), SubmitFault>, doors: Doorbells) -> Outcome
    ensures { result ≡ managed_as client doors answer }
{
    match answer {
        Ok(()) => accepted(client, Mark::Task, doors),
        Err(fault) => refused_task(client, fault),
    }
}

/// The outcome of a refused task management.
#[inline(always)]
fn refused_task(client: usize, fault: SubmitFault) -> Outcome
    ensures { result ≡ task_refusal client fault }
{
    let refused = Some(Refusal {
        fault,
        command: None,
    });
    acting(client, Mark::Quiet, None, refused, Doorbells::none())
}

/// The outcome of a client's submission that was accepted, with its mark and the doorbells that it rang.
#[inline(always)]
fn accepted(client: usize, mark: Mark, doors: Doorbells) -> Outcome
    ensures { result ≡ acceptance client mark doors }
{
    acting(client, mark, None, None, doors)
}
