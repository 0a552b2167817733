//! A script's run as `replay` makes it, with the bytes that its commands moved.

ghost use Rattle.std.specs.Prelude.{◌≡◌, [], None, false, IfOk, IfErr, OnOk};
ghost use Rattle.byte_io.specs.Disks.{AreDisks};
ghost use Rattle.uas_replay.specs.Told.{told, whole_run, zeroed_units};
ghost use Rattle.uas_replay.specs.Runs.{StopsBy};
ghost use Rattle.capture_run.specs.Moved.{taker, with_handed, with_reply};

use crate::urbs::Transfers;
use bus_core::{Outcome, Step};
use byte_io::Disks;
use scsi_cmd::{Buffer, Reply};
use std::alloc::{AllocError, Global};
use uas_replay::{COMMAND_FAILED, DONE, RunFault, ScriptRun, Watcher};
use uas_script::Line;

/// What a run told, and the bytes that its commands moved.
#[derive(Drop)]
pub(crate) struct Kept {
    pub(crate) text: Vec<u8>,
    pub(crate) status: u8,
    pub(crate) transfers: Transfers,
}

/// Keeps the bytes that commands move: those that they are handed in with, then those that come back with their replies.
#[derive(Drop)]
struct Keeper {
    alloc: Global,
    transfers: Transfers,
}

impl<W> Watcher<W> for Keeper {
    ghost can_fail = { λ _. false };

    ghost shown = { λ _ _. None };

    ghost text_of = { λ _ _. [] };

    fn act(
        &mut self,
        writer: &mut W,
        run: &mut ScriptRun,
        step: Step,
    ) -> Result<Outcome, RunFault> {
        self.keep_handed(&step).map_err(|_| RunFault::NoMemory)?;
        let taker = taker(&step);
        let outcome = run.act(step);
        self.keep_reply(taker, &outcome.reply)
            .map_err(|_| RunFault::NoMemory)?;
        Ok(outcome)
    }

    fn act_all(
        &mut self,
        writer: &mut W,
        run: &mut ScriptRun,
        limit: usize,
    ) -> Result<(), RunFault> {
        run.act_all(limit);
        Ok(())
    }

    fn hear(&mut self, writer: &mut W, told: &[u8]) -> Result<(), RunFault> {
        Ok(())
    }
}

/// The client that takes a reply by a step.
fn taker(step: &Step) -> usize
    ensures { result ≡ taker step.now }
{
    match step {
        Step::Take(client) => *client,
        _ => 0,
    }
}

impl Keeper {
    /// Keeps the bytes that a command is handed in with.
    fn keep_handed(&mut self, step: &Step) -> Result<(), AllocError>
        ensures { OnOk result (self.new.transfers ≡ with_handed self.old.transfers step.now) }
    {
        match step {
            Step::Submit {
                client,
                command,
                ..
            } => {
                let bytes = command.buffer.try_clone(self.alloc)?;
                self.transfers.push(*client, bytes)
            }
            Step::Task { client, .. } => self.transfers.push(*client, Buffer::empty(self.alloc)),
            _ => Ok(()),
        }
    }

    /// Keeps the bytes that come back with a reply.
    fn keep_reply(&mut self, client: usize, reply: &Option<Reply>) -> Result<(), AllocError>
        ensures { OnOk result (self.new.transfers ≡ with_reply self.old.transfers client reply.now) }
    {
        match reply {
            Some(Reply::Status { ticket, buffer, .. })
            | Some(Reply::Aborted { ticket, buffer, .. }) => {
                let bytes = buffer.try_clone(self.alloc)?;
                self.transfers.set(client, *ticket, bytes);
                Ok(())
            }
            _ => Ok(()),
        }
    }
}

/// Runs lines on zeroed units, and keeps what they told and moved.
#[tactic(auto, unfolding(uas_replay::specs::Told::told))]
pub(crate) fn run_kept(alloc: Global, disks: Disks, lines: &[Line]) -> Result<Kept, RunFault>
    requires { AreDisks disks }
    ensures text { IfOk result (λ kept. kept.text.items ≡ (told disks.tags (zeroed_units disks.clients disks.blocks disks.bad) lines.now).0) }
    ensures status { IfOk result (λ kept. kept.status ≡ (told disks.tags (zeroed_units disks.clients disks.blocks disks.bad) lines.now).1) }
    ensures fault { IfErr result (StopsBy false) }
{
    let Ok(transfers) = Transfers::new(alloc, disks.clients) else {
        return Err(RunFault::NoMemory);
    };
    let mut keeper = Keeper { alloc, transfers };
    let run = whole_run(alloc, disks, &mut keeper, lines)?;
    let Ok(text) = Vec::from_slice(alloc, run.text()) else {
        return Err(RunFault::NoMemory);
    };
    let status = if run.has_failed() {
        COMMAND_FAILED
    } else {
        DONE
    };
    let Keeper { transfers, .. } = keeper;
    Ok(Kept {
        text,
        status,
        transfers,
    })
}

/// The run of lines on zeroed units.
fn whole_run(
    alloc: Global,
    disks: Disks,
    keeper: &mut Keeper,
    lines: &[Line],
) -> Result<ScriptRun, RunFault>
    requires { AreDisks disks }
    ensures run { IfOk result (λ run. run.telling ≡ whole_run disks.tags (zeroed_units disks.clients disks.blocks disks.bad) lines.now) }
    ensures fault { IfErr result (StopsBy false) }
{
    let Ok(mut run) = ScriptRun::new(alloc, disks) else {
        return Err(RunFault::NoMemory);
    };
    run.whole(keeper, &mut (), lines)?;
    Ok(run)
}
