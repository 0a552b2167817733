//! What is told of a run once its threads have ended: a line of each client, and whether its audit is true.

ghost use Rattle.std.specs.Prelude.{◌≡◌, ◌≤◌, map, IfErr, IfOk};
ghost use Rattle.byte_io.specs.Disks.{AreClients};
ghost use Rattle.uas_work.specs.Booked.{first_unit};
ghost use Rattle.uas_work.specs.Rounds.{IsDepth};
ghost use Rattle.work_run.specs.WorkEnds.{Audited, GivesUp, work_units};

use crate::Load;
use crate::audits::{all_true, audits_of, push_audits};
use crate::faults::WorkFault;
use crate::tallies::{all_whole, tallies_of, work_text};
use byte_io::Sink;
use std::alloc::{AllocError, Global};
use uas_replay::{COMMAND_FAILED, DONE, RunFault, output_fault};
use uas_work::Finished;

/// Prints what the clients took, and where that is asked for whether their audits are true; and answers the status.
pub(crate) fn tell<O: Sink>(
    alloc: Global,
    load: Load,
    finished: &Finished,
    shows_audits: bool,
    output: &mut O,
) -> Result<u8, WorkFault>
    requires clients { AreClients load.tags load.clients }
    requires depth { IsDepth load.tags load.depth }
    requires tags { finished.now.booked.log.tags ≡ load.tags }
    requires units { finished.now.booked.log.units ≡ map first_unit (work_units load.clients) }
    ensures status { IfOk result (λ status. status ≤ 1) }
    ensures told { IfOk result (λ status. Audited load.clients load.tags load.depth load.rounds finished.now.booked.log shows_audits
        (O.written output.old) (O.written output.new) status) }
    ensures fault { IfErr result (GivesUp (O.can_fail output.old) (O.written output.old) (O.written output.new)) }
{
    let Some(replies) = finished.replies.as_slice().get(..load.clients) else {
        return Err(WorkFault::Run(RunFault::NoMemory));
    };
    let tallies = tallies_of(alloc, replies).map_err(no_memory)?;
    let Ok(audits) = audits_of(
        alloc,
        finished.booked.log(),
        load.depth,
        load.rounds,
        replies,
    ) else {
        return Err(WorkFault::Run(RunFault::NoMemory));
    };
    let mut text = work_text(alloc, &tallies).map_err(no_memory)?;
    if shows_audits {
        push_audits(alloc, &mut text, &audits).map_err(no_memory)?;
    }
    output
        .write(&text)
        .map_err(|fault| WorkFault::Run(output_fault(fault)))?;
    Ok(if all_whole(load.rounds, &tallies) && all_true(&audits) {
        DONE
    } else {
        COMMAND_FAILED
    })
}

fn no_memory(_fault: AllocError) -> WorkFault
    ensures { result ≡ WorkFault.Run RunFault.NoMemory }
{
    WorkFault::Run(RunFault::NoMemory)
}
