//! The run `work`: the threads, what they left, and what is told of it.

ghost use Rattle.std.specs.Prelude.{◌≡◌, ℕ, ◌^◌, ◌<◌, ◌≤◌, Bool, List, Option, None, false, map, IfOk, IfErr, IfSome};
ghost use Rattle.byte_io.specs.Disks.{AreClients};
ghost use Rattle.uas_work.specs.Booked.{first_unit};
ghost use Rattle.uas_work.specs.Rounds.{IsDepth};
ghost use Rattle.work_run.specs.WorkEnds.{Audited, GivesUp, Told, WorkEnds, fault_of, step_limit, work_units};
ghost use Rattle.work_run.specs.KeptEnds.{KeptGivesUp};

use crate::Load;
use crate::faults::WorkFault;
use crate::telling::tell;
use block_unit::Unit;
use byte_io::Sink;
use std::alloc::{AllocError, Global};
use std::io::Write;
use std::rt::Clock;
use std::sync::Wait;
use std::thread::Threads;
use std::time::Instant;
use uas_replay::RunFault;
use uas_work::{Booked, Ended, Finished, Gate, Plan, PumpCount, Unhindered, spawn_all};

/// Blocks of each unit: eight rounds write to blocks of their own.
const UNIT_BLOCKS: u32 = 64;

/// The controllers that work beside the clients.
const CONTROLLERS: u32 = 1;

/// Steps that are booked of the two commands of a round, each of 8 blocks: the submission, the command, the chunk, the status, three
/// events and the Take.
const ROUND_STEPS: u64 = 16;

/// What came of a run that was told.
#[derive(Clone, Copy)]
pub(crate) struct Worked {
    pub(crate) status: u8,
    /// How many commands were answered.
    pub(crate) commands: usize,
    /// How long the threads took, where the clock tells it.
    pub(crate) millis: Option<u64>,
}

/// The run `work`: lets so many clients, 1 to 31, take their rounds in threads, and prints a line of each. Where it is asked for, the
/// pace is shown on `faults` at the end. It answers the exit status: 1 where a command of a client didn't end GOOD, a READ didn't
/// bring what was written or a client's audit is false, 3 at a fault of standard output, 4 for want of memory or where the log is full, else 0.
pub fn run_work<R: Threads + Wait + Clock + Sync, O: Sink, W: Write>(
    rt: &R,
    alloc: Global,
    load: Load,
    output: &mut O,
    faults: &mut W,
    may_show_progress: bool,
) -> u8
    requires clients { AreClients load.tags load.clients }
    requires depth { IsDepth load.tags load.depth }
    ensures ends { WorkEnds load.clients load.tags load.depth load.rounds (O.can_fail output.old) (O.written output.old) (O.written output.new) result }
    ensures quiet { may_show_progress ≡ false → result ≤ 1 → faults.new ≡ faults.old }
{
    match work(rt, alloc, load, output) {
        Ok(worked) => {
            if may_show_progress {
                worked.show(faults);
            }
            worked.status
        }
        Err(fault) => fault.tell(faults),
    }
}

fn work<R: Threads + Wait + Clock + Sync, O: Sink>(
    rt: &R,
    alloc: Global,
    load: Load,
    output: &mut O,
) -> Result<Worked, WorkFault>
    requires clients { AreClients load.tags load.clients }
    requires depth { IsDepth load.tags load.depth }
    ensures status { IfOk result (λ worked. worked.status ≤ 1) }
    ensures told { IfOk result (λ worked. Told load.clients load.tags load.depth load.rounds false (O.written output.old) (O.written output.new) worked.status) }
    ensures fault { IfErr result (GivesUp (O.can_fail output.old) (O.written output.old) (O.written output.new)) }
{
    let start = Instant::now(rt).ok();
    let finished = match ran(rt, alloc, load) {
        Ok(finished) => finished,
        Err(fault) => return Err(fault),
    };
    let millis = start.and_then(|start| millis_since(rt, &start));
    let worked = tell_work(alloc, load, &finished, millis, false, output);
    release(finished);
    worked
}

/// Prints what came of a run.
pub(crate) fn tell_work<O: Sink>(
    alloc: Global,
    load: Load,
    finished: &Finished,
    millis: Option<u64>,
    shows_audits: bool,
    output: &mut O,
) -> Result<Worked, WorkFault>
    requires clients { AreClients load.tags load.clients }
    requires depth { IsDepth load.tags load.depth }
    requires tags { finished.now.booked.log.tags ≡ load.tags }
    requires units { finished.now.booked.log.units ≡ map first_unit (work_units load.clients) }
    ensures status { IfOk result (λ worked. worked.status ≤ 1) }
    ensures told { IfOk result (λ worked. Audited load.clients load.tags load.depth load.rounds finished.now.booked.log shows_audits
        (O.written output.old) (O.written output.new) worked.status) }
    ensures fault { IfErr result (GivesUp (O.can_fail output.old) (O.written output.old) (O.written output.new)) }
{
    match tell(alloc, load, finished, shows_audits, output) {
        Ok(status) => Ok(Worked {
            status,
            commands: finished.booked.log().replies.len(),
            millis,
        }),
        Err(fault) => Err(fault),
    }
}

/// Gives back what a run holds. Wherever one goes, it goes here: its going is long to prove.
pub(crate) fn release(finished: Finished) {
    drop(finished);
}

/// Lets the clients take their rounds. A worker without a thread or memory ends them all, and so does a full log.
pub(crate) fn ran<R: Threads + Wait + Sync>(
    rt: &R,
    alloc: Global,
    load: Load,
) -> Result<Finished, WorkFault>
    requires clients { AreClients load.tags load.clients }
    requires depth { IsDepth load.tags load.depth }
    ensures ended { IfOk result (λ finished. fault_of finished.ended ≡ None) }
    ensures tags { IfOk result (λ finished. finished.booked.log.tags ≡ load.tags) }
    ensures units { IfOk result (λ finished. finished.booked.log.units ≡ map first_unit (work_units load.clients)) }
    ensures fault { IfErr result (λ fault. (can_fail : Bool) → (text : Option (List ℕ)) → GivesUp can_fail text text fault) }
{
    let Ok(booked) = booked(alloc, load) else {
        return Err(WorkFault::Run(RunFault::NoMemory));
    };
    let Ok(finished) = ran_by(rt, alloc, load, booked, &Unhindered) else {
        return Err(WorkFault::Run(RunFault::NoMemory));
    };
    match fault_of(finished.ended) {
        None => Ok(finished),
        Some(fault) => {
            release(finished);
            Err(fault)
        }
    }
}

/// The fault of a run that ended so, which printed nothing.
pub(crate) fn fault_of(ended: Ended) -> Option<WorkFault>
    ensures fault { result ≡ fault_of ended }
    ensures gives_up { IfSome result (λ fault. (can_fail : Bool) → (text : Option (List ℕ)) → GivesUp can_fail text text fault) }
    ensures kept { IfSome result (λ fault. (can_file_fail can_fail : Bool) → (text : Option (List ℕ))
        → KeptGivesUp can_file_fail can_fail text text fault) }
{
    match ended {
        Ended::Done | Ended::Stopped => None,
        Ended::LogFull => Some(WorkFault::LogFull),
        Ended::NoMemory | Ended::NoThread => Some(WorkFault::Run(RunFault::NoMemory)),
    }
}

/// Lets the clients of a bus take the rounds for which its log has room, as far as a gate lets them.
pub(crate) fn ran_by<R: Threads + Wait + Sync, G: Gate + Sync>(
    rt: &R,
    alloc: Global,
    load: Load,
    booked: Booked,
    gate: &G,
) -> Result<Finished, AllocError>
    requires room { booked.limit ≡ step_limit load.clients load.rounds }
    requires depth { IsDepth booked.log.tags load.depth }
    ensures tags { IfOk result (λ finished. finished.booked.log.tags ≡ booked.log.tags) }
    ensures units { IfOk result (λ finished. finished.booked.log.units ≡ booked.log.units) }
{
    spawn_all(rt, alloc, booked, gate, plan_of(load)).map_err(unstarted)
}

/// The fault of workers that couldn't start, whose bus goes.
fn unstarted(failed: (AllocError, Booked)) -> AllocError {
    let (fault, _) = failed;
    fault
}

/// Two pumps and a controller beside the clients.
fn plan_of(load: Load) -> Plan
    ensures { result ≡ record { rounds = load.rounds; depth = load.depth; pumps = PumpCount.Two; controllers = 1 } }
{
    Plan {
        rounds: load.rounds,
        depth: load.depth,
        pumps: PumpCount::Two,
        controllers: CONTROLLERS,
    }
}

/// The bus of so many zeroed units and so many tags of each client, whose log has room for the steps of all rounds.
pub(crate) fn booked(alloc: Global, load: Load) -> Result<Booked, AllocError>
    requires { AreClients load.tags load.clients }
    ensures tags { IfOk result (λ booked. booked.log.tags ≡ load.tags) }
    ensures units { IfOk result (λ booked. booked.log.units ≡ map first_unit (work_units load.clients)) }
    ensures room { IfOk result (λ booked. booked.limit ≡ step_limit load.clients load.rounds) }
{
    let units = work_units(alloc, load.clients)?;
    Booked::with_tags(alloc, units, step_limit(load), load.tags)
}

/// So many units of zeroed blocks, none of them bad.
fn work_units(alloc: Global, clients: usize) -> Result<Vec<Unit>, AllocError>
    ensures { IfOk result (λ units. units.items ≡ work_units clients) }
{
    let mut units = Vec::new(alloc);
    for _ in 0..clients {
        units.push(Unit::new(alloc, UNIT_BLOCKS, Vec::new(alloc))?)?;
    }
    Ok(units)
}

/// One more than the steps that are booked of all rounds, or the most that a log may hold.
fn step_limit(load: Load) -> usize
    requires { AreClients load.tags load.clients }
    ensures fits { result < 2 ^ 32 }
    ensures steps { result ≡ step_limit load.clients load.rounds }
{
    let steps = ROUND_STEPS * load.clients as u64 * u64::from(load.rounds) + 1;
    steps.min(u64::from(u32::MAX)) as usize
}

/// How long ago it was, in thousandths of a second.
pub(crate) fn millis_since<R: Clock>(rt: &R, start: &Instant) -> Option<u64> {
    let elapsed = start.elapsed(rt).ok()?;
    Some(
        elapsed
            .as_secs()
            .saturating_mul(1000)
            .saturating_add(u64::from(elapsed.subsec_millis())),
    )
}

impl Worked {
    /// Shows the pace. A fault of `faults` changes nothing.
    pub(crate) fn show<W: Write>(self, faults: &mut W) {
        let Worked {
            commands,
            millis,
            ..
        } = self;
        let Some(millis) = millis else {
            let _ = writeln!(faults, "{commands} commands");
            return;
        };
        let seconds = millis / 1000;
        let tenth = millis % 1000 / 100;
        let rate = (commands as u64).saturating_mul(1000) / millis.max(1);
        let _ = writeln!(
            faults,
            "{commands} commands in {seconds}.{tenth} s, {rate} a second"
        );
    }
}
