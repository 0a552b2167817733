//! A script's run step by step: the same run as `replay` makes, and each step that acted with the bytes that it wrote.
//!
//! The run is the one of `replay`, by the same walk, and so are the lines that it tells; they are printed after the step that they
//! come of. A drain is run by single tries in the order of the bus's own. What a step wrote is read off the bus after it, and
//! goes to the writer behind what was told before, in large pieces: no text of the whole is kept but the lines of `replay`.

ghost use Rattle.byte_io.specs.Disks.{AreDisks};
ghost use Rattle.std.specs.Prelude.{◌≡◌, ◌*◌, ◌≤◌, ◌<◌, ◌^◌, Ok, [], fold, map, length, suc, IfOk, OnOk, IfErr, IfSome, IfNone};
ghost use Rattle.std.specs.Io.KnownBytes.{Appends};
ghost use Rattle.shared_machine.specs.Bus.{HasTicket};
ghost use Rattle.shared_machine.specs.Drain.{all_tags, round, tried, tried_one};
ghost use Rattle.uas_replay.specs.Told.{drained_machine, step_of, told, zeroed_units};
ghost use Rattle.uas_replay.specs.Runs.{StopsBy};
ghost use Rattle.uas_trace.specs.Traced.{AreNotDue, step_of_tag, with_waiting};
ghost use Rattle.shared_machine.specs.Shared.{greatest_tag};
ghost use Rattle.uas_trace.specs.Texts.{TracesAll, step_text};
ghost use Rattle.uas_replay.specs.Walks.{Shows, acted};
ghost use Rattle.uas_replay.specs.Moments.{drain_moments, round_moments, tried_moments, try_moments};

use crate::lines::push_step;
use crate::writes::Before;
use bus_core::{Outcome, Step};
use byte_io::{Disks, Sink};
use std::alloc::{AllocError, Global};
use stream_array::Pipe;
use uas_replay::{COMMAND_FAILED, DONE, RunFault, ScriptRun, Watcher, output_fault};
use uas_script::Line;

/// How many bytes wait to be written together, as each write costs more than the text of a step.
const PIECE_BYTES: usize = 65_536;

/// A kind of step that each tag has one of.
#[derive(Clone, Copy)]
pub enum TagStep {
    Data,
    Status,
    Retire(Pipe),
}

impl TagStep {
    /// The step of a tag.
    fn step(self, tag: u16) -> Step
        ensures step { result ≡ step_of_tag self tag }
        ensures ticket { HasTicket result }
    {
        match self {
            TagStep::Data => Step::Data(tag),
            TagStep::Status => Step::Status(tag),
            TagStep::Retire(pipe) => Step::Retire(pipe, tag),
        }
    }

    /// The least tag above this one whose step may be due.
    fn next(self, run: &ScriptRun, tag: u16) -> Option<u16>
        ensures next { IfSome result (λ next. (tag < next) × (next ≤ greatest_tag run.now.telling.machine) × AreNotDue run.now.telling.machine self tag next) }
        ensures none { IfNone result (AreNotDue run.now.telling.machine self tag (suc (greatest_tag run.now.telling.machine))) }
    {
        match self {
            TagStep::Data | TagStep::Status => run.next_busy(tag),
            TagStep::Retire(pipe) => run.next_left_over(pipe, tag),
        }
    }
}

/// Shows a script's run step by step.
#[derive(Drop)]
struct Tracer {
    // Where the last event was posted.
    posted: usize,
    // The text of one step.
    text: Vec<u8>,
    // What was told and isn't written yet.
    waiting: Vec<u8>,
}

impl<O: Sink> Watcher<O> for Tracer {
    ghost can_fail = { O.can_fail };

    ghost shown = { λ tracer writer. with_waiting (O.written writer) tracer.waiting.items };

    ghost text_of = { step_text };

    fn act(
        &mut self,
        writer: &mut O,
        run: &mut ScriptRun,
        step: Step,
    ) -> Result<Outcome, RunFault> {
        self.print_step(writer, run, step)
    }

    fn act_all(
        &mut self,
        writer: &mut O,
        run: &mut ScriptRun,
        limit: usize,
    ) -> Result<(), RunFault> {
        self.rounds(writer, run, limit)
    }

    fn hear(&mut self, writer: &mut O, told: &[u8]) -> Result<(), RunFault> {
        put(&mut self.waiting, writer, told)
    }
}

impl Tracer {
    /// One that printed nothing.
    fn new(alloc: Global) -> Tracer
        ensures { result.waiting.items ≡ [] }
    {
        Tracer {
            posted: 0,
            text: Vec::new(alloc),
            waiting: Vec::new(alloc),
        }
    }

    /// A step that is due; its lines become the text.
    fn acted(&mut self, run: &mut ScriptRun, step: Step) -> Result<Outcome, AllocError>
        requires { HasTicket step }
        ensures outcome { IfOk result (λ outcome. outcome ≡ (step_of run.old.telling.machine step).1) }
        ensures run { OnOk result (run.new ≡ acted run.old step) }
        ensures text { OnOk result (self.new.text.items ≡ step_text run.old.world step) }
        ensures waiting { self.new.waiting ≡ self.old.waiting }
    {
        self.text.clear();
        push_step(&mut self.text, &step)?;
        let before = Before::of(run.tags(), run.rings(), &step);
        let outcome = run.act(step);
        let rings = run.rings();
        let posted = before.posted(rings, self.posted);
        self.posted = posted.unwrap_or(self.posted);
        let buffers = run.buffers();
        before.push_writes(&mut self.text, rings, buffers, posted, &outcome)?;
        Ok(outcome)
    }

    /// A step that is due, printed with its lines.
    fn print_step<O: Sink>(
        &mut self,
        writer: &mut O,
        run: &mut ScriptRun,
        step: Step,
    ) -> Result<Outcome, RunFault>
        requires { HasTicket step }
        ensures outcome { IfOk result (λ outcome. outcome ≡ (step_of run.old.telling.machine step).1) }
        ensures run { OnOk result (run.new ≡ acted run.old step) }
        ensures text { OnOk result (self.new.text.items ≡ step_text run.old.world step) }
        ensures shown { OnOk result (Appends (with_waiting (O.written writer.old) self.old.waiting.items)
            (with_waiting (O.written writer.new) self.new.waiting.items) (step_text run.old.world step)) }
        ensures same { O.can_fail writer.new ≡ O.can_fail writer.old }
        ensures fault { IfErr result (StopsBy (O.can_fail writer.old)) }
    {
        let outcome = self.acted(run, step).map_err(|_| RunFault::NoMemory)?;
        put(&mut self.waiting, writer, &self.text)?;
        Ok(outcome)
    }

    /// One try of a drain: how many more steps may act after it.
    #[tactic(auto, unfolding(uas_replay::specs::Told::is_due, uas_replay::specs::Told::step_of))]
    fn try_step<O: Sink>(
        &mut self,
        writer: &mut O,
        run: &mut ScriptRun,
        step: Step,
        left: usize,
    ) -> Result<usize, RunFault>
        requires { HasTicket step }
        ensures machine { IfOk result (λ after. (run.new.telling.machine, after) ≡ tried_one (run.old.telling.machine, left) step) }
        ensures rest { OnOk result (run.new.telling ≡ record run.old.telling { machine = run.new.telling.machine }) }
        ensures shown { OnOk result (Shows step_text (try_moments (run.old.telling.machine, left) step) run.old run.new
            (with_waiting (O.written writer.old) self.old.waiting.items)
            (with_waiting (O.written writer.new) self.new.waiting.items)) }
        ensures same { O.can_fail writer.new ≡ O.can_fail writer.old }
        ensures fault { IfErr result (StopsBy (O.can_fail writer.old)) }
    {
        if left == 0 || !run.is_due(&step) {
            return Ok(left);
        }
        let _ = self.print_step(writer, run, step)?;
        Ok(left - 1)
    }

    /// A try of a step of each tag, rising: of those tags alone that may have one due.
    fn try_tags<O: Sink>(
        &mut self,
        writer: &mut O,
        run: &mut ScriptRun,
        kind: TagStep,
        left: usize,
    ) -> Result<usize, RunFault>
        ensures machine { IfOk result (λ after. (run.new.telling.machine, after) ≡ tried (run.old.telling.machine, left)
            (map (step_of_tag kind) (all_tags (greatest_tag run.old.telling.machine)))) }
        ensures rest { OnOk result (run.new.telling ≡ record run.old.telling { machine = run.new.telling.machine }) }
        ensures shown { OnOk result (Shows step_text (tried_moments (run.old.telling.machine, left)
            (map (step_of_tag kind) (all_tags (greatest_tag run.old.telling.machine)))) run.old run.new
            (with_waiting (O.written writer.old) self.old.waiting.items)
            (with_waiting (O.written writer.new) self.new.waiting.items)) }
        ensures same { O.can_fail writer.new ≡ O.can_fail writer.old }
        ensures fault { IfErr result (StopsBy (O.can_fail writer.old)) }
    {
        let mut left = left;
        let mut tag = 0;
        while let Some(next) = kind.next(run, tag) {
            left = self.try_step(writer, run, kind.step(next), left)?;
            tag = next;
        }
        Ok(left)
    }

    /// One round of tries, in the order of the bus's drain, of which so many may act: how many more may act after it.
    fn round<O: Sink>(
        &mut self,
        writer: &mut O,
        run: &mut ScriptRun,
        left: usize,
    ) -> Result<usize, RunFault>
        ensures machine { IfOk result (λ after. (run.new.telling.machine, after) ≡ round (run.old.telling.machine, left)) }
        ensures rest { OnOk result (run.new.telling ≡ record run.old.telling { machine = run.new.telling.machine }) }
        ensures shown { OnOk result (Shows step_text (round_moments (run.old.telling.machine, left)) run.old run.new
            (with_waiting (O.written writer.old) self.old.waiting.items)
            (with_waiting (O.written writer.new) self.new.waiting.items)) }
        ensures same { O.can_fail writer.new ≡ O.can_fail writer.old }
        ensures fault { IfErr result (StopsBy (O.can_fail writer.old)) }
    {
        let first = self.try_step(writer, run, Step::CommandPipe, left)?;
        let second = self.try_step(writer, run, Step::Engine, first)?;
        let third = self.try_step(writer, run, Step::Event, second)?;
        let fourth = self.try_tags(writer, run, TagStep::Data, third)?;
        let fifth = self.try_tags(writer, run, TagStep::Status, fourth)?;
        let sixth = self.try_tags(writer, run, TagStep::Retire(Pipe::Status), fifth)?;
        let seventh = self.try_tags(writer, run, TagStep::Retire(Pipe::DataIn), sixth)?;
        self.try_tags(writer, run, TagStep::Retire(Pipe::DataOut), seventh)
    }

    /// Steps of the bus until none acts, or so many have acted.
    #[tactic(auto, unfolding(uas_replay::specs::Told::drained_machine, shared_machine::specs::Drain::rounds))]
    fn rounds<O: Sink>(
        &mut self,
        writer: &mut O,
        run: &mut ScriptRun,
        limit: usize,
    ) -> Result<(), RunFault>
        ensures run { OnOk result (run.new.telling ≡ record run.old.telling { machine = drained_machine run.old.telling.machine limit }) }
        ensures shown { OnOk result (Shows step_text (drain_moments run.old.telling.machine limit) run.old run.new
            (with_waiting (O.written writer.old) self.old.waiting.items)
            (with_waiting (O.written writer.new) self.new.waiting.items)) }
        ensures same { O.can_fail writer.new ≡ O.can_fail writer.old }
        ensures fault { IfErr result (StopsBy (O.can_fail writer.old)) }
    {
        let mut left = limit;
        let mut more = limit;
        loop {
            let after = self.round(writer, run, left)?;
            if after == 0 || after == left || more == 0 {
                return Ok(());
            }
            more -= 1;
            left = after;
        }
    }
}

/// Puts bytes behind those that wait, and writes them all once there are enough for a piece.
fn put<O: Sink>(waiting: &mut Vec<u8>, writer: &mut O, bytes: &[u8]) -> Result<(), RunFault>
    ensures told { OnOk result (Appends (with_waiting (O.written writer.old) waiting.old.items)
        (with_waiting (O.written writer.new) waiting.new.items) bytes.now) }
    ensures same { O.can_fail writer.new ≡ O.can_fail writer.old }
    ensures fault { IfErr result (StopsBy (O.can_fail writer.old)) }
{
    waiting
        .extend_from_slice(bytes)
        .map_err(|_| RunFault::NoMemory)?;
    if waiting.len() < PIECE_BYTES {
        return Ok(());
    }
    write_waiting(waiting, writer)
}

/// Writes the bytes that wait.
fn write_waiting<O: Sink>(waiting: &mut Vec<u8>, writer: &mut O) -> Result<(), RunFault>
    ensures written { OnOk result (Appends (O.written writer.old) (O.written writer.new) waiting.old.items) }
    ensures none { OnOk result (waiting.new.items ≡ []) }
    ensures same { O.can_fail writer.new ≡ O.can_fail writer.old }
    ensures fault { IfErr result (StopsBy (O.can_fail writer.old)) }
{
    let written = writer.write(waiting);
    waiting.clear();
    written.map_err(|fault| output_fault(fault))
}

/// Runs lines on zeroed units and prints each step that acted with what it wrote: 1 where a check, an abort or a refusal was told,
/// else 0.
#[tactic(auto, unfolding(uas_replay::specs::Told::told))]
pub fn trace<O: Sink>(
    alloc: Global,
    disks: Disks,
    writer: &mut O,
    lines: &[Line],
) -> Result<u8, RunFault>
    requires { AreDisks disks }
    ensures number { IfOk result (λ status. status ≡ (told disks.tags (zeroed_units disks.clients disks.blocks disks.bad) lines.now).1) }
    ensures text { OnOk result (TracesAll disks.tags (zeroed_units disks.clients disks.blocks disks.bad) lines.now (O.written writer.old) (O.written writer.new)) }
    ensures status { IfOk result (λ status. status ≤ 1) }
    ensures fault { IfErr result (StopsBy (O.can_fail writer.old)) }
{
    let Ok(mut run) = ScriptRun::new(alloc, disks) else {
        return Err(RunFault::NoMemory);
    };
    let mut tracer = Tracer::new(alloc);
    let ended = run.whole(&mut tracer, writer, lines);
    write_waiting(&mut tracer.waiting, writer)?;
    ended?;
    Ok(if run.has_failed() {
        COMMAND_FAILED
    } else {
        DONE
    })
}
