//! The walk of a script: its lines in turn over a run, whoever watches.
//!
//! A [`Watcher`] takes the steps of the bus, and shows of them what it wants; all else is the same walk. What it shows is a text of
//! each step, and behind it what the run told by it, in their order (`Shows` in specs/Walks.antt).

ghost use Rattle.std.specs.Prelude.{◌≡◌, ◌<◌, ◌^◌, ◌++◌, ◌∷◌, ℕ, Bool, List, [], Option, None, Ok, fold, length, false, IfOk, OnOk, IfErr};
ghost use Rattle.std.specs.Io.KnownBytes.{Appends};
ghost use Rattle.shared_machine.specs.Bus.{HasTicket};
ghost use Rattle.shared_machine.specs.declared.Step.{Step};
ghost use Rattle.bus_core.specs.World.{World};
ghost use Rattle.uas_replay.specs.Runs.{StopsBy};
ghost use Rattle.uas_replay.specs.Told.{all_taken, all_taken_by, drained_machine, drained_run, given_run, handed_in};
ghost use Rattle.uas_replay.specs.Told.{handing_in, idle_run, step_of, stepped, taken, taken_or_idle, told_line};
ghost use Rattle.uas_replay.specs.Walks.{Shows, acted, hands, takes, told_since, tries, world_then};
ghost use Rattle.uas_replay.specs.Moments.{all_takes, all_takes_of, drain_moments, drained_moments, line_moments, lines_moments, take_moments};
ghost use Rattle.uas_replay.specs.Moments.{whole_moments};

use super::{DRAIN_LIMIT, Handed, ScriptRun};
use crate::printed;
use crate::status::RunFault;
use bus_core::{Outcome, Step};
use tag_range::{Tag, Ticket};
use uas_script::Line;

/// Takes the steps of a run, and shows of it what it wants on a writer.
pub trait Watcher<W> {
    /// Whether the writer can fail.
    ghost can_fail: { W → Bool };

    /// What it has shown on the writer, with what waits to be written, where that is known.
    ghost shown: { Self → W → Option (List ℕ) };

    /// What it shows of a step, in the world before the step.
    ghost text_of: { World → Step → List ℕ };

    /// Takes a step, due or not.
    fn act(&mut self, writer: &mut W, run: &mut ScriptRun, step: Step) -> Result<Outcome, RunFault>
        requires { HasTicket step }
        ensures outcome { IfOk result (λ outcome. outcome ≡ (step_of run.old.telling.machine step).1) }
        ensures run { OnOk result (run.new ≡ acted run.old step) }
        ensures shown { OnOk result (Appends (shown self.old writer.old) (shown self.new writer.new) (text_of run.old.world step)) }
        ensures same { can_fail writer.new ≡ can_fail writer.old }
        ensures fault { IfErr result (StopsBy (can_fail writer.old)) };

    /// Takes steps of the bus until none acts, or so many have acted.
    fn act_all(&mut self, writer: &mut W, run: &mut ScriptRun, limit: usize) -> Result<(), RunFault>
        ensures run { OnOk result (run.new.telling ≡ record run.old.telling { machine = drained_machine run.old.telling.machine limit }) }
        ensures shown { OnOk result (Shows text_of (drain_moments run.old.telling.machine limit) run.old run.new (shown self.old writer.old) (shown self.new writer.new)) }
        ensures same { can_fail writer.new ≡ can_fail writer.old }
        ensures fault { IfErr result (StopsBy (can_fail writer.old)) };

    /// Hears what the run has told since it was last heard.
    fn hear(&mut self, writer: &mut W, told: &[u8]) -> Result<(), RunFault>
        ensures shown { OnOk result (Appends (shown self.old writer.old) (shown self.new writer.new) told.now) }
        ensures same { can_fail writer.new ≡ can_fail writer.old }
        ensures fault { IfErr result (StopsBy (can_fail writer.old)) };
}

/// Nobody watches: the steps are the bus's own.
#[derive(Drop)]
pub struct Unwatched;

impl<W> Watcher<W> for Unwatched {
    ghost can_fail = { λ _. false };

    ghost shown = { λ _ _. None };

    ghost text_of = { λ _ _. [] };

    fn act(
        &mut self,
        writer: &mut W,
        run: &mut ScriptRun,
        step: Step,
    ) -> Result<Outcome, RunFault> {
        Ok(run.act(step))
    }

    fn act_all(
        &mut self,
        writer: &mut W,
        run: &mut ScriptRun,
        limit: usize,
    ) -> Result<(), RunFault> {
        run.act_all(limit);
        Ok(())
    }

    fn hear(&mut self, writer: &mut W, told: &[u8]) -> Result<(), RunFault> {
        Ok(())
    }
}

impl ScriptRun {
    /// Runs lines in their order, and drains the bus after the last one.
    pub fn whole<W, V: Watcher<W>>(
        &mut self,
        watcher: &mut V,
        writer: &mut W,
        lines: &[Line],
    ) -> Result<(), RunFault>
        ensures run { OnOk result (self.new.telling ≡ drained_run (fold told_line self.old.telling lines.now)) }
        ensures shown { OnOk result (Shows V.text_of (whole_moments self.old.telling lines.now) self.old self.new
            (V.shown watcher.old writer.old) (V.shown watcher.new writer.new)) }
        ensures same { V.can_fail writer.new ≡ V.can_fail writer.old }
        ensures fault { IfErr result (StopsBy (V.can_fail writer.old)) }
    {
        self.lines(watcher, writer, lines)?;
        self.drain(watcher, writer)
    }

    /// Runs lines in their order.
    fn lines<W, V: Watcher<W>>(
        &mut self,
        watcher: &mut V,
        writer: &mut W,
        lines: &[Line],
    ) -> Result<(), RunFault>
        ensures run { OnOk result (self.new.telling ≡ fold told_line self.old.telling lines.now) }
        ensures shown { OnOk result (Shows V.text_of (lines_moments self.old.telling lines.now) self.old self.new
            (V.shown watcher.old writer.old) (V.shown watcher.new writer.new)) }
        ensures same { V.can_fail writer.new ≡ V.can_fail writer.old }
        ensures fault { IfErr result (StopsBy (V.can_fail writer.old)) }
    {
        for line in lines {
            self.line(watcher, writer, *line)?;
        }
        Ok(())
    }

    /// Runs one line.
    #[tactic(auto, unfolding(crate::specs::Told::told_line, crate::specs::Moments::line_moments))]
    fn line<W, V: Watcher<W>>(
        &mut self,
        watcher: &mut V,
        writer: &mut W,
        line: Line,
    ) -> Result<(), RunFault>
        ensures run { OnOk result (self.new.telling ≡ told_line self.old.telling line) }
        ensures shown { OnOk result (Shows V.text_of (line_moments self.old.telling line) self.old self.new
            (V.shown watcher.old writer.old) (V.shown watcher.new writer.new)) }
        ensures same { V.can_fail writer.new ≡ V.can_fail writer.old }
        ensures fault { IfErr result (StopsBy (V.can_fail writer.old)) }
    {
        match line {
            Line::Submit { client, request } => {
                self.hand_in(watcher, writer, client, Handed::Command(request))
            }
            Line::Task { client, task } => self.hand_in(
                watcher,
                writer,
                client,
                Handed::Task(task),
            ),
            Line::CommandPipe => self.step(watcher, writer, Step::CommandPipe),
            Line::Engine => self.step(watcher, writer, Step::Engine),
            Line::Event => self.step(watcher, writer, Step::Event),
            Line::Data(tag) => self.step(watcher, writer, Step::Data(tag)),
            Line::Status(tag) => self.step(watcher, writer, Step::Status(tag)),
            Line::Retire(pipe, tag) => self.step(watcher, writer, Step::Retire(pipe, tag)),
            Line::Take(client) => self.take_or_idle(watcher, writer, client),
            Line::Drain => self.drain(watcher, writer),
        }
    }

    /// What a client hands in: its tags give it a tag and a ticket, or refuse it.
    #[tactic(auto, unfolding(crate::specs::Told::handed_in))]
    fn hand_in<W, V: Watcher<W>>(
        &mut self,
        watcher: &mut V,
        writer: &mut W,
        client: usize,
        handed: Handed,
    ) -> Result<(), RunFault>
        ensures run { OnOk result (self.new.telling ≡ handed_in self.old.telling client handed) }
        ensures shown { OnOk result (Shows V.text_of (hands client handed ∷ []) self.old self.new
            (V.shown watcher.old writer.old) (V.shown watcher.new writer.new)) }
        ensures same { V.can_fail writer.new ≡ V.can_fail writer.old }
        ensures fault { IfErr result (StopsBy (V.can_fail writer.old)) }
    {
        let Some(answer) = self.issue(client, &handed) else {
            return Ok(());
        };
        match answer {
            Ok(given) => self.hand_over(watcher, writer, client, handed, given),
            Err(refused) => {
                let before = self.text.len();
                self.refuse(client, printed::refused_name(refused))
                    .map_err(|_| RunFault::NoMemory)?;
                watcher.hear(writer, self.told_since(before))
            }
        }
    }

    /// Hands it over to the bus, under the tag and the ticket that the client was given.
    fn hand_over<W, V: Watcher<W>>(
        &mut self,
        watcher: &mut V,
        writer: &mut W,
        client: usize,
        handed: Handed,
        given: (Tag, Ticket),
    ) -> Result<(), RunFault>
        requires { given.1 < 2 ^ 60 }
        ensures run { OnOk result (self.new.telling ≡ given_run self.old.telling client handed (Ok given)) }
        ensures world { OnOk result (self.new.world ≡ world_then self.old.world (handing_in handed client given)) }
        ensures shown { OnOk result (Appends (V.shown watcher.old writer.old) (V.shown watcher.new writer.new)
            (V.text_of self.old.world (handing_in handed client given) ++ told_since (length self.old.telling.text) self.new.telling)) }
        ensures same { V.can_fail writer.new ≡ V.can_fail writer.old }
        ensures fault { IfErr result (StopsBy (V.can_fail writer.old)) }
    {
        let before = self.text.len();
        let step = handed
            .step(self.alloc, client, given)
            .map_err(|_| RunFault::NoMemory)?;
        let Outcome { refused, .. } = watcher.act(writer, self, step)?;
        self.note(client, handed.brings_in(&refused))
            .map_err(|_| RunFault::NoMemory)?;
        self.hear(client, given.0, refused)
            .map_err(|_| RunFault::NoMemory)?;
        watcher.hear(writer, self.told_since(before))
    }

    /// One step of the bus, due or not.
    #[tactic(auto, unfolding(crate::specs::Told::stepped))]
    fn step<W, V: Watcher<W>>(
        &mut self,
        watcher: &mut V,
        writer: &mut W,
        step: Step,
    ) -> Result<(), RunFault>
        requires { HasTicket step }
        ensures run { OnOk result (self.new.telling ≡ stepped self.old.telling step) }
        ensures shown { OnOk result (Shows V.text_of (tries step ∷ []) self.old self.new
            (V.shown watcher.old writer.old) (V.shown watcher.new writer.new)) }
        ensures same { V.can_fail writer.new ≡ V.can_fail writer.old }
        ensures fault { IfErr result (StopsBy (V.can_fail writer.old)) }
    {
        if !self.is_due(&step) {
            return self.stay_idle(watcher, writer);
        }
        let _ = watcher.act(writer, self, step)?;
        Ok(())
    }

    /// The step Take as a line.
    #[tactic(auto, unfolding(crate::specs::Told::taken_or_idle))]
    fn take_or_idle<W, V: Watcher<W>>(
        &mut self,
        watcher: &mut V,
        writer: &mut W,
        client: usize,
    ) -> Result<(), RunFault>
        ensures run { OnOk result (self.new.telling ≡ taken_or_idle self.old.telling client) }
        ensures shown { OnOk result (Shows V.text_of (takes client ∷ []) self.old self.new
            (V.shown watcher.old writer.old) (V.shown watcher.new writer.new)) }
        ensures same { V.can_fail writer.new ≡ V.can_fail writer.old }
        ensures fault { IfErr result (StopsBy (V.can_fail writer.old)) }
    {
        if self.is_due(&Step::Take(client)) {
            return self.take(watcher, writer, client);
        }
        self.stay_idle(watcher, writer)
    }

    /// Prints that a step wasn't due.
    fn stay_idle<W, V: Watcher<W>>(
        &mut self,
        watcher: &mut V,
        writer: &mut W,
    ) -> Result<(), RunFault>
        ensures run { OnOk result (self.new ≡ record self.old { telling = idle_run self.old.telling }) }
        ensures shown { OnOk result (Appends (V.shown watcher.old writer.old) (V.shown watcher.new writer.new)
            (told_since (length self.old.telling.text) self.new.telling)) }
        ensures same { V.can_fail writer.new ≡ V.can_fail writer.old }
        ensures fault { IfErr result (StopsBy (V.can_fail writer.old)) }
    {
        let before = self.text.len();
        self.idle().map_err(|_| RunFault::NoMemory)?;
        watcher.hear(writer, self.told_since(before))
    }

    /// A client takes a reply, where one is ready.
    #[tactic(auto, unfolding(crate::specs::Told::taken, crate::specs::Moments::take_moments))]
    fn take<W, V: Watcher<W>>(
        &mut self,
        watcher: &mut V,
        writer: &mut W,
        client: usize,
    ) -> Result<(), RunFault>
        ensures run { OnOk result (self.new.telling ≡ taken self.old.telling client) }
        ensures shown { OnOk result (Shows V.text_of (take_moments self.old.telling client) self.old self.new
            (V.shown watcher.old writer.old) (V.shown watcher.new writer.new)) }
        ensures same { V.can_fail writer.new ≡ V.can_fail writer.old }
        ensures fault { IfErr result (StopsBy (V.can_fail writer.old)) }
    {
        if !self.is_due(&Step::Take(client)) {
            return Ok(());
        }
        let before = self.text.len();
        let Outcome { reply, .. } = watcher.act(writer, self, Step::Take(client))?;
        let Some(reply) = reply else {
            return Ok(());
        };
        self.reply(client, &reply).map_err(|_| RunFault::NoMemory)?;
        watcher.hear(writer, self.told_since(before))
    }

    /// A drain, then every reply.
    #[tactic(auto, unfolding(crate::specs::Told::drained_run, crate::specs::Moments::drained_moments))]
    fn drain<W, V: Watcher<W>>(&mut self, watcher: &mut V, writer: &mut W) -> Result<(), RunFault>
        ensures run { OnOk result (self.new.telling ≡ drained_run self.old.telling) }
        ensures shown { OnOk result (Shows V.text_of (drained_moments self.old.telling) self.old self.new
            (V.shown watcher.old writer.old) (V.shown watcher.new writer.new)) }
        ensures same { V.can_fail writer.new ≡ V.can_fail writer.old }
        ensures fault { IfErr result (StopsBy (V.can_fail writer.old)) }
    {
        watcher.act_all(writer, self, DRAIN_LIMIT)?;
        self.take_all(watcher, writer)
    }

    /// Clients take their replies, by rising number.
    #[tactic(auto, unfolding(crate::specs::Told::all_taken, crate::specs::Moments::all_takes))]
    fn take_all<W, V: Watcher<W>>(
        &mut self,
        watcher: &mut V,
        writer: &mut W,
    ) -> Result<(), RunFault>
        ensures run { OnOk result (self.new.telling ≡ all_taken self.old.telling) }
        ensures shown { OnOk result (Shows V.text_of (all_takes self.old.telling) self.old self.new
            (V.shown watcher.old writer.old) (V.shown watcher.new writer.new)) }
        ensures same { V.can_fail writer.new ≡ V.can_fail writer.old }
        ensures fault { IfErr result (StopsBy (V.can_fail writer.old)) }
    {
        for client in 0..self.ranges.len() {
            self.take_all_of(watcher, writer, client)?;
        }
        Ok(())
    }

    /// A client takes its replies until none is ready.
    #[tactic(auto, unfolding(crate::specs::Told::all_taken_by, crate::specs::Moments::all_takes_of))]
    fn take_all_of<W, V: Watcher<W>>(
        &mut self,
        watcher: &mut V,
        writer: &mut W,
        client: usize,
    ) -> Result<(), RunFault>
        ensures run { OnOk result (self.new.telling ≡ all_taken_by self.old.telling client) }
        ensures shown { OnOk result (Shows V.text_of (all_takes_of self.old.telling client) self.old self.new
            (V.shown watcher.old writer.old) (V.shown watcher.new writer.new)) }
        ensures same { V.can_fail writer.new ≡ V.can_fail writer.old }
        ensures fault { IfErr result (StopsBy (V.can_fail writer.old)) }
    {
        for turn in 0..self.tags() {
            self.take(watcher, writer, client)?;
        }
        Ok(())
    }
}
