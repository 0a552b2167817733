//! Each step of the bus, by one call of host or controller: what it is to the shared machine, and the rings after it.
ghost use Rattle.std.specs.Prelude.{◌≡◌, [], ◌<◌, ◌^◌};
ghost use Rattle.std.specs.Option.{option_map_or};
ghost use Rattle.stream_array.specs.Rings.{IsLines};
ghost use Rattle.frame_store.specs.Buffers.{IsWhole};
ghost use Rattle.uas_host.specs.State.{IsHost};
ghost use Rattle.shared_machine.specs.Shared.{idle, ringing, shared_step};
ghost use Rattle.shared_machine.specs.declared.Mark.{Mark};
ghost use Rattle.bus_core.specs.Decoded.{decoded};
ghost use Rattle.bus_core.specs.Owners.{acted_as, submitted_as, taken_as};
ghost use Rattle.bus_core.specs.WholeStep.{event_after, retire_after, submit_after, task_after};
ghost use Rattle.bus_core.specs.WorldSteps.{command_world, data_world, engine_world, status_world, take_world};

use crate::doors::{ring, rung_at};
use crate::owners::owner_of;
use crate::{Doorbells, Outcome, RingBus, Step, outcomes};
use event_ring::Event;
use frame_store::Frames;
use scsi_cmd::{Command, Reply, SubmitFault, Task};
use stream_array::{Lines, Pipe};
use uas_host::{Handled, Host};
use uas_profile::EVENT_RING_PLACES;
use xhci_ctl::Acted;

impl RingBus {
    /// A client submits a command: the host writes its unit, lends its buffer and pushes its TDs, and the doorbells that it
    /// names are rung, in their order. A refused submission names none. The host's answer; `doors` has these doorbells then.
    /// Asks that it has none.
    #[inline(never)]
    pub(crate) fn submit(
        &mut self,
        client: usize,
        tag: u16,
        ticket: u64,
        command: Command,
        doors: &mut Doorbells,
    ) -> Result<(), (SubmitFault, Command)>
        requires ticket { ticket < 2 ^ 60 }
        requires doors { doors.old ≡ [] }
        ensures shared { shared_step (decoded self.old) (Step.Submit client tag ticket command) ≡ (decoded self.new, submitted_as (decoded self.old).tags client tag doors.new result) }
        ensures world { self.new ≡ submit_after self.old client tag ticket command }
    {
        self.doors.clear();
        let submitted = self.host.submit(
            &mut self.lines,
            &mut self.frames,
            &mut self.doors,
            client,
            tag,
            ticket,
            command,
        );
        stand(&self.host, &self.lines, &self.frames);
        if let Err(refused) = submitted {
            return Err(refused);
        }
        ring(&mut self.controller, &self.doors);
        doors.note(&self.doors);
        Ok(())
    }

    /// A client submits a task management: the host notes the tickets that it is to end, writes its unit and pushes its TDs, and the
    /// doorbells that it names are rung, in their order. A refused one names none.
    #[inline(never)]
    pub(crate) fn manage(&mut self, client: usize, ticket: u64, task: Task) -> Outcome
        requires { ticket < 2 ^ 60 }
        ensures shared { shared_step (decoded self.old) (Step.Task client ticket task) ≡ (decoded self.new, result) }
        ensures world { self.new ≡ task_after self.old client ticket task }
    {
        self.doors.clear();
        let managed = self.host.task(
            &mut self.lines,
            &mut self.frames,
            &mut self.doors,
            client,
            ticket,
            task,
        );
        ring(&mut self.controller, &self.doors);
        stand(&self.host, &self.lines, &self.frames);
        outcomes::managed(client, managed, Doorbells::single(&self.doors))
    }

    /// The device receives the oldest unit in the command pipe.
    #[inline(never)]
    pub(crate) fn carry(&mut self) -> Acted
        ensures shared { shared_step (decoded self.old) Step.CommandPipe ≡ (decoded self.new, acted_as (decoded self.old).tags Mark.Carry result) }
        ensures world { self.new ≡ command_world self.old }
    {
        let acted = self
            .controller
            .command_step(&mut self.lines, &self.frames, &mut self.target);
        stand(&self.host, &self.lines, &self.frames);
        acted
    }

    /// The controller moves a chunk of a tag's data.
    #[inline(never)]
    pub(crate) fn move_chunk(&mut self, tag: u16) -> Acted
        ensures shared { shared_step (decoded self.old) (Step.Data tag) ≡ (decoded self.new, acted_as (decoded self.old).tags Mark.Move result) }
        ensures world { self.new ≡ data_world self.old tag }
    {
        let acted = self
            .controller
            .data_step(&mut self.lines, &mut self.frames, &mut self.target, tag);
        stand(&self.host, &self.lines, &self.frames);
        acted
    }

    /// The controller moves a tag's status.
    #[inline(never)]
    pub(crate) fn send(&mut self, tag: u16) -> Acted
        ensures shared { shared_step (decoded self.old) (Step.Status tag) ≡ (decoded self.new, acted_as (decoded self.old).tags Mark.Send result) }
        ensures world { self.new ≡ status_world self.old tag }
    {
        let acted = self
            .controller
            .status_step(&mut self.lines, &mut self.frames, &mut self.target, tag);
        stand(&self.host, &self.lines, &self.frames);
        acted
    }

    /// The controller executes the oldest command of its own command ring, which is the retirement's.
    #[inline(never)]
    pub(crate) fn execute(&mut self) -> Outcome
        ensures shared { shared_step (decoded self.old) Step.Engine ≡ (decoded self.new, result) }
        ensures world { self.new ≡ engine_world self.old }
    {
        let retirement = self.host.retirement();
        let acted = self.controller.engine_step(&mut self.lines);
        stand(&self.host, &self.lines, &self.frames);
        outcomes::executed(retirement, acted)
    }

    /// The host takes the oldest event. It rings no doorbell at an event of a TD; at one of a retirement it rings the controller's own, or,
    /// when the TD is retired, those of the pipe's streams with pending TRBs. The client that the event was of; `doors` has these doorbells
    /// then. Asks that it has none.
    #[inline(never)]
    pub(crate) fn see(&mut self, doors: &mut Doorbells) -> Option<usize>
        requires { doors.old ≡ [] }
        ensures shared { shared_step (decoded self.old) Step.Event ≡ (decoded self.new, option_map_or (λ client. ringing client doors.new) result idle) }
        ensures world { self.new ≡ event_after self.old }
    {
        let tags = self.host.tags();
        let event = self.lines.take()?;
        match event {
            Event::Transfer {
                pointer,
                residual,
                code,
                ..
            } => {
                let handled = self
                    .host
                    .on_transfer(&mut self.lines, &self.frames, pointer, residual, code);
                stand(&self.host, &self.lines, &self.frames);
                match handled {
                    Handled::Matched(tag) => Some(owner_of(tags, tag)),
                    Handled::Stray => None,
                    Handled::Engine => None,
                }
            }
            Event::Command { pointer, code, .. } => {
                let retirement = self.host.retirement();
                self.doors.clear();
                let handled = self
                    .host
                    .on_completion(&mut self.lines, &mut self.doors, pointer, code);
                ring(&mut self.controller, &self.doors);
                stand(&self.host, &self.lines, &self.frames);
                match handled {
                    Handled::Matched(tag) => Some(owner_of(tags, tag)),
                    Handled::Stray => None,
                    Handled::Engine => {
                        // Each event of the controller's own command ring is of the retirement (`EventsFit`).
                        let ended = retirement?;
                        *doors = rung_at(ended, &self.doors);
                        Some(ended.place.client)
                    }
                }
            }
        }
    }

    /// The host begins to retire a TD that is left over.
    #[inline(never)]
    pub(crate) fn retire(&mut self, pipe: Pipe, tag: u16) -> Outcome
        ensures shared { shared_step (decoded self.old) (Step.Retire pipe tag) ≡ (decoded self.new, result) }
        ensures world { self.new ≡ retire_after self.old pipe tag }
    {
        let tags = self.host.tags();
        self.doors.clear();
        let began = self
            .host
            .retire(&mut self.lines, &mut self.doors, pipe, tag);
        ring(&mut self.controller, &self.doors);
        stand(&self.host, &self.lines, &self.frames);
        if began {
            outcomes::ringing(owner_of(tags, tag), Doorbells::single(&self.doors))
        } else {
            outcomes::idle()
        }
    }

    /// A client takes the reply that was ready first, where there is one.
    #[inline(never)]
    pub(crate) fn take(&mut self, client: usize) -> Option<Reply>
        ensures shared { shared_step (decoded self.old) (Step.Take client) ≡ (decoded self.new, taken_as (decoded self.old).tags client result) }
        ensures world { self.new ≡ take_world self.old client }
    {
        let reply = self.host.take_reply(&mut self.frames, client);
        stand(&self.host, &self.lines, &self.frames);
        reply
    }
}

/// What holds of each host, all rings and all buffers: the host's clients have their slots, the rings lie where the address map
/// says, and each buffer has its size.
#[inline(always)]
pub(crate) fn stand(host: &Host, lines: &Lines, frames: &Frames)
    ensures host { IsHost host.now }
    ensures lines { IsLines lines.now }
    ensures frames { IsWhole frames.now }
{
    let _ = host.clients();
    prove!(lines.len() < EVENT_RING_PLACES);
    prove!(frames.check(0, 0).is_ok());
}
