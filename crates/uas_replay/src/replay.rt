//! A script's run: the bus, each client's tags, and what was told. The walk of its lines is `walk`.

ghost use Rattle.byte_io.specs.Disks.{AreDisks};
ghost use Rattle.uas_profile.specs.Tags.{AreTags};
ghost use Rattle.uas_profile.specs.declared.TheConstants.{MAX_CLIENTS};
ghost use Rattle.shared_machine.specs.Shared.{greatest_tag};
ghost use Rattle.std.specs.Prelude.{◌≡◌, ℕ, ◌+◌, ◌*◌, ◌≤◌, ◌<◌, ◌^◌, ◌++◌, ◌∷◌, [], Bool, List, option_to_list, length, fold, replicate, suc};
ghost use Rattle.std.specs.Prelude.{slice_index_or, false, IfOk, OnOk, IfSome, IfNone, vec_len};
ghost use Rattle.uas_replay.specs.Told.{zeroed_units, opening_ranges, told, issued_for, handing_in, brought_in_by};
ghost use Rattle.uas_replay.specs.Walks.{acted, issued_in, issued_run, machine_of, opening_walk, told_since};
ghost use Rattle.stream_array.specs.Rings.{IsLines, IsOpeningLines};
ghost use Rattle.shared_machine.specs.Bus.{HasTicket};
ghost use Rattle.shared_machine.specs.Drain.{AreNotLeftOver, AreQuiet};
ghost use Rattle.bus_core.specs.Busy.{IsNextBusy};
ghost use Rattle.bus_core.specs.Shows.{ShowsFrames, ShowsShared};
ghost use Rattle.frame_store.specs.Buffers.{IsWhole};

mod commands;
mod notes;
mod opening;
mod walk;

use crate::printed;
use crate::status::{COMMAND_FAILED, DONE};
use bus_core::{Outcome, Refusal, RingBus, Step};
use byte_io::Disks;
pub use commands::command_of;
use commands::took_to_host;
use frame_store::Frames;
use notes::TicketNotes;
use opening::{opening_notes, opening_ranges, zeroed_units};
use scsi_cmd::{Reply, Task};
use std::alloc::{AllocError, Global};
use std::marker::Model;
use stream_array::{Lines, Pipe};
use tag_range::{ClientRange, Refused, Tag, Ticket};
use uas_profile::EVENT_RING_PLACES;
use uas_script::{Line, Request};
pub use walk::{Unwatched, Watcher};

/// The most steps of a drain.
pub const DRAIN_LIMIT: usize = 100_000;

/// What a client hands in under a tag of its own.
#[derive(Clone, Copy)]
pub enum Handed {
    Command(Request),
    Task(Task),
}

impl Handed {
    /// A tag and a ticket for it out of a client's own, or why there is none.
    fn issue(&self, range: &mut ClientRange) -> Result<(Tag, Ticket), Refused>
        ensures step { (range.new, result) ≡ issued_for self.now range.old }
        ensures ticket { IfOk result (λ given. given.1 < 2 ^ 60) }
    {
        match self {
            Handed::Command(_) => range.issue(),
            Handed::Task(_) => range.issue_task(),
        }
    }

    /// The step of the bus that hands it in.
    fn step(&self, alloc: Global, client: usize, given: (Tag, Ticket)) -> Result<Step, AllocError>
        requires { given.1 < 2 ^ 60 }
        ensures step { IfOk result (λ step. step ≡ handing_in self.now client given) }
        ensures ticket { IfOk result HasTicket }
    {
        let (tag, ticket) = given;
        match *self {
            Handed::Command(request) => Ok(Step::Submit {
                client,
                tag,
                ticket,
                command: command_of(alloc, request)?,
            }),
            Handed::Task(task) => Ok(Step::Task {
                client,
                ticket,
                task,
            }),
        }
    }

    /// Whether the bus took it, and it moves data to the host.
    fn brings_in(&self, refused: &Option<Refusal>) -> bool
        ensures { result ≡ brought_in_by self.now refused.now }
    {
        match self {
            Handed::Command(request) => took_to_host(&request.op, refused),
            Handed::Task(_) => false,
        }
    }
}

/// A script's run.
#[derive(Drop)]
pub struct ScriptRun {
    alloc: Global,
    bus: RingBus,
    ranges: Vec<ClientRange>,
    // For each client, what was noted of its tickets.
    brings_in: Vec<TicketNotes>,
    text: Vec<u8>,
    // Whether it told a check, an abort or a refusal.
    failed: bool,
}

impl Model for ScriptRun {
    ghost use Rattle.uas_replay.specs.Walks.{Walk, machine_of};

    ghost Value = { Walk };

    ghost view = { λ run. record {
      telling = record {
        machine = machine_of run.bus;
        ranges = run.ranges.items;
        brings_in = run.brings_in.items;
        text = run.text.items;
        failed = run.failed;
      };
      world = run.bus;
    } };
}

impl ScriptRun {
    ghost use Rattle.uas_replay.specs.Told.{zeroed_units, step_of, is_due, drained_machine, refused_run, freed_run, handed_over};
    ghost use Rattle.uas_replay.specs.Told.{noted_run, is_brought_in, replied, idle_run};

    /// The run before its first line, on units of zeroed blocks.
    #[tactic(auto, unfolding(crate::specs::Walks::machine_of))]
    pub fn new(alloc: Global, disks: Disks) -> Result<ScriptRun, AllocError>
        requires { AreDisks disks }
        ensures walk { IfOk result (λ run. run ≡ opening_walk disks.tags (zeroed_units disks.clients disks.blocks disks.bad)) }
        ensures rings { IfOk result (λ run. IsOpeningLines run.world.lines) }
    {
        // (the bus last, so that no other maker's refusal has it to give back)
        let ranges = opening_ranges(alloc, disks.clients, disks.tags)?;
        let brings_in = opening_notes(alloc, disks.clients)?;
        let units = zeroed_units(alloc, disks.clients, disks.blocks, disks.bad)?;
        let bus = RingBus::with_tags(alloc, units, disks.tags)?;
        stand(bus.lines());
        Ok(ScriptRun {
            alloc,
            bus,
            ranges,
            brings_in,
            text: Vec::new(alloc),
            failed: false,
        })
    }

    /// One step of the bus, due or not.
    #[tactic(auto, unfolding(crate::specs::Told::step_of, crate::specs::Walks::machine_of, crate::specs::Walks::world_then))]
    pub fn act(&mut self, step: Step) -> Outcome
        requires { HasTicket step }
        ensures outcome { result ≡ (step_of self.old.telling.machine step).1 }
        ensures run { self.new ≡ acted self.old step }
    {
        self.bus.step(step)
    }

    /// The rings of the bus.
    #[tactic(auto, unfolding(crate::specs::Walks::machine_of))]
    pub fn rings(&self) -> &Lines
        ensures rings { result.now ≡ self.now.world.lines }
        ensures shows { ShowsShared self.now.telling.machine result.now }
        // The world of rings holds the shared machine.
        ensures machine { self.now.telling.machine ≡ machine_of self.now.world }
    {
        self.bus.lines()
    }

    /// The buffers of the bus.
    #[tactic(auto, unfolding(crate::specs::Walks::machine_of))]
    pub fn buffers(&self) -> &Frames
        ensures buffers { result.now ≡ self.now.world.frames }
        ensures whole { IsWhole result.now }
        ensures shows { ShowsFrames self.now.telling.machine result.now }
    {
        self.bus.frames()
    }

    /// Whether a step of the bus is due.
    #[tactic(auto, unfolding(crate::specs::Told::is_due, crate::specs::Walks::machine_of))]
    pub fn is_due(&self, step: &Step) -> bool
        ensures { result ≡ is_due self.now.telling.machine step.now }
    {
        self.bus.due(step)
    }

    /// The least busy tag above this one: the device has a task of it. `None` where no tag above is busy. No other tag's streams
    /// are due.
    #[tactic(auto, unfolding(crate::specs::Walks::machine_of))]
    pub fn next_busy(&self, tag: u16) -> Option<u16>
        ensures busy { IsNextBusy self.now.telling.machine tag result }
        ensures next { IfSome result (λ next. (tag < next) × (next ≤ greatest_tag self.now.telling.machine) × AreQuiet self.now.telling.machine tag next) }
        ensures none { IfNone result (AreQuiet self.now.telling.machine tag (suc (greatest_tag self.now.telling.machine))) }
    {
        self.bus.next_busy(tag)
    }

    /// The least tag above this one whose TD on a pipe is left over. None is due while a retirement is under way.
    #[tactic(auto, unfolding(crate::specs::Walks::machine_of))]
    pub fn next_left_over(&self, pipe: Pipe, tag: u16) -> Option<u16>
        ensures next { IfSome result (λ next. (tag < next) × (next ≤ greatest_tag self.now.telling.machine) × AreNotLeftOver self.now.telling.machine pipe tag next) }
        ensures none { IfNone result (AreNotLeftOver self.now.telling.machine pipe tag (suc (greatest_tag self.now.telling.machine))) }
    {
        self.bus.next_left_over(pipe, tag)
    }

    /// How many clients its bus has.
    #[tactic(auto, unfolding(crate::specs::Walks::machine_of))]
    pub fn clients(&self) -> usize
        ensures count { result ≡ length self.now.telling.machine.parts }
        ensures most { result ≤ MAX_CLIENTS }
    {
        self.bus.clients()
    }

    /// How many tags each client has, which never changes.
    #[tactic(auto, unfolding(crate::specs::Walks::machine_of))]
    pub fn tags(&self) -> usize
        ensures tags { result ≡ self.now.telling.machine.tags }
        ensures number { AreTags result }
    {
        self.bus.tags()
    }

    /// What it told.
    pub fn text(&self) -> &[u8]
        ensures { result.now ≡ self.now.telling.text }
    {
        &self.text
    }

    /// What it told since its text was this long.
    fn told_since(&self, len: usize) -> &[u8]
        ensures { result.now ≡ told_since len self.now.telling }
    {
        self.text.get(len..).unwrap_or_default()
    }

    /// Whether it told a check, an abort or a refusal.
    pub fn has_failed(&self) -> bool
        ensures { result ≡ self.now.telling.failed }
    {
        self.failed
    }

    /// Steps of the bus until none acts, or so many have acted.
    #[tactic(auto, unfolding(crate::specs::Told::drained_machine, crate::specs::Walks::machine_of))]
    pub fn act_all(&mut self, limit: usize)
        ensures { self.new.telling ≡ record self.old.telling { machine = drained_machine self.old.telling.machine limit } }
    {
        let _ = self.bus.drain(limit);
    }

    /// Prints a refusal.
    fn refuse(&mut self, client: usize, name: &str) -> Result<(), AllocError>
        ensures { OnOk result (self.new ≡ record self.old { telling = refused_run self.old.telling client name.now }) }
    {
        self.failed = true;
        printed::push_refusal(self.alloc, &mut self.text, client, name)
    }

    /// A tag and a ticket of a client's own for what it hands in, or why there is none; nothing where there is no such client.
    fn issue(&mut self, client: usize, handed: &Handed) -> Option<Result<(Tag, Ticket), Refused>>
        ensures run { self.new ≡ record self.old { telling = issued_run self.old.telling client handed.now } }
        ensures answer { result ≡ issued_in self.old.telling client handed.now }
        ensures ticket { IfSome result (λ answer. IfOk answer (λ given. given.1 < 2 ^ 60)) }
    {
        match self.ranges.get_mut(client) {
            Some(range) => Some(handed.issue(range)),
            None => None,
        }
    }

    /// Frees a tag that is out.
    fn free(&mut self, client: usize, tag: u16)
        ensures { self.new ≡ record self.old { telling = freed_run self.old.telling client tag } }
    {
        if let Some(range) = self.ranges.get_mut(client) {
            if range.is_issued(tag) {
                range.free(tag);
            }
        }
    }

    /// Prints a reply and frees its tag.
    fn reply(&mut self, client: usize, reply: &Reply) -> Result<(), AllocError>
        ensures { OnOk result (self.new ≡ record self.old { telling = replied self.old.telling client (Some reply.now) }) }
    {
        let tag = reply.tag();
        let brings_in = self.is_brought_in(client, reply.ticket());
        printed::push_reply(self.alloc, &mut self.text, client, brings_in, reply)?;
        self.failed = self.failed || printed::is_failure(reply);
        self.free(client, tag);
        Ok(())
    }

    /// Prints that a step wasn't due.
    fn idle(&mut self) -> Result<(), AllocError>
        ensures { OnOk result (self.new ≡ record self.old { telling = idle_run self.old.telling }) }
    {
        printed::push_idle(&mut self.text)
    }

    /// Notes of a client's last ticket whether the bus took a command under it that moves data to the host.
    fn note(&mut self, client: usize, brings_in: bool) -> Result<(), AllocError>
        ensures { OnOk result (self.new ≡ record self.old { telling = noted_run self.old.telling client brings_in }) }
    {
        if let Some(notes) = self.brings_in.get_mut(client) {
            notes.push(brings_in)?;
        }
        Ok(())
    }

    /// What was noted of a client's ticket.
    fn is_brought_in(&self, client: usize, ticket: u64) -> bool
        ensures { result ≡ is_brought_in self.now.telling.brings_in client ticket }
    {
        match self.brings_in.get(client) {
            Some(notes) => notes.at(ticket),
            None => false,
        }
    }

    /// What the bus made of a submission: where it refused it, the ticket is skipped and the tag freed.
    fn hear(&mut self, client: usize, tag: u16, refused: Option<Refusal>) -> Result<(), AllocError>
        ensures { OnOk result (self.new ≡ record self.old { telling = handed_over self.old.telling client tag refused }) }
    {
        let Some(refusal) = refused else {
            return Ok(());
        };
        self.free(client, tag);
        self.refuse(client, printed::fault_name(refusal.fault))
    }
}

/// What holds of all rings: they lie where the address map says.
fn stand(lines: &Lines)
    ensures { IsLines lines.now }
{
    prove!(lines.len() < EVENT_RING_PLACES);
}

/// What lines tell on zeroed units: the text, and 1 where it tells a check, an abort or a refusal, else 0.
#[tactic(auto, unfolding(crate::specs::Told::told))]
pub fn told(alloc: Global, disks: Disks, lines: &[Line]) -> Result<(Vec<u8>, u8), AllocError>
    requires { AreDisks disks }
    ensures text { IfOk result (λ given. given.0.items ≡ (told disks.tags (zeroed_units disks.clients disks.blocks disks.bad) lines.now).0) }
    ensures status { IfOk result (λ given. given.1 ≤ 1) }
    ensures number { IfOk result (λ given. given.1 ≡ (told disks.tags (zeroed_units disks.clients disks.blocks disks.bad) lines.now).1) }
{
    let mut run = ScriptRun::new(alloc, disks)?;
    let Ok(()) = run.whole(&mut Unwatched, &mut (), lines) else {
        return Err(AllocError);
    };
    let ScriptRun { text, failed, .. } = run;
    Ok((text, if failed { COMMAND_FAILED } else { DONE }))
}
