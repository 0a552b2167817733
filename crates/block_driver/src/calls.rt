//! The calls: what the driver tells, and what it is answered.
#![tactic(auto, using(crate::proofs::Kept::kept_same))]

ghost use Rattle.std.specs.Prelude.{◌≡◌, ◌↔◌, true, false, None, Some, IfOk};
ghost use Rattle.bring_up.specs.Accesses.{IsInside};
ghost use Rattle.bring_up.specs.Calls.{fits, layout_of};
ghost use Rattle.disk_ready.specs.Calls.{begun_ready};
ghost use Rattle.block_driver.specs.Calls.{answered, asked_access, begun_driver, driver_access, driver_advanced, driver_told, driver_woken, interrupted, is_asked, met, met_behind, next_access, next_layout, next_state, own_access, own_answered, taken_back};
ghost use Rattle.block_driver.specs.Table.{RepliesStand, marks};
ghost use Rattle.block_driver.specs.Turns.{is_back, is_slot_asked, is_step_back};

use crate::steps::Blocks;
use crate::table::Loss;
use crate::tags::Tags;
use crate::{BlockDriver, NewFault};
use bring_up::{Access, AnswerFault, Asked, Options, Stage, Step, fits, is_gone, word_in};
use disk_ready::DiskReady;
use std::alloc::Global;

impl BlockDriver {
    /// A driver for a controller of which nothing is known. `Options` where the options can't be asked, `NoMemory` where there is none for the tags:
    /// no later call takes any.
    pub fn new(alloc: Global, options: Options) -> Result<BlockDriver, NewFault>
        ensures begun { IfOk result (λ driver. begun_driver options ≡ Some driver) }
        ensures options { (result ≡ Err NewFault.Options) ↔ (begun_ready options ≡ None) }
    {
        let Some(ready) = DiskReady::new(options) else {
            return Err(NewFault::Options);
        };
        match Tags::new(alloc, options.tags) {
            Ok(tags) => Ok(BlockDriver {
                ready,
                blocks: Blocks::begun(tags),
                is_asked: false,
            }),
            Err(_) => Err(NewFault::NoMemory),
        }
    }

    /// What the caller does next, at a time in ms. A read or a load is told again until it is answered.
    pub fn next(&mut self, now: u64) -> Access
        ensures told { result ≡ next_access self.old now }
        ensures state { self.new ≡ next_state self.old now }
        ensures inside { IsInside self.old.ready.device.driver.options.bar_bytes (next_layout self.old now) result }
        ensures options { self.new.ready.device.driver.options ≡ self.old.ready.device.driver.options }
        ensures once { marks self.new.blocks.tags ≡ marks self.old.blocks.tags }
        ensures replies { RepliesStand self.old.blocks.tags self.new.blocks.tags }
    {
        let is_open = self.blocks.disk.is_some();
        let access = self.ready.next(now);
        if is_open {
            self.go_on()
        } else {
            self.meet();
            access
        }
    }

    /// TDs that were given back end their commands; shutting down goes on; a disk that got ready is used.
    fn meet(&mut self)
        ensures is { self.new ≡ met self.old }
        ensures options { self.new.ready.device.driver.options ≡ self.old.ready.device.driver.options }
        ensures once { marks self.new.blocks.tags ≡ marks self.old.blocks.tags }
        ensures replies { RepliesStand self.old.blocks.tags self.new.blocks.tags }
    {
        self.take_back();
        self.shut_on();
        self.open_ready();
    }

    fn take_back(&mut self)
        ensures is { self.new ≡ taken_back self.old }
        ensures options { self.new.ready.device.driver.options ≡ self.old.ready.device.driver.options }
        ensures once { marks self.new.blocks.tags ≡ marks self.old.blocks.tags }
        ensures replies { RepliesStand self.old.blocks.tags self.new.blocks.tags }
    {
        if is_back(&self.ready.device.driver.stage) {
            self.blocks.give_back();
        }
    }

    fn open_ready(&mut self)
        ensures is { self.new ≡ met_behind self.old }
        ensures options { self.new.ready.device.driver.options ≡ self.old.ready.device.driver.options }
        ensures once { marks self.new.blocks.tags ≡ marks self.old.blocks.tags }
        ensures replies { RepliesStand self.old.blocks.tags self.new.blocks.tags }
    {
        if let Some(disk) = self.ready.disk() {
            self.blocks.open(disk, self.ready.ready.spots);
            self.is_asked = false;
        }
    }

    /// Tells an access of the commands'.
    fn go_on(&mut self) -> Access
        ensures told { result ≡ driver_access (driver_woken self.old) }
        ensures state { self.new ≡ driver_told (driver_woken self.old) }
        ensures inside { IsInside self.old.ready.device.driver.options.bar_bytes (layout_of (driver_woken self.old).ready.device.driver.stage) result }
        ensures options { self.new.ready.device.driver.options ≡ self.old.ready.device.driver.options }
        ensures once { marks self.new.blocks.tags ≡ marks self.old.blocks.tags }
        ensures replies { RepliesStand self.old.blocks.tags self.new.blocks.tags }
    {
        self.wake();
        self.tell()
    }

    /// Goes on behind a rest that is over.
    fn wake(&mut self)
        ensures is { self.new ≡ driver_woken self.old }
        ensures options { self.new.ready.device.driver.options ≡ self.old.ready.device.driver.options }
        ensures once { marks self.new.blocks.tags ≡ marks self.old.blocks.tags }
        ensures replies { RepliesStand self.old.blocks.tags self.new.blocks.tags }
    {
        match self.access() {
            Access::Rest(until) if until <= self.ready.device.driver.time => self.advance(&[]),
            _ => {}
        }
    }

    /// Tells an access, and takes it for done where it isn't answered.
    fn tell(&mut self) -> Access
        ensures told { result ≡ driver_access self.old }
        ensures state { self.new ≡ driver_told self.old }
        ensures inside { IsInside self.old.ready.device.driver.options.bar_bytes (layout_of self.old.ready.device.driver.stage) result }
        ensures options { self.new.ready.device.driver.options ≡ self.old.ready.device.driver.options }
        ensures once { marks self.new.blocks.tags ≡ marks self.old.blocks.tags }
        ensures replies { RepliesStand self.old.blocks.tags self.new.blocks.tags }
    {
        let access = self.access();
        self.is_asked = access.is_read();
        if access.is_written() {
            self.advance(&[]);
        }
        access
    }

    /// The access of the commands' step, where that is of the registers or of the memory that was lent.
    fn access(&self) -> Access
        ensures is { result ≡ driver_access self.now }
        ensures inside { IsInside self.now.ready.device.driver.options.bar_bytes (layout_of self.now.ready.device.driver.stage) result }
    {
        self.own_access().kept(
            self.ready.device.driver.options.bar_bytes,
            self.ready.device.driver.layout(),
        )
    }

    fn own_access(&self) -> Access
        ensures { result ≡ own_access self.now }
    {
        match &self.ready.device.driver.stage {
            Stage::Taken(taken) => self
                .blocks
                .found_access(taken, &self.ready.device.finding.known.disk),
            _ => Access::Rest(u64::MAX),
        }
    }

    /// Goes on behind the step's access, with what was read.
    fn advance(&mut self, bytes: &[u8])
        ensures is { self.new ≡ driver_advanced self.old bytes.now }
        ensures options { self.new.ready.device.driver.options ≡ self.old.ready.device.driver.options }
        ensures once { marks self.new.blocks.tags ≡ marks self.old.blocks.tags }
        ensures replies { RepliesStand self.old.blocks.tags self.new.blocks.tags }
    {
        let now = self.ready.device.driver.time;
        let found = self.ready.device.finding.known.disk;
        match &mut self.ready.device.driver.stage {
            Stage::Taken(taken) => self
                .blocks
                .found_advance(taken, &found, now, word_in(bytes), bytes),
            _ => {}
        }
    }

    /// Tells what was read. `NotAsked` where nothing was told that is answered, `Length` for other than its bytes; neither changes anything.
    pub fn answer(&mut self, bytes: &[u8]) -> Result<(), AnswerFault>
        ensures state { self.new ≡ answered self.old bytes.now }
        ensures not_asked { (result ≡ Err AnswerFault.NotAsked) ↔ (is_asked self.old ≡ false) }
        ensures length { (result ≡ Err AnswerFault.Length) ↔ ((is_asked self.old ≡ true) × (fits (asked_access self.old) bytes.now ≡ false)) }
        ensures once { marks self.new.blocks.tags ≡ marks self.old.blocks.tags }
        ensures replies { RepliesStand self.old.blocks.tags self.new.blocks.tags }
    {
        if self.blocks.disk.is_some() {
            self.own_answer(bytes)
        } else {
            let answered = self.ready.answer(bytes);
            self.meet();
            answered
        }
    }

    fn own_answer(&mut self, bytes: &[u8]) -> Result<(), AnswerFault>
        ensures state { self.new ≡ own_answered self.old bytes.now }
        ensures not_asked { (result ≡ Err AnswerFault.NotAsked) ↔ (self.old.is_asked ≡ false) }
        ensures length { (result ≡ Err AnswerFault.Length) ↔ ((self.old.is_asked ≡ true) × (fits (driver_access self.old) bytes.now ≡ false)) }
        ensures once { marks self.new.blocks.tags ≡ marks self.old.blocks.tags }
        ensures replies { RepliesStand self.old.blocks.tags self.new.blocks.tags }
    {
        if !self.is_asked {
            return Err(AnswerFault::NotAsked);
        }
        let access = self.access();
        if !fits(&access, bytes) {
            return Err(AnswerFault::Length);
        }
        self.is_asked = false;
        if is_gone(&access, bytes) {
            self.ready.device.driver.stage = Stage::Gone;
            self.blocks.close(Loss::Gone);
        } else {
            self.advance(bytes);
        }
        Ok(())
    }

    /// An interrupt came: events are looked for at once.
    pub fn interrupted(&mut self)
        ensures is { self.new ≡ interrupted self.old }
        ensures once { marks self.new.blocks.tags ≡ marks self.old.blocks.tags }
        ensures replies { RepliesStand self.old.blocks.tags self.new.blocks.tags }
    {
        self.ready.interrupted();
        self.blocks.is_interrupted = self.blocks.disk.is_some();
    }
}

/// Whether TDs that were put aren't the controller's any more: the slot was given back, or the controller was reset; one that is dead or gone is
/// apart.
pub(crate) fn is_back(stage: &Stage) -> bool
    ensures { result ≡ is_back stage.now }
{
    match stage {
        Stage::Taken(taken) => is_step_back(taken.step),
        Stage::Surveying(_) | Stage::Wanting(_) | Stage::Refused(_) | Stage::Gone => true,
    }
}

pub(crate) fn is_step_back(step: Step) -> bool
    ensures { result ≡ is_step_back step }
{
    match step {
        Step::Handoff(_) | Step::Halt(_) | Step::Reset(_) => false,
        Step::Command { asked, .. } | Step::Serve { asked, .. } => !is_slot_asked(asked),
        Step::Program(_)
        | Step::Run(_)
        | Step::Ports(_)
        | Step::PortReset(_)
        | Step::Addressing(_)
        | Step::Watch(_)
        | Step::Ended(_) => true,
    }
}

fn is_slot_asked(asked: Asked) -> bool
    ensures { result ≡ is_slot_asked asked }
{
    matches!(asked, Asked::ResetPort | Asked::Forget | Asked::Refuse(_))
}
