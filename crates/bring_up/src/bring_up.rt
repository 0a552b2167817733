//! The driver's calls: what it tells, and what it is answered.
ghost use Rattle.std.specs.Prelude.{◌≡◌, ◌↔◌, true, false};
ghost use Rattle.bring_up.specs.Accesses.{IsInside};
ghost use Rattle.bring_up.specs.Calls.{answered, at_time, begun, driver_access, first_stage, fits, interrupted, is_addressed, is_gone, layout_of, stage_access, stage_advanced, surveyed, told, woken};

use crate::access::{Access, read_at};
use crate::controller::Controller;
use crate::options::Options;
use crate::survey::{Survey, Surveyed};
use crate::taken::{Taken, word_in};
use crate::why::Why;
use host_layout::Layout;
use thiserror::Error;

/// How far a controller is.
#[derive(Clone, Copy)]
pub enum Stage {
    Surveying(Survey),
    /// It is known, and memory is to be lent for it.
    Wanting(Controller),
    Taken(Taken),
    Refused(Why),
    /// A register was all ones.
    Gone,
}

/// A controller that is brought up.
#[derive(Clone, Copy)]
pub struct BringUp {
    pub options: Options,
    /// The latest time that was told.
    pub time: u64,
    /// An access was told that is to be answered.
    pub is_asked: bool,
    pub stage: Stage,
}

/// Why an answer isn't taken.
#[derive(Clone, Copy, Debug, PartialEq, Eq, Error)]
pub enum AnswerFault {
    #[error("no access was told that is answered")]
    NotAsked = 1,
    #[error("other bytes than were asked for")]
    Length,
}

/// Why memory isn't taken.
#[derive(Clone, Copy, Debug, PartialEq, Eq, Error)]
pub enum LendFault {
    #[error("no memory is wanted")]
    NotAsked = 1,
    #[error("the address is no multiple of 65536")]
    Alignment,
    #[error("the controller doesn't reach the memory, or it crosses a multiple of 2^32")]
    Reach,
}

/// The least bytes of registers: those of the capabilities.
const LEAST_BAR: u32 = 32;

impl BringUp {
    /// A driver for a controller of which nothing is known. None where the options can't be asked.
    pub fn new(options: Options) -> Option<BringUp>
        ensures { result ≡ begun options }
    {
        if !options.can_ask() {
            return None;
        }
        Some(BringUp {
            options,
            time: 0,
            is_asked: false,
            stage: first_stage(options),
        })
    }

    /// What the caller does next, at a time in ms. A read or a load is told again until it is answered.
    pub fn next(&mut self, now: u64) -> Access
        ensures told { result ≡ driver_access (woken (at_time self.old now)) }
        ensures inside { IsInside self.old.options.bar_bytes (layout_of (woken (at_time self.old now)).stage) result }
        ensures state { self.new ≡ told (woken (at_time self.old now)) }
    {
        self.pass(now);
        self.tell()
    }

    /// Time passes: what rests up to it goes on.
    fn pass(&mut self, now: u64)
        ensures is { self.new ≡ woken (at_time self.old now) }
        ensures options { self.new.options ≡ self.old.options }
    {
        self.time = self.time.max(now);
        self.wake();
    }

    /// Tells an access, and takes it for done where it isn't answered.
    fn tell(&mut self) -> Access
        ensures told { result ≡ driver_access self.old }
        ensures state { self.new ≡ told self.old }
        ensures inside { IsInside self.old.options.bar_bytes (layout_of self.old.stage) result }
    {
        let access = self.access();
        self.is_asked = access.is_read();
        if access.is_written() {
            self.stage.advance(self.time, &[]);
        }
        access
    }

    /// The memory that was lent.
    pub fn layout(&self) -> Option<Layout>
        ensures { result ≡ layout_of self.now.stage }
    {
        self.stage.layout()
    }

    /// Its stage's access, where that is of the registers or of the memory that was lent.
    fn access(&self) -> Access
        ensures is { result ≡ driver_access self.now }
        ensures inside { IsInside self.now.options.bar_bytes (layout_of self.now.stage) result }
    {
        self.stage
            .access()
            .kept(self.options.bar_bytes, self.stage.layout())
    }

    /// Goes on behind a rest that is over.
    fn wake(&mut self)
        ensures is { self.new ≡ woken self.old }
        ensures options { self.new.options ≡ self.old.options }
    {
        match self.access() {
            Access::Rest(until) if until <= self.time => self.stage.advance(self.time, &[]),
            _ => {}
        }
    }

    /// Tells what was read. `NotAsked` where nothing was told that is answered, `Length` for other than its bytes; neither changes
    /// anything. A register of ones alone is one of a controller that is gone.
    pub fn answer(&mut self, bytes: &[u8]) -> Result<(), AnswerFault>
        ensures state { self.new ≡ answered self.old bytes.now }
        ensures not_asked { (result ≡ Err AnswerFault.NotAsked) ↔ (self.old.is_asked ≡ false) }
        ensures length { (result ≡ Err AnswerFault.Length) ↔ ((self.old.is_asked ≡ true) × (fits (driver_access self.old) bytes.now ≡ false)) }
    {
        if !self.is_asked {
            return Err(AnswerFault::NotAsked);
        }
        let access = self.access();
        if !fits(&access, bytes) {
            return Err(AnswerFault::Length);
        }
        self.is_asked = false;
        if is_gone(&access, bytes) {
            self.stage = Stage::Gone;
        } else {
            self.stage.advance(self.time, bytes);
        }
        Ok(())
    }

    /// Whether its device has its address.
    pub fn is_addressed(&self) -> bool
        ensures { result ≡ is_addressed self.now.stage }
    {
        match &self.stage {
            Stage::Taken(taken) => taken.is_addressed(),
            _ => false,
        }
    }

    /// An interrupt came: events are looked for at once.
    pub fn interrupted(&mut self)
        ensures { self.new ≡ interrupted self.old }
    {
        match &mut self.stage {
            Stage::Taken(taken) => taken.interrupt(),
            _ => {}
        }
    }
}

fn first_stage(options: Options) -> Stage
    ensures { result ≡ first_stage options }
{
    if options.bar_bytes < LEAST_BAR {
        Stage::Refused(Why::SmallBar)
    } else {
        Stage::Surveying(Survey::begun(options))
    }
}

/// Whether bytes are as many as an access asks for.
pub fn fits(access: &Access, bytes: &[u8]) -> bool
    ensures { result ≡ fits access.now bytes.now }
{
    match access {
        Access::Read32(_) => bytes.len() == 4,
        Access::Load { length, .. } => bytes.len() as u64 == u64::from(*length),
        _ => false,
    }
}

/// Whether they are a register of ones alone.
pub fn is_gone(access: &Access, bytes: &[u8]) -> bool
    ensures { result ≡ is_gone access.now bytes.now }
{
    match access {
        Access::Read32(_) => word_in(bytes) == u32::MAX,
        _ => false,
    }
}

impl Stage {
    fn access(&self) -> Access
        ensures { result ≡ stage_access self.now }
    {
        match self {
            Stage::Surveying(survey) => read_at(survey.offset()),
            Stage::Taken(taken) => taken.access(),
            Stage::Wanting(_) | Stage::Refused(_) | Stage::Gone => Access::Rest(u64::MAX),
        }
    }

    /// The memory that was lent.
    fn layout(&self) -> Option<Layout>
        ensures { result ≡ layout_of self.now }
    {
        match self {
            Stage::Taken(taken) => Some(taken.layout),
            Stage::Surveying(_) | Stage::Wanting(_) | Stage::Refused(_) | Stage::Gone => None,
        }
    }

    fn advance(&mut self, now: u64, bytes: &[u8])
        ensures { self.new ≡ stage_advanced self.old now bytes.now }
    {
        match self {
            Stage::Surveying(survey) => *self = surveyed(survey.read(word_in(bytes))),
            Stage::Taken(taken) => taken.advance(now, bytes),
            Stage::Wanting(_) | Stage::Refused(_) | Stage::Gone => {}
        }
    }
}

fn surveyed(found: Surveyed) -> Stage
    ensures { result ≡ surveyed found }
{
    match found {
        Surveyed::Refused(why) => Stage::Refused(why),
        Surveyed::On(survey) => Stage::Surveying(survey),
        Surveyed::Found(controller) => Stage::Wanting(controller),
    }
}
