//! Rows 3, 4, 5 and 7: the controller is taken from firmware, halted, reset and run (xHCI 1.2, 4.2, 5.4.1, 5.4.2 and 7.1).
ghost use Rattle.std.specs.Prelude.{◌≡◌, ◌<◌, ◌^◌, bit_and, bit_or, not};
ghost use Rattle.bring_up.specs.Takeovers.{first_step, halt_access, halt_after, done_waited, halted_waited, handoff_access, handoff_after, handoff_waited, ready_waited, reset_access, reset_after, reset_waited, run_access, run_after, run_waited};

use crate::access::{Access, later, read_at, write_at};
use crate::controller::{Controller, PortPlace, is_set};
use crate::ports::Ports;
use crate::program::Program;
use crate::step::{Ended, Step};
use crate::waits::{Wait, Waited};
use crate::why::Why;

/// Row 3.
#[derive(Clone, Copy)]
pub enum Handoff {
    /// USBLEGSUP is read.
    Owner,
    /// HC OS Owned Semaphore is set in this value.
    Claim(u32),
    /// Until HC BIOS Owned Semaphore is 0.
    Wait(Wait),
    /// HC BIOS Owned Semaphore is cleared in this value.
    Force(u32),
    /// USBLEGCTLSTS is read.
    Control,
    /// Its interrupts are turned off, in this value.
    Quiet(u32),
}

/// Row 4.
#[derive(Clone, Copy)]
pub enum Halt {
    /// Until Controller Not Ready is 0.
    Ready(Wait),
    /// USBCMD is read.
    Command,
    /// Run/Stop and the interrupts are cleared in this value.
    Stop(u32),
    /// Until HCHalted is 1.
    Halted(Wait),
}

/// Row 5.
#[derive(Clone, Copy)]
pub enum Reset {
    /// USBCMD is read.
    Command,
    /// Host Controller Reset is set in this value.
    Start(u32),
    /// No access up to this time: some controllers hang.
    Pause(u64),
    /// Until Host Controller Reset is 0.
    Done(Wait),
    /// Until Controller Not Ready is 0.
    Ready(Wait),
}

/// Row 7.
#[derive(Clone, Copy)]
pub enum Run {
    /// USBCMD is read.
    Command,
    /// Run/Stop and Interrupter Enable are set in this value.
    Start(u32),
    /// Until HCHalted is 0.
    Started(Wait),
}

/// USBLEGSUP: HC BIOS and HC OS Owned Semaphore.
const BIOS_OWNED: u32 = 16;

const OS_OWNED: u32 = 1 << 24;

const NOT_BIOS_OWNED: u32 = 0xfffe_ffff;

/// USBLEGCTLSTS: what is kept of it, and the events that are cleared.
const LEGACY_KEPT: u32 = 0x000e_1fee;

const LEGACY_EVENTS: u32 = 0xe000_0000;

/// USBSTS: HCHalted and Controller Not Ready.
const HALTED: u32 = 0;

const NOT_READY: u32 = 11;

/// USBCMD: without Run/Stop and the interrupts; with Host Controller Reset; with Run/Stop and Interrupter Enable.
const STOPPED: u32 = 0xffff_fbf2;

const RESET: u32 = 2;

const RUNNING: u32 = 5;

/// Where the take-over begins: at its first row, or the next where there is no USBLEGSUP.
pub(crate) fn first_step(c: &Controller, now: u64) -> Step
    ensures { result ≡ first_step c.now now }
{
    if c.legacy.is_some() {
        Step::Handoff(Handoff::Owner)
    } else {
        Step::Halt(Halt::Ready(Wait::begun(now, 5000)))
    }
}

impl Handoff {
    pub(crate) fn access(self, c: &Controller) -> Access
        ensures { result ≡ handoff_access self c.now }
    {
        let owner = c.legacy_register();
        match self {
            Handoff::Owner => read_at(owner),
            Handoff::Claim(value) => write_at(owner, value | OS_OWNED),
            Handoff::Wait(wait) => wait.access(owner),
            Handoff::Force(value) => write_at(owner, value & NOT_BIOS_OWNED),
            Handoff::Control => read_at(owner + 4),
            Handoff::Quiet(value) => write_at(owner + 4, value & LEGACY_KEPT | LEGACY_EVENTS),
        }
    }

    pub(crate) fn after(self, now: u64, value: u32) -> Step
        ensures { result ≡ handoff_after self now value }
    {
        match self {
            Handoff::Owner => Step::Handoff(Handoff::Claim(value)),
            Handoff::Claim(_) => Step::Handoff(Handoff::Wait(Wait::begun(now, 1000))),
            Handoff::Wait(wait) => handoff_waited(
                wait.waited(now, 1, !is_set(value, BIOS_OWNED)),
                value,
            ),
            Handoff::Force(_) => Step::Handoff(Handoff::Control),
            Handoff::Control => Step::Handoff(Handoff::Quiet(value)),
            Handoff::Quiet(_) => Step::Halt(Halt::Ready(Wait::begun(now, 5000))),
        }
    }
}

fn handoff_waited(waited: Waited, value: u32) -> Step
    ensures { result ≡ handoff_waited waited value }
{
    match waited {
        Waited::So => Step::Handoff(Handoff::Control),
        Waited::Late => Step::Handoff(Handoff::Force(value)),
        Waited::On(wait) => Step::Handoff(Handoff::Wait(wait)),
    }
}

impl Halt {
    pub(crate) fn access(self, c: &Controller) -> Access
        ensures { result ≡ halt_access self c.now }
    {
        match self {
            Halt::Ready(wait) | Halt::Halted(wait) => wait.access(c.status_register()),
            Halt::Command => read_at(c.command_register()),
            Halt::Stop(value) => write_at(c.command_register(), value & STOPPED),
        }
    }

    pub(crate) fn after(self, now: u64, value: u32) -> Step
        ensures { result ≡ halt_after self now value }
    {
        match self {
            Halt::Ready(wait) => ready_waited(wait.waited(now, 1, !is_set(value, NOT_READY))),
            Halt::Command => Step::Halt(Halt::Stop(value)),
            Halt::Stop(_) => Step::Halt(Halt::Halted(Wait::begun(now, 100))),
            Halt::Halted(wait) => halted_waited(wait.waited(now, 1, is_set(value, HALTED))),
        }
    }
}

/// A controller that doesn't get ready is reset all the same.
fn ready_waited(waited: Waited) -> Step
    ensures { result ≡ ready_waited waited }
{
    match waited {
        Waited::So | Waited::Late => Step::Halt(Halt::Command),
        Waited::On(wait) => Step::Halt(Halt::Ready(wait)),
    }
}

fn halted_waited(waited: Waited) -> Step
    ensures { result ≡ halted_waited waited }
{
    match waited {
        Waited::So => Step::Reset(Reset::Command),
        Waited::Late => Step::Ended(Ended::Refused(Why::StillRuns)),
        Waited::On(wait) => Step::Halt(Halt::Halted(wait)),
    }
}

impl Reset {
    pub(crate) fn access(self, c: &Controller) -> Access
        ensures { result ≡ reset_access self c.now }
    {
        match self {
            Reset::Command => read_at(c.command_register()),
            Reset::Start(value) => write_at(c.command_register(), value | RESET),
            Reset::Pause(until) => Access::Rest(until),
            Reset::Done(wait) => wait.access(c.command_register()),
            Reset::Ready(wait) => wait.access(c.status_register()),
        }
    }

    pub(crate) fn after(self, now: u64, value: u32) -> Step
        ensures { result ≡ reset_after self now value }
    {
        match self {
            Reset::Command => Step::Reset(Reset::Start(value)),
            Reset::Start(_) => Step::Reset(Reset::Pause(later(now, 2))),
            Reset::Pause(_) => Step::Reset(Reset::Done(Wait::begun(now, 10_000))),
            Reset::Done(wait) => reset_waited(wait, wait.waited(now, 1, !is_set(value, 1))),
            Reset::Ready(wait) => done_waited(wait.waited(now, 1, !is_set(value, NOT_READY))),
        }
    }
}

/// Both waits of a reset have one limit.
fn reset_waited(wait: Wait, waited: Waited) -> Step
    ensures { result ≡ reset_waited wait waited }
{
    match waited {
        Waited::So => Step::Reset(Reset::Ready(wait)),
        Waited::Late => Step::Ended(Ended::Dead),
        Waited::On(wait) => Step::Reset(Reset::Done(wait)),
    }
}

fn done_waited(waited: Waited) -> Step
    ensures { result ≡ done_waited waited }
{
    match waited {
        Waited::So => Step::Program(Program::Zero(0)),
        Waited::Late => Step::Ended(Ended::Dead),
        Waited::On(wait) => Step::Reset(Reset::Ready(wait)),
    }
}

impl Run {
    pub(crate) fn access(self, c: &Controller) -> Access
        ensures { result ≡ run_access self c.now }
    {
        match self {
            Run::Command => read_at(c.command_register()),
            Run::Start(value) => write_at(c.command_register(), value | RUNNING),
            Run::Started(wait) => wait.access(c.status_register()),
        }
    }

    pub(crate) fn after(self, now: u64, value: u32) -> Step
        ensures { result ≡ run_after self now value }
    {
        match self {
            Run::Command => Step::Run(Run::Start(value)),
            Run::Start(_) => Step::Run(Run::Started(Wait::begun(now, 100))),
            Run::Started(wait) => run_waited(wait.waited(now, 1, !is_set(value, HALTED))),
        }
    }
}

fn run_waited(waited: Waited) -> Step
    ensures { result ≡ run_waited waited }
{
    match waited {
        Waited::So => Step::Ports(Ports::Power(PortPlace::first())),
        Waited::Late => Step::Ended(Ended::Dead),
        Waited::On(wait) => Step::Run(Run::Started(wait)),
    }
}
