//! The driver is shut down: all commands end, the disk brings all blocks to its medium, its slot is given back, and the controller is halted and reset,
//! which brings the disk back to Bulk-Only Transport for firmware.
#![tactic(auto, using(crate::proofs::Kept::kept_same))]

ghost use Rattle.std.specs.Prelude.{◌≡◌, IfErr, OnErr, OnOk, is_err, is_none};
ghost use Rattle.block_driver.specs.Calls.{shut_driver, shut_in, shut_on};
ghost use Rattle.block_driver.specs.Closings.{can_end, can_halt, is_kept, is_program, shutting};
ghost use Rattle.block_driver.specs.Steps.{World, is_closable, is_drained, is_draining};
ghost use Rattle.block_driver.specs.Submits.{open_disk};
ghost use Rattle.block_driver.specs.Table.{RepliesStand, marks};
ghost use Rattle.block_driver.specs.Turns.{shut};

use crate::calls::is_step_back;
use crate::kinds::Kind;
use crate::steps::Blocks;
use crate::table::Loss;
use crate::{BlockDriver, Fault};
use bring_up::{Ended, Halt, Stage, Step, Taken, Why};

/// How far the driver is shut down.
#[derive(Clone, Copy, Debug, PartialEq, Eq)]
pub enum Closing {
    Open,
    /// Commands end, and the disk brings its blocks to the medium; then its slot is given back.
    Draining,
    /// The controller is halted and reset.
    Halting,
    /// Neither it nor the memory is the driver's any more.
    Stopped,
}

/// What comes behind a step of the controller.
#[derive(Clone, Copy, Debug, PartialEq, Eq)]
pub(crate) enum ShutStep {
    Stay,
    Halt,
    Leave,
}

impl Closing {
    pub(crate) fn is_kept(self) -> bool
        ensures { result ≡ is_kept self }
    {
        matches!(self, Closing::Open)
    }

    fn is_draining(self) -> bool
        ensures { result ≡ is_draining self }
    {
        matches!(self, Closing::Draining)
    }
}

/// Whether the controller can be halted.
fn can_halt(step: Step) -> bool
    ensures { result ≡ can_halt step }
{
    match step {
        Step::Ended(at) => can_end(at),
        at => is_step_back(at),
    }
}

fn can_end(at: Ended) -> bool
    ensures { result ≡ can_end at }
{
    match at {
        Ended::Addressed => true,
        Ended::Refused(_) | Ended::Dead => false,
    }
}

fn is_program(step: Step) -> bool
    ensures { result ≡ is_program step }
{
    matches!(step, Step::Program(_))
}

fn shutting(closing: Closing, step: Step) -> ShutStep
    ensures { result ≡ shutting closing step }
{
    match closing {
        Closing::Draining if can_halt(step) => ShutStep::Halt,
        Closing::Halting if is_program(step) => ShutStep::Leave,
        _ => ShutStep::Stay,
    }
}

impl Blocks {
    /// Whether it is shutting down, and no command is out.
    pub(crate) fn is_drained(&self) -> bool
        ensures { result ≡ is_drained self.now }
    {
        self.closing.is_draining() && self.tags.first(Kind::Out).is_none()
    }

    /// Likewise, and nothing else is awaited.
    pub(crate) fn is_closable(&self) -> bool
        ensures { result ≡ is_closable self.now }
    {
        self.removal.is_none() && self.own.is_none() && self.is_drained()
    }

    /// The disk isn't used any more: its slot is given back.
    pub(crate) fn shut(&mut self, taken: &mut Taken)
        ensures is { record { blocks = self.new; taken = taken.new } ≡ shut (record { blocks = self.old; taken = taken.old }) }
        ensures once { marks self.new.tags ≡ marks self.old.tags }
        ensures replies { RepliesStand self.old.tags self.new.tags }
    {
        self.close(Loss::Restarted);
        taken.give_up(Why::Silent);
    }
}

impl BlockDriver {
    /// Shuts the driver down. No request is taken any more; all that are out have their replies; then the disk brings its blocks to the medium, its slot
    /// is given back, and the controller is halted and reset. In state `Stopped` the memory is the caller's again. `NotReady` while no disk is used,
    /// which changes nothing.
    pub fn shut_down(&mut self) -> Result<(), Fault>
        ensures refused { is_err result ≡ is_none (open_disk self.old) }
        ensures fault { IfErr result (λ fault. fault ≡ Fault.NotReady) }
        ensures kept { OnErr result (self.new ≡ self.old) }
        ensures state { OnOk result (self.new ≡ shut_driver self.old) }
        ensures once { marks self.new.blocks.tags ≡ marks self.old.blocks.tags }
        ensures replies { RepliesStand self.old.blocks.tags self.new.blocks.tags }
    {
        if self.open().is_none() {
            return Err(Fault::NotReady);
        }
        self.blocks.closing = Closing::Draining;
        Ok(())
    }

    /// Shutting down goes on behind the slot, and behind the controller's reset.
    pub(crate) fn shut_on(&mut self)
        ensures is { self.new ≡ shut_on self.old }
        ensures options { self.new.ready.device.driver.options ≡ self.old.ready.device.driver.options }
        ensures once { marks self.new.blocks.tags ≡ marks self.old.blocks.tags }
        ensures replies { RepliesStand self.old.blocks.tags self.new.blocks.tags }
    {
        let closing = self.blocks.closing;
        let next = match &self.ready.device.driver.stage {
            Stage::Taken(taken) => shutting(closing, taken.step),
            _ => ShutStep::Stay,
        };
        match next {
            ShutStep::Stay => {}
            ShutStep::Halt => {
                if let Stage::Taken(taken) = &mut self.ready.device.driver.stage {
                    taken.step = Step::Halt(Halt::Command);
                    self.blocks.closing = Closing::Halting;
                }
            }
            ShutStep::Leave => {
                self.ready.device.driver.stage = Stage::Gone;
                self.blocks.closing = Closing::Stopped;
            }
        }
    }
}
