//! Replies, and where a driver is.
#![tactic(auto, using(crate::proofs::Kept::kept_same))]

ghost use Rattle.std.specs.Prelude.{◌≡◌, ◌≢◌, ◌↔◌, ◌%◌, ◌-◌, ℕ, true, false, None, Some, IfErr, IfSome, OnErr, OnOk, is_err, is_none, slice_set};
ghost use Rattle.bring_up.specs.Lending.{IsShapeFor, WantsBytes, has_reach, is_wanting, lent};
ghost use Rattle.bring_up.specs.States.{refusal_at};
ghost use Rattle.host_layout.specs.Shapes.{bytes_of};
ghost use Rattle.block_driver.specs.Calls.{reply_of, reply_taken, restarted_driver, state_below, state_closing, state_of, state_with, with_driver};
ghost use Rattle.block_driver.specs.Submits.{open_disk};
ghost use Rattle.bring_up.specs.declared.bring_up.Stage.{Stage};
ghost use Rattle.bring_up.specs.declared.controller.Controller.{Controller};
ghost use Rattle.host_layout.specs.declared.layout.Layout.{Layout};
ghost use Rattle.block_driver.specs.Table.{RepliesStand, entry_at, mark_of, marks};

use crate::calls::is_back;
use crate::closing::Closing;
use crate::kinds::Kind;
use crate::table::{Ending, Loss};
use crate::{BlockDriver, Fault};
use bring_up::{LendFault, Row, Stage, State as Below, Why};
use disk_ready::ReadyDisk;

/// Where a driver is.
#[derive(Clone, Copy)]
pub enum State {
    Surveying,
    /// So many bytes are to be lent.
    WantsMemory { bytes: u32 },
    BringingUp(Row),
    /// No port has a device that is used, until a port changes.
    NoDevice,
    Refused(Why),
    /// The device has its address, and is asked what it is.
    Asking,
    /// Commands are taken, of the disk of this number.
    Ready { number: u64, disk: ReadyDisk },
    /// A disk isn't used any more, and its commands aren't lost yet.
    Restarting,
    /// Commands end, and then the disk's slot and the controller are given back.
    ShuttingDown,
    /// The controller was reset: the memory is the caller's again.
    Stopped,
    /// The controller is gone.
    Gone,
    /// It can't be used until it is reset from outside; the memory is the controller's until its bus mastering is off.
    Dead,
}

/// What the command on a tag came to: so many bytes of its data were moved; of those that were taken off, as many as the controller told.
#[derive(Debug, PartialEq, Eq, Drop)]
pub struct Reply {
    pub tag: u16,
    pub mark: u64,
    pub moved: u32,
    pub ending: Ending,
}

fn state_below(below: Below) -> State
    ensures { result ≡ state_below below }
{
    match below {
        Below::Surveying => State::Surveying,
        Below::WantsMemory { bytes } => State::WantsMemory { bytes },
        Below::BringingUp(row) => State::BringingUp(row),
        Below::NoDevice => State::NoDevice,
        Below::Refused(why) => State::Refused(why),
        Below::Addressed => State::Asking,
        Below::Gone => State::Gone,
        Below::Dead => State::Dead,
    }
}

/// A controller that can't be halted or reset, or is gone, says so.
fn state_closing(below: Below) -> State
    ensures { result ≡ state_closing below }
{
    match below {
        Below::Refused(why) => State::Refused(why),
        Below::Gone => State::Gone,
        Below::Dead => State::Dead,
        _ => State::ShuttingDown,
    }
}

impl BlockDriver {
    /// Where it is.
    pub fn state(&self) -> State
        ensures { (bytes : ℕ) × WantsBytes self.now.ready.device.driver.options self.now.ready.device.driver.stage bytes × (result ≡ state_of self.now bytes) }
    {
        let below = self.ready.device.driver.state();
        match self.blocks.closing {
            Closing::Open => self.state_open(below),
            Closing::Draining | Closing::Halting => state_closing(below),
            Closing::Stopped => State::Stopped,
        }
    }

    fn state_open(&self, below: Below) -> State
        ensures { result ≡ state_with self.now.blocks.disk self.now below }
    {
        match self.blocks.disk {
            Some(disk) => State::Ready {
                number: self.blocks.number,
                disk,
            },
            None if self.blocks.loss.is_some() && !is_back(&self.ready.device.driver.stage) => {
                State::Restarting
            }
            None => state_below(below),
        }
    }

    /// Why the device at a port isn't used; None where it is, or there is none.
    pub fn refusal(&self, port: u8) -> Option<Why>
        ensures { result ≡ refusal_at self.now.ready.device.driver.stage port }
    {
        self.ready.device.driver.refusal(port)
    }

    /// The reply of the lowest tag that has one. The tag is free then.
    pub fn take_reply(&mut self) -> Option<Reply>
        ensures reply { result ≡ reply_of self.old }
        ensures state { self.new ≡ reply_taken self.old }
        ensures once { IfSome result (λ reply. marks self.new.blocks.tags ≡ slice_set (marks self.old.blocks.tags) (reply.tag - 1) None) }
        ensures mark { IfSome result (λ reply. mark_of (entry_at self.old.blocks.tags reply.tag) ≡ Some reply.mark) }
    {
        let Some(tag) = self.blocks.tags.first(Kind::Replied) else {
            return None;
        };
        match self.blocks.tags.take(tag) {
            Some(came) => Some(Reply {
                tag: u16::from(tag),
                mark: came.mark,
                moved: came.moved,
                ending: came.ending,
            }),
            None => None,
        }
    }

    /// Tries the device again, from its port's reset on; its commands are lost. `NotReady` while no disk is used, which changes nothing.
    pub fn restart(&mut self) -> Result<(), Fault>
        ensures state { self.new ≡ restarted_driver self.old }
        ensures refused { is_err result ≡ is_none (open_disk self.old) }
        ensures fault { IfErr result (λ fault. fault ≡ Fault.NotReady) }
        ensures once { marks self.new.blocks.tags ≡ marks self.old.blocks.tags }
        ensures replies { RepliesStand self.old.blocks.tags self.new.blocks.tags }
    {
        let is_open = self.blocks.disk.is_some() && self.blocks.closing.is_kept();
        match &mut self.ready.device.driver.stage {
            Stage::Taken(taken) if is_open => {
                self.blocks.fail(taken, Loss::Restarted);
                Ok(())
            }
            _ => Err(Fault::NotReady),
        }
    }

    /// Lends memory from an address on, in state `WantsMemory`. `Alignment` for no multiple of 65,536; `Reach` above the options'
    /// `address_bits`, where the controller doesn't reach it, and across a multiple of 2^32. A refusal changes nothing.
    pub fn lend(&mut self, base: u64) -> Result<(), LendFault>
        ensures not_asked { (result ≡ Err LendFault.NotAsked) ↔ (is_wanting self.old.ready.device.driver.stage ≡ false) }
        ensures alignment { (result ≡ Err LendFault.Alignment) ↔ ((is_wanting self.old.ready.device.driver.stage ≡ true) × (base % 65536 ≢ 0)) }
        ensures kept { OnErr result (self.new ≡ self.old) }
        ensures taken { OnOk result ((c : Controller) × (layout : Layout) × (self.old.ready.device.driver.stage ≡ Stage.Wanting c) × (layout.base ≡ base) × IsShapeFor self.old.ready.device.driver.options c layout.shape × (has_reach self.old.ready.device.driver.options c base (bytes_of layout.shape) ≡ true) × (self.new.ready.device.driver ≡ lent self.old.ready.device.driver c layout)) }
        ensures rest { self.new ≡ with_driver self.old self.new.ready.device.driver }
    {
        self.ready.device.driver.lend(base)
    }
}
