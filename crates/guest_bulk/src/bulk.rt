//! What is kept of the transport.
ghost use Rattle.std.specs.Prelude.{◌≡◌, [], false, None, IfOk};
ghost use Rattle.guest_bulk.specs.Commands.{at_stage, bulk_reset, bulk_restarted, in_forgotten, out_forgotten, reset_due};
ghost use Rattle.guest_bulk.specs.Verdicts.{has_chunk};
ghost use Rattle.guest_bulk.specs.declared.bulk.Bulk.{Bulk};
ghost use Rattle.guest_bulk.specs.declared.bulk.BulkStage.{BulkStage};

use arrayvec::ArrayVec;
use bulk_only::{Csw, Done};
use guest_pipes::Acted;
use guest_tags::{Chunk, Gather};
use std::alloc::{AllocError, Global};
use uas_profile::STATUS_BYTES;

/// A command under way: what its CBW says; of its H bytes, those that are still to move; what the device did; and whether sense data that were
/// kept answer it, and no task.
#[derive(Clone, Copy, Debug, PartialEq, Eq)]
pub struct BulkCommand {
    pub tag: u32,
    pub length: u32,
    pub is_in: bool,
    pub lun: u8,
    pub left: u32,
    pub done: Done,
    pub is_kept: bool,
}

/// What comes next.
#[derive(Clone, Copy, Debug, PartialEq, Eq)]
pub enum BulkStage {
    /// A CBW.
    Awaits,
    /// The reset: what came was no valid CBW.
    Faulty,
    /// The data of a command, and then its CSW.
    Moves { command: BulkCommand },
    /// A CSW, of which the TD in front has so many bytes.
    Tells { csw: Csw, sent: usize },
}

/// Sense data of a logical unit, in the information unit that told them.
#[derive(Debug, Drop)]
pub struct KeptSense {
    pub lun: u8,
    pub text: ArrayVec<u8, STATUS_BYTES>,
}

/// The transport: what comes next, the chunk that goes to the host, what is gathered of a CBW or of a chunk to the device, whether the TD in front
/// of Bulk-Out has a TRB of a CBW, if only one without bytes, and the sense data of the last command, where it ended with CHECK CONDITION.
#[derive(Debug, Drop)]
pub struct Bulk {
    pub stage: BulkStage,
    pub chunk: Chunk,
    pub taken: Gather,
    pub gathers: bool,
    pub kept: Option<KeptSense>,
}

/// Which endpoints the disk halts by a step.
#[derive(Clone, Copy, Debug, PartialEq, Eq)]
pub enum Halting {
    Nothing,
    BulkIn,
    BulkOut,
    Both,
}

/// What a step did, which endpoints the disk halts by it, and whether the device's task is to be ended: host and device didn't mean the same
/// transfer.
#[derive(Clone, Copy, Debug, PartialEq, Eq)]
pub struct Stepped {
    pub acted: Acted,
    pub halts: Halting,
    pub ends: bool,
}

impl Bulk {
    /// A CBW is awaited. The error is want of memory; no later call takes any.
    pub fn new(alloc: Global) -> Result<Bulk, AllocError>
        ensures { IfOk result (λ bulk. bulk ≡ record { stage = BulkStage.Awaits; chunk = []; taken = []; gathers = false; kept = None }) }
    {
        Ok(Bulk {
            stage: BulkStage::Awaits,
            chunk: Chunk::new(alloc)?,
            taken: Gather::new(alloc)?,
            gathers: false,
            kept: None,
        })
    }

    /// Nothing of a command is left, and this comes next.
    pub(crate) fn turn(&mut self, stage: BulkStage)
        ensures { self.new ≡ at_stage self.old stage }
    {
        self.stage = stage;
        self.chunk.clear();
        self.drop_taken();
    }

    /// Nothing is gathered.
    pub(crate) fn drop_taken(&mut self)
        ensures { self.new ≡ record self.old { taken = []; gathers = false } }
    {
        self.taken.clear();
        self.gathers = false;
    }

    /// The Bulk-Only Mass Storage Reset: a CBW is awaited (BOT 3.1). The caller ends the device's tasks.
    pub fn reset(&mut self)
        ensures { self.new ≡ bulk_reset self.old }
    {
        self.turn(BulkStage::Awaits);
    }

    /// As made: the device was reset, or an alternate setting chosen. The caller ends the device's tasks.
    pub fn restart(&mut self)
        ensures { self.new ≡ bulk_restarted self.old }
    {
        self.reset();
        self.kept = None;
    }

    /// Whether both endpoints stay halted until the reset (BOT 6.6.1).
    pub fn is_reset_due(&self) -> bool
        ensures { result ≡ reset_due self.now.stage }
    {
        matches!(self.stage, BulkStage::Faulty)
    }

    /// The dequeue pointer of Bulk-Out was set: what came of a CBW is forgotten.
    pub fn forget_out(&mut self)
        ensures { self.new ≡ out_forgotten self.old self.old.stage }
    {
        match self.stage {
            BulkStage::Awaits => self.drop_taken(),
            BulkStage::Faulty | BulkStage::Moves { .. } | BulkStage::Tells { .. } => (),
        }
    }

    /// That of Bulk-In was set: a CSW goes from its start again.
    pub fn forget_in(&mut self)
        ensures { self.new ≡ in_forgotten self.old self.old.stage }
    {
        match self.stage {
            BulkStage::Tells { csw, .. } => self.stage = BulkStage::Tells { csw, sent: 0 },
            BulkStage::Awaits | BulkStage::Faulty | BulkStage::Moves { .. } => (),
        }
    }

    /// Whether something of a chunk to the host is left.
    pub(crate) fn has_chunk(&self) -> bool
        ensures { result ≡ has_chunk self.now }
    {
        self.chunk.held() != 0
    }
}
