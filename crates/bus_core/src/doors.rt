//! Doorbells from the host to the controller.
ghost use Rattle.shared_machine.specs.declared.TheConstants.{MOST_DOORBELLS};
ghost use Rattle.std.specs.Prelude.{◌≡◌, ◌≤◌, length};
ghost use Rattle.uas_profile.specs.Pipes.{HasStreams};
ghost use Rattle.uas_host.specs.declared.RetirementStage.TheVariants.{Moving, Stopping};
ghost use Rattle.shared_machine.specs.Doorbells.{IsResumed};
ghost use Rattle.bus_core.specs.WorldSteps.{rung_all};

use crate::{Doorbells, MOST_DOORBELLS};
use uas_host::{Retirement, RetirementStage};
use xhci_ctl::Controller;

/// Rings doorbells, in order.
#[inline(always)]
pub(crate) fn ring(controller: &mut Controller, values: &[u32])
    ensures { controller.new ≡ rung_all controller.old values.now }
{
    for value in values {
        controller.doorbell(*value);
    }
}

/// The doorbells that were rung at an event of a retirement: those of the pipe's streams once its TD is retired, and else few.
#[inline(never)]
pub(crate) fn rung_at(ended: Retirement, values: &[u32]) -> Doorbells
    requires streams { HasStreams ended.pipe }
    requires resumed { ended.stage ≡ Moving → IsResumed ended.pipe values.now }
    requires few { ended.stage ≡ Stopping → length values.now ≤ MOST_DOORBELLS }
    ensures { result ≡ values.now }
{
    match ended.stage {
        RetirementStage::Stopping => Doorbells::single(values),
        RetirementStage::Moving => Doorbells::resumed(ended.pipe, values),
    }
}
