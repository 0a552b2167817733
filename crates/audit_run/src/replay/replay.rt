//! The replay of a saved log.
ghost use Rattle.std.specs.Prelude.{◌≡◌, ◌+◌, ◌<◌, List, [], ◌∷◌, ◌++◌, length, None, IfErr, OnOk};
ghost use Rattle.shared_machine.specs.declared.Step.{Step};
ghost use Rattle.shared_machine.specs.Bus.{AllTicketed, HasTicket};
ghost use Rattle.audit_run.specs.replay.Replaying.{IsReplayed, StopsBy, first_fault};

use crate::replay::ReplayFault;
use crate::replay::replies::first_difference;
use crate::replay::units::made_units;
use log_text::PlainLog;
use shared_machine::Step;
use std::alloc::Global;
use uas_work::Booked;

/// Takes the steps of a log on a new bus of its units and its number of tags, and books them: the bus, whose log has the same steps and
/// replies. The first step that isn't due in its turn is answered by `NotDue`, the first that is refused by `Refused`, whichever comes
/// first, and then the first reply that is another or is missing on one side by `OtherReplies`; `NoMemory` as it comes.
pub fn replay_log(alloc: Global, log: &PlainLog) -> Result<Booked, ReplayFault>
    ensures { IsReplayed log.now result }
{
    let units = made_units(alloc, log.units())?;
    let tags = log.tags();
    let mut booked = Booked::with_tags(alloc, units, log.steps().len(), tags)?;
    book_all(alloc, &mut booked, log.steps())?;
    match first_difference(tags, booked.log().replies.as_slice(), log.replies()) {
        Some(reply) => Err(ReplayFault::OtherReplies(reply)),
        None => Ok(booked),
    }
}

/// Books all of these steps on a bus that took none.
fn book_all(alloc: Global, booked: &mut Booked, steps: &[Step]) -> Result<(), ReplayFault>
    requires none { booked.old.log.steps ≡ [] }
    requires limit { booked.old.limit ≡ length steps.now }
    requires ticketed { AllTicketed steps.now }
    ensures tags { OnOk result (booked.new.log.tags ≡ booked.old.log.tags) }
    ensures units { OnOk result (booked.new.log.units ≡ booked.old.log.units) }
    ensures steps { OnOk result (booked.new.log.steps ≡ steps.now) }
    ensures limit { OnOk result (booked.new.limit ≡ booked.old.limit) }
    ensures ok { OnOk result (first_fault 0 booked.old.bus steps.now ≡ None) }
    ensures fault { IfErr result (StopsBy (first_fault 0 booked.old.bus steps.now)) }
{
    for (at, step) in steps.iter().enumerate() {
        book(alloc, booked, at, step)?;
    }
    Ok(())
}

/// Books the step of a number.
#[tactic(auto, unfolding(crate::specs::replay::Replaying::first_fault))]
fn book(alloc: Global, booked: &mut Booked, at: usize, step: &Step) -> Result<(), ReplayFault>
    requires room { length booked.old.log.steps < booked.old.limit }
    requires ticket { HasTicket step.now }
    ensures tags { OnOk result (booked.new.log.tags ≡ booked.old.log.tags) }
    ensures units { OnOk result (booked.new.log.units ≡ booked.old.log.units) }
    ensures steps { OnOk result (booked.new.log.steps ≡ booked.old.log.steps ++ step.now ∷ []) }
    ensures limit { OnOk result (booked.new.limit ≡ booked.old.limit) }
    ensures ok { OnOk result ((rest : List Step) → first_fault at booked.old.bus (step.now ∷ rest) ≡ first_fault (at + 1) booked.new.bus rest) }
    ensures fault { IfErr result (λ fault. (rest : List Step) → StopsBy (first_fault at booked.old.bus (step.now ∷ rest)) fault) }
{
    if !booked.due(step) {
        return Err(ReplayFault::NotDue(at));
    }
    let copy = step.try_clone(alloc)?;
    // the log has room, so that nothing but memory can be wanting
    let Ok(outcome) = booked.step(alloc, copy) else {
        return Err(ReplayFault::NoMemory);
    };
    if outcome.refused.is_some() {
        return Err(ReplayFault::Refused(at));
    }
    Ok(())
}
