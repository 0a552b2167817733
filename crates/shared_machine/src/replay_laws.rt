//! The laws of the replay, which hold of its definition.
ghost use Rattle.shared_machine.specs.ReplayLaws.{ReplayGoesOn, IdleCanBeLeftOut};
ghost use Rattle.shared_machine.specs.Rooms.{StepBringsItsLen};

/// The replay of a list of steps and one more is the replay of the list, and then that step.
pub fn replay_goes_on()
    ensures { ReplayGoesOn }
{}

/// Idle steps that are left out change nothing of a replay.
pub fn idle_can_be_left_out()
    ensures { IdleCanBeLeftOut }
{}

/// A step's reply brings as many bytes as was told before the step, and no step but a Take brings a reply.
pub fn step_brings_its_len()
    ensures { StepBringsItsLen }
{}
