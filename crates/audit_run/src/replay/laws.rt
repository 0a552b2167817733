//! What follows for logs that are true, as functions with empty bodies.
ghost use Rattle.std.specs.Prelude.{◌≡◌, Result, IfErr};
ghost use Rattle.uas_log.specs.declared.Log.{Log};
ghost use Rattle.uas_log.specs.Booking.{IsReplay};
ghost use Rattle.log_text.specs.Plain.{plain_log};
ghost use Rattle.uas_work.specs.Booked.{BookedState};
ghost use Rattle.audit_run.specs.declared.replay.ReplayFault.{ReplayFault};
ghost use Rattle.audit_run.specs.replay.Replaying.{IsReplayed, Replays};

/// A log that is true, as a booked bus has it, of any number of tags, replays without its refused steps.
pub fn true_logs_replay()
    ensures { (log : Log) → IsReplay log → Replays (plain_log log) }
{}

/// So `replay_log` refuses it for want of memory alone.
pub fn true_logs_are_replayed()
    ensures { (log : Log) (result : Result BookedState ReplayFault) → IsReplay log → IsReplayed (plain_log log) result
        → IfErr result (λ fault. fault ≡ ReplayFault.NoMemory) }
{}
