//! What follows for the texts of logs, as functions with empty bodies.
ghost use Rattle.std.specs.Prelude.{◌≡◌, Ok};
ghost use Rattle.uas_log.specs.declared.Log.{Log};
ghost use Rattle.log_text.specs.Kept.{IsSavable, saved_log};
ghost use Rattle.log_text.specs.Reading.{whole_log};
ghost use Rattle.log_text.specs.Text.{IsWithin, Saved, log_text};

/// What `load_log` gives of what `save_log` wrote is that log, without its refused steps.
pub fn saved_logs_load()
    ensures { (log : Log) → IsSavable log → whole_log (log_text (saved_log log)) ≡ Ok (saved_log log) }
{}

/// Two logs with one text are the same.
pub fn texts_tell_apart()
    ensures { (one other : Saved) → IsWithin one → IsWithin other → log_text one ≡ log_text other → one ≡ other }
{}
