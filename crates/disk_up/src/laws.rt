//! What follows of the table: that no wait goes on behind its limit; and the contexts of a disk with the pipes 01h, 82h, 83h and 04h, of 15 tags.
ghost use Rattle.std.specs.Prelude.{◌≡◌, ◌≤◌, ◌∷◌, [], ℕ, None};
ghost use Rattle.bring_up.specs.declared.service.Service.{Service};
ghost use Rattle.bring_up.specs.Completions.{restarted, tried_again};
ghost use Rattle.uas_profile.specs.declared.Pipe.TheVariants as pipe;
ghost use Rattle.usb_descriptors.specs.Rows.{emulated_function};
ghost use Rattle.disk_up.specs.declared.finding.Clearing.{Clearing};
ghost use Rattle.disk_up.specs.declared.requests.Request.{Request};
ghost use Rattle.disk_up.specs.Endings.{clear_closed, closed};
ghost use Rattle.disk_up.specs.Findings.{World, with_taken};
ghost use Rattle.disk_up.specs.PipeRows.{added_contexts, context_count};
ghost use Rattle.disk_up.specs.Rows.{RowContext, RowStream};

/// Law: at its limit or later, a transfer that hasn't ended has the device tried again, and a command without an event has the controller taken anew.
pub fn waits_end()
    ensures transfer { (w : World) (request : Request) (moved now : ℕ) (service : Service) → service.limit ≤ now → closed w request moved None service now ≡ with_taken w (tried_again w.taken) }
    ensures command { (w : World) (clearing : Clearing) (now : ℕ) (service : Service) → service.limit ≤ now → clear_closed w clearing None service now ≡ with_taken w (restarted w.taken now) }
{}

/// Law: A0, and the contexts 2, 5, 7 and 8; the last is 8.
pub fn contexts_are_added()
    ensures flags { added_contexts emulated_function.pipes ≡ 421 }
    ensures last { context_count emulated_function.pipes ≡ 8 }
{}

/// Law: stream 1 of each pipe has its tag's ring, in the pipe's array: at 5010h, 6010h and 7010h of the memory.
pub fn streams_are_stored()
    ensures status { RowStream pipe.Status 0x10005010 (0x43 ∷ 0x00 ∷ 0x01 ∷ 0x10 ∷ []) }
    ensures data_in { RowStream pipe.DataIn 0x10006010 (0x03 ∷ 0x20 ∷ 0x01 ∷ 0x10 ∷ []) }
    ensures data_out { RowStream pipe.DataOut 0x10007010 (0x03 ∷ 0x26 ∷ 0x01 ∷ 0x10 ∷ []) }
{}

/// Law: each pipe's context has its ring or array, one behind its index in the input context.
pub fn pipes_are_stored()
    ensures command { RowContext pipe.Command 0x10001060 (0 ∷ 0 ∷ 0 ∷ 0 ∷ 0x16 ∷ 0x0f ∷ 0 ∷ 4 ∷ 1 ∷ 0x30 ∷ 0 ∷ 0x10 ∷ 0 ∷ 0 ∷ 0 ∷ 0 ∷ 0 ∷ 0x0c ∷ 0 ∷ 0 ∷ []) }
    ensures status { RowContext pipe.Status 0x100010c0 (0 ∷ 0x8c ∷ 0 ∷ 0 ∷ 0x36 ∷ 0x0f ∷ 0 ∷ 4 ∷ 0 ∷ 0x50 ∷ 0 ∷ 0x10 ∷ 0 ∷ 0 ∷ 0 ∷ 0 ∷ 0 ∷ 0x0c ∷ 0 ∷ 0 ∷ []) }
    ensures data_in { RowContext pipe.DataIn 0x10001100 (0 ∷ 0x8c ∷ 0 ∷ 0 ∷ 0x36 ∷ 0x0f ∷ 0 ∷ 4 ∷ 0 ∷ 0x60 ∷ 0 ∷ 0x10 ∷ 0 ∷ 0 ∷ 0 ∷ 0 ∷ 0 ∷ 0x0c ∷ 0 ∷ 0 ∷ []) }
    ensures data_out { RowContext pipe.DataOut 0x10001120 (0 ∷ 0x8c ∷ 0 ∷ 0 ∷ 0x16 ∷ 0x0f ∷ 0 ∷ 4 ∷ 0 ∷ 0x70 ∷ 0 ∷ 0x10 ∷ 0 ∷ 0 ∷ 0 ∷ 0 ∷ 0 ∷ 0x0c ∷ 0 ∷ 0 ∷ []) }
{}
