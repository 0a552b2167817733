//! What follows of the table.
ghost use Rattle.std.specs.Prelude.{◌≡◌, ◌≤◌, ℕ, Bool, None, Some};
ghost use Rattle.bring_up.specs.Limits.{GoesOn, WaitGoesOn};
ghost use Rattle.bring_up.specs.Waits.{waited};
ghost use Rattle.bring_up.specs.declared.waits.Wait.{Wait};

/// Law: a reading at its limit or later ends a wait, found so or not. A rest of a wait is as long as its period.
pub fn waits_end()
    ensures ends { (wait : Wait) (now period : ℕ) (so : Bool) → wait.rest ≡ None → wait.limit ≤ now → GoesOn (waited wait now period so) → ⊥ }
    ensures limit { (wait : Wait) (now period : ℕ) (so : Bool) → WaitGoesOn wait now period (waited wait now period so) }
{}
