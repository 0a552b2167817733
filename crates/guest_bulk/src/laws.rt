//! What holds of every command, as functions with empty bodies, whatever the device.
ghost use Rattle.std.specs.Prelude.{◌≡◌, ℕ, Option, None, is_some, true};
ghost use Rattle.guest_memory.specs.declared.rings.context.Home.{Home};
ghost use Rattle.guest_memory.specs.rings.Wanted.{LacksIt};
ghost use Rattle.guest_bulk.specs.Commands.{BulkWorld};
ghost use Rattle.guest_bulk.specs.Steps.{bulk_after, in_stepped, out_stepped};
ghost use Rattle.guest_bulk.specs.Wanted.{in_wanted, out_wanted};
ghost use Rattle.guest_bulk.specs.Laws.{EmptyIsFaulty, EndedIsTaken, InIsCounted, InStillMoves, InsteadMovesNothing, LastIsTaken, NothingMoves, OthersAreNone, OutIsCounted, OutStillMoves, RunningIsStuck};
ghost use Rattle.guest_bulk.specs.Rows.{RowCommand, RowKept, RowKeptBy, RowTold};

use guest_tags::UasDevice;

/// Law: each byte that moves is one of H, and no more of them move than H.
pub fn bytes_are_counted<D: UasDevice>()
    ensures to_host { InIsCounted D.kind }
    ensures to_device { OutIsCounted D.kind }
{}

/// Law: no data move once all H bytes have, or where H is 0; nor where the device takes in place of giving, or gives in place of taking.
pub fn nothing_else_moves<D: UasDevice>()
    ensures none { NothingMoves D.kind }
    ensures instead { InsteadMovesNothing D.kind }
{}

/// Law: no CSW is told before H bytes have moved, unless an endpoint is halted.
pub fn csws_come_last<D: UasDevice>()
    ensures to_host { InStillMoves D.kind }
    ensures to_device { OutStillMoves D.kind }
{}

/// Law: a TD of no byte is a CBW that is too short where it has a Normal TRB, and else none.
pub fn empty_cbws_are_faulty<D: UasDevice>()
    ensures faulty { EmptyIsFaulty D.kind }
    ensures none { OthersAreNone D.kind }
{}

/// Law: an endpoint that isn't served tells TRBs of TDs whose bytes move, and takes any other as ever.
pub fn unserved_endpoints_go_on<D: UasDevice>()
    ensures ended { EndedIsTaken D.kind }
    ensures last { LastIsTaken D.kind }
    ensures stuck { RunningIsStuck D.kind }
{}

/// Law: the information units of these CBWs, the sense data that they are given, and what these commands tell and keep.
pub fn rows_are_begun()
    ensures command { RowCommand }
    ensures kept { RowKept }
    ensures told { RowTold }
    ensures kept_by { RowKeptBy }
{}

/// Law: a step that lacks nothing isn't refused.
pub fn what_lacks_nothing_is_taken<D: UasDevice>()
    ensures to_host { (fault : Option ℕ) (w : BulkWorld D.State) (home : Home) → in_wanted D.kind fault w home ≡ None → is_some (bulk_after w (in_stepped D.kind fault w home)).1 ≡ true }
    ensures to_device { (fault : Option ℕ) (w : BulkWorld D.State) (home : Home) → out_wanted D.kind fault w home ≡ None → is_some (bulk_after w (out_stepped D.kind fault w home)).1 ≡ true }
{}

/// Law: what a step lacks isn't empty, and not all of it is there.
pub fn what_is_wanted_is_not_there<D: UasDevice>()
    ensures to_host { (fault : Option ℕ) (w : BulkWorld D.State) (home : Home) → LacksIt w.ring.memory (in_wanted D.kind fault w home) }
    ensures to_device { (fault : Option ℕ) (w : BulkWorld D.State) (home : Home) → LacksIt w.ring.memory (out_wanted D.kind fault w home) }
{}
