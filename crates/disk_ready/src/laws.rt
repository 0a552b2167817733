//! What is put, byte by byte: functions with empty bodies.
ghost use Rattle.std.specs.Prelude.{◌∷◌, ◌++◌, [], replicate};
ghost use Rattle.bring_up.specs.declared.access.Access.TheVariants.{Store};
ghost use Rattle.bring_up.specs.declared.access.Stored.TheVariants.{Four, Sixteen, ThirtyTwo, Zeros};
ghost use Rattle.disk_ready.specs.declared.puts.Put.TheVariants as put;
ghost use Rattle.disk_ready.specs.declared.puts.Way.TheVariants.{In, Out};
ghost use Rattle.disk_ready.specs.Rows.{RowBell, RowPut};

/// Law: doorbells name the pipe's index, and the stream of data and status.
pub fn bells_are_rung()
    ensures data_in { RowBell put.DataBell In 0x00010007 }
    ensures data_out { RowBell put.DataBell Out 0x00010008 }
    ensures status { RowBell put.StatusBell In 0x00010005 }
    ensures command { RowBell put.PipeBell In 0x00000002 }
{}

/// Law: the next third is zeroed, that of data-in at 12200h, of data-out at 12800h, and of a status behind third 1 at 10080h; the status's TRB
/// and its Link, to that third, stand in third 1.
pub fn thirds_are_put()
    ensures data_in { RowPut put.DataZeros In (Store 0x10012200 (Zeros 512)) }
    ensures data_out { RowPut put.DataZeros Out (Store 0x10012800 (Zeros 512)) }
    ensures status { RowPut put.StatusZeros In (Store 0x10010080 (Zeros 32)) }
    ensures status_trb { RowPut put.StatusTrb In (Store 0x10010060 (ThirtyTwo ((0 ∷ 1 ∷ 1 ∷ 0x10 ∷ 0 ∷ 0 ∷ 0 ∷ 0 ∷ 0x70 ∷ 0 ∷ 0 ∷ 0 ∷ 0x24 ∷ 4 ∷ 0 ∷ 0 ∷ []) ++ (0x80 ∷ 0 ∷ 1 ∷ 0x10 ∷ replicate 8 0) ++ (1 ∷ 0x18 ∷ 0 ∷ 0 ∷ [])))) }
    ensures status_first { RowPut put.StatusFirst In (Store 0x1001006c (Four (0x25 ∷ 4 ∷ 0 ∷ 0 ∷ []))) }
{}
