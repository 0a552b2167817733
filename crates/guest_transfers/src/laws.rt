//! What follows of the ranges that a step lacks, as functions with empty bodies.
//!
//! A caller asks what a step lacks, copies it in, and asks again until nothing is answered. Then the step is taken, and not refused for
//! want of memory. It does the same as over any larger memory, so it posts no Data Buffer Error for want of a copy. What it writes goes
//! into the copies, so that nothing else has to be written back.
ghost use Rattle.std.specs.Prelude.{◌≡◌, ℕ, None, is_some, true};
ghost use Rattle.guest_memory.specs.Bytes.{IsWithinAddresses, Memory};
ghost use Rattle.guest_memory.specs.rings.Wanted.{LacksIt};
ghost use Rattle.guest_transfers.specs.State.{TransfersWorld};
ghost use Rattle.guest_transfers.specs.Steps.{command_stepped, status_stepped};
ghost use Rattle.guest_memory.specs.rings.Events.{EventEnd};
ghost use Rattle.guest_transfers.specs.State.{TransfersState};
ghost use Rattle.guest_transfers.specs.declared.control.StreamPipe.{StreamPipe};
ghost use Rattle.guest_transfers.specs.Orders.{data_stepped, pipe_of, stray_on};
ghost use Rattle.guest_transfers.specs.Wanted.{command_wanted, data_wanted, status_wanted, stray_wanted};
ghost use Rattle.guest_transfers.specs.Silent.{silent_command, silent_command_wanted, silent_on, silent_wanted};
ghost use Rattle.guest_transfers.specs.Beside.{GivesAtMost, beside, step_beside, world_beside};

use guest_tags::UasDevice;

/// A step that lacks nothing isn't refused.
pub fn what_lacks_nothing_is_taken<D: UasDevice>()
    ensures of_data { (w : TransfersWorld D.State) (tag : ℕ) → data_wanted D.kind w tag ≡ None → is_some (data_stepped D.kind w tag).1 ≡ true }
    ensures of_status { (w : TransfersWorld D.State) (tag : ℕ) → status_wanted D.kind w tag ≡ None → is_some (status_stepped D.kind w tag).1 ≡ true }
    ensures of_command { (w : TransfersWorld D.State) → command_wanted D.kind w ≡ None → is_some (command_stepped D.kind w).1 ≡ true }
    ensures of_stray { (code : ℕ) (memory : Memory) (events : EventEnd) (t : TransfersState) (name : StreamPipe) → stray_wanted memory events (pipe_of t name) ≡ None
        → is_some (stray_on code memory events t name).1.1.1 ≡ true }
    ensures of_silent { (code : ℕ) (memory : Memory) (events : EventEnd) (t : TransfersState) (name : StreamPipe) → silent_wanted memory events (pipe_of t name) ≡ None
        → is_some (silent_on code memory events t name).1.1.1 ≡ true }
    ensures of_silent_command { (code : ℕ) (memory : Memory) (events : EventEnd) (t : TransfersState) → silent_command_wanted memory events t.command t.home ≡ None
        → is_some (silent_command code memory events t).1.1.1 ≡ true }
{}

/// What a step lacks isn't empty, and not all of it is there.
pub fn what_is_wanted_is_not_there<D: UasDevice>()
    ensures of_data { (w : TransfersWorld D.State) (tag : ℕ) → IsWithinAddresses w.memory → LacksIt w.memory (data_wanted D.kind w tag) }
    ensures of_status { (w : TransfersWorld D.State) (tag : ℕ) → IsWithinAddresses w.memory → LacksIt w.memory (status_wanted D.kind w tag) }
    ensures of_command { (w : TransfersWorld D.State) → LacksIt w.memory (command_wanted D.kind w) }
    ensures of_stray { (memory : Memory) (events : EventEnd) (t : TransfersState) (name : StreamPipe) → LacksIt memory (stray_wanted memory events (pipe_of t name)) }
    ensures of_silent { (memory : Memory) (events : EventEnd) (t : TransfersState) (name : StreamPipe) → IsWithinAddresses memory → LacksIt memory (silent_wanted memory events (pipe_of t name)) }
    ensures of_silent_command { (memory : Memory) (events : EventEnd) (t : TransfersState) → LacksIt memory (silent_command_wanted memory events t.command t.home) }
{}

/// A step that lacks nothing does the same with any other memory beside the one that it is taken over, and writes only to that one.
pub fn copies_stand_for_all_memory<D: UasDevice>()
    ensures of_data { (w : TransfersWorld D.State) (rest : Memory) (tag : ℕ) → GivesAtMost D.kind w.device tag → data_wanted D.kind w tag ≡ None
        → data_stepped D.kind (world_beside w rest) tag ≡ step_beside (data_stepped D.kind w tag) rest }
    ensures of_status { (w : TransfersWorld D.State) (rest : Memory) (tag : ℕ) → status_wanted D.kind w tag ≡ None
        → status_stepped D.kind (world_beside w rest) tag ≡ step_beside (status_stepped D.kind w tag) rest }
    ensures of_command { (w : TransfersWorld D.State) (rest : Memory) → command_wanted D.kind w ≡ None
        → command_stepped D.kind (world_beside w rest) ≡ step_beside (command_stepped D.kind w) rest }
    ensures of_stray { (code : ℕ) (memory rest : Memory) (events : EventEnd) (t : TransfersState) (name : StreamPipe) → stray_wanted memory events (pipe_of t name) ≡ None
        → stray_on code (beside memory rest) events t name ≡ (beside (stray_on code memory events t name).0 rest, (stray_on code memory events t name).1) }
    ensures of_silent { (code : ℕ) (memory rest : Memory) (events : EventEnd) (t : TransfersState) (name : StreamPipe) → silent_wanted memory events (pipe_of t name) ≡ None
        → silent_on code (beside memory rest) events t name ≡ (beside (silent_on code memory events t name).0 rest, (silent_on code memory events t name).1) }
    ensures of_silent_command { (code : ℕ) (memory rest : Memory) (events : EventEnd) (t : TransfersState) → silent_command_wanted memory events t.command t.home ≡ None
        → silent_command code (beside memory rest) events t ≡ (beside (silent_command code memory events t).0 rest, (silent_command code memory events t).1) }
{}
