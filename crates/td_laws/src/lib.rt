//! What a driver may conclude of a TD.
//!
//! The pipes of `guest_transfers` move the bytes of TDs of any shape: any TRBs, Links, lengths and cuts into chunks. Each step is an
//! equation. Here it is said what follows of the steps, in a driver's words (xHCI 1.2, 4.9 to 4.11): what they write, which events stay,
//! what an event's residual says, and which bytes are in the buffers in the end.
//!
//! ```text
//!     bytes that the device gave      | b0 b1 b2 b3 | b4 b5 ..
//!     chunks                          |------ 0 ------|------ 1 --
//!     buffers, in the ring's order    |-- TRB --|- TRB -|-- TRB --
//! ```
//!
//! What is said of runs holds whatever others do between the steps, as long as they leave what the law names: the bytes of a buffer that
//! was filled, say. The driver keeps buffers, contexts and the event ring apart; a law that needs it says so (`AreApart`). Nothing is said
//! of time: no law says that a step comes.
//!
//! It has laws alone, over the definitions of `guest_transfers` and the crates below it.
#![tactic(auto)]

ghost use Rattle.std.specs.Prelude.{ℕ};
ghost use Rattle.guest_memory.specs.declared.rings.context.Home.{Home};
ghost use Rattle.guest_tags.specs.Devices.{Kind};
ghost use Rattle.td_laws.specs.NothingElse.{CommandLeavesElse, DataInLeavesElse, DataOutLeavesElse, StatusLeavesElse};
ghost use Rattle.td_laws.specs.NotOvertaken.{NewRingIsFreed, NextIsFreed, PostsKeepUnfreed, TurnsLeaveElse, UnfreedStand};
ghost use Rattle.td_laws.specs.Beside.{NotesAreBeside, OutNotesAreBeside};
ghost use Rattle.td_laws.specs.Buffers.{PartsAreBuffers};
ghost use Rattle.td_laws.specs.Edtla.{EdtlaAddsUp};
ghost use Rattle.td_laws.specs.Filled.{BuffersHoldWhatWasGiven};
ghost use Rattle.td_laws.specs.InOrder.{GivenInOrder};
ghost use Rattle.td_laws.specs.OutBuffers.{BuffersAreTaken};
ghost use Rattle.td_laws.specs.OutInOrder.{TakenInOrder};
ghost use Rattle.td_laws.specs.OutTold.{CommandEventEach, CommandResidualsAddUp, OutEventEach, OutResidualsAddUp};
ghost use Rattle.td_laws.specs.Told.{AnEventEach, NoneWithoutATrb, ResidualsAddUp};
ghost use Rattle.td_laws.specs.StatusTold.{StatusEventEach, StatusResidualsAddUp};

/// Law: a step writes the part of a buffer that is moved, the next event's place, and where the ring's end is kept. It posts one event at
/// most.
pub fn nothing_else<D>()
    ensures of_data_in { (kind : Kind D) → DataInLeavesElse kind }
    ensures of_status { (kind : Kind D) → StatusLeavesElse kind }
    ensures of_data_out { (kind : Kind D) → DataOutLeavesElse kind }
    ensures of_command { (kind : Kind D) → CommandLeavesElse kind }
    ensures of_each_turn { (kind : Kind D) → TurnsLeaveElse kind }
{}

/// Law: no event that the driver hasn't freed is written over.
pub fn not_overtaken<D>()
    ensures opens { NewRingIsFreed }
    ensures next { NextIsFreed }
    ensures posts { PostsKeepUnfreed }
    ensures stand { (kind : Kind D) → UnfreedStand kind }
{}

/// Law: the residual that a driver is told of a TRB, with what was moved in it, is its length; and EDTLA is what was moved since it began.
/// What is left of a data-out TD once its task has ended with GOOD is told as if it had been taken.
pub fn residuals_add_up<D>()
    ensures of_data_in { (kind : Kind D) → ResidualsAddUp kind }
    ensures of_status { (kind : Kind D) → StatusResidualsAddUp kind }
    ensures of_data_out { (kind : Kind D) → OutResidualsAddUp kind }
    ensures of_command { (kind : Kind D) → CommandResidualsAddUp kind }
    ensures of_edtla { (kind : Kind D) (number : ℕ) (home : Home) → EdtlaAddsUp kind number home }
{}

/// Law: a TRB has an event where its bits ask for one, and no other.
pub fn an_event_each<D>()
    ensures of_data_in { (kind : Kind D) → AnEventEach kind }
    ensures of_status { (kind : Kind D) → StatusEventEach kind }
    ensures of_data_out { (kind : Kind D) → OutEventEach kind }
    ensures of_command { (kind : Kind D) → CommandEventEach kind }
    ensures of_none { (kind : Kind D) → NoneWithoutATrb kind }
{}

/// Law: the buffers of a data-in TD, in the ring's order, hold the bytes that the device gave (`filled`): it fills them part by part
/// (`given`), and the parts are the buffers (`buffers`). It takes the bytes of data-out part by part (`taken`), and they are those of the
/// buffers in the ring's order, whole (`buffers_out`).
pub fn bytes_in_order<D>()
    ensures filled { (kind : Kind D) (number : ℕ) (home : Home) → BuffersHoldWhatWasGiven kind number home }
    ensures given { (kind : Kind D) (number : ℕ) (home : Home) → GivenInOrder kind number home }
    ensures buffers { (kind : Kind D) (number : ℕ) (home : Home) → PartsAreBuffers kind number home }
    ensures taken { (kind : Kind D) (number : ℕ) (home : Home) → TakenInOrder kind number home }
    ensures buffers_out { (kind : Kind D) (number : ℕ) (home : Home) → BuffersAreTaken kind number home }
{}

/// Law: a device that notes what it gives and takes does what it does without its notes. The laws of bytes in order speak of such a device.
pub fn notes_are_beside<D>()
    ensures of_data_in { (kind : Kind D) → NotesAreBeside kind }
    ensures of_data_out { (kind : Kind D) → OutNotesAreBeside kind }
{}
