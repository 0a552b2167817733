//! The whole controller of `xhci_machine` changes its device by calls on it alone, so the logical units behind it are apart.
//!
//! A turn makes at most one call, on its own tag, and in Bulk-Only's alternate setting EndTasks behind it:
//!
//! ```text
//! endpoint 0 that configures the disk    EndTasks
//! the command pipe                       Receive, of the bytes that it has gathered from memory
//! a tag's data                           Give or Take on that tag
//! a tag's status                         Send on that tag
//! Bulk-Out                               Receive, of the Command that a wrapper asks for, or Take on tag 1
//! Bulk-In                                Give or Send on tag 1
//! any other turn                         none
//! a register that resets, a pull         PowerOn
//! ```
//!
//! The calls are those of `units_apart`, and what that crate says of a list of calls holds of a guest's run: as long as the driver sends
//! what it sends on a tag to a logical unit of that tag's user (`KeepsTo`), nobody sees what the users of other ones do. Linux's driver
//! takes any tag for any unit; of it `one_unit_is_reached` holds, call by call.
//!
//! It has laws alone, over the definitions of `xhci_machine`.
#![tactic(auto)]

ghost use Rattle.guest_units.specs.Laws.{PlugsAreResets, RunsAreCalls, UnitsStayApart, WritesAreResets};

/// Law: what `work` makes of the device is made by the calls of its turns.
pub fn runs_are_calls()
    ensures { RunsAreCalls }
{}

/// Law: what a register access makes of it is a reset or nothing.
pub fn writes_are_resets()
    ensures { WritesAreResets }
{}

/// Law: so is what plugging and pulling make of it.
pub fn plugs_are_resets()
    ensures { PlugsAreResets }
{}

/// Law: logical units of one controller whose users keep to their own tags are apart.
pub fn controller_units_are_apart()
    ensures { UnitsStayApart }
{}
