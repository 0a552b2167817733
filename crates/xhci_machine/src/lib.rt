//! An xHCI controller with one USB Attached SCSI disk behind it, over memory that a caller owns (xHCI 1.2): what a driver finds, addresses,
//! configures and uses.
//!
//! ```text
//!     read, write: registers ----> doorbells noted ----> work: one TRB or one chunk a step
//!                                                          port, command ring, endpoint 0, command pipe,
//!                                                          then each active tag, data before status
//!     interrupt, take_message <---- events <---------------+
//!     next_request, answered <----> the backend, which has the blocks
//! ```
//!
//! The rules:
//!
//! 1. A register access takes no step and no memory. A write notes what it asks for; [`Machine::work`] does it.
//! 2. Nothing is stepped while R/S is 0, or while there is no event ring. Where R/S goes to 0 what is owed of the command ring is dropped.
//! 3. Each step asks two free places of the event ring. Where there are none it isn't due, and Event Ring Full Error takes the last
//!    place once.
//! 4. Memory that isn't there, where the controller's own data structures should be, is a host system error: HSE is set, the
//!    controller halts, and nothing else of that step happens. So is an ERDP outside the segment. A step that may change an endpoint's
//!    state tests the device context first, and so posts nothing where it isn't there.
//! 5. A doorbell starts an endpoint that is stopped; its context says so from the next step on.
//! 6. A tag whose request is at the backend waits; no other tag does.
//! 7. A pipe without streams has one ring, whose end is in the endpoint context. UAS serves none: a TD there is told with Stall Error.
//! 8. While the port is suspended no endpoint has a step, and doorbells wait.
//! 9. A disk that was pulled, or whose port is disabled, answers nothing: a TD is told with USB Transaction Error and what is left of it, its
//!    ring stays there, and the endpoint halts; so does Address Device end. Of a disk that isn't configured that goes for the pipes.
//! 10. The disk's alternate setting says who serves an endpoint, not its context. In Bulk-Only's the command and status pipes are told with USB
//!    Transaction Error, and Bulk-Out and Bulk-In have the endpoints of data-out and data-in, without streams; a stream there, and any endpoint
//!    that the disk has halted, is told with Stall Error. No TD that has ended is told so: what is left of it is skipped, and tells its end.
//!
//! What is promised: every call is safe and total, for any bytes in memory, any register access and any order; no step takes memory
//! ([`Machine::new`] takes all). A read is `read_of`, and the interrupt's pin `is_asserted`. Of the whole machine, a write is `page_done`, with
//! what it asks for beyond the registers, and so are a reset, the plug, MFINDEX and a message an equation each. The next request is that of
//! the first active tag that asks; an answer of the backend is `answered` of uas_tasks; neither changes anything else. A TRB of the command
//! ring is `command_in`, and a step there `commands_stepped`. A step's event ring is `taken` of what is kept and the registers, and `seen`
//! ahead; either fault of its table (`RingFault`) halts the controller, and a host isn't told which. An event of the controller's own is
//! `event_posted`, and what a step left `settled`.
//!
//! What a call of [`Machine::work`] makes of memory and of the whole machine, with which tags are active, is `IsWorked` (specs/Worked): rounds
//! of turns in their order, each round an equation. [`Machine::wants`] is `wanted` (specs/Wanted): the first range that a turn lacks, in that order
//! and up to the turn that acts; a turn that lacks nothing isn't refused for want of memory. That a call with a budget of 1 then isn't either,
//! where turns before change nothing, is tested. [`Machine::work_asking`] is both, step by step (`IsAsked`, specs/Asking).
//!
//! [`Machine::save`] writes the state of a machine whose device has no request out, and [`Machine::load`] makes a machine of such bytes:
//!
//! | Part | Bytes, numbers big endian |
//! |---|---|
//! | head | "UASXHC", version 1 (2), the length of all (4) |
//! | shape | the commands: 0 of the profile, 1 of hosts, 2 of virtual disks; their most blocks, or 0 (2); the most blocks of a chunk (2); how many logical units (1), and of each its blocks (8), bytes of a block (2), serial number (4) |
//! | registers | as `controller_bytes` has them |
//! | rings | the command ring: doorbell, stop owed, the stream of a Stop Endpoint under way (option, 2); the event ring (option), whether ERDP was written, whether that cleared EHB, whether Event Ring Full Error was told |
//! | slot | as `controller_bytes` has it; the states that were told, of endpoint 0, commands, status, data-out and data-in |
//! | endpoint 0, pipes, Bulk-Only | as `controller_bytes` has them |
//! | active tags | their numbers (2 each), rising; FFFFh |
//! | tags | as `controller_bytes` has them |
//! | device | as `device_bytes` has it |
//! | end | 0; the CRC-32C of all before (4) |
//!
//! What a save makes is `save_of` (specs/Saved), and a load is `load_of` (specs/Loaded): a machine of what was read, with those tags
//! active, or the first fault of the bytes. What was saved is read back ([`saved_states_are_read`]).
//!
//! It stands on `xhci_registers`, `xhci_slots`, `xhci_control`, `guest_transfers` and `guest_tasks`, and for saved states on
//! `machine_bytes`, `controller_bytes` and `device_bytes`.
#![tactic(auto)]

mod access;
mod active_tags;
mod asking;
mod bulk;
mod changes;
mod command;
mod interrupts;
mod kept;
mod lacking;
mod laws;
mod loaded;
mod orders;
mod restoring;
mod ring;
mod saved;
mod saved_laws;
mod shapes;
mod states;
mod steps;
mod turns;
mod wanting;
mod work;

pub use asking::one_step_at_most;
use guest_bulk::Bulk;
use guest_tasks::GuestTasks;
use guest_transfers::Transfers;
use interrupts::Interrupts;
pub use laws::{
    commands_that_lack_nothing_are_taken, control_that_lacks_nothing_is_stepped,
    each_tag_has_its_turn, no_more_leaves_nothing, no_step_leaves_nothing, no_task_is_left_out,
    pipes_that_lack_nothing_are_stepped, tasks_stay_active,
};
pub use loaded::LoadFault;
use ring::CommandRing;
pub use saved::SaveFault;
pub use saved_laws::saved_states_are_read;
use states::States;
pub use work::Worked;
use xhci_control::ControlPipe;
use xhci_registers::Registers;
pub use xhci_registers::Width;
use xhci_slots::Slot;

/// The controller and its disk.
#[derive(Debug, Drop)]
pub struct Machine {
    registers: Registers,
    slot: Slot,
    commands: CommandRing,
    interrupts: Interrupts,
    control: ControlPipe,
    transfers: Transfers,
    bulk: Bulk,
    device: GuestTasks,
    /// The endpoints' states as their contexts have them.
    told: States,
}
