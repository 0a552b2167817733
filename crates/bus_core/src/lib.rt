//! The bus: the disks of up to `MAX_CLIENTS` clients behind one controller, as one machine of atomic steps.
//!
//! A [`Bus`] is a host driver, an xHCI controller and a simulated device, and between them nothing but rings, stream contexts
//! and buffers. Each step is one call of one of the three: the host submits, handles an event or gives a reply, the controller
//! takes one TRB. There is no list beside the rings: what waits in the command pipe, which events are pending and how far each
//! TD is are read off them (`decoded` in specs/Decoded.antt).
//!
//! ```text
//!   client --Submit--> entry, TDs, Command unit --CommandPipe--> device --Data--> lent buffer
//!                          |                                        |
//!   client <--Take-- ready <--Event-- event ring <-----------------+--Status--> Sense unit
//! ```
//!
//! What is promised: [`Bus::step`] is the shared machine's step (`shared_step` in shared_machine specs/Shared.antt), so it acts
//! exactly where it is due; [`Bus::run`] is the shared machine's replay, and each client's replies and unit after it
//! are those of the solo machine for the client's own labels (the headline, `IsIsolated` in isolation specs/Isolation.antt).
//! [`Bus::lines`] shows it: the rings have exactly what the shared machine has waiting (`ShowsShared` in specs/Shows.antt), and
//! [`Bus::frames`] the units, answers and vectors of what stands (`ShowsFrames`). No step takes memory, and none scans a list.
//!
//! It stands on uas_host, xhci_ctl, uas_target, stream_array and frame_store: its code goes by their contracts, and its proofs
//! also cite lemmas of theirs and of the crates below them.
//!
//! A [`RingBus`] is the same bus with its rings in sight. Its value is the whole world, host, controller, device, rings and
//! buffers, and [`RingBus::step`] says beside the shared machine's step which world comes after it (`world_after` in
//! specs/WholeStep.antt), so that each byte that a step writes can be told. A [`Bus`] is a `RingBus` of which contracts see
//! the shared machine alone, read back from that world.
#![tactic(auto)]

mod doors;
mod machine;
mod next_reply;
mod outcomes;
mod owners;
mod runs;
mod shared_bus;
mod steps;
pub mod world_due;
pub mod world_laws;

use arrayvec::ArrayVec;
use block_unit::Unit;
use frame_store::Frames;
pub use isolation::{
    isolated, opens_as_solo, refuses_as_own, replays_as_solo, settles_once, steps_isolated,
    worlds_agree,
};
pub use machine_invariant::{
    command_pipe_in_order, data_tds_fit, matches_at_start, no_queue_outgrows, none_is_stray,
    notes_reach_their_tickets, order_is_kept, others_stay, replays_match, steps_keep_matches,
};
pub use shared_machine::{
    Completion, Doorbells, MOST_DOORBELLS, Mark, Outcome, Refusal, Retirement, RetirementStage,
    Step, Td, acts_where_due, brings_next_len, drains_to_quiet, idle_can_be_left_out,
    idle_changes_nothing, keeps_clients, replay_goes_on, step_brings_its_len,
};
use std::marker::Model;
use stream_array::Lines;
use uas_host::Host;
use uas_profile::STREAM_ENTRIES;
use uas_target::Target;
use xhci_ctl::Controller;

/// The outcomes of a run, in order.
#[derive(Debug, Drop)]
pub struct Trace {
    outcomes: Vec<Outcome>,
}

/// The bus with what stands on its rings in sight: the host, the controller and the device, the rings and contexts between host and
/// controller, and the buffers that the host lends. `doors` is where the host notes the doorbells of one call.
#[derive(Debug, Drop)]
pub struct RingBus {
    host: Host,
    controller: Controller,
    target: Target,
    lines: Lines,
    frames: Frames,
    doors: ArrayVec<u32, STREAM_ENTRIES>,
}

/// The bus as the shared machine that is read back from its rings.
#[derive(Debug, Drop)]
pub struct Bus {
    rings: RingBus,
}

impl Model for RingBus {
    ghost use Rattle.bus_core.specs.World.{World, world_of};
    ghost use Rattle.bus_core.specs.Decoded.{FitsItself};

    ghost Value = { World };

    ghost view = { λ bus. world_of bus.host bus.controller bus.target bus.lines bus.frames };

    ghost invariant = { λ bus. FitsItself (world_of bus.host bus.controller bus.target bus.lines bus.frames) };
}

impl Model for Bus {
    ghost use Rattle.shared_machine.specs.Shared.{Shared};
    ghost use Rattle.bus_core.specs.Decoded.{decoded};

    ghost Value = { Shared };

    ghost view = { λ bus. decoded bus.rings };
}

impl Model for Trace {
    ghost use Rattle.std.specs.Prelude.{List};
    ghost use Rattle.shared_machine.specs.declared.Outcome.{Outcome};

    ghost Value = { List Outcome };

    ghost view = { λ trace. trace.outcomes.items };
}
