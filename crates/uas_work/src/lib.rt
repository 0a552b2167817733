//! A bus with its log.
//!
//! A [`Booked`] is a bus and the log of all that it was ever asked. [`Booked::step`] takes one step of the shared machine and
//! books it: the step with a copy of what it brought, the number of its refusal, and the reply that it gave. So at all times
//! the bus is what the replay of its log makes of the log's first units, and the log's refusals and replies are that replay's
//! (`IsBooked` in specs/Booked.antt, which [`Booked::log`] hands out). Whoever doubts a bus replays its log.
//!
//! ```text
//!     step ---> room for its entry in the log ---> the bus's step ---> its entry ---> outcome
//!                 | LogFull, NoMemory                (can't fail)      (takes no memory)
//!                 v
//!               the step comes back, nothing changed
//! ```
//!
//! A submission may bring the log's copy of it, which a client made before it posted it: [`Booked::step_prepared`]. An idle step
//! changes nothing and isn't booked. A log has room for so many steps as was said when the bus was made.
//!
//! [`control`] and [`dispatch`] take the part of those who have no client, one step or nothing at a time, under a [`Gate`]: a
//! tester's say in who may take what, and when. [`spawn_all`] lets clients, controllers and a dispatcher do it in threads, with
//! the bus under a lock. What is proved of that is what is proved of each booked step: whatever the threads did, the bus that
//! they leave is its log's replay. That they get on is no clause and is tested.
//!
//! It stands on bus_core and uas_log.
#![tactic(auto)]

mod claims;
mod clients;
mod desk_and_board;
mod gates;
mod handed;
mod joining;
mod locked_bus;
mod opening;
mod parking;
mod parts;
mod prepared_step;
mod pump_part;
mod pumps;
mod reasons;
mod rounds;
mod serving;
mod spares;
mod stepping;
mod sweeping;
mod turns;
mod workers;

use bus_core::Bus;
pub use gates::{Gate, Unhindered};
pub use prepared_step::PreparedStep;
pub use pumps::{control, dispatch};
pub use serving::{pump_in, pump_out};
use spares::Spares;
use std::marker::Model;
pub use sweeping::sweep;
use tag_desk::{Claim, Left};
use thiserror::Error;
use uas_log::{Log, Replies};
use uas_profile::MAX_CLIENTS;
pub use workers::spawn_all;

/// Why a step was not taken.
#[derive(Clone, Copy, Debug, PartialEq, Eq, Error)]
pub enum Booking {
    #[error("the log holds as many steps as it may")]
    LogFull = 1,
    #[error("no memory for the entry of the log")]
    NoMemory,
}

/// A bus and its log.
#[derive(Debug, Drop)]
pub struct Booked {
    bus: Bus,
    log: Log,
    /// How many steps the log may hold.
    limit: usize,
    /// Of each client how many of its submissions the log has.
    turns: [u64; MAX_CLIENTS],
    /// For the copies of replies to come.
    spares: Spares,
}

/// The claims that a pump holds, by tag: of slips that are booked and whose end the pump owes to the client.
#[derive(Drop)]
pub struct Held {
    claims: Vec<Option<Claim>>,
}

impl Model for Held {
    ghost use Rattle.std.specs.Prelude.{List, Option};
    ghost use Rattle.tag_desk.specs.Seats.{HeldClaim};

    ghost Value = { List (Option HeldClaim) };

    ghost view = { λ held. held.claims.items };
}

/// How many pumps there are: client c is served by pump c mod their number.
#[derive(Clone, Copy, Debug, PartialEq, Eq)]
pub enum PumpCount {
    One,
    Two,
    Four,
}

/// What the workers are to do.
#[derive(Clone, Copy, Debug, PartialEq, Eq)]
pub struct Plan {
    /// Rounds of each client: a WRITE and a READ of the same blocks.
    pub rounds: u32,
    /// How many of these commands a client has out at a time, fewer than it has tags.
    pub depth: usize,
    /// How many pumps there are.
    pub pumps: PumpCount,
    /// How many controllers there are.
    pub controllers: u32,
}

/// Why the workers ended: the first of these that came.
#[derive(Clone, Copy, Debug, PartialEq, Eq)]
pub enum Ended {
    /// Each client took all its rounds.
    Done,
    /// The log held as many steps as it may.
    LogFull,
    /// No memory was left for a command, a reply or an entry of the log.
    NoMemory,
    /// The gate gave a worker no turn.
    Stopped,
    /// A worker got no thread.
    NoThread,
}

/// What the workers left: the bus with its log, what each client took, what stands on the desk, and why they ended.
#[derive(Debug, Drop)]
pub struct Finished {
    pub booked: Booked,
    /// By client.
    pub replies: Vec<Replies>,
    /// What stands on the desk; none where there was no memory to close it.
    pub left: Option<Left>,
    pub ended: Ended,
}

impl Model for Booked {
    ghost use Rattle.uas_work.specs.Booked.{BookedState, IsBooked, IsCounted};

    ghost Value = { BookedState };

    ghost view = { λ booked. record { bus = booked.bus; log = booked.log; limit = booked.limit } };

    ghost invariant = { λ booked.
        IsBooked (record { bus = booked.bus; log = booked.log; limit = booked.limit }) × IsCounted booked.turns booked.log.steps };
}
