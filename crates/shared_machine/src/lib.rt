//! The shared machine: the disks of up to `MAX_CLIENTS` clients as one machine of atomic steps, without rings.
//!
//! Here are the words of a bus, [`Step`] and [`Outcome`], what each step means (`shared_step` in specs/Shared.antt), the replay of a
//! list of steps and the drain, and the laws of these definitions, as functions with empty bodies. Nothing here runs a step:
//! `bus_core` does, and promises that its bus is this machine. `isolation` says what it is to each client, `machine_invariant` what
//! holds of what waits in it.
#![tactic(auto)]

mod copies;
mod doorbells;
mod laws;
mod replay_laws;

pub use doorbells::Doorbells;
pub use laws::{
    acts_where_due, brings_next_len, drains_to_quiet, idle_changes_nothing, keeps_clients,
    keeps_tags,
};
pub use replay_laws::{idle_can_be_left_out, replay_goes_on, step_brings_its_len};
use scsi_cmd::{Command, Reply, SubmitFault, Task};
use uas_profile::{Pipe, Place, TdState};

/// The most doorbells that are kept one by one: those of a submission.
pub const MOST_DOORBELLS: usize = 3;

const _: () = prove!(MOST_DOORBELLS == 3);

/// A TD: its state, and how many of its TRBs the controller took.
#[derive(Clone, Copy, Debug, PartialEq, Eq)]
pub struct Td {
    pub state: TdState,
    pub consumed: usize,
}

/// How far a retirement is: which of its two commands was asked for last, and whether the controller has executed it.
#[derive(Clone, Copy, Debug, PartialEq, Eq)]
pub enum RetirementStage {
    /// Stop Endpoint waits on the controller's command ring.
    StopAsked,
    /// Its event waits.
    StopAnswered,
    /// Set TR Dequeue Pointer waits on the controller's command ring.
    MoveAsked,
    /// Its event waits.
    MoveAnswered,
}

/// A retirement that is under way: the place whose TD on this pipe is taken off its ring.
#[derive(Clone, Copy, Debug, PartialEq, Eq)]
pub struct Retirement {
    pub pipe: Pipe,
    pub place: Place,
    pub stage: RetirementStage,
}

/// A completion event: the TD of which place the controller is done with (xHCI 4.11.3).
#[derive(Clone, Copy, Debug, PartialEq, Eq)]
pub enum Completion {
    CommandDone(Place),
    DataDone(Place),
    StatusDone(Place),
    /// The controller's own command is done, of the retirement of this place's TD.
    EngineDone(Place),
}

/// One atomic step of the bus.
#[derive(Debug, Drop)]
pub enum Step {
    /// A client submits a command on one of its command tags, with a ticket below 2^60.
    Submit {
        client: usize,
        tag: u16,
        ticket: u64,
        command: Command,
    },
    /// A client submits a task management under its task tag, with a ticket below 2^60.
    Task {
        client: usize,
        ticket: u64,
        task: Task,
    },
    /// The device receives the oldest unit in the command pipe.
    CommandPipe,
    /// The controller moves one chunk of the tag's data.
    Data(u16),
    /// The controller moves the tag's status.
    Status(u16),
    /// The controller executes the oldest command of its own command ring.
    Engine,
    /// The host takes the oldest event.
    Event,
    /// The host begins to retire the tag's TD on a pipe, which is left over.
    Retire(Pipe, u16),
    /// A client takes its oldest reply that is ready.
    Take(usize),
}

/// What a step was to its owner: the index of the tag, without what the client handed in.
#[derive(Clone, Copy, Debug, PartialEq, Eq)]
pub enum Mark {
    Submit(u16),
    Task,
    Carry(u16),
    Move(u16),
    Send(u16),
    Settle(u16),
    /// Nothing that the owner can tell.
    Quiet,
}

/// A refused submission: why, and the command handed back; a task management has none.
#[derive(Debug, Drop)]
pub struct Refusal {
    pub fault: SubmitFault,
    pub command: Option<Command>,
}

/// What came of a step.
#[derive(Debug, Drop)]
pub struct Outcome {
    /// Whether it was due.
    pub acted: bool,
    /// The client of the submission, of the tag, of the message or event; none of an idle step.
    pub owner: Option<usize>,
    pub mark: Mark,
    pub reply: Option<Reply>,
    pub refused: Option<Refusal>,
    /// The doorbells that were rung, in order.
    pub doors: Doorbells,
}
