//! What is kept of endpoints, of commands that are ended, and of the recovery that is under way.
ghost use Rattle.std.specs.Prelude.{◌≡◌};
ghost use Rattle.uas_driver.specs.Recovery.{is_halted, is_host_td, is_moving, is_put_again, is_resetting, next_by, next_stood, running_if, state_of, with_endpoint};

use crate::{Cause, EndpointState};
use stream_array::Pipe;

/// What each endpoint does, as far as events and doorbells told.
#[derive(Clone, Copy, Debug)]
pub(crate) struct Endpoints {
    pub command: EndpointState,
    pub status: EndpointState,
    pub data_in: EndpointState,
    pub data_out: EndpointState,
}

/// Why a command is ended, and whether the driver told its status itself.
#[derive(Clone, Copy, Debug)]
pub(crate) struct End {
    pub cause: Cause,
    pub told: bool,
}

/// Which command of a recovery is under way on the controller's command ring.
#[derive(Clone, Copy, Debug, PartialEq, Eq)]
pub(crate) enum Stage {
    /// Stop Endpoint.
    Stopping,
    /// None: the endpoint's state is asked for.
    Asking,
    /// Reset Endpoint.
    Resetting,
    /// Set TR Dequeue Pointer.
    Moving,
}

/// Whose TD a Set TR Dequeue Pointer is moved behind.
#[derive(Clone, Copy, Debug)]
pub(crate) enum Subject {
    /// Nobody's.
    Nothing,
    /// That of a command that is ended, by its tag.
    Ended(u16),
    /// That of the host's own retirement.
    HostTd,
}

/// The recovery of an endpoint that is under way.
#[derive(Clone, Copy, Debug)]
pub(crate) struct Recovery {
    pub pipe: Pipe,
    pub stage: Stage,
    pub subject: Subject,
    /// The stream whose dequeue pointer is set.
    pub stream: u16,
    /// The address of the last TRB of the TD that is taken off.
    pub last: u64,
    /// The address of the command that was done last.
    pub command: u64,
    /// Whether a Set TR Dequeue Pointer was refused before.
    pub again: bool,
    /// Whether the endpoint's state was asked for before.
    pub asked: bool,
}

/// What a command's completion code asks for.
#[derive(Clone, Copy, Debug)]
pub(crate) enum Next {
    /// It is done.
    Go,
    /// It is put once more.
    Again,
    /// The endpoint is halted: Reset Endpoint.
    Reset,
    /// The endpoint's state is asked for.
    Ask,
    /// Stop Endpoint, and then once more.
    Retry,
    /// The pipe is given up.
    Lose,
}

impl Endpoints {
    pub fn of(&self, pipe: Pipe) -> EndpointState
        ensures { result ≡ state_of self.now pipe }
    {
        match pipe {
            Pipe::Command => self.command,
            Pipe::Status => self.status,
            Pipe::DataIn => self.data_in,
            Pipe::DataOut => self.data_out,
        }
    }

    pub fn set(&mut self, pipe: Pipe, state: EndpointState)
        ensures { self.new ≡ with_endpoint self.old pipe state }
    {
        match pipe {
            Pipe::Command => self.command = state,
            Pipe::Status => self.status = state,
            Pipe::DataIn => self.data_in = state,
            Pipe::DataOut => self.data_out = state,
        }
    }
}

impl EndpointState {
    pub(crate) fn is_halted(self) -> bool
        ensures { result ≡ is_halted self }
    {
        matches!(self, EndpointState::Halted)
    }
}

impl Stage {
    pub fn is_resetting(self) -> bool
        ensures { result ≡ is_resetting self }
    {
        matches!(self, Stage::Resetting)
    }

    pub fn is_moving(self) -> bool
        ensures { result ≡ is_moving self }
    {
        matches!(self, Stage::Moving)
    }
}

impl Subject {
    pub fn is_host_td(self) -> bool
        ensures { result ≡ is_host_td self }
    {
        matches!(self, Subject::HostTd)
    }
}

/// Whether an endpoint runs, by whether a doorbell of it is written.
pub(crate) fn running_if(rings: bool) -> EndpointState
    ensures { result ≡ running_if rings }
{
    if rings {
        EndpointState::Running
    } else {
        EndpointState::Stopped
    }
}

/// Success.
const SUCCESS: u8 = 1;

/// Context State Error.
pub(crate) const CONTEXT_STATE_ERROR: u8 = 19;

/// The command ring was stopped.
const RING_STOPPED: u8 = 24;

/// The command was given up.
const COMMAND_ABORTED: u8 = 25;

fn is_put_again(code: u8) -> bool
    ensures { result ≡ is_put_again code }
{
    code == RING_STOPPED || code == COMMAND_ABORTED
}

fn next_stood(state: EndpointState) -> Next
    ensures { result ≡ next_stood state }
{
    match state {
        EndpointState::Running => Next::Ask,
        EndpointState::Halted => Next::Reset,
        EndpointState::Stopped => Next::Go,
    }
}

/// What the completion of a stage's command asks for.
pub(crate) fn next_by(stage: Stage, state: EndpointState, again: bool, code: u8) -> Next
    ensures { result ≡ next_by stage state again code }
{
    if is_put_again(code) || stage == Stage::Asking {
        return Next::Again;
    }
    match stage {
        Stage::Stopping => match code {
            SUCCESS => Next::Go,
            CONTEXT_STATE_ERROR => next_stood(state),
            _ => Next::Lose,
        },
        Stage::Resetting | Stage::Asking => Next::Go,
        Stage::Moving => {
            if code == SUCCESS {
                Next::Go
            } else if again {
                Next::Lose
            } else {
                Next::Retry
            }
        }
    }
}
