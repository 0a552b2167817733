//! TDs of data that don't come, and of the statuses of commands that were aborted, are taken off (xHCI 1.2, 4.6.9 and 4.6.10): the pipe's endpoint is
//! stopped, the dequeue pointer of each such stream is moved to its next third, and then the doorbells of the other streams are rung again.
#![tactic(auto, using(crate::proofs::Kept::kept_same))]

ghost use Rattle.std.specs.Prelude.{◌≡◌};
ghost use Rattle.byteorder.specs.Endian.{little_number};
ghost use Rattle.block_driver.specs.Steps.{World, endpoint_of, freeing_access, freeing_command};
ghost use Rattle.block_driver.specs.Turns.{command_came, context_taken, first_word, free_closed, free_ended, free_next, free_put, freeing_begun, move_ended, removal_came, ring_after, stop_again, stop_ended, taken_off};
ghost use Rattle.block_driver.specs.Table.{RepliesStand, marks};

use crate::kinds::{Kind, StreamPipe};
use crate::rings::ring_on;
use crate::steps::{Blocks, Work};
use crate::table::Loss;
use bring_up::{Access, Completed, Putting, Taken, later};
use disk_ready::place_in;
use host_trbs::{Command, Completion, EndpointState, endpoint_state};
use usb_descriptors::Pipes;

/// What takes TDs off.
#[derive(Clone, Copy)]
pub enum Freeing {
    /// Stop Endpoint, tried since a time.
    Stop(u64),
    /// Set TR Dequeue Pointer of a tag's stream to its next third.
    Move(u8),
}

/// A command that takes TDs off a pipe; its event comes up to a time.
#[derive(Clone, Copy)]
pub struct Removal {
    pub pipe: StreamPipe,
    pub freeing: Freeing,
    pub limit: u64,
    pub came: Option<Completed>,
}

/// ms of a command on the command ring.
const COMMAND_LIMIT: u64 = 5_000;

/// ms that Stop Endpoint is tried.
const STOP_LIMIT: u64 = 100;

/// The device context index of a pipe.
pub(crate) fn endpoint_of(pipes: &Pipes, pipe: StreamPipe) -> u8
    ensures { result ≡ endpoint_of pipe pipes.now }
{
    match pipe {
        StreamPipe::DataIn => pipes.data_in.context_index(),
        StreamPipe::DataOut => pipes.data_out.context_index(),
        StreamPipe::Status => pipes.status.context_index(),
    }
}

fn removal_came(removal: Option<Removal>, ended: Completed) -> Option<Removal>
    ensures { result ≡ removal_came removal ended }
{
    match removal {
        Some(removal) => Some(Removal {
            came: Some(ended),
            ..removal
        }),
        None => None,
    }
}

impl Blocks {
    pub(crate) fn freeing_access(
        &self,
        taken: &Taken,
        pipes: &Pipes,
        removal: Removal,
        at: Putting,
    ) -> Access
        ensures { result ≡ freeing_access (record { blocks = self.now; taken = taken.now }) pipes.now removal at }
    {
        let command = self.freeing_command(taken, pipes, removal);
        taken.commands.put(
            &taken.controller,
            &taken.layout,
            at,
            command.words(taken.commands.cycle),
            command.words(!taken.commands.cycle),
        )
    }

    fn freeing_command(&self, taken: &Taken, pipes: &Pipes, removal: Removal) -> Command
        ensures { result ≡ freeing_command removal.freeing (record { blocks = self.now; taken = taken.now }) pipes.now removal.pipe }
    {
        let slot = taken.device.slot;
        let endpoint = endpoint_of(pipes, removal.pipe);
        match removal.freeing {
            Freeing::Stop(_) => Command::StopEndpoint { slot, endpoint },
            Freeing::Move(tag) => {
                let thirds = self.thirds[usize::from(tag)];
                let third = thirds.on(removal.pipe);
                Command::SetDequeue {
                    pointer: match place_in(&taken.layout, ring_on(removal.pipe, tag), third, 0) {
                        Some(at) => at,
                        None => 0,
                    },
                    stream: u16::from(tag),
                    slot,
                    endpoint,
                }
            }
        }
    }

    pub(crate) fn free(&mut self, taken: &Taken, pipe: StreamPipe, freeing: Freeing)
        ensures is { record { blocks = self.new; taken = taken.now } ≡ freeing_begun (record { blocks = self.old; taken = taken.now }) pipe freeing }
        ensures once { marks self.new.tags ≡ marks self.old.tags }
        ensures replies { RepliesStand self.old.tags self.new.tags }
    {
        self.removal = None;
        self.work = Work::Free {
            removal: Removal {
                pipe,
                freeing,
                limit: 0,
                came: None,
            },
            at: taken.commands.begun_command(),
        };
    }

    /// The next access of a command that is put; then its event is awaited.
    pub(crate) fn free_put(&mut self, removal: Removal, at: Putting, now: u64)
        ensures is { self.new ≡ free_put self.old removal at now }
        ensures once { marks self.new.tags ≡ marks self.old.tags }
        ensures replies { RepliesStand self.old.tags self.new.tags }
    {
        let next = match at {
            Putting::Link => Putting::Body,
            Putting::Body => Putting::Last,
            Putting::Last => Putting::Bell,
            Putting::Bell => {
                self.removal = Some(Removal {
                    limit: later(now, COMMAND_LIMIT),
                    ..removal
                });
                self.work = Work::Idle;
                return;
            }
        };
        self.work = Work::Free { removal, at: next };
    }

    /// All events were read. A command that is silent for too long has the controller taken anew.
    pub(crate) fn free_closed(&mut self, taken: &mut Taken, removal: Removal, now: u64)
        ensures is { record { blocks = self.new; taken = taken.new } ≡ free_closed removal.came (record { blocks = self.old; taken = taken.old }) removal now }
        ensures once { marks self.new.tags ≡ marks self.old.tags }
        ensures replies { RepliesStand self.old.tags self.new.tags }
    {
        match removal.came {
            Some(ended) => {
                taken.commands = taken.commands.next();
                self.free_ended(taken, removal, Completion::of(ended.code), now);
            }
            None if removal.limit <= now => self.restart(taken, now),
            None => self.work = Work::Idle,
        }
    }

    /// A command ended.
    fn free_ended(&mut self, taken: &mut Taken, removal: Removal, completion: Completion, now: u64)
        ensures is { record { blocks = self.new; taken = taken.new } ≡ free_ended removal.freeing (record { blocks = self.old; taken = taken.old }) removal.pipe completion now }
        ensures once { marks self.new.tags ≡ marks self.old.tags }
        ensures replies { RepliesStand self.old.tags self.new.tags }
    {
        match removal.freeing {
            Freeing::Stop(since) => self.stop_ended(taken, removal.pipe, since, completion, now),
            Freeing::Move(tag) => self.move_ended(taken, removal.pipe, tag, completion, now),
        }
    }

    fn stop_ended(
        &mut self,
        taken: &mut Taken,
        pipe: StreamPipe,
        since: u64,
        completion: Completion,
        now: u64,
    )
        ensures is { record { blocks = self.new; taken = taken.new } ≡ stop_ended completion (record { blocks = self.old; taken = taken.old }) pipe since now }
        ensures once { marks self.new.tags ≡ marks self.old.tags }
        ensures replies { RepliesStand self.old.tags self.new.tags }
    {
        match completion {
            Completion::Success => self.free_next(taken, pipe, now),
            Completion::ContextState => self.stop_again(taken, pipe, since, now),
            _ => self.restart(taken, now),
        }
    }

    /// The endpoint isn't running: Stop Endpoint again, for a while; then its state is read.
    fn stop_again(&mut self, taken: &Taken, pipe: StreamPipe, since: u64, now: u64)
        ensures is { record { blocks = self.new; taken = taken.now } ≡ stop_again (record { blocks = self.old; taken = taken.now }) pipe since now }
        ensures once { marks self.new.tags ≡ marks self.old.tags }
        ensures replies { RepliesStand self.old.tags self.new.tags }
    {
        if later(since, STOP_LIMIT) <= now {
            self.removal = None;
            self.work = Work::Context { pipe };
        } else {
            self.free(taken, pipe, Freeing::Stop(since));
        }
    }

    /// The next stream whose TD is taken off; behind the last, the others go on.
    fn free_next(&mut self, taken: &Taken, pipe: StreamPipe, now: u64)
        ensures is { record { blocks = self.new; taken = taken.now } ≡ free_next (record { blocks = self.old; taken = taken.now }) pipe now }
        ensures once { marks self.new.tags ≡ marks self.old.tags }
        ensures replies { RepliesStand self.old.tags self.new.tags }
    {
        match self.tags.first(Kind::Stuck { pipe, now }) {
            Some(tag) => self.free(taken, pipe, Freeing::Move(tag)),
            None => self.ring_after(pipe, 0),
        }
    }

    fn move_ended(
        &mut self,
        taken: &mut Taken,
        pipe: StreamPipe,
        tag: u8,
        completion: Completion,
        now: u64,
    )
        ensures is { record { blocks = self.new; taken = taken.new } ≡ move_ended completion (record { blocks = self.old; taken = taken.old }) pipe tag now }
        ensures once { marks self.new.tags ≡ marks self.old.tags }
        ensures replies { RepliesStand self.old.tags self.new.tags }
    {
        match completion {
            Completion::Success => {
                self.tags.off(pipe, tag);
                self.free_next(taken, pipe, now);
            }
            _ => self.restart(taken, now),
        }
    }

    /// The endpoint's context was loaded: one that stands goes on.
    pub(crate) fn context_taken(
        &mut self,
        taken: &mut Taken,
        pipe: StreamPipe,
        now: u64,
        bytes: &[u8],
    )
        ensures is { record { blocks = self.new; taken = taken.new } ≡ context_taken (record { blocks = self.old; taken = taken.old }) pipe now (first_word bytes.now) }
        ensures once { marks self.new.tags ≡ marks self.old.tags }
        ensures replies { RepliesStand self.old.tags self.new.tags }
    {
        match endpoint_state(&context_bytes(bytes)) {
            EndpointState::Stopped => self.free_next(taken, pipe, now),
            _ => self.fail(taken, Loss::Failed),
        }
    }

    /// The next doorbell of a stream whose TD is pending.
    pub(crate) fn ring_after(&mut self, pipe: StreamPipe, tag: u8)
        ensures is { self.new ≡ ring_after self.old pipe tag }
        ensures once { marks self.new.tags ≡ marks self.old.tags }
        ensures replies { RepliesStand self.old.tags self.new.tags }
    {
        self.removal = None;
        self.work = match self.tags.next(Kind::Moving { pipe }, tag) {
            Some(tag) => Work::Ring { pipe, tag },
            None => Work::Idle,
        };
    }

    /// The event of a command came.
    pub(crate) fn command_came(&mut self, ended: Completed)
        ensures is { self.new ≡ command_came self.old ended }
        ensures once { marks self.new.tags ≡ marks self.old.tags }
        ensures replies { RepliesStand self.old.tags self.new.tags }
    {
        self.removal = removal_came(self.removal, ended);
    }
}

/// Thirty-two bytes, or zeros.
fn context_bytes(bytes: &[u8]) -> [u8; 32]
    ensures { little_number 4 result ≡ first_word bytes.now }
{
    let mut context = [0; 32];
    if bytes.len() == 32 {
        context.copy_from_slice(bytes);
    }
    context
}
