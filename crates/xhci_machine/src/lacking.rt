//! What the command in front of the command ring lacks, and a step of the command pipe, for a caller who copies in what is asked for.
ghost use Rattle.std.specs.Prelude.{◌≡◌, ◌<◌};
ghost use Rattle.guest_memory.specs.rings.Ends.{fetched};
ghost use Rattle.xhci_machine.specs.Orders.{endpoint_of};
ghost use Rattle.xhci_machine.specs.Ring.{command_cursor};
ghost use Rattle.xhci_machine.specs.Lacking.{begun_wanted, command_wanted, dequeue_wanted, order_wanted, pointer_wanted, stop_wanted, stopping_wanted};
ghost use Rattle.xhci_machine.specs.Lacking.{stream_wanted, taken_wanted, words_wanted};
ghost use Rattle.xhci_machine.specs.Wanted.{command_pipe_wanted};

use crate::Machine;
use crate::command::{Command, Order, read_command};
use crate::orders::{Endpoint, endpoint_of};
use crate::ring::{SLOT, pointer_home};
use guest_memory::rings::{Cursor, EventRing, Home, Range, fetch, look_wants};
use guest_memory::{GuestMemory, Outside};
use guest_pipes::EndpointState;
use guest_transfers::StreamPipe;
use uas_profile::Pipe;

/// The pointer of an endpoint without streams, in its context.
fn pointer_wants<M: GuestMemory>(memory: &M, at: u64) -> Option<Range>
    ensures { result ≡ pointer_wanted (M.contents memory.now) at }
{
    Range { at, count: 8 }.missing(memory)
}

impl Machine {
    /// The TRB, and then what the command needs.
    pub(crate) fn wants_command<M: GuestMemory>(&self, memory: &M) -> Option<Range>
        ensures { result ≡ command_wanted (M.contents memory.now) self.now }
    {
        self.wants_words(memory, self.command_cursor())
    }

    fn wants_words<M: GuestMemory>(&self, memory: &M, cursor: Cursor) -> Option<Range>
        ensures { result ≡ words_wanted (M.contents memory.now) self.now cursor (fetched (M.contents memory.now) cursor) }
    {
        match fetch(memory, cursor) {
            Err(Outside) => Some(Range {
                at: cursor.place,
                count: 16,
            }),
            Ok(None) => None,
            Ok(Some(words)) => self.wants_taken(memory, read_command(words)),
        }
    }

    /// Another slot than 1, or one that isn't enabled, has no endpoints.
    fn wants_taken<M: GuestMemory>(&self, memory: &M, command: Command) -> Option<Range>
        ensures { result ≡ taken_wanted (M.contents memory.now) self.now command }
    {
        match command {
            Command::OnSlot { slot, command } if slot == SLOT => {
                self.slot.wants(memory, self.registers.contexts, command)
            }
            Command::OnEndpoint {
                slot,
                endpoint,
                order,
            } if slot == SLOT && self.slot.state.is_some() => {
                self.wants_order(memory, endpoint, order)
            }
            Command::OnSlot { .. }
            | Command::OnEndpoint { .. }
            | Command::Link { .. }
            | Command::NoOp
            | Command::Foreign => None,
        }
    }

    fn wants_order<M: GuestMemory>(&self, memory: &M, id: u8, order: Order) -> Option<Range>
        ensures { result ≡ order_wanted (M.contents memory.now) self.now id order (endpoint_of id) }
    {
        let endpoint = endpoint_of(id)?;
        match order {
            Order::Reset { .. } => None,
            Order::Stop => self.wants_to_stop(memory, endpoint),
            Order::SetDequeue { stream, .. } => {
                self.wants_to_move(
                    memory,
                    endpoint,
                    pointer_home(self.slot.context, id),
                    stream,
                )
            }
        }
    }

    /// Stop Endpoint: the next ring whose TD in front was begun.
    fn wants_to_stop<M: GuestMemory>(&self, memory: &M, endpoint: Endpoint) -> Option<Range>
        ensures { result ≡ stop_wanted (M.contents memory.now) self.now endpoint }
    {
        match self.commands.stopping {
            Some(from) => self.wants_to_tell_from(memory, endpoint, from),
            None => {
                if self.state_of(endpoint).runs() {
                    self.wants_to_tell_from(memory, endpoint, 0)
                } else {
                    None
                }
            }
        }
    }

    fn wants_to_tell_from<M: GuestMemory>(
        &self,
        memory: &M,
        endpoint: Endpoint,
        from: u16,
    ) -> Option<Range>
        ensures { result ≡ stopping_wanted (M.contents memory.now) self.now endpoint from }
    {
        let stream = self.begun(endpoint, from)?;
        self.wants_begun(memory, endpoint, stream)
    }

    fn wants_begun<M: GuestMemory>(
        &self,
        memory: &M,
        endpoint: Endpoint,
        stream: u16,
    ) -> Option<Range>
        requires { stream < 256 }
        ensures { result ≡ begun_wanted (M.contents memory.now) self.now endpoint stream }
    {
        match endpoint {
            Endpoint::Control => self.control.wants_to_stop(memory),
            Endpoint::Command => {
                let at = pointer_home(self.slot.context, 2);
                look_wants(memory, Home::Endpoint { at })
            }
            Endpoint::Streams(name) => self.transfers.pipe(name).ring_wants(memory, stream),
        }
    }

    /// Set TR Dequeue Pointer: where the pointer is kept, of an endpoint that is stopped or in error.
    fn wants_to_move<M: GuestMemory>(
        &self,
        memory: &M,
        endpoint: Endpoint,
        at: u64,
        stream: u16,
    ) -> Option<Range>
        ensures { result ≡ dequeue_wanted (M.contents memory.now) self.now endpoint at stream }
    {
        match self.state_of(endpoint) {
            EndpointState::Stopped | EndpointState::Error => match endpoint {
                Endpoint::Control | Endpoint::Command => pointer_wants(memory, at),
                Endpoint::Streams(name) => self.wants_to_move_stream(memory, name, at, stream),
            },
            EndpointState::Disabled | EndpointState::Running | EndpointState::Halted => None,
        }
    }

    /// A pipe without streams has one ring, whose pointer is in the endpoint context.
    fn wants_to_move_stream<M: GuestMemory>(
        &self,
        memory: &M,
        name: StreamPipe,
        at: u64,
        stream: u16,
    ) -> Option<Range>
        ensures { result ≡ stream_wanted (M.contents memory.now) self.now name at stream }
    {
        let pipe = self.transfers.pipe(name);
        if pipe.has_stream(stream) {
            pipe.front_wants(memory, stream)
        } else if stream == 0 && !pipe.has_stream(1) {
            pointer_wants(memory, at)
        } else {
            None
        }
    }

    /// The command pipe, which nothing may serve.
    pub(crate) fn wants_command_pipe<M: GuestMemory>(
        &self,
        memory: &M,
        events: &EventRing,
    ) -> Option<Range>
        ensures { result ≡ command_pipe_wanted (M.contents memory.now) self.now events.now }
    {
        match self.pipe_fault(Pipe::Command) {
            Some(_) => self.transfers.wants_silent_command(memory, events),
            None => self.transfers.wants_command(memory, events, &self.device),
        }
    }
}
