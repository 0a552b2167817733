//! Commands on endpoints: Stop Endpoint, Reset Endpoint and Set TR Dequeue Pointer (xHCI 1.2, 4.6.8 to 4.6.10).
ghost use Rattle.std.specs.Prelude.{◌≡◌, ◌<◌, IfSome, OnErr, is_ok, is_some, option_map, unwrap_or};
ghost use Rattle.std.specs.Result.{result_ok};
ghost use Rattle.xhci_machine.specs.Orders.{begun_in, begun_told, dequeue_done, endpoint_of, halt_ended, moved, next_begun, order_coded, order_done};
ghost use Rattle.xhci_machine.specs.Orders.{pointer_set, reset_done, state_in, stop_done, stop_told_from, stopped_on, stream_moved};

use crate::Machine;
use crate::command::Order;
use crate::ring::{Ended, SLOT_NOT_ENABLED, SUCCESS, end_with, pointer_home};
use guest_memory::rings::{Cursor, EventRing, Home, stand};
use guest_memory::{GuestMemory, Outside};
use guest_pipes::{EndpointState, Pipe};
use guest_transfers::StreamPipe;

/// Completion codes (table 6-90).
const ENDPOINT_NOT_ENABLED: u8 = 12;

const CONTEXT_STATE_ERROR: u8 = 19;

const INVALID_STREAM_ID: u8 = 34;

/// Streams of a pipe.
pub(crate) const STREAMS: u16 = 256;

/// An endpoint of the disk.
#[derive(Clone, Copy, Debug, PartialEq, Eq)]
pub(crate) enum Endpoint {
    Control,
    Command,
    Streams(StreamPipe),
}

/// The endpoint of an ID.
#[tactic(auto, unfolding(crate::specs::Orders::endpoint_of))]
pub(crate) fn endpoint_of(id: u8) -> Option<Endpoint>
    ensures { result ≡ endpoint_of id }
{
    match id {
        1 => Some(Endpoint::Control),
        2 => Some(Endpoint::Command),
        3 => Some(Endpoint::Streams(StreamPipe::Status)),
        4 => Some(Endpoint::Streams(StreamPipe::DataOut)),
        5 => Some(Endpoint::Streams(StreamPipe::DataIn)),
        _ => None,
    }
}

/// The first stream from one on whose TD in front was begun.
fn next_begun(pipe: &Pipe, from: u16) -> Option<u16>
    ensures next { result ≡ next_begun pipe.now from }
    ensures below { IfSome result (λ stream. stream < 256) }
{
    for stream in from..STREAMS {
        if pipe.consumer(stream).progress.begun {
            return Some(stream);
        }
    }
    None
}

/// Writes a dequeue pointer that is kept in an endpoint context. Refused where it isn't there.
#[tactic(auto, unfolding(crate::specs::Orders::pointer_set))]
fn set_pointer<M: GuestMemory>(memory: &mut M, at: u64, cursor: Cursor) -> Result<(), Outside>
    ensures set { M.contents memory.new ≡ unwrap_or (pointer_set (M.contents memory.old) at cursor) (M.contents memory.old) }
    ensures done { is_ok result ≡ is_some (pointer_set (M.contents memory.old) at cursor) }
    ensures same_loan { M.loan memory.new ≡ M.loan memory.old }
{
    if !memory.has(at, 8) {
        return Err(Outside);
    }
    stand(memory, Home::Endpoint { at }, 0, cursor);
    Ok(())
}

impl Machine {
    /// Executes a command on an endpoint; None where it isn't over yet. It may change the endpoint's state, so the device context is
    /// tested before. Refused where a byte of that or of what else it needs isn't there.
    #[tactic(auto, unfolding(crate::specs::Orders::order_done))]
    pub(crate) fn order<M: GuestMemory>(
        &mut self,
        memory: &mut M,
        events: &mut EventRing,
        slot: u8,
        id: u8,
        order: Order,
    ) -> Result<Option<Ended>, Outside>
        ensures done { (record { memory = M.contents memory.new; events = events.new; machine = self.new }, result_ok result)
            ≡ order_done (record { memory = M.contents memory.old; events = events.old; machine = self.old }) slot id order }
        ensures same_loan { M.loan memory.new ≡ M.loan memory.old }
    {
        if slot != 1 || self.slot.state.is_none() {
            return Ok(Some(end_with(SLOT_NOT_ENABLED, slot)));
        }
        let Some(endpoint) = endpoint_of(id) else {
            return Ok(Some(end_with(ENDPOINT_NOT_ENABLED, slot)));
        };
        if self.wants_context(memory).is_some() {
            return Err(Outside);
        }
        match self.order_on(memory, events, endpoint, id, order)? {
            Some(code) => Ok(Some(end_with(code, slot))),
            None => Ok(None),
        }
    }

    /// The code of a command on one of the disk's endpoints; None where it isn't over yet.
    #[tactic(auto, unfolding(crate::specs::Orders::order_coded))]
    fn order_on<M: GuestMemory>(
        &mut self,
        memory: &mut M,
        events: &mut EventRing,
        endpoint: Endpoint,
        id: u8,
        order: Order,
    ) -> Result<Option<u8>, Outside>
        ensures coded { (record { memory = M.contents memory.new; events = events.new; machine = self.new }, result_ok result)
            ≡ order_coded (record { memory = M.contents memory.old; events = events.old; machine = self.old }) endpoint id order }
        ensures same_loan { M.loan memory.new ≡ M.loan memory.old }
    {
        match order {
            Order::Stop => self.stop_endpoint(memory, events, endpoint),
            Order::Reset { keeps } => Ok(Some(self.reset_endpoint(endpoint, keeps))),
            Order::SetDequeue {
                cursor,
                kind,
                stream,
            } => {
                let code = self.set_dequeue(memory, endpoint, id, cursor, kind, stream)?;
                Ok(Some(code))
            }
        }
    }

    pub(crate) fn state_of(&self, endpoint: Endpoint) -> EndpointState
        ensures { result ≡ state_in self.now endpoint }
    {
        match endpoint {
            Endpoint::Control => self.control.state(),
            Endpoint::Command => self.transfers.command().state,
            Endpoint::Streams(name) => self.transfers.pipe(name).state(),
        }
    }

    /// Stop Endpoint: each ring whose TD in front was begun is told of in a step of its own; then the command's code.
    #[tactic(auto, unfolding(crate::specs::Orders::stop_done))]
    fn stop_endpoint<M: GuestMemory>(
        &mut self,
        memory: &mut M,
        events: &mut EventRing,
        endpoint: Endpoint,
    ) -> Result<Option<u8>, Outside>
        ensures done { (record { memory = M.contents memory.new; events = events.new; machine = self.new }, result_ok result)
            ≡ stop_done (record { memory = M.contents memory.old; events = events.old; machine = self.old }) endpoint }
        ensures same_loan { M.loan memory.new ≡ M.loan memory.old }
    {
        if let Some(from) = self.commands.stopping {
            return self.tell_stopped(memory, events, endpoint, from);
        }
        match self.state_of(endpoint) {
            EndpointState::Running => {
                self.stop(endpoint);
                self.tell_stopped(memory, events, endpoint, 0)
            }
            EndpointState::Disabled => Ok(Some(ENDPOINT_NOT_ENABLED)),
            EndpointState::Halted | EndpointState::Stopped | EndpointState::Error => {
                Ok(Some(CONTEXT_STATE_ERROR))
            }
        }
    }

    #[tactic(auto, unfolding(crate::specs::Orders::stopped_on))]
    fn stop(&mut self, endpoint: Endpoint)
        ensures { self.new ≡ stopped_on self.old endpoint }
    {
        match endpoint {
            Endpoint::Control => self.control.stop(),
            Endpoint::Command => self.transfers.stop_command(),
            Endpoint::Streams(name) => self.transfers.stop(name),
        }
    }

    /// Tells of the next ring whose TD in front was begun, from this stream on.
    #[tactic(auto, unfolding(crate::specs::Orders::stop_told_from))]
    fn tell_stopped<M: GuestMemory>(
        &mut self,
        memory: &mut M,
        events: &mut EventRing,
        endpoint: Endpoint,
        from: u16,
    ) -> Result<Option<u8>, Outside>
        ensures told { (record { memory = M.contents memory.new; events = events.new; machine = self.new }, result_ok result)
            ≡ stop_told_from (record { memory = M.contents memory.old; events = events.old; machine = self.old }) endpoint from }
        ensures same_loan { M.loan memory.new ≡ M.loan memory.old }
    {
        match self.begun(endpoint, from) {
            None => {
                self.commands.stopping = None;
                Ok(Some(SUCCESS))
            }
            Some(stream) => {
                self.commands.stopping = Some(stream + 1);
                self.tell_begun(memory, events, endpoint, stream)?;
                Ok(None)
            }
        }
    }

    /// The first ring from this stream on whose TD in front was begun.
    pub(crate) fn begun(&self, endpoint: Endpoint, from: u16) -> Option<u16>
        ensures begun { result ≡ begun_in self.now endpoint from }
        ensures below { IfSome result (λ stream. stream < 256) }
    {
        let begun = match endpoint {
            Endpoint::Control => self.control.is_begun(),
            Endpoint::Command => self.transfers.command().progress.begun,
            Endpoint::Streams(name) => return next_begun(self.transfers.pipe(name), from),
        };
        if begun && from == 0 { Some(0) } else { None }
    }

    /// Posts what Stop Endpoint posts of a ring. Refused where the event's place, the ring's end or the TRB there isn't there, and then
    /// nothing changes.
    #[tactic(auto, unfolding(crate::specs::Orders::begun_told))]
    fn tell_begun<M: GuestMemory>(
        &self,
        memory: &mut M,
        events: &mut EventRing,
        endpoint: Endpoint,
        stream: u16,
    ) -> Result<(), Outside>
        requires { stream < 256 }
        ensures told { record { memory = M.contents memory.new; events = events.new; machine = self.now }
            ≡ unwrap_or (begun_told (record { memory = M.contents memory.old; events = events.old; machine = self.now }) endpoint stream) (record { memory = M.contents memory.old; events = events.old; machine = self.now }) }
        ensures done { is_ok result ≡ is_some (begun_told (record { memory = M.contents memory.old; events = events.old; machine = self.now }) endpoint stream) }
        ensures same_loan { M.loan memory.new ≡ M.loan memory.old }
    {
        if !memory.has(events.enqueue_pointer(), 16) {
            return Err(Outside);
        }
        match endpoint {
            Endpoint::Control => self.control.tell_stopped(memory, events),
            Endpoint::Command => {
                let at = pointer_home(self.slot.context, 2);
                self.transfers
                    .command()
                    .tell_stopped(memory, events, Home::Endpoint { at })
            }
            Endpoint::Streams(name) => self
                .transfers
                .pipe(name)
                .tell_stopped(memory, events, stream),
        }
    }

    /// Reset Endpoint: from halted to stopped.
    fn reset_endpoint(&mut self, endpoint: Endpoint, keeps: bool) -> u8
        ensures { (self.new, result) ≡ reset_done self.old endpoint keeps }
    {
        match self.state_of(endpoint) {
            EndpointState::Halted => {
                self.reset_halted(endpoint, keeps);
                SUCCESS
            }
            EndpointState::Disabled => ENDPOINT_NOT_ENABLED,
            EndpointState::Running | EndpointState::Stopped | EndpointState::Error => {
                CONTEXT_STATE_ERROR
            }
        }
    }

    #[tactic(auto, unfolding(crate::specs::Orders::halt_ended))]
    fn reset_halted(&mut self, endpoint: Endpoint, keeps: bool)
        ensures { self.new ≡ halt_ended self.old endpoint keeps }
    {
        match endpoint {
            Endpoint::Control => self.control.reset(keeps),
            Endpoint::Command => {
                if keeps {
                    self.transfers.stop_command();
                } else {
                    self.transfers.forget_command(EndpointState::Stopped);
                }
            }
            Endpoint::Streams(name) => {
                self.transfers.reset(name, keeps);
                if !keeps {
                    self.forget_bulk(name);
                }
            }
        }
    }

    /// Set TR Dequeue Pointer of an endpoint that is stopped or in error. Refused where the pointer isn't there, and then nothing changes.
    fn set_dequeue<M: GuestMemory>(
        &mut self,
        memory: &mut M,
        endpoint: Endpoint,
        id: u8,
        cursor: Cursor,
        kind: u8,
        stream: u16,
    ) -> Result<u8, Outside>
        ensures done { dequeue_done (M.contents memory.old) self.old endpoint id cursor kind stream
            ≡ option_map (λ code. (M.contents memory.new, (self.new, code))) (result_ok result) }
        ensures outside { OnErr result (M.contents memory.new ≡ M.contents memory.old) }
        ensures as_before { OnErr result (self.new ≡ self.old) }
        ensures same_loan { M.loan memory.new ≡ M.loan memory.old }
    {
        match self.state_of(endpoint) {
            EndpointState::Stopped | EndpointState::Error => {
                let at = pointer_home(self.slot.context, id);
                self.move_dequeue(memory, endpoint, at, cursor, kind, stream)
            }
            EndpointState::Disabled => Ok(ENDPOINT_NOT_ENABLED),
            EndpointState::Running | EndpointState::Halted => Ok(CONTEXT_STATE_ERROR),
        }
    }

    #[tactic(auto, unfolding(crate::specs::Orders::moved))]
    fn move_dequeue<M: GuestMemory>(
        &mut self,
        memory: &mut M,
        endpoint: Endpoint,
        at: u64,
        cursor: Cursor,
        kind: u8,
        stream: u16,
    ) -> Result<u8, Outside>
        ensures done { moved (M.contents memory.old) self.old endpoint at cursor kind stream
            ≡ option_map (λ code. (M.contents memory.new, (self.new, code))) (result_ok result) }
        ensures outside { OnErr result (M.contents memory.new ≡ M.contents memory.old) }
        ensures as_before { OnErr result (self.new ≡ self.old) }
        ensures same_loan { M.loan memory.new ≡ M.loan memory.old }
    {
        match endpoint {
            Endpoint::Control => {
                set_pointer(memory, at, cursor)?;
                self.control.forget();
                Ok(SUCCESS)
            }
            Endpoint::Command => {
                set_pointer(memory, at, cursor)?;
                self.transfers.forget_command(EndpointState::Stopped);
                Ok(SUCCESS)
            }
            Endpoint::Streams(name) => self.move_stream(memory, name, at, cursor, kind, stream),
        }
    }

    /// The same of a stream; a pipe without streams has one ring, whose pointer is in the endpoint context.
    #[tactic(auto, unfolding(crate::specs::Orders::stream_moved))]
    fn move_stream<M: GuestMemory>(
        &mut self,
        memory: &mut M,
        name: StreamPipe,
        at: u64,
        cursor: Cursor,
        kind: u8,
        stream: u16,
    ) -> Result<u8, Outside>
        ensures done { stream_moved (M.contents memory.old) self.old name at cursor kind stream
            ≡ option_map (λ code. (M.contents memory.new, (self.new, code))) (result_ok result) }
        ensures outside { OnErr result (M.contents memory.new ≡ M.contents memory.old) }
        ensures as_before { OnErr result (self.new ≡ self.old) }
        ensures same_loan { M.loan memory.new ≡ M.loan memory.old }
    {
        let pipe = self.transfers.pipe(name);
        if pipe.has_stream(stream) {
            self.transfers
                .set_dequeue(memory, name, stream, cursor, kind % 8)?;
            Ok(SUCCESS)
        } else if stream == 0 && !pipe.has_stream(1) {
            set_pointer(memory, at, cursor)?;
            self.transfers.forget_lone(name);
            self.forget_bulk(name);
            Ok(SUCCESS)
        } else {
            Ok(INVALID_STREAM_ID)
        }
    }
}
