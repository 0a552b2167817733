//! The controller's own commands: the front TRB of its command ring, what it does, its event (xHCI 4.6).
ghost use Rattle.std.specs.Prelude.{◌≡◌, ◌<◌, ◌%◌, IfSome, is_some, length};
ghost use Rattle.std.specs.Option.{option_map_or};
ghost use Rattle.uas_profile.specs.Pipes.{HasStreams};
ghost use Rattle.stream_array.specs.Map.{HasRing, places_of};
ghost use Rattle.stream_array.specs.Rings.{ring_of, with_ring};
ghost use Rattle.xhci_ctl.specs.Engine.{commanded_pipe, dequeued_at, engine_acted, engine_front, executed, set_dequeue, stop_endpoint};
ghost use Rattle.uas_profile.specs.PipeStates.{stopped_pipe};
ghost use Rattle.xhci_ctl.specs.Engine.{stopped_on};

use crate::pipes::{has_stream, pipe_at};
use crate::{Acted, Controller, PipeState};
use cycle_ring::laws::addresses_name_items;
use event_ring::Event;
use stream_array::{Lines, Pipe};
use uas_profile::{
    CONTEXT_STATE_ERROR, INVALID_STREAM_ID, MOST_EVENTS, SLOT, STREAM_ENTRIES, SUCCESS, TRB_ERROR,
};
use xhci_trb::Trb;

impl Controller {
    /// A step of the controller's command ring. It is due where that ring has a pending TRB and the event ring has room: the
    /// TRB is executed and consumed, and its event has one of these codes.
    ///
    /// - 5, TRB Error: neither Stop Endpoint nor Set TR Dequeue Pointer, a slot other than 1, an endpoint that isn't 3, 4 or 5.
    /// - Stop Endpoint (4.6.9): 1, Success: the pipe's endpoint ran, and is stopped with all its streams disarmed. 19, Context
    ///   State Error: it didn't run.
    /// - Set TR Dequeue Pointer (4.6.10), by the first test that holds. 34, Invalid Stream ID: stream 0, or above 255. 19: the
    ///   endpoint runs. 5: the stream has no ring, or address and cycle state are those of no pending TRB and not of the
    ///   enqueue place. Else 1, and the stream's ring and context go on there.
    ///
    /// Nothing changes but at code 1. Acted on 0.
    pub fn engine_step(&mut self, lines: &mut Lines) -> Acted
        ensures { engine_acted (self.old, lines.old) ≡ ((self.new, lines.new), result) }
    {
        let Some((address, command)) = engine_front(lines) else {
            return Acted::Idle;
        };
        let code = self.execute(lines, command);
        lines.advance_engine();
        let event = Event::Command {
            pointer: address,
            code,
            slot: SLOT,
        };
        lines.post(event).unwrap();
        Acted::Acted(0)
    }

    // Does what a command asks for: its completion code.
    fn execute(&mut self, lines: &mut Lines, command: Option<Trb>) -> u8
        ensures done { executed (self.old, lines.old) command ≡ ((self.new, lines.new), result) }
        ensures engine { lines.new.engine ≡ lines.old.engine }
        ensures events { lines.new.events ≡ lines.old.events }
    {
        match command {
            Some(Trb::StopEndpoint { endpoint, slot }) => match commanded_pipe(endpoint, slot) {
                Some(pipe) => self.stop_endpoint(pipe),
                None => TRB_ERROR,
            },
            Some(
                Trb::SetDequeue {
                    pointer,
                    cycle,
                    stream,
                    endpoint,
                    slot,
                },
            ) => match commanded_pipe(endpoint, slot) {
                Some(pipe) => self.set_dequeue(lines, pipe, stream, pointer, cycle),
                None => TRB_ERROR,
            },
            _ => TRB_ERROR,
        }
    }

    fn stop_endpoint(&mut self, pipe: Pipe) -> u8
        ensures { stop_endpoint self.old pipe ≡ (self.new, result) }
    {
        if !self.running(pipe) {
            return CONTEXT_STATE_ERROR;
        }
        self.stop(pipe);
        SUCCESS
    }

    fn stop(&mut self, pipe: Pipe)
        ensures { self.new ≡ stopped_on self.old pipe }
    {
        match pipe {
            Pipe::Command => {}
            Pipe::Status => self.status = PipeState::stopped(),
            Pipe::DataIn => self.data_in = PipeState::stopped(),
            Pipe::DataOut => self.data_out = PipeState::stopped(),
        }
    }

    fn set_dequeue(
        &self,
        lines: &mut Lines,
        pipe: Pipe,
        stream: u16,
        pointer: u64,
        cycle: bool,
    ) -> u8
        requires { HasStreams pipe }
        ensures done { set_dequeue self.now lines.old pipe stream pointer cycle ≡ (lines.new, result) }
        ensures engine { lines.new.engine ≡ lines.old.engine }
        ensures events { lines.new.events ≡ lines.old.events }
    {
        if stream == 0 || usize::from(stream) >= STREAM_ENTRIES {
            return INVALID_STREAM_ID;
        }
        if self.running(pipe) {
            return CONTEXT_STATE_ERROR;
        }
        if has_stream(stream) && move_dequeue(lines, pipe, stream, pointer, cycle) {
            SUCCESS
        } else {
            TRB_ERROR
        }
    }
}

// What is in front of the command ring, its address and its TRB, none of foreign bytes, while the event ring has room.
#[tactic(auto, using(crate::proofs::Fronts::front_known, crate::proofs::Fronts::front_raw, crate::proofs::Fronts::front_none))]
fn engine_front(lines: &Lines) -> Option<(u64, Option<Trb>)>
    ensures front { result ≡ engine_front lines.now }
    ensures pending { IfSome result (λ front. lines.now.engine.got < length lines.now.engine.put) }
    ensures room { IfSome result (λ front. length lines.now.events.pending < MOST_EVENTS) }
    ensures aligned { IfSome result (λ front. front.0 % 16 ≡ 0) }
{
    lines.room_engine();
    if lines.len() >= MOST_EVENTS {
        return None;
    }
    if let Some((address, trb)) = lines.front_engine() {
        return Some((address, Some(trb)));
    }
    match lines.front_raw_engine() {
        Some((address, _)) => Some((address, None)),
        None => None,
    }
}

// The pipe with streams whose endpoint a command names, of the one slot.
fn commanded_pipe(endpoint: u8, slot: u8) -> Option<Pipe>
    ensures pipe { result ≡ commanded_pipe endpoint slot }
    ensures streams { IfSome result HasStreams }
{
    if slot == SLOT {
        pipe_at(u32::from(endpoint))
    } else {
        None
    }
}

// Moves a ring's consumer's end; false where it can't stand at that place with that cycle state.
fn move_dequeue(lines: &mut Lines, pipe: Pipe, stream: u16, pointer: u64, cycle: bool) -> bool
    requires { HasRing pipe stream }
    ensures moved { result ≡ is_some (dequeued_at (places_of pipe) (ring_of lines.old pipe stream) pointer cycle) }
    ensures lines { lines.new ≡ option_map_or (λ ring. with_ring lines.old pipe stream ring)
        (dequeued_at (places_of pipe) (ring_of lines.old pipe stream) pointer cycle) lines.old }
    ensures engine { lines.new.engine ≡ lines.old.engine }
    ensures events { lines.new.events ≡ lines.old.events }
{
    addresses_name_items();
    lines.room(pipe, stream);
    lines.move_dequeue(pipe, stream, pointer, cycle).is_ok()
}
