//! Doorbells, and which streams are armed (xHCI 4.7, 4.12, 5.6).
ghost use Rattle.std.specs.Prelude.{◌≡◌, ◌<◌, ◌≤◌, true, IfSome};
ghost use Rattle.stream_array.specs.Contexts.{has_stream};
ghost use Rattle.uas_profile.specs.Pipes.{HasStreams};
ghost use Rattle.stream_array.specs.Map.{HasRing};
ghost use Rattle.xhci_ctl.specs.Doorbells.{pipe_at, rung_by, rung_in};
ghost use Rattle.uas_profile.specs.PipeStates.{is_open, new_pipe, rung_at};
ghost use Rattle.xhci_ctl.specs.Pipes.{is_armed, is_open_on, is_running, new_controller};

use crate::{Controller, PipeState};
use stream_array::{Lines, Pipe};
use uas_profile::{DATA_IN_ENDPOINT, DATA_OUT_ENDPOINT, STATUS_ENDPOINT, STREAMS};

/// Whether a pipe with streams has a ring for this stream.
pub(crate) fn has_stream(stream: u16) -> bool
    ensures { result ≡ has_stream stream }
{
    stream != 0 && stream <= STREAMS
}

pub(crate) fn pipe_at(target: u32) -> Option<Pipe>
    ensures pipe { result ≡ pipe_at target }
    ensures streams { IfSome result HasStreams }
{
    if target == u32::from(STATUS_ENDPOINT) {
        Some(Pipe::Status)
    } else if target == u32::from(DATA_OUT_ENDPOINT) {
        Some(Pipe::DataOut)
    } else if target == u32::from(DATA_IN_ENDPOINT) {
        Some(Pipe::DataIn)
    } else {
        None
    }
}

/// The pipe and the stream that a doorbell value rings.
fn rung_in(value: u32) -> Option<(Pipe, u16)>
    ensures rung { result ≡ rung_in value }
    ensures stream { IfSome result (λ rung. rung.1 ≤ STREAMS) }
{
    let target = value % 256;
    let reserved = value / 256 % 256;
    let stream = (value / 65_536) as u16;
    if reserved != 0 || !has_stream(stream) {
        return None;
    }
    let pipe = pipe_at(target)?;
    Some((pipe, stream))
}

impl Default for Controller {
    ghost is_default = { λ controller. controller ≡ new_controller };

    fn default() -> Controller {
        Controller::new()
    }
}

impl Controller {
    /// The controller at the start: every endpoint runs, and no stream was rung.
    pub fn new() -> Controller
        ensures { result ≡ new_controller }
    {
        Controller {
            status: PipeState::new(),
            data_in: PipeState::new(),
            data_out: PipeState::new(),
        }
    }

    /// Takes a doorbell value (xHCI 5.6): target in bits 7:0, stream in 31:16. It arms that stream of the status (3), data-out
    /// (4) or data-in (5) pipe and starts its endpoint. The value 0, another target, a bit set in 15:8 and a stream without a
    /// ring (0 and those above 248, `STREAMS`) change nothing.
    pub fn doorbell(&mut self, value: u32)
        ensures { self.new ≡ rung_by self.old value }
    {
        match rung_in(value) {
            Some((Pipe::Status, stream)) => self.status.ring(stream),
            Some((Pipe::DataIn, stream)) => self.data_in.ring(stream),
            Some((Pipe::DataOut, stream)) => self.data_out.ring(stream),
            Some((Pipe::Command, _)) | None => {}
        }
    }

    /// Whether a pipe's endpoint runs. That of the command pipe always does.
    pub fn running(&self, pipe: Pipe) -> bool
        ensures { result ≡ is_running self.now pipe }
    {
        match pipe {
            Pipe::Command => true,
            Pipe::Status => self.status.runs,
            Pipe::DataIn => self.data_in.runs,
            Pipe::DataOut => self.data_out.runs,
        }
    }

    /// Whether a stream (0 for the command pipe) is armed: it was rung since the last stop of its pipe, the pipe runs, and its
    /// ring has a pending TRB. The command pipe counts as rung. False of a stream without a ring.
    pub fn armed(&self, lines: &Lines, pipe: Pipe, stream: u16) -> bool
        ensures armed { result ≡ is_armed self.now lines.now pipe stream }
    {
        self.is_open_on(pipe, stream) && lines.front_raw(pipe, stream).is_some()
    }

    #[inline(always)]
    pub(crate) fn is_open_on(&self, pipe: Pipe, stream: u16) -> bool
        ensures open { result ≡ is_open_on self.now pipe stream }
        ensures ring { result ≡ true → HasRing pipe stream }
    {
        match pipe {
            Pipe::Command => stream == 0,
            Pipe::Status => has_stream(stream) && self.status.is_open(stream),
            Pipe::DataIn => has_stream(stream) && self.data_in.is_open(stream),
            Pipe::DataOut => has_stream(stream) && self.data_out.is_open(stream),
        }
    }
}
