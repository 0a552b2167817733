//! How far the host is with a TD, and a pipe with streams as the controller keeps it.
ghost use Rattle.std.specs.Prelude.{◌≡◌, ◌<◌};
ghost use Rattle.uas_profile.specs.TdStates.{is_left_over, is_over, is_pending, is_retired, is_seen};
ghost use Rattle.uas_profile.specs.PipeStates.{is_open, new_pipe, rung_at, stopped_pipe};

use crate::{PipeState, STREAM_ENTRIES, TdState};

impl TdState {
    /// Whether the host waits for its event.
    pub fn is_pending(self) -> bool
        ensures { result ≡ is_pending self }
    {
        matches!(self, TdState::Pending)
    }

    /// Whether its event was seen.
    pub fn is_seen(self) -> bool
        ensures { result ≡ is_seen self }
    {
        matches!(self, TdState::Seen)
    }

    /// Whether it was left over and is not retired.
    pub fn is_left_over(self) -> bool
        ensures { result ≡ is_left_over self }
    {
        matches!(self, TdState::LeftOver)
    }

    /// Whether it was retired.
    pub fn is_retired(self) -> bool
        ensures { result ≡ is_retired self }
    {
        matches!(self, TdState::Retired)
    }

    /// Whether nothing more is to be done about it.
    pub fn is_over(self) -> bool
        ensures { result ≡ is_over self }
    {
        matches!(self, TdState::Seen | TdState::Retired)
    }
}

impl PipeState {
    /// At the start an endpoint runs, and no stream was rung.
    pub fn new() -> PipeState
        ensures { result ≡ new_pipe }
    {
        PipeState {
            runs: true,
            rung: [false; STREAM_ENTRIES],
        }
    }

    /// A doorbell arms its stream and starts the endpoint.
    pub fn ring(&mut self, stream: u16)
        requires { stream < STREAM_ENTRIES }
        ensures { self.new ≡ rung_at self.old stream }
    {
        self.runs = true;
        self.rung[usize::from(stream)] = true;
    }

    /// Whether a stream was rung since the last stop, and the endpoint runs.
    pub fn is_open(&self, stream: u16) -> bool
        requires { stream < STREAM_ENTRIES }
        ensures { result ≡ is_open self.now stream }
    {
        self.runs && self.rung[usize::from(stream)]
    }

    /// The endpoint is stopped, and no stream is rung.
    pub fn stopped() -> PipeState
        ensures { result ≡ stopped_pipe }
    {
        PipeState {
            runs: false,
            rung: [false; STREAM_ENTRIES],
        }
    }
}
