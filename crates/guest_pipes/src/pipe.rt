//! A pipe of streams: its doorbells, and what the commands of the command ring make of it.
ghost use Rattle.std.specs.Prelude.{◌≡◌, ◌==◌, ◌+◌, ◌*◌, ◌<◌, ◌≤◌, ◌^◌, IfOk, IfSome, ℕ, Some, None, true, false, get_or, replicate, vec_len, is_ok};
ghost use Rattle.guest_pipes.specs.Progress.{fresh};
ghost use Rattle.std.specs.Result.{result_ok};
ghost use Rattle.guest_memory.specs.rings.Ends.{looked};
ghost use Rattle.guest_pipes.specs.Step.{has_home};
ghost use Rattle.guest_pipes.specs.Wanted.{front_wanted, ring_wanted};
ghost use Rattle.guest_pipes.specs.Pipe.{configured, disabled, forgotten, has_stray, has_stream, home_of, loaded, noted, progress_on, recovered, reset_with, ring_home, rung_by, stopped, stored};

mod saved;

use crate::consumer::{Consumer, EndpointState};
use crate::progress::Progress;
use guest_memory::rings::{Front, Home, Range, look, look_wants};
use guest_memory::{GuestMemory, Outside};
pub use saved::PipeHead;
use std::alloc::{AllocError, Global};
use std::marker::Model;

/// How many stream contexts an array has at most.
pub const STREAM_CONTEXTS: usize = 256;

/// A pipe of streams.
#[derive(Debug, Drop)]
pub struct Pipe {
    endpoint: u8,
    state: EndpointState,
    array: u64,
    streams: u16,
    invalid: bool,
    rung: [bool; STREAM_CONTEXTS],
    progress: Vec<Progress>,
}

impl Model for Pipe {
    ghost use Rattle.guest_pipes.specs.Pipe.{PipeState};

    ghost Value = { PipeState };

    ghost use Rattle.std.specs.Prelude.{◌≡◌, ◌≤◌, vec_len};

    ghost view = { λ p. record {
      endpoint = p.endpoint;
      state = p.state;
      array = p.array;
      streams = p.streams;
      invalid = p.invalid;
      rung = p.rung;
      progress = p.progress.items;
    } };

    ghost invariant = { λ p. (vec_len p.progress ≡ 256) × (p.streams ≤ 256) };
}

impl EndpointState {
    /// After Set TR Dequeue Pointer: an endpoint in error is stopped.
    pub fn recover(self) -> EndpointState
        ensures { result ≡ recovered self }
    {
        match self {
            EndpointState::Disabled => EndpointState::Disabled,
            EndpointState::Running => EndpointState::Running,
            EndpointState::Halted => EndpointState::Halted,
            EndpointState::Stopped | EndpointState::Error => EndpointState::Stopped,
        }
    }
}

/// No stream's doorbell is rung.
fn no_doorbells() -> [bool; STREAM_CONTEXTS]
    ensures { result ≡ replicate 256 false }
{
    [false; STREAM_CONTEXTS]
}

fn all_fresh() -> [Progress; STREAM_CONTEXTS]
    ensures { result ≡ replicate 256 fresh }
{
    [Progress::fresh(); STREAM_CONTEXTS]
}

/// No stream's TD is begun. The error is want of memory.
fn no_progress(alloc: Global) -> Result<Vec<Progress>, AllocError>
    ensures items { IfOk result (λ all. all.items ≡ replicate 256 fresh) }
    ensures len { IfOk result (λ all. vec_len all ≡ 256) }
{
    Ok(Vec::from_array(alloc, all_fresh())?)
}

impl Pipe {
    /// A pipe that is disabled. The error is want of memory.
    pub fn new(alloc: Global, endpoint: u8) -> Result<Pipe, AllocError>
        ensures { IfOk result (λ p. p ≡ disabled endpoint) }
    {
        Ok(Pipe {
            endpoint,
            state: EndpointState::Disabled,
            array: 0,
            streams: 0,
            invalid: false,
            rung: no_doorbells(),
            progress: no_progress(alloc)?,
        })
    }

    /// Its endpoint's ID.
    pub fn endpoint(&self) -> u8
        ensures { result ≡ self.now.endpoint }
    {
        self.endpoint
    }

    /// Its endpoint's state.
    pub fn state(&self) -> EndpointState
        ensures { result ≡ self.now.state }
    {
        self.state
    }

    /// Whether a doorbell rang for a stream that isn't there.
    pub fn is_invalid(&self) -> bool
        ensures { result ≡ self.now.invalid }
    {
        self.invalid
    }

    /// Whether the array has a stream.
    pub fn has_stream(&self, stream: u16) -> bool
        ensures result { result ≡ has_stream self.now stream }
        ensures below { result ≡ true → stream < 256 }
    {
        1 <= stream && stream < self.streams
    }

    /// Whether it has no streams, but one ring.
    pub fn is_alone(&self) -> bool
        ensures { result ≡ (self.now.streams == 0) }
    {
        self.streams == 0
    }

    /// Whether a doorbell rang that no stream's turn serves: of a stream that isn't there, or of a pipe without streams.
    pub fn has_stray(&self) -> bool
        ensures { result ≡ has_stray self.now }
    {
        if self.streams == 0 {
            self.rung[0]
        } else {
            self.invalid
        }
    }

    /// Disables it (Configure Endpoint drops it).
    pub fn disable(&mut self)
        ensures { self.new ≡ disabled self.old.endpoint }
    {
        self.state = EndpointState::Disabled;
        self.array = 0;
        self.streams = 0;
        self.invalid = false;
        self.rung = [false; STREAM_CONTEXTS];
        self.progress.fill(Progress::fresh());
    }

    /// Starts it with an array of so many contexts (Configure Endpoint adds it). Where that is 0 it has no streams but one ring, and `array` is
    /// the address of that ring's dequeue pointer in the endpoint context.
    pub fn configure(&mut self, array: u64, streams: u16)
        requires { streams ≤ 256 }
        ensures { self.new ≡ configured self.old array streams }
    {
        self.disable();
        self.state = EndpointState::Running;
        self.array = array;
        self.streams = streams;
    }

    fn note(&mut self, stream: u16)
        ensures { self.new ≡ noted self.old stream }
    {
        if self.streams == 0 {
            self.rung[0] = true;
        } else if self.has_stream(stream) {
            self.rung[usize::from(stream)] = true;
        } else {
            self.invalid = true;
        }
    }

    /// A doorbell with a stream (4.7), which a pipe without streams doesn't look at (5.6). It starts an endpoint that is stopped; of one that
    /// is disabled, halted or in error it does nothing.
    pub fn ring_doorbell(&mut self, stream: u16)
        ensures { self.new ≡ rung_by self.old.state self.old stream }
    {
        match self.state {
            EndpointState::Disabled | EndpointState::Halted | EndpointState::Error => (),
            EndpointState::Running => self.note(stream),
            EndpointState::Stopped => {
                self.state = EndpointState::Running;
                self.note(stream);
            }
        }
    }

    /// Stops it (Stop Endpoint): the doorbells are forgotten, and what is opaque stays.
    pub fn stop(&mut self)
        ensures { self.new ≡ stopped self.old }
    {
        self.state = EndpointState::Stopped;
        self.invalid = false;
        self.rung = [false; STREAM_CONTEXTS];
    }

    /// Brings it from halted to stopped (Reset Endpoint); what is opaque stays where `keeps` (TSP).
    pub fn reset(&mut self, keeps: bool)
        ensures { self.new ≡ reset_with keeps self.old }
    {
        self.state = EndpointState::Stopped;
        if !keeps {
            self.progress.fill(Progress::fresh());
        }
    }

    /// Forgets what was moved of a stream's ring, or of the one ring, which is that of stream 0 (Set TR Dequeue Pointer).
    pub fn forget(&mut self, stream: u16)
        requires { stream < 256 }
        ensures { self.new ≡ forgotten self.old stream }
    {
        self.state = self.state.recover();
        self.progress[usize::from(stream)] = Progress::fresh();
    }

    /// The consumer of a stream's ring.
    pub fn consumer(&self, stream: u16) -> Consumer
        requires { stream < 256 }
        ensures { result ≡ loaded self.now stream }
    {
        Consumer {
            endpoint: self.endpoint,
            state: self.state,
            rung: self.rung[usize::from(stream)],
            progress: self.progress[usize::from(stream)],
        }
    }

    /// Keeps the consumer of a stream's ring once it has changed.
    pub fn keep(&mut self, stream: u16, consumer: &Consumer)
        requires { stream < 256 }
        ensures { self.new ≡ stored self.old stream consumer.now }
    {
        self.state = consumer.state;
        self.rung[usize::from(stream)] = consumer.rung;
        self.progress[usize::from(stream)] = consumer.progress;
    }

    /// The end of a stream's ring, and what stands there. Refused where a byte of either isn't there.
    #[tactic(auto, using(guest_memory::specs::rings::Past::looked_past))]
    pub fn front<M: GuestMemory>(&self, memory: &M, stream: u16) -> Result<Front, Outside>
        ensures front { result_ok result ≡ looked (M.contents memory.now) (home_of self.now stream) }
        ensures there { IfOk result (λ front. has_home (M.contents memory.now) front.home ≡ true) }
    {
        match self.array.checked_add(16 * u64::from(stream)) {
            Some(at) => look(memory, Home::Stream { at }),
            None => Err(Outside),
        }
    }

    /// The first range that [`Pipe::front`] reads of which a byte isn't there; the array up to the stream's context where that would begin
    /// at 2^64 or above.
    pub fn front_wants<M: GuestMemory>(&self, memory: &M, stream: u16) -> Option<Range>
        ensures { result ≡ front_wanted (M.contents memory.now) self.now stream }
    {
        match self.array.checked_add(16 * u64::from(stream)) {
            Some(at) => look_wants(memory, Home::Stream { at }),
            None => Some(Range {
                at: self.array,
                count: 16 * usize::from(stream) + 16,
            }),
        }
    }

    /// The end of a ring of a pipe with streams or without, and what stands there. Refused where a byte of either isn't there.
    pub(crate) fn ring_front<M: GuestMemory>(
        &self,
        memory: &M,
        stream: u16,
    ) -> Result<Front, Outside>
        ensures { result_ok result ≡ looked (M.contents memory.now) (ring_home self.now stream) }
    {
        if self.is_alone() {
            look(memory, Home::Endpoint { at: self.array })
        } else {
            self.front(memory, stream)
        }
    }

    /// The first range that [`Pipe::tell_stopped`] reads of which a byte isn't there.
    pub fn ring_wants<M: GuestMemory>(&self, memory: &M, stream: u16) -> Option<Range>
        ensures { result ≡ ring_wanted (M.contents memory.now) self.now stream }
    {
        if self.is_alone() {
            look_wants(memory, Home::Endpoint { at: self.array })
        } else {
            self.front_wants(memory, stream)
        }
    }

    /// The address of the one ring's dequeue pointer.
    pub(crate) fn lone_home(&self) -> Home
        requires { self.now.streams ≡ 0 }
        ensures { result ≡ ring_home self.now 0 }
    {
        Home::Endpoint { at: self.array }
    }

    /// Where a stream's consumer's end is kept. Refused where a byte of that isn't there.
    #[tactic(auto, using(guest_memory::specs::rings::Past::past_end))]
    pub(crate) fn home<M: GuestMemory>(&self, memory: &M, stream: u16) -> Result<Home, Outside>
        ensures home { IfOk result (λ home. home ≡ home_of self.now stream) }
        ensures there { is_ok result ≡ has_home (M.contents memory.now) (home_of self.now stream) }
    {
        match self.array.checked_add(16 * u64::from(stream)) {
            Some(at) => {
                if memory.has(at, 16) {
                    Ok(Home::Stream { at })
                } else {
                    Err(Outside)
                }
            }
            None => Err(Outside),
        }
    }

    /// The state that a doorbell of a stream that isn't there leaves it in.
    pub(crate) fn halt_invalid(&mut self, state: EndpointState)
        ensures { self.new ≡ record self.old { state = state; invalid = false } }
    {
        self.state = state;
        self.invalid = false;
    }
}
