//! A pipe none of whose rings anything serves, as of a disk that was pulled: its TDs are told with a completion code (xHCI 1.2, 4.10.2).
ghost use Rattle.std.specs.Prelude.{◌≡◌, ◌<◌, IfOk, IfSome, is_ok, is_some};
ghost use Rattle.std.specs.Result.{result_ok};
ghost use Rattle.guest_memory.specs.rings.Ends.{looked};
ghost use Rattle.guest_pipes.specs.Gate.{after};
ghost use Rattle.guest_pipes.specs.Pipe.{home_of};
ghost use Rattle.guest_transfers.specs.Orders.{pipe_of};
ghost use Rattle.guest_transfers.specs.Silent.{next_rung, rung_stepped, rung_wanted, silent_command, silent_command_wanted, silent_on, silent_stepped, silent_wanted};

use crate::calls::Transfers;
use crate::control::StreamPipe;
use guest_memory::rings::{EventRing, Home, Range, look_wants};
use guest_memory::{GuestMemory, Outside};
use guest_pipes::{Acted, Pipe, place_range};

/// Streams of a pipe.
const STREAMS: u16 = 256;

/// The first stream whose doorbell is rung.
pub fn next_rung(pipe: &Pipe) -> Option<u16>
    ensures next { result ≡ next_rung pipe.now }
    ensures below { IfSome result (λ stream. stream < 256) }
{
    for stream in 0..STREAMS {
        if pipe.consumer(stream).rung {
            return Some(stream);
        }
    }
    None
}

/// Where a stream's ring's end is kept. Refused where a byte of that or of the TRB there isn't there.
#[tactic(auto, using(crate::proofs::Rung::looked_at))]
fn home_of<M: GuestMemory>(memory: &M, pipe: &Pipe, stream: u16) -> Result<Home, Outside>
    ensures found { is_ok result ≡ is_some (looked (M.contents memory.now) (home_of pipe.now stream)) }
    ensures home { IfOk result (λ home. home ≡ home_of pipe.now stream) }
{
    Ok(pipe.front(memory, stream)?.home)
}

/// A step at the end of a stream's ring, which nothing can serve. Refused where a byte of the event's place, of the ring's end or of the TRB
/// there isn't there, and then nothing changes.
fn step_rung<M: GuestMemory>(
    memory: &mut M,
    events: &mut EventRing,
    pipe: &mut Pipe,
    stream: u16,
    code: u8,
) -> Result<Acted, Outside>
    requires { stream < 256 }
    ensures step { (record { memory = M.contents memory.new; events = events.new; pipe = pipe.new }, result_ok result)
        ≡ after (record { memory = M.contents memory.old; events = events.old; pipe = pipe.old })
        (rung_stepped code (record { memory = M.contents memory.old; events = events.old; pipe = pipe.old }) stream) }
    ensures same_loan { M.loan memory.new ≡ M.loan memory.old }
{
    let mut consumer = pipe.consumer(stream);
    let acted = match consumer.gate(memory, events)? {
        Some(acted) => acted,
        None => {
            let home = home_of(memory, pipe, stream)?;
            consumer.step_unserved(memory, events, home, code)?
        }
    };
    pipe.keep(stream, &consumer);
    Ok(acted)
}

fn step_silent<M: GuestMemory>(
    memory: &mut M,
    events: &mut EventRing,
    pipe: &mut Pipe,
    code: u8,
) -> Result<Acted, Outside>
    ensures step { (record { memory = M.contents memory.new; events = events.new; pipe = pipe.new }, result_ok result)
        ≡ after (record { memory = M.contents memory.old; events = events.old; pipe = pipe.old })
        (silent_stepped code (record { memory = M.contents memory.old; events = events.old; pipe = pipe.old })) }
    ensures same_loan { M.loan memory.new ≡ M.loan memory.old }
{
    if pipe.is_alone() || pipe.is_invalid() {
        return pipe.step_stray(memory, events, code);
    }
    match next_rung(pipe) {
        None => Ok(Acted::Idle),
        Some(stream) => step_rung(memory, events, pipe, stream, code),
    }
}

/// What a step at the end of the first such ring lacks.
fn rung_wants<M: GuestMemory>(memory: &M, events: &EventRing, pipe: &Pipe) -> Option<Range>
    ensures { result ≡ rung_wanted (M.contents memory.now) events.now pipe.now (next_rung pipe.now) }
{
    let stream = next_rung(pipe)?;
    match pipe.consumer(stream).gate(memory, events) {
        Err(Outside) => Some(place_range(events)),
        Ok(Some(_)) => None,
        Ok(None) => pipe.front_wants(memory, stream),
    }
}

impl Transfers {
    /// A step for a doorbell of a pipe none of whose rings anything serves: the TD in front of the first ring whose doorbell is rung is told
    /// with this code. Refused as [`Transfers::step_stray`] is.
    pub fn step_silent<M: GuestMemory>(
        &mut self,
        memory: &mut M,
        events: &mut EventRing,
        name: StreamPipe,
        code: u8,
    ) -> Result<Acted, Outside>
        ensures step { (M.contents memory.new, (events.new, (self.new, result_ok result)))
            ≡ silent_on code (M.contents memory.old) events.old self.old name }
        ensures same_loan { M.loan memory.new ≡ M.loan memory.old }
    {
        match name {
            StreamPipe::Status => step_silent(memory, events, &mut self.status, code),
            StreamPipe::DataOut => step_silent(memory, events, &mut self.data_out, code),
            StreamPipe::DataIn => step_silent(memory, events, &mut self.data_in, code),
        }
    }

    /// The same of the command pipe.
    pub fn step_silent_command<M: GuestMemory>(
        &mut self,
        memory: &mut M,
        events: &mut EventRing,
        code: u8,
    ) -> Result<Acted, Outside>
        ensures step { (M.contents memory.new, (events.new, (self.new, result_ok result)))
            ≡ silent_command code (M.contents memory.old) events.old self.old }
        ensures same_loan { M.loan memory.new ≡ M.loan memory.old }
    {
        let home = Home::Endpoint { at: self.home };
        self.command.step_unserved(memory, events, home, code)
    }

    /// The first range that [`Transfers::step_silent`] reads or writes of which a byte isn't there.
    pub fn wants_silent<M: GuestMemory>(
        &self,
        memory: &M,
        events: &EventRing,
        name: StreamPipe,
    ) -> Option<Range>
        ensures { result ≡ silent_wanted (M.contents memory.now) events.now (pipe_of self.now name) }
    {
        let pipe = self.pipe(name);
        if pipe.is_alone() || pipe.is_invalid() {
            self.wants_stray(memory, events, name)
        } else {
            rung_wants(memory, events, pipe)
        }
    }

    /// The first range that [`Transfers::step_silent_command`] reads or writes of which a byte isn't there.
    pub fn wants_silent_command<M: GuestMemory>(
        &self,
        memory: &M,
        events: &EventRing,
    ) -> Option<Range>
        ensures { result ≡ silent_command_wanted (M.contents memory.now) events.now self.now.command self.now.home }
    {
        match self.command.gate(memory, events) {
            Err(Outside) => Some(place_range(events)),
            Ok(Some(_)) => None,
            Ok(None) => look_wants(memory, Home::Endpoint { at: self.home }),
        }
    }
}
