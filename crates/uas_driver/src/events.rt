//! Events, and the states of endpoints that are handed in.
ghost use Rattle.std.specs.Prelude.{◌≡◌, ◌↔◌, ℕ};
ghost use Rattle.uas_driver.specs.Looks.{IsOfCommand, IsOfLook, LeavesByLook, look_for};
ghost use Rattle.uas_driver.specs.Recovery.{with_state};
ghost use Rattle.uas_driver.specs.Telling.{asked_state, commanded, done, event_by, is_asking, next_told, state_for, state_taken, stated, wanted_state};

use crate::rings::complete;
use crate::states::{CONTEXT_STATE_ERROR, Next, Recovery, Stage, next_by};
use crate::{Driver, EndpointState, Taken};
use arrayvec::ArrayVec;
use event_ring::Event;
use stream_array::Pipe;
use uas_profile::{SLOT, STREAM_ENTRIES};

type Doors = ArrayVec<u32, STREAM_ENTRIES>;

/// What the state of an endpoint that was asked for leads to.
fn next_told(asked: bool, state: EndpointState) -> Next
    ensures { result ≡ next_told asked state }
{
    match state {
        EndpointState::Running => { if asked { Next::Lose } else { Next::Again } }
        EndpointState::Halted => Next::Reset,
        EndpointState::Stopped => Next::Go,
    }
}

/// Whether a recovery asks for the state of a pipe's endpoint.
fn is_asking(recovery: &Recovery, pipe: Pipe) -> bool
    ensures { result ≡ is_asking recovery.now pipe }
{
    recovery.pipe.number() == pipe.number() && matches!(recovery.stage, Stage::Asking)
}

impl Driver {
    /// A recovery goes on as the code of its command asks for.
    fn finish(&mut self, pointer: u64, code: u8, recovery: Recovery, doors: &mut Doors)
        ensures { (self.new, doors.new.items) ≡ done self.old pointer code recovery }
    {
        doors.clear();
        let next = next_by(
            recovery.stage,
            self.endpoints.of(recovery.pipe),
            recovery.again,
            code,
        );
        let now = Recovery {
            command: pointer,
            ..recovery
        };
        self.go_by(now, code, next, doors);
    }

    /// Takes in a command completion event, any.
    fn command(&mut self, pointer: u64, code: u8, slot: u8, doors: &mut Doors) -> Taken
        ensures { commanded self.old pointer code slot ≡ (self.new, result, doors.new.items) }
    {
        doors.clear();
        let Some(recovery) = self.recovery else {
            return self.stray();
        };
        if slot != SLOT || !complete(&mut self.lines, pointer, code) {
            return self.stray();
        }
        self.finish(pointer, code, recovery, doors);
        self.go_on(doors);
        Taken::Engine
    }

    /// Takes in an event that the controller beyond posted (4.9.4), any event; `doors` has the doorbells to write.
    ///
    /// What a transfer event means for the TRB at its pointer is [`meaning_of`](crate::meaning_of): with Success that TRB and all before
    /// it on its ring are consumed; a short packet ends the whole TD; of an endpoint that is being stopped, and of a TD that failed, the
    /// TRB isn't consumed. What ends a TD is handed to the host (`Host::on_transfer`): the answer is `Matched` where the host waited for
    /// it. A TD that failed is taken off its ring, and the rest of its command's with it, unless the command's status comes before.
    ///
    /// A command completion is of the pending command at its pointer; the recovery that waits for it goes on by its code, and the
    /// answer is `Engine`. An event of no TRB of a TD that is pending or begun, of no pending command, of another endpoint or
    /// slot, or whose code says nothing of a TRB is `Stray`, and changes nothing but [`Driver::strays`]. Worked: the event of the first of two data TRBs of a TD, with
    /// code 1, is `Noted`; that of the second is `Matched`.
    pub fn take_event(&mut self, event: Event, doors: &mut Doors) -> Taken
        ensures made { event_by self.old event ≡ (self.new, result, doors.new.items) }
        // In words of the host's own: matched exactly where the host looks at an event of a TD of that tag that it waits for (uas_host
        // specs/Awaited), Engine exactly where the event is of the command under way, and what a matched event leaves over is left over
        // by what the host looked at (specs/LeftBy).
        ensures matched { (tag : ℕ) → (result ≡ Taken.Matched tag) ↔ IsOfLook (look_for self.old event) self.old.frames tag }
        ensures engine { (result ≡ Taken.Engine) ↔ IsOfCommand self.old event }
        ensures left_over { (tag : ℕ) → result ≡ Taken.Matched tag → LeavesByLook (look_for self.old event) self.old.frames self.new.host }
    {
        self.take(event, doors)
    }

    /// Takes in an event, by its kind.
    fn take(&mut self, event: Event, doors: &mut Doors) -> Taken
        ensures { event_by self.old event ≡ (self.new, result, doors.new.items) }
    {
        match event {
            Event::Transfer {
                pointer,
                residual,
                code,
                endpoint,
                slot,
            } => {
                doors.clear();
                let taken = self.transfer(pointer, residual, code, endpoint, slot);
                if !matches!(taken, Taken::Stray) {
                    self.go_on(doors);
                }
                taken
            }
            Event::Command {
                pointer,
                code,
                slot,
            } => self.command(pointer, code, slot, doors),
        }
    }

    /// The pipe whose endpoint's state is asked for (6.2.3, EP State): a Stop Endpoint was answered with Context State Error, and no
    /// event told why. None where none is asked for.
    pub fn wanted_state(&self) -> Option<Pipe>
        ensures { result ≡ wanted_state self.now }
    {
        match self.recovery {
            Some(recovery) if is_asking(&recovery, recovery.pipe) => Some(recovery.pipe),
            _ => None,
        }
    }

    /// A recovery goes on by the state that it asked for.
    fn answer_state(&mut self, state: EndpointState, recovery: Recovery, doors: &mut Doors)
        ensures { (self.new, doors.new.items) ≡ asked_state self.old state recovery }
    {
        doors.clear();
        let now = Recovery {
            stage: Stage::Stopping,
            asked: true,
            ..recovery
        };
        let next = next_told(recovery.asked, state);
        self.go_by(now, CONTEXT_STATE_ERROR, next, doors);
    }

    fn set_state(&mut self, pipe: Pipe, state: EndpointState)
        ensures { self.new ≡ with_state self.old pipe state }
    {
        self.endpoints.set(pipe, state);
    }

    /// The same, where it is of this pipe.
    fn state_for(&mut self, pipe: Pipe, state: EndpointState, recovery: Recovery, doors: &mut Doors)
        ensures { (self.new, doors.new.items) ≡ state_for self.old pipe state recovery }
    {
        if is_asking(&recovery, pipe) {
            self.answer_state(state, recovery, doors);
        } else {
            doors.clear();
        }
    }

    /// The same, where a recovery is under way.
    fn take_state(&mut self, pipe: Pipe, state: EndpointState, doors: &mut Doors)
        ensures { (self.new, doors.new.items) ≡ state_taken self.old pipe state }
    {
        match self.recovery {
            Some(recovery) => self.state_for(pipe, state, recovery, doors),
            None => doors.clear(),
        }
    }

    /// Hands in the state of a pipe's endpoint, as its context has it (6.2.3); state Error counts as `Halted`. Where it was asked for
    /// the recovery goes on: of an endpoint that runs with Stop Endpoint once more, and at the second time its pipe is given up; `doors` has
    /// the doorbells to write.
    pub fn endpoint_state(&mut self, pipe: Pipe, state: EndpointState, doors: &mut Doors)
        ensures { (self.new, doors.new.items) ≡ stated self.old pipe state }
    {
        self.set_state(pipe, state);
        self.take_state(pipe, state, doors);
        self.go_on(doors);
    }
}
