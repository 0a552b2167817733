//! The steps of a recovery, from one completion event to the next command.
ghost use Rattle.std.specs.Prelude.{◌≡◌, ◌≤◌};
ghost use Rattle.uas_profile.specs.declared.TheConstants.{STREAMS};
ghost use Rattle.uas_driver.specs.Recovery.{by_next, ends_here, gone_on, is_needed, lost, move_ended, moved_on_to, needed, new_recovery, now_stands};
ghost use Rattle.uas_driver.specs.Recovery.{put, put_again, restarted, stood_by, stood_still, went_on};

use crate::recovery::{free, pass_td, put_stage, restart, resting_stream, ring, stream_of, td_end};
use crate::states::{Next, Recovery, Stage, Subject, running_if};
use crate::{Driver, EndpointState};
use arrayvec::ArrayVec;
use stream_array::Pipe;
use uas_profile::STREAM_ENTRIES;

type Doors = ArrayVec<u32, STREAM_ENTRIES>;

/// A recovery that begins on a pipe.
pub(crate) fn new_recovery(pipe: Pipe, state: EndpointState) -> Recovery
    ensures { result ≡ new_recovery pipe state }
{
    Recovery {
        pipe,
        stage: if state.is_halted() {
            Stage::Resetting
        } else {
            Stage::Stopping
        },
        subject: Subject::Nothing,
        stream: 0,
        last: 0,
        command: 0,
        again: false,
        asked: false,
    }
}

impl Driver {
    /// Goes on with the command of a recovery's stage.
    pub(crate) fn put(&mut self, recovery: Recovery, doors: &mut Doors)
        ensures { (self.new, doors.new.items) ≡ put self.old recovery doors.old.items }
    {
        free(&mut self.lines, recovery.command);
        put_stage(&mut self.lines, &recovery);
        self.recovery = Some(recovery);
        ring(doors, 0);
    }

    /// Sets the dequeue pointer behind the TD of a tag.
    fn move_ended(&mut self, recovery: Recovery, tag: u16, doors: &mut Doors)
        requires first_tag { 1 ≤ tag }
        requires last_tag { tag ≤ STREAMS }
        ensures { (self.new, doors.new.items) ≡ move_ended self.old recovery tag doors.old.items }
    {
        let last = td_end(&self.lines, recovery.pipe, tag);
        pass_td(&mut self.lines, recovery.pipe, tag);
        let next = Recovery {
            stage: Stage::Moving,
            subject: Subject::Ended(tag),
            stream: stream_of(recovery.pipe, tag),
            last,
            ..recovery
        };
        self.put(next, doors);
    }

    /// Puts the command that was done last once more.
    fn put_again(&mut self, recovery: Recovery, doors: &mut Doors)
        ensures { (self.new, doors.new.items) ≡ put_again self.old recovery doors.old.items }
    {
        match self.host_move_of(&recovery) {
            Some(retirement) => self.move_retired(recovery, retirement, doors),
            None => self.put(recovery, doors),
        }
    }

    /// The endpoint runs again.
    fn run_again(&mut self, recovery: Recovery, doors: &mut Doors)
        ensures { (self.new, doors.new.items) ≡ restarted self.old recovery }
    {
        free(&mut self.lines, recovery.command);
        restart(&mut self.lines, doors, recovery.pipe);
        self.recovery = None;
        self.endpoints
            .set(recovery.pipe, running_if(!doors.is_empty()));
    }

    /// No TD is to be taken off an endpoint any more.
    fn end_here(&mut self, recovery: Recovery, doors: &mut Doors)
        ensures { (self.new, doors.new.items) ≡ ends_here self.old recovery doors.old.items }
    {
        if recovery.stage.is_resetting() {
            let next = Recovery {
                stage: Stage::Moving,
                subject: Subject::Nothing,
                stream: resting_stream(&self.lines, recovery.pipe),
                ..recovery
            };
            self.put(next, doors);
        } else {
            self.run_again(recovery, doors);
        }
    }

    /// What follows where the endpoint stands.
    pub(crate) fn stand_still(&mut self, recovery: Recovery, doors: &mut Doors)
        ensures { (self.new, doors.new.items) ≡ stood_still self.old recovery doors.old.items }
    {
        match self.due_tag(recovery.pipe) {
            Some(tag) => self.move_ended(recovery, tag, doors),
            None => match self.retirement_on(recovery.pipe) {
                Some(retirement) => self.go_on_host(recovery, retirement, doors),
                None => self.end_here(recovery, doors),
            },
        }
    }

    /// The same; a Set TR Dequeue Pointer that was refused is put once more first.
    fn stand_by(&mut self, recovery: Recovery, doors: &mut Doors)
        ensures { (self.new, doors.new.items) ≡ stood_by self.old recovery doors.old.items recovery.subject }
    {
        match recovery.subject {
            Subject::Nothing if !recovery.again => self.stand_still(recovery, doors),
            Subject::HostTd => self.stand_still(recovery, doors),
            Subject::Nothing | Subject::Ended(_) => {
                let next = Recovery {
                    stage: Stage::Moving,
                    ..recovery
                };
                self.put(next, doors);
            }
        }
    }

    /// Stop Endpoint or Reset Endpoint is done.
    fn now_stand(&mut self, recovery: Recovery, doors: &mut Doors)
        ensures { (self.new, doors.new.items) ≡ now_stands self.old recovery doors.old.items }
    {
        self.endpoints.set(recovery.pipe, EndpointState::Stopped);
        self.stand_by(recovery, doors);
    }

    /// Set TR Dequeue Pointer is done.
    fn end_move(&mut self, recovery: Recovery, doors: &mut Doors)
        ensures { (self.new, doors.new.items) ≡ moved_on_to self.old recovery doors.old.items }
    {
        match recovery.subject {
            Subject::Nothing => self.stand_still(recovery, doors),
            Subject::Ended(tag) => {
                self.give_back(recovery.pipe, tag, recovery.last);
                self.stand_still(recovery, doors);
            }
            Subject::HostTd => self.end_host(recovery, doors),
        }
    }

    /// The command of a recovery's stage is done.
    fn go(&mut self, recovery: Recovery, doors: &mut Doors)
        ensures { (self.new, doors.new.items) ≡ went_on self.old recovery doors.old.items }
    {
        if recovery.stage.is_moving() {
            self.end_move(recovery, doors);
        } else {
            self.now_stand(recovery, doors);
        }
    }

    /// Gives a pipe up.
    fn lose(&mut self, recovery: Recovery, code: u8, doors: &mut Doors)
        ensures { (self.new, doors.new.items) ≡ lost self.old recovery code doors.old.items }
    {
        self.given_up = true;
        self.lose_subject(&recovery);
        self.lose_all(recovery.pipe, code);
        let retirement = self.retirement_on(recovery.pipe);
        self.lose_host(recovery, retirement, doors);
    }

    /// What a completion code asked for.
    pub(crate) fn go_by(&mut self, recovery: Recovery, code: u8, next: Next, doors: &mut Doors)
        ensures { (self.new, doors.new.items) ≡ by_next self.old recovery code next doors.old.items }
    {
        match next {
            Next::Again => self.put_again(recovery, doors),
            Next::Reset => {
                let next = Recovery {
                    stage: Stage::Resetting,
                    ..recovery
                };
                self.put(next, doors);
            }
            Next::Ask => {
                self.recovery = Some(Recovery {
                    stage: Stage::Asking,
                    ..recovery
                });
            }
            Next::Retry => {
                let next = Recovery {
                    stage: Stage::Stopping,
                    again: true,
                    ..recovery
                };
                self.put(next, doors);
            }
            Next::Lose => self.lose(recovery, code, doors),
            Next::Go => self.go(recovery, doors),
        }
    }

    /// Whether an endpoint is halted, or a TD is to be taken off it.
    fn is_needed(&self, pipe: Pipe) -> bool
        ensures { result ≡ is_needed self.now pipe }
    {
        self.endpoints.of(pipe).is_halted() || self.due_tag(pipe).is_some()
    }

    /// The pipe that wants a recovery.
    fn needed(&self) -> Option<Pipe>
        ensures { result ≡ needed self.now }
    {
        if self.is_needed(Pipe::DataIn) {
            Some(Pipe::DataIn)
        } else if self.is_needed(Pipe::DataOut) {
            Some(Pipe::DataOut)
        } else if self.is_needed(Pipe::Status) {
            Some(Pipe::Status)
        } else if self.is_needed(Pipe::Command) {
            Some(Pipe::Command)
        } else {
            None
        }
    }

    /// Begins the next recovery, where none is under way and a pipe wants one.
    pub(crate) fn go_on(&mut self, doors: &mut Doors)
        ensures { (self.new, doors.new.items) ≡ gone_on (self.old, doors.old.items) }
    {
        if self.recovery.is_some() {
            return;
        }
        if let Some(pipe) = self.needed() {
            let recovery = new_recovery(pipe, self.endpoints.of(pipe));
            self.put(recovery, doors);
        }
    }
}
