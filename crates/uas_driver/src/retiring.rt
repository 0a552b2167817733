//! The host's own retirement of a TD, as a recovery of its pipe.
ghost use Rattle.std.specs.Prelude.{◌≡◌, ◌≤◌, IfSome, length};
ghost use Rattle.uas_profile.specs.declared.TheConstants.{STREAMS};
ghost use Rattle.uas_profile.specs.Tags.{tag_of};
ghost use Rattle.uas_host.specs.State.{IsRetirement};
ghost use Rattle.uas_driver.specs.Recovery.{host_goes_on, host_handed, host_move_of, host_moved, host_moves, host_moves_again, left, lost_host, retirement_on};

use crate::recovery::{free, pass_td, stream_of};
use crate::room::{sound, tag_under};
use crate::states::{Recovery, Stage, Subject, running_if};
use crate::{Driver, EndpointState};
use arrayvec::ArrayVec;
use event_ring::Event;
use stream_array::Pipe;
use uas_host::{Retirement, RetirementStage};
use uas_profile::{SLOT, STREAM_ENTRIES, SUCCESS};

type Doors = ArrayVec<u32, STREAM_ENTRIES>;

impl Driver {
    /// Hands the host's own retirement the completion, with Success, of the command that was done last.
    fn hand_host(&mut self, pointer: u64, doors: &mut Doors)
        ensures { (self.new, doors.new.items) ≡ host_handed self.old pointer }
    {
        doors.clear();
        let event = Event::Command {
            pointer,
            code: SUCCESS,
            slot: SLOT,
        };
        let _ = self
            .host
            .on_event(&mut self.lines, &self.frames, doors, event);
    }

    /// The host's own retirement puts its Set TR Dequeue Pointer.
    fn move_host(&mut self, recovery: Recovery, doors: &mut Doors)
        ensures { (self.new, doors.new.items) ≡ host_moves self.old recovery doors.old.items }
    {
        self.hand_host(recovery.command, doors);
        self.recovery = Some(Recovery {
            stage: Stage::Moving,
            subject: Subject::HostTd,
            ..recovery
        });
    }

    /// The TD of the host's own retirement is off its ring.
    pub(crate) fn end_host(&mut self, recovery: Recovery, doors: &mut Doors)
        ensures { (self.new, doors.new.items) ≡ host_moved self.old recovery doors.old.items }
    {
        self.hand_host(recovery.command, doors);
        self.recovery = None;
        self.endpoints
            .set(recovery.pipe, running_if(!doors.is_empty()));
    }

    /// The host's own Set TR Dequeue Pointer is put once more.
    fn move_host_again(&mut self, recovery: Recovery, tag: u16, doors: &mut Doors)
        requires first_tag { 1 ≤ tag }
        requires last_tag { tag ≤ STREAMS }
        ensures { (self.new, doors.new.items) ≡ host_moves_again self.old recovery tag doors.old.items }
    {
        pass_td(&mut self.lines, recovery.pipe, tag);
        let next = Recovery {
            stage: Stage::Moving,
            subject: Subject::HostTd,
            stream: stream_of(recovery.pipe, tag),
            ..recovery
        };
        self.put(next, doors);
    }

    /// The same, by the retirement.
    pub(crate) fn move_retired(
        &mut self,
        recovery: Recovery,
        retirement: Retirement,
        doors: &mut Doors,
    )
        requires { IsRetirement self.old.host.tags (length self.old.host.clients) retirement }
        ensures { (self.new, doors.new.items) ≡ host_moves_again self.old recovery (tag_of self.old.host.tags retirement.place) doors.old.items }
    {
        let tag = tag_under(&self.host, retirement.place);
        self.move_host_again(recovery, tag, doors);
    }

    /// The retirement of the host's whose Set TR Dequeue Pointer is the command that was done last.
    pub(crate) fn host_move_of(&self, recovery: &Recovery) -> Option<Retirement>
        ensures retirement { result ≡ host_move_of self.now recovery.now }
        ensures known { IfSome result (IsRetirement self.now.host.tags (length self.now.host.clients)) }
    {
        if recovery.stage.is_moving() && recovery.subject.is_host_td() {
            self.retirement_on(recovery.pipe)
        } else {
            None
        }
    }

    /// The host's own retirement goes on.
    pub(crate) fn go_on_host(
        &mut self,
        recovery: Recovery,
        retirement: Retirement,
        doors: &mut Doors,
    )
        requires { IsRetirement self.old.host.tags (length self.old.host.clients) retirement }
        ensures { (self.new, doors.new.items) ≡ host_goes_on self.old recovery retirement doors.old.items }
    {
        match retirement.stage {
            RetirementStage::Stopping if recovery.stage.is_resetting() => {
                let next = Recovery {
                    stage: Stage::Stopping,
                    ..recovery
                };
                self.put(next, doors);
            }
            RetirementStage::Stopping => self.move_host(recovery, doors),
            RetirementStage::Moving => self.move_retired(recovery, retirement, doors),
        }
    }

    /// The retirement of the host's that is under way on a pipe.
    pub(crate) fn retirement_on(&self, pipe: Pipe) -> Option<Retirement>
        ensures retirement { result ≡ retirement_on self.now pipe }
        ensures known { IfSome result (IsRetirement self.now.host.tags (length self.now.host.clients)) }
    {
        sound(&self.host);
        match self.host.retirement() {
            Some(retirement) if retirement.pipe.number() == pipe.number() => Some(retirement),
            _ => None,
        }
    }

    /// The endpoint stands, and no doorbell of it is written.
    fn leave(&mut self, recovery: Recovery, doors: &mut Doors)
        ensures { (self.new, doors.new.items) ≡ left self.old recovery }
    {
        doors.clear();
        free(&mut self.lines, recovery.command);
        self.recovery = None;
        self.endpoints.set(recovery.pipe, EndpointState::Stopped);
    }

    /// The host's own retirement on a given-up pipe ends as if it had succeeded.
    pub(crate) fn lose_host(
        &mut self,
        recovery: Recovery,
        retirement: Option<Retirement>,
        doors: &mut Doors,
    )
        ensures { (self.new, doors.new.items) ≡ lost_host self.old recovery retirement doors.old.items }
    {
        let Some(retirement) = retirement else {
            return self.leave(recovery, doors);
        };
        match retirement.stage {
            RetirementStage::Stopping => {
                let next = Recovery {
                    again: true,
                    ..recovery
                };
                self.move_host(next, doors);
            }
            RetirementStage::Moving => self.end_host(recovery, doors),
        }
    }
}
