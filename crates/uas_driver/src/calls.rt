//! What clients ask for: commands, task managements, retirements and replies.
ghost use Rattle.std.specs.Prelude.{◌≡◌, ◌+◌, ◌++◌, ◌<◌, ◌≤◌, ◌^◌, [], None, IfErr, slice_index_or, true};
ghost use Rattle.uas_profile.specs.declared.TheConstants.{STREAM_ENTRIES, STREAMS};
ghost use Rattle.std.specs.Result.{result_map_both};
ghost use Rattle.uas_driver.specs.Calls.{answered, give_up_by, is_own, is_under, none_moved, reply_by, retire_by, rung_answer, rung_state, rung_submission, submit_by};
ghost use Rattle.uas_driver.specs.Calls.{all_rung, host_manages, host_submits, task_by, task_tag_in};
ghost use Rattle.uas_host.specs.Submit.{HasRoomFor, host_fault};
ghost use Rattle.uas_host.specs.Tasks.{task_fault, task_tag};
ghost use Rattle.uas_host.specs.Tds.{HasTaskRoom};
ghost use Rattle.arrayvec.specs.ArrayVec.{array_vec_len};
ghost use Rattle.uas_profile.specs.Doors.{data_doors, door_unless};

use crate::endings::{answer_by, end_of, tag_of_reply};
use crate::room::{
    has_engine_room, has_stream, is_lent, lacks_room, lacks_task_room, sound, task_tag_of,
};
use crate::states::{Endpoints, Recovery};
use crate::steps::new_recovery;
use crate::{Answer, Cause, Driver, EndpointState, Refusal};
use arrayvec::ArrayVec;
use scsi_cmd::{Command, Direction, Reply, SubmitFault, Task, moves};
use stream_array::{Pipe, doorbell};
use uas_host::Host;
use uas_profile::{STREAM_ENTRIES, client_of, slot_of, task_slot};

/// The first number that is no ticket.
const TICKETS: u64 = 1 << 60;

/// No byte of a new command was moved yet.
fn forget_moved(moved: &mut [u32; STREAM_ENTRIES], tag: u16)
    ensures { moved.new ≡ none_moved moved.old tag }
{
    if has_stream(tag) {
        moved[tag as usize] = 0;
    }
}

impl Driver {
    /// Submits a client's command under one of its command tags: its unit, its vector and its TDs are where the controller beyond finds
    /// them (4.11), and `doors` has the doorbells to write, data, status, command; that of a pipe under retirement is left out.
    /// A refusal gives the command back: `BadTicket`, `NoRing` (a pipe was given up), `NoRoom` (a tag from 1 to 248 whose rings have no room
    /// for the longest TDs, or which has a vector lent), `Fault` (`Host::submit`'s).
    pub fn submit(
        &mut self,
        client: usize,
        tag: u16,
        ticket: u64,
        command: Command,
        doors: &mut ArrayVec<u32, STREAM_ENTRIES>,
    ) -> Result<(), (Refusal, Command)>
        ensures submitted { submit_by self.old client tag ticket command
            ≡ (self.new, result_map_both (λ done. done) (λ back. back.0) result, doors.new.items) }
        ensures back { IfErr result (λ back. back.1 ≡ command) }
    {
        doors.clear();
        if ticket >= TICKETS {
            return Err((Refusal::BadTicket, command));
        }
        if self.given_up {
            return Err((Refusal::NoRing, command));
        }
        sound(&self.host);
        if lacks_room(&self.lines, &mut self.frames, tag) {
            return Err((Refusal::NoRoom, command));
        }
        self.submit_to_host(client, tag, ticket, command, doors)
    }

    /// The host takes a submission for which there is room, or refuses it.
    fn submit_to_host(
        &mut self,
        client: usize,
        tag: u16,
        ticket: u64,
        command: Command,
        doors: &mut ArrayVec<u32, STREAM_ENTRIES>,
    ) -> Result<(), (Refusal, Command)>
        requires ticket { ticket < 2 ^ 60 }
        requires room { host_fault self.old.host client tag ticket command ≡ None → HasRoomFor self.old.lines self.old.frames tag command.op }
        requires doors { doors.old.items ≡ [] }
        ensures submitted { host_submits self.old client tag ticket command
            ≡ (self.new, result_map_both (λ done. done) (λ back. back.0) result, doors.new.items) }
        ensures back { IfErr result (λ back. back.1 ≡ command) }
    {
        let direction = moves(&command.op).0;
        match self.host.submit(
            &mut self.lines,
            &mut self.frames,
            doors,
            client,
            tag,
            ticket,
            command,
        ) {
            Ok(()) => {
                forget_moved(&mut self.moved, tag);
                self.endpoints = all_rung(&self.recovery, self.endpoints);
                ring_submission(&self.recovery, doors, direction, tag);
                Ok(())
            }
            Err((fault, command)) => Err((Refusal::Fault(fault), command)),
        }
    }

    /// Submits a client's task management under its task tag; `doors` has the doorbells to write, status, command. Refused: `BadTicket`,
    /// `NoRing` (a pipe was given up), `NoRoom` (a client that is there, whose task tag's status ring or the command pipe's has no room), `Fault` (`Host::task`'s).
    pub fn task(
        &mut self,
        client: usize,
        ticket: u64,
        task: Task,
        doors: &mut ArrayVec<u32, STREAM_ENTRIES>,
    ) -> Result<(), Refusal>
        ensures { task_by self.old client ticket task ≡ (self.new, result, doors.new.items) }
    {
        doors.clear();
        if ticket >= TICKETS {
            return Err(Refusal::BadTicket);
        }
        if self.given_up {
            return Err(Refusal::NoRing);
        }
        if lacks_task_room(&self.host, &self.lines, client) {
            return Err(Refusal::NoRoom);
        }
        self.task_to_host(client, ticket, task, doors)
    }

    /// The host takes a task management for which there is room, or refuses it.
    fn task_to_host(
        &mut self,
        client: usize,
        ticket: u64,
        task: Task,
        doors: &mut ArrayVec<u32, STREAM_ENTRIES>,
    ) -> Result<(), Refusal>
        requires ticket { ticket < 2 ^ 60 }
        requires room { task_fault self.old.host client ticket task ≡ None → HasTaskRoom self.old.lines (task_tag self.old.host.tags client) }
        requires doors { doors.old.items ≡ [] }
        ensures { host_manages self.old client ticket task ≡ (self.new, result, doors.new.items) }
    {
        let tag = task_tag_in(&self.host, client);
        match self.host.task(
            &mut self.lines,
            &mut self.frames,
            doors,
            client,
            ticket,
            task,
        ) {
            Ok(()) => {
                self.endpoints = all_rung(&self.recovery, self.endpoints);
                ring_task(&self.recovery, doors, tag);
                Ok(())
            }
            Err(fault) => Err(Refusal::Fault(fault)),
        }
    }

    /// Begins the retirement of a TD that is left over (4.6.9, 4.6.10): true where it does, and `doors` has the doorbell of the
    /// controller's command ring then. False, and nothing changes, where one or another recovery is under way or that TD isn't left over.
    /// Refused: `NoRoom`, where the controller's command ring has no place.
    pub fn retire(
        &mut self,
        pipe: Pipe,
        tag: u16,
        doors: &mut ArrayVec<u32, STREAM_ENTRIES>,
    ) -> Result<bool, Refusal>
        ensures { retire_by self.old pipe tag ≡ (self.new, result, doors.new.items) }
    {
        doors.clear();
        if !has_engine_room(&self.lines) {
            return Err(Refusal::NoRoom);
        }
        if self.recovery.is_some() || !self.host.retire(&mut self.lines, doors, pipe, tag) {
            return Ok(false);
        }
        self.recovery = Some(new_recovery(pipe, EndpointState::Stopped));
        Ok(true)
    }

    /// Gives the answer of a client that was ready first, a command's with the very vector that was handed in, as the controller beyond
    /// left it, and with how many bytes were moved. The tag is free then. None, and nothing changes, where no reply is ready or the
    /// client isn't there.
    pub fn take_reply(&mut self, client: usize) -> Option<Answer>
        ensures { reply_by self.old client ≡ (self.new, result) }
    {
        let reply = self.host.take_reply(&mut self.frames, client);
        self.answer(reply)
    }

    /// What a client is told, by the host's reply.
    fn answer(&mut self, reply: Option<Reply>) -> Option<Answer>
        ensures { (self.new, result) ≡ answered self.old reply }
    {
        let Some(reply) = reply else {
            return None;
        };
        let tag = tag_of_reply(&reply);
        let answer = answer_by(moved_of(&self.moved, tag), end_of(&self.ends, tag), reply);
        self.forget_end(tag);
        Some(answer)
    }

    /// Ends a client's command whose device is silent: its TDs are taken off their pipes, and the reply is `Aborted` once all are given
    /// back; a status that comes meanwhile wins. `doors` has the doorbells to write. A command that is being ended already stays so.
    /// Refused: `Fault` (`NotYours`, the tag is none of the client's for commands; `NoSuchTask`, no command is under it).
    pub fn give_up(
        &mut self,
        client: usize,
        tag: u16,
        doors: &mut ArrayVec<u32, STREAM_ENTRIES>,
    ) -> Result<(), Refusal>
        ensures { give_up_by self.old client tag ≡ (self.new, result, doors.new.items) }
    {
        doors.clear();
        if !is_own(&self.host, client, tag) {
            return Err(Refusal::Fault(SubmitFault::NotYours));
        }
        if !is_lent(&mut self.frames, tag) {
            return Err(Refusal::Fault(SubmitFault::NoSuchTask));
        }
        self.end(tag, Cause::GivenUp);
        self.go_on(doors);
        Ok(())
    }
}

/// How many bytes of its data TD were moved, by a tag.
fn moved_of(moved: &[u32; STREAM_ENTRIES], tag: u16) -> u32
    ensures { result ≡ slice_index_or moved.now tag 0 }
{
    if (tag as usize) < STREAM_ENTRIES {
        moved[tag as usize]
    } else {
        0
    }
}

/// Whether a tag is one of a client's for commands.
fn is_own(host: &Host, client: usize, tag: u16) -> bool
    ensures own { result ≡ is_own host.now client tag }
    ensures known { result ≡ true → (1 ≤ tag) × (tag ≤ STREAMS) }
{
    sound(host);
    let tags = host.tags();
    tag != 0
        && client_of(tags, tag) == client
        && client < host.clients()
        && slot_of(tags, tag) < task_slot(tags)
}

/// Whether an endpoint is under recovery.
fn is_under(recovery: &Option<Recovery>, pipe: Pipe) -> bool
    ensures { result ≡ is_under recovery.now pipe }
{
    match recovery {
        Some(held) => held.pipe.number() == pipe.number(),
        None => false,
    }
}

/// Rings a stream of a pipe, unless it is held.
fn ring_unless(held: bool, doors: &mut ArrayVec<u32, STREAM_ENTRIES>, pipe: Pipe, stream: u16)
    requires { array_vec_len doors.old + 1 ≤ STREAM_ENTRIES }
    ensures doors { doors.new.items ≡ doors.old.items ++ door_unless held pipe stream }
    ensures len { array_vec_len doors.new ≤ array_vec_len doors.old + 1 }
{
    if !held {
        doors.push(doorbell(pipe.target(), stream));
    }
}

/// Rings the status stream of a tag and the command pipe.
fn ring_answer(recovery: &Option<Recovery>, doors: &mut ArrayVec<u32, STREAM_ENTRIES>, tag: u16)
    requires { array_vec_len doors.old + 2 ≤ STREAM_ENTRIES }
    ensures { doors.new.items ≡ doors.old.items ++ rung_answer recovery.now tag }
{
    ring_unless(is_under(recovery, Pipe::Status), doors, Pipe::Status, tag);
    ring_unless(is_under(recovery, Pipe::Command), doors, Pipe::Command, 0);
}

/// Rings the data stream of a submission that moves data this way.
fn ring_data(
    recovery: &Option<Recovery>,
    doors: &mut ArrayVec<u32, STREAM_ENTRIES>,
    direction: Direction,
    tag: u16,
)
    requires { array_vec_len doors.old + 1 ≤ STREAM_ENTRIES }
    ensures doors { doors.new.items ≡ doors.old.items ++ data_doors (is_under recovery.now) direction tag }
    ensures len { array_vec_len doors.new ≤ array_vec_len doors.old + 1 }
{
    match direction {
        Direction::Nothing => {}
        Direction::ToHost => {
            ring_unless(is_under(recovery, Pipe::DataIn), doors, Pipe::DataIn, tag);
        }
        Direction::ToDevice => {
            ring_unless(is_under(recovery, Pipe::DataOut), doors, Pipe::DataOut, tag);
        }
    }
}

/// The doorbells of a task management.
fn ring_task(recovery: &Option<Recovery>, doors: &mut ArrayVec<u32, STREAM_ENTRIES>, tag: u16)
    ensures { doors.new.items ≡ rung_answer recovery.now tag }
{
    doors.clear();
    ring_answer(recovery, doors, tag);
}

/// The doorbells of a submission.
fn ring_submission(
    recovery: &Option<Recovery>,
    doors: &mut ArrayVec<u32, STREAM_ENTRIES>,
    direction: Direction,
    tag: u16,
)
    ensures { doors.new.items ≡ rung_submission recovery.now direction tag }
{
    doors.clear();
    ring_data(recovery, doors, direction, tag);
    ring_answer(recovery, doors, tag);
}

/// What an endpoint does once it is rung.
fn rung_state(recovery: &Option<Recovery>, pipe: Pipe, state: EndpointState) -> EndpointState
    ensures { result ≡ rung_state recovery.now pipe state }
{
    match state {
        EndpointState::Running => EndpointState::Running,
        EndpointState::Halted => EndpointState::Halted,
        EndpointState::Stopped => {
            if is_under(recovery, pipe) {
                EndpointState::Stopped
            } else {
                EndpointState::Running
            }
        }
    }
}

/// What all endpoints do once a submission rang, but for one under recovery.
fn all_rung(recovery: &Option<Recovery>, now: Endpoints) -> Endpoints
    ensures { result ≡ all_rung recovery.now now }
{
    Endpoints {
        command: rung_state(recovery, Pipe::Command, now.command),
        status: rung_state(recovery, Pipe::Status, now.status),
        data_in: rung_state(recovery, Pipe::DataIn, now.data_in),
        data_out: rung_state(recovery, Pipe::DataOut, now.data_out),
    }
}

/// The task tag of a client that is there.
fn task_tag_in(host: &Host, client: usize) -> u16
    ensures { result ≡ task_tag_in host.now client }
{
    if client < host.clients() {
        task_tag_of(host, client)
    } else {
        0
    }
}
