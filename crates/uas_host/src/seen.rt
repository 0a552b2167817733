// What the host makes of what an event tells.
ghost use Rattle.std.specs.Prelude.{◌≡◌, ℕ, ◌<◌, ◌≤◌, List, MatchOption, IfSome, Some, true, false, length, option_and_then, option_map};
ghost use Rattle.scsi_cmd.specs.Held.{held_at};
ghost use Rattle.scsi_cmd.specs.Request.{is_command, request_direction};
ghost use Rattle.scsi_cmd.specs.declared.TheConstants.{MAX_SENSE_BYTES};
ghost use Rattle.uas_host.specs.Seen.{after_response, client_seen, completes, data_after, doomed, goes_to_device, goes_to_host, host_seen};
ghost use Rattle.uas_host.specs.Seen.{is_data_left_over, is_doomed, is_td_left_over, left_over_data, ended_in, place_seen, seen, seen_data, with_retired};
ghost use Rattle.uas_host.specs.Sights.{notice_by};
ghost use Rattle.uas_host.specs.declared.HostAnswer.TheVariants as HostAnswer;
ghost use Rattle.uas_host.specs.Notices.{Answered, TdRetired};
ghost use Rattle.uas_profile.specs.TdStates.{is_left_over, is_over, is_pending, is_retired, is_seen};
ghost use Rattle.uas_host.specs.State.{is_data_over, is_ready};

use crate::left::settle;
use crate::{Host, HostAnswer, HostClient, HostEntry, Place, TdState};
use arrayvec::ArrayVec;
use scsi_cmd::{CHECK_CONDITION, Direction, MAX_SENSE_BYTES, Request, moves};
use stream_array::Pipe;
use uas_iu::TASK_COMPLETE;
use uas_profile::{MOST_TAGS, TASK_SLOT};

/// What an event tells, but for the sense of a status, which stays in the status buffer.
#[derive(Clone, Copy)]
pub(crate) enum Sight {
    CommandSeen,
    DataInSeen,
    DataOutSeen,
    Answered { status: u8 },
    Responded { code: u8 },
    TdRetired(Pipe),
}

/// What a Sense unit told. Where there is no sense it is made in one piece.
#[inline(always)]
fn told_status(status: u8, bytes: &[u8]) -> HostAnswer
    requires { length bytes.now ≤ MAX_SENSE_BYTES }
    ensures { result ≡ HostAnswer.Status status (record { items = bytes.now }) }
{
    if bytes.is_empty() {
        return HostAnswer::Status {
            status,
            sense: ArrayVec::new(),
        };
    }
    let mut sense = ArrayVec::new();
    sense.try_extend_from_slice(bytes).unwrap();
    HostAnswer::Status { status, sense }
}

fn is_data_td_over(data_td: &Option<TdState>) -> bool
    ensures { result ≡ is_data_over data_td.now }
{
    match data_td {
        Some(td) => td.is_over(),
        None => true,
    }
}

/// A data TD whose event can no longer come is left over.
fn leave_over(data_td: &mut Option<TdState>)
    ensures { data_td.new ≡ left_over_data data_td.old }
{
    match data_td {
        Some(td) if td.is_pending() => *td = TdState::LeftOver,
        _ => {}
    }
}

/// The data TD once its status came.
fn settle_data(data_td: &mut Option<TdState>, status: u8)
    ensures { data_td.new ≡ data_after status data_td.old }
{
    if status == CHECK_CONDITION {
        leave_over(data_td);
    }
}

impl HostEntry {
    /// Whether the client may take the reply.
    #[inline(always)]
    fn is_ready(&self) -> bool
        ensures { result ≡ is_ready self.now }
    {
        self.command_td.is_seen() && self.status_td.is_over() && is_data_td_over(&self.data_td)
    }

    #[inline(always)]
    fn direction(&self) -> Direction
        ensures { result ≡ request_direction self.now.request }
    {
        match &self.request {
            Request::Execute(op) => moves(op).0,
            Request::Manage { .. } => Direction::Nothing,
        }
    }

    /// The data TD is seen, where it waits and `right` says that the event is of its pipe; false, and nothing
    /// changes, where not.
    #[inline(always)]
    fn see_data(&mut self, right: bool) -> bool
        ensures { MatchOption (seen_data right self.old self.old.data_td) ((result ≡ false) × (self.new ≡ self.old))
            (λ now. (result ≡ true) × (self.new ≡ now)) }
    {
        match &mut self.data_td {
            Some(td) if right && td.is_pending() => {
                *td = TdState::Seen;
                true
            }
            _ => false,
        }
    }

    pub(crate) fn is_command(&self) -> bool
        ensures { result ≡ is_command self.now.request }
    {
        matches!(self.request, Request::Execute(_))
    }

    /// Whether the data TD is left over, where `right` says that it is of the pipe that is asked for.
    fn is_data_left_over(&self, right: bool) -> bool
        ensures { result ≡ is_data_left_over right self.now }
    {
        match self.data_td {
            Some(td) => right && td.is_left_over(),
            None => false,
        }
    }

    /// Whether the TD on a pipe is left over.
    pub(crate) fn is_left_over(&self, pipe: Pipe) -> bool
        ensures { result ≡ is_td_left_over pipe self.now }
    {
        match pipe {
            Pipe::Command => false,
            Pipe::Status => self.status_td.is_left_over(),
            Pipe::DataIn => self.is_data_left_over(matches!(self.direction(), Direction::ToHost)),
            Pipe::DataOut => self.is_data_left_over(matches!(
                self.direction(),
                Direction::ToDevice
            )),
        }
    }

    /// The TD on a pipe is retired, where it is left over; false, and nothing changes, where not.
    #[inline(never)]
    fn retire(&mut self, pipe: Pipe) -> bool
        ensures { MatchOption (seen (TdRetired pipe) self.old) ((result ≡ false) × (self.new ≡ self.old)) (λ now. (result ≡ true) × (self.new ≡ now)) }
    {
        if !self.is_left_over(pipe) {
            return false;
        }
        match pipe {
            Pipe::Command => {}
            Pipe::Status => self.status_td = TdState::Retired,
            Pipe::DataIn | Pipe::DataOut => self.data_td = Some(TdState::Retired),
        }
        true
    }

    /// A command that a task management ends is left over, where its status wasn't seen.
    fn leave_doomed_over(&mut self, noted: &[u64])
        ensures { self.new ≡ doomed noted.now self.old }
    {
        if self.is_command() && self.status_td.is_pending() && noted.contains(&self.ticket) {
            self.status_td = TdState::LeftOver;
            leave_over(&mut self.data_td);
        }
    }

    /// The tickets of the commands that a task management ends.
    fn ended(&self) -> ArrayVec<u64, TASK_SLOT>
        ensures { result.items ≡ ended_in self.now.request }
    {
        let mut tickets = ArrayVec::new();
        if let Request::Manage { task, noted } = &self.request
            && task.ends_commands()
        {
            tickets.try_extend_from_slice(noted.as_slice()).unwrap();
        }
        tickets
    }

    /// The status and the sense of a command come; false, and nothing changes, where it waits for none.
    #[inline(always)]
    fn answer(&mut self, status: u8, sense: &[u8]) -> bool
        requires { length sense.now ≤ MAX_SENSE_BYTES }
        ensures { MatchOption (seen (Answered status (record { items = sense.now })) self.old) ((result ≡ false) × (self.new ≡ self.old))
            (λ now. (result ≡ true) × (self.new ≡ now)) }
    {
        if !self.is_command() || !self.status_td.is_pending() {
            return false;
        }
        settle_data(&mut self.data_td, status);
        self.told = told_status(status, sense);
        self.status_td = TdState::Seen;
        true
    }

    /// The host sees an event; false, and nothing changes, where it waits for no such event.
    #[inline(always)]
    fn see(&mut self, sight: Sight, sense: &[u8]) -> bool
        requires { length sense.now ≤ MAX_SENSE_BYTES }
        ensures { MatchOption (seen (notice_by sense.now sight) self.old) ((result ≡ false) × (self.new ≡ self.old))
            (λ now. (result ≡ true) × (self.new ≡ now)) }
    {
        match sight {
            Sight::CommandSeen => {
                if !self.command_td.is_pending() {
                    return false;
                }
                self.command_td = TdState::Seen;
                true
            }
            Sight::DataInSeen => {
                let right = matches!(self.direction(), Direction::ToHost);
                self.see_data(right)
            }
            Sight::DataOutSeen => {
                let right = matches!(self.direction(), Direction::ToDevice);
                self.see_data(right)
            }
            Sight::Answered { status } => self.answer(status, sense),
            Sight::Responded { code } => {
                if self.is_command() || !self.status_td.is_pending() {
                    return false;
                }
                self.told = HostAnswer::Response { code };
                self.status_td = TdState::Seen;
                true
            }
            Sight::TdRetired(pipe) => self.retire(pipe),
        }
    }
}

/// The host sees an event of what is held; whether its command is ready now. None, and nothing changes, where it
/// waits for no such event.
#[inline(always)]
fn see_held(held: &mut Option<HostEntry>, sight: Sight, sense: &[u8]) -> Option<bool>
    requires { length sense.now ≤ MAX_SENSE_BYTES }
    ensures { MatchOption (option_and_then (seen (notice_by sense.now sight)) held.old) ((result ≡ None) × (held.new ≡ held.old))
        (λ now. (result ≡ Some (is_ready now)) × (held.new ≡ Some now)) }
{
    match held {
        Some(entry) => {
            if entry.see(sight, sense) {
                Some(entry.is_ready())
            } else {
                None
            }
        }
        None => None,
    }
}

/// What is held is left over, where a task management ends it and its status wasn't seen.
fn leave_held_over(held: &mut Option<HostEntry>, noted: &[u64])
    ensures { held.new ≡ option_map (doomed noted.now) held.old }
{
    if let Some(entry) = held {
        entry.leave_doomed_over(noted);
    }
}

/// What a task management ends, among the commands of its client, is left over where its status wasn't seen.
#[inline(never)]
fn leave_doomed_over(entries: &mut [Option<HostEntry>; MOST_TAGS], noted: &[u64])
    ensures { entries.new ≡ after_response noted.now entries.old }
{
    for slot in 0..MOST_TAGS {
        leave_held_over(&mut entries[slot], noted);
    }
}

/// The tickets of the commands that a task management ends.
fn ended_by(held: &Option<HostEntry>) -> ArrayVec<u64, TASK_SLOT>
    ensures { IfSome held.now (λ entry. result.items ≡ ended_in entry.request) }
{
    match held {
        Some(entry) => entry.ended(),
        None => ArrayVec::new(),
    }
}

/// What the task management in a slot ends, among the commands of its client, is left over where its status wasn't seen. The
/// tickets have their room here, and not at each event.
#[inline(never)]
fn leave_ended_over(entries: &mut [Option<HostEntry>; MOST_TAGS], slot: usize)
    requires { slot < MOST_TAGS }
    ensures { IfSome (held_at entries.old slot) (λ entry. entries.new ≡ after_response (ended_in entry.request) entries.old) }
{
    let ended = ended_by(&entries[slot]);
    leave_doomed_over(entries, &ended);
}

impl Sight {
    /// Whether it is the response COMPLETE.
    fn completes(self) -> bool
        ensures { (sense : List ℕ) → result ≡ completes (notice_by sense self) }
    {
        matches!(self, Sight::Responded { code } if code == TASK_COMPLETE)
    }
}

impl HostClient {
    /// The host sees an event of a slot; false, and nothing changes, where it waits for no such event.
    #[inline(always)]
    fn see(&mut self, slot: usize, sight: Sight, sense: &[u8]) -> bool
        requires slot { slot < MOST_TAGS }
        requires sense { length sense.now ≤ MAX_SENSE_BYTES }
        requires room { IfSome (client_seen (notice_by sense.now sight) self.old slot) (λ now. length now.ready.items ≤ MOST_TAGS) }
        ensures { MatchOption (client_seen (notice_by sense.now sight) self.old slot) ((result ≡ false) × (self.new ≡ self.old))
            (λ now. (result ≡ true) × (self.new ≡ now)) }
    {
        let completes = sight.completes();
        match see_held(&mut self.entries[slot], sight, sense) {
            None => false,
            Some(ready) => {
                if completes {
                    leave_ended_over(&mut self.entries, slot);
                }
                if ready {
                    self.ready.push(slot);
                }
                true
            }
        }
    }
}

impl Host {
    /// The host sees an event of a place; false, and nothing changes, where it waits for no such event.
    #[inline(always)]
    pub(crate) fn see_at(&mut self, place: Place, sight: Sight, sense: &[u8]) -> bool
        requires client { place.client < length self.old.clients }
        requires slot { place.slot < self.old.tags }
        requires sense { length sense.now ≤ MAX_SENSE_BYTES }
        ensures { MatchOption (place_seen (notice_by sense.now sight) self.old place) ((result ≡ false) × (self.new ≡ self.old))
            (λ now. (result ≡ true) × (self.new ≡ now)) }
    {
        let changed = sight.moves_left_over();
        let held = &mut self.clients[place.client];
        let saw = held.see(place.slot, sight, sense);
        settle(&mut self.marks, place.client, changed, held);
        saw
    }

    /// The host sees an event of a tag; false, and nothing changes, where it waits for no such event.
    #[inline(always)]
    pub(crate) fn see(&mut self, tag: u16, sight: Sight, sense: &[u8]) -> bool
        requires { length sense.now ≤ MAX_SENSE_BYTES }
        ensures { MatchOption (host_seen (notice_by sense.now sight) self.old tag) ((result ≡ false) × (self.new ≡ self.old))
            (λ now. (result ≡ true) × (self.new ≡ now)) }
    {
        let Some(place) = self.place_of(tag) else {
            return false;
        };
        self.see_at(place, sight, sense)
    }
}
