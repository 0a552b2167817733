//! What is tested before a step looks at its ring, and the TRBs that mean the same on every pipe.
ghost use Rattle.std.specs.Prelude.{◌≡◌, ℕ, Ok, None, Some, OnOk, true};
ghost use Rattle.std.specs.Result.{result_ok};
ghost use Rattle.guest_memory.specs.Bytes.{is_there};
ghost use Rattle.guest_pipes.specs.Gate.{after, gate, is_running, room_gate, stop_event, stop_found, stop_looked, stop_told, took_other};
ghost use Rattle.guest_pipes.specs.Step.{World, has_home, has_place};
ghost use Rattle.guest_memory.specs.rings.Ends.{looked};
ghost use Rattle.std.specs.Prelude.{option_map, unwrap_or, is_some, is_ok};

use crate::acted::Acted;
use crate::consumer::{Consumer, EndpointState};
use guest_memory::rings::{Event, EventRing, Found, Front, Home, PipeTrb, look};
use guest_memory::{GuestMemory, Outside};

impl EndpointState {
    /// Whether it is Running.
    pub fn runs(self) -> bool
        ensures { result ≡ is_running self }
    {
        match self {
            EndpointState::Running => true,
            EndpointState::Disabled
            | EndpointState::Halted
            | EndpointState::Stopped
            | EndpointState::Error => false,
        }
    }
}

/// The answer of a step that the event ring holds back, or None where nothing does. Refused where the next event's place isn't there.
#[tactic(auto, unfolding(crate::specs::Gate::room_gate))]
pub fn room_gate<M: GuestMemory>(memory: &M, events: &EventRing) -> Result<Option<Acted>, Outside>
    ensures gate { result_ok result ≡ room_gate (M.contents memory.now) events.now }
    ensures place { result ≡ Ok None → has_place (M.contents memory.now) events.now ≡ true }
{
    if !events.has_room() {
        return Ok(Some(Acted::Full));
    }
    if memory.has(events.enqueue_pointer(), 16) {
        Ok(None)
    } else {
        Err(Outside)
    }
}

impl Consumer {
    /// The answer of a step that can't be taken, or None where it can: the endpoint runs, the doorbell is rung, and the event ring has
    /// two free places. Refused where the next event's place isn't there.
    #[tactic(auto, unfolding(crate::specs::Gate::gate))]
    pub fn gate<M: GuestMemory>(
        &self,
        memory: &M,
        events: &EventRing,
    ) -> Result<Option<Acted>, Outside>
        ensures gate { result_ok result ≡ gate (M.contents memory.now) events.now self.now }
        ensures place { result ≡ Ok None → has_place (M.contents memory.now) events.now ≡ true }
    {
        if !self.state.runs() {
            return Ok(Some(Acted::Off));
        }
        if !self.rung {
            return Ok(Some(Acted::Idle));
        }
        room_gate(memory, events)
    }

    /// Takes a TRB that isn't a Normal one; of a Normal TRB it does nothing.
    pub fn take_other<M: GuestMemory>(
        &mut self,
        memory: &mut M,
        events: &mut EventRing,
        front: Front,
        trb: PipeTrb,
    )
        requires room { has_place (M.contents memory.old) events.old ≡ true }
        requires home { has_home (M.contents memory.old) front.home ≡ true }
        ensures step { record { memory = M.contents memory.new; events = events.new; consumer = self.new }
            ≡ took_other (record { memory = M.contents memory.old; events = events.old; consumer = self.old }) front trb }
        ensures same_loan { M.loan memory.new ≡ M.loan memory.old }
    {
        match trb {
            PipeTrb::Normal { .. } => (),
            PipeTrb::Link {
                pointer,
                toggle,
                flags,
            } => self.link(memory, events, front, pointer, toggle, flags),
            PipeTrb::NoOp { flags } => self.pass(memory, events, front, flags),
            PipeTrb::EventData { parameter, flags } => {
                self.tell_data(memory, events, front, parameter, flags);
            }
            PipeTrb::Foreign => self.err(memory, events, front),
        }
    }

    fn stop_found(&self, place: u64, found: &Found) -> Event
        ensures { result ≡ stop_found self.now place found.now }
    {
        match *found {
            Found::Item(PipeTrb::Normal { length, .. }) => {
                self.about(place, length.saturating_sub(self.progress.moved), 26)
            }
            Found::WrongKind | Found::NotYet | Found::Item(_) => self.about(place, 0, 27),
        }
    }

    fn stop_event(&self, front: &Front) -> Event
        ensures { result ≡ stop_event self.now front.now }
    {
        if self.progress.ending.code() == 13 {
            self.about(front.cursor.place, self.progress.edtla, 28)
        } else {
            self.stop_found(front.cursor.place, &front.found)
        }
    }

    /// Posts what Stop Endpoint posts of a ring by what stands at its end.
    #[tactic(auto, unfolding(crate::specs::Step::posted))]
    pub(crate) fn post_stopped<M: GuestMemory>(
        &self,
        memory: &mut M,
        events: &mut EventRing,
        front: &Front,
    )
        requires room { has_place (M.contents memory.old) events.old ≡ true }
        ensures step { record { memory = M.contents memory.new; events = events.new; consumer = self.now }
            ≡ stop_told (record { memory = M.contents memory.old; events = events.old; consumer = self.now }) front.now }
        ensures same_loan { M.loan memory.new ≡ M.loan memory.old }
    {
        let event = self.stop_event(front);
        events.post(memory, &event, false);
    }

    /// Posts what Stop Endpoint posts of a ring whose front TD was begun (4.6.9). Refused where a byte of the ring's end or of the TRB
    /// there isn't there, and then nothing changes.
    pub fn tell_stopped<M: GuestMemory>(
        &self,
        memory: &mut M,
        events: &mut EventRing,
        home: Home,
    ) -> Result<(), Outside>
        requires room { has_place (M.contents memory.old) events.old ≡ true }
        ensures step { record { memory = M.contents memory.new; events = events.new; consumer = self.now }
            ≡ unwrap_or (stop_looked (record { memory = M.contents memory.old; events = events.old; consumer = self.now }) home)
            (record { memory = M.contents memory.old; events = events.old; consumer = self.now }) }
        ensures done { is_ok result ≡ is_some (stop_looked (record { memory = M.contents memory.old; events = events.old; consumer = self.now }) home) }
        ensures same_loan { M.loan memory.new ≡ M.loan memory.old }
    {
        let front = look(memory, home)?;
        self.post_stopped(memory, events, &front);
        Ok(())
    }
}
