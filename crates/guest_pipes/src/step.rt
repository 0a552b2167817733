//! What is done at a ring's end in a step. What can be missing is asked before, so no function here is refused.
ghost use Rattle.std.specs.Prelude.{◌≡◌, ℕ, ◌+◌, ◌<◌, ◌≤◌, ◌^◌, length as list_length, true, IfSome, is_some};
ghost use Rattle.guest_memory.specs.Bytes.{is_there};
ghost use Rattle.guest_memory.specs.declared.rings.event.Event.TheVariants.{Transfer};
ghost use Rattle.guest_pipes.specs.Step.{World, has_place, has_home, about, posted, posted_if, stood, consumed, filled, filled_if, linked, passed};
ghost use Rattle.guest_pipes.specs.Step.{data_told, skipped, shortened, failed, babbled, erred, refused, poured, used_up};

use crate::consumer::{Consumer, EndpointState};
use crate::progress::Ending;
use guest_memory::GuestMemory;
use guest_memory::rings::{Cursor, Event, EventRing, Flags, Front, Home, stand};

/// The address so far ahead of another, where so many bytes are there.
#[tactic(auto, using(guest_memory::specs::rings::Past::past_end))]
pub fn there<M: GuestMemory>(memory: &M, pointer: u64, ahead: u32, count: usize) -> Option<u64>
    requires some { 1 ≤ count }
    ensures place { IfSome result (λ to. to ≡ pointer + ahead) }
    ensures there { is_some result ≡ is_there (M.contents memory.now) (pointer + ahead) count }
{
    let to = pointer.checked_add(u64::from(ahead))?;
    if memory.has(to, count) {
        Some(to)
    } else {
        None
    }
}

impl Consumer {
    /// An event of this endpoint.
    pub(crate) fn about(&self, pointer: u64, residual: u32, code: u8) -> Event
        ensures { result ≡ about self.now pointer residual code }
    {
        Event::Transfer {
            pointer,
            residual,
            code,
            endpoint: self.endpoint,
            event_data: false,
        }
    }

    /// Posts an event, which asks for no interrupt where it is `quiet`. A range that was there still is.
    #[tactic(auto, unfolding(crate::specs::Step::posted))]
    pub fn post<M: GuestMemory>(
        &mut self,
        memory: &mut M,
        events: &mut EventRing,
        event: &Event,
        quiet: bool,
    )
        requires room { has_place (M.contents memory.old) events.old ≡ true }
        ensures step { record { memory = M.contents memory.new; events = events.new; consumer = self.new }
            ≡ posted (record { memory = M.contents memory.old; events = events.old; consumer = self.old }) event.now quiet }
        ensures same_loan { M.loan memory.new ≡ M.loan memory.old }
        ensures there { (at n : ℕ) → is_there (M.contents memory.old) at n ≡ true → is_there (M.contents memory.new) at n ≡ true }
    {
        events.post(memory, event, quiet);
    }

    /// Posts an event where one is asked for. A range that was there still is.
    pub fn post_if<M: GuestMemory>(
        &mut self,
        memory: &mut M,
        events: &mut EventRing,
        asked: bool,
        event: &Event,
        quiet: bool,
    )
        requires room { has_place (M.contents memory.old) events.old ≡ true }
        ensures step { record { memory = M.contents memory.new; events = events.new; consumer = self.new }
            ≡ posted_if asked (record { memory = M.contents memory.old; events = events.old; consumer = self.old }) event.now quiet }
        ensures same_loan { M.loan memory.new ≡ M.loan memory.old }
        ensures there { (at n : ℕ) → is_there (M.contents memory.old) at n ≡ true → is_there (M.contents memory.new) at n ≡ true }
    {
        if asked {
            self.post(memory, events, event, quiet);
        }
    }

    /// Writes the consumer's end where it is kept.
    #[tactic(auto, unfolding(crate::specs::Step::stood))]
    pub fn stand<M: GuestMemory>(
        &mut self,
        memory: &mut M,
        events: &mut EventRing,
        home: Home,
        cursor: Cursor,
    )
        requires home { has_home (M.contents memory.old) home ≡ true }
        ensures step { record { memory = M.contents memory.new; events = events.new; consumer = self.new }
            ≡ stood (record { memory = M.contents memory.old; events = events.old; consumer = self.old }) home cursor }
        ensures same_loan { M.loan memory.new ≡ M.loan memory.old }
    {
        stand(memory, home, 1, cursor);
    }

    /// Goes behind the TRB in front.
    #[tactic(auto, unfolding(crate::specs::Step::consumed))]
    pub fn consume<M: GuestMemory>(
        &mut self,
        memory: &mut M,
        events: &mut EventRing,
        front: Front,
        chain: bool,
    )
        requires home { has_home (M.contents memory.old) front.home ≡ true }
        ensures step { record { memory = M.contents memory.new; events = events.new; consumer = self.new }
            ≡ consumed (record { memory = M.contents memory.old; events = events.old; consumer = self.old }) front chain }
        ensures same_loan { M.loan memory.new ≡ M.loan memory.old }
    {
        self.progress = self.progress.past(chain);
        self.stand(memory, events, front.home, front.cursor.behind());
    }

    /// Takes a TRB that is full, or a No Op.
    #[tactic(auto, unfolding(crate::specs::Step::filled))]
    pub fn fill<M: GuestMemory>(
        &mut self,
        memory: &mut M,
        events: &mut EventRing,
        front: Front,
        flags: Flags,
    )
        requires room { has_place (M.contents memory.old) events.old ≡ true }
        requires home { has_home (M.contents memory.old) front.home ≡ true }
        ensures step { record { memory = M.contents memory.new; events = events.new; consumer = self.new }
            ≡ filled (record { memory = M.contents memory.old; events = events.old; consumer = self.old }) front flags }
        ensures same_loan { M.loan memory.new ≡ M.loan memory.old }
    {
        let event = self.about(front.cursor.place, 0, 1);
        self.post_if(memory, events, flags.ioc, &event, flags.bei);
        self.consume(memory, events, front, flags.chain);
    }

    /// Takes a TRB where it is full.
    pub fn fill_if<M: GuestMemory>(
        &mut self,
        memory: &mut M,
        events: &mut EventRing,
        full: bool,
        front: Front,
        flags: Flags,
    )
        requires room { has_place (M.contents memory.old) events.old ≡ true }
        requires home { has_home (M.contents memory.old) front.home ≡ true }
        ensures step { record { memory = M.contents memory.new; events = events.new; consumer = self.new }
            ≡ filled_if full (record { memory = M.contents memory.old; events = events.old; consumer = self.old }) front flags }
        ensures same_loan { M.loan memory.new ≡ M.loan memory.old }
    {
        if full {
            self.fill(memory, events, front, flags);
        }
    }

    /// Follows a Link.
    #[tactic(auto, unfolding(crate::specs::Step::linked))]
    pub fn link<M: GuestMemory>(
        &mut self,
        memory: &mut M,
        events: &mut EventRing,
        front: Front,
        pointer: u64,
        toggle: bool,
        flags: Flags,
    )
        requires room { has_place (M.contents memory.old) events.old ≡ true }
        requires home { has_home (M.contents memory.old) front.home ≡ true }
        ensures step { record { memory = M.contents memory.new; events = events.new; consumer = self.new }
            ≡ linked (record { memory = M.contents memory.old; events = events.old; consumer = self.old }) front pointer toggle flags }
        ensures same_loan { M.loan memory.new ≡ M.loan memory.old }
    {
        let event = self.about(front.cursor.place, 0, 1);
        self.post_if(memory, events, flags.ioc, &event, flags.bei);
        self.stand(
            memory,
            events,
            front.home,
            front.cursor.follow(pointer, toggle),
        );
    }

    /// Takes a No Op.
    pub fn pass<M: GuestMemory>(
        &mut self,
        memory: &mut M,
        events: &mut EventRing,
        front: Front,
        flags: Flags,
    )
        requires room { has_place (M.contents memory.old) events.old ≡ true }
        requires home { has_home (M.contents memory.old) front.home ≡ true }
        ensures step { record { memory = M.contents memory.new; events = events.new; consumer = self.new }
            ≡ passed self.old.progress.ending (record { memory = M.contents memory.old; events = events.old; consumer = self.old }) front flags }
        ensures same_loan { M.loan memory.new ≡ M.loan memory.old }
    {
        match self.progress.ending {
            Ending::Runs => self.fill(memory, events, front, flags),
            Ending::Told { .. } | Ending::Owed => self.consume(memory, events, front, flags.chain),
        }
    }

    /// Takes an Event Data TRB.
    #[tactic(auto, unfolding(crate::specs::Step::data_told))]
    pub fn tell_data<M: GuestMemory>(
        &mut self,
        memory: &mut M,
        events: &mut EventRing,
        front: Front,
        parameter: u64,
        flags: Flags,
    )
        requires room { has_place (M.contents memory.old) events.old ≡ true }
        requires home { has_home (M.contents memory.old) front.home ≡ true }
        ensures step { record { memory = M.contents memory.new; events = events.new; consumer = self.new }
            ≡ data_told (record { memory = M.contents memory.old; events = events.old; consumer = self.old }) front parameter flags }
        ensures same_loan { M.loan memory.new ≡ M.loan memory.old }
    {
        let told = Event::Transfer {
            pointer: parameter,
            residual: self.progress.edtla,
            code: self.progress.ending.code(),
            endpoint: self.endpoint,
            event_data: true,
        };
        self.post_if(memory, events, flags.ioc, &told, flags.bei);
        self.progress = self.progress.restart(flags.ioc);
        self.consume(memory, events, front, flags.chain);
    }

    /// Takes a Normal TRB of a TD whose rest is skipped.
    #[tactic(auto, unfolding(crate::specs::Step::skipped))]
    pub fn skip<M: GuestMemory>(
        &mut self,
        memory: &mut M,
        events: &mut EventRing,
        front: Front,
        length: u32,
        flags: Flags,
    )
        requires room { has_place (M.contents memory.old) events.old ≡ true }
        requires home { has_home (M.contents memory.old) front.home ≡ true }
        ensures step { record { memory = M.contents memory.new; events = events.new; consumer = self.new }
            ≡ skipped (record { memory = M.contents memory.old; events = events.old; consumer = self.old }) front length flags }
        ensures same_loan { M.loan memory.new ≡ M.loan memory.old }
    {
        let tells = self.progress.ending.owes() && (!flags.chain && flags.ioc);
        let event = self.about(front.cursor.place, length, 13);
        self.post_if(memory, events, tells, &event, flags.bei);
        self.consume(memory, events, front, flags.chain);
    }

    /// Ends the TD as a short packet at the TRB in front, of which so much is left.
    #[tactic(auto, unfolding(crate::specs::Step::shortened))]
    pub fn shorten<M: GuestMemory>(
        &mut self,
        memory: &mut M,
        events: &mut EventRing,
        front: Front,
        left: u32,
        flags: Flags,
    )
        requires room { has_place (M.contents memory.old) events.old ≡ true }
        requires home { has_home (M.contents memory.old) front.home ≡ true }
        ensures step { record { memory = M.contents memory.new; events = events.new; consumer = self.new }
            ≡ shortened (record { memory = M.contents memory.old; events = events.old; consumer = self.old }) front left flags }
        ensures same_loan { M.loan memory.new ≡ M.loan memory.old }
    {
        let tells = flags.isp || flags.ioc;
        let event = self.about(front.cursor.place, left, 13);
        self.post_if(memory, events, tells, &event, flags.bei);
        self.progress.ending = Ending::short(tells);
        self.consume(memory, events, front, flags.chain);
    }

    /// Ends the TD at a TRB whose buffer isn't there.
    #[tactic(auto, unfolding(crate::specs::Step::failed))]
    pub fn fail<M: GuestMemory>(
        &mut self,
        memory: &mut M,
        events: &mut EventRing,
        front: Front,
        length: u32,
        flags: Flags,
    )
        requires room { has_place (M.contents memory.old) events.old ≡ true }
        requires home { has_home (M.contents memory.old) front.home ≡ true }
        ensures step { record { memory = M.contents memory.new; events = events.new; consumer = self.new }
            ≡ failed (record { memory = M.contents memory.old; events = events.old; consumer = self.old }) front length flags }
        ensures same_loan { M.loan memory.new ≡ M.loan memory.old }
    {
        let event = self.about(front.cursor.place, length, 2);
        self.post(memory, events, &event, flags.bei);
        self.progress.ending = Ending::Told { code: 2 };
        self.consume(memory, events, front, flags.chain);
    }

    /// Halts the endpoint at a TD that is shorter than what is to go into it.
    #[tactic(auto, unfolding(crate::specs::Step::babbled))]
    pub fn babble<M: GuestMemory>(
        &mut self,
        memory: &mut M,
        events: &mut EventRing,
        front: Front,
        flags: Flags,
    )
        requires room { has_place (M.contents memory.old) events.old ≡ true }
        requires home { has_home (M.contents memory.old) front.home ≡ true }
        ensures step { record { memory = M.contents memory.new; events = events.new; consumer = self.new }
            ≡ babbled (record { memory = M.contents memory.old; events = events.old; consumer = self.old }) front flags }
        ensures same_loan { M.loan memory.new ≡ M.loan memory.old }
    {
        let event = self.about(front.cursor.place, 0, 3);
        self.post(memory, events, &event, flags.bei);
        self.consume(memory, events, front, flags.chain);
        self.state = EndpointState::Halted;
    }

    /// Brings the endpoint into error at bytes that are no TRB of a pipe.
    pub fn err<M: GuestMemory>(&mut self, memory: &mut M, events: &mut EventRing, front: Front)
        requires room { has_place (M.contents memory.old) events.old ≡ true }
        ensures step { record { memory = M.contents memory.new; events = events.new; consumer = self.new }
            ≡ erred (record { memory = M.contents memory.old; events = events.old; consumer = self.old }) front }
        ensures same_loan { M.loan memory.new ≡ M.loan memory.old }
    {
        let event = self.about(front.cursor.place, 0, 5);
        self.post(memory, events, &event, false);
        self.state = EndpointState::Error;
    }

    /// Halts the endpoint with this code: there is no ring.
    pub fn refuse<M: GuestMemory>(&mut self, memory: &mut M, events: &mut EventRing, code: u8)
        requires room { has_place (M.contents memory.old) events.old ≡ true }
        ensures step { record { memory = M.contents memory.new; events = events.new; consumer = self.new }
            ≡ refused (record { memory = M.contents memory.old; events = events.old; consumer = self.old }) code }
        ensures same_loan { M.loan memory.new ≡ M.loan memory.old }
    {
        let event = self.about(0, 0, code);
        self.post(memory, events, &event, false);
        self.state = EndpointState::Halted;
    }

    /// Moves bytes to an address. A range that was there still is.
    #[tactic(auto, using(guest_memory::specs::Ranges::there_written), unfolding(crate::specs::Step::poured))]
    pub fn pour<M: GuestMemory>(
        &mut self,
        memory: &mut M,
        events: &mut EventRing,
        to: u64,
        bytes: &[u8],
    )
        requires there { is_there (M.contents memory.old) to (list_length bytes.now) ≡ true }
        requires most { list_length bytes.now ≤ 65536 }
        requires fits { self.old.progress.moved + list_length bytes.now < 2 ^ 32 }
        ensures step { record { memory = M.contents memory.new; events = events.new; consumer = self.new }
            ≡ poured (record { memory = M.contents memory.old; events = events.old; consumer = self.old }) to bytes.now }
        ensures same_loan { M.loan memory.new ≡ M.loan memory.old }
        ensures there { (at n : ℕ) → is_there (M.contents memory.old) at n ≡ true → is_there (M.contents memory.new) at n ≡ true }
        ensures room { has_place (M.contents memory.old) events.old ≡ true → has_place (M.contents memory.new) events.new ≡ true }
    {
        let _ = memory.write(to, bytes);
        self.progress = self.progress.count(bytes.len() as u32);
    }
}
