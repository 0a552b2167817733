//! A desk over which clients and their pumps hand slips to each other, without a lock.
//!
//! Each tag has a word and a slot. The word is 4 x ticket + state, and one atomic exchange of it moves the slot's slip.
//!
//! ```text
//!            post                claim               finish              look
//! free 0  -----------> posted 1 -------> taken 2 ------------> done 3 -------> free 0
//!         client's seat        pump's seat       pump's seat         client's seat
//! slot    with the     at home,          with the    at home,            with the
//! is      client       the ask           claim       the end             client
//! ```
//!
//! Tags `tags` c + 1 to `tags` c + `tags` are those of client c, the last of them for task management, where `tags` is a number of
//! the desk; pump c mod the number of pumps serves them. Each tag has two seats at the table of words, its client's and its pump's, and a seat knows what it did
//! there last. The rule, for each tag at all times:
//!
//! 1. Where the word is free, the client's seat has nothing open on the tag. Where it is posted, taken or done, its
//!    ticket is the one that the client's seat has open.
//! 2. Where it is posted, the slip at home is the one that the client's seat recorded. Where it is taken, the pump's seat
//!    has the claim of the ticket, and elsewhere it has none. Where it is done, the slip at home is the one that the
//!    pump's seat recorded, of the word's ticket.
//! 3. The slot is at home where the word is posted or done, and else out with the seat that moved the word.
//!
//! So a claim holds an ask of the ticket asked for, and no ticket of a tag is claimed twice (`IsAboveLast` in
//! specs/Seats.antt). What `look` gives is an end of the ticket that the client posted, once. `close` tells what stands at each
//! tag, and of a claim that is out the ticket alone. Whatever a client did, each ticket that it posted was looked up or stands
//! in one of the lists that `close` gives, once (`KeepsTickets` in specs/History.antt). A `Slip` is neither `Copy` nor `Clone`:
//! it is moved from one hand to the next. No call waits or scans, and `with_tags` and `close` alone take memory. A `claim` or a `look`
//! that gives nothing leaves a note of the tag and its ticket in the seat, which only the step on the tag's word writes, and only where
//! the word was another (`missing` and `overlooking` in specs/Seats.antt).
//!
//! It stands on `scsi_cmd` for requests and replies, and on `atomic_table`.
#![tactic(auto)]

ghost use Rattle.std.specs.Prelude.{◌≡◌, ℕ, ◌+◌, ◌-◌, ◌*◌, ◌/◌, ◌%◌, ◌^◌, ◌<◌, ◌≤◌, length, IfOk, IfSome, MatchOption, MatchResult, ◌⊎◌, All, IsTrue, ◌↔◌};
ghost use Rattle.tag_desk.specs.Slips.{ticket_in, IsAsk, IsEnd};
ghost use Rattle.tag_desk.specs.Seats.{IsClientOf, IsPumpOf, IsTagOf, IsServed, IsAllFree, IsFreeAt, IsAway};
ghost use Rattle.tag_desk.specs.Seats.{posting, finishing, overlooking, missing, ReapsAt, ClaimsAt, IsAboveLast, AreNewCustomers, AreServersBelow};
ghost use Rattle.tag_desk.specs.Left.{HasEachClientOf, HasEachPumpOf, IsAllClientsOf, IsAllPumpsOf, left_of, seat_of};
ghost use Rattle.tag_desk.specs.History.{KeepsTickets};
ghost use Rattle.uas_profile.specs.declared.TheConstants.{MAX_CLIENTS, STREAMS, USUAL_CLIENTS};
ghost use Rattle.uas_profile.specs.Tags.{AreTags};

mod closing;
mod lines;
mod opening;
mod prepared;
mod remains;
mod rule;

use lines::{Line, Work};
pub use prepared::Prepared;
use remains::Lists;
pub use remains::{Left, TagList, TagSlip, TagSlips, TagTicket, TagTickets};
use scsi_cmd::{Buffer, Reply, SubmitFault, Task};
use std::alloc::{AllocError, Global};
use std::marker::Model;
use uas_profile::{TAGS, slot_of};

/// Want of memory.
pub type NoMemory = AllocError;

/// What a client and its pump hand to each other.
#[derive(Debug, Drop)]
pub enum Slip {
    /// A command to be submitted.
    Ask {
        ticket: u64,
        command: Prepared,
    },
    /// A task management to be submitted.
    AskTask {
        ticket: u64,
        task: Task,
    },
    /// What a submission came to.
    Answer(Reply),
    /// A submission that was refused, and the command's buffer; it is empty for a task management.
    Refused {
        ticket: u64,
        fault: SubmitFault,
        buffer: Buffer,
    },
    /// A submission that nobody serves any more, and its buffer; it is empty for a task management, and for a command
    /// whose buffer is elsewhere.
    Unserved {
        ticket: u64,
        buffer: Buffer,
    },
}

impl Slip {
    /// The ticket that it names.
    pub fn ticket(&self) -> u64
        ensures { result ≡ ticket_in self.now }
    {
        match self {
            Slip::Ask { ticket, .. }
            | Slip::AskTask { ticket, .. }
            | Slip::Refused { ticket, .. }
            | Slip::Unserved { ticket, .. } => *ticket,
            Slip::Answer(reply) => reply.ticket(),
        }
    }
}

/// The desk, which threads share by reference.
#[derive(Drop)]
pub struct Desk {
    tags: usize,
    table: rule::Words,
    clients: usize,
    pumps: usize,
}

impl Model for Desk {
    ghost use Rattle.tag_desk.specs.Seats.{MadeDesk, IsMade};

    ghost Value = { MadeDesk };

    ghost view = { λ d. record { tags = d.tags; table = d.table.shared.table_id; clients = d.clients; pumps = d.pumps } };

    ghost invariant = { λ d. IsMade record { tags = d.tags; table = d.table.shared.table_id; clients = d.clients; pumps = d.pumps } d.table.shared.key };
}

/// A slip that was claimed: its tag and its ticket, and the slip itself until it is taken out. It holds the tag's seat
/// of the pump that claimed, and goes back to it by `Desk::finish`.
#[derive(Drop)]
pub struct Claim {
    seat: rule::TableSeat,
    tag: u16,
    ticket: u64,
    slip: Option<Slip>,
}

impl Model for Claim {
    ghost use Rattle.std.specs.Prelude.{◌≡◌, ◌-◌, ◌≤◌, ◌<◌, ◌^◌};
    ghost use Rattle.tag_desk.specs.Seats.{HeldClaim, claim_sat};

    ghost Value = { HeldClaim };

    ghost view = { λ c. record { table = c.seat.table_id; tag = c.tag; ticket = c.ticket; slip = c.slip } };

    ghost invariant = { λ c. (c.seat.me ≡ claim_sat (c.tag - 1) c.ticket) × (1 ≤ c.tag) × (c.ticket < 2 ^ 60) };
}

impl Claim {
    /// The tag that was claimed.
    pub fn tag(&self) -> u16
        ensures { result ≡ self.now.tag }
    {
        self.tag
    }

    /// The ticket that was claimed.
    pub fn ticket(&self) -> u64
        ensures { result ≡ self.now.ticket }
    {
        self.ticket
    }

    /// The slip that was claimed, once.
    pub fn take_slip(&mut self) -> Option<Slip>
        ensures slip { result ≡ self.old.slip }
        ensures rest { self.new ≡ record self.old { slip = None } }
    {
        self.slip.take()
    }
}

/// A client's seat: its tags, and the least ticket that it may post next.
#[derive(Drop)]
pub struct ClientSeat {
    client: usize,
    tags: usize,
    least_ticket: u64,
    lines: Vec<Line>,
}

impl Model for ClientSeat {
    ghost use Rattle.tag_desk.specs.Seats.{Customer, IsCustomer};

    ghost Value = { Customer };

    ghost view = { λ s. record { client = s.client; tags = s.tags; least_ticket = s.least_ticket; lines = s.lines.items } };

    ghost invariant = { λ s. IsCustomer record { client = s.client; tags = s.tags; least_ticket = s.least_ticket; lines = s.lines.items } };
}

impl ClientSeat {
    /// Whether the seat knows a tag of its client to be free.
    pub fn is_free(&self, tag: u16) -> bool
        requires { IsTagOf self.now.tags self.now.client tag }
        ensures { IsTrue result ↔ IsFreeAt self.now tag }
    {
        self.lines[slot_of(self.tags, tag)].is_free()
    }
}

/// A pump's seat: what it has of each tag that it serves.
#[derive(Drop)]
pub struct WorkSeat {
    pump: usize,
    lines: Vec<Option<Work>>,
}

impl Model for WorkSeat {
    ghost use Rattle.tag_desk.specs.Seats.{Server, IsServer};

    ghost Value = { Server };

    ghost view = { λ s. record { pump = s.pump; lines = s.lines.items } };

    ghost invariant = { λ s. IsServer record { pump = s.pump; lines = s.lines.items } };
}

/// The seats of a desk: one for each client and one for each pump, in order.
#[derive(Drop)]
pub struct Seats {
    pub clients: Vec<ClientSeat>,
    pub pumps: Vec<WorkSeat>,
}

impl Desk {
    /// A desk of `TAGS` free tags for each of 1 to 15 (`USUAL_CLIENTS`) clients and 1, 2 or 4 pumps, and its seats.
    pub fn new(alloc: Global, clients: usize, pumps: usize) -> Result<(Desk, Seats), NoMemory>
        requires some { 0 < clients }
        requires most { clients ≤ USUAL_CLIENTS }
        requires pumps { (pumps ≡ 1) ⊎ (pumps ≡ 2) ⊎ (pumps ≡ 4) }
        ensures desk { IfOk result (λ made. (made.0.clients ≡ clients) × (made.0.pumps ≡ pumps) × (made.0.tags ≡ TAGS)) }
        ensures clients { IfOk result (λ made. AreNewCustomers made.0.table TAGS clients made.1.clients.items) }
        ensures pumps { IfOk result (λ made. AreServersBelow made.0 (TAGS * clients) made.1.pumps.items) }
        ensures client_own { IfOk result (λ made. All (IsClientOf made.0) made.1.clients.items) }
        ensures client_free { IfOk result (λ made. All IsAllFree made.1.clients.items) }
        ensures pump_own { IfOk result (λ made. All (IsPumpOf made.0) made.1.pumps.items) }
        ensures all { IfOk result (λ made. IsAllClientsOf made.0 made.1.clients.items × IsAllPumpsOf made.0 made.1.pumps.items) }
    {
        Desk::with_tags(alloc, clients, pumps, TAGS)
    }

    /// A desk of so many free tags, 2 to 16, for each of 1 to 31 (`MAX_CLIENTS`) clients, with 248 (`STREAMS`) tags at most, and its seats.
    pub fn with_tags(
        alloc: Global,
        clients: usize,
        pumps: usize,
        tags: usize,
    ) -> Result<(Desk, Seats), NoMemory>
        requires some { 0 < clients }
        requires most { clients ≤ MAX_CLIENTS }
        requires pumps { (pumps ≡ 1) ⊎ (pumps ≡ 2) ⊎ (pumps ≡ 4) }
        requires tags { AreTags tags }
        requires streams { tags * clients ≤ STREAMS }
        ensures desk { IfOk result (λ made. (made.0.clients ≡ clients) × (made.0.pumps ≡ pumps) × (made.0.tags ≡ tags)) }
        ensures clients { IfOk result (λ made. AreNewCustomers made.0.table tags clients made.1.clients.items) }
        ensures pumps { IfOk result (λ made. AreServersBelow made.0 (tags * clients) made.1.pumps.items) }
        ensures client_own { IfOk result (λ made. All (IsClientOf made.0) made.1.clients.items) }
        ensures client_free { IfOk result (λ made. All IsAllFree made.1.clients.items) }
        ensures pump_own { IfOk result (λ made. All (IsPumpOf made.0) made.1.pumps.items) }
        ensures all { IfOk result (λ made. IsAllClientsOf made.0 made.1.clients.items × IsAllPumpsOf made.0 made.1.pumps.items) }
    {
        let (desk, mut dealer) = Desk::undealt(alloc, clients, pumps, tags)?;
        let mut servers = desk.bare_servers(alloc)?;
        let customers = desk.deal_all(alloc, &mut dealer, &mut servers)?;
        let seats = Seats {
            clients: customers,
            pumps: servers,
        };
        Ok((desk, seats))
    }

    /// How many tags each client has, which never changes.
    pub fn tags(&self) -> usize
        ensures tags { result ≡ self.now.tags }
        ensures number { AreTags result }
        ensures streams { self.now.tags * self.now.clients ≤ STREAMS }
    {
        self.tags
    }

    /// Posts a slip on a tag of the client that its seat knows to be free: a task management on the last of its tags,
    /// a command on another one. The ticket is below `2^60` and above all that the seat posted.
    pub fn post(&self, seat: &mut ClientSeat, tag: u16, slip: Slip)
        requires own { IsClientOf self.now seat.old }
        requires tag { IsTagOf seat.old.tags seat.old.client tag }
        requires free { IsFreeAt seat.old tag }
        requires ticket { ticket_in slip < 2 ^ 60 }
        requires later { seat.old.least_ticket ≤ ticket_in slip }
        requires ask { IsAsk seat.old.tags tag (ticket_in slip) slip }
        ensures seat { seat.new ≡ posting seat.old tag (ticket_in slip) slip }
        ensures own { IsClientOf self.now seat.new }
    {
        let index = usize::from(tag) - 1;
        let ticket = slip.ticket();
        seat.lines[slot_of(seat.tags, tag)].post(self, index, ticket, slip);
        seat.least_ticket = ticket + 1;
    }

    /// The slip with which the pump finished the ticket that is open on a tag of the client, after which the tag is
    /// free; nothing where it didn't finish yet, which the seat counts then, or the tag is free.
    pub fn look(&self, seat: &mut ClientSeat, tag: u16) -> Option<Slip>
        requires own { IsClientOf self.now seat.old }
        requires tag { IsTagOf seat.old.tags seat.old.client tag }
        ensures slip { MatchOption result (seat.new ≡ overlooking 1 seat.old tag) (ReapsAt seat.old seat.new tag) }
        ensures own { IsClientOf self.now seat.new }
        ensures free { IfSome result (λ slip. IsFreeAt seat.new tag) }
    {
        let index = usize::from(tag) - 1;
        seat.lines[slot_of(seat.tags, tag)].look(self, index)
    }

    /// The claim of a ticket on a tag that the pump serves, where the client has it posted; nothing where it hasn't, which the seat
    /// notes then, or the tag's claim is out. The tickets that are claimed on a tag rise.
    pub fn claim(&self, seat: &mut WorkSeat, tag: u16, ticket: u64) -> Option<Claim>
        requires own { IsPumpOf self.now seat.old }
        requires served { IsServed self.now seat.old tag }
        requires ticket { ticket < 2 ^ 60 }
        ensures same { IfSome result (λ claim. claim.table ≡ self.now.table) }
        ensures claim { MatchOption result (seat.new ≡ missing seat.old tag ticket) (ClaimsAt self.now.tags seat.old seat.new tag ticket) }
        // It is above the ticket that the seat finished there last, so that none is claimed twice.
        ensures above { IfSome result (λ claim. IsAboveLast seat.old tag ticket) }
        ensures own { IsPumpOf self.now seat.new }
        ensures away { IfSome result (λ claim. IsAway seat.new tag) }
    {
        let index = usize::from(tag) - 1;
        let work = seat.lines[index].take()?;
        match work.claim(self, tag, ticket) {
            Ok(claim) => Some(claim),
            Err(work) => {
                seat.lines[index] = Some(work);
                None
            }
        }
    }

    /// Ends a claim of the seat with an answer that names its tag and its ticket, or gives its ticket back refused or
    /// unserved.
    pub fn finish(&self, seat: &mut WorkSeat, claim: Claim, slip: Slip)
        requires own { IsPumpOf self.now seat.old }
        requires served { IsServed self.now seat.old claim.tag }
        requires same { claim.table ≡ self.now.table }
        requires away { IsAway seat.old claim.tag }
        requires end { IsEnd claim.tag claim.ticket slip }
        ensures seat { seat.new ≡ finishing seat.old claim slip }
        ensures own { IsPumpOf self.now seat.new }
    {
        let index = usize::from(claim.tag) - 1;
        seat.lines[index] = Some(Work::finish(claim, self, slip));
    }

    /// What stands on the desk, once all its seats are back, in whatever order: by rising tag, each ticket that a client has
    /// open is in one of the lists, once, with the slip that the client posted or the one with which the pump finished.
    /// `NoMemory` where there is none for the lists, and then desk and seats come back. Of all that a client posted since
    /// `new`, what it didn't look up is there.
    pub fn close(self, alloc: Global, seats: Seats) -> Result<Left, (NoMemory, Desk, Seats)>
        requires clients { HasEachClientOf self seats.clients.items }
        requires pumps { HasEachPumpOf self seats.pumps.items }
        ensures left { MatchResult result (λ left. left ≡ left_of self seats.clients.items seats.pumps.items) (λ back. (back.1 ≡ self) × (back.2 ≡ seats)) }
        ensures kept { IfOk result (λ left. (c : ℕ) → c < self.clients → KeepsTickets self.table (seat_of seats.clients.items c) left) }
    {
        match Lists::with_room(alloc, self.all_tags()) {
            Err(fault) => Err((fault, self, seats)),
            Ok(mut lists) => {
                self.settle_all(seats, &mut lists);
                Ok(lists.into_left())
            }
        }
    }
}
