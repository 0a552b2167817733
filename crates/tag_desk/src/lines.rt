//! What a client and a pump have of one tag, and the steps of each on its word.
ghost use Rattle.std.specs.Prelude.{◌≡◌, ℕ, ◌+◌, ◌-◌, ◌*◌, ◌^◌, ◌<◌, ◌≤◌, [], Some, IfOk, IfSome, MatchBool, MatchOption, MatchResult, IsTrue, ◌↔◌};
ghost use Rattle.tag_desk.specs.declared.rule.ClientView.TheVariants.{Open};
ghost use Rattle.tag_desk.specs.declared.rule.WorkView.TheVariants.{Finished};
ghost use Rattle.tag_desk.specs.Slips.{IsAsk, IsEnd};
ghost use Rattle.tag_desk.specs.declared.rule.WorkView.TheVariants.{Idle};
ghost use Rattle.tag_desk.specs.declared.rule.View.TheVariants.{Dealer};
ghost use Rattle.tag_desk.specs.declared.Slip.{Slip};
ghost use Rattle.tag_desk.specs.Rule.{client_in, work_in, IsAbove, Took, noting, overlooked};
ghost use Rattle.tag_desk.specs.Seats.{IsFree, Reaps, IsClaimOf, client_sat, work_sat, new_line, next_ticket};
ghost use Rattle.tag_desk.specs.Left.{standing};

use crate::remains::Standing;
use crate::rule::{Deal, Finish, Lift, Look, Part, Post, Settle, TableSeat, Take, TakeTask, Unite};
use crate::{Claim, Desk, Slip};
use std::marker::Model;
use uas_profile::{slot_of, task_slot};

/// A tag's word is `STATES` times its ticket, plus its state: 0 where it is free.
pub(crate) const STATES: u64 = 4;

/// The client's slip is at home.
pub(crate) const POSTED: u64 = 1;

/// The pump's seat has the claim.
pub(crate) const TAKEN: u64 = 2;

/// The pump's slip is at home.
pub(crate) const DONE: u64 = 3;

const _: () = prove!(STATES == 4);

const _: () = prove!(POSTED == 1);

const _: () = prove!(TAKEN == 2);

const _: () = prove!(DONE == 3);

/// A client's seat at one tag, and the ticket that it has open there.
#[derive(Drop)]
pub struct Line {
    seat: TableSeat,
    posted: Option<u64>,
}

impl Model for Line {
    ghost use Rattle.tag_desk.specs.Rule.{index_in, client_in};
    ghost use Rattle.tag_desk.specs.Seats.{ClientLine, IsLineOf};

    ghost Value = { ClientLine };

    ghost view = { λ l. record { table = l.seat.table_id; index = index_in l.seat.me.0; view = client_in l.seat.me.0 } };

    ghost invariant = { λ l. IsLineOf l.seat.me (index_in l.seat.me.0) (client_in l.seat.me.0) l.posted };
}

/// A pump's seat at one tag, with no claim on it.
#[derive(Drop)]
pub struct Work {
    seat: TableSeat,
}

impl Model for Work {
    ghost use Rattle.std.specs.Prelude.{◌≡◌};
    ghost use Rattle.tag_desk.specs.Rule.{index_in, work_in};
    ghost use Rattle.tag_desk.specs.Seats.{WorkLine, work_sat, IsHome};

    ghost Value = { WorkLine };

    ghost view = { λ w. record { table = w.seat.table_id; index = index_in w.seat.me.0; view = work_in w.seat.me.0 } };

    ghost invariant = { λ w. (w.seat.me ≡ work_sat (index_in w.seat.me.0) (work_in w.seat.me.0)) × IsHome (work_in w.seat.me.0) };
}

impl Line {
    /// Puts the slip into the tag's slot and gives it away with the word. The index is the tag less 1.
    pub(crate) fn post(&mut self, desk: &Desk, index: usize, ticket: u64, slip: Slip)
        requires table { self.old.table ≡ desk.now.table }
        requires index { self.old.index ≡ index }
        requires within { index < desk.now.tags * desk.now.clients }
        requires free { IsFree self.old.view }
        requires ticket { ticket < 2 ^ 60 }
        requires later { next_ticket self.old.view ≤ ticket }
        requires ask { IsAsk desk.now.tags (index + 1) ticket slip }
        ensures { self.new ≡ record self.old { view = Open ticket slip 0 } }
    {
        let shared = &desk.table.shared;
        drop(shared.exchange(&mut self.seat, index, Some(slip)));
        shared.swap::<Post>(&mut self.seat, index, STATES * ticket + POSTED);
        self.posted = Some(ticket);
    }

    pub(crate) fn is_free(&self) -> bool
        ensures { IsTrue result ↔ IsFree self.now.view }
    {
        self.posted.is_none()
    }

    /// The slip with which the pump finished, where it did; elsewhere the look is counted.
    pub(crate) fn look(&mut self, desk: &Desk, index: usize) -> Option<Slip>
        requires table { self.old.table ≡ desk.now.table }
        requires index { self.old.index ≡ index }
        requires within { index < desk.now.tags * desk.now.clients }
        ensures { MatchOption result (self.new ≡ record self.old { view = overlooked 1 self.old.view }) (λ slip. Reaps self.old self.new slip) }
    {
        let ticket = self.posted?;
        let shared = &desk.table.shared;
        let done = STATES * ticket + DONE;
        let found = shared.compare_exchange::<Look>(&mut self.seat, index, done, STATES * ticket);
        if found != done {
            return None;
        }
        self.posted = None;
        shared.exchange(&mut self.seat, index, None)
    }

    /// What stands at the tag, where the pump's line is `work`, or none since it is out with a claim.
    pub(crate) fn settle(self, desk: &Desk, index: usize, work: Option<Work>) -> Standing
        requires table { self.table ≡ desk.now.table }
        requires index { self.index ≡ index }
        requires within { index < desk.now.tags * desk.now.clients }
        requires work { IfSome work (λ line. (line.table ≡ desk.now.table) × (line.index ≡ index)) }
        ensures { result ≡ standing self.view work }
    {
        let Line { seat, posted } = self;
        let Some(ticket) = posted else {
            return Standing::Nothing;
        };
        let Some(work) = work else {
            return Standing::Held(ticket);
        };
        work.settle(desk, index, ticket, seat)
    }
}

impl Work {
    /// The claim of the ticket, where it is posted; else the seat comes back, with a note that it wasn't.
    pub(crate) fn claim(self, desk: &Desk, tag: u16, ticket: u64) -> Result<Claim, Work>
        requires table { self.table ≡ desk.now.table }
        requires tag { tag ≡ self.index + 1 }
        requires within { tag ≤ desk.now.tags * desk.now.clients }
        requires ticket { ticket < 2 ^ 60 }
        ensures claim { MatchResult result (λ claim. IsClaimOf desk.now.tags self ticket claim) (λ work. work ≡ record self { view = noting ticket self.view }) }
        ensures above { IfOk result (λ claim. IsAbove self.view ticket) }
    {
        let Work { mut seat } = self;
        if !takes(desk, &mut seat, tag, ticket) {
            return Err(Work { seat });
        }
        let index = usize::from(tag) - 1;
        let slip = desk.table.shared.exchange(&mut seat, index, None);
        Ok(Claim {
            seat,
            tag,
            ticket,
            slip,
        })
    }

    /// Puts the slip into the claim's slot and gives it away with the word.
    pub(crate) fn finish(claim: Claim, desk: &Desk, slip: Slip) -> Work
        requires table { claim.table ≡ desk.now.table }
        requires low { 1 ≤ claim.tag }
        requires within { claim.tag ≤ desk.now.tags * desk.now.clients }
        requires end { IsEnd claim.tag claim.ticket slip }
        ensures { result ≡ record { table = claim.table; index = claim.tag - 1; view = Finished claim.ticket slip [] } }
    {
        let Claim {
            mut seat,
            tag,
            ticket,
            slip: _,
        } = claim;
        let index = usize::from(tag) - 1;
        let shared = &desk.table.shared;
        drop(shared.exchange(&mut seat, index, Some(slip)));
        shared.swap::<Finish>(&mut seat, index, STATES * ticket + DONE);
        Work { seat }
    }

    /// Takes out what stands at the tag, where the client's seat has the ticket open: the two seats of the tag are made one,
    /// and one exchange frees it.
    fn settle(self, desk: &Desk, index: usize, ticket: u64, mut seat: TableSeat) -> Standing
        requires table { (self.table ≡ desk.now.table) × (seat.table_id ≡ desk.now.table) }
        requires index { self.index ≡ index }
        requires within { index < desk.now.tags * desk.now.clients }
        requires client { (x : Slip) × (looks : ℕ) × (seat.me ≡ client_sat index (Open ticket x looks)) }
        requires ticket { ticket < 2 ^ 60 }
        ensures { result ≡ standing (client_in seat.me.0) (Some self) }
    {
        let Work { seat: other } = self;
        let shared = &desk.table.shared;
        shared.join_seat::<Unite>(&mut seat, other);
        let found = shared.swap::<Settle>(&mut seat, index, 0);
        let Some(slip) = shared.exchange(&mut seat, index, None) else {
            unreachable!()
        };
        if found == STATES * ticket + POSTED {
            Standing::Posted(slip)
        } else {
            Standing::Done(slip)
        }
    }
}

/// Whether the ticket is posted on the tag; then it is taken, else the seat notes that it isn't. What is posted there is told by the tag's kind.
fn takes(desk: &Desk, seat: &mut TableSeat, tag: u16, ticket: u64) -> bool
    requires table { seat.old.table_id ≡ desk.now.table }
    requires low { 1 ≤ tag }
    requires within { tag ≤ desk.now.tags * desk.now.clients }
    requires pump { seat.old.me ≡ work_sat (tag - 1) (work_in seat.old.me.0) }
    requires ticket { ticket < 2 ^ 60 }
    ensures table { seat.new.table_id ≡ desk.now.table }
    ensures took { MatchBool result (Took desk.now.tags (tag - 1) (work_in seat.old.me.0) ticket seat.new.me) (seat.new.me ≡ work_sat (tag - 1) (noting ticket (work_in seat.old.me.0))) }
{
    let index = usize::from(tag) - 1;
    let shared = &desk.table.shared;
    let asked = STATES * ticket + POSTED;
    let taken = STATES * ticket + TAKEN;
    if slot_of(desk.tags, tag) == task_slot(desk.tags) {
        shared.compare_exchange::<TakeTask>(seat, index, asked, taken) == asked
    } else {
        shared.compare_exchange::<Take>(seat, index, asked, taken) == asked
    }
}

/// The next tag of the dealer: the client's line and the pump's, and the slot with the client's.
pub(crate) fn deal(desk: &Desk, dealer: &mut TableSeat, index: usize) -> (Line, Work)
    requires within { index < desk.now.tags * desk.now.clients }
    requires table { dealer.old.table_id ≡ desk.now.table }
    requires next { dealer.old.me.0 ≡ Dealer index }
    ensures line { result.0 ≡ new_line desk.now.table index }
    ensures work { result.1 ≡ record { table = desk.now.table; index = index; view = Idle [] } }
    ensures table { dealer.new.table_id ≡ desk.now.table }
    ensures next { dealer.new.me.0 ≡ Dealer (index + 1) }
{
    let shared = &desk.table.shared;
    let mut seat = shared.split_seat::<Deal>(dealer);
    shared.load::<Lift>(&mut seat, index);
    let work = shared.split_seat::<Part>(&mut seat);
    let line = Line { seat, posted: None };
    (line, Work { seat: work })
}
