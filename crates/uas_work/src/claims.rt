//! The claims that a pump holds: of slips that it booked and whose end it owes to the client.
ghost use Rattle.std.specs.Prelude.{◌≡◌, ℕ, ◌-◌, ◌*◌, ◌<◌, ◌≤◌, ◌↔◌, true, false, IsTrue, IfOk, IfSome, IfNone, None, Some, length, slice_index_or, slice_set};
ghost use Rattle.std.specs.Option.{option_map_or};
ghost use Rattle.uas_profile.specs.declared.TheConstants.{STREAMS, TAGS, USUAL_CLIENTS};
ghost use Rattle.tag_desk.specs.Seats.{MadeDesk, Server, IsPumpOf};
ghost use Rattle.uas_work.specs.Held.{AreHeldBy, AreNone, AreUnserved, answered, is_claim_of, unserving};

use crate::Held;
use scsi_cmd::{Buffer, Reply};
use std::alloc::{AllocError, Global};
use tag_desk::{Claim, Desk, Slip, WorkSeat};
use uas_profile::TAGS;

impl Held {
    /// No claims, of a desk for so many clients of 16 tags each (`TAGS`); all room that it ever needs is taken here.
    pub fn new(alloc: Global, clients: usize) -> Result<Held, AllocError>
        requires { clients ≤ USUAL_CLIENTS }
        ensures none { IfOk result AreNone }
        ensures held { IfOk result (λ held. (desk : MadeDesk) (seat : Server) → desk.tags ≡ TAGS → desk.clients ≡ clients → AreHeldBy desk seat held) }
    {
        Held::with_tags(alloc, clients, TAGS)
    }

    /// The same of another number of tags of each client.
    pub fn with_tags(alloc: Global, clients: usize, tags: usize) -> Result<Held, AllocError>
        requires { tags * clients ≤ STREAMS }
        ensures none { IfOk result AreNone }
        ensures held { IfOk result (λ held. (desk : MadeDesk) (seat : Server) → desk.tags ≡ tags → desk.clients ≡ clients → AreHeldBy desk seat held) }
    {
        let all = tags * clients;
        let mut claims = Vec::with_capacity(alloc, all)?;
        for _ in 0..all {
            claims.push(None)?;
        }
        Ok(Held { claims })
    }

    /// Gives every claim back unserved, and holds none then: what a pump does that ends.
    pub fn give_back(&mut self, alloc: Global, desk: &Desk, seat: &mut WorkSeat)
        requires own { IsPumpOf desk.now seat.old }
        requires held { AreHeldBy desk.now seat.old self.old }
        ensures ends { AreUnserved seat.old self.old seat.new }
        ensures none { AreNone self.new }
        ensures own { IsPumpOf desk.now seat.new }
        ensures held { AreHeldBy desk.now seat.new self.new }
    {
        for place in 0..self.len() {
            self.give_back_one(alloc, desk, seat, place);
        }
    }

    /// Gives the claim at a place back unserved, where one is held.
    fn give_back_one(&mut self, alloc: Global, desk: &Desk, seat: &mut WorkSeat, place: usize)
        requires own { IsPumpOf desk.now seat.old }
        requires held { AreHeldBy desk.now seat.old self.old }
        requires place { place < length self.old }
        ensures seat { seat.new ≡ unserving (slice_index_or self.old place None) seat.old }
        ensures taken { self.new ≡ slice_set self.old place None }
        ensures own { IsPumpOf desk.now seat.new }
        ensures held { AreHeldBy desk.now seat.new self.new }
    {
        if let Some(claim) = self.take(place) {
            let ticket = claim.ticket();
            let buffer = Buffer::empty(alloc);
            desk.finish(seat, claim, Slip::Unserved { ticket, buffer });
        }
    }

    /// How many places it has.
    fn len(&self) -> usize
        ensures { result ≡ length self.now }
    {
        self.claims.len()
    }

    /// Finishes the claim of a reply's tag and ticket with the reply, where it is held.
    pub(crate) fn answer(&mut self, desk: &Desk, seat: &mut WorkSeat, reply: Reply)
        requires own { IsPumpOf desk.now seat.old }
        requires held { AreHeldBy desk.now seat.old self.old }
        ensures pump { record { seat = seat.new; held = self.new } ≡ answered (Some reply) (record { seat = seat.old; held = self.old }) }
        ensures own { IsPumpOf desk.now seat.new }
        ensures held { AreHeldBy desk.now seat.new self.new }
    {
        let place = usize::from(reply.tag()).saturating_sub(1);
        if !self.is_of(place, &reply) {
            return;
        }
        if let Some(claim) = self.take(place) {
            desk.finish(seat, claim, Slip::Answer(reply));
        }
    }

    /// Whether the claim at a place is held, and of the reply's tag and ticket.
    fn is_of(&self, place: usize, reply: &Reply) -> bool
        ensures { result ≡ option_map_or (is_claim_of reply.now) (slice_index_or self.now place None) false }
    {
        match self.claims.get(place) {
            Some(Some(claim)) => claim.tag() == reply.tag() && claim.ticket() == reply.ticket(),
            _ => false,
        }
    }

    /// Whether no claim of a tag is held.
    pub(crate) fn is_free(&self, tag: u16) -> bool
        requires low { 1 ≤ tag }
        requires within { tag ≤ length self.now }
        ensures { IsTrue result ↔ (slice_index_or self.now (tag - 1) None ≡ None) }
    {
        self.claims[usize::from(tag) - 1].is_none()
    }

    /// Holds a claim.
    pub(crate) fn put(&mut self, claim: Claim)
        requires low { 1 ≤ claim.tag }
        requires within { claim.tag ≤ length self.old }
        ensures { self.new ≡ slice_set self.old (claim.tag - 1) (Some claim) }
    {
        let place = usize::from(claim.tag()) - 1;
        self.claims[place] = Some(claim);
    }

    /// The claim at a place, which is held no longer.
    fn take(&mut self, place: usize) -> Option<Claim>
        requires { place < length self.old }
        ensures claim { result ≡ slice_index_or self.old place None }
        ensures rest { self.new ≡ slice_set self.old place None }
    {
        self.claims[place].take()
    }
}
