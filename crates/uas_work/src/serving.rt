//! The part of a pump: it books what its clients posted on the desk, and brings home what it came to.
ghost use Rattle.std.specs.Prelude.{◌≡◌, ℕ, ◌+◌, ◌-◌, ◌*◌, ◌/◌, ◌<◌, ◌≤◌, ◌^◌, IfOk, IfErr, IfSome, IfNone, IsErrAnd, MatchResult, None, Some, false, true, length, slice_index_or};
ghost use Rattle.uas_profile.specs.Tags.{client_of, slot_of};
ghost use Rattle.shared_machine.specs.declared.Step.{Step};
ghost use Rattle.shared_machine.specs.Bus.{HasTicket};
ghost use Rattle.shared_machine.specs.Shared.{due};
ghost use Rattle.tag_desk.specs.Seats.{IsPumpOf, IsServed, IsAway};
ghost use Rattle.uas_work.specs.Booked.{booked_step, turns_in};
ghost use Rattle.uas_work.specs.Held.{AreHeldBy, ServesClient, GaveUp, answered};
ghost use Rattle.uas_work.specs.Pumps.{TookInOrLeft, GaveUpIn, GaveUpWith, Given, Submits, asked, brought, handed_back, passed, passed_at, passing, submitted};

use crate::{Booked, Booking, Held, PreparedStep};
use bus_core::{Outcome, Step};
use scsi_cmd::{Buffer, Reply};
use shared_machine::Refusal;
use std::alloc::Global;
use tag_desk::{Claim, Desk, Slip, WorkSeat};
use uas_profile::{Place, tag_of};

/// Claims the slip that a client posted with its next ticket, and books what it asks for: whether there was one, where each of the
/// client's tags of which no claim is held was looked at. The claim is held until its reply, or finished where the submission is refused. The client's tags are tried by rising index. Where the
/// step can't be booked, nothing is, and every claim is given back unserved, the new one with its buffer.
pub fn pump_in(
    alloc: Global,
    booked: &mut Booked,
    desk: &Desk,
    seat: &mut WorkSeat,
    held: &mut Held,
    client: usize,
) -> Result<bool, Booking>
    requires own { IsPumpOf desk.now seat.old }
    requires held { AreHeldBy desk.now seat.old held.old }
    requires client { ServesClient desk.now seat.old client }
    ensures took { IfOk result (TookInOrLeft desk.now client (turns_in client booked.old.log.steps) booked.old booked.new
        (record { seat = seat.old; held = held.old }) (record { seat = seat.new; held = held.new })) }
    ensures same { IfErr result (λ booking. booked.new ≡ booked.old) }
    ensures gave_up { IfErr result (λ booking. GaveUpIn desk.now client (turns_in client booked.old.log.steps)
        (record { seat = seat.old; held = held.old }) (record { seat = seat.new; held = held.new })) }
    ensures full { length booked.old.log.steps ≡ booked.old.limit → MatchResult result (λ took. took ≡ false) (λ booking. booking ≡ Booking.LogFull) }
    ensures only_full { IfErr result (λ booking. booking ≡ Booking.LogFull → length booked.old.log.steps ≡ booked.old.limit) }
    ensures own { IsPumpOf desk.now seat.new }
    ensures held { AreHeldBy desk.now seat.new held.new }
{
    let ticket = booked.turn(client);
    match claimed(desk, seat, held, client, ticket) {
        Some((claim, slip)) => {
            let step = asked(alloc, client, claim.tag(), ticket, slip);
            submit(alloc, booked, desk, seat, held, claim, step)
        }
        None => Ok(false),
    }
}

/// Takes the oldest reply of a client that is ready, and finishes the claim of its tag and ticket with it, where that is held:
/// whether there was one. Where the step can't be booked, every claim is given back unserved.
pub fn pump_out(
    alloc: Global,
    booked: &mut Booked,
    desk: &Desk,
    seat: &mut WorkSeat,
    held: &mut Held,
    client: usize,
) -> Result<bool, Booking>
    requires own { IsPumpOf desk.now seat.old }
    requires held { AreHeldBy desk.now seat.old held.old }
    requires client { ServesClient desk.now seat.old client }
    ensures took { IfOk result (λ took. took ≡ due booked.old.bus (Step.Take client)) }
    ensures booked { IfOk result (λ took. booked.new ≡ (booked_step booked.old (Step.Take client)).0) }
    ensures answered { IfOk result (λ took. record { seat = seat.new; held = held.new }
        ≡ answered (booked_step booked.old (Step.Take client)).1.reply (record { seat = seat.old; held = held.old })) }
    ensures same { IfErr result (λ booking. booked.new ≡ booked.old) }
    ensures gave_up { IfErr result (λ booking. GaveUp (record { seat = seat.old; held = held.old }) (record { seat = seat.new; held = held.new })) }
    ensures full { length booked.old.log.steps ≡ booked.old.limit → IsErrAnd result (λ booking. booking ≡ Booking.LogFull) }
    ensures only_full { IfErr result (λ booking. booking ≡ Booking.LogFull → length booked.old.log.steps ≡ booked.old.limit) }
    ensures wanting { IfErr result (λ booking. booking ≡ Booking.NoMemory → due booked.old.bus (Step.Take client) ≡ true) }
    ensures own { IsPumpOf desk.now seat.new }
    ensures held { AreHeldBy desk.now seat.new held.new }
{
    match booked.step(alloc, Step::Take(client)) {
        Ok(outcome) => {
            let Outcome { acted, reply, .. } = outcome;
            bring_home(desk, seat, held, reply);
            Ok(acted)
        }
        Err((booking, _step)) => {
            held.give_back(alloc, desk, seat);
            Err(booking)
        }
    }
}

/// Finishes the claim of a reply, where one was taken.
fn bring_home(desk: &Desk, seat: &mut WorkSeat, held: &mut Held, reply: Option<Reply>)
    requires own { IsPumpOf desk.now seat.old }
    requires held { AreHeldBy desk.now seat.old held.old }
    ensures pump { record { seat = seat.new; held = held.new } ≡ answered reply (record { seat = seat.old; held = held.old }) }
    ensures own { IsPumpOf desk.now seat.new }
    ensures held { AreHeldBy desk.now seat.new held.new }
{
    match reply {
        None => {}
        Some(reply) => held.answer(desk, seat, reply),
    }
}

/// The claim of a ticket and its slip, of the first of a client's tags that has it posted and of which no claim is held.
fn claimed(
    desk: &Desk,
    seat: &mut WorkSeat,
    held: &Held,
    client: usize,
    ticket: u64,
) -> Option<(Claim, Slip)>
    requires own { IsPumpOf desk.now seat.old }
    requires held { AreHeldBy desk.now seat.old held.now }
    requires client { ServesClient desk.now seat.old client }
    requires ticket { ticket < 2 ^ 60 }
    ensures none { IfNone result (seat.new ≡ passed desk.now client ticket desk.now.tags (record { seat = seat.old; held = held.now })) }
    ensures own { IsPumpOf desk.now seat.new }
    ensures given { IfSome result (λ given. Given desk.now client ticket given.0 given.1
        (passing desk.now client ticket (slot_of desk.now.tags given.0.tag) (record { seat = seat.old; held = held.now })) seat.new) }
{
    let tags = desk.tags();
    for slot in 0..tags {
        let tag = tag_of(tags, Place { client, slot });
        match claimed_at(desk, seat, held, tag, ticket) {
            Some(given) => return Some(given),
            None => {}
        }
    }
    None
}

/// The claim of a ticket and its slip, where a tag of the client has it posted and no claim of it is held.
fn claimed_at(
    desk: &Desk,
    seat: &mut WorkSeat,
    held: &Held,
    tag: u16,
    ticket: u64,
) -> Option<(Claim, Slip)>
    requires own { IsPumpOf desk.now seat.old }
    requires count { length held.now ≡ desk.now.tags * desk.now.clients }
    requires served { IsServed desk.now seat.old tag }
    requires ticket { ticket < 2 ^ 60 }
    ensures none { IfNone result (seat.new ≡ passed_at tag ticket (slice_index_or held.now (tag - 1) None) seat.old) }
    ensures own { IsPumpOf desk.now seat.new }
    ensures tag { IfSome result (λ given. given.0.tag ≡ tag) }
    ensures given { IfSome result (λ given. Given desk.now (client_of desk.now.tags tag) ticket given.0 given.1 (record { seat = seat.old; held = held.now }) seat.new) }
{
    if !held.is_free(tag) {
        return None;
    }
    let mut claim = desk.claim(seat, tag, ticket)?;
    let Some(slip) = claim.take_slip() else {
        unreachable!()
    };
    Some((claim, slip))
}

/// Books what a claim asks for, whose slip was taken out.
fn submit(
    alloc: Global,
    booked: &mut Booked,
    desk: &Desk,
    seat: &mut WorkSeat,
    held: &mut Held,
    claim: Claim,
    step: PreparedStep,
) -> Result<bool, Booking>
    requires own { IsPumpOf desk.now seat.old }
    requires held { AreHeldBy desk.now seat.old held.old }
    requires desk { claim.table ≡ desk.now.table }
    requires served { IsServed desk.now seat.old claim.tag }
    requires away { IsAway seat.old claim.tag }
    requires free { slice_index_or held.old (claim.tag - 1) None ≡ None }
    requires ticket { HasTicket step }
    ensures took { IfOk result (λ took. took ≡ true) }
    ensures booked { IfOk result (λ took. booked.new ≡ (booked_step booked.old step).0) }
    ensures pump { IfOk result (λ took. record { seat = seat.new; held = held.new }
        ≡ submitted (booked_step booked.old step).1.refused claim (record { seat = seat.old; held = held.old })) }
    ensures same { IfErr result (λ booking. booked.new ≡ booked.old) }
    ensures gave_up { IfErr result (λ booking. GaveUpWith claim (brought step) (record { seat = seat.old; held = held.old }) (record { seat = seat.new; held = held.new })) }
    ensures full { length booked.old.log.steps ≡ booked.old.limit → IsErrAnd result (λ booking. booking ≡ Booking.LogFull) }
    ensures only_full { IfErr result (λ booking. booking ≡ Booking.LogFull → length booked.old.log.steps ≡ booked.old.limit) }
    ensures own { IsPumpOf desk.now seat.new }
    ensures held { AreHeldBy desk.now seat.new held.new }
{
    match booked.step_prepared(alloc, step) {
        Ok(outcome) => {
            let Outcome { refused, .. } = outcome;
            settle(alloc, desk, seat, held, claim, refused);
            Ok(true)
        }
        Err((booking, step)) => {
            let ticket = claim.ticket();
            let buffer = buffer_of(alloc, step);
            desk.finish(seat, claim, Slip::Unserved { ticket, buffer });
            held.give_back(alloc, desk, seat);
            Err(booking)
        }
    }
}

/// Holds the claim of a submission that was accepted, and finishes that of a refused one.
fn settle(
    alloc: Global,
    desk: &Desk,
    seat: &mut WorkSeat,
    held: &mut Held,
    claim: Claim,
    refused: Option<Refusal>,
)
    requires own { IsPumpOf desk.now seat.old }
    requires held { AreHeldBy desk.now seat.old held.old }
    requires desk { claim.table ≡ desk.now.table }
    requires served { IsServed desk.now seat.old claim.tag }
    requires away { IsAway seat.old claim.tag }
    requires free { slice_index_or held.old (claim.tag - 1) None ≡ None }
    ensures pump { record { seat = seat.new; held = held.new } ≡ submitted refused claim (record { seat = seat.old; held = held.old }) }
    ensures own { IsPumpOf desk.now seat.new }
    ensures held { AreHeldBy desk.now seat.new held.new }
{
    match refused {
        None => held.put(claim),
        Some(refusal) => {
            let ticket = claim.ticket();
            desk.finish(seat, claim, refused_slip(alloc, ticket, refusal));
        }
    }
}

/// The step that a client's slip on a tag asks for. Asks for a slip that a client posts with the ticket.
fn asked(alloc: Global, client: usize, tag: u16, ticket: u64, slip: Slip) -> PreparedStep
    requires ask { Submits ticket slip }
    requires ticket { ticket < 2 ^ 60 }
    ensures step { result ≡ asked client tag slip }
    ensures ticket { HasTicket result }
{
    match slip {
        Slip::Ask { command, .. } => PreparedStep::submit(client, tag, ticket, command),
        Slip::AskTask { task, .. } => PreparedStep::task(alloc, client, ticket, task),
        _other => unreachable!(),
    }
}

/// The end of a refused submission: its fault, and the buffer that was handed back.
fn refused_slip(alloc: Global, ticket: u64, refusal: Refusal) -> Slip
    ensures { result ≡ Slip.Refused ticket refusal.fault (handed_back refusal) }
{
    let Refusal { fault, command } = refusal;
    let buffer = match command {
        Some(command) => command.buffer,
        None => Buffer::empty(alloc),
    };
    Slip::Refused {
        ticket,
        fault,
        buffer,
    }
}

/// The buffer that a submission brought.
fn buffer_of(alloc: Global, step: Step) -> Buffer
    ensures { result ≡ brought step }
{
    match step {
        Step::Submit { command, .. } => command.buffer,
        _other => Buffer::empty(alloc),
    }
}
