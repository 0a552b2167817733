//! The part of whoever holds the lock: all that is due of those who have no client.
//!
//! A sweep walks: the command pipe while it has units, a chunk of each busy tag, the status of each, by rising tag, and the events. At a
//! walk's end it takes the first step of all that is left, as `control` and `dispatch` find it, and walks again; there it ends where none is.
ghost use Rattle.std.specs.Prelude.{◌≡◌, ◌≤◌, ◌<◌, true, IfSome, IfOk, IfErr, MatchResult, length};
ghost use Rattle.shared_machine.specs.declared.Step.{Step};
ghost use Rattle.shared_machine.specs.Shared.{due};
ghost use Rattle.uas_work.specs.Control.{IsTag};
ghost use Rattle.uas_work.specs.Sweep.{AreAllLeft, BookedOrLeft, IsOpen, IsSwept, WasSwept};

use crate::pumps::{book, is_open};
use crate::{Booked, Booking, Gate, control, dispatch};
use bus_core::{Bus, Step};
use std::alloc::Global;
use uas_profile::STREAMS;

/// Where a walk stands: what comes before it isn't tried again in this walk.
#[derive(Clone, Copy)]
enum Walk {
    /// At the command pipe.
    Pipe,
    /// At the data of the tags above this one.
    Data(u16),
    /// At the status of the tags above this one.
    Status(u16),
    /// At the events.
    Events,
}

/// Books the steps of those who have no client that are due and allowed, one after the other, at most so many: how many. With fewer none
/// of them is due and allowed any more. Where a step can't be booked, those before it are.
pub fn sweep<G: Gate>(
    alloc: Global,
    booked: &mut Booked,
    gate: &G,
    most: u32,
) -> Result<u32, Booking>
    ensures swept { IfOk result (λ taken. IsSwept (G.says gate.now) booked.old taken booked.new) }
    ensures most { IfOk result (λ taken. taken ≤ most) }
    ensures left { IfOk result (λ taken. taken < most → AreAllLeft (G.says gate.now) booked.new) }
    ensures some { IfErr result (λ booking. WasSwept (G.says gate.now) booked.old booked.new) }
    ensures only_full { IfErr result (λ booking. booking ≡ Booking.LogFull → length booked.new.log.steps ≡ booked.new.limit) }
{
    let mut taken = 0;
    let mut walk = Walk::Pipe;
    while taken < most {
        if !swept_next(alloc, booked, gate, &mut walk)? {
            break;
        }
        taken += 1;
    }
    Ok(taken)
}

/// Books the next step of a walk that is due and allowed, at its end the first of all that is: whether one was. An error changes nothing.
fn swept_next<G: Gate>(
    alloc: Global,
    booked: &mut Booked,
    gate: &G,
    walk: &mut Walk,
) -> Result<bool, Booking>
    ensures one { MatchResult result (BookedOrLeft (G.says gate.now) booked.old booked.new) (λ booking. booked.new ≡ booked.old) }
    ensures only_full { IfErr result (λ booking. booking ≡ Booking.LogFull → length booked.old.log.steps ≡ booked.old.limit) }
{
    match walk.next(booked.bus(), gate) {
        Some(step) => book(alloc, booked, step),
        None => swept_one(alloc, booked, gate),
    }
}

/// Books the first step of the controller's that is due and allowed, else the dispatcher's: whether one was. An error changes nothing.
fn swept_one<G: Gate>(alloc: Global, booked: &mut Booked, gate: &G) -> Result<bool, Booking>
    ensures one { MatchResult result (BookedOrLeft (G.says gate.now) booked.old booked.new) (λ booking. booked.new ≡ booked.old) }
    ensures only_full { IfErr result (λ booking. booking ≡ Booking.LogFull → length booked.old.log.steps ≡ booked.old.limit) }
{
    if control(alloc, booked, gate)? {
        return Ok(true);
    }
    dispatch(alloc, booked, gate)
}

impl Walk {
    /// The next step of the walk that is due and allowed. None at its end, behind which it begins anew.
    fn next<G: Gate>(&mut self, bus: &Bus, gate: &G) -> Option<Step>
        ensures { IfSome result (IsOpen (G.says gate.now) bus.now) }
    {
        if let Walk::Pipe = *self {
            if is_open(bus, gate, &Step::CommandPipe) {
                return Some(Step::CommandPipe);
            }
            *self = Walk::Data(0);
        }
        if let Walk::Data(tag) = *self {
            if let Some(next) = open_data(bus, gate, tag) {
                *self = Walk::Data(next);
                return Some(Step::Data(next));
            }
            *self = Walk::Status(0);
        }
        if let Walk::Status(tag) = *self {
            if let Some(next) = open_status(bus, gate, tag) {
                *self = Walk::Status(next);
                return Some(Step::Status(next));
            }
            *self = Walk::Events;
        }
        if is_open(bus, gate, &Step::Event) {
            return Some(Step::Event);
        }
        *self = Walk::Pipe;
        None
    }
}

/// A tag above this one whose data is due and allowed.
fn open_data<G: Gate>(bus: &Bus, gate: &G, tag: u16) -> Option<u16>
    ensures tag { IfSome result (λ tag. IsTag bus.now tag) }
    ensures due { IfSome result (λ tag. due bus.now (Step.Data tag) ≡ true) }
    ensures allowed { IfSome result (λ tag. G.says gate.now (Step.Data tag) true) }
{
    let mut tag = tag;
    for _ in 0..STREAMS {
        let next = bus.next_busy(tag)?;
        if is_open(bus, gate, &Step::Data(next)) {
            return Some(next);
        }
        tag = next;
    }
    None
}

/// A tag above this one whose status is due and allowed.
fn open_status<G: Gate>(bus: &Bus, gate: &G, tag: u16) -> Option<u16>
    ensures tag { IfSome result (λ tag. IsTag bus.now tag) }
    ensures due { IfSome result (λ tag. due bus.now (Step.Status tag) ≡ true) }
    ensures allowed { IfSome result (λ tag. G.says gate.now (Step.Status tag) true) }
{
    let mut tag = tag;
    for _ in 0..STREAMS {
        let next = bus.next_busy(tag)?;
        if is_open(bus, gate, &Step::Status(next)) {
            return Some(next);
        }
        tag = next;
    }
    None
}
