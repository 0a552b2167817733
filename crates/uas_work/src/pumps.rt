//! The part of those who have no client: which step is next, and booking it.
ghost use Rattle.std.specs.Prelude.{◌≡◌, true, false, IfSome, IfNone, IfOk, IfErr, IsErrAnd, MatchResult, OnErr, length};
ghost use Rattle.shared_machine.specs.Bus.{HasTicket};
ghost use Rattle.shared_machine.specs.Shared.{due};
ghost use Rattle.uas_work.specs.Booked.{booked_step};
ghost use Rattle.uas_work.specs.Control.{AllAreLeft, AreLeft, AreLeftBelow, IsControl, IsDispatch, IsFirstOf, IsLeft, IsTag, TookOrLeft, WantsOne};

use crate::{Booked, Booking, Gate};
use bus_core::{Bus, Step};
use std::alloc::Global;
use stream_array::Pipe;

/// Books the first step that is due and allowed of these, in order: the oldest unit in the command pipe, the controller's own
/// command, a chunk of a tag's data, a tag's status, the two by rising tag. Whether it booked one; it leaves all only where
/// none of them is due and allowed. A step that couldn't be booked was due and allowed.
pub fn control<G: Gate>(alloc: Global, booked: &mut Booked, gate: &G) -> Result<bool, Booking>
    ensures took { MatchResult result (TookOrLeft IsControl (G.says gate.now) booked.old booked.new)
        (λ booking. WantsOne IsControl (G.says gate.now) booked.old booked.new) }
    ensures full { length booked.old.log.steps ≡ booked.old.limit → MatchResult result (λ took. took ≡ false) (λ booking. booking ≡ Booking.LogFull) }
    ensures only_full { IfErr result (λ booking. booking ≡ Booking.LogFull → length booked.old.log.steps ≡ booked.old.limit) }
{
    match next_control(booked.bus(), gate) {
        Some(step) => book(alloc, booked, step),
        None => Ok(false),
    }
}

/// Books the first step that is due and allowed of these, in order: the oldest event, the retirement of a TD that is left over
/// on pipe 2, 3 and 4, on each by rising tag. Whether it booked one; it leaves all only where none of them is due and allowed.
pub fn dispatch<G: Gate>(alloc: Global, booked: &mut Booked, gate: &G) -> Result<bool, Booking>
    ensures took { MatchResult result (TookOrLeft IsDispatch (G.says gate.now) booked.old booked.new)
        (λ booking. WantsOne IsDispatch (G.says gate.now) booked.old booked.new) }
    ensures full { length booked.old.log.steps ≡ booked.old.limit → MatchResult result (λ took. took ≡ false) (λ booking. booking ≡ Booking.LogFull) }
    ensures only_full { IfErr result (λ booking. booking ≡ Booking.LogFull → length booked.old.log.steps ≡ booked.old.limit) }
{
    match next_dispatch(booked.bus(), gate) {
        Some(step) => book(alloc, booked, step),
        None => Ok(false),
    }
}

/// Books a step that is due.
pub(crate) fn book(alloc: Global, booked: &mut Booked, step: Step) -> Result<bool, Booking>
    requires { HasTicket step }
    ensures took { IfOk result (λ took. took ≡ true) }
    ensures booked { IfOk result (λ took. booked.new ≡ (booked_step booked.old step).0) }
    ensures full { length booked.old.log.steps ≡ booked.old.limit → IsErrAnd result (λ booking. booking ≡ Booking.LogFull) }
    ensures only_full { IfErr result (λ booking. booking ≡ Booking.LogFull → length booked.old.log.steps ≡ booked.old.limit) }
    ensures err { OnErr result (booked.new ≡ booked.old) }
{
    match booked.step(alloc, step) {
        Ok(_) => Ok(true),
        Err((booking, _)) => Err(booking),
    }
}

fn next_control<G: Gate>(bus: &Bus, gate: &G) -> Option<Step>
    ensures found { IfSome result (IsFirstOf IsControl (G.says gate.now) bus.now) }
    ensures none { IfNone result (AreLeft IsControl (G.says gate.now) bus.now) }
{
    if is_open(bus, gate, &Step::CommandPipe) {
        return Some(Step::CommandPipe);
    }
    if is_open(bus, gate, &Step::Engine) {
        return Some(Step::Engine);
    }
    if let Some(tag) = next_data(bus, gate) {
        return Some(Step::Data(tag));
    }
    match next_status(bus, gate) {
        Some(tag) => Some(Step::Status(tag)),
        None => None,
    }
}

fn next_dispatch<G: Gate>(bus: &Bus, gate: &G) -> Option<Step>
    ensures found { IfSome result (IsFirstOf IsDispatch (G.says gate.now) bus.now) }
    ensures none { IfNone result (AreLeft IsDispatch (G.says gate.now) bus.now) }
{
    if is_open(bus, gate, &Step::Event) {
        return Some(Step::Event);
    }
    if let Some(tag) = next_left_over(bus, gate, Pipe::Status) {
        return Some(Step::Retire(Pipe::Status, tag));
    }
    if let Some(tag) = next_left_over(bus, gate, Pipe::DataIn) {
        return Some(Step::Retire(Pipe::DataIn, tag));
    }
    match next_left_over(bus, gate, Pipe::DataOut) {
        Some(tag) => Some(Step::Retire(Pipe::DataOut, tag)),
        None => None,
    }
}

/// Whether a step is due and allowed.
pub(crate) fn is_open<G: Gate>(bus: &Bus, gate: &G, step: &Step) -> bool
    ensures due { result ≡ true → due bus.now step.now ≡ true }
    ensures allowed { result ≡ true → G.says gate.now step.now true }
    ensures left { result ≡ false → IsLeft (G.says gate.now) bus.now step.now }
{
    bus.due(step) && gate.may(step)
}

/// The least tag whose data is due and allowed.
fn next_data<G: Gate>(bus: &Bus, gate: &G) -> Option<u16>
    ensures found { IfSome result (λ tag. IsTag bus.now tag) }
    ensures due { IfSome result (λ tag. due bus.now (Step.Data tag) ≡ true) }
    ensures allowed { IfSome result (λ tag. G.says gate.now (Step.Data tag) true) }
    ensures first { IfSome result (AreLeftBelow Step.Data (G.says gate.now) bus.now) }
    ensures none { IfNone result (AllAreLeft Step.Data (G.says gate.now) bus.now) }
{
    let mut tag = 0;
    while let Some(next) = bus.next_busy(tag) {
        if is_open(bus, gate, &Step::Data(next)) {
            return Some(next);
        }
        tag = next;
    }
    None
}

/// The least tag whose status is due and allowed.
fn next_status<G: Gate>(bus: &Bus, gate: &G) -> Option<u16>
    ensures found { IfSome result (λ tag. IsTag bus.now tag) }
    ensures due { IfSome result (λ tag. due bus.now (Step.Status tag) ≡ true) }
    ensures allowed { IfSome result (λ tag. G.says gate.now (Step.Status tag) true) }
    ensures first { IfSome result (AreLeftBelow Step.Status (G.says gate.now) bus.now) }
    ensures none { IfNone result (AllAreLeft Step.Status (G.says gate.now) bus.now) }
{
    let mut tag = 0;
    while let Some(next) = bus.next_busy(tag) {
        if is_open(bus, gate, &Step::Status(next)) {
            return Some(next);
        }
        tag = next;
    }
    None
}

/// The least tag whose TD on a pipe is left over and may be retired.
fn next_left_over<G: Gate>(bus: &Bus, gate: &G, pipe: Pipe) -> Option<u16>
    ensures found { IfSome result (λ tag. IsTag bus.now tag) }
    ensures due { IfSome result (λ tag. due bus.now (Step.Retire pipe tag) ≡ true) }
    ensures allowed { IfSome result (λ tag. G.says gate.now (Step.Retire pipe tag) true) }
    ensures first { IfSome result (AreLeftBelow (Step.Retire pipe) (G.says gate.now) bus.now) }
    ensures none { IfNone result (AllAreLeft (Step.Retire pipe) (G.says gate.now) bus.now) }
{
    let mut tag = 0;
    while let Some(next) = bus.next_left_over(pipe, tag) {
        if is_open(bus, gate, &Step::Retire(pipe, next)) {
            return Some(next);
        }
        tag = next;
    }
    None
}
