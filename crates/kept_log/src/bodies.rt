//! The bodies of records.
ghost use Rattle.std.specs.Prelude.{◌≡◌, ◌≤◌};
ghost use Rattle.log_text.specs.Reading.{Gives};
ghost use Rattle.kept_log.specs.Form.{is_take};
ghost use Rattle.kept_log.specs.Reading.{acted_at, body_at, end_at, given_at, refused_at, why_of};

use crate::{Body, Entry, Why};
use log_text::{LogFault, Stop, Version, read_field, read_reply, read_step};
use shared_machine::Step;
use std::alloc::Global;

/// The greatest number of eight bytes.
const MOST_64: u64 = 0xffff_ffff_ffff_ffff;

/// Whether a step takes a reply.
pub fn is_take(step: &Step) -> bool
    ensures { result ≡ is_take step.now }
{
    match step {
        Step::Take(_) => true,
        Step::Submit { .. }
        | Step::Task { .. }
        | Step::CommandPipe
        | Step::Data(_)
        | Step::Status(_)
        | Step::Engine
        | Step::Event
        | Step::Retire(_, _) => false,
    }
}

/// A step, and behind a Take the reply that it gave.
#[tactic(auto, unfolding(crate::specs::Reading::acted_at))]
fn acted(alloc: Global, clients: usize, bytes: &[u8]) -> Result<Body, Stop>
    requires { 1 ≤ clients }
    ensures { Gives (λ body. body) result (acted_at clients bytes.now) }
{
    let (step, rest) = read_step(alloc, Version::Second, clients, bytes)?;
    if rest.is_empty() {
        return Ok(Body::Step(Entry::Acted(step, None)));
    }
    if !is_take(&step) {
        return Err(Stop::Fault(LogFault::TrailingBytes));
    }
    given(alloc, clients, step, rest)
}

/// The reply that a Take gave.
#[tactic(auto, unfolding(crate::specs::Reading::given_at))]
fn given(alloc: Global, clients: usize, step: Step, bytes: &[u8]) -> Result<Body, Stop>
    requires { 1 ≤ clients }
    ensures { Gives (λ body. body) result (given_at clients step bytes.now) }
{
    let (reply, rest) = read_reply(alloc, clients, bytes)?;
    if !rest.is_empty() {
        return Err(Stop::Fault(LogFault::TrailingBytes));
    }
    Ok(Body::Step(Entry::Acted(step, Some(reply))))
}

/// A step, and its refusal's number.
#[tactic(auto, unfolding(crate::specs::Reading::refused_at))]
fn refused(alloc: Global, clients: usize, bytes: &[u8]) -> Result<Body, Stop>
    requires { 1 ≤ clients }
    ensures { Gives (λ body. body) result (refused_at clients bytes.now) }
{
    let (step, rest) = read_step(alloc, Version::Second, clients, bytes)?;
    let (number, rest) = read_field(rest, 1, 1, 0xff)?;
    if !rest.is_empty() {
        return Err(Stop::Fault(LogFault::TrailingBytes));
    }
    Ok(Body::Step(Entry::Refused(step, number as u8)))
}

fn why_of(number: u64) -> Why
    ensures { result ≡ why_of number }
{
    match number {
        0 => Why::Complete,
        1 => Why::NoMemory,
        2 => Why::LogFull,
        _ => Why::LogFile,
    }
}

/// The number of steps, and why the log ended.
#[tactic(auto, unfolding(crate::specs::Reading::end_at))]
fn end(bytes: &[u8]) -> Result<Body, Stop>
    ensures { Gives (λ body. body) result (end_at bytes.now) }
{
    let (count, rest) = read_field(bytes, 8, 0, MOST_64)?;
    let (reason, rest) = read_field(rest, 1, 0, 3)?;
    if !rest.is_empty() {
        return Err(Stop::Fault(LogFault::TrailingBytes));
    }
    Ok(Body::End(count, why_of(reason)))
}

/// What a record's body says, in a log of so many clients.
#[tactic(auto, unfolding(crate::specs::Reading::body_at))]
pub(crate) fn body(alloc: Global, clients: usize, bytes: &[u8]) -> Result<Body, Stop>
    requires { 1 ≤ clients }
    ensures { Gives (λ body. body) result (body_at clients bytes.now) }
{
    let (kind, rest) = read_field(bytes, 1, 1, 3)?;
    match kind {
        1 => acted(alloc, clients, rest),
        2 => refused(alloc, clients, rest),
        _ => end(rest),
    }
}
