//! What is told of a log's text.
ghost use Rattle.std.specs.Prelude.{◌≡◌, ◌<◌, ◌++◌, [], length, true, false, IfOk, IfErr, IfSome, IsTrue, OnOk};
ghost use Rattle.std.specs.String.{string_bytes};
ghost use Rattle.audit_run.specs.replay.Replaying.{IsReplayOf};
ghost use Rattle.audit_run.specs.Audits.{audit_lines, audit_text, beginning_line, beginning_text, client_line, found_text, head_line, line_text, state_text, torn_line, torn_text};
ghost use Rattle.audit_run.specs.Ends.{CantTell, IsTold};

use crate::accounts::{is_true_of, replies_of};
use crate::replay::replay_log;
use crate::texts::file_log;
use crate::{AuditFault, FileLog, HeadAt, KeptState};
use byte_io::Source;
use log_text::PlainLog;
use std::alloc::{AllocError, Global};
use std::io::Write;
use uas_work::Booked;

/// A log of so many steps takes seconds to replay.
const LONG_STEPS: usize = 100_000;

/// What is told of a file: a line for each client of its log, or the first thing that is wrong. Where it is asked for, `notes` gets a
/// line once a long log is read.
pub(crate) fn answered<S: Source, W: Write>(
    alloc: Global,
    source: &mut S,
    head: Option<u32>,
    notes: &mut W,
    shows_progress: bool,
) -> Result<Vec<u8>, AuditFault>
    ensures ok { IfOk result (λ answer. IfSome (S.left source.old) (λ bytes. IsTold head bytes answer.items)) }
    ensures there { OnOk result (IsTrue (S.is_there source.old)) }
    ensures fault { IfErr result (CantTell head [] (S.left source.old) (S.is_there source.old) (S.can_fail source.old)) }
    ensures quiet { shows_progress ≡ false → notes.new ≡ notes.old }
{
    let FileLog { log, state, head } = match file_log(alloc, source, head) {
        Ok(found) => found,
        Err(fault) => return Err(fault),
    };
    note(&log, notes, shows_progress);
    let booked = match replay_log(alloc, &log) {
        Ok(booked) => booked,
        Err(fault) => return Err(AuditFault::Replay(fault)),
    };
    match told(alloc, &booked, &log, state, head) {
        Ok(answer) => Ok(answer),
        Err(_) => Err(AuditFault::NoMemory),
    }
}

/// Tells how long a log is, where it is long and that is asked for. A fault of `notes` changes nothing.
fn note<W: Write>(log: &PlainLog, notes: &mut W, shows_progress: bool)
    ensures { shows_progress ≡ false → notes.new ≡ notes.old }
{
    let steps = log.steps().len();
    if !shows_progress || steps < LONG_STEPS {
        return;
    }
    let _ = writeln!(notes, "replaying {steps} steps");
}

/// A line for each client, what there is of the log, and where the checksum stands. Asks that the bus is booked by the log.
fn told(
    alloc: Global,
    booked: &Booked,
    log: &PlainLog,
    state: Option<KeptState>,
    head: Option<HeadAt>,
) -> Result<Vec<u8>, AllocError>
    requires { IsReplayOf log.now booked.now }
    ensures text { IfOk result (λ answer. answer.items ≡ (audit_text log.now ++ state_text state) ++ found_text head) }
{
    let mut text = lines(alloc, booked, log)?;
    let state = state_of(alloc, state)?;
    text.extend_from_slice(&state)?;
    push_head(alloc, &mut text, head)?;
    Ok(text)
}

/// `beginning of N steps` of a log without an end, and `torn at byte N` where a record was cut off.
fn state_of(alloc: Global, state: Option<KeptState>) -> Result<Vec<u8>, AllocError>
    ensures { IfOk result (λ text. text.items ≡ state_text state) }
{
    let mut text = Vec::new(alloc);
    if let Some(state) = state {
        push_beginning(alloc, &mut text, state)?;
        push_torn(alloc, &mut text, state)?;
    }
    Ok(text)
}

fn push_beginning(alloc: Global, text: &mut Vec<u8>, state: KeptState) -> Result<(), AllocError>
    ensures { OnOk result (text.new.items ≡ text.old.items ++ beginning_text state) }
{
    if !state.has_end {
        let line = beginning_line(alloc, state.steps)?;
        text.extend_from_slice(line.as_bytes())?;
    }
    Ok(())
}

fn push_torn(alloc: Global, text: &mut Vec<u8>, state: KeptState) -> Result<(), AllocError>
    ensures { OnOk result (text.new.items ≡ text.old.items ++ torn_text state.torn) }
{
    if let Some(place) = state.torn {
        let line = torn_line(alloc, place)?;
        text.extend_from_slice(line.as_bytes())?;
    }
    Ok(())
}

fn push_head(alloc: Global, text: &mut Vec<u8>, head: Option<HeadAt>) -> Result<(), AllocError>
    ensures { OnOk result (text.new.items ≡ text.old.items ++ found_text head) }
{
    if let Some(at) = head {
        let line = head_line(alloc, at.sum, at.step)?;
        text.extend_from_slice(line.as_bytes())?;
    }
    Ok(())
}

fn beginning_line(alloc: Global, steps: usize) -> Result<String, AllocError>
    ensures { IfOk result (λ line. string_bytes line ≡ beginning_line steps) }
{
    format!(in alloc; "beginning of {steps} steps\n")
}

fn torn_line(alloc: Global, place: usize) -> Result<String, AllocError>
    ensures { IfOk result (λ line. string_bytes line ≡ torn_line place) }
{
    format!(in alloc; "torn at byte {place}\n")
}

/// `head HEX at step N`.
fn head_line(alloc: Global, sum: u32, step: usize) -> Result<String, AllocError>
    ensures { IfOk result (λ line. string_bytes line ≡ head_line sum step) }
{
    let digits = hex::encode(alloc, sum.to_be_bytes())?;
    format!(in alloc; "head {digits} at step {step}\n")
}

/// A line for each client. Asks that the bus is booked by the log.
fn lines(alloc: Global, booked: &Booked, log: &PlainLog) -> Result<Vec<u8>, AllocError>
    requires { IsReplayOf log.now booked.now }
    ensures text { IfOk result (λ answer. answer.items ≡ audit_text log.now) }
{
    let mut text = Vec::new(alloc);
    for client in 0..log.units().len() {
        push_line(alloc, &mut text, booked, log, client)?;
    }
    Ok(text)
}

/// Adds a client's line.
fn push_line(
    alloc: Global,
    text: &mut Vec<u8>,
    booked: &Booked,
    log: &PlainLog,
    client: usize,
) -> Result<(), AllocError>
    requires replay { IsReplayOf log.now booked.now }
    requires client { client < length log.now.units }
    ensures text { OnOk result (text.new.items ≡ text.old.items ++ client_line log.now client) }
{
    let replies = replies_of(alloc, log.replies(), client)?;
    let told = is_true_of(alloc, booked, log, client, &replies)?;
    let line = line_of(alloc, client, replies.len(), told)?;
    text.extend_from_slice(line.as_bytes())
}

/// `client C replies R true`, or `false`.
fn line_of(alloc: Global, client: usize, count: usize, told: bool) -> Result<String, AllocError>
    ensures { told ≡ true → IfOk result (λ line. string_bytes line ≡ line_text client count) }
{
    if told {
        format!(in alloc; "client {client} replies {count} true\n")
    } else {
        format!(in alloc; "client {client} replies {count} false\n")
    }
}
