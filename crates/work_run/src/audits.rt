//! The audits of the clients, and how they are told.

ghost use Rattle.std.specs.Prelude.{◌≡◌, ◌≤◌, ◌<◌, ◌++◌, IfOk, OnOk, length};
ghost use Rattle.uas_profile.specs.declared.TheConstants.{MAX_CLIENTS};
ghost use Rattle.uas_log.specs.Booking.{IsReplay};
ghost use Rattle.uas_work.specs.Rounds.{IsDepth};
ghost use Rattle.work_run.specs.Audits.{AreAudits, IsToldOf, all_true, audit_line, audit_text};

use log_audit::{audit, planned};
use scsi_cmd::Reply;
use std::alloc::{AllocError, Global};
use uas_log::{Log, Replies};

/// Whether each client's audit is true, by number: of what it was to submit in so many rounds, so many commands at a time, and of the
/// replies that it holds. Asks a log that is true.
pub(crate) fn audits_of(
    alloc: Global,
    log: &Log,
    depth: usize,
    rounds: u32,
    replies: &[Replies],
) -> Result<Vec<bool>, AllocError>
    requires replay { IsReplay log.now }
    requires depth { IsDepth log.now.tags depth }
    requires few { length replies.now ≤ MAX_CLIENTS }
    ensures { IfOk result (λ audits. AreAudits log.now depth rounds replies.now audits.items) }
{
    let mut audits = Vec::new(alloc);
    for client in 0..replies.len() {
        let told = is_audited(
            alloc,
            log,
            depth,
            rounds,
            client,
            replies[client].as_slice(),
        )?;
        audits.push(told)?;
    }
    Ok(audits)
}

/// Whether a client's audit is true. That of a client whom the log doesn't have is false.
fn is_audited(
    alloc: Global,
    log: &Log,
    depth: usize,
    rounds: u32,
    client: usize,
    replies: &[Reply],
) -> Result<bool, AllocError>
    requires replay { IsReplay log.now }
    requires depth { IsDepth log.now.tags depth }
    requires client { client < MAX_CLIENTS }
    ensures { IfOk result (IsToldOf log.now depth rounds client replies.now) }
{
    if client >= log.units.len() {
        return Ok(false);
    }
    let sent = planned(alloc, log.tags, depth, client, rounds)?;
    audit(alloc, log, client, &sent, replies)
}

/// Whether each audit is true.
pub(crate) fn all_true(audits: &[bool]) -> bool
    ensures { result ≡ all_true audits.now }
{
    audits.iter().all(|told| *told)
}

/// Adds the lines of all clients' audits.
pub(crate) fn push_audits(
    alloc: Global,
    text: &mut Vec<u8>,
    audits: &[bool],
) -> Result<(), AllocError>
    ensures { OnOk result (text.new.items ≡ text.old.items ++ audit_text audits.now) }
{
    for client in 0..audits.len() {
        push_audit(alloc, text, client, audits[client])?;
    }
    Ok(())
}

/// Adds `audit C true`, or `audit C false`.
fn push_audit(
    alloc: Global,
    text: &mut Vec<u8>,
    client: usize,
    told: bool,
) -> Result<(), AllocError>
    ensures { OnOk result (text.new.items ≡ text.old.items ++ audit_line client told) }
{
    let line = if told {
        format!(in alloc; "audit {client} true\n")?
    } else {
        format!(in alloc; "audit {client} false\n")?
    };
    text.extend_from_slice(line.as_bytes())
}
