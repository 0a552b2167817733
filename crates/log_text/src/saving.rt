//! A log, saved.
ghost use Rattle.std.specs.Prelude.{◌≡◌, ◌≤◌, ◌<◌, ◌^◌, ◌++◌, length, map, take, OnOk};
ghost use Rattle.std.specs.Io.KnownBytes.{Appends};
ghost use Rattle.std.specs.List.{AllByRecursion, flat_map};
ghost use Rattle.log_text.specs.declared.Version.{Version};
ghost use Rattle.log_text.specs.Kept.{IsSavable, kept, saved_log, version_with, with_client};
ghost use Rattle.log_text.specs.Text.{ReplyFits, StepFits, listed, log_text, reply_text, step_text};
ghost use Rattle.log_text.specs.Writing.{Wrote};

use crate::Version;
use crate::write_fields::put;
use crate::write_log::{put_header, put_units};
use crate::write_replies::put_reply;
use crate::write_steps::put_step;
use scsi_cmd::Reply;
use shared_machine::Step;
use std::io;
use std::io::Write;
use uas_log::Log;

/// The version whose clients have so many tags.
pub fn version_with(tags: usize) -> Version
    ensures { result ≡ version_with tags }
{
    if tags == 8 {
        Version::First
    } else {
        Version::Second
    }
}

/// How many steps weren't refused. Asks a refusal's number for each.
pub fn kept_count(steps: &[Step], refusals: &[u8]) -> usize
    requires { length refusals.now ≡ length steps.now }
    ensures { result ≡ length (kept steps.now refusals.now) }
{
    let mut count = 0;
    for (at, _) in steps.iter().enumerate() {
        if refusals[at] == 0 {
            count += 1;
        }
    }
    count
}

/// The steps that weren't refused, behind their count.
fn put_kept<W: Write>(out: &mut W, steps: &[Step], refusals: &[u8]) -> io::Result<()>
    requires told { length refusals.now ≡ length steps.now }
    requires few { length (kept steps.now refusals.now) < 2 ^ 32 }
    requires fit { AllByRecursion (StepFits Version.Second 31) (kept steps.now refusals.now) }
    ensures { OnOk result (Wrote W.contents out.old out.new (listed step_text (kept steps.now refusals.now))) }
{
    put(out, 4, kept_count(steps, refusals) as u64)?;
    for (at, step) in steps.iter().enumerate() {
        if refusals[at] == 0 {
            put_step(out, step)?;
        }
    }
    Ok(())
}

/// The replies behind their count, one by one with the client whose tag it brings back.
fn put_each<W: Write>(out: &mut W, tags: usize, replies: &[Reply]) -> io::Result<()>
    requires tags { 1 ≤ tags }
    requires few { length replies.now < 2 ^ 32 }
    requires fit { AllByRecursion (λ reply. ReplyFits 31 (with_client tags reply)) replies.now }
    ensures { OnOk result (Wrote W.contents out.old out.new (listed (λ reply. reply_text (with_client tags reply)) replies.now)) }
{
    put(out, 4, replies.len() as u64)?;
    for reply in replies {
        let client = usize::from(reply.tag()).saturating_sub(1) / tags;
        put_reply(out, client, reply)?;
    }
    Ok(())
}

/// The replies behind their count, as those of the clients whose tags they bring back.
fn put_taken<W: Write>(out: &mut W, tags: usize, replies: &[Reply]) -> io::Result<()>
    requires tags { 1 ≤ tags }
    requires few { length (map (with_client tags) replies.now) < 2 ^ 32 }
    requires fit { AllByRecursion (ReplyFits 31) (map (with_client tags) replies.now) }
    ensures { OnOk result (Wrote W.contents out.old out.new (listed reply_text (map (with_client tags) replies.now))) }
{
    put_each(out, tags, replies)
}

/// Writes a log's text: its units, the steps that weren't refused, and its replies. Asks a log within the limits of the version
/// whose clients have as many tags. A fault is the writer's, which may have got a beginning of the text.
pub fn save_log<W: Write>(log: &Log, out: &mut W) -> io::Result<()>
    requires { IsSavable log.now }
    ensures { OnOk result (Appends (W.contents out.old) (W.contents out.new) (log_text (saved_log log.now))) }
{
    put_header(out, version_with(log.tags))?;
    put_units(out, log.units.as_slice())?;
    put_kept(out, log.steps.as_slice(), log.refusals.as_slice())?;
    put_taken(out, log.tags, log.replies.as_slice())?;
    Ok(())
}
