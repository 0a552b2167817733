//! The parts of a log's text, which wait for their sink until there is a piece of them.
ghost use Rattle.std.specs.Prelude.{◌≡◌, ◌≤◌, ◌<◌, ◌^◌, ◌++◌, [], Err, IsTrue, OnOk, length, map};
ghost use Rattle.std.specs.Io.KnownBytes.{Appends};
ghost use Rattle.std.specs.List.{AllByRecursion, flat_map};
ghost use Rattle.log_text.specs.declared.Version.TheVariants.{Second};
ghost use Rattle.log_text.specs.Kept.{IsSavable, kept, version_with, with_client};
ghost use Rattle.log_text.specs.Text.{ReplyFits, StepFits, field, header_text, listed, reply_text, step_text, unit_text};
ghost use Rattle.log_file.specs.Pieces.{Gave};

use byte_io::{Sink, StreamFault};
use log_text::{kept_count, put, put_header, put_reply, put_step, put_units, version_with};
use scsi_cmd::Reply;
use shared_machine::Step;
use uas_log::Log;

/// How many bytes go out at once, or more.
pub(crate) const PIECE_BYTES: usize = 65_536;

/// Gives what stands before the steps: the header and the units.
pub(crate) fn give_front<O: Sink>(
    log: &Log,
    waiting: &mut Vec<u8>,
    out: &mut O,
) -> Result<(), StreamFault>
    requires { IsSavable log.now }
    ensures text { OnOk result (Gave O.written out.old waiting.old.items out.new waiting.new.items
        (header_text (version_with log.now.tags) ++ (field 1 (length log.now.units) ++ flat_map unit_text log.now.units))) }
    ensures fault { result ≡ Err StreamFault.File → IsTrue (O.can_fail out.old) }
    ensures same { O.can_fail out.new ≡ O.can_fail out.old }
    ensures stays { O.is_there out.new ≡ O.is_there out.old }
    ensures file { O.is_of out.new ≡ O.is_of out.old }
{
    put_header(waiting, version_with(log.tags)).map_err(|_| StreamFault::NoMemory)?;
    put_units(waiting, log.units.as_slice()).map_err(|_| StreamFault::NoMemory)?;
    give(waiting, out)
}

/// Gives the steps that weren't refused, behind their count.
pub(crate) fn give_steps<O: Sink>(
    steps: &[Step],
    refusals: &[u8],
    waiting: &mut Vec<u8>,
    out: &mut O,
) -> Result<(), StreamFault>
    requires told { length refusals.now ≡ length steps.now }
    requires few { length (kept steps.now refusals.now) < 2 ^ 32 }
    requires fit { AllByRecursion (StepFits Second 31) (kept steps.now refusals.now) }
    ensures text { OnOk result (Gave O.written out.old waiting.old.items out.new waiting.new.items (listed step_text (kept steps.now refusals.now))) }
    ensures fault { result ≡ Err StreamFault.File → IsTrue (O.can_fail out.old) }
    ensures same { O.can_fail out.new ≡ O.can_fail out.old }
    ensures stays { O.is_there out.new ≡ O.is_there out.old }
    ensures file { O.is_of out.new ≡ O.is_of out.old }
{
    put(waiting, 4, kept_count(steps, refusals) as u64).map_err(|_| StreamFault::NoMemory)?;
    for (at, step) in steps.iter().enumerate() {
        if refusals[at] == 0 {
            give_step(step, waiting, out)?;
        }
    }
    Ok(())
}

fn give_step<O: Sink>(step: &Step, waiting: &mut Vec<u8>, out: &mut O) -> Result<(), StreamFault>
    requires { StepFits Second 31 step.now }
    ensures text { OnOk result (Gave O.written out.old waiting.old.items out.new waiting.new.items (step_text step.now)) }
    ensures fault { result ≡ Err StreamFault.File → IsTrue (O.can_fail out.old) }
    ensures same { O.can_fail out.new ≡ O.can_fail out.old }
    ensures stays { O.is_there out.new ≡ O.is_there out.old }
    ensures file { O.is_of out.new ≡ O.is_of out.old }
{
    put_step(waiting, step).map_err(|_| StreamFault::NoMemory)?;
    give(waiting, out)
}

/// Gives the replies behind their count, each as one of the client whose tag it brings back.
pub(crate) fn give_replies<O: Sink>(
    tags: usize,
    replies: &[Reply],
    waiting: &mut Vec<u8>,
    out: &mut O,
) -> Result<(), StreamFault>
    requires tags { 1 ≤ tags }
    requires few { length replies.now < 2 ^ 32 }
    requires fit { AllByRecursion (λ reply. ReplyFits 31 (with_client tags reply)) replies.now }
    ensures text { OnOk result (Gave O.written out.old waiting.old.items out.new waiting.new.items
        (listed (λ reply. reply_text (with_client tags reply)) replies.now)) }
    ensures fault { result ≡ Err StreamFault.File → IsTrue (O.can_fail out.old) }
    ensures same { O.can_fail out.new ≡ O.can_fail out.old }
    ensures stays { O.is_there out.new ≡ O.is_there out.old }
    ensures file { O.is_of out.new ≡ O.is_of out.old }
{
    put(waiting, 4, replies.len() as u64).map_err(|_| StreamFault::NoMemory)?;
    for reply in replies {
        give_reply(tags, reply, waiting, out)?;
    }
    Ok(())
}

fn give_reply<O: Sink>(
    tags: usize,
    reply: &Reply,
    waiting: &mut Vec<u8>,
    out: &mut O,
) -> Result<(), StreamFault>
    requires tags { 1 ≤ tags }
    requires fits { ReplyFits 31 (with_client tags reply.now) }
    ensures text { OnOk result (Gave O.written out.old waiting.old.items out.new waiting.new.items (reply_text (with_client tags reply.now))) }
    ensures fault { result ≡ Err StreamFault.File → IsTrue (O.can_fail out.old) }
    ensures same { O.can_fail out.new ≡ O.can_fail out.old }
    ensures stays { O.is_there out.new ≡ O.is_there out.old }
    ensures file { O.is_of out.new ≡ O.is_of out.old }
{
    let client = usize::from(reply.tag()).saturating_sub(1) / tags;
    put_reply(waiting, client, reply).map_err(|_| StreamFault::NoMemory)?;
    give(waiting, out)
}

/// Writes the bytes that wait once there are enough for a piece.
fn give<O: Sink>(waiting: &mut Vec<u8>, out: &mut O) -> Result<(), StreamFault>
    ensures text { OnOk result (Gave O.written out.old waiting.old.items out.new waiting.new.items []) }
    ensures fault { result ≡ Err StreamFault.File → IsTrue (O.can_fail out.old) }
    ensures same { O.can_fail out.new ≡ O.can_fail out.old }
    ensures stays { O.is_there out.new ≡ O.is_there out.old }
    ensures file { O.is_of out.new ≡ O.is_of out.old }
{
    if waiting.len() < PIECE_BYTES {
        return Ok(());
    }
    write_waiting(waiting, out)
}

/// Writes the bytes that wait.
pub(crate) fn write_waiting<O: Sink>(waiting: &mut Vec<u8>, out: &mut O) -> Result<(), StreamFault>
    ensures text { OnOk result (Appends (O.written out.old) (O.written out.new) waiting.old.items) }
    ensures none { OnOk result (waiting.new.items ≡ []) }
    ensures there { OnOk result (IsTrue (O.is_there out.old)) }
    ensures fault { result ≡ Err StreamFault.File → IsTrue (O.can_fail out.old) }
    ensures same { O.can_fail out.new ≡ O.can_fail out.old }
    ensures stays { O.is_there out.new ≡ O.is_there out.old }
    ensures file { O.is_of out.new ≡ O.is_of out.old }
{
    out.write(waiting)?;
    waiting.clear();
    Ok(())
}
