//! The records of the steps behind a place.
ghost use Rattle.std.specs.Prelude.{◌≡◌, ◌+◌, ◌<◌, ◌≤◌, ◌++◌, ◌⊎◌, ◌&&◌, ◌↔◌, nat_lt, IfErr, IfOk, IsErr, IsErrOf, IsTrue, Ok, OnErr, OnOk, Some, [], false, true, length};
ghost use Rattle.log_records.specs.Records.{record_text, sum_after};
ghost use Rattle.log_text.specs.declared.Version.TheVariants.{Second};
ghost use Rattle.log_text.specs.Kept.{with_client};
ghost use Rattle.log_text.specs.Text.{ReplyFits, StepFits};
ghost use Rattle.kept_log.specs.declared.Entry.TheVariants.{Acted};
ghost use Rattle.kept_log.specs.Form.{entry_text, head_sum, head_text};
ghost use Rattle.log_keeper.specs.Entries.{Added, AllFit, AreUnits, FirstFits, OneMore, bare_entry, entries_behind, gives, records_behind, sum_behind};

use crate::{KeepFault, Place};
use kept_log::{is_take, write_head, write_refused, write_step, write_taken};
use log_limits::{are_units, reply_fits, step_fits};
use log_records::RecordFault;
use log_text::Version;
use scsi_cmd::Reply;
use shared_machine::Step;
use std::alloc::Global;
use uas_log::{FirstUnit, Log};
use uas_profile::{LEAST_TAGS, MOST_TAGS, most_clients};

/// Adds the head of a log to a text: the place behind it. `Limits` exactly where each client doesn't have 2 to 16 tags, a unit is past the
/// limits of a log's text, or there are none, or more than clients of so many tags can be; at a fault the text is as before.
pub fn begin(alloc: Global, log: &Log, text: &mut Vec<u8>) -> Result<Place, KeepFault>
    ensures text { OnOk result (text.new.items ≡ text.old.items ++ head_text log.now.tags log.now.units) }
    ensures place { IfOk result (λ place. place ≡ record { steps = 0; replies = 0; sum = head_sum log.now.tags log.now.units }) }
    ensures same { OnErr result (text.new.items ≡ text.old.items) }
    ensures units { OnOk result (AreUnits log.now.tags log.now.units) }
    ensures limits { IsErrOf result KeepFault.Limits ↔ (AreUnits log.now.tags log.now.units → ⊥) }
{
    let units = log.units.as_slice();
    if !units_fit(log.tags, units) {
        return Err(KeepFault::Limits);
    }
    match write_head(alloc, log.tags, units, text) {
        Ok(sum) => Ok(Place {
            steps: 0,
            replies: 0,
            sum,
        }),
        Err(_) => Err(KeepFault::NoMemory),
    }
}

/// Whether each client has 2 to 16 tags, and the logical units are within the limits of a log's text.
fn units_fit(tags: usize, units: &[FirstUnit]) -> bool
    ensures { IsTrue result ↔ AreUnits tags units.now }
{
    LEAST_TAGS <= tags && tags <= MOST_TAGS && are_units(most_clients(tags), units)
}

/// Adds the records of a log's steps behind a place to a text, and moves the place behind them. `Limits` where a step or a reply is past the
/// limits of a log's text; at a fault the steps before have their records, whole. Asks a log of at most 31 clients.
pub fn add_records(
    alloc: Global,
    log: &Log,
    place: &mut Place,
    text: &mut Vec<u8>,
) -> Result<(), KeepFault>
    requires few { length log.now.units ≤ 31 }
    requires tags { 1 ≤ log.now.tags }
    ensures all { OnOk result (text.new.items ≡ text.old.items ++ records_behind log.now place.old) }
    ensures fit { OnOk result (AllFit (length log.now.units) (entries_behind log.now place.old)) }
    ensures none { OnOk result (entries_behind log.now place.new ≡ []) }
    ensures sum { OnOk result (place.new.sum ≡ sum_behind log.now place.old) }
    ensures steps { OnOk result (place.new.steps ≡ place.old.steps + length (entries_behind log.now place.old)) }
    ensures added { Added log.now place.old text.old.items place.new text.new.items }
    ensures limits { IfErr result (λ fault. fault ≡ KeepFault.Limits → FirstFits (length log.now.units) (entries_behind log.now place.new) → ⊥) }
{
    let count = told_steps(log);
    while place.steps < count {
        add_next(alloc, log, place, text)?;
    }
    Ok(())
}

/// Adds the records of a log's steps behind a place to a text until it has so many bytes, and moves the place behind them: whether none is
/// left. At least one is added where any is left; else as [`add_records`].
pub fn add_some(
    alloc: Global,
    log: &Log,
    place: &mut Place,
    text: &mut Vec<u8>,
    enough: usize,
) -> Result<bool, KeepFault>
    requires few { length log.now.units ≤ 31 }
    requires tags { 1 ≤ log.now.tags }
    ensures added { Added log.now place.old text.old.items place.new text.new.items }
    ensures none { result ≡ Ok true → entries_behind log.now place.new ≡ [] }
    ensures enough { result ≡ Ok false → enough ≤ length text.new.items }
    ensures goes { result ≡ Ok false → place.old.steps < place.new.steps }
    ensures within { result ≡ Ok false → place.new.steps ≤ length log.now.steps }
    ensures limits { IfErr result (λ fault. fault ≡ KeepFault.Limits → FirstFits (length log.now.units) (entries_behind log.now place.new) → ⊥) }
{
    let told = told_steps(log);
    while place.steps < told {
        add_next(alloc, log, place, text)?;
        if text.len() >= enough {
            return Ok(false);
        }
    }
    Ok(true)
}

/// How many steps there are whose refusal's number is there too.
fn told_steps(log: &Log) -> usize
    ensures steps { result ≤ length log.now.steps }
    ensures refusals { result ≤ length log.now.refusals }
    ensures all { (result ≡ length log.now.steps) ⊎ (result ≡ length log.now.refusals) }
{
    if log.refusals.len() < log.steps.len() {
        log.refusals.len()
    } else {
        log.steps.len()
    }
}

/// Adds the record of the step at a place, and moves the place behind it. At a fault both are as before.
#[tactic(auto, using(crate::proofs::Behind::bare_more, crate::proofs::Behind::taken_more, crate::proofs::Behind::bare_limits, crate::proofs::Behind::taken_limits))]
fn add_next(
    alloc: Global,
    log: &Log,
    place: &mut Place,
    text: &mut Vec<u8>,
) -> Result<(), KeepFault>
    requires few { length log.now.units ≤ 31 }
    requires tags { 1 ≤ log.now.tags }
    requires steps { place.old.steps < length log.now.steps }
    requires refusals { place.old.steps < length log.now.refusals }
    ensures one { OnOk result (OneMore log.now place.old text.old.items place.new text.new.items) }
    ensures count { OnOk result (place.new.steps ≡ place.old.steps + 1) }
    ensures place { OnErr result (place.new ≡ place.old) }
    ensures text { OnErr result (text.new.items ≡ text.old.items) }
    ensures limits { IfErr result (λ fault. fault ≡ KeepFault.Limits → FirstFits (length log.now.units) (entries_behind log.now place.old) → ⊥) }
{
    let step = &log.steps.as_slice()[place.steps];
    let number = log.refusals.as_slice()[place.steps];
    let clients = log.units.len();
    if has_reply(number, step, place.replies, log.replies.len()) {
        let reply = &log.replies.as_slice()[place.replies];
        let sum = add_taken(alloc, clients, log.tags, step, reply, place.sum, text)?;
        *place = Place {
            steps: place.steps + 1,
            replies: place.replies + 1,
            sum,
        };
        return Ok(());
    }
    let sum = add_bare(alloc, clients, step, number, place.sum, text)?;
    *place = Place {
        steps: place.steps + 1,
        replies: place.replies,
        sum,
    };
    Ok(())
}

/// Whether a step gave the reply at a place, of so many.
fn has_reply(number: u8, step: &Step, at: usize, count: usize) -> bool
    ensures { result ≡ (gives number step.now && nat_lt at count) }
{
    number == 0 && is_take(step) && at < count
}

/// Adds the record of a Take and the reply that it gave.
#[tactic(auto, using(crate::proofs::Wider::step_fits_more, crate::proofs::Wider::reply_fits_more))]
fn add_taken(
    alloc: Global,
    clients: usize,
    tags: usize,
    step: &Step,
    reply: &Reply,
    before: u32,
    text: &mut Vec<u8>,
) -> Result<u32, KeepFault>
    requires clients { clients ≤ 31 }
    requires tags { 1 ≤ tags }
    ensures text { OnOk result (text.new.items ≡ text.old.items ++ record_text before (entry_text (Acted step.now (Some (with_client tags reply.now))))) }
    ensures sum { IfOk result (λ sum. sum ≡ sum_after before (entry_text (Acted step.now (Some (with_client tags reply.now))))) }
    ensures fits { OnOk result (StepFits Second clients step.now × ReplyFits clients (with_client tags reply.now)) }
    ensures same { OnErr result (text.new.items ≡ text.old.items) }
    ensures limits { IfErr result (λ fault. fault ≡ KeepFault.Limits → StepFits Second clients step.now → ReplyFits clients (with_client tags reply.now) → ⊥) }
{
    if !step_fits(Version::Second, clients, step) || !reply_fits(clients, tags, reply) {
        return Err(KeepFault::Limits);
    }
    let client = usize::from(reply.tag()).saturating_sub(1) / tags;
    told(write_taken(alloc, step, client, reply, before, text))
}

/// Adds the record of a step without a reply; of a refused one where its refusal has a number.
#[tactic(auto, using(crate::proofs::Wider::step_fits_more))]
fn add_bare(
    alloc: Global,
    clients: usize,
    step: &Step,
    number: u8,
    before: u32,
    text: &mut Vec<u8>,
) -> Result<u32, KeepFault>
    requires { clients ≤ 31 }
    ensures text { OnOk result (text.new.items ≡ text.old.items ++ record_text before (entry_text (bare_entry number step.now))) }
    ensures sum { IfOk result (λ sum. sum ≡ sum_after before (entry_text (bare_entry number step.now))) }
    ensures fits { OnOk result (StepFits Second clients step.now) }
    ensures same { OnErr result (text.new.items ≡ text.old.items) }
    ensures limits { IfErr result (λ fault. fault ≡ KeepFault.Limits → StepFits Second clients step.now → ⊥) }
{
    if !step_fits(Version::Second, clients, step) {
        return Err(KeepFault::Limits);
    }
    if number == 0 {
        return told(write_step(alloc, step, before, text));
    }
    told(write_refused(alloc, step, number, before, text))
}

/// What a writer of a record answers. No record is too long: what fits is far shorter.
fn told(written: Result<u32, RecordFault>) -> Result<u32, KeepFault>
    ensures ok { IfOk result (λ sum. written ≡ Ok sum) }
    ensures err { IfErr result (λ fault. IsErr written × (fault ≡ KeepFault.NoMemory)) }
{
    match written {
        Ok(sum) => Ok(sum),
        Err(RecordFault::TooLong | RecordFault::NoMemory) => Err(KeepFault::NoMemory),
    }
}
