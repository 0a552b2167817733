//! The text of what a line tells.

ghost use Rattle.std.specs.Prelude.{◌≡◌, ◌++◌, IfOk, OnOk};
ghost use Rattle.uas_decode.specs.Printed.{answer_words, answered, at_words, context_words, doorbell_words, is_refused, meaning_words, refusal_words, target_words};

use crate::lines::answer_of;
use crate::named::{named_at, push_named};
use crate::{Answer, Meaning, Refusal};
use std::alloc::AllocError;
use stream_array::Dequeue;

mod host;
mod names;
mod numbers;
mod pointers;
mod trbs;
mod units;

use host::push_host;
use names::{door_name, line_fault_name, trb_fault_name, unit_fault_name};
use numbers::push_number;
use pointers::push_pointer;
use trbs::{bit, push_trb};
use units::{push_op, push_sense, push_unit};

/// Adds a line, with what it tells behind it, and answers whether it was refused.
#[tactic(auto, unfolding(crate::specs::Printed::answered, crate::specs::Printed::is_refused))]
pub(crate) fn push_answered(text: &mut Vec<u8>, line: &[u8]) -> Result<bool, AllocError>
    ensures text { OnOk result (text.new.items ≡ text.old.items ++ answered line.now) }
    ensures refused { IfOk result (λ refused. refused ≡ is_refused line.now) }
{
    text.extend_from_slice(line)?;
    match answer_of(*text.allocator(), line)? {
        None => Ok(false),
        Some(Ok(answer)) => {
            text.extend_from_slice(b"  ; ")?;
            push_answer(text, &answer)?;
            Ok(false)
        }
        Some(Err(refusal)) => {
            text.extend_from_slice(b"  ; ")?;
            push_refusal(text, &refusal)?;
            Ok(true)
        }
    }
}

/// Adds a meaning, and the name of the address that it stands at.
#[tactic(auto, unfolding(crate::specs::Printed::answer_words))]
fn push_answer(text: &mut Vec<u8>, answer: &Answer) -> Result<(), AllocError>
    ensures { OnOk result (text.new.items ≡ text.old.items ++ answer_words answer.now) }
{
    push_meaning(text, &answer.meaning)?;
    push_at(text, answer.address)
}

/// Adds ` at NAME`, where there is an address and it has one.
#[tactic(auto, unfolding(crate::specs::Printed::at_words))]
fn push_at(text: &mut Vec<u8>, address: Option<u64>) -> Result<(), AllocError>
    ensures { OnOk result (text.new.items ≡ text.old.items ++ at_words address) }
{
    let Some(address) = address else {
        return Ok(());
    };
    let Some(named) = named_at(address) else {
        return Ok(());
    };
    text.extend_from_slice(b" at ")?;
    push_named(text, &named)
}

#[tactic(auto, unfolding(crate::specs::Printed::meaning_words))]
fn push_meaning(text: &mut Vec<u8>, meaning: &Meaning) -> Result<(), AllocError>
    ensures { OnOk result (text.new.items ≡ text.old.items ++ meaning_words meaning.now) }
{
    match meaning {
        Meaning::Unit(unit) => push_unit(text, unit),
        Meaning::Trb { trb, cycle } => push_trb(text, trb, *cycle),
        Meaning::Context(entry) => push_context(text, entry),
        Meaning::Doorbell { target, stream } => push_doorbell(text, *target, *stream),
        Meaning::Cdb(op) => {
            text.extend_from_slice(b"CDB: ")?;
            push_op(text, op)
        }
        Meaning::HostCdb { command, work } => {
            text.extend_from_slice(b"CDB: ")?;
            push_host(text, *command, work)
        }
        Meaning::Sense(sense) => {
            text.extend_from_slice(b"Sense: ")?;
            push_sense(text, sense)
        }
    }
}

/// Adds the text of a stream context.
#[tactic(auto, unfolding(crate::specs::Printed::context_words, crate::specs::Printed::dcs_words))]
fn push_context(text: &mut Vec<u8>, entry: &Option<Dequeue>) -> Result<(), AllocError>
    ensures { OnOk result (text.new.items ≡ text.old.items ++ context_words entry.now) }
{
    let Some(dequeue) = entry else {
        return text.extend_from_slice(b"Stream Context: no ring");
    };
    text.extend_from_slice(b"Stream Context:")?;
    push_pointer(text, dequeue.pointer)?;
    push_number(text, " dcs ", bit(dequeue.cycle))
}

/// Adds the text of a doorbell.
#[tactic(auto, unfolding(crate::specs::Printed::doorbell_words, crate::specs::Printed::stream_words))]
fn push_doorbell(text: &mut Vec<u8>, target: u8, stream: u16) -> Result<(), AllocError>
    ensures { OnOk result (text.new.items ≡ text.old.items ++ doorbell_words target stream) }
{
    push_target(text, target)?;
    text.extend_from_slice(door_name(target).as_bytes())?;
    push_number(text, " stream ", u64::from(stream))
}

/// Adds the target of a doorbell.
#[tactic(auto, unfolding(crate::specs::Printed::target_words))]
fn push_target(text: &mut Vec<u8>, target: u8) -> Result<(), AllocError>
    ensures { OnOk result (text.new.items ≡ text.old.items ++ target_words target) }
{
    let words = format!(in *text.allocator(); "Doorbell: target {target}")?;
    text.extend_from_slice(words.as_bytes())
}

/// Adds the name of a refusal.
#[tactic(auto, unfolding(crate::specs::Printed::refusal_words))]
fn push_refusal(text: &mut Vec<u8>, refusal: &Refusal) -> Result<(), AllocError>
    ensures { OnOk result (text.new.items ≡ text.old.items ++ refusal_words refusal.now) }
{
    text.extend_from_slice(b"refused: ")?;
    match refusal {
        Refusal::Line(fault) => text.extend_from_slice(line_fault_name(*fault).as_bytes()),
        Refusal::Trb(fault) => text.extend_from_slice(trb_fault_name(*fault).as_bytes()),
        Refusal::Unit(fault) => text.extend_from_slice(unit_fault_name(*fault).as_bytes()),
        Refusal::Cdb(sense) => push_sense(text, sense),
    }
}
