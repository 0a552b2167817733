//! The text of a TRB.

ghost use Rattle.std.specs.Prelude.{◌≡◌, ◌++◌, OnOk};
ghost use Rattle.xhci_trb.specs.Text.{bit};
ghost use Rattle.uas_decode.specs.Printed.{code_words, command_event_words, endpoint_words, field_words, flag_word, flags_words};
ghost use Rattle.uas_decode.specs.Printed.{link_words, normal_words, set_dequeue_words, transfer_event_words, trb_words, type_name};

use super::names::code_name;
use super::numbers::push_number;
use super::pointers::{push_digits, push_pointer};
use std::alloc::AllocError;
use xhci_trb::{Trb, TrbFlags};

/// A bit as a number.
pub(crate) fn bit(is_set: bool) -> u64
    ensures { result ≡ bit is_set }
{
    if is_set { 1 } else { 0 }
}

/// Adds the text of a TRB and its Cycle bit.
#[tactic(auto, unfolding(crate::specs::Printed::trb_words, crate::specs::Printed::cycle_words))]
pub(crate) fn push_trb(text: &mut Vec<u8>, trb: &Trb, cycle: bool) -> Result<(), AllocError>
    ensures { OnOk result (text.new.items ≡ text.old.items ++ trb_words trb.now cycle) }
{
    text.extend_from_slice(type_name(trb).as_bytes())?;
    push_fields(text, trb)?;
    push_number(text, " cycle ", bit(cycle))
}

/// The name of a TRB's type (xHCI 1.2, 6.4.6).
#[tactic(auto, unfolding(crate::specs::Printed::type_name))]
fn type_name(trb: &Trb) -> &'static str
    ensures { result.now ≡ type_name trb.now }
{
    match trb {
        Trb::Normal { .. } => "Normal TRB:",
        Trb::Link { .. } => "Link TRB:",
        Trb::StopEndpoint { .. } => "Stop Endpoint:",
        Trb::SetDequeue { .. } => "Set TR Dequeue Pointer:",
        Trb::TransferEvent { .. } => "Transfer Event:",
        Trb::CommandEvent { .. } => "Command Completion Event:",
    }
}

/// Adds a TRB's fields, without its Cycle bit.
#[tactic(auto, unfolding(crate::specs::Printed::field_words))]
fn push_fields(text: &mut Vec<u8>, trb: &Trb) -> Result<(), AllocError>
    ensures { OnOk result (text.new.items ≡ text.old.items ++ field_words trb.now) }
{
    match *trb {
        Trb::Normal {
            pointer,
            length,
            td_size,
            flags,
        } => push_normal(text, pointer, length, td_size, flags),
        Trb::Link {
            pointer,
            toggle,
            chain,
            ioc,
        } => push_link(text, pointer, toggle, chain, ioc),
        Trb::StopEndpoint { endpoint, slot } => push_endpoint(text, endpoint, slot),
        Trb::SetDequeue {
            pointer,
            cycle,
            stream,
            endpoint,
            slot,
        } => push_set_dequeue(text, pointer, cycle, stream, endpoint, slot),
        Trb::TransferEvent {
            pointer,
            residual,
            code,
            endpoint,
            slot,
        } => push_transfer_event(text, pointer, residual, code, endpoint, slot),
        Trb::CommandEvent {
            pointer,
            code,
            slot,
        } => push_command_event(text, pointer, code, slot),
    }
}

#[tactic(auto, unfolding(crate::specs::Printed::normal_words, crate::specs::Printed::length_words))]
fn push_normal(
    text: &mut Vec<u8>,
    pointer: u64,
    length: u32,
    td_size: u8,
    flags: TrbFlags,
) -> Result<(), AllocError>
    ensures { OnOk result (text.new.items ≡ text.old.items ++ normal_words pointer length td_size flags) }
{
    push_digits(text, pointer)?;
    push_number(text, " length ", u64::from(length))?;
    push_number(text, " td-size ", u64::from(td_size))?;
    push_flags(text, flags)
}

/// Adds the names of the flags that are set, each behind a space.
#[tactic(auto, unfolding(crate::specs::Printed::flags_words))]
fn push_flags(text: &mut Vec<u8>, flags: TrbFlags) -> Result<(), AllocError>
    ensures { OnOk result (text.new.items ≡ text.old.items ++ flags_words flags.0) }
{
    push_flag(text, flags.0 % 2 == 1, " ENT")?;
    push_flag(text, flags.0 / 2 % 2 == 1, " ISP")?;
    push_flag(text, flags.0 / 4 % 2 == 1, " NS")?;
    push_flag(text, flags.0 / 8 % 2 == 1, " CH")?;
    push_flag(text, flags.0 / 16 % 2 == 1, " IOC")?;
    push_flag(text, flags.0 / 32 % 2 == 1, " IDT")?;
    push_flag(text, flags.0 / 64 % 2 == 1, " BEI")
}

/// Adds a name where its bit is set.
fn push_flag(text: &mut Vec<u8>, is_set: bool, name: &str) -> Result<(), AllocError>
    ensures { OnOk result (text.new.items ≡ text.old.items ++ flag_word is_set name.now) }
{
    if is_set {
        text.extend_from_slice(name.as_bytes())
    } else {
        Ok(())
    }
}

#[tactic(auto, unfolding(crate::specs::Printed::link_words))]
fn push_link(
    text: &mut Vec<u8>,
    pointer: u64,
    toggle: bool,
    chain: bool,
    ioc: bool,
) -> Result<(), AllocError>
    ensures { OnOk result (text.new.items ≡ text.old.items ++ link_words pointer toggle chain ioc) }
{
    push_pointer(text, pointer)?;
    push_flag(text, toggle, " TC")?;
    push_flag(text, chain, " CH")?;
    push_flag(text, ioc, " IOC")
}

/// Adds ` endpoint E slot S`.
#[tactic(auto, unfolding(crate::specs::Printed::endpoint_words))]
fn push_endpoint(text: &mut Vec<u8>, endpoint: u8, slot: u8) -> Result<(), AllocError>
    ensures { OnOk result (text.new.items ≡ text.old.items ++ endpoint_words endpoint slot) }
{
    push_number(text, " endpoint ", u64::from(endpoint))?;
    push_number(text, " slot ", u64::from(slot))
}

#[tactic(auto, unfolding(crate::specs::Printed::set_dequeue_words, crate::specs::Printed::dcs_words, crate::specs::Printed::stream_words))]
fn push_set_dequeue(
    text: &mut Vec<u8>,
    pointer: u64,
    cycle: bool,
    stream: u16,
    endpoint: u8,
    slot: u8,
) -> Result<(), AllocError>
    ensures { OnOk result (text.new.items ≡ text.old.items ++ set_dequeue_words pointer cycle stream endpoint slot) }
{
    push_pointer(text, pointer)?;
    push_number(text, " dcs ", bit(cycle))?;
    push_number(text, " stream ", u64::from(stream))?;
    push_endpoint(text, endpoint, slot)
}

/// Adds a space and the name of a completion code, or the code where it has none.
#[tactic(auto, unfolding(crate::specs::Printed::code_words))]
fn push_code(text: &mut Vec<u8>, code: u8) -> Result<(), AllocError>
    ensures { OnOk result (text.new.items ≡ text.old.items ++ code_words code) }
{
    let words = match code_name(code) {
        Some(name) => format!(in *text.allocator(); " {name}")?,
        None => format!(in *text.allocator(); " code {code}")?,
    };
    text.extend_from_slice(words.as_bytes())
}

#[tactic(auto, unfolding(crate::specs::Printed::transfer_event_words, crate::specs::Printed::residual_words))]
fn push_transfer_event(
    text: &mut Vec<u8>,
    pointer: u64,
    residual: u32,
    code: u8,
    endpoint: u8,
    slot: u8,
) -> Result<(), AllocError>
    ensures { OnOk result (text.new.items ≡ text.old.items ++ transfer_event_words pointer residual code endpoint slot) }
{
    push_pointer(text, pointer)?;
    push_code(text, code)?;
    push_number(text, " residual ", u64::from(residual))?;
    push_endpoint(text, endpoint, slot)
}

#[tactic(auto, unfolding(crate::specs::Printed::command_event_words, crate::specs::Printed::slot_words))]
fn push_command_event(
    text: &mut Vec<u8>,
    pointer: u64,
    code: u8,
    slot: u8,
) -> Result<(), AllocError>
    ensures { OnOk result (text.new.items ≡ text.old.items ++ command_event_words pointer code slot) }
{
    push_pointer(text, pointer)?;
    push_code(text, code)?;
    push_number(text, " slot ", u64::from(slot))
}
