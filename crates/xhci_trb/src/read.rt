// From three words to a TRB, or the first fault.

ghost use Rattle.std.specs.Prelude.{◌≡◌, ◌≢◌, ◌+◌, ◌/◌, ◌%◌, ◌^◌, ◌<◌, ◌↔◌, IsTrue};
ghost use Rattle.xhci_trb.specs.Text.{bit, type_in, IsReading};

use crate::kinds::{COMMAND_EVENT, LINK, NORMAL, SET_DEQUEUE, STOP_ENDPOINT, TRANSFER_EVENT};
use crate::words::{Words, field};
use crate::{MAX_LENGTH, Trb, TrbFault, TrbFlags};

/// The TRB that three words hold beside their Cycle bit, or the first fault. A ring's items are read at each step, so the
/// two types that most of them have are read in place.
#[inline(always)]
pub(crate) fn read_trb(words: Words) -> Result<Trb, TrbFault>
    ensures { IsReading words result }
{
    let trb = match field(words.control, 10, 6) {
        NORMAL => read_normal(words)?,
        TRANSFER_EVENT => read_transfer_event(words)?,
        _ => read_other(words)?,
    };
    Ok(trb)
}

// A TRB that is neither a Normal nor a Transfer Event.
#[inline(never)]
fn read_other(words: Words) -> Result<Trb, TrbFault>
    requires no_normal { type_in words ≢ 1 }
    requires no_transfer_event { type_in words ≢ 32 }
    ensures { IsReading words result }
{
    match field(words.control, 10, 6) {
        LINK => read_link(words),
        STOP_ENDPOINT => read_stop_endpoint(words),
        SET_DEQUEUE => read_set_dequeue(words),
        COMMAND_EVENT => read_command_event(words),
        other => Err(TrbFault::UnknownType(other as u8)),
    }
}

#[inline(always)]
fn read_normal(words: Words) -> Result<Trb, TrbFault>
    requires { type_in words ≡ 1 }
    ensures { IsReading words result }
{
    let length = field(words.status, 0, 17);
    if length > MAX_LENGTH {
        return Err(TrbFault::LengthOver);
    }
    let target = words.status >> 22;
    if target != 0 || field(words.control, 7, 2) != 0 || words.control >> 16 != 0 {
        return Err(TrbFault::ReservedSet);
    }
    let low = field(words.control, 1, 6) as u8;
    let high = field(words.control, 9, 1) as u8;
    Ok(Trb::Normal {
        pointer: words.parameter,
        length,
        td_size: field(words.status, 17, 5) as u8,
        flags: TrbFlags(low + 64 * high),
    })
}

fn read_link(words: Words) -> Result<Trb, TrbFault>
    requires { type_in words ≡ 6 }
    ensures { IsReading words result }
{
    let control = words.control;
    if words.parameter % 16 != 0
        || words.status != 0
        || field(control, 2, 2) != 0
        || field(control, 6, 4) != 0
        || control >> 16 != 0
    {
        return Err(TrbFault::ReservedSet);
    }
    Ok(Trb::Link {
        pointer: words.parameter,
        toggle: is_set(control, 1),
        chain: is_set(control, 4),
        ioc: is_set(control, 5),
    })
}

fn read_stop_endpoint(words: Words) -> Result<Trb, TrbFault>
    requires { type_in words ≡ 15 }
    ensures { IsReading words result }
{
    if words.parameter != 0 || words.status != 0 || !is_clear_beside_endpoint(words.control) {
        return Err(TrbFault::ReservedSet);
    }
    Ok(Trb::StopEndpoint {
        endpoint: endpoint(words.control),
        slot: slot(words.control),
    })
}

fn read_set_dequeue(words: Words) -> Result<Trb, TrbFault>
    requires { type_in words ≡ 16 }
    ensures { IsReading words result }
{
    let low = (words.parameter % 16) as u32;
    if field(low, 1, 3) != 1
        || field(words.status, 0, 16) != 0
        || !is_clear_beside_endpoint(words.control)
    {
        return Err(TrbFault::ReservedSet);
    }
    Ok(Trb::SetDequeue {
        pointer: words.parameter - u64::from(low),
        cycle: is_set(low, 0),
        stream: (words.status >> 16) as u16,
        endpoint: endpoint(words.control),
        slot: slot(words.control),
    })
}

#[inline(always)]
fn read_transfer_event(words: Words) -> Result<Trb, TrbFault>
    requires { type_in words ≡ 32 }
    ensures { IsReading words result }
{
    if !is_clear_beside_endpoint(words.control) {
        return Err(TrbFault::ReservedSet);
    }
    Ok(Trb::TransferEvent {
        pointer: words.parameter,
        residual: field(words.status, 0, 24),
        code: (words.status >> 24) as u8,
        endpoint: endpoint(words.control),
        slot: slot(words.control),
    })
}

fn read_command_event(words: Words) -> Result<Trb, TrbFault>
    requires { type_in words ≡ 33 }
    ensures { IsReading words result }
{
    let control = words.control;
    if words.parameter % 16 != 0
        || field(words.status, 0, 24) != 0
        || field(control, 1, 9) != 0
        || field(control, 16, 8) != 0
    {
        return Err(TrbFault::ReservedSet);
    }
    Ok(Trb::CommandEvent {
        pointer: words.parameter,
        code: (words.status >> 24) as u8,
        slot: slot(control),
    })
}

// Control bits 9:1 and 23:21 are 0 in every TRB that names an endpoint.
fn is_clear_beside_endpoint(control: u32) -> bool
    ensures { IsTrue result ↔ (control / 2 % 2 ^ 9 + control / 2 ^ 21 % 2 ^ 3 ≡ 0) }
{
    field(control, 1, 9) == 0 && field(control, 21, 3) == 0
}

// The endpoint in control bits 20:16.
fn endpoint(control: u32) -> u8
    ensures { result ≡ control / 2 ^ 16 % 2 ^ 5 }
{
    field(control, 16, 5) as u8
}

// The slot in control bits 31:24.
fn slot(control: u32) -> u8
    ensures { result ≡ control / 2 ^ 24 }
{
    (control >> 24) as u8
}

fn is_set(word: u32, place: u32) -> bool
    requires { place < 31 }
    ensures { bit result ≡ word / 2 ^ place % 2 }
{
    field(word, place, 1) == 1
}
