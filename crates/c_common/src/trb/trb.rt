//! The record of a TRB, both ways (xHCI 1.2, 6.4).
ghost use Rattle.std.specs.Prelude.{◌≡◌, ◌==◌, OnOk, IfOk, IfErr, IsTrue, Some};
ghost use Rattle.xhci_trb.specs.Text.{HasText};
ghost use Rattle.c_common.specs.declared.faults.TheConstants.{TRB_UNFIT, TRB_UNKNOWN_TYPE};
ghost use Rattle.c_common.specs.trb.RecordFault.{record_fault};
ghost use Rattle.c_common.specs.trb.TrbRecord.{bits_fit, is_bit, named_trb, numbers_fit, read_fault, trb_fields, trb_record, write_fault};

use crate::faults::{TRB_LENGTH_OVER, TRB_RESERVED_SET, TRB_UNKNOWN_TYPE};
use crate::trb::fault::RecordFault;
use xhci_trb::{MAX_LENGTH, Trb, TrbFault, TrbFlags};

const NORMAL: u8 = 1;

const LINK: u8 = 6;

const STOP_ENDPOINT: u8 = 15;

const SET_DEQUEUE: u8 = 16;

const TRANSFER_EVENT: u8 = 32;

const COMMAND_EVENT: u8 = 33;

/// A TRB as C has it. A field that its type hasn't is 0 where it is written, and isn't looked at where it is read.
#[repr(C)]
#[derive(Clone, Copy)]
pub struct UasTrb {
    /// Of all but Stop Endpoint.
    pub pointer: u64,
    /// Normal: bytes, at most 65,536. Transfer Event: the bytes that were not moved.
    pub length: u32,
    /// Set TR Dequeue Pointer.
    pub stream: u16,
    /// The TRB type (6.4.6).
    pub kind: u8,
    /// The Cycle bit, 0 or 1.
    pub cycle: u8,
    /// Normal: TD Size.
    pub td_size: u8,
    /// Normal: the flags, as in `TrbFlags`.
    pub flags: u8,
    /// Link: Toggle Cycle, 0 or 1.
    pub toggle: u8,
    /// Link: Chain, 0 or 1.
    pub chain: u8,
    /// Link: Interrupt On Completion, 0 or 1.
    pub ioc: u8,
    /// Set TR Dequeue Pointer: DCS, 0 or 1.
    pub dequeue_cycle: u8,
    /// The endpoint ID of the commands and of Transfer Event.
    pub endpoint: u8,
    /// The slot of the commands and of both events.
    pub slot: u8,
    /// The completion code of both events.
    pub code: u8,
    /// 0 where it is written, and isn't looked at where it is read.
    pub reserved: [u8; 7],
}

/// Every field 0.
const EMPTY: UasTrb = UasTrb {
    pointer: 0,
    length: 0,
    stream: 0,
    kind: 0,
    cycle: 0,
    td_size: 0,
    flags: 0,
    toggle: 0,
    chain: 0,
    ioc: 0,
    dequeue_cycle: 0,
    endpoint: 0,
    slot: 0,
    code: 0,
    reserved: [0; 7],
};

/// The number of a fault of reading 16 bytes.
pub fn fault_number(fault: &TrbFault) -> u8
    ensures { result ≡ read_fault (Some fault.now) }
{
    match fault {
        TrbFault::UnknownType(_) => TRB_UNKNOWN_TYPE,
        TrbFault::LengthOver => TRB_LENGTH_OVER,
        TrbFault::ReservedSet => TRB_RESERVED_SET,
    }
}

/// The TRB that a record names by its type.
fn named(fields: &UasTrb) -> Option<Trb>
    ensures { result ≡ named_trb fields.now }
{
    let r = *fields;
    match r.kind {
        NORMAL => Some(Trb::Normal {
            pointer: r.pointer,
            length: r.length,
            td_size: r.td_size,
            flags: TrbFlags(r.flags),
        }),
        LINK => Some(Trb::Link {
            pointer: r.pointer,
            toggle: r.toggle == 1,
            chain: r.chain == 1,
            ioc: r.ioc == 1,
        }),
        STOP_ENDPOINT => Some(Trb::StopEndpoint {
            endpoint: r.endpoint,
            slot: r.slot,
        }),
        SET_DEQUEUE => Some(Trb::SetDequeue {
            pointer: r.pointer,
            cycle: r.dequeue_cycle == 1,
            stream: r.stream,
            endpoint: r.endpoint,
            slot: r.slot,
        }),
        TRANSFER_EVENT => Some(Trb::TransferEvent {
            pointer: r.pointer,
            residual: r.length,
            code: r.code,
            endpoint: r.endpoint,
            slot: r.slot,
        }),
        COMMAND_EVENT => Some(Trb::CommandEvent {
            pointer: r.pointer,
            code: r.code,
            slot: r.slot,
        }),
        _ => None,
    }
}

fn is_bit(byte: u8) -> bool
    ensures { result ≡ is_bit byte }
{
    byte < 2
}

/// Whether each byte of a record that says yes or no is 0 or 1.
fn bits_fit(fields: &UasTrb) -> bool
    ensures { result ≡ bits_fit fields.now }
{
    is_bit(fields.cycle)
        && match fields.kind {
            LINK => is_bit(fields.toggle) && is_bit(fields.chain) && is_bit(fields.ioc),
            SET_DEQUEUE => is_bit(fields.dequeue_cycle),
            _ => true,
        }
}

/// Whether the numbers of a TRB fit their bits.
fn numbers_fit(trb: Trb) -> bool
    ensures fit { result ≡ numbers_fit trb }
    ensures text { IsTrue result → HasText trb }
{
    match trb {
        Trb::Normal {
            length,
            td_size,
            flags,
            ..
        } => length <= MAX_LENGTH && td_size < 32 && flags.0 < 128,
        Trb::Link { pointer, .. } | Trb::CommandEvent { pointer, .. } => pointer % 16 == 0,
        Trb::StopEndpoint { endpoint, .. } => endpoint < 32,
        Trb::SetDequeue {
            pointer,
            endpoint,
            ..
        } => pointer % 16 == 0 && endpoint < 32,
        Trb::TransferEvent {
            residual,
            endpoint,
            ..
        } => residual < 0x0100_0000 && endpoint < 32,
    }
}

/// The TRB and the Cycle bit of a record. `Unknown`, which is 1, at another type; else `Unfit`, which is 4, at a field of its type
/// that doesn't fit its bits.
pub fn read_record(fields: &UasTrb) -> Result<(Trb, bool), RecordFault>
    ensures fault { IfErr result (λ fault. record_fault TRB_UNKNOWN_TYPE TRB_UNFIT fault ≡ write_fault fields.now) }
    ensures named { IfOk result (λ read. named_trb fields.now ≡ Some read.0) }
    ensures cycle { IfOk result (λ read. read.1 ≡ (fields.now.cycle == 1)) }
    ensures text { IfOk result (λ read. HasText read.0) }
    ensures none { OnOk result (write_fault fields.now ≡ 0) }
{
    let Some(trb) = named(fields) else {
        return Err(RecordFault::Unknown);
    };
    if !bits_fit(fields) || !numbers_fit(trb) {
        return Err(RecordFault::Unfit);
    }
    Ok((trb, fields.cycle == 1))
}

/// The record of a TRB with its Cycle bit: every field that its type hasn't is 0.
pub fn record_of(trb: &Trb, cycle: bool) -> UasTrb
    ensures { result ≡ trb_record trb.now cycle }
{
    UasTrb {
        cycle: u8::from(cycle),
        ..fields_of(*trb)
    }
}

/// The record of a TRB, its Cycle bit still 0.
fn fields_of(trb: Trb) -> UasTrb
    ensures { result ≡ trb_fields trb }
{
    match trb {
        Trb::Normal {
            pointer,
            length,
            td_size,
            flags,
        } => normal(pointer, length, td_size, flags),
        Trb::Link {
            pointer,
            toggle,
            chain,
            ioc,
        } => link(pointer, toggle, chain, ioc),
        Trb::StopEndpoint { endpoint, slot } => stop_endpoint(endpoint, slot),
        Trb::SetDequeue {
            pointer,
            cycle,
            stream,
            endpoint,
            slot,
        } => set_dequeue(pointer, cycle, stream, endpoint, slot),
        Trb::TransferEvent {
            pointer,
            residual,
            code,
            endpoint,
            slot,
        } => transfer_event(pointer, residual, code, endpoint, slot),
        Trb::CommandEvent {
            pointer,
            code,
            slot,
        } => command_event(pointer, code, slot),
    }
}

/// The record of a Normal.
fn normal(pointer: u64, length: u32, td_size: u8, flags: TrbFlags) -> UasTrb
    ensures { result ≡ trb_fields (Trb.Normal pointer length td_size flags) }
{
    UasTrb {
        kind: NORMAL,
        pointer,
        length,
        td_size,
        flags: flags.0,
        ..EMPTY
    }
}

/// The record of a Link.
fn link(pointer: u64, toggle: bool, chain: bool, ioc: bool) -> UasTrb
    ensures { result ≡ trb_fields (Trb.Link pointer toggle chain ioc) }
{
    UasTrb {
        kind: LINK,
        pointer,
        toggle: u8::from(toggle),
        chain: u8::from(chain),
        ioc: u8::from(ioc),
        ..EMPTY
    }
}

/// The record of a Stop Endpoint.
fn stop_endpoint(endpoint: u8, slot: u8) -> UasTrb
    ensures { result ≡ trb_fields (Trb.StopEndpoint endpoint slot) }
{
    UasTrb {
        kind: STOP_ENDPOINT,
        endpoint,
        slot,
        ..EMPTY
    }
}

/// The record of a Set TR Dequeue Pointer.
fn set_dequeue(pointer: u64, cycle: bool, stream: u16, endpoint: u8, slot: u8) -> UasTrb
    ensures { result ≡ trb_fields (Trb.SetDequeue pointer cycle stream endpoint slot) }
{
    UasTrb {
        kind: SET_DEQUEUE,
        pointer,
        dequeue_cycle: u8::from(cycle),
        stream,
        endpoint,
        slot,
        ..EMPTY
    }
}

/// The record of a Transfer Event.
fn transfer_event(pointer: u64, residual: u32, code: u8, endpoint: u8, slot: u8) -> UasTrb
    ensures { result ≡ trb_fields (Trb.TransferEvent pointer residual code endpoint slot) }
{
    UasTrb {
        kind: TRANSFER_EVENT,
        pointer,
        length: residual,
        code,
        endpoint,
        slot,
        ..EMPTY
    }
}

/// The record of a Command Completion Event.
fn command_event(pointer: u64, code: u8, slot: u8) -> UasTrb
    ensures { result ≡ trb_fields (Trb.CommandEvent pointer code slot) }
{
    UasTrb {
        kind: COMMAND_EVENT,
        pointer,
        code,
        slot,
        ..EMPTY
    }
}
