// From a TRB to its three words.

ghost use Rattle.std.specs.Prelude.{◌≡◌, ◌+◌, ◌*◌, ◌/◌, ◌%◌, ◌^◌, ◌<◌, ◌≤◌};
ghost use Rattle.xhci_trb.specs.Text.{bit, Fits, parameter_of, status_of, control_of, words_of};

use crate::kinds::{COMMAND_EVENT, LINK, NORMAL, SET_DEQUEUE, STOP_ENDPOINT, TRANSFER_EVENT};
use crate::words::Words;
use crate::{Trb, TrbFlags};

/// The words of a TRB with its Cycle bit.
#[inline(always)]
pub(crate) fn words_of_trb(trb: &Trb, cycle: bool) -> Words
    requires { Fits trb.now }
    ensures { result ≡ words_of trb.now cycle }
{
    Words {
        parameter: parameter(trb),
        status: status(trb),
        control: control(trb) + bit_at(cycle, 0),
    }
}

#[inline(always)]
fn parameter(trb: &Trb) -> u64
    requires { Fits trb.now }
    ensures { result ≡ parameter_of trb.now }
{
    match *trb {
        Trb::Normal { pointer, .. }
        | Trb::Link { pointer, .. }
        | Trb::TransferEvent { pointer, .. }
        | Trb::CommandEvent { pointer, .. } => pointer,
        Trb::StopEndpoint { .. } => 0,
        Trb::SetDequeue { pointer, cycle, .. } => pointer
            + PRIMARY_RING
            + u64::from(bit_at(cycle, 0)),
    }
}

#[inline(always)]
fn status(trb: &Trb) -> u32
    requires { Fits trb.now }
    ensures { result ≡ status_of trb.now }
{
    match *trb {
        Trb::Normal {
            length,
            td_size,
            ..
        } => length + (u32::from(td_size) << 17),
        Trb::SetDequeue { stream, .. } => u32::from(stream) << 16,
        Trb::TransferEvent { residual, code, .. } => residual + (u32::from(code) << 24),
        Trb::CommandEvent { code, .. } => u32::from(code) << 24,
        Trb::Link { .. } | Trb::StopEndpoint { .. } => 0,
    }
}

// The control word without its Cycle bit.
#[inline(always)]
fn control(trb: &Trb) -> u32
    requires { Fits trb.now }
    ensures { result ≡ control_of trb.now }
{
    match *trb {
        Trb::Normal { flags, .. } => (NORMAL << 10) + flag_bits(flags),
        Trb::Link {
            toggle,
            chain,
            ioc,
            ..
        } => { (LINK << 10) + bit_at(toggle, 1) + bit_at(chain, 4) + bit_at(ioc, 5) }
        Trb::StopEndpoint { endpoint, slot } => (STOP_ENDPOINT << 10) + target(endpoint, slot),
        Trb::SetDequeue { endpoint, slot, .. } => (SET_DEQUEUE << 10) + target(endpoint, slot),
        Trb::TransferEvent { endpoint, slot, .. } => (TRANSFER_EVENT << 10)
            + target(endpoint, slot),
        Trb::CommandEvent { slot, .. } => (COMMAND_EVENT << 10) + target(0, slot),
    }
}

// SCT 1 in bits 3:1 of a dequeue pointer: the context points at a ring (6.2.4.1).
const PRIMARY_RING: u64 = 2;

// ENT to IDT lie in control bits 6:1, BEI in bit 9 (6.4.1.1).
#[inline(always)]
fn flag_bits(flags: TrbFlags) -> u32
    requires { flags.0 < 2 ^ 7 }
    ensures { result ≡ 2 * (flags.0 % 2 ^ 6) + 2 ^ 9 * (flags.0 / 2 ^ 6) }
{
    let low = u32::from(flags.0 % 64);
    let high = u32::from(flags.0 / 64);
    (low << 1) + (high << 9)
}

// The endpoint in control bits 20:16, the slot in 31:24.
fn target(endpoint: u8, slot: u8) -> u32
    requires { endpoint < 2 ^ 5 }
    ensures { result ≡ 2 ^ 16 * endpoint + 2 ^ 24 * slot }
{
    (u32::from(endpoint) << 16) + (u32::from(slot) << 24)
}

fn bit_at(flag: bool, place: u32) -> u32
    requires { place < 32 }
    ensures { result ≡ 2 ^ place * bit flag }
{
    if flag { 1 << place } else { 0 }
}
