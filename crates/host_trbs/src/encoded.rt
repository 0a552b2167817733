//! The TRBs that `xhci_trb` writes too, with its bytes.
ghost use Rattle.std.specs.Prelude.{◌≡◌, ◌≢◌, ◌+◌, ◌*◌, ◌<◌, ◌%◌, ◌^◌, not};
ghost use Rattle.host_trbs.specs.Commands.{command_words};
ghost use Rattle.host_trbs.specs.Transfers.{data_words, link_words};
ghost use Rattle.host_trbs.specs.Words.{bit, bytes_of};

use crate::Command;
use xhci_trb::{Trb, TrbFlags, encode};

/// A data TRB as a Normal TRB of `xhci_trb`.
pub fn data_encoded(
    at: u64,
    length: u32,
    packets_left: u8,
    is_last: bool,
    is_in: bool,
    cycle: bool,
) -> [u8; 16]
    requires length { length < 2 ^ 17 }
    requires packets_left { packets_left < 2 ^ 5 }
    ensures { result ≡ bytes_of (data_words (record { at = at; length = length; packets_left = packets_left; is_last = is_last; is_in = is_in }) cycle) }
{
    encode(
        &Trb::Normal {
            pointer: at,
            length,
            td_size: packets_left,
            flags: flags_of(is_last, is_in),
        },
        cycle,
    )
}

fn flags_of(is_last: bool, is_in: bool) -> TrbFlags
    ensures fits { result.0 < 2 ^ 7 }
    ensures flags { result.0 ≡ 2 * bit is_in + 8 * bit (not is_last) + 16 * bit is_last }
{
    let short = if is_in { TrbFlags::ISP.0 } else { 0 };
    let end = if is_last {
        TrbFlags::IOC.0
    } else {
        TrbFlags::CH.0
    };
    TrbFlags(short + end)
}

/// A Link as one of `xhci_trb`.
pub fn link_encoded(to: u64, toggles: bool, cycle: bool) -> [u8; 16]
    requires { to % 16 ≡ 0 }
    ensures { result ≡ bytes_of (link_words (record { to = to; toggles = toggles }) cycle) }
{
    encode(
        &Trb::Link {
            pointer: to,
            toggle: toggles,
            chain: false,
            ioc: false,
        },
        cycle,
    )
}

/// Stop Endpoint as the command of `xhci_trb`.
pub fn stop_endpoint_encoded(slot: u8, endpoint: u8, cycle: bool) -> [u8; 16]
    requires { endpoint < 2 ^ 5 }
    ensures { result ≡ bytes_of (command_words (Command.StopEndpoint slot endpoint) cycle) }
{
    encode(&Trb::StopEndpoint { endpoint, slot }, cycle)
}

/// Set TR Dequeue Pointer of a stream as the command of `xhci_trb`.
pub fn set_dequeue_encoded(
    pointer: u64,
    stream: u16,
    slot: u8,
    endpoint: u8,
    cycle: bool,
) -> [u8; 16]
    requires pointer { pointer % 16 ≡ 0 }
    requires stream { stream ≢ 0 }
    requires endpoint { endpoint < 2 ^ 5 }
    ensures { result ≡ bytes_of (command_words (Command.SetDequeue pointer stream slot endpoint) cycle) }
{
    encode(
        &Trb::SetDequeue {
            pointer,
            cycle: true,
            stream,
            endpoint,
            slot,
        },
        cycle,
    )
}
