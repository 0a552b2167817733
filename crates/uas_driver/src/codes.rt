//! What a transfer event means, and how many bytes it says were moved.
ghost use Rattle.std.specs.Prelude.{◌≡◌, ◌≤◌, ◌-◌, IfSome};
ghost use Rattle.uas_profile.specs.declared.TheConstants.{WINDOW_BYTES};
ghost use Rattle.uas_driver.specs.Meaning.{in_window, leaves_open, meaning, moved_by, moved_up_to, short_on, stopped_if};

use crate::Meaning;
use stream_array::Pipe;
use uas_profile::{SHORT_PACKET, SUCCESS, WINDOW_BYTES, WINDOW_SPAN};
use xhci_trb::Trb;

/// Data Buffer Error, after which an endpoint runs on.
const DATA_BUFFER_ERROR: u8 = 2;

/// The three codes of an endpoint that is stopped (4.6.9): Stopped, Stopped Length Invalid, Stopped Short Packet.
const STOPPED: u8 = 26;

const STOPPED_LENGTH_INVALID: u8 = 27;

const STOPPED_SHORT_PACKET: u8 = 28;

fn short_on(pipe: Pipe) -> Meaning
    ensures { result ≡ short_on pipe }
{
    match pipe {
        Pipe::Status | Pipe::DataIn => Meaning::EndedShort,
        Pipe::Command | Pipe::DataOut => Meaning::Stray,
    }
}

fn stopped_if(stopping: bool) -> Meaning
    ensures { result ≡ stopped_if stopping }
{
    if stopping {
        Meaning::NotConsumed
    } else {
        Meaning::Stray
    }
}

/// What a transfer event with this code means for the TRB at its pointer, on a pipe that is being stopped or isn't.
pub fn meaning_of(pipe: Pipe, stopping: bool, code: u8) -> Meaning
    ensures { result ≡ meaning pipe stopping code }
{
    match code {
        SUCCESS => Meaning::Consumed,
        DATA_BUFFER_ERROR => Meaning::Failed { halted: false },
        3 | 4 | 5 | 6 | 8 | 10 | 16 | 34 | 36 => Meaning::Failed { halted: true },
        SHORT_PACKET => short_on(pipe),
        STOPPED | STOPPED_LENGTH_INVALID | STOPPED_SHORT_PACKET => stopped_if(stopping),
        _ => Meaning::Stray,
    }
}

/// So many bytes, but no more than a window has.
fn in_window(bytes: u64) -> u32
    ensures { result ≡ in_window bytes }
{
    bytes.min(WINDOW_BYTES as u64) as u32
}

/// How many bytes of a TD come before the end of so many bytes of the buffer at an address in its window.
fn moved_up_to(pointer: u64, bytes: u32) -> u32
    ensures { result ≡ moved_up_to pointer bytes }
{
    in_window(pointer % WINDOW_SPAN + u64::from(bytes))
}

/// Whether an event of a data TRB leaves open where its TD ended (4.10.1.1).
fn leaves_open(trb: &Trb, code: u8, residual: u32) -> bool
    ensures { result ≡ leaves_open trb.now code residual }
{
    match *trb {
        Trb::Normal {
            pointer,
            length,
            ..
        } => {
            code == SHORT_PACKET
                && !trb.has_chain()
                && length <= residual
                && pointer % WINDOW_SPAN != 0
        }
        _ => false,
    }
}

/// How many bytes of its TD were moved, by the event of a data TRB.
pub(crate) fn moved_by(trb: &Trb, code: u8, residual: u32) -> Option<u32>
    ensures { result ≡ moved_by trb.now code residual }
{
    let Trb::Normal {
        pointer,
        length,
        ..
    } = *trb
    else {
        return None;
    };
    if leaves_open(trb, code, residual) {
        return None;
    }
    match code {
        SUCCESS => Some(moved_up_to(pointer, length)),
        STOPPED_SHORT_PACKET => Some(in_window(u64::from(residual))),
        STOPPED_LENGTH_INVALID => None,
        _ => Some(moved_up_to(pointer, length.saturating_sub(residual))),
    }
}
