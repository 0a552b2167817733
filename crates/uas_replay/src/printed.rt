//! The lines that the program prints: what a reply came to, why a submission was refused, an idle step.

ghost use Rattle.std.specs.Prelude.{◌≡◌, ℕ, ◌≤◌, ◌++◌, [], length, take, codes, IfOk, OnOk, vec_len};
ghost use Rattle.hex.specs.Hex.{encode_lower};
ghost use Rattle.std.specs.String.{string_bytes};
ghost use Rattle.uas_replay.specs.Printed.{line_start, shown_bytes, good_words, hex_at, sense_line, task_words};
ghost use Rattle.uas_replay.specs.Printed.{reply_line, reply_words, is_failure, fault_name, refused_name, refusal_line, idle_line};

use scsi_cmd::{GOOD, Reply, SubmitFault};
use std::alloc::{AllocError, Global};
use tag_range::Refused;

/// How many bytes of those that came in are shown.
const SHOWN_BYTES: usize = 36;

/// The place of the sense key (SPC, fixed format sense data).
const KEY_PLACE: usize = 2;

/// The place of the additional sense code.
const CODE_PLACE: usize = 12;

/// The place of the additional sense code qualifier.
const QUALIFIER_PLACE: usize = 13;

/// Adds the line of a reply to a client, whose command moves data to the host or not.
pub fn push_reply(
    alloc: Global,
    text: &mut Vec<u8>,
    client: usize,
    brings_in: bool,
    reply: &Reply,
) -> Result<(), AllocError>
    ensures { OnOk result (text.new.items ≡ text.old.items ++ reply_line client brings_in reply.now) }
{
    let ticket = reply.ticket();
    let start = format!(in alloc; "{client} {ticket} ")?;
    text.extend_from_slice(start.as_bytes())?;
    push_words(alloc, text, brings_in, reply)
}

/// Adds what a reply tells.
fn push_words(
    alloc: Global,
    text: &mut Vec<u8>,
    brings_in: bool,
    reply: &Reply,
) -> Result<(), AllocError>
    ensures { OnOk result (text.new.items ≡ text.old.items ++ reply_words brings_in reply.now) }
{
    match reply {
        Reply::Status { status, buffer, .. } if *status == GOOD => {
            push_good(alloc, text, if brings_in { buffer.as_slice() } else { &[] })
        }
        Reply::Status { sense, .. } => push_sense(text, sense.as_slice()),
        Reply::Aborted { .. } => text.extend_from_slice(b"aborted\n"),
        Reply::Task { code, .. } => push_task(text, *code),
    }
}

/// Adds `good N`, and the first bytes in hexadecimal.
fn push_good(alloc: Global, text: &mut Vec<u8>, bytes: &[u8]) -> Result<(), AllocError>
    ensures { OnOk result (text.new.items ≡ text.old.items ++ good_words bytes.now) }
{
    let count = bytes.len();
    let start = format!(in alloc; "good {count}")?;
    text.extend_from_slice(start.as_bytes())?;
    push_shown(text, bytes)?;
    text.extend_from_slice(b"\n")
}

/// Adds a space and the first bytes in hexadecimal, where there are bytes.
fn push_shown(text: &mut Vec<u8>, bytes: &[u8]) -> Result<(), AllocError>
    ensures { OnOk result (text.new.items ≡ text.old.items ++ shown_bytes bytes.now) }
{
    if bytes.is_empty() {
        return Ok(());
    }
    text.extend_from_slice(b" ")?;
    push_hex(text, first_bytes(bytes))
}

/// The bytes that are shown.
#[tactic(auto, using(std::proofs::lemmas::List::take_min))]
fn first_bytes(bytes: &[u8]) -> &[u8]
    ensures value { result.now ≡ take 36 bytes.now }
    ensures bound { length result.now ≤ 36 }
{
    &bytes[..SHOWN_BYTES.min(bytes.len())]
}

/// Adds at most 36 bytes in hexadecimal.
fn push_hex(text: &mut Vec<u8>, bytes: &[u8]) -> Result<(), AllocError>
    requires { length bytes.now ≤ 36 }
    ensures { OnOk result (text.new.items ≡ text.old.items ++ encode_lower bytes.now) }
{
    let mut digits = [0; 2 * SHOWN_BYTES];
    let digits = &mut digits[..2 * bytes.len()];
    let _ = hex::encode_to_slice(bytes, digits);
    text.extend_from_slice(digits)
}

/// Adds `check KK/AA/QQ`.
pub fn push_sense(text: &mut Vec<u8>, sense: &[u8]) -> Result<(), AllocError>
    ensures { OnOk result (text.new.items ≡ text.old.items ++ sense_line sense.now) }
{
    text.extend_from_slice(b"check ")?;
    push_hex_at(text, sense, KEY_PLACE)?;
    text.extend_from_slice(b"/")?;
    push_hex_at(text, sense, CODE_PLACE)?;
    text.extend_from_slice(b"/")?;
    push_hex_at(text, sense, QUALIFIER_PLACE)?;
    text.extend_from_slice(b"\n")
}

/// Adds the byte of sense data at a place in hexadecimal, 00 where there is none.
fn push_hex_at(text: &mut Vec<u8>, sense: &[u8], place: usize) -> Result<(), AllocError>
    ensures { OnOk result (text.new.items ≡ text.old.items ++ hex_at sense.now place) }
{
    push_hex(text, &[sense.get(place).copied().unwrap_or(0)])
}

/// Adds `task CC`.
fn push_task(text: &mut Vec<u8>, code: u8) -> Result<(), AllocError>
    ensures { OnOk result (text.new.items ≡ text.old.items ++ task_words code) }
{
    text.extend_from_slice(b"task ")?;
    push_hex(text, &[code])?;
    text.extend_from_slice(b"\n")
}

/// Whether a reply tells a check or an abort.
pub fn is_failure(reply: &Reply) -> bool
    ensures { result ≡ is_failure reply.now }
{
    match reply {
        Reply::Status { status, .. } => *status != GOOD,
        Reply::Aborted { .. } => true,
        Reply::Task { .. } => false,
    }
}

/// Adds `C refused NAME`.
pub fn push_refusal(
    alloc: Global,
    text: &mut Vec<u8>,
    client: usize,
    name: &str,
) -> Result<(), AllocError>
    ensures { OnOk result (text.new.items ≡ text.old.items ++ refusal_line client name.now) }
{
    let line = format!(in alloc; "{client} refused {name}\n")?;
    text.extend_from_slice(line.as_bytes())
}

/// The name of a refusal by the bus.
pub fn fault_name(fault: SubmitFault) -> &'static str
    ensures { result.now ≡ fault_name fault }
{
    match fault {
        SubmitFault::NotYours => "NotYours",
        SubmitFault::InUse => "InUse",
        SubmitFault::BadLength => "BadLength",
        SubmitFault::TooLong => "TooLong",
        SubmitFault::OutOfTurn(_) => "OutOfTurn",
        SubmitFault::NoSuchTask => "NoSuchTask",
    }
}

/// The name of a refusal by the client's tags.
pub fn refused_name(refused: Refused) -> &'static str
    ensures { result.now ≡ refused_name refused }
{
    match refused {
        Refused::NoTag => "NoTag",
        Refused::TaskBusy => "TaskBusy",
        Refused::Worn => "Worn",
    }
}

/// Adds `idle`.
pub fn push_idle(text: &mut Vec<u8>) -> Result<(), AllocError>
    ensures { OnOk result (text.new.items ≡ text.old.items ++ idle_line) }
{
    text.extend_from_slice(b"idle\n")
}
