//! A log from a text that comes in parts.
ghost use Rattle.std.specs.Prelude.{◌≡◌, ◌+◌, ◌≤◌, ◌<◌, ◌^◌, ◌++◌, [], IfErr, IfOk, IfSome, IsTrue, OnOk, length};
ghost use Rattle.std.specs.Io.KnownBytes.{IsAtEnd};
ghost use Rattle.log_records.specs.checksum.Bytes.{AreBytes};
ghost use Rattle.log_records.specs.Finding.{first_record};
ghost use Rattle.kept_log.specs.Form.{AreKeepable, head_sum, head_text};
ghost use Rattle.kept_log.specs.Parts.{GivesUp, HasTaken, IsFound, step_behind, step_with};

use crate::head::head;
use crate::loading::{FRAME_BYTES, made, next};
use crate::window::Window;
use crate::{Entry, Found, KeptFault, Next, PartsFault};
use byte_io::{Source, StreamFault};
use log_records::{First, first_record};
use std::alloc::{AllocFailed, Global};
use uas_log::FirstUnit;

impl From<AllocFailed<Entry>> for PartsFault {
    ghost use Rattle.byte_io.specs.declared.StreamFault.TheVariants.{NoMemory};
    ghost use Rattle.kept_log.specs.declared.PartsFault.TheVariants.{Read};

    ghost from_gives = { λ _ fault. fault ≡ Read NoMemory };

    fn from(_error: AllocFailed<Entry>) -> PartsFault {
        PartsFault::Read(StreamFault::NoMemory)
    }
}

impl From<StreamFault> for PartsFault {
    ghost use Rattle.kept_log.specs.declared.PartsFault.TheVariants.{Read};

    ghost from_gives = { λ error fault. fault ≡ Read error };

    fn from(error: StreamFault) -> PartsFault {
        PartsFault::Read(error)
    }
}

/// A head that was read.
#[derive(Debug, Drop)]
struct TextHead {
    /// How many tags each client has.
    tags: usize,
    units: Vec<FirstUnit>,
    sum: u32,
    /// How many bytes it has.
    len: usize,
}

/// What the bytes of `front` and then of `source` have, as [`load`](crate::load) of them all, and behind how many steps the checksum `wanted`
/// stands first. They are read in parts, of which one is in memory at a time. A part is longer than a MiB only where the head or a record
/// is; and what follows a head that is refused, or a record that is torn, is read to its end into one, since more may still make it whole.
pub fn load_from<S: Source>(
    alloc: Global,
    front: Vec<u8>,
    source: &mut S,
    wanted: Option<u32>,
) -> Result<Found, PartsFault>
    ensures found { IfOk result (λ found. IfSome (S.left source.old) (λ left. IsFound wanted (front.items ++ left) found)) }
    ensures there { OnOk result (IsTrue (S.is_there source.old)) }
    ensures fault { IfErr result (GivesUp front.items (S.left source.old) (S.is_there source.old) (S.can_fail source.old)) }
{
    let mut window = Window::from_vec(front);
    window.read_more(source)?;
    let head = head_from(alloc, source, &mut window)?;
    records(alloc, source, &mut window, head, wanted)
}

/// Takes the head from the front of a window.
fn head_from<S: Source>(
    alloc: Global,
    source: &mut S,
    window: &mut Window,
) -> Result<TextHead, PartsFault>
    requires there { IsTrue (S.is_there source.old) }
    requires are { AreBytes window.old.bytes }
    requires ended { IsTrue window.old.has_ended → IsAtEnd (S.left source.old) }
    ensures head { IfOk result (λ head. HasTaken window.old.bytes (S.left source.old) (S.left source.new) head.tags head.units.items [] head.len head.sum window.new) }
    ensures len { IfOk result (λ head. head.len < 2 ^ 63) }
    ensures same { S.can_fail source.new ≡ S.can_fail source.old }
    ensures stays { S.is_there source.new ≡ S.is_there source.old }
    ensures fault { IfErr result (GivesUp window.old.bytes (S.left source.old) (S.is_there source.old) (S.can_fail source.old)) }
{
    loop {
        match head(alloc, window.bytes()) {
            Ok((tags, units, sum, rest)) => {
                let len = window.bytes().len() - rest.len();
                window.take(len);
                return Ok(TextHead {
                    tags,
                    units,
                    sum,
                    len,
                });
            }
            Err(fault) if window.has_ended() => return Err(PartsFault::Kept(fault)),
            Err(KeptFault::NoMemory) => return Err(PartsFault::Kept(KeptFault::NoMemory)),
            Err(_) => window.read_more(source)?,
        }
    }
}

/// The log of a head and the records behind it, which begin in a window.
fn records<S: Source>(
    alloc: Global,
    source: &mut S,
    window: &mut Window,
    head: TextHead,
    wanted: Option<u32>,
) -> Result<Found, PartsFault>
    requires there { IsTrue (S.is_there source.old) }
    requires ended { IsTrue window.old.has_ended → IsAtEnd (S.left source.old) }
    requires keepable { AreKeepable head.tags head.units.items [] }
    requires len { (head.len ≡ length (head_text head.tags head.units.items)) × (head.len < 2 ^ 63) }
    requires sum { head.sum ≡ head_sum head.tags head.units.items }
    requires are { AreBytes (head_text head.tags head.units.items ++ window.old.bytes) }
    ensures found { IfOk result (λ found. IfSome (S.left source.old) (λ left. IsFound wanted ((head_text head.tags head.units.items ++ window.old.bytes) ++ left) found)) }
    ensures fault { IfErr result (GivesUp (head_text head.tags head.units.items ++ window.old.bytes) (S.left source.old) (S.is_there source.old) (S.can_fail source.old)) }
{
    let TextHead {
        tags,
        units,
        sum,
        len,
    } = head;
    let mut entries = Vec::new(alloc);
    let mut sum = sum;
    let mut at = len;
    let mut step = step_with(None, wanted, sum, 0);
    loop {
        match next(alloc, units.len(), entries.len(), at, sum, window.bytes()) {
            Ok(Next::Goes(entry, len, after)) => {
                entries.push(entry)?;
                window.take(FRAME_BYTES + len);
                at += FRAME_BYTES + len;
                sum = after;
                step = step_with(step, wanted, sum, entries.len());
            }
            Ok(Next::Ends(ending, torn)) if window.has_ended() => {
                let step = step_at_end(step, wanted, entries.len(), sum, window.bytes());
                let loaded = made(tags, units, entries, ending, torn);
                return Ok(Found { loaded, step });
            }
            Ok(Next::Ends(_, _)) => window.read_more(source)?,
            Err(fault) => return Err(PartsFault::Kept(fault)),
        }
    }
}

/// The step of the checksum `wanted`: the one that was found, or this number of steps, where `sum` is the one behind them.
fn step_with(step: Option<usize>, wanted: Option<u32>, sum: u32, steps: usize) -> Option<usize>
    ensures { result ≡ step_with step wanted sum steps }
{
    if step.is_some() {
        return step;
    }
    match wanted {
        Some(asked) if sum == asked => Some(steps),
        Some(_) | None => None,
    }
}

/// And where the end's record may stand at the front of `bytes`, which has a checksum too.
fn step_at_end(
    step: Option<usize>,
    wanted: Option<u32>,
    steps: usize,
    before: u32,
    bytes: &[u8],
) -> Option<usize>
    ensures { result ≡ step_behind step wanted steps (first_record before bytes.now) }
{
    match first_record(before, bytes) {
        First::Whole { sum, .. } => step_with(step, wanted, sum, steps),
        First::Nothing | First::Torn | First::Wrong => step,
    }
}
