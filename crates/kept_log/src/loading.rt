//! A log from its text.
ghost use Rattle.std.specs.Prelude.{◌≡◌, ◌+◌, ◌≤◌, Result, IfErr, IfOk, drop, length};
ghost use Rattle.log_text.specs.declared.LogFault.{LogFault};
ghost use Rattle.log_text.specs.Reading.{Gives};
ghost use Rattle.kept_log.specs.declared.Body.{Body};
ghost use Rattle.kept_log.specs.Form.{AreKeepable};
ghost use Rattle.kept_log.specs.LoadAt.{Loads, load_at};
ghost use Rattle.kept_log.specs.Loading.{EndsIn, HasBody, IsKept, IsLoaded, IsNext, IsRefusedBy, next_at, of_body};

use crate::bodies::body;
use crate::parts::load_from;
use crate::{Body, Entries, Entry, KeptFault, KeptLog, Loaded, Next, PartsFault, Why};
use byte_io::{BytesLeft, StreamFault};
use log_records::{First, first_record};
use log_text::Stop;
use std::alloc::Global;
use uas_log::{FirstUnit, FirstUnits};

/// How many bytes a record has beside its body.
pub(crate) const FRAME_BYTES: usize = 8;

/// Where a body begins in its record.
const BODY_AT: usize = 4;

/// The most steps.
const MOST_STEPS: usize = 0xffff_ffff;

/// What a text has: the log of the longest whole prefix of its records, up to the end or a torn record. Else what is wrong with it, the
/// first fault from its front. `NoMemory` may come at any text.
pub fn load(alloc: Global, text: &[u8]) -> Result<Loaded, KeptFault>
    ensures exact { Loads result (load_at text.now) }
    ensures loaded { IfOk result (IsLoaded text.now) }
    ensures kept { IfOk result (λ loaded. IsKept loaded.log loaded.torn text.now) }
    ensures fault { IfErr result (IsRefusedBy text.now) }
{
    match load_from(alloc, Vec::new(alloc), &mut BytesLeft(text), None) {
        Ok(found) => Ok(found.loaded),
        Err(PartsFault::Kept(fault)) => Err(fault),
        Err(PartsFault::Read(StreamFault::NoMemory)) => Err(KeptFault::NoMemory),
        Err(PartsFault::Read(StreamFault::File)) => unreachable!(),
    }
}

/// The log of these parts; takes no memory.
pub(crate) fn made(
    tags: usize,
    units: Vec<FirstUnit>,
    entries: Vec<Entry>,
    ending: Option<Why>,
    torn: Option<usize>,
) -> Loaded
    requires { AreKeepable tags units.items entries.items }
    ensures { result ≡ record { log = record { tags = tags; units = units.items; entries = entries.items; ending = ending }; torn = torn } }
{
    let log = KeptLog {
        tags,
        units: FirstUnits::from_vec(units),
        entries: Entries::from_vec(entries),
        ending,
    };
    Loaded { log, torn }
}

/// What comes at a place, behind so many steps of so many clients and the checksum of the record before.
#[tactic(auto, unfolding(crate::specs::Loading::next_at))]
pub(crate) fn next(
    alloc: Global,
    clients: usize,
    count: usize,
    at: usize,
    sum: u32,
    bytes: &[u8],
) -> Result<Next, KeptFault>
    requires { 1 ≤ clients }
    ensures next { IsNext result (next_at clients count at sum bytes.now) }
    ensures within { IfOk result (EndsIn bytes.now) }
{
    match first_record(sum, bytes) {
        First::Nothing => Ok(Next::Ends(None, None)),
        First::Torn => Ok(Next::Ends(None, Some(at))),
        First::Wrong => Err(KeptFault::WrongRecord(at)),
        First::Whole { len, sum } => {
            let read = body(alloc, clients, &bytes[BODY_AT..][..len]);
            said(count, at, len, sum, behind_record(bytes, len), read)
        }
    }
}

/// What stands behind the record at the front, of whose body this is the length.
pub(crate) fn behind_record(bytes: &[u8], len: usize) -> &[u8]
    requires { 8 + len ≤ length bytes.now }
    ensures { result.now ≡ drop (8 + len) bytes.now }
{
    &bytes[FRAME_BYTES + len..]
}

/// What a record of a body at a place comes to, behind so many steps.
fn said(
    count: usize,
    at: usize,
    len: usize,
    sum: u32,
    rest: &[u8],
    read: Result<Body, Stop>,
) -> Result<Next, KeptFault>
    ensures next { (told : Result Body LogFault) → Gives (λ body. body) read told → IsNext result (of_body count at len sum rest.now told) }
    ensures len { IfOk result (HasBody len) }
{
    match read {
        Err(Stop::Memory) => Err(KeptFault::NoMemory),
        Err(Stop::Fault(_)) => Err(KeptFault::BadBody(at)),
        Ok(Body::Step(_)) if count == MOST_STEPS => Err(KeptFault::TooMany(at)),
        Ok(Body::Step(entry)) => Ok(Next::Goes(entry, len, sum)),
        Ok(Body::End(steps, _)) if steps != count as u64 => Err(KeptFault::WrongCount(at)),
        Ok(Body::End(_, _)) if !rest.is_empty() => Err(KeptFault::BehindEnd(at)),
        Ok(Body::End(_, reason)) => Ok(Next::Ends(Some(reason), None)),
    }
}
