//! The log of a file, of whichever version its text is.
ghost use Rattle.std.specs.Prelude.{◌≡◌, ℕ, List, ◌++◌, ◌≤◌, ◌<◌, [], IfErr, IfOk, IfSome, IsTrue, OnOk, Option, Some, None, true, false, length};
ghost use Rattle.std.specs.Io.KnownBytes.{IsAtEnd};
ghost use Rattle.kept_log.specs.Parts.{Reads, step_asked};
ghost use Rattle.audit_run.specs.Audits.{IsFileLog, IsLogOf, IsRefusedBy, found_text, head_text, is_kept, state_of};
ghost use Rattle.audit_run.specs.Ends.{CantRead, CantTell, IsFileOf, IsOlder};

use crate::{AuditFault, FileLog, HeadAt, KeptState, MAX_LOG_BYTES};
use byte_io::{Source, StreamFault};
use kept_log::{Loaded, PartsFault, load_from, read_at_least};
use log_text::{PlainLog, load_log, migrate};
use std::alloc::Global;

/// How a text of the third version begins.
const KEPT: [u8; 8] = [0x55, 0x41, 0x53, 0x4c, 0x4f, 0x47, 0, 3];

/// The log of a file, of whichever version, and where the checksum stands in it that is asked for. A text of the third version is read in
/// parts.
pub(crate) fn file_log<S: Source>(
    alloc: Global,
    source: &mut S,
    head: Option<u32>,
) -> Result<FileLog, AuditFault>
    ensures ok { IfOk result (λ found. IfSome (S.left source.old) (λ bytes. IsFileOf head bytes found.log found.state found.head)) }
    ensures there { OnOk result (IsTrue (S.is_there source.old)) }
    ensures fault { IfErr result (CantTell head [] (S.left source.old) (S.is_there source.old) (S.can_fail source.old)) }
{
    let mut bytes = Vec::new(alloc);
    let has_ended = read(source, &mut bytes, KEPT.len())?;
    if is_kept(&bytes) {
        kept_in(alloc, source, bytes, head)
    } else {
        older_in(alloc, source, bytes, has_ended, head)
    }
}

/// Adds bytes of a file, until there are `least` of them or it ended, and tells whether it ended.
fn read<S: Source>(source: &mut S, bytes: &mut Vec<u8>, least: usize) -> Result<bool, AuditFault>
    ensures read { IfOk result (λ has_ended. Reads (S.left source.old) (S.left source.new) bytes.old.items (record { bytes = bytes.new.items; has_ended = has_ended })) }
    ensures enough { result ≡ Ok false → least ≤ length bytes.new.items }
    ensures there { length bytes.old.items < least → OnOk result (IsTrue (S.is_there source.old)) }
    ensures fault { IfErr result (CantRead (S.can_fail source.old)) }
    ensures same { S.can_fail source.new ≡ S.can_fail source.old }
    ensures stays { S.is_there source.new ≡ S.is_there source.old }
{
    match read_at_least(source, bytes, least) {
        Ok(has_ended) => Ok(has_ended),
        Err(StreamFault::NoMemory) => Err(AuditFault::NoMemory),
        Err(StreamFault::File) => Err(AuditFault::File),
    }
}

/// Whether a text begins as one of the third version does.
fn is_kept(bytes: &[u8]) -> bool
    ensures { result ≡ is_kept bytes.now }
{
    bytes.starts_with(&KEPT)
}

/// The log of a text of the first or second version, of whose front these bytes were read.
fn older_in<S: Source>(
    alloc: Global,
    source: &mut S,
    front: Vec<u8>,
    has_ended: bool,
    head: Option<u32>,
) -> Result<FileLog, AuditFault>
    requires older { is_kept front.items ≡ false }
    requires enough { has_ended ≡ false → 8 ≤ length front.items }
    requires ended { IsTrue has_ended → IsAtEnd (S.left source.old) }
    requires there { IsTrue (S.is_there source.old) }
    ensures ok { IfOk result (λ found. IfSome (S.left source.old) (λ left. IsFileOf head (front.items ++ left) found.log found.state found.head)) }
    ensures fault { IfErr result (CantTell head front.items (S.left source.old) (S.is_there source.old) (S.can_fail source.old)) }
{
    let mut bytes = front;
    read_rest(source, &mut bytes, has_ended)?;
    if bytes.len() > MAX_LOG_BYTES {
        return Err(AuditFault::TooLarge);
    }
    older_log(alloc, &bytes, head)
}

/// Adds the rest of a text of the first or second version, or more than one may have.
fn read_rest<S: Source>(
    source: &mut S,
    bytes: &mut Vec<u8>,
    has_ended: bool,
) -> Result<(), AuditFault>
    requires older { is_kept bytes.old.items ≡ false }
    requires enough { has_ended ≡ false → 8 ≤ length bytes.old.items }
    requires ended { IsTrue has_ended → IsAtEnd (S.left source.old) }
    ensures older { OnOk result (IsOlder bytes.old.items bytes.new.items (S.left source.old)) }
    ensures fault { IfErr result (CantRead (S.can_fail source.old)) }
{
    if has_ended {
        return Ok(());
    }
    read(source, bytes, MAX_LOG_BYTES + 1)?;
    Ok(())
}

/// The log of a text of the first or second version. It has no checksum.
fn older_log(alloc: Global, bytes: &[u8], head: Option<u32>) -> Result<FileLog, AuditFault>
    requires { is_kept bytes.now ≡ false }
    ensures ok { IfOk result (λ found. IsFileLog bytes.now found.log found.state) }
    ensures head { IfOk result (λ found. head_text head bytes.now ≡ Some (found_text found.head)) }
    ensures fault { IfErr result (IsRefusedBy head bytes.now) }
{
    let log = match saved_in(alloc, bytes) {
        Ok(log) => log,
        Err(fault) => return Err(fault),
    };
    match head {
        Some(_sum) => Err(AuditFault::OtherHead),
        None => Ok(FileLog {
            log,
            state: None,
            head: None,
        }),
    }
}

/// The log of a text of the first or second version, brought over to clients of 16 tags.
fn saved_in(alloc: Global, bytes: &[u8]) -> Result<PlainLog, AuditFault>
    requires { is_kept bytes.now ≡ false }
    ensures ok { IfOk result (λ log. IsLogOf bytes.now log) }
    ensures fault { (head : Option ℕ) → IfErr result (IsRefusedBy head bytes.now) }
{
    let saved = match load_log(alloc, bytes) {
        Ok(saved) => saved,
        Err(fault) => return Err(AuditFault::Text(fault)),
    };
    match migrate(alloc, &saved) {
        Ok(log) => Ok(log.into_plain()),
        Err(fault) => Err(AuditFault::Old(fault)),
    }
}

/// The log of a text of the third version, of whose front these bytes were read, without its refused steps.
fn kept_in<S: Source>(
    alloc: Global,
    source: &mut S,
    front: Vec<u8>,
    head: Option<u32>,
) -> Result<FileLog, AuditFault>
    requires third { is_kept front.items ≡ true }
    ensures ok { IfOk result (λ found. IfSome (S.left source.old) (λ left. IsFileOf head (front.items ++ left) found.log found.state found.head)) }
    ensures fault { IfErr result (CantTell head front.items (S.left source.old) (S.is_there source.old) (S.can_fail source.old)) }
{
    let found = match load_from(alloc, front, source, head) {
        Ok(found) => found,
        Err(PartsFault::Kept(fault)) => return Err(AuditFault::Kept(fault)),
        Err(PartsFault::Read(StreamFault::NoMemory)) => return Err(AuditFault::NoMemory),
        Err(PartsFault::Read(StreamFault::File)) => return Err(AuditFault::File),
    };
    let (state, step) = (state_of(&found.loaded), found.step);
    let Ok(log) = found.loaded.log.into_plain(alloc) else {
        return Err(AuditFault::NoMemory);
    };
    let Some(head) = head_at(head, step) else {
        return Err(AuditFault::OtherHead);
    };
    Ok(FileLog {
        log,
        state: Some(state),
        head,
    })
}

/// What is told of the checksum that is asked for, where it stands behind so many steps: of one that stands nowhere nothing can be.
fn head_at(asked: Option<u32>, step: Option<usize>) -> Option<Option<HeadAt>>
    ensures found { IfSome result (λ at. (text : List ℕ) → is_kept text ≡ true → step ≡ step_asked asked text → head_text asked text ≡ Some (found_text at)) }
    ensures other { result ≡ None → (text : List ℕ) → is_kept text ≡ true → step ≡ step_asked asked text → head_text asked text ≡ None }
{
    match (asked, step) {
        (None, _) => Some(None),
        (Some(sum), Some(step)) => Some(Some(HeadAt { sum, step })),
        (Some(_), None) => None,
    }
}

/// What there is of a log that was kept.
fn state_of(loaded: &Loaded) -> KeptState
    ensures { result ≡ state_of loaded.now }
{
    KeptState {
        steps: loaded.log.entries().len(),
        has_end: loaded.log.ending().is_some(),
        torn: loaded.torn,
    }
}
