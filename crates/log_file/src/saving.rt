//! The file of a log.
ghost use Rattle.std.specs.Prelude.{◌≡◌, Some, Err, [], IsTrue, IfOk, OnOk, OnErr};
ghost use Rattle.std.specs.Io.KnownBytes.{Appends};
ghost use Rattle.uas_profile.specs.declared.TheConstants.{TAGS};
ghost use Rattle.log_text.specs.Kept.{IsSavable, saved_log};
ghost use Rattle.log_text.specs.Text.{log_text};
ghost use Rattle.log_file.specs.FileText.{IsPastLimits, file_text};

use crate::pieces::{give_front, give_replies, give_steps, write_waiting};
use crate::records::write_records;
use byte_io::{Files, Sink, StreamFault};
use log_keeper::KeepStop;
use std::alloc::Global;
use uas_log::Log;
use uas_profile::TAGS;

/// Begins the file of a name, empty. It takes the place of one that is there once a log was saved in it.
pub fn begin_file<F: Files>(files: &mut F, name: &str) -> Result<F::Writer, StreamFault>
    ensures bytes { IfOk result (λ file. IsTrue (F.tells files.old) → F.Writer.written file ≡ Some []) }
    ensures there { IfOk result (λ file. IsTrue (F.Writer.is_there file)) }
    ensures file { IfOk result (λ file. IsTrue (F.Writer.is_of file name.now)) }
    ensures fails { IfOk result (λ file. IsTrue (F.Writer.can_fail file) → IsTrue (F.can_fail files.old name.now)) }
    ensures created { OnOk result (IsTrue (F.can_create files.old name.now)) }
    ensures fault { result ≡ Err StreamFault.File → IsTrue (F.can_fail files.old name.now) }
    ensures told { OnOk result (F.tells files.new ≡ F.tells files.old) }
    ensures same { OnOk result (F.can_fail files.new ≡ F.can_fail files.old) }
    ensures held { IsTrue (F.tells files.old) → F.holds files.new ≡ F.holds files.old }
{
    let mut file = files.create(name);
    match file.write(b"") {
        Ok(()) => Ok(file),
        Err(fault) => {
            files.give_up(file);
            Err(fault)
        }
    }
}

/// Writes a log's text into the file of a name that was begun. Asks a log that is within the limits of the second version, where its
/// clients have 16 tags; of another number of tags the answer is `Limits` where it is past those of the third. At a fault every file holds
/// what it held.
pub fn save_begun<F: Files>(
    alloc: Global,
    log: &Log,
    files: &mut F,
    name: &str,
    mut file: F::Writer,
) -> Result<(), KeepStop>
    requires savable { log.now.tags ≡ TAGS → IsSavable log.now }
    requires bytes { IsTrue (F.tells files.old) → F.Writer.written file ≡ Some [] }
    requires there { IsTrue (F.Writer.is_there file) }
    requires file { IsTrue (F.Writer.is_of file name.now) }
    requires fails { IsTrue (F.Writer.can_fail file) → IsTrue (F.can_fail files.old name.now) }
    ensures text { OnOk result (IsTrue (F.tells files.old) → F.holds files.new name.now ≡ Some (file_text log.now)) }
    ensures limits { result ≡ Err KeepStop.Limits → IsPastLimits log.now }
    ensures fault { result ≡ Err KeepStop.File → IsTrue (F.can_fail files.old name.now) }
    ensures held { OnErr result (IsTrue (F.tells files.old) → F.holds files.new ≡ F.holds files.old) }
{
    match write_text(alloc, log, &mut file) {
        Ok(()) => Ok(files.close(file)?),
        Err(stop) => {
            files.give_up(file);
            Err(stop)
        }
    }
}

/// Writes a log's text of the version that its number of tags has.
fn write_text<O: Sink>(alloc: Global, log: &Log, out: &mut O) -> Result<(), KeepStop>
    requires { log.now.tags ≡ TAGS → IsSavable log.now }
    ensures text { OnOk result (Appends (O.written out.old) (O.written out.new) (file_text log.now)) }
    ensures limits { result ≡ Err KeepStop.Limits → IsPastLimits log.now }
    ensures there { OnOk result (IsTrue (O.is_there out.old)) }
    ensures fault { result ≡ Err KeepStop.File → IsTrue (O.can_fail out.old) }
    ensures same { O.can_fail out.new ≡ O.can_fail out.old }
    ensures stays { O.is_there out.new ≡ O.is_there out.old }
    ensures file { O.is_of out.new ≡ O.is_of out.old }
{
    if log.tags != TAGS {
        return write_records(alloc, log, out);
    }
    match write_log(alloc, log, out) {
        Ok(()) => Ok(()),
        Err(StreamFault::NoMemory) => Err(KeepStop::NoMemory),
        Err(StreamFault::File) => Err(KeepStop::File),
    }
}

/// Writes a log's text of the second version, a piece at a time.
fn write_log<O: Sink>(alloc: Global, log: &Log, out: &mut O) -> Result<(), StreamFault>
    requires { IsSavable log.now }
    ensures text { OnOk result (Appends (O.written out.old) (O.written out.new) (log_text (saved_log log.now))) }
    ensures there { OnOk result (IsTrue (O.is_there out.old)) }
    ensures fault { result ≡ Err StreamFault.File → IsTrue (O.can_fail out.old) }
    ensures same { O.can_fail out.new ≡ O.can_fail out.old }
    ensures stays { O.is_there out.new ≡ O.is_there out.old }
    ensures file { O.is_of out.new ≡ O.is_of out.old }
{
    let mut waiting = Vec::new(alloc);
    give_front(log, &mut waiting, out)?;
    give_steps(
        log.steps.as_slice(),
        log.refusals.as_slice(),
        &mut waiting,
        out,
    )?;
    give_replies(log.tags, log.replies.as_slice(), &mut waiting, out)?;
    write_waiting(&mut waiting, out)
}
