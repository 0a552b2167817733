//! The text of a log of the third version, which waits for its sink until there is a piece of it.
ghost use Rattle.std.specs.Prelude.{◌≡◌, ◌≤◌, ◌+◌, Err, IfErr, IfOk, IsTrue, OnOk, length};
ghost use Rattle.std.specs.Io.KnownBytes.{Appends};
ghost use Rattle.kept_log.specs.Form.{kept_text};
ghost use Rattle.log_keeper.specs.Entries.{AllFit, entries_behind, records_behind, sum_behind};
ghost use Rattle.log_file.specs.FileText.{IsKeepable, whole_log};
ghost use Rattle.log_file.specs.Pieces.{Gave};

use crate::pieces::{PIECE_BYTES, write_waiting};
use byte_io::Sink;
use kept_log::{Why, write_end};
use log_keeper::{KeepStop, Place, add_some, begin};
use std::alloc::Global;
use uas_log::Log;

/// Writes a log's text of the third version, a piece at a time: its head, the records of its steps, and its end.
pub(crate) fn write_records<O: Sink>(alloc: Global, log: &Log, out: &mut O) -> Result<(), KeepStop>
    ensures text { OnOk result (Appends (O.written out.old) (O.written out.new) (kept_text (whole_log log.now))) }
    ensures fit { OnOk result (IsKeepable log.now) }
    ensures limits { result ≡ Err KeepStop.Limits → IsKeepable log.now → ⊥ }
    ensures there { OnOk result (IsTrue (O.is_there out.old)) }
    ensures fault { result ≡ Err KeepStop.File → IsTrue (O.can_fail out.old) }
    ensures same { O.can_fail out.new ≡ O.can_fail out.old }
    ensures stays { O.is_there out.new ≡ O.is_there out.old }
    ensures file { O.is_of out.new ≡ O.is_of out.old }
{
    let mut waiting = Vec::new(alloc);
    let mut place = begin(alloc, log, &mut waiting)?;
    give_records(alloc, log, &mut place, &mut waiting, out)?;
    let (steps, sum) = (place.steps as u64, place.sum);
    write_end(alloc, steps, Why::Complete, sum, &mut waiting).map_err(|_| KeepStop::NoMemory)?;
    write_waiting(&mut waiting, out)?;
    Ok(())
}

/// Gives the records of all steps behind a place.
fn give_records<O: Sink>(
    alloc: Global,
    log: &Log,
    place: &mut Place,
    waiting: &mut Vec<u8>,
    out: &mut O,
) -> Result<(), KeepStop>
    requires few { length log.now.units ≤ 31 }
    requires tags { 1 ≤ log.now.tags }
    ensures text { OnOk result (Gave O.written out.old waiting.old.items out.new waiting.new.items (records_behind log.now place.old)) }
    ensures sum { OnOk result (place.new.sum ≡ sum_behind log.now place.old) }
    ensures steps { OnOk result (place.new.steps ≡ place.old.steps + length (entries_behind log.now place.old)) }
    ensures fit { OnOk result (AllFit (length log.now.units) (entries_behind log.now place.old)) }
    ensures limits { result ≡ Err KeepStop.Limits → AllFit (length log.now.units) (entries_behind log.now place.old) → ⊥ }
    ensures fault { result ≡ Err KeepStop.File → IsTrue (O.can_fail out.old) }
    ensures same { O.can_fail out.new ≡ O.can_fail out.old }
    ensures stays { O.is_there out.new ≡ O.is_there out.old }
    ensures file { O.is_of out.new ≡ O.is_of out.old }
{
    while !add_some(alloc, log, place, waiting, PIECE_BYTES)? {
        write_waiting(waiting, out)?;
    }
    Ok(())
}
