//! The whole program, over a host that tells its bytes: it reads the words of a command line and does what they ask for.
//!
//! Everything that the program decides is decided here: which run the words ask for, on which file, of how many clients
//! and blocks, what is printed and where, and the exit status.

ghost use Rattle.std.specs.Prelude.{◌≡◌, ◌≢◌, ◌<◌, ◌⊎◌, [], length, false, IsTrue, IfOk, IfSome, map};
ghost use Rattle.std.specs.Io.KnownBytes.{Appends, Keeps};
ghost use Rattle.std.specs.String.{string_bytes};
ghost use Rattle.clap.specs.Words.{kind_of};
ghost use Rattle.uas_words.specs.CommandLine.{asked_for, refusals};
ghost use Rattle.uasdisk.specs.Ends.{Ends, RefusalEnds, HoldsOfOne};

use crate::host::Keeping;
use audit_run::run_audit;
use byte_io::{Sink, Source};
use capture_run::run_capture;
use clap::Error;
use clap::error::ErrorKind;
use disk_image::{run_dump, run_fill, run_info, run_make};
use draw_run::{Form, run_draw};
use log_keeper::KeptFiles;
use std::alloc::{AllocError, Global};
use std::io::Write;
use std::rt::Clock;
use std::sync::Wait;
use std::thread::Threads;
use uas_decode::run_decode;
use uas_replay::{DONE, RunFault, WORDS_REFUSED, output_fault, run_script};
use uas_trace::run_trace;
use uas_words::{Run, run_of};
use work_run::{Kept, Load, run_kept_work, run_saved_work, run_work};

/// Does what the words of a command line ask for, the program's own name first, and answers the exit status. A fault of
/// `faults` changes nothing. A long run may show there how far it is. The runtime is asked for threads and the time.
#[tactic(auto, unfolding(uas_words::specs::CommandLine::refusals, uas_words::specs::CommandLine::asked_for))]
pub fn run_words<
    R: Threads + Wait + Clock + Sync,
    F: Keeping,
    K: KeptFiles,
    S: Source,
    O: Sink,
    W: Write,
>(
    rt: &R,
    alloc: Global,
    words: &[String],
    files: &mut F,
    kept_files: &mut K,
    input: &mut S,
    output: &mut O,
    faults: &mut W,
    may_show_progress: bool,
) -> u8
    ensures run { refusals (map string_bytes words.now) ≡ [] → IfSome (asked_for (map string_bytes words.now)) (λ asked. Ends asked
        (record {
          tells = F.tells files.old;
          can_open = F.can_open files.old;
          can_create = F.can_create files.old;
          file_can_fail = F.can_fail files.old;
          tells_kept = K.tells kept_files.old;
          kept_can_fail = K.can_fail kept_files.old;
          has_input = S.is_there input.old;
          input_can_fail = S.can_fail input.old;
          output_can_fail = O.can_fail output.old;
        })
        (record { holds = F.holds files.old; kept = K.holds kept_files.old; input = S.left input.old; output = O.written output.old })
        (record { holds = F.holds files.new; kept = K.holds kept_files.new; input = S.left input.new; output = O.written output.new })
        result) }
    ensures refused { refusals (map string_bytes words.now) ≢ [] → ((result ≡ 4) × Keeps (O.written output.old) (O.written output.new))
        ⊎ HoldsOfOne (λ kind. RefusalEnds kind (O.can_fail output.old) (O.written output.old) (O.written output.new) result)
        (refusals (map string_bytes words.now)) }
    ensures quiet { may_show_progress ≡ false → result ≡ 0 → faults.new ≡ faults.old }
{
    match run_of(alloc, words) {
        Ok(Run::Replay(disks)) => run_script(alloc, disks, input, output, faults),
        Ok(Run::Trace(disks)) => run_trace(alloc, disks, input, output, faults),
        Ok(
            Run::Work {
                clients,
                tags,
                depth,
                rounds,
                log: None,
            },
        ) => run_work(
            rt,
            alloc,
            Load {
                clients,
                tags,
                depth,
                rounds,
            },
            output,
            faults,
            may_show_progress,
        ),
        Ok(
            Run::Work {
                clients,
                tags,
                depth,
                rounds,
                log: Some(log),
            },
        ) => run_saved_work(
            rt,
            alloc,
            Load {
                clients,
                tags,
                depth,
                rounds,
            },
            files,
            log,
            output,
            faults,
            may_show_progress,
        ),
        Ok(
            Run::Keep {
                clients,
                tags,
                depth,
                rounds,
                log,
                every,
            },
        ) => run_kept_work(
            rt,
            alloc,
            Load {
                clients,
                tags,
                depth,
                rounds,
            },
            kept_files,
            Kept {
                file: log,
                every: every as usize,
            },
            output,
            faults,
            may_show_progress,
        ),
        Ok(Run::Decode) => run_decode(alloc, input, output, faults),
        Ok(
            Run::Make {
                file,
                blocks,
                replaces,
            },
        ) => {
            files.keep(!replaces);
            run_make(
                alloc,
                blocks,
                files,
                file,
                output,
                faults,
                may_show_progress,
            )
        }
        Ok(Run::Info { file }) => run_info(alloc, &mut files.open(file), output, faults),
        Ok(Run::Dump { file, extent }) => {
            run_dump(alloc, extent, &mut files.open(file), output, faults)
        }
        Ok(Run::Fill { file, extent, byte }) => {
            run_fill(alloc, extent, byte, files, file, output, faults)
        }
        Ok(Run::Audit { log, head }) => run_audit(
            alloc,
            &mut files.open(log),
            head,
            output,
            faults,
            may_show_progress,
        ),
        Ok(Run::Draw(disks)) => run_draw(
            alloc,
            disks,
            Form::Picture,
            input,
            output,
            faults,
            may_show_progress,
        ),
        Ok(Run::Page(disks)) => run_draw(
            alloc,
            disks,
            Form::Page,
            input,
            output,
            faults,
            may_show_progress,
        ),
        Ok(Run::Capture { disks, file }) => run_capture(
            alloc,
            disks,
            files,
            file,
            input,
            output,
            faults,
            may_show_progress,
        ),
        Err(error) => refuse(alloc, &error, output, faults),
    }
}

/// Prints what is wrong with the words, or the help that they ask for.
fn refuse<O: Sink, W: Write>(alloc: Global, error: &Error, output: &mut O, faults: &mut W) -> u8
    ensures ends { RefusalEnds (kind_of error.now) (O.can_fail output.old) (O.written output.old) (O.written output.new) result }
    ensures quiet { result ≡ 0 → faults.new ≡ faults.old }
{
    if error.kind() == ErrorKind::OutOfMemory {
        return RunFault::NoMemory.tell(faults);
    }
    if error.use_stderr() {
        // a fault of standard error changes nothing
        let _ = write!(faults, "{error}");
        return WORDS_REFUSED;
    }
    let Ok(text) = text_of(alloc, error) else {
        return RunFault::NoMemory.tell(faults);
    };
    match output.write(text.as_bytes()) {
        Ok(()) => DONE,
        Err(fault) => output_fault(fault).tell(faults),
    }
}

/// The text of an error, help among them: never an empty one.
fn text_of(alloc: Global, error: &Error) -> Result<String, AllocError>
    ensures { IfOk result (λ text. 0 < length (string_bytes text)) }
{
    let text = format!(in alloc; "{error}")?;
    if text.is_empty() {
        return String::from_str(alloc, "uasdisk\n");
    }
    Ok(text)
}
