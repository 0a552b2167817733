//! The run `make`: a new image of zeroed blocks.

ghost use Rattle.uas_profile.specs.declared.TheConstants.{MAX_BLOCKS};
ghost use Rattle.std.specs.Prelude.{◌≡◌, ◌≤◌, ◌⊎◌, Some, false, IsTrue, IfErr, OnOk, OnErr};
ghost use Rattle.std.specs.Io.KnownBytes.{Appends, Keeps};
ghost use Rattle.disk_image.specs.Images.{made_image, made_text};
ghost use Rattle.disk_image.specs.Stops.{MakeGivesUp, WriteGivesUp};

use crate::image::{PART_BLOCKS, write_zeros};
use byte_io::{Files, Sink};
use std::alloc::Global;
use std::io::Write;
use uas_profile::MAX_BLOCKS;
use uas_replay::{DONE, RunFault, file_fault, output_fault};

/// The run `make`: creates the file of a name, an image of `blocks` zeroed blocks, 1 to 65,536, and prints `made N`. A long run
/// shows on `faults` how far it is, where that is asked for. It answers the exit status: 3 at a fault of the file or of standard
/// output, 4 for want of memory, else 0.
pub fn run_make<F: Files, O: Sink, W: Write>(
    alloc: Global,
    blocks: u32,
    files: &mut F,
    file: &str,
    output: &mut O,
    faults: &mut W,
    shows_progress: bool,
) -> u8
    requires some { 1 ≤ blocks }
    requires most { blocks ≤ MAX_BLOCKS }
    ensures statuses { (result ≡ 0) ⊎ ((result ≡ 3) ⊎ (result ≡ 4)) }
    ensures image { result ≡ 0 → IsTrue (F.tells files.old) → F.holds files.new file.now ≡ Some (made_image blocks) }
    ensures told { result ≡ 0 → IsTrue (F.can_create files.old file.now)
        × Appends (O.written output.old) (O.written output.new) (made_text blocks) }
    ensures fault { result ≡ 3 → (IsTrue (F.can_fail files.old file.now) × Keeps (O.written output.old) (O.written output.new))
        ⊎ (IsTrue (O.can_fail output.old) × (IsTrue (F.tells files.old) → F.holds files.new file.now ≡ Some (made_image blocks))) }
    ensures memory { result ≡ 4 → Keeps (O.written output.old) (O.written output.new) }
    ensures quiet { result ≡ 0 → shows_progress ≡ false → faults.new ≡ faults.old }
{
    let shows_progress = shows_progress && blocks > PART_BLOCKS;
    match make(alloc, blocks, files, file, output, faults, shows_progress) {
        Ok(()) => DONE,
        Err(fault) => fault.tell(faults),
    }
}

fn make<F: Files, O: Sink, W: Write>(
    alloc: Global,
    blocks: u32,
    files: &mut F,
    file: &str,
    output: &mut O,
    notes: &mut W,
    shows_progress: bool,
) -> Result<(), RunFault>
    requires some { 1 ≤ blocks }
    requires most { blocks ≤ MAX_BLOCKS }
    ensures image { OnOk result (IsTrue (F.tells files.old) → F.holds files.new file.now ≡ Some (made_image blocks)) }
    ensures created { OnOk result (IsTrue (F.can_create files.old file.now)) }
    ensures told { OnOk result (Appends (O.written output.old) (O.written output.new) (made_text blocks)) }
    ensures fault { IfErr result (MakeGivesUp blocks (F.tells files.old) (F.holds files.new file.now) (F.can_fail files.old file.now)
        (O.can_fail output.old) (O.written output.old) (O.written output.new)) }
    ensures quiet { shows_progress ≡ false → notes.new ≡ notes.old }
{
    let text = format!(in alloc; "made {blocks}\n").map_err(|_| RunFault::NoMemory)?;
    make_file(alloc, blocks, files, file, notes, shows_progress)?;
    output
        .write(text.as_bytes())
        .map_err(|fault| output_fault(fault))
}

/// Creates the file of a name, of so many zeroed blocks. At a fault every file holds what it held.
fn make_file<F: Files, W: Write>(
    alloc: Global,
    blocks: u32,
    files: &mut F,
    file: &str,
    notes: &mut W,
    shows_progress: bool,
) -> Result<(), RunFault>
    requires some { 1 ≤ blocks }
    requires most { blocks ≤ MAX_BLOCKS }
    ensures image { OnOk result (IsTrue (F.tells files.old) → F.holds files.new file.now ≡ Some (made_image blocks)) }
    ensures created { OnOk result (IsTrue (F.can_create files.old file.now)) }
    ensures fault { IfErr result (WriteGivesUp (F.can_fail files.old file.now)) }
    ensures held { OnErr result (IsTrue (F.tells files.old) → F.holds files.new ≡ F.holds files.old) }
    ensures quiet { shows_progress ≡ false → notes.new ≡ notes.old }
{
    let mut image = files.create(file);
    match write_zeros(alloc, blocks, &mut image, notes, shows_progress) {
        Ok(()) => files.close(image).map_err(|fault| file_fault(fault)),
        Err(fault) => {
            files.give_up(image);
            Err(fault)
        }
    }
}
