//! Image files: the bytes of a unit's blocks, in their order.

ghost use Rattle.std.specs.Prelude.{◌≡◌, ℕ, ◌+◌, ◌-◌, ◌*◌, ◌≤◌, ◌<◌, ◌++◌, ◌⊎◌, length, true, false, Ok, Err, IsTrue, IsErr, IfOk, IfErr};
ghost use Rattle.std.specs.Prelude.{OnOk, IfSome, MatchResult};
ghost use Rattle.std.specs.Io.KnownBytes.{Consumes, Appends, Keeps, IsAtEnd};
ghost use Rattle.std.specs.String.{string_bytes};
ghost use Rattle.disk_image.specs.Images.{blocks_in, info_text, made_image, max_image_bytes};
ghost use Rattle.disk_image.specs.Stops.{ReadGivesUp, InfoGivesUp, WriteGivesUp, InfoPrints};

use block_unit::ImageFault;
use byte_io::{Sink, Source, read_at_most};
use std::alloc::{AllocError, Global};
use std::io::Write;
use uas_profile::{BLOCK_BYTES, MAX_BLOCKS};
use uas_replay::{DONE, RunFault, file_fault, output_fault};

/// The most bytes of an image.
pub const MAX_IMAGE_BYTES: usize = BLOCK_BYTES * MAX_BLOCKS as usize;

const _: () = prove!(MAX_IMAGE_BYTES == 33_554_432);

/// How many blocks of a new image are written at once. A run of more is long, and can show how far it is.
pub(crate) const PART_BLOCKS: u32 = 4096;

/// The number of blocks in an image: `TooLarge` above 65,536, else `NotWhole` where it is empty or a part is left.
pub fn blocks_in(bytes: &[u8]) -> Result<usize, ImageFault>
    ensures { result ≡ blocks_in bytes.now }
{
    if bytes.len() > MAX_IMAGE_BYTES {
        return Err(ImageFault::TooLarge);
    }
    if bytes.is_empty() || bytes.len() % BLOCK_BYTES != 0 {
        return Err(ImageFault::NotWhole);
    }
    Ok(bytes.len() / BLOCK_BYTES)
}

/// Reads the bytes of an image: `TooLarge` once the reader gave more than an image has, else the reader's fault.
pub fn read_image<S: Source>(alloc: Global, source: &mut S) -> Result<Vec<u8>, RunFault>
    ensures bytes { IfOk result (λ bytes. IfSome (S.left source.old) (λ left. bytes.items ≡ left)) }
    ensures end { OnOk result (IsAtEnd (S.left source.new)) }
    ensures bound { IfOk result (λ bytes. length bytes.items ≤ max_image_bytes) }
    ensures there { OnOk result (IsTrue (S.is_there source.old)) }
    ensures fault { IfErr result (ReadGivesUp (S.left source.old) (S.is_there source.old) (S.can_fail source.old)) }
{
    let bytes = read_at_most(alloc, source, MAX_IMAGE_BYTES + 1).map_err(|fault| file_fault(
        fault,
    ))?;
    if bytes.len() > MAX_IMAGE_BYTES {
        return Err(RunFault::Image(ImageFault::TooLarge));
    }
    Ok(bytes)
}

/// Writes an image. Where that fails, the writer may have a beginning of it.
pub fn write_image<W: Sink>(sink: &mut W, bytes: &[u8]) -> Result<(), RunFault>
    ensures bytes { OnOk result (Appends (W.written sink.old) (W.written sink.new) bytes.now) }
    ensures there { OnOk result (IsTrue (W.is_there sink.old)) }
    ensures fault { IfErr result (WriteGivesUp (W.can_fail sink.old)) }
    ensures same { W.can_fail sink.new ≡ W.can_fail sink.old }
    ensures stays { W.is_there sink.new ≡ W.is_there sink.old }
    ensures file { W.is_of sink.new ≡ W.is_of sink.old }
{
    sink.write(bytes).map_err(|fault| file_fault(fault))
}

/// The run `info`: reads an image and prints `blocks N last L`. It answers the exit status.
pub fn run_info<S: Source, O: Sink, W: Write>(
    alloc: Global,
    source: &mut S,
    output: &mut O,
    faults: &mut W,
) -> u8
    ensures statuses { (result ≡ 0) ⊎ ((result ≡ 3) ⊎ (result ≡ 4)) }
    ensures done { result ≡ 0 → IfSome (S.left source.old) (λ bytes.
        InfoPrints (blocks_in bytes) (O.written output.old) (O.written output.new)) }
    ensures there { result ≡ 0 → IsTrue (S.is_there source.old) }
    ensures fault { result ≡ 3
        → (((IfSome (S.left source.old) (λ bytes. IsErr (blocks_in bytes)) × IsTrue (S.is_there source.old)) ⊎ IsTrue (S.can_fail source.old))
        × Keeps (O.written output.old) (O.written output.new)) ⊎ IsTrue (O.can_fail output.old) }
    ensures memory { result ≡ 4 → Keeps (O.written output.old) (O.written output.new) }
    ensures quiet { result ≡ 0 → faults.new ≡ faults.old }
{
    match info(alloc, source, output) {
        Ok(()) => DONE,
        Err(fault) => fault.tell(faults),
    }
}

fn info<S: Source, O: Sink>(alloc: Global, source: &mut S, output: &mut O) -> Result<(), RunFault>
    ensures done { OnOk result (IfSome (S.left source.old) (λ bytes.
        InfoPrints (blocks_in bytes) (O.written output.old) (O.written output.new))) }
    ensures there { OnOk result (IsTrue (S.is_there source.old)) }
    ensures fault { IfErr result (InfoGivesUp (S.left source.old) (S.is_there source.old) (S.can_fail source.old) (O.can_fail output.old)
        (O.written output.old) (O.written output.new)) }
{
    let bytes = read_image(alloc, source)?;
    let blocks = blocks_in(&bytes).map_err(RunFault::Image)?;
    let text = info_text(alloc, blocks).map_err(|_| RunFault::NoMemory)?;
    output
        .write(text.as_bytes())
        .map_err(|fault| output_fault(fault))
}

/// `blocks N last L`.
fn info_text(alloc: Global, blocks: usize) -> Result<String, AllocError>
    requires { 0 < blocks }
    ensures { IfOk result (λ text. string_bytes text ≡ info_text blocks) }
{
    let last = blocks - 1;
    format!(in alloc; "blocks {blocks} last {last}\n")
}

/// Writes so many zeroed blocks, a part at a time, and tells after each part how many are written, where that is asked for.
pub(crate) fn write_zeros<I: Sink, W: Write>(
    alloc: Global,
    blocks: u32,
    image: &mut I,
    notes: &mut W,
    shows_progress: bool,
) -> Result<(), RunFault>
    requires some { 1 ≤ blocks }
    requires most { blocks ≤ MAX_BLOCKS }
    ensures image { OnOk result (Appends (I.written image.old) (I.written image.new) (made_image blocks)) }
    ensures there { OnOk result (IsTrue (I.is_there image.old)) }
    ensures fault { IfErr result (WriteGivesUp (I.can_fail image.old)) }
    ensures stays { I.is_there image.new ≡ I.is_there image.old }
    ensures file { I.is_of image.new ≡ I.is_of image.old }
    ensures quiet { shows_progress ≡ false → notes.new ≡ notes.old }
{
    let part = PART_BLOCKS.min(blocks);
    let zeros = vec![in alloc; 0; BLOCK_BYTES * part as usize].map_err(|_| RunFault::NoMemory)?;
    let mut done = 0;
    while done < blocks {
        let count = part.min(blocks - done);
        write_image(image, &zeros[..BLOCK_BYTES * count as usize])?;
        done += count;
        if shows_progress {
            // a fault of `notes` changes nothing
            let _ = writeln!(notes, "{done} of {blocks} blocks");
        }
    }
    Ok(())
}
