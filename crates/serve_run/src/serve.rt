//! The run `serve`. What a session reads and writes, and what it makes of the file, is specs/Sessions.antt, and at a fault specs/Broken.antt.

ghost use Rattle.std.specs.Prelude.{◌≡◌, ◌≢◌, ◌*◌, ◌^◌, ◌<◌, ◌≤◌, ◌⊎◌, false, length, IsTrue, IsOk, IsErr, IsNone, IsSome, IfErr, IfOk, IfSome, OnOk, Err};
ghost use Rattle.std.specs.Io.KnownBytes.{Keeps};
ghost use Rattle.serve_run.specs.Beginnings.{BrokenBegins};
ghost use Rattle.serve_run.specs.Broken.{Failed, Fails, IsReported, TalkBroken};
ghost use Rattle.serve_run.specs.Filed.{filed};
ghost use Rattle.serve_run.specs.Sessions.{Served, Talked};
ghost use Rattle.serve_run.specs.Sizes.{blocks_in};

use crate::fault::ServeFault;
use crate::handshake::shake;
use crate::transmission::transmit;
use block_unit::ImageFault;
use byte_io::{Output, Source};
use file_disk::{Blocks, DiskFault, FileDisk};
use std::alloc::Global;
use uas_replay::DONE;

/// The bytes of a block.
const BLOCK_BYTES: u64 = 512;

/// The most blocks of a disk.
const MOST_BLOCKS: u64 = 1 << 48;

const _: () = prove!(MOST_BLOCKS == 281_474_976_710_656);

/// The run `serve`: serves `file`, which is there, as a disk over `input` and `output`. Nothing is written to the client before
/// the file's length was found to be 1 to 2^48 whole blocks. When the client leaves, or a fault ends the session, what was written
/// is flushed. It answers the exit status: 3 at a fault of the file, of its length, of the client's messages or of the streams,
/// 4 for want of memory, else 0. A fault has its line on `faults`.
pub fn run_serve<B: Blocks, S: Source, O: Output, F: Output>(
    alloc: Global,
    file: &mut Option<B>,
    input: &mut S,
    output: &mut O,
    faults: &mut F,
) -> u8
    ensures statuses { (result ≡ 0) ⊎ ((result ≡ 3) ⊎ (result ≡ 4)) }
    ensures there { result ≡ 0 → IsSome file.old }
    ensures whole { result ≡ 0 → IfSome file.old (λ was. IsTrue (B.tells was) → IsOk (blocks_in (length (B.holds was)))) }
    // To the client of a file whose length is refused not a byte is written.
    ensures refused { IfSome file.old (λ was.
        IsTrue (B.tells was) → IsErr (blocks_in (length (B.holds was))) → Keeps (O.written output.old) (O.written output.new)) }
    // What the file holds in the end is safe.
    ensures safe { result ≡ 0 → IfSome file.new (λ kept. IsTrue (B.tells kept) → B.synced kept ≡ B.holds kept) }
    ensures kept { IsSome file.old → IsSome file.new }
    // What the client asked was answered by the file, and what it was told is just that.
    ensures served { result ≡ 0 → IfSome file.old (λ was. IfSome file.new (λ kept. Served (B.can_fail was) (B.tells was)
        (filed (B.holds was) (B.synced was)) (filed (B.holds kept) (B.synced kept))
        (S.left input.old) (S.left input.new) (O.written output.old) (O.written output.new))) }
    // A fault has its cause and its line: what was told up to then was done, and the file holds what was done.
    ensures fails { result ≢ 0 → IfSome file.old (λ was. IfSome file.new (λ kept. Fails result
        (S.can_fail input.old) (O.can_fail output.old) (F.can_fail faults.old) (B.can_fail was) (B.tells was)
        (filed (B.holds was) (B.synced was)) (filed (B.holds kept) (B.synced kept))
        (S.left input.old) (S.left input.new) (O.written output.old) (O.written output.new)
        (F.written faults.old) (F.written faults.new))) }
    ensures absent { IsNone file.old → IsReported ServeFault.File result (F.can_fail faults.old) (F.written faults.old) (F.written faults.new)
        × (O.written output.new ≡ O.written output.old) }
    ensures quiet { result ≡ 0 → F.written faults.new ≡ F.written faults.old }
    // Whatever ends the session, what a file holds that can't fail is safe in the end, or the file is as it was.
    ensures rescued { IfSome file.old (λ was. IfSome file.new (λ kept.
        IsTrue (B.tells was) → B.can_fail was ≡ false → (B.synced kept ≡ B.holds kept) ⊎ (kept ≡ was))) }
{
    match serve(alloc, file, input, output) {
        Ok(()) => DONE,
        Err(fault) => fault.tell(faults),
    }
}

fn serve<B: Blocks, S: Source, O: Output>(
    alloc: Global,
    file: &mut Option<B>,
    input: &mut S,
    output: &mut O,
) -> Result<(), ServeFault>
    ensures there { OnOk result (IsSome file.old) }
    ensures whole { OnOk result (IfSome file.old (λ was. IsTrue (B.tells was) → IsOk (blocks_in (length (B.holds was))))) }
    ensures refused { IfSome file.old (λ was.
        IsTrue (B.tells was) → IsErr (blocks_in (length (B.holds was))) → Keeps (O.written output.old) (O.written output.new)) }
    ensures safe { OnOk result (IfSome file.new (λ kept. IsTrue (B.tells kept) → B.synced kept ≡ B.holds kept)) }
    ensures kept { IsSome file.old → IsSome file.new }
    ensures served { OnOk result (IfSome file.old (λ was. IfSome file.new (λ kept. Served (B.can_fail was) (B.tells was)
        (filed (B.holds was) (B.synced was)) (filed (B.holds kept) (B.synced kept))
        (S.left input.old) (S.left input.new) (O.written output.old) (O.written output.new)))) }
    ensures failed { IfErr result (λ reason. IfSome file.old (λ was. IfSome file.new (λ kept. Failed reason
        (S.can_fail input.old) (O.can_fail output.old) (B.can_fail was) (B.tells was)
        (filed (B.holds was) (B.synced was)) (filed (B.holds kept) (B.synced kept))
        (S.left input.old) (S.left input.new) (O.written output.old) (O.written output.new)))) }
    ensures absent { IsNone file.old → (result ≡ Err ServeFault.File) × (O.written output.new ≡ O.written output.old) }
    ensures rescued { IfSome file.old (λ was. IfSome file.new (λ kept.
        IsTrue (B.tells was) → B.can_fail was ≡ false → (B.synced kept ≡ B.holds kept) ⊎ (kept ≡ was))) }
{
    let Some(file) = file else {
        return Err(ServeFault::File);
    };
    let blocks = match blocks_in(file.size()) {
        Ok(blocks) => blocks,
        Err(fault) => return Err(ServeFault::Image(fault)),
    };
    let Ok(mut disk) = FileDisk::new(alloc, blocks) else {
        return Err(ServeFault::NoMemory);
    };
    serve_client(alloc, &mut disk, file, input, output)
}

/// Serves a client until it leaves, or a fault ends that, and flushes.
fn serve_client<B: Blocks, S: Source, O: Output>(
    alloc: Global,
    disk: &mut FileDisk,
    file: &mut B,
    input: &mut S,
    output: &mut O,
) -> Result<(), ServeFault>
    requires { IsTrue (B.tells file.old) → length (B.holds file.old) ≡ 512 * disk.old }
    ensures safe { OnOk result (IsTrue (B.tells file.new) → B.synced file.new ≡ B.holds file.new) }
    ensures served { OnOk result (Served (B.can_fail file.old) (B.tells file.old)
        (filed (B.holds file.old) (B.synced file.old)) (filed (B.holds file.new) (B.synced file.new))
        (S.left input.old) (S.left input.new) (O.written output.old) (O.written output.new)) }
    ensures failed { IfErr result (λ reason. Failed reason
        (S.can_fail input.old) (O.can_fail output.old) (B.can_fail file.old) (B.tells file.old)
        (filed (B.holds file.old) (B.synced file.old)) (filed (B.holds file.new) (B.synced file.new))
        (S.left input.old) (S.left input.new) (O.written output.old) (O.written output.new)) }
    ensures rescued { IsTrue (B.tells file.old) → B.can_fail file.old ≡ false → B.synced file.new ≡ B.holds file.new }
{
    let served = talk(alloc, disk, file, input, output);
    let flushed = disk.flush(file);
    served?;
    match flushed {
        Ok(()) => Ok(()),
        Err(DiskFault) => Err(ServeFault::File),
    }
}

/// Greets a client and answers its requests until it leaves.
fn talk<B: Blocks, S: Source, O: Output>(
    alloc: Global,
    disk: &mut FileDisk,
    file: &mut B,
    input: &mut S,
    output: &mut O,
) -> Result<(), ServeFault>
    requires { IsTrue (B.tells file.old) → length (B.holds file.old) ≡ 512 * disk.old }
    ensures talked { OnOk result (Talked (B.can_fail file.old) (B.tells file.old) (512 * disk.old)
        (filed (B.holds file.old) (B.synced file.old)) (filed (B.holds file.new) (B.synced file.new))
        (S.left input.old) (S.left input.new) (O.written output.old) (O.written output.new)) }
    ensures broken { IfErr result (λ reason. TalkBroken reason
        (S.can_fail input.old) (O.can_fail output.old) (B.can_fail file.old) (B.tells file.old) (512 * disk.old)
        (filed (B.holds file.old) (B.synced file.old)) (filed (B.holds file.new) (B.synced file.new))
        (S.left input.old) (S.left input.new) (O.written output.old) (O.written output.new)) }
    ensures told { B.tells file.new ≡ B.tells file.old }
    ensures same { B.can_fail file.new ≡ B.can_fail file.old }
{
    if !shake(input, output, disk.size())? {
        return Ok(());
    }
    transmit(alloc, disk, file, input, output)
}

/// Law: what a session that a fault ended has told is a beginning of what it tells, and its requests were done.
pub fn broken_sessions_begin()
    ensures { BrokenBegins }
{}

/// How many blocks a file of so many bytes has: at least one, whole ones, and at most 2^48.
fn blocks_in(size: u64) -> Result<u64, ImageFault>
    ensures blocks { result ≡ blocks_in size }
    ensures whole { IfOk result (λ blocks. 512 * blocks ≡ size) }
    ensures some { IfOk result (λ blocks. 1 ≤ blocks) }
    ensures most { IfOk result (λ blocks. blocks ≤ 2 ^ 48) }
{
    if size / BLOCK_BYTES > MOST_BLOCKS {
        return Err(ImageFault::TooLarge);
    }
    if size == 0 || size % BLOCK_BYTES != 0 {
        return Err(ImageFault::NotWhole);
    }
    Ok(size / BLOCK_BYTES)
}
