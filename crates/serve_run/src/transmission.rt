//! The transmission: requests in their order, each answered before the next one is read. What each of them is told, and what the file is
//! then, is specs/Filed.antt; the bytes that are read and written are specs/Sessions.antt, and up to a fault specs/Broken.antt.

ghost use Rattle.std.specs.Prelude.{◌≡◌, ◌⊎◌, ◌+◌, ◌*◌, ◌≤◌, false, true, [], length, Err, IsTrue, IfErr, OnOk, OnErr};
ghost use Rattle.file_disk.specs.Written.{written_over};
ghost use Rattle.serve_run.specs.Broken.{Serves, TransmissionBroken};
ghost use Rattle.serve_run.specs.Faults.{Sends};
ghost use Rattle.serve_run.specs.Filed.{filed};
ghost use Rattle.serve_run.specs.Sessions.{Replies, Transmitted};
ghost use Rattle.serve_run.specs.Serves.{is_disconnection, refusal_of};
ghost use Rattle.serve_run.specs.Transcript.{has_fua};

use crate::fault::ServeFault;
use crate::messages::{
    FUA, error_of, make_room, read_data, read_request, refusal_of, refuse, send_part, tell,
};
use byte_io::{Output, Source};
use file_disk::{Blocks, DiskFault, FileDisk};
use nbd::{Command, ErrorNumber, REPLY_BYTES, Request};
use std::alloc::Global;

/// Reads requests and answers them, each before the next one is read, until the client leaves, or a fault ends that. Where the client
/// left, its requests and what they brought are what was read, and what was written are the replies, each by the file as it was by then.
/// At a fault that holds of all requests but the last, of which nothing was done, or all, and then perhaps a beginning of its reply written.
pub fn transmit<B: Blocks, S: Source, O: Output>(
    alloc: Global,
    disk: &mut FileDisk,
    file: &mut B,
    input: &mut S,
    output: &mut O,
) -> Result<(), ServeFault>
    requires { IsTrue (B.tells file.old) → length (B.holds file.old) ≡ 512 * disk.old }
    ensures answered { OnOk result (Transmitted (B.can_fail file.old) (B.tells file.old) (512 * disk.old)
        (filed (B.holds file.old) (B.synced file.old)) (filed (B.holds file.new) (B.synced file.new))
        (S.left input.old) (S.left input.new) (O.written output.old) (O.written output.new)) }
    ensures broken { IfErr result (λ reason. TransmissionBroken reason (S.can_fail input.old) (O.can_fail output.old)
        (B.can_fail file.old) (B.tells file.old) (512 * disk.old)
        (filed (B.holds file.old) (B.synced file.old)) (filed (B.holds file.new) (B.synced file.new))
        (S.left input.old) (S.left input.new) (O.written output.old) (O.written output.new)) }
    ensures disk { disk.new ≡ disk.old }
    ensures told { B.tells file.new ≡ B.tells file.old }
    ensures same { B.can_fail file.new ≡ B.can_fail file.old }
    ensures len { IsTrue (B.tells file.old) → length (B.holds file.new) ≡ length (B.holds file.old) }
{
    let mut room = Vec::new(alloc);
    for turn in 0..u64::MAX {
        let Some(request) = read_request(input)? else {
            return Ok(());
        };
        serve_request(disk, &mut room, file, input, output, &request)?;
    }
    Err(ServeFault::TooMany)
}

/// Answers a request that isn't a disconnection: what it brings is read, and its reply is written. `room` holds the data of the request
/// while it is served.
pub fn serve_request<B: Blocks, S: Source, O: Output>(
    disk: &mut FileDisk,
    room: &mut Vec<u8>,
    file: &mut B,
    input: &mut S,
    output: &mut O,
    request: &Request,
) -> Result<(), ServeFault>
    requires file { IsTrue (B.tells file.old) → length (B.holds file.old) ≡ 512 * disk.old }
    requires stays { is_disconnection request.now.command ≡ false }
    ensures served { Serves result (S.can_fail input.old) (O.can_fail output.old) (B.can_fail file.old) (B.tells file.old) (512 * disk.old)
        (filed (B.holds file.old) (B.synced file.old)) (filed (B.holds file.new) (B.synced file.new)) request.now
        (S.left input.old) (S.left input.new) (O.written output.old) (O.written output.new) }
    ensures disk { disk.new ≡ disk.old }
    ensures told { B.tells file.new ≡ B.tells file.old }
    ensures same { B.can_fail file.new ≡ B.can_fail file.old }
    ensures len { IsTrue (B.tells file.old) → length (B.holds file.new) ≡ length (B.holds file.old) }
    ensures read { S.can_fail input.new ≡ S.can_fail input.old }
    ensures written { O.can_fail output.new ≡ O.can_fail output.old }
{
    let refusal = refusal_of(disk.size(), request);
    if refusal != ErrorNumber::None {
        return refuse(input, output, request, refusal);
    }
    match request.command {
        Command::Read => give(disk, room, file, output, request),
        Command::Write => take(disk, room, file, input, output, request),
        Command::Flush | Command::Disconnect | Command::Other(_) => {
            make_safe(disk, file, output, request)
        }
    }
}

/// Serves a READ: its bytes stand in `room` behind the place of the reply's head.
fn give<B: Blocks, O: Output>(
    disk: &mut FileDisk,
    room: &mut Vec<u8>,
    file: &B,
    output: &mut O,
    request: &Request,
) -> Result<(), ServeFault>
    requires served { refusal_of (512 * disk.old) request.now ≡ ErrorNumber.None }
    requires command { request.now.command ≡ Command.Read }
    requires fits { request.now.offset + request.now.length ≤ 512 * disk.old }
    requires file { IsTrue (B.tells file.now) → length (B.holds file.now) ≡ 512 * disk.old }
    ensures answered { ((result ≡ Err ServeFault.NoMemory) × (O.written output.new ≡ O.written output.old))
        ⊎ Replies (B.can_fail file.now) (B.tells file.now) (512 * disk.old)
        (filed (B.holds file.now) (B.synced file.now)) (filed (B.holds file.now) (B.synced file.now)) request.now []
        (Sends result (O.can_fail output.old) (O.written output.old) (O.written output.new)) }
    ensures disk { disk.new ≡ disk.old }
    ensures written { O.can_fail output.new ≡ O.can_fail output.old }
{
    let end = REPLY_BYTES + request.length as usize;
    make_room(room, end)?;
    give_part(disk, &mut room[..end], file, output, request)
}

/// Serves a READ of as many bytes as `part` has behind the place of the reply's head.
fn give_part<B: Blocks, O: Output>(
    disk: &mut FileDisk,
    part: &mut [u8],
    file: &B,
    output: &mut O,
    request: &Request,
) -> Result<(), ServeFault>
    requires served { refusal_of (512 * disk.old) request.now ≡ ErrorNumber.None }
    requires command { request.now.command ≡ Command.Read }
    requires len { length part.old ≡ 16 + request.now.length }
    requires fits { request.now.offset + request.now.length ≤ 512 * disk.old }
    requires file { IsTrue (B.tells file.now) → length (B.holds file.now) ≡ 512 * disk.old }
    ensures answered { Replies (B.can_fail file.now) (B.tells file.now) (512 * disk.old)
        (filed (B.holds file.now) (B.synced file.now)) (filed (B.holds file.now) (B.synced file.now)) request.now []
        (Sends result (O.can_fail output.old) (O.written output.old) (O.written output.new)) }
    ensures disk { disk.new ≡ disk.old }
    ensures written { O.can_fail output.new ≡ O.can_fail output.old }
{
    match disk.read(file, request.offset, &mut part[REPLY_BYTES..]) {
        Ok(()) => send_part(output, part, ErrorNumber::None, request.cookie),
        Err(DiskFault) => tell(output, request.cookie, ErrorNumber::Io),
    }
}

/// Reads the data of a WRITE, all of it before anything is written, and serves it.
fn take<B: Blocks, S: Source, O: Output>(
    disk: &mut FileDisk,
    room: &mut Vec<u8>,
    file: &mut B,
    input: &mut S,
    output: &mut O,
    request: &Request,
) -> Result<(), ServeFault>
    requires served { refusal_of (512 * disk.old) request.now ≡ ErrorNumber.None }
    requires command { request.now.command ≡ Command.Write }
    requires fits { request.now.offset + request.now.length ≤ 512 * disk.old }
    requires file { IsTrue (B.tells file.old) → length (B.holds file.old) ≡ 512 * disk.old }
    ensures served { Serves result (S.can_fail input.old) (O.can_fail output.old) (B.can_fail file.old) (B.tells file.old) (512 * disk.old)
        (filed (B.holds file.old) (B.synced file.old)) (filed (B.holds file.new) (B.synced file.new)) request.now
        (S.left input.old) (S.left input.new) (O.written output.old) (O.written output.new) }
    ensures disk { disk.new ≡ disk.old }
    ensures told { B.tells file.new ≡ B.tells file.old }
    ensures same { B.can_fail file.new ≡ B.can_fail file.old }
    ensures len { IsTrue (B.tells file.old) → length (B.holds file.new) ≡ length (B.holds file.old) }
    ensures read { S.can_fail input.new ≡ S.can_fail input.old }
    ensures written { O.can_fail output.new ≡ O.can_fail output.old }
{
    read_data(room, input, request)?;
    let stored = store(disk, file, request, &room[..request.length as usize]);
    tell(output, request.cookie, error_of(stored))
}

/// Writes the data of a WRITE, and makes them safe where it has FUA.
fn store<B: Blocks>(
    disk: &mut FileDisk,
    file: &mut B,
    request: &Request,
    bytes: &[u8],
) -> Result<(), DiskFault>
    requires fits { request.now.offset + length bytes.now ≤ 512 * disk.old }
    requires file { IsTrue (B.tells file.old) → length (B.holds file.old) ≡ 512 * disk.old }
    ensures disk { disk.new ≡ disk.old }
    ensures bytes { OnOk result (IsTrue (B.tells file.old) → B.holds file.new ≡ written_over (B.holds file.old) request.now.offset bytes.now) }
    ensures safe { OnOk result (has_fua request.now ≡ true → IsTrue (B.tells file.old) → B.synced file.new ≡ B.holds file.new) }
    ensures plain { has_fua request.now ≡ false → B.synced file.new ≡ B.synced file.old }
    ensures kept { OnErr result (IsTrue (B.tells file.old) → B.synced file.new ≡ B.synced file.old) }
    ensures fault { OnErr result (IsTrue (B.can_fail file.old)) }
    ensures told { B.tells file.new ≡ B.tells file.old }
    ensures same { B.can_fail file.new ≡ B.can_fail file.old }
    ensures len { IsTrue (B.tells file.old) → length (B.holds file.new) ≡ length (B.holds file.old) }
{
    disk.write(file, request.offset, bytes)?;
    if request.flags.0 == FUA {
        return disk.flush(file);
    }
    Ok(())
}

/// Serves a FLUSH.
fn make_safe<B: Blocks, O: Output>(
    disk: &mut FileDisk,
    file: &mut B,
    output: &mut O,
    request: &Request,
) -> Result<(), ServeFault>
    requires served { refusal_of (512 * disk.old) request.now ≡ ErrorNumber.None }
    requires command { request.now.command ≡ Command.Flush }
    ensures answered { Replies (B.can_fail file.old) (B.tells file.old) (512 * disk.old)
        (filed (B.holds file.old) (B.synced file.old)) (filed (B.holds file.new) (B.synced file.new)) request.now []
        (Sends result (O.can_fail output.old) (O.written output.old) (O.written output.new)) }
    ensures disk { disk.new ≡ disk.old }
    ensures told { B.tells file.new ≡ B.tells file.old }
    ensures same { B.can_fail file.new ≡ B.can_fail file.old }
    ensures len { IsTrue (B.tells file.old) → length (B.holds file.new) ≡ length (B.holds file.old) }
    ensures written { O.can_fail output.new ≡ O.can_fail output.old }
{
    let flushed = disk.flush(file);
    tell(output, request.cookie, error_of(flushed))
}
