//! A request, as it is read or refused, and the bytes behind it and behind its reply.

ghost use Rattle.std.specs.Prelude.{◌≡◌, ◌≤◌, ◌⊎◌, ◌++◌, false, length, take, drop, Ok, None, IfErr, IfOk, IfSome, OnOk, IsOkUnless};
ghost use Rattle.std.specs.Io.KnownBytes.{Consumes};
ghost use Rattle.byte_io.specs.Streams.{Gave};
ghost use Rattle.nbd.specs.Transmission.{IsCommand, reply_text, request_text};
ghost use Rattle.serve_run.specs.Broken.{IsNoRequest, LacksBytes, Undone};
ghost use Rattle.serve_run.specs.Faults.{IsCut, Misses, Sends};
ghost use Rattle.serve_run.specs.Serves.{error_of, has_bad_length, is_beyond, is_disconnection, refusal_of};
ghost use Rattle.serve_run.specs.Sessions.{Leaves};
ghost use Rattle.serve_run.specs.Transcript.{brought_bytes};

use crate::fault::ServeFault;
use crate::handshake::MOST_BYTES;
use crate::link::{drop_rest, read_message, read_rest, send};
use byte_io::{Output, Source};
use file_disk::DiskFault;
use nbd::{
    Command, ErrorNumber, NotNbd, REPLY_BYTES, REQUEST_BYTES, Reply, Request, request_writes_back,
};

/// The flag FUA, the one that is offered.
pub(crate) const FUA: u16 = 1;

/// Reads a request of the client; none where it leaves, by the end of its bytes or by a disconnection.
pub(crate) fn read_request<S: Source>(input: &mut S) -> Result<Option<Request>, ServeFault>
    ensures request { IfOk result (λ found. IfSome found (λ request. Consumes (S.left input.old) (S.left input.new) (request_text request))) }
    ensures named { IfOk result (λ found. IfSome found (λ request. IsCommand request.command)) }
    ensures stays { IfOk result (λ found. IfSome found (λ request. is_disconnection request.command ≡ false)) }
    ensures leaves { result ≡ Ok None → Leaves (S.left input.old) (S.left input.new) }
    ensures refused { IfErr result (λ reason.
        Misses ServeFault.Request IsNoRequest 28 reason (S.can_fail input.old) (S.left input.old) (S.left input.new)) }
    ensures same { S.can_fail input.new ≡ S.can_fail input.old }
{
    let mut bytes = [0; REQUEST_BYTES];
    if !read_message(input, &mut bytes)? {
        return Ok(None);
    }
    request_writes_back(&bytes);
    match Request::from_bytes(&bytes) {
        Ok(request) if is_disconnection(request.command) => Ok(None),
        Ok(request) => Ok(Some(request)),
        Err(NotNbd) => Err(ServeFault::Request),
    }
}

/// Whether a client leaves by this.
fn is_disconnection(command: Command) -> bool
    ensures { result ≡ is_disconnection command }
{
    match command {
        Command::Disconnect => true,
        Command::Read | Command::Write | Command::Flush | Command::Other(_) => false,
    }
}

/// Reads the data of a WRITE, as many bytes as it names, into the front of `taken`, which grows where it is shorter.
pub(crate) fn read_data<S: Source>(
    taken: &mut Vec<u8>,
    input: &mut S,
    request: &Request,
) -> Result<(), ServeFault>
    requires { request.now.command ≡ Command.Write }
    ensures room { OnOk result (request.now.length ≤ length taken.new.items) }
    ensures bytes { OnOk result (Consumes (S.left input.old) (S.left input.new) (take request.now.length taken.new.items)) }
    ensures lacks { IfErr result (λ reason. LacksBytes reason (S.can_fail input.old) request.now (S.left input.old) (S.left input.new)) }
    ensures same { S.can_fail input.new ≡ S.can_fail input.old }
{
    let count = request.length as usize;
    make_room(taken, count)?;
    read_front(input, taken, count)
}

/// Reads so many bytes into the front of `room`.
fn read_front<S: Source>(input: &mut S, room: &mut [u8], count: usize) -> Result<(), ServeFault>
    requires { count ≤ length room.old }
    ensures bytes { OnOk result (Consumes (S.left input.old) (S.left input.new) (take count room.new)) }
    ensures cut { IfErr result (λ reason. IsCut reason (S.can_fail input.old) 0 count (S.left input.old) (S.left input.new)) }
    ensures same { S.can_fail input.new ≡ S.can_fail input.old }
{
    read_rest(input, &mut room[..count])
}

/// Makes room for so many bytes.
pub(crate) fn make_room(room: &mut Vec<u8>, count: usize) -> Result<(), ServeFault>
    ensures room { OnOk result (count ≤ length room.new.items) }
    ensures memory { IsOkUnless result ServeFault.NoMemory }
{
    if room.len() < count && room.resize(count, 0).is_err() {
        return Err(ServeFault::NoMemory);
    }
    Ok(())
}

/// Answers a request that isn't served, for this reason; a WRITE's data are dropped.
pub(crate) fn refuse<S: Source, O: Output>(
    input: &mut S,
    output: &mut O,
    request: &Request,
    refusal: ErrorNumber,
) -> Result<(), ServeFault>
    ensures refused { Undone result (S.can_fail input.old) request.now
        (S.left input.old) (S.left input.new) (O.written output.old) (O.written output.new)
        ⊎ (Gave (S.left input.old) (S.left input.new) (brought_bytes request.now request.now.command)
        × Sends result (O.can_fail output.old) (O.written output.old) (O.written output.new)
        (reply_text (record { error = refusal; cookie = request.now.cookie }))) }
    ensures read { S.can_fail input.new ≡ S.can_fail input.old }
    ensures written { O.can_fail output.new ≡ O.can_fail output.old }
{
    drop_data(input, request)?;
    tell(output, request.cookie, refusal)
}

/// Drops what a request brings.
fn drop_data<S: Source>(input: &mut S, request: &Request) -> Result<(), ServeFault>
    ensures bytes { OnOk result (Gave (S.left input.old) (S.left input.new) (brought_bytes request.now request.now.command)) }
    ensures cut { IfErr result (λ reason. (request.now.command ≡ Command.Write)
        × IsCut reason (S.can_fail input.old) 0 request.now.length (S.left input.old) (S.left input.new)) }
    ensures same { S.can_fail input.new ≡ S.can_fail input.old }
{
    match request.command {
        Command::Write => drop_rest(input, request.length),
        Command::Read | Command::Disconnect | Command::Flush | Command::Other(_) => Ok(()),
    }
}

/// What a request to an export of so many bytes is refused for: EINVAL for a length of 0 or above 33,554,432, a flag that isn't offered,
/// a command that isn't known and a READ beyond the end, ENOSPC for a WRITE beyond the end; `None` for one that is served.
pub(crate) fn refusal_of(size: u64, request: &Request) -> ErrorNumber
    ensures { result ≡ refusal_of size request.now }
{
    if request.flags.0 > FUA {
        return ErrorNumber::Invalid;
    }
    match request.command {
        Command::Read if has_bad_length(request) || is_beyond(size, request) => {
            ErrorNumber::Invalid
        }
        Command::Write if has_bad_length(request) => ErrorNumber::Invalid,
        Command::Write if is_beyond(size, request) => ErrorNumber::NoSpace,
        Command::Read | Command::Write | Command::Flush | Command::Disconnect => {
            ErrorNumber::None
        }
        Command::Other(_) => ErrorNumber::Invalid,
    }
}

/// Whether a request names no byte or too many.
fn has_bad_length(request: &Request) -> bool
    ensures { result ≡ has_bad_length request.now }
{
    request.length == 0 || request.length > MOST_BYTES
}

/// Whether a request goes beyond the end.
fn is_beyond(size: u64, request: &Request) -> bool
    ensures { result ≡ is_beyond size request.now }
{
    match request.offset.checked_add(u64::from(request.length)) {
        Some(end) => end > size,
        None => true,
    }
}

/// What a request that is served is told: EIO where the file failed.
pub(crate) fn error_of(done: Result<(), DiskFault>) -> ErrorNumber
    ensures { result ≡ error_of done }
{
    match done {
        Ok(()) => ErrorNumber::None,
        Err(DiskFault) => ErrorNumber::Io,
    }
}

/// Writes a reply without data.
pub(crate) fn tell<O: Output>(
    output: &mut O,
    cookie: u64,
    error: ErrorNumber,
) -> Result<(), ServeFault>
    ensures sent { Sends result (O.can_fail output.old) (O.written output.old) (O.written output.new)
        (reply_text (record { error = error; cookie = cookie })) }
    ensures same { O.can_fail output.new ≡ O.can_fail output.old }
{
    send(output, &Reply { error, cookie }.to_bytes())
}

/// Writes a reply and the bytes of a READ, which stand in `part` behind 16 bytes of room for its head.
pub(crate) fn send_part<O: Output>(
    output: &mut O,
    part: &mut [u8],
    error: ErrorNumber,
    cookie: u64,
) -> Result<(), ServeFault>
    requires { 16 ≤ length part.old }
    ensures sent { Sends result (O.can_fail output.old) (O.written output.old) (O.written output.new)
        (reply_text (record { error = error; cookie = cookie }) ++ drop 16 part.old) }
    ensures same { O.can_fail output.new ≡ O.can_fail output.old }
{
    part[..REPLY_BYTES].copy_from_slice(&Reply { error, cookie }.to_bytes());
    send(output, part)
}
