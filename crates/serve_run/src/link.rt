//! Messages of the client: whole ones, or the end between two of them.

ghost use Rattle.std.specs.Prelude.{◌≡◌, ◌<◌, List, [], true, false, length, Ok, OnOk, IfErr};
ghost use Rattle.std.specs.Io.KnownBytes.{Consumes, IsAtEnd};
ghost use Rattle.byte_io.specs.Streams.{Gave};
ghost use Rattle.serve_run.specs.Faults.{IsCut, Sends};

use crate::fault::ServeFault;
use byte_io::{Output, ReadFailed, Source, WriteFailed, drop_bytes, read_whole};

/// Fills `buffer` with the next message; `false` where the input ended before it.
pub(crate) fn read_message<S: Source>(input: &mut S, buffer: &mut [u8]) -> Result<bool, ServeFault>
    requires { 0 < length buffer.old }
    ensures whole { result ≡ Ok true → Consumes (S.left input.old) (S.left input.new) buffer.new }
    ensures none { result ≡ Ok false → Consumes (S.left input.old) (S.left input.new) [] }
    ensures end { result ≡ Ok false → IsAtEnd (S.left input.new) }
    ensures cut { IfErr result (λ reason.
        IsCut reason (S.can_fail input.old) 1 (length buffer.old) (S.left input.old) (S.left input.new)) }
    ensures same { S.can_fail input.new ≡ S.can_fail input.old }
{
    match read_whole(input, buffer) {
        Ok(0) => Ok(false),
        Ok(count) if count < buffer.len() => Err(ServeFault::Ended),
        Ok(_) => Ok(true),
        Err(ReadFailed) => Err(ServeFault::Stream),
    }
}

/// Fills `buffer` with what follows in a message.
pub(crate) fn read_rest<S: Source>(input: &mut S, buffer: &mut [u8]) -> Result<(), ServeFault>
    ensures bytes { OnOk result (Consumes (S.left input.old) (S.left input.new) buffer.new) }
    ensures cut { IfErr result (λ reason.
        IsCut reason (S.can_fail input.old) 0 (length buffer.old) (S.left input.old) (S.left input.new)) }
    ensures same { S.can_fail input.new ≡ S.can_fail input.old }
{
    match read_whole(input, buffer) {
        Ok(count) if count < buffer.len() => Err(ServeFault::Ended),
        Ok(_) => Ok(()),
        Err(ReadFailed) => Err(ServeFault::Stream),
    }
}

/// Drops so many bytes of a message.
pub(crate) fn drop_rest<S: Source>(input: &mut S, count: u32) -> Result<(), ServeFault>
    ensures bytes { OnOk result (Gave (S.left input.old) (S.left input.new) count) }
    ensures cut { IfErr result (λ reason.
        IsCut reason (S.can_fail input.old) 0 count (S.left input.old) (S.left input.new)) }
    ensures same { S.can_fail input.new ≡ S.can_fail input.old }
{
    match drop_bytes(input, count) {
        Ok(0) => Ok(()),
        Ok(_) => Err(ServeFault::Ended),
        Err(ReadFailed) => Err(ServeFault::Stream),
    }
}

/// Writes to the client.
pub(crate) fn send<O: Output>(output: &mut O, bytes: &[u8]) -> Result<(), ServeFault>
    ensures sent { Sends result (O.can_fail output.old) (O.written output.old) (O.written output.new) bytes.now }
    ensures same { O.can_fail output.new ≡ O.can_fail output.old }
{
    match output.write(bytes) {
        Ok(()) => Ok(()),
        Err(WriteFailed) => Err(ServeFault::Stream),
    }
}
