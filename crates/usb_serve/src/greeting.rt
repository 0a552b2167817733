//! The hellos.

ghost use Rattle.std.specs.Prelude.{◌≡◌, ◌≤◌, IfOk, IfErr, length};
ghost use Rattle.std.specs.Io.KnownBytes.{Appends};
ghost use Rattle.usb_serve.specs.Greeting.{GreetingBroken, Said, Unsaid, judged, our_text};

use crate::fault::UsbFault;
use crate::link::{read_head, read_rest, send};
use byte_io::{Output, Source};
use usbredir::{Head, Hello, PacketFault};

/// Writes our hello and reads the guest's; `false` where it left before it.
pub fn greet<S: Source, O: Output>(input: &mut S, output: &mut O) -> Result<bool, UsbFault>
    ensures sent { IfOk result (λ _. Appends (O.written output.old) (O.written output.new) our_text) }
    ensures said { IfOk result (λ said. Said said (S.left input.old) (S.left input.new)) }
    ensures broken { IfErr result (λ reason. GreetingBroken reason (S.can_fail input.old) (O.can_fail output.old)
        (S.left input.old) (S.left input.new) (O.written output.old) (O.written output.new)) }
    ensures read { S.can_fail input.new ≡ S.can_fail input.old }
    ensures written { O.can_fail output.new ≡ O.can_fail output.old }
{
    send(output, &Hello::ours().to_bytes())?;
    hear(input)
}

/// Reads the guest's hello.
fn hear<S: Source>(input: &mut S) -> Result<bool, UsbFault>
    ensures said { IfOk result (λ said. Said said (S.left input.old) (S.left input.new)) }
    ensures unsaid { IfErr result (λ reason. Unsaid reason (S.can_fail input.old) (S.left input.old) (S.left input.new)) }
    ensures same { S.can_fail input.new ≡ S.can_fail input.old }
{
    let mut head = [0; 12];
    if !read_head(input, &mut head)? {
        return Ok(false);
    }
    let count = match Hello::bytes(&Head::from_hello_bytes(&head)) {
        Ok(count) => count as usize,
        Err(refusal) => return Err(UsbFault::Packet(refusal)),
    };
    let mut bytes = [0; 128];
    read_rest(input, &mut bytes[..count])?;
    match judge(&bytes[..count]) {
        Ok(()) => Ok(true),
        Err(refusal) => Err(UsbFault::Packet(refusal)),
    }
}

/// What a hello lacks.
fn judge(bytes: &[u8]) -> Result<(), PacketFault>
    ensures { result ≡ judged bytes.now }
{
    Hello::from_bytes(bytes)?.check()
}
