//! The handshake: the greeting, and the client's options until the transmission begins. Its bytes, as definitions, are
//! specs/Handshake.antt, and up to a fault specs/Broken.antt.

ghost use Rattle.std.specs.Prelude.{◌≡◌, ◌^◌, ◌<◌, length, IfErr, IfOk};
ghost use Rattle.std.specs.Io.KnownBytes.{Appends};
ghost use Rattle.serve_run.specs.Broken.{HandshakeBroken, IsNoOption, Unanswered};
ghost use Rattle.serve_run.specs.Faults.{IsCut, Misses, Sends};
ghost use Rattle.serve_run.specs.Handshake.{OptionAnswered, ReadsHead, Shaken, Tested};
ghost use Rattle.serve_run.specs.Handshake.{export_information, export_of, informed, is_well_formed, is_whole_ask, listed};
ghost use Rattle.serve_run.specs.Handshake.{next_of, replied, sizes_information, told_export, told_option};

use crate::fault::ServeFault;
use crate::link::{drop_rest, read_message, read_rest, send};
use byte_io::{Output, Source};
use byteorder::{BigEndian, ByteOrder};
use nbd::flags::{ExportFlags, ServerFlags};
use nbd::{
    BlockSizes, Export, NotNbd, OptionHead, OptionKind, OptionReply, ReplyKind, client_flags,
    greeting,
};

/// What is offered: the fixed newstyle, and to leave out the zeros behind an export.
const OFFERED: u16 = 3;

/// The lower of the two flags that are offered: a client's flags above it have `NO_ZEROES`.
const FIXED_NEWSTYLE: u32 = 1;

/// What the export can do: it has flags, and it takes FLUSH and FUA.
const EXPORT_FLAGS: u16 = 13;

/// The zeros that follow an export.
const EXPORT_ZEROS: usize = 124;

/// The most bytes of a request.
pub(crate) const MOST_BYTES: u32 = 33_554_432;

/// The number of the information on an export.
const INFO_EXPORT: u16 = 0;

/// The number of the information on the sizes of a request.
const INFO_BLOCK_SIZE: u16 = 3;

/// How a handshake goes on.
#[derive(Clone, Copy, Debug, PartialEq, Eq)]
pub(crate) enum Next {
    /// With another option.
    Option,
    /// With the transmission.
    Transmission,
    /// Not at all: the client leaves.
    End,
}

/// Greets the client and answers its options, and tells whether the transmission begins: it doesn't where the client leaves, by the end of
/// its bytes or by ABORT. A flag that isn't offered is a fault, and so is an option that doesn't begin as one.
pub fn shake<S: Source, O: Output>(
    input: &mut S,
    output: &mut O,
    size: u64,
) -> Result<bool, ServeFault>
    ensures shaken { IfOk result (λ begins. Shaken size begins (S.left input.old) (S.left input.new) (O.written output.old) (O.written output.new)) }
    ensures broken { IfErr result (λ reason. HandshakeBroken reason (S.can_fail input.old) (O.can_fail output.old) size
        (S.left input.old) (S.left input.new) (O.written output.old) (O.written output.new)) }
    ensures read { S.can_fail input.new ≡ S.can_fail input.old }
    ensures written { O.can_fail output.new ≡ O.can_fail output.old }
{
    send(output, &greeting(ServerFlags(OFFERED)))?;
    let mut taken = [0; 4];
    if !read_message(input, &mut taken)? {
        return Ok(false);
    }
    let flags = client_flags(&taken).0;
    if flags > u32::from(OFFERED) {
        return Err(ServeFault::Handshake);
    }
    let lacks_zeros = flags > FIXED_NEWSTYLE;
    for turn in 0..u64::MAX {
        let Some(head) = read_head(input)? else {
            return Ok(false);
        };
        match answer_option(input, output, size, lacks_zeros, head)? {
            Next::Option => {}
            Next::Transmission => return Ok(true),
            Next::End => return Ok(false),
        }
    }
    Err(ServeFault::TooMany)
}

/// Reads the head of the next option; none where the client leaves before it.
fn read_head<S: Source>(input: &mut S) -> Result<Option<OptionHead>, ServeFault>
    ensures head { IfOk result (λ found. ReadsHead found (S.left input.old) (S.left input.new)) }
    ensures refused { IfErr result (λ reason.
        Misses ServeFault.Handshake IsNoOption 16 reason (S.can_fail input.old) (S.left input.old) (S.left input.new)) }
    ensures same { S.can_fail input.new ≡ S.can_fail input.old }
{
    let mut bytes = [0; 16];
    if !read_message(input, &mut bytes)? {
        return Ok(None);
    }
    match OptionHead::from_bytes(&bytes) {
        Ok(head) => Ok(Some(head)),
        Err(NotNbd) => Err(ServeFault::Handshake),
    }
}

/// Reads the data of an option, answers it, and tells how the handshake goes on.
fn answer_option<S: Source, O: Output>(
    input: &mut S,
    output: &mut O,
    size: u64,
    lacks_zeros: bool,
    head: OptionHead,
) -> Result<Next, ServeFault>
    ensures answered { IfOk result (λ next. OptionAnswered size lacks_zeros head next (S.left input.old) (S.left input.new)
        (Appends (O.written output.old) (O.written output.new))) }
    ensures broken { IfErr result (λ reason. Unanswered reason (S.can_fail input.old) (O.can_fail output.old) size lacks_zeros head
        (S.left input.old) (S.left input.new) (O.written output.old) (O.written output.new)) }
    ensures read { S.can_fail input.new ≡ S.can_fail input.old }
    ensures written { O.can_fail output.new ≡ O.can_fail output.old }
{
    let well_formed = read_option_data(input, head)?;
    tell_option(output, size, lacks_zeros, head.option, well_formed)?;
    Ok(next_of(head.option, well_formed))
}

/// Reads the data of an option, and tells whether they are well formed.
fn read_option_data<S: Source>(input: &mut S, head: OptionHead) -> Result<bool, ServeFault>
    ensures tested { IfOk result (λ says. Tested (is_well_formed head.option) head.length says (S.left input.old) (S.left input.new)) }
    ensures cut { IfErr result (λ reason. IsCut reason (S.can_fail input.old) 0 head.length (S.left input.old) (S.left input.new)) }
    ensures same { S.can_fail input.new ≡ S.can_fail input.old }
{
    match head.option {
        OptionKind::Info | OptionKind::Go => read_asked(input, head.length),
        OptionKind::List => {
            drop_rest(input, head.length)?;
            Ok(head.length == 0)
        }
        OptionKind::ExportName | OptionKind::Abort | OptionKind::Other(_) => {
            drop_rest(input, head.length)?;
            Ok(true)
        }
    }
}

/// Reads the data of INFO and GO, so many bytes: a name's length, the name, a count, and so many numbers of what is asked for. It
/// tells whether they are just that.
fn read_asked<S: Source>(input: &mut S, length: u32) -> Result<bool, ServeFault>
    ensures tested { IfOk result (λ says. Tested is_whole_ask length says (S.left input.old) (S.left input.new)) }
    ensures cut { IfErr result (λ reason. IsCut reason (S.can_fail input.old) 0 length (S.left input.old) (S.left input.new)) }
    ensures same { S.can_fail input.new ≡ S.can_fail input.old }
{
    let Some(behind_name) = length.checked_sub(6) else {
        drop_rest(input, length)?;
        return Ok(false);
    };
    let mut name_length = [0; 4];
    read_rest(input, &mut name_length)?;
    let Some(numbers) = behind_name.checked_sub(BigEndian::read_u32(&name_length)) else {
        drop_rest(input, length - 4)?;
        return Ok(false);
    };
    drop_rest(input, behind_name - numbers)?;
    let mut count = [0; 2];
    read_rest(input, &mut count)?;
    drop_rest(input, numbers)?;
    Ok(numbers == 2 * u32::from(BigEndian::read_u16(&count)))
}

/// How the handshake goes on behind an option.
fn next_of(option: OptionKind, well_formed: bool) -> Next
    ensures { result ≡ next_of option well_formed }
{
    match option {
        OptionKind::ExportName => Next::Transmission,
        OptionKind::Abort => Next::End,
        OptionKind::Go if well_formed => Next::Transmission,
        OptionKind::List | OptionKind::Info | OptionKind::Go | OptionKind::Other(_) => Next::Option,
    }
}

/// Writes what an option is told.
fn tell_option<O: Output>(
    output: &mut O,
    size: u64,
    lacks_zeros: bool,
    option: OptionKind,
    well_formed: bool,
) -> Result<(), ServeFault>
    ensures sent { Sends result (O.can_fail output.old) (O.written output.old) (O.written output.new) (told_option size lacks_zeros option well_formed) }
    ensures same { O.can_fail output.new ≡ O.can_fail output.old }
{
    if !well_formed {
        return reply(output, option, ReplyKind::Invalid, &[]);
    }
    match option {
        OptionKind::ExportName => tell_export(output, size, lacks_zeros),
        OptionKind::Abort => reply(output, option, ReplyKind::Ack, &[]),
        OptionKind::List => list(output),
        OptionKind::Info | OptionKind::Go => inform(output, size, option),
        OptionKind::Other(_) => reply(output, option, ReplyKind::Unsupported, &[]),
    }
}

/// Answers the option EXPORT_NAME, whatever name it has: the export, and the zeros where the client wants them.
fn tell_export<O: Output>(output: &mut O, size: u64, lacks_zeros: bool) -> Result<(), ServeFault>
    ensures sent { Sends result (O.can_fail output.old) (O.written output.old) (O.written output.new) (told_export size lacks_zeros) }
    ensures same { O.can_fail output.new ≡ O.can_fail output.old }
{
    send(output, &export_of(size).to_bytes())?;
    if lacks_zeros {
        return Ok(());
    }
    send(output, &[0; EXPORT_ZEROS])
}

/// Answers the option LIST: the one export has no name.
fn list<O: Output>(output: &mut O) -> Result<(), ServeFault>
    ensures sent { Sends result (O.can_fail output.old) (O.written output.old) (O.written output.new) listed }
    ensures same { O.can_fail output.new ≡ O.can_fail output.old }
{
    // its name's length
    reply(output, OptionKind::List, ReplyKind::Server, &[0, 0, 0, 0])?;
    reply(output, OptionKind::List, ReplyKind::Ack, &[])
}

/// Answers the options INFO and GO, whatever name they have.
fn inform<O: Output>(output: &mut O, size: u64, option: OptionKind) -> Result<(), ServeFault>
    ensures sent { Sends result (O.can_fail output.old) (O.written output.old) (O.written output.new) (informed size option) }
    ensures same { O.can_fail output.new ≡ O.can_fail output.old }
{
    reply(output, option, ReplyKind::Info, &export_information(size))?;
    reply(output, option, ReplyKind::Info, &sizes_information())?;
    reply(output, option, ReplyKind::Ack, &[])
}

/// The information on the export.
fn export_information(size: u64) -> [u8; 12]
    ensures { result ≡ export_information size }
{
    let mut bytes = [0; 12];
    BigEndian::write_u16(&mut bytes, INFO_EXPORT);
    bytes[2..].copy_from_slice(&export_of(size).to_bytes());
    bytes
}

/// The information on the sizes of a request.
fn sizes_information() -> [u8; 14]
    ensures { result ≡ sizes_information }
{
    let sizes = BlockSizes {
        least: 1,
        preferred: 4096,
        most: MOST_BYTES,
    };
    let mut bytes = [0; 14];
    BigEndian::write_u16(&mut bytes, INFO_BLOCK_SIZE);
    bytes[2..].copy_from_slice(&sizes.to_bytes());
    bytes
}

/// The export of so many bytes.
fn export_of(size: u64) -> Export
    ensures { result ≡ export_of size }
{
    Export {
        size,
        flags: ExportFlags(EXPORT_FLAGS),
    }
}

/// Writes a reply to an option, with its data.
fn reply<O: Output>(
    output: &mut O,
    option: OptionKind,
    kind: ReplyKind,
    bytes: &[u8],
) -> Result<(), ServeFault>
    requires { length bytes.now < 2 ^ 32 }
    ensures sent { Sends result (O.can_fail output.old) (O.written output.old) (O.written output.new) (replied option kind bytes.now) }
    ensures same { O.can_fail output.new ≡ O.can_fail output.old }
{
    let head = OptionReply {
        option,
        kind,
        length: bytes.len() as u32,
    };
    send(output, &head.to_bytes())?;
    send(output, bytes)
}
