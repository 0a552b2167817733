//! What is sent: it is gathered, and written before the next packet is read; long data are written from their place.

ghost use Rattle.std.specs.Prelude.{◌≡◌, ◌≢◌, ◌+◌, ◌≤◌, ◌⊎◌, ◌++◌, [], length, vec_capacity, IfErr, IsTrue, OnErr, OnOk};
ghost use Rattle.std.specs.Io.KnownBytes.{Appends};
ghost use Rattle.byte_io.specs.Streams.{Began};
ghost use Rattle.usb_places.specs.declared.TheConstants.{MOST_TRANSFER_BYTES};
ghost use Rattle.usbredir.specs.Device.{data_of_device};
ghost use Rattle.usb_serve.specs.Sending.{Gathers, answer_text, data_text, disk_text};

use crate::fault::UsbFault;
use crate::link::send;
use byte_io::Output;
use usb_tags::{Answer, AnswerData, UsbTags, device_connect, endpoint_info, interface_info};
use usbredir::DevicePacket;

/// So many bytes are gathered at most: a chunk, and what is sent beside it.
pub(crate) const MOST_GATHERED_BYTES: usize = 131_072;

const _: () = prove!(MOST_GATHERED_BYTES == 131_072);

/// Writes what was gathered, if anything.
pub(crate) fn send_gathered<O: Output>(
    gathered: &mut Vec<u8>,
    output: &mut O,
) -> Result<(), UsbFault>
    ensures sent { OnOk result (Appends (O.written output.old) (O.written output.new) gathered.old.items) }
    ensures none { OnOk result (gathered.new.items ≡ []) }
    ensures began { OnErr result (Began (O.written output.old) (O.written output.new) gathered.old.items) }
    ensures cause { IfErr result (λ reason. (reason ≡ UsbFault.Stream) × IsTrue (O.can_fail output.old)) }
    ensures room { vec_capacity gathered.old ≤ vec_capacity gathered.new }
    ensures same { O.can_fail output.new ≡ O.can_fail output.old }
{
    if gathered.is_empty() {
        return Ok(());
    }
    send(output, gathered)?;
    gathered.clear();
    Ok(())
}

/// Writes what was gathered, and then these bytes.
fn send_behind<O: Output>(
    gathered: &mut Vec<u8>,
    output: &mut O,
    bytes: &[u8],
) -> Result<(), UsbFault>
    ensures sent { OnOk result (Appends (O.written output.old) (O.written output.new) (gathered.old.items ++ bytes.now)) }
    ensures none { OnOk result (gathered.new.items ≡ []) }
    ensures began { OnErr result (Began (O.written output.old) (O.written output.new) (gathered.old.items ++ bytes.now)) }
    ensures cause { IfErr result (λ reason. (reason ≡ UsbFault.Stream) × IsTrue (O.can_fail output.old)) }
    ensures room { vec_capacity gathered.old ≤ vec_capacity gathered.new }
    ensures same { O.can_fail output.new ≡ O.can_fail output.old }
{
    send_gathered(gathered, output)?;
    send(output, bytes)?;
    Ok(())
}

/// Gathers bytes. What has no room is written at once, behind what was gathered, and isn't copied.
fn gather<O: Output>(gathered: &mut Vec<u8>, output: &mut O, bytes: &[u8]) -> Result<(), UsbFault>
    requires room { MOST_GATHERED_BYTES ≤ vec_capacity gathered.old }
    ensures gathers { OnOk result (Gathers gathered.old.items gathered.new.items (O.written output.old) (O.written output.new) bytes.now) }
    ensures began { OnErr result (Began (O.written output.old) (O.written output.new) (gathered.old.items ++ bytes.now)) }
    ensures cause { IfErr result (λ reason. (reason ≡ UsbFault.Stream) × IsTrue (O.can_fail output.old)) }
    ensures room { MOST_GATHERED_BYTES ≤ vec_capacity gathered.new }
    ensures same { O.can_fail output.new ≡ O.can_fail output.old }
{
    if bytes.len() > MOST_GATHERED_BYTES || gathered.len() > MOST_GATHERED_BYTES - bytes.len() {
        return send_behind(gathered, output, bytes);
    }
    put(gathered, bytes);
    Ok(())
}

/// Gathers an answer: its head and fields, and its data.
pub(crate) fn gather_answer<O: Output>(
    usb: &UsbTags,
    answer: &Answer,
    gathered: &mut Vec<u8>,
    output: &mut O,
) -> Result<(), UsbFault>
    requires room { MOST_GATHERED_BYTES ≤ vec_capacity gathered.old }
    ensures gathers { OnOk result (Gathers gathered.old.items gathered.new.items (O.written output.old) (O.written output.new)
        (answer_text usb.now answer.now)) }
    ensures began { OnErr result (Began (O.written output.old) (O.written output.new) (gathered.old.items ++ answer_text usb.now answer.now)) }
    ensures cause { IfErr result (λ reason. ((reason ≡ UsbFault.Stream) × IsTrue (O.can_fail output.old))
        ⊎ ((reason ≡ UsbFault.Answer) × (data_of_device answer.now.packet ≢ length (data_text usb.now answer.now.body)))) }
    ensures room { MOST_GATHERED_BYTES ≤ vec_capacity gathered.new }
    ensures same { O.can_fail output.new ≡ O.can_fail output.old }
{
    let bytes = data_of(usb, &answer.body);
    if answer.packet.data_bytes() as usize != bytes.len() {
        return Err(UsbFault::Answer);
    }
    gather(gathered, output, &answer.packet.to_bytes(answer.id))?;
    gather(gathered, output, bytes)
}

/// The data of an answer.
fn data_of<'a>(usb: &'a UsbTags, body: &'a AnswerData) -> &'a [u8]
    ensures bytes { result.now ≡ data_text usb.now body.now }
    ensures most { length result.now ≤ MOST_TRANSFER_BYTES }
{
    match body {
        AnswerData::Nothing => &[],
        AnswerData::Control(bytes) => bytes.as_slice(),
        AnswerData::Unit(text) => text.as_slice(),
        AnswerData::Given(tag) => usb.given(*tag),
    }
}

/// Sends what the disk is: its interface, its endpoints, and that it is there. Nothing was gathered before.
pub(crate) fn send_disk<O: Output>(gathered: &mut Vec<u8>, output: &mut O) -> Result<(), UsbFault>
    requires none { gathered.old.items ≡ [] }
    requires room { MOST_GATHERED_BYTES ≤ vec_capacity gathered.old }
    ensures sent { OnOk result (Appends (O.written output.old) (O.written output.new) disk_text) }
    ensures none { OnOk result (gathered.new.items ≡ []) }
    ensures began { OnErr result (Began (O.written output.old) (O.written output.new) disk_text) }
    ensures cause { IfErr result (λ reason. (reason ≡ UsbFault.Stream) × IsTrue (O.can_fail output.old)) }
    ensures room { MOST_GATHERED_BYTES ≤ vec_capacity gathered.new }
    ensures same { O.can_fail output.new ≡ O.can_fail output.old }
{
    put(
        gathered,
        &DevicePacket::InterfaceInfo(interface_info()).to_bytes(0),
    );
    put(
        gathered,
        &DevicePacket::EndpointInfo(endpoint_info()).to_bytes(0),
    );
    put(
        gathered,
        &DevicePacket::DeviceConnect(device_connect()).to_bytes(0),
    );
    send_gathered(gathered, output)
}

/// Appends bytes, for which there is room.
fn put(gathered: &mut Vec<u8>, bytes: &[u8])
    requires { length gathered.old.items + length bytes.now ≤ vec_capacity gathered.old }
    ensures bytes { gathered.new.items ≡ gathered.old.items ++ bytes.now }
    ensures room { vec_capacity gathered.old ≤ vec_capacity gathered.new }
{
    let Ok(()) = gathered.extend_from_slice(bytes) else {
        unreachable!()
    };
}
