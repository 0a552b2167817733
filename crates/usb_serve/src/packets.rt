//! The guest's packets: heads, fields and data, as they are read.

ghost use Rattle.std.specs.Prelude.{◌≡◌, ◌≤◌, length, vec_capacity, Ok, None, IfErr, IfOk, IfSome, IsSome, OnOk};
ghost use Rattle.std.specs.Io.KnownBytes.{Consumes};
ghost use Rattle.usb_places.specs.declared.TheConstants.{MOST_TRANSFER_BYTES};
ghost use Rattle.usb_serve.specs.Faults.{IsCut};
ghost use Rattle.usb_serve.specs.Packets.{FieldsUnread, Leaves, ReadsData, ReadsFields, ReadsHead, ReadsPacket, Unread, most_taken};

use crate::fault::UsbFault;
use crate::link::{drop_rest, read_head, read_rest};
use byte_io::Source;
use usb_places::MOST_TRANSFER_BYTES;
use usbredir::{GuestPacket, HEAD_BYTES, Head, PacketFault};

/// So many bytes of a command are taken.
const MOST_UNIT_BYTES: usize = 1024;

const _: () = prove!(MOST_UNIT_BYTES == 1024 && MOST_TRANSFER_BYTES == 524_288);

/// A packet that came, and its id.
#[derive(Clone, Copy, Debug, PartialEq, Eq)]
pub(crate) struct Came {
    pub(crate) id: u64,
    pub(crate) packet: GuestPacket,
}

/// Reads the next packet; none where the guest leaves. What is taken of its data is in `bytes`.
pub(crate) fn read_packet<S: Source>(
    input: &mut S,
    bytes: &mut Vec<u8>,
) -> Result<Option<Came>, UsbFault>
    requires room { MOST_TRANSFER_BYTES ≤ vec_capacity bytes.old }
    ensures came { IfOk result (λ found. IfSome found (λ came. ReadsPacket came bytes.new.items (S.left input.old) (S.left input.new))) }
    ensures leaves { result ≡ Ok None → Leaves (S.left input.old) (S.left input.new) }
    ensures unread { IfErr result (λ reason. Unread reason (S.can_fail input.old) (S.left input.old) (S.left input.new)) }
    ensures room { MOST_TRANSFER_BYTES ≤ vec_capacity bytes.new }
    ensures most { IfOk result (λ found. IsSome found → length bytes.new.items ≤ MOST_TRANSFER_BYTES) }
    ensures same { S.can_fail input.new ≡ S.can_fail input.old }
{
    let Some(head) = read_next_head(input)? else {
        return Ok(None);
    };
    let packet = read_fields(input, &head)?;
    if packet == GuestPacket::FilterReject {
        return Err(UsbFault::Packet(PacketFault::Rejected));
    }
    read_data(input, &packet, packet.data_bytes(head.length), bytes)?;
    Ok(Some(Came {
        id: head.id,
        packet,
    }))
}

/// Reads the next head; none where the guest leaves.
fn read_next_head<S: Source>(input: &mut S) -> Result<Option<Head>, UsbFault>
    ensures head { IfOk result (λ found. IfSome found (λ head. ReadsHead head (S.left input.old) (S.left input.new))) }
    ensures leaves { result ≡ Ok None → Leaves (S.left input.old) (S.left input.new) }
    ensures cut { IfErr result (λ reason. IsCut reason (S.can_fail input.old) 1 16 (S.left input.old) (S.left input.new)) }
    ensures same { S.can_fail input.new ≡ S.can_fail input.old }
{
    let mut text = [0; HEAD_BYTES];
    if !read_head(input, &mut text)? {
        return Ok(None);
    }
    Ok(Some(Head::from_bytes(&text)))
}

/// Reads what follows a head up to the data.
fn read_fields<S: Source>(input: &mut S, head: &Head) -> Result<GuestPacket, UsbFault>
    ensures fields { IfOk result (λ packet. ReadsFields head.now packet (S.left input.old) (S.left input.new)) }
    ensures unread { IfErr result (λ reason. FieldsUnread reason (S.can_fail input.old) head.now (S.left input.old) (S.left input.new)) }
    ensures same { S.can_fail input.new ≡ S.can_fail input.old }
{
    let count = match GuestPacket::fields_bytes(head) {
        Ok(count) => count as usize,
        Err(refusal) => return Err(UsbFault::Packet(refusal)),
    };
    let mut fields = [0; 10];
    read_rest(input, &mut fields[..count])?;
    match GuestPacket::from_bytes(head, &fields[..count]) {
        Ok(packet) => Ok(packet),
        Err(refusal) => Err(UsbFault::Packet(refusal)),
    }
}

/// How many bytes of a packet's data are taken at most: 1,024 of a command, 524,288 of a data-out, and none of any other. Those of a
/// data-out that is refused are taken, too, and then dropped.
fn most_taken(packet: &GuestPacket) -> usize
    ensures result { result ≡ most_taken packet.now }
    ensures most { result ≤ MOST_TRANSFER_BYTES }
{
    match packet {
        GuestPacket::Bulk(request) => match request.endpoint {
            0x01 => MOST_UNIT_BYTES,
            0x02 => MOST_TRANSFER_BYTES,
            _ => 0,
        },
        _ => 0,
    }
}

/// Reads a packet's data, of which the front is taken and the rest dropped.
fn read_data<S: Source>(
    input: &mut S,
    packet: &GuestPacket,
    count: u32,
    bytes: &mut Vec<u8>,
) -> Result<(), UsbFault>
    requires room { MOST_TRANSFER_BYTES ≤ vec_capacity bytes.old }
    ensures room { MOST_TRANSFER_BYTES ≤ vec_capacity bytes.new }
    ensures whole { OnOk result (ReadsData packet.now count bytes.new.items (S.left input.old) (S.left input.new)) }
    ensures cut { IfErr result (λ reason. IsCut reason (S.can_fail input.old) 0 count (S.left input.old) (S.left input.new)) }
    ensures most { OnOk result (length bytes.new.items ≤ MOST_TRANSFER_BYTES) }
    ensures same { S.can_fail input.new ≡ S.can_fail input.old }
{
    let most = most_taken(packet);
    if count as usize <= most {
        return read_front(input, bytes, count as usize);
    }
    read_front(input, bytes, most)?;
    drop_rest(input, count - most as u32)
}

/// Reads so many bytes, for which there is room.
fn read_front<S: Source>(input: &mut S, bytes: &mut Vec<u8>, count: usize) -> Result<(), UsbFault>
    requires room { MOST_TRANSFER_BYTES ≤ vec_capacity bytes.old }
    requires most { count ≤ MOST_TRANSFER_BYTES }
    ensures room { MOST_TRANSFER_BYTES ≤ vec_capacity bytes.new }
    ensures bytes { OnOk result (Consumes (S.left input.old) (S.left input.new) bytes.new.items) }
    ensures cut { IfErr result (λ reason. IsCut reason (S.can_fail input.old) 0 count (S.left input.old) (S.left input.new)) }
    ensures len { OnOk result (length bytes.new.items ≡ count) }
    ensures same { S.can_fail input.new ≡ S.can_fail input.old }
{
    bytes.clear();
    let Ok(()) = bytes.resize(count, 0) else {
        unreachable!()
    };
    read_rest(input, bytes)
}
