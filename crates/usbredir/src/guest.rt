//! The packets of a guest's side as bytes.

ghost use Rattle.std.specs.Prelude.{◌≡◌, ◌+◌, ◌*◌, ◌/◌, ◌%◌, ◌-◌, ◌≤◌, ◌<◌, ◌^◌, ◌++◌, length, Ok, Some, IfOk, IfSome};
ghost use Rattle.usbredir.specs.Guest.{FitsGuest, bulk_request_in, bulk_request_text, control_request_in, control_request_text, data_of_guest};
ghost use Rattle.usbredir.specs.Guest.{fields_of_guest, guest_fields_text, guest_head, guest_in, guest_of, guest_room, guest_text, kind_of_guest, without_status};
ghost use Rattle.usbredir.specs.Kinds.{is_in, most_bytes};
ghost use Rattle.arrayvec.specs.ArrayVec.{array_vec_len};

use crate::PacketFault;
use crate::fields::{BulkRequest, ControlRequest};
use crate::kinds::{Head, Kind, MOST_BYTES};
use crate::packets::GuestPacket;
use arrayvec::ArrayVec;
use byteorder::{ByteOrder, LittleEndian};

/// The most bytes of a guest's packet before its data.
pub const MOST_GUEST_BYTES: usize = 26;

/// Whether data come in at an endpoint.
pub(crate) fn is_in(endpoint: u8) -> bool
    ensures { result ≡ is_in endpoint }
{
    128 <= endpoint
}

impl ControlRequest {
    #[tactic(auto, unfolding(crate::specs::Guest::control_request_in))]
    fn from_bytes(bytes: &[u8]) -> ControlRequest
        requires { length bytes.now ≡ 10 }
        ensures { result ≡ control_request_in bytes.now }
    {
        ControlRequest {
            endpoint: bytes[0],
            request: bytes[1],
            request_type: bytes[2],
            value: LittleEndian::read_u16(&bytes[4..]),
            index: LittleEndian::read_u16(&bytes[6..]),
            length: LittleEndian::read_u16(&bytes[8..]),
        }
    }

    #[tactic(auto, unfolding(crate::specs::Guest::control_request_text))]
    fn to_bytes(&self) -> [u8; 10]
        ensures { result ≡ control_request_text self.now }
    {
        let mut bytes = [0; 10];
        bytes[0] = self.endpoint;
        bytes[1] = self.request;
        bytes[2] = self.request_type;
        LittleEndian::write_u16(&mut bytes[4..], self.value);
        LittleEndian::write_u16(&mut bytes[6..], self.index);
        LittleEndian::write_u16(&mut bytes[8..], self.length);
        bytes
    }
}

/// The number of two halves.
pub(crate) fn joined(low: u16, high: u16) -> u32
    ensures { result ≡ low + 2 ^ 16 * high }
{
    u32::from(low) + 65536 * u32::from(high)
}

/// The lower half of a number.
pub(crate) fn low_half(number: u32) -> u16
    ensures { result ≡ number % 2 ^ 16 }
{
    (number % 65536) as u16
}

/// The higher half of a number.
pub(crate) fn high_half(number: u32) -> u16
    ensures { result ≡ number / 2 ^ 16 }
{
    (number / 65536) as u16
}

impl BulkRequest {
    #[tactic(auto, unfolding(crate::specs::Guest::bulk_request_in))]
    fn from_bytes(bytes: &[u8]) -> BulkRequest
        requires { length bytes.now ≡ 10 }
        ensures { result ≡ bulk_request_in bytes.now }
    {
        BulkRequest {
            endpoint: bytes[0],
            length: joined(
                LittleEndian::read_u16(&bytes[2..]),
                LittleEndian::read_u16(&bytes[8..]),
            ),
            stream: LittleEndian::read_u32(&bytes[4..]),
        }
    }

    #[tactic(auto, unfolding(crate::specs::Guest::bulk_request_text))]
    fn to_bytes(&self) -> [u8; 10]
        ensures { result ≡ bulk_request_text self.now }
    {
        let mut bytes = [0; 10];
        bytes[0] = self.endpoint;
        LittleEndian::write_u16(&mut bytes[2..], low_half(self.length));
        LittleEndian::write_u32(&mut bytes[4..], self.stream);
        LittleEndian::write_u16(&mut bytes[8..], high_half(self.length));
        bytes
    }
}

impl GuestPacket {
    /// What it is.
    pub fn kind(&self) -> Kind
        ensures { result ≡ kind_of_guest self.now }
    {
        match self {
            GuestPacket::Reset => Kind::Reset,
            GuestPacket::SetConfiguration { .. } => Kind::SetConfiguration,
            GuestPacket::GetConfiguration => Kind::GetConfiguration,
            GuestPacket::SetAltSetting { .. } => Kind::SetAltSetting,
            GuestPacket::GetAltSetting { .. } => Kind::GetAltSetting,
            GuestPacket::AllocBulkStreams { .. } => Kind::AllocBulkStreams,
            GuestPacket::FreeBulkStreams { .. } => Kind::FreeBulkStreams,
            GuestPacket::CancelDataPacket => Kind::CancelDataPacket,
            GuestPacket::FilterReject => Kind::FilterReject,
            GuestPacket::FilterFilter => Kind::FilterFilter,
            GuestPacket::Control(_) => Kind::Control,
            GuestPacket::Bulk(_) => Kind::Bulk,
        }
    }

    /// How many bytes of data it has, where so many bytes follow its head: an OUT request all that it transfers, an IN request none.
    pub fn data_bytes(&self, following: u32) -> u32
        ensures { result ≡ data_of_guest self.now following }
    {
        match self {
            GuestPacket::Control(request) if !is_in(request.endpoint) => u32::from(request.length),
            GuestPacket::Bulk(request) if !is_in(request.endpoint) => request.length,
            GuestPacket::FilterFilter => following,
            _ => 0,
        }
    }

    /// How many bytes of fields to read behind a head. A kind that no guest sends is `UnexpectedPacket`; fewer or too many bytes
    /// behind the head are `BadLength`.
    pub fn fields_bytes(head: &Head) -> Result<u32, PacketFault>
        ensures result { result ≡ guest_room head.now }
        ensures few { IfOk result (λ count. count ≤ 10) }
    {
        let count = match fields_of_kind(Kind::from_number(head.kind)) {
            None => return Err(PacketFault::UnexpectedPacket),
            Some(count) => count,
        };
        if count <= head.length && head.length <= MOST_BYTES {
            Ok(count)
        } else {
            Err(PacketFault::BadLength)
        }
    }

    /// The packet of a head and its fields; data follow them. A kind that no guest sends is `UnexpectedPacket`; fields, or data, of other
    /// than the head's length are `BadLength`.
    pub fn from_bytes(head: &Head, bytes: &[u8]) -> Result<GuestPacket, PacketFault>
        ensures { result ≡ guest_in head.now bytes.now }
    {
        let kind = Kind::from_number(head.kind);
        let count = match fields_of_kind(kind) {
            None => return Err(PacketFault::UnexpectedPacket),
            Some(count) => count,
        };
        if MOST_BYTES < head.length || bytes.len() != count as usize {
            return Err(PacketFault::BadLength);
        }
        match packet_of(kind, bytes) {
            None => Err(PacketFault::UnexpectedPacket),
            Some(packet) => {
                if head.length < count || head.length - count != packet.data_bytes(head.length) {
                    return Err(PacketFault::BadLength);
                }
                Ok(packet)
            }
        }
    }

    /// Its head and fields, in front of so many bytes of data.
    pub fn to_bytes(&self, id: u64, count: u32) -> ArrayVec<u8, MOST_GUEST_BYTES>
        requires { count ≤ 134218742 }
        ensures { result.items ≡ guest_text id self.now count }
    {
        let fields = self.fields();
        let head = Head {
            kind: self.kind().number(),
            length: fields.len() as u32 + count,
            id,
        };
        let mut bytes = ArrayVec::new();
        bytes.try_extend_from_slice(&head.to_bytes()).unwrap();
        bytes.try_extend_from_slice(&fields).unwrap();
        bytes
    }

    fn fields(&self) -> ArrayVec<u8, 10>
        ensures items { result.items ≡ guest_fields_text self.now }
        ensures len { array_vec_len result ≤ 10 }
    {
        let mut bytes = ArrayVec::new();
        match self {
            GuestPacket::SetConfiguration { value } => put(&mut bytes, &[*value]),
            GuestPacket::SetAltSetting { interface, setting } => {
                put(&mut bytes, &[*interface, *setting])
            }
            GuestPacket::GetAltSetting { interface } => put(&mut bytes, &[*interface]),
            GuestPacket::AllocBulkStreams { endpoints, streams } => {
                put(&mut bytes, &endpoints.to_le_bytes());
                put(&mut bytes, &streams.to_le_bytes());
            }
            GuestPacket::FreeBulkStreams { endpoints } => put(&mut bytes, &endpoints.to_le_bytes()),
            GuestPacket::Control(request) => put(&mut bytes, &request.to_bytes()),
            GuestPacket::Bulk(request) => put(&mut bytes, &request.to_bytes()),
            GuestPacket::Reset
            | GuestPacket::GetConfiguration
            | GuestPacket::CancelDataPacket
            | GuestPacket::FilterReject
            | GuestPacket::FilterFilter => {}
        }
        bytes
    }
}

/// Appends items, for which there is room.
pub(crate) fn put<T: Copy, const N: usize>(into: &mut ArrayVec<T, N>, items: &[T])
    requires { array_vec_len into.old + length items.now ≤ N }
    ensures items { into.new.items ≡ into.old.items ++ items.now }
    ensures len { array_vec_len into.new ≡ array_vec_len into.old + length items.now }
{
    into.try_extend_from_slice(items).unwrap();
}

/// How many bytes of fields a packet of a guest has.
fn fields_of_kind(kind: Option<Kind>) -> Option<u32>
    ensures value { result ≡ fields_of_guest kind }
    ensures few { IfSome result (λ count. count ≤ 10) }
{
    match kind? {
        Kind::Reset
        | Kind::GetConfiguration
        | Kind::CancelDataPacket
        | Kind::FilterReject
        | Kind::FilterFilter => Some(0),
        Kind::SetConfiguration | Kind::GetAltSetting => Some(1),
        Kind::SetAltSetting => Some(2),
        Kind::FreeBulkStreams => Some(4),
        Kind::AllocBulkStreams => Some(8),
        Kind::Control | Kind::Bulk => Some(10),
        _ => None,
    }
}

/// The packet of a kind with these fields.
fn packet_of(kind: Option<Kind>, bytes: &[u8]) -> Option<GuestPacket>
    requires { fields_of_guest kind ≡ Some (length bytes.now) }
    ensures packet { result ≡ guest_of kind bytes.now }
    ensures some { IfSome result (λ packet. length (guest_fields_text packet) ≡ length bytes.now) }
{
    match kind? {
        Kind::Reset => Some(GuestPacket::Reset),
        Kind::SetConfiguration => Some(GuestPacket::SetConfiguration { value: bytes[0] }),
        Kind::GetConfiguration => Some(GuestPacket::GetConfiguration),
        Kind::SetAltSetting => Some(GuestPacket::SetAltSetting {
            interface: bytes[0],
            setting: bytes[1],
        }),
        Kind::GetAltSetting => Some(GuestPacket::GetAltSetting {
            interface: bytes[0],
        }),
        Kind::AllocBulkStreams => Some(GuestPacket::AllocBulkStreams {
            endpoints: LittleEndian::read_u32(bytes),
            streams: LittleEndian::read_u32(&bytes[4..]),
        }),
        Kind::FreeBulkStreams => Some(GuestPacket::FreeBulkStreams {
            endpoints: LittleEndian::read_u32(bytes),
        }),
        Kind::CancelDataPacket => Some(GuestPacket::CancelDataPacket),
        Kind::FilterReject => Some(GuestPacket::FilterReject),
        Kind::FilterFilter => Some(GuestPacket::FilterFilter),
        Kind::Control => Some(GuestPacket::Control(ControlRequest::from_bytes(bytes))),
        Kind::Bulk => Some(GuestPacket::Bulk(BulkRequest::from_bytes(bytes))),
        _ => None,
    }
}

/// Law: what the fields of a packet are read as, behind its own head, is that packet.
pub fn request_reads_back(id: u64, packet: &GuestPacket, count: u32)
    requires fits { FitsGuest packet.now }
    requires data { count ≡ data_of_guest packet.now (guest_head id packet.now count).length }
    requires few { (guest_head id packet.now count).length ≤ most_bytes }
    ensures { guest_in (guest_head id packet.now count) (guest_fields_text packet.now) ≡ Ok packet.now }
{
    let _request = (id, *packet, count);
}

/// Law: fields that are read as a packet are its fields, but for a request's status; and the head is its head.
pub fn request_writes_back(head: &Head, bytes: &[u8])
    ensures fields { IfOk (guest_in head.now bytes.now) (λ packet. guest_fields_text packet ≡ without_status packet bytes.now) }
    ensures head { IfOk (guest_in head.now bytes.now)
        (λ packet. guest_head head.now.id packet (head.now.length - length bytes.now) ≡ head.now) }
{
    let _read = GuestPacket::from_bytes(head, bytes);
}
