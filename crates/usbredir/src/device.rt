//! The packets of the device's side as bytes.

ghost use Rattle.std.specs.Prelude.{◌≡◌, ◌+◌, ◌*◌, ◌≤◌, ◌<◌, ◌++◌, length, take, drop, slice_index, Ok, Some, IfOk, IfSome};
ghost use Rattle.arrayvec.specs.ArrayVec.{array_vec_len};
ghost use Rattle.usbredir.specs.Device.{FitsDevice, bulk_answer_of, bulk_answer_text, control_answer_of, control_answer_text, data_of_device};
ghost use Rattle.usbredir.specs.Device.{device_connect_in, device_connect_text, device_fields_text, device_head, device_in, device_of, device_room, device_text};
ghost use Rattle.usbredir.specs.Device.{endpoint_info_in, endpoint_info_text, fields_of_device, interface_info_in, interface_info_text};
ghost use Rattle.usbredir.specs.Device.{kind_of_device, numbers_in};
ghost use Rattle.usbredir.specs.Kinds.{most_bytes, status_of};

use crate::PacketFault;
use crate::fields::{BulkAnswer, ControlAnswer, DeviceConnect, EndpointInfo, InterfaceInfo};
use crate::guest::{high_half, is_in, joined, low_half, put};
use crate::kinds::{Head, Kind, MOST_BYTES, Status};
use crate::packets::DevicePacket;
use arrayvec::ArrayVec;
use byteorder::{ByteOrder, LittleEndian};

/// The most bytes of fields of a device's packet.
pub const MOST_DEVICE_FIELDS: usize = 288;

/// The most bytes of a device's packet before its data.
pub const MOST_DEVICE_BYTES: usize = 304;

impl DeviceConnect {
    #[tactic(auto, unfolding(crate::specs::Device::device_connect_in))]
    fn from_bytes(bytes: &[u8]) -> DeviceConnect
        requires { length bytes.now ≡ 10 }
        ensures { result ≡ device_connect_in bytes.now }
    {
        DeviceConnect {
            speed: bytes[0],
            class: bytes[1],
            subclass: bytes[2],
            protocol: bytes[3],
            vendor: LittleEndian::read_u16(&bytes[4..]),
            product: LittleEndian::read_u16(&bytes[6..]),
            version: LittleEndian::read_u16(&bytes[8..]),
        }
    }

    #[tactic(auto, unfolding(crate::specs::Device::device_connect_text))]
    fn to_bytes(&self) -> [u8; 10]
        ensures { result ≡ device_connect_text self.now }
    {
        let mut bytes = [0; 10];
        bytes[0] = self.speed;
        bytes[1] = self.class;
        bytes[2] = self.subclass;
        bytes[3] = self.protocol;
        LittleEndian::write_u16(&mut bytes[4..], self.vendor);
        LittleEndian::write_u16(&mut bytes[6..], self.product);
        LittleEndian::write_u16(&mut bytes[8..], self.version);
        bytes
    }
}

/// 32 bytes from a place on.
fn table(bytes: &[u8], at: usize) -> [u8; 32]
    requires { at + 32 ≤ length bytes.now }
    ensures { result ≡ take 32 (drop at bytes.now) }
{
    let mut table = [0; 32];
    table.copy_from_slice(&bytes[at..at + 32]);
    table
}

impl InterfaceInfo {
    #[tactic(auto, unfolding(crate::specs::Device::interface_info_in))]
    fn from_bytes(bytes: &[u8]) -> InterfaceInfo
        requires { length bytes.now ≡ 132 }
        ensures { result ≡ interface_info_in bytes.now }
    {
        InterfaceInfo {
            count: LittleEndian::read_u32(bytes),
            numbers: table(bytes, 4),
            classes: table(bytes, 36),
            subclasses: table(bytes, 68),
            protocols: table(bytes, 100),
        }
    }

    #[tactic(auto, unfolding(crate::specs::Device::interface_info_text))]
    fn put(&self, into: &mut ArrayVec<u8, MOST_DEVICE_FIELDS>)
        requires { array_vec_len into.old ≡ 0 }
        ensures items { into.new.items ≡ interface_info_text self.now }
        ensures len { array_vec_len into.new ≡ 132 }
    {
        put(into, &self.count.to_le_bytes());
        put(into, &self.numbers);
        put(into, &self.classes);
        put(into, &self.subclasses);
        put(into, &self.protocols);
    }
}

/// 32 numbers of 2 bytes each, from a place on.
fn shorts(bytes: &[u8], at: usize) -> [u16; 32]
    requires { at + 64 ≤ length bytes.now }
    ensures { result ≡ numbers_in 2 32 (take 64 (drop at bytes.now)) }
{
    let mut numbers = [0; 32];
    LittleEndian::read_u16_into(&bytes[at..at + 64], &mut numbers);
    numbers
}

/// 32 numbers of 4 bytes each, from a place on.
fn words(bytes: &[u8], at: usize) -> [u32; 32]
    requires { at + 128 ≤ length bytes.now }
    ensures { result ≡ numbers_in 4 32 (take 128 (drop at bytes.now)) }
{
    let mut numbers = [0; 32];
    LittleEndian::read_u32_into(&bytes[at..at + 128], &mut numbers);
    numbers
}

impl EndpointInfo {
    #[tactic(auto, unfolding(crate::specs::Device::endpoint_info_in))]
    fn from_bytes(bytes: &[u8]) -> EndpointInfo
        requires { length bytes.now ≡ 288 }
        ensures { result ≡ endpoint_info_in bytes.now }
    {
        EndpointInfo {
            types: table(bytes, 0),
            intervals: table(bytes, 32),
            interfaces: table(bytes, 64),
            packet_sizes: shorts(bytes, 96),
            streams: words(bytes, 160),
        }
    }

    #[tactic(auto, unfolding(crate::specs::Device::endpoint_info_text))]
    fn put(&self, into: &mut ArrayVec<u8, MOST_DEVICE_FIELDS>)
        requires { array_vec_len into.old ≡ 0 }
        ensures items { into.new.items ≡ endpoint_info_text self.now }
        ensures len { array_vec_len into.new ≡ 288 }
    {
        let mut sizes = [0; 64];
        let mut streams = [0; 128];
        LittleEndian::write_u16_into(&self.packet_sizes, &mut sizes);
        LittleEndian::write_u32_into(&self.streams, &mut streams);
        put(into, &self.types);
        put(into, &self.intervals);
        put(into, &self.interfaces);
        put(into, &sizes);
        put(into, &streams);
    }
}

impl ControlAnswer {
    #[tactic(auto, unfolding(crate::specs::Device::control_answer_text))]
    fn to_bytes(&self) -> [u8; 10]
        ensures { result ≡ control_answer_text self.now }
    {
        let mut bytes = [0; 10];
        bytes[0] = self.endpoint;
        bytes[1] = self.request;
        bytes[2] = self.request_type;
        bytes[3] = self.status.number();
        LittleEndian::write_u16(&mut bytes[4..], self.value);
        LittleEndian::write_u16(&mut bytes[6..], self.index);
        LittleEndian::write_u16(&mut bytes[8..], self.length);
        bytes
    }
}

impl BulkAnswer {
    #[tactic(auto, unfolding(crate::specs::Device::bulk_answer_text))]
    fn to_bytes(&self) -> [u8; 10]
        ensures { result ≡ bulk_answer_text self.now }
    {
        let mut bytes = [0; 10];
        bytes[0] = self.endpoint;
        bytes[1] = self.status.number();
        LittleEndian::write_u16(&mut bytes[2..], low_half(self.length));
        LittleEndian::write_u32(&mut bytes[4..], self.stream);
        LittleEndian::write_u16(&mut bytes[8..], high_half(self.length));
        bytes
    }
}

impl DevicePacket {
    /// What it is.
    pub fn kind(&self) -> Kind
        ensures { result ≡ kind_of_device self.now }
    {
        match self {
            DevicePacket::DeviceConnect(_) => Kind::DeviceConnect,
            DevicePacket::InterfaceInfo(_) => Kind::InterfaceInfo,
            DevicePacket::EndpointInfo(_) => Kind::EndpointInfo,
            DevicePacket::ConfigurationStatus { .. } => Kind::ConfigurationStatus,
            DevicePacket::AltSettingStatus { .. } => Kind::AltSettingStatus,
            DevicePacket::BulkStreamsStatus { .. } => Kind::BulkStreamsStatus,
            DevicePacket::Control(_) => Kind::Control,
            DevicePacket::Bulk(_) => Kind::Bulk,
        }
    }

    /// How many bytes of data it has: an IN answer all that came in, an OUT answer none.
    pub fn data_bytes(&self) -> u32
        ensures { result ≡ data_of_device self.now }
    {
        match self {
            DevicePacket::Control(answer) if is_in(answer.endpoint) => u32::from(answer.length),
            DevicePacket::Bulk(answer) if is_in(answer.endpoint) => answer.length,
            _ => 0,
        }
    }

    /// Its head and fields. Its data follow them, as many as [`DevicePacket::data_bytes`].
    pub fn to_bytes(&self, id: u64) -> ArrayVec<u8, MOST_DEVICE_BYTES>
        requires { data_of_device self.now ≤ 134218464 }
        ensures { result.items ≡ device_text id self.now }
    {
        let fields = self.fields();
        let head = Head {
            kind: self.kind().number(),
            length: fields.len() as u32 + self.data_bytes(),
            id,
        };
        let mut bytes = ArrayVec::new();
        put(&mut bytes, &head.to_bytes());
        put(&mut bytes, &fields);
        bytes
    }

    fn fields(&self) -> ArrayVec<u8, MOST_DEVICE_FIELDS>
        ensures items { result.items ≡ device_fields_text self.now }
        ensures len { array_vec_len result ≤ 288 }
    {
        let mut bytes = ArrayVec::new();
        match self {
            DevicePacket::DeviceConnect(device) => put(&mut bytes, &device.to_bytes()),
            DevicePacket::InterfaceInfo(info) => info.put(&mut bytes),
            DevicePacket::EndpointInfo(info) => info.put(&mut bytes),
            DevicePacket::ConfigurationStatus { status, value } => {
                put(&mut bytes, &[status.number(), *value])
            }
            DevicePacket::AltSettingStatus {
                status,
                interface,
                setting,
            } => put(&mut bytes, &[status.number(), *interface, *setting]),
            DevicePacket::BulkStreamsStatus {
                endpoints,
                streams,
                status,
            } => {
                put(&mut bytes, &endpoints.to_le_bytes());
                put(&mut bytes, &streams.to_le_bytes());
                put(&mut bytes, &[status.number()]);
            }
            DevicePacket::Control(answer) => put(&mut bytes, &answer.to_bytes()),
            DevicePacket::Bulk(answer) => put(&mut bytes, &answer.to_bytes()),
        }
        bytes
    }

    /// How many bytes of fields to read behind a head. A kind that no device sends is `UnexpectedPacket`; fewer or too many bytes
    /// behind the head are `BadLength`.
    pub fn fields_bytes(head: &Head) -> Result<u32, PacketFault>
        ensures result { result ≡ device_room head.now }
        ensures few { IfOk result (λ count. count ≤ 288) }
    {
        let count = match fields_of_kind(Kind::from_number(head.kind)) {
            None => return Err(PacketFault::UnexpectedPacket),
            Some(count) => count,
        };
        if count <= head.length && head.length <= MOST_BYTES {
            Ok(count)
        } else {
            Err(PacketFault::BadLength)
        }
    }

    /// The packet of a head and its fields; data follow them. A kind that no device sends and a status without a name are
    /// `UnexpectedPacket`; fields, or data, of other than the head's length are `BadLength`.
    pub fn from_bytes(head: &Head, bytes: &[u8]) -> Result<DevicePacket, PacketFault>
        ensures { result ≡ device_in head.now bytes.now }
    {
        let kind = Kind::from_number(head.kind);
        let count = match fields_of_kind(kind) {
            None => return Err(PacketFault::UnexpectedPacket),
            Some(count) => count,
        };
        if bytes.len() != count as usize || MOST_BYTES < head.length {
            return Err(PacketFault::BadLength);
        }
        match packet_of(kind, bytes) {
            None => Err(PacketFault::UnexpectedPacket),
            Some(packet) => {
                if head.length < count || head.length - count != packet.data_bytes() {
                    return Err(PacketFault::BadLength);
                }
                Ok(packet)
            }
        }
    }
}

/// How many bytes of fields a packet of a device has.
fn fields_of_kind(kind: Option<Kind>) -> Option<u32>
    ensures value { result ≡ fields_of_device kind }
    ensures few { IfSome result (λ count. count ≤ 288) }
{
    match kind? {
        Kind::ConfigurationStatus => Some(2),
        Kind::AltSettingStatus => Some(3),
        Kind::BulkStreamsStatus => Some(9),
        Kind::DeviceConnect | Kind::Control | Kind::Bulk => Some(10),
        Kind::InterfaceInfo => Some(132),
        Kind::EndpointInfo => Some(288),
        _ => None,
    }
}

fn control_answer_of(bytes: &[u8]) -> Option<DevicePacket>
    requires { length bytes.now ≡ 10 }
    ensures { result ≡ control_answer_of (status_of (slice_index bytes.now 3)) bytes.now }
{
    Some(DevicePacket::Control(ControlAnswer {
        endpoint: bytes[0],
        request: bytes[1],
        request_type: bytes[2],
        status: Status::from_number(bytes[3])?,
        value: LittleEndian::read_u16(&bytes[4..]),
        index: LittleEndian::read_u16(&bytes[6..]),
        length: LittleEndian::read_u16(&bytes[8..]),
    }))
}

fn bulk_answer_of(bytes: &[u8]) -> Option<DevicePacket>
    requires { length bytes.now ≡ 10 }
    ensures { result ≡ bulk_answer_of (status_of (slice_index bytes.now 1)) bytes.now }
{
    Some(DevicePacket::Bulk(BulkAnswer {
        endpoint: bytes[0],
        status: Status::from_number(bytes[1])?,
        length: joined(
            LittleEndian::read_u16(&bytes[2..]),
            LittleEndian::read_u16(&bytes[8..]),
        ),
        stream: LittleEndian::read_u32(&bytes[4..]),
    }))
}

/// The packet of a kind with these fields.
fn packet_of(kind: Option<Kind>, bytes: &[u8]) -> Option<DevicePacket>
    requires { fields_of_device kind ≡ Some (length bytes.now) }
    ensures { result ≡ device_of kind bytes.now }
{
    match kind? {
        Kind::DeviceConnect => Some(DevicePacket::DeviceConnect(DeviceConnect::from_bytes(bytes))),
        Kind::InterfaceInfo => Some(DevicePacket::InterfaceInfo(InterfaceInfo::from_bytes(bytes))),
        Kind::EndpointInfo => Some(DevicePacket::EndpointInfo(EndpointInfo::from_bytes(bytes))),
        Kind::ConfigurationStatus => Some(DevicePacket::ConfigurationStatus {
            status: Status::from_number(bytes[0])?,
            value: bytes[1],
        }),
        Kind::AltSettingStatus => Some(DevicePacket::AltSettingStatus {
            status: Status::from_number(bytes[0])?,
            interface: bytes[1],
            setting: bytes[2],
        }),
        Kind::BulkStreamsStatus => Some(DevicePacket::BulkStreamsStatus {
            endpoints: LittleEndian::read_u32(bytes),
            streams: LittleEndian::read_u32(&bytes[4..]),
            status: Status::from_number(bytes[8])?,
        }),
        Kind::Control => control_answer_of(bytes),
        Kind::Bulk => bulk_answer_of(bytes),
        _ => None,
    }
}

/// Law: what the fields of a packet are read as, behind its own head, is that packet.
pub fn answer_reads_back(id: u64, packet: &DevicePacket)
    requires fits { FitsDevice packet.now }
    requires few { (device_head id packet.now).length ≤ most_bytes }
    ensures { device_in (device_head id packet.now) (device_fields_text packet.now) ≡ Ok packet.now }
{
    let _answer = (id, *packet);
}

/// Law: fields that are read as a packet are its fields, and the head is its head.
pub fn answer_writes_back(head: &Head, bytes: &[u8])
    ensures fields { IfOk (device_in head.now bytes.now) (λ packet. device_fields_text packet ≡ bytes.now) }
    ensures head { IfOk (device_in head.now bytes.now) (λ packet. device_head head.now.id packet ≡ head.now) }
{
    let _read = DevicePacket::from_bytes(head, bytes);
}
