//! Kinds of packets, statuses, and heads.

ghost use Rattle.std.specs.Prelude.{◌≡◌, ◌<◌, ◌^◌, Some, IfSome};
ghost use Rattle.usbredir.specs.Kinds.{FitsHead, head_in, head_text, hello_head_in, hello_head_text, kind_of, number_of_kind, number_of_status, status_of};

use byteorder::{ByteOrder, LittleEndian};

/// Bytes of a head.
pub const HEAD_BYTES: usize = 16;

/// Bytes of a hello's head.
pub const HELLO_HEAD_BYTES: usize = 12;

/// The most bytes behind a head.
pub const MOST_BYTES: u32 = 134_218_752;

const _: () = prove!(MOST_BYTES == 128 * 1024 * 1024 + 1024);

/// What a packet is: the type in its head.
#[derive(Clone, Copy, Debug, PartialEq, Eq)]
pub enum Kind {
    Hello,
    DeviceConnect,
    Reset,
    InterfaceInfo,
    EndpointInfo,
    SetConfiguration,
    GetConfiguration,
    ConfigurationStatus,
    SetAltSetting,
    GetAltSetting,
    AltSettingStatus,
    AllocBulkStreams,
    FreeBulkStreams,
    BulkStreamsStatus,
    CancelDataPacket,
    FilterReject,
    FilterFilter,
    Control,
    Bulk,
}

impl Kind {
    /// The kind of a number; None where no packet of these two sides has it.
    pub fn from_number(number: u32) -> Option<Kind>
        ensures { result ≡ kind_of number }
    {
        let kind = match number {
            0 => Kind::Hello,
            1 => Kind::DeviceConnect,
            3 => Kind::Reset,
            4 => Kind::InterfaceInfo,
            5 => Kind::EndpointInfo,
            6 => Kind::SetConfiguration,
            7 => Kind::GetConfiguration,
            8 => Kind::ConfigurationStatus,
            9 => Kind::SetAltSetting,
            10 => Kind::GetAltSetting,
            11 => Kind::AltSettingStatus,
            18 => Kind::AllocBulkStreams,
            19 => Kind::FreeBulkStreams,
            20 => Kind::BulkStreamsStatus,
            21 => Kind::CancelDataPacket,
            22 => Kind::FilterReject,
            23 => Kind::FilterFilter,
            100 => Kind::Control,
            101 => Kind::Bulk,
            _ => return None,
        };
        Some(kind)
    }

    /// Its number.
    pub fn number(self) -> u32
        ensures { result ≡ number_of_kind self }
    {
        match self {
            Kind::Hello => 0,
            Kind::DeviceConnect => 1,
            Kind::Reset => 3,
            Kind::InterfaceInfo => 4,
            Kind::EndpointInfo => 5,
            Kind::SetConfiguration => 6,
            Kind::GetConfiguration => 7,
            Kind::ConfigurationStatus => 8,
            Kind::SetAltSetting => 9,
            Kind::GetAltSetting => 10,
            Kind::AltSettingStatus => 11,
            Kind::AllocBulkStreams => 18,
            Kind::FreeBulkStreams => 19,
            Kind::BulkStreamsStatus => 20,
            Kind::CancelDataPacket => 21,
            Kind::FilterReject => 22,
            Kind::FilterFilter => 23,
            Kind::Control => 100,
            Kind::Bulk => 101,
        }
    }
}

/// How a request ended.
#[derive(Clone, Copy, Debug, PartialEq, Eq)]
pub enum Status {
    Success,
    Cancelled,
    /// The request doesn't fit the device.
    Invalid,
    IoError,
    Stall,
    Timeout,
    /// More bytes came than there was room for.
    Babble,
}

impl Status {
    /// The status of a number; None above 6.
    pub fn from_number(number: u8) -> Option<Status>
        ensures { result ≡ status_of number }
    {
        match number {
            0 => Some(Status::Success),
            1 => Some(Status::Cancelled),
            2 => Some(Status::Invalid),
            3 => Some(Status::IoError),
            4 => Some(Status::Stall),
            5 => Some(Status::Timeout),
            6 => Some(Status::Babble),
            _ => None,
        }
    }

    /// Its number.
    pub fn number(self) -> u8
        ensures { result ≡ number_of_status self }
    {
        match self {
            Status::Success => 0,
            Status::Cancelled => 1,
            Status::Invalid => 2,
            Status::IoError => 3,
            Status::Stall => 4,
            Status::Timeout => 5,
            Status::Babble => 6,
        }
    }
}

/// The head of a packet: the number of its kind, how many bytes follow, and its id.
#[derive(Clone, Copy, Debug, PartialEq, Eq)]
pub struct Head {
    pub kind: u32,
    pub length: u32,
    pub id: u64,
}

impl Head {
    /// The head in 16 bytes.
    #[tactic(auto, unfolding(crate::specs::Kinds::head_in))]
    pub fn from_bytes(bytes: &[u8; 16]) -> Head
        ensures { result ≡ head_in bytes.now }
    {
        Head {
            kind: LittleEndian::read_u32(bytes),
            length: LittleEndian::read_u32(&bytes[4..]),
            id: LittleEndian::read_u64(&bytes[8..]),
        }
    }

    /// Its 16 bytes.
    #[tactic(auto, unfolding(crate::specs::Kinds::head_text))]
    pub fn to_bytes(&self) -> [u8; 16]
        ensures { result ≡ head_text self.now }
    {
        let mut bytes = [0; 16];
        LittleEndian::write_u32(&mut bytes, self.kind);
        LittleEndian::write_u32(&mut bytes[4..], self.length);
        LittleEndian::write_u64(&mut bytes[8..], self.id);
        bytes
    }

    /// A hello's head in 12 bytes, the id in the last four.
    #[tactic(auto, unfolding(crate::specs::Kinds::hello_head_in))]
    pub fn from_hello_bytes(bytes: &[u8; 12]) -> Head
        ensures { result ≡ hello_head_in bytes.now }
    {
        Head {
            kind: LittleEndian::read_u32(bytes),
            length: LittleEndian::read_u32(&bytes[4..]),
            id: u64::from(LittleEndian::read_u32(&bytes[8..])),
        }
    }

    /// Its 12 bytes as a hello's head.
    #[tactic(auto, unfolding(crate::specs::Kinds::hello_head_text))]
    pub fn to_hello_bytes(&self) -> [u8; 12]
        requires { self.now.id < 2 ^ 32 }
        ensures { result ≡ hello_head_text self.now }
    {
        let mut bytes = [0; 12];
        LittleEndian::write_u32(&mut bytes, self.kind);
        LittleEndian::write_u32(&mut bytes[4..], self.length);
        LittleEndian::write_u32(&mut bytes[8..], self.id as u32);
        bytes
    }
}

/// Law: the number of a kind, and of a status, has that name.
pub fn names_read_back(kind: Kind, status: Status)
    ensures kind { kind_of (number_of_kind kind) ≡ Some kind }
    ensures status { status_of (number_of_status status) ≡ Some status }
{}

/// Law: a number that names a kind, or a status, is its number.
pub fn names_write_back(kind: u32, status: u8)
    ensures kind { IfSome (kind_of kind) (λ name. number_of_kind name ≡ kind) }
    ensures status { IfSome (status_of status) (λ name. number_of_status name ≡ status) }
{}

/// Law: what a head's bytes are read as is that head.
pub fn head_reads_back(head: &Head)
    requires { FitsHead head.now }
    ensures whole { head_in (head_text head.now) ≡ head.now }
    ensures hello { head.now.id < 2 ^ 32 → hello_head_in (hello_head_text head.now) ≡ head.now }
{
    let _head = *head;
}

/// Law: bytes that are read as a head are its bytes.
pub fn head_writes_back(bytes: &[u8; 16], hello: &[u8; 12])
    ensures whole { head_text (head_in bytes.now) ≡ bytes.now }
    ensures hello { hello_head_text (hello_head_in hello.now) ≡ hello.now }
{
    let _head = Head::from_bytes(bytes);
    let _hello = Head::from_hello_bytes(hello);
}
