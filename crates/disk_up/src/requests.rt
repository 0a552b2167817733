//! The requests to endpoint 0 (USB 3.2, 9.4), and what their answers lead to (9.6).
ghost use Rattle.std.specs.Prelude.{◌≡◌};
ghost use Rattle.disk_up.specs.Requests.{behind_bos, behind_configuration, behind_device, behind_function, behind_head, get_descriptor, may_stall, packet_of, read_answer, why_of};

use bring_up::Why;
use host_trbs::SetupPacket;
use usb_descriptors::{
    DescriptorFault, DeviceDescriptor, Streams, UasFunction, find_uas, read_bos_total,
    read_configuration_total, read_device, streams_of,
};

/// A request to endpoint 0.
#[derive(Clone, Copy)]
pub enum Request {
    /// The device descriptor.
    Device,
    /// The first bytes of the BOS, and so many.
    BosHead,
    Bos(u16),
    /// The first bytes of configuration 0, and so many.
    ConfigurationHead,
    Configuration(u16),
    /// SET_CONFIGURATION and SET_INTERFACE.
    SetConfiguration(u8),
    SetInterface { interface: u8, alternate: u8 },
}

/// What is known of a device: its vendor, product and release, its function and how many tags that has.
#[derive(Clone, Copy)]
pub struct Known {
    pub vendor: u16,
    pub product: u16,
    /// The release of the device, bcdDevice.
    pub release: u16,
    pub disk: Option<(UasFunction, Streams)>,
}

/// What an answer leads to.
#[derive(Clone, Copy)]
pub enum Found {
    Refused(Why),
    Next(Known, Request),
}

/// bmRequestType: a standard request to the device whose data come from it; without data; to an interface.
const FROM_DEVICE: u8 = 0x80;

const TO_DEVICE: u8 = 0x00;

const TO_INTERFACE: u8 = 0x01;

/// bRequest.
const GET_DESCRIPTOR: u8 = 6;

const SET_CONFIGURATION: u8 = 9;

const SET_INTERFACE: u8 = 11;

/// Types of descriptors, in the upper byte of wValue.
const DEVICE: u16 = 0x0100;

const CONFIGURATION: u16 = 0x0200;

const BOS: u16 = 0x0f00;

impl Request {
    /// Its Setup packet.
    pub fn packet(self) -> SetupPacket
        ensures { result ≡ packet_of self }
    {
        match self {
            Request::Device => descriptor(DEVICE, 18),
            Request::BosHead => descriptor(BOS, 5),
            Request::Bos(length) => descriptor(BOS, length),
            Request::ConfigurationHead => descriptor(CONFIGURATION, 9),
            Request::Configuration(length) => descriptor(CONFIGURATION, length),
            Request::SetConfiguration(value) => SetupPacket {
                request_type: TO_DEVICE,
                request: SET_CONFIGURATION,
                value: u16::from(value),
                index: 0,
                length: 0,
            },
            Request::SetInterface {
                interface,
                alternate,
            } => SetupPacket {
                request_type: TO_INTERFACE,
                request: SET_INTERFACE,
                value: u16::from(alternate),
                index: u16::from(interface),
                length: 0,
            },
        }
    }

    /// Whether a device may refuse it.
    pub fn may_stall(self) -> bool
        ensures { result ≡ may_stall self }
    {
        matches!(self, Request::BosHead | Request::Bos(_))
    }
}

fn descriptor(value: u16, length: u16) -> SetupPacket
    ensures { result ≡ get_descriptor value length }
{
    SetupPacket {
        request_type: FROM_DEVICE,
        request: GET_DESCRIPTOR,
        value,
        index: 0,
        length,
    }
}

/// What the answer of a request for a descriptor leads to; `tags` are asked for, and the controller's stream arrays have at most 2 to the power
/// of `max_psa_size` plus 1 contexts.
pub(crate) fn read_answer(
    known: Known,
    request: Request,
    bytes: &[u8],
    tags: u8,
    max_psa_size: u8,
) -> Found
    ensures { result ≡ read_answer known request bytes.now tags max_psa_size }
{
    match request {
        Request::Device => behind_device(known, read_device(bytes)),
        Request::BosHead => behind_bos(known, read_bos_total(bytes)),
        Request::Bos(_) => Found::Next(known, Request::ConfigurationHead),
        Request::ConfigurationHead => behind_head(known, read_configuration_total(bytes)),
        Request::Configuration(_) => behind_configuration(
            known,
            find_uas(bytes),
            tags,
            max_psa_size,
        ),
        Request::SetConfiguration(_) | Request::SetInterface { .. } => Found::Next(known, request),
    }
}

fn behind_device(known: Known, read: Result<DeviceDescriptor, DescriptorFault>) -> Found
    ensures { result ≡ behind_device known read }
{
    match read {
        Err(fault) => Found::Refused(why_of(fault)),
        Ok(device) => Found::Next(
            Known {
                vendor: device.vendor,
                product: device.product,
                release: device.device,
                disk: known.disk,
            },
            Request::BosHead,
        ),
    }
}

/// A device whose BOS can't be read is asked for its configuration all the same.
fn behind_bos(known: Known, read: Result<u16, DescriptorFault>) -> Found
    ensures { result ≡ behind_bos known read }
{
    match read {
        Err(_) => Found::Next(known, Request::ConfigurationHead),
        Ok(total) => Found::Next(known, Request::Bos(total)),
    }
}

fn behind_head(known: Known, read: Result<u16, DescriptorFault>) -> Found
    ensures { result ≡ behind_head known read }
{
    match read {
        Err(fault) => Found::Refused(why_of(fault)),
        Ok(total) => Found::Next(known, Request::Configuration(total)),
    }
}

fn behind_configuration(
    known: Known,
    read: Result<UasFunction, DescriptorFault>,
    tags: u8,
    max_psa_size: u8,
) -> Found
    ensures { result ≡ behind_configuration known read tags max_psa_size }
{
    match read {
        Err(fault) => Found::Refused(why_of(fault)),
        Ok(function) if known.is_broken(&function) => Found::Refused(Why::BrokenUas),
        Ok(function) => behind_function(
            known,
            function,
            streams_of(tags, &function.pipes, max_psa_size),
        ),
    }
}

fn behind_function(
    known: Known,
    function: UasFunction,
    read: Result<Streams, DescriptorFault>,
) -> Found
    ensures { result ≡ behind_function known function read }
{
    match read {
        Err(fault) => Found::Refused(why_of(fault)),
        Ok(streams) => Found::Next(
            Known {
                disk: Some((function, streams)),
                ..known
            },
            Request::SetConfiguration(function.configuration),
        ),
    }
}

/// Why descriptors that are refused aren't used.
fn why_of(fault: DescriptorFault) -> Why
    ensures { result ≡ why_of fault }
{
    match fault {
        DescriptorFault::BadDevice => Why::BadDevice,
        DescriptorFault::Hub => Why::Hub,
        DescriptorFault::LongConfiguration => Why::LongConfiguration,
        DescriptorFault::BadDescriptor => Why::BadDescriptor,
        DescriptorFault::NoUas => Why::NoUas,
        DescriptorFault::BadPipes => Why::BadPipes,
        DescriptorFault::NoCompanion => Why::NoCompanion,
        DescriptorFault::NoStreams => Why::NoStreams,
    }
}
