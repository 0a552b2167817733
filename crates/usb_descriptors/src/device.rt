//! The device descriptor (USB 3.2, 9.6.1).
ghost use Rattle.std.specs.Prelude.{◌≡◌, ◌≤◌, ◌+◌, IfOk, length};
ghost use Rattle.usb_descriptors.specs.Device.{device_in, device_text, is_device};
ghost use Rattle.usb_descriptors.specs.Fields.{word};

use crate::DescriptorFault;

/// Bytes of a device descriptor.
const DEVICE_BYTES: usize = 18;

/// Its type.
const DEVICE: u8 = 0x01;

/// Endpoint 0 of a SuperSpeed device has packets of 2 to this power bytes.
const SUPER_SPEED_EXPONENT: u8 = 9;

/// The class of hubs.
const HUB_CLASS: u8 = 0x09;

/// What a device descriptor says.
#[derive(Clone, Copy, Debug, PartialEq, Eq)]
pub struct DeviceDescriptor {
    /// The release of USB that it follows, as 0320h.
    pub release: u16,
    pub class: u8,
    pub subclass: u8,
    pub protocol: u8,
    /// Endpoint 0 has packets of 2 to this power bytes.
    pub max_packet_exponent: u8,
    pub vendor: u16,
    pub product: u16,
    /// The release of the device.
    pub device: u16,
    /// Indices of strings; 0 for none.
    pub manufacturer_string: u8,
    pub product_string: u8,
    pub serial_string: u8,
    /// How many configurations there are.
    pub configurations: u8,
}

/// Reads the 18 bytes of a device descriptor. `BadDevice` for another length, type or packet size of endpoint 0 than a SuperSpeed device
/// has, then `Hub` for class 09h.
#[tactic(auto, unfolding(crate::specs::Device::device_in))]
pub fn read_device(bytes: &[u8]) -> Result<DeviceDescriptor, DescriptorFault>
    ensures read { result ≡ device_in bytes.now }
    ensures all { IfOk result (λ device. device_text device ≡ bytes.now) }
{
    if !is_device(bytes) {
        return Err(DescriptorFault::BadDevice);
    }
    if bytes[4] == HUB_CLASS {
        return Err(DescriptorFault::Hub);
    }
    Ok(DeviceDescriptor {
        release: word(bytes, 2),
        class: bytes[4],
        subclass: bytes[5],
        protocol: bytes[6],
        max_packet_exponent: bytes[7],
        vendor: word(bytes, 8),
        product: word(bytes, 10),
        device: word(bytes, 12),
        manufacturer_string: bytes[14],
        product_string: bytes[15],
        serial_string: bytes[16],
        configurations: bytes[17],
    })
}

fn is_device(bytes: &[u8]) -> bool
    ensures { result ≡ is_device bytes.now }
{
    bytes.len() == DEVICE_BYTES
        && usize::from(bytes[0]) == DEVICE_BYTES
        && bytes[1] == DEVICE
        && bytes[7] == SUPER_SPEED_EXPONENT
}

/// The little endian number of two bytes at a place.
pub(crate) fn word(bytes: &[u8], at: usize) -> u16
    requires { at + 2 ≤ length bytes.now }
    ensures { result ≡ word bytes.now at }
{
    u16::from_le_bytes([bytes[at], bytes[at + 1]])
}
