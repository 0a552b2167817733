//! What the disk is, told at the beginning of a session and where it is configured.
ghost use Rattle.std.specs.Prelude.{◌≡◌};
ghost use Rattle.usb_tags.specs.Fixed.{device_connect, endpoint_info, interface_info};

use usbredir::{DeviceConnect, EndpointInfo, InterfaceInfo};

/// SuperSpeed; each class is told by its interface; vendor 46f4h, product 3, version 0.
pub fn device_connect() -> DeviceConnect
    ensures { result ≡ device_connect }
{
    DeviceConnect {
        speed: 3,
        class: 0,
        subclass: 0,
        protocol: 0,
        vendor: 0x46f4,
        product: 3,
        version: 0,
    }
}

/// One interface: mass storage, SCSI, UAS.
pub fn interface_info() -> InterfaceInfo
    ensures { result ≡ interface_info }
{
    let mut classes = [0; 32];
    classes[0] = 8;
    let mut subclasses = [0; 32];
    subclasses[0] = 6;
    let mut protocols = [0; 32];
    protocols[0] = 0x62;
    InterfaceInfo {
        count: 1,
        numbers: [0; 32],
        classes,
        subclasses,
        protocols,
    }
}

/// Endpoint 0 both ways, and the four pipes of 1,024 bytes a packet, three of them with 128 streams.
pub fn endpoint_info() -> EndpointInfo
    ensures { result ≡ endpoint_info }
{
    EndpointInfo {
        types: [
            0, 2, 2, 255, 255, 255, 255, 255, 255, 255, 255, 255, 255, 255, 255, 255, 0, 2, 2, 255,
            255, 255, 255, 255, 255, 255, 255, 255, 255, 255, 255, 255,
        ],
        intervals: [0; 32],
        interfaces: [0; 32],
        packet_sizes: [
            0, 1024, 1024, 0, 0, 0, 0, 0, 0, 0, 0, 0, 0, 0, 0, 0, 0, 1024, 1024, 0, 0, 0, 0, 0, 0,
            0, 0, 0, 0, 0, 0, 0,
        ],
        streams: [
            0, 0, 128, 0, 0, 0, 0, 0, 0, 0, 0, 0, 0, 0, 0, 0, 0, 128, 128, 0, 0, 0, 0, 0, 0, 0, 0,
            0, 0, 0, 0, 0,
        ],
    }
}
