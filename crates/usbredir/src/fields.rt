//! The fields of packets that have more than two.

use crate::kinds::Status;

/// A request on endpoint 0: a setup packet. Bit 7 of `endpoint` is set where data come in.
#[derive(Clone, Copy, Debug, PartialEq, Eq)]
pub struct ControlRequest {
    pub endpoint: u8,
    pub request: u8,
    pub request_type: u8,
    pub value: u16,
    pub index: u16,
    pub length: u16,
}

/// The answer to it. `length` is how many bytes came in or went out.
#[derive(Clone, Copy, Debug, PartialEq, Eq)]
pub struct ControlAnswer {
    pub endpoint: u8,
    pub request: u8,
    pub request_type: u8,
    pub status: Status,
    pub value: u16,
    pub index: u16,
    pub length: u16,
}

/// A transfer of a bulk endpoint. Bit 7 of `endpoint` is set where data come in; stream 0 is none.
#[derive(Clone, Copy, Debug, PartialEq, Eq)]
pub struct BulkRequest {
    pub endpoint: u8,
    pub length: u32,
    pub stream: u32,
}

/// The answer to it. `length` is how many bytes came in or went out.
#[derive(Clone, Copy, Debug, PartialEq, Eq)]
pub struct BulkAnswer {
    pub endpoint: u8,
    pub status: Status,
    pub length: u32,
    pub stream: u32,
}

/// What the device is. Speed 3 is SuperSpeed; `version` is in binary coded decimals.
#[derive(Clone, Copy, Debug, PartialEq, Eq)]
pub struct DeviceConnect {
    pub speed: u8,
    pub class: u8,
    pub subclass: u8,
    pub protocol: u8,
    pub vendor: u16,
    pub product: u16,
    pub version: u16,
}

/// The device's interfaces, `count` of them: the number and class codes of each.
#[derive(Clone, Copy, Debug, PartialEq, Eq)]
pub struct InterfaceInfo {
    pub count: u32,
    pub numbers: [u8; 32],
    pub classes: [u8; 32],
    pub subclasses: [u8; 32],
    pub protocols: [u8; 32],
}

/// The device's endpoints, each at its number, an IN endpoint 16 places behind. Type 255 is no endpoint.
#[derive(Clone, Copy, Debug, PartialEq, Eq)]
pub struct EndpointInfo {
    pub types: [u8; 32],
    pub intervals: [u8; 32],
    pub interfaces: [u8; 32],
    pub packet_sizes: [u16; 32],
    pub streams: [u32; 32],
}
