//! The packets of each side behind its hello, without their data.

use crate::fields::{
    BulkAnswer, BulkRequest, ControlAnswer, ControlRequest, DeviceConnect, EndpointInfo,
    InterfaceInfo,
};
use crate::kinds::Status;

/// What a guest's side sends. Masks of endpoints have a bit for each place of [`EndpointInfo`].
#[derive(Clone, Copy, Debug, PartialEq, Eq)]
pub enum GuestPacket {
    Reset,
    SetConfiguration { value: u8 },
    GetConfiguration,
    SetAltSetting { interface: u8, setting: u8 },
    GetAltSetting { interface: u8 },
    AllocBulkStreams { endpoints: u32, streams: u32 },
    FreeBulkStreams { endpoints: u32 },
    CancelDataPacket,
    FilterReject,
    FilterFilter,
    Control(ControlRequest),
    Bulk(BulkRequest),
}

/// What the device's side sends.
#[derive(Clone, Copy, Debug, PartialEq, Eq)]
pub enum DevicePacket {
    DeviceConnect(DeviceConnect),
    InterfaceInfo(InterfaceInfo),
    EndpointInfo(EndpointInfo),
    ConfigurationStatus {
        status: Status,
        value: u8,
    },
    AltSettingStatus {
        status: Status,
        interface: u8,
        setting: u8,
    },
    BulkStreamsStatus {
        endpoints: u32,
        streams: u32,
        status: Status,
    },
    Control(ControlAnswer),
    Bulk(BulkAnswer),
}
