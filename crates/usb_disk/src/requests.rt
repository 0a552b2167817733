//! Which request a Setup packet is, by the type in its first byte.
ghost use Rattle.std.specs.Prelude.{◌≡◌, Bool};
ghost use Rattle.usb_disk.specs.Requests.{asked_of_class, asked_of_device, asked_of_endpoint, asked_of_interface, device_feature, pipe_at, request_in};
ghost use Rattle.usb_disk.specs.Requests.{told_class, told_device, told_endpoint, told_interface, when};

use crate::Setup;
use uas_profile::Pipe;

/// A request that the disk knows.
#[derive(Clone, Copy, Debug, PartialEq, Eq)]
pub enum Request {
    /// GET_STATUS of the device.
    DeviceStatus,
    /// GET_STATUS of the interface.
    InterfaceStatus,
    /// GET_STATUS of endpoint 0.
    DefaultPipeStatus,
    /// GET_STATUS of a pipe's endpoint.
    PipeStatus(Pipe),
    /// SET_FEATURE or CLEAR_FEATURE of U1_ENABLE.
    SetU1(bool),
    /// SET_FEATURE or CLEAR_FEATURE of U2_ENABLE.
    SetU2(bool),
    /// SET_FEATURE or CLEAR_FEATURE of FUNCTION_SUSPEND.
    SuspendFunction,
    /// SET_FEATURE or CLEAR_FEATURE of ENDPOINT_HALT.
    SetHalt(Pipe, bool),
    /// GET_DESCRIPTOR of a type and an index.
    GetDescriptor(u8, u8),
    /// GET_CONFIGURATION.
    GetConfiguration,
    /// SET_CONFIGURATION 1, or 0.
    SetConfiguration(bool),
    /// GET_INTERFACE.
    GetInterface,
    /// SET_INTERFACE 1, or 0.
    SetInterface(bool),
    /// SET_SEL.
    SetExitLatency,
    /// SET_ISOCH_DELAY.
    SetIsochDelay,
    /// Get Max LUN.
    GetMostLun,
    /// Bulk-Only Mass Storage Reset.
    ResetBulk,
}

/// Recipients and directions of standard requests (table 9-3).
const DEVICE_TO_HOST: u8 = 0x80;

const HOST_TO_DEVICE: u8 = 0x00;

const INTERFACE_TO_HOST: u8 = 0x81;

const HOST_TO_INTERFACE: u8 = 0x01;

const ENDPOINT_TO_HOST: u8 = 0x82;

const HOST_TO_ENDPOINT: u8 = 0x02;

/// The same of the class's requests of an interface.
const CLASS_TO_HOST: u8 = 0xa1;

const HOST_TO_CLASS: u8 = 0x21;

/// Numbers of standard requests (table 9-5).
const GET_STATUS: u8 = 0;

const CLEAR_FEATURE: u8 = 1;

const SET_FEATURE: u8 = 3;

const GET_DESCRIPTOR: u8 = 6;

const GET_CONFIGURATION: u8 = 8;

const SET_CONFIGURATION: u8 = 9;

const GET_INTERFACE: u8 = 10;

const SET_INTERFACE: u8 = 11;

const SET_SEL: u8 = 48;

const SET_ISOCH_DELAY: u8 = 49;

/// Numbers of Bulk-Only's requests (BOT 3).
const GET_MAX_LUN: u8 = 0xfe;

const BULK_ONLY_RESET: u8 = 0xff;

/// Features of a device (table 9-7).
const U1_ENABLE: u16 = 48;

const U2_ENABLE: u16 = 49;

/// Bytes of the data of SET_SEL.
const SEL_BYTES: u16 = 6;

/// The request of a Setup packet; `None` for one that the disk doesn't know.
pub(crate) fn request_in(setup: &Setup) -> Option<Request>
    ensures { result ≡ request_in setup.now }
{
    match setup.request_type {
        DEVICE_TO_HOST => asked_of_device(setup),
        HOST_TO_DEVICE => told_device(setup),
        INTERFACE_TO_HOST => asked_of_interface(setup),
        HOST_TO_INTERFACE => told_interface(setup),
        ENDPOINT_TO_HOST => asked_of_endpoint(setup),
        HOST_TO_ENDPOINT => told_endpoint(setup),
        CLASS_TO_HOST => asked_of_class(setup),
        HOST_TO_CLASS => told_class(setup),
        _ => None,
    }
}

fn when(holds: bool, request: Request) -> Option<Request>
    ensures { result ≡ when holds request }
{
    if holds { Some(request) } else { None }
}

fn asked_of_device(setup: &Setup) -> Option<Request>
    ensures { result ≡ asked_of_device setup.now }
{
    let is_plain = setup.value == 0 && setup.index == 0;
    match setup.request {
        GET_STATUS => when(is_plain, Request::DeviceStatus),
        GET_DESCRIPTOR => {
            let [index, kind] = setup.value.to_le_bytes();
            Some(Request::GetDescriptor(kind, index))
        }
        GET_CONFIGURATION => when(is_plain, Request::GetConfiguration),
        _ => None,
    }
}

fn device_feature(on: bool, setup: &Setup) -> Option<Request>
    ensures { result ≡ device_feature on setup.now }
{
    match setup.value {
        U1_ENABLE => Some(Request::SetU1(on)),
        U2_ENABLE => Some(Request::SetU2(on)),
        _ => None,
    }
}

fn told_device(setup: &Setup) -> Option<Request>
    ensures { result ≡ told_device setup.now }
{
    let is_bare = setup.length == 0;
    match setup.request {
        CLEAR_FEATURE => if is_bare {
            device_feature(false, setup)
        } else {
            None
        },
        SET_FEATURE => if is_bare {
            device_feature(true, setup)
        } else {
            None
        },
        SET_CONFIGURATION => when(
            setup.value < 2 && is_bare,
            Request::SetConfiguration(setup.value == 1),
        ),
        SET_SEL => when(setup.length == SEL_BYTES, Request::SetExitLatency),
        SET_ISOCH_DELAY => when(is_bare, Request::SetIsochDelay),
        _ => None,
    }
}

fn asked_of_interface(setup: &Setup) -> Option<Request>
    ensures { result ≡ asked_of_interface setup.now }
{
    let is_plain = setup.value == 0 && setup.index == 0;
    match setup.request {
        GET_STATUS => when(is_plain, Request::InterfaceStatus),
        GET_INTERFACE => when(is_plain, Request::GetInterface),
        _ => None,
    }
}

fn told_interface(setup: &Setup) -> Option<Request>
    ensures { result ≡ told_interface setup.now }
{
    // FUNCTION_SUSPEND is feature 0; its options stand in the high byte of the index
    let is_suspend = setup.value == 0 && setup.index % 256 == 0 && setup.length == 0;
    match setup.request {
        CLEAR_FEATURE | SET_FEATURE => when(is_suspend, Request::SuspendFunction),
        SET_INTERFACE => when(
            setup.value < 2 && setup.index == 0 && setup.length == 0,
            Request::SetInterface(setup.value == 1),
        ),
        _ => None,
    }
}

/// Bulk-Only's requests of the interface, to the host and to it.
fn asked_of_class(setup: &Setup) -> Option<Request>
    ensures { result ≡ asked_of_class setup.now }
{
    when(
        setup.request == GET_MAX_LUN && setup.value == 0 && setup.index == 0,
        Request::GetMostLun,
    )
}

fn told_class(setup: &Setup) -> Option<Request>
    ensures { result ≡ told_class setup.now }
{
    when(
        setup.request == BULK_ONLY_RESET
            && setup.value == 0
            && setup.index == 0
            && setup.length == 0,
        Request::ResetBulk,
    )
}

/// The pipe whose endpoint has this address.
fn pipe_at(address: u16) -> Option<Pipe>
    ensures { result ≡ pipe_at address }
{
    match address {
        0x01 => Some(Pipe::Command),
        0x02 => Some(Pipe::DataOut),
        0x81 => Some(Pipe::Status),
        0x82 => Some(Pipe::DataIn),
        _ => None,
    }
}

fn asked_of_endpoint(setup: &Setup) -> Option<Request>
    ensures { result ≡ asked_of_endpoint setup.now }
{
    if setup.request != GET_STATUS || setup.value != 0 {
        return None;
    }
    if setup.index % 128 == 0 {
        return Some(Request::DefaultPipeStatus);
    }
    match pipe_at(setup.index) {
        Some(pipe) => Some(Request::PipeStatus(pipe)),
        None => None,
    }
}

fn told_endpoint(setup: &Setup) -> Option<Request>
    ensures { result ≡ told_endpoint setup.now }
{
    // ENDPOINT_HALT is feature 0
    if setup.value != 0 || setup.length != 0 {
        return None;
    }
    match (setup.request, pipe_at(setup.index)) {
        (CLEAR_FEATURE, Some(pipe)) => Some(Request::SetHalt(pipe, false)),
        (SET_FEATURE, Some(pipe)) => Some(Request::SetHalt(pipe, true)),
        _ => None,
    }
}
