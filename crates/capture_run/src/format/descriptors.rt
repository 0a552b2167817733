//! What each capture begins with: the heads of the file, and the control transfers that tell what the device is.

ghost use Rattle.std.specs.Prelude.{◌≡◌, ◌+◌, ◌++◌, ◌≤◌, length, OnOk};
ghost use Rattle.capture_run.specs.format.Descriptors.{answer, control_packets, pipe_descriptors, configuration, endpoint_descriptor, companion_descriptor, usage_descriptor, comment_of, number_of_request};
ghost use Rattle.capture_run.specs.format.Descriptors.{start, streams_of};
ghost use Rattle.capture_run.specs.format.Usbmon.{request_endpoint, setup_packet};

use crate::format::blocks::{push_interface, push_section};
use crate::format::records::push_record;
use crate::format::{Event, Record, Transfer};
use std::alloc::{AllocError, Global};
use uas_profile::Pipe;

/// A request on the control pipe.
#[derive(Clone, Copy, Debug, PartialEq, Eq)]
pub enum Request {
    /// GET DESCRIPTOR of the device.
    GetDevice,
    /// GET DESCRIPTOR of the configuration.
    GetConfiguration,
    /// SET CONFIGURATION 1.
    SetConfiguration,
}

/// The device descriptor: USB 3.0, one configuration.
const DEVICE: [u8; 18] = [18, 1, 0, 3, 0, 0, 0, 9, 0xf4, 0x46, 3, 0, 0, 0, 0, 0, 0, 1];

/// The configuration descriptor and, behind it, the interface's: class 8, subclass 6, protocol 62h, four endpoints.
const HEADS: [u8; 18] = [9, 2, 86, 0, 1, 1, 0, 0xc0, 0, 9, 4, 0, 0, 4, 8, 6, 0x62, 0];

impl Request {
    /// The address of the control endpoint; bit 7 is set where bytes come in.
    pub(crate) fn endpoint(self) -> u8
        ensures { result ≡ request_endpoint self }
    {
        match self {
            Request::GetDevice | Request::GetConfiguration => 0x80,
            Request::SetConfiguration => 0,
        }
    }

    /// The setup packet: type, request, value, index, length.
    #[tactic(auto, unfolding(crate::specs::format::Usbmon::setup_packet))]
    pub(crate) fn setup(self) -> [u8; 8]
        ensures { result ≡ setup_packet self }
    {
        match self {
            Request::GetDevice => [0x80, 6, 0, 1, 0, 0, 18, 0],
            Request::GetConfiguration => [0x80, 6, 0, 2, 0, 0, 86, 0],
            Request::SetConfiguration => [0, 9, 1, 0, 0, 0, 0, 0],
        }
    }

    /// The number of the transfer.
    fn number(self) -> u64
        ensures { result ≡ number_of_request self }
    {
        match self {
            Request::GetDevice => 1,
            Request::GetConfiguration => 2,
            Request::SetConfiguration => 3,
        }
    }

    /// What its packets say of it.
    fn comment(self) -> &'static str
        ensures text { result.now ≡ comment_of self }
        ensures short { length result.now ≤ 40 }
    {
        match self {
            Request::GetDevice => "added: GET DESCRIPTOR device",
            Request::GetConfiguration => "added: GET DESCRIPTOR configuration",
            Request::SetConfiguration => "added: SET CONFIGURATION 1",
        }
    }

    /// Adds the bytes that come in.
    fn push_answer(self, bytes: &mut Vec<u8>) -> Result<(), AllocError>
        ensures bytes { OnOk result (bytes.new.items ≡ bytes.old.items ++ answer self) }
        ensures longer { OnOk result (length bytes.new.items ≤ length bytes.old.items + 86) }
    {
        match self {
            Request::GetDevice => bytes.extend_from_slice(&DEVICE),
            Request::GetConfiguration => push_configuration(bytes),
            Request::SetConfiguration => Ok(()),
        }
    }

    /// Adds its two packets.
    #[tactic(auto, unfolding(crate::specs::format::Descriptors::control_packets))]
    fn push(self, alloc: Global, bytes: &mut Vec<u8>) -> Result<(), AllocError>
        ensures { OnOk result (bytes.new.items ≡ bytes.old.items ++ control_packets self) }
    {
        let mut answer = Vec::new(alloc);
        self.push_answer(&mut answer)?;
        let submitted = Record {
            event: Event::Submitted,
            transfer: Transfer::Control(self),
            number: self.number(),
            length: answer.len() as u32,
            time: 0,
        };
        let completed = Record {
            event: Event::Completed,
            ..submitted
        };
        let comment = self.comment().as_bytes();
        push_record(alloc, bytes, &submitted, b"", comment)?;
        push_record(alloc, bytes, &completed, &answer, comment)
    }
}

/// How many streams a pipe has, as a power of two in its companion descriptor; 0 for none.
#[tactic(auto, unfolding(crate::specs::format::Descriptors::streams_of))]
fn streams_of(pipe: Pipe) -> u8
    ensures { result ≡ streams_of pipe }
{
    match pipe {
        Pipe::Command => 0,
        Pipe::Status | Pipe::DataIn | Pipe::DataOut => 8,
    }
}

/// Adds the descriptors of a pipe: its endpoint's, the companion, and which pipe it is.
#[tactic(auto, unfolding(crate::specs::format::Descriptors::pipe_descriptors))]
fn push_pipe(bytes: &mut Vec<u8>, pipe: Pipe) -> Result<(), AllocError>
    ensures bytes { OnOk result (bytes.new.items ≡ bytes.old.items ++ pipe_descriptors pipe) }
    ensures longer { OnOk result (length bytes.new.items ≡ length bytes.old.items + 17) }
{
    let endpoint = endpoint_descriptor(pipe);
    let companion = companion_descriptor(pipe);
    let usage = usage_descriptor(pipe);
    bytes.extend_from_slice(&endpoint)?;
    bytes.extend_from_slice(&companion)?;
    bytes.extend_from_slice(&usage)
}

/// The descriptor of a pipe's bulk endpoint: 1,024 bytes a packet.
#[tactic(auto, unfolding(crate::specs::format::Descriptors::endpoint_descriptor, crate::specs::format::Usbmon::endpoint_of))]
fn endpoint_descriptor(pipe: Pipe) -> [u8; 7]
    ensures { result ≡ endpoint_descriptor pipe }
{
    [7, 5, Transfer::Bulk(pipe).endpoint(), 2, 0, 4, 0]
}

/// Its SuperSpeed companion: bursts of 16, and its streams.
#[tactic(auto, unfolding(crate::specs::format::Descriptors::companion_descriptor))]
fn companion_descriptor(pipe: Pipe) -> [u8; 6]
    ensures { result ≡ companion_descriptor pipe }
{
    [6, 0x30, 15, streams_of(pipe), 0, 0]
}

/// The descriptor of its use.
#[tactic(auto, unfolding(crate::specs::format::Descriptors::usage_descriptor))]
fn usage_descriptor(pipe: Pipe) -> [u8; 4]
    ensures { result ≡ usage_descriptor pipe }
{
    [4, 0x24, pipe.number() as u8, 0]
}

/// Adds the configuration descriptor and all that belongs to it.
#[tactic(auto, unfolding(crate::specs::format::Descriptors::configuration))]
fn push_configuration(bytes: &mut Vec<u8>) -> Result<(), AllocError>
    ensures bytes { OnOk result (bytes.new.items ≡ bytes.old.items ++ configuration) }
    ensures longer { OnOk result (length bytes.new.items ≡ length bytes.old.items + 86) }
{
    bytes.extend_from_slice(&HEADS)?;
    push_pipe(bytes, Pipe::Command)?;
    push_pipe(bytes, Pipe::Status)?;
    push_pipe(bytes, Pipe::DataIn)?;
    push_pipe(bytes, Pipe::DataOut)
}

/// Adds what each capture begins with.
#[tactic(auto, unfolding(crate::specs::format::Descriptors::start))]
pub fn push_start(alloc: Global, bytes: &mut Vec<u8>) -> Result<(), AllocError>
    ensures { OnOk result (bytes.new.items ≡ bytes.old.items ++ start) }
{
    push_section(alloc, bytes)?;
    push_interface(alloc, bytes)?;
    Request::GetDevice.push(alloc, bytes)?;
    Request::GetConfiguration.push(alloc, bytes)?;
    Request::SetConfiguration.push(alloc, bytes)
}
