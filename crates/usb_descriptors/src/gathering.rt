//! The pipes of a setting (INCITS 471, pipe usage).
ghost use Rattle.std.specs.Prelude.{◌≡◌, ◌≤◌, ◌||◌, IfOk, IfSome, IsTrue, is_some, length};
ghost use Rattle.std.specs.List.{find};
ghost use Rattle.std.specs.Option.{option_copied};
ghost use Rattle.usb_descriptors.specs.Cutting.{descriptors};
ghost use Rattle.usb_descriptors.specs.Endpoints.{FitsEndpoint, endpoint_in, endpoint_of, is_beyond, suits};
ghost use Rattle.usb_descriptors.specs.Pipes.{FitsFound, FitsPipes, all_four, apart, found_at, gathered, groups, is_endpoint, is_interface, is_of, nothing_found, own_of};
ghost use Rattle.usb_descriptors.specs.Pipes.{pipe_of, pipes_of, put, setting_of, with_found, with_group};

use crate::cutting::{COMPANION, ENDPOINT, INTERFACE, PIPE_USAGE, split_front};
use crate::device::word;
use crate::{DescriptorFault, Endpoint, Pipes};
use uas_profile::Pipe;

/// Bytes of a companion, and of a pipe usage.
const COMPANION_BYTES: usize = 6;

const USAGE_BYTES: usize = 4;

/// bmAttributes of a bulk endpoint, in its lowest two bits.
const BULK: u8 = 2;

/// The bytes of a packet of a bulk endpoint.
const PACKET_BYTES: u16 = 1024;

/// The greatest bMaxBurst and MaxStreams.
const MOST_BURST: u8 = 15;

const MOST_STREAMS_EXPONENT: u8 = 16;

/// The endpoint of each pipe, as far as they are found.
#[derive(Clone, Copy)]
pub(crate) struct Found {
    command: Option<Endpoint>,
    status: Option<Endpoint>,
    data_in: Option<Endpoint>,
    data_out: Option<Endpoint>,
}

/// The four pipes in the descriptors at the front of `bytes`, up to the next interface.
pub(crate) fn pipes_in(bytes: &[u8]) -> Result<Pipes, DescriptorFault>
    ensures value { result ≡ pipes_of (setting_of (descriptors bytes.now)) }
    ensures fits { IfOk result FitsPipes }
{
    let found = gathered(bytes)?;
    found.whole()
}

/// The pipes of all endpoints there, as far as the first that is refused.
#[tactic(auto, using(crate::proofs::Cuts::next_descriptors, crate::proofs::Cuts::no_descriptors, crate::proofs::Settings::groups_skip))]
fn gathered(bytes: &[u8]) -> Result<Found, DescriptorFault>
    ensures value { result ≡ gathered (Ok nothing_found) (groups (setting_of (descriptors bytes.now))) }
    ensures fits { IfOk result FitsFound }
{
    let mut found = Found::nothing();
    let mut rest = bytes;
    while let Some((first, behind)) = split_front(rest) {
        if first[1] == INTERFACE {
            return Ok(found);
        }
        if first[1] == ENDPOINT {
            found = with_endpoint(&found, first, behind)?;
        }
        rest = behind;
    }
    Ok(found)
}

/// One more endpoint, with what stands behind it.
fn with_endpoint(found: &Found, endpoint: &[u8], behind: &[u8]) -> Result<Found, DescriptorFault>
    requires long { 7 ≤ length endpoint.now }
    requires found { FitsFound found.now }
    ensures value { result ≡ with_group found.now (record { endpoint = endpoint.now; own = own_of (setting_of (descriptors behind.now)) }) }
    ensures fits { IfOk result FitsFound }
{
    let Some(usage) = own(behind, PIPE_USAGE, USAGE_BYTES) else {
        return Ok(*found);
    };
    let Some(pipe) = pipe_of(usage[2]) else {
        return Err(DescriptorFault::BadPipes);
    };
    let endpoint = endpoint_of(endpoint, pipe, own(behind, COMPANION, COMPANION_BYTES))?;
    found.put(pipe, endpoint)
}

/// The first descriptor of a type with at least so many bytes, in front of the next endpoint or interface.
#[tactic(auto, using(crate::proofs::Cuts::next_descriptors, crate::proofs::Cuts::no_descriptors))]
fn own(bytes: &[u8], kind: u8, least: usize) -> Option<&[u8]>
    ensures value { option_copied result ≡ find (λ d. is_of kind least d) (own_of (setting_of (descriptors bytes.now))) }
    ensures long { IfSome result (λ d. least ≤ length d.now) }
{
    let mut rest = bytes;
    while let Some((first, behind)) = split_front(rest) {
        if is_end(first) {
            return None;
        }
        if is_of(first, kind, least) {
            return Some(first);
        }
        rest = behind;
    }
    None
}

/// Whether it is an interface or an endpoint.
fn is_end(descriptor: &[u8]) -> bool
    requires { 2 ≤ length descriptor.now }
    ensures { result ≡ (is_interface descriptor.now || is_endpoint descriptor.now) }
{
    descriptor[1] == INTERFACE || descriptor[1] == ENDPOINT
}

fn is_of(descriptor: &[u8], kind: u8, least: usize) -> bool
    requires { 2 ≤ length descriptor.now }
    ensures value { result ≡ is_of kind least descriptor.now }
    ensures long { IsTrue result → least ≤ length descriptor.now }
{
    descriptor[1] == kind && least <= descriptor.len()
}

/// The pipe of a number of a pipe usage.
fn pipe_of(id: u8) -> Option<Pipe>
    ensures { result ≡ pipe_of id }
{
    match id {
        1 => Some(Pipe::Command),
        2 => Some(Pipe::Status),
        3 => Some(Pipe::DataIn),
        4 => Some(Pipe::DataOut),
        _ => None,
    }
}

/// A pipe's endpoint with its companion.
#[tactic(auto, unfolding(crate::specs::Endpoints::endpoint_of))]
fn endpoint_of(
    endpoint: &[u8],
    pipe: Pipe,
    companion: Option<&[u8]>,
) -> Result<Endpoint, DescriptorFault>
    requires long { 7 ≤ length endpoint.now }
    requires companion { IfSome companion (λ d. 6 ≤ length d.now) }
    ensures value { result ≡ endpoint_of endpoint.now pipe (option_copied companion.entry) }
    ensures fits { IfOk result (FitsEndpoint pipe) }
{
    if !suits(endpoint, pipe) {
        return Err(DescriptorFault::BadPipes);
    }
    let Some(companion) = companion else {
        return Err(DescriptorFault::NoCompanion);
    };
    let burst = companion[2];
    let max_streams = companion[3] % 32;
    if burst > MOST_BURST || max_streams > MOST_STREAMS_EXPONENT {
        return Err(DescriptorFault::BadPipes);
    }
    Ok(Endpoint {
        address: endpoint[2] / 128 * 128 + endpoint[2] % 16,
        max_packet: word(endpoint, 4),
        burst,
        max_streams,
    })
}

/// Whether a pipe can have this endpoint: bulk, packets of 1,024 bytes, a number, and the pipe's direction.
fn suits(endpoint: &[u8], pipe: Pipe) -> bool
    requires { 7 ≤ length endpoint.now }
    ensures { result ≡ suits endpoint.now pipe }
{
    let is_in = match pipe {
        Pipe::Status | Pipe::DataIn => 1,
        Pipe::Command | Pipe::DataOut => 0,
    };
    endpoint[3] % 4 == BULK
        && word(endpoint, 4) == PACKET_BYTES
        && endpoint[2] % 16 != 0
        && endpoint[2] / 128 == is_in
}

impl Found {
    fn nothing() -> Found
        ensures value { result ≡ nothing_found }
        ensures fits { FitsFound result }
    {
        Found {
            command: None,
            status: None,
            data_in: None,
            data_out: None,
        }
    }

    /// With one more endpoint; `BadPipes` where its pipe has one.
    fn put(&self, pipe: Pipe, endpoint: Endpoint) -> Result<Found, DescriptorFault>
        requires found { FitsFound self.now }
        requires endpoint { FitsEndpoint pipe endpoint }
        ensures value { result ≡ put self.now pipe (Ok endpoint) }
        ensures fits { IfOk result FitsFound }
    {
        if self.has(pipe) {
            return Err(DescriptorFault::BadPipes);
        }
        Ok(self.with(pipe, endpoint))
    }

    fn has(&self, pipe: Pipe) -> bool
        ensures { result ≡ is_some (found_at self.now pipe) }
    {
        match pipe {
            Pipe::Command => self.command.is_some(),
            Pipe::Status => self.status.is_some(),
            Pipe::DataIn => self.data_in.is_some(),
            Pipe::DataOut => self.data_out.is_some(),
        }
    }

    fn with(&self, pipe: Pipe, endpoint: Endpoint) -> Found
        requires found { FitsFound self.now }
        requires endpoint { FitsEndpoint pipe endpoint }
        ensures value { result ≡ with_found self.now pipe endpoint }
        ensures fits { FitsFound result }
    {
        let mut found = *self;
        match pipe {
            Pipe::Command => found.command = Some(endpoint),
            Pipe::Status => found.status = Some(endpoint),
            Pipe::DataIn => found.data_in = Some(endpoint),
            Pipe::DataOut => found.data_out = Some(endpoint),
        }
        found
    }

    /// All four, at endpoints of their own.
    fn whole(&self) -> Result<Pipes, DescriptorFault>
        requires { FitsFound self.now }
        ensures value { result ≡ all_four self.now.command self.now.status self.now.data_in self.now.data_out }
        ensures fits { IfOk result FitsPipes }
    {
        let (Some(command), Some(status), Some(data_in), Some(data_out)) = (
            self.command,
            self.status,
            self.data_in,
            self.data_out,
        ) else {
            return Err(DescriptorFault::BadPipes);
        };
        if command.address == data_out.address || status.address == data_in.address {
            return Err(DescriptorFault::BadPipes);
        }
        Ok(Pipes {
            command,
            status,
            data_in,
            data_out,
        })
    }
}
