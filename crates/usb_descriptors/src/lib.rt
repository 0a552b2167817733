//! What a host reads of the descriptors of a USB Attached SCSI disk (USB 3.2, 9.6; INCITS 471, pipe usage), and how many tags its streams
//! allow.
//!
//! A configuration is bytes that are descriptors one behind the other. Each has its length in byte 0 and its type in byte 1:
//!
//! ```text
//!     configuration  interface (08h/06h/62h)  endpoint companion usage  endpoint companion usage  ..  interface ..
//!                    |------- the setting: up to the next interface ----------------------------------|
//! ```
//!
//! The rules, of which [`find_uas`] makes its answer:
//!
//! 1. The bytes are cut into descriptors. One shorter than its type asks for, or that ends behind the bytes, makes them no configuration.
//! 2. The first interface setting of class 08h, subclass 06h and protocol 62h counts, and its endpoints up to the next interface.
//! 3. What stands behind an endpoint, up to the next one, is its own: its companion (30h) and its pipe usage (24h), in any order. The first of
//!    each counts; other types are skipped. An endpoint without a usage is no pipe.
//! 4. The pipes are 1 command (out), 2 status (in), 3 data-in (in), 4 data-out (out): each is there once, at an endpoint of its own.
//!
//! The bytes come from a device that isn't trusted: each byte string has an answer, and each refusal a name. Reserved bits aren't looked at.
//!
//! What is promised: each call's answer is the definition of its name (`specs/`). Bytes that are cut are the descriptors joined, and joined
//! descriptors are cut into those again ([`cut_bytes_join`], [`joined_descriptors_are_cut`]); each function that fits is found in the bytes that
//! tell it ([`functions_are_found`]); the four pipes have endpoint contexts of their own ([`contexts_are_apart`]). No call takes memory. It
//! stands on the pipes of `uas_profile`, and on `thiserror`.
#![tactic(auto)]

mod cutting;
mod device;
mod function;
mod gathering;
mod laws;
mod stream_tags;
mod totals;

pub use device::{DeviceDescriptor, read_device};
pub use function::find_uas;
pub use laws::{
    contexts_are_apart, cut_bytes_join, functions_are_found, joined_descriptors_are_cut,
    rows_are_read,
};
pub use stream_tags::{Streams, streams_of};
use thiserror::Error;
pub use totals::{read_bos_total, read_configuration_total};

/// The most bytes of a configuration, or of a BOS, that are read.
pub const MOST_CONFIGURATION_BYTES: u16 = 4096;

const _: () = prove!(MOST_CONFIGURATION_BYTES == 4096);

/// The most tags that can be asked for: tag 255 isn't used.
pub const MOST_ASKED: u8 = 254;

const _: () = prove!(MOST_ASKED == 254);

/// An endpoint of a pipe.
#[derive(Clone, Copy, Debug, PartialEq, Eq)]
pub struct Endpoint {
    /// Its number, 1 to 15, and bit 7 where bytes go to the host.
    pub address: u8,
    /// The bytes of a packet: 1,024.
    pub max_packet: u16,
    /// One packet fewer than a burst has at most: 0 to 15.
    pub burst: u8,
    /// It has at most 2 to this power streams: 0 to 16; none for 0.
    pub max_streams: u8,
}

impl Endpoint {
    ghost use Rattle.std.specs.Prelude.{◌≡◌, ◌<◌};
    ghost use Rattle.usb_descriptors.specs.Endpoints.{context_index};

    /// The index of its endpoint context in a device context, which is its doorbell target too (xHCI 4.5.1).
    pub fn context_index(&self) -> u8
        ensures value { result ≡ context_index self.now }
        ensures few { result < 32 }
    {
        2 * (self.address % 16) + self.address / 128
    }
}

/// The endpoints of the four pipes.
#[derive(Clone, Copy, Debug, PartialEq, Eq)]
pub struct Pipes {
    pub command: Endpoint,
    pub status: Endpoint,
    pub data_in: Endpoint,
    pub data_out: Endpoint,
}

/// An interface setting of USB Attached SCSI.
#[derive(Clone, Copy, Debug, PartialEq, Eq)]
pub struct UasFunction {
    /// What SET_CONFIGURATION names the configuration by.
    pub configuration: u8,
    /// The most power that the device draws in this configuration, in units of 8 mA.
    pub max_power: u8,
    /// The number of the interface, and of its setting.
    pub interface: u8,
    pub alternate: u8,
    pub pipes: Pipes,
}

/// Why descriptors are refused.
#[derive(Clone, Copy, Debug, PartialEq, Eq, Error)]
pub enum DescriptorFault {
    /// The device descriptor isn't that of a SuperSpeed device.
    #[error("not the device descriptor of a SuperSpeed device")]
    BadDevice = 1,
    /// The device is a hub.
    #[error("the device is a hub")]
    Hub,
    /// A configuration, or a BOS, has more than 4,096 bytes.
    #[error("the descriptors have more than 4096 bytes")]
    LongConfiguration,
    /// A descriptor is shorter than its type asks for, or ends behind the bytes.
    #[error("a descriptor has a wrong length or type")]
    BadDescriptor,
    /// No interface setting is USB Attached SCSI.
    #[error("no interface of USB Attached SCSI")]
    NoUas,
    /// The four pipes aren't there, each once, at bulk endpoints of 1,024 bytes with their directions.
    #[error("not the four pipes of USB Attached SCSI")]
    BadPipes,
    /// An endpoint of a pipe has no SuperSpeed companion.
    #[error("an endpoint of a pipe has no companion")]
    NoCompanion,
    /// Fewer than two tags have streams at device and controller.
    #[error("fewer than two tags have streams")]
    NoStreams,
}
