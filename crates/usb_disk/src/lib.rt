//! Endpoint 0 of a USB disk: its descriptors, and the standard requests of USB 3.2 chapter 9.
//!
//! The disk has one configuration with one interface. Either that is UAS alone (INCITS 471), with four bulk endpoints for its pipes: commands,
//! status, data-in and data-out, the last three with 2^7 streams. Or alternate setting 0 is Bulk-Only Transport (USB MSC BOT 1.0), on the
//! endpoints of data-in and data-out without streams, and alternate setting 1 is UAS. The rules of 9.4:
//!
//! 1. A request is its type (direction and recipient), its number and its fields; one that isn't of this disk is refused by a stall and
//!    changes nothing.
//! 2. Data is cut to the length that the host asks for.
//! 3. What concerns interface and endpoints is answered by a configured device alone.
//! 4. SET_CONFIGURATION and SET_INTERFACE clear each endpoint's halt and end every task of the disk ([`Answer::Restarted`]); the former goes
//!    back to setting 0.
//! 5. In Bulk-Only's setting alone there are Get Max LUN and the Bulk-Only Mass Storage Reset ([`Answer::BulkReset`]), which leaves halts.
//!
//! SET_ADDRESS isn't among them: a controller addresses the device itself (xHCI 4.6.5). FUNCTION_SUSPEND, SET_SEL and SET_ISOCH_DELAY are
//! accepted and have no effect here (own). The bytes of a data stage to the device, those of SET_SEL, aren't read.
//!
//! What is promised: [`UsbDisk::control`] is `controlled` of specs/Answers.antt, for any Setup packet. It takes no memory, and stands on
//! the pipes of `uas_profile`, the serial numbers of `host_commands`, their digits of `disk_units`, and `arrayvec`.
#![tactic(auto)]

mod alternates;
mod answers;
mod descriptors;
mod laws;
mod requests;
mod strings;

use arrayvec::ArrayVec;
pub use laws::rows_are_answered;
pub use requests::Request;
use uas_profile::Pipe;

/// The most bytes of an answer: those of the configuration descriptor and what comes with it.
pub const MOST_ANSWER_BYTES: usize = 121;

const _: () = prove!(MOST_ANSWER_BYTES == 121);

/// A Setup packet (USB 3.2, 9.3).
#[derive(Clone, Copy, Debug, PartialEq, Eq)]
pub struct Setup {
    /// Direction, type and recipient.
    pub request_type: u8,
    pub request: u8,
    pub value: u16,
    pub index: u16,
    /// How many bytes the data stage has at most; none without one.
    pub length: u16,
}

/// What a Setup packet is answered with.
#[derive(Clone, Debug, PartialEq, Eq, Drop)]
pub enum Answer {
    /// These bytes, in a data stage to the host.
    Data(ArrayVec<u8, MOST_ANSWER_BYTES>),
    /// It is done; the bytes of a data stage to the device, if there is one, mean nothing.
    Done,
    /// It is done, and every task of the disk has ended by it.
    Restarted,
    /// It is done: Bulk-Only's command is gone, and the next one is awaited (BOT 3.1).
    BulkReset,
    /// It is refused.
    Stall,
}

/// Which endpoints are halted, by the host's SET_FEATURE or by the device.
#[derive(Clone, Copy, Debug, PartialEq, Eq)]
pub struct Halts {
    pub command: bool,
    pub status: bool,
    pub data_in: bool,
    pub data_out: bool,
}

/// What carries commands.
#[derive(Clone, Copy, Debug, PartialEq, Eq)]
pub enum Alternate {
    /// Bulk-Only Transport.
    BulkOnly,
    /// USB Attached SCSI.
    Uas,
}

/// The alternate settings of its interface.
#[derive(Clone, Copy, Debug, PartialEq, Eq)]
pub enum Settings {
    /// UAS alone.
    UasAlone,
    /// Bulk-Only, of the logical units up to this number, and UAS; and the current one.
    Both { most_lun: u8, alternate: Alternate },
}

/// The strings of the disk, of characters of one byte; spaces at the end aren't told.
#[derive(Clone, Copy, Debug, PartialEq, Eq)]
pub struct UsbStrings {
    pub manufacturer: [u8; 8],
    pub product: [u8; 16],
    pub serial: [u8; 8],
}

/// What endpoint 0 keeps: whether the device is configured, whether it may go to the link states U1 and U2, its halted endpoints, its
/// settings, and its strings, which nothing changes.
#[derive(Clone, Copy, Debug, PartialEq, Eq)]
pub struct UsbDisk {
    pub configured: bool,
    pub u1: bool,
    pub u2: bool,
    pub halts: Halts,
    pub settings: Settings,
    pub strings: UsbStrings,
}

impl Setup {
    ghost use Rattle.std.specs.Prelude.{◌≡◌};
    ghost use Rattle.usb_disk.specs.Requests.{setup_in};

    /// The packet of eight bytes, whose fields are little endian.
    pub fn from_bytes(bytes: &[u8; 8]) -> Setup
        ensures { result ≡ setup_in bytes.now }
    {
        Setup {
            request_type: bytes[0],
            request: bytes[1],
            value: u16::from_le_bytes([bytes[2], bytes[3]]),
            index: u16::from_le_bytes([bytes[4], bytes[5]]),
            length: u16::from_le_bytes([bytes[6], bytes[7]]),
        }
    }
}

impl Halts {
    ghost use Rattle.std.specs.Prelude.{◌≡◌};
    ghost use Rattle.usb_disk.specs.Answers.{is_halted, no_halts, with_halt};

    /// No endpoint is halted.
    pub fn none() -> Halts
        ensures { result ≡ no_halts }
    {
        Halts {
            command: false,
            status: false,
            data_in: false,
            data_out: false,
        }
    }

    /// Whether a pipe's endpoint is halted.
    pub fn has(&self, pipe: Pipe) -> bool
        ensures { result ≡ is_halted self.now pipe }
    {
        match pipe {
            Pipe::Command => self.command,
            Pipe::Status => self.status,
            Pipe::DataIn => self.data_in,
            Pipe::DataOut => self.data_out,
        }
    }

    /// Halts a pipe's endpoint, or clears its halt.
    pub(crate) fn set(&mut self, pipe: Pipe, on: bool)
        ensures { self.new ≡ with_halt self.old pipe on }
    {
        match pipe {
            Pipe::Command => self.command = on,
            Pipe::Status => self.status = on,
            Pipe::DataIn => self.data_in = on,
            Pipe::DataOut => self.data_out = on,
        }
    }
}
