//! Records in the form of Linux's usbmon: a header of 64 bytes (Documentation/usb/usbmon), and the bytes that went with it.

ghost use Rattle.std.specs.Prelude.{◌≡◌, ◌+◌, ◌++◌, ◌≤◌, length, OnOk};
ghost use Rattle.capture_run.specs.format.Usbmon.{endpoint_of, event_status, event_letter, head, moment, record_bytes, record_packet, setup_bytes, setup_of, state, transfer_kind};
ghost use Rattle.capture_run.specs.format.Usbmon.{comes_in, data_flag, setup_flag, tail, transfer_flags};
ghost use Rattle.capture_run.specs.declared.format.TheConstants.{MOST_COMMENT, MOST_DATA};

use crate::format::blocks::push_packet;
use crate::format::fields::{push_long, push_short, push_word};
use crate::format::{Event, Record, Transfer};
use std::alloc::{AllocError, Global};
use uas_profile::Pipe;

/// The device's number on its bus.
const DEVICE: u8 = 5;

/// The number of its bus.
const BUS: u16 = 1;

/// The status of a transfer under way: -115, EINPROGRESS.
const IN_PROGRESS: u32 = u32::MAX - 114;

/// The status of a transfer that was taken off: -104, ECONNRESET.
const UNLINKED: u32 = u32::MAX - 103;

const DONE: u32 = 0;

/// The flag of a transfer by which bytes come in: URB_DIR_IN.
const DIR_IN: u32 = 0x200;

impl Event {
    /// S for a submission, C for an end.
    #[tactic(auto, unfolding(crate::specs::format::Usbmon::event_letter))]
    fn letter(self) -> u8
        ensures { result ≡ event_letter self }
    {
        match self {
            Event::Submitted => b'S',
            Event::Completed | Event::Unlinked => b'C',
        }
    }

    /// The status word, a negative error number of Linux or 0.
    #[tactic(auto, unfolding(crate::specs::format::Usbmon::event_status))]
    fn status(self) -> u32
        ensures { result ≡ event_status self }
    {
        match self {
            Event::Submitted => IN_PROGRESS,
            Event::Completed => DONE,
            Event::Unlinked => UNLINKED,
        }
    }
}

impl Transfer {
    /// The number of its kind.
    #[tactic(auto, unfolding(crate::specs::format::Usbmon::transfer_kind))]
    fn kind(self) -> u8
        ensures { result ≡ transfer_kind self }
    {
        match self {
            Transfer::Control(_) => 2,
            Transfer::Bulk(_) => 3,
        }
    }

    /// The address of its endpoint; bit 7 is set where bytes come in.
    #[tactic(auto, unfolding(crate::specs::format::Usbmon::endpoint_of))]
    pub(crate) fn endpoint(self) -> u8
        ensures { result ≡ endpoint_of self }
    {
        match self {
            Transfer::Control(request) => request.endpoint(),
            Transfer::Bulk(Pipe::Command) => 0x01,
            Transfer::Bulk(Pipe::Status) => 0x81,
            Transfer::Bulk(Pipe::DataIn) => 0x82,
            Transfer::Bulk(Pipe::DataOut) => 0x02,
        }
    }

    /// Whether bytes come in.
    #[tactic(auto, unfolding(crate::specs::format::Usbmon::comes_in))]
    fn comes_in(self) -> bool
        ensures { result ≡ comes_in self }
    {
        self.endpoint() >= 0x80
    }

    /// Its flags: which way bytes go.
    #[tactic(auto, unfolding(crate::specs::format::Usbmon::transfer_flags))]
    fn flags(self) -> u32
        ensures { result ≡ transfer_flags self }
    {
        if self.comes_in() { DIR_IN } else { 0 }
    }
}

impl Record {
    /// The setup packet, where it has one.
    #[tactic(auto, unfolding(crate::specs::format::Usbmon::setup_of))]
    fn setup(&self) -> Option<[u8; 8]>
        ensures { result ≡ setup_of self.now }
    {
        match (self.event, self.transfer) {
            (Event::Submitted, Transfer::Control(request)) => Some(request.setup()),
            _ => None,
        }
    }

    /// 0 where a setup packet goes with it, else a dash.
    #[tactic(auto, unfolding(crate::specs::format::Usbmon::setup_flag))]
    fn setup_flag(&self) -> u8
        ensures { result ≡ setup_flag self.now }
    {
        match self.setup() {
            Some(_) => 0,
            None => b'-',
        }
    }

    /// Which way its bytes go, where they go with its other record; 0 where they go with it.
    #[tactic(auto, unfolding(crate::specs::format::Usbmon::data_flag))]
    fn data_flag(&self, payload: &[u8]) -> u8
        ensures { result ≡ data_flag self.now payload.now }
    {
        if !payload.is_empty() {
            return 0;
        }
        match (self.event, self.transfer.comes_in()) {
            (Event::Submitted, true) => b'<',
            (Event::Completed | Event::Unlinked, false) => b'>',
            (Event::Submitted, false) | (Event::Completed | Event::Unlinked, true) => 0,
        }
    }

    /// Adds what tells which transfer it is.
    #[tactic(auto, unfolding(crate::specs::format::Usbmon::head))]
    fn push_head(&self, bytes: &mut Vec<u8>, payload: &[u8]) -> Result<(), AllocError>
        ensures bytes { OnOk result (bytes.new.items ≡ bytes.old.items ++ head self.now payload.now) }
        ensures longer { OnOk result (length bytes.new.items ≤ length bytes.old.items + 16) }
    {
        let names = [
            self.event.letter(),
            self.transfer.kind(),
            self.transfer.endpoint(),
            DEVICE,
        ];
        let flags = [self.setup_flag(), self.data_flag(payload)];
        push_long(bytes, self.number)?;
        bytes.extend_from_slice(&names)?;
        push_short(bytes, BUS)?;
        bytes.extend_from_slice(&flags)
    }

    /// Adds its time.
    #[tactic(auto, unfolding(crate::specs::format::Usbmon::moment))]
    fn push_moment(&self, bytes: &mut Vec<u8>) -> Result<(), AllocError>
        ensures bytes { OnOk result (bytes.new.items ≡ bytes.old.items ++ moment self.now.time) }
        ensures longer { OnOk result (length bytes.new.items ≤ length bytes.old.items + 12) }
    {
        let seconds = self.time / 1_000_000;
        let rest = self.time % 1_000_000;
        push_long(bytes, seconds)?;
        push_word(bytes, rest as u32)
    }

    /// Adds how it stands.
    #[tactic(auto, unfolding(crate::specs::format::Usbmon::state))]
    fn push_state(&self, bytes: &mut Vec<u8>) -> Result<(), AllocError>
        ensures bytes { OnOk result (bytes.new.items ≡ bytes.old.items ++ state self.now) }
        ensures longer { OnOk result (length bytes.new.items ≤ length bytes.old.items + 20) }
    {
        self.push_moment(bytes)?;
        push_word(bytes, self.event.status())?;
        push_word(bytes, self.length)
    }

    /// Adds the setup packet, zeros where there is none.
    #[tactic(auto, unfolding(crate::specs::format::Usbmon::setup_bytes))]
    fn push_setup(&self, bytes: &mut Vec<u8>) -> Result<(), AllocError>
        ensures bytes { OnOk result (bytes.new.items ≡ bytes.old.items ++ setup_bytes (setup_of self.now)) }
        ensures longer { OnOk result (length bytes.new.items ≤ length bytes.old.items + 8) }
    {
        match self.setup() {
            Some(setup) => bytes.extend_from_slice(&setup),
            None => bytes.extend_from_slice(&[0; 8]),
        }
    }

    /// Adds the words behind the setup packet: its flags, zeros where other kinds of transfer have something.
    #[tactic(auto, unfolding(crate::specs::format::Usbmon::tail))]
    fn push_tail(&self, bytes: &mut Vec<u8>) -> Result<(), AllocError>
        ensures bytes { OnOk result (bytes.new.items ≡ bytes.old.items ++ tail self.now.transfer) }
        ensures longer { OnOk result (length bytes.new.items ≤ length bytes.old.items + 16) }
    {
        bytes.extend_from_slice(&[0; 8])?;
        push_word(bytes, self.transfer.flags())?;
        bytes.extend_from_slice(&[0; 4])
    }

    /// Adds the header and the bytes that go with it.
    #[tactic(auto, unfolding(crate::specs::format::Usbmon::record_bytes))]
    fn push(&self, bytes: &mut Vec<u8>, payload: &[u8]) -> Result<(), AllocError>
        requires { length payload.now ≤ MOST_DATA }
        ensures bytes { OnOk result (bytes.new.items ≡ bytes.old.items ++ record_bytes self.now payload.now) }
        ensures longer { OnOk result (length bytes.new.items ≤ length bytes.old.items + length payload.now + 64) }
    {
        self.push_head(bytes, payload)?;
        self.push_state(bytes)?;
        push_word(bytes, payload.len() as u32)?;
        self.push_setup(bytes)?;
        self.push_tail(bytes)?;
        bytes.extend_from_slice(payload)
    }
}

/// Adds the packet of a record, with the bytes that go with it and a comment.
#[tactic(auto, unfolding(crate::specs::format::Usbmon::record_packet))]
pub fn push_record(
    alloc: Global,
    bytes: &mut Vec<u8>,
    urb: &Record,
    payload: &[u8],
    comment: &[u8],
) -> Result<(), AllocError>
    requires payload { length payload.now ≤ MOST_DATA }
    requires comment { length comment.now ≤ MOST_COMMENT }
    ensures { OnOk result (bytes.new.items ≡ bytes.old.items ++ record_packet urb.now payload.now comment.now) }
{
    let mut packet = Vec::new(alloc);
    urb.push(&mut packet, payload)?;
    push_packet(alloc, bytes, urb.time, &packet, comment)
}
