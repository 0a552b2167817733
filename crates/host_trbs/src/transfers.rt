//! TRBs of transfers (6.4.1) and Link TRBs (6.4.4.1).
ghost use Rattle.std.specs.Prelude.{◌≡◌};
ghost use Rattle.host_trbs.specs.Transfers.{data_stage_words, data_words, has_data_in, link_words, setup_parameter, setup_words, status_stage_words};

use crate::words::{Words, aligned, cycle_bit};

/// A request to endpoint 0 (USB 3.2, 9.3). Bit 7 of `request_type` is set where the device sends the data; `length` is in bytes.
#[derive(Clone, Copy, Debug, PartialEq, Eq)]
pub struct SetupPacket {
    pub request_type: u8,
    pub request: u8,
    pub value: u16,
    pub index: u16,
    pub length: u16,
}

/// The Data Stage of a control transfer: `length` bytes at an address, from the device where `is_in`.
#[derive(Clone, Copy, Debug, PartialEq, Eq)]
pub struct DataStage {
    pub at: u64,
    pub length: u16,
    pub is_in: bool,
}

/// A Normal TRB: a part of a TD's data, of 1 to 65,536 bytes.
#[derive(Clone, Copy, Debug, PartialEq, Eq)]
pub struct DataTrb {
    pub at: u64,
    pub length: u32,
    /// TD Size: packets of the TD that are left behind this TRB, at most 31 (4.11.2.4).
    pub packets_left: u8,
    /// The last TRB of its TD interrupts on completion, the others chain.
    pub is_last: bool,
    /// A TRB of data from the device interrupts on a short packet.
    pub is_in: bool,
}

/// A Link to the TRB at an address, which is a multiple of 16: its low four bits aren't written.
#[derive(Clone, Copy, Debug, PartialEq, Eq)]
pub struct LinkTrb {
    pub to: u64,
    /// Toggle Cycle: the Cycle bits behind the Link are the others.
    pub toggles: bool,
}

impl SetupPacket {
    /// Whether there is a Data Stage from the device.
    fn has_data_in(&self) -> bool
        ensures { result ≡ has_data_in self.now }
    {
        self.length != 0 && self.request_type >= 128
    }

    /// The eight bytes of a Setup Stage TRB's immediate data, as a number.
    fn parameter(&self) -> u64
        ensures { result ≡ setup_parameter self.now }
    {
        u64::from(self.request_type)
            + (u64::from(self.request) << 8)
            + (u64::from(self.value) << 16)
            + (u64::from(self.index) << 32)
            + (u64::from(self.length) << 48)
    }

    /// The Setup Stage TRB (6.4.1.2.1).
    pub fn words(&self, cycle: bool) -> Words
        ensures { result ≡ setup_words self.now cycle }
    {
        let transfer_type = match (self.length, self.has_data_in()) {
            (0, _) => NO_DATA_STAGE,
            (_, false) => OUT_DATA_STAGE,
            (_, true) => IN_DATA_STAGE,
        };
        Words {
            parameter: self.parameter(),
            status: SETUP_BYTES,
            control: (SETUP_STAGE << 10)
                + IMMEDIATE_DATA
                + (transfer_type << 16)
                + cycle_bit(cycle),
        }
    }

    /// The Status Stage TRB (6.4.1.2.3): its direction is the other than the data's, and to the host without data.
    /// It interrupts on completion.
    pub fn status_words(&self, cycle: bool) -> Words
        ensures { result ≡ status_stage_words self.now cycle }
    {
        let direction = if self.has_data_in() { 0 } else { DIRECTION_IN };
        Words {
            parameter: 0,
            status: 0,
            control: (STATUS_STAGE << 10) + INTERRUPT_ON_COMPLETION + direction + cycle_bit(cycle),
        }
    }
}

impl DataStage {
    /// The Data Stage TRB (6.4.1.2.2), which interrupts on a short packet. Its TD Size is 0.
    pub fn words(&self, cycle: bool) -> Words
        ensures { result ≡ data_stage_words self.now cycle }
    {
        let direction = if self.is_in { DIRECTION_IN } else { 0 };
        Words {
            parameter: self.at,
            status: u32::from(self.length),
            control: (DATA_STAGE << 10) + INTERRUPT_ON_SHORT_PACKET + direction + cycle_bit(cycle),
        }
    }
}

impl DataTrb {
    /// The Normal TRB (6.4.1.1).
    pub fn words(&self, cycle: bool) -> Words
        ensures { result ≡ data_words self.now cycle }
    {
        let short = if self.is_in {
            INTERRUPT_ON_SHORT_PACKET
        } else {
            0
        };
        let end = if self.is_last {
            INTERRUPT_ON_COMPLETION
        } else {
            CHAIN
        };
        Words {
            parameter: self.at,
            status: self.length % (1 << 17) + (u32::from(self.packets_left % 32) << 17),
            control: (NORMAL << 10) + short + end + cycle_bit(cycle),
        }
    }
}

impl LinkTrb {
    /// The Link TRB, without Chain (6.4.4.1).
    pub fn words(&self, cycle: bool) -> Words
        ensures { result ≡ link_words self.now cycle }
    {
        let toggle = if self.toggles { TOGGLE_CYCLE } else { 0 };
        Words {
            parameter: aligned(self.to),
            status: 0,
            control: (LINK << 10) + toggle + cycle_bit(cycle),
        }
    }
}

// The TRB types of transfer rings (6.4.6).
const NORMAL: u32 = 1;

const SETUP_STAGE: u32 = 2;

const DATA_STAGE: u32 = 3;

const STATUS_STAGE: u32 = 4;

const LINK: u32 = 6;

// Flags of the control word.
const TOGGLE_CYCLE: u32 = 1 << 1;

const INTERRUPT_ON_SHORT_PACKET: u32 = 1 << 2;

const CHAIN: u32 = 1 << 4;

const INTERRUPT_ON_COMPLETION: u32 = 1 << 5;

const IMMEDIATE_DATA: u32 = 1 << 6;

const DIRECTION_IN: u32 = 1 << 16;

// The bytes of a setup packet.
const SETUP_BYTES: u32 = 8;

// Transfer Type, control bits 17:16 of a Setup Stage TRB (6.4.1.2.1).
const NO_DATA_STAGE: u32 = 0;

const OUT_DATA_STAGE: u32 = 2;

const IN_DATA_STAGE: u32 = 3;
