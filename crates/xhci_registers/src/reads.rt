//! The page, read.
ghost use Rattle.std.specs.Prelude.{◌≡◌, ◌+◌, ◌<◌, ◌≤◌, ◌^◌, true};
ghost use Rattle.xhci_registers.specs.Words.{aligned_read, bytes_of, capability_word, command_word, dequeue_low, empty_port_word, is_aligned};
ghost use Rattle.xhci_registers.specs.Words.{management_word, operational_word, part_of, ports_word, read_of, runtime_word, status_word, word_at};

use crate::bits::{high, low, multiple};
use crate::{Registers, Width};

/// Bytes of the page.
const PAGE_BYTES: u64 = 4096;

impl Width {
    fn bytes(self) -> u64
        ensures bytes { result ≡ bytes_of self }
        ensures some { 1 ≤ result }
        ensures most { result ≤ 8 }
    {
        match self {
            Width::One => 1,
            Width::Two => 2,
            Width::Four => 4,
            Width::Eight => 8,
        }
    }

    /// Whether an access lies on the page, at a multiple of its width.
    fn is_aligned(self, offset: u64) -> bool
        ensures { result ≡ is_aligned offset self }
    {
        offset < PAGE_BYTES && offset % self.bytes() == 0
    }
}

/// The word of the capabilities at a multiple of 4.
fn capability_word(at: u64) -> u32
    ensures { result ≡ capability_word at }
{
    match at {
        0x00 => 0x0110_0040,
        0x04 => 0x0200_0101,
        0x10 => 0x0008_7281,
        0x14 => 0x800,
        0x18 => 0x600,
        0x20 => 0x0200_0402,
        0x24 => 0x2042_5355,
        0x28 => 0x101,
        0x30 => 0x0300_0002,
        0x34 => 0x2042_5355,
        0x38 => 0x102,
        _ => 0,
    }
}

/// The byte of a word at a place, or the two bytes there, as a number with so many values.
fn part_of(word: u32, place: u32, values: u32) -> u32
    requires place { place < 4 }
    requires values { 0 < values }
    ensures { result ≡ part_of word place values }
{
    (word >> (8 * place)) % values
}

impl Registers {
    /// A read of the page: 1, 2, 4 or 8 bytes at a multiple of their number; any other reads 0 (5.3 to 5.6).
    pub fn read(&self, offset: u64, width: Width) -> u64
        ensures { result ≡ read_of self.now offset width }
    {
        if width.is_aligned(offset) {
            self.aligned_read(offset, width)
        } else {
            0
        }
    }

    fn aligned_read(&self, offset: u64, width: Width) -> u64
        requires { is_aligned offset width ≡ true }
        ensures { result ≡ aligned_read self.now offset width }
    {
        let place = (offset % 4) as u32;
        match width {
            Width::One => u64::from(part_of(self.word(offset / 4 * 4), place, 0x100)),
            Width::Two => u64::from(part_of(self.word(offset / 4 * 4), place, 0x1_0000)),
            Width::Four => u64::from(self.word(offset)),
            Width::Eight => {
                u64::from(self.word(offset)) + (u64::from(self.word(offset + 4)) << 32)
            }
        }
    }

    /// The word at a multiple of 4.
    pub fn word(&self, at: u64) -> u32
        ensures { result ≡ word_at self.now at }
    {
        if at < 0x40 {
            capability_word(at)
        } else if at < 0x400 {
            self.operational_word(at)
        } else if at < 0x600 {
            self.ports_word(at)
        } else {
            self.runtime_word(at)
        }
    }

    fn operational_word(&self, at: u64) -> u32
        ensures { result ≡ operational_word self.now at }
    {
        match at {
            0x40 => self.command_word(),
            0x44 => self.status_word(),
            0x48 => 1,
            0x54 => u32::from(self.notifications),
            0x58 => 8 * u32::from(self.command_ring.runs),
            0x70 => low(self.contexts),
            0x74 => high(self.contexts),
            0x78 => u32::from(self.config),
            _ => 0,
        }
    }

    fn ports_word(&self, at: u64) -> u32
        ensures { result ≡ ports_word self.now at }
    {
        match at {
            0x440 => 0x2a0 + self.empty_port_wake.word(),
            0x450 => self.port.word(),
            0x454 => self.port.power,
            _ => 0,
        }
    }

    fn runtime_word(&self, at: u64) -> u32
        ensures { result ≡ runtime_word self.now at }
    {
        match at {
            0x600 => u32::from(self.frame_index),
            0x620 => self.management_word(),
            0x624 => u32::from(self.interrupter.moderation),
            0x628 => u32::from(self.interrupter.table_size),
            0x630 => low(self.interrupter.table),
            0x634 => high(self.interrupter.table),
            0x638 => self.dequeue_low(),
            0x63c => high(self.interrupter.dequeue),
            _ => 0,
        }
    }

    /// USBCMD.
    fn command_word(&self) -> u32
        ensures { result ≡ command_word self.now }
    {
        u32::from(self.runs)
            + 4 * u32::from(self.interrupts)
            + 8 * u32::from(self.host_error_interrupts)
            + 0x400 * u32::from(self.wrap_events)
    }

    /// USBSTS.
    fn status_word(&self) -> u32
        ensures { result ≡ status_word self.now }
    {
        u32::from(!self.runs)
            + 4 * u32::from(self.host_error)
            + 8 * u32::from(self.event_interrupt)
            + 16 * u32::from(self.port_change)
            + 0x400 * u32::from(self.restore_error)
    }

    /// IMAN.
    fn management_word(&self) -> u32
        ensures { result ≡ management_word self.now }
    {
        u32::from(self.interrupter.pending) + 2 * u32::from(self.interrupter.enabled)
    }

    /// The low half of ERDP.
    fn dequeue_low(&self) -> u32
        ensures { result ≡ dequeue_low self.now }
    {
        multiple(low(self.interrupter.dequeue), 16)
            + u32::from(self.interrupter.segment % 8)
            + 8 * u32::from(self.interrupter.busy)
    }
}
