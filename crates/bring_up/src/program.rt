//! Row 6: the lent memory is zeroed, its tables are written, and the controller is told of them (xHCI 1.2, 4.2).
ghost use Rattle.std.specs.Prelude.{◌≡◌, ◌<◌, ◌^◌, ◌+◌, ◌*◌, ◌/◌, ◌%◌, bit_or, length};
ghost use Rattle.byteorder.specs.Endian.{little_bytes};
ghost use Rattle.bring_up.specs.Programs.{behind_entry, entry_stored, high_half, low_half, next_setting, program_access, program_after, segment_entry, set_after, setting_offset, setting_value, tables_begun, zeroed};

use crate::access::{Access, Stored, later, store_in, write_at};
use crate::controller::Controller;
use crate::step::Step;
use crate::takeover::Run;
use byteorder::{ByteOrder, LittleEndian};
use host_layout::{Fixed, Layout};
use host_trbs::Words;

/// The TRBs of the event ring.
pub const EVENT_TRBS: u16 = 2048;

/// The bytes that are zeroed at a time.
const PAGE_BYTES: u16 = 4096;

/// What of row 6 comes next.
#[derive(Clone, Copy)]
pub enum Program {
    /// The 4,096 bytes of this number are zeroed.
    Zero(u32),
    /// The scratchpads' array becomes the first entry of the device context base address array.
    Scratchpads,
    /// A scratchpad becomes an entry of that array.
    Scratchpad(u16),
    /// The event ring becomes the entry of the segment table.
    Segment,
    /// A register is written.
    Set(Setting),
}

/// A register that is set, or a half of one of 64 bits.
#[derive(Clone, Copy)]
pub enum Setting {
    /// CONFIG.
    Slots,
    /// DCBAAP.
    ContextsLow,
    ContextsHigh,
    /// CRCR.
    CommandsLow,
    CommandsHigh,
    /// IMOD.
    Interval,
    /// ERSTSZ.
    Segments,
    /// ERDP.
    DequeueLow,
    DequeueHigh,
    /// ERSTBA.
    TableLow,
    TableHigh,
    /// IMAN.
    Interrupts,
}

/// The halves of an address.
pub(crate) fn low_half(address: u64) -> u32
    ensures { result ≡ low_half address }
{
    (address & 0xffff_ffff) as u32
}

pub(crate) fn high_half(address: u64) -> u32
    ensures { result ≡ high_half address }
{
    (address >> 32) as u32
}

/// The eight bytes of an address, low byte first.
pub(crate) fn address_bytes(address: u64) -> [u8; 8]
    ensures { result ≡ little_bytes 8 address }
{
    let mut bytes = [0; 8];
    LittleEndian::write_u64(&mut bytes, address);
    bytes
}

impl Program {
    pub(crate) fn access(self, c: &Controller, layout: &Layout) -> Access
        ensures { result ≡ program_access self c.now layout.now }
    {
        match self {
            Program::Zero(page) => store_in(
                Some(later(layout.base, u64::from(PAGE_BYTES) * u64::from(page))),
                Stored::Zeros(PAGE_BYTES),
            ),
            Program::Scratchpads => entry_stored(
                Some(layout.fixed(Fixed::DeviceContexts)),
                0,
                layout.scratchpad_array(),
            ),
            Program::Scratchpad(number) => entry_stored(
                layout.scratchpad_array(),
                number,
                layout.scratchpad(number),
            ),
            Program::Segment => store_in(
                Some(layout.fixed(Fixed::SegmentTable)),
                Stored::Sixteen(segment_entry(layout.fixed(Fixed::EventRing))),
            ),
            Program::Set(setting) => write_at(setting.offset(c), setting.value(c, layout)),
        }
    }

    pub(crate) fn after(self, c: &Controller, layout: &Layout, takes_low_last: bool) -> Step
        ensures { result ≡ program_after self c.now layout.now takes_low_last }
    {
        match self {
            Program::Zero(page) => zeroed(c, layout, page.saturating_add(1)),
            Program::Scratchpads => Step::Program(Program::Scratchpad(0)),
            Program::Scratchpad(number) => behind_entry(c, number.saturating_add(1)),
            Program::Segment => Step::Program(Program::Set(Setting::Slots)),
            Program::Set(setting) => set_after(setting.next(takes_low_last)),
        }
    }
}

/// An event ring segment table entry (6.5): the ring's address, and its TRBs.
fn segment_entry(ring: u64) -> [u8; 16]
    ensures { result ≡ segment_entry ring }
{
    let words = Words {
        parameter: ring,
        status: u32::from(EVENT_TRBS),
        control: 0,
    };
    words.bytes()
}

/// An address becomes the entry of a number of an array of addresses.
pub(crate) fn entry_stored(array: Option<u64>, number: u16, address: Option<u64>) -> Access
    ensures { result ≡ entry_stored array number address }
{
    match (array, address) {
        (Some(array), Some(address)) => store_in(
            Some(later(array, 8 * u64::from(number))),
            Stored::Eight(address_bytes(address)),
        ),
        _ => Access::Rest(0),
    }
}

/// The next 4,096 bytes, or the tables.
fn zeroed(c: &Controller, layout: &Layout, next: u32) -> Step
    ensures { result ≡ zeroed c.now layout.now next }
{
    if u64::from(PAGE_BYTES) * u64::from(next) < u64::from(layout.shape.bytes()) {
        Step::Program(Program::Zero(next))
    } else {
        tables_begun(c)
    }
}

fn tables_begun(c: &Controller) -> Step
    ensures { result ≡ tables_begun c.now }
{
    if c.scratchpads == 0 {
        Step::Program(Program::Segment)
    } else {
        Step::Program(Program::Scratchpads)
    }
}

fn behind_entry(c: &Controller, next: u16) -> Step
    ensures { result ≡ behind_entry c.now next }
{
    if next < c.scratchpads {
        Step::Program(Program::Scratchpad(next))
    } else {
        Step::Program(Program::Segment)
    }
}

fn set_after(next: Option<Setting>) -> Step
    ensures { result ≡ set_after next }
{
    match next {
        Some(setting) => Step::Program(Program::Set(setting)),
        None => Step::Run(Run::Command),
    }
}

impl Setting {
    fn offset(self, c: &Controller) -> u64
        ensures is { result ≡ setting_offset self c.now }
        ensures near { result < 2 ^ 40 }
    {
        let operational = c.command_register();
        let interrupter = c.interrupter();
        match self {
            Setting::Slots => operational + 0x38,
            Setting::ContextsLow => operational + 0x30,
            Setting::ContextsHigh => operational + 0x34,
            Setting::CommandsLow => operational + 0x18,
            Setting::CommandsHigh => operational + 0x1c,
            Setting::Interval => interrupter + 4,
            Setting::Segments => interrupter + 8,
            Setting::TableLow => interrupter + 0x10,
            Setting::TableHigh => interrupter + 0x14,
            Setting::DequeueLow => interrupter + 0x18,
            Setting::DequeueHigh => interrupter + 0x1c,
            Setting::Interrupts => interrupter,
        }
    }

    fn value(self, c: &Controller, layout: &Layout) -> u32
        ensures { result ≡ setting_value self c.now layout.now }
    {
        match self {
            Setting::Slots => u32::from(c.slots),
            Setting::ContextsLow => low_half(layout.fixed(Fixed::DeviceContexts)),
            Setting::ContextsHigh => high_half(layout.fixed(Fixed::DeviceContexts)),
            Setting::CommandsLow => low_half(layout.fixed(Fixed::CommandRing)) | CYCLE_STATE,
            Setting::CommandsHigh => high_half(layout.fixed(Fixed::CommandRing)),
            Setting::Interval => INTERVAL,
            Setting::Segments => 1,
            Setting::DequeueLow => low_half(layout.fixed(Fixed::EventRing)),
            Setting::DequeueHigh => high_half(layout.fixed(Fixed::EventRing)),
            Setting::TableLow => low_half(layout.fixed(Fixed::SegmentTable)),
            Setting::TableHigh => high_half(layout.fixed(Fixed::SegmentTable)),
            Setting::Interrupts => PENDING_AND_ENABLED,
        }
    }

    /// The order: DCBAAP, CRCR, IMOD, ERSTSZ, ERDP, then ERSTBA, which starts the event ring; IMAN last.
    fn next(self, takes_low_last: bool) -> Option<Setting>
        ensures { result ≡ next_setting self takes_low_last }
    {
        match self {
            Setting::Slots => Some(Setting::ContextsLow),
            Setting::ContextsLow => Some(Setting::ContextsHigh),
            Setting::ContextsHigh => Some(Setting::CommandsLow),
            Setting::CommandsLow => Some(Setting::CommandsHigh),
            Setting::CommandsHigh => Some(Setting::Interval),
            Setting::Interval => Some(Setting::Segments),
            Setting::Segments => Some(Setting::DequeueLow),
            Setting::DequeueLow => Some(Setting::DequeueHigh),
            Setting::DequeueHigh if takes_low_last => Some(Setting::TableHigh),
            Setting::DequeueHigh => Some(Setting::TableLow),
            Setting::TableLow if takes_low_last => Some(Setting::Interrupts),
            Setting::TableLow => Some(Setting::TableHigh),
            Setting::TableHigh if takes_low_last => Some(Setting::TableLow),
            Setting::TableHigh => Some(Setting::Interrupts),
            Setting::Interrupts => None,
        }
    }
}

/// Ring Cycle State of CRCR.
const CYCLE_STATE: u32 = 1;

/// IMOD: 160 times 250 ns.
const INTERVAL: u32 = 160;

/// IMAN: Interrupt Pending, which is cleared by a 1, and Interrupt Enable.
pub(crate) const PENDING_AND_ENABLED: u32 = 3;
