//! Events are looked for on the event ring (xHCI 1.2, 4.9.4 and 5.5.2): status first, then each event, its last word first; at the end the
//! controller is told how far they were read.
ghost use Rattle.std.specs.Prelude.{◌≡◌, ◌<◌, ◌^◌, ◌≤◌, bit_and, bit_or, length};
ghost use Rattle.host_trbs.specs.Events.{event_in};
ghost use Rattle.host_trbs.specs.Words.{words_in};
ghost use Rattle.bring_up.specs.Services.{behind_word, closing, event_address, event_bytes, events_begun, idle, is_cycle, next_event, passed, rested, served_at, service_access, service_after, service_begun, status_read, taken_event, watch_begun, woken};

use crate::access::{Access, later, load_in, read_at, write_at};
use crate::controller::{Controller, is_set};
use crate::program::{EVENT_TRBS, PENDING_AND_ENABLED, high_half, low_half};
use host_layout::{Fixed, Layout};
use host_trbs::{Event, read_event};

/// Where the next event will be: its place on the event ring, and its Cycle bit.
#[derive(Clone, Copy)]
pub struct EventRing {
    pub place: u16,
    pub cycle: bool,
}

/// A look for events, up to a time; `seen` of them were read since the controller was told how far.
#[derive(Clone, Copy)]
pub struct Service {
    pub limit: u64,
    pub seen: u8,
    pub at: Serving,
}

/// What of a look comes next.
#[derive(Clone, Copy)]
pub enum Serving {
    /// USBSTS is read; its interrupt and port change are cleared, in this value, and the interrupter's.
    Status,
    Acknowledge(u32),
    Interrupt,
    /// The last word of the next event is loaded, with its Cycle bit; then the event.
    Word,
    Event,
    /// ERDP is written.
    Low,
    High,
    /// Nothing up to this time.
    Rest(u64),
}

/// How a look goes on.
#[derive(Clone, Copy)]
pub enum Served {
    On(Service),
    /// All events were read that there are, or 64 of them.
    Closed,
    /// The controller had an error, or halted.
    Broken,
}

/// USBSTS: HCHalted, Host System Error, Event Interrupt, Port Change Detect, Host Controller Error.
const HALTED: u32 = 0;

const SYSTEM_ERROR: u32 = 2;

const CONTROLLER_ERROR: u32 = 12;

const SIGNALS: u32 = 0x18;

/// ERDP: Event Handler Busy, which is cleared by a 1.
const BUSY: u32 = 8;

/// The most events before the controller is told how far they were read.
const MOST_SEEN: u8 = 64;

impl EventRing {
    pub(crate) fn begun() -> EventRing
        ensures { result ≡ events_begun }
    {
        EventRing {
            place: 0,
            cycle: true,
        }
    }

    /// Behind one more event.
    pub fn next(self) -> EventRing
        ensures { result ≡ next_event self }
    {
        if self.place >= EVENT_TRBS - 1 {
            EventRing {
                place: 0,
                cycle: !self.cycle,
            }
        } else {
            EventRing {
                place: self.place + 1,
                cycle: self.cycle,
            }
        }
    }

    /// Where the next event will be.
    pub fn address(self, layout: &Layout) -> u64
        ensures { result ≡ event_address self layout.now }
    {
        later(layout.fixed(Fixed::EventRing), 16 * u64::from(self.place))
    }
}

/// The event of 16 bytes.
pub fn taken_event(bytes: &[u8]) -> Event
    ensures { result ≡ taken_event bytes.now }
{
    let (event, _) = read_event(&event_bytes(bytes));
    event
}

/// Sixteen bytes, or zeros.
fn event_bytes(bytes: &[u8]) -> [u8; 16]
    ensures { result ≡ event_bytes bytes.now }
{
    let mut event = [0; 16];
    if bytes.len() == 16 {
        event.copy_from_slice(bytes);
    }
    event
}

/// Whether a Cycle bit is that of the lap.
fn is_cycle(cycle: bool, bit: bool) -> bool
    ensures { result ≡ is_cycle cycle bit }
{
    if cycle { bit } else { !bit }
}

impl Service {
    /// A look for so many ms from now on.
    pub fn begun(now: u64, ms: u64) -> Service
        ensures { result ≡ service_begun now ms }
    {
        Service {
            limit: later(now, ms),
            seen: 0,
            at: Serving::Status,
        }
    }

    /// No look until an interrupt.
    pub(crate) fn idle() -> Service
        ensures { result ≡ idle }
    {
        Service {
            limit: u64::MAX,
            seen: 0,
            at: Serving::Rest(u64::MAX),
        }
    }

    /// A watch begins with the events that came while none were looked for: their interrupt is over.
    pub(crate) fn watching() -> Service
        ensures { result ≡ watch_begun }
    {
        Service::idle().with(Serving::Status)
    }

    /// An interrupt ends a rest.
    pub fn woken(self) -> Service
        ensures { result ≡ woken self }
    {
        match self.at {
            Serving::Rest(_) => self.with(Serving::Status),
            _ => self,
        }
    }

    /// A rest of 1 ms, before the next look.
    pub fn rested(self, now: u64) -> Service
        ensures { result ≡ rested self now }
    {
        Service {
            limit: self.limit,
            seen: 0,
            at: Serving::Rest(later(now, 1)),
        }
    }

    /// An event was read: the next, or the end behind 64 of them.
    pub fn passed(self) -> Service
        ensures { result ≡ passed self }
    {
        let seen = self.seen.saturating_add(1);
        Service {
            limit: self.limit,
            seen,
            at: if seen < MOST_SEEN {
                Serving::Word
            } else {
                Serving::Low
            },
        }
    }

    /// The event that was awaited was read: the controller is told how far.
    pub fn closing(self) -> Service
        ensures { result ≡ closing self }
    {
        self.with(Serving::Low)
    }

    fn with(self, at: Serving) -> Service
        ensures { result ≡ served_at self at }
    {
        Service {
            limit: self.limit,
            seen: self.seen,
            at,
        }
    }

    pub fn access(self, c: &Controller, layout: &Layout, events: EventRing) -> Access
        ensures { result ≡ service_access self c.now layout.now events }
    {
        let at = events.address(layout);
        let interrupter = c.interrupter();
        match self.at {
            Serving::Status => read_at(c.status_register()),
            Serving::Acknowledge(value) => write_at(c.status_register(), value & SIGNALS),
            Serving::Interrupt => write_at(interrupter, PENDING_AND_ENABLED),
            Serving::Word => load_in(Some(later(at, 12)), 4),
            Serving::Event => load_in(Some(at), 16),
            Serving::Low => write_at(interrupter + 0x18, low_half(at) | BUSY),
            Serving::High => write_at(interrupter + 0x1c, high_half(at)),
            Serving::Rest(until) => Access::Rest(until),
        }
    }

    /// What comes after a step that reads no event.
    pub fn after(self, cycle: bool, value: u32) -> Served
        ensures { result ≡ service_after self cycle value }
    {
        match self.at {
            Serving::Status => self.status_read(value),
            Serving::Acknowledge(_) => Served::On(self.with(Serving::Interrupt)),
            Serving::Interrupt => Served::On(self.with(Serving::Word)),
            Serving::Word => self.behind_word(is_cycle(cycle, is_set(value, 0))),
            Serving::Event => Served::On(self.with(Serving::Word)),
            Serving::Low => Served::On(self.with(Serving::High)),
            Serving::High => Served::Closed,
            Serving::Rest(_) => Served::On(self.with(Serving::Status)),
        }
    }

    fn status_read(self, value: u32) -> Served
        ensures { result ≡ status_read self value }
    {
        if is_set(value, HALTED) || is_set(value, SYSTEM_ERROR) || is_set(value, CONTROLLER_ERROR) {
            Served::Broken
        } else if value & SIGNALS != 0 {
            Served::On(self.with(Serving::Acknowledge(value)))
        } else {
            Served::On(self.with(Serving::Word))
        }
    }

    fn behind_word(self, is_there: bool) -> Served
        ensures { result ≡ behind_word self is_there }
    {
        if is_there {
            Served::On(self.with(Serving::Event))
        } else if self.seen == 0 {
            Served::Closed
        } else {
            Served::On(self.with(Serving::Low))
        }
    }
}
