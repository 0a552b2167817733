//! Rows 8 and 9: the ports of USB 3, and the reset of one (xHCI 1.2, 4.19 and 5.4.8).
ghost use Rattle.std.specs.Prelude.{◌≡◌, ◌<◌, ◌/◌, ◌%◌, ◌^◌, ◌==◌, bit_and, bit_or};
ghost use Rattle.bring_up.specs.PortRows.{changes_cleared, changes_in, is_ready, look_begun, looked_at, looked_on, needs_warm_reset, neutral, number_at, port_read, port_reset_access, port_written, ports_access, ports_after, powered, reset_bit, warm_reset_on};

use crate::access::{Access, later, read_at, write_at};
use crate::controller::{Controller, PortPlace, is_set};
use crate::service::Service;
use crate::step::Step;
use crate::waits::Wait;
use crate::why::Why;

/// Row 8.
#[derive(Clone, Copy)]
pub enum Ports {
    /// PORTSC of a port is read; a port without power gets it, in this value.
    Power(PortPlace),
    PowerOn {
        place: PortPlace,
        value: u32,
    },
    /// Up to this time devices are detected.
    Settle(u64),
    /// PORTSC of each port is read, until one has had a device for 100 ms.
    Look {
        place: PortPlace,
        limit: u64,
        is_warmed: bool,
    },
    /// Its change bits are cleared, in this value.
    ClearChanges {
        place: PortPlace,
        limit: u64,
        is_warmed: bool,
        value: u32,
    },
    Pause {
        until: u64,
        limit: u64,
        is_warmed: bool,
    },
    /// Ports whose link hangs are reset, once.
    Warm(PortPlace),
    WarmReset {
        place: PortPlace,
        value: u32,
    },
}

/// Row 9.
#[derive(Clone, Copy)]
pub enum PortReset {
    /// PORTSC is read, and the port reset, in this value.
    Read,
    Start(u32),
    /// Until the port is enabled.
    Done(Wait),
    /// The change bits are cleared, in this value; likewise where the port isn't enabled in time.
    Clear(u32),
    Late(u32),
    /// The device's time to recover.
    Recover(u64),
    /// The speed is read.
    Speed,
}

/// What is known of a port: since when it has had a device, and why that isn't used.
#[derive(Clone, Copy)]
pub struct PortState {
    pub since: Option<u64>,
    pub refused: Option<Why>,
}

/// PORTSC: Current Connect Status, Port Enabled, Port Reset, Port Power, Cold Attach Status.
pub(crate) const CONNECTED: u32 = 0;

pub(crate) const ENABLED: u32 = 1;

pub(crate) const RESETTING: u32 = 4;

const POWERED: u32 = 9;

const COLD_ATTACHED: u32 = 24;

/// Port Power, Port Reset, Warm Port Reset, and the change bits, as they are written.
const POWER: u32 = 0x200;

const PORT_RESET: u32 = 0x10;

const WARM_PORT_RESET: u32 = 0x8000_0000;

const CHANGES: u32 = 0x00fe_0000;

/// PORTSC without what a write of its own value would do: Port Enabled written 1 disables, changes are cleared.
const NEUTRAL: u32 = 0x0e00_c3e0;

/// ms: until devices are detected; how long one has to be there; the limit; between two readings.
const SETTLING: u64 = 100;

const CONNECTED_FOR: u64 = 100;

const LOOKING: u64 = 2000;

pub(crate) const PORT_PERIOD: u64 = 10;

pub(crate) fn neutral(value: u32) -> u32
    ensures { result ≡ neutral value }
{
    value & NEUTRAL
}

/// Which change bits are set.
pub(crate) fn changes_in(value: u32) -> u32
    ensures { result ≡ changes_in value }
{
    value & CHANGES
}

/// PORTSC as it is written to clear the change bits that are set.
pub(crate) fn changes_cleared(value: u32) -> u32
    ensures { result ≡ changes_cleared value }
{
    neutral(value) | changes_in(value)
}

/// Whether a link is Inactive.
pub(crate) fn is_inactive(value: u32) -> bool
    ensures { result ≡ (value / 2 ^ 5 % 16 == 6) }
{
    value >> 5 & 15 == 6
}

/// Whether a link hangs: Inactive, Polling or Compliance Mode, or a device that was attached in between.
fn needs_warm_reset(value: u32) -> bool
    ensures { result ≡ needs_warm_reset value }
{
    matches!(value >> 5 & 15, 6 | 7 | 10) || is_set(value, COLD_ATTACHED)
}

/// The reset that a port needs.
pub(crate) fn reset_bit(value: u32) -> u32
    ensures { result ≡ reset_bit value }
{
    if needs_warm_reset(value) {
        WARM_PORT_RESET
    } else {
        PORT_RESET
    }
}

/// Reads or writes PORTSC of a port.
pub(crate) fn port_read(c: &Controller, number: u8) -> Access
    ensures { result ≡ port_read c.now number }
{
    read_at(c.port_register(number))
}

pub(crate) fn port_written(c: &Controller, number: u8, value: u32) -> Access
    ensures { result ≡ port_written c.now number value }
{
    write_at(c.port_register(number), value)
}

/// The number of a place's port; 0, which is none, behind the last.
pub(crate) fn number_at(c: &Controller, place: PortPlace) -> u8
    ensures { result ≡ number_at c.now place }
{
    match c.port_at(place) {
        Some(port) => port.number,
        None => 0,
    }
}

/// The ports are looked at from the first on.
pub(crate) fn look_begun(now: u64, is_warmed: bool) -> Step
    ensures { result ≡ look_begun now is_warmed }
{
    Step::Ports(Ports::Look {
        place: PortPlace::first(),
        limit: later(now, LOOKING),
        is_warmed,
    })
}

fn powered(c: &Controller, now: u64, place: PortPlace) -> Step
    ensures { result ≡ powered c.now now place }
{
    let next = c.next_place(place);
    if c.port_at(next).is_some() {
        Step::Ports(Ports::Power(next))
    } else {
        Step::Ports(Ports::Settle(later(now, SETTLING)))
    }
}

fn warm_reset_on(c: &Controller, now: u64, place: PortPlace) -> Step
    ensures { result ≡ warm_reset_on c.now now place }
{
    let next = c.next_place(place);
    if c.port_at(next).is_some() {
        Step::Ports(Ports::Warm(next))
    } else {
        look_begun(now, true)
    }
}

/// Behind a port without a device that can be used: the next, or a rest; at the limit resets, once, and then none is left.
pub(crate) fn looked_on(
    c: &Controller,
    now: u64,
    place: PortPlace,
    limit: u64,
    is_warmed: bool,
) -> Step
    ensures { result ≡ looked_on c.now now place limit is_warmed }
{
    let next = c.next_place(place);
    if c.port_at(next).is_some() {
        Step::Ports(Ports::Look {
            place: next,
            limit,
            is_warmed,
        })
    } else if now < limit {
        Step::Ports(Ports::Pause {
            until: later(now, PORT_PERIOD),
            limit,
            is_warmed,
        })
    } else if is_warmed {
        Step::Watch(Service::watching())
    } else {
        Step::Ports(Ports::Warm(PortPlace::first()))
    }
}

impl PortState {
    /// What a reading makes of it.
    pub(crate) fn looked_at(self, now: u64, is_connected: bool) -> PortState
        ensures { result ≡ looked_at self now is_connected }
    {
        if !is_connected {
            PortState {
                since: None,
                refused: None,
            }
        } else if self.since.is_some() {
            self
        } else {
            PortState {
                since: Some(now),
                refused: self.refused,
            }
        }
    }

    /// Whether there has been a device for 100 ms that wasn't refused.
    pub(crate) fn is_ready(self, now: u64) -> bool
        ensures { result ≡ is_ready self now }
    {
        match self.since {
            Some(since) => later(since, CONNECTED_FOR) <= now && self.refused.is_none(),
            None => false,
        }
    }
}

impl Ports {
    pub(crate) fn access(self, c: &Controller) -> Access
        ensures { result ≡ ports_access self c.now }
    {
        match self {
            Ports::Power(place) | Ports::Look { place, .. } | Ports::Warm(place) => port_read(
                c,
                number_at(c, place),
            ),
            Ports::PowerOn { place, value } => port_written(
                c,
                number_at(c, place),
                neutral(value) | POWER,
            ),
            Ports::WarmReset { place, value } => port_written(
                c,
                number_at(c, place),
                neutral(value) | WARM_PORT_RESET,
            ),
            Ports::ClearChanges { place, value, .. } => port_written(
                c,
                number_at(c, place),
                changes_cleared(value),
            ),
            Ports::Settle(until) | Ports::Pause { until, .. } => Access::Rest(until),
        }
    }

    /// What comes after a step that reads no port for a device.
    pub(crate) fn after(self, c: &Controller, now: u64, value: u32) -> Step
        ensures { result ≡ ports_after self c.now now value }
    {
        match self {
            Ports::Power(place) if !is_set(value, POWERED) => {
                Step::Ports(Ports::PowerOn { place, value })
            }
            Ports::Power(place) | Ports::PowerOn { place, .. } => powered(c, now, place),
            Ports::Settle(_) => look_begun(now, false),
            Ports::Look {
                place,
                limit,
                is_warmed,
            } => looked_on(c, now, place, limit, is_warmed),
            Ports::ClearChanges {
                place,
                limit,
                is_warmed,
                ..
            } => looked_on(c, now, place, limit, is_warmed),
            Ports::Pause {
                limit,
                is_warmed,
                ..
            } => Step::Ports(Ports::Look {
                place: PortPlace::first(),
                limit,
                is_warmed,
            }),
            Ports::Warm(place) if needs_warm_reset(value) => {
                Step::Ports(Ports::WarmReset { place, value })
            }
            Ports::Warm(place) | Ports::WarmReset { place, .. } => warm_reset_on(c, now, place),
        }
    }
}

impl PortReset {
    pub(crate) fn access(self, c: &Controller, number: u8) -> Access
        ensures { result ≡ port_reset_access self c.now number }
    {
        match self {
            PortReset::Read | PortReset::Speed => port_read(c, number),
            PortReset::Start(value) => port_written(c, number, neutral(value) | reset_bit(value)),
            PortReset::Done(wait) => wait.access(c.port_register(number)),
            PortReset::Clear(value) => port_written(c, number, neutral(value) | CHANGES),
            PortReset::Late(value) => port_written(c, number, changes_cleared(value)),
            PortReset::Recover(until) => Access::Rest(until),
        }
    }
}
