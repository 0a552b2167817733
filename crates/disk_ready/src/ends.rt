//! What an event says of the three TDs of a question (xHCI 1.2, 6.4.2.1), and what the status unit says.
ghost use Rattle.std.specs.Prelude.{◌≡◌};
ghost use Rattle.disk_ready.specs.Ends.{all_ended, completed_in, ends_begun, ends_seen, failed_in, is_other, kind_told, moved_in, td_at, td_bytes, told_in, unit_told};

use crate::puts::{Sent, Spots, Target, Way};
use crate::stores::place_in;
use disk_requests::{Readiness, StatusKind, StatusUnit, read_status, readiness_of};
use disk_up::is_at;
use host_layout::{Layout, Ring};
use host_trbs::{Completion, Event};

/// Which of the TDs of a question ended: so many bytes of its data and of its status unit came.
#[derive(Clone, Copy)]
pub struct Ends {
    pub data_moved: Option<u32>,
    pub status_moved: Option<u32>,
    pub has_unit: bool,
    /// One of them failed.
    pub is_failed: bool,
}

/// A TD of a question.
#[derive(Clone, Copy, Debug, PartialEq, Eq)]
pub enum Td {
    Data,
    Status,
    Command,
    /// None of the three.
    Other,
}

/// The device context index of endpoint 0.
const CONTROL_ENDPOINT: u8 = 1;

impl Ends {
    pub(crate) fn begun(way: Way) -> Ends
        ensures { result ≡ ends_begun way }
    {
        Ends {
            data_moved: if way.has_data() { None } else { Some(0) },
            status_moved: None,
            has_unit: false,
            is_failed: false,
        }
    }

    /// Whether all three ended.
    pub fn all_ended(&self) -> bool
        ensures { result ≡ all_ended self.now }
    {
        self.data_moved.is_some() && self.status_moved.is_some() && self.has_unit
    }

    /// With what an event says; `length` bytes of data were asked for.
    pub(crate) fn seen(
        self,
        event: Event,
        layout: &Layout,
        target: &Target,
        sent: &Sent,
        spots: Spots,
        length: u16,
    ) -> Ends
        ensures { result ≡ ends_seen event self layout.now target.now sent.now spots length }
    {
        match event {
            Event::Transfer {
                trb,
                residual,
                code,
                endpoint,
                ..
            } if endpoint != CONTROL_ENDPOINT => self.completed(
                Completion::of_transfer(code, residual),
                td_at(layout, target, sent, spots, endpoint, trb),
                u32::from(length),
                residual,
                trb,
            ),
            _ => self,
        }
    }

    fn completed(self, completion: Completion, td: Td, length: u32, residual: u32, trb: u64) -> Ends
        ensures { result ≡ completed_in completion self td length residual trb }
    {
        match completion {
            Completion::Success | Completion::ShortPacket => self.moved(
                td,
                td.bytes(length).saturating_sub(residual),
            ),
            Completion::Stall | Completion::Transaction | Completion::Failed => self.failed(
                td, trb,
            ),
            _ => self,
        }
    }

    fn moved(self, td: Td, count: u32) -> Ends
        ensures { result ≡ moved_in self td count }
    {
        match td {
            Td::Data => Ends {
                data_moved: Some(count),
                ..self
            },
            Td::Status => Ends {
                status_moved: Some(count),
                ..self
            },
            Td::Command => Ends {
                has_unit: true,
                ..self
            },
            Td::Other => self,
        }
    }

    /// A TD that failed may be named by no TRB.
    fn failed(self, td: Td, trb: u64) -> Ends
        ensures { result ≡ failed_in self td trb }
    {
        if td.is_other() && trb != 0 {
            self
        } else {
            Ends {
                is_failed: true,
                ..self
            }
        }
    }
}

impl Td {
    /// The bytes of its TRB.
    fn bytes(self, length: u32) -> u32
        ensures { result ≡ td_bytes self length }
    {
        match self {
            Td::Data => length,
            Td::Status => 112,
            Td::Command => 32,
            Td::Other => 0,
        }
    }

    fn is_other(self) -> bool
        ensures { result ≡ is_other self }
    {
        matches!(self, Td::Other)
    }
}

/// Whose an event is.
fn td_at(layout: &Layout, target: &Target, sent: &Sent, spots: Spots, endpoint: u8, trb: u64) -> Td
    ensures { result ≡ td_at layout.now target.now sent.now spots endpoint trb }
{
    let data = place_in(layout, sent.data_ring(), spots.data_third, 0);
    let status = place_in(layout, Ring::Status(sent.tag), spots.status_third, 0);
    let pipes = &target.pipes;
    if sent.way.has_data() && endpoint == target.data_target(sent.way) && is_at(data, trb) {
        Td::Data
    } else if endpoint == pipes.status.context_index() && is_at(status, trb) {
        Td::Status
    } else if endpoint == pipes.command.context_index() && trb == spots.pipe.address(layout) {
        Td::Command
    } else {
        Td::Other
    }
}

/// What the status unit of a tag says of its command; None where it is another one.
pub(crate) fn told_in(bytes: &[u8], tag: u8) -> Option<Readiness>
    ensures { result ≡ told_in bytes.now tag }
{
    unit_told(read_status(bytes), tag)
}

fn unit_told(unit: Option<StatusUnit>, tag: u8) -> Option<Readiness>
    ensures { result ≡ unit_told unit tag }
{
    let Some(unit) = unit else {
        return None;
    };
    if unit.tag == u16::from(tag) {
        kind_told(&unit.kind)
    } else {
        None
    }
}

fn kind_told(kind: &StatusKind) -> Option<Readiness>
    ensures { result ≡ kind_told kind.now }
{
    match kind {
        StatusKind::Sense { status, sense } => Some(readiness_of(*status, sense.as_slice())),
        StatusKind::Response { .. } | StatusKind::ReadReady | StatusKind::WriteReady => None,
    }
}
