//! What an event says of the tags (xHCI 1.2, 6.4.2.1): it names a TRB by its address, and so a ring, a third and a place. Only the third of a
//! TD that is pending counts: a late second event of a short TD names another one.
ghost use Rattle.std.specs.Prelude.{◌≡◌};
ghost use Rattle.block_driver.specs.Events.{command_data_said, command_status_said, data_said, event_said, failed_if, found_in, own_said, pending_said, said_at, said_by, said_of, status_count, status_said_on, status_said, unit_outcome, unit_outcome_of};
ghost use Rattle.block_driver.specs.Table.{entry_at, wanted_at};

use crate::kinds::is_way;
use crate::table::{Entry, Outstanding};
use crate::tags::Tags;
use crate::tasks::OwnTask;
use block_requests::{DataEnd, Outcome, data_end, outcome_of, stopped_at};
use disk_requests::{StatusUnit, read_status};
use host_layout::{Layout, Ring, RingPlace};
use host_trbs::{Completion, Event};

/// What an event says.
#[derive(Clone, Copy, Debug, PartialEq, Eq)]
pub(crate) enum Said {
    /// Nothing that counts.
    Nothing,
    /// A TD failed.
    Failed,
    /// The data of a tag ended, and so many bytes were moved.
    Moved { tag: u8, count: u32 },
    /// The data of a tag were stopped, and so many bytes were moved so far.
    Stopped { tag: u8, count: u32 },
    /// The status unit of a tag came, of so many bytes.
    Unit { tag: u8, count: u32 },
    /// A port changed.
    Port(u8),
}

/// The device context index of endpoint 0.
const CONTROL_ENDPOINT: u8 = 1;

/// Bytes of a status TD.
pub(crate) const STATUS_BYTES: u32 = 112;

/// The place of the TRB that an event names.
fn found_in(layout: &Layout, pointer: u64) -> Option<RingPlace>
    ensures { result ≡ found_in layout.now pointer }
{
    layout.found(pointer)
}

fn failed_if(has_failed: bool) -> Said
    ensures { result ≡ failed_if has_failed }
{
    if has_failed {
        Said::Failed
    } else {
        Said::Nothing
    }
}

fn said_of(tag: u8, end: DataEnd) -> Said
    ensures { result ≡ said_of tag end }
{
    match end {
        DataEnd::Moved(count) => Said::Moved { tag, count },
        DataEnd::Failed => Said::Failed,
        DataEnd::GoesOn => Said::Nothing,
    }
}

/// The status unit of a tag came, of all its bytes but the residual ones.
fn status_count(tag: u8, residual: u32, completion: Completion) -> Said
    ensures { result ≡ status_count tag residual completion }
{
    match completion {
        Completion::Success | Completion::ShortPacket => Said::Unit {
            tag,
            count: STATUS_BYTES.saturating_sub(residual),
        },
        Completion::Stall | Completion::Transaction | Completion::Failed => Said::Failed,
        _ => Said::Nothing,
    }
}

impl Outstanding {
    fn data_said(
        &self,
        tag: u8,
        is_in: bool,
        at: RingPlace,
        residual: u32,
        completion: Completion,
    ) -> Said
        ensures { result ≡ command_data_said self.now tag is_in at residual completion }
    {
        let Some(spots) = self.spots else {
            return Said::Nothing;
        };
        if is_way(self.sent.way, is_in)
            && spots.data_third == at.segment
            && self.data_state.is_pending()
        {
            self.pending_said(tag, at, residual, completion)
        } else {
            Said::Nothing
        }
    }

    /// A TD that was stopped goes on behind the next doorbell, or is taken off.
    fn pending_said(&self, tag: u8, at: RingPlace, residual: u32, completion: Completion) -> Said
        ensures { result ≡ pending_said self.now tag at residual completion }
    {
        let pieces = self.pieces.as_slice();
        let number = usize::from(at.place);
        match stopped_at(pieces, number, residual, completion) {
            Some(count) => Said::Stopped { tag, count },
            None => said_of(tag, data_end(pieces, number, residual, completion)),
        }
    }

    fn status_said(&self, tag: u8, at: RingPlace, residual: u32, completion: Completion) -> Said
        ensures { result ≡ command_status_said self.now tag at residual completion }
    {
        let Some(spots) = self.spots else {
            return Said::Nothing;
        };
        if spots.status_third == at.segment && at.place == 0 && self.status.is_none() {
            status_count(tag, residual, completion)
        } else {
            Said::Nothing
        }
    }
}

impl Entry {
    pub(crate) fn data_said(
        &self,
        tag: u8,
        is_in: bool,
        at: RingPlace,
        residual: u32,
        completion: Completion,
    ) -> Said
        ensures { result ≡ data_said self.now tag is_in at residual completion }
    {
        match self {
            Entry::Outstanding(command) => command.data_said(tag, is_in, at, residual, completion),
            Entry::Free | Entry::Replied(_) => Said::Nothing,
        }
    }

    pub(crate) fn status_said(
        &self,
        tag: u8,
        at: RingPlace,
        residual: u32,
        completion: Completion,
    ) -> Said
        ensures { result ≡ status_said self.now tag at residual completion }
    {
        match self {
            Entry::Outstanding(command) => command.status_said(tag, at, residual, completion),
            Entry::Free | Entry::Replied(_) => Said::Nothing,
        }
    }
}

impl OwnTask {
    fn said(&self, at: RingPlace, residual: u32, completion: Completion) -> Said
        ensures { result ≡ own_said self.now at residual completion }
    {
        if self.spots.status_third == at.segment && at.place == 0 {
            status_count(self.tag, residual, completion)
        } else {
            Said::Nothing
        }
    }
}

impl Tags {
    /// What an event says.
    pub(crate) fn event_said(&self, own: &Option<OwnTask>, layout: &Layout, event: Event) -> Said
        ensures { result ≡ event_said event self.now own.now layout.now }
    {
        match event {
            Event::Transfer {
                trb,
                residual,
                code,
                endpoint,
                ..
            } if endpoint != CONTROL_ENDPOINT => {
                let completion = Completion::of_transfer(code, residual);
                self.said(own, found_in(layout, trb), trb, residual, completion)
            }
            Event::Port { port } => Said::Port(port),
            _ => Said::Nothing,
        }
    }

    /// A TD that failed may be named by no TRB.
    fn said(
        &self,
        own: &Option<OwnTask>,
        at: Option<RingPlace>,
        trb: u64,
        residual: u32,
        completion: Completion,
    ) -> Said
        ensures { result ≡ said_by at self.now own.now trb residual completion }
    {
        match at {
            Some(at) => self.said_at(own, at, residual, completion),
            None => failed_if(trb == 0 && completion.is_failure()),
        }
    }

    fn said_at(
        &self,
        own: &Option<OwnTask>,
        at: RingPlace,
        residual: u32,
        completion: Completion,
    ) -> Said
        ensures { result ≡ said_at at.ring self.now own.now at residual completion }
    {
        match at.ring {
            Ring::Status(tag) => self.status_said_on(own, tag, at, residual, completion),
            Ring::DataIn(tag) => self.data_said(tag, true, at, residual, completion),
            Ring::DataOut(tag) => self.data_said(tag, false, at, residual, completion),
            Ring::CommandPipe => failed_if(completion.is_failure()),
            Ring::Command | Ring::Control => Said::Nothing,
        }
    }

    fn status_said_on(
        &self,
        own: &Option<OwnTask>,
        tag: u8,
        at: RingPlace,
        residual: u32,
        completion: Completion,
    ) -> Said
        ensures { result ≡ status_said_on own.now self.now tag at residual completion }
    {
        match own {
            Some(own) if own.tag == tag => own.said(at, residual, completion),
            _ => self.status_said(tag, at, residual, completion),
        }
    }

    /// What a status unit says of a tag's command where all its bytes came; None of another unit.
    pub(crate) fn unit_outcome(&self, tag: u8, bytes: &[u8]) -> Option<Outcome>
        ensures { result ≡ unit_outcome bytes.now tag (wanted_at (entry_at self.now tag)) }
    {
        unit_outcome_of(read_status(bytes), tag, self.wanted(tag))
    }
}

fn unit_outcome_of(unit: Option<StatusUnit>, tag: u8, wanted: u32) -> Option<Outcome>
    ensures { result ≡ unit_outcome_of unit tag wanted }
{
    let Some(unit) = unit else {
        return None;
    };
    if unit.tag == u16::from(tag) {
        outcome_of(unit.kind, wanted, wanted)
    } else {
        None
    }
}
