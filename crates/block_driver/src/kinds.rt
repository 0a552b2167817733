//! Which tags are looked for, and the pipes on whose streams their TDs stand.
ghost use Rattle.std.specs.Prelude.{◌≡◌};
ghost use Rattle.block_driver.specs.Table.{has_moving_data, is_command, is_data_stuck, is_kind, is_moving, is_status_stuck, is_stuck, is_way};

use crate::table::{Entry, Outstanding};
use disk_ready::Way;

/// A pipe with streams.
#[derive(Clone, Copy, Debug, PartialEq, Eq)]
pub enum StreamPipe {
    DataIn,
    DataOut,
    Status,
}

/// Entries that are looked for.
#[derive(Clone, Copy, Debug, PartialEq, Eq)]
pub(crate) enum Kind {
    Free,
    /// Submitted, and not yet put.
    Waiting,
    Replied,
    /// Its TD on that pipe is to be taken off at this time.
    Stuck { pipe: StreamPipe, now: u64 },
    /// Its TD on that pipe is pending.
    Moving { pipe: StreamPipe },
    /// Its time is over.
    Late(u64),
    /// Any that has no reply yet.
    Out,
}

/// Whether a command's data go that way.
pub(crate) fn is_way(way: Way, is_in: bool) -> bool
    ensures { result ≡ is_way way is_in }
{
    match way {
        Way::Nothing => false,
        Way::In => is_in,
        Way::Out => !is_in,
    }
}

impl Outstanding {
    fn is(&self, kind: Kind) -> bool
        ensures { result ≡ is_command kind self.now }
    {
        match kind {
            Kind::Free | Kind::Replied => false,
            Kind::Waiting => self.spots.is_none(),
            Kind::Stuck { pipe, now } => self.is_stuck(pipe, now),
            Kind::Moving { pipe } => self.is_moving(pipe),
            Kind::Late(now) => self.limit <= now,
            Kind::Out => true,
        }
    }

    fn is_stuck(&self, pipe: StreamPipe, now: u64) -> bool
        ensures { result ≡ is_stuck pipe self.now now }
    {
        match pipe {
            StreamPipe::DataIn => self.is_data_stuck(now) && is_way(self.sent.way, true),
            StreamPipe::DataOut => self.is_data_stuck(now) && is_way(self.sent.way, false),
            StreamPipe::Status => self.is_status_stuck(),
        }
    }

    /// Whether its data don't come, and their time is over.
    fn is_data_stuck(&self, now: u64) -> bool
        ensures { result ≡ is_data_stuck self.now now }
    {
        self.spots.is_some() && self.data_state.is_pending() && self.limit() <= now
    }

    /// Whether the disk aborted it, and no status came.
    pub(crate) fn is_status_stuck(&self) -> bool
        ensures { result ≡ is_status_stuck self.now }
    {
        self.is_aborted && self.status.is_none()
    }

    fn is_moving(&self, pipe: StreamPipe) -> bool
        ensures { result ≡ is_moving pipe self.now }
    {
        match pipe {
            StreamPipe::DataIn => self.has_moving_data(true),
            StreamPipe::DataOut => self.has_moving_data(false),
            StreamPipe::Status => self.spots.is_some() && self.status.is_none(),
        }
    }

    fn has_moving_data(&self, is_in: bool) -> bool
        ensures { result ≡ has_moving_data self.now is_in }
    {
        self.spots.is_some() && self.data_state.is_pending() && is_way(self.sent.way, is_in)
    }
}

impl Entry {
    pub(crate) fn is(&self, kind: Kind) -> bool
        ensures { result ≡ is_kind kind self.now }
    {
        match self {
            Entry::Free => matches!(kind, Kind::Free),
            Entry::Outstanding(command) => command.is(kind),
            Entry::Replied(_) => matches!(kind, Kind::Replied),
        }
    }
}
