//! Waits for a register: it is read every few ms until something is so, or a limit is over.
ghost use Rattle.std.specs.Prelude.{◌≡◌};
ghost use Rattle.bring_up.specs.Waits.{begun, wait_access, waited};

use crate::access::{Access, later, read_at};

/// A wait, up to a time. Between two readings is a rest.
#[derive(Clone, Copy)]
pub struct Wait {
    pub limit: u64,
    pub rest: Option<u64>,
}

/// How a wait goes on.
#[derive(Clone, Copy)]
pub enum Waited {
    /// What is waited for is so.
    So,
    /// It isn't, and the limit is over.
    Late,
    On(Wait),
}

impl Wait {
    /// A wait of so many ms from now on.
    pub(crate) fn begun(now: u64, ms: u64) -> Wait
        ensures { result ≡ begun now ms }
    {
        Wait {
            limit: later(now, ms),
            rest: None,
        }
    }

    /// Its access: the rest, or the register.
    pub(crate) fn access(self, offset: u64) -> Access
        ensures { result ≡ wait_access self offset }
    {
        match self.rest {
            Some(until) => Access::Rest(until),
            None => read_at(offset),
        }
    }

    /// What comes after the rest, or after a reading that found it so or not.
    pub(crate) fn waited(self, now: u64, period: u64, so: bool) -> Waited
        ensures { result ≡ waited self now period so }
    {
        if self.rest.is_some() {
            Waited::On(Wait {
                limit: self.limit,
                rest: None,
            })
        } else if so {
            Waited::So
        } else if self.limit <= now {
            Waited::Late
        } else {
            Waited::On(Wait {
                limit: self.limit,
                rest: Some(later(now, period)),
            })
        }
    }
}
