//! Why workers ended, as a number that threads can share; and the number of pumps.
ghost use Rattle.std.specs.Prelude.{◌≡◌, ◌⊎◌, ◌<◌};

use crate::{Booking, Ended, PumpCount};

impl PumpCount {
    /// 1, 2 or 4.
    pub fn count(self) -> usize
        ensures some { (result ≡ 1) ⊎ ((result ≡ 2) ⊎ (result ≡ 4)) }
        ensures one { self ≡ PumpCount.One → result ≡ 1 }
        ensures two { self ≡ PumpCount.Two → result ≡ 2 }
        ensures four { self ≡ PumpCount.Four → result ≡ 4 }
    {
        match self {
            PumpCount::One => 1,
            PumpCount::Two => 2,
            PumpCount::Four => 4,
        }
    }
}

impl Ended {
    pub(crate) fn code(self) -> u64 {
        match self {
            Ended::Done => 0,
            Ended::LogFull => 1,
            Ended::NoMemory => 2,
            Ended::Stopped => 3,
            Ended::NoThread => 4,
        }
    }

    pub(crate) fn from_code(code: u64) -> Ended {
        match code {
            1 => Ended::LogFull,
            2 => Ended::NoMemory,
            3 => Ended::Stopped,
            4 => Ended::NoThread,
            _ => Ended::Done,
        }
    }

    pub(crate) fn from_booking(booking: Booking) -> Ended {
        match booking {
            Booking::LogFull => Ended::LogFull,
            Booking::NoMemory => Ended::NoMemory,
        }
    }
}
