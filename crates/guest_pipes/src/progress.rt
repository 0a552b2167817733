//! What the standard calls opaque of a ring's consumer (xHCI 1.2, 4.6.9).
ghost use Rattle.std.specs.Prelude.{◌≡◌, ◌+◌, ◌<◌, ◌≤◌, ◌^◌};
ghost use Rattle.guest_pipes.specs.Progress.{code_of, counted, fresh, owes, past, restarted, runs, settled, short_ending};

/// How the TD in front goes on.
#[derive(Clone, Copy, Debug, PartialEq, Eq)]
pub enum Ending {
    /// Its bytes move.
    Runs,
    /// Its rest is skipped, and an event has told of it with this code.
    Told { code: u8 },
    /// Its rest is skipped, and its last TRB tells of the short packet.
    Owed,
}

impl Ending {
    /// The code that the TD ended with, or Success.
    pub fn code(self) -> u8
        ensures { result ≡ code_of self }
    {
        match self {
            Ending::Runs => 1,
            Ending::Told { code } => code,
            Ending::Owed => 13,
        }
    }

    /// Whether the bytes of the TD move.
    pub fn runs(self) -> bool
        ensures { result ≡ runs self }
    {
        match self {
            Ending::Runs => true,
            Ending::Told { .. } | Ending::Owed => false,
        }
    }

    /// Whether the TD's last TRB is to tell of its short packet.
    pub(crate) fn owes(self) -> bool
        ensures { result ≡ owes self }
    {
        match self {
            Ending::Runs | Ending::Told { .. } => false,
            Ending::Owed => true,
        }
    }

    /// A TD that ends as a short packet, of which an event has told or not.
    pub(crate) fn short(told: bool) -> Ending
        ensures { result ≡ short_ending told }
    {
        if told {
            Ending::Told { code: 13 }
        } else {
            Ending::Owed
        }
    }

    /// After an Event Data TRB that posts or not.
    fn settle(self, posts: bool) -> Ending
        ensures { result ≡ settled self posts }
    {
        match self {
            Ending::Runs | Ending::Told { .. } => self,
            Ending::Owed => Ending::short(posts),
        }
    }
}

/// How many bytes of the TRB in front were moved, how its TD goes on, EDTLA, whether the TD was begun, and whether bytes of it
/// moved.
#[derive(Clone, Copy, Debug, PartialEq, Eq)]
pub struct Progress {
    pub moved: u32,
    pub ending: Ending,
    pub edtla: u32,
    pub begun: bool,
    pub fed: bool,
}

impl Progress {
    /// At a TD's start.
    pub fn fresh() -> Progress
        ensures { result ≡ fresh }
    {
        Progress {
            moved: 0,
            ending: Ending::Runs,
            edtla: 0,
            begun: false,
            fed: false,
        }
    }

    /// Behind a TRB with this Chain bit.
    pub(crate) fn past(self, chain: bool) -> Progress
        ensures { result ≡ past self chain }
    {
        if chain {
            Progress {
                moved: 0,
                ending: self.ending,
                edtla: self.edtla,
                begun: true,
                fed: self.fed,
            }
        } else {
            Progress::fresh()
        }
    }

    /// So many bytes more were moved.
    pub fn count(self, count: u32) -> Progress
        requires moved { self.moved + count < 2 ^ 32 }
        requires most { count ≤ 65536 }
        ensures { result ≡ counted self count }
    {
        Progress {
            moved: self.moved + count,
            ending: self.ending,
            edtla: (self.edtla % 16_777_216 + count) % 16_777_216,
            begun: true,
            fed: true,
        }
    }

    /// An Event Data TRB was taken, and posted or not.
    pub(crate) fn restart(self, posts: bool) -> Progress
        ensures { result ≡ restarted self posts }
    {
        Progress {
            moved: self.moved,
            ending: self.ending.settle(posts),
            edtla: 0,
            begun: self.begun,
            fed: self.fed,
        }
    }
}
