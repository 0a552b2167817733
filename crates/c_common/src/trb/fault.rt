//! Why a record of C's names nothing.
ghost use Rattle.std.specs.Prelude.{◌≡◌};
ghost use Rattle.c_common.specs.trb.RecordFault.{record_fault};

/// Why a record names nothing that can be written.
#[derive(Clone, Copy)]
pub enum RecordFault {
    /// No such type, identifier or opcode.
    Unknown,
    /// A field doesn't fit.
    Unfit,
}

impl RecordFault {
    /// Its number, of the two that a kind of record has.
    pub fn number(&self, unknown: u8, unfit: u8) -> u8
        ensures { result ≡ record_fault unknown unfit self.now }
    {
        match self {
            RecordFault::Unknown => unknown,
            RecordFault::Unfit => unfit,
        }
    }
}
