//! What came of the texts.

use kept_log::KeptFault;
use log_text::LogFault;
use std::fmt;

/// What came of one text.
#[derive(Clone, Copy, Debug, PartialEq, Eq)]
pub enum Outcome {
    /// It is a log's, and the log's text is the same again.
    Loaded,
    /// It was loaded, and the log has another text.
    Otherwise,
    Refused(LogFault),
    /// A beginning of a log that was kept.
    Beginning,
    /// The same, with a record that was cut off.
    Torn,
    RefusedKept(KeptFault),
}

/// How many texts came to what.
#[derive(Clone, Copy, Debug, Default, PartialEq, Eq)]
pub struct Tally {
    pub loaded: u64,
    pub otherwise: u64,
    pub bad_header: u64,
    pub truncated: u64,
    pub bad_field: u64,
    pub trailing_bytes: u64,
    pub no_memory: u64,
    pub beginnings: u64,
    pub torn: u64,
    pub head_sum: u64,
    pub wrong_record: u64,
    pub bad_body: u64,
    pub wrong_count: u64,
    pub behind_end: u64,
}

impl Tally {
    /// Counts one.
    pub fn count(&mut self, outcome: Outcome) {
        let place = match outcome {
            Outcome::Loaded => &mut self.loaded,
            Outcome::Otherwise => &mut self.otherwise,
            Outcome::Beginning => &mut self.beginnings,
            Outcome::Torn => &mut self.torn,
            Outcome::Refused(fault) | Outcome::RefusedKept(KeptFault::Head(fault)) => {
                self.of_fault(fault)
            }
            Outcome::RefusedKept(KeptFault::HeadSum) => &mut self.head_sum,
            Outcome::RefusedKept(KeptFault::WrongRecord(_)) => &mut self.wrong_record,
            Outcome::RefusedKept(KeptFault::BadBody(_)) => &mut self.bad_body,
            Outcome::RefusedKept(KeptFault::TooMany(_) | KeptFault::WrongCount(_)) => {
                &mut self.wrong_count
            }
            Outcome::RefusedKept(KeptFault::BehindEnd(_)) => &mut self.behind_end,
            Outcome::RefusedKept(KeptFault::NoMemory) => &mut self.no_memory,
        };
        *place = place.wrapping_add(1);
    }

    /// Where a fault of the fields is counted.
    fn of_fault(&mut self, fault: LogFault) -> &mut u64 {
        match fault {
            LogFault::BadHeader => &mut self.bad_header,
            LogFault::Truncated => &mut self.truncated,
            LogFault::BadField => &mut self.bad_field,
            LogFault::TrailingBytes => &mut self.trailing_bytes,
            LogFault::NoMemory => &mut self.no_memory,
        }
    }
}

impl fmt::Display for Tally {
    fn fmt<W: fmt::Write>(&self, out: &mut fmt::Formatter<W>) -> Result<(), fmt::Error> {
        writeln!(out, "loaded {}", self.loaded)?;
        writeln!(out, "otherwise {}", self.otherwise)?;
        writeln!(out, "BadHeader {}", self.bad_header)?;
        writeln!(out, "Truncated {}", self.truncated)?;
        writeln!(out, "BadField {}", self.bad_field)?;
        writeln!(out, "TrailingBytes {}", self.trailing_bytes)?;
        writeln!(out, "NoMemory {}", self.no_memory)?;
        writeln!(out, "beginnings {}", self.beginnings)?;
        writeln!(out, "torn {}", self.torn)?;
        writeln!(out, "HeadSum {}", self.head_sum)?;
        writeln!(out, "WrongRecord {}", self.wrong_record)?;
        writeln!(out, "BadBody {}", self.bad_body)?;
        writeln!(out, "WrongCount {}", self.wrong_count)?;
        writeln!(out, "BehindEnd {}", self.behind_end)
    }
}
