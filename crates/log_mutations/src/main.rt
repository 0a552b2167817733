//! The program `log_mutations`: changes the text of a log at random places, again and again, and loads what comes of it.
//!
//! ```text
//! log_mutations [COUNT] < LOG     COUNT texts, 1,000 where none is named
//! ```
//!
//! A text that is loaded must be written again to the same bytes; of a log that was kept as it grew a changed text must not load as a whole
//! log, and a cut one must load as a beginning or be refused. It tells on standard error how many texts were loaded, how many had each fault, and
//! how many were told otherwise than they are; its exit status is 1 where there is one of these, 3 where the log can't be read, and 4
//! for want of memory. That every answer is the right one is what `load_log` promises; this shows it of the program that runs.
#![tactic(auto)]

mod kept;
mod mutations;
mod tally;

use mutations::Mutations;
use std::alloc::AllocError;
use std::env;
use std::io::{Read, Write};
use std::process::ExitCode;
use tally::Tally;

/// The longest log that is read.
const MOST_BYTES: u64 = 1 << 24;

/// How many texts are tried where no number is named.
const COUNT: u64 = 1000;

fn main(rt: HostRuntime) -> ExitCode {
    let count = match env::args(&rt) {
        Ok(mut words) => match words.nth(1) {
            Some(word) => word.parse().unwrap_or(COUNT),
            None => COUNT,
        },
        Err(_) => COUNT,
    };
    let mut text = Vec::new(rt.alloc());
    if rt.reader().take(MOST_BYTES).read_to_end(&mut text).is_err() {
        return ExitCode::from(3);
    }
    match tried(&rt, text, count) {
        Ok(tally) => {
            let _ = write!(rt.stderr(), "{tally}");
            ExitCode::from(u8::from(tally.otherwise > 0))
        }
        Err(AllocError) => ExitCode::from(4),
    }
}

/// Tries so many mutations of a text.
fn tried(rt: &HostRuntime, text: Vec<u8>, count: u64) -> Result<Tally, AllocError> {
    let mut mutations = Mutations::of(text);
    let mut tally = Tally::default();
    for _ in 0..count {
        let outcome = mutations.try_one(rt.alloc())?;
        tally.count(outcome);
    }
    Ok(tally)
}
