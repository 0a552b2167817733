//! A text that is changed at random places, and put back.

use crate::kept::{is_kept, kept};
use crate::tally::Outcome;
use log_text::load_log;
use std::alloc::{AllocError, Global};

/// A log's text, and where in their sequence the random numbers are.
#[derive(Debug, Drop)]
pub struct Mutations {
    text: Vec<u8>,
    is_kept: bool,
    state: u64,
}

impl Mutations {
    /// Those of a text.
    pub fn of(text: Vec<u8>) -> Mutations {
        let is_kept = is_kept(text.as_slice());
        Mutations {
            text,
            is_kept,
            state: 0x9e37_79b9_7f4a_7c15,
        }
    }

    /// The next random number (xorshift, Marsaglia 2003).
    fn next(&mut self) -> u64 {
        let mut state = self.state;
        state ^= state << 13;
        state ^= state >> 7;
        state ^= state << 17;
        self.state = state;
        state
    }

    /// Changes the byte at a place: what it was.
    fn exchange(&mut self, place: usize, how: u64) -> u8 {
        match self.text.as_mut_slice().get_mut(place) {
            Some(byte) => {
                let before = *byte;
                *byte = changed(before, how);
                before
            }
            None => 0,
        }
    }

    /// Changes one byte, or cuts the text off at a place, loads it, and puts it back.
    pub fn try_one(&mut self, alloc: Global) -> Result<Outcome, AllocError> {
        let len = self.text.len();
        if len == 0 {
            return self.come(alloc, self.text.as_slice(), false, false);
        }
        let place = (self.next() % len as u64) as usize;
        let how = self.next();
        if how % 16 == 0 {
            return match self.text.get(..place) {
                Some(front) => self.come(alloc, front, false, true),
                None => self.come(alloc, self.text.as_slice(), false, false),
            };
        }
        let before = self.exchange(place, how);
        let is_changed = self.text.get(place) != Some(&before);
        let outcome = self.come(alloc, self.text.as_slice(), is_changed, false);
        if let Some(byte) = self.text.as_mut_slice().get_mut(place) {
            *byte = before;
        }
        outcome
    }

    /// What comes of a text, by the version that the log's text had.
    fn come(
        &self,
        alloc: Global,
        text: &[u8],
        is_changed: bool,
        is_cut: bool,
    ) -> Result<Outcome, AllocError> {
        if self.is_kept {
            kept(alloc, text, is_changed, is_cut)
        } else {
            loaded(alloc, text)
        }
    }
}

/// Another byte, near or far.
fn changed(byte: u8, how: u64) -> u8 {
    match how % 4 {
        0 => byte.wrapping_add(1),
        1 => byte.wrapping_sub(1),
        2 => byte ^ (1 << (how >> 8) % 8),
        _ => (how >> 8 & 0xff) as u8,
    }
}

/// What comes of a text.
fn loaded(alloc: Global, text: &[u8]) -> Result<Outcome, AllocError> {
    match load_log(alloc, text) {
        Ok(log) => {
            let mut again = Vec::with_capacity(alloc, text.len())?;
            if log.save(&mut again).is_err() {
                return Err(AllocError);
            }
            if again.as_slice() == text {
                Ok(Outcome::Loaded)
            } else {
                Ok(Outcome::Otherwise)
            }
        }
        Err(fault) => Ok(Outcome::Refused(fault)),
    }
}
