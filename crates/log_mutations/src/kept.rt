//! What comes of the text of a log that was kept as it grew, changed or cut off.

use crate::tally::Outcome;
use kept_log::{KeptFault, load};
use std::alloc::{AllocError, Global};

/// Where the version stands in a log's text, and the version of a log that was kept.
const VERSION_PLACE: usize = 7;

const KEPT_VERSION: u8 = 3;

/// Whether it is the text of a log that was kept.
pub fn is_kept(text: &[u8]) -> bool {
    text.get(VERSION_PLACE) == Some(&KEPT_VERSION)
}

/// What comes of a text. One that was changed, and whose log ends, wasn't met; a beginning comes of a cut alone.
pub fn kept(
    alloc: Global,
    text: &[u8],
    is_changed: bool,
    is_cut: bool,
) -> Result<Outcome, AllocError> {
    let loaded = match load(alloc, text) {
        Ok(loaded) => loaded,
        Err(KeptFault::NoMemory) => return Err(AllocError),
        Err(fault) => return Ok(Outcome::RefusedKept(fault)),
    };
    if loaded.torn.is_some() {
        return Ok(Outcome::Torn);
    }
    let is_ended = loaded.log.ending().is_some();
    Ok(match (is_ended, is_changed, is_cut) {
        (true, false, false) => Outcome::Loaded,
        (false, _, true) => Outcome::Beginning,
        (_, _, _) => Outcome::Otherwise,
    })
}
