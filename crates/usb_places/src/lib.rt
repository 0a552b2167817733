//! What a guest's USB driver has out at a UAS disk that is lent over usbredir: a transfer at each pipe and tag, and the answers that
//! may have to be told again.
//!
//! A *place* is a pipe with streams and a stream of it, 1 to 128, which is the tag; the command pipe has a place for each tag too.
//!
//! ```text
//!            hold                      end
//!   empty ---------> a transfer held ------> an answer kept <---------- keep_command, at the command pipe
//!     ^  ^                |  cancel_one           |   ^
//!     |  +----------------+                  lose |   | tell_again
//!     |                                           v   |
//!     +------------------------------------- an answer kept that is lost
//!          come, hold, forget_tag, forget_all
//! ```
//!
//! A guest that cancels a transfer too late drops its answer and sends the transfer again. So the last answer of each place is kept.
//! A cancel of a transfer that is held no more *loses* the answers under its id. A transfer that comes again, with the same id and
//! length and, of a command, the same bytes, is told a lost answer again, and the device hears nothing.
//!
//! Beside a status answer its unit is kept, beside a data-in answer its bytes. A held data-out has its bytes, of which the device has
//! used so many. A tag has 524,288 bytes for both: a data-out that comes takes the room of a kept data-in, which is forgotten, and what it
//! leaves is the room of a data-in that is held beside it.
//!
//! What is promised: [`Places`] is the list of `specs/Places.antt`, a `TagState` for each tag, and each call makes of it exactly what
//! the definition of that name says, and answers so. A place never both holds a transfer and keeps an answer: that is its form
//! ([`PlaceState`]). A tag outside 1 to 128 has nothing, and a call on it changes nothing.
//!
//! [`Places::new`] takes all memory; no later call takes any.
//!
//! It stands on `uas_profile` for the pipes and on `usbredir` for the statuses.
#![tactic(auto)]

mod calls;
mod keeping;
mod laws;
mod state;
mod tag;

pub use laws::{cancels_all, holds_or_keeps, told_once};
use std::marker::Model;
use tag::TagPlaces;
use usbredir::Status;

/// Tags of the disk: 1 to this number, and as many streams.
pub const GUEST_TAGS: u16 = 128;

/// The most bytes that a transfer moves.
pub const MOST_TRANSFER_BYTES: usize = 524_288;

/// The longest unit of the command pipe whose answer is kept.
pub const MOST_COMMAND_BYTES: usize = 64;

const _: () = prove!(
    GUEST_TAGS == 128 && MOST_TRANSFER_BYTES == 1024 * 512 && MOST_COMMAND_BYTES == 64
);

/// What a bulk packet asks: its id, and how many bytes it brings or has room for.
#[derive(Clone, Copy, Debug, PartialEq, Eq)]
pub struct Transfer {
    pub id: u64,
    pub length: u32,
}

/// The last answer of a place: to which transfer, and how many bytes moved. It is lost once the guest may have dropped it.
#[derive(Clone, Copy, Debug, PartialEq, Eq)]
pub struct Kept {
    pub transfer: Transfer,
    pub status: Status,
    pub moved: u32,
    pub lost: bool,
}

/// What a place has.
#[derive(Clone, Copy, Debug, PartialEq, Eq)]
pub enum PlaceState {
    Empty,
    /// A transfer that isn't answered yet.
    Holds(Transfer),
    /// The last answer.
    Keeps(Kept),
}

/// The places of all tags.
#[derive(Debug, Drop)]
pub struct Places {
    tags: Vec<TagPlaces>,
}

impl Model for Places {
    ghost use Rattle.std.specs.Prelude.{◌≡◌, List, length};
    ghost use Rattle.usb_places.specs.States.{TagState};
    ghost use Rattle.usb_places.specs.declared.TheConstants.{GUEST_TAGS};

    ghost Value = { List TagState };

    ghost view = { λ places. places.tags.items };

    ghost invariant = { λ places. length places.tags.items ≡ GUEST_TAGS };
}
