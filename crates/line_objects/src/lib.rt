//! Lines of the program as JSON objects, for another program.
//!
//! [`objects`] gives a text with an object for each of its lines. Which fields an object has stands in rows by the words of a line
//! (specs/Lines.antt), and how they are written in specs/Objects.antt. [`Objects`] is a sink that writes so to another, or as it is. The
//! objects are printable ASCII, whatever bytes a line has ([`objects_are_plain`]). What `decode` says of a line is told apart from it by the
//! last mark, which is the right one ([`marks_are_found`]).
//!
//! When lines are told so is [`form_of`], of the words of the command line (specs/Asked.antt).
//!
//! It stands on the numbers of a text; it knows no run and no log.
#![tactic(auto)]

mod asked;
mod decoded;
mod fields;
mod laws;
mod lines;
mod rows;
mod sink;
mod telling;
mod values;

pub use asked::form_of;
pub use laws::{marks_are_found, objects_are_plain};
pub use sink::Objects;
pub use telling::objects;

/// What kind of lines a text has.
#[derive(Clone, Copy, Debug, PartialEq, Eq)]
pub enum Form {
    /// Of `replay` and `trace`.
    Run,
    /// Of `decode`.
    Decode,
    /// Of `audit`.
    Audit,
    /// Of `info`.
    Info,
}
