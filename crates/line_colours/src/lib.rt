//! Lines of a trace in colours, for a terminal.
//!
//! [`coloured`] gives a text with the escapes of a terminal around those of its lines that have a colour, by their first word: a step is
//! bold, and what it wrote has a colour for each kind. What a line is shown as is specs/Colours.antt. Without its escapes the text is the
//! one that was given, as a law ([`colours_leave_the_text`]). [`Painted`] is a sink that writes so to another, or as it is.
//!
//! When they are is [`are_coloured`], of the words of the command line and whether the output is a terminal (specs/When.antt) that
//! takes colours ([`takes_colours`]).
//!
//! It stands on the words of a line; it knows no trace.
#![tactic(auto)]

mod colouring;
mod laws;
mod painted;
mod when;

pub use colouring::coloured;
pub use laws::colours_leave_the_text;
pub use painted::Painted;
pub use when::{are_coloured, takes_colours};

/// The colour of a line.
#[derive(Clone, Copy, Debug, PartialEq, Eq)]
pub enum Colour {
    /// The colour of the terminal's text, bold.
    Bold,
    Green,
    Yellow,
    Blue,
    Magenta,
    Cyan,
}
