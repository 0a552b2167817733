//! The run `draw`: a script from a reader, run as `trace` runs it, and the run as a picture or as a page to a writer.
//!
//! [`run_draw`] reads a script, runs it by `uas_trace`, whose text it keeps, and writes the picture of that text ([`picture`]) or its
//! page ([`page`]) once the run is done. A fault is told as `trace` tells it, and then nothing was written.
//!
//! It stands on the run `trace`, on the words of a line, and on readers and writers.
#![tactic(auto)]

mod draw;
pub mod page;
pub mod picture;

pub use draw::run_draw;

/// In which form a run is drawn.
#[derive(Clone, Copy, Debug, PartialEq, Eq)]
pub enum Form {
    /// As a picture (SVG).
    Picture,
    /// As a page (HTML) that shows the run step by step.
    Page,
}
