//! A trace as a page: one HTML file that shows the run step by step, and needs nothing else.
//!
//! A trace is the text that `uas_trace` writes. [`page`] puts it into a page with what each line's bytes say (`uas_decode`), as a string of
//! JSON between a head and a tail that are the same in every page: the style and the elements, and a script that reads the string and draws
//! what is looked at. What the page holds is specs/page/Page.antt, how a text stands inside the string specs/page/Embedded.antt; that the
//! script's reader gets every byte back, and that none of them can end the string or its element, are laws ([`embedded_reads_back`],
//! [`embedded_stays_inside`]).
//!
//! It stands on the words of a line; it knows no bus.

mod embedding;
mod laws;
mod markup;
mod pages;
mod script_run;
mod script_view;

pub use laws::{embedded_reads_back, embedded_stays_inside};
pub use pages::page;
