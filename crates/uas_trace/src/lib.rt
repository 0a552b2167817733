//! A script's run step by step: the run that `uas_replay` makes, and each step that acted with the bytes that it wrote.
//!
//! [`run_trace`] reads a script, runs it and writes each step as it is taken. The forms of the lines are specs/Traced.antt; what a step
//! wrote, read off the rings, buffers and stream contexts of the bus where it stands, is specs/Written.antt. The text of a step is
//! `step_text` (specs/Texts.antt), a function of the world of rings before it, and all that a run prints is `TracesAll`: each step
//! by its text, and behind it what the run told by it. The exit status is that of the script's own run. It stands on `uas_replay`
//! and on the memory of the bus.
#![tactic(auto)]

mod events;
mod lines;
mod put_ring;
mod show;
mod trace;
mod writes;

pub use show::run_trace;
