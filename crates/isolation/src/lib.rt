//! Isolation: each client's part of the shared machine is a disk that it had alone.
//!
//! A client's own labels are the marks of its steps, completed with what it handed in. The headline (`IsIsolated` in
//! specs/Isolation.antt) says that the solo machine takes exactly these, with the client's own replies, to the client's own part.
//! It holds of every state, so it asks no invariant, and knows nothing of rings.
#![tactic(auto)]

mod headline_laws;
mod laws;

pub use headline_laws::{
    opens_as_solo, refuses_as_own, replays_as_solo, settles_once, steps_isolated,
};
pub use laws::{isolated, worlds_agree};
