//! The consumer of one ring.
use crate::progress::Progress;

/// Whether an endpoint runs (xHCI 1.2, 4.8.3).
#[derive(Clone, Copy, Debug, PartialEq, Eq)]
pub enum EndpointState {
    Disabled,
    Running,
    Halted,
    Stopped,
    Error,
}

/// The consumer of one ring: its endpoint's ID and state, whether its doorbell is rung, and what is opaque of it.
#[derive(Clone, Copy, Debug, PartialEq, Eq)]
pub struct Consumer {
    pub endpoint: u8,
    pub state: EndpointState,
    pub rung: bool,
    pub progress: Progress,
}
