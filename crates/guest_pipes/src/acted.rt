//! What a step did.

/// What a step did.
#[derive(Clone, Copy, Debug, PartialEq, Eq)]
pub enum Acted {
    /// Nothing: the endpoint doesn't run.
    Off,
    /// Nothing: no doorbell is rung.
    Idle,
    /// Nothing: the event ring has fewer than two free places.
    Full,
    /// No TRB is there yet, and the doorbell is used up by that.
    Emptied,
    /// Nothing: the device has or takes nothing yet.
    Waits,
    /// What the TRB asks for, or a chunk.
    Worked,
}
