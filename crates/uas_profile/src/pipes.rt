//! The pipes of a UAS interface, and their doorbells.
ghost use Rattle.std.specs.Prelude.{◌≡◌, ◌+◌, ◌*◌, ◌^◌, ◌≤◌};
ghost use Rattle.uas_profile.specs.Pipes.{number_of, target_of};

use crate::{COMMAND_ENDPOINT, DATA_IN_ENDPOINT, DATA_OUT_ENDPOINT, Pipe, STATUS_ENDPOINT};

impl Pipe {
    /// The pipe's number, 1 to 4.
    pub fn number(self) -> u8
        ensures { result ≡ number_of self }
    {
        match self {
            Pipe::Command => 1,
            Pipe::Status => 2,
            Pipe::DataIn => 3,
            Pipe::DataOut => 4,
        }
    }

    /// The pipe's doorbell target, which is its endpoint's number too (xHCI 5.6).
    pub fn target(self) -> u8
        ensures target { result ≡ target_of self }
        ensures bits { result ≤ DATA_IN_ENDPOINT }
    {
        match self {
            Pipe::Command => COMMAND_ENDPOINT,
            Pipe::Status => STATUS_ENDPOINT,
            Pipe::DataOut => DATA_OUT_ENDPOINT,
            Pipe::DataIn => DATA_IN_ENDPOINT,
        }
    }
}

/// The doorbell value of an endpoint's target and a stream (5.6): target 7:0, stream 31:16.
pub fn doorbell(target: u8, stream: u16) -> u32
    ensures { result ≡ target + 2 ^ 16 * stream }
{
    u32::from(target) + (u32::from(stream) << 16)
}
