//! What a caller sees of a driver.
ghost use Rattle.std.specs.Prelude.{◌≡◌, ℕ};
ghost use Rattle.bring_up.specs.Lending.{WantsBytes};
ghost use Rattle.bring_up.specs.States.{addressing_row, asked_row, refusal_at, stage_state, step_state};

use crate::bring_up::{BringUp, Stage};
use crate::commands::Asked;
use crate::lend::wanted_bytes;
use crate::slots::Addressing;
use crate::step::{Ended, Row, Step};
use crate::why::Why;

/// Where a driver is.
#[derive(Clone, Copy)]
pub enum State {
    Surveying,
    /// So many bytes are to be lent.
    WantsMemory { bytes: u32 },
    BringingUp(Row),
    /// No port has a device that is used, until a port changes.
    NoDevice,
    Refused(Why),
    /// The device has its address.
    Addressed,
    /// The controller is gone.
    Gone,
    /// It can't be used until it is reset from outside; the memory is the controller's until its bus mastering is off.
    Dead,
}

impl BringUp {
    /// Where it is.
    pub fn state(&self) -> State
        ensures { (bytes : ℕ) × WantsBytes self.now.options self.now.stage bytes × (result ≡ stage_state self.now.stage bytes) }
    {
        match &self.stage {
            Stage::Surveying(_) => State::Surveying,
            Stage::Wanting(controller) => State::WantsMemory {
                bytes: wanted_bytes(&self.options, controller),
            },
            Stage::Taken(taken) => step_state(taken.step),
            Stage::Refused(why) => State::Refused(*why),
            Stage::Gone => State::Gone,
        }
    }

    /// Why the device at a port isn't used; None where it is, or there is none.
    pub fn refusal(&self, port: u8) -> Option<Why>
        ensures { result ≡ refusal_at self.now.stage port }
    {
        match &self.stage {
            Stage::Taken(taken) => taken.port_state(port).refused,
            _ => None,
        }
    }
}

fn step_state(step: Step) -> State
    ensures { result ≡ step_state step }
{
    match step {
        Step::Handoff(_) => State::BringingUp(Row::Handoff),
        Step::Halt(_) => State::BringingUp(Row::Halt),
        Step::Reset(_) => State::BringingUp(Row::Reset),
        Step::Program(_) => State::BringingUp(Row::Program),
        Step::Run(_) => State::BringingUp(Row::Run),
        Step::Ports(_) => State::BringingUp(Row::Ports),
        Step::PortReset(_) => State::BringingUp(Row::PortReset),
        Step::Addressing(at) => State::BringingUp(addressing_row(at)),
        Step::Command { asked, .. } => State::BringingUp(asked_row(asked)),
        Step::Serve { asked, .. } => State::BringingUp(asked_row(asked)),
        Step::Watch(_) => State::NoDevice,
        Step::Ended(Ended::Addressed) => State::Addressed,
        Step::Ended(Ended::Refused(why)) => State::Refused(why),
        Step::Ended(Ended::Dead) => State::Dead,
    }
}

fn addressing_row(at: Addressing) -> Row
    ensures { result ≡ addressing_row at }
{
    match at {
        Addressing::ControlRing
        | Addressing::InputContext
        | Addressing::DeviceContext
        | Addressing::Entry => Row::EnableSlot,
        Addressing::Flags | Addressing::Slot | Addressing::Endpoint | Addressing::Settle(_) =>
            Row::AddressDevice,
    }
}

fn asked_row(asked: Asked) -> Row
    ensures { result ≡ asked_row asked }
{
    match asked {
        Asked::EnableSlot => Row::EnableSlot,
        Asked::AddressDevice => Row::AddressDevice,
        Asked::ResetPort | Asked::Forget | Asked::Refuse(_) => Row::DisableSlot,
    }
}
