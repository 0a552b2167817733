//! One command alone: on a bus of one client, from its submission to its reply.

ghost use Rattle.std.specs.Prelude.{◌≡◌, IfOk, OnOk, IfSome, IfErr, IsTrue};
ghost use Rattle.disk_image.specs.Alone.{answered, medium_of};
ghost use Rattle.disk_image.specs.Images.{blocks_in};
ghost use Rattle.disk_image.specs.Stops.{HoldsImage, UnitGivesUp};

use crate::image::{blocks_in, read_image};
use block_unit::Unit;
use bus_core::{Bus, Outcome, Step};
use byte_io::Source;
use scsi_cmd::Reply;
use std::alloc::{AllocError, Global};
use uas_replay::{DRAIN_LIMIT, RunFault, command_of};
use uas_script::Request;

/// The client's first tag.
const FIRST_TAG: u16 = 1;

/// The client's first ticket.
const FIRST_TICKET: u64 = 0;

/// What a command came to: the bus after it, and its reply, where one came.
#[derive(Drop)]
pub struct Ended {
    pub bus: Bus,
    pub reply: Option<Reply>,
}

/// Reads an image, and makes the unit of it.
pub fn read_unit<S: Source>(alloc: Global, source: &mut S) -> Result<Unit, RunFault>
    ensures unit { IfOk result (λ unit. IfSome (S.left source.old) (λ bytes. HoldsImage (blocks_in bytes) bytes unit)) }
    ensures there { OnOk result (IsTrue (S.is_there source.old)) }
    ensures fault { IfErr result (UnitGivesUp (S.left source.old) (S.is_there source.old) (S.can_fail source.old)) }
{
    let bytes = read_image(alloc, source)?;
    let _ = blocks_in(&bytes).map_err(RunFault::Image)?;
    // its form is tested, so that nothing but memory can be wanting
    Unit::from_image(alloc, &bytes, Vec::new(alloc)).map_err(|_| RunFault::NoMemory)
}

/// Submits a request as the only client of a bus of this unit, drains the bus, and takes the reply.
#[tactic(auto, unfolding(crate::specs::Alone::answered, uas_replay::specs::Told::step_of, uas_replay::specs::Told::drained_machine))]
pub fn answered(alloc: Global, unit: Unit, request: Request) -> Result<Ended, AllocError>
    ensures bus { IfOk result (λ given. given.bus ≡ (answered unit request).0) }
    ensures reply { IfOk result (λ given. given.reply ≡ (answered unit request).1.reply) }
{
    let mut bus = Bus::new(alloc, vec![in alloc; unit]?)?;
    let command = command_of(alloc, request)?;
    let _ = bus.step(Step::Submit {
        client: 0,
        tag: FIRST_TAG,
        ticket: FIRST_TICKET,
        command,
    });
    let _ = bus.drain(DRAIN_LIMIT);
    let Outcome { reply, .. } = bus.step(Step::Take(0));
    Ok(Ended { bus, reply })
}

/// The medium of a bus's first unit.
pub fn medium_of(bus: &Bus) -> &[u8]
    ensures { result.now ≡ medium_of bus.now }
{
    // a bus has a client
    let _ = bus.clients();
    bus.unit(0).medium()
}
