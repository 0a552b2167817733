//! A bus and its log as they begin.
ghost use Rattle.std.specs.Prelude.{◌≡◌, ℕ, ◌*◌, ◌<◌, ◌≤◌, ◌^◌, All, IfOk, length, map, vec_len};
ghost use Rattle.uas_profile.specs.declared.TheConstants.{MAX_CLIENTS, STREAMS, TAGS, USUAL_CLIENTS};
ghost use Rattle.uas_profile.specs.Tags.{AreTags};
ghost use Rattle.uas_log.specs.Booking.{empty_log, first_maps};
ghost use Rattle.uas_work.specs.Booked.{IsNew, first_unit, new_booked};

use crate::Booked;
use crate::spares::Spares;
use block_unit::Unit;
use bus_core::Bus;
use std::alloc::{AllocError, Global};
use uas_log::{
    BlockBytes, BlockNumbers, FirstUnit, FirstUnits, Log, RefusalNumbers, Replies, Steps,
};
use uas_profile::{MAX_CLIENTS, TAGS};

/// The most steps for which a new log has room at once: it isn't copied while it grows to them.
const MOST_ROOM: usize = 1 << 18;

/// No fewer steps come to a reply: it is submitted, received, sent, seen and taken.
const STEPS_OF_REPLY: usize = 5;

impl Booked {
    /// The bus of these units, the unit of client c at place c, with 16 tags of each client (`TAGS`), whose log may hold `limit` steps.
    /// Asks for 1 to 15 units that are as new: the blocks of each are its medium's, and no attention is established. `AllocError` where
    /// there is no memory.
    pub fn new(alloc: Global, units: Vec<Unit>, limit: usize) -> Result<Booked, AllocError>
        requires some { 1 ≤ vec_len units }
        requires most { vec_len units ≤ USUAL_CLIENTS }
        requires fresh { All IsNew units.items }
        requires limit { limit < 2 ^ 32 }
        ensures { IfOk result (λ booked. booked ≡ new_booked TAGS units.items limit) }
    {
        Booked::with_tags(alloc, units, limit, TAGS)
    }

    /// The same of 1 to 31 units with another number of tags of each client, 2 to 16; of all clients there are 248 (`STREAMS`) at most.
    pub fn with_tags(
        alloc: Global,
        units: Vec<Unit>,
        limit: usize,
        tags: usize,
    ) -> Result<Booked, AllocError>
        requires number { AreTags tags }
        requires some { 1 ≤ vec_len units }
        requires most { vec_len units ≤ MAX_CLIENTS }
        requires streams { vec_len units * tags ≤ STREAMS }
        requires fresh { All IsNew units.items }
        requires limit { limit < 2 ^ 32 }
        ensures { IfOk result (λ booked. booked ≡ new_booked tags units.items limit) }
    {
        let spares = Spares::new(alloc)?;
        let firsts = first_units(alloc, units.as_slice())?;
        let bus = Bus::with_tags(alloc, units, tags)?;
        let log = new_log(alloc, firsts, tags, limit)?;
        Ok(Booked {
            bus,
            log,
            limit,
            turns: [0; MAX_CLIENTS],
            spares,
        })
    }
}

/// The log of these first units and so many tags of each client that has no step, with room for the steps that it may hold, or for as many
/// as are told beforehand.
fn new_log(
    alloc: Global,
    units: Vec<FirstUnit>,
    tags: usize,
    limit: usize,
) -> Result<Log, AllocError>
    ensures { IfOk result (λ log. log ≡ empty_log tags units.items) }
{
    let room = limit.min(MOST_ROOM);
    let steps = Vec::with_capacity(alloc, room)?;
    let refusals = Vec::with_capacity(alloc, room)?;
    let replies = Vec::with_capacity(alloc, room / STEPS_OF_REPLY)?;
    Ok(Log {
        tags,
        units: FirstUnits::from_vec(units),
        steps: Steps::from_vec(steps),
        refusals: RefusalNumbers::from_vec(refusals),
        replies: Replies::from_vec(replies),
    })
}

/// What a log keeps of each unit. Asks that they are as new.
fn first_units(alloc: Global, units: &[Unit]) -> Result<Vec<FirstUnit>, AllocError>
    requires { All IsNew units.now }
    ensures firsts { IfOk result (λ firsts. firsts.items ≡ map first_unit units.now) }
    ensures whole { IfOk result (λ firsts. map first_maps firsts.items ≡ units.now) }
{
    let mut firsts = Vec::with_capacity(alloc, units.len())?;
    for unit in units {
        firsts.push(first_unit(alloc, unit)?)?;
    }
    Ok(firsts)
}

/// What a log keeps of a unit. Asks that it is as new.
fn first_unit(alloc: Global, unit: &Unit) -> Result<FirstUnit, AllocError>
    requires { IsNew unit.now }
    ensures first { IfOk result (λ first. first ≡ first_unit unit.now) }
    ensures whole { IfOk result (λ first. first_maps first ≡ unit.now) }
{
    let blocks = Vec::from_slice(alloc, unit.contents())?;
    let bad = Vec::from_slice(alloc, unit.bad())?;
    prove!(unit.blocks() > 0);
    Ok(FirstUnit {
        blocks: BlockBytes::from_vec(blocks),
        bad: BlockNumbers::from_vec(bad),
    })
}
