//! The units that a log begins with, as units.
ghost use Rattle.std.specs.Prelude.{◌≡◌, All, IfOk, map};
ghost use Rattle.std.specs.List.{AllByRecursion};
ghost use Rattle.log_text.specs.Text.{UnitFits};
ghost use Rattle.uas_log.specs.Booking.{first_maps};
ghost use Rattle.uas_work.specs.Booked.{IsNew};

use block_unit::Unit;
use std::alloc::{AllocError, Global};
use uas_log::FirstUnit;

/// The units that a log begins with. Asks that each is within the limits of a text.
pub(crate) fn made_units(alloc: Global, firsts: &[FirstUnit]) -> Result<Vec<Unit>, AllocError>
    requires { AllByRecursion UnitFits firsts.now }
    ensures units { IfOk result (λ units. units.items ≡ map first_maps firsts.now) }
    ensures fresh { IfOk result (λ units. All IsNew units.items) }
{
    let mut units = Vec::with_capacity(alloc, firsts.len())?;
    for first in firsts {
        units.push(made_unit(alloc, first)?)?;
    }
    Ok(units)
}

/// A unit that a log begins with. Asks that it is within the limits of a text, so that nothing but memory can be wanting.
fn made_unit(alloc: Global, first: &FirstUnit) -> Result<Unit, AllocError>
    requires { UnitFits first.now }
    ensures { IfOk result (λ unit. unit ≡ first_maps first.now) }
{
    let bad = Vec::from_slice(alloc, first.bad.as_slice())?;
    match Unit::from_image(alloc, first.blocks.as_slice(), bad) {
        Ok(unit) => Ok(unit),
        Err(_) => Err(AllocError),
    }
}
