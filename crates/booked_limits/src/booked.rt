//! The law of a bus with its log.
ghost use Rattle.std.specs.Prelude.{◌≡◌};
ghost use Rattle.uas_profile.specs.declared.TheConstants.{TAGS};
ghost use Rattle.log_text.specs.Kept.{FitsText, IsSavable};
ghost use Rattle.booked_limits.specs.Fitting.{AreUnits, IsUnit};

use crate::fields::have_fields;
use block_unit::Unit;
use bus_core::Bus;
use uas_work::Booked;

/// Its log fits a text, and with 16 tags of each client it can be saved. Nothing is written, and nothing but the numbers that the law is
/// about is read.
pub fn booked_logs_fit(booked: &Booked)
    ensures fits { FitsText booked.now.log }
    ensures savable { booked.now.log.tags ≡ TAGS → IsSavable booked.now.log }
{
    let log = booked.log();
    have_fields(log.steps.as_slice());
    let bus = booked.bus();
    are_units(bus);
}

/// The unit of each client has 1 to 65,536 whole blocks.
fn are_units(bus: &Bus)
    ensures { AreUnits bus.now.parts }
{
    for client in 0..bus.clients() {
        is_unit(bus.unit(client));
    }
}

fn is_unit(unit: &Unit)
    ensures { IsUnit unit.now }
{
    unit.blocks();
    unit.bad();
}
