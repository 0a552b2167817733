//! What a log keeps of an outcome.
ghost use Rattle.std.specs.Prelude.{◌≡◌};
ghost use Rattle.uas_log.specs.Booking.{refusal_of};

use shared_machine::Outcome;

/// The number of its refusal, 0 where it has none.
pub fn refusal_number(outcome: &Outcome) -> u8
    ensures { result ≡ refusal_of outcome.now }
{
    match &outcome.refused {
        Some(refusal) => refusal.fault.number(),
        None => 0,
    }
}
