//! How many submissions of each client a log has.
ghost use Rattle.std.specs.Prelude.{◌≡◌, ℕ, ◌<◌, ◌^◌, slice_index};
ghost use Rattle.uas_profile.specs.declared.TheConstants.{MAX_CLIENTS};
ghost use Rattle.uas_work.specs.Booked.{with_turn, with_turn_of};

use bus_core::Step;
use uas_profile::MAX_CLIENTS;

/// Counts a step where it is a submission of a client that a bus can have. Asks that no count is near its end.
pub(crate) fn count_turn(turns: &mut [u64; MAX_CLIENTS], step: &Step)
    requires { (client : ℕ) → client < MAX_CLIENTS → slice_index turns.old client < 2 ^ 32 }
    ensures { turns.new ≡ with_turn turns.old step.now }
{
    match step {
        Step::Submit { client, .. } | Step::Task { client, .. } => count_one(turns, *client),
        Step::CommandPipe
        | Step::Data(_)
        | Step::Status(_)
        | Step::Engine
        | Step::Event
        | Step::Retire(_, _)
        | Step::Take(_) => {}
    }
}

fn count_one(turns: &mut [u64; MAX_CLIENTS], client: usize)
    requires { (client : ℕ) → client < MAX_CLIENTS → slice_index turns.old client < 2 ^ 32 }
    ensures { turns.new ≡ with_turn_of turns.old client }
{
    if client < MAX_CLIENTS {
        turns[client] += 1;
    }
}
