//! The limits of a whole log.
ghost use Rattle.std.specs.Prelude.{◌≡◌, ◌≤◌, ◌<◌, ◌^◌, ◌↔◌, All, IsTrue, length, map};
ghost use Rattle.std.specs.List.{AllByRecursion};
ghost use Rattle.log_text.specs.Kept.{IsSavable, kept, with_client};
ghost use Rattle.log_text.specs.Text.{ReplyFits, StepFits, UnitFits};

use crate::replies::reply_fits;
use crate::steps::kept_fit;
use crate::units::unit_fits;
use log_text::{Version, kept_count, version_with};
use scsi_cmd::Reply;
use shared_machine::Step;
use uas_log::{FirstUnit, Log};

/// One more than the most steps, and the most replies, of a log.
const ITEMS: usize = 1 << 32;

/// Whether a log can be saved: whether it is within the limits of the version whose clients have as many tags.
pub fn is_savable(log: &Log) -> bool
    ensures { IsTrue result ↔ IsSavable log.now }
{
    let (steps, refusals) = (log.steps.as_slice(), log.refusals.as_slice());
    if log.tags != 8 && log.tags != 16 || refusals.len() != steps.len() {
        return false;
    }
    let version = version_with(log.tags);
    let units = log.units.as_slice();
    are_units(version.most_clients(), units)
        && are_steps(version, units.len(), steps, refusals)
        && are_replies(units.len(), log.tags, log.replies.as_slice())
}

/// Whether the units are those of 1 to `most` clients.
pub fn are_units(most: usize, units: &[FirstUnit]) -> bool
    ensures { IsTrue result ↔ ((1 ≤ length units.now) × (length units.now ≤ most) × AllByRecursion UnitFits units.now) }
{
    1 <= units.len() && units.len() <= most && all_units(units)
}

fn all_units(units: &[FirstUnit]) -> bool
    ensures { IsTrue result ↔ All UnitFits units.now }
{
    units.iter().all(|unit| unit_fits(unit))
}

/// Whether the steps that weren't refused are few enough, and each of them fits.
fn are_steps(version: Version, clients: usize, steps: &[Step], refusals: &[u8]) -> bool
    requires { length refusals.now ≡ length steps.now }
    ensures { IsTrue result
        ↔ (AllByRecursion (StepFits version clients) (kept steps.now refusals.now) × (length (kept steps.now refusals.now) < 2 ^ 32)) }
{
    kept_count(steps, refusals) < ITEMS && kept_fit(version, clients, steps, refusals)
}

/// Whether the replies are few enough, and each of them fits as one of the client whose tag it brings back.
fn are_replies(clients: usize, tags: usize, replies: &[Reply]) -> bool
    requires { 1 ≤ tags }
    ensures { IsTrue result ↔ (AllByRecursion (ReplyFits clients) (map (with_client tags) replies.now)
        × (length (map (with_client tags) replies.now) < 2 ^ 32)) }
{
    replies.len() < ITEMS && all_replies(clients, tags, replies)
}

fn all_replies(clients: usize, tags: usize, replies: &[Reply]) -> bool
    requires { 1 ≤ tags }
    ensures { IsTrue result ↔ All (λ reply. ReplyFits clients (with_client tags reply)) replies.now }
{
    replies.iter().all(|reply| reply_fits(clients, tags, reply))
}
