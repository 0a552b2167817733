//! A log from its text.
ghost use Rattle.std.specs.Prelude.{◌≡◌, ℕ, ◌≤◌, ◌∷◌, ◌++◌, List, Ok, Err, length, IfOk};
ghost use Rattle.log_text.specs.declared.LogFault.TheVariants.{TrailingBytes};
ghost use Rattle.log_text.specs.Loading.{Loads, saved_of};
ghost use Rattle.log_text.specs.Reading.{Gives, header_at, listed_at, reply_at, step_at, units_at, version_of, whole_log};
ghost use Rattle.log_text.specs.Text.{IsWithin, Saved, log_text};

use crate::read_fields::{field, number};
use crate::read_replies::replies;
use crate::read_steps::steps;
use crate::read_units::{MOST_ITEMS, units};
use crate::{LogFault, Parts, SavedLog, SavedReplies, SavedReply, Stop, Version};
use shared_machine::Step;
use std::alloc::Global;
use uas_log::{FirstUnit, FirstUnits, Steps};

/// `UASLOG`, as the number that its codes are.
const NAME: u64 = 0x5541_534c_4f47;

fn version_of(number: u64) -> Version
    ensures { result ≡ version_of number }
{
    if number == 1 {
        Version::First
    } else {
        Version::Second
    }
}

/// Name, version and the version's number of tags; another is `BadHeader`.
#[tactic(auto, unfolding(crate::specs::Reading::header_at))]
fn header(bytes: &[u8]) -> Result<(Version, &[u8]), Stop>
    ensures { Gives (λ read. (read.0, read.1.now)) result (header_at bytes.now) }
{
    let (_, rest) = number(bytes, LogFault::BadHeader, 6, NAME, NAME)?;
    let (version, rest) = number(rest, LogFault::BadHeader, 2, 1, 2)?;
    let version = version_of(version);
    let tags = version.tags() as u64;
    let (_, rest) = number(rest, LogFault::BadHeader, 1, tags, tags)?;
    Ok((version, rest))
}

/// The units of 1 to `most` clients behind their number, and the bytes behind them; `BadField` for another number of clients, and for a
/// field of a unit that has a value that it can't have, and `Truncated` where the bytes end before.
#[tactic(auto, unfolding(crate::specs::Reading::units_at))]
pub fn all_units(alloc: Global, most: u8, bytes: &[u8]) -> Result<(Vec<FirstUnit>, &[u8]), Stop>
    ensures gives { Gives (λ read. (read.0.items, read.1.now)) result (units_at most bytes.now) }
    ensures some { IfOk result (λ read. 1 ≤ length read.0.items) }
{
    let (clients, rest) = field(bytes, 1, 1, u64::from(most))?;
    units(alloc, clients as u32, rest)
}

#[tactic(auto, unfolding(crate::specs::Reading::listed_at))]
fn all_steps(
    alloc: Global,
    version: Version,
    clients: usize,
    bytes: &[u8],
) -> Result<(Vec<Step>, &[u8]), Stop>
    requires { 1 ≤ clients }
    ensures { Gives (λ read. (read.0.items, read.1.now)) result (listed_at (step_at version clients) bytes.now) }
{
    let (count, rest) = field(bytes, 4, 0, MOST_ITEMS)?;
    steps(alloc, version, clients, count as u32, rest)
}

#[tactic(auto, unfolding(crate::specs::Reading::listed_at))]
fn all_replies(
    alloc: Global,
    clients: usize,
    bytes: &[u8],
) -> Result<(Vec<SavedReply>, &[u8]), Stop>
    requires { 1 ≤ clients }
    ensures { Gives (λ read. (read.0.items, read.1.now)) result (listed_at (reply_at clients) bytes.now) }
{
    let (count, rest) = field(bytes, 4, 0, MOST_ITEMS)?;
    replies(alloc, clients, count as u32, rest)
}

/// What a whole text tells.
#[tactic(auto, unfolding(crate::specs::Reading::log_at, crate::specs::Reading::whole_log))]
fn parts(alloc: Global, text: &[u8]) -> Result<Parts, Stop>
    ensures { Gives saved_of result (whole_log text.now) }
{
    let (version, rest) = header(text)?;
    let (units, rest) = all_units(alloc, version.most_clients() as u8, rest)?;
    let (steps, rest) = all_steps(alloc, version, units.len(), rest)?;
    let (replies, rest) = all_replies(alloc, units.len(), rest)?;
    if !rest.is_empty() {
        return Err(Stop::Fault(LogFault::TrailingBytes));
    }
    Ok(Parts {
        version,
        units: FirstUnits::from_vec(units),
        steps: Steps::from_vec(steps),
        replies: SavedReplies::from_vec(replies),
    })
}

/// The log of what a whole text tells.
fn loaded(alloc: Global, text: &[u8]) -> Result<SavedLog, LogFault>
    ensures found { IfOk result (λ log. (text.now ≡ log_text log) × IsWithin log) }
    ensures exact { Loads result (whole_log text.now) }
{
    match parts(alloc, text) {
        Ok(
            Parts {
                version,
                units,
                steps,
                replies,
            },
        ) => Ok(SavedLog {
            version,
            units,
            steps,
            replies,
        }),
        Err(stop) => Err(stop.fault()),
    }
}

/// The log that a text tells. Else its first fault from the front: `Truncated` where it ends within a field, `BadHeader` for
/// another name, version or number of tags, `BadField` for a value that a field can't have there, `TrailingBytes` for bytes
/// behind its end. `NoMemory` may come at any text. Each part is copied out of the text once.
pub fn load_log(alloc: Global, text: &[u8]) -> Result<SavedLog, LogFault>
    // What is found is within the limits, and the text is its text: there is no other spelling.
    ensures found { IfOk result (λ log. (text.now ≡ log_text log) × IsWithin log) }
    // The text of each log within the limits is found.
    ensures every { (log : Saved) → IsWithin log → text.now ≡ log_text log → Loads result (Ok log) }
    // Bytes behind such a text are told.
    ensures trailing { (log : Saved) (byte : ℕ) (more : List ℕ) → IsWithin log → text.now ≡ log_text log ++ byte ∷ more → Loads result (Err TrailingBytes) }
    // Which fault is the first.
    ensures exact { Loads result (whole_log text.now) }
{
    loaded(alloc, text)
}
