//! Which tags have tasks: the next of them, and those whose tasks a received unit ended.
ghost use Rattle.std.specs.Prelude.{◌≡◌, ℕ, ◌+◌, ◌<◌, ◌≤◌, ◌==◌, false, is_some, not, ◌&&◌, slice_index_or};
ghost use Rattle.uas_iu.specs.Faults.{identifier};
ghost use Rattle.uas_target.specs.Device.{received, task_of};
ghost use Rattle.c_common.specs.Bytes.{yes};
ghost use Rattle.uas_device_c.specs.DeviceCall.{byte_from, has_ended, mask_of, next_task};

use uas_iu::TASK_ID;
use uas_target::{Overlap, Target, Took, other_tags_are_kept};

/// Bytes of a mask of tags.
pub(crate) const ENDED_BYTES: usize = 32;

/// Tags that a mask has bits for.
const MASKED_TAGS: usize = 8 * ENDED_BYTES;

/// The least tag above this one that has a task.
pub(crate) fn next_task(target: &Target, tag: u16) -> Option<u16>
    ensures { result ≡ next_task target.now tag }
{
    target.next_task(tag)
}

fn has_task(target: &Target, tag: u16) -> bool
    ensures { result ≡ is_some (task_of target.now tag) }
{
    if tag == 0 {
        return false;
    }
    match target.next_task(tag - 1) {
        Some(next) => next == tag,
        None => false,
    }
}

/// Receives bytes, and tells as a mask whose tasks that ended. Task management alone can end one.
pub(crate) fn receive_bytes(
    target: &mut Target,
    bytes: &[u8],
) -> (Result<Took, Overlap>, [u8; ENDED_BYTES])
    ensures received { (target.new, result.0) ≡ received target.old bytes.now }
    ensures ended { result.1 ≡ mask_of (has_ended target.old target.new) }
{
    if is_task(bytes) {
        return receive_task(target, bytes);
    }
    other_tags_are_kept();
    (target.receive(bytes), [0; ENDED_BYTES])
}

/// Whether bytes are those of task management, by their identifier.
fn is_task(bytes: &[u8]) -> bool
    ensures { result ≡ (identifier bytes.now == 5) }
{
    match bytes.first() {
        Some(id) => *id == TASK_ID,
        None => false,
    }
}

fn receive_task(target: &mut Target, bytes: &[u8]) -> (Result<Took, Overlap>, [u8; ENDED_BYTES])
    ensures received { (target.new, result.0) ≡ received target.old bytes.now }
    ensures ended { result.1 ≡ mask_of (has_ended target.old target.new) }
{
    let had = tags_of(target);
    let received = target.receive(bytes);
    (received, ended_since(&had, target))
}

/// Which tags have a task.
fn tags_of(target: &Target) -> [bool; MASKED_TAGS]
    ensures { (tag : ℕ) → tag < MASKED_TAGS → slice_index_or result tag false ≡ is_some (task_of target.now tag) }
{
    let mut tags = [false; MASKED_TAGS];
    for tag in 0..MASKED_TAGS {
        tags[tag] = has_task(target, tag as u16);
    }
    tags
}

/// Whose tasks there are no more, of the tags that had one.
fn ended_since(had: &[bool; MASKED_TAGS], target: &Target) -> [u8; ENDED_BYTES]
    ensures { result ≡ mask_of (λ tag. slice_index_or had.now tag false && not (is_some (task_of target.now tag))) }
{
    let mut ended = [0; ENDED_BYTES];
    for place in 0..ENDED_BYTES {
        ended[place] = ended_byte(had, target, 8 * place);
    }
    ended
}

/// The same of eight tags, from this one on.
fn ended_byte(had: &[bool; MASKED_TAGS], target: &Target, first: usize) -> u8
    requires { first + 7 < MASKED_TAGS }
    ensures { result ≡ byte_from (λ tag. slice_index_or had.now tag false && not (is_some (task_of target.now tag))) first }
{
    ended_bit(had, target, first)
        + 2 * ended_bit(had, target, first + 1)
        + 4 * ended_bit(had, target, first + 2)
        + 8 * ended_bit(had, target, first + 3)
        + 16 * ended_bit(had, target, first + 4)
        + 32 * ended_bit(had, target, first + 5)
        + 64 * ended_bit(had, target, first + 6)
        + 128 * ended_bit(had, target, first + 7)
}

fn ended_bit(had: &[bool; MASKED_TAGS], target: &Target, tag: usize) -> u8
    requires { tag < MASKED_TAGS }
    ensures bit { result ≡ yes (slice_index_or had.now tag false && not (is_some (task_of target.now tag))) }
    ensures most { result ≤ 1 }
{
    u8::from(had[tag] && !has_task(target, tag as u16))
}
