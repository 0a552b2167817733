//! The room that a call needs on rings and in buffers, tested.
ghost use Rattle.std.specs.Prelude.{◌≡◌, ◌<◌, ◌≤◌, false, is_some, length};
ghost use Rattle.uas_profile.specs.declared.TheConstants.{STREAMS};
ghost use Rattle.stream_array.specs.Contexts.{has_stream};
ghost use Rattle.stream_array.specs.Map.{HasRing};
ghost use Rattle.frame_store.specs.Buffers.{IsWhole, held_for};
ghost use Rattle.uas_profile.specs.Tags.{tag_of};
ghost use Rattle.uas_host.specs.State.{IsHost};
ghost use Rattle.uas_host.specs.Tasks.{task_tag};
ghost use Rattle.uas_driver.specs.Room.{has_data_room, has_engine_room, has_room, has_task_room, lacks_room, lacks_task_room, ring_has};

use frame_store::Frames;
use stream_array::{Lines, Pipe};
use uas_host::{Host, Place};
use uas_profile::{MOST_DATA_TRBS, STREAMS, tag_of, task_slot};

/// Whether a tag has buffers, and each pipe with streams a ring for it.
pub(crate) fn has_stream(stream: u16) -> bool
    ensures { result ≡ has_stream stream }
{
    0 < stream && stream <= STREAMS
}

/// What holds of every host.
#[inline(always)]
pub(crate) fn sound(host: &Host)
    ensures { IsHost host.now }
{
    prove!(host.clients() > 0);
}

/// The tag of a place of the host.
pub(crate) fn tag_under(host: &Host, place: Place) -> u16
    requires client { place.client < length host.now.clients }
    requires slot { place.slot < host.now.tags }
    ensures tag { result ≡ tag_of host.now.tags place }
    ensures first_tag { 1 ≤ result }
    ensures last_tag { result ≤ STREAMS }
{
    sound(host);
    tag_of(host.tags(), place)
}

/// The tag for task managements of a client that is there.
pub(crate) fn task_tag_of(host: &Host, client: usize) -> u16
    requires { client < length host.now.clients }
    ensures tag { result ≡ task_tag host.now.tags client }
    ensures first_tag { 1 ≤ result }
    ensures last_tag { result ≤ STREAMS }
{
    let slot = task_slot(host.tags());
    tag_under(host, Place { client, slot })
}

/// What holds of all buffers: each has its size.
#[inline(always)]
fn whole(frames: &Frames)
    ensures { IsWhole frames.now }
{
    prove!(frames.check(0, 0).is_ok());
}

/// Whether a ring has room for so many TRBs.
fn ring_has(lines: &Lines, pipe: Pipe, stream: u16, count: usize) -> bool
    requires { HasRing pipe stream }
    ensures { result ≡ ring_has lines.now pipe stream count }
{
    count <= lines.room(pipe, stream)
}

/// Whether the rings have room for a task management under a tag.
fn has_task_room(lines: &Lines, tag: u16) -> bool
    requires first_tag { 1 ≤ tag }
    requires last_tag { tag ≤ STREAMS }
    ensures { result ≡ has_task_room lines.now tag }
{
    ring_has(lines, Pipe::Status, tag, 1) && ring_has(lines, Pipe::Command, 0, 1)
}

/// Whether the data rings have room for the longest data TD of a tag, whichever way it goes.
fn has_data_room(lines: &Lines, tag: u16) -> bool
    requires first_tag { 1 ≤ tag }
    requires last_tag { tag ≤ STREAMS }
    ensures { result ≡ has_data_room lines.now tag }
{
    ring_has(lines, Pipe::DataIn, tag, MOST_DATA_TRBS)
        && ring_has(lines, Pipe::DataOut, tag, MOST_DATA_TRBS)
}

/// Whether a vector is lent for a tag. The store tells it by giving the vector back, which is lent again at once.
pub(crate) fn is_lent(frames: &mut Frames, tag: u16) -> bool
    requires first_tag { 1 ≤ tag }
    requires last_tag { tag ≤ STREAMS }
    ensures lent { result ≡ is_some (held_for frames.old tag).lent }
    ensures same { frames.new ≡ frames.old }
{
    whole(frames);
    let Ok(bytes) = frames.take_back(tag) else {
        return false;
    };
    // the tag has nothing lent at this moment, so this is never refused
    let _ = frames.lend(tag, bytes);
    true
}

/// Whether rings and buffers have room for any command under a tag.
fn has_room(lines: &Lines, frames: &mut Frames, tag: u16) -> bool
    requires first_tag { 1 ≤ tag }
    requires last_tag { tag ≤ STREAMS }
    ensures room { result ≡ has_room lines.now frames.old tag }
    ensures same { frames.new ≡ frames.old }
{
    has_task_room(lines, tag) && has_data_room(lines, tag) && !is_lent(frames, tag)
}

/// Whether a tag has rings and buffers, and they have no room for a command. A tag without is the host's to refuse.
pub(crate) fn lacks_room(lines: &Lines, frames: &mut Frames, tag: u16) -> bool
    ensures room { result ≡ lacks_room lines.now frames.old tag }
    ensures same { frames.new ≡ frames.old }
{
    has_stream(tag) && !has_room(lines, frames, tag)
}

/// Whether a client is there, and the rings of its task tag have no room for a task management.
pub(crate) fn lacks_task_room(host: &Host, lines: &Lines, client: usize) -> bool
    ensures { result ≡ lacks_task_room host.now lines.now client }
{
    client < host.clients() && !has_task_room(lines, task_tag_of(host, client))
}

/// Whether the controller's command ring has room for a command.
pub(crate) fn has_engine_room(lines: &Lines) -> bool
    ensures { result ≡ has_engine_room lines.now }
{
    lines.room_engine() > 0
}
