// Which TD an event is of, by its pointer alone (xHCI 4.11.3, and the address maps of rings and buffers).
ghost use Rattle.std.specs.Prelude.{◌≡◌, ◌≤◌, IfSome};
ghost use Rattle.uas_profile.specs.Pipes.{HasStreams};
ghost use Rattle.stream_array.specs.Map.{HasRing, place_address};
ghost use Rattle.uas_profile.specs.declared.Pipe.TheVariants as Pipe;
ghost use Rattle.uas_host.specs.Events.{command_tag, ended_on, tag_at_buffer, IsEndedIn};

use crate::EndedTd;
use stream_array::{Lines, Pipe};
use uas_profile::{BUFFER_SPAN, COMMAND_BUFFERS, STREAMS};
use xhci_trb::Trb;

/// Where the pointer of an event is: its address, and the place of the ring that it is of.
#[derive(Clone, Copy)]
pub(crate) struct EventPlace {
    pub pointer: u64,
    pub place: usize,
}

/// The tag at whose command buffer an address is.
#[inline(always)]
fn tag_at(pointer: u64) -> Option<u16>
    ensures tag { result ≡ tag_at_buffer pointer }
    ensures known { IfSome result (λ tag. (1 ≤ tag) × (tag ≤ STREAMS)) }
{
    if pointer < COMMAND_BUFFERS {
        return None;
    }
    let offset = pointer - COMMAND_BUFFERS;
    if offset % BUFFER_SPAN != 0 {
        return None;
    }
    let tag = offset / BUFFER_SPAN;
    if 0 < tag && tag <= u64::from(STREAMS) {
        Some(tag as u16)
    } else {
        None
    }
}

/// The tag whose command buffer a TRB of the command pipe names.
#[inline(always)]
pub(crate) fn command_tag_of(trb: &Trb) -> Option<u16>
    ensures tag { result ≡ command_tag trb.now }
    ensures known { IfSome result (λ tag. (1 ≤ tag) × (tag ≤ STREAMS)) }
{
    match *trb {
        Trb::Normal { pointer, .. } => tag_at(pointer),
        _ => None,
    }
}

/// The command TD whose TRB, consumed and not reclaimed, is at this address of the command pipe's ring.
#[inline(always)]
pub(crate) fn command_td_at(lines: &Lines, at: EventPlace) -> Option<EndedTd>
    ensures td { result ≡ ended_on lines.now at.pointer (Pipe.Command, 0, 0) }
    ensures known { IfSome result (IsEndedIn lines.now at.pointer at.place) }
{
    let trb = lines.consumed(Pipe::Command, 0, at.pointer)?;
    if trb.has_chain() {
        return None;
    }
    let tag = command_tag_of(&trb)?;
    Some(EndedTd {
        pipe: Pipe::Command,
        tag,
    })
}

/// The TD whose last TRB, consumed and not reclaimed, is at this place of a stream's ring: its tag is the stream's number.
#[inline(always)]
pub(crate) fn stream_td_at(
    lines: &Lines,
    pipe: Pipe,
    stream: u16,
    at: EventPlace,
) -> Option<EndedTd>
    requires streams { HasStreams pipe }
    requires ring { HasRing pipe stream }
    requires at { at.pointer ≡ place_address pipe stream at.place }
    ensures td { result ≡ ended_on lines.now at.pointer (pipe, stream, 0) }
    ensures known { IfSome result (IsEndedIn lines.now at.pointer at.place) }
{
    let trb = lines.consumed_in(pipe, stream, at.place)?;
    if trb.has_chain() {
        return None;
    }
    Some(EndedTd { pipe, tag: stream })
}
