//! Which TRBs a step carries out; any other is foreign, and so are bytes that are no TRB's text.
ghost use Rattle.std.specs.Prelude.{◌≡◌, ◌/◌, ◌%◌, ◌↔◌, ◌==◌, IfSome, IsSome, IsTrue};
ghost use Rattle.uas_target.specs.declared.Phase.{Phase};
ghost use Rattle.xhci_ctl.specs.Own.{IsOwn, IsOwnCommand, IsOwnData, IsOwnIn, IsOwnOut, StartsAt, length_of};

use frame_store::{Frames, Place};
use uas_profile::COMMAND_BYTES;
use uas_target::Phase;
use xhci_trb::{Trb, TrbFlags};

/// Where the bytes begin of what is in front of a ring, if it is a Normal TRB, without Evaluate Next TRB and Immediate Data, and all its
/// bytes are bytes of one buffer. Nothing of anything else.
#[inline(always)]
pub(crate) fn own(frames: &Frames, trb: &Option<Trb>) -> Option<Place>
    ensures own { IsSome result ↔ IsOwn frames.now trb.now }
    ensures start { IfSome result (StartsAt frames.now trb.now) }
{
    match trb {
        Some(
            Trb::Normal {
                pointer,
                length,
                flags,
                ..
            },
        ) => {
            if is_plain(*flags) {
                frames.start(*pointer, *length as usize)
            } else {
                None
            }
        }
        Some(
            Trb::Link { .. }
            | Trb::StopEndpoint { .. }
            | Trb::SetDequeue { .. }
            | Trb::TransferEvent { .. }
            | Trb::CommandEvent { .. },
        )
        | None => None,
    }
}

// Neither ENT, bit 0, nor IDT, bit 5, is set.
fn is_plain(flags: TrbFlags) -> bool
    ensures { IsTrue result ↔ ((flags.0 % 2 ≡ 0) × (flags.0 / 32 % 2 ≡ 0)) }
{
    flags.0 % 2 == 0 && flags.0 / TrbFlags::IDT.0 % 2 == 0
}

const _: () = prove!(TrbFlags::ENT.0 == 1 && TrbFlags::IDT.0 == 32);

/// How many bytes it names.
fn length_of(trb: &Option<Trb>) -> usize
    ensures { result ≡ length_of trb.now }
{
    match trb {
        Some(Trb::Normal { length, .. }) => *length as usize,
        Some(
            Trb::Link { .. }
            | Trb::StopEndpoint { .. }
            | Trb::SetDequeue { .. }
            | Trb::TransferEvent { .. }
            | Trb::CommandEvent { .. },
        )
        | None => 0,
    }
}

/// The same of the command pipe: at most a Command unit.
#[inline(always)]
pub(crate) fn own_command(frames: &Frames, trb: &Option<Trb>) -> Option<Place>
    ensures own { IsSome result ↔ IsOwnCommand frames.now trb.now }
    ensures start { IfSome result (StartsAt frames.now trb.now) }
{
    let start = own(frames, trb)?;
    if length_of(trb) <= COMMAND_BYTES {
        Some(start)
    } else {
        None
    }
}

/// The same of a data-in stream: as many bytes as the device's next chunk, while it gives one.
#[inline(always)]
pub(crate) fn own_in(frames: &Frames, phase: Phase, trb: &Option<Trb>) -> Option<Place>
    ensures own { IsSome result ↔ IsOwnIn frames.now phase trb.now }
    ensures start { IfSome result (StartsAt frames.now trb.now) }
{
    match phase {
        Phase::Gives(size) => own_of(frames, size, trb),
        Phase::Absent | Phase::Takes(_) | Phase::Ends => own(frames, trb),
    }
}

/// The same of a data-out stream: as many bytes as the device's next chunk, while it takes one.
#[inline(always)]
pub(crate) fn own_out(frames: &Frames, phase: Phase, trb: &Option<Trb>) -> Option<Place>
    ensures own { IsSome result ↔ IsOwnOut frames.now phase trb.now }
    ensures start { IfSome result (StartsAt frames.now trb.now) }
{
    match phase {
        Phase::Takes(size) => own_of(frames, size, trb),
        Phase::Absent | Phase::Gives(_) | Phase::Ends => own(frames, trb),
    }
}

// The same of exactly so many bytes.
#[inline(always)]
fn own_of(frames: &Frames, size: usize, trb: &Option<Trb>) -> Option<Place>
    ensures own { IsSome result ↔ IsOwnData frames.now size trb.now }
    ensures start { IfSome result (StartsAt frames.now trb.now) }
{
    let start = own(frames, trb)?;
    if length_of(trb) == size {
        Some(start)
    } else {
        None
    }
}
