//! What becomes of one place.
ghost use Rattle.std.specs.Prelude.{◌≡◌, ◌≤◌, ◌-◌, min};
ghost use Rattle.usb_places.specs.States.{answered_state, forgotten_state, holds, lost_in, lost_kept, lost_state, new_kept, same_transfer, told_state, transfer_in};
ghost use Rattle.usb_places.specs.declared.TheConstants.{MOST_TRANSFER_BYTES};

use crate::{Kept, MOST_TRANSFER_BYTES, PlaceState, Transfer};
use usbredir::Status;

pub(crate) fn transfer_in(state: PlaceState) -> Option<Transfer>
    ensures { result ≡ transfer_in state }
{
    match state {
        PlaceState::Holds(transfer) => Some(transfer),
        _ => None,
    }
}

/// An answer that isn't lost.
pub(crate) fn new_kept(transfer: Transfer, status: Status, moved: u32) -> Kept
    ensures { result ≡ new_kept transfer status moved }
{
    Kept {
        transfer,
        status,
        moved,
        lost: false,
    }
}

pub(crate) fn answered(status: Status, moved: u32, state: PlaceState) -> PlaceState
    ensures { result ≡ answered_state status moved state }
{
    match state {
        PlaceState::Holds(transfer) => PlaceState::Keeps(new_kept(transfer, status, moved)),
        other => other,
    }
}

pub(crate) fn forgotten(state: PlaceState) -> PlaceState
    ensures { result ≡ forgotten_state state }
{
    match state {
        PlaceState::Keeps(_) => PlaceState::Empty,
        other => other,
    }
}

pub(crate) fn told(state: PlaceState) -> PlaceState
    ensures { result ≡ told_state state }
{
    match state {
        PlaceState::Keeps(kept) => PlaceState::Keeps(Kept {
            lost: false,
            ..kept
        }),
        other => other,
    }
}

pub(crate) fn lost(id: u64, state: PlaceState) -> PlaceState
    ensures { result ≡ lost_state id state }
{
    match state {
        PlaceState::Keeps(kept) => PlaceState::Keeps(if kept.transfer.id == id {
            Kept { lost: true, ..kept }
        } else {
            kept
        }),
        other => other,
    }
}

pub(crate) fn holds(id: u64, state: PlaceState) -> bool
    ensures { result ≡ holds id state }
{
    match state {
        PlaceState::Holds(transfer) => transfer.id == id,
        _ => false,
    }
}

fn same_transfer(one: Transfer, other: Transfer) -> bool
    ensures { result ≡ same_transfer one other }
{
    one.id == other.id && one.length == other.length
}

fn lost_kept(transfer: Transfer, kept: Kept) -> Option<Kept>
    ensures { result ≡ lost_kept transfer kept }
{
    if kept.lost && same_transfer(kept.transfer, transfer) {
        Some(kept)
    } else {
        None
    }
}

pub(crate) fn lost_in(transfer: Transfer, state: PlaceState) -> Option<Kept>
    ensures { result ≡ lost_in transfer state }
{
    match state {
        PlaceState::Keeps(kept) => lost_kept(transfer, kept),
        _ => None,
    }
}

/// How many bytes a transfer of this length may have beside so many others.
pub(crate) fn room_of(length: u32, others: usize) -> usize
    requires { others ≤ MOST_TRANSFER_BYTES }
    ensures { result ≡ min length (MOST_TRANSFER_BYTES - others) }
{
    (length as usize).min(MOST_TRANSFER_BYTES - others)
}
