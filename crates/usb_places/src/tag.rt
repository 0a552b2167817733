//! The places of one tag.
ghost use Rattle.std.specs.Prelude.{◌≡◌, ◌≤◌, [], IfOk, length, vec_capacity};
ghost use Rattle.uas_profile.specs.declared.TheConstants.{STATUS_BYTES};
ghost use Rattle.usb_places.specs.States.{appended_tag, come_tag, command_kept_tag, emptied_tag, ended_tag, forgotten_tag};
ghost use Rattle.usb_places.specs.States.{fresh_tag, held_in, holder_in, holding_tag, is_full_in, left_in, lost_command_in, lost_in, lost_tag};
ghost use Rattle.usb_places.specs.States.{room_in, state_at, told_tag, used_up_tag, with_state};
ghost use Rattle.usb_places.specs.declared.TheConstants.{MOST_TRANSFER_BYTES};
ghost use Rattle.uas_profile.specs.declared.Pipe.{Pipe};

use crate::state::{
    answered, forgotten, holds, lost, lost_in, new_kept, room_of, told, transfer_in,
};
use crate::{Kept, MOST_COMMAND_BYTES, MOST_TRANSFER_BYTES, PlaceState, Transfer};
use arrayvec::ArrayVec;
use std::alloc::{AllocError, Global};
use std::marker::Model;
use std::mem::swap;
use uas_profile::{Pipe, STATUS_BYTES};
use usbredir::Status;

/// The places of one tag; contracts see them as the record `TagState`.
#[derive(Debug, Drop)]
pub(crate) struct TagPlaces {
    command: PlaceState,
    /// The unit whose answer the command place keeps.
    command_unit: ArrayVec<u8, MOST_COMMAND_BYTES>,
    status: PlaceState,
    /// The unit that the kept status told.
    unit: ArrayVec<u8, STATUS_BYTES>,
    data_in: PlaceState,
    data_out: PlaceState,
    /// The bytes that came with the held data-out, and behind them those given so far into the held data-in, or with the kept one.
    bytes: Vec<u8>,
    /// How many came, and how many of these the device used.
    came: usize,
    used: usize,
}

impl Model for TagPlaces {
    ghost use Rattle.usb_places.specs.States.{TagState};

    ghost Value = { TagState };

    ghost use Rattle.usb_places.specs.Rooms.{view_of, HasRooms};

    ghost view = { view_of };

    ghost invariant = { HasRooms };
}

impl TagPlaces {
    /// Nothing held, nothing kept.
    pub(crate) fn new(alloc: Global) -> Result<TagPlaces, AllocError>
        ensures { IfOk result (λ tag. tag ≡ fresh_tag) }
    {
        Ok(TagPlaces {
            command: PlaceState::Empty,
            command_unit: ArrayVec::new(),
            status: PlaceState::Empty,
            unit: ArrayVec::new(),
            data_in: PlaceState::Empty,
            data_out: PlaceState::Empty,
            bytes: Vec::with_capacity(alloc, MOST_TRANSFER_BYTES)?,
            came: 0,
            used: 0,
        })
    }

    fn state(&self, pipe: Pipe) -> PlaceState
        ensures { result ≡ state_at pipe self.now }
    {
        match pipe {
            Pipe::Command => self.command,
            Pipe::Status => self.status,
            Pipe::DataIn => self.data_in,
            Pipe::DataOut => self.data_out,
        }
    }

    fn set_state(&mut self, pipe: Pipe, state: PlaceState)
        ensures { self.new ≡ with_state pipe state self.old }
    {
        match pipe {
            Pipe::Command => self.command = state,
            Pipe::Status => self.status = state,
            Pipe::DataIn => self.data_in = state,
            Pipe::DataOut => self.data_out = state,
        }
    }

    pub(crate) fn held(&self, pipe: Pipe) -> Option<Transfer>
        ensures { result ≡ held_in pipe self.now }
    {
        match pipe {
            Pipe::Command => None,
            Pipe::Status => transfer_in(self.status),
            Pipe::DataIn => transfer_in(self.data_in),
            Pipe::DataOut => transfer_in(self.data_out),
        }
    }

    pub(crate) fn lost_answer(&self, pipe: Pipe, transfer: Transfer) -> Option<Kept>
        ensures { result ≡ lost_in transfer (state_at pipe self.now) }
    {
        lost_in(transfer, self.state(pipe))
    }

    pub(crate) fn lost_command(&self, transfer: Transfer, bytes: &[u8]) -> Option<Kept>
        ensures { result ≡ lost_command_in transfer bytes.now self.now }
    {
        if self.command_unit.as_slice() == bytes {
            lost_in(transfer, self.command)
        } else {
            None
        }
    }

    pub(crate) fn tell_again(&mut self, pipe: Pipe)
        ensures { self.new ≡ told_tag pipe self.old }
    {
        let state = told(self.state(pipe));
        self.set_state(pipe, state);
    }

    pub(crate) fn come(&mut self, pipe: Pipe)
        ensures { self.new ≡ come_tag pipe self.old }
    {
        let state = forgotten(self.state(pipe));
        self.set_state(pipe, state);
    }

    /// At data-out the vectors are swapped; `bytes` is empty then in any case.
    pub(crate) fn hold(&mut self, pipe: Pipe, transfer: Transfer, bytes: &mut Vec<u8>)
        requires room { MOST_TRANSFER_BYTES ≤ vec_capacity bytes.old }
        requires most { length bytes.old.items ≤ MOST_TRANSFER_BYTES }
        ensures tag { self.new ≡ holding_tag pipe transfer bytes.old.items self.old }
        ensures taken { bytes.new.items ≡ [] }
        ensures again { MOST_TRANSFER_BYTES ≤ vec_capacity bytes.new }
    {
        match pipe {
            Pipe::Command => (),
            Pipe::Status => self.status = PlaceState::Holds(transfer),
            Pipe::DataIn => {
                self.bytes.truncate(self.came);
                self.data_in = PlaceState::Holds(transfer);
            }
            Pipe::DataOut => self.hold_out(transfer, bytes),
        }
        bytes.clear();
    }

    /// The vectors are swapped.
    fn hold_out(&mut self, transfer: Transfer, bytes: &mut Vec<u8>)
        requires room { MOST_TRANSFER_BYTES ≤ vec_capacity bytes.old }
        requires most { length bytes.old.items ≤ MOST_TRANSFER_BYTES }
        ensures tag { self.new ≡ holding_tag Pipe.DataOut transfer bytes.old.items self.old }
        ensures again { MOST_TRANSFER_BYTES ≤ vec_capacity bytes.new }
    {
        swap(&mut self.bytes, bytes);
        self.came = self.bytes.len();
        self.used = 0;
        self.data_in = forgotten(self.data_in);
        self.data_out = PlaceState::Holds(transfer);
    }

    pub(crate) fn keep_command(&mut self, transfer: Transfer, moved: u32, bytes: &[u8])
        ensures { self.new ≡ command_kept_tag transfer moved bytes.now self.old }
    {
        self.command_unit.clear();
        self.command = if self.command_unit.try_extend_from_slice(bytes).is_ok() {
            PlaceState::Keeps(new_kept(transfer, Status::Success, moved))
        } else {
            PlaceState::Empty
        };
    }

    /// How many bytes the held data-in still takes.
    pub(crate) fn room(&self) -> usize
        ensures room { result ≡ room_in self.now }
        ensures most { result ≤ MOST_TRANSFER_BYTES }
    {
        match &self.data_in {
            PlaceState::Holds(transfer) => room_of(transfer.length, self.came).saturating_sub(
                self.given().len(),
            ),
            _ => 0,
        }
    }

    /// Whether it has all its bytes.
    pub(crate) fn is_full(&self) -> bool
        ensures { result ≡ is_full_in self.now }
    {
        match &self.data_in {
            PlaceState::Holds(transfer) => room_of(transfer.length, 0) <= self.given().len(),
            _ => false,
        }
    }

    pub(crate) fn append(&mut self, bytes: &[u8])
        requires { length bytes.now ≤ room_in self.old }
        ensures { self.new ≡ appended_tag bytes.now self.old }
    {
        let Ok(()) = self.bytes.extend_from_slice(bytes) else {
            unreachable!()
        };
    }

    pub(crate) fn given(&self) -> &[u8]
        ensures bytes { result.now ≡ self.now.given }
        ensures most { length result.now ≤ MOST_TRANSFER_BYTES }
    {
        &self.bytes[self.came..]
    }

    pub(crate) fn unit(&self) -> &[u8]
        ensures bytes { result.now ≡ self.now.unit }
        ensures most { length result.now ≤ STATUS_BYTES }
    {
        self.unit.as_slice()
    }

    pub(crate) fn left(&self) -> &[u8]
        ensures bytes { result.now ≡ left_in self.now }
        ensures most { length result.now ≤ MOST_TRANSFER_BYTES }
    {
        &self.bytes[self.used..self.came]
    }

    pub(crate) fn used(&self) -> usize
        ensures used { result ≡ self.now.used }
        ensures most { result ≤ MOST_TRANSFER_BYTES }
    {
        self.used
    }

    pub(crate) fn use_up(&mut self, count: usize)
        requires { count ≤ length (left_in self.old) }
        ensures { self.new ≡ used_up_tag count self.old }
    {
        self.used += count;
    }

    pub(crate) fn end(&mut self, pipe: Pipe, status: Status, moved: u32, unit: &[u8])
        requires { length unit.now ≤ STATUS_BYTES }
        ensures { self.new ≡ ended_tag pipe status moved unit.now self.old }
    {
        match pipe {
            Pipe::Command => (),
            Pipe::Status => self.end_status(status, moved, unit),
            Pipe::DataIn => self.data_in = answered(status, moved, self.data_in),
            Pipe::DataOut => {
                self.data_out = answered(status, moved, self.data_out);
                self.drop_out();
            }
        }
    }

    /// The bytes that came are gone.
    fn drop_out(&mut self)
        ensures { self.new ≡ record self.old { out = []; used = 0 } }
    {
        let given = self.bytes.len() - self.came;
        self.bytes.copy_within(self.came.., 0);
        self.bytes.truncate(given);
        self.came = 0;
        self.used = 0;
    }

    fn end_status(&mut self, status: Status, moved: u32, unit: &[u8])
        requires { length unit.now ≤ STATUS_BYTES }
        ensures { self.new ≡ ended_tag Pipe.Status status moved unit.now self.old }
    {
        if let PlaceState::Holds(_) = self.status {
            self.unit.clear();
            let Ok(()) = self.unit.try_extend_from_slice(unit) else {
                unreachable!()
            };
        }
        self.status = answered(status, moved, self.status);
    }

    pub(crate) fn holder(&self, id: u64) -> Option<Pipe>
        ensures { result ≡ holder_in id self.now }
    {
        if holds(id, self.status) {
            Some(Pipe::Status)
        } else if holds(id, self.data_in) {
            Some(Pipe::DataIn)
        } else if holds(id, self.data_out) {
            Some(Pipe::DataOut)
        } else {
            None
        }
    }

    pub(crate) fn empty(&mut self, pipe: Pipe)
        ensures { self.new ≡ emptied_tag pipe self.old }
    {
        self.set_state(pipe, PlaceState::Empty);
        if pipe == Pipe::DataOut {
            self.drop_out();
        }
    }

    pub(crate) fn lose(&mut self, id: u64)
        ensures { self.new ≡ lost_tag id self.old }
    {
        self.command = lost(id, self.command);
        self.status = lost(id, self.status);
        self.data_in = lost(id, self.data_in);
        self.data_out = lost(id, self.data_out);
    }

    pub(crate) fn forget(&mut self)
        ensures { self.new ≡ forgotten_tag self.old }
    {
        self.command = forgotten(self.command);
        self.status = forgotten(self.status);
        self.data_in = forgotten(self.data_in);
        self.data_out = forgotten(self.data_out);
    }
}
