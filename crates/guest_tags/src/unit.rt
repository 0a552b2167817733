//! An information unit on its way to the host.
ghost use Rattle.std.specs.Prelude.{◌≡◌, ◌+◌, ◌≤◌, [], length, take, drop};
ghost use Rattle.guest_tags.specs.Devices.{IsEnded, Kind};
ghost use Rattle.guest_tags.specs.Status.{left_of, overlap_text};
ghost use Rattle.guest_tags.specs.Units.{Outgoing, whole};

mod saved;

use crate::device::UasDevice;
use arrayvec::ArrayVec;
use std::marker::Model;
use uas_iu::{Iu, write};
use uas_profile::STATUS_BYTES;

/// Response code: the tag of an information unit has a task.
const OVERLAPPED_TAG_ATTEMPTED: u8 = 0x0A;

const _: () = prove!(OVERLAPPED_TAG_ATTEMPTED == 0x0A);

/// The bytes of an information unit, and how many of them the TD in front has; no bytes where there is no information unit.
#[derive(Debug, Drop)]
pub struct Unit {
    text: ArrayVec<u8, STATUS_BYTES>,
    sent: usize,
}

impl Model for Unit {
    ghost use Rattle.guest_tags.specs.Units.{Outgoing};

    ghost Value = { Outgoing };

    ghost use Rattle.std.specs.Prelude.{◌≤◌};
    ghost use Rattle.arrayvec.specs.ArrayVec.{array_vec_len};

    ghost view = { λ unit. record { text = unit.text.items; sent = unit.sent } };

    ghost invariant = { λ unit. unit.sent ≤ array_vec_len unit.text };
}

impl Unit {
    /// No information unit.
    pub fn new() -> Unit
        ensures { result ≡ whole [] }
    {
        Unit {
            text: ArrayVec::new(),
            sent: 0,
        }
    }

    /// How many bytes it has.
    pub fn len(&self) -> usize
        ensures { result ≡ length self.now.text }
    {
        self.text.len()
    }

    /// How many bytes of it the TD in front has.
    pub fn sent(&self) -> usize
        ensures { result ≡ self.now.sent }
    {
        self.sent
    }

    /// How many bytes are left.
    pub fn left(&self) -> usize
        ensures left { result ≡ length (left_of self.now) }
        ensures most { result ≤ STATUS_BYTES }
    {
        self.text.len() - self.sent
    }

    /// The next bytes, as many as asked for.
    pub fn front(&self, count: usize) -> &[u8]
        requires { count ≤ length (left_of self.now) }
        ensures { result.now ≡ take count (left_of self.now) }
    {
        &self.text[self.sent..self.sent + count]
    }

    /// So many bytes more are in the TD.
    pub fn advance(&mut self, count: usize)
        requires { count ≤ length (left_of self.old) }
        ensures { self.new ≡ record self.old { sent = self.old.sent + count } }
    {
        let len = self.text.len();
        let left = len - self.sent;
        self.sent = len - (left - count);
    }

    /// It goes from its start again.
    pub fn rewind(&mut self)
        ensures { self.new ≡ whole self.old.text }
    {
        self.sent = 0;
    }

    /// No information unit is left.
    pub fn clear(&mut self)
        ensures { self.new ≡ whole [] }
    {
        self.text.clear();
        self.sent = 0;
    }

    /// The answer to an information unit whose tag has a task.
    pub fn set_overlap(&mut self, tag: u16)
        ensures { self.new ≡ whole (overlap_text tag) }
    {
        self.clear();
        let unit = Iu::Response {
            tag,
            code: OVERLAPPED_TAG_ATTEMPTED,
        };
        write(&unit, &mut self.text);
    }

    /// The answer of a tag's task, which has ended.
    pub fn set_answer<D: UasDevice>(&mut self, device: &D, tag: u16)
        requires { IsEnded (D.kind.phase (D.state device.now) tag) }
        ensures { self.new ≡ whole (D.kind.status (D.state device.now) tag) }
    {
        self.clear();
        device.write_status(tag, &mut self.text);
    }
}
