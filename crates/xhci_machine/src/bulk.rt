//! Bulk-Only Transport, in the disk's alternate setting 0: which endpoints are served then, and the steps of Bulk-Out and Bulk-In.
ghost use Rattle.std.specs.Prelude.{◌≡◌, Some};
ghost use Rattle.guest_memory.specs.Bytes.{Memory};
ghost use Rattle.guest_memory.specs.rings.Events.{EventEnd};
ghost use Rattle.std.specs.Result.{result_ok};
ghost use Rattle.usb_disk.specs.Answers.{alternate_of, has_pipe};
ghost use Rattle.xhci_machine.specs.Bulk.{asked_in, bulk_breaks, bulk_broken, bulk_home, bulk_of, bulk_turned, bulk_wanted, ended_if};
ghost use Rattle.xhci_machine.specs.Bus.{bulk_forgotten, halted_by, has_bulk, has_no_tags, is_bulk, pipe_fault, pipe_named, stalled_if, still_halted, stream_fault};
ghost use Rattle.xhci_machine.specs.Wanted.{stray_looked_by};

use crate::Machine;
use crate::changes::endpoint_id;
use crate::ring::pointer_home;
use crate::steps::{STALL_ERROR, TRANSACTION_ERROR};
use crate::wanting::{End, acts, needs};
use guest_bulk::{Halting, Stepped, through};
use guest_memory::rings::{EventRing, Home, Range};
use guest_memory::{GuestMemory, Outside};
use guest_pipes::Acted;
use guest_transfers::StreamPipe;
use uas_profile::Pipe;
use uas_tasks::Next;
use usb_disk::Alternate;

fn pipe_named(name: StreamPipe) -> Pipe
    ensures { result ≡ pipe_named name }
{
    match name {
        StreamPipe::Status => Pipe::Status,
        StreamPipe::DataOut => Pipe::DataOut,
        StreamPipe::DataIn => Pipe::DataIn,
    }
}

/// What a stream's TDs are told with, where there are none.
fn stalled_if(streams: bool, fault: Option<u8>) -> Option<u8>
    ensures { result ≡ stalled_if streams fault }
{
    match fault {
        Some(code) => Some(code),
        None => if streams { Some(STALL_ERROR) } else { None },
    }
}

/// A request as it is asked for a host of Bulk-Only, or of UAS.
pub(crate) fn asked_in(bulk: bool, next: Next) -> Next
    ensures { result ≡ asked_in bulk next }
{
    match next {
        Next::Asks { number, request } if bulk => Next::Asks {
            number,
            request: through(request),
        },
        Next::Absent
        | Next::Asks { .. }
        | Next::Waits
        | Next::Gives(_)
        | Next::Takes(_)
        | Next::Ends => next,
    }
}

impl Machine {
    /// Whether the disk is in Bulk-Only's alternate setting.
    pub(crate) fn is_bulk(&self) -> bool
        ensures { result ≡ is_bulk self.now }
    {
        matches!(self.control.alternate(), Alternate::BulkOnly)
    }

    /// Whether nothing serves tags, which are UAS's alone.
    pub(crate) fn has_no_tags(&self) -> bool
        ensures { result ≡ has_no_tags self.now }
    {
        self.is_silent() || self.is_bulk()
    }

    fn has_pipe(&self, pipe: Pipe) -> bool
        ensures { result ≡ has_pipe (alternate_of self.now.control.disk.settings) pipe }
    {
        match (self.control.alternate(), pipe) {
            (Alternate::BulkOnly, Pipe::Command | Pipe::Status) => false,
            (Alternate::BulkOnly, Pipe::DataIn | Pipe::DataOut) | (Alternate::Uas, _) => true,
        }
    }

    /// What the TDs of an endpoint are told with that isn't served.
    pub(crate) fn pipe_fault(&self, pipe: Pipe) -> Option<u8>
        ensures { result ≡ pipe_fault self.now pipe }
    {
        if self.is_silent() || !self.has_pipe(pipe) {
            Some(TRANSACTION_ERROR)
        } else if self.control.is_halted(pipe) {
            Some(STALL_ERROR)
        } else {
            None
        }
    }

    /// The same of a pipe that may have streams, which Bulk-Only hasn't.
    pub(crate) fn stream_fault(&self, name: StreamPipe) -> Option<u8>
        ensures { result ≡ stream_fault self.now name }
    {
        let streams = self.is_bulk() && !self.transfers.pipe(name).is_alone();
        stalled_if(streams, self.pipe_fault(pipe_named(name)))
    }

    /// Whether Bulk-Only's transport stands at the end of an endpoint's ring, also while that isn't served.
    pub(crate) fn has_bulk(&self, name: StreamPipe) -> bool
        ensures { result ≡ has_bulk self.now name }
    {
        self.is_bulk() && (self.has_pipe(pipe_named(name)) && self.transfers.pipe(name).is_alone())
    }

    /// The disk halts endpoints.
    fn halt(&mut self, halting: Halting)
        ensures { self.new ≡ halted_by halting self.old }
    {
        match halting {
            Halting::Nothing => (),
            Halting::BulkIn => self.control.halt(Pipe::DataIn),
            Halting::BulkOut => self.control.halt(Pipe::DataOut),
            Halting::Both => {
                self.control.halt(Pipe::DataIn);
                self.control.halt(Pipe::DataOut);
            }
        }
    }

    /// Behind what was no CBW both endpoints stay halted until the reset, whatever the host clears (BOT 6.6.1).
    pub(crate) fn keep_halted(&mut self)
        ensures { self.new ≡ still_halted self.old }
    {
        if self.bulk.is_reset_due() {
            self.halt(Halting::Both);
        }
    }

    /// What was moved of the ring in front of an endpoint is forgotten.
    pub(crate) fn forget_bulk(&mut self, name: StreamPipe)
        ensures { self.new ≡ bulk_forgotten name self.old }
    {
        match name {
            StreamPipe::Status => (),
            StreamPipe::DataOut => self.bulk.forget_out(),
            StreamPipe::DataIn => self.bulk.forget_in(),
        }
    }

    /// Every task is gone.
    pub(crate) fn end_tasks_if(&mut self, ends: bool)
        ensures { self.new ≡ ended_if ends self.old }
    {
        if ends {
            self.device.end_tasks();
        }
    }

    fn bulk_home(&self, name: StreamPipe) -> Home
        ensures { result ≡ bulk_home self.now name }
    {
        Home::Endpoint {
            at: pointer_home(self.slot.context, endpoint_id(name)),
        }
    }

    /// A step of Bulk-Out or Bulk-In, whose TDs are told with this code where the endpoint isn't served. Refused where a byte of the event's
    /// place, of the ring's end or of the TRB isn't there, and then nothing changes.
    fn step_bulk<M: GuestMemory>(
        &mut self,
        memory: &mut M,
        events: &mut EventRing,
        fault: Option<u8>,
        name: StreamPipe,
    ) -> Result<Acted, Outside>
        ensures stepped { (record { memory = M.contents memory.new; events = events.new; machine = self.new }, result_ok result)
            ≡ bulk_of fault (record { memory = M.contents memory.old; events = events.old; machine = self.old }) name }
        ensures same_loan { M.loan memory.new ≡ M.loan memory.old }
    {
        let home = self.bulk_home(name);
        let mut consumer = self.transfers.pipe(name).consumer(0);
        let stepped = match name {
            StreamPipe::Status => return Ok(Acted::Idle),
            StreamPipe::DataOut => {
                self.bulk.step_out(memory, events, &mut consumer, &mut self.device, fault, home)?
            }
            StreamPipe::DataIn => {
                self.bulk.step_in(memory, events, &mut consumer, &mut self.device, fault, home)?
            }
        };
        self.transfers.keep_lone(name, &consumer);
        Ok(self.finish_bulk(stepped))
    }

    /// Whether the disk halts an endpoint now, whether a TD is there or not.
    pub(crate) fn breaks(&self, name: StreamPipe) -> bool
        ensures { result ≡ bulk_breaks self.now name }
    {
        match name {
            StreamPipe::Status => false,
            StreamPipe::DataOut => self.bulk.breaks_out(&self.device),
            StreamPipe::DataIn => self.bulk.breaks_in(&self.device),
        }
    }

    fn break_now(&mut self, name: StreamPipe) -> Acted
        ensures broken { (memory : Memory) (events : EventEnd) → (record { memory = memory; events = events; machine = self.new }, Some result)
            ≡ bulk_broken (record { memory = memory; events = events; machine = self.old }) name }
    {
        let stepped = match name {
            StreamPipe::Status => None,
            StreamPipe::DataOut => self.bulk.break_out(&mut self.device),
            StreamPipe::DataIn => self.bulk.break_in(&mut self.device),
        };
        match stepped {
            Some(stepped) => self.finish_bulk(stepped),
            None => Acted::Idle,
        }
    }

    /// The turn of Bulk-Out or of Bulk-In, which isn't served where there is a code for its TDs.
    pub(crate) fn turn_bulk<M: GuestMemory>(
        &mut self,
        memory: &mut M,
        events: &mut EventRing,
        fault: Option<u8>,
        name: StreamPipe,
    ) -> Result<Acted, Outside>
        ensures stepped { (record { memory = M.contents memory.new; events = events.new; machine = self.new }, result_ok result)
            ≡ bulk_turned fault (record { memory = M.contents memory.old; events = events.old; machine = self.old }) name }
        ensures same_loan { M.loan memory.new ≡ M.loan memory.old }
    {
        match fault {
            Some(_) => self.step_bulk(memory, events, fault, name),
            None => if self.breaks(name) {
                Ok(self.break_now(name))
            } else {
                self.step_bulk(memory, events, None, name)
            },
        }
    }

    fn finish_bulk(&mut self, stepped: Stepped) -> Acted
        ensures machine { self.new ≡ ended_if stepped.ends (halted_by stepped.halts self.old) }
        ensures acted { result ≡ stepped.acted }
    {
        self.halt(stepped.halts);
        self.end_tasks_if(stepped.ends);
        stepped.acted
    }

    /// The first range that [`Machine::step_bulk`] lacks.
    pub(crate) fn wants_bulk<M: GuestMemory>(
        &self,
        memory: &M,
        events: &EventRing,
        fault: Option<u8>,
        name: StreamPipe,
    ) -> Option<Range>
        ensures { result ≡ bulk_wanted fault (M.contents memory.now) self.now events.now name }
    {
        let home = self.bulk_home(name);
        let consumer = self.transfers.pipe(name).consumer(0);
        match name {
            StreamPipe::Status => None,
            StreamPipe::DataOut => {
                self.bulk
                    .wants_out(memory, events, &consumer, &self.device, fault, home)
            }
            StreamPipe::DataIn => {
                self.bulk
                    .wants_in(memory, events, &consumer, &self.device, fault, home)
            }
        }
    }

    /// A step of Bulk-Out or Bulk-In may wait, so the look goes on behind one that lacks nothing.
    pub(crate) fn look_rung<M: GuestMemory>(
        &self,
        memory: &M,
        events: &EventRing,
        name: StreamPipe,
    ) -> Result<(), End>
        ensures { result ≡ stray_looked_by (stream_fault self.now name) (has_bulk self.now name) (M.contents memory.now) self.now events.now name }
    {
        match (self.stream_fault(name), self.has_bulk(name)) {
            (Some(_), false) => acts(self.transfers.wants_silent(memory, events, name)),
            (None, false) => acts(self.transfers.wants_stray(memory, events, name)),
            (Some(code), true) => acts(self.wants_bulk(memory, events, Some(code), name)),
            (None, true) => if self.breaks(name) {
                acts(None)
            } else {
                needs(self.wants_bulk(memory, events, None, name))
            },
        }
    }
}
