//! What the controller's commands make of the pipes, and what is left to do for a tag.
ghost use Rattle.std.specs.Prelude.{◌≡◌, ◌+◌, ◌<◌, ◌≤◌, ◌^◌, ℕ, get_or, set, Some, None, true, false, Bool, is_ok, is_some, option_map, unwrap_or};
ghost use Rattle.std.specs.Result.{result_ok};
ghost use Rattle.guest_pipes.specs.Gate.{after, stop_looked};
ghost use Rattle.guest_pipes.specs.Step.{has_place};
ghost use Rattle.guest_pipes.specs.Pipe.{PipeState, disabled, home_of, loaded, progress_on, stopped};
ghost use Rattle.guest_pipes.specs.Orders.{PipeWorld, dequeue_set, stray_stepped};
ghost use Rattle.guest_tags.specs.DataIn.{has_chunk};
ghost use Rattle.guest_tags.specs.Devices.{Kind};
ghost use Rattle.guest_transfers.specs.State.{TransfersWorld, slot_of};
ghost use Rattle.guest_transfers.specs.Steps.{in_stepped, out_stepped};
ghost use Rattle.guest_transfers.specs.Orders.{pipe_added, pipe_kept, pipe_reset, dequeue_kept, dequeue_moved, unit_forgotten, units_forgotten, command_configured, command_disabled, command_forgotten, command_stopped, chunk_dropped, data_stepped, dropped_in, drops_now, has_begun_data, has_task, has_work, left_dropped, or_out, pipe_of, with_pipe, tags_cleared, lone_forgotten, lone_kept, stray_on};
ghost use Rattle.guest_memory.specs.Bytes.{Memory};
ghost use Rattle.guest_memory.specs.rings.Events.{EventEnd};

use crate::calls::{TAG_SLOTS, Transfers};
use crate::slot::{empty_all, forget_statuses};
use guest_memory::rings::{Cursor, EventRing};
use guest_memory::{GuestMemory, Outside};
use guest_pipes::{Acted, Consumer, EndpointState, Pipe, Progress, room_gate};
use guest_tags::{Phase, UasDevice};

/// A pipe with streams.
#[derive(Clone, Copy, Debug, PartialEq, Eq)]
pub enum StreamPipe {
    /// Endpoint 3.
    Status,
    /// Endpoint 4.
    DataOut,
    /// Endpoint 5.
    DataIn,
}

impl Transfers {
    /// A pipe with streams.
    pub fn pipe(&self, name: StreamPipe) -> &Pipe
        ensures { result.now ≡ pipe_of self.now name }
    {
        match name {
            StreamPipe::Status => &self.status,
            StreamPipe::DataOut => &self.data_out,
            StreamPipe::DataIn => &self.data_in,
        }
    }

    /// The command pipe's consumer.
    pub fn command(&self) -> Consumer
        ensures { result ≡ self.now.command }
    {
        self.command
    }

    /// Adds a pipe with streams: its array of stream contexts, and how many it has (Configure Endpoint). Where that is 0 it has no streams but
    /// one ring, and `array` is the address of that ring's dequeue pointer in the endpoint context.
    pub fn configure(&mut self, name: StreamPipe, array: u64, streams: u16)
        requires { streams ≤ 256 }
        ensures { self.new ≡ pipe_added self.old name array streams }
    {
        match name {
            StreamPipe::Status => self.status.configure(array, streams),
            StreamPipe::DataOut => self.data_out.configure(array, streams),
            StreamPipe::DataIn => self.data_in.configure(array, streams),
        }
        self.forget_units(name);
    }

    /// Drops a pipe with streams (Configure Endpoint).
    pub fn disable(&mut self, name: StreamPipe)
        ensures { self.new ≡ with_pipe self.old name (disabled (pipe_of self.old name).endpoint) }
    {
        match name {
            StreamPipe::Status => self.status.disable(),
            StreamPipe::DataOut => self.data_out.disable(),
            StreamPipe::DataIn => self.data_in.disable(),
        }
    }

    /// Stops a pipe with streams (Stop Endpoint): its doorbells are forgotten, and what is opaque stays. The caller tells of the rings
    /// whose front TD was begun, by [`Pipe::tell_stopped`].
    pub fn stop(&mut self, name: StreamPipe)
        ensures { self.new ≡ with_pipe self.old name (stopped (pipe_of self.old name)) }
    {
        match name {
            StreamPipe::Status => self.status.stop(),
            StreamPipe::DataOut => self.data_out.stop(),
            StreamPipe::DataIn => self.data_in.stop(),
        }
    }

    /// Brings a pipe with streams from halted to stopped (Reset Endpoint); what is opaque stays where `keeps` (TSP).
    pub fn reset(&mut self, name: StreamPipe, keeps: bool)
        ensures { self.new ≡ pipe_reset keeps self.old name }
    {
        match name {
            StreamPipe::Status => self.status.reset(keeps),
            StreamPipe::DataOut => self.data_out.reset(keeps),
            StreamPipe::DataIn => self.data_in.reset(keeps),
        }
        if !keeps {
            self.forget_units(name);
        }
    }

    /// The information unit that the TD of a status stream had begun goes from its start.
    fn forget_unit(&mut self, name: StreamPipe, stream: u16)
        ensures { self.new ≡ unit_forgotten self.old name stream }
    {
        match name {
            StreamPipe::Status => {
                if usize::from(stream) < TAG_SLOTS {
                    self.tags[usize::from(stream)].forget_status();
                }
            }
            StreamPipe::DataOut | StreamPipe::DataIn => (),
        }
    }

    /// The same of all streams of a pipe.
    fn forget_units(&mut self, name: StreamPipe)
        ensures { self.new ≡ units_forgotten self.old name }
    {
        match name {
            StreamPipe::Status => forget_statuses(&mut self.tags),
            StreamPipe::DataOut | StreamPipe::DataIn => (),
        }
    }

    fn set_pipe<M: GuestMemory>(
        &mut self,
        memory: &mut M,
        name: StreamPipe,
        stream: u16,
        cursor: Cursor,
        kind: u8,
    ) -> Result<(), Outside>
        requires stream { stream < 256 }
        requires kind { kind < 8 }
        ensures done { is_ok result ≡ is_some (dequeue_set (M.contents memory.old) (pipe_of self.old name) stream cursor kind) }
        ensures after { (M.contents memory.new, self.new) ≡ unwrap_or (option_map (pipe_kept self.old name)
            (dequeue_set (M.contents memory.old) (pipe_of self.old name) stream cursor kind)) (M.contents memory.old, self.old) }
        ensures same_loan { M.loan memory.new ≡ M.loan memory.old }
    {
        match name {
            StreamPipe::Status => self.status.set_dequeue(memory, stream, cursor, kind),
            StreamPipe::DataOut => self.data_out.set_dequeue(memory, stream, cursor, kind),
            StreamPipe::DataIn => self.data_in.set_dequeue(memory, stream, cursor, kind),
        }
    }

    /// Sets the dequeue pointer of a stream that is there, with a type (SCT), and forgets what was moved; an endpoint in error is
    /// stopped (Set TR Dequeue Pointer). A chunk in a tag's buffer stays. Refused where the stream's context isn't there, and then
    /// nothing changes.
    pub fn set_dequeue<M: GuestMemory>(
        &mut self,
        memory: &mut M,
        name: StreamPipe,
        stream: u16,
        cursor: Cursor,
        kind: u8,
    ) -> Result<(), Outside>
        requires stream { stream < 256 }
        requires kind { kind < 8 }
        ensures after { (M.contents memory.new, self.new) ≡ unwrap_or (dequeue_moved (M.contents memory.old) self.old name stream cursor kind) (M.contents memory.old, self.old) }
        ensures done { is_ok result ≡ is_some (dequeue_moved (M.contents memory.old) self.old name stream cursor kind) }
        ensures same_loan { M.loan memory.new ≡ M.loan memory.old }
    {
        self.set_pipe(memory, name, stream, cursor, kind)?;
        self.forget_unit(name, stream);
        Ok(())
    }

    /// Forgets what was moved of the one ring of a pipe without streams; an endpoint in error is stopped (Set TR Dequeue Pointer).
    pub fn forget_lone(&mut self, name: StreamPipe)
        ensures { self.new ≡ lone_forgotten self.old name }
    {
        match name {
            StreamPipe::Status => self.status.forget(0),
            StreamPipe::DataOut => self.data_out.forget(0),
            StreamPipe::DataIn => self.data_in.forget(0),
        }
    }

    /// Keeps the consumer of the one ring of a pipe without streams once it has changed.
    pub fn keep_lone(&mut self, name: StreamPipe, consumer: &Consumer)
        ensures { self.new ≡ lone_kept self.old name consumer.now }
    {
        match name {
            StreamPipe::Status => self.status.keep(0, consumer),
            StreamPipe::DataOut => self.data_out.keep(0, consumer),
            StreamPipe::DataIn => self.data_in.keep(0, consumer),
        }
    }

    /// Adds the command pipe, whose dequeue pointer has this address (Configure Endpoint).
    pub fn configure_command(&mut self, home: u64)
        ensures { self.new ≡ command_configured self.old home }
    {
        self.command = Consumer {
            endpoint: 2,
            state: EndpointState::Running,
            rung: false,
            progress: Progress::fresh(),
        };
        self.home = home;
        self.gathered.clear();
    }

    /// Drops the command pipe (Configure Endpoint).
    pub fn disable_command(&mut self)
        ensures { self.new ≡ command_disabled self.old }
    {
        self.command = Consumer {
            endpoint: 2,
            state: EndpointState::Disabled,
            rung: false,
            progress: Progress::fresh(),
        };
        self.home = 0;
        self.gathered.clear();
    }

    /// Stops the command pipe (Stop Endpoint): its doorbell is forgotten, and what is opaque stays.
    pub fn stop_command(&mut self)
        ensures { self.new ≡ command_stopped self.old }
    {
        self.command.state = EndpointState::Stopped;
        self.command.rung = false;
    }

    /// Forgets the TD that the command pipe began, and leaves its endpoint in this state (Set TR Dequeue Pointer, Reset Endpoint).
    pub fn forget_command(&mut self, state: EndpointState)
        ensures { self.new ≡ command_forgotten self.old state }
    {
        self.command.state = state;
        self.command.progress = Progress::fresh();
        self.gathered.clear();
    }

    /// Nothing is kept of any tag any more: the device was reset, and every task is gone.
    pub fn clear_tags(&mut self)
        ensures { self.new ≡ tags_cleared self.old }
    {
        empty_all(&mut self.tags);
    }

    /// A step for a doorbell of a pipe that no stream's turn serves: of a stream that isn't there, which posts Invalid Stream ID and halts the
    /// endpoint, or of a pipe without streams, whose TDs are told with this code. Refused where a byte of the event's place, of the ring's end
    /// or of the TRB there isn't there, and then nothing changes.
    pub fn step_stray<M: GuestMemory>(
        &mut self,
        memory: &mut M,
        events: &mut EventRing,
        name: StreamPipe,
        code: u8,
    ) -> Result<Acted, Outside>
        ensures step { (M.contents memory.new, (events.new, (self.new, result_ok result)))
            ≡ stray_on code (M.contents memory.old) events.old self.old name }
        ensures same_loan { M.loan memory.new ≡ M.loan memory.old }
    {
        match name {
            StreamPipe::Status => self.status.step_stray(memory, events, code),
            StreamPipe::DataOut => self.data_out.step_stray(memory, events, code),
            StreamPipe::DataIn => self.data_in.step_stray(memory, events, code),
        }
    }

    /// Drops the next chunk of a tag that gives so many bytes.
    #[tactic(auto, unfolding(crate::specs::Orders::chunk_dropped))]
    fn drop_chunk<D: UasDevice>(&mut self, device: &mut D, tag: u16, count: usize)
        requires tag { tag < 241 }
        requires gives { D.kind.phase (D.state device.old) tag ≡ Phase.Gives count }
        requires most { count ≤ 4096 }
        ensures step { (memory : Memory) (events : EventEnd) → record { memory = memory; events = events; transfers = self.new; device = D.state device.new }
            ≡ chunk_dropped D.kind (record { memory = memory; events = events; transfers = self.old; device = D.state device.old }) tag }
    {
        let slot = &mut self.tags[usize::from(tag)];
        slot.tag.chunk.refill(device, tag, count);
        slot.tag.chunk.clear();
    }

    /// A step that drops the next chunk of a tag that gives so many bytes.
    fn step_drop<M: GuestMemory, D: UasDevice>(
        &mut self,
        memory: &M,
        events: &EventRing,
        device: &mut D,
        tag: u16,
        count: usize,
    ) -> Result<Acted, Outside>
        requires tag { tag < 241 }
        requires gives { D.kind.phase (D.state device.old) tag ≡ Phase.Gives count }
        requires most { count ≤ 4096 }
        ensures step { (record { memory = M.contents memory.now; events = events.now; transfers = self.new; device = D.state device.new }, result_ok result)
            ≡ dropped_in D.kind (record { memory = M.contents memory.now; events = events.now; transfers = self.old; device = D.state device.old }) tag }
    {
        match room_gate(memory, events)? {
            Some(acted) => Ok(acted),
            None => {
                self.drop_chunk(device, tag, count);
                Ok(Acted::Worked)
            }
        }
    }

    /// A step of data-in, and where that did nothing, of data-out.
    fn step_moved<M: GuestMemory, D: UasDevice>(
        &mut self,
        memory: &mut M,
        events: &mut EventRing,
        device: &mut D,
        tag: u16,
    ) -> Result<Acted, Outside>
        requires { tag < 241 }
        ensures step { (record { memory = M.contents memory.new; events = events.new; transfers = self.new; device = D.state device.new }, result_ok result)
            ≡ or_out D.kind (in_stepped D.kind (record { memory = M.contents memory.old; events = events.old; transfers = self.old; device = D.state device.old }) tag) tag }
        ensures same_loan { M.loan memory.new ≡ M.loan memory.old }
    {
        match self.step_data_in(memory, events, device, tag) {
            Err(Outside) => Err(Outside),
            Ok(Acted::Worked) => Ok(Acted::Worked),
            Ok(Acted::Emptied) => Ok(Acted::Emptied),
            Ok(Acted::Off) | Ok(Acted::Idle) | Ok(Acted::Full) | Ok(Acted::Waits) => {
                self.step_data_out(memory, events, device, tag)
            }
        }
    }

    /// A step for a tag's data: a chunk that is dropped, where a buffer of its task wasn't there; else of data-in, and where that did
    /// nothing, of data-out. Refused where a byte of the event's place, of a stream's context or of a TRB isn't there, and then nothing
    /// changes.
    pub fn step_data<M: GuestMemory, D: UasDevice>(
        &mut self,
        memory: &mut M,
        events: &mut EventRing,
        device: &mut D,
        tag: u16,
    ) -> Result<Acted, Outside>
        requires { tag < 241 }
        ensures step { (record { memory = M.contents memory.new; events = events.new; transfers = self.new; device = D.state device.new }, result_ok result)
            ≡ data_stepped D.kind (record { memory = M.contents memory.old; events = events.old; transfers = self.old; device = D.state device.old }) tag }
        ensures same_loan { M.loan memory.new ≡ M.loan memory.old }
    {
        match device.phase(tag) {
            Phase::Gives(count) => {
                if self.tags[usize::from(tag)].tag.drops {
                    self.step_drop(memory, events, device, tag, count)
                } else {
                    self.step_moved(memory, events, device, tag)
                }
            }
            Phase::Absent | Phase::Takes(_) | Phase::Ended(_) => {
                self.step_moved(memory, events, device, tag)
            }
        }
    }

    /// Whether something of a tag's chunk is left.
    pub fn has_chunk(&self, tag: u16) -> bool
        requires { tag < 241 }
        ensures { result ≡ has_chunk (slot_of self.now tag).tag }
    {
        self.tags[usize::from(tag)].tag.has_chunk()
    }

    /// What a task that is gone has left of its chunk is dropped.
    pub fn drop_left(&mut self, tag: u16)
        requires { tag < 241 }
        ensures { self.new ≡ left_dropped self.old tag }
    {
        self.tags[usize::from(tag)].tag.chunk.clear();
    }

    /// Whether a data TD of a tag was begun and isn't over.
    fn has_begun_data(&self, tag: u16) -> bool
        requires { tag < 241 }
        ensures { result ≡ has_begun_data self.now tag }
    {
        self.data_in.consumer(tag).progress.begun || self.data_out.consumer(tag).progress.begun
    }

    /// Whether a tag has something to do, by what the device does next on it: a task, an information unit on its way, an overlap to be
    /// answered, a status TD whose rest is skipped, or a data TD that was begun.
    pub fn has_work(&self, tag: u16, phase: Phase) -> bool
        requires { tag < 241 }
        ensures { result ≡ has_work self.now tag phase }
    {
        let slot = &self.tags[usize::from(tag)];
        let task = phase != Phase::Absent;
        task || (slot.tag.has_unit()
            || (slot.tag.overlaps != 0
                || (!self.status.consumer(tag).progress.ending.runs() || self.has_begun_data(tag))))
    }
}
