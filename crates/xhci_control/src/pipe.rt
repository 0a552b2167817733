//! The ring of endpoint 0, served one TRB a step.
ghost use Rattle.std.specs.Prelude.{◌≡◌, ◌+◌, ◌-◌, ◌<◌, ◌≤◌, ◌^◌, ◌==◌, ◌&&◌, ℕ, IfOk, Bool, true, false, Option, Some, None, length as list_length, min, take, option_map, is_some, unwrap_or, is_ok};
ghost use Rattle.std.specs.Result.{result_ok};
ghost use Rattle.byteorder.specs.Endian.{little_number};
ghost use Rattle.guest_memory.specs.Bytes.{bytes_from, is_there};
ghost use Rattle.guest_pipes.specs.Step.{has_home, has_place};
ghost use Rattle.guest_memory.specs.declared.rings.context.Home.TheVariants.{Endpoint};
ghost use Rattle.guest_memory.specs.rings.Ends.{cursor_in, fetched, looked};
ghost use Rattle.usb_disk.specs.Answers.{alternate_of, is_halted};
ghost use Rattle.xhci_control.specs.Stages.{left};
ghost use Rattle.xhci_control.specs.Steps.{ControlWorld, asked, configured, consumer_in, control_stopped, cursor_at, data_ended, disabled, disk_reset, opened_over, pipe_halted, forgotten, front_at};
ghost use Rattle.xhci_control.specs.Steps.{gave, gone_to, halt_reset, is_in_data, left_in, moved_by, moved_data, opened, rung_in, served_by, sets_address, stalled, stepped, stopped};
ghost use Rattle.xhci_control.specs.Steps.{taken_by, taken_count, took, took_by, took_data, took_normal, took_other, took_setup, took_status, trb_ended, after};

use crate::served::{idle, worked};
use crate::stage::Stage;
use crate::trb::{ControlTrb, read_control};
use byteorder::{ByteOrder, LittleEndian};
use guest_memory::rings::{Cursor, Event, EventRing, Found, Front, Home, Words, fetch, look};
use guest_memory::{GuestMemory, Outside};
use guest_pipes::{Acted, Consumer, EndpointState, Progress};
use uas_profile::Pipe;
use usb_disk::{Alternate, Answer, Setup, UsbDisk};

/// Stall Error (table 6-90).
pub(crate) const STALL_ERROR: u8 = 6;

/// Stopped (table 6-90).
const STOPPED: u8 = 26;

/// Short Packet (table 6-90).
const SHORT_PACKET: u8 = 13;

/// Endpoint 0's ID.
pub(crate) const CONTROL_ENDPOINT: u8 = 1;

/// What a step did, whether it ended every task of the disk, and whether it ended Bulk-Only Transport's command alone.
#[derive(Clone, Copy, Debug, PartialEq, Eq)]
pub struct Served {
    pub acted: Acted,
    pub restarted: bool,
    pub bulk_reset: bool,
}

/// Endpoint 0: its consumer, the address of its dequeue pointer, the disk's answers, and where its control transfer is.
#[derive(Debug, Drop)]
pub struct ControlPipe {
    pub consumer: Consumer,
    pub home: u64,
    pub disk: UsbDisk,
    pub stage: Stage,
}

fn consumer_in(state: EndpointState) -> Consumer
    ensures { result ≡ consumer_in state }
{
    Consumer {
        endpoint: CONTROL_ENDPOINT,
        state,
        rung: false,
        progress: Progress::fresh(),
    }
}

/// The cursor that is kept in a dequeue pointer's quadword. Refused where a byte of it isn't there.
pub(crate) fn cursor_at<M: GuestMemory>(memory: &M, at: u64) -> Result<Cursor, Outside>
    ensures cursor { result_ok result ≡ cursor_at (M.contents memory.now) at }
    ensures there { IfOk result (λ cursor. is_there (M.contents memory.now) at 8 ≡ true) }
{
    let mut bytes = [0; 8];
    memory.read(at, &mut bytes)?;
    Ok(Cursor::of_number(LittleEndian::read_u64(&bytes)))
}

/// SET_ADDRESS (USB 3.2, 9.4.6).
pub(crate) fn sets_address(setup: &Setup) -> bool
    ensures { result ≡ sets_address setup.now }
{
    setup.request_type == 0 && setup.request == 5
}

impl ControlPipe {
    /// Disabled, over a disk of UAS alone that isn't configured.
    pub fn new() -> ControlPipe
        ensures { result ≡ opened }
    {
        ControlPipe::over(UsbDisk::uas_alone())
    }

    /// Disabled, over this disk.
    pub fn over(disk: UsbDisk) -> ControlPipe
        ensures { result ≡ opened_over disk }
    {
        ControlPipe {
            consumer: consumer_in(EndpointState::Disabled),
            home: 0,
            disk,
            stage: Stage::Setup,
        }
    }

    /// Its endpoint's state.
    pub fn state(&self) -> EndpointState
        ensures { result ≡ self.now.consumer.state }
    {
        self.consumer.state
    }

    /// Whether the disk is configured.
    pub fn is_configured(&self) -> bool
        ensures { result ≡ self.now.disk.configured }
    {
        self.disk.configured
    }

    /// What carries commands in the disk's current alternate setting.
    pub fn alternate(&self) -> Alternate
        ensures { result ≡ alternate_of self.now.disk.settings }
    {
        self.disk.alternate()
    }

    /// Whether a pipe's endpoint is halted, by the host's SET_FEATURE or by the disk.
    pub fn is_halted(&self, pipe: Pipe) -> bool
        ensures { result ≡ is_halted self.now.disk.halts pipe }
    {
        self.disk.halts.has(pipe)
    }

    /// The disk halts a pipe's endpoint (USB 3.2, 9.4.5).
    pub fn halt(&mut self, pipe: Pipe)
        ensures { self.new ≡ pipe_halted self.old pipe }
    {
        self.disk.halt(pipe);
    }

    /// Whether its TD in front was begun.
    pub fn is_begun(&self) -> bool
        ensures { result ≡ self.now.consumer.progress.begun }
    {
        self.consumer.progress.begun
    }

    /// Runs, from the dequeue pointer at this address on (Address Device).
    pub fn configure(&mut self, home: u64)
        ensures { self.new ≡ configured self.old home }
    {
        self.consumer = consumer_in(EndpointState::Running);
        self.home = home;
        self.stage = Stage::Setup;
    }

    /// Disabled (Disable Slot, a reset of the controller).
    pub fn disable(&mut self)
        ensures { self.new ≡ disabled self.old }
    {
        self.consumer = consumer_in(EndpointState::Disabled);
        self.home = 0;
        self.stage = Stage::Setup;
    }

    /// The device was reset: it isn't configured, and is in its first alternate setting.
    pub fn reset_disk(&mut self)
        ensures { self.new ≡ disk_reset self.old }
    {
        self.disk.reset();
        self.stage = Stage::Setup;
    }

    /// A doorbell (4.7). It starts an endpoint that is stopped; of one that is disabled, halted or in error it does nothing.
    pub fn ring_doorbell(&mut self)
        ensures { self.new ≡ rung_in self.old.consumer.state self.old }
    {
        match self.consumer.state {
            EndpointState::Disabled | EndpointState::Halted | EndpointState::Error => (),
            EndpointState::Running | EndpointState::Stopped => {
                self.consumer.state = EndpointState::Running;
                self.consumer.rung = true;
            }
        }
    }

    /// Stops it (Stop Endpoint): its doorbell is forgotten, and what is opaque stays.
    pub fn stop(&mut self)
        ensures { self.new ≡ stopped self.old }
    {
        self.consumer.state = EndpointState::Stopped;
        self.consumer.rung = false;
    }

    /// From halted to stopped (Reset Endpoint); what is opaque stays where `keeps` (TSP).
    pub fn reset(&mut self, keeps: bool)
        ensures { self.new ≡ halt_reset keeps self.old }
    {
        self.consumer.state = EndpointState::Stopped;
        if !keeps {
            self.forget();
        }
    }

    /// Its dequeue pointer was set: what was moved is forgotten, and so is the control transfer (Set TR Dequeue Pointer).
    pub fn forget(&mut self)
        ensures { self.new ≡ forgotten self.old }
    {
        self.consumer.state = self.consumer.state.recover();
        self.consumer.progress = Progress::fresh();
        self.stage = Stage::Setup;
    }

    /// Posts what Stop Endpoint posts of its ring where its front TD was begun (4.6.9). Refused where a byte of the ring's end or of the
    /// TRB there isn't there, and then nothing changes.
    #[tactic(auto, unfolding(guest_pipes::specs::Step::posted))]
    pub fn tell_stopped<M: GuestMemory>(
        &self,
        memory: &mut M,
        events: &mut EventRing,
    ) -> Result<(), Outside>
        requires room { has_place (M.contents memory.old) events.old ≡ true }
        ensures step { record { memory = M.contents memory.new; events = events.new; consumer = self.now.consumer }
            ≡ unwrap_or (control_stopped (record { memory = M.contents memory.old; events = events.old; pipe = self.now }))
            (record { memory = M.contents memory.old; events = events.old; consumer = self.now.consumer }) }
        ensures done { is_ok result ≡ is_some (control_stopped (record { memory = M.contents memory.old; events = events.old; pipe = self.now })) }
        ensures same_loan { M.loan memory.new ≡ M.loan memory.old }
    {
        let home = Home::Endpoint { at: self.home };
        let front = look(memory, home)?;
        match self.stage_left(memory, front.cursor) {
            Some(residual) if self.consumer.progress.ending.code() != SHORT_PACKET => {
                let event = Event::Transfer {
                    pointer: front.cursor.place,
                    residual,
                    code: STOPPED,
                    endpoint: self.consumer.endpoint,
                    event_data: false,
                };
                events.post(memory, &event, false);
                Ok(())
            }
            Some(_) | None => self.consumer.tell_stopped(memory, events, home),
        }
    }

    /// What is left of the Data Stage TRB at a cursor; none where another stands there.
    fn stage_left<M: GuestMemory>(&self, memory: &M, cursor: Cursor) -> Option<u32>
        ensures { result ≡ left_in self.now.consumer (fetched (M.contents memory.now) cursor) }
    {
        match fetch(memory, cursor) {
            Ok(Some(words)) => match read_control(words) {
                ControlTrb::DataStage { length, .. } => {
                    Some(length.saturating_sub(self.consumer.progress.moved))
                }
                ControlTrb::SetupStage { .. }
                | ControlTrb::StatusStage { .. }
                | ControlTrb::Other(_) => None,
            },
            Ok(None) | Err(Outside) => None,
        }
    }

    /// Takes the TRB in front, where there is one. Where nothing answers on the bus, a TRB that moves bytes is told with the code of that
    /// `fault`, and the endpoint halts. Refused where a byte of the event's place, of the ring's end or of the TRB isn't there, and then
    /// nothing changes.
    pub fn step<M: GuestMemory>(
        &mut self,
        memory: &mut M,
        events: &mut EventRing,
        fault: Option<u8>,
    ) -> Result<Served, Outside>
        ensures step { (record { memory = M.contents memory.new; events = events.new; pipe = self.new }, result_ok result)
            ≡ stepped fault (record { memory = M.contents memory.old; events = events.old; pipe = self.old }) }
        ensures same_loan { M.loan memory.new ≡ M.loan memory.old }
    {
        match self.consumer.gate(memory, events)? {
            Some(acted) => Ok(idle(acted)),
            None => self.serve(memory, events, fault),
        }
    }

    fn serve<M: GuestMemory>(
        &mut self,
        memory: &mut M,
        events: &mut EventRing,
        fault: Option<u8>,
    ) -> Result<Served, Outside>
        requires room { has_place (M.contents memory.old) events.old ≡ true }
        ensures step { (record { memory = M.contents memory.new; events = events.new; pipe = self.new }, result_ok result)
            ≡ after (record { memory = M.contents memory.old; events = events.old; pipe = self.old }) (served_by fault (record { memory = M.contents memory.old; events = events.old; pipe = self.old }) (cursor_at (M.contents memory.old) self.old.home)) }
        ensures same_loan { M.loan memory.new ≡ M.loan memory.old }
    {
        let cursor = cursor_at(memory, self.home)?;
        let words = fetch(memory, cursor)?;
        Ok(self.take_by(memory, events, cursor, words, fault))
    }

    fn take_by<M: GuestMemory>(
        &mut self,
        memory: &mut M,
        events: &mut EventRing,
        cursor: Cursor,
        words: Option<Words>,
        fault: Option<u8>,
    ) -> Served
        requires room { has_place (M.contents memory.old) events.old ≡ true }
        requires home { is_there (M.contents memory.old) self.old.home 8 ≡ true }
        ensures step { (record { memory = M.contents memory.new; events = events.new; pipe = self.new }, result)
            ≡ taken_by fault (record { memory = M.contents memory.old; events = events.old; pipe = self.old }) cursor words }
        ensures same_loan { M.loan memory.new ≡ M.loan memory.old }
    {
        match words {
            None => {
                self.consumer.rung = false;
                idle(Acted::Emptied)
            }
            Some(words) => {
                let front = front_at(self.home, cursor);
                self.take_or_tell(memory, events, front, read_control(words), fault)
            }
        }
    }

    fn take_or_tell<M: GuestMemory>(
        &mut self,
        memory: &mut M,
        events: &mut EventRing,
        front: Front,
        trb: ControlTrb,
        fault: Option<u8>,
    ) -> Served
        requires room { has_place (M.contents memory.old) events.old ≡ true }
        requires home { has_home (M.contents memory.old) front.home ≡ true }
        ensures step { (record { memory = M.contents memory.new; events = events.new; pipe = self.new }, result)
            ≡ took_by fault (record { memory = M.contents memory.old; events = events.old; pipe = self.old }) front trb }
        ensures same_loan { M.loan memory.new ≡ M.loan memory.old }
    {
        match fault {
            None => self.take(memory, events, front, trb),
            Some(code) => {
                self.tell_unanswered(memory, events, front, code, trb);
                worked()
            }
        }
    }

    fn take<M: GuestMemory>(
        &mut self,
        memory: &mut M,
        events: &mut EventRing,
        front: Front,
        trb: ControlTrb,
    ) -> Served
        requires room { has_place (M.contents memory.old) events.old ≡ true }
        requires home { has_home (M.contents memory.old) front.home ≡ true }
        ensures step { (record { memory = M.contents memory.new; events = events.new; pipe = self.new }, result)
            ≡ took (record { memory = M.contents memory.old; events = events.old; pipe = self.old }) front trb }
        ensures same_loan { M.loan memory.new ≡ M.loan memory.old }
    {
        match trb {
            ControlTrb::SetupStage { setup, flags } => {
                self.take_setup(memory, events, front, &setup, flags)
            }
            ControlTrb::DataStage {
                pointer,
                length,
                to_host,
                flags,
            } => {
                self.take_data(memory, events, front, pointer, length, to_host, flags);
                worked()
            }
            ControlTrb::StatusStage { flags } => {
                self.take_status(memory, events, front, flags);
                worked()
            }
            ControlTrb::Other(trb) => {
                self.take_other(memory, events, front, trb);
                worked()
            }
        }
    }
}

/// A cursor in the ring whose end is kept at an address.
fn front_at(home: u64, cursor: Cursor) -> Front
    ensures { result ≡ front_at home cursor }
{
    Front {
        home: Home::Endpoint { at: home },
        cursor,
        found: Found::NotYet,
    }
}
