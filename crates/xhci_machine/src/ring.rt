//! The command ring (xHCI 1.2, 4.6 and 4.9.3).
ghost use Rattle.std.specs.Prelude.{◌≡◌, true, false, is_ok, Some, None, OnErr, option_map, if◌then◌else◌};
ghost use Rattle.std.specs.Result.{result_ok};
ghost use Rattle.guest_pipes.specs.Step.{has_place};
ghost use Rattle.guest_memory.specs.rings.Ends.{behind};
ghost use Rattle.xhci_machine.specs.Effects.{idle_ring};
ghost use Rattle.xhci_machine.specs.Interrupter.{event_posted};
ghost use Rattle.xhci_machine.specs.Ring.{code_number, command_cursor, ended, has_command, on_slot_done};
ghost use Rattle.xhci_machine.specs.Ring.{pointer_home, slot_told, stood_at, stop_told};
ghost use Rattle.xhci_machine.specs.Steps.{command_ended, command_taken, commands_stepped, endpoint_command_taken, front_taken, link_followed, slot_command_taken};

use crate::Machine;
use crate::command::{Command, Order, read_command};
use crate::interrupts::post;
use crate::steps::TRANSACTION_ERROR;
use guest_memory::rings::{Cursor, Event, EventRing, fetch};
use guest_memory::{GuestMemory, Outside};
use guest_pipes::{Acted, room_gate};
use xhci_slots::{Code, SlotCommand};

/// The one slot.
pub(crate) const SLOT: u8 = 1;

/// Completion codes (table 6-90).
pub(crate) const SUCCESS: u8 = 1;

const TRB_ERROR: u8 = 5;

pub(crate) const SLOT_NOT_ENABLED: u8 = 11;

const NO_SLOTS_AVAILABLE: u8 = 9;

const COMMAND_RING_STOPPED: u8 = 24;

/// What is kept of the command ring beside CRCR: whether its doorbell is rung, whether its stop is still to be told, and the next stream
/// to be looked at by a Stop Endpoint that is under way.
#[derive(Clone, Copy, Debug, PartialEq, Eq)]
pub(crate) struct CommandRing {
    pub rung: bool,
    pub owes_stop: bool,
    pub stopping: Option<u16>,
}

/// How a command ended: its completion code, and the slot that its event names.
#[derive(Clone, Copy, Debug, PartialEq, Eq)]
pub(crate) struct Ended {
    pub code: u8,
    pub slot: u8,
}

impl CommandRing {
    pub fn idle() -> CommandRing
        ensures { result ≡ idle_ring }
    {
        CommandRing {
            rung: false,
            owes_stop: false,
            stopping: None,
        }
    }

    pub fn ring_doorbell(&mut self)
        ensures { self.new ≡ record self.old { rung = true } }
    {
        self.rung = true;
    }

    /// It was stopped by CS or CA: an event tells so.
    pub fn stop(&mut self)
        ensures { self.new ≡ record { rung = false; owes_stop = true; stopping = None } }
    {
        self.rung = false;
        self.owes_stop = true;
        self.stopping = None;
    }
}

fn number_of(code: Code) -> u8
    ensures { result ≡ code_number code }
{
    match code {
        Code::Success => SUCCESS,
        Code::NoSlotsAvailable => NO_SLOTS_AVAILABLE,
        Code::SlotNotEnabled => SLOT_NOT_ENABLED,
        Code::ParameterError => 17,
        Code::ContextStateError => 19,
    }
}

/// The slot that the event of a command on a slot names: the one that was given out, or the command's.
fn slot_told(slot: u8, command: SlotCommand, code: Code) -> u8
    ensures { result ≡ slot_told slot command code }
{
    match (command, code) {
        (SlotCommand::Enable, Code::Success) => SLOT,
        (SlotCommand::Enable, _) => 0,
        _ => slot,
    }
}

/// Where the dequeue pointer of an endpoint is in the device context at an address (6.2.3).
pub(crate) fn pointer_home(context: u64, endpoint: u8) -> u64
    ensures { result ≡ pointer_home context endpoint }
{
    context
        .wrapping_add(32 * u64::from(endpoint))
        .wrapping_add(8)
}

impl Machine {
    /// Whether the command ring's stop is to be told, or it is to be looked at.
    pub(crate) fn has_command(&self) -> bool
        ensures { result ≡ has_command self.now }
    {
        self.commands.owes_stop || self.registers.command_ring.runs && self.commands.rung
    }

    /// Where the next command is.
    pub(crate) fn command_cursor(&self) -> Cursor
        ensures { result ≡ command_cursor self.now }
    {
        Cursor {
            place: self.registers.command_ring.pointer,
            cycle: self.registers.command_ring.cycle,
        }
    }

    /// Takes the command in front, where there is one. Refused where memory that it needs isn't there.
    #[tactic(auto, unfolding(crate::specs::Steps::commands_stepped))]
    pub(crate) fn step_commands<M: GuestMemory>(
        &mut self,
        memory: &mut M,
        events: &mut EventRing,
    ) -> Result<Acted, Outside>
        ensures stepped { (record { memory = M.contents memory.new; events = events.new; machine = self.new }, result_ok result)
            ≡ commands_stepped (record { memory = M.contents memory.old; events = events.old; machine = self.old }) }
        ensures same_loan { M.loan memory.new ≡ M.loan memory.old }
    {
        if !self.has_command() {
            return Ok(Acted::Idle);
        }
        match room_gate(memory, events)? {
            Some(acted) => Ok(acted),
            None => self.take_front(memory, events),
        }
    }

    #[tactic(auto, unfolding(crate::specs::Steps::front_taken))]
    fn take_front<M: GuestMemory>(
        &mut self,
        memory: &mut M,
        events: &mut EventRing,
    ) -> Result<Acted, Outside>
        ensures taken { (record { memory = M.contents memory.new; events = events.new; machine = self.new }, result_ok result)
            ≡ front_taken (record { memory = M.contents memory.old; events = events.old; machine = self.old }) }
        ensures same_loan { M.loan memory.new ≡ M.loan memory.old }
    {
        if self.commands.owes_stop {
            return self.tell_stop(memory, events);
        }
        let cursor = self.command_cursor();
        match fetch(memory, cursor)? {
            None => {
                self.commands.rung = false;
                Ok(Acted::Emptied)
            }
            Some(words) => self.take_command(memory, events, cursor, read_command(words)),
        }
    }

    /// Tells that the command ring was stopped. Refused where the event's place isn't there.
    fn tell_stop<M: GuestMemory>(
        &mut self,
        memory: &mut M,
        events: &mut EventRing,
    ) -> Result<Acted, Outside>
        ensures posted { (M.contents memory.new, events.new)
            ≡ event_posted (M.contents memory.old) events.old (Event.Command self.old.registers.command_ring.pointer 24 0) }
        ensures told { self.new ≡ stop_told self.old }
        ensures acted { result_ok result ≡ (if has_place (M.contents memory.old) events.old then Some Acted.Worked else None) }
        ensures same_loan { M.loan memory.new ≡ M.loan memory.old }
    {
        self.commands.owes_stop = false;
        let event = Event::Command {
            pointer: self.registers.command_ring.pointer,
            code: COMMAND_RING_STOPPED,
            slot: 0,
        };
        post(memory, events, &event)?;
        Ok(Acted::Worked)
    }

    fn take_command<M: GuestMemory>(
        &mut self,
        memory: &mut M,
        events: &mut EventRing,
        cursor: Cursor,
        command: Command,
    ) -> Result<Acted, Outside>
        ensures taken { (record { memory = M.contents memory.new; events = events.new; machine = self.new }, result_ok result)
            ≡ command_taken (record { memory = M.contents memory.old; events = events.old; machine = self.old }) cursor command }
        ensures same_loan { M.loan memory.new ≡ M.loan memory.old }
    {
        match command {
            Command::Link {
                pointer,
                toggle,
                ioc,
            } => self.follow(memory, events, cursor, cursor.follow(pointer, toggle), ioc)?,
            Command::OnEndpoint {
                slot,
                endpoint,
                order,
            } => self.take_on_endpoint(memory, events, cursor, slot, endpoint, order)?,
            Command::OnSlot { slot, command } => {
                self.take_on_slot(memory, events, cursor, slot, command)?;
            }
            Command::NoOp => self.end_command(memory, events, cursor, end_with(SUCCESS, 0))?,
            Command::Foreign => self.end_command(memory, events, cursor, end_with(TRB_ERROR, 0))?,
        }
        Ok(Acted::Worked)
    }

    /// Follows a Link; with IOC it posts Success.
    #[tactic(auto, unfolding(crate::specs::Steps::link_followed))]
    fn follow<M: GuestMemory>(
        &mut self,
        memory: &mut M,
        events: &mut EventRing,
        cursor: Cursor,
        to: Cursor,
        ioc: bool,
    ) -> Result<(), Outside>
        ensures followed { (record { memory = M.contents memory.new; events = events.new; machine = self.new }, is_ok result)
            ≡ link_followed (record { memory = M.contents memory.old; events = events.old; machine = self.old }) cursor to ioc }
        ensures same_loan { M.loan memory.new ≡ M.loan memory.old }
    {
        if ioc {
            complete(memory, events, cursor, SUCCESS, 0)?;
        }
        self.stand_at(to);
        Ok(())
    }

    #[tactic(auto, unfolding(crate::specs::Steps::slot_command_taken))]
    fn take_on_slot<M: GuestMemory>(
        &mut self,
        memory: &mut M,
        events: &mut EventRing,
        cursor: Cursor,
        slot: u8,
        command: SlotCommand,
    ) -> Result<(), Outside>
        ensures taken { (record { memory = M.contents memory.new; events = events.new; machine = self.new }, is_ok result)
            ≡ slot_command_taken (record { memory = M.contents memory.old; events = events.old; machine = self.old }) cursor slot command }
        ensures same_loan { M.loan memory.new ≡ M.loan memory.old }
    {
        let ended = self.on_slot(memory, slot, command)?;
        self.end_command(memory, events, cursor, ended)
    }

    #[tactic(auto, unfolding(crate::specs::Steps::endpoint_command_taken))]
    fn take_on_endpoint<M: GuestMemory>(
        &mut self,
        memory: &mut M,
        events: &mut EventRing,
        cursor: Cursor,
        slot: u8,
        endpoint: u8,
        order: Order,
    ) -> Result<(), Outside>
        ensures taken { (record { memory = M.contents memory.new; events = events.new; machine = self.new }, is_ok result)
            ≡ endpoint_command_taken (record { memory = M.contents memory.old; events = events.old; machine = self.old }) cursor slot endpoint order }
        ensures same_loan { M.loan memory.new ≡ M.loan memory.old }
    {
        match self.order(memory, events, slot, endpoint, order)? {
            Some(ended) => self.end_command(memory, events, cursor, ended),
            None => Ok(()),
        }
    }

    /// Posts the event of a command that has ended, and goes behind it. Refused where the event's place isn't there, and then nothing
    /// changes.
    #[tactic(auto, unfolding(crate::specs::Steps::command_ended))]
    fn end_command<M: GuestMemory>(
        &mut self,
        memory: &mut M,
        events: &mut EventRing,
        cursor: Cursor,
        ended: Ended,
    ) -> Result<(), Outside>
        ensures posted { (M.contents memory.new, events.new)
            ≡ event_posted (M.contents memory.old) events.old (Event.Command cursor.place ended.code ended.slot) }
        ensures ended { (record { memory = M.contents memory.new; events = events.new; machine = self.new }, is_ok result)
            ≡ command_ended (record { memory = M.contents memory.old; events = events.old; machine = self.old }) cursor ended }
        ensures stood { self.new ≡ (if has_place (M.contents memory.old) events.old then stood_at self.old (behind cursor) else self.old) }
        ensures done { is_ok result ≡ has_place (M.contents memory.old) events.old }
        ensures same_loan { M.loan memory.new ≡ M.loan memory.old }
    {
        complete(memory, events, cursor, ended.code, ended.slot)?;
        self.stand_at(cursor.behind());
        Ok(())
    }

    fn stand_at(&mut self, cursor: Cursor)
        ensures { self.new ≡ stood_at self.old cursor }
    {
        self.registers.command_ring.pointer = cursor.place;
        self.registers.command_ring.cycle = cursor.cycle;
    }

    /// Executes a command on the slot. Refused where memory that it needs isn't there, and then nothing changes.
    #[tactic(auto, unfolding(crate::specs::Ring::on_slot_done))]
    fn on_slot<M: GuestMemory>(
        &mut self,
        memory: &mut M,
        slot: u8,
        command: SlotCommand,
    ) -> Result<Ended, Outside>
        ensures done { on_slot_done (M.contents memory.old) self.old slot command
            ≡ option_map (λ ended. (M.contents memory.new, (self.new, ended))) (result_ok result) }
        ensures outside { OnErr result (M.contents memory.new ≡ M.contents memory.old) }
        ensures as_before { OnErr result (self.new ≡ self.old) }
        ensures same_loan { M.loan memory.new ≡ M.loan memory.old }
    {
        if slot != SLOT && !matches!(command, SlotCommand::Enable) {
            return Ok(end_with(SLOT_NOT_ENABLED, slot));
        }
        if matches!(command, SlotCommand::Enable) && !self.registers.has_slots() {
            return Ok(end_with(NO_SLOTS_AVAILABLE, 0));
        }
        if self.is_unanswered(memory, command) {
            return Ok(end_with(TRANSACTION_ERROR, slot));
        }
        let array = self.registers.contexts;
        let done = self.slot.execute(memory, array, command)?;
        self.change(&done.changes);
        Ok(end_with(number_of(done.code), slot_told(slot, command, done.code)))
    }
}

pub(crate) fn end_with(code: u8, slot: u8) -> Ended
    ensures { result ≡ ended code slot }
{
    Ended { code, slot }
}

/// Posts the event of a command. Refused where its place isn't there, and then nothing changes.
fn complete<M: GuestMemory>(
    memory: &mut M,
    events: &mut EventRing,
    cursor: Cursor,
    code: u8,
    slot: u8,
) -> Result<(), Outside>
    ensures posted { (M.contents memory.new, events.new) ≡ event_posted (M.contents memory.old) events.old (Event.Command cursor.place code slot) }
    ensures done { is_ok result ≡ has_place (M.contents memory.old) events.old }
    ensures outside { OnErr result (M.contents memory.new ≡ M.contents memory.old) }
    ensures as_before { OnErr result (events.new ≡ events.old) }
    ensures same_loan { M.loan memory.new ≡ M.loan memory.old }
{
    let event = Event::Command {
        pointer: cursor.place,
        code,
        slot,
    };
    post(memory, events, &event)
}
