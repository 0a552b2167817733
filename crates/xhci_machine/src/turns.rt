//! The turns of a round, each of at most one step.
ghost use Rattle.std.specs.Prelude.{◌≡◌, ◌<◌, ◌≤◌, ◌-◌, ◌==◌, ◌&&◌, is_ok, true, false, if◌then◌else◌};
ghost use Rattle.guest_pipes.specs.Step.{has_place};
ghost use Rattle.guest_memory.specs.rings.Events.{has_room};
ghost use Rattle.xhci_machine.specs.Rounds.{command_pipe_stepped, control_stepped, data_of, front_turned, stray_stepped, pipes_turned, port_in, status_of, turned};
ghost use Rattle.xhci_machine.specs.Steps.{commands_stepped};
ghost use Rattle.xhci_machine.specs.Worked.{busy_turned, gone_dropped, is_busy, is_gone, tag_turned, tags_turned};
ghost use Rattle.xhci_machine.specs.Turns.{interrupted, left_after, noted, port_turned, settled, tells_port, told_of_port};

use crate::Machine;
use crate::interrupts::post;
use guest_memory::rings::{Event, EventRing};
use guest_memory::{GuestMemory, Outside};
use guest_pipes::Acted;
use guest_tags::UasDevice;
use guest_transfers::StreamPipe;
use uas_tasks::Wants;

/// The root hub port of the disk.
const DISK_PORT: u8 = 2;

/// Tags from here on have no task.
pub(crate) const TAGS: u16 = 241;

/// How many steps are left of a budget.
#[derive(Drop)]
pub(crate) struct Turn {
    pub left: u32,
}

impl Turn {
    fn is_over(&self) -> bool
        ensures { result ≡ (self.now.left == 0) }
    {
        self.left == 0
    }

    fn count(&mut self)
        ensures { self.new.left ≡ self.old.left - 1 }
    {
        self.left = self.left.saturating_sub(1);
    }
}

impl Machine {
    /// Tells what a step left: an interrupt where an event asked for one, and endpoints' states in their contexts. Refused where such a
    /// context isn't there.
    #[tactic(auto, unfolding(crate::specs::Turns::settled))]
    fn settle<M: GuestMemory>(
        &mut self,
        memory: &mut M,
        events: &mut EventRing,
    ) -> Result<(), Outside>
        ensures settled { (record { memory = M.contents memory.new; events = events.new; machine = self.new }, is_ok result)
            ≡ settled (record { memory = M.contents memory.old; events = events.old; machine = self.old }) }
        ensures device { self.new.device ≡ self.old.device }
        ensures same_loan { M.loan memory.new ≡ M.loan memory.old }
    {
        self.raise_asked(events);
        self.tell_states(memory)
    }

    /// Raises an interrupt where an event asked for one.
    fn raise_asked(&mut self, events: &mut EventRing)
        ensures machine { self.new ≡ interrupted events.old.asks self.old }
        ensures device { self.new.device ≡ self.old.device }
        ensures events { events.new ≡ record events.old { asks = false } }
    {
        if events.take_asks() {
            self.registers.raise();
        }
    }

    /// Counts what a step did, and tells what it left.
    #[tactic(auto, unfolding(crate::specs::Turns::noted))]
    fn note<M: GuestMemory>(
        &mut self,
        memory: &mut M,
        events: &mut EventRing,
        turn: &mut Turn,
        acted: Acted,
    ) -> Result<(), Outside>
        ensures noted { (record { memory = M.contents memory.new; events = events.new; machine = self.new }, is_ok result)
            ≡ noted (record { memory = M.contents memory.old; events = events.old; machine = self.old }) acted }
        ensures left { turn.new.left ≡ left_after acted turn.old.left }
        ensures device { self.new.device ≡ self.old.device }
        ensures same_loan { M.loan memory.new ≡ M.loan memory.old }
    {
        match acted {
            Acted::Off | Acted::Idle | Acted::Waits => return Ok(()),
            Acted::Full => self.interrupts.tell_full(memory, events)?,
            Acted::Emptied | Acted::Worked => turn.count(),
        }
        self.settle(memory, events)
    }

    /// Detects the disk, or tells of a change of its port.
    fn turn_port<M: GuestMemory>(
        &mut self,
        memory: &mut M,
        events: &mut EventRing,
        turn: &mut Turn,
    ) -> Result<(), Outside>
        ensures turned { ((record { memory = M.contents memory.new; events = events.new; machine = self.new }, turn.new.left), is_ok result)
            ≡ port_in turn.old.left (record { memory = M.contents memory.old; events = events.old; machine = self.old }) }
        ensures same_loan { M.loan memory.new ≡ M.loan memory.old }
    {
        if turn.is_over() {
            return Ok(());
        }
        self.registers.detect();
        self.tell_port(memory, events, turn)
    }

    /// Tells of a change of the disk's port. Refused where the event's place isn't there, and then nothing changes.
    #[tactic(auto, unfolding(crate::specs::Turns::told_of_port))]
    fn tell_port<M: GuestMemory>(
        &mut self,
        memory: &mut M,
        events: &mut EventRing,
        turn: &mut Turn,
    ) -> Result<(), Outside>
        ensures told { (record { memory = M.contents memory.new; events = events.new; machine = self.new }, is_ok result)
            ≡ told_of_port (record { memory = M.contents memory.old; events = events.old; machine = self.old }) }
        ensures left { turn.new.left ≡ (if self.old.registers.port.owes_event && (has_room events.old && has_place (M.contents memory.old) events.old)
            then turn.old.left - 1 else turn.old.left) }
        ensures same_loan { M.loan memory.new ≡ M.loan memory.old }
    {
        if !self.registers.port.owes_event {
            return Ok(());
        }
        if !events.has_room() {
            return self.note(memory, events, turn, Acted::Full);
        }
        post(memory, events, &Event::PortChange { port: DISK_PORT })?;
        self.registers.told_port();
        self.note(memory, events, turn, Acted::Worked)
    }

    fn turn_commands<M: GuestMemory>(
        &mut self,
        memory: &mut M,
        events: &mut EventRing,
        turn: &mut Turn,
    ) -> Result<(), Outside>
        ensures turned { ((record { memory = M.contents memory.new; events = events.new; machine = self.new }, turn.new.left), is_ok result)
            ≡ turned turn.old.left (record { memory = M.contents memory.old; events = events.old; machine = self.old })
            (commands_stepped (record { memory = M.contents memory.old; events = events.old; machine = self.old })) }
        ensures same_loan { M.loan memory.new ≡ M.loan memory.old }
    {
        if turn.is_over() {
            return Ok(());
        }
        let acted = self.step_commands(memory, events)?;
        self.note(memory, events, turn, acted)
    }

    fn turn_control<M: GuestMemory>(
        &mut self,
        memory: &mut M,
        events: &mut EventRing,
        turn: &mut Turn,
    ) -> Result<(), Outside>
        ensures turned { ((record { memory = M.contents memory.new; events = events.new; machine = self.new }, turn.new.left), is_ok result)
            ≡ turned turn.old.left (record { memory = M.contents memory.old; events = events.old; machine = self.old })
            (control_stepped (record { memory = M.contents memory.old; events = events.old; machine = self.old })) }
        ensures same_loan { M.loan memory.new ≡ M.loan memory.old }
    {
        if turn.is_over() {
            return Ok(());
        }
        let acted = self.step_control(memory, events)?;
        self.note(memory, events, turn, acted)
    }

    fn turn_command_pipe<M: GuestMemory>(
        &mut self,
        memory: &mut M,
        events: &mut EventRing,
        turn: &mut Turn,
    ) -> Result<(), Outside>
        ensures turned { ((record { memory = M.contents memory.new; events = events.new; machine = self.new }, turn.new.left), is_ok result)
            ≡ turned turn.old.left (record { memory = M.contents memory.old; events = events.old; machine = self.old })
            (command_pipe_stepped (record { memory = M.contents memory.old; events = events.old; machine = self.old })) }
        ensures same_loan { M.loan memory.new ≡ M.loan memory.old }
    {
        if turn.is_over() {
            return Ok(());
        }
        let acted = self.step_command_pipe(memory, events)?;
        self.note(memory, events, turn, acted)
    }

    /// A doorbell that no tag's turn serves; of Bulk-Only any.
    fn turn_stray<M: GuestMemory>(
        &mut self,
        memory: &mut M,
        events: &mut EventRing,
        turn: &mut Turn,
        name: StreamPipe,
    ) -> Result<(), Outside>
        ensures turned { ((record { memory = M.contents memory.new; events = events.new; machine = self.new }, turn.new.left), is_ok result)
            ≡ turned turn.old.left (record { memory = M.contents memory.old; events = events.old; machine = self.old })
            (stray_stepped (record { memory = M.contents memory.old; events = events.old; machine = self.old }) name) }
        ensures same_loan { M.loan memory.new ≡ M.loan memory.old }
    {
        if turn.is_over() {
            return Ok(());
        }
        let acted = self.step_stray(memory, events, name)?;
        self.note(memory, events, turn, acted)
    }

    fn turn_data<M: GuestMemory>(
        &mut self,
        memory: &mut M,
        events: &mut EventRing,
        turn: &mut Turn,
        tag: u16,
    ) -> Result<(), Outside>
        requires { tag < 241 }
        ensures turned { ((record { memory = M.contents memory.new; events = events.new; machine = self.new }, turn.new.left), is_ok result)
            ≡ turned turn.old.left (record { memory = M.contents memory.old; events = events.old; machine = self.old })
            (data_of (record { memory = M.contents memory.old; events = events.old; machine = self.old }) tag) }
        ensures same_loan { M.loan memory.new ≡ M.loan memory.old }
    {
        if turn.is_over() {
            return Ok(());
        }
        let acted = self.step_data(memory, events, tag)?;
        self.note(memory, events, turn, acted)
    }

    fn turn_status<M: GuestMemory>(
        &mut self,
        memory: &mut M,
        events: &mut EventRing,
        turn: &mut Turn,
        tag: u16,
    ) -> Result<(), Outside>
        requires { tag < 241 }
        ensures turned { ((record { memory = M.contents memory.new; events = events.new; machine = self.new }, turn.new.left), is_ok result)
            ≡ turned turn.old.left (record { memory = M.contents memory.old; events = events.old; machine = self.old })
            (status_of (record { memory = M.contents memory.old; events = events.old; machine = self.old }) tag) }
        ensures same_loan { M.loan memory.new ≡ M.loan memory.old }
    {
        if turn.is_over() {
            return Ok(());
        }
        let acted = self.step_status(memory, events, tag)?;
        self.note(memory, events, turn, acted)
    }

    /// The command pipe, and then doorbells that no tag's turn serves.
    #[tactic(auto, unfolding(crate::specs::Rounds::pipes_turned))]
    fn turn_pipes<M: GuestMemory>(
        &mut self,
        memory: &mut M,
        events: &mut EventRing,
        turn: &mut Turn,
    ) -> Result<(), Outside>
        ensures turned { ((record { memory = M.contents memory.new; events = events.new; machine = self.new }, turn.new.left), is_ok result)
            ≡ pipes_turned turn.old.left (record { memory = M.contents memory.old; events = events.old; machine = self.old }) }
        ensures same_loan { M.loan memory.new ≡ M.loan memory.old }
    {
        self.turn_command_pipe(memory, events, turn)?;
        self.turn_stray(memory, events, turn, StreamPipe::Status)?;
        self.turn_stray(memory, events, turn, StreamPipe::DataOut)?;
        self.turn_stray(memory, events, turn, StreamPipe::DataIn)
    }

    /// The turns before the tags'.
    #[tactic(auto, unfolding(crate::specs::Rounds::front_turned))]
    pub(crate) fn turn_front<M: GuestMemory>(
        &mut self,
        memory: &mut M,
        events: &mut EventRing,
        turn: &mut Turn,
    ) -> Result<(), Outside>
        ensures turned { ((record { memory = M.contents memory.new; events = events.new; machine = self.new }, turn.new.left), is_ok result)
            ≡ front_turned turn.old.left (record { memory = M.contents memory.old; events = events.old; machine = self.old }) }
        ensures same_loan { M.loan memory.new ≡ M.loan memory.old }
    {
        self.settle(memory, events)?;
        self.turn_port(memory, events, turn)?;
        self.turn_commands(memory, events, turn)?;
        self.turn_control(memory, events, turn)?;
        self.turn_pipes(memory, events, turn)
    }

    /// Each active tag's turn, in their order.
    pub(crate) fn turn_tags<M: GuestMemory>(
        &mut self,
        memory: &mut M,
        events: &mut EventRing,
        turn: &mut Turn,
    ) -> Result<(), Outside>
        ensures turned { ((record { memory = M.contents memory.new; events = events.new; machine = self.new }, turn.new.left), is_ok result)
            ≡ tags_turned 241 ((record { memory = M.contents memory.old; events = events.old; machine = self.old }, turn.old.left), true) }
        ensures same_loan { M.loan memory.new ≡ M.loan memory.old }
    {
        let mut from = 0;
        while let Some(tag) = self.device.next_active(from) {
            if tag >= TAGS {
                return Ok(());
            }
            self.turn_tag(memory, events, turn, tag)?;
            from = tag + 1;
        }
        Ok(())
    }

    /// A tag's turn.
    #[tactic(auto, unfolding(crate::specs::Worked::tag_turned))]
    fn turn_tag<M: GuestMemory>(
        &mut self,
        memory: &mut M,
        events: &mut EventRing,
        turn: &mut Turn,
        tag: u16,
    ) -> Result<(), Outside>
        requires { tag < 241 }
        ensures turned { ((record { memory = M.contents memory.new; events = events.new; machine = self.new }, turn.new.left), is_ok result)
            ≡ tag_turned turn.old.left tag (record { memory = M.contents memory.old; events = events.old; machine = self.old }) }
        ensures same_loan { M.loan memory.new ≡ M.loan memory.old }
    {
        if turn.is_over() {
            return Ok(());
        }
        self.drop_gone(tag);
        if self.has_work(tag) {
            self.turn_busy(memory, events, turn, tag)
        } else {
            self.device.rest(tag);
            Ok(())
        }
    }

    /// A tag's data, and then its status.
    #[tactic(auto, unfolding(crate::specs::Worked::busy_turned))]
    fn turn_busy<M: GuestMemory>(
        &mut self,
        memory: &mut M,
        events: &mut EventRing,
        turn: &mut Turn,
        tag: u16,
    ) -> Result<(), Outside>
        requires { tag < 241 }
        ensures turned { ((record { memory = M.contents memory.new; events = events.new; machine = self.new }, turn.new.left), is_ok result)
            ≡ busy_turned turn.old.left tag (record { memory = M.contents memory.old; events = events.old; machine = self.old }) }
        ensures same_loan { M.loan memory.new ≡ M.loan memory.old }
    {
        self.turn_data(memory, events, turn, tag)?;
        self.turn_status(memory, events, turn, tag)
    }

    /// Of a task that is gone what is left of its chunk is dropped.
    #[tactic(auto, unfolding(crate::specs::Worked::gone_dropped))]
    fn drop_gone(&mut self, tag: u16)
        requires { tag < 241 }
        ensures { self.new ≡ gone_dropped self.old tag }
    {
        if self.is_gone(tag) {
            self.transfers.drop_left(tag);
        }
    }

    /// Whether a tag has no task; one that waits for the backend has.
    pub(crate) fn is_gone(&self, tag: u16) -> bool
        ensures { result ≡ is_gone self.now tag }
    {
        matches!(self.device.tasks.wants(tag), Wants::Absent)
    }

    /// Whether a tag has something to do: of one whose request is at the backend a part of its chunk may be left.
    pub(crate) fn has_work(&self, tag: u16) -> bool
        requires { tag < 241 }
        ensures { result ≡ is_busy self.now tag }
    {
        self.transfers.has_chunk(tag) || self.transfers.has_work(tag, self.device.phase(tag))
    }
}
