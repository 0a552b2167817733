//! What the next step lacks, for a caller who copies in what is asked for.
//!
//! A caller who can't lend all of a guest's memory asks [`Machine::wants`], copies that range in, and asks again until None is answered. Then
//! [`Machine::work`] with a budget of 1 over the copies does what it does over all of memory; that is tested. A range that the guest has no
//! memory for can't be copied in: he takes the step without it.
//!
//! A look goes through the turns of a round as `work` does, and ends with the turn that acts (`wanted`, specs/Wanted.antt). What it asks for
//! beyond a step's needs is the device context, which the guest has, or comes behind all that the step needs: a range that can't be copied in
//! hides none of those.
ghost use Rattle.std.specs.Prelude.{◌≡◌, ◌<◌, None, IfSome, false};
ghost use Rattle.guest_memory.specs.Bytes.{is_there};
ghost use Rattle.xhci_machine.specs.Wanted.{acts, acts_for, acts_in, acts_on_data, acts_on_status, acts_out, busy_looked, command_pipe_looked, commands_looked};
ghost use Rattle.xhci_machine.specs.Contexts.{context_wanted, is_due};
ghost use Rattle.xhci_machine.specs.Wanted.{control_looked, endpoints_looked, has_due_ring, stray_looked, is_ended, is_giving, is_taking};
ghost use Rattle.xhci_machine.specs.Wanted.{keeps_chunk, needs, port_looked, ring_looked, round_looked, same_states, tag_context_wanted, tag_looked, tags_looked, told_wanted, turns_looked, unless, wanted};
ghost use Rattle.xhci_machine.specs.Interrupter.{seen};
ghost use Rattle.xhci_machine.specs.Ring.{states_of};
ghost use Rattle.xhci_machine.specs.Turns.{same_state};

use crate::Machine;
use crate::interrupts::Seen;
use crate::turns::TAGS;
use guest_memory::rings::{EventRing, Range};
use guest_memory::{GuestMemory, Outside};
use guest_pipes::{Consumer, EndpointState, place_range};
use guest_tags::{Phase, UasDevice, moving};
use guest_transfers::StreamPipe;
use xhci_slots::contexts::SlotState;

/// How a look at the next step ends before its last turn.
#[derive(Clone, Copy)]
pub(crate) enum End {
    /// A byte of this range isn't there.
    Lacks(Range),
    /// The step is of the turn in front, and lacks nothing.
    Acts,
}

/// The look goes on where nothing is missing.
pub(crate) fn needs(missing: Option<Range>) -> Result<(), End>
    ensures { result ≡ needs missing }
{
    match missing {
        Some(range) => Err(End::Lacks(range)),
        None => Ok(()),
    }
}

/// The step is of this turn, by what is missing of that.
pub(crate) fn acts(missing: Option<Range>) -> Result<(), End>
    ensures { result ≡ acts missing }
{
    match missing {
        Some(range) => Err(End::Lacks(range)),
        None => Err(End::Acts),
    }
}

/// The look goes on unless the turn acts.
fn unless(acting: bool) -> Result<(), End>
    ensures { result ≡ unless acting }
{
    if acting { Err(End::Acts) } else { Ok(()) }
}

/// Whether a consumer looks at its ring.
pub(crate) fn is_due(consumer: &Consumer) -> bool
    ensures { result ≡ is_due consumer.now }
{
    consumer.state.runs() && consumer.rung
}

#[tactic(auto, using(crate::proofs::Same::same_refl, crate::proofs::Same::same_not))]
fn is_same(was: EndpointState, now: EndpointState) -> bool
    ensures { result ≡ same_state was now }
{
    was == now
}

fn is_giving(phase: Phase) -> bool
    ensures { result ≡ is_giving phase }
{
    matches!(phase, Phase::Gives(_))
}

fn is_taking(phase: Phase) -> bool
    ensures { result ≡ is_taking phase }
{
    matches!(phase, Phase::Takes(_))
}

fn is_ended(phase: Phase) -> bool
    ensures { result ≡ is_ended phase }
{
    matches!(phase, Phase::Ended(_))
}

impl Machine {
    /// The first range, in the order of a round, of which a byte isn't there, of those that a call of [`Machine::work`] with a budget of 1
    /// may read or write. The device context is asked for before any step that may change an endpoint's state, the last free place of the
    /// event ring before any step that may find it full, room for a whole chunk before its first byte, and behind a stream's dequeue pointer
    /// that is to be set the TRB in front.
    #[tactic(auto, unfolding(crate::specs::Wanted::wanted))]
    pub fn wants<M: GuestMemory>(&self, memory: &M) -> Option<Range>
        ensures wanted { result ≡ wanted (M.contents memory.now) self.now }
        ensures lacks { IfSome result (λ range. is_there (M.contents memory.now) range.at range.count ≡ false) }
        ensures stands { self.now.registers.runs ≡ false → result ≡ None }
    {
        if !self.registers.runs {
            return None;
        }
        match self.look(memory) {
            Err(End::Lacks(range)) => range.missing(memory),
            Err(End::Acts) | Ok(()) => None,
        }
    }

    fn look<M: GuestMemory>(&self, memory: &M) -> Result<(), End>
        ensures { result ≡ ring_looked (M.contents memory.now) self.now (seen (M.contents memory.now) self.now.interrupts self.now.registers) }
    {
        match self.interrupts.look(memory, &self.registers) {
            Seen::Lacks(range) => Err(End::Lacks(range)),
            Seen::Nothing => Ok(()),
            Seen::Ring(events) => self.look_round(memory, &events),
        }
    }

    /// A round: the endpoints' states are told, and then the turns come where the event ring has room.
    fn look_round<M: GuestMemory>(&self, memory: &M, events: &EventRing) -> Result<(), End>
        ensures { result ≡ round_looked (M.contents memory.now) self.now events.now }
    {
        needs(self.wants_to_be_told(memory))?;
        if self.interrupts.owes_full(events) {
            return acts(place_range(events).missing(memory));
        }
        if !events.has_room() {
            return Ok(());
        }
        self.look_turns(memory, events)
    }

    /// The device context, where it has yet to be told an endpoint's state.
    fn wants_to_be_told<M: GuestMemory>(&self, memory: &M) -> Option<Range>
        ensures { result ≡ told_wanted (M.contents memory.now) self.now }
    {
        if self.is_told() {
            None
        } else {
            self.slot.wants_to_tell(memory)
        }
    }

    /// Whether the contexts have the endpoints' states.
    fn is_told(&self) -> bool
        ensures { result ≡ same_states self.now.told (states_of self.now) }
    {
        let (was, now) = (self.told, self.states());
        is_same(was.control, now.control)
            && is_same(was.command, now.command)
            && is_same(was.status, now.status)
            && is_same(was.data_out, now.data_out)
            && is_same(was.data_in, now.data_in)
    }

    /// The turns, up to the one that acts. While the port is suspended no endpoint has one.
    #[tactic(auto, unfolding(crate::specs::Wanted::turns_looked))]
    fn look_turns<M: GuestMemory>(&self, memory: &M, events: &EventRing) -> Result<(), End>
        ensures { result ≡ turns_looked (M.contents memory.now) self.now events.now }
    {
        self.look_port(memory, events)?;
        self.look_commands(memory, events)?;
        if self.is_asleep() {
            return Ok(());
        }
        self.look_endpoints(memory, events)
    }

    /// The turns of endpoints, up to the one that acts.
    #[tactic(auto, unfolding(crate::specs::Wanted::endpoints_looked))]
    fn look_endpoints<M: GuestMemory>(&self, memory: &M, events: &EventRing) -> Result<(), End>
        ensures { result ≡ endpoints_looked (M.contents memory.now) self.now events.now }
    {
        self.look_control(memory, events)?;
        self.look_command_pipe(memory, events)?;
        self.look_stray(memory, events, StreamPipe::Status)?;
        self.look_stray(memory, events, StreamPipe::DataOut)?;
        self.look_stray(memory, events, StreamPipe::DataIn)?;
        if self.has_no_tags() {
            return Ok(());
        }
        self.look_tags(memory, events)
    }

    /// The device context, where the slot has one.
    pub(crate) fn wants_context<M: GuestMemory>(&self, memory: &M) -> Option<Range>
        ensures { result ≡ context_wanted (M.contents memory.now) self.now.slot }
    {
        match self.slot.state {
            None | Some(SlotState::Enabled) => None,
            Some(SlotState::Default | SlotState::Addressed | SlotState::Configured) => {
                self.slot.wants_to_tell(memory)
            }
        }
    }

    #[tactic(auto, unfolding(crate::specs::Wanted::port_looked))]
    fn look_port<M: GuestMemory>(&self, memory: &M, events: &EventRing) -> Result<(), End>
        ensures { result ≡ port_looked (M.contents memory.now) self.now events.now }
    {
        let mut registers = self.registers;
        registers.detect();
        if registers.port.owes_event {
            acts(place_range(events).missing(memory))
        } else {
            Ok(())
        }
    }

    #[tactic(auto, unfolding(crate::specs::Wanted::commands_looked))]
    fn look_commands<M: GuestMemory>(&self, memory: &M, events: &EventRing) -> Result<(), End>
        ensures { result ≡ commands_looked (M.contents memory.now) self.now events.now }
    {
        if !self.has_command() {
            return Ok(());
        }
        needs(place_range(events).missing(memory))?;
        if self.commands.owes_stop {
            return Err(End::Acts);
        }
        needs(self.wants_context(memory))?;
        acts(self.wants_command(memory))
    }

    #[tactic(auto, unfolding(crate::specs::Wanted::control_looked))]
    fn look_control<M: GuestMemory>(&self, memory: &M, events: &EventRing) -> Result<(), End>
        ensures { result ≡ control_looked (M.contents memory.now) self.now events.now }
    {
        if !self.control.is_due() {
            return Ok(());
        }
        needs(self.wants_context(memory))?;
        acts(self.control.wants(memory, events, self.fault()))
    }

    #[tactic(auto, unfolding(crate::specs::Wanted::command_pipe_looked))]
    fn look_command_pipe<M: GuestMemory>(&self, memory: &M, events: &EventRing) -> Result<(), End>
        ensures { result ≡ command_pipe_looked (M.contents memory.now) self.now events.now }
    {
        if !is_due(&self.transfers.command()) {
            return Ok(());
        }
        needs(self.wants_context(memory))?;
        acts(self.wants_command_pipe(memory, events))
    }

    #[tactic(auto, unfolding(crate::specs::Wanted::stray_looked))]
    fn look_stray<M: GuestMemory>(
        &self,
        memory: &M,
        events: &EventRing,
        name: StreamPipe,
    ) -> Result<(), End>
        ensures { result ≡ stray_looked (M.contents memory.now) self.now events.now name }
    {
        if !self.is_stray(name) {
            return Ok(());
        }
        needs(self.wants_context(memory))?;
        self.look_rung(memory, events, name)
    }

    /// The active tags, up to the one that acts.
    fn look_tags<M: GuestMemory>(&self, memory: &M, events: &EventRing) -> Result<(), End>
        ensures { result ≡ tags_looked (M.contents memory.now) self.now events.now 241 }
    {
        let mut from = 0;
        while let Some(tag) = self.device.next_active(from) {
            if tag >= TAGS {
                return Ok(());
            }
            self.look_busy(memory, events, tag)?;
            from = tag + 1;
        }
        Ok(())
    }

    /// A tag that has something to do.
    fn look_busy<M: GuestMemory>(&self, memory: &M, events: &EventRing, tag: u16) -> Result<(), End>
        requires { tag < 241 }
        ensures { result ≡ busy_looked (M.contents memory.now) self.now events.now tag }
    {
        if self.has_work(tag) {
            self.look_tag(memory, events, tag)
        } else {
            Ok(())
        }
    }

    /// A tag's data, and then its status.
    #[tactic(auto, unfolding(crate::specs::Wanted::tag_looked))]
    fn look_tag<M: GuestMemory>(&self, memory: &M, events: &EventRing, tag: u16) -> Result<(), End>
        requires { tag < 241 }
        ensures { result ≡ tag_looked (M.contents memory.now) self.now events.now tag }
    {
        needs(self.wants_tag_context(memory, tag))?;
        needs(self.transfers.wants_data(memory, events, &self.device, tag))?;
        unless(self.acts_on_data(memory, tag))?;
        needs(
            self.transfers
                .wants_status(memory, events, &self.device, tag),
        )?;
        unless(self.acts_on_status(memory, tag))
    }

    /// The device context, where one of a tag's rings is looked at.
    fn wants_tag_context<M: GuestMemory>(&self, memory: &M, tag: u16) -> Option<Range>
        requires { tag < 241 }
        ensures { result ≡ tag_context_wanted (M.contents memory.now) self.now tag }
    {
        if self.has_due_ring(tag) {
            self.wants_context(memory)
        } else {
            None
        }
    }

    fn has_due_ring(&self, tag: u16) -> bool
        requires { tag < 241 }
        ensures { result ≡ has_due_ring self.now tag }
    {
        is_due(&self.transfers.pipe(StreamPipe::DataIn).consumer(tag))
            || is_due(&self.transfers.pipe(StreamPipe::DataOut).consumer(tag))
            || is_due(&self.transfers.pipe(StreamPipe::Status).consumer(tag))
    }

    /// Whether something is left of a tag's chunk: of a task that is gone it is dropped.
    fn keeps_chunk(&self, tag: u16) -> bool
        requires { tag < 241 }
        ensures { result ≡ keeps_chunk self.now tag }
    {
        self.transfers.has_chunk(tag) && !self.is_gone(tag)
    }

    /// Whether a step surely acts on a tag's data.
    fn acts_on_data<M: GuestMemory>(&self, memory: &M, tag: u16) -> bool
        requires { tag < 241 }
        ensures { result ≡ acts_on_data (M.contents memory.now) self.now tag }
    {
        self.acts_in(memory, tag) || self.acts_out(memory, tag)
    }

    /// Data-in moves what is left of a chunk, or the next chunk.
    fn acts_in<M: GuestMemory>(&self, memory: &M, tag: u16) -> bool
        requires { tag < 241 }
        ensures { result ≡ acts_in (M.contents memory.now) self.now tag }
    {
        let gives = self.keeps_chunk(tag) || is_giving(self.device.phase(tag));
        self.acts_for(memory, StreamPipe::DataIn, tag, gives)
    }

    /// Data-out moves what the device takes.
    fn acts_out<M: GuestMemory>(&self, memory: &M, tag: u16) -> bool
        requires { tag < 241 }
        ensures { result ≡ acts_out (M.contents memory.now) self.now tag }
    {
        let takes = is_taking(self.device.phase(tag));
        self.acts_for(memory, StreamPipe::DataOut, tag, takes)
    }

    /// Whether a step surely acts on a tag's status: an answer waits until the rings of its data are looked at no more.
    fn acts_on_status<M: GuestMemory>(&self, memory: &M, tag: u16) -> bool
        requires { tag < 241 }
        ensures { result ≡ acts_on_status (M.contents memory.now) self.now tag }
    {
        let ends = is_ended(self.device.phase(tag))
            && !self.keeps_chunk(tag)
            && !is_due(&self.transfers.pipe(StreamPipe::DataIn).consumer(tag))
            && !is_due(&self.transfers.pipe(StreamPipe::DataOut).consumer(tag));
        self.acts_for(memory, StreamPipe::Status, tag, ends)
    }

    /// Whether a step surely acts on what is in front of a tag's ring, where a buffer's bytes move or not.
    fn acts_for<M: GuestMemory>(&self, memory: &M, name: StreamPipe, tag: u16, moves: bool) -> bool
        requires { tag < 241 }
        ensures { result ≡ acts_for (M.contents memory.now) self.now name tag moves }
    {
        let pipe = self.transfers.pipe(name);
        let consumer = pipe.consumer(tag);
        if !is_due(&consumer) {
            return false;
        }
        match pipe.front(memory, tag) {
            Err(Outside) => false,
            Ok(front) => match moving(&consumer, &front) {
                None => true,
                Some(buffer) => moves || buffer.length <= consumer.progress.moved,
            },
        }
    }
}
