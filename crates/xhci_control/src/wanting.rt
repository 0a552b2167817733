//! What a step of endpoint 0 lacks, for a caller who copies in what is asked for.
ghost use Rattle.std.specs.Prelude.{◌≡◌, ℕ, ◌&&◌, Option, None, is_some, true};
ghost use Rattle.guest_pipes.specs.Gate.{is_running};
ghost use Rattle.guest_pipes.specs.Step.{World};
ghost use Rattle.guest_memory.specs.declared.rings.context.Home.TheVariants.{Endpoint};
ghost use Rattle.guest_memory.specs.rings.Ends.{fetched};
ghost use Rattle.guest_memory.specs.rings.Wanted.{LacksIt, look_wanted, missing};
ghost use Rattle.xhci_control.specs.Steps.{ControlWorld, control_stopped, cursor_at, stepped};
ghost use Rattle.xhci_control.specs.Wanted.{control_wanted, data_wanted, front_wanted, given_range, moved_wanted, normal_wanted, other_wanted, trb_wanted, trb_wanted_by, words_wanted};

use crate::pipe::{ControlPipe, cursor_at};
use crate::trb::{ControlTrb, read_control};
use guest_memory::rings::{Cursor, EventRing, Home, PipeTrb, Range, fetch, look_wants};
use guest_memory::{GuestMemory, Outside};
use guest_pipes::place_range;

impl ControlPipe {
    /// Whether a step has something to look at: the endpoint runs, and its doorbell is rung.
    pub fn is_due(&self) -> bool
        ensures { result ≡ (is_running self.now.consumer.state && self.now.consumer.rung) }
    {
        self.consumer.state.runs() && self.consumer.rung
    }

    /// The first range that [`ControlPipe::step`] reads or writes of which a byte isn't there.
    pub fn wants<M: GuestMemory>(
        &self,
        memory: &M,
        events: &EventRing,
        fault: Option<u8>,
    ) -> Option<Range>
        ensures { result ≡ control_wanted fault (record { memory = M.contents memory.now; events = events.now; pipe = self.now }) }
    {
        match self.consumer.gate(memory, events) {
            Err(Outside) => Some(place_range(events)),
            Ok(Some(_)) => None,
            Ok(None) => self.wants_front(memory, fault),
        }
    }

    fn wants_front<M: GuestMemory>(&self, memory: &M, fault: Option<u8>) -> Option<Range>
        ensures { result ≡ front_wanted fault (M.contents memory.now) self.now (cursor_at (M.contents memory.now) self.now.home) }
    {
        match cursor_at(memory, self.home) {
            Err(Outside) => Some(Range {
                at: self.home,
                count: 8,
            }),
            Ok(cursor) => self.wants_words(memory, cursor, fault),
        }
    }

    fn wants_words<M: GuestMemory>(
        &self,
        memory: &M,
        cursor: Cursor,
        fault: Option<u8>,
    ) -> Option<Range>
        ensures { result ≡ words_wanted fault (M.contents memory.now) self.now cursor (fetched (M.contents memory.now) cursor) }
    {
        match fetch(memory, cursor) {
            Err(Outside) => Some(Range {
                at: cursor.place,
                count: 16,
            }),
            Ok(None) => None,
            Ok(Some(words)) => self.wants_trb_by(memory, read_control(words), fault),
        }
    }

    /// Where nothing answers on the bus no byte moves.
    fn wants_trb_by<M: GuestMemory>(
        &self,
        memory: &M,
        trb: ControlTrb,
        fault: Option<u8>,
    ) -> Option<Range>
        ensures { result ≡ trb_wanted_by fault (M.contents memory.now) self.now trb }
    {
        match fault {
            None => self.wants_trb(memory, trb),
            Some(_) => None,
        }
    }

    fn wants_trb<M: GuestMemory>(&self, memory: &M, trb: ControlTrb) -> Option<Range>
        ensures { result ≡ trb_wanted (M.contents memory.now) self.now trb }
    {
        match trb {
            ControlTrb::DataStage {
                pointer,
                length,
                to_host,
                ..
            } => self.wants_data(memory, pointer, length, to_host),
            ControlTrb::Other(trb) => self.wants_other(memory, trb),
            ControlTrb::SetupStage { .. } | ControlTrb::StatusStage { .. } => None,
        }
    }

    /// Of the first TRB of a Data Stage.
    fn wants_data<M: GuestMemory>(
        &self,
        memory: &M,
        pointer: u64,
        length: u32,
        to_host: bool,
    ) -> Option<Range>
        ensures { result ≡ data_wanted (M.contents memory.now) self.now pointer length to_host }
    {
        if self.stage.is_data() && !self.stage.stalls() && to_host {
            self.wants_moved(memory, pointer, length)
        } else {
            None
        }
    }

    /// Of a TRB of a Data Stage.
    fn wants_moved<M: GuestMemory>(&self, memory: &M, pointer: u64, length: u32) -> Option<Range>
        ensures { result ≡ moved_wanted (M.contents memory.now) self.now pointer length }
    {
        if !self.consumer.progress.ending.runs() || length == 0 || self.stage.takes() {
            return None;
        }
        let given = Range {
            at: pointer,
            count: self.taken_count(length),
        };
        given.missing(memory)
    }

    fn wants_other<M: GuestMemory>(&self, memory: &M, trb: PipeTrb) -> Option<Range>
        ensures { result ≡ other_wanted (M.contents memory.now) self.now trb }
    {
        match trb {
            PipeTrb::Normal {
                pointer,
                length,
                ..
            } => self.wants_normal(memory, pointer, length),
            PipeTrb::Link { .. }
            | PipeTrb::NoOp { .. }
            | PipeTrb::EventData { .. }
            | PipeTrb::Foreign => None,
        }
    }

    fn wants_normal<M: GuestMemory>(&self, memory: &M, pointer: u64, length: u32) -> Option<Range>
        ensures { result ≡ normal_wanted (M.contents memory.now) self.now pointer length }
    {
        if self.is_in_data() && length <= 65_536 {
            self.wants_moved(memory, pointer, length)
        } else {
            None
        }
    }

    /// The first range that [`ControlPipe::tell_stopped`] reads of which a byte isn't there.
    pub fn wants_to_stop<M: GuestMemory>(&self, memory: &M) -> Option<Range>
        ensures { result ≡ look_wanted (M.contents memory.now) (Endpoint self.now.home) }
    {
        look_wants(memory, Home::Endpoint { at: self.home })
    }
}

/// Law: a step that lacks nothing isn't refused, and neither is what Stop Endpoint posts.
pub fn what_lacks_nothing_is_taken()
    ensures of_step { (fault : Option ℕ) (w : ControlWorld) → control_wanted fault w ≡ None → is_some (stepped fault w).1 ≡ true }
    ensures of_stop { (w : ControlWorld) → look_wanted w.memory (Endpoint w.pipe.home) ≡ None → is_some (control_stopped w) ≡ true }
{}

/// Law: what a step lacks isn't empty, and not all of it is there.
pub fn what_is_wanted_is_not_there()
    ensures { (fault : Option ℕ) (w : ControlWorld) → LacksIt w.memory (control_wanted fault w) }
{}
