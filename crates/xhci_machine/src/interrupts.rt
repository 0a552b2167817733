//! Interrupter 0: its event ring, by its segment table and ERDP (xHCI 1.2, 4.9.4, 4.17 and 6.5).
ghost use Rattle.std.specs.Prelude.{◌≡◌, ◌||◌, ◌&&◌, ◌==◌, not, is_ok, is_some, unwrap_or, IfSome, OnErr, Ok, Some, None, true, false};
ghost use Rattle.std.specs.Result.{result_err, result_ok};
ghost use Rattle.guest_pipes.specs.Step.{has_place};
ghost use Rattle.xhci_machine.specs.Effects.{no_event_ring};
ghost use Rattle.xhci_machine.specs.Interrupter.{dequeued_at, event_posted, full_told, loaded, missing_entry, pointer_taken, ring_taken, seen, segment_of};
ghost use Rattle.xhci_machine.specs.Interrupter.{taken, tells_full};

use byteorder::{ByteOrder, LittleEndian};
use guest_memory::rings::{Event, EventRing, Range};
use guest_memory::{GuestMemory, Outside};
use xhci_registers::{Interrupter, Registers};

/// The fewest and the most TRBs of the segment (6.5).
const FEWEST_PLACES: u16 = 16;

const MOST_PLACES: u16 = 4096;

/// Why there is no event ring to be had. [`Machine::work`](crate::Machine::work) makes a host system error of either.
#[derive(Clone, Copy, Debug, PartialEq, Eq)]
pub(crate) enum RingFault {
    /// A byte of the segment table isn't there.
    Outside,
    /// The table has no one segment of 16 to 4,096 TRBs, or the consumer's pointer is outside of it.
    NoSegment,
}

impl From<Outside> for RingFault {
    ghost use Rattle.xhci_machine.specs.declared.interrupts.RingFault.TheVariants as faults;

    ghost from_gives = { λ _ fault. fault ≡ faults.Outside };

    fn from(_outside: Outside) -> RingFault {
        RingFault::Outside
    }
}

/// The event ring, once its table was read; whether ERDP was written since, and cleared EHB by that; and whether Event Ring Full Error
/// was posted since there was room.
#[derive(Debug, Drop)]
pub(crate) struct Interrupts {
    pub(crate) ring: Option<EventRing>,
    pub(crate) dequeued: bool,
    pub(crate) cleared_busy: bool,
    pub(crate) told_full: bool,
}

/// The event ring of the segment table's one entry, or None where the table has no entry. Refused with `Outside` where the entry isn't there,
/// with `NoSegment` where it is no segment or there are more.
#[tactic(auto, unfolding(crate::specs::Interrupter::loaded))]
fn load<M: GuestMemory>(
    memory: &M,
    interrupter: &Interrupter,
) -> Result<Option<EventRing>, RingFault>
    ensures { result ≡ loaded (M.contents memory.now) interrupter.now }
{
    if interrupter.table_size == 0 {
        return Ok(None);
    }
    if interrupter.table_size > 1 {
        return Err(RingFault::NoSegment);
    }
    let mut bytes = [0; 16];
    memory.read(interrupter.table, &mut bytes)?;
    let entry = LittleEndian::read_u64(&bytes);
    segment(entry - entry % 64, LittleEndian::read_u16(&bytes[8..]))
}

/// A new ring in a segment. Refused with `NoSegment` where it isn't one.
fn segment(base: u64, places: u16) -> Result<Option<EventRing>, RingFault>
    ensures { result ≡ segment_of base places }
{
    if places < FEWEST_PLACES || places > MOST_PLACES {
        return Err(RingFault::NoSegment);
    }
    match base.checked_add(16 * u64::from(places)) {
        Some(_) => Ok(Some(EventRing::new(base, places))),
        None => Err(RingFault::NoSegment),
    }
}

/// The consumer's dequeue pointer is this now. Refused with `NoSegment` where it is outside the segment.
fn dequeue(ring: &mut EventRing, pointer: u64) -> Result<(), RingFault>
    ensures ring { ring.new ≡ unwrap_or (result_ok (dequeued_at ring.old pointer)) ring.old }
    ensures fault { result_err result ≡ result_err (dequeued_at ring.old pointer) }
{
    match ring.place_at(pointer) {
        Some(place) => {
            ring.dequeue(place);
            Ok(())
        }
        None => Err(RingFault::NoSegment),
    }
}

/// Posts an event. Refused where its place isn't there, and then nothing changes.
#[tactic(auto, unfolding(crate::specs::Interrupter::event_posted))]
pub(crate) fn post<M: GuestMemory>(
    memory: &mut M,
    events: &mut EventRing,
    event: &Event,
) -> Result<(), Outside>
    ensures done { is_ok result ≡ has_place (M.contents memory.old) events.old }
    ensures posted { (M.contents memory.new, events.new) ≡ event_posted (M.contents memory.old) events.old event.now }
    ensures outside { OnErr result (M.contents memory.new ≡ M.contents memory.old) }
    ensures as_before { OnErr result (events.new ≡ events.old) }
    ensures same_loan { M.loan memory.new ≡ M.loan memory.old }
{
    if !memory.has(events.enqueue_pointer(), 16) {
        return Err(Outside);
    }
    events.post(memory, event, false);
    Ok(())
}

/// The event ring as the next step finds it.
#[derive(Drop)]
pub(crate) enum Seen {
    /// A byte of the segment table's entry isn't there.
    Lacks(Range),
    /// There is none, or the step fails by it.
    Nothing,
    /// One to be looked at alone.
    Ring(EventRing),
}

impl Interrupts {
    /// No event ring.
    pub fn none() -> Interrupts
        ensures { result ≡ no_event_ring }
    {
        Interrupts {
            ring: None,
            dequeued: false,
            cleared_busy: false,
            told_full: false,
        }
    }

    /// The event ring begins anew: its table is read at the next step.
    pub fn restart(&mut self)
        ensures { self.new ≡ record self.old { ring = None } }
    {
        self.ring = None;
    }

    /// ERDP was written, and cleared EHB by that or not.
    pub fn note_dequeue(&mut self, cleared_busy: bool)
        ensures { self.new ≡ record self.old { dequeued = true; cleared_busy = self.old.cleared_busy || cleared_busy } }
    {
        self.dequeued = true;
        self.cleared_busy = self.cleared_busy || cleared_busy;
    }

    /// The event ring, which is the caller's until it is kept again; None where there is none.
    pub fn take<M: GuestMemory>(
        &mut self,
        memory: &M,
        registers: &mut Registers,
    ) -> Result<Option<EventRing>, RingFault>
        ensures kept { self.old.dequeued ≡ false → IfSome self.old.ring (λ ring. result ≡ Ok (Some ring)) }
        ensures taken { (result, (self.new, registers.new)) ≡ taken (M.contents memory.now) self.old registers.old }
    {
        match self.take_ring(memory, &registers.interrupter)? {
            None => Ok(None),
            Some(mut ring) => {
                if self.dequeued {
                    self.dequeue(&mut ring, registers)?;
                }
                Ok(Some(ring))
            }
        }
    }

    fn take_ring<M: GuestMemory>(
        &mut self,
        memory: &M,
        interrupter: &Interrupter,
    ) -> Result<Option<EventRing>, RingFault>
        ensures kept { IfSome self.old.ring (λ ring. result ≡ Ok (Some ring)) }
        ensures rest { IfSome self.old.ring (λ ring. self.new ≡ record self.old { ring = None }) }
        ensures taken { (result, self.new) ≡ ring_taken (M.contents memory.now) interrupter.now self.old self.old.ring }
    {
        match self.ring.take() {
            Some(ring) => Ok(Some(ring)),
            None => {
                self.dequeued = true;
                self.told_full = false;
                load(memory, interrupter)
            }
        }
    }

    /// Takes ERDP. Where its write cleared EHB while events are behind it, the interrupt is raised again (4.17.2).
    fn dequeue(&mut self, ring: &mut EventRing, registers: &mut Registers) -> Result<(), RingFault>
        ensures noted { (ring.new, (self.new, registers.new))
            ≡ unwrap_or (result_ok (pointer_taken ring.old self.old registers.old)) (ring.old, (self.old, registers.old)) }
        ensures fault { result_err result ≡ result_err (pointer_taken ring.old self.old registers.old) }
    {
        let pointer = registers.interrupter.dequeue;
        dequeue(ring, pointer)?;
        if self.cleared_busy && ring.enqueue_pointer() / 16 != pointer / 16 {
            registers.raise();
        }
        self.told_full = self.told_full && !ring.has_room();
        self.dequeued = false;
        self.cleared_busy = false;
        Ok(())
    }

    /// What is kept as it is, to look ahead with.
    fn snapshot(&self) -> Interrupts
        ensures { result ≡ self.now }
    {
        Interrupts {
            ring: match &self.ring {
                Some(ring) => Some(ring.snapshot()),
                None => None,
            },
            dequeued: self.dequeued,
            cleared_busy: self.cleared_busy,
            told_full: self.told_full,
        }
    }

    /// The event ring as [`Interrupts::take`] would find it.
    pub fn look<M: GuestMemory>(&self, memory: &M, registers: &Registers) -> Seen
        ensures { result ≡ seen (M.contents memory.now) self.now registers.now }
    {
        if let Some(range) = self.missing_entry(memory, &registers.interrupter) {
            return Seen::Lacks(range);
        }
        let (mut ahead, mut registers) = (self.snapshot(), *registers);
        match ahead.take(memory, &mut registers) {
            Ok(Some(ring)) => Seen::Ring(ring),
            Ok(None) | Err(RingFault::Outside | RingFault::NoSegment) => Seen::Nothing,
        }
    }

    /// The entry of the segment table, where it is to be read and a byte of it isn't there.
    fn missing_entry<M: GuestMemory>(&self, memory: &M, interrupter: &Interrupter) -> Option<Range>
        ensures { result ≡ missing_entry (M.contents memory.now) self.now interrupter.now }
    {
        if self.ring.is_some() || interrupter.table_size != 1 {
            return None;
        }
        let entry = Range {
            at: interrupter.table,
            count: 16,
        };
        entry.missing(memory)
    }

    /// Whether Event Ring Full Error is to be posted in such a ring once a step finds no room there.
    pub fn owes_full(&self, events: &EventRing) -> bool
        ensures { result ≡ (events.now.free == 1 && not (self.now.told_full && is_some self.now.ring)) }
    {
        events.free() == 1 && !(self.told_full && self.ring.is_some())
    }

    /// The event ring comes back.
    pub fn keep(&mut self, ring: EventRing)
        ensures { self.new ≡ record self.old { ring = Some ring } }
    {
        self.ring = Some(ring);
    }

    /// Event Ring Full Error takes the last place, once.
    pub fn tell_full<M: GuestMemory>(
        &mut self,
        memory: &mut M,
        events: &mut EventRing,
    ) -> Result<(), Outside>
        ensures same_loan { M.loan memory.new ≡ M.loan memory.old }
        ensures told { self.new ≡ record self.old { told_full = self.old.told_full || events.old.free == 1 } }
        ensures full { (M.contents memory.new, events.new) ≡ full_told (tells_full self.old events.old) (M.contents memory.old) events.old }
        ensures done { is_ok result ≡ (not (tells_full self.old events.old) || has_place (M.contents memory.old) events.old) }
    {
        if self.told_full || events.free() != 1 {
            return Ok(());
        }
        self.told_full = true;
        post(memory, events, &Event::RingFull)
    }
}
