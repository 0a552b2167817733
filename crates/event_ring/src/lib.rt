//! The event ring, one segment from controller to host (xHCI 1.2, 4.9.4).
//!
//! Initialisation: a segment is E places of 16 bytes, all zeros. Enqueue and dequeue pointer name
//! the first place, and both cycle states are 1. An event ring has no Link: it ends where its segment
//! table says.
//!
//! Cycle bit: the producer, here the controller, writes its cycle state into each event. An event
//! belongs to the consumer, the host, where its Cycle bit equals the consumer's cycle state.
//!
//! Producer: it writes an event at its enqueue pointer and moves on; past the last place of the
//! segment it goes to the first and toggles its cycle state.
//!
//! Consumer: it takes the event at its dequeue pointer while that event is its own and moves on in
//! the same way, with a cycle state of its own.
//!
//! Full and empty: the ring is empty where both pointers are equal, and full where one more event
//! would make them equal, so E - 1 events can be pending.
//!
//! What is kept: the bytes of the places and both ends, each a place and a cycle state. Nothing counts
//! the events: a place whose Cycle bit is the one that the consumer comes with holds a pending event,
//! and every other place has the other Cycle bit, left from the turn before or 0 from the start.
//!
//! What is promised: seen from outside, an [`EventRing`] is the list of the events that its bytes hold.
//! Event k stands at place `(at + k) mod E`, and its Cycle bit is 1 on even turns;
//! [`EventRing::image`] shows the bytes. An event is refused exactly where E - 1 are pending. `new`
//! takes all memory, and no other call takes any. The crate stands on `xhci_trb` for the texts of TRBs.
#![tactic(auto)]

ghost use Rattle.std.specs.Prelude.{◌≡◌, ◌≢◌, ℕ, ◌+◌, ◌-◌, ◌*◌, ◌/◌, ◌%◌, ◌<◌, ◌≤◌, ◌++◌, [], ◌∷◌, ◌↔◌, length, slice_get, IsOk};
ghost use Rattle.std.specs.Prelude.{IsSome, IfOk, OnSome, IfNone, OnOk, OnErr, IsTrue};
ghost use Rattle.xhci_trb.specs.declared.Trb.{Trb};
ghost use Rattle.event_ring.specs.declared.Event.{Event};
ghost use Rattle.event_ring.specs.Events.{Events, trb_of, IsWritable};
ghost use Rattle.event_ring.specs.Segment.{shown, IsSegment};
ghost use Rattle.ring_ends.specs.Counted.{distance};

use ring_ends::{End, cycle_bit, distance, zeros};
use std::alloc::{AllocError, Global};
use std::marker::Model;
use thiserror::Error;
use xhci_trb::laws::text_reads_back;
use xhci_trb::{Trb, decode, encode};

/// Want of memory, the one refusal of a constructor.
pub type NoMemory = AllocError;

/// E - 1 events are pending.
#[derive(Clone, Copy, PartialEq, Eq, Debug, Error)]
#[error("the event ring is full")]
pub struct EventRingFull;

/// What a controller tells its host.
#[derive(Clone, Copy, PartialEq, Eq, Debug)]
pub enum Event {
    /// A Transfer Event (6.4.2.1): the TRB that it is about, the bytes that were not moved, the
    /// completion code, the endpoint ID and the slot.
    Transfer {
        pointer: u64,
        residual: u32,
        code: u8,
        endpoint: u8,
        slot: u8,
    },
    /// A Command Completion Event (6.4.2.2): the command TRB, a multiple of 16, its completion code
    /// and the slot.
    Command {
        pointer: u64,
        code: u8,
        slot: u8,
    },
}

impl Event {
    /// The TRB of the event.
    pub fn trb(&self) -> Trb
        ensures { result ≡ trb_of self.now }
    {
        match *self {
            Event::Transfer {
                pointer,
                residual,
                code,
                endpoint,
                slot,
            } => Trb::TransferEvent {
                pointer,
                residual,
                code,
                endpoint,
                slot,
            },
            Event::Command {
                pointer,
                code,
                slot,
            } => Trb::CommandEvent {
                pointer,
                code,
                slot,
            },
        }
    }
}

/// An event ring of `E` places, 16 to 4,096: their bytes, and its two ends.
#[derive(Debug, Drop)]
pub struct EventRing<const E: usize> {
    places: Vec<[u8; 16]>,
    dequeue: End,
    enqueue: End,
}

impl<const E: usize> Model for EventRing<E> {
    ghost Value = { Events };

    ghost view = { λ r. shown E r.places.items r.dequeue r.enqueue };

    ghost invariant = { λ r. IsSegment E r.places.items r.dequeue r.enqueue (shown E r.places.items r.dequeue r.enqueue) };
}

impl<const E: usize> EventRing<E> {
    ghost use Rattle.event_ring.specs.Events.{IsRing, opening, place_of, cycle_of, taken, IsShifted, IsInUse, event_image};

    /// An empty event ring (4.9.4). Refused for want of memory alone.
    pub fn new(alloc: Global) -> Result<Self, NoMemory>
        requires least_places { 16 ≤ E }
        requires most_places { E ≤ 4096 }
        ensures { IfOk result (λ ring. ring ≡ opening) }
    {
        let places = zeros(alloc, E)?;
        let start = End::first();
        Ok(EventRing {
            places,
            dequeue: start,
            enqueue: start,
        })
    }

    /// How many events are pending.
    pub fn len(&self) -> usize
        ensures len { result ≡ length self.now.pending }
        ensures standing { IsRing E self.now }
    {
        distance(E, self.dequeue.place, self.enqueue.place)
    }

    /// Whether no event is pending.
    pub fn is_empty(&self) -> bool
        ensures { IsTrue result ↔ (length self.now.pending ≡ 0) }
    {
        !self.is_pending(self.dequeue.place)
    }

    /// Puts an event behind the others (4.9.4). Asks that each field fits its bits: a residual 24, an
    /// endpoint 5, and that a command's address is a multiple of 16. Refused where E - 1 events are
    /// pending; nothing changes then.
    pub fn post(&mut self, event: Event) -> Result<(), EventRingFull>
        requires { IsWritable event }
        ensures room { IsOk result ↔ (length self.old.pending < E - 1) }
        ensures posted { OnOk result (self.new ≡ record self.old { pending = self.old.pending ++ event ∷ [] }) }
        ensures full { OnErr result (self.new ≡ self.old) }
    {
        if distance(E, self.dequeue.place, self.enqueue.place) == E - 1 {
            return Err(EventRingFull);
        }
        let trb = event.trb();
        let cycle = self.enqueue.cycle;
        text_reads_back(&trb, cycle);
        self.places[self.enqueue.place] = encode(&trb, cycle);
        self.enqueue = self.enqueue.next(E);
        Ok(())
    }

    /// Takes the first pending event, if there is one.
    pub fn take(&mut self) -> Option<Event>
        ensures first { result ≡ slice_get self.old.pending 0 }
        ensures taken { OnSome result (self.new ≡ taken E self.old) }
        ensures empty { IfNone result ((self.new ≡ self.old) × (self.old.pending ≡ [])) }
        ensures shifted { OnSome result ((i : ℕ) → IsShifted E self.old self.new i) }
    {
        let event = self.front()?;
        self.dequeue = self.dequeue.next(E);
        Some(event)
    }

    /// The 16 bytes at a place whose event is pending. Elsewhere nothing.
    pub fn image(&self, place: usize) -> Option<[u8; 16]>
        ensures event { (k : ℕ) → k < E → place ≡ place_of E self.now k → result ≡ event_image E self.now k }
        ensures in_use { IsSome result → (k : ℕ) × IsInUse E self.now k place }
    {
        if place < E && self.is_pending(place) {
            return Some(self.places[place]);
        }
        None
    }

    // The event at the dequeue pointer, while it is the consumer's.
    fn front(&self) -> Option<Event>
        ensures { result ≡ slice_get self.now.pending 0 }
    {
        if !self.is_pending(self.dequeue.place) {
            return None;
        }
        match decode(&self.places[self.dequeue.place]) {
            Ok((trb, _)) => event_of(trb),
            Err(_) => None,
        }
    }

    // Whether a place has the Cycle bit with which the consumer comes to it next.
    fn is_pending(&self, place: usize) -> bool
        requires { place < E }
        ensures { IsTrue result ↔ (distance E (self.now.at % E) place < length self.now.pending) }
    {
        cycle_bit(&self.places[place]) == self.dequeue.bit_at(place)
    }
}

// The event of a TRB that is one.
fn event_of(trb: Trb) -> Option<Event>
    ensures { (event : Event) → trb ≡ trb_of event → result ≡ Some event }
{
    match trb {
        Trb::TransferEvent {
            pointer,
            residual,
            code,
            endpoint,
            slot,
        } => Some(Event::Transfer {
            pointer,
            residual,
            code,
            endpoint,
            slot,
        }),
        Trb::CommandEvent {
            pointer,
            code,
            slot,
        } => Some(Event::Command {
            pointer,
            code,
            slot,
        }),
        _ => None,
    }
}
