//! Transfer and command rings of one segment (xHCI 1.2, 4.9 and 4.11).
//!
//! Initialisation: a ring is N places of 16 bytes, all zeros. Enqueue and dequeue pointer name the
//! first place, and both cycle states are 1. The last place is kept for a Link TRB.
//!
//! Items: what stands at a place is 16 bytes. Where they are a TRB's text (6.4), the item is that TRB, and else the bytes
//! themselves: a ring holds what a driver wrote, shows it, and steps over it. The Cycle bit doesn't decide which.
//!
//! Cycle bit: whoever writes an item sets its Cycle bit to the producer's cycle state. An item belongs to
//! the consumer where its Cycle bit equals the consumer's cycle state, so neither end reads the
//! other's pointer.
//!
//! Producer: it writes a whole TD, of which all TRBs but the last have the Chain bit, and moves its
//! enqueue pointer behind it. Any 16 bytes can be put one by one too. When the place before the last is filled, it writes
//! the Link with its cycle state of that moment, Toggle Cycle set and the Chain bit of the item before it, control bit 4
//! (4.11.5.1), goes on at the first place, and toggles its cycle state.
//!
//! Consumer: it takes the item at its dequeue pointer while that item is its own, and steps to the
//! next place, whether or not the item is a TRB. At the Link it goes to the first place and toggles its cycle state, and gives the
//! Link to nobody. While it is stopped, its dequeue pointer may be set to another pending place, or to
//! the enqueue pointer with all that is pending dropped.
//!
//! Full and empty: the ring is empty where both pointers are equal, and full where one more TRB would
//! make them equal. A place is free again only when the producer has seen the event of its TRB and
//! reclaims it, so a ring holds at most N - 2 items that are put and not reclaimed.
//!
//! What is kept: a [`Segment`], which is the bytes of all places, the Link's too, the first place that isn't
//! reclaimed, and the producer's end, a place and a cycle state; and the consumer's end. A ring whose
//! consumer's end is kept elsewhere, as a stream's is in its context, is a segment alone: the calls that
//! consume are handed the end and give back where it stands then. Nothing counts the items: a place is in use where it has the
//! Cycle bit of the turn that starts at the first one. Every other place has the other bit, left from the
//! turn before or 0 from the start; as one place stays free, the enqueue place is always such a place.
//!
//! What is promised: seen from outside, a [`CycleRing`] is the list that its bytes hold, the items put and
//! not reclaimed and how many of them are consumed. Item k of the list stands at place `(at + k) mod (N - 1)`, and its Cycle bit
//! is 1 on even turns; [`CycleRing::image`] shows the bytes at each place, the Link's too. An address of a
//! turn's places names one item, and no other does ([`laws`]), so an event's pointer finds its TRB; where foreign bytes stand it
//! finds none. A TD, or bytes, are refused exactly where the room is too small. `new` takes all memory, and no other call takes any.
//! The crate stands on `xhci_trb` for the texts of TRBs.
#![tactic(auto)]

ghost use Rattle.std.specs.Prelude.{◌≡◌, ◌≢◌, ℕ, ◌+◌, ◌-◌, ◌*◌, ◌%◌, ◌^◌, ◌<◌, ◌≤◌, ◌++◌, [], ◌∷◌, ◌↔◌, Some, All, length, map};
ghost use Rattle.std.specs.Prelude.{slice_get, ◌⊎◌, IsOk, IsSome, IfSome, IfOk, OnOk, OnErr};
ghost use Rattle.xhci_trb.specs.Text.{HasText};

pub use ring_ends::End;
pub use segment::Segment;
use std::alloc::{AllocError, Global};
use std::marker::Model;
use thiserror::Error;
use xhci_trb::Trb;

mod items;
pub mod laws;
mod places;
mod segment;

/// Want of memory, the one refusal of a constructor.
pub type NoMemory = AllocError;

/// The TD has more TRBs than there is room for.
#[derive(Clone, Copy, PartialEq, Eq, Debug, Error)]
#[error("the ring has too little room")]
pub struct RingFull;

/// The address or the cycle state is not that of a pending place.
#[derive(Clone, Copy, PartialEq, Eq, Debug, Error)]
#[error("no pending place of the ring")]
pub struct NotAPlace;

/// The addresses of the first and the last TRB of a TD.
#[derive(Clone, Copy, PartialEq, Eq, Debug)]
pub struct Td {
    pub first: u64,
    pub last: u64,
}

/// A ring of `N` places, 4 to 256, of which the last is the Link's: its segment, and the consumer's end.
#[derive(Debug, Drop)]
pub struct CycleRing<const N: usize> {
    segment: Segment<N>,
    dequeue: End,
}

impl<const N: usize> Model for CycleRing<N> {
    ghost use Rattle.cycle_ring.specs.Items.{ItemRing};
    ghost use Rattle.cycle_ring.specs.Segment.{IsConsumer, with_consumer};

    ghost Value = { ItemRing };

    ghost view = { λ r. with_consumer N r.segment r.dequeue };

    ghost invariant = { λ r. IsConsumer N r.segment r.dequeue };
}

impl<const N: usize> CycleRing<N> {
    ghost use Rattle.cycle_ring.specs.Ring.{opening, place_of, cycle_of, pointer_of, reclaimed, IsConsumed};
    ghost use Rattle.cycle_ring.specs.Ring.{IsPending, IsShifted, IsInUse, IsTd, IsEnqueuePlace};
    ghost use Rattle.cycle_ring.specs.Items.{IsItemRing, item_read, known, known_front_of, raw_front_of, known_consumed_at};
    ghost use Rattle.cycle_ring.specs.Items.{chain_consumed_at, known_oldest_of, raw_image, raw_link_image};

    /// An empty ring at this address, a multiple of 16 below `2^63` (4.9.2). Refused for want of memory
    /// alone.
    pub fn new(alloc: Global, base: u64) -> Result<Self, NoMemory>
        requires least_places { 4 ≤ N }
        requires most_places { N ≤ 256 }
        requires aligned { base % 16 ≡ 0 }
        requires below { base < 2 ^ 63 }
        ensures { IfOk result (λ ring. ring ≡ opening base) }
    {
        Ok(CycleRing {
            segment: Segment::new(alloc, base)?,
            dequeue: End::first(),
        })
    }

    /// How many items can still be put: N - 2 less those put and not reclaimed.
    #[inline(always)]
    pub fn room(&self) -> usize
        ensures room { result + length self.now.put ≡ N - 2 }
        ensures standing { IsItemRing N self.now }
    {
        self.segment.room()
    }

    /// Puts a TD and gives the addresses of its first and last TRB (4.11). Asks 1 to N - 2 Normal TRBs of
    /// which all but the last have the Chain bit, or one command, and that each has a text. Refused
    /// where the room is too small; nothing is put then.
    #[inline(always)]
    pub fn push_td(&mut self, trbs: &[Trb]) -> Result<Td, RingFull>
        requires td { IsTd trbs.now }
        requires texts { All HasText trbs.now }
        requires at_most { length trbs.now ≤ N - 2 }
        ensures room { IsOk result ↔ (length self.old.put + length trbs.now ≤ N - 2) }
        ensures put { OnOk result (self.new ≡ record self.old { put = self.old.put ++ map known trbs.now }) }
        ensures td { IfOk result (λ td. td ≡ record {
          first = pointer_of N self.old (length self.old.put);
          last = pointer_of N self.old
              (length self.old.put + length trbs.now - 1);
        }) }
        ensures full { OnErr result (self.new ≡ self.old) }
    {
        self.segment.push_td(trbs)
    }

    /// Puts any 16 bytes at the enqueue pointer, with the producer's cycle state as Cycle bit in place of theirs, and gives
    /// their address (4.9.2). Bytes that are a TRB's text are that TRB; all others are held as they are. A Link behind the last
    /// place takes its Chain bit from bit 4 of their control word (4.11.5.1). Refused where the room is 0; nothing is put then.
    #[inline(always)]
    pub fn put_raw(&mut self, bytes: &[u8; 16]) -> Result<u64, RingFull>
        ensures room { IsOk result ↔ (length self.old.put < N - 2) }
        ensures put { OnOk result (self.new ≡ record self.old { put = self.old.put ++ item_read bytes.now ∷ [] }) }
        ensures address { IfOk result (λ address. address ≡ pointer_of N self.old (length self.old.put)) }
        ensures full { OnErr result (self.new ≡ self.old) }
    {
        self.segment.put_raw(bytes)
    }

    /// The enqueue pointer and the producer's cycle state. The pointer is never the Link's.
    pub fn place(&self) -> (u64, bool)
        ensures place { result ≡ (pointer_of N self.now (length self.now.put), cycle_of N self.now (length self.now.put)) }
        ensures unused { (k : ℕ) → k < length self.now.put → pointer_of N self.now k ≢ result.0 }
    {
        self.segment.place()
    }

    /// The first pending TRB and its address, if there is one (4.9.2). At bytes that are no TRB's text nothing.
    #[inline(always)]
    pub fn front(&self) -> Option<(u64, Trb)>
        ensures front { result ≡ known_front_of N self.now }
        ensures pending { IsSome result → self.now.got < length self.now.put }
    {
        self.segment.front(self.dequeue)
    }

    /// The first 16 pending bytes, whatever they are, with their Cycle bit, and their address, if there are some (4.9.2).
    #[inline(always)]
    pub fn front_raw(&self) -> Option<(u64, [u8; 16])>
        ensures front { result ≡ raw_front_of N self.now }
        ensures pending { IsSome result ↔ (self.now.got < length self.now.put) }
    {
        self.segment.front_raw(self.dequeue)
    }

    /// The dequeue pointer and the consumer's cycle state. The pointer is never the Link's.
    #[inline(always)]
    pub fn dequeue(&self) -> (u64, bool)
        ensures dequeue { result ≡ (pointer_of N self.now self.now.got, cycle_of N self.now self.now.got) }
        ensures aligned { result.0 % 16 ≡ 0 }
    {
        (self.segment.address(self.dequeue), self.dequeue.cycle)
    }

    /// Consumes the first pending item, whatever it is, and steps over the Link. Asks that there is one.
    #[inline(always)]
    pub fn advance(&mut self)
        requires { self.old.got < length self.old.put }
        ensures { self.new ≡ record self.old { got = self.old.got + 1 } }
    {
        self.dequeue = self.segment.advance(self.dequeue);
    }

    /// The consumed TRB at an address, while it isn't reclaimed.
    #[inline(always)]
    pub fn consumed(&self, pointer: u64) -> Option<Trb>
        ensures consumed { result ≡ known_consumed_at N self.now pointer }
        ensures known { IfSome result (λ trb. (k : ℕ) × IsConsumed N self.now k pointer × (slice_get self.now.put k ≡ Some (known trb))) }
    {
        self.segment.consumed(self.dequeue, pointer)
    }

    /// Whether the consumed item at an address has its Chain bit set, while it isn't reclaimed: bit 4 of its control word,
    /// whatever it is (4.11).
    #[inline(always)]
    pub fn consumed_chain(&self, pointer: u64) -> Option<bool>
        ensures { result ≡ chain_consumed_at N self.now pointer }
    {
        self.segment.consumed_chain(self.dequeue, pointer)
    }

    /// The first item that isn't reclaimed and its address, once it is consumed, where it is a TRB.
    #[inline(always)]
    pub fn oldest(&self) -> Option<(u64, Trb)>
        ensures oldest { result ≡ known_oldest_of N self.now }
        ensures known { IfSome result (λ at. IsConsumed N self.now 0 at.0) }
    {
        self.segment.oldest(self.dequeue)
    }

    /// Consumes all pending items (4.6.10).
    pub fn drop_pending(&mut self)
        ensures { self.new ≡ record self.old { got = length self.old.put } }
    {
        self.dequeue = self.segment.drop_pending();
    }

    /// Moves the consumer's end to a pending place (4.6.10). Refused where the address is that of no
    /// pending item (so the Link's, the enqueue place and a consumed place are), or where the cycle
    /// state isn't that place's Cycle bit.
    pub fn set_dequeue(&mut self, pointer: u64, cycle: bool) -> Result<(), NotAPlace>
        ensures accepted { IsOk result ↔ ((k : ℕ) × IsPending N self.old k pointer cycle) }
        ensures set { (k : ℕ) → IsPending N self.old k pointer cycle → self.new ≡ record self.old { got = k } }
        ensures refused { OnErr result (self.new ≡ self.old) }
    {
        self.dequeue = self.segment.set_dequeue(self.dequeue, pointer, cycle)?;
        Ok(())
    }

    /// Moves the consumer's end to a pending place, or to the enqueue place, where all that is pending is
    /// dropped (4.6.10). Refused where the address is neither's, or the cycle state isn't the place's.
    pub fn move_dequeue(&mut self, pointer: u64, cycle: bool) -> Result<(), NotAPlace>
        ensures accepted { IsOk result ↔ (IsEnqueuePlace N self.old pointer cycle ⊎ ((k : ℕ) × IsPending N self.old k pointer cycle)) }
        ensures enqueue { IsEnqueuePlace N self.old pointer cycle → self.new ≡ record self.old { got = length self.old.put } }
        ensures set { (k : ℕ) → IsPending N self.old k pointer cycle → self.new ≡ record self.old { got = k } }
        ensures refused { OnErr result (self.new ≡ self.old) }
    {
        self.dequeue = self.segment.move_dequeue(self.dequeue, pointer, cycle)?;
        Ok(())
    }

    /// Frees the items up to and with the one at this address. Asks a consumed one that isn't reclaimed.
    #[inline(always)]
    pub fn reclaim(&mut self, pointer: u64)
        requires { (k : ℕ) × IsConsumed N self.old k pointer }
        ensures freed { (k : ℕ) → IsConsumed N self.old k pointer → self.new ≡ reclaimed N (k + 1) self.old }
        ensures shifted { (k : ℕ) → IsConsumed N self.old k pointer → (i : ℕ) → IsShifted N (k + 1) self.old self.new i }
    {
        self.segment.reclaim(pointer);
    }

    /// The 16 bytes at a place whose item isn't reclaimed, and at the Link's while the item before it
    /// isn't (6.4.4.1). Elsewhere nothing.
    pub fn image(&self, place: usize) -> Option<[u8; 16]>
        ensures item { (k : ℕ) → k < N - 1 → place ≡ place_of N self.now k → result ≡ raw_image N self.now k }
        ensures link { (k : ℕ) → k < N - 1 → place_of N self.now k ≡ N - 2 → place ≡ N - 1 → result ≡ raw_link_image N self.now k }
        ensures in_use { IsSome result → (k : ℕ) × IsInUse N self.now k place }
    {
        self.segment.image(place)
    }
}
