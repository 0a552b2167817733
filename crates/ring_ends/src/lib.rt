//! The ends of a ring: the producer's and the consumer's pointer with their cycle states (xHCI 1.2, 4.9.2).
//!
//! A ring of m places is gone through in turns. An end is the place that a pointer names and the cycle state with which it
//! came there; behind the last place it goes on at the first one and its cycle state toggles. So the counted place j is
//! place `j mod m` of turn `j div m`, and its Cycle bit is 1 on even turns: nothing has to count the turns.
//!
//! What is promised: each function is its definition (`specs/Counted.antt`), and the laws that both rings of this repository
//! are proved with stand beside it: of ends and turns (`specs/EndLaws.antt`, `specs/TurnLaws.antt`), and of the items that a segment's
//! places hold with the Cycle bits of their turns, where an item is anything that has bytes and is read from them, as a TRB
//! (`specs/Held.antt`, `specs/HeldLaws.antt`). The crate stands on `xhci_trb` for the
//! texts of TRBs; `zeros` alone takes memory.
#![tactic(auto)]

ghost use Rattle.std.specs.Prelude.{◌≡◌, ◌+◌, ◌%◌, ◌<◌, ◌≤◌, Bool, IfOk, replicate, true};
ghost use Rattle.xhci_trb.specs.declared.Trb.{Trb};
ghost use Rattle.xhci_trb.specs.Text.{HasText, has_chain, text};
ghost use Rattle.xhci_trb.specs.Words.{words_in};
ghost use Rattle.xhci_trb.specs.Reader.{cycle_in};
ghost use Rattle.ring_ends.specs.Counted.{distance, next_end, bit_from};
ghost use Rattle.ring_ends.specs.Held.{chain_in};

use std::alloc::{AllocError, Global};

/// The place that an end names, and the cycle state with which it came there.
#[derive(Clone, Copy, PartialEq, Eq, Debug)]
pub struct End {
    pub place: usize,
    pub cycle: bool,
}

impl End {
    /// An end of a ring of zeros: the first place, and cycle state 1 (4.9.2).
    pub fn first() -> End
        ensures { result ≡ record { place = 0; cycle = true } }
    {
        End {
            place: 0,
            cycle: true,
        }
    }

    /// The end one place on, on turns of that many places: past the last place it toggles.
    #[inline(always)]
    pub fn next(self, turn: usize) -> End
        requires { self.place < turn }
        ensures { result ≡ next_end turn self }
    {
        if self.place + 1 == turn {
            End {
                place: 0,
                cycle: !self.cycle,
            }
        } else {
            End {
                place: self.place + 1,
                cycle: self.cycle,
            }
        }
    }

    /// The cycle state with which this end comes to a place next.
    #[inline(always)]
    pub fn bit_at(self, place: usize) -> bool
        ensures { result ≡ bit_from self.place self.cycle place }
    {
        if self.place <= place {
            self.cycle
        } else {
            !self.cycle
        }
    }
}

/// The most places of a ring's turn: those of an event ring of one segment as large as this repository makes one.
pub const MOST_PLACES: usize = 4096;

const _: () = prove!(MOST_PLACES == 4096);

/// How many steps of one place lead from a place to another, on turns of that many places.
#[inline(always)]
pub fn distance(turn: usize, from: usize, to: usize) -> usize
    requires places { from < turn }
    requires end { to < turn }
    requires most { turn ≤ MOST_PLACES }
    ensures { result ≡ distance turn from to }
{
    if from <= to {
        to - from
    } else {
        to + turn - from
    }
}

/// The place so many steps of one place ahead, on turns of that many places.
#[tactic(auto, using(crate::specs::EndLaws::ahead_below, crate::specs::EndLaws::ahead_past))]
#[inline(always)]
pub fn ahead(turn: usize, from: usize, steps: usize) -> usize
    requires places { from < turn }
    requires steps { steps ≤ turn }
    requires most { turn ≤ MOST_PLACES }
    ensures { result ≡ (from + steps) % turn }
{
    let place = from + steps;
    if place < turn { place } else { place - turn }
}

/// That many places of zeros.
pub fn zeros(alloc: Global, count: usize) -> Result<Vec<[u8; 16]>, AllocError>
    ensures { IfOk result (λ places. places.items ≡ replicate count (replicate 16 0)) }
{
    let mut places = Vec::with_capacity(alloc, count)?;
    for _ in 0..count {
        places.push([0; 16])?;
    }
    Ok(places)
}

/// The Cycle bit of 16 bytes (6.4): bit 0 of the control word, the low byte of which is byte 12.
#[tactic(auto, using(crate::proofs::CycleByte::bit_of_byte))]
#[inline(always)]
pub fn cycle_bit(bytes: &[u8; 16]) -> bool
    ensures { result ≡ cycle_in (words_in bytes.now) }
{
    bytes[12] % 2 == 1
}

/// The Chain bit of 16 bytes (6.4.1.1, 6.4.4.1): bit 4 of the control word. Of a TRB's text it is the TRB's.
#[inline(always)]
pub fn chain_bit(bytes: &[u8; 16]) -> bool
    ensures bit { result ≡ chain_in (words_in bytes.now) }
    ensures text { (trb : Trb) (cycle : Bool) → HasText trb → bytes.now ≡ text trb cycle → result ≡ has_chain trb }
{
    bytes[12] / 16 % 2 == 1
}
