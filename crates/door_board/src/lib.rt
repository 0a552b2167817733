//! A board of doorbell bits that threads share without a lock.
//!
//! A client that has posted a request rings the request's place; a pump collects a word of places and looks at those
//! that it found rung. Rings that come before the next collection merge into one standing bit.
//!
//! ```text
//! word 0   clients 0, 4, 8, 12     bit tags (c div 4 mod 4) + i - 1 is index i of client c, of clients of so many tags
//! word 1   clients 1, 5, 9, 13
//! word 2   clients 2, 6, 10, 14
//! word 3   clients 3, 7, 11, 15
//! word 4   clients 16, 20, 24, 28, and so on
//! ```
//!
//! The rules:
//!
//! 1. `ring` is one fetch-or of one bit. It answers true where the bit was clear, which is a fresh ring, and false where
//!    the bit stood already, so that the ring merged.
//! 2. `collect` is one swap of one word with 0. It answers the bits that stood there.
//! 3. For each place at all times the fresh rings of all seats are the collections of all seats plus the standing bit.
//!    These are whole numbers, with no greatest value: a seat stands for the list of what it did.
//!
//! Rule 3 is the rule of the table of words, which each step is proved to keep; `close` tells it of the seats that
//! were made, once all of them are back. Neither call waits, and `new` alone takes memory. A seat notes each ring, fresh or merged,
//! and each collection, and only the step on the word writes such a note: a call without its step gives no answer.
//!
//! It stands on `atomic_table`.
#![tactic(auto)]

ghost use Rattle.std.specs.Prelude.{◌≡◌, ℕ, ◌+◌, ◌-◌, ◌*◌, ◌/◌, ◌%◌, ◌<◌, ◌≤◌, [], length, slice_index, sum_by, All, IfOk};
ghost use Rattle.std.specs.Int.{bit_at};
ghost use Rattle.door_board.specs.Counts.{place_of, fresh_rings, collections, times_rung, times_taken, unused_seat, rang, collected, IsSeatOf};
ghost use Rattle.door_board.specs.Rule.{taking_in};
ghost use Rattle.uas_profile.specs.Tags.{AreTags};

use atomic_table::{Join, Play, Split, Table, TableRule};
use std::alloc::{AllocError, Global};
use std::collections::LinkedList;
use std::marker::Model;

/// Want of memory.
pub type NoMemory = AllocError;

/// Words of a board.
pub const WORDS: usize = 8;

/// Places of a board, 64 in each word.
pub const PLACES: usize = 512;

/// Places of a word.
const WORD_PLACES: usize = 64;

/// Clients whose places a board has: four of each word.
pub const CLIENTS: usize = 4 * WORDS;

const _: () = prove!(WORDS == 8 && CLIENTS == 32);

const _: () = prove!(PLACES == 512 && WORDS * WORD_PLACES == PLACES);

/// The bits that one collection found in a word.
pub struct Haul {
    pub word: u64,
    pub bits: u64,
}

/// What a seat at the table of words knows of itself: its shares of the right to know the whole, the places of its
/// fresh rings, those of its rings that merged, and its collections. No value of it is made.
pub struct Past {
    pub shares: u64,
    pub fresh: LinkedList<u16>,
    pub merged: LinkedList<u16>,
    pub hauls: LinkedList<Haul>,
}

/// What holds of the words and of all seats, at all times.
pub struct Counted;

impl TableRule<(), Past, usize> for Counted {
    ghost use Rattle.door_board.specs.Rule.{IsCounted, all_shares};

    ghost holds = { IsCounted };

    ghost first = { all_shares };
}

struct Ring;

impl Play<(), Past> for Ring {
    ghost use Rattle.door_board.specs.Rule.{Rings};

    ghost then = { Rings };
}

struct Collect;

impl Play<(), Past> for Collect {
    ghost use Rattle.door_board.specs.Rule.{Collects};

    ghost then = { Collects };
}

/// One share is cut off.
struct Deal;

impl Split<Past> for Deal {
    ghost use Rattle.door_board.specs.Rule.{one_share_less, one_share};

    ghost left = { one_share_less };

    ghost right = { one_share };
}

struct Gather;

impl Join<Past> for Gather {
    ghost use Rattle.door_board.specs.Rule.{both, spent};

    ghost both = { both };

    ghost spent = { spent };
}

type TableSeat = atomic_table::Seat<(), Past>;

/// The board, which threads share by reference.
#[derive(Drop)]
pub struct Board {
    table: Table<(), Past, usize, Counted, Global>,
    seats: usize,
}

impl Model for Board {
    ghost use Rattle.std.specs.Prelude.{◌≡◌, ◌<◌};
    ghost use Rattle.door_board.specs.Counts.{MadeBoard};

    ghost Value = { MadeBoard };

    ghost view = { λ b. record { table = b.table.shared.table_id; seats = b.seats } };

    ghost invariant = { λ b. (b.table.shared.table_id.words ≡ 8) × (b.table.shared.table_id.slots ≡ 0) × (b.table.shared.key ≡ b.seats) × (0 < b.seats) };
}

/// The right to ring and to collect. It has no bytes; contracts see it as the board and what was done with it there.
#[derive(Drop)]
pub struct Seat {
    seat: TableSeat,
}

impl Model for Seat {
    ghost use Rattle.std.specs.Prelude.{◌≡◌, []};
    ghost use Rattle.door_board.specs.Counts.{Sitting};

    ghost Value = { Sitting };

    ghost view = { λ s. record { table = s.seat.table_id; fresh = s.seat.me.0.fresh; merged = s.seat.me.0.merged; hauls = s.seat.me.0.hauls } };

    ghost invariant = { λ s. (s.seat.me.0.shares ≡ 1) × (s.seat.me.1 ≡ []) };
}

/// The place of index `index`, from 1 to `tags`, of a client below 32 (`CLIENTS`). No other index or client of so many tags has it.
pub fn place(tags: usize, client: usize, index: usize) -> usize
    requires tags { AreTags tags }
    requires client { client < CLIENTS }
    requires index_low { 1 ≤ index }
    requires index_high { index ≤ tags }
    ensures place { result ≡ place_of tags client index }
    ensures below { result < PLACES }
    ensures word { (result / 64) % 4 ≡ client % 4 }
    ensures alone { (other i : ℕ) → other < CLIENTS → 1 ≤ i → i ≤ tags → place_of tags other i ≡ result → (other ≡ client) × (i ≡ index) }
{
    WORD_PLACES * (client % 4 + 4 * (client / 16)) + tags * (client / 4 % 4) + index - 1
}

impl Board {
    /// A board of no standing bits, and as many seats, at least one, each of which did nothing yet.
    pub fn new(alloc: Global, seats: usize) -> Result<(Board, Vec<Seat>), NoMemory>
        requires { 0 < seats }
        ensures board { IfOk result (λ made. made.0.seats ≡ seats) }
        ensures count { IfOk result (λ made. length made.1.items ≡ seats) }
        ensures seats { IfOk result (λ made. All (λ seat. seat ≡ unused_seat made.0.table) made.1.items) }
    {
        let mut dealt = Vec::with_capacity(alloc, seats)?;
        let (table, mut first) = Table::of_words(alloc, &[0; WORDS], &seats)?;
        for _ in 1..seats {
            let seat = table.shared.split_seat::<Deal>(&mut first);
            dealt.push(Seat { seat })?;
        }
        dealt.push(Seat { seat: first })?;
        Ok((Board { table, seats }, dealt))
    }

    /// Rings a place below 512 (`PLACES`). True where its bit was clear, which is a fresh ring; false where it stood, so that this
    /// ring merged with an earlier one.
    pub fn ring(&self, seat: &mut Seat, place: usize) -> bool
        requires own { IsSeatOf self.now seat.old }
        requires place { place < PLACES }
        ensures { seat.new ≡ rang seat.old place result }
    {
        let bit = 1 << (place % WORD_PLACES);
        let found = self
            .table
            .shared
            .fetch_or::<Ring>(&mut seat.seat, place / WORD_PLACES, bit);
        found & bit == 0
    }

    /// The bits that stood in a word below 8; they stand no more.
    pub fn collect(&self, seat: &mut Seat, word: usize) -> u64
        requires own { IsSeatOf self.now seat.old }
        requires word { word < WORDS }
        ensures { seat.new ≡ collected seat.old word result }
    {
        self.table.shared.swap::<Collect>(&mut seat.seat, word, 0)
    }

    /// The words of the board, once every seat that was made with it is back. For each place the fresh rings of all
    /// seats are their collections plus the place's bit.
    pub fn close(self, seats: Vec<Seat>) -> [u64; WORDS]
        requires every { length seats.items ≡ self.seats }
        requires own { All (IsSeatOf self) seats.items }
        ensures { (place : ℕ) → place < PLACES
            → sum_by (fresh_rings place) seats.items ≡ sum_by (collections place) seats.items + bit_at (slice_index result (place / 64)) (place % 64) }
    {
        let last = self.gather(seats);
        let Board { table, seats: _ } = self;
        let closed = table.close_with(last);
        let words = [
            closed.word(0),
            closed.word(1),
            closed.word(2),
            closed.word(3),
            closed.word(4),
            closed.word(5),
            closed.word(6),
            closed.word(7),
        ];
        closed.free();
        words
    }

    /// One seat with the shares and the past of all.
    fn gather(&self, mut seats: Vec<Seat>) -> TableSeat
        requires some { 0 < length seats.items }
        requires own { All (IsSeatOf self.now) seats.items }
        ensures table { result.table_id ≡ self.now.table }
        ensures shares { result.me.0.shares ≡ length seats.items }
        ensures fresh { (place : ℕ) → times_rung place result.me.0.fresh ≡ sum_by (fresh_rings place) seats.items }
        ensures taken { (place : ℕ) → times_taken place result.me.0.hauls ≡ sum_by (collections place) seats.items }
    {
        let Some(seat) = seats.pop() else {
            unreachable!()
        };
        let mut first = seat.into_table_seat();
        while let Some(seat) = seats.pop() {
            self.take_in(&mut first, seat);
        }
        first
    }

    fn take_in(&self, first: &mut TableSeat, seat: Seat)
        requires table { first.old.table_id ≡ self.now.table }
        requires some { 0 < first.old.me.0.shares }
        requires own { IsSeatOf self.now seat }
        ensures table { first.new.table_id ≡ first.old.table_id }
        ensures past { first.new.me.0 ≡ taking_in first.old.me.0 seat }
    {
        self.table
            .shared
            .join_seat::<Gather>(first, seat.into_table_seat());
    }
}

impl Seat {
    fn into_table_seat(self) -> TableSeat
        ensures table { result.table_id ≡ self.table }
        ensures shares { result.me.0.shares ≡ 1 }
        ensures fresh { result.me.0.fresh ≡ self.fresh }
        ensures merged { result.me.0.merged ≡ self.merged }
        ensures hauls { result.me.0.hauls ≡ self.hauls }
        ensures slots { result.me.1 ≡ [] }
    {
        let Seat { seat } = self;
        seat
    }
}
