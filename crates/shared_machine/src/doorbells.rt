//! The doorbells of one step, and how they are kept.
//!
//! A submission rings at most three. A pipe that is held no more rings each of its streams that has a pending TRB, which may be
//! all of them, by rising stream. So those are kept as a mark of each stream.
ghost use Rattle.std.specs.Prelude.{◌≡◌, ◌≤◌, [], length};
ghost use Rattle.marks.specs.Marks.{is_marked};
ghost use Rattle.uas_profile.specs.Pipes.{HasStreams};
ghost use Rattle.shared_machine.specs.Doorbells.{IsResumed, resumed_by};

use crate::MOST_DOORBELLS;
use arrayvec::ArrayVec;
use marks::Marks;
use std::marker::Model;
use uas_profile::{Pipe, STREAM_ENTRIES, STREAMS, doorbell};

/// Words of 64 marks, enough for a mark of each stream.
const STREAM_WORDS: usize = STREAM_ENTRIES / 64;

const _: () = prove!(STREAM_WORDS == 4 && (STREAMS as usize) < 64 * STREAM_WORDS);

/// How they are kept.
#[derive(Debug, Drop)]
enum Rung {
    /// One by one, in order.
    Single(ArrayVec<u32, MOST_DOORBELLS>),
    /// Those of the pipe's streams that are marked, by rising stream.
    Resumed {
        pipe: Pipe,
        streams: Marks<STREAM_WORDS>,
    },
}

/// The doorbells that one step rings, in order: few one by one, or those of one pipe's streams, by rising stream. Contracts see
/// the list of their values.
#[derive(Debug, Drop)]
pub struct Doorbells {
    rung: Rung,
}

impl Model for Doorbells {
    ghost use Rattle.std.specs.Prelude.{ℕ, List};

    ghost Value = { List ℕ };

    ghost use Rattle.shared_machine.specs.Doorbells.{values_of};

    ghost view = { λ doorbells. values_of doorbells.rung };
}

const _: () = prove!(size_of::<Doorbells>() <= 64);

impl Doorbells {
    /// No doorbell.
    #[inline(always)]
    pub fn none() -> Doorbells
        ensures { result ≡ [] }
    {
        Doorbells {
            rung: Rung::Single(ArrayVec::new()),
        }
    }

    /// At most three, in this order.
    #[inline(always)]
    pub fn single(values: &[u32]) -> Doorbells
        requires { length values.now ≤ MOST_DOORBELLS }
        ensures { result ≡ values.now }
    {
        if values.is_empty() {
            return Doorbells::none();
        }
        let mut few = ArrayVec::new();
        few.try_extend_from_slice(values).unwrap();
        Doorbells {
            rung: Rung::Single(few),
        }
    }

    /// Notes at most three where none are noted, in this order.
    #[inline(always)]
    pub fn note(&mut self, values: &[u32])
        requires none { self.old ≡ [] }
        requires few { length values.now ≤ MOST_DOORBELLS }
        ensures { self.new ≡ values.now }
    {
        match &mut self.rung {
            Rung::Single(few) => few.try_extend_from_slice(values).unwrap(),
            Rung::Resumed { .. } => *self = Doorbells::single(values),
        }
    }

    /// Those of some streams of a pipe, by rising stream.
    pub fn resumed(pipe: Pipe, values: &[u32]) -> Doorbells
        requires streams { HasStreams pipe }
        requires rung { IsResumed pipe values.now }
        ensures { result ≡ values.now }
    {
        let mut streams = Marks::new();
        for value in values {
            streams.set((*value >> 16) as usize, true);
        }
        Doorbells {
            rung: Rung::Resumed { pipe, streams },
        }
    }

    /// Their values, in order.
    pub fn list(&self) -> ArrayVec<u32, STREAM_ENTRIES>
        ensures { result.items ≡ self.now }
    {
        match &self.rung {
            Rung::Single(values) => copied(values),
            Rung::Resumed { pipe, streams } => listed(*pipe, streams),
        }
    }
}

/// Few values, with room for those of a pipe.
fn copied(values: &[u32]) -> ArrayVec<u32, STREAM_ENTRIES>
    requires { length values.now ≤ STREAM_ENTRIES }
    ensures { result.items ≡ values.now }
{
    let mut list = ArrayVec::new();
    list.try_extend_from_slice(values).unwrap();
    list
}

/// The doorbells of the streams of a pipe that are marked.
fn listed(pipe: Pipe, streams: &Marks<STREAM_WORDS>) -> ArrayVec<u32, STREAM_ENTRIES>
    ensures { result.items ≡ resumed_by pipe (is_marked streams.now) }
{
    let mut list = ArrayVec::new();
    for stream in 1..STREAMS + 1 {
        if streams.is_marked(usize::from(stream)) {
            list.push(doorbell(pipe.target(), stream));
        }
    }
    list
}
