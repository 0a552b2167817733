//! The TDs under way, and what becomes of each.

ghost use Rattle.std.specs.Prelude.{◌≡◌, ◌++◌, IfOk, OnOk, Some, fold};
ghost use Rattle.capture_run.specs.urbs.Tds.{begin, complete, ending_at, ends_at, first_found, front, is_on, move_bytes, moved_of, opening, put};
ghost use Rattle.capture_run.specs.urbs.Tds.{submit, taken, td_moved, td_of, unlink, with_moved, with_trb, without};

use crate::urbs::{Begun, Change, News, Owner, Td};
use std::alloc::{AllocError, Global};
use std::marker::Model;
use stream_array::Pipe;

/// Before the numbers of TDs, those of the control transfers at the front of a capture.
const FIRST_NUMBER: u64 = 16;

/// The TDs under way.
#[derive(Drop)]
pub struct Desk {
    alloc: Global,
    step: u64,
    owner: Owner,
    begun: Option<Begun>,
    under_way: Vec<Td>,
    next: u64,
}

impl Model for Desk {
    ghost use Rattle.capture_run.specs.urbs.Tds.{Underway};

    ghost Value = { Underway };

    ghost view = { λ desk. record { step = desk.step; owner = desk.owner; begun = desk.begun; under_way = desk.under_way.items; next = desk.next } };
}

impl Desk {
    /// Before the first step.
    pub fn new(alloc: Global) -> Desk
        ensures { result ≡ opening }
    {
        Desk {
            alloc,
            step: 0,
            owner: Owner {
                client: 0,
                ticket: 0,
            },
            begun: None,
            under_way: Vec::new(alloc),
            next: FIRST_NUMBER,
        }
    }

    /// The number of the step, from 1 on.
    pub fn step(&self) -> u64
        ensures { result ≡ self.now.step }
    {
        self.step
    }

    /// Takes in what a line tells, and answers what became of a TD by it.
    #[tactic(auto, unfolding(crate::specs::urbs::Tds::taken))]
    pub fn take(&mut self, news: News) -> Result<Option<Change>, AllocError>
        ensures { IfOk result (λ change. (self.new, change) ≡ taken self.old news) }
    {
        match news {
            News::Step(owner) => {
                self.begin(owner);
                Ok(None)
            }
            News::Put {
                pipe,
                stream,
                address,
                length,
                is_last,
            } => self.put(pipe, stream, address, length, is_last),
            News::Moved {
                pipe,
                stream,
                length,
            } => self.move_bytes(pipe, stream, length),
            News::Posted {
                pointer,
                residual,
                code,
            } => self.complete(pointer, residual, code),
            News::Passed { pipe, stream } => self.unlink(pipe, stream),
        }
    }

    /// A step begins. One that nobody hands in leaves the owner that was.
    #[tactic(auto, unfolding(crate::specs::urbs::Tds::begin))]
    fn begin(&mut self, owner: Option<Owner>)
        ensures { self.new ≡ begin self.old owner }
    {
        self.step = self.step.saturating_add(1);
        if let Some(owner) = owner {
            self.owner = owner;
        }
    }

    /// A TRB is put.
    #[tactic(auto, unfolding(crate::specs::urbs::Tds::put))]
    fn put(
        &mut self,
        pipe: Pipe,
        stream: u16,
        address: u64,
        length: u32,
        is_last: bool,
    ) -> Result<Option<Change>, AllocError>
        ensures { IfOk result (λ change. (self.new, change) ≡ put self.old pipe stream address length is_last) }
    {
        let begun = with_trb(self.begun, address, length);
        if is_last {
            self.submit(pipe, stream, address, begun)
        } else {
            self.begun = Some(begun);
            Ok(None)
        }
    }

    /// A TD is whole.
    #[tactic(auto, unfolding(crate::specs::urbs::Tds::submit))]
    fn submit(
        &mut self,
        pipe: Pipe,
        stream: u16,
        last: u64,
        begun: Begun,
    ) -> Result<Option<Change>, AllocError>
        ensures { IfOk result (λ change. (self.new, change) ≡ submit self.old pipe stream last begun) }
    {
        let td = self.td_of(pipe, stream, last, begun);
        self.under_way.push(td)?;
        self.begun = None;
        self.next = self.next.saturating_add(1);
        Ok(Some(Change::Submitted(td)))
    }

    /// The TD whose last TRB is put.
    #[tactic(auto, unfolding(crate::specs::urbs::Tds::td_of))]
    fn td_of(&self, pipe: Pipe, stream: u16, last: u64, begun: Begun) -> Td
        ensures { result ≡ td_of self.now pipe stream last begun }
    {
        Td {
            number: self.next,
            pipe,
            stream,
            owner: self.owner,
            first: begun.first,
            last,
            length: begun.length,
            moved: 0,
        }
    }

    /// Bytes were moved: those of the first TD on the ring.
    #[tactic(auto, unfolding(crate::specs::urbs::Tds::move_bytes))]
    fn move_bytes(
        &mut self,
        pipe: Pipe,
        stream: u16,
        length: u32,
    ) -> Result<Option<Change>, AllocError>
        ensures { IfOk result (λ change. (self.new, change) ≡ move_bytes self.old pipe stream length) }
    {
        if let Some(td) = front(pipe, stream, &self.under_way) {
            self.under_way = with_moved(self.alloc, td.number, length, &self.under_way)?;
        }
        Ok(None)
    }

    /// The TD whose last TRB an event tells of is completed.
    #[tactic(auto, unfolding(crate::specs::urbs::Tds::complete))]
    fn complete(
        &mut self,
        pointer: u64,
        residual: u32,
        code: u8,
    ) -> Result<Option<Change>, AllocError>
        ensures { IfOk result (λ change. (self.new, change) ≡ complete self.old pointer residual code) }
    {
        match ending_at(pointer, &self.under_way) {
            Some(td) => {
                self.under_way = without(self.alloc, td.number, &self.under_way)?;
                Ok(Some(Change::Completed { td, residual, code }))
            }
            None => Ok(None),
        }
    }

    /// The first TD on a ring whose front was moved is taken off.
    #[tactic(auto, unfolding(crate::specs::urbs::Tds::unlink))]
    fn unlink(&mut self, pipe: Pipe, stream: u16) -> Result<Option<Change>, AllocError>
        ensures { IfOk result (λ change. (self.new, change) ≡ unlink self.old pipe stream) }
    {
        match front(pipe, stream, &self.under_way) {
            Some(td) => {
                self.under_way = without(self.alloc, td.number, &self.under_way)?;
                Ok(Some(Change::Unlinked(td)))
            }
            None => Ok(None),
        }
    }
}

/// The TD that is begun, with a TRB more.
#[tactic(auto, unfolding(crate::specs::urbs::Tds::with_trb))]
fn with_trb(begun: Option<Begun>, address: u64, length: u32) -> Begun
    ensures { result ≡ with_trb begun address length }
{
    match begun {
        Some(begun) => Begun {
            first: begun.first,
            length: begun.length.saturating_add(length),
        },
        None => Begun {
            first: address,
            length,
        },
    }
}

/// The first TD on a ring.
#[tactic(auto, unfolding(crate::specs::urbs::Tds::front))]
fn front(pipe: Pipe, stream: u16, under_way: &[Td]) -> Option<Td>
    ensures { result ≡ front pipe stream under_way.now }
{
    let mut found = None;
    for td in under_way {
        found = found_on(pipe, stream, found, *td);
    }
    found
}

/// What was found, or a TD that is on a ring.
fn found_on(pipe: Pipe, stream: u16, found: Option<Td>, td: Td) -> Option<Td>
    ensures { result ≡ first_found (is_on pipe stream) found td }
{
    match found {
        Some(found) => Some(found),
        None if td.pipe.number() == pipe.number() && td.stream == stream => Some(td),
        None => None,
    }
}

/// The first TD with this address of its last TRB.
#[tactic(auto, unfolding(crate::specs::urbs::Tds::ending_at))]
fn ending_at(pointer: u64, under_way: &[Td]) -> Option<Td>
    ensures { result ≡ ending_at pointer under_way.now }
{
    let mut found = None;
    for td in under_way {
        found = found_at(pointer, found, *td);
    }
    found
}

/// What was found, or a TD whose last TRB has this address.
fn found_at(pointer: u64, found: Option<Td>, td: Td) -> Option<Td>
    ensures { result ≡ first_found (ends_at pointer) found td }
{
    match found {
        Some(found) => Some(found),
        None if td.last == pointer => Some(td),
        None => None,
    }
}

/// The TDs but the one of a number.
#[tactic(auto, unfolding(crate::specs::urbs::Tds::without))]
fn without(alloc: Global, number: u64, under_way: &[Td]) -> Result<Vec<Td>, AllocError>
    ensures { IfOk result (λ others. others.items ≡ without number under_way.now) }
{
    let mut others = Vec::new(alloc);
    for td in under_way {
        if td.number != number {
            others.push(*td)?;
        }
    }
    Ok(others)
}

/// The TDs, with bytes that were moved by the one of a number.
#[tactic(auto, unfolding(crate::specs::urbs::Tds::with_moved))]
fn with_moved(
    alloc: Global,
    number: u64,
    length: u32,
    under_way: &[Td],
) -> Result<Vec<Td>, AllocError>
    ensures { IfOk result (λ moved. moved.items ≡ with_moved number length under_way.now) }
{
    let mut moved = Vec::new(alloc);
    for td in under_way {
        moved.push(td.td_moved(number, length))?;
    }
    Ok(moved)
}

impl Td {
    /// It, with bytes moved where it has this number.
    #[tactic(auto, unfolding(crate::specs::urbs::Tds::td_moved))]
    fn td_moved(self, number: u64, length: u32) -> Td
        ensures { result ≡ td_moved number length self }
    {
        if self.number == number {
            Td {
                moved: self.moved.saturating_add(length),
                ..self
            }
        } else {
            self
        }
    }

    /// How many bytes it moved, where its event told of so many that were left.
    #[tactic(auto, unfolding(crate::specs::urbs::Tds::moved_of))]
    pub(crate) fn moved_of(&self, residual: u32) -> u32
        ensures { result ≡ moved_of self.now residual }
    {
        match self.pipe {
            Pipe::Command | Pipe::Status => self.length.saturating_sub(residual),
            Pipe::DataIn | Pipe::DataOut => self.moved,
        }
    }
}
