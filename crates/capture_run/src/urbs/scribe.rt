//! The record of each change, written while a trace is taken line by line.

ghost use Rattle.std.specs.Prelude.{◌≡◌, ◌++◌, ◌≤◌, IfOk, OnOk, length, map, min, take};
ghost use Rattle.capture_run.specs.declared.format.TheConstants.{MOST_DATA};
ghost use Rattle.capture_run.specs.urbs.Records.{Writing, at_most, bytes_in, bytes_of, bytes_out, capture_of, change_packet, comment_of, end_words, event_words, retired_words, code_words, residual_words};
ghost use Rattle.capture_run.specs.urbs.Records.{first_writing, line_after, payload_of, record_of, taken_line, td_in, td_words, unit_after, with_line};
ghost use Rattle.capture_run.specs.urbs.Records.{with_lines, with_news};
ghost use Rattle.capture_run.specs.format.Descriptors.{start};

use crate::format::{Event, MOST_COMMENT, MOST_DATA, Record, Transfer, push_record, push_start};
use crate::urbs::{Change, Desk, News, Td, Transfers, news_in};
use byte_io::{pieces, words};
use hex::FromHexError;
use std::alloc::{AllocError, Global};
use std::marker::Model;
use stream_array::Pipe;

/// Writes the records of a trace.
#[derive(Drop)]
pub struct Scribe {
    alloc: Global,
    desk: Desk,
    // The line of the step.
    line: Vec<u8>,
    // The information unit that was written last.
    unit: Vec<u8>,
}

impl Model for Scribe {
    ghost use Rattle.capture_run.specs.urbs.Records.{Writing};

    ghost Value = { Writing };

    ghost view = { λ scribe. record { desk = scribe.desk; line = scribe.line.items; unit = scribe.unit.items } };
}

/// The capture of a trace, of commands that moved these bytes.
#[tactic(auto, unfolding(crate::specs::urbs::Records::capture_of))]
pub fn capture_of(alloc: Global, transfers: &Transfers, trace: &[u8]) -> Result<Vec<u8>, AllocError>
    ensures { IfOk result (λ capture. capture.items ≡ capture_of transfers.now trace.now) }
{
    let mut capture = Vec::new(alloc);
    push_start(alloc, &mut capture)?;
    let lines = pieces(alloc, trace)?;
    push_lines(alloc, transfers, &lines, &mut capture)?;
    Ok(capture)
}

/// Adds the packets of a trace's lines.
#[tactic(auto, unfolding(crate::specs::urbs::Records::with_lines))]
fn push_lines(
    alloc: Global,
    transfers: &Transfers,
    lines: &[&[u8]],
    capture: &mut Vec<u8>,
) -> Result<(), AllocError>
    ensures { OnOk result (capture.new.items ≡ with_lines transfers.now capture.old.items (map (λ line. line.now) lines.now)) }
{
    let mut scribe = Scribe::new(alloc);
    for line in lines {
        scribe.take(transfers, line, capture)?;
    }
    Ok(())
}

impl Scribe {
    /// Before the first line.
    fn new(alloc: Global) -> Scribe
        ensures { result ≡ first_writing }
    {
        Scribe {
            alloc,
            desk: Desk::new(alloc),
            line: Vec::new(alloc),
            unit: Vec::new(alloc),
        }
    }

    /// Takes a line of the trace, and adds the packet of what became of a TD by it.
    #[tactic(auto, unfolding(crate::specs::urbs::Records::taken_line))]
    fn take(
        &mut self,
        transfers: &Transfers,
        line: &[u8],
        capture: &mut Vec<u8>,
    ) -> Result<(), AllocError>
        ensures scribe { OnOk result (self.new ≡ (taken_line transfers.now self.old line.now).0) }
        ensures packet { OnOk result (capture.new.items ≡ capture.old.items ++ (taken_line transfers.now self.old line.now).1) }
    {
        let words = words(self.alloc, line)?;
        self.note_unit(&words)?;
        let news = news_in(self.alloc, line)?;
        self.take_news(transfers, line, news, capture)
    }

    /// Takes what a line tells.
    #[tactic(auto, unfolding(crate::specs::urbs::Records::with_news))]
    fn take_news(
        &mut self,
        transfers: &Transfers,
        line: &[u8],
        news: Option<News>,
        capture: &mut Vec<u8>,
    ) -> Result<(), AllocError>
        ensures scribe { OnOk result (self.new ≡ (with_news transfers.now self.old line.now news).0) }
        ensures packet { OnOk result (capture.new.items ≡ capture.old.items ++ (with_news transfers.now self.old line.now news).1) }
    {
        let Some(news) = news else {
            return Ok(());
        };
        self.note_step(news, line)?;
        let change = self.desk.take(news)?;
        match change {
            Some(change) => self.push_packet(transfers, &change, capture),
            None => Ok(()),
        }
    }

    /// Keeps the line of a step.
    #[tactic(auto, unfolding(crate::specs::urbs::Records::line_after))]
    fn note_step(&mut self, news: News, line: &[u8]) -> Result<(), AllocError>
        ensures { OnOk result (self.new ≡ record self.old { line = line_after self.old.line line.now news }) }
    {
        match news {
            News::Step(_) => {
                self.line.clear();
                self.line.extend_from_slice(line)
            }
            News::Put { .. } | News::Moved { .. } | News::Posted { .. } | News::Passed { .. } => Ok(
                (),
            ),
        }
    }

    /// Keeps the bytes of `unit ADDRESS BYTES`.
    #[tactic(auto, unfolding(crate::specs::urbs::Records::unit_after))]
    fn note_unit(&mut self, words: &[&[u8]]) -> Result<(), AllocError>
        ensures { OnOk result (self.new ≡ record self.old { unit = unit_after self.old.unit (map (λ word. word.now) words.now) }) }
    {
        let Some(first) = words.get(0) else {
            return Ok(());
        };
        if *first != "unit".as_bytes() {
            return Ok(());
        }
        let Some(digits) = words.get(2) else {
            return Ok(());
        };
        match hex::decode(self.alloc, *digits) {
            Ok(bytes) => {
                self.unit = bytes;
                Ok(())
            }
            Err(FromHexError::OutOfMemory) => Err(AllocError),
            Err(_) => Ok(()),
        }
    }

    /// Adds the packet of a change.
    #[tactic(auto, unfolding(crate::specs::urbs::Records::change_packet), using(std::proofs::lemmas::List::take_min))]
    fn push_packet(
        &self,
        transfers: &Transfers,
        change: &Change,
        capture: &mut Vec<u8>,
    ) -> Result<(), AllocError>
        ensures { OnOk result (capture.new.items ≡ capture.old.items ++ change_packet transfers.now self.now change.now) }
    {
        let comment = self.comment_of(change)?;
        let shown = &comment[..MOST_COMMENT.min(comment.len())];
        let urb = record_of(self.desk.step(), change);
        let payload = payload_of(&self.unit, transfers.of(td_in(change).owner), change);
        push_record(self.alloc, capture, &urb, payload, shown)
    }

    /// The comment of a change: the step's line, the TD, whose it is, and how it ended.
    #[tactic(auto, unfolding(crate::specs::urbs::Records::comment_of))]
    fn comment_of(&self, change: &Change) -> Result<Vec<u8>, AllocError>
        ensures { IfOk result (λ text. text.items ≡ comment_of self.now.line change.now) }
    {
        let mut text = Vec::new(self.alloc);
        text.extend_from_slice(&self.line)?;
        push_td(self.alloc, &mut text, &td_in(change))?;
        push_end(self.alloc, &mut text, change)?;
        Ok(text)
    }
}

/// The TD of a change.
fn td_in(change: &Change) -> Td
    ensures { result ≡ td_in change.now }
{
    match *change {
        Change::Submitted(td) => td,
        Change::Completed { td, .. } => td,
        Change::Unlinked(td) => td,
    }
}

/// The record of a change in a step.
#[tactic(auto, unfolding(crate::specs::urbs::Records::record_of))]
fn record_of(step: u64, change: &Change) -> Record
    ensures { result ≡ record_of step change.now }
{
    let (event, td, length) = match *change {
        Change::Submitted(td) => (Event::Submitted, td, td.length),
        Change::Completed { td, residual, .. } => (Event::Completed, td, td.moved_of(residual)),
        Change::Unlinked(td) => (Event::Unlinked, td, td.moved),
    };
    Record {
        event,
        transfer: Transfer::Bulk(td.pipe),
        number: td.number,
        length,
        time: step,
    }
}

/// The bytes that go with the record of a change: of the unit that was written last, or of those that its command moves.
#[tactic(auto, unfolding(crate::specs::urbs::Records::payload_of))]
fn payload_of<'a>(unit: &'a [u8], bytes: &'a [u8], change: &Change) -> &'a [u8]
    ensures value { result.now ≡ payload_of unit.entry.now bytes.entry.now change.now }
    ensures few { length result.now ≤ MOST_DATA }
{
    match *change {
        Change::Submitted(td) => bytes_out(td.pipe, td.length, unit, bytes),
        Change::Completed { td, residual, .. } => {
            bytes_in(td.pipe, td.moved_of(residual), unit, bytes)
        }
        Change::Unlinked(td) => bytes_in(td.pipe, td.moved, b"", bytes),
    }
}

/// The bytes that go with a submission.
#[tactic(auto, unfolding(crate::specs::urbs::Records::bytes_out))]
fn bytes_out<'a>(pipe: Pipe, count: u32, unit: &'a [u8], bytes: &'a [u8]) -> &'a [u8]
    ensures value { result.now ≡ bytes_out pipe count unit.entry.now bytes.entry.now }
    ensures few { length result.now ≤ MOST_DATA }
{
    match pipe {
        Pipe::Command => at_most(count, unit),
        Pipe::DataOut => at_most(count, bytes),
        Pipe::Status | Pipe::DataIn => b"",
    }
}

/// The bytes that go with an end.
#[tactic(auto, unfolding(crate::specs::urbs::Records::bytes_in))]
fn bytes_in<'a>(pipe: Pipe, count: u32, unit: &'a [u8], bytes: &'a [u8]) -> &'a [u8]
    ensures value { result.now ≡ bytes_in pipe count unit.entry.now bytes.entry.now }
    ensures few { length result.now ≤ MOST_DATA }
{
    match pipe {
        Pipe::Status => at_most(count, unit),
        Pipe::DataIn => at_most(count, bytes),
        Pipe::Command | Pipe::DataOut => b"",
    }
}

/// The first bytes, so many at most.
#[tactic(auto, unfolding(crate::specs::urbs::Records::at_most), using(std::proofs::lemmas::List::take_min))]
fn at_most(count: u32, bytes: &[u8]) -> &[u8]
    ensures value { result.now ≡ at_most count bytes.entry.now }
    ensures few { length result.now ≤ MOST_DATA }
{
    let most = (count as usize).min(MOST_DATA);
    &bytes[..most.min(bytes.len())]
}

/// Adds a TD's stream, its address, and whose it is.
#[tactic(auto, unfolding(crate::specs::urbs::Records::td_words))]
fn push_td(alloc: Global, text: &mut Vec<u8>, td: &Td) -> Result<(), AllocError>
    ensures { OnOk result (text.new.items ≡ text.old.items ++ td_words td.now) }
{
    let stream = td.stream;
    let first = hex::encode(alloc, td.first.to_be_bytes())?;
    let client = td.owner.client;
    let ticket = td.owner.ticket;
    let words = format!(in alloc;
        " | stream {stream} | TD at {first} | client {client} ticket {ticket}"
    )?;
    text.extend_from_slice(words.as_bytes())
}

/// Adds how a TD ended.
#[tactic(auto, unfolding(crate::specs::urbs::Records::end_words))]
fn push_end(alloc: Global, text: &mut Vec<u8>, change: &Change) -> Result<(), AllocError>
    ensures { OnOk result (text.new.items ≡ text.old.items ++ end_words change.now) }
{
    match *change {
        Change::Submitted(_) => Ok(()),
        Change::Completed { residual, code, .. } => push_event(alloc, text, residual, code),
        Change::Unlinked(td) => push_retired(alloc, text, td.moved),
    }
}

/// Adds what an event told.
#[tactic(auto, unfolding(crate::specs::urbs::Records::event_words))]
fn push_event(alloc: Global, text: &mut Vec<u8>, residual: u32, code: u8) -> Result<(), AllocError>
    ensures { OnOk result (text.new.items ≡ text.old.items ++ event_words residual code) }
{
    push_code(alloc, text, code)?;
    push_residual(alloc, text, residual)
}

/// Adds the code of an event.
#[tactic(auto, unfolding(crate::specs::urbs::Records::code_words))]
fn push_code(alloc: Global, text: &mut Vec<u8>, code: u8) -> Result<(), AllocError>
    ensures { OnOk result (text.new.items ≡ text.old.items ++ code_words code) }
{
    let words = format!(in alloc; " | event code {code}")?;
    text.extend_from_slice(words.as_bytes())
}

/// Adds how many bytes an event tells to be left.
#[tactic(auto, unfolding(crate::specs::urbs::Records::residual_words))]
fn push_residual(alloc: Global, text: &mut Vec<u8>, residual: u32) -> Result<(), AllocError>
    ensures { OnOk result (text.new.items ≡ text.old.items ++ residual_words residual) }
{
    let words = format!(in alloc; " residual {residual}")?;
    text.extend_from_slice(words.as_bytes())
}

/// Adds that a TD was taken off after so many bytes.
#[tactic(auto, unfolding(crate::specs::urbs::Records::retired_words))]
fn push_retired(alloc: Global, text: &mut Vec<u8>, moved: u32) -> Result<(), AllocError>
    ensures { OnOk result (text.new.items ≡ text.old.items ++ retired_words moved) }
{
    let end = format!(in alloc; " | TD retired after {moved} bytes")?;
    text.extend_from_slice(end.as_bytes())
}
