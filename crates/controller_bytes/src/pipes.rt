//! A pipe, with streams or without.
ghost use Rattle.std.specs.Prelude.{◌≡◌, ◌+◌, ◌<◌, ◌≤◌, IfSome, length, option_map, false};
ghost use Rattle.machine_bytes.specs.Sparse.{changed_form, made_places, place_read, place_write_if, places_read, places_write};
ghost use Rattle.controller_bytes.specs.Pipes.{head_form, is_fresh, is_quiet, pipe_form, quiet_ring, ring_form, ring_place, rings_form, rings_of, streams_form};
ghost use Rattle.controller_bytes.specs.Texts.{pipe_of};
ghost use Rattle.guest_pipes.specs.Progress.{fresh};

use crate::consumers::{read_progress, read_state, write_progress, write_state};
use guest_pipes::{Pipe, PipeHead, Progress, STREAM_CONTEXTS};
use machine_bytes::{END_MARK, Place, Reader};
use std::alloc::{AllocError, Global};

/// A pipe as it was read.
#[derive(Clone, Copy, Debug, PartialEq, Eq)]
pub struct PipeText {
    pub head: PipeHead,
    pub rung: [bool; STREAM_CONTEXTS],
    pub progress: [Progress; STREAM_CONTEXTS],
}

fn write_head(place: Place, cells: &mut [u8], head: &PipeHead) -> Place
    ensures { (cells.new, result) ≡ head_form.write (cells.old, place) head.now }
{
    let place = place.u8(cells, head.endpoint);
    let place = write_state(place, cells, head.state);
    let place = place.u64(cells, head.array);
    let place = place.u16(cells, head.streams);
    place.flag(cells, head.invalid)
}

/// Reads how many stream contexts there are.
fn read_streams(reader: &mut Reader) -> Option<u16>
    ensures read { (result, reader.new) ≡ streams_form.read reader.old }
    ensures few { IfSome result (λ streams. streams ≤ 256) }
{
    let start = reader.left();
    let streams = reader.u16()?;
    if usize::from(streams) <= STREAM_CONTEXTS {
        Some(streams)
    } else {
        reader.go_back(start);
        None
    }
}

fn read_head(reader: &mut Reader) -> Option<PipeHead>
    ensures read { (result, reader.new) ≡ head_form.read reader.old }
    ensures few { IfSome result (λ head. head.streams ≤ 256) }
{
    let endpoint = reader.u8()?;
    let state = read_state(reader)?;
    let array = reader.u64()?;
    let streams = read_streams(reader)?;
    let invalid = reader.flag()?;
    Some(PipeHead {
        endpoint,
        state,
        array,
        streams,
        invalid,
    })
}

/// Whether it is at a TD's start.
fn is_fresh(progress: &Progress) -> bool
    ensures { result ≡ is_fresh progress.now }
{
    progress.moved == 0
        && progress.ending.runs()
        && progress.edtla == 0
        && !progress.begun
        && !progress.fed
}

/// Writes a ring, unless it is quiet.
fn write_ring(place: Place, cells: &mut [u8], rung: bool, progress: Progress, at: u16) -> Place
    ensures { (cells.new, result) ≡ place_write_if (is_quiet (rung, progress)) ring_form (cells.old, place) at (rung, progress) }
{
    if !rung && is_fresh(&progress) {
        return place;
    }
    let place = place.u16(cells, at);
    let place = place.flag(cells, rung);
    write_progress(place, cells, progress)
}

/// Writes the rings from a number on.
fn write_rings(
    place: Place,
    cells: &mut [u8],
    rung: &[bool],
    progress: &[Progress],
    at: u16,
) -> Place
    requires few { at + length rung.now < 65535 }
    ensures { (cells.new, result) ≡ places_write ring_place (cells.old, place) at (rings_of rung.now progress.now) }
{
    let Some((bell, bells)) = rung.split_first() else {
        return place;
    };
    let Some((first, others)) = progress.split_first() else {
        return place;
    };
    let place = write_ring(place, cells, *bell, *first, at);
    write_rings(place, cells, bells, others, at + 1)
}

/// Writes a pipe.
pub fn write_pipe(place: Place, cells: &mut [u8], pipe: &Pipe) -> Place
    ensures { (cells.new, result) ≡ pipe_form.write (cells.old, place) pipe.now }
{
    let place = write_head(place, cells, &pipe.head());
    let place = write_rings(place, cells, pipe.doorbells(), pipe.progresses(), 0);
    place.u16(cells, END_MARK)
}

/// Reads what is kept of a ring, unless another number stands in front.
fn read_ring(reader: &mut Reader, rung: &mut bool, progress: &mut Progress, at: u16) -> Option<()>
    ensures { (option_map (λ _. (rung.new, progress.new)) result, reader.new)
        ≡ place_read (changed_form ring_place) (rung.old, progress.old) at reader.old }
{
    if !reader.take_mark(at) {
        return Some(());
    }
    let start = reader.left();
    *rung = reader.flag()?;
    *progress = read_progress(reader)?;
    if !*rung && is_fresh(progress) {
        reader.go_back(start);
        return None;
    }
    Some(())
}

/// Reads the rings from a number on.
fn read_rings(
    reader: &mut Reader,
    rung: &mut [bool],
    progress: &mut [Progress],
    at: u16,
) -> Option<()>
    requires same { length rung.old ≡ length progress.old }
    requires few { at + length rung.old < 65535 }
    ensures { (option_map (λ _. rings_of rung.new progress.new) result, reader.new)
        ≡ places_read (changed_form ring_place) (rings_of rung.old progress.old) at reader.old }
{
    let Some((bell, bells)) = rung.split_first_mut() else {
        return Some(());
    };
    let Some((first, others)) = progress.split_first_mut() else {
        return Some(());
    };
    read_ring(reader, bell, first, at)?;
    read_rings(reader, bells, others, at + 1)
}

/// No doorbell is rung.
#[tactic(auto, unfolding(machine_bytes::specs::Sparse::made_places))]
fn no_doorbells() -> [bool; STREAM_CONTEXTS]
    ensures { result ≡ made_places 256 false }
{
    [false; STREAM_CONTEXTS]
}

/// All rings are at a TD's start.
#[tactic(auto, unfolding(machine_bytes::specs::Sparse::made_places))]
fn fresh_progresses() -> [Progress; STREAM_CONTEXTS]
    ensures { result ≡ made_places 256 fresh }
{
    [Progress::fresh(); STREAM_CONTEXTS]
}

/// Reads all rings into such that have nothing.
fn read_all_rings(reader: &mut Reader, rung: &mut [bool], progress: &mut [Progress]) -> Option<()>
    requires same { length rung.old ≡ length progress.old }
    requires few { length rung.old < 65535 }
    requires made { rings_of rung.old progress.old ≡ made_places 256 quiet_ring }
    ensures { (option_map (λ _. rings_of rung.new progress.new) result, reader.new) ≡ rings_form.read reader.old }
{
    read_rings(reader, rung, progress, 0)?;
    if reader.take_mark(END_MARK) {
        Some(())
    } else {
        None
    }
}

/// Reads a pipe.
#[tactic(auto, using(crate::proofs::Rings::rings_made, crate::proofs::Rings::doorbells_back, crate::proofs::Rings::progresses_back))]
pub fn read_pipe(reader: &mut Reader) -> Option<PipeText>
    ensures read { (option_map pipe_of result, reader.new) ≡ pipe_form.read reader.old }
    ensures few { IfSome result (λ pipe. pipe.head.streams ≤ 256) }
{
    let head = read_head(reader)?;
    let mut rung = no_doorbells();
    let mut progress = fresh_progresses();
    read_all_rings(reader, &mut rung, &mut progress)?;
    Some(PipeText {
        head,
        rung,
        progress,
    })
}
