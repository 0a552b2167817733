//! The consumer of a ring.
ghost use Rattle.std.specs.Prelude.{◌≡◌, ◌<◌};
ghost use Rattle.controller_bytes.specs.Consumers.{consumer_form, ending_form, progress_form, state_form, state_number};

use guest_pipes::{Consumer, Ending, EndpointState, Progress};
use machine_bytes::{Place, Reader};

/// The number of a state.
fn state_number(state: EndpointState) -> u8
    ensures number { result ≡ state_number state }
    ensures few { result < 5 }
{
    match state {
        EndpointState::Disabled => 0,
        EndpointState::Running => 1,
        EndpointState::Halted => 2,
        EndpointState::Stopped => 3,
        EndpointState::Error => 4,
    }
}

/// Writes an endpoint's state.
pub fn write_state(place: Place, cells: &mut [u8], state: EndpointState) -> Place
    ensures { (cells.new, result) ≡ state_form.write (cells.old, place) state }
{
    place.kind(cells, state_number(state))
}

/// Reads an endpoint's state.
pub fn read_state(reader: &mut Reader) -> Option<EndpointState>
    ensures { (result, reader.new) ≡ state_form.read reader.old }
{
    match reader.below(5)? {
        0 => Some(EndpointState::Disabled),
        1 => Some(EndpointState::Running),
        2 => Some(EndpointState::Halted),
        3 => Some(EndpointState::Stopped),
        _ => Some(EndpointState::Error),
    }
}

/// Writes how a TD goes on.
fn write_ending(place: Place, cells: &mut [u8], ending: Ending) -> Place
    ensures { (cells.new, result) ≡ ending_form.write (cells.old, place) ending }
{
    match ending {
        Ending::Runs => place.kind(cells, 0),
        Ending::Told { code } => place.kind(cells, 1).u8(cells, code),
        Ending::Owed => place.kind(cells, 2),
    }
}

/// Reads how a TD goes on.
fn read_ending(reader: &mut Reader) -> Option<Ending>
    ensures { (result, reader.new) ≡ ending_form.read reader.old }
{
    match reader.below(3)? {
        0 => Some(Ending::Runs),
        1 => {
            let code = reader.u8()?;
            Some(Ending::Told { code })
        }
        _ => Some(Ending::Owed),
    }
}

/// Writes what is opaque of a ring.
pub fn write_progress(place: Place, cells: &mut [u8], progress: Progress) -> Place
    ensures { (cells.new, result) ≡ progress_form.write (cells.old, place) progress }
{
    let place = place.u32(cells, progress.moved);
    let place = write_ending(place, cells, progress.ending);
    let place = place.u32(cells, progress.edtla);
    let place = place.flag(cells, progress.begun);
    place.flag(cells, progress.fed)
}

/// Reads what is opaque of a ring.
pub fn read_progress(reader: &mut Reader) -> Option<Progress>
    ensures { (result, reader.new) ≡ progress_form.read reader.old }
{
    let moved = reader.u32()?;
    let ending = read_ending(reader)?;
    let edtla = reader.u32()?;
    let begun = reader.flag()?;
    let fed = reader.flag()?;
    Some(Progress {
        moved,
        ending,
        edtla,
        begun,
        fed,
    })
}

/// Writes a consumer.
pub fn write_consumer(place: Place, cells: &mut [u8], consumer: &Consumer) -> Place
    ensures { (cells.new, result) ≡ consumer_form.write (cells.old, place) consumer.now }
{
    let place = place.u8(cells, consumer.endpoint);
    let place = write_state(place, cells, consumer.state);
    let place = place.flag(cells, consumer.rung);
    write_progress(place, cells, consumer.progress)
}

/// Reads a consumer.
pub fn read_consumer(reader: &mut Reader) -> Option<Consumer>
    ensures { (result, reader.new) ≡ consumer_form.read reader.old }
{
    let endpoint = reader.u8()?;
    let state = read_state(reader)?;
    let rung = reader.flag()?;
    let progress = read_progress(reader)?;
    Some(Consumer {
        endpoint,
        state,
        rung,
        progress,
    })
}
