//! What a machine was made for, in front of its saved state.
ghost use Rattle.std.specs.Prelude.{◌≡◌, ◌<◌, ◌≤◌, length};
ghost use Rattle.xhci_machine.specs.Shapes.{behind_shape, most_of, set_number, shape_text, shape_write, unit_write, units_write};
ghost use Rattle.machine_bytes.specs.Sparse.{made_places};
ghost use Rattle.std.specs.Option.{option_copied};

use crate::saved::front;
use host_commands::CommandSet;
use machine_bytes::Place;
use uas_tasks::{LogicalUnit, Tasks};

/// The number of a command set.
fn set_number(set: CommandSet) -> u8
    ensures { result ≡ set_number set }
{
    match set {
        CommandSet::Profile => 0,
        CommandSet::Host { .. } => 1,
        CommandSet::Disk => 2,
    }
}

/// The most blocks that its commands move, where it says so itself.
fn most_of(set: CommandSet) -> u16
    ensures { result ≡ most_of set }
{
    match set {
        CommandSet::Host { maximum } => maximum.blocks(),
        CommandSet::Profile | CommandSet::Disk => 0,
    }
}

fn write_unit(place: Place, cells: &mut [u8], unit: &LogicalUnit) -> Place
    ensures { (cells.new, result) ≡ unit_write (cells.old, place) unit.now.shape }
{
    let shape = unit.shape;
    let place = place.u64(cells, shape.blocks());
    let place = place.u16(cells, shape.block_length().bytes());
    place.u32(cells, shape.serial().number())
}

fn write_units(place: Place, cells: &mut [u8], units: &[LogicalUnit]) -> Place
    ensures { (cells.new, result) ≡ units_write (cells.old, place) units.now }
{
    let Some((unit, others)) = units.split_first() else {
        return place;
    };
    let place = write_unit(place, cells, unit);
    write_units(place, cells, others)
}

/// Writes what a device was made for.
pub(crate) fn write_shape(place: Place, cells: &mut [u8], tasks: &Tasks) -> Place
    ensures { (cells.new, result) ≡ shape_write (cells.old, place) tasks.now }
{
    let count = tasks.unit_count();
    let place = place.kind(cells, set_number(tasks.command_set()));
    let place = place.u16(cells, most_of(tasks.command_set()));
    let place = place.u16(cells, tasks.chunk_blocks());
    let place = place.u8(cells, count as u8);
    write_units(place, cells, tasks.units())
}

/// Bytes that are enough for it: a machine has at most 15 logical units.
const SHAPE_BYTES: usize = 256;

/// Bytes of which none is written.
#[tactic(auto, unfolding(machine_bytes::specs::Sparse::made_places))]
fn blank() -> [u8; SHAPE_BYTES]
    ensures { result ≡ made_places 256 0 }
{
    [0; SHAPE_BYTES]
}

/// What stands behind that in a text, where it stands in front.
#[tactic(auto, unfolding(crate::specs::Shapes::shape_text))]
pub(crate) fn behind_shape<'a>(text: &'a [u8], tasks: &Tasks) -> Option<&'a [u8]>
    ensures { option_copied result ≡ behind_shape tasks.now text.now }
{
    let mut room = blank();
    let place = write_shape(Place::first(), &mut room, tasks);
    let shape = front(&room, place.at);
    if text.starts_with(shape) {
        Some(&text[shape.len()..])
    } else {
        None
    }
}
