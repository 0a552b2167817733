//! The event ring's producer and the slot.
ghost use Rattle.std.specs.Prelude.{◌≡◌, ◌<◌};
ghost use Rattle.guest_memory.specs.rings.Saved.{has_segment};
ghost use Rattle.machine_bytes.specs.Forms.{optional};
ghost use Rattle.controller_bytes.specs.Slots.{ring_form, slot_form, slot_state_form, slot_state_number};

use guest_memory::rings::{EventRing, EventRingParts};
use machine_bytes::{Place, Reader};
use xhci_slots::Slot;
use xhci_slots::contexts::SlotState;

/// Writes an event ring's producer.
fn write_ring(place: Place, cells: &mut [u8], ring: &EventRing) -> Place
    ensures { (cells.new, result) ≡ ring_form.write (cells.old, place) ring.now }
{
    let parts = ring.parts();
    let place = place.u64(cells, parts.base);
    let place = place.u16(cells, parts.places);
    let place = place.u16(cells, parts.place);
    let place = place.u16(cells, parts.free);
    let place = place.flag(cells, parts.cycle);
    place.flag(cells, parts.asks)
}

/// Reads it.
fn read_ring(reader: &mut Reader) -> Option<EventRing>
    ensures { (result, reader.new) ≡ ring_form.read reader.old }
{
    let start = reader.left();
    let base = reader.u64()?;
    let places = reader.u16()?;
    let place = reader.u16()?;
    let free = reader.u16()?;
    let cycle = reader.flag()?;
    let asks = reader.flag()?;
    let ring = EventRing::restored(EventRingParts {
        base,
        places,
        place,
        cycle,
        free,
        asks,
    });
    if ring.is_none() {
        reader.go_back(start);
    }
    ring
}

/// Writes an event ring, where there is one.
pub fn write_ring_option(place: Place, cells: &mut [u8], ring: &Option<EventRing>) -> Place
    ensures { (cells.new, result) ≡ (optional ring_form).write (cells.old, place) ring.now }
{
    match ring {
        None => place.kind(cells, 0),
        Some(ring) => write_ring(place.kind(cells, 1), cells, ring),
    }
}

/// Reads an event ring, where there is one.
pub fn read_ring_option(reader: &mut Reader) -> Option<Option<EventRing>>
    ensures { (result, reader.new) ≡ (optional ring_form).read reader.old }
{
    match reader.below(2)? {
        0 => Some(None),
        _ => {
            let ring = read_ring(reader)?;
            Some(Some(ring))
        }
    }
}

/// The number of a slot's state.
fn slot_state_number(state: SlotState) -> u8
    ensures { result ≡ slot_state_number state }
{
    match state {
        SlotState::Enabled => 0,
        SlotState::Default => 1,
        SlotState::Addressed => 2,
        SlotState::Configured => 3,
    }
}

/// Reads a slot's state.
fn read_slot_state(reader: &mut Reader) -> Option<SlotState>
    ensures { (result, reader.new) ≡ slot_state_form.read reader.old }
{
    match reader.below(4)? {
        0 => Some(SlotState::Enabled),
        1 => Some(SlotState::Default),
        2 => Some(SlotState::Addressed),
        _ => Some(SlotState::Configured),
    }
}

/// Writes a slot's state, where it is given out.
fn write_slot_state_option(place: Place, cells: &mut [u8], state: Option<SlotState>) -> Place
    ensures { (cells.new, result) ≡ (optional slot_state_form).write (cells.old, place) state }
{
    match state {
        None => place.kind(cells, 0),
        Some(state) => place.kind(cells, 1).kind(cells, slot_state_number(state)),
    }
}

/// Reads a slot's state, where it is given out.
fn read_slot_state_option(reader: &mut Reader) -> Option<Option<SlotState>>
    ensures { (result, reader.new) ≡ (optional slot_state_form).read reader.old }
{
    match reader.below(2)? {
        0 => Some(None),
        _ => {
            let state = read_slot_state(reader)?;
            Some(Some(state))
        }
    }
}

/// Writes the slot.
pub fn write_slot(place: Place, cells: &mut [u8], slot: &Slot) -> Place
    ensures { (cells.new, result) ≡ slot_form.write (cells.old, place) slot.now }
{
    let place = write_slot_state_option(place, cells, slot.state);
    place.u64(cells, slot.context)
}

/// Reads the slot.
pub fn read_slot(reader: &mut Reader) -> Option<Slot>
    ensures { (result, reader.new) ≡ slot_form.read reader.old }
{
    let state = read_slot_state_option(reader)?;
    let context = reader.u64()?;
    Some(Slot { state, context })
}
