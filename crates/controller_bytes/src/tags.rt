//! What is kept of the tags beside the device.
ghost use Rattle.std.specs.Prelude.{◌≡◌, ◌+◌, ◌<◌, ◌≤◌, IfSome, length, option_map};
ghost use Rattle.guest_transfers.specs.State.{empty_slot};
ghost use Rattle.machine_bytes.specs.Sparse.{changed_form, made_places, place_read, place_write_if, places_read, places_write};
ghost use Rattle.controller_bytes.specs.Tags.{chunk_form, is_empty, slot_form, slot_place, slots_form, unit_form};
ghost use Rattle.controller_bytes.specs.Texts.{FitsSlot, slot_of, unit_of};

use guest_tags::Unit;
use guest_transfers::Slot;
use machine_bytes::{END_MARK, Place, Reader};

/// The most bytes of a chunk.
const CHUNK_BYTES: u16 = 4096;

/// The most bytes of an information unit.
const UNIT_BYTES: u8 = 112;

/// An information unit as it was read.
#[derive(Clone, Copy)]
pub struct UnitText<'a> {
    pub text: &'a [u8],
    pub sent: u8,
}

/// What is kept of a tag as it was read.
#[derive(Clone, Copy)]
pub struct SlotText<'a> {
    pub chunk: &'a [u8],
    pub gave: bool,
    pub drops: bool,
    pub unit: UnitText<'a>,
    pub overlaps: u32,
    pub taken: &'a [u8],
}

fn write_unit(place: Place, cells: &mut [u8], unit: &Unit) -> Place
    ensures { (cells.new, result) ≡ unit_form.write (cells.old, place) unit.now }
{
    let place = place.counted_u8(cells, unit.text());
    place.u8(cells, unit.sent() as u8)
}

fn read_unit<'a>(reader: &mut Reader<'a>) -> Option<UnitText<'a>>
    ensures read { (option_map unit_of result, reader.new) ≡ unit_form.read reader.old }
    ensures few { IfSome result (λ unit. length unit.text.now ≤ 112) }
    ensures sent { IfSome result (λ unit. unit.sent ≤ length unit.text.now) }
{
    let start = reader.left();
    let text = reader.counted_u8(UNIT_BYTES)?;
    let sent = reader.u8()?;
    if usize::from(sent) <= text.len() {
        Some(UnitText { text, sent })
    } else {
        reader.go_back(start);
        None
    }
}

/// Writes what is kept of a tag.
fn write_slot(place: Place, cells: &mut [u8], slot: &Slot) -> Place
    ensures { (cells.new, result) ≡ slot_form.write (cells.old, place) slot.now }
{
    let chunk = &slot.tag.chunk;
    let place = place.counted_u16(cells, chunk.front(chunk.held()));
    let place = place.flag(cells, slot.tag.gave);
    let place = place.flag(cells, slot.tag.drops);
    let place = write_unit(place, cells, &slot.tag.unit);
    let place = place.u32(cells, slot.tag.overlaps);
    write_taken(place, cells, slot)
}

/// Writes what data-out gathered for a tag.
fn write_taken(place: Place, cells: &mut [u8], slot: &Slot) -> Place
    ensures { (cells.new, result) ≡ chunk_form.write (cells.old, place) slot.now.taken }
{
    let taken = &slot.taken;
    let _ = taken.held();
    place.counted_u16(cells, taken.bytes())
}

/// Reads what is kept of a tag.
fn read_slot<'a>(reader: &mut Reader<'a>) -> Option<SlotText<'a>>
    ensures read { (option_map slot_of result, reader.new) ≡ slot_form.read reader.old }
    ensures fits { IfSome result FitsSlot }
{
    let chunk = reader.counted_u16(CHUNK_BYTES)?;
    let gave = reader.flag()?;
    let drops = reader.flag()?;
    let unit = read_unit(reader)?;
    let overlaps = reader.u32()?;
    let taken = reader.counted_u16(CHUNK_BYTES)?;
    Some(SlotText {
        chunk,
        gave,
        drops,
        unit,
        overlaps,
        taken,
    })
}

/// Whether nothing is kept of a tag.
fn is_empty(slot: &Slot) -> bool
    ensures { result ≡ is_empty slot.now }
{
    slot.tag.chunk.held() == 0
        && !slot.tag.gave
        && !slot.tag.drops
        && slot.tag.unit.len() == 0
        && slot.tag.unit.sent() == 0
        && slot.tag.overlaps == 0
        && slot.taken.held() == 0
}

/// Writes a tag, unless nothing is kept of it.
fn write_tag(place: Place, cells: &mut [u8], slot: &Slot, at: u16) -> Place
    ensures { (cells.new, result) ≡ place_write_if (is_empty slot.now) slot_form (cells.old, place) at slot.now }
{
    if is_empty(slot) {
        return place;
    }
    write_slot(place.u16(cells, at), cells, slot)
}

/// Writes the tags from a number on.
fn write_tags(place: Place, cells: &mut [u8], slots: &[Slot], at: u16) -> Place
    requires few { at + length slots.now < 65535 }
    ensures { (cells.new, result) ≡ places_write slot_place (cells.old, place) at slots.now }
{
    let Some((slot, others)) = slots.split_first() else {
        return place;
    };
    let place = write_tag(place, cells, slot, at);
    write_tags(place, cells, others, at + 1)
}

/// Writes all tags.
pub fn write_all_tags(place: Place, cells: &mut [u8], slots: &[Slot]) -> Place
    requires few { length slots.now < 65535 }
    ensures { (cells.new, result) ≡ slots_form.write (cells.old, place) slots.now }
{
    let place = write_tags(place, cells, slots, 0);
    place.u16(cells, END_MARK)
}

/// What is kept of a tag is this now.
fn keep(slot: &mut Slot, text: &SlotText)
    requires { FitsSlot text.now }
    ensures { slot.new ≡ slot_of text.now }
{
    slot.tag.chunk.hold(text.chunk);
    slot.tag.gave = text.gave;
    slot.tag.drops = text.drops;
    slot.tag.unit = Unit::restored(text.unit.text, usize::from(text.unit.sent));
    slot.tag.overlaps = text.overlaps;
    slot.taken.clear();
    slot.taken.put(text.taken);
}

/// Reads a tag, unless another number stands in front.
fn read_tag(reader: &mut Reader, slot: &mut Slot, at: u16) -> Option<()>
    ensures { (option_map (λ _. slot.new) result, reader.new) ≡ place_read (changed_form slot_place) slot.old at reader.old }
{
    if !reader.take_mark(at) {
        return Some(());
    }
    let start = reader.left();
    let text = read_slot(reader)?;
    keep(slot, &text);
    if is_empty(slot) {
        reader.go_back(start);
        return None;
    }
    Some(())
}

/// Reads the tags from a number on.
fn read_tags(reader: &mut Reader, slots: &mut [Slot], at: u16) -> Option<()>
    requires few { at + length slots.old < 65535 }
    ensures read { (option_map (λ _. slots.new) result, reader.new) ≡ places_read (changed_form slot_place) slots.old at reader.old }
    ensures len { length slots.new ≡ length slots.old }
{
    let Some((slot, others)) = slots.split_first_mut() else {
        return Some(());
    };
    read_tag(reader, slot, at)?;
    read_tags(reader, others, at + 1)
}

/// Reads all tags into slots of which nothing is kept.
pub fn read_all_tags(reader: &mut Reader, slots: &mut [Slot]) -> Option<()>
    requires empty { slots.old ≡ made_places 241 empty_slot }
    requires all { length slots.old ≡ 241 }
    ensures read { (option_map (λ _. slots.new) result, reader.new) ≡ slots_form.read reader.old }
    ensures len { length slots.new ≡ length slots.old }
{
    read_tags(reader, slots, 0)?;
    if reader.take_mark(END_MARK) {
        Some(())
    } else {
        None
    }
}
