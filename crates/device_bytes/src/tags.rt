//! A device: the attentions of its logical units, and its tags.
ghost use Rattle.std.specs.Prelude.{◌≡◌, ℕ, ◌≤◌, ◌<◌, if◌then◌else◌, [], All, IfSome, MatchOption, None, Some, true, false, drop, length, map};
ghost use Rattle.std.specs.Option.{option_copied};
ghost use Rattle.byteorder.specs.Endian.{big_bytes};
ghost use Rattle.uas_tasks.specs.Saved.{AreSavable};
ghost use Rattle.uas_tasks.specs.Slots.{SlotState};
ghost use Rattle.machine_bytes.specs.Forms.{counted};
ghost use Rattle.machine_bytes.specs.Places.{written};
ghost use Rattle.machine_bytes.specs.Sparse.{PlaceHasIf, end_mark, end_read, has_mark, place_write_if};
ghost use Rattle.device_bytes.specs.Devices.{IsNumbered, Loads, MOST_CHUNK, attention_form, attention_loaded, attentions_form, attentions_loaded, attentions_of, device_form, device_loaded, is_fresh_tag};
ghost use Rattle.device_bytes.specs.Devices.{saved_device, saved_tag, state_form, tag_form, tag_loaded, tag_put, tags_form, tags_loaded, unit_place};

use crate::tasks::{read_task, write_task};
use host_commands::UnitAttention;
use machine_bytes::{Place, Reader};
use uas_tasks::{TagState, Tasks};

/// How many tags there are.
const TAGS: u16 = 240;

/// What stands behind the last place of a list.
const END: u16 = 0xffff;

/// The most bytes of a chunk: 128 blocks of 4,096.
const MOST_CHUNK: u32 = 524_288;

const _: () = prove!(TAGS == 240 && END == 65535 && MOST_CHUNK == 524_288);

fn write_attention(place: Place, cells: &mut [u8], attention: UnitAttention) -> Place
    ensures cells { (cells.new, result) ≡ attention_form.write (cells.old, place) attention }
    ensures has { attention_form.Has attention }
{
    match attention {
        UnitAttention::PowerOn => place.kind(cells, 0),
        UnitAttention::Reset => place.kind(cells, 1),
    }
}

fn read_attention(reader: &mut Reader) -> Option<UnitAttention>
    ensures { (result, reader.new) ≡ attention_form.read reader.old }
{
    match reader.below(2)? {
        0 => Some(UnitAttention::PowerOn),
        _ => Some(UnitAttention::Reset),
    }
}

/// Writes the attention of the logical unit of a number, where it has one.
fn write_unit(
    place: Place,
    cells: &mut [u8],
    number: u16,
    attention: Option<UnitAttention>,
) -> Place
    ensures cells { (cells.new, result) ≡ place_write_if (unit_place.is_fresh attention) unit_place.form (cells.old, place) number attention }
    ensures has { PlaceHasIf (unit_place.is_fresh attention) unit_place.form attention }
{
    match attention {
        Some(attention) => {
            let place = place.u16(cells, number);
            write_attention(place, cells, attention)
        }
        None => place,
    }
}

fn write_state(place: Place, cells: &mut [u8], state: &TagState) -> Place
    requires { IfSome state.now.task IsNumbered }
    ensures cells { (cells.new, result) ≡ state_form.write (cells.old, place) state.now }
    ensures has { state_form.Has state.now }
{
    let place = match &state.task {
        Some(task) => {
            let place = place.kind(cells, 1);
            write_task(place, cells, task)
        }
        None => place.kind(cells, 0),
    };
    place.u32(cells, state.turn)
}

fn read_state(reader: &mut Reader) -> Option<TagState>
    ensures { (result, reader.new) ≡ state_form.read reader.old }
{
    let task = if reader.flag()? {
        Some(read_task(reader)?)
    } else {
        None
    };
    let turn = reader.u32()?;
    Some(TagState { task, turn })
}

fn is_fresh_tag(state: &TagState, bytes: &[u8]) -> bool
    ensures { result ≡ is_fresh_tag (state.now, bytes.now) }
{
    state.task.is_none() && state.turn == 0 && bytes.is_empty()
}

/// Writes what matters of the tag at a place, where it isn't fresh.
fn write_tag(place: Place, cells: &mut [u8], at: u16, state: &TagState, bytes: &[u8]) -> Place
    requires numbered { IfSome state.now.task IsNumbered }
    requires few { length bytes.now ≤ MOST_CHUNK }
    ensures cells { (cells.new, result) ≡ place_write_if (is_fresh_tag (state.now, bytes.now)) tag_form (cells.old, place) at (state.now, bytes.now) }
    ensures has { PlaceHasIf (is_fresh_tag (state.now, bytes.now)) tag_form (state.now, bytes.now) }
{
    if is_fresh_tag(state, bytes) {
        return place;
    }
    let place = place.u16(cells, at);
    let place = write_state(place, cells, state);
    let place = place.u32(cells, bytes.len() as u32);
    place.write(cells, bytes)
}

/// Writes what stands behind the last place of a list.
fn write_end(place: Place, cells: &mut [u8]) -> Place
    ensures { (cells.new, result) ≡ written (cells.old, place) (big_bytes 2 end_mark) }
{
    place.u16(cells, END)
}

fn write_attentions(first: Place, cells: &mut [u8], tasks: &Tasks) -> Place
    ensures cells { (cells.new, result) ≡ (attentions_form (length tasks.now.units)).write (cells.old, first) (attentions_of tasks.now.units) }
    ensures has { (attentions_form (length tasks.now.units)).Has (attentions_of tasks.now.units) }
{
    let mut place = first;
    for number in 0..tasks.unit_count() {
        place = write_unit(place, cells, number as u16, tasks.unit_attention(number));
    }
    write_end(place, cells)
}

fn write_tags(first: Place, cells: &mut [u8], tasks: &Tasks) -> Place
    requires { AreSavable tasks.now }
    ensures cells { (chunk : ℕ) → (cells.new, result) ≡ (tags_form tasks.now.units chunk).write (cells.old, first) (map saved_tag tasks.now.slots) }
    ensures has { (chunk : ℕ) → All (λ (slot : SlotState). slot.chunk ≡ chunk) tasks.now.slots → (tags_form tasks.now.units chunk).Has (map saved_tag tasks.now.slots) }
{
    let mut place = first;
    for at in 0..TAGS {
        let state = tasks.tag_state(at + 1);
        place = write_tag(place, cells, at, &state, tasks.kept_bytes(at + 1));
    }
    write_end(place, cells)
}

/// Writes what matters of a device, no request of which is out.
pub fn save(place: Place, cells: &mut [u8], tasks: &Tasks) -> Place
    requires { AreSavable tasks.now }
    ensures cells { (chunk : ℕ) → (cells.new, result) ≡ (device_form tasks.now.units chunk).write (cells.old, place) (saved_device tasks.now) }
    ensures has { (chunk : ℕ) → All (λ (slot : SlotState). slot.chunk ≡ chunk) tasks.now.slots → (device_form tasks.now.units chunk).Has (saved_device tasks.now) }
{
    let place = write_attentions(place, cells, tasks);
    write_tags(place, cells, tasks)
}

/// Reads a number that stands in front, where it is this one.
fn take_mark(reader: &mut Reader, at: u16) -> bool
    ensures found { result ≡ has_mark at reader.old }
    ensures left { reader.new ≡ (if has_mark at reader.old then drop 2 reader.old else reader.old) }
{
    let start = reader.left();
    if reader.u16() == Some(at) {
        true
    } else {
        reader.go_back(start);
        false
    }
}

/// Reads what stands behind the last place of a list.
fn read_end(reader: &mut Reader) -> Option<()>
    ensures { (result, reader.new) ≡ end_read tt reader.old }
{
    if take_mark(reader, END) {
        Some(())
    } else {
        None
    }
}

/// Reads the bytes of a tag behind their number.
fn read_bytes<'a>(reader: &mut Reader<'a>) -> Option<&'a [u8]>
    ensures { (option_copied result, reader.new) ≡ (counted 4 MOST_CHUNK).read reader.old }
{
    let start = reader.left();
    let count = reader.u32()?;
    if count > MOST_CHUNK {
        reader.go_back(start);
        return None;
    }
    reader.bytes(count as usize)
}

/// Reads the attention of the logical unit of a number, where it stands there.
fn load_attention(reader: &mut Reader, tasks: &mut Tasks, at: u16) -> Option<()>
    ensures { Loads (attention_loaded tasks.old at reader.old) result tasks.new reader.new }
{
    if take_mark(reader, at) {
        let attention = read_attention(reader)?;
        tasks.restore_attention(usize::from(at), Some(attention));
    }
    Some(())
}

/// Reads what matters of the tag at a place, where it stands there.
fn load_tag(reader: &mut Reader, tasks: &mut Tasks, at: u16) -> Option<()>
    requires { at < 240 }
    ensures { Loads (tag_loaded tasks.old at reader.old) result tasks.new reader.new }
{
    if !take_mark(reader, at) {
        return Some(());
    }
    let start = reader.left();
    let state = read_state(reader)?;
    let bytes = read_bytes(reader)?;
    if put_tag(tasks, at, state, bytes) {
        Some(())
    } else {
        reader.go_back(start);
        None
    }
}

/// Puts what was read on the tag at a place, where it can be there and isn't fresh.
fn put_tag(tasks: &mut Tasks, at: u16, state: TagState, bytes: &[u8]) -> bool
    requires { at < 240 }
    ensures { MatchOption (tag_put tasks.old at (state, bytes.now) [] []).0 (result ≡ false) (λ after. (result ≡ true) × (tasks.new ≡ after)) }
{
    !is_fresh_tag(&state, bytes) && tasks.restore_tag(at + 1, state, bytes).is_ok()
}

fn load_attentions(reader: &mut Reader, tasks: &mut Tasks) -> Option<()>
    ensures { Loads (attentions_loaded tasks.old reader.old) result tasks.new reader.new }
{
    let count = tasks.unit_count() as u16;
    for at in 0..count {
        load_attention(reader, tasks, at)?;
    }
    Some(())
}

fn load_tags(reader: &mut Reader, tasks: &mut Tasks) -> Option<()>
    ensures { Loads (tags_loaded tasks.old reader.old) result tasks.new reader.new }
{
    for at in 0..TAGS {
        load_tag(reader, tasks, at)?;
    }
    Some(())
}

/// Reads what matters of a device into a fresh one of the same logical units and chunks: no tag has a task yet. `None` where there is no such
/// device; the reader stands where what has no meaning begins then, and the device is of no use.
pub fn load(reader: &mut Reader, tasks: &mut Tasks) -> Option<()>
    ensures { Loads (device_loaded tasks.old reader.old) result tasks.new reader.new }
{
    load_attentions(reader, tasks)?;
    read_end(reader)?;
    load_tags(reader, tasks)?;
    read_end(reader)
}
