//! Which tags are active, as bytes.
ghost use Rattle.std.specs.Prelude.{◌≡◌, ◌+◌, ◌<◌, ◌≤◌, Some, length, false, option_map};
ghost use Rattle.machine_bytes.specs.Sparse.{changed_form, made_places, place_read, place_write_if, places_read, places_write};
ghost use Rattle.marks.specs.Marks.{is_marked};
ghost use Rattle.xhci_machine.specs.ActiveTags.{active_form, active_of, mark_place, marks_from};

use guest_tasks::GuestTasks;
use machine_bytes::{END_MARK, Place, Reader};

/// How many tags may be active.
pub(crate) const TAG_PLACES: usize = 256;

/// Writes a tag's number, where it is active.
fn write_mark(place: Place, cells: &mut [u8], device: &GuestTasks, tag: u16) -> Place
    requires { tag < 256 }
    ensures { (cells.new, result) ≡ place_write_if (mark_place.is_fresh (is_marked device.now.active tag)) mark_place.form (cells.old, place) tag
        (is_marked device.now.active tag) }
{
    if device.is_active(tag) {
        place.u16(cells, tag)
    } else {
        place
    }
}

/// Writes those of so many tags from one on that are active.
#[tactic(auto, using(crate::proofs::ActiveExact::one_more))]
fn write_marks(place: Place, cells: &mut [u8], device: &GuestTasks, tag: u16, count: u16) -> Place
    requires { tag + count ≤ 256 }
    ensures { (cells.new, result) ≡ places_write mark_place (cells.old, place) tag (marks_from device.now.active tag count) }
{
    if count == 0 {
        return place;
    }
    let place = write_mark(place, cells, device, tag);
    write_marks(place, cells, device, tag + 1, count - 1)
}

/// Writes the active tags.
#[tactic(auto, unfolding(crate::specs::ActiveTags::active_of))]
pub(crate) fn write_active(place: Place, cells: &mut [u8], device: &GuestTasks) -> Place
    ensures { (cells.new, result) ≡ active_form.write (cells.old, place) (active_of device.now) }
{
    let place = write_marks(place, cells, device, 0, TAG_PLACES as u16);
    place.u16(cells, END_MARK)
}

/// Reads whether a tag is active.
fn read_mark(reader: &mut Reader, mark: &mut bool, tag: u16)
    ensures { (Some mark.new, reader.new) ≡ place_read (changed_form mark_place) mark.old tag reader.old }
{
    if reader.take_mark(tag) {
        *mark = true;
    }
}

/// Reads which tags from one on are active.
fn read_marks(reader: &mut Reader, marks: &mut [bool], tag: u16)
    requires few { tag + length marks.old < 65535 }
    ensures read { (Some marks.new, reader.new) ≡ places_read (changed_form mark_place) marks.old tag reader.old }
    ensures len { length marks.new ≡ length marks.old }
{
    let Some((mark, others)) = marks.split_first_mut() else {
        return;
    };
    read_mark(reader, mark, tag);
    read_marks(reader, others, tag + 1);
}

/// No tag is active.
#[tactic(auto, unfolding(machine_bytes::specs::Sparse::made_places))]
fn none_active() -> [bool; TAG_PLACES]
    ensures { result ≡ made_places 256 false }
{
    [false; TAG_PLACES]
}

/// Reads which tags are active.
pub(crate) fn read_active(reader: &mut Reader) -> Option<[bool; TAG_PLACES]>
    ensures { (result, reader.new) ≡ active_form.read reader.old }
{
    let mut marks = none_active();
    read_marks(reader, &mut marks, 0);
    if reader.take_mark(END_MARK) {
        Some(marks)
    } else {
        None
    }
}
