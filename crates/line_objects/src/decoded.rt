//! The fields of a line of `decode`.
ghost use Rattle.std.specs.Prelude.{◌≡◌, ◌+◌, ◌≤◌, IfOk, IfSome, IsTrue, length, map};
ghost use Rattle.std.specs.Str.{bytes_eq};
ghost use Rattle.line_objects.specs.Objects.{decode_fields, is_kind, is_marked, last_mark, names_bytes, said};
ghost use Rattle.line_objects.specs.Held.{field_held};

use crate::fields::{whole, with_text};
use crate::lines::{behind_word, first_word, has_word};
use crate::values::Field;
use std::alloc::{AllocError, Global};

/// What stands between an input line and what is said of it.
const MARK: &[u8] = b"  ; ";

/// What stands in front of the name by which a line is refused.
const REFUSED: &[u8] = b"refused: ";

/// The fields of a line of `decode`.
#[tactic(auto, unfolding(crate::specs::Objects::decode_fields))]
pub(crate) fn decode_fields<'a>(alloc: Global, line: &'a [u8]) -> Result<Vec<Field<'a>>, AllocError>
    ensures { IfOk result (λ fields. map field_held fields.items ≡ decode_fields line.entry.now) }
{
    if !names_bytes(line) {
        return whole(alloc, line);
    }
    match last_mark(line) {
        Some(place) => Ok(vec![in alloc;
            with_text("line", &line[..place]),
            said(&line[place + 4..]),
        ]?),
        None => whole(alloc, line),
    }
}

/// What is said of a line, or the name by which it is refused.
fn said<'a>(bytes: &'a [u8]) -> Field<'a>
    ensures { field_held result ≡ said bytes.entry.now }
{
    match bytes.strip_prefix(REFUSED) {
        Some(name) => with_text("refused", name),
        None => with_text("says", bytes),
    }
}

/// Whether the first word of a line names bytes; `event` alone names none.
#[tactic(auto, unfolding(crate::specs::Objects::names_bytes))]
fn names_bytes(line: &[u8]) -> bool
    ensures { result ≡ names_bytes line.now }
{
    let first = first_word(line);
    is_kind(first) || (is_word(first, "event") && has_word(behind_word(line)))
}

fn is_kind(word: &[u8]) -> bool
    ensures { result ≡ is_kind word.now }
{
    is_word(word, "unit")
        || is_word(word, "put")
        || is_word(word, "link")
        || is_word(word, "trb")
        || is_word(word, "context")
        || is_word(word, "bell")
        || is_word(word, "cdb")
        || is_word(word, "sense")
        || is_word(word, "host")
}

fn is_word(word: &[u8], name: &str) -> bool
    ensures { result ≡ bytes_eq word.now name.now }
{
    word == name.as_bytes()
}

/// The place of the last mark of a line.
fn last_mark(line: &[u8]) -> Option<usize>
    ensures place { result ≡ last_mark line.now }
    ensures bound { IfSome result (λ place. place + 4 ≤ length line.now) }
{
    for place in (0..line.len()).rev() {
        if is_marked(&line[place..]) {
            return Some(place);
        }
    }
    None
}

/// Whether a mark stands here.
fn is_marked(line: &[u8]) -> bool
    ensures here { result ≡ is_marked line.now }
    ensures long { IsTrue result → 4 ≤ length line.now }
{
    line.starts_with(MARK)
}
