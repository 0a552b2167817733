//! The fields of a line.
ghost use Rattle.std.specs.Prelude.{◌≡◌, IfOk, map};
ghost use Rattle.line_objects.specs.Lines.{text, with};
ghost use Rattle.line_objects.specs.Objects.{fields_of, fields_of_row, whole};
ghost use Rattle.line_objects.specs.Held.{field_held};

use crate::Form;
use crate::decoded::decode_fields;
use crate::rows::{fields_by, row_for};
use crate::values::{Field, Value};
use std::alloc::{AllocError, Global};

/// The fields of a line, in the order of its object.
#[tactic(auto, unfolding(crate::specs::Objects::fields_of))]
pub(crate) fn fields_of<'a>(
    alloc: Global,
    form: Form,
    line: &'a [u8],
) -> Result<Vec<Field<'a>>, AllocError>
    ensures { IfOk result (λ fields. map field_held fields.items ≡ fields_of form line.entry.now) }
{
    if form == Form::Decode {
        return decode_fields(alloc, line);
    }
    match row_for(form, line) {
        Some(row) => fields_by(alloc, row, line),
        None => whole(alloc, line),
    }
}

/// A line as it is.
pub(crate) fn whole<'a>(alloc: Global, line: &'a [u8]) -> Result<Vec<Field<'a>>, AllocError>
    ensures { IfOk result (λ fields. map field_held fields.items ≡ whole line.entry.now) }
{
    Ok(vec![in alloc; with_text("line", line)]?)
}

/// A field of any bytes.
pub(crate) fn with_text<'a>(key: &'static str, bytes: &'a [u8]) -> Field<'a>
    ensures { field_held result ≡ with key.now (text bytes.entry.now) }
{
    Field {
        key,
        value: Value::Text(bytes),
    }
}
