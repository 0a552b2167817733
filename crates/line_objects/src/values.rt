//! The values and fields of an object, and how they are written.
ghost use Rattle.std.specs.Prelude.{◌≡◌, ◌++◌, ◌∷◌, [], OnOk, flat_map, map};
ghost use Rattle.std.specs.List.{join_by};
ghost use Rattle.hex.specs.Hex.{encode_lower};
ghost use Rattle.line_objects.specs.Objects.{byte_text, field_text, object, quoted, value_text};
ghost use Rattle.line_objects.specs.Held.{field_held, value_held};

use std::alloc::AllocError;

/// The value of a field.
#[derive(Clone, Copy, Debug, PartialEq, Eq)]
pub(crate) enum Value<'a> {
    /// A number, in decimal digits.
    Number(&'a [u8]),
    /// Any bytes.
    Text(&'a [u8]),
    /// Whether something is so.
    Truth(bool),
}

/// A key with its value.
#[derive(Clone, Copy, Debug, PartialEq, Eq)]
pub(crate) struct Field<'a> {
    pub(crate) key: &'static str,
    pub(crate) value: Value<'a>,
}

/// Adds the object of these fields.
#[tactic(auto, unfolding(crate::specs::Objects::object))]
pub(crate) fn push_object(text: &mut Vec<u8>, fields: &[Field<'_>]) -> Result<(), AllocError>
    ensures { OnOk result (text.new.items ≡ text.old.items ++ object (map field_held fields.now)) }
{
    text.push(b'{')?;
    if let Some((first, rest)) = fields.split_first() {
        push_field(text, first)?;
        push_more(text, rest)?;
    }
    text.push(b'}')?;
    Ok(())
}

/// Adds fields behind the first one.
fn push_more(text: &mut Vec<u8>, fields: &[Field<'_>]) -> Result<(), AllocError>
    ensures { OnOk result (text.new.items ≡ text.old.items ++ flat_map (λ field. (44 ∷ []) ++ field_text field) (map field_held fields.now)) }
{
    for field in fields {
        text.push(b',')?;
        push_field(text, field)?;
    }
    Ok(())
}

#[tactic(auto, unfolding(crate::specs::Objects::field_text))]
fn push_field(text: &mut Vec<u8>, field: &Field<'_>) -> Result<(), AllocError>
    ensures { OnOk result (text.new.items ≡ text.old.items ++ field_text (field_held field.now)) }
{
    text.push(b'"')?;
    text.extend_from_slice(field.key.as_bytes())?;
    text.extend_from_slice(b"\":")?;
    push_value(text, field.value)
}

#[tactic(auto, unfolding(crate::specs::Objects::value_text))]
fn push_value(text: &mut Vec<u8>, value: Value<'_>) -> Result<(), AllocError>
    ensures { OnOk result (text.new.items ≡ text.old.items ++ value_text (value_held value.entry)) }
{
    match value {
        Value::Number(digits) => text.extend_from_slice(digits),
        Value::Text(bytes) => push_quoted(text, bytes),
        Value::Truth(true) => text.extend_from_slice(b"true"),
        Value::Truth(false) => text.extend_from_slice(b"false"),
    }
}

/// Adds a string of these bytes.
#[tactic(auto, unfolding(crate::specs::Objects::quoted))]
fn push_quoted(text: &mut Vec<u8>, bytes: &[u8]) -> Result<(), AllocError>
    ensures { OnOk result (text.new.items ≡ text.old.items ++ quoted bytes.now) }
{
    text.push(b'"')?;
    push_escaped(text, bytes)?;
    text.push(b'"')?;
    Ok(())
}

fn push_escaped(text: &mut Vec<u8>, bytes: &[u8]) -> Result<(), AllocError>
    ensures { OnOk result (text.new.items ≡ text.old.items ++ flat_map byte_text bytes.now) }
{
    for byte in bytes {
        push_byte(text, *byte)?;
    }
    Ok(())
}

/// Adds a byte of a string.
#[tactic(auto, unfolding(crate::specs::Objects::byte_text))]
fn push_byte(text: &mut Vec<u8>, byte: u8) -> Result<(), AllocError>
    ensures { OnOk result (text.new.items ≡ text.old.items ++ byte_text byte) }
{
    if byte == b'"' || byte == b'\\' {
        text.push(b'\\')?;
        text.push(byte)?;
        Ok(())
    } else if byte < b' ' || byte > b'~' {
        text.extend_from_slice(b"\\u00")?;
        push_hex(text, byte)
    } else {
        text.push(byte)?;
        Ok(())
    }
}

/// Adds a byte in two hexadecimal digits.
fn push_hex(text: &mut Vec<u8>, byte: u8) -> Result<(), AllocError>
    ensures { OnOk result (text.new.items ≡ text.old.items ++ encode_lower (byte ∷ [])) }
{
    let mut digits = [0; 2];
    let _ = hex::encode_to_slice([byte], &mut digits);
    text.extend_from_slice(&digits)
}
