//! The elements that a picture is made of: arrows, dots, bars and texts.

ghost use Rattle.std.specs.Prelude.{◌≡◌, ◌++◌, IsTrue, OnOk};
ghost use Rattle.std.specs.List.{list_all};
ghost use Rattle.draw_run.specs.picture.Elements.{arrow, arrow_from, attribute, bar_at, dot, escaped, escaped_byte, is_plain, rule_at, shown, text_at, words_at};

use std::alloc::AllocError;

/// The most bytes of a line that are shown.
pub const MOST_WORDS: usize = 120;

/// Draws an arrow, its head at its end.
#[tactic(auto, unfolding(crate::specs::picture::Elements::arrow))]
pub(crate) fn push_arrow(text: &mut Vec<u8>, from: u64, to: u64, y: u64) -> Result<(), AllocError>
    ensures { OnOk result (text.new.items ≡ text.old.items ++ arrow from to y) }
{
    push_arrow_from(text, from, to, y)?;
    if from < to {
        text.extend_from_slice(b"l-8-4v8l8-4z\"/>")
    } else {
        text.extend_from_slice(b"l8-4v8l-8-4z\"/>")
    }
}

#[tactic(auto, unfolding(crate::specs::picture::Elements::arrow_from))]
fn push_arrow_from(text: &mut Vec<u8>, from: u64, to: u64, y: u64) -> Result<(), AllocError>
    ensures { OnOk result (text.new.items ≡ text.old.items ++ arrow_from from to y) }
{
    let drawn = format!(in *text.allocator(); "<path d=\"M{from} {y}H{to}")?;
    text.extend_from_slice(drawn.as_bytes())
}

pub(crate) fn push_dot(text: &mut Vec<u8>, x: u64, y: u64) -> Result<(), AllocError>
    ensures { OnOk result (text.new.items ≡ text.old.items ++ dot x y) }
{
    text.extend_from_slice(b"<circle r=\"3\"")?;
    push_attribute(text, "cx", x)?;
    push_attribute(text, "cy", y)?;
    text.extend_from_slice(b"/>")?;
    Ok(())
}

#[tactic(auto, unfolding(crate::specs::picture::Elements::bar_at))]
pub(crate) fn push_bar_at(text: &mut Vec<u8>, x: u64, y: u64, height: u64) -> Result<(), AllocError>
    ensures { OnOk result (text.new.items ≡ text.old.items ++ bar_at x y height) }
{
    text.extend_from_slice(b"<rect class=\"held\" width=\"8\"")?;
    push_attribute(text, "x", x)?;
    push_attribute(text, "y", y)?;
    push_attribute(text, "height", height)?;
    text.extend_from_slice(b">")
}

#[tactic(auto, unfolding(crate::specs::picture::Elements::rule_at))]
pub(crate) fn push_rule_at(text: &mut Vec<u8>, width: u64, y: u64) -> Result<(), AllocError>
    ensures { OnOk result (text.new.items ≡ text.old.items ++ rule_at width y) }
{
    text.extend_from_slice(b"<rect class=\"rule\" height=\"1\"")?;
    push_attribute(text, "y", y)?;
    push_attribute(text, "width", width)?;
    text.extend_from_slice(b"/>")
}

/// Adds an attribute of an element.
#[tactic(auto, unfolding(crate::specs::picture::Elements::attribute))]
pub(crate) fn push_attribute(text: &mut Vec<u8>, name: &str, value: u64) -> Result<(), AllocError>
    ensures { OnOk result (text.new.items ≡ text.old.items ++ attribute name.now value) }
{
    let attribute = format!(in *text.allocator(); " {name}=\"{value}\"")?;
    text.extend_from_slice(attribute.as_bytes())
}

pub(crate) fn push_words_at(
    text: &mut Vec<u8>,
    x: u64,
    y: u64,
    line: &[u8],
) -> Result<(), AllocError>
    ensures { OnOk result (text.new.items ≡ text.old.items ++ words_at x y line.now) }
{
    push_text_at(text, x, y)?;
    push_escaped(text, shown(line))?;
    text.extend_from_slice(b"</text>")?;
    Ok(())
}

#[tactic(auto, unfolding(crate::specs::picture::Elements::text_at))]
pub(crate) fn push_text_at(text: &mut Vec<u8>, x: u64, y: u64) -> Result<(), AllocError>
    ensures { OnOk result (text.new.items ≡ text.old.items ++ text_at x y) }
{
    text.extend_from_slice(b"<text")?;
    push_attribute(text, "x", x)?;
    push_attribute(text, "y", y)?;
    text.extend_from_slice(b">")
}

/// The first bytes of a line.
#[tactic(auto, unfolding(crate::specs::picture::Elements::shown), using(std::proofs::lemmas::List::take_min))]
fn shown(line: &[u8]) -> &[u8]
    ensures { result.now ≡ shown line.entry.now }
{
    &line[..MOST_WORDS.min(line.len())]
}

/// Adds bytes as the text of an element: none of them begins or ends one.
#[tactic(auto, unfolding(crate::specs::picture::Elements::escaped), using(crate::proofs::Plain::plain_escaped))]
fn push_escaped(text: &mut Vec<u8>, bytes: &[u8]) -> Result<(), AllocError>
    ensures text { OnOk result (text.new.items ≡ text.old.items ++ escaped bytes.now) }
    ensures plain { IsTrue (list_all is_plain (escaped bytes.now)) }
{
    for byte in bytes {
        push_escaped_byte(text, *byte)?;
    }
    Ok(())
}

/// Adds a byte as text: a question mark where it is none of ASCII's printed ones.
#[tactic(auto, unfolding(crate::specs::picture::Elements::escaped_byte))]
fn push_escaped_byte(text: &mut Vec<u8>, byte: u8) -> Result<(), AllocError>
    ensures { OnOk result (text.new.items ≡ text.old.items ++ escaped_byte byte) }
{
    if byte == b'&' {
        text.extend_from_slice(b"&amp;")
    } else if byte == b'<' {
        text.extend_from_slice(b"&lt;")
    } else if byte == b'>' {
        text.extend_from_slice(b"&gt;")
    } else if 32 <= byte && byte <= 126 {
        text.extend_from_slice(&[byte])
    } else {
        text.extend_from_slice(b"?")
    }
}
