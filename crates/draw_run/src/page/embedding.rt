//! A text inside a string of JSON that stands in a page.

ghost use Rattle.std.specs.Prelude.{◌≡◌, ◌++◌, OnOk};
ghost use Rattle.draw_run.specs.page.Embedded.{embedded, escaped, is_plain};

use std::alloc::AllocError;

/// Adds bytes as they stand inside a string.
#[tactic(auto, unfolding(crate::specs::page::Embedded::embedded))]
pub(crate) fn push_embedded(text: &mut Vec<u8>, bytes: &[u8]) -> Result<(), AllocError>
    ensures { OnOk result (text.new.items ≡ text.old.items ++ embedded bytes.now) }
{
    for byte in bytes {
        push_escaped(text, *byte)?;
    }
    Ok(())
}

/// Adds a byte as it stands inside a string (RFC 8259, 7).
#[tactic(auto, unfolding(crate::specs::page::Embedded::escaped))]
fn push_escaped(text: &mut Vec<u8>, byte: u8) -> Result<(), AllocError>
    ensures { OnOk result (text.new.items ≡ text.old.items ++ escaped byte) }
{
    if is_plain(byte) {
        text.push(byte)?;
        Ok(())
    } else if byte == b'\n' {
        text.extend_from_slice(b"\\n")
    } else {
        text.extend_from_slice(b"\\u00")?;
        let digits = hex::encode(*text.allocator(), [byte])?;
        text.extend_from_slice(digits.as_bytes())
    }
}

/// Whether a byte is printed and ends neither a string nor an element.
#[tactic(auto, unfolding(crate::specs::page::Embedded::is_plain))]
fn is_plain(byte: u8) -> bool
    ensures { result ≡ is_plain byte }
{
    32 <= byte
        && byte <= 126
        && byte != b'"'
        && byte != b'\\'
        && byte != b'&'
        && byte != b'<'
        && byte != b'>'
}
