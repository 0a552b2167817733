//! A number behind its name.

ghost use Rattle.std.specs.Prelude.{◌≡◌, ◌++◌, OnOk};
ghost use Rattle.std.specs.Fmt.{decimal};

use std::alloc::AllocError;

/// Adds a name, and a number in decimal.
pub(super) fn push_number(text: &mut Vec<u8>, name: &str, number: u64) -> Result<(), AllocError>
    ensures { OnOk result (text.new.items ≡ text.old.items ++ name.now ++ decimal number) }
{
    let words = format!(in *text.allocator(); "{name}{number}")?;
    text.extend_from_slice(words.as_bytes())
}
