//! The text of a pointer to a place of a ring.

ghost use Rattle.std.specs.Prelude.{◌≡◌, ◌++◌, OnOk};
ghost use Rattle.uas_decode.specs.Printed.{name_words, pointer_digits, pointer_words};

use crate::named::{named_at, push_named};
use std::alloc::AllocError;

/// Adds ` pointer POINTER`, and what stands there in parentheses.
#[tactic(auto, unfolding(crate::specs::Printed::pointer_words))]
pub(crate) fn push_pointer(text: &mut Vec<u8>, pointer: u64) -> Result<(), AllocError>
    ensures { OnOk result (text.new.items ≡ text.old.items ++ pointer_words pointer) }
{
    push_digits(text, pointer)?;
    push_name(text, pointer)
}

/// Adds ` pointer POINTER`.
#[tactic(auto, unfolding(crate::specs::Printed::pointer_digits))]
pub(crate) fn push_digits(text: &mut Vec<u8>, pointer: u64) -> Result<(), AllocError>
    ensures { OnOk result (text.new.items ≡ text.old.items ++ pointer_digits pointer) }
{
    let digits = hex::encode(*text.allocator(), pointer.to_be_bytes())?;
    let words = format!(in *text.allocator(); " pointer {digits}")?;
    text.extend_from_slice(words.as_bytes())
}

/// Adds what stands at an address, in parentheses.
#[tactic(auto, unfolding(crate::specs::Printed::name_words))]
fn push_name(text: &mut Vec<u8>, address: u64) -> Result<(), AllocError>
    ensures { OnOk result (text.new.items ≡ text.old.items ++ name_words address) }
{
    let Some(named) = named_at(address) else {
        return Ok(());
    };
    text.extend_from_slice(b" (")?;
    push_named(text, &named)?;
    text.extend_from_slice(b")")
}
