//! A text as objects, line by line.
ghost use Rattle.std.specs.Prelude.{◌≡◌, ℕ, List, ◌∷◌, ◌++◌, [], IfOk, OnOk, length, if◌then◌else◌, ◌==◌};
ghost use Rattle.line_objects.specs.Objects.{object_line, objects, objects_from};

use crate::Form;
use crate::fields::fields_of;
use crate::values::push_object;
use std::alloc::{AllocError, Global};

/// A text as objects: each line's, and a line feed behind it.
pub fn objects(alloc: Global, form: Form, bytes: &[u8]) -> Result<Vec<u8>, AllocError>
    ensures { IfOk result (λ text. text.items ≡ objects form bytes.now) }
{
    let mut teller = Teller::new(alloc, form);
    teller.take(bytes)?;
    teller.finish()?;
    Ok(teller.text)
}

/// The objects so far, and a line that has no end yet.
#[derive(Drop)]
struct Teller {
    alloc: Global,
    form: Form,
    text: Vec<u8>,
    line: Vec<u8>,
}

impl Teller {
    /// Nothing that was taken in.
    fn new(alloc: Global, form: Form) -> Teller
        ensures form { result.form ≡ form }
        ensures text { result.text.items ≡ [] }
        ensures line { result.line.items ≡ [] }
    {
        Teller {
            alloc,
            form,
            text: Vec::new(alloc),
            line: Vec::new(alloc),
        }
    }

    /// Takes the next bytes in.
    fn take(&mut self, bytes: &[u8]) -> Result<(), AllocError>
        ensures text { OnOk result ((rest : List ℕ) → self.old.text.items ++ objects_from self.old.form self.old.line.items (bytes.now ++ rest)
            ≡ self.new.text.items ++ objects_from self.old.form self.new.line.items rest) }
        ensures form { self.new.form ≡ self.old.form }
    {
        for byte in bytes {
            self.push(*byte)?;
        }
        Ok(())
    }

    /// Takes the next byte in.
    fn push(&mut self, byte: u8) -> Result<(), AllocError>
        ensures text { OnOk result ((rest : List ℕ) → self.old.text.items ++ objects_from self.old.form self.old.line.items (byte ∷ rest)
            ≡ self.new.text.items ++ objects_from self.old.form self.new.line.items rest) }
        ensures form { self.new.form ≡ self.old.form }
    {
        if byte == b'\n' {
            self.end()?;
        } else {
            self.line.push(byte)?;
        }
        Ok(())
    }

    /// Tells a last line that has no end, where it isn't empty.
    #[tactic(auto, unfolding(crate::specs::Objects::objects_from))]
    fn finish(&mut self) -> Result<(), AllocError>
        ensures { OnOk result (self.new.text.items ≡ self.old.text.items ++ objects_from self.old.form self.old.line.items []) }
    {
        if self.line.is_empty() {
            return Ok(());
        }
        self.end()
    }

    /// Tells the line, and begins the next one.
    fn end(&mut self) -> Result<(), AllocError>
        ensures text { OnOk result (self.new.text.items ≡ self.old.text.items ++ object_line self.old.form self.old.line.items) }
        ensures line { OnOk result (self.new.line.items ≡ []) }
        ensures form { self.new.form ≡ self.old.form }
    {
        push_line(self.alloc, self.form, &mut self.text, &self.line)?;
        self.line.clear();
        Ok(())
    }
}

/// Adds the object of a line, and a line feed.
#[tactic(auto, unfolding(crate::specs::Objects::object_line))]
fn push_line(alloc: Global, form: Form, text: &mut Vec<u8>, line: &[u8]) -> Result<(), AllocError>
    ensures { OnOk result (text.new.items ≡ text.old.items ++ object_line form line.now) }
{
    let fields = fields_of(alloc, form, line)?;
    push_object(text, &fields)?;
    text.push(b'\n')?;
    Ok(())
}
