//! A text in colours, line by line.

ghost use Rattle.std.specs.Prelude.{◌≡◌, ℕ, List, ◌∷◌, ◌++◌, [], map, IfOk, OnOk};
ghost use Rattle.std.specs.Str.{bytes_eq};
ghost use Rattle.line_colours.specs.Colours.{begun, colour_named, colour_of, coloured, coloured_from, coloured_line};

use crate::Colour;
use byte_io::words;
use std::alloc::{AllocError, Global};

/// A text in colours.
pub fn coloured(alloc: Global, bytes: &[u8]) -> Result<Vec<u8>, AllocError>
    ensures { IfOk result (λ text. text.items ≡ coloured bytes.now) }
{
    let mut painter = Painter::new(alloc);
    painter.take(bytes)?;
    painter.end()?;
    Ok(painter.text)
}

/// The text so far, and a line that has no end yet.
#[derive(Drop)]
struct Painter {
    alloc: Global,
    text: Vec<u8>,
    line: Vec<u8>,
}

impl Painter {
    /// Nothing that was taken in.
    fn new(alloc: Global) -> Painter
        ensures text { result.text.items ≡ [] }
        ensures line { result.line.items ≡ [] }
    {
        Painter {
            alloc,
            text: Vec::new(alloc),
            line: Vec::new(alloc),
        }
    }

    /// Takes the next bytes in.
    fn take(&mut self, bytes: &[u8]) -> Result<(), AllocError>
        ensures { OnOk result ((rest : List ℕ) → self.old.text.items ++ coloured_from self.old.line.items (bytes.now ++ rest)
            ≡ self.new.text.items ++ coloured_from self.new.line.items rest) }
    {
        for byte in bytes {
            self.push(*byte)?;
        }
        Ok(())
    }

    /// Takes the next byte in.
    fn push(&mut self, byte: u8) -> Result<(), AllocError>
        ensures { OnOk result ((rest : List ℕ) → self.old.text.items ++ coloured_from self.old.line.items (byte ∷ rest)
            ≡ self.new.text.items ++ coloured_from self.new.line.items rest) }
    {
        if byte == b'\n' {
            self.end()?;
            self.text.push(byte)?;
        } else {
            self.line.push(byte)?;
        }
        Ok(())
    }

    /// Shows the line, and begins the next one.
    fn end(&mut self) -> Result<(), AllocError>
        ensures text { OnOk result (self.new.text.items ≡ self.old.text.items ++ coloured_line self.old.line.items) }
        ensures line { OnOk result (self.new.line.items ≡ []) }
    {
        push_line(self.alloc, &mut self.text, &self.line)?;
        self.line.clear();
        Ok(())
    }
}

/// Adds a line in its colour.
#[tactic(auto, unfolding(crate::specs::Colours::coloured_line))]
fn push_line(alloc: Global, text: &mut Vec<u8>, line: &[u8]) -> Result<(), AllocError>
    ensures { OnOk result (text.new.items ≡ text.old.items ++ coloured_line line.now) }
{
    let words = words(alloc, line)?;
    match colour_of(&words) {
        None => text.extend_from_slice(line),
        Some(colour) => {
            text.extend_from_slice(colour.begun())?;
            text.extend_from_slice(line)?;
            text.extend_from_slice(b"\x1b[0m")
        }
    }
}

/// The colour of a line of these words.
#[tactic(auto, unfolding(crate::specs::Colours::colour_of))]
fn colour_of(words: &[&[u8]]) -> Option<Colour>
    ensures { result ≡ colour_of (map (λ word. word.now) words.now) }
{
    match words.get(0) {
        Some(word) => colour_named(word, words.len() == 1),
        None => None,
    }
}

fn is_word(word: &[u8], name: &str) -> bool
    ensures { result ≡ bytes_eq word.now name.now }
{
    word == name.as_bytes()
}

/// The colour of a line by its first word, and by whether that is alone.
#[tactic(auto, unfolding(crate::specs::Colours::colour_named))]
fn colour_named(word: &[u8], is_alone: bool) -> Option<Colour>
    ensures { result ≡ colour_named word.now is_alone }
{
    if is_word(word, "unit") || is_word(word, "cdb") || is_word(word, "sense") {
        Some(Colour::Green)
    } else if is_word(word, "put") || is_word(word, "link") || is_word(word, "trb") {
        Some(Colour::Cyan)
    } else if is_word(word, "bell") {
        Some(Colour::Magenta)
    } else if is_word(word, "in") || is_word(word, "out") {
        Some(Colour::Blue)
    } else if is_word(word, "context") {
        Some(Colour::Yellow)
    } else if is_word(word, "event") {
        if is_alone {
            Some(Colour::Bold)
        } else {
            Some(Colour::Yellow)
        }
    } else if is_word(word, "submit") || is_word(word, "task") || is_word(word, "take") {
        Some(Colour::Bold)
    } else if is_word(word, "command") || is_word(word, "engine") {
        Some(Colour::Bold)
    } else if is_word(word, "data") || is_word(word, "status") || is_word(word, "retire") {
        Some(Colour::Bold)
    } else {
        None
    }
}

impl Colour {
    /// What sets it.
    #[tactic(auto, unfolding(crate::specs::Colours::begun))]
    fn begun(self) -> &'static [u8]
        ensures { result.now ≡ begun self }
    {
        match self {
            Colour::Bold => b"\x1b[1m",
            Colour::Green => b"\x1b[32m",
            Colour::Yellow => b"\x1b[33m",
            Colour::Blue => b"\x1b[34m",
            Colour::Magenta => b"\x1b[35m",
            Colour::Cyan => b"\x1b[36m",
        }
    }
}
