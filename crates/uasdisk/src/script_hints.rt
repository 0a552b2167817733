//! What a person reads below the fault of a script's line: what is wrong with the line, as editors and hands write it.

ghost use Rattle.std.specs.Prelude.{◌≡◌};

use byte_io::{ReadFailed, Source};
use std::alloc::Global;
use std::io;
use std::io::Write;

/// The most bytes that are kept of a script, which has no more.
const MOST_BYTES: usize = 1_048_576;

/// The words of a script that are no numbers.
const WORDS: [&str; 20] = [
    "tur",
    "inquiry",
    "capacity",
    "capacity16",
    "read",
    "read16",
    "write",
    "write16",
    "sync",
    "abort",
    "query",
    "reset",
    "command",
    "engine",
    "event",
    "data",
    "status",
    "retire",
    "take",
    "drain",
];

/// A source that keeps what is read of it, where somebody watches.
#[derive(Drop)]
pub struct Kept<S: Source> {
    source: S,
    text: Vec<u8>,
    keeps: bool,
}

impl<S: Source> Kept<S> {
    /// A source that keeps what is read of it, or doesn't.
    pub fn new(alloc: Global, source: S, keeps: bool) -> Kept<S>
        ensures { result.source ≡ source }
    {
        Kept {
            source,
            text: Vec::new(alloc),
            keeps,
        }
    }

    /// What was read, as far as it was kept.
    pub fn text(&self) -> &[u8] {
        self.text.as_slice()
    }

    fn keep(&mut self, bytes: &[u8])
        ensures { self.new.source ≡ self.old.source }
    {
        if self.keeps
            && self.text.len() < MOST_BYTES
            && self.text.extend_from_slice(bytes).is_err()
        {
            self.keeps = false;
        }
    }
}

impl<S: Source> Source for Kept<S> {
    ghost left = { λ kept. S.left kept.source };

    ghost can_fail = { λ kept. S.can_fail kept.source };

    ghost is_there = { λ kept. S.is_there kept.source };

    fn read(&mut self, buffer: &mut [u8]) -> Result<usize, ReadFailed> {
        match self.source.read(buffer) {
            Ok(count) => {
                self.keep(buffer.get(..count).unwrap_or(b""));
                Ok(count)
            }
            Err(failed) => Err(failed),
        }
    }
}

/// Says what is wrong with the line that a fault names, where it is one of these. Tells whether it said something.
pub fn say<W: Write>(script: &[u8], fault: &[u8], faults: &mut W) -> io::Result<bool> {
    let Some((number, what)) = line_of(fault) else {
        return Ok(false);
    };
    let Some(line) = script
        .split(|byte| *byte == b'\n')
        .nth(number.saturating_sub(1))
    else {
        return Ok(false);
    };
    if let Some(sign) = sign_of(line) {
        writeln!(faults, "  line {number} {sign}")?;
        return Ok(true);
    }
    if what != b"unknown word".as_slice() {
        return Ok(false);
    }
    for word in line.split(|byte| *byte == b' ') {
        if let (Some(known), Ok(word)) = (meant(word), str::from_utf8(word)) {
            writeln!(faults, "  \"{word}\": did you mean {known}?")?;
            return Ok(true);
        }
    }
    Ok(false)
}

/// The number of a line and what is wrong with it, of a fault `line N: WHAT`.
fn line_of(fault: &[u8]) -> Option<(usize, &[u8])> {
    let rest = fault.strip_prefix(b"line ")?;
    let digits = rest.iter().take_while(|byte| byte.is_ascii_digit()).count();
    let number = str::from_utf8(rest.get(..digits)?).ok()?.parse().ok()?;
    let what = rest.get(digits..)?.strip_prefix(b": ")?;
    Some((number, what))
}

/// What an editor or a hand put into a line that no script has.
fn sign_of(line: &[u8]) -> Option<&'static str> {
    if line.starts_with(b"\xef\xbb\xbf") {
        return Some("begins with a byte order mark: save the script as plain ASCII");
    }
    if line.ends_with(b"\r") {
        return Some("ends with a carriage return: was it saved by an editor of Windows?");
    }
    if line.contains(&b'\t') {
        return Some("has a tab: words stand between spaces");
    }
    if line.first() != Some(&b'#') && line.contains(&b'#') {
        return Some("has a # behind its beginning: a remark is a line that begins with #");
    }
    if !line.is_ascii() {
        return Some("has a character that isn't ASCII, in a remark too");
    }
    None
}

/// The word that another one is by one letter, or by two neighbours that changed places.
fn meant(word: &[u8]) -> Option<&'static str> {
    for known in WORDS {
        if known.as_bytes() == word {
            return None;
        }
    }
    for known in WORDS {
        if is_near(word, known.as_bytes()) {
            return Some(known);
        }
    }
    None
}

/// Whether two words differ in one letter, or in two neighbours that changed places.
fn is_near(one: &[u8], other: &[u8]) -> bool {
    if one.len() < 2 {
        return false;
    }
    let front = alike_at_front(one, other);
    let one = one.get(front..).unwrap_or(b"");
    let other = other.get(front..).unwrap_or(b"");
    let back = alike_at_back(one, other);
    let one = one.get(..one.len().saturating_sub(back)).unwrap_or(b"");
    let other = other.get(..other.len().saturating_sub(back)).unwrap_or(b"");
    match (one, other) {
        ([_], [_]) | ([_], []) | ([], [_]) => true,
        ([a, b], [c, d]) => a == d && b == c,
        _ => false,
    }
}

/// How many bytes of two words are alike from their beginning on.
fn alike_at_front(one: &[u8], other: &[u8]) -> usize {
    let mut count: usize = 0;
    for (mine, theirs) in one.iter().zip(other.iter()) {
        if mine != theirs {
            return count;
        }
        count = count.saturating_add(1);
    }
    count
}

/// How many bytes of two words are alike up to their end.
fn alike_at_back(one: &[u8], other: &[u8]) -> usize {
    let mut count: usize = 0;
    for (mine, theirs) in one.iter().rev().zip(other.iter().rev()) {
        if mine != theirs {
            return count;
        }
        count = count.saturating_add(1);
    }
    count
}
