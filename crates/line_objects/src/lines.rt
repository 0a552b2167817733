//! The words of a line.
ghost use Rattle.std.specs.Prelude.{◌≡◌, ◌≤◌, length, position};
ghost use Rattle.std.specs.List.{position_or_len};
ghost use Rattle.line_objects.specs.Lines.{behind_word, first_word, from_word, has_word, is_numeral, is_other, is_space};

use byte_io::is_number;

/// The place of the first byte of a line that is no space.
fn first_other(line: &[u8]) -> Option<usize>
    ensures { result ≡ position is_other line.now }
{
    line.iter().position(|byte| *byte != b' ')
}

/// The place of the first space of a line.
fn first_space(line: &[u8]) -> Option<usize>
    ensures { result ≡ position is_space line.now }
{
    line.iter().position(|byte| *byte == b' ')
}

/// How many spaces a line begins with.
fn spaces(line: &[u8]) -> usize
    ensures count { result ≡ position_or_len is_other line.now }
    ensures bound { result ≤ length line.now }
{
    first_other(line).unwrap_or(line.len())
}

/// How many bytes stand before the first space.
fn word_len(line: &[u8]) -> usize
    ensures count { result ≡ position_or_len is_space line.now }
    ensures bound { result ≤ length line.now }
{
    first_space(line).unwrap_or(line.len())
}

/// A line from its first word on.
pub(crate) fn from_word(line: &[u8]) -> &[u8]
    ensures { result.now ≡ from_word line.entry.now }
{
    &line[spaces(line)..]
}

/// The first word of a line; an empty one where it has none.
pub(crate) fn first_word(line: &[u8]) -> &[u8]
    ensures { result.now ≡ first_word line.entry.now }
{
    let words = from_word(line);
    &words[..word_len(words)]
}

/// What stands behind the first word of a line.
pub(crate) fn behind_word(line: &[u8]) -> &[u8]
    ensures { result.now ≡ behind_word line.entry.now }
{
    let words = from_word(line);
    &words[word_len(words)..]
}

/// Whether a line has a word.
pub(crate) fn has_word(line: &[u8]) -> bool
    ensures { result ≡ has_word line.now }
{
    !from_word(line).is_empty()
}

/// Whether a word is a number without zeros in front of it.
pub(crate) fn is_numeral(word: &[u8]) -> bool
    ensures { result ≡ is_numeral word.now }
{
    match word {
        [first, rest @ ..] => is_number(word) && (*first != b'0' || rest.is_empty()),
        [] => false,
    }
}
