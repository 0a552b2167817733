//! When the lines of a run are in colours.
ghost use Rattle.std.specs.Prelude.{◌≡◌, ◌++◌, codes, map, slice_get};
ghost use Rattle.std.specs.String.{string_bytes};
ghost use Rattle.line_colours.specs.When.{are_coloured, asks, is_word};

use std::env;
use std::env::VarError;

/// Whether a word of the command line is there and is this one.
#[tactic(auto, unfolding(crate::specs::When::is_word))]
fn is_word(words: &[String], place: usize, wanted: &str) -> bool
    ensures { result ≡ is_word wanted.now (slice_get (map string_bytes words.now) place) }
{
    match words.get(place) {
        Some(word) => word.as_str() == wanted,
        None => false,
    }
}

/// Whether `--color` stands among these words with `when` behind it, or `joined`, which is both in one word.
#[tactic(auto, unfolding(crate::specs::When::asks))]
fn asks(words: &[String], when: &str, joined: &str) -> bool
    requires joined { joined.now ≡ codes "--color=" ++ when.now }
    ensures { result ≡ asks when.now (map string_bytes words.now) }
{
    match words.split_first() {
        Some((word, rest)) => {
            word.as_str() == joined
                || (word.as_str() == "--color" && is_word(rest, 0, when))
                || asks(rest, when, joined)
        }
        None => false,
    }
}

/// Whether the lines that these words of a command line ask for are in colours, on a terminal or elsewhere.
#[tactic(auto, unfolding(crate::specs::When::are_coloured))]
pub fn are_coloured(words: &[String], is_terminal: bool) -> bool
    ensures { result ≡ are_coloured (map string_bytes words.now) is_terminal }
{
    let is_run = is_word(words, 1, "trace") || is_word(words, 1, "decode");
    is_run
        && (asks(words, "always", "--color=always")
            || (!asks(words, "never", "--color=never") && is_terminal))
}

/// Whether a terminal takes colours, by the environment: `NO_COLOR` has no text and `TERM` is another than `dumb`.
pub fn takes_colours(rt: &HostRuntime) -> bool {
    let has_refused = match env::var(rt, "NO_COLOR") {
        Ok(text) => !text.is_empty(),
        Err(VarError::NotPresent) => false,
        Err(_) => true,
    };
    let is_dumb = match env::var(rt, "TERM") {
        Ok(text) => text.as_str() == "dumb",
        Err(_) => false,
    };
    !has_refused && !is_dumb
}
